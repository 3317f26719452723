//! Volume descriptor sequences (ECMA-167 3/8.4).

ghost use Rattle.std.specs.Prelude.{◌≡◌, ◌≤◌, ◌<◌, ◌+◌, ◌/◌, ◌∷◌, [], ℕ, IfOk, IsTrue, IsOk, IsErrOf, OnErr, length, true};
ghost use Rattle.udfs_lattice.specs.Tables.{state_of};
ghost use Rattle.udfs_lattice.specs.Volumes.{ascending};
ghost use Rattle.udfs_volume.specs.Seen.{Sees, HolesRise, TellsFault};
ghost use Rattle.udfs_volume.specs.Sequence.{are_extents, are_extents_by, exchanged, fits_to, is_extent, position, positions, read_positions, reserve_sequence_by, sequence, sequence_at, sequence_by, shared};
ghost use Rattle.udfs_volume.specs.Sequences.{descriptor_of, position_now, sequence_now};

use crate::anchors::{AnchorExtents, anchor_by};
use crate::descriptors::{Descriptor, Sequence};
use crate::faults::VolumeFault;
use crate::profiles::Profile;
use crate::seen::Seen;
use std::alloc::{AllocError, Global};
use udfs_lattice::{BlockStore, BlockTable, Fact, GaveUp, ReadFault};
use udfs_tag::{ExtentAd, Tag, identifiers};

/// What is at a position of a sequence, which has two copies of each position.
#[derive(Drop)]
enum Position {
    /// Neither copy is known.
    Unread,
    /// The first known copy is no sound descriptor at its block.
    Invalid,
    /// The first known copy is this descriptor.
    Descriptor(Descriptor),
}

/// The descriptor that fills a block at its place.
fn descriptor_at(alloc: Global, block: &[u8; 2048], place: u32) -> Result<Position, AllocError>
    ensures { IfOk result (λ position. position_now [] position ≡ descriptor_of block.now place) }
{
    match Tag::check(block, place) {
        Ok(tag) => Ok(Position::Descriptor(Descriptor {
            identifier: tag.identifier,
            block: Box::new(alloc, *block)?,
        })),
        Err(_) => Ok(Position::Invalid),
    }
}

/// Of the two copies the first that is known, at its own place.
#[tactic(auto, unfolding(crate::specs::Sequence::position))]
fn read_position<B: BlockStore>(
    alloc: Global,
    blocks: &B,
    main: u32,
    reserve: u32,
) -> Result<Position, GaveUp>
    ensures value { IfOk result (λ here. B.tells → position_now (main ∷ reserve ∷ []) here ≡ position (B.states blocks.now) main reserve) }
    ensures fails { IsErrOf result GaveUp.Unread → B.fails }
{
    let mut room = [0; 2048];
    if let Fact::Known(block) = blocks.lend(main, &mut room)? {
        return Ok(descriptor_at(alloc, block, main)?);
    }
    match blocks.lend(reserve, &mut room)? {
        Fact::Known(block) => Ok(descriptor_at(alloc, block, reserve)?),
        _ => Ok(Position::Unread),
    }
}

/// Two numbers, ascending and each once.
fn ascending(alloc: Global, a: u32, b: u32) -> Result<Vec<u32>, AllocError>
    ensures { IfOk result (λ numbers. numbers.items ≡ ascending (a ∷ b ∷ [])) }
{
    if a < b {
        return Ok(vec![in alloc; a, b]?);
    }
    if a == b {
        return Ok(vec![in alloc; b]?);
    }
    Ok(vec![in alloc; b, a]?)
}

/// Whether the extent ends at the last block or before.
fn fits_to(last: u32, extent: ExtentAd) -> bool
    requires { last ≤ 4194303 }
    ensures { result ≡ fits_to last extent }
{
    u64::from(extent.block) + u64::from(extent.length / 2048) <= u64::from(last) + 1
}

/// Whether both extents have one length of 16 to 256 whole blocks, and none passes the last block.
fn are_extents(last: u32, extents: AnchorExtents) -> bool
    requires { last ≤ 4194303 }
    ensures { result ≡ are_extents last extents }
{
    extents.main.length == extents.reserve.length
        && extents.main.length % 2048 == 0
        && (32_768..=524_288).contains(&extents.main.length)
        && fits_to(last, extents.main)
        && fits_to(last, extents.reserve)
}

/// Whether the extent has 1 to 256 whole blocks and does not pass the last block.
fn is_extent(last: u32, extent: ExtentAd) -> bool
    requires { last ≤ 4194303 }
    ensures { result ≡ is_extent last extent }
{
    extent.length % 2048 == 0 && (2_048..=524_288).contains(&extent.length) && fits_to(last, extent)
}

/// Whether the extents are taken: by the strict rules those of [`are_extents`], by the wide ones two of [`is_extent`].
pub(crate) fn are_extents_by(profile: Profile, last: u32, extents: AnchorExtents) -> bool
    requires { last ≤ 4194303 }
    ensures { result ≡ are_extents_by profile last extents }
{
    match profile {
        Profile::Strict => are_extents(last, extents),
        Profile::Wide => is_extent(last, extents.main) && is_extent(last, extents.reserve),
    }
}

/// Both extents as far as the shorter one goes.
pub(crate) fn shared(extents: AnchorExtents) -> AnchorExtents
    ensures { result ≡ shared extents }
{
    let length = if extents.main.length <= extents.reserve.length {
        extents.main.length
    } else {
        extents.reserve.length
    };
    AnchorExtents {
        main: ExtentAd {
            length,
            block: extents.main.block,
        },
        reserve: ExtentAd {
            length,
            block: extents.reserve.block,
        },
    }
}

/// Reads the positions in turn, up to the end.
fn read_positions<B: BlockStore>(
    alloc: Global,
    blocks: &B,
    extents: AnchorExtents,
) -> Result<Seen<Sequence>, GaveUp>
    requires main { extents.main.block + extents.main.length / 2048 ≤ 4194304 }
    requires reserve { extents.reserve.block + extents.main.length / 2048 ≤ 4194304 }
    ensures value { IfOk result (λ seen. B.tells → Sees sequence_now seen (read_positions (positions (B.states blocks.now) extents))) }
    ensures fails { IsErrOf result GaveUp.Unread → B.fails }
{
    let mut descriptors = Vec::new(alloc);
    for i in 0..extents.main.length / 2048 {
        let main = extents.main.block + i;
        let reserve = extents.reserve.block + i;
        match read_position(alloc, blocks, main, reserve)? {
            Position::Unread => return Ok(Seen::Holes(ascending(alloc, main, reserve)?)),
            Position::Invalid => return Ok(Seen::Got(Sequence { descriptors })),
            Position::Descriptor(descriptor) => {
                if descriptor.identifier == identifiers::VOLUME_DESCRIPTOR_POINTER {
                    return Ok(Seen::Fault(VolumeFault::Pointer));
                }
                if descriptor.identifier == identifiers::TERMINATING {
                    return Ok(Seen::Got(Sequence { descriptors }));
                }
                descriptors.push(descriptor)?;
            }
        }
    }
    Ok(Seen::Got(Sequence { descriptors }))
}

/// The sequence in these extents, or the fault `Extents` where [`are_extents_by`] does not hold.
#[tactic(auto, using(crate::proofs::Walking::unfit))]
fn sequence_at<B: BlockStore>(
    alloc: Global,
    blocks: &B,
    last: u32,
    extents: AnchorExtents,
    profile: Profile,
) -> Result<Seen<Sequence>, ReadFault>
    requires { last ≤ 4194303 }
    ensures value { IfOk result (λ seen. B.tells → Sees sequence_now seen (sequence_at profile (B.states blocks.now) last extents)) }
    ensures memory { IfOk result (λ seen. seen ≡ Seen.OutOfMemory → IsTrue (are_extents_by profile last extents)) }
    ensures fails { OnErr result B.fails }
{
    if !are_extents_by(profile, last, extents) {
        return Ok(Seen::Fault(VolumeFault::Extents));
    }
    match read_positions(alloc, blocks, shared(extents)) {
        Ok(seen) => Ok(seen),
        Err(GaveUp::OutOfMemory) => Ok(Seen::OutOfMemory),
        Err(GaveUp::Unread) => Err(ReadFault),
    }
}

/// The same as [`sequence_by`], by any store of blocks.
///
/// # Errors
///
/// `ReadFault` where the bytes of a known block could not be read. Nothing is told of the volume then.
pub fn sequence_in<B: BlockStore>(
    alloc: Global,
    blocks: &B,
    last: u32,
    profile: Profile,
) -> Result<Seen<Sequence>, ReadFault>
    requires from { 513 ≤ last }
    requires to { last ≤ 4194303 }
    ensures value { IfOk result (λ seen. B.tells → Sees sequence_now seen (sequence_by profile (B.states blocks.now) last)) }
    ensures rising { IfOk result (λ seen. B.tells → HolesRise seen) }
    ensures no_anchor { IfOk result (λ seen. B.tells → TellsFault VolumeFault.NoAnchor seen (sequence_by profile (B.states blocks.now) last)) }
    ensures extents { IfOk result (λ seen. B.tells → TellsFault VolumeFault.Extents seen (sequence_by profile (B.states blocks.now) last)) }
    ensures fails { OnErr result B.fails }
{
    match anchor_by(alloc, blocks, last)? {
        Seen::Got(extents) => sequence_at(alloc, blocks, last, extents, profile),
        Seen::Holes(holes) => Ok(Seen::Holes(holes)),
        Seen::Fault(fault) => Ok(Seen::Fault(fault)),
        Seen::OutOfMemory => Ok(Seen::OutOfMemory),
    }
}

/// Both extents with their roles exchanged.
fn exchanged(extents: AnchorExtents) -> AnchorExtents
    ensures { result ≡ exchanged extents }
{
    AnchorExtents {
        main: extents.reserve,
        reserve: extents.main,
    }
}

/// The sequence with the roles of both extents exchanged: at each position the reserve copy is read where it is known, else the
/// main copy.
pub(crate) fn reserve_sequence_in<B: BlockStore>(
    alloc: Global,
    blocks: &B,
    last: u32,
    profile: Profile,
) -> Result<Seen<Sequence>, ReadFault>
    requires from { 513 ≤ last }
    requires to { last ≤ 4194303 }
    ensures value { IfOk result (λ seen. B.tells → Sees sequence_now seen (reserve_sequence_by profile (B.states blocks.now) last)) }
    ensures fails { OnErr result B.fails }
{
    match anchor_by(alloc, blocks, last)? {
        Seen::Got(extents) => sequence_at(alloc, blocks, last, exchanged(extents), profile),
        Seen::Holes(holes) => Ok(Seen::Holes(holes)),
        Seen::Fault(fault) => Ok(Seen::Fault(fault)),
        Seen::OutOfMemory => Ok(Seen::OutOfMemory),
    }
}

/// The volume descriptor sequence of the first known and valid anchor, up to its end: a block that is no
/// sound descriptor at its place, a terminating descriptor, or the end of the extent. At each position the
/// main copy is read where it is known, else the reserve copy; where neither is known, the two are holes.
/// A volume descriptor pointer before the end is the fault `Pointer`.
///
/// By the strict rules both extents have one length, of 16 to 256 whole blocks. By the wide ones each has a length of its own,
/// of 1 to 256 whole blocks, and the sequence is as long as the shorter one. Other extents are the fault `Extents`.
///
/// Holes and descriptors take memory, and the result is `OutOfMemory` where it runs out. `NoAnchor` and
/// `Extents` are reported even then.
pub fn sequence_by(alloc: Global, table: &BlockTable, last: u32, profile: Profile) -> Seen<Sequence>
    requires from { 513 ≤ last }
    requires to { last ≤ 4194303 }
    ensures value { Sees sequence_now result (sequence_by profile (state_of table.now) last) }
    ensures rising { HolesRise result }
    ensures no_anchor { TellsFault VolumeFault.NoAnchor result (sequence_by profile (state_of table.now) last) }
    ensures extents { TellsFault VolumeFault.Extents result (sequence_by profile (state_of table.now) last) }
{
    match sequence_in(alloc, table, last, profile) {
        Ok(seen) => seen,
        Err(_) => unreachable!(),
    }
}

/// The volume descriptor sequence by the strict rules: [`sequence_by`] with [`Profile::Strict`].
pub fn sequence(alloc: Global, table: &BlockTable, last: u32) -> Seen<Sequence>
    requires from { 513 ≤ last }
    requires to { last ≤ 4194303 }
    ensures value { Sees sequence_now result (sequence (state_of table.now) last) }
    ensures rising { HolesRise result }
    ensures no_anchor { TellsFault VolumeFault.NoAnchor result (sequence (state_of table.now) last) }
    ensures extents { TellsFault VolumeFault.Extents result (sequence (state_of table.now) last) }
{
    sequence_by(alloc, table, last, Profile::Strict)
}
