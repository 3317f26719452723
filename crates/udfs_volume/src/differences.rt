//! Known copies that do not say the same, as on a disc of several sessions, or one that was formatted twice.

ghost use Rattle.std.specs.Prelude.{◌≡◌, ◌≢◌, ◌≤◌, ◌+◌, ◌/◌, IfOk, IsTrue, None, OnErr, find, option_map};
ghost use Rattle.std.specs.Borrow.{Bor};
ghost use Rattle.udfs_lattice.specs.States.{fact_now};
ghost use Rattle.udfs_lattice.specs.Tables.{state_of};
ghost use Rattle.udfs_volume.specs.Answers.{IsHoles};
ghost use Rattle.udfs_volume.specs.Seen.{Sees};
ghost use Rattle.udfs_volume.specs.Laws.{is_of_layout};
ghost use Rattle.udfs_volume.specs.Sequence.{anchor, goes_on, position};
ghost use Rattle.udfs_volume.specs.Sequences.{descriptor_of};
ghost use Rattle.udfs_volume.specs.Differences.{AgreesWithNoLayoutBy, AnchorsAgreeBy, CopiesAgreeBy, anchors_apart, anchors_differ, apart_from, contents_differ, copies_differ, differ_in, differs_known, has_anchor, known_differ, named_at, say_the_same};

use crate::anchors::{AnchorExtents, anchor_by, places};
use crate::descriptors::behind;
use crate::profiles::Profile;
use crate::seen::Seen;
use crate::sequences::{are_extents_by, shared};
use std::alloc::Global;
use udfs_lattice::{BlockStore, BlockTable, Fact, ReadFault};
use udfs_tag::{Tag, identifiers};

/// The bytes 16 to 31 of the anchor at a place, if it is known and valid there.
fn named_at<'r, B: BlockStore>(
    blocks: &'r B,
    place: u32,
    room: &'r mut [u8; 2048],
) -> Result<Option<&'r [u8]>, ReadFault>
    ensures value { IfOk result (λ named. B.tells → option_map (λ bytes. bytes.now) named ≡ named_at (B.states blocks.now) place) }
    ensures fails { OnErr result B.fails }
{
    match blocks.lend(place, room)? {
        Fact::Known(block) => {
            if Tag::is_valid(block, place, identifiers::ANCHOR) {
                Ok(Some(&block[16..32]))
            } else {
                Ok(None)
            }
        }
        _ => Ok(None),
    }
}

/// Whether there is a known, valid anchor at a place.
fn has_anchor<B: BlockStore>(blocks: &B, place: u32) -> Result<bool, ReadFault>
    ensures value { IfOk result (λ has. B.tells → has ≡ has_anchor (B.states blocks.now) place) }
    ensures fails { OnErr result B.fails }
{
    let mut room = [0; 2048];
    match named_at(blocks, place, &mut room)? {
        Some(_) => Ok(true),
        None => Ok(false),
    }
}

/// Whether there are known, valid anchors at two places, and they name different extents.
fn anchors_differ<B: BlockStore>(blocks: &B, one: u32, other: u32) -> Result<bool, ReadFault>
    ensures value { IfOk result (λ differ. B.tells → differ ≡ anchors_differ (B.states blocks.now) one other) }
    ensures fails { OnErr result B.fails }
{
    let mut first_room = [0; 2048];
    let mut room = [0; 2048];
    let Some(first) = named_at(blocks, one, &mut first_room)? else {
        return Ok(false);
    };
    match named_at(blocks, other, &mut room)? {
        Some(second) => Ok(first != second),
        None => Ok(false),
    }
}

/// The first of these places that has a known, valid anchor.
fn first_anchor_place<B: BlockStore>(blocks: &B, places: &[u32]) -> Result<Option<u32>, ReadFault>
    ensures value { IfOk result (λ place. B.tells → place ≡ find (has_anchor (B.states blocks.now)) places.now) }
    ensures fails { OnErr result B.fails }
{
    for place in places {
        if has_anchor(blocks, *place)? {
            return Ok(Some(*place));
        }
    }
    Ok(None)
}

/// The first of these places whose anchor names other extents than the one at `one`.
fn first_other<B: BlockStore>(
    blocks: &B,
    one: u32,
    places: &[u32],
) -> Result<Option<u32>, ReadFault>
    ensures value { IfOk result (λ place. B.tells → place ≡ find (anchors_differ (B.states blocks.now) one) places.now) }
    ensures fails { OnErr result B.fails }
{
    for place in places {
        if anchors_differ(blocks, one, *place)? {
            return Ok(Some(*place));
        }
    }
    Ok(None)
}

/// The first of these places that has a known, valid anchor, and the first whose anchor names other extents.
fn apart_in<B: BlockStore>(blocks: &B, places: &[u32]) -> Result<Option<(u32, u32)>, ReadFault>
    ensures value { IfOk result (λ apart. B.tells → apart ≡ apart_from (B.states blocks.now) places.now (find (has_anchor (B.states blocks.now)) places.now)) }
    ensures fails { OnErr result B.fails }
{
    let Some(one) = first_anchor_place(blocks, places)? else {
        return Ok(None);
    };
    match first_other(blocks, one, places)? {
        Some(other) => Ok(Some((one, other))),
        None => Ok(None),
    }
}

/// The same as [`anchors_apart`], by any store of blocks.
///
/// # Errors
///
/// `ReadFault` where the bytes of a known block could not be read. Nothing is told of the volume then.
pub fn anchors_apart_by<B: BlockStore>(
    blocks: &B,
    last: u32,
) -> Result<Option<(u32, u32)>, ReadFault>
    requires from { 513 ≤ last }
    requires to { last ≤ 4194303 }
    ensures value { IfOk result (λ apart. B.tells → apart ≡ anchors_apart (B.states blocks.now) last) }
    ensures fails { OnErr result B.fails }
{
    apart_in(blocks, &places(last))
}

/// Of the places of an anchor, the blocks 256, `last - 256` and `last`, the first that is known and valid there, and the first whose
/// anchor names other extents of the volume descriptor sequence in its bytes 16 to 31 (ECMA-167 3/10.2); `None` where all known, valid
/// anchors name the same. Where there are two, as on a disc of several sessions or one that was formatted twice, the volume that
/// is opened depends on which of them was read: no lawful volume agrees with the table, by whatever rules. It takes no memory.
pub fn anchors_apart(table: &BlockTable, last: u32) -> Option<(u32, u32)>
    requires from { 513 ≤ last }
    requires to { last ≤ 4194303 }
    ensures value { result ≡ anchors_apart (state_of table.now) last }
    ensures not_lawful { result ≢ None → (profile : Profile) → AgreesWithNoLayoutBy profile (state_of table.now) last }
{
    match anchors_apart_by(table, last) {
        Ok(apart) => apart,
        Err(_) => unreachable!(),
    }
}

/// Whether the layout is read from descriptors of this kind: partition descriptors and logical volume descriptors (ECMA-167 3/10.5,
/// 3/10.6).
fn is_of_layout(identifier: u16) -> bool
    ensures { result ≡ is_of_layout identifier }
{
    identifier == identifiers::PARTITION || identifier == identifiers::LOGICAL_VOLUME
}

/// Whether both blocks are descriptors at their places, with one identifier and, where the layout is read from them, the same bytes from
/// 16 on; or neither is a descriptor there.
fn say_the_same(one: &[u8; 2048], n: u32, other: &[u8; 2048], m: u32) -> bool
    ensures { result ≡ say_the_same one.now n other.now m }
{
    match Tag::check(one, n) {
        Ok(first) => match Tag::check(other, m) {
            Ok(second) => {
                first.identifier == second.identifier
                    && (!is_of_layout(first.identifier) || behind(one, 16) == behind(other, 16))
            }
            Err(_) => false,
        },
        Err(_) => Tag::check(other, m).is_err(),
    }
}

/// Whether the blocks do not say the same.
fn contents_differ(one: &[u8; 2048], n: u32, other: &[u8; 2048], m: u32) -> bool
    ensures { result ≡ contents_differ one.now n other.now m }
{
    !say_the_same(one, n, other, m)
}

/// The same of a block and what is known of another.
fn differs_known(one: &[u8; 2048], n: u32, other: Fact<&[u8; 2048]>, m: u32) -> bool
    ensures { result ≡ differs_known one.now n (fact_now other.entry) m }
{
    match other {
        Fact::Known(other) => contents_differ(one, n, other, m),
        _ => false,
    }
}

/// The same where both are known.
fn known_differ(one: Fact<&[u8; 2048]>, n: u32, other: Fact<&[u8; 2048]>, m: u32) -> bool
    ensures { result ≡ known_differ (fact_now one.entry) n (fact_now other.entry) m }
{
    match one {
        Fact::Known(one) => differs_known(one, n, other, m),
        _ => false,
    }
}

/// Whether the sequence goes on after a block: it is a descriptor at its place, and neither a terminating one nor a pointer.
fn goes_on(block: &[u8; 2048], place: u32) -> bool
    ensures { result ≡ goes_on (descriptor_of block.now place) }
{
    match Tag::check(block, place) {
        Ok(tag) => {
            tag.identifier != identifiers::TERMINATING
                && tag.identifier != identifiers::VOLUME_DESCRIPTOR_POINTER
        }
        Err(_) => false,
    }
}

/// Whether it is known to go on after a position, by the first of its copies that is known.
#[tactic(auto, unfolding(crate::specs::Sequence::position))]
fn goes_on_at<B: BlockStore>(blocks: &B, main: u32, reserve: u32) -> Result<bool, ReadFault>
    ensures value { IfOk result (λ on. B.tells → on ≡ goes_on (position (B.states blocks.now) main reserve)) }
    ensures fails { OnErr result B.fails }
{
    let mut room = [0; 2048];
    if let Fact::Known(block) = blocks.lend(main, &mut room)? {
        return Ok(goes_on(block, main));
    }
    match blocks.lend(reserve, &mut room)? {
        Fact::Known(block) => Ok(goes_on(block, reserve)),
        _ => Ok(false),
    }
}

/// Whether the copies of a position are both known, and do not say the same.
fn differ_at<B: BlockStore>(blocks: &B, main: u32, reserve: u32) -> Result<bool, ReadFault>
    ensures value { IfOk result (λ differ. B.tells → differ ≡ known_differ (B.states blocks.now main) main (B.states blocks.now reserve) reserve) }
    ensures fails { OnErr result B.fails }
{
    let mut main_room = [0; 2048];
    let mut room = [0; 2048];
    let one = blocks.lend(main, &mut main_room)?;
    let other = blocks.lend(reserve, &mut room)?;
    Ok(known_differ(one, main, other, reserve))
}

/// Whether the copies of a position that is known to be reached differ.
fn differ_in<B: BlockStore>(blocks: &B, extents: AnchorExtents) -> Result<bool, ReadFault>
    requires main { extents.main.block + extents.main.length / 2048 ≤ 4194304 }
    requires reserve { extents.reserve.block + extents.main.length / 2048 ≤ 4194304 }
    ensures value { IfOk result (λ differ. B.tells → differ ≡ differ_in (B.states blocks.now) extents) }
    ensures fails { OnErr result B.fails }
{
    for i in 0..extents.main.length / 2048 {
        let main = extents.main.block + i;
        let reserve = extents.reserve.block + i;
        let differ = differ_at(blocks, main, reserve)?;
        if differ {
            return Ok(true);
        }
        let on = goes_on_at(blocks, main, reserve)?;
        if !on {
            return Ok(false);
        }
    }
    Ok(false)
}

/// Whether copies differ in the extents of the anchor, where they are taken.
fn differ_by<B: BlockStore>(
    profile: Profile,
    blocks: &B,
    last: u32,
    seen: Seen<AnchorExtents>,
) -> Result<bool, ReadFault>
    requires to { last ≤ 4194303 }
    requires value { B.tells → Sees (λ extents. extents) seen (anchor (B.states blocks.now) last) }
    requires memory { B.tells → seen ≡ Seen.OutOfMemory → IsHoles (anchor (B.states blocks.now) last) }
    ensures value { IfOk result (λ differ. B.tells → differ ≡ copies_differ profile (B.states blocks.now) last) }
    ensures fails { OnErr result B.fails }
{
    match seen {
        Seen::Got(extents) => {
            if !are_extents_by(profile, last, extents) {
                return Ok(false);
            }
            differ_in(blocks, shared(extents))
        }
        _ => Ok(false),
    }
}

/// The same as [`copies_differ`], by any store of blocks.
///
/// # Errors
///
/// `ReadFault` where the bytes of a known block could not be read. Nothing is told of the volume then.
pub fn copies_differ_by<B: BlockStore>(
    alloc: Global,
    blocks: &B,
    last: u32,
    profile: Profile,
) -> Result<bool, ReadFault>
    requires from { 513 ≤ last }
    requires to { last ≤ 4194303 }
    ensures value { IfOk result (λ differ. B.tells → differ ≡ copies_differ profile (B.states blocks.now) last) }
    ensures fails { OnErr result B.fails }
{
    let seen = anchor_by(alloc, blocks, last)?;
    differ_by(profile, blocks, last, seen)
}

/// Whether a block of the main sequence and its copy in the reserve one are both known, and do not say the same, up to the position that
/// ends the sequence: one of the two is a descriptor at its place and the other is none, or they have different identifiers, or they are
/// partition descriptors or logical volume descriptors (ECMA-167 3/10.5, 3/10.6) with different bytes 16 to 2047. The volume that is opened
/// then depends on which of them was read: no lawful volume agrees with the table. `false` where no anchor is known.
pub fn copies_differ(alloc: Global, table: &BlockTable, last: u32, profile: Profile) -> bool
    requires from { 513 ≤ last }
    requires to { last ≤ 4194303 }
    ensures value { result ≡ copies_differ profile (state_of table.now) last }
    ensures not_lawful { IsTrue result → AgreesWithNoLayoutBy profile (state_of table.now) last }
{
    match copies_differ_by(alloc, table, last, profile) {
        Ok(differ) => differ,
        Err(_) => unreachable!(),
    }
}

/// The known anchors of a volume whose layout is lawful name the same extents.
pub fn anchors_agree()
    ensures { (profile : Profile) → AnchorsAgreeBy profile }
{}

/// The known copies of the volume descriptor sequence of a volume whose layout is lawful do not differ in what is read of them.
pub fn copies_agree()
    ensures { (profile : Profile) → CopiesAgreeBy profile }
{}
