//! The blocks that name a volume.

ghost use Rattle.std.specs.Prelude.{◌≡◌, ◌≤◌, ◌++◌, IfOk, IsErrOf, OnErr};
ghost use Rattle.udfs_volume.specs.Answers.{found};
ghost use Rattle.udfs_volume.specs.Sequence.{anchor};
ghost use Rattle.udfs_witnesses.specs.Witnesses.{descriptor_from, descriptors_in, is_descriptor, named};

use std::alloc::Global;
use udfs_lattice::{BlockStore, Fact, GaveUp, ReadFault};
use udfs_tag::{Tag, identifiers};
use udfs_volume::anchors::anchor_by;
use udfs_volume::{AnchorExtents, Seen};

/// The tag identifier of a primary volume descriptor (ECMA-167 3/10.1).
const PRIMARY_VOLUME: u16 = 1;

/// The least number of blocks of a volume descriptor sequence (UDF 2.2.3.1).
const SEQUENCE_BLOCKS: u32 = 16;

/// Whether a block is known and is a valid descriptor of this kind at its place.
fn is_descriptor<B: BlockStore>(
    blocks: &B,
    n: u32,
    identifier: u16,
    room: &mut [u8; 2048],
) -> Result<bool, ReadFault>
    ensures value { IfOk result (λ is. B.tells → is ≡ is_descriptor identifier n (B.states blocks.now n)) }
    ensures fails { OnErr result B.fails }
{
    match blocks.lend(n, room)? {
        Fact::Known(block) => Ok(Tag::is_valid(block, n, identifier)),
        _ => Ok(false),
    }
}

/// Appends the first of the sixteen blocks from `first` on that is a known, valid descriptor of this kind.
fn push_descriptor<B: BlockStore>(
    places: &mut Vec<u32>,
    blocks: &B,
    first: u32,
    identifier: u16,
) -> Result<(), GaveUp>
    requires { first ≤ 4194303 }
    ensures value { IfOk result (λ done. B.tells → places.new.items ≡ places.old.items ++ descriptor_from (B.states blocks.now) first identifier) }
    ensures fails { IsErrOf result GaveUp.Unread → B.fails }
{
    let mut room = [0; 2048];
    for n in first..first + SEQUENCE_BLOCKS {
        let is = is_descriptor(blocks, n, identifier, &mut room)?;
        if is {
            places.push(n)?;
            return Ok(());
        }
    }
    Ok(())
}

/// Appends those of the main extent of a primary and of a logical volume descriptor, if the extent begins on the disc.
fn push_both<B: BlockStore>(
    places: &mut Vec<u32>,
    blocks: &B,
    last: u32,
    extents: AnchorExtents,
) -> Result<(), GaveUp>
    requires { last ≤ 4194303 }
    ensures value { IfOk result (λ done. B.tells → places.new.items ≡ places.old.items ++ descriptors_in (B.states blocks.now) last (found extents)) }
    ensures fails { IsErrOf result GaveUp.Unread → B.fails }
{
    let first = extents.main.block;
    if first > last {
        return Ok(());
    }
    push_descriptor(places, blocks, first, PRIMARY_VOLUME)?;
    push_descriptor(places, blocks, first, identifiers::LOGICAL_VOLUME)
}

/// Appends those of the main extent of the anchor that is found, if one is.
fn push_descriptors<B: BlockStore>(
    alloc: Global,
    places: &mut Vec<u32>,
    blocks: &B,
    last: u32,
) -> Result<(), GaveUp>
    requires from { 513 ≤ last }
    requires to { last ≤ 4194303 }
    ensures value { IfOk result (λ done. B.tells → places.new.items ≡ places.old.items ++ descriptors_in (B.states blocks.now) last (anchor (B.states blocks.now) last)) }
    ensures fails { IsErrOf result GaveUp.Unread → B.fails }
{
    match anchor_by(alloc, blocks, last)? {
        Seen::Got(extents) => push_both(places, blocks, last, extents),
        Seen::OutOfMemory => Err(GaveUp::OutOfMemory),
        Seen::Holes(_) => Ok(()),
        Seen::Fault(_) => Ok(()),
    }
}

/// The places of the anchors, the volume's descriptors, and the structures that are given, known or not.
pub(crate) fn named_places<B: BlockStore>(
    alloc: Global,
    blocks: &B,
    last: u32,
    structures: &[u32],
) -> Result<Vec<u32>, GaveUp>
    requires from { 513 ≤ last }
    requires to { last ≤ 4194303 }
    ensures value { IfOk result (λ places. B.tells → places.items ≡ named (B.states blocks.now) last structures.now) }
    ensures fails { IsErrOf result GaveUp.Unread → B.fails }
{
    let mut places = vec![in alloc; 256, last - 256, last]?;
    push_descriptors(alloc, &mut places, blocks, last)?;
    places.extend_from_slice(structures)?;
    Ok(places)
}
