//! Anchors (ECMA-167 3/10.2).

ghost use Rattle.std.specs.Prelude.{◌≡◌, ◌≢◌, ◌≤◌, ◌∷◌, [], IfOk, IfErr, OnErr, None, option_map};
ghost use Rattle.udfs_lattice.specs.States.{is_known};
ghost use Rattle.udfs_lattice.specs.Tables.{state_of};
ghost use Rattle.udfs_lattice.specs.Volumes.{not_known};
ghost use Rattle.udfs_volume.specs.Answers.{IsHoles};
ghost use Rattle.udfs_volume.specs.Seen.{Sees, HolesRise};
ghost use Rattle.udfs_volume.specs.Sequence.{anchor, anchor_here, anchor_or, anchor_places, extents_of, first_anchor};

use crate::faults::VolumeFault;
use crate::seen::Seen;
use std::alloc::{AllocError, Global};
use udfs_lattice::{BlockStore, BlockTable, Fact, ReadFault};
use udfs_tag::{ExtentAd, Tag, identifiers};

/// The extents of the two copies of the volume descriptor sequence, as an anchor gives them.
#[derive(Clone, Copy, Debug, PartialEq, Eq)]
pub struct AnchorExtents {
    /// The extent of the main sequence (ECMA-167 3/10.2.2).
    pub main: ExtentAd,
    /// The extent of the reserve sequence (ECMA-167 3/10.2.3).
    pub reserve: ExtentAd,
}

impl AnchorExtents {
    /// Reads bytes 16 to 31 of an anchor.
    fn read(block: &[u8; 2048]) -> Self
        ensures { result ≡ extents_of block.now }
    {
        let extents = &block[16..32];
        AnchorExtents {
            main: ExtentAd::read(extents),
            reserve: ExtentAd::read(&extents[8..]),
        }
    }
}

/// The extents of the anchor at this place, if the block is known and valid there.
fn anchor_at<B: BlockStore>(blocks: &B, place: u32) -> Result<Option<AnchorExtents>, ReadFault>
    ensures value { IfOk result (λ here. B.tells → here ≡ option_map extents_of (anchor_here place (B.states blocks.now place))) }
    ensures fails { OnErr result B.fails }
{
    let mut room = [0; 2048];
    match blocks.lend(place, &mut room)? {
        Fact::Known(block) => {
            if Tag::is_valid(block, place, identifiers::ANCHOR) {
                Ok(Some(AnchorExtents::read(block)))
            } else {
                Ok(None)
            }
        }
        _ => Ok(None),
    }
}

/// Whether the block is known.
fn is_known<B: BlockStore>(blocks: &B, n: u32) -> bool
    ensures { B.tells → result ≡ is_known (B.states blocks.now n) }
{
    matches!(blocks.knowledge(n), Fact::Known(_))
}

/// Those of these blocks that are not known. It takes no memory where all are.
fn not_known<B: BlockStore>(
    alloc: Global,
    blocks: &B,
    places: &[u32],
) -> Result<Vec<u32>, AllocError>
    ensures value { IfOk result (λ unread. B.tells → unread.items ≡ not_known (B.states blocks.now) places.now) }
    ensures memory { IfErr result (λ error. B.tells → not_known (B.states blocks.now) places.now ≢ []) }
{
    let mut unread = Vec::new(alloc);
    for place in places {
        if !is_known(blocks, *place) {
            unread.push(*place)?;
        }
    }
    Ok(unread)
}

/// The extents of the first of these places that is known and valid there.
fn first_anchor<B: BlockStore>(
    blocks: &B,
    places: &[u32],
) -> Result<Option<AnchorExtents>, ReadFault>
    ensures value { IfOk result (λ first. B.tells → first ≡ option_map extents_of (first_anchor (B.states blocks.now) places.now)) }
    ensures fails { OnErr result B.fails }
{
    for place in places {
        if let Some(extents) = anchor_at(blocks, *place)? {
            return Ok(Some(extents));
        }
    }
    Ok(None)
}

/// The places of an anchor (ECMA-167 3/8.4.2.1, UDF 2.2.3).
pub(crate) fn places(last: u32) -> [u32; 3]
    requires { 513 ≤ last }
    ensures { result ≡ anchor_places last }
{
    [256, last - 256, last]
}

/// The result without an anchor: the places in `unread` are holes; if it is empty, the fault is `NoAnchor`.
fn without_anchor(unread: Vec<u32>) -> Seen<AnchorExtents>
    ensures value { Sees (λ extents. extents) result (anchor_or None unread.items) }
    ensures memory { result ≢ Seen.OutOfMemory }
{
    if unread.is_empty() {
        return Seen::Fault(VolumeFault::NoAnchor);
    }
    Seen::Holes(unread)
}

/// The same as [`anchor`], by any store of blocks.
///
/// # Errors
///
/// `ReadFault` where the bytes of a known block could not be read. Nothing is told of the volume then.
pub fn anchor_by<B: BlockStore>(
    alloc: Global,
    blocks: &B,
    last: u32,
) -> Result<Seen<AnchorExtents>, ReadFault>
    requires from { 513 ≤ last }
    requires to { last ≤ 4194303 }
    ensures value { IfOk result (λ seen. B.tells → Sees (λ extents. extents) seen (anchor (B.states blocks.now) last)) }
    ensures rising { IfOk result (λ seen. B.tells → HolesRise seen) }
    ensures memory { IfOk result (λ seen. B.tells → seen ≡ Seen.OutOfMemory → IsHoles (anchor (B.states blocks.now) last)) }
    ensures fails { OnErr result B.fails }
{
    let places = places(last);
    if let Some(extents) = first_anchor(blocks, &places)? {
        return Ok(Seen::Got(extents));
    }
    match not_known(alloc, blocks, &places) {
        Ok(unread) => Ok(without_anchor(unread)),
        Err(_) => Ok(Seen::OutOfMemory),
    }
}

/// The extents of the first anchor: of the blocks 256, `last - 256` and `last` the first that is known and
/// valid there with identifier 2 (ECMA-167 3/8.4.2.1, UDF 2.2.3). Without one, those of the three that are
/// not known are holes, and where all three are known the fault is `NoAnchor`.
///
/// Only holes take memory: the result is `OutOfMemory` only where it would be holes.
pub fn anchor(alloc: Global, table: &BlockTable, last: u32) -> Seen<AnchorExtents>
    requires from { 513 ≤ last }
    requires to { last ≤ 4194303 }
    ensures value { Sees (λ extents. extents) result (anchor (state_of table.now) last) }
    ensures rising { HolesRise result }
    ensures memory { result ≡ Seen.OutOfMemory → IsHoles (anchor (state_of table.now) last) }
{
    match anchor_by(alloc, table, last) {
        Ok(seen) => seen,
        Err(_) => unreachable!(),
    }
}
