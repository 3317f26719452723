//! The witnesses of a disc.

ghost use Rattle.std.specs.Prelude.{◌≡◌, ◌≤◌, IfOk, IsErrOf, filter};
ghost use Rattle.udfs_witnesses.specs.Witnesses.{is_witness, witnesses};

use crate::inserting::ascending;
use crate::named::named_places;
use crate::spread::push_spread;
use std::alloc::{AllocError, Global};
use udfs_lattice::{BlockStore, Fact, GaveUp};

/// The greatest number of witnesses, where two structures at most are given.
pub const MOST_WITNESSES: usize = 16;

/// Whether a block is one of the disc and is known.
fn is_witness<B: BlockStore>(blocks: &B, last: u32, n: u32) -> bool
    ensures { B.tells → result ≡ is_witness (B.states blocks.now) last n }
{
    n <= last && matches!(blocks.knowledge(n), Fact::Known(()))
}

/// Those of these places that are known blocks of the disc.
fn known_places<B: BlockStore>(
    alloc: Global,
    blocks: &B,
    last: u32,
    places: &[u32],
) -> Result<Vec<u32>, AllocError>
    ensures { IfOk result (λ known. B.tells → known.items ≡ filter (is_witness (B.states blocks.now) last) places.now) }
{
    let mut known = Vec::new(alloc);
    for place in places {
        if is_witness(blocks, last, *place) {
            known.push(*place)?;
        }
    }
    Ok(known)
}

/// Known blocks of a store that a new pass is to read once more, so that a pass of another disc shows: ascending, each once, and none after `last`, the last block of
/// the disc. They are, where they are known, the places of the anchors (ECMA-167 3/8.4.2.1, UDF 2.2.3); in the main extent of the anchor that is found the
/// first primary and the first logical volume descriptor (ECMA-167 3/10.1, 3/10.6); the blocks `structures`; and in each ninth of the disc the first
/// known block whose bytes are not all equal. With two structures at most they are no more than [`MOST_WITNESSES`].
///
/// # Errors
///
/// `OutOfMemory` where memory runs out, and `Unread` where the bytes of a known block could not be read.
#[tactic(auto, unfolding(crate::specs::Witnesses::witnesses))]
pub fn witnesses<B: BlockStore>(
    alloc: Global,
    blocks: &B,
    last: u32,
    structures: &[u32],
) -> Result<Vec<u32>, GaveUp>
    requires from { 513 ≤ last }
    requires to { last ≤ 4194303 }
    ensures value { IfOk result (λ chosen. B.tells → chosen.items ≡ witnesses (B.states blocks.now) last structures.now) }
    ensures fails { IsErrOf result GaveUp.Unread → B.fails }
{
    let mut places = named_places(alloc, blocks, last, structures)?;
    push_spread(&mut places, blocks, last)?;
    let known = known_places(alloc, blocks, last, &places)?;
    let chosen = ascending(alloc, &known)?;
    Ok(chosen)
}
