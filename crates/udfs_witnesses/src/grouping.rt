//! The groups of blocks that are to be read again.

ghost use Rattle.std.specs.Prelude.{◌≡◌, ◌≤◌, ◌<◌, ◌+◌, ◌-◌, ◌++◌, ℕ, IfOk, Contains, false};
ghost use Rattle.std.specs.List.{range_with_len};
ghost use Rattle.udfs_lattice.specs.States.{is_known};
ghost use Rattle.udfs_lattice.specs.Volumes.{IsUnread};
ghost use Rattle.udfs_volume.specs.Seen.{IsRising};
ghost use Rattle.udfs_witnesses.specs.Adding.{Adds};
ghost use Rattle.udfs_witnesses.specs.Groups.{AreEdges, AreGrouped, group_start};

use crate::edges::{first_unread, last_unread};
use std::alloc::{AllocError, Global};
use udfs_lattice::BlockStore;

/// The first block of the group of a block.
fn group_start(size: u32, n: u32) -> u32
    requires { 0 < size }
    ensures value { result ≡ group_start size n }
    ensures least { result ≤ n }
{
    n / size * size
}

/// The first and the last block of a group that are not known; `block` is not.
fn edges<B: BlockStore>(blocks: &B, last: u32, size: u32, block: u32) -> (u32, u32)
    requires size { 0 < size }
    requires within { block ≤ last }
    requires unread { B.tells → is_known (B.states blocks.now block) ≡ false }
    ensures edges { B.tells → AreEdges (B.states blocks.now) last size block result.0 result.1 }
    ensures to_last { result.1 ≤ last }
{
    let start = group_start(size, block);
    let end = start.saturating_add(size - 1).min(last);
    (
        first_unread(blocks, start, block),
        last_unread(blocks, block, end),
    )
}

/// Appends the blocks from one to another.
fn push_blocks(asked: &mut Vec<u32>, from: u32, to: u32) -> Result<(), AllocError>
    requires small { to ≤ 4194303 }
    ensures { IfOk result (λ done. asked.new.items ≡ asked.old.items ++ range_with_len from (to + 1 - from)) }
{
    for n in from..to + 1 {
        asked.push(n)?;
    }
    Ok(())
}

/// Appends what is to be asked for because of one more listed block, where all that is asked for already is below `next`, and the block before that is the last of it.
/// Returns what is so then.
fn add<B: BlockStore>(
    blocks: &B,
    last: u32,
    size: u32,
    block: u32,
    asked: &mut Vec<u32>,
    next: u64,
) -> Result<u64, AllocError>
    requires size { 0 < size }
    requires small { last ≤ 4194303 }
    requires unread { B.tells → is_known (B.states blocks.now block) ≡ false }
    ensures { IfOk result (λ later. B.tells → Adds (B.states blocks.now) last size block asked.old.items next asked.new.items later) }
{
    if u64::from(block) < next {
        return Ok(next);
    }
    if block > last {
        asked.push(block)?;
        return Ok(u64::from(block) + 1);
    }
    let (from, to) = edges(blocks, last, size, block);
    push_blocks(asked, from, to)?;
    Ok(u64::from(to) + 1)
}

/// The blocks to ask for where those of a list are to be read again: the list, and the others of each aligned group of `size` blocks that holds a listed one, up to `last`,
/// the last block of the disc, but for the known ones at the group's edges. So no run of what is asked for begins or ends with a known block. They ascend, each once.
///
/// # Errors
///
/// `AllocError` where memory runs out. Of the store only the states are asked, which reads nothing.
pub fn grouped<B: BlockStore>(
    alloc: Global,
    blocks: &B,
    last: u32,
    size: u32,
    listed: &[u32],
) -> Result<Vec<u32>, AllocError>
    requires size { 0 < size }
    requires small { last ≤ 4194303 }
    requires rising { B.tells → IsRising listed.now }
    requires unread { B.tells → IsUnread (B.states blocks.now) listed.now }
    ensures { IfOk result (λ asked. B.tells → AreGrouped (B.states blocks.now) last size listed.now asked.items) }
{
    let mut asked = Vec::new(alloc);
    let mut next = 0;
    for block in listed {
        next = add(blocks, last, size, *block, &mut asked, next)?;
    }
    Ok(asked)
}
