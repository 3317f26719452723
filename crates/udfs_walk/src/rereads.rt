//! What has to be read again.

ghost use Rattle.std.specs.Prelude.{◌≡◌, ◌++◌, IfOk, IsErrOf, length, map, nat_lt};
ghost use Rattle.udfs_lattice.specs.Volumes.{ascending};
ghost use Rattle.udfs_space.specs.Views.{view_by, view_now};
ghost use Rattle.udfs_walk.specs.Bare.{full_node};
ghost use Rattle.udfs_walk.specs.Gathering.{AreGathered, missing_at};
ghost use Rattle.udfs_walk.specs.Rereads.{missing_of, reread};

use crate::answers::Node;
use crate::ascending::sort_once;
use crate::bare::full_standing_by;
use crate::standings::Standing;
use std::alloc::{AllocError, Global};
use std::collections::BTreeSet;
use udfs_lattice::{BlockStore, GaveUp};
use udfs_osta::OutOfMemory;
use udfs_space::{StoreView, View};

/// Appends the blocks that are missing in a node.
fn push_missing(blocks: &mut Vec<u32>, standing: &Standing) -> Result<(), AllocError>
    ensures { IfOk result (λ done. blocks.new.items ≡ blocks.old.items ++ missing_of standing.now) }
{
    match standing {
        Standing::Torn(torn) => {
            blocks.extend_from_slice(&torn.missing)?;
            Ok(())
        }
        _ => Ok(()),
    }
}

/// The blocks that are missing in torn nodes, ascending and each once.
///
/// # Errors
///
/// [`OutOfMemory`] where memory runs out.
pub fn reread(alloc: Global, nodes: &[Node]) -> Result<Vec<u32>, OutOfMemory>
    ensures { IfOk result (λ blocks. blocks.items ≡ reread nodes.now) }
{
    let mut blocks = Vec::new(alloc);
    for node in nodes {
        push_missing(&mut blocks, &node.standing)?;
    }
    sort_once(&mut blocks);
    Ok(blocks)
}

/// The least number of gathered blocks at which repeated ones are dropped.
const MOST_GATHERED: usize = 1_048_576;

/// Drops repeated blocks if there are at least `most` blocks, and returns the least number at which to do so the next time.
#[tactic(auto, using(crate::proofs::BareRereads::once_again))]
fn settle(blocks: &mut Vec<u32>, most: usize) -> usize
    ensures { ascending blocks.new.items ≡ ascending blocks.old.items }
{
    if blocks.len() < most {
        return most;
    }
    sort_once(blocks);
    blocks.len().saturating_mul(2).max(MOST_GATHERED)
}

/// Whether blocks are missing.
fn lacks_blocks(standing: &Standing) -> bool
    ensures { result ≡ nat_lt 0 (length (missing_of standing.now)) }
{
    match standing {
        Standing::Torn(torn) => torn.missing.len() > 0,
        _ => false,
    }
}

/// Appends the blocks that are missing in a node, unless those at its ICB were appended already, and keeps the number of an
/// ICB at which some are missing.
fn gather<B: BlockStore>(
    alloc: Global,
    view: StoreView<'_, B>,
    node: &Node,
    gathered: &mut BTreeSet<u64>,
    blocks: &mut Vec<u32>,
) -> Result<(), GaveUp>
    requires { B.tells → AreGathered (view_by B.states view) gathered.old blocks.old.items }
    ensures more { IfOk result (λ done. B.tells → ascending blocks.new.items ≡ ascending (blocks.old.items ++ missing_at (view_by B.states view.entry) node.now)) }
    ensures gathered { IfOk result (λ done. B.tells → AreGathered (view_by B.states view.entry) gathered.new blocks.new.items) }
    ensures fails { IsErrOf result GaveUp.Unread → B.fails }
{
    let number = node.icb.address().number();
    if gathered.contains(&number) {
        return Ok(());
    }
    let standing = full_standing_by(alloc, view, node.icb, &node.standing)?;
    push_missing(blocks, &standing)?;
    if lacks_blocks(&standing) {
        gathered.insert(number)?;
    }
    Ok(())
}

/// The blocks that are missing in torn nodes, ascending and each once, as [`reread`] lists them, of nodes without their
/// blocks and holes. The lists of one node alone are held at a time, and those of all names of one file are found once.
///
/// # Errors
///
/// [`OutOfMemory`] where memory runs out.
pub fn bare_reread(alloc: Global, view: View<'_>, nodes: &[Node]) -> Result<Vec<u32>, OutOfMemory>
    ensures { IfOk result (λ blocks. blocks.items ≡ reread (map (full_node (view_now view.entry)) nodes.now)) }
{
    let stored = StoreView {
        blocks: view.table,
        space: view.space,
    };
    match bare_reread_by(alloc, stored, nodes) {
        Ok(blocks) => Ok(blocks),
        Err(GaveUp::OutOfMemory) => Err(AllocError),
        Err(GaveUp::Unread) => unreachable!(),
    }
}

/// The same as [`bare_reread`], by any store of blocks.
///
/// # Errors
///
/// `OutOfMemory` where memory runs out, and `Unread` where the bytes of a known block could not be read.
pub fn bare_reread_by<B: BlockStore>(
    alloc: Global,
    view: StoreView<'_, B>,
    nodes: &[Node],
) -> Result<Vec<u32>, GaveUp>
    ensures value { IfOk result (λ blocks. B.tells → blocks.items ≡ reread (map (full_node (view_by B.states view.entry)) nodes.now)) }
    ensures fails { IsErrOf result GaveUp.Unread → B.fails }
{
    let mut blocks = Vec::new(alloc);
    let mut most = MOST_GATHERED;
    let mut gathered = BTreeSet::new(alloc);
    for node in nodes {
        gather(alloc, view, node, &mut gathered, &mut blocks)?;
        most = settle(&mut blocks, most);
    }
    sort_once(&mut blocks);
    Ok(blocks)
}
