//! The nodes to which 64 names lead, settled last of all: a shorter route may have led to the same bodies before.

ghost use Rattle.std.specs.Prelude.{◌≡◌, ◌≤◌, ◌+◌, ℕ, List, IfOk, IsErrOf, OnOk, length, map, Contains};
ghost use Rattle.udfs_lattice.specs.Volumes.{ascending};
ghost use Rattle.udfs_space.specs.Views.{view_by};
ghost use Rattle.udfs_walk.specs.Counting.{AreWithin, IsCounted, KeepsCount, icb_key};
ghost use Rattle.udfs_walk.specs.Memos.{HasWords};
ghost use Rattle.udfs_walk.specs.Unsettled.{settled, waits};

use crate::answers::Node;
use crate::counting::Walks;
use crate::memos::Memo;
use crate::standings::Standing;
use crate::targets::{Target, target_at};
use crate::visits::MOST_NAMES;
use std::alloc::Global;
use std::sync::ledger::Ledger;
use udfs_lattice::{BlockStore, GaveUp};
use udfs_space::StoreView;

/// Whether a node is still to be settled: it counts as whole, and 64 names lead to it.
fn waits(node: &Node) -> bool
    ensures { result ≡ waits node.now }
{
    node.path.len() >= MOST_NAMES && matches!(&node.standing, Standing::Whole)
}

/// Settles a node: its body is walked over only if that was not done before, for whichever route.
fn settle<L: Ledger, B: BlockStore>(
    alloc: Global,
    view: StoreView<'_, B>,
    node: &mut Node,
    memo: &mut Memo,
    walks: &mut Walks<L>,
) -> Result<(), GaveUp>
    requires { B.tells → HasWords (view_by B.states view) memo.old }
    ensures settled { OnOk result (B.tells → node.new ≡ settled (view_by B.states view.entry) node.old) }
    ensures words { OnOk result (B.tells → HasWords (view_by B.states view.entry) memo.new) }
    ensures counted { OnOk result ((start : ℕ) (icbs : List ℕ) → Contains icbs (icb_key node.old)
        → IsCounted start icbs memo.old walks.old → IsCounted start icbs memo.new walks.new) }
    ensures within { (start : ℕ) (icbs : List ℕ) → Contains icbs (icb_key node.old)
        → IsCounted start icbs memo.old walks.old → walks.new ≤ start + length (ascending icbs) }
    ensures fails { IsErrOf result GaveUp.Unread → B.fails }
{
    if !waits(node) {
        return Ok(());
    }
    let mut room = [0; 2048];
    match target_at(view, node.icb, &mut room)? {
        Target::Entry(entry) => {
            let known = memo.known(alloc, view, &entry, node.icb.address(), walks)?;
            node.standing = known.standing(alloc, true);
            Ok(())
        }
        Target::Fault(_) => Ok(()),
        Target::Unread(_) => Ok(()),
    }
}

/// Settles all nodes, each information control block by one walk at most.
fn settle_all<L: Ledger, B: BlockStore>(
    alloc: Global,
    view: StoreView<'_, B>,
    nodes: &mut [Node],
    memo: &mut Memo,
    walks: &mut Walks<L>,
) -> Result<(), GaveUp>
    requires { B.tells → HasWords (view_by B.states view) memo.old }
    ensures settled { OnOk result (B.tells → nodes.new ≡ map (settled (view_by B.states view.entry)) nodes.old) }
    ensures words { OnOk result (B.tells → HasWords (view_by B.states view.entry) memo.new) }
    ensures counted { OnOk result (B.tells → KeepsCount (map icb_key nodes.old) memo.old walks.old memo.new walks.new) }
    ensures within { B.tells → (start : ℕ) (icbs : List ℕ) → AreWithin (map icb_key nodes.old) icbs
        → IsCounted start icbs memo.old walks.old → walks.new ≤ start + length (ascending icbs) }
    ensures fails { IsErrOf result GaveUp.Unread → B.fails }
{
    for node in nodes.iter_mut() {
        settle(alloc, view, node, memo, walks)?;
    }
    Ok(())
}

/// The nodes, all settled.
pub(crate) fn settled_nodes<L: Ledger, B: BlockStore>(
    alloc: Global,
    view: StoreView<'_, B>,
    found: Vec<Node>,
    memo: &mut Memo,
    walks: &mut Walks<L>,
) -> Result<Vec<Node>, GaveUp>
    requires { B.tells → HasWords (view_by B.states view) memo.old }
    ensures settled { IfOk result (λ nodes. B.tells → nodes.items ≡ map (settled (view_by B.states view.entry)) found.items) }
    ensures words { IfOk result (λ nodes. B.tells → HasWords (view_by B.states view.entry) memo.new) }
    ensures counted { IfOk result (λ nodes. B.tells → KeepsCount (map icb_key found.items) memo.old walks.old memo.new walks.new) }
    ensures within { B.tells → (start : ℕ) (icbs : List ℕ) → AreWithin (map icb_key found.items) icbs
        → IsCounted start icbs memo.old walks.old → walks.new ≤ start + length (ascending icbs) }
    ensures fails { IsErrOf result GaveUp.Unread → B.fails }
{
    let mut nodes = found;
    settle_all(alloc, view, &mut nodes, memo, walks)?;
    Ok(nodes)
}
