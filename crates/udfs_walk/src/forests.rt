//! The nodes of the walks from several roots, which share what they find of bodies: each body is walked over once, however many
//! of the roots lead there.

ghost use Rattle.std.specs.Prelude.{◌≡◌, ◌++◌, ◌∷◌, [], ◌≤◌, ◌+◌, IfOk, IsErrOf, MatchResult, length, map};
ghost use Rattle.udfs_space.specs.Views.{view_by};
ghost use Rattle.udfs_walk.specs.Bare.{full_node};
ghost use Rattle.udfs_walk.specs.Counting.{KeepsCount};
ghost use Rattle.udfs_walk.specs.Forests.{IsForest, IsForestRefused, IsUnsettledForest, icbs_in, keys_in};
ghost use Rattle.udfs_walk.specs.GivingUp.{IfTold};
ghost use Rattle.udfs_walk.specs.Memos.{HasWords, IsMemo};
ghost use Rattle.udfs_walk.specs.Unsettled.{settled};

use crate::answers::{Node, NodesGaveUp};
use crate::counting::Walks;
use crate::memos::Memo;
use crate::settling::settled_nodes;
use crate::targets::entry_address;
use crate::walks::unsettled_nodes;
use std::alloc::{AllocError, Global};
use std::marker::Brand;
use std::sync::ledger::{Blank, Ledger};
use udfs_lattice::{BlockStore, GaveUp};
use udfs_space::StoreView;
use udfs_tag::LbAddr;

/// The nodes that all trees together may have.
const MOST_NODES: usize = 65_536;

/// Appends a tree.
fn put(trees: &mut Vec<Vec<Node>>, tree: Vec<Node>) -> Result<(), AllocError>
    ensures { IfOk result (λ done. map (λ tree. tree.items) trees.new.items ≡ map (λ tree. tree.items) trees.old.items ++ tree.items ∷ []) }
{
    trees.push(tree)?;
    Ok(())
}

/// The trees of these roots, one of each, their nodes not yet settled.
fn walked_trees<L: Ledger, B: BlockStore>(
    alloc: Global,
    view: StoreView<'_, B>,
    roots: &[LbAddr],
    memo: &mut Memo,
    walks: &mut Walks<L>,
) -> Result<Vec<Vec<Node>>, NodesGaveUp>
    requires { B.tells → IsMemo (view_by B.states view) memo.old }
    ensures trees { B.tells → MatchResult result (λ trees. IsUnsettledForest (view_by B.states view.entry) roots.now (map (λ tree. tree.items) trees.items))
        (IfTold (IsForestRefused (view_by B.states view.entry) roots.now)) }
    ensures memo { IfOk result (λ trees. B.tells → IsMemo (view_by B.states view.entry) memo.new) }
    ensures counted { IfOk result (λ trees. B.tells → KeepsCount (keys_in (map (λ tree. tree.items) trees.items)) memo.old walks.old memo.new walks.new) }
    ensures fails { IsErrOf result NodesGaveUp.Unread → B.fails }
{
    let mut room = MOST_NODES;
    let mut trees = Vec::new(alloc);
    for root in roots {
        let tree = unsettled_nodes(alloc, view, entry_address(*root), memo, walks)?;
        if tree.len() > room {
            return Err(NodesGaveUp::TooManyPaths);
        }
        room -= tree.len();
        put(&mut trees, tree)?;
    }
    Ok(trees)
}

/// The trees, all of their nodes settled.
fn settled_trees<L: Ledger, B: BlockStore>(
    alloc: Global,
    view: StoreView<'_, B>,
    found: Vec<Vec<Node>>,
    memo: &mut Memo,
    walks: &mut Walks<L>,
) -> Result<Vec<Vec<Node>>, GaveUp>
    requires { B.tells → HasWords (view_by B.states view) memo.old }
    ensures settled { IfOk result (λ trees. B.tells → map (λ tree. tree.items) trees.items ≡ map (λ tree. map (settled (view_by B.states view.entry)) tree.items) found.items) }
    ensures counted { IfOk result (λ trees. B.tells → KeepsCount (keys_in (map (λ tree. tree.items) trees.items)) memo.old walks.old memo.new walks.new) }
    ensures fails { IsErrOf result GaveUp.Unread → B.fails }
{
    let mut trees = Vec::new(alloc);
    for nodes in found {
        let tree = settled_nodes(alloc, view, nodes, memo, walks)?;
        put(&mut trees, tree)?;
    }
    Ok(trees)
}

/// The trees of these roots as [`forest_by`] lists them, with a count of the walks over bodies that this takes: at most one for
/// each information control block, however many routes lead there from however many roots.
///
/// # Errors
///
/// As those of [`forest_by`].
pub fn counted_forest_by<L: Ledger, B: BlockStore>(
    alloc: Global,
    view: StoreView<'_, B>,
    roots: &[LbAddr],
    walks: &mut Walks<L>,
) -> Result<Vec<Vec<Node>>, NodesGaveUp>
    ensures trees { B.tells → MatchResult result (λ trees. IsForest (view_by B.states view.entry) roots.now (map (λ tree. map (full_node (view_by B.states view.entry)) tree.items) trees.items))
        (IfTold (IsForestRefused (view_by B.states view.entry) roots.now)) }
    ensures once { IfOk result (λ trees. B.tells → walks.new ≤ walks.old + length (icbs_in (map (λ tree. tree.items) trees.items))) }
    ensures fails { IsErrOf result NodesGaveUp.Unread → B.fails }
{
    let mut memo = Memo::new(alloc);
    let found = walked_trees(alloc, view, roots, &mut memo, walks)?;
    let trees = settled_trees(alloc, view, found, &mut memo, walks)?;
    Ok(trees)
}

/// The trees as [`counted_forest_by`] lists them, over a count that begins.
fn begun_forest<L: Ledger, B: BlockStore>(
    alloc: Global,
    view: StoreView<'_, B>,
    roots: &[LbAddr],
    blank: Blank,
) -> Result<Vec<Vec<Node>>, NodesGaveUp>
    requires name { blank.name ≡ L.name }
    requires parts { blank.parts ≡ L.parts }
    requires one { blank.parts ≡ 1 }
    ensures value { B.tells → MatchResult result (λ trees. IsForest (view_by B.states view.entry) roots.now (map (λ tree. map (full_node (view_by B.states view.entry)) tree.items) trees.items))
        (IfTold (IsForestRefused (view_by B.states view.entry) roots.now)) }
    ensures fails { IsErrOf result NodesGaveUp.Unread → B.fails }
{
    let mut walks = Walks::<L>::none(blank);
    let trees = counted_forest_by(alloc, view, roots, &mut walks);
    trees
}

/// The trees of these roots, one list of nodes of each: what [`bare_nodes_by`](crate::bare_nodes_by) finds from the entry at the
/// root's information control block in place of the volume's root. A body is walked over at most once, however many of the roots
/// lead there.
///
/// # Errors
///
/// `TooManyPaths` where more than 65,536 routes lead from all roots together to nodes, unless memory runs out before;
/// `OutOfMemory` where memory runs out, and `Unread` where the bytes of a known block could not be read.
pub fn forest_by<B: BlockStore>(
    alloc: Global,
    view: StoreView<'_, B>,
    roots: &[LbAddr],
) -> Result<Vec<Vec<Node>>, NodesGaveUp>
    ensures value { B.tells → MatchResult result (λ trees. IsForest (view_by B.states view.entry) roots.now (map (λ tree. map (full_node (view_by B.states view.entry)) tree.items) trees.items))
        (IfTold (IsForestRefused (view_by B.states view.entry) roots.now)) }
    ensures fails { IsErrOf result NodesGaveUp.Unread → B.fails }
{
    let trees = begun_forest::<Brand, B>(alloc, view, roots, Blank::new(1));
    trees
}
