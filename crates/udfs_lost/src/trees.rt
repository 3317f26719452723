//! The trees of lost folders.

ghost use Rattle.std.specs.Prelude.{◌≡◌, ◌++◌, ◌∷◌, [], IfOk, IsErrOf, MatchResult, length};
ghost use Rattle.udfs_space.specs.Views.{view_by, view_now};
ghost use Rattle.udfs_walk.specs.GivingUp.{IfTold};
ghost use Rattle.udfs_lost.specs.LostTrees.{AreLostTrees, AreOf, IsTreesRefused};

use std::alloc::{AllocError, Global};
use udfs_lattice::BlockStore;
use udfs_space::{StoreView, View};
use udfs_tag::LbAddr;
use udfs_walk::{Node, NodesError, NodesGaveUp, forest_by};

/// The tree of a lost folder.
#[derive(Debug, Drop)]
pub struct LostTree {
    /// The folder's information control block.
    pub folder: LbAddr,
    /// The folder, whose path here is empty, and all that is below it, in the order of a volume's nodes. A torn one is
    /// without its blocks and holes, which `full_standing` of `udfs_walk` finds again.
    pub nodes: Vec<Node>,
}

/// Appends the tree of a folder.
fn put(trees: &mut Vec<LostTree>, folder: LbAddr, nodes: Vec<Node>) -> Result<(), AllocError>
    ensures { IfOk result (λ done. trees.new.items ≡ trees.old.items ++ record { folder = folder; nodes = nodes } ∷ []) }
{
    trees.push(LostTree { folder, nodes })?;
    Ok(())
}

/// The trees of these folders, in this order, where these are the nodes of each.
fn of_folders(
    alloc: Global,
    folders: &[LbAddr],
    forest: Vec<Vec<Node>>,
) -> Result<Vec<LostTree>, AllocError>
    ensures { IfOk result (λ trees. length forest.items ≡ length folders.now → AreOf folders.now forest.items trees.items) }
{
    let mut trees = Vec::new(alloc);
    for nodes in forest {
        if let Some(folder) = folders.get(trees.len()) {
            put(&mut trees, *folder, nodes)?;
        }
    }
    Ok(trees)
}

/// The trees of these folders, one of each: what the walk over a volume's routes finds from the folder in place of the root. A
/// body is walked over at most once, however many of the folders lead there.
///
/// # Errors
///
/// [`NodesError::TooManyPaths`] where more than 65,536 routes lead from all folders together to nodes, unless memory runs out
/// before, and [`NodesError::OutOfMemory`] where memory runs out.
pub fn lost_trees(
    alloc: Global,
    view: View<'_>,
    folders: &[LbAddr],
) -> Result<Vec<LostTree>, NodesError>
    ensures { MatchResult result (λ trees. AreLostTrees (view_now view.entry) folders.now trees.items)
        (IsTreesRefused (view_now view.entry) folders.now) }
{
    let stored = StoreView {
        blocks: view.table,
        space: view.space,
    };
    match lost_trees_by(alloc, stored, folders) {
        Ok(trees) => Ok(trees),
        Err(NodesGaveUp::TooManyPaths) => Err(NodesError::TooManyPaths),
        Err(NodesGaveUp::OutOfMemory) => Err(NodesError::OutOfMemory),
        Err(NodesGaveUp::Unread) => unreachable!(),
    }
}

/// The same as [`lost_trees`], by any store of blocks.
///
/// # Errors
///
/// As those of [`lost_trees`], and `Unread` where the bytes of a known block could not be read.
pub fn lost_trees_by<B: BlockStore>(
    alloc: Global,
    view: StoreView<'_, B>,
    folders: &[LbAddr],
) -> Result<Vec<LostTree>, NodesGaveUp>
    ensures value { B.tells → MatchResult result (λ trees. AreLostTrees (view_by B.states view.entry) folders.now trees.items)
        (IfTold (IsTreesRefused (view_by B.states view.entry) folders.now)) }
    ensures fails { IsErrOf result NodesGaveUp.Unread → B.fails }
{
    let forest = forest_by(alloc, view, folders)?;
    let trees = of_folders(alloc, folders, forest)?;
    Ok(trees)
}
