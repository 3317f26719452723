//! What is lost of a volume: the trees of lost folders, and lost files, each as a tree of its own. They are looked for before anything is made.

ghost use Rattle.std.specs.Prelude.{◌≡◌, ◌++◌, ◌∷◌, [], ⊤, IfErr, IfOk, IsErrOf, OnOk, MatchOption, map};
ghost use Rattle.udfs_space.specs.Views.{view_by};
ghost use Rattle.udfs_walk.specs.GivingUp.{IfTold};
ghost use Rattle.udfs_walk.specs.UnnamedEntries.{address_of};
ghost use Rattle.udfs_walk.specs.Walks.{IsNodesRefused};
ghost use Rattle.udfs_lost.specs.Folders.{icb_of_entry, lost_folders};
ghost use Rattle.udfs_lost.specs.LostTrees.{IsLostTree};
ghost use Rattle.udfs_salvage.specs.Found.{volume_now};
ghost use Rattle.udfs_salvage.specs.Listings.{AreUnnamedBy, listing_by};
ghost use Rattle.udfs_overview.specs.LostTrees.{AreLost, IsUnfound};
ghost use Rattle.udfs_extraction.specs.LostTrees.{AddsFiles, AreFoundOf, AreLostIn, AreNamesIn, IsFileRefused, IsUnfoundIn, IsUnfoundOf};

use crate::found_places::{FoundPlaces, find_names};
use std::alloc::{AllocError, Global};
use udfs_lattice::{BlockStore, GaveUp};
use udfs_lost::{LostTree, lost_files_by, lost_roots_by, lost_trees_by};
use udfs_salvage::{Listing, Volume, is_lost_file};
use udfs_space::StoreView;
use udfs_walk::{Node, NodesGaveUp, Unnamed, bare_nodes_by};

/// The trees of the lost folders among entries that no name leads to.
fn folder_trees<B: BlockStore>(
    alloc: Global,
    view: StoreView<'_, B>,
    deleted: bool,
    entries: &[Unnamed],
) -> Result<Vec<LostTree>, NodesGaveUp>
    ensures trees { IfOk result (λ trees. B.tells → AreLost (view_by B.states view.entry) deleted entries.now trees.items) }
    ensures refused { IfErr result (λ e. B.tells → IfTold (IsUnfound (view_by B.states view.entry) (lost_folders (view_by B.states view.entry) deleted entries.now)) e) }
    ensures fails { IsErrOf result NodesGaveUp.Unread → B.fails }
{
    let roots = lost_roots_by(alloc, view, deleted, entries)?;
    let trees = lost_trees_by(alloc, view, &roots)?;
    Ok(trees)
}

/// A lost file as a tree.
fn file_tree<B: BlockStore>(
    alloc: Global,
    view: StoreView<'_, B>,
    file: &Unnamed,
) -> Result<LostTree, NodesGaveUp>
    ensures tree { IfOk result (λ tree. B.tells → IsLostTree (view_by B.states view.entry) (icb_of_entry file.now) tree) }
    ensures refused { IfErr result (λ e. B.tells → IfTold (IsNodesRefused (view_by B.states view.entry) (address_of (icb_of_entry file.now))) e) }
    ensures fails { IsErrOf result NodesGaveUp.Unread → B.fails }
{
    match bare_nodes_by(alloc, view, file.icb()) {
        Ok(nodes) => Ok(LostTree {
            folder: file.address(),
            nodes,
        }),
        Err(error) => Err(error),
    }
}

/// Adds a tree.
fn push_tree(trees: &mut Vec<LostTree>, tree: LostTree) -> Result<(), AllocError>
    ensures { OnOk result (trees.new.items ≡ trees.old.items ++ tree ∷ []) }
{
    trees.push(tree)?;
    Ok(())
}

/// Adds the tree of a file, if it has data and is whole.
fn add_file<B: BlockStore>(
    alloc: Global,
    view: StoreView<'_, B>,
    file: &Unnamed,
    trees: &mut Vec<LostTree>,
) -> Result<(), NodesGaveUp>
    ensures added { OnOk result (B.tells → AddsFiles (view_by B.states view.entry) (file.now ∷ []) trees.old.items trees.new.items) }
    ensures refused { IfErr result (λ e. B.tells → IfTold (IsFileRefused (view_by B.states view.entry) (file.now ∷ [])) e) }
    ensures fails { IsErrOf result NodesGaveUp.Unread → B.fails }
{
    if !is_lost_file(file) {
        return Ok(());
    }
    let tree = match file_tree(alloc, view, file) {
        Ok(tree) => tree,
        Err(error) => return Err(error),
    };
    match push_tree(trees, tree) {
        Ok(()) => Ok(()),
        Err(AllocError) => Err(NodesGaveUp::OutOfMemory),
    }
}

/// Adds the trees of those of these files that have data and are whole.
fn add_files<B: BlockStore>(
    alloc: Global,
    view: StoreView<'_, B>,
    files: &[&Unnamed],
    trees: &mut Vec<LostTree>,
) -> Result<(), NodesGaveUp>
    ensures added { OnOk result (B.tells → AddsFiles (view_by B.states view.entry) (map (λ file. file.now) files.now) trees.old.items trees.new.items) }
    ensures refused { IfErr result (λ e. B.tells → IfTold (IsFileRefused (view_by B.states view.entry) (map (λ file. file.now) files.now)) e) }
    ensures fails { IsErrOf result NodesGaveUp.Unread → B.fails }
{
    for file in files {
        match add_file(alloc, view, file, trees) {
            Ok(()) => {}
            Err(error) => return Err(error),
        }
    }
    Ok(())
}

/// What is lost of a volume.
#[derive(Drop)]
pub struct LostFound {
    /// The trees of lost folders, and behind them those of lost files.
    pub trees: Vec<LostTree>,
    /// Names that are found for them behind holes of torn folders.
    pub names: FoundPlaces,
}

/// What is lost among entries that no name leads to, of a volume that has these nodes.
fn lost_in<B: BlockStore>(
    alloc: Global,
    view: StoreView<'_, B>,
    deleted: bool,
    nodes: &[Node],
    entries: &[Unnamed],
) -> Result<LostFound, NodesGaveUp>
    ensures trees { IfOk result (λ lost. B.tells → AreLostIn (view_by B.states view.entry) deleted entries.now lost.trees.items) }
    ensures names { IfOk result (λ lost. B.tells → AreNamesIn (view_by B.states view.entry) deleted nodes.now entries.now lost.names) }
    ensures refused { IfErr result (λ e. B.tells → IfTold (IsUnfoundIn (view_by B.states view.entry) deleted entries.now) e) }
    ensures fails { IsErrOf result NodesGaveUp.Unread → B.fails }
{
    let mut trees = match folder_trees(alloc, view, deleted, entries) {
        Ok(trees) => trees,
        Err(error) => return Err(error),
    };
    let names = match find_names(alloc, view, deleted, nodes, &trees, entries) {
        Ok(names) => names,
        Err(GaveUp::OutOfMemory) => return Err(NodesGaveUp::OutOfMemory),
        Err(GaveUp::Unread) => return Err(NodesGaveUp::Unread),
    };
    let files = match lost_files_by(alloc, view, deleted, &trees, entries) {
        Ok(files) => files,
        Err(GaveUp::OutOfMemory) => return Err(NodesGaveUp::OutOfMemory),
        Err(GaveUp::Unread) => return Err(NodesGaveUp::Unread),
    };
    match add_files(alloc, view, &files, &mut trees) {
        Ok(()) => Ok(LostFound { trees, names }),
        Err(error) => Err(error),
    }
}

/// What is lost of the volume of a listing. A volume that does not open has nothing.
fn lost_of<B: BlockStore>(
    alloc: Global,
    listing: &Listing<'_, B>,
    deleted: bool,
    entries: &[Unnamed],
) -> Result<LostFound, NodesGaveUp>
    requires { B.tells → AreUnnamedBy B.states listing.now entries.now }
    ensures found { IfOk result (λ lost. B.tells → AreFoundOf deleted (B.states listing.now.table.now) (listing_by B.states listing.now) lost.trees.items lost.names) }
    ensures refused { IfErr result (λ e. B.tells → IfTold (IsUnfoundOf deleted (B.states listing.now.table.now) (volume_now listing.now.volume) (listing_by B.states listing.now).unnamed) e) }
    ensures fails { IsErrOf result NodesGaveUp.Unread → B.fails }
{
    match &listing.volume {
        Volume::Open(opened) => {
            let view = opened.view_by(listing.table);
            match lost_in(alloc, view, deleted, &listing.nodes, entries) {
                Ok(lost) => Ok(lost),
                Err(error) => Err(error),
            }
        }
        _ => Ok(LostFound {
            trees: Vec::new(alloc),
            names: FoundPlaces::none(alloc),
        }),
    }
}

/// What is lost of the volume of a listing, where it is asked for, and else nothing: the trees of lost folders, which are directories that no known name leads to,
/// of link count above 0, or, with `deleted`, of any; and behind them, each as a tree of one node, such files that no lost folder names, where they have data and
/// are whole. Beside them are names that are found for them behind holes of torn folders.
///
/// # Errors
///
/// `TooManyPaths` where more than 65,536 routes lead from the lost folders to nodes, or one of the directories to which they lead lists more than 65,535 entries,
/// `OutOfMemory` where memory runs out, and `Unread` where the bytes of a known block could not be read.
pub fn found_trees<B: BlockStore>(
    alloc: Global,
    listing: &Listing<'_, B>,
    trees: Option<&str>,
    deleted: bool,
    entries: &[Unnamed],
) -> Result<LostFound, NodesGaveUp>
    requires { MatchOption trees ⊤ (λ folder. B.tells → AreUnnamedBy B.states listing.now entries.now) }
    ensures found { IfOk result (λ lost. MatchOption trees.entry ⊤ (λ folder. B.tells → AreFoundOf deleted (B.states listing.now.table.now) (listing_by B.states listing.now) lost.trees.items lost.names)) }
    ensures refused { IfErr result (λ e. MatchOption trees.entry ⊥ (λ folder. B.tells → IfTold (IsUnfoundOf deleted (B.states listing.now.table.now) (volume_now listing.now.volume) (listing_by B.states listing.now).unnamed) e)) }
    ensures fails { IsErrOf result NodesGaveUp.Unread → B.fails }
{
    match trees {
        None => Ok(LostFound {
            trees: Vec::new(alloc),
            names: FoundPlaces::none(alloc),
        }),
        Some(_) => lost_of(alloc, listing, deleted, entries),
    }
}
