//! The lost folders of a volume: their trees are looked for before a line is shown.

ghost use Rattle.std.specs.Prelude.{◌≡◌, IfErr, IfOk, IsErrOf, Some, option_map};
ghost use Rattle.udfs_space.specs.Views.{view_by};
ghost use Rattle.udfs_walk.specs.GivingUp.{IfTold};
ghost use Rattle.udfs_lost.specs.Folders.{lost_folders};
ghost use Rattle.udfs_lost.specs.PlacedVolumes.{placed_now};
ghost use Rattle.udfs_overview.specs.LostTrees.{AreLost, AreLostBy, IsLostOf, IsUnfound, IsUnfoundBy};
ghost use Rattle.udfs_overview.specs.LostVolumes.{FoundTreesAreTheVolumes, PlacesAreTheVolumes};
ghost use Rattle.udfs_overview.specs.Searched.{of_placed, rootless_now, searched_of, without_root};

use crate::disagreements::has_room;
use std::alloc::Global;
use udfs_lattice::{BlockStore, GaveUp};
use udfs_lost::{LostTree, PlacedVolume, lost_roots_by, lost_trees_by, placed_volume_by};
use udfs_salvage::{Survey, Volume};
use udfs_space::StoreView;
use udfs_volume::Profile;
use udfs_walk::{NodesGaveUp, Unnamed};

/// What is known of a volume without its file set: no name is known to lead to any of its entries.
#[derive(Debug, Drop)]
pub struct Rootless {
    /// The layout, and the places of the blocks.
    pub volume: PlacedVolume,
    /// All entries in known blocks, by partition reference and then by block; a torn one without its blocks and holes.
    pub entries: Vec<Unnamed>,
}

/// What is lost of a volume.
#[derive(Debug, Drop)]
pub struct Lost {
    /// Where it was looked for if the volume does not open: `None` also where it does, or its layout and places are not found.
    pub rootless: Option<Rootless>,
    /// The trees of the lost folders.
    pub trees: Vec<LostTree>,
}

/// The trees of the lost folders among entries that no name leads to.
pub(crate) fn found_in_by<B: BlockStore>(
    alloc: Global,
    view: StoreView<'_, B>,
    deleted: bool,
    entries: &[Unnamed],
) -> Result<Vec<LostTree>, NodesGaveUp>
    ensures trees { IfOk result (λ trees. B.tells → AreLost (view_by B.states view.entry) deleted entries.now trees.items) }
    ensures refused { IfErr result (λ e. B.tells → IfTold (IsUnfound (view_by B.states view.entry) (lost_folders (view_by B.states view.entry) deleted entries.now)) e) }
    ensures fails { IsErrOf result NodesGaveUp.Unread → B.fails }
{
    let roots = lost_roots_by(alloc, view, deleted, entries)?;
    let trees = lost_trees_by(alloc, view, &roots)?;
    Ok(trees)
}

/// A volume by its layout and places, with all of its entries.
fn with_entries<B: BlockStore>(
    alloc: Global,
    blocks: &B,
    volume: PlacedVolume,
) -> Result<Rootless, GaveUp>
    ensures value { IfOk result (λ found. B.tells → rootless_now (B.states blocks.now) found ≡ of_placed (B.states blocks.now) (placed_now volume)) }
    ensures fails { IsErrOf result GaveUp.Unread → B.fails }
{
    let entries = volume.entries_by(alloc, blocks)?;
    Ok(Rootless { volume, entries })
}

/// What is known of a volume without its file set, where its layout and places are found, by any store of blocks.
#[tactic(auto, unfolding(crate::specs::Searched::without_root))]
pub(crate) fn without_root_by<B: BlockStore>(
    alloc: Global,
    blocks: &B,
    last: u32,
    profile: Profile,
) -> Result<Option<Rootless>, GaveUp>
    ensures value { IfOk result (λ found. B.tells → option_map (rootless_now (B.states blocks.now)) found ≡ without_root profile (B.states blocks.now) last) }
    ensures fails { IsErrOf result GaveUp.Unread → B.fails }
{
    if !has_room(last) {
        return Ok(None);
    }
    match placed_volume_by(alloc, blocks, last, profile)? {
        Some(volume) => Ok(Some(with_entries(alloc, blocks, volume)?)),
        None => Ok(None),
    }
}

/// What is lost of a volume that does not open, where this is known of it.
fn find_in<B: BlockStore>(
    alloc: Global,
    blocks: &B,
    rootless: Rootless,
    deleted: bool,
) -> Result<Lost, NodesGaveUp>
    ensures place { IfOk result (λ lost. lost.rootless ≡ Some rootless) }
    ensures trees { IfOk result (λ lost. B.tells → AreLostBy deleted (Some (rootless_now (B.states blocks.now) rootless)) lost.trees.items) }
    ensures refused { IfErr result (λ e. B.tells → IfTold (IsUnfoundBy deleted (Some (rootless_now (B.states blocks.now) rootless))) e) }
    ensures fails { IsErrOf result NodesGaveUp.Unread → B.fails }
{
    match found_in_by(
        alloc,
        rootless.volume.view_by(blocks),
        deleted,
        &rootless.entries,
    ) {
        Ok(trees) => Ok(Lost {
            rootless: Some(rootless),
            trees,
        }),
        Err(error) => Err(error),
    }
}

/// What is lost of a volume that does not open.
fn find_rootless<B: BlockStore>(
    alloc: Global,
    blocks: &B,
    last: u32,
    profile: Profile,
    deleted: bool,
) -> Result<Lost, NodesGaveUp>
    ensures place { IfOk result (λ lost. B.tells → option_map (rootless_now (B.states blocks.now)) lost.rootless ≡ without_root profile (B.states blocks.now) last) }
    ensures trees { IfOk result (λ lost. B.tells → AreLostBy deleted (without_root profile (B.states blocks.now) last) lost.trees.items) }
    ensures refused { IfErr result (λ e. B.tells → IfTold (IsUnfoundBy deleted (without_root profile (B.states blocks.now) last)) e) }
    ensures fails { IsErrOf result NodesGaveUp.Unread → B.fails }
{
    match without_root_by(alloc, blocks, last, profile) {
        Ok(Some(rootless)) => find_in(alloc, blocks, rootless, deleted),
        Ok(None) => Ok(Lost {
            rootless: None,
            trees: Vec::new(alloc),
        }),
        Err(GaveUp::OutOfMemory) => Err(NodesGaveUp::OutOfMemory),
        Err(GaveUp::Unread) => Err(NodesGaveUp::Unread),
    }
}

/// The trees of a volume's lost folders: directories that no known name leads to, of link count above 0, or, with `deleted`, of any. Where the
/// volume does not open, they are looked for by its layout and the places of its blocks alone, if these are found, as where its file set (ECMA-167
/// 4/14.1) is not known or has a fault. Then no name leads to the root, which is a lost folder like others.
///
/// # Errors
///
/// [`NodesGaveUp::TooManyPaths`] where more than 65,536 routes lead from all of them together to nodes, or one of the directories
/// to which they lead lists more than 65,535 entries; [`NodesGaveUp::OutOfMemory`] where memory runs out; and [`NodesGaveUp::Unread`] where the bytes of a known
/// block could not be read.
pub fn find_lost<B: BlockStore>(
    alloc: Global,
    survey: &Survey<'_, B>,
    deleted: bool,
) -> Result<Lost, NodesGaveUp>
    ensures found { IfOk result (λ lost. B.tells → IsLostOf B.states deleted survey.now lost) }
    ensures refused { IfErr result (λ e. B.tells → IfTold (IsUnfoundBy deleted (searched_of B.states survey.now)) e) }
    ensures fails { IsErrOf result NodesGaveUp.Unread → B.fails }
{
    match &survey.volume {
        Volume::Open(opened) => {
            match found_in_by(
                alloc,
                opened.view_by(survey.table),
                deleted,
                &survey.unnamed,
            ) {
                Ok(trees) => Ok(Lost {
                    rootless: None,
                    trees,
                }),
                Err(error) => Err(error),
            }
        }
        Volume::Holes(_) => match find_rootless(
            alloc,
            survey.table,
            survey.last,
            survey.profile,
            deleted,
        ) {
            Ok(lost) => Ok(lost),
            Err(error) => Err(error),
        },
        Volume::Fault(_) => match find_rootless(
            alloc,
            survey.table,
            survey.last,
            survey.profile,
            deleted,
        ) {
            Ok(lost) => Ok(lost),
            Err(error) => Err(error),
        },
    }
}

/// Whatever the file set says: over a table that agrees with a lawful volume the layout and the places are the volume's, or blocks are listed
/// that hold a group of which none is known.
pub fn places_are_the_volumes()
    ensures { PlacesAreTheVolumes }
{}

/// Where a lost tree that is found is that of a directory of a lawful volume, each of its nodes is the node of the volume's tree at the directory's
/// path and then its own, and what is whole has the tree's kind, size, time and bytes; back, what is below the directory's path and has its blocks
/// is whole in the lost tree.
pub fn found_trees_are_the_volumes()
    ensures { FoundTreesAreTheVolumes }
{}
