//! What is counted of lost folders and lost files, and of deleted entries.

ghost use Rattle.std.specs.Prelude.{◌≡◌, ◌++◌, IfOk, IsErrOf, OnErr, cond, count_by, false, length, map, option_map, sum_by, true};
ghost use Rattle.udfs_space.specs.Views.{view_by};
ghost use Rattle.udfs_salvage.specs.Surveys.{survey_by};
ghost use Rattle.udfs_overview.specs.DiscTallies.{has_data};
ghost use Rattle.udfs_overview.specs.LostTallies.{IsTallied, IsTallyBy, is_deleted, is_lost_directory, lost_tally, no_tally, tree_nodes, unfollowed};
ghost use Rattle.udfs_overview.specs.Searched.{looked_in, rootless_now, searched, without_root};
ghost use Rattle.udfs_overview.specs.Tallies.{is_node_of, or_zero};

use crate::disc_tallies::has_data;
use crate::lost_found::{Lost, found_in_by, without_root_by};
use crate::tallies::{NodeSort, is_file, is_folder, is_loop, node_bytes};
use std::alloc::{AllocError, Global};
use udfs_lattice::{BlockStore, GaveUp, ReadFault};
use udfs_lost::links::link_count;
use udfs_lost::{LostTree, lost_files_by};
use udfs_salvage::{Survey, Volume};
use udfs_space::StoreView;
use udfs_volume::Profile;
use udfs_walk::{Node, NodesGaveUp, Unnamed};

/// What is counted of lost folders and lost files, and of deleted entries.
#[derive(Clone, Copy, Debug, PartialEq, Eq)]
pub struct LostTally {
    /// There are too many folders and files to follow: the trees of lost folders have more than 65,536 nodes, or one of their
    /// directories lists more than 65,535 entries. All figures but that of deleted entries are 0 then.
    pub too_many: bool,
    /// How many folders the trees of lost folders have, the lost folders among them.
    pub folders: usize,
    /// How many of their files are whole.
    pub whole_files: usize,
    /// How many bytes these have.
    pub whole_bytes: u128,
    /// How many of their files are torn.
    pub torn_files: usize,
    /// How many lost files no such tree names, whole or not.
    pub files: usize,
    /// How many of these are whole and have bytes.
    pub with_data: usize,
    /// How many files and directories that no name leads to were deleted: their link count is 0.
    pub deleted: usize,
}

/// Nothing is lost, and nothing was deleted.
#[tactic(auto, unfolding(crate::specs::LostTallies::no_tally))]
fn no_tally() -> LostTally
    ensures { result ≡ no_tally }
{
    LostTally {
        too_many: false,
        folders: 0,
        whole_files: 0,
        whole_bytes: 0,
        torn_files: 0,
        files: 0,
        with_data: 0,
        deleted: 0,
    }
}

/// There are too many folders and files to follow.
fn too_many(deleted: usize) -> LostTally
    ensures { result ≡ record { too_many = true; folders = 0; whole_files = 0; whole_bytes = 0; torn_files = 0; files = 0; with_data = 0; deleted = deleted } }
{
    LostTally {
        too_many: true,
        folders: 0,
        whole_files: 0,
        whole_bytes: 0,
        torn_files: 0,
        files: 0,
        with_data: 0,
        deleted,
    }
}

/// The same where the folders and files were not followed for this reason.
fn untallied(why: NodesGaveUp, deleted: usize) -> Result<LostTally, GaveUp>
    ensures value { IfOk result (λ tally. (why ≡ NodesGaveUp.TooManyPaths) × (tally ≡ record { too_many = true; folders = 0; whole_files = 0; whole_bytes = 0; torn_files = 0; files = 0; with_data = 0; deleted = deleted })) }
    ensures fails { IsErrOf result GaveUp.Unread → why ≡ NodesGaveUp.Unread }
{
    match why {
        NodesGaveUp::TooManyPaths => Ok(too_many(deleted)),
        NodesGaveUp::OutOfMemory => Err(GaveUp::OutOfMemory),
        NodesGaveUp::Unread => Err(GaveUp::Unread),
    }
}

/// Appends nodes.
fn add_nodes<'a>(found: &mut Vec<&'a Node>, nodes: &'a [Node]) -> Result<(), AllocError>
    ensures { IfOk result (λ done. map (λ node. node.now) found.new.items ≡ map (λ node. node.now) found.old.items ++ nodes.now) }
{
    for node in nodes {
        found.push(node)?;
    }
    Ok(())
}

/// All nodes of trees.
fn nodes_in<'a>(alloc: Global, trees: &'a [LostTree]) -> Result<Vec<&'a Node>, AllocError>
    ensures { IfOk result (λ nodes. map (λ node. node.now) nodes.items ≡ tree_nodes trees.now) }
{
    let mut nodes = Vec::new(alloc);
    for tree in trees {
        add_nodes(&mut nodes, &tree.nodes)?;
    }
    Ok(nodes)
}

/// Whether a node is a folder that is not on its own path.
fn is_lost_directory(node: &Node) -> bool
    ensures { result ≡ is_lost_directory node.now }
{
    is_folder(node.kind) && !is_loop(&node.standing)
}

/// How many nodes are such folders.
fn count_folders(nodes: &[&Node]) -> usize
    ensures { result ≡ count_by (λ node. is_lost_directory node.now) nodes.now }
{
    let mut count = 0;
    for node in nodes {
        if is_lost_directory(*node) {
            count += 1;
        }
    }
    count
}

/// How many nodes are of a sort.
fn count_sort(sort: NodeSort, nodes: &[&Node]) -> usize
    ensures { result ≡ count_by (λ node. is_node_of sort node.now) nodes.now }
{
    let mut count = 0;
    for node in nodes {
        if sort.has(&node.standing, node.kind) {
            count += 1;
        }
    }
    count
}

/// How many bytes the nodes of a sort have, as far as their sizes are known.
fn count_bytes(sort: NodeSort, nodes: &[&Node]) -> u128
    ensures { result ≡ sum_by (λ node. cond (is_node_of sort node.now) (or_zero node.now.size) 0) nodes.now }
{
    let mut bytes = 0;
    for node in nodes {
        bytes += u128::from(node_bytes(sort, *node));
    }
    bytes
}

/// How many files are whole and have bytes.
fn count_with_data(files: &[&Unnamed]) -> usize
    ensures { result ≡ count_by (λ file. has_data file.now) files.now }
{
    let mut count = 0;
    for file in files {
        if has_data(*file) {
            count += 1;
        }
    }
    count
}

/// Whether an entry is a file or a directory that was deleted.
fn is_deleted<B: BlockStore>(view: StoreView<'_, B>, entry: &Unnamed) -> Result<bool, ReadFault>
    ensures value { IfOk result (λ deleted. B.tells → deleted ≡ is_deleted (view_by B.states view.entry) entry.now) }
    ensures fails { OnErr result B.fails }
{
    if !is_file(entry.kind) && !is_folder(entry.kind) {
        return Ok(false);
    }
    let count = link_count(view, entry)?;
    Ok(count == 0)
}

/// How many files and directories were deleted.
fn count_deleted<B: BlockStore>(
    view: StoreView<'_, B>,
    entries: &[Unnamed],
) -> Result<usize, ReadFault>
    ensures value { IfOk result (λ count. B.tells → count ≡ count_by (is_deleted (view_by B.states view.entry)) entries.now) }
    ensures fails { OnErr result B.fails }
{
    let mut count = 0;
    for entry in entries {
        let deleted = is_deleted(view, entry)?;
        if deleted {
            count += 1;
        }
    }
    Ok(count)
}

/// The figures of lost trees with these nodes, and of these lost files that they do not name.
fn figures(nodes: &[&Node], files: &[&Unnamed], deleted: usize) -> LostTally
    ensures { result ≡ record {
      too_many = false;
      folders = count_by (λ node. is_lost_directory node.now) nodes.now;
      whole_files = count_by (λ node. is_node_of NodeSort.WholeFile node.now) nodes.now;
      whole_bytes = sum_by (λ node. cond (is_node_of NodeSort.WholeFile node.now) (or_zero node.now.size) 0) nodes.now;
      torn_files = count_by (λ node. is_node_of NodeSort.TornFile node.now) nodes.now;
      files = length files.now;
      with_data = count_by (λ file. has_data file.now) files.now;
      deleted = deleted;
    } }
{
    LostTally {
        too_many: false,
        folders: count_folders(nodes),
        whole_files: count_sort(NodeSort::WholeFile, nodes),
        whole_bytes: count_bytes(NodeSort::WholeFile, nodes),
        torn_files: count_sort(NodeSort::TornFile, nodes),
        files: files.len(),
        with_data: count_with_data(files),
        deleted,
    }
}

/// The figures of lost trees, and of the lost files among entries that they do not name, where so many entries were deleted.
fn tally_trees<B: BlockStore>(
    alloc: Global,
    view: StoreView<'_, B>,
    entries: &[Unnamed],
    trees: &[LostTree],
    deleted: usize,
) -> Result<LostTally, GaveUp>
    requires { B.tells → deleted ≡ count_by (is_deleted (view_by B.states view)) entries.now }
    ensures value { IfOk result (λ tally. B.tells → tally ≡ lost_tally (view_by B.states view.entry) entries.now trees.now) }
    ensures fails { IsErrOf result GaveUp.Unread → B.fails }
{
    let nodes = nodes_in(alloc, trees)?;
    let files = lost_files_by(alloc, view, false, trees, entries)?;
    Ok(figures(&nodes, &files, deleted))
}

/// The trees of what is lost among entries that no name leads to, and its figures. Where the folders and files are too many to follow there are no trees.
fn tally_in<B: BlockStore>(
    alloc: Global,
    view: StoreView<'_, B>,
    entries: &[Unnamed],
) -> Result<(LostTally, Vec<LostTree>), GaveUp>
    ensures tallied { IfOk result (λ told. B.tells → IsTallied (view_by B.states view.entry) entries.now told.1.items told.0) }
    ensures fails { IsErrOf result GaveUp.Unread → B.fails }
{
    let deleted = count_deleted(view, entries)?;
    match found_in_by(alloc, view, false, entries) {
        Ok(trees) => {
            let tally = tally_trees(alloc, view, entries, &trees, deleted)?;
            Ok((tally, trees))
        }
        Err(why) => {
            let tally = untallied(why, deleted)?;
            Ok((tally, Vec::new(alloc)))
        }
    }
}

/// What is lost of a volume that does not open, where its layout and the places of its blocks are found, and its figures.
fn tally_rootless<B: BlockStore>(
    alloc: Global,
    blocks: &B,
    last: u32,
    profile: Profile,
) -> Result<(LostTally, Lost), GaveUp>
    ensures tallied { IfOk result (λ told. B.tells → IsTallyBy (without_root profile (B.states blocks.now) last) told.1.trees.items told.0) }
    ensures place { IfOk result (λ told. B.tells → option_map (rootless_now (B.states blocks.now)) told.1.rootless ≡ without_root profile (B.states blocks.now) last) }
    ensures fails { IsErrOf result GaveUp.Unread → B.fails }
{
    match without_root_by(alloc, blocks, last, profile)? {
        None => {
            let lost = Lost {
                rootless: None,
                trees: Vec::new(alloc),
            };
            Ok((no_tally(), lost))
        }
        Some(rootless) => {
            let view = rootless.volume.view_by(blocks);
            let (tally, trees) = tally_in(alloc, view, &rootless.entries)?;
            let lost = Lost {
                rootless: Some(rootless),
                trees,
            };
            Ok((tally, lost))
        }
    }
}

/// What is lost of a volume that opens, and its figures.
fn tally_opened<B: BlockStore>(
    alloc: Global,
    view: StoreView<'_, B>,
    entries: &[Unnamed],
) -> Result<(LostTally, Lost), GaveUp>
    ensures tallied { IfOk result (λ told. B.tells → IsTallied (view_by B.states view.entry) entries.now told.1.trees.items told.0) }
    ensures fails { IsErrOf result GaveUp.Unread → B.fails }
{
    let (tally, trees) = tally_in(alloc, view, entries)?;
    let lost = Lost {
        rootless: None,
        trees,
    };
    Ok((tally, lost))
}

/// Finds what is lost of a volume, and counts it: the folders and files of the trees of its lost folders, the lost files that none of them
/// names, and deleted entries. Lost folders and files are directories and files that no known name leads to, of link count above 0. Where
/// the volume does not open, they are looked for by its layout and the places of its blocks alone, if these are found. Where there are too
/// many to follow, as the figures say then, no trees are returned.
///
/// # Errors
///
/// `OutOfMemory` where memory runs out, and `Unread` where the bytes of a known block could not be read.
pub fn tally_lost<B: BlockStore>(
    alloc: Global,
    survey: &Survey<'_, B>,
) -> Result<(LostTally, Lost), GaveUp>
    ensures tallied { IfOk result (λ told. B.tells → IsTallyBy (searched survey.now.profile (B.states survey.now.table.now) survey.now.last (survey_by B.states survey.now)) told.1.trees.items told.0) }
    ensures place { IfOk result (λ told. B.tells → looked_in (B.states survey.now.table.now) (survey_by B.states survey.now) told.1
        ≡ searched survey.now.profile (B.states survey.now.table.now) survey.now.last (survey_by B.states survey.now)) }
    ensures fails { IsErrOf result GaveUp.Unread → B.fails }
{
    match &survey.volume {
        Volume::Open(opened) => tally_opened(alloc, opened.view_by(survey.table), &survey.unnamed),
        Volume::Holes(_) => tally_rootless(alloc, survey.table, survey.last, survey.profile),
        Volume::Fault(_) => tally_rootless(alloc, survey.table, survey.last, survey.profile),
    }
}
