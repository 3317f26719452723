//! Lost files: files that no known name leads to, not even in a lost folder.

ghost use Rattle.std.specs.Prelude.{◌≡◌, ◌&&◌, ◌||◌, IfOk, IsErrOf, OnErr, map, not};
ghost use Rattle.std.specs.List.{list_any};
ghost use Rattle.udfs_lattice.specs.Volumes.{Blocks};
ghost use Rattle.udfs_space.specs.Places.{view};
ghost use Rattle.udfs_space.specs.Views.{view_by};
ghost use Rattle.udfs_walk.specs.Targets.{Icb, is_icb};
ghost use Rattle.udfs_walk.specs.UnnamedEntries.{names};
ghost use Rattle.udfs_lost.specs.Folders.{icb_of_entry, is_taken};
ghost use Rattle.udfs_lost.specs.LostFiles.{is_file, is_named_in, lost_files};

use crate::links::is_taken;
use crate::met::Met;
use crate::trees::LostTree;
use std::alloc::{AllocError, Global};
use udfs_file::Kind;
use udfs_file::file_sets::address_fault;
use udfs_lattice::{BlockStore, GaveUp, ReadFault};
use udfs_space::{Space, StoreView};
use udfs_tag::LbAddr;
use udfs_walk::{Node, Unnamed};

/// Whether it is a file.
fn is_file(kind: Kind) -> bool
    ensures { result ≡ is_file kind }
{
    match kind {
        Kind::File => true,
        _ => false,
    }
}

/// The information control blocks so far, and those that these nodes name.
fn with_names(space: &Space, nodes: &[Node], met: Met) -> Result<Met, AllocError>
    ensures { IfOk result (λ named. (blocks : Blocks) (icb : Icb) → list_any (is_icb icb) named ≡ (list_any (is_icb icb) met || list_any (names (view blocks space.now) icb) nodes.now)) }
{
    let mut met = met;
    for node in nodes {
        match address_fault(space, node.icb) {
            Some(_) => {}
            None => met = met.meet(node.icb.address())?,
        }
    }
    Ok(met)
}

/// The information control blocks that nodes of the trees name.
fn named_in(alloc: Global, space: &Space, trees: &[LostTree]) -> Result<Met, AllocError>
    ensures { IfOk result (λ named. (blocks : Blocks) (icb : Icb) → list_any (is_icb icb) named ≡ is_named_in (view blocks space.now) trees.now icb) }
{
    let mut met = Met::none(alloc);
    for tree in trees {
        met = with_names(space, &tree.nodes, met)?;
    }
    Ok(met)
}

/// Whether an entry that no name leads to is a lost file, where these are the information control blocks that lost trees name.
fn is_lost<B: BlockStore>(
    view: StoreView<'_, B>,
    deleted: bool,
    named: &Met,
    entry: &Unnamed,
) -> Result<bool, ReadFault>
    ensures value { IfOk result (λ lost. B.tells → lost ≡ (is_file entry.now.kind && is_taken (view_by B.states view.entry) deleted entry.now && not (list_any (is_icb (icb_of_entry entry.now)) named.now))) }
    ensures fails { OnErr result B.fails }
{
    if !is_file(entry.kind) {
        return Ok(false);
    }
    let taken = is_taken(view, deleted, entry)?;
    Ok(taken && !named.contains(entry.address()))
}

/// The lost files among entries that no name leads to: files of link count above 0, or, with `deleted`, of any, that no node of
/// these trees names. They are in the order of the entries.
///
/// # Errors
///
/// `OutOfMemory` where memory runs out, and `Unread` where the bytes of a known block could not be read.
pub fn lost_files_by<'a, B: BlockStore>(
    alloc: Global,
    view: StoreView<'_, B>,
    deleted: bool,
    trees: &[LostTree],
    entries: &'a [Unnamed],
) -> Result<Vec<&'a Unnamed>, GaveUp>
    ensures value { IfOk result (λ files. B.tells → map (λ file. file.now) files.items ≡ lost_files (view_by B.states view.entry) deleted trees.now entries.now) }
    ensures fails { IsErrOf result GaveUp.Unread → B.fails }
{
    let named = named_in(alloc, view.space, trees)?;
    let mut files = Vec::new(alloc);
    for entry in entries {
        let lost = is_lost(view, deleted, &named, entry)?;
        if lost {
            files.push(entry)?;
        }
    }
    Ok(files)
}
