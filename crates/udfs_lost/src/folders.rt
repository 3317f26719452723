//! Lost folders: directories that no known name leads to.

ghost use Rattle.std.specs.Prelude.{◌≡◌, IfErr, IfOk, IsErrOf, OnErr};
ghost use Rattle.udfs_space.specs.Views.{view_by};
ghost use Rattle.udfs_walk.specs.GivingUp.{IfTold};
ghost use Rattle.udfs_lost.specs.Folders.{AreLostRoots, IsRootsRefused, is_directory, is_lost_folder, lost_folders};

use crate::links::is_taken;
use crate::search::roots;
use std::alloc::Global;
use udfs_file::Kind;
use udfs_lattice::{BlockStore, GaveUp, ReadFault};
use udfs_space::StoreView;
use udfs_tag::LbAddr;
use udfs_walk::{NodesGaveUp, Unnamed};

/// Whether it is a directory.
pub(crate) fn is_directory(kind: Kind) -> bool
    ensures { result ≡ is_directory kind }
{
    match kind {
        Kind::Directory => true,
        _ => false,
    }
}

/// Whether an entry that no name leads to is a lost folder: a directory of link count above 0, or, with deleted ones, any
/// directory. It takes no memory.
///
/// # Errors
///
/// `ReadFault` where the bytes of the entry's block could not be read.
pub fn is_lost_folder<B: BlockStore>(
    view: StoreView<'_, B>,
    deleted: bool,
    entry: &Unnamed,
) -> Result<bool, ReadFault>
    ensures value { IfOk result (λ lost. B.tells → lost ≡ is_lost_folder (view_by B.states view.entry) deleted entry.now) }
    ensures fails { OnErr result B.fails }
{
    if !is_directory(entry.kind) {
        return Ok(false);
    }
    is_taken(view, deleted, entry)
}

/// The lost folders among entries that no name leads to.
fn lost_folders<B: BlockStore>(
    alloc: Global,
    view: StoreView<'_, B>,
    deleted: bool,
    entries: &[Unnamed],
) -> Result<Vec<LbAddr>, GaveUp>
    ensures value { IfOk result (λ folders. B.tells → folders.items ≡ lost_folders (view_by B.states view.entry) deleted entries.now) }
    ensures fails { IsErrOf result GaveUp.Unread → B.fails }
{
    let mut folders = Vec::new(alloc);
    for entry in entries {
        let lost = is_lost_folder(view, deleted, entry)?;
        if lost {
            folders.push(entry.address())?;
        }
    }
    Ok(folders)
}

/// The lost folders from which to walk, by partition reference and then by block: those to which no other lost folder leads by
/// names, and of those that lead to each other in a ring the first. `entries` are those of the volume that no name leads to;
/// with `deleted` those of link count 0 are folders too.
///
/// Names lead from a folder through any directory that is known, as far as it can be read. Each body is read at most twice,
/// however many names lead there.
///
/// # Errors
///
/// `TooManyPaths` where a directory to which a lost folder leads lists more than 65,535 entries, `OutOfMemory` where memory
/// runs out, and `Unread` where the bytes of a known block could not be read.
pub fn lost_roots_by<B: BlockStore>(
    alloc: Global,
    view: StoreView<'_, B>,
    deleted: bool,
    entries: &[Unnamed],
) -> Result<Vec<LbAddr>, NodesGaveUp>
    ensures roots { IfOk result (λ roots. B.tells → AreLostRoots (view_by B.states view.entry) (lost_folders (view_by B.states view.entry) deleted entries.now) roots.items) }
    ensures refused { IfErr result (λ e. B.tells → IfTold (IsRootsRefused (view_by B.states view.entry) (lost_folders (view_by B.states view.entry) deleted entries.now)) e) }
    ensures fails { IsErrOf result NodesGaveUp.Unread → B.fails }
{
    let mut folders = lost_folders(alloc, view, deleted, entries)?;
    folders.sort_unstable_by_key(|icb| icb.number());
    let roots = roots(alloc, view, &folders)?;
    Ok(roots)
}
