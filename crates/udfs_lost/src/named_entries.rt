//! Entries of which a name is found behind a hole of a torn directory.

ghost use Rattle.std.specs.Prelude.{◌≡◌, ◌||◌, IfOk, IsErrOf};
ghost use Rattle.std.specs.List.{list_any};
ghost use Rattle.udfs_space.specs.Views.{view_by};
ghost use Rattle.udfs_walk.specs.Targets.{Icb, is_icb};
ghost use Rattle.udfs_lost.specs.FoundNames.{is_found, is_found_among, is_found_at, is_of};

use crate::met::Met;
use crate::names_behind::{FoundName, found_names_by, torn_folders};
use crate::trees::LostTree;
use crate::unplaced_entries::Unplaced;
use std::alloc::{AllocError, Global};
use udfs_lattice::{BlockStore, GaveUp};
use udfs_space::StoreView;
use udfs_walk::Node;

/// The information control blocks so far, and those of the entries of these names.
fn with_names(met: Met, names: &[FoundName<'_>]) -> Result<Met, AllocError>
    ensures { IfOk result (λ more. (icb : Icb) → list_any (is_icb icb) more ≡ (list_any (is_icb icb) met || list_any (is_of icb) names.now)) }
{
    let mut met = met;
    for found in names {
        met = met.meet(found.lost.address())?;
    }
    Ok(met)
}

/// The information control blocks so far, and those of entries of which a name is found in one of these folders.
fn with_folders<B: BlockStore>(
    alloc: Global,
    view: StoreView<'_, B>,
    lost: &Unplaced<'_>,
    met: Met,
    folders: &[&Node],
) -> Result<Met, GaveUp>
    ensures value { IfOk result (λ more. B.tells → (icb : Icb) → list_any (is_icb icb) more
        ≡ (list_any (is_icb icb) met || list_any (λ folder. is_found_at (view_by B.states view.entry) lost.now icb folder.now) folders.now)) }
    ensures fails { IsErrOf result GaveUp.Unread → B.fails }
{
    let mut met = met;
    for folder in folders {
        let names = found_names_by(alloc, view, lost, folder)?;
        met = with_names(met, &names)?;
    }
    Ok(met)
}

/// The same for the torn folders among nodes.
fn with_nodes<B: BlockStore>(
    alloc: Global,
    view: StoreView<'_, B>,
    lost: &Unplaced<'_>,
    met: Met,
    nodes: &[Node],
) -> Result<Met, GaveUp>
    ensures value { IfOk result (λ more. B.tells → (icb : Icb) → list_any (is_icb icb) more ≡ (list_any (is_icb icb) met || is_found_among (view_by B.states view.entry) lost.now icb nodes.now)) }
    ensures fails { IsErrOf result GaveUp.Unread → B.fails }
{
    let folders = torn_folders(alloc, nodes)?;
    let met = with_folders(alloc, view, lost, met, &folders)?;
    Ok(met)
}

/// The information control blocks of those of these entries of which a name is found in a torn folder of a volume that has these nodes, or of these lost trees.
/// The body of each such folder is read once.
///
/// # Errors
///
/// `OutOfMemory` where memory runs out, and `Unread` where the bytes of a known block could not be read.
pub fn found_entries<B: BlockStore>(
    alloc: Global,
    view: StoreView<'_, B>,
    lost: &Unplaced<'_>,
    nodes: &[Node],
    trees: &[LostTree],
) -> Result<Met, GaveUp>
    ensures value { IfOk result (λ met. B.tells → (icb : Icb) → list_any (is_icb icb) met ≡ is_found (view_by B.states view.entry) lost.now nodes.now trees.now icb) }
    ensures fails { IsErrOf result GaveUp.Unread → B.fails }
{
    let mut met = with_nodes(alloc, view, lost, Met::none(alloc), nodes)?;
    for tree in trees {
        met = with_nodes(alloc, view, lost, met, &tree.nodes)?;
    }
    Ok(met)
}
