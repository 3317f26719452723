//! The search for the folders from which names lead to all lost folders.

ghost use Rattle.std.specs.Prelude.{◌≡◌, ◌++◌, ◌∷◌, [], IfErr, IfOk, IsErrOf, List};
ghost use Rattle.udfs_space.specs.Views.{view_by};
ghost use Rattle.udfs_walk.specs.GivingUp.{IfTold};
ghost use Rattle.udfs_walk.specs.Targets.{Icb};
ghost use Rattle.udfs_lost.specs.Folders.{AreLostRoots, IsRootsRefused};
ghost use Rattle.udfs_lost.specs.Met.{IsClosed, IsExplored};
ghost use Rattle.udfs_lost.specs.Starts.{AreRising, AreStarts, IsExploreRefused};

use crate::entries::names_at;
use crate::met::Met;
use std::alloc::{AllocError, Global};
use udfs_lattice::BlockStore;
use udfs_space::StoreView;
use udfs_tag::LbAddr;
use udfs_walk::NodesGaveUp;

/// Meets one more, and all that names lead to from it.
fn explore<B: BlockStore>(
    alloc: Global,
    view: StoreView<'_, B>,
    met: Met,
    icb: LbAddr,
) -> Result<Met, NodesGaveUp>
    requires { B.tells → IsClosed (view_by B.states view) met }
    ensures explored { IfOk result (λ found. B.tells → IsExplored (view_by B.states view.entry) met icb found) }
    ensures refused { IfErr result (λ e. B.tells → IfTold (IsExploreRefused (view_by B.states view.entry) icb) e) }
    ensures fails { IsErrOf result NodesGaveUp.Unread → B.fails }
{
    let mut at = met.len();
    let mut met = met.meet(icb)?;
    'search: while let Some(next) = met.get(at) {
        at += 1;
        let names = names_at(alloc, view, next)?;
        met = met.meet_all(&names)?;
    }
    Ok(met)
}

/// Appends a folder.
fn put(folders: &mut Vec<LbAddr>, folder: LbAddr) -> Result<(), AllocError>
    ensures { IfOk result (λ done. folders.new.items ≡ folders.old.items ++ folder ∷ []) }
{
    folders.push(folder)?;
    Ok(())
}

/// The folders to which none before them leads.
fn starts<B: BlockStore>(
    alloc: Global,
    view: StoreView<'_, B>,
    folders: &[LbAddr],
) -> Result<Vec<LbAddr>, NodesGaveUp>
    requires { AreRising folders.now }
    ensures starts { IfOk result (λ starts. B.tells → AreStarts (view_by B.states view.entry) folders.now starts.items) }
    ensures refused { IfErr result (λ e. B.tells → IfTold (IsRootsRefused (view_by B.states view.entry) folders.now) e) }
    ensures fails { IsErrOf result NodesGaveUp.Unread → B.fails }
{
    let mut met = Met::none(alloc);
    let mut starts = Vec::new(alloc);
    for folder in folders {
        if !met.contains(*folder) {
            met = explore(alloc, view, met, *folder)?;
            put(&mut starts, *folder)?;
        }
    }
    Ok(starts)
}

/// Those of the starts to which none after them leads.
fn last_starts<B: BlockStore>(
    alloc: Global,
    view: StoreView<'_, B>,
    starts: Vec<LbAddr>,
) -> Result<Vec<LbAddr>, NodesGaveUp>
    ensures roots { IfOk result (λ roots. B.tells → (folders : List Icb) → AreStarts (view_by B.states view.entry) folders starts.items → AreLostRoots (view_by B.states view.entry) folders roots.items) }
    ensures refused { IfErr result (λ e. B.tells → IfTold (IsRootsRefused (view_by B.states view.entry) starts.items) e) }
    ensures fails { IsErrOf result NodesGaveUp.Unread → B.fails }
{
    let mut left = starts;
    let mut met = Met::none(alloc);
    let mut roots = Vec::new(alloc);
    'roots: while let Some(folder) = left.pop() {
        if !met.contains(folder) {
            met = explore(alloc, view, met, folder)?;
            put(&mut roots, folder)?;
        }
    }
    roots.reverse();
    Ok(roots)
}

/// The roots among folders that ascend.
pub(crate) fn roots<B: BlockStore>(
    alloc: Global,
    view: StoreView<'_, B>,
    folders: &[LbAddr],
) -> Result<Vec<LbAddr>, NodesGaveUp>
    requires { AreRising folders.now }
    ensures roots { IfOk result (λ roots. B.tells → AreLostRoots (view_by B.states view.entry) folders.now roots.items) }
    ensures refused { IfErr result (λ e. B.tells → IfTold (IsRootsRefused (view_by B.states view.entry) folders.now) e) }
    ensures fails { IsErrOf result NodesGaveUp.Unread → B.fails }
{
    let starts = starts(alloc, view, folders)?;
    let roots = last_starts(alloc, view, starts)?;
    Ok(roots)
}
