//! What the body of an entry says: how whole the entry is, and what it lists as a directory.

ghost use Rattle.std.specs.Prelude.{◌≤◌, ◌≡◌, IfErr, IfOk, IsErrOf, List, OnErr, false, length, nat_lt};
ghost use Rattle.udfs_space.specs.Views.{view_by};
ghost use Rattle.udfs_file.specs.Stretches.{IsStanding, cells_of};
ghost use Rattle.udfs_file.specs.Entries.{entry_of};
ghost use Rattle.udfs_file.specs.Bodies.{body, cells};
ghost use Rattle.udfs_file.specs.Fronts.{IsEndBy, IsFrontBy, directory_by, entries_by, fault_in};
ghost use Rattle.udfs_volume.specs.declared.profiles.Profile.{Profile};
ghost use Rattle.udfs_file.specs.declared.cells.Cell.{Cell};
ghost use Rattle.udfs_walk.specs.Bare.{bare_standing};
ghost use Rattle.udfs_walk.specs.GivingUp.{IfTold};
ghost use Rattle.udfs_walk.specs.Standings.{body_standing, kind_standing, standing_or_fault};
ghost use Rattle.udfs_walk.specs.Routes.{kind_entries};
ghost use Rattle.udfs_walk.specs.Visits.{AreRefused};

use crate::answers::NodesGaveUp;
use crate::gaps::bare_cells_standing;
use crate::standings::Standing;
use std::alloc::Global;
use udfs_file::directories::{DirEnd, DirFront};
use udfs_file::{Body, Dir, DirEntry, Entry, FrontError, Kind, WalkError};
use udfs_lattice::{BlockStore, GaveUp, ReadFault};
use udfs_space::StoreView;
use udfs_tag::LbAddr;

/// What the body of an entry says, wherever in the tree the entry is.
#[derive(Drop)]
pub(crate) struct Told {
    /// How whole the entry is, where it is no loop and fewer than 64 names lead to it, without the blocks and the holes.
    pub(crate) standing: Standing,
    /// Whether it lists entries, as a directory.
    pub(crate) lists: bool,
}

/// What is known of a directory that ends like this, and whose cells alone have this standing.
fn ended(end: DirEnd, standing: Standing) -> Told
    ensures standing { (profile : Profile) (cs : List Cell) → IsEndBy profile end cs → result.standing ≡ standing_or_fault (fault_in (directory_by profile cs).rest) standing }
    ensures lists { (profile : Profile) (cs : List Cell) → IsEndBy profile end cs → result.lists ≡ nat_lt 0 (length (entries_by profile cs)) }
{
    let standing = match end.fault {
        Some(fault) => Standing::Fault(fault),
        None => standing,
    };
    Told {
        standing,
        lists: end.lists,
    }
}

/// What a body says of an entry of this kind.
fn kind_told<B: BlockStore>(
    alloc: Global,
    view: StoreView<'_, B>,
    kind: Kind,
    body: &Body,
) -> Result<Told, ReadFault>
    ensures standing { IfOk result (λ told. B.tells → told.standing ≡ bare_standing (kind_standing (view_by B.states view.entry).profile kind false (cells_of (view_by B.states view.entry) body.now))) }
    ensures lists { IfOk result (λ told. B.tells → told.lists ≡ nat_lt 0 (length (kind_entries (view_by B.states view.entry).profile kind (cells (cells_of (view_by B.states view.entry) body.now))))) }
    ensures fails { OnErr result B.fails }
{
    let standing = bare_cells_standing(alloc, view, body);
    match kind {
        Kind::Directory => {
            let end = Dir::end_by(view, body, view.space.profile())?;
            Ok(ended(end, standing))
        }
        _ => Ok(Told {
            standing,
            lists: false,
        }),
    }
}

/// What the body of the entry at `address` says. No entry of a directory is kept.
pub(crate) fn body_told<B: BlockStore>(
    alloc: Global,
    view: StoreView<'_, B>,
    entry: &Entry<'_>,
    address: LbAddr,
) -> Result<Told, GaveUp>
    requires { B.tells → IsStanding (view_by B.states view) address.reference address.block entry.now }
    ensures standing { IfOk result (λ told. B.tells → told.standing ≡ bare_standing (body_standing (view_by B.states view.entry).profile (entry_of entry.now).kind false
        (body (view_by B.states view.entry) address.reference address.block (entry_of entry.now)))) }
    ensures lists { IfOk result (λ told. B.tells → told.lists ≡ nat_lt 0 (length (kind_entries (view_by B.states view.entry).profile (entry_of entry.now).kind
        (body (view_by B.states view.entry) address.reference address.block (entry_of entry.now))))) }
    ensures fails { IsErrOf result GaveUp.Unread → B.fails }
{
    match Body::read_by(alloc, view, entry, address.reference, address.block)? {
        Err(WalkError::OutOfMemory) => Err(GaveUp::OutOfMemory),
        Err(WalkError::Fault(fault)) => Ok(Told {
            standing: Standing::Fault(fault),
            lists: false,
        }),
        Ok(body) => {
            let told = kind_told(alloc, view, entry.kind(), &body)?;
            Ok(told)
        }
    }
}

/// What ends a directory of which this is the front.
fn end_of(front: &DirFront) -> DirEnd
    ensures { (profile : Profile) (cs : List Cell) → IsFrontBy profile front.now cs → IsEndBy profile result cs }
{
    DirEnd {
        lists: front.entries.len() > 0,
        missing: front.missing,
        fault: front.fault,
    }
}

/// What a body says of an entry of this kind, and the entries that it lists, of which there are at most `most`.
fn kind_entered<B: BlockStore>(
    alloc: Global,
    view: StoreView<'_, B>,
    kind: Kind,
    body: &Body,
    most: usize,
) -> Result<(Told, Vec<DirEntry>), NodesGaveUp>
    ensures standing { IfOk result (λ entered. B.tells → entered.0.standing ≡ bare_standing (kind_standing (view_by B.states view.entry).profile kind false (cells_of (view_by B.states view.entry) body.now))) }
    ensures lists { IfOk result (λ entered. B.tells → entered.0.lists ≡ nat_lt 0 (length (kind_entries (view_by B.states view.entry).profile kind (cells (cells_of (view_by B.states view.entry) body.now))))) }
    ensures entries { IfOk result (λ entered. B.tells → entered.1.items ≡ kind_entries (view_by B.states view.entry).profile kind (cells (cells_of (view_by B.states view.entry) body.now))) }
    ensures few { IfOk result (λ entered. length entered.1.items ≤ most) }
    ensures refused { IfErr result (λ e. B.tells → IfTold (AreRefused most (kind_entries (view_by B.states view.entry).profile kind (cells (cells_of (view_by B.states view.entry) body.now)))) e) }
    ensures fails { IsErrOf result NodesGaveUp.Unread → B.fails }
{
    let cells = bare_cells_standing(alloc, view, body);
    match kind {
        Kind::Directory => match Dir::front_by(alloc, view, body, view.space.profile(), most)? {
            Ok(front) => {
                let told = ended(end_of(&front), cells);
                let DirFront { entries, .. } = front;
                Ok((told, entries))
            }
            Err(FrontError::TooMany) => Err(NodesGaveUp::TooManyPaths),
            Err(FrontError::OutOfMemory) => Err(NodesGaveUp::OutOfMemory),
        },
        _ => {
            let told = Told {
                standing: cells,
                lists: false,
            };
            Ok((told, Vec::new(alloc)))
        }
    }
}

/// What the body of the entry at `address` says, and the entries that it lists, of which there are at most `most`. Both are
/// found by one walk.
pub(crate) fn body_entered<B: BlockStore>(
    alloc: Global,
    view: StoreView<'_, B>,
    entry: &Entry<'_>,
    address: LbAddr,
    most: usize,
) -> Result<(Told, Vec<DirEntry>), NodesGaveUp>
    requires { B.tells → IsStanding (view_by B.states view) address.reference address.block entry.now }
    ensures standing { IfOk result (λ entered. B.tells → entered.0.standing ≡ bare_standing (body_standing (view_by B.states view.entry).profile (entry_of entry.now).kind false
        (body (view_by B.states view.entry) address.reference address.block (entry_of entry.now)))) }
    ensures lists { IfOk result (λ entered. B.tells → entered.0.lists ≡ nat_lt 0 (length (kind_entries (view_by B.states view.entry).profile (entry_of entry.now).kind
        (body (view_by B.states view.entry) address.reference address.block (entry_of entry.now))))) }
    ensures entries { IfOk result (λ entered. B.tells → entered.1.items ≡ kind_entries (view_by B.states view.entry).profile (entry_of entry.now).kind
        (body (view_by B.states view.entry) address.reference address.block (entry_of entry.now))) }
    ensures few { IfOk result (λ entered. length entered.1.items ≤ most) }
    ensures refused { IfErr result (λ e. B.tells → IfTold (AreRefused most (kind_entries (view_by B.states view.entry).profile (entry_of entry.now).kind
        (body (view_by B.states view.entry) address.reference address.block (entry_of entry.now)))) e) }
    ensures fails { IsErrOf result NodesGaveUp.Unread → B.fails }
{
    match Body::read_by(alloc, view, entry, address.reference, address.block)? {
        Err(WalkError::OutOfMemory) => Err(NodesGaveUp::OutOfMemory),
        Err(WalkError::Fault(fault)) => {
            let told = Told {
                standing: Standing::Fault(fault),
                lists: false,
            };
            Ok((told, Vec::new(alloc)))
        }
        Ok(body) => {
            let entered = kind_entered(alloc, view, entry.kind(), &body, most)?;
            Ok(entered)
        }
    }
}
