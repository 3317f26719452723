//! The entry at an information control block, and what its directory names.

ghost use Rattle.std.specs.Prelude.{◌≡◌, IfErr, IfOk, IsErrOf, OnErr, filter_map};
ghost use Rattle.udfs_space.specs.Views.{view_by};
ghost use Rattle.udfs_file.specs.Bodies.{body, cells};
ghost use Rattle.udfs_file.specs.Entries.{entry_of};
ghost use Rattle.udfs_file.specs.Stretches.{IsStanding, cells_of};
ghost use Rattle.udfs_walk.specs.GivingUp.{IfTold};
ghost use Rattle.udfs_walk.specs.Routes.{kind_entries};
ghost use Rattle.udfs_walk.specs.UnnamedEntries.{address_of};
ghost use Rattle.udfs_walk.specs.Visits.{AreRefused};
ghost use Rattle.udfs_lost.specs.Entries.{AreEntriesRefused, IsEntryAt, entries_at};
ghost use Rattle.udfs_lost.specs.Naming.{named_by, names_at};

use std::alloc::{AllocError, Global};
use udfs_file::file_sets::address_fault;
use udfs_file::{Body, Dir, DirEntry, DirFront, Entry, FrontError, Kind, WalkError};
use udfs_lattice::{BlockStore, Fact, ReadFault};
use udfs_space::StoreView;
use udfs_tag::{LbAddr, LongAd};
use udfs_walk::NodesGaveUp;

/// The most entries that a directory may list: with more there are too many paths.
const MOST_ENTRIES: usize = 65_535;

/// The recorded extent of one block that holds an information control block.
pub(crate) fn entry_address(icb: LbAddr) -> LongAd
    ensures { result ≡ address_of icb }
{
    LongAd {
        kind: 0,
        length: 2048,
        block: icb.block,
        reference: icb.reference,
    }
}

/// The entry at an information control block, if one without a fault of its own is known there. It takes no memory. The entry is lent
/// from the store's memory, or from `room`.
pub(crate) fn entry_at<'r, 'a, B: BlockStore>(
    view: StoreView<'a, B>,
    icb: LbAddr,
    room: &'r mut [u8; 2048],
) -> Result<Option<Entry<'r>>, ReadFault>
where
    'a: 'r,
    ensures value { IfOk result (λ found. B.tells → IsEntryAt (view_by B.states view.entry) icb found) }
    ensures fails { OnErr result B.fails }
{
    match address_fault(view.space, entry_address(icb)) {
        Some(_) => Ok(None),
        None => match view.block_at(icb, room)? {
            None => Ok(None),
            Some((_, fact)) => match fact {
                Fact::Unknown => Ok(None),
                Fact::Conflict => Ok(None),
                Fact::Known(bytes) => match Entry::read(bytes, icb.block) {
                    Ok(entry) => Ok(Some(entry)),
                    Err(_) => Ok(None),
                },
            },
        },
    }
}

/// The entries of the directory that has this body, as far as they can be read.
fn body_entries<B: BlockStore>(
    alloc: Global,
    view: StoreView<'_, B>,
    body: &Body,
) -> Result<Vec<DirEntry>, NodesGaveUp>
    ensures entries { IfOk result (λ entries. B.tells → entries.items ≡ kind_entries (view_by B.states view.entry).profile Kind.Directory (cells (cells_of (view_by B.states view.entry) body.now))) }
    ensures refused { IfErr result (λ e. B.tells → IfTold (AreRefused 65535 (kind_entries (view_by B.states view.entry).profile Kind.Directory (cells (cells_of (view_by B.states view.entry) body.now)))) e) }
    ensures fails { IsErrOf result NodesGaveUp.Unread → B.fails }
{
    match Dir::front_by(alloc, view, body, view.space.profile(), MOST_ENTRIES)? {
        Ok(front) => {
            let DirFront { entries, .. } = front;
            Ok(entries)
        }
        Err(FrontError::TooMany) => Err(NodesGaveUp::TooManyPaths),
        Err(FrontError::OutOfMemory) => Err(NodesGaveUp::OutOfMemory),
    }
}

/// The entries of a directory, as far as they can be read; those of another entry are none, and no body is read for it.
fn listed<B: BlockStore>(
    alloc: Global,
    view: StoreView<'_, B>,
    entry: &Entry<'_>,
    icb: LbAddr,
) -> Result<Vec<DirEntry>, NodesGaveUp>
    requires { B.tells → IsStanding (view_by B.states view) icb.reference icb.block entry.now }
    ensures entries { IfOk result (λ entries. B.tells → entries.items ≡ kind_entries (view_by B.states view.entry).profile (entry_of entry.now).kind (body (view_by B.states view.entry) icb.reference icb.block (entry_of entry.now))) }
    ensures refused { IfErr result (λ e. B.tells → IfTold (AreRefused 65535 (kind_entries (view_by B.states view.entry).profile (entry_of entry.now).kind (body (view_by B.states view.entry) icb.reference icb.block (entry_of entry.now)))) e) }
    ensures fails { IsErrOf result NodesGaveUp.Unread → B.fails }
{
    let Kind::Directory = entry.kind() else {
        return Ok(Vec::new(alloc));
    };
    match Body::read_by(alloc, view, entry, icb.reference, icb.block)? {
        Err(WalkError::OutOfMemory) => Err(NodesGaveUp::OutOfMemory),
        Err(WalkError::Fault(_)) => Ok(Vec::new(alloc)),
        Ok(body) => {
            let entries = body_entries(alloc, view, &body)?;
            Ok(entries)
        }
    }
}

/// What the directory at an information control block lists, as far as it can be read.
fn entries_at<B: BlockStore>(
    alloc: Global,
    view: StoreView<'_, B>,
    icb: LbAddr,
) -> Result<Vec<DirEntry>, NodesGaveUp>
    ensures entries { IfOk result (λ entries. B.tells → entries.items ≡ entries_at (view_by B.states view.entry) icb) }
    ensures refused { IfErr result (λ e. B.tells → IfTold (AreEntriesRefused (view_by B.states view.entry) icb) e) }
    ensures fails { IsErrOf result NodesGaveUp.Unread → B.fails }
{
    let mut room = [0; 2048];
    match entry_at(view, icb, &mut room)? {
        None => Ok(Vec::new(alloc)),
        Some(entry) => {
            let entries = listed(alloc, view, &entry, icb)?;
            Ok(entries)
        }
    }
}

/// The information control blocks that entries of a directory name, where their addresses are good.
fn named<B: BlockStore>(
    alloc: Global,
    view: StoreView<'_, B>,
    entries: &[DirEntry],
) -> Result<Vec<LbAddr>, AllocError>
    ensures { IfOk result (λ icbs. icbs.items ≡ filter_map (named_by (view_by B.states view.entry)) entries.now) }
{
    let mut icbs = Vec::new(alloc);
    for entry in entries {
        match address_fault(view.space, entry.icb) {
            Some(_) => {}
            None => icbs.push(entry.icb.address())?,
        }
    }
    Ok(icbs)
}

/// The information control blocks that the directory at this one names, as far as it can be read. What is no directory names
/// none.
///
/// # Errors
///
/// `TooManyPaths` where the directory lists more than 65,535 entries, `OutOfMemory` where memory runs out, and `Unread` where the
/// bytes of a known block could not be read.
pub(crate) fn names_at<B: BlockStore>(
    alloc: Global,
    view: StoreView<'_, B>,
    icb: LbAddr,
) -> Result<Vec<LbAddr>, NodesGaveUp>
    ensures names { IfOk result (λ icbs. B.tells → icbs.items ≡ names_at (view_by B.states view.entry) icb) }
    ensures refused { IfErr result (λ e. B.tells → IfTold (AreEntriesRefused (view_by B.states view.entry) icb) e) }
    ensures fails { IsErrOf result NodesGaveUp.Unread → B.fails }
{
    let entries = entries_at(alloc, view, icb)?;
    let icbs = named(alloc, view, &entries)?;
    Ok(icbs)
}
