//! Listings: what a store of blocks says of a volume and its nodes only.

ghost use Rattle.std.specs.Prelude.{◌≡◌, ◌≤◌, ◌↔◌, ℕ, IfOk, IfErr, IsErrOf, OnErr, OnOk, map};
ghost use Rattle.udfs_lattice.specs.Tables.{state_of};
ghost use Rattle.udfs_volume.specs.Answers.{found};
ghost use Rattle.udfs_volume.specs.Seen.{IsRising};
ghost use Rattle.udfs_space.specs.Places.{view};
ghost use Rattle.udfs_walk.specs.Bare.{full_node};
ghost use Rattle.udfs_walk.specs.Walks.{AreNodes};
ghost use Rattle.udfs_salvage.specs.Found.{found_now, volume_now};
ghost use Rattle.udfs_salvage.specs.Headline.{HeadlineBy};
ghost use Rattle.udfs_salvage.specs.Listings.{AreUnnamed, AreUnnamedBy, listing_by, listing_now};
ghost use Rattle.udfs_salvage.specs.Stores.{IfTold, IsStoreRefused};
ghost use Rattle.udfs_salvage.specs.Surveys.{IsNoFault};
ghost use Rattle.udfs_salvage.specs.TreeReports.{IsOfNoLawfulBy};
ghost use Rattle.udfs_salvage.specs.Reports.{HasTooManyPathsBy, IsLookRefused, IsNothingPast, IsOutOfRange, IsPastEnd, IsReportBy, IsWalkRefused, MayWantMemoryBy, ReportsBy, all_whole};

use crate::errors::{SalvageError, StoreError};
use crate::reports::{all_whole, judge_last};
use crate::stores::ReportStore;
use crate::volumes::{OpenVolume, Volume, open_by};
use std::alloc::Global;
use udfs_lattice::{BlockStore, BlockTable, GaveUp};
use udfs_volume::{Profile, Seen};
use udfs_walk::unnamed_entries::bare_unnamed_by;
use udfs_walk::{Node, NodesGaveUp, Unnamed, bare_nodes_by, bare_reread_by};

/// What a store of blocks says of a volume and its nodes, as a [`Survey`](crate::Survey) has them. What a survey has beyond them, the entries that no name leads to
/// and the blocks to read again, is not looked for.
#[derive(Drop)]
pub struct Listing<'a, B: BlockStore = BlockTable> {
    /// The table, or another store of blocks.
    pub table: &'a B,
    /// The last block of the volume.
    pub last: u32,
    /// The rules by which the volume is read.
    pub profile: Profile,
    /// Whether the volume opens.
    pub volume: Volume,
    /// The nodes, as a report has them; a torn one without its blocks and holes.
    pub nodes: Vec<Node>,
}

impl<'a, B: BlockStore> Listing<'a, B> {
    /// Whether there are nodes, and all are whole.
    pub fn all_whole(&self) -> bool
        ensures { result ≡ all_whole (listing_by B.states self.now).nodes }
    {
        all_whole(&self.nodes)
    }
}

/// The nodes of a volume that opens.
fn list<B: BlockStore>(
    alloc: Global,
    blocks: &B,
    opened: &OpenVolume,
) -> Result<Vec<Node>, StoreError>
    ensures nodes { IfOk result (λ listed. B.tells → AreNodes (view (B.states blocks.now) opened.now.space) opened.now.root (map (full_node (view (B.states blocks.now) opened.now.space)) listed.items)) }
    ensures refused { IfErr result (λ error. B.tells → IfTold (IsWalkRefused (B.states blocks.now) (found_now opened.now)) error) }
    ensures fails { IsErrOf result StoreError.Unread → B.fails }
{
    let view = opened.view_by(blocks);
    match bare_nodes_by(alloc, view, opened.root) {
        Ok(listed) => Ok(listed),
        Err(NodesGaveUp::TooManyPaths) => Err(StoreError::Salvage(SalvageError::TooManyPaths)),
        Err(NodesGaveUp::OutOfMemory) => Err(StoreError::Salvage(SalvageError::OutOfMemory)),
        Err(NodesGaveUp::Unread) => Err(StoreError::Unread),
    }
}

/// The listing of a volume that opens.
fn list_open<'a, B: BlockStore>(
    alloc: Global,
    blocks: &'a B,
    last: u32,
    profile: Profile,
    opened: OpenVolume,
) -> Result<Listing<'a, B>, StoreError>
    ensures report { IfOk result (λ listing. B.tells → ReportsBy (B.states blocks.now) (found (found_now opened)) (listing_by B.states listing)) }
    ensures rising { IfOk result (λ listing. IsRising (listing_by B.states listing).reread) }
    ensures volume { IfOk result (λ listing. volume_now listing.volume ≡ found (found_now opened)) }
    ensures of { IfOk result (λ listing. (listing.table.now ≡ blocks.now) × (listing.last ≡ last) × (listing.profile ≡ profile)) }
    ensures refused { IfErr result (λ error. B.tells → IfTold (IsWalkRefused (B.states blocks.now) (found_now opened)) error) }
    ensures fails { IsErrOf result StoreError.Unread → B.fails }
{
    let nodes = list(alloc, blocks, &opened)?;
    Ok(Listing {
        table: blocks,
        last,
        profile,
        volume: Volume::Open(opened),
        nodes,
    })
}

/// The listing of a volume, by what is found of it, where nothing is known of a block after its last.
fn look<'a, B: BlockStore>(
    alloc: Global,
    blocks: &'a B,
    last: u32,
    profile: Profile,
) -> Result<Listing<'a, B>, StoreError>
    requires from { 513 ≤ last }
    requires to { last ≤ 4194303 }
    requires nothing_past { B.tells → IsNothingPast (B.states blocks.now) last }
    ensures report { IfOk result (λ listing. B.tells → IsReportBy profile (B.states blocks.now) last (listing_by B.states listing)) }
    ensures rising { IfOk result (λ listing. B.tells → IsRising (listing_by B.states listing).reread) }
    ensures of { IfOk result (λ listing. (listing.table.now ≡ blocks.now) × (listing.last ≡ last) × (listing.profile ≡ profile)) }
    ensures refused { IfErr result (λ error. B.tells → IfTold (IsLookRefused profile (B.states blocks.now) last) error) }
    ensures fails { IsErrOf result StoreError.Unread → B.fails }
{
    match open_by(alloc, blocks, last, profile)? {
        Seen::Got(opened) => list_open(alloc, blocks, last, profile, opened),
        Seen::Holes(listed) => Ok(Listing {
            table: blocks,
            last,
            profile,
            volume: Volume::Holes(listed),
            nodes: Vec::new(alloc),
        }),
        Seen::Fault(fault) => Ok(Listing {
            table: blocks,
            last,
            profile,
            volume: Volume::Fault(fault),
            nodes: Vec::new(alloc),
        }),
        Seen::OutOfMemory => Err(StoreError::Salvage(SalvageError::OutOfMemory)),
    }
}

/// What a store of blocks says of the volume and its nodes by the rules of a profile, where `last` is its last block: what [`survey_store`](crate::survey_store)
/// returns of them. The entries that no name leads to and the blocks to read again are not looked for. Of the store the volume's
/// structures, the entries and the directories are read.
///
/// # Errors
///
/// `Salvage` as [`list_volume_by`] returns it; and `Unread` where the bytes of a known block could not be read: never where `LastRange` or `PastEnd` is due.
pub fn list_store<'a, B: ReportStore>(
    alloc: Global,
    blocks: &'a B,
    last: u32,
    profile: Profile,
) -> Result<Listing<'a, B>, StoreError>
    ensures report { IfOk result (λ listing. B.tells → IsReportBy profile (B.states blocks.now) last (listing_by B.states listing)) }
    // All that is promised of a report holds of the one whose nodes these are.
    ensures headline { IfOk result (λ listing. B.tells → HeadlineBy profile (B.states blocks.now) last (listing_by B.states listing)) }
    ensures refused { IfErr result (λ error. B.tells → IsStoreRefused profile (B.states blocks.now) last error) }
    ensures range { OnOk result (¬ IsOutOfRange last) }
    ensures rising { IfOk result (λ listing. B.tells → IsRising (listing_by B.states listing).reread) }
    ensures of { IfOk result (λ listing. (listing.table.now ≡ blocks.now) × (listing.last ≡ last) × (listing.profile ≡ profile)) }
    ensures fails { IsErrOf result StoreError.Unread → B.fails }
{
    match judge_last(blocks, last) {
        Ok(()) => look(alloc, blocks, last, profile),
        Err(error) => Err(StoreError::Salvage(error)),
    }
}

/// What the table says of the volume and its nodes by the rules of a profile, where `last` is its last block: what [`salvage_by`](crate::salvage_by)
/// returns of them, but without the blocks and the holes of torn nodes. The entries that no name leads to and the blocks to read again are not looked for.
///
/// # Errors
///
/// As those of [`salvage_by`](crate::salvage_by).
pub fn list_volume_by<'a>(
    alloc: Global,
    table: &'a BlockTable,
    last: u32,
    profile: Profile,
) -> Result<Listing<'a>, SalvageError>
    ensures range { IsErrOf result SalvageError.LastRange ↔ IsOutOfRange last }
    ensures past { (n : ℕ) → (IsErrOf result (SalvageError.PastEnd n) ↔ ((¬ IsOutOfRange last) × IsPastEnd (state_of table.now) last n)) }
    ensures too_many { IsErrOf result SalvageError.TooManyPaths → (¬ IsOutOfRange last) × IsNothingPast (state_of table.now) last × HasTooManyPathsBy profile (state_of table.now) last }
    ensures report { IfOk result (λ listing. IsReportBy profile (state_of table.now) last (listing_now listing)) }
    // All that is promised of a report holds of the one whose nodes these are.
    ensures headline { IfOk result (λ listing. HeadlineBy profile (state_of table.now) last (listing_now listing)) }
    ensures memory { IsErrOf result SalvageError.OutOfMemory → (¬ IsOutOfRange last) × IsNothingPast (state_of table.now) last × MayWantMemoryBy profile (state_of table.now) last }
    ensures of_no_lawful { IfErr result (IsOfNoLawfulBy profile (state_of table.now) last) }
    ensures rising { IfOk result (λ listing. IsRising (listing_now listing).reread) }
    ensures rules { IfOk result (λ listing. listing.profile ≡ profile) }
    ensures of { IfOk result (λ listing. (listing.table.now ≡ table.now) × (listing.last ≡ last)) }
{
    match list_store(alloc, table, last, profile) {
        Ok(listing) => Ok(listing),
        Err(StoreError::Salvage(error)) => Err(error),
        Err(StoreError::Unread) => unreachable!(),
    }
}

/// The entries that no name leads to, of the volume of a listing, as a report has them, but torn ones without their missing blocks and holes. Empty
/// where the volume does not open.
///
/// # Errors
///
/// Only `OutOfMemory`, where memory runs out.
pub fn list_unnamed(alloc: Global, listing: &Listing<'_>) -> Result<Vec<Unnamed>, SalvageError>
    ensures entries { IfOk result (λ entries. AreUnnamed listing.now entries.items) }
    ensures refused { IfErr result (λ error. error ≡ SalvageError.OutOfMemory) }
{
    match list_unnamed_by(alloc, listing) {
        Ok(entries) => Ok(entries),
        Err(GaveUp::OutOfMemory) => Err(SalvageError::OutOfMemory),
        Err(GaveUp::Unread) => unreachable!(),
    }
}

/// The same as [`list_unnamed`], by any store of blocks. Every known block of the partitions is read.
///
/// # Errors
///
/// `OutOfMemory` where memory runs out, and `Unread` where the bytes of a known block could not be read: never of a volume with a fault.
pub fn list_unnamed_by<B: BlockStore>(
    alloc: Global,
    listing: &Listing<'_, B>,
) -> Result<Vec<Unnamed>, GaveUp>
    ensures entries { IfOk result (λ entries. B.tells → AreUnnamedBy B.states listing.now entries.items) }
    ensures fault { OnErr result (IsNoFault (volume_now listing.now.volume)) }
    ensures fails { IsErrOf result GaveUp.Unread → B.fails }
{
    match &listing.volume {
        Volume::Open(opened) => {
            let view = opened.view_by(listing.table);
            let entries = bare_unnamed_by(alloc, view, &listing.nodes)?;
            Ok(entries)
        }
        _ => Ok(Vec::new(alloc)),
    }
}

/// The blocks to read again of the volume of a listing, as a report has them: of one that opens those that are missing in torn nodes, and of one that does not open those that
/// it lacks. The blocks of a torn body are found once, however many names lead to it.
///
/// # Errors
///
/// Only `OutOfMemory`, where memory runs out.
pub fn reread_blocks(alloc: Global, listing: &Listing<'_>) -> Result<Vec<u32>, SalvageError>
    ensures blocks { IfOk result (λ blocks. blocks.items ≡ (listing_now listing.now).reread) }
    ensures refused { IfErr result (λ error. error ≡ SalvageError.OutOfMemory) }
{
    match reread_blocks_by(alloc, listing) {
        Ok(blocks) => Ok(blocks),
        Err(GaveUp::OutOfMemory) => Err(SalvageError::OutOfMemory),
        Err(GaveUp::Unread) => unreachable!(),
    }
}

/// The same as [`reread_blocks`], by any store of blocks.
///
/// # Errors
///
/// `OutOfMemory` where memory runs out, and `Unread` where the bytes of a known block could not be read: never of a volume with a fault.
pub fn reread_blocks_by<B: BlockStore>(
    alloc: Global,
    listing: &Listing<'_, B>,
) -> Result<Vec<u32>, GaveUp>
    ensures value { IfOk result (λ blocks. B.tells → blocks.items ≡ (listing_by B.states listing.now).reread) }
    ensures fault { OnErr result (IsNoFault (volume_now listing.now.volume)) }
    ensures fails { IsErrOf result GaveUp.Unread → B.fails }
{
    match &listing.volume {
        Volume::Open(opened) => {
            let view = opened.view_by(listing.table);
            let blocks = bare_reread_by(alloc, view, &listing.nodes)?;
            Ok(blocks)
        }
        Volume::Holes(listed) => {
            let blocks = listed.clone()?;
            Ok(blocks)
        }
        Volume::Fault(_) => Ok(Vec::new(alloc)),
    }
}
