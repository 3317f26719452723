//! Surveys: reports that keep no blocks and holes of torn nodes.

ghost use Rattle.std.specs.Prelude.{◌≡◌, ◌↔◌, ℕ, IfOk, IfErr, IsErrOf, OnErr};
ghost use Rattle.udfs_lattice.specs.Tables.{state_of};
ghost use Rattle.udfs_volume.specs.Seen.{IsRising};
ghost use Rattle.udfs_volume.specs.declared.profiles.Profile.{Profile};
ghost use Rattle.udfs_volume.specs.declared.profiles.Profile.TheVariants.{Strict};
ghost use Rattle.udfs_salvage.specs.Found.{volume_now};
ghost use Rattle.udfs_salvage.specs.Headline.{Headline, HeadlineBy};
ghost use Rattle.udfs_salvage.specs.Listings.{listing_by};
ghost use Rattle.udfs_salvage.specs.Stores.{IsStoreRefused};
ghost use Rattle.udfs_salvage.specs.TreeReports.{IsOfNoLawful, IsOfNoLawfulBy};
ghost use Rattle.udfs_salvage.specs.Reports.{HasTooManyPaths, HasTooManyPathsBy, IsNothingPast, IsOutOfRange, IsPastEnd, IsReport, IsReportBy, MayWantMemory, MayWantMemoryBy, all_whole, report_now};
ghost use Rattle.udfs_salvage.specs.Surveys.{IsNoFault, survey_by, survey_now};

use crate::errors::{SalvageError, StoreError};
use crate::listings::{Listing, list_store, list_unnamed_by, reread_blocks_by};
use crate::reports::{Report, all_whole};
use crate::stores::ReportStore;
use crate::volumes::Volume;
use std::alloc::{AllocError, Global};
use udfs_lattice::{BlockStore, BlockTable, GaveUp};
use udfs_volume::Profile;
use udfs_walk::{Node, Unnamed, full_entries, full_nodes};

/// What a store of blocks says of a volume, as a [`Report`] has it, but without the blocks and holes of torn nodes and entries: these
/// are found again when they are needed, so that only those of one node are held at a time.
#[derive(Drop)]
pub struct Survey<'a, B: BlockStore = BlockTable> {
    /// The table, or another store of blocks.
    pub table: &'a B,
    /// The last block of the volume.
    pub last: u32,
    /// The rules by which the volume is read.
    pub profile: Profile,
    /// Whether the volume opens.
    pub volume: Volume,
    /// The nodes, as a report has them; a torn one without its blocks and holes.
    pub nodes: Vec<Node>,
    /// The entries that no name leads to, as a report has them; a torn one without its blocks and holes.
    pub unnamed: Vec<Unnamed>,
    /// The blocks to read again, ascending and each once. None of them is known.
    pub reread: Vec<u32>,
}

impl<'a, B: BlockStore> Survey<'a, B> {
    /// Whether there are nodes, and all are whole.
    pub fn all_whole(&self) -> bool
        ensures { result ≡ all_whole (survey_by B.states self.now).nodes }
    {
        all_whole(&self.nodes)
    }
}

/// The survey of a listing: with the entries that no name leads to, and the blocks to read again.
fn surveyed<'a, B: BlockStore>(
    alloc: Global,
    listing: Listing<'a, B>,
) -> Result<Survey<'a, B>, GaveUp>
    ensures report { IfOk result (λ survey. B.tells → (profile : Profile) (last : ℕ) → IsReportBy profile (B.states listing.entry.table.now) last (listing_by B.states listing.entry) →
        survey_by B.states survey ≡ listing_by B.states listing.entry) }
    ensures of { IfOk result (λ survey. (survey.table.now ≡ listing.entry.table.now) × (survey.last ≡ listing.entry.last) × (survey.profile ≡ listing.entry.profile)) }
    ensures fault { OnErr result (IsNoFault (volume_now listing.entry.volume)) }
    ensures fails { IsErrOf result GaveUp.Unread → B.fails }
{
    let unnamed = list_unnamed_by(alloc, &listing)?;
    let reread = reread_blocks_by(alloc, &listing)?;
    let Listing {
        table,
        last,
        profile,
        volume,
        nodes,
    } = listing;
    Ok(Survey {
        table,
        last,
        profile,
        volume,
        nodes,
        unnamed,
        reread,
    })
}

/// What a store of blocks says of the volume by the rules of a profile, where `last` is its last block: the report that [`salvage_by`](crate::salvage_by)
/// returns of a table with the same states, but without the blocks and the holes of torn nodes and entries, which are found again when they are needed.
///
/// # Errors
///
/// `Salvage` with the error of [`salvage_by`](crate::salvage_by); and `Unread` where the bytes of a known block could not be read: never where `LastRange`
/// or `PastEnd` is due. Nothing is told of the volume then: a block whose bytes cannot be had is not an unknown one.
pub fn survey_store<'a, B: ReportStore>(
    alloc: Global,
    blocks: &'a B,
    last: u32,
    profile: Profile,
) -> Result<Survey<'a, B>, StoreError>
    ensures report { IfOk result (λ survey. B.tells → IsReportBy profile (B.states blocks.now) last (survey_by B.states survey)) }
    // All that is promised of a report holds of the one that the survey represents.
    ensures headline { IfOk result (λ survey. B.tells → HeadlineBy profile (B.states blocks.now) last (survey_by B.states survey)) }
    ensures refused { IfErr result (λ error. B.tells → IsStoreRefused profile (B.states blocks.now) last error) }
    ensures rising { IfOk result (λ survey. B.tells → IsRising survey.reread.items) }
    ensures of { IfOk result (λ survey. (survey.table.now ≡ blocks.now) × (survey.last ≡ last) × (survey.profile ≡ profile)) }
    ensures fails { IsErrOf result StoreError.Unread → B.fails }
{
    let listing = list_store(alloc, blocks, last, profile)?;
    match surveyed(alloc, listing) {
        Ok(survey) => Ok(survey),
        Err(GaveUp::OutOfMemory) => Err(StoreError::Salvage(SalvageError::OutOfMemory)),
        Err(GaveUp::Unread) => Err(StoreError::Unread),
    }
}

/// The report of a survey: the blocks and holes of all torn nodes.
pub(crate) fn filled<'a>(alloc: Global, survey: Survey<'a>) -> Result<Report<'a>, AllocError>
    ensures report { IfOk result (λ report. report_now report ≡ survey_now survey.entry) }
    ensures of { IfOk result (λ report. (report.table.now ≡ survey.entry.table.now) × (report.last ≡ survey.entry.last)) }
    ensures rules { IfOk result (λ report. report.profile ≡ survey.entry.profile) }
    ensures reread { IfOk result (λ report. report.reread.items ≡ survey.entry.reread.items) }
    ensures fault { OnErr result (IsNoFault (volume_now survey.entry.volume)) }
{
    let Survey {
        table,
        last,
        profile,
        volume,
        nodes,
        unnamed,
        reread,
    } = survey;
    match volume {
        Volume::Open(opened) => {
            let view = opened.view(table);
            let nodes = full_nodes(alloc, view, nodes)?;
            let unnamed = full_entries(alloc, view, unnamed)?;
            Ok(Report {
                table,
                last,
                profile,
                volume: Volume::Open(opened),
                nodes,
                unnamed,
                reread,
            })
        }
        Volume::Holes(blocks) => Ok(Report {
            table,
            last,
            profile,
            volume: Volume::Holes(blocks),
            nodes,
            unnamed,
            reread,
        }),
        Volume::Fault(fault) => Ok(Report {
            table,
            last,
            profile,
            volume: Volume::Fault(fault),
            nodes,
            unnamed,
            reread,
        }),
    }
}

/// What the table says of the volume by the rules of a profile, where `last` is its last block: the report that [`salvage_by`](crate::salvage_by)
/// returns, but without the blocks and the holes of torn nodes and entries, which are found again when they are needed.
///
/// # Errors
///
/// As those of [`salvage_by`](crate::salvage_by).
pub fn survey_volume_by<'a>(
    alloc: Global,
    table: &'a BlockTable,
    last: u32,
    profile: Profile,
) -> Result<Survey<'a>, SalvageError>
    ensures range { IsErrOf result SalvageError.LastRange ↔ IsOutOfRange last }
    ensures past { (n : ℕ) → (IsErrOf result (SalvageError.PastEnd n) ↔ ((¬ IsOutOfRange last) × IsPastEnd (state_of table.now) last n)) }
    ensures too_many { IsErrOf result SalvageError.TooManyPaths → (¬ IsOutOfRange last) × IsNothingPast (state_of table.now) last × HasTooManyPathsBy profile (state_of table.now) last }
    ensures report { IfOk result (λ survey. IsReportBy profile (state_of table.now) last (survey_now survey)) }
    // All that is promised of a report holds of the one that the survey represents.
    ensures headline { IfOk result (λ survey. HeadlineBy profile (state_of table.now) last (survey_now survey)) }
    ensures memory { IsErrOf result SalvageError.OutOfMemory → (¬ IsOutOfRange last) × IsNothingPast (state_of table.now) last × MayWantMemoryBy profile (state_of table.now) last }
    ensures of_no_lawful { IfErr result (IsOfNoLawfulBy profile (state_of table.now) last) }
    ensures rising { IfOk result (λ survey. IsRising survey.reread.items) }
    ensures rules { IfOk result (λ survey. survey.profile ≡ profile) }
    ensures of { IfOk result (λ survey. (survey.table.now ≡ table.now) × (survey.last ≡ last)) }
{
    match survey_store(alloc, table, last, profile) {
        Ok(survey) => Ok(survey),
        Err(StoreError::Salvage(error)) => Err(error),
        Err(StoreError::Unread) => unreachable!(),
    }
}

/// What the table says of the volume, where `last` is its last block: the report that [`salvage`](crate::salvage) returns, but without
/// the blocks and the holes of torn nodes and entries, which are found again when they are needed.
///
/// # Errors
///
/// As those of [`salvage`](crate::salvage).
pub fn survey_volume<'a>(
    alloc: Global,
    table: &'a BlockTable,
    last: u32,
) -> Result<Survey<'a>, SalvageError>
    ensures range { IsErrOf result SalvageError.LastRange ↔ IsOutOfRange last }
    ensures past { (n : ℕ) → (IsErrOf result (SalvageError.PastEnd n) ↔ ((¬ IsOutOfRange last) × IsPastEnd (state_of table.now) last n)) }
    ensures too_many { IsErrOf result SalvageError.TooManyPaths → (¬ IsOutOfRange last) × IsNothingPast (state_of table.now) last × HasTooManyPaths (state_of table.now) last }
    ensures report { IfOk result (λ survey. IsReport (state_of table.now) last (survey_now survey)) }
    // All that is promised of a report holds of the one that the survey represents.
    ensures headline { IfOk result (λ survey. Headline (state_of table.now) last (survey_now survey)) }
    ensures memory { IsErrOf result SalvageError.OutOfMemory → (¬ IsOutOfRange last) × IsNothingPast (state_of table.now) last × MayWantMemory (state_of table.now) last }
    ensures of_no_lawful { IfErr result (IsOfNoLawful (state_of table.now) last) }
    ensures rising { IfOk result (λ survey. IsRising survey.reread.items) }
    ensures rules { IfOk result (λ survey. survey.profile ≡ Strict) }
    ensures of { IfOk result (λ survey. (survey.table.now ≡ table.now) × (survey.last ≡ last)) }
{
    survey_volume_by(alloc, table, last, Profile::Strict)
}
