//! What is found in the volume of a table, or why the table has no report.

ghost use Rattle.std.specs.Prelude.{◌≡◌, IfOk, IfErr, alloc_error};
ghost use Rattle.udfs_lattice.specs.Tables.{state_of};
ghost use Rattle.udfs_volume.specs.Seen.{IsRising};
ghost use Rattle.udfs_salvage.specs.Headline.{HeadlineBy};
ghost use Rattle.udfs_salvage.specs.Listings.{AreUnnamed, listing_now};
ghost use Rattle.udfs_salvage.specs.Reports.{IsReportBy};
ghost use Rattle.udfs_salvage.specs.Surveys.{survey_now};
ghost use Rattle.udfs_remarks.specs.NoReports.{IsUntold};

use crate::no_reports::refused_report;
use std::alloc::Global;
use udfs_common::refusal::Refusal;
use udfs_lattice::BlockTable;
use udfs_salvage::{
    Listing, Survey, list_unnamed, list_volume_by, reread_blocks, survey_volume_by,
};
use udfs_volume::Profile;
use udfs_walk::Unnamed;

/// The listing of a table's volume by the rules of a profile, where `last` is its last block, or why the table has no report.
pub fn listed<'a>(
    alloc: Global,
    table: &'a BlockTable,
    last: u32,
    profile: Profile,
) -> Result<Listing<'a>, Refusal>
    ensures headline { IfOk result (λ listing. HeadlineBy profile (state_of table.now) last (listing_now listing)) }
    ensures report { IfOk result (λ listing. IsReportBy profile (state_of table.now) last (listing_now listing)) }
    ensures rising { IfOk result (λ listing. IsRising (listing_now listing).reread) }
    ensures rules { IfOk result (λ listing. listing.profile ≡ profile) }
    ensures of { IfOk result (λ listing. (listing.table.now ≡ table.now) × (listing.last ≡ last)) }
    ensures refused { IfErr result (λ refusal. IsUntold profile last refusal table.now) }
{
    match list_volume_by(alloc, table, last, profile) {
        Ok(listing) => Ok(listing),
        Err(error) => Err(refused_report(error)),
    }
}

/// The survey of a table's volume by the rules of a profile, where `last` is its last block, or why the table has no report.
pub fn surveyed<'a>(
    alloc: Global,
    table: &'a BlockTable,
    last: u32,
    profile: Profile,
) -> Result<Survey<'a>, Refusal>
    ensures headline { IfOk result (λ survey. HeadlineBy profile (state_of table.now) last (survey_now survey)) }
    ensures report { IfOk result (λ survey. IsReportBy profile (state_of table.now) last (survey_now survey)) }
    ensures rising { IfOk result (λ survey. IsRising survey.reread.items) }
    ensures rules { IfOk result (λ survey. survey.profile ≡ profile) }
    ensures of { IfOk result (λ survey. (survey.table.now ≡ table.now) × (survey.last ≡ last)) }
    ensures refused { IfErr result (λ refusal. IsUntold profile last refusal table.now) }
{
    match survey_volume_by(alloc, table, last, profile) {
        Ok(survey) => Ok(survey),
        Err(why) => Err(refused_report(why)),
    }
}

/// The entries of a listing that no name leads to, or `Refusal::Memory` where memory ran out.
pub fn unnamed_in(alloc: Global, listing: &Listing<'_>) -> Result<Vec<Unnamed>, Refusal>
    ensures entries { IfOk result (λ entries. AreUnnamed listing.now entries.items) }
    ensures refused { IfErr result (λ refusal. refusal ≡ Refusal.Memory alloc_error) }
{
    match list_unnamed(alloc, listing) {
        Ok(entries) => Ok(entries),
        Err(error) => Err(refused_report(error)),
    }
}

/// The blocks of a listing that are worth reading again, or `Refusal::Memory` where memory ran out.
pub fn rereads_in(alloc: Global, listing: &Listing<'_>) -> Result<Vec<u32>, Refusal>
    ensures blocks { IfOk result (λ blocks. blocks.items ≡ (listing_now listing.now).reread) }
    ensures refused { IfErr result (λ refusal. refusal ≡ Refusal.Memory alloc_error) }
{
    match reread_blocks(alloc, listing) {
        Ok(blocks) => Ok(blocks),
        Err(error) => Err(refused_report(error)),
    }
}
