//! What a store says of its volume, and whether that is lawful.

ghost use Rattle.std.specs.Prelude.{◌≡◌, ◌≤◌, IfOk, IfErr, IsErrOf};
ghost use Rattle.udfs_lattice.specs.Tables.{Table, state_of};
ghost use Rattle.udfs_lawfulness.specs.Lawfulness.{IsDecided};
ghost use Rattle.udfs_overview.specs.LostTallies.{IsTallyBy};
ghost use Rattle.udfs_overview.specs.Searched.{looked_in, searched};
ghost use Rattle.udfs_overview.specs.Verdicts.{IsVerdict};
ghost use Rattle.udfs_salvage.specs.Headline.{HeadlineBy};
ghost use Rattle.udfs_salvage.specs.Stores.{IfTold};
ghost use Rattle.udfs_salvage.specs.Surveys.{survey_by};
ghost use Rattle.udfs_remarks.specs.NoReports.{IsUntold, salvage_refusal_of};

use crate::report::surveyed_in;
use std::alloc::Global;
use udfs_lattice::GaveUp;
use udfs_lawfulness::lawfulness_by;
use udfs_overview::{Verdict, has_room, tally_lost};
use udfs_salvage::{ReportStore, SalvageError, StoreError, Survey};
use udfs_volume::Profile;

/// What a store says of its volume, and whether that is lawful.
#[derive(Drop)]
pub(crate) struct Judged<'a, B: ReportStore> {
    /// What is found in the volume.
    pub survey: Survey<'a, B>,
    /// Whether it is lawful, and what is lost of it.
    pub answer: Verdict,
}

/// Whether the volume of a survey is lawful, and what is lost of it.
fn verdict_of<B: ReportStore>(
    alloc: Global,
    survey: &Survey<'_, B>,
    last: u32,
    profile: Profile,
) -> Result<Verdict, GaveUp>
    requires from { 513 ≤ last }
    requires to { last ≤ 4194303 }
    ensures decided { IfOk result (λ verdict. B.tells → IsDecided profile (B.states survey.now.table.now) last verdict.lawfulness) }
    ensures place { IfOk result (λ verdict. B.tells → looked_in (B.states survey.now.table.now) (survey_by B.states survey.now) verdict.found
        ≡ searched survey.now.profile (B.states survey.now.table.now) survey.now.last (survey_by B.states survey.now)) }
    ensures tallied { IfOk result (λ verdict. B.tells → IsTallyBy (searched survey.now.profile (B.states survey.now.table.now) survey.now.last (survey_by B.states survey.now)) verdict.found.trees.items verdict.lost) }
    ensures fails { IsErrOf result GaveUp.Unread → B.fails }
{
    let lawfulness = lawfulness_by(alloc, survey.table, last, profile)?;
    let (lost, found) = tally_lost(alloc, survey)?;
    Ok(Verdict {
        lawfulness,
        lost,
        found,
    })
}

/// What a store says of its volume by the rules of a profile, where `last` is its last block, whether that is lawful, and what is lost of it. Every known block of the partitions is
/// read, for the entries that no name leads to.
pub(crate) fn judged_in<'a, B: ReportStore>(
    alloc: Global,
    blocks: &'a B,
    last: u32,
    profile: Profile,
) -> Result<Judged<'a, B>, StoreError>
    ensures headline { IfOk result (λ judged. B.tells → (t : Table) → B.holds blocks.now t → HeadlineBy profile (state_of t) last (survey_by B.states judged.survey)) }
    ensures of { IfOk result (λ judged. (judged.survey.table.now ≡ blocks.now) × (judged.survey.last ≡ last) × (judged.survey.profile ≡ profile)) }
    ensures decided { IfOk result (λ judged. B.tells → (t : Table) → B.holds blocks.now t → IsVerdict profile (state_of t) last (survey_by B.states judged.survey) judged.answer) }
    ensures refused { IfErr result (λ why. B.tells → (t : Table) → B.holds blocks.now t → IfTold (λ e. IsUntold profile last (salvage_refusal_of e) t) why) }
    ensures fails { IsErrOf result StoreError.Unread → B.fails }
{
    if !has_room(last) {
        return Err(StoreError::Salvage(SalvageError::LastRange));
    }
    let survey = match surveyed_in(alloc, blocks, last, profile) {
        Ok(survey) => survey,
        Err(why) => return Err(why),
    };
    match verdict_of(alloc, &survey, last, profile) {
        Ok(answer) => Ok(Judged { survey, answer }),
        Err(GaveUp::OutOfMemory) => Err(StoreError::Salvage(SalvageError::OutOfMemory)),
        Err(GaveUp::Unread) => Err(StoreError::Unread),
    }
}
