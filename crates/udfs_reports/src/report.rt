//! What `report` prints: the report of a volume, as text or as JSON.

ghost use Rattle.std.specs.Prelude.{◌≡◌, IfOk, IfErr, IsErrOf};
ghost use Rattle.udfs_lattice.specs.Tables.{Table, state_of};
ghost use Rattle.udfs_salvage.specs.Headline.{HeadlineBy};
ghost use Rattle.udfs_salvage.specs.Reports.{all_whole};
ghost use Rattle.udfs_salvage.specs.StorePrinting.{PrintsBy};
ghost use Rattle.udfs_salvage.specs.Stores.{IfTold};
ghost use Rattle.udfs_salvage.specs.Surveys.{survey_by};
ghost use Rattle.udfs_remarks.specs.NoReports.{IsUntold, salvage_refusal_of};
ghost use Rattle.udfs_reports.specs.Reporting.{form_text};
ghost use Rattle.udfs_reports.specs.Telling.{IsThe};

use crate::telling::Telling;
use std::alloc::Global;
use udfs_common::files::Files;
use udfs_common::refusal::Refusal;
use udfs_host_fs::Stage;
use udfs_lattice::ReadFault;
use udfs_reading::Sink;
use udfs_remarks::SteadyStore;
use udfs_remarks::guarantees::remark_on_guarantee_by;
use udfs_remarks::no_reports::{refused_report, refused_run};
use udfs_remarks::remarks::{UNREAD, remark_on_by};
use udfs_salvage::{
    PrintError, ReportStore, StoreError, Survey, survey_store, write_json_by, write_survey_by,
};
use udfs_volume::Profile;
use udfs_words::forms::Form;

/// What a store says of its volume by the rules of a profile, where `last` is its last block. Every known block of the partitions is read, for the entries that no
/// name leads to.
pub(crate) fn surveyed_in<'a, B: ReportStore>(
    alloc: Global,
    blocks: &'a B,
    last: u32,
    profile: Profile,
) -> Result<Survey<'a, B>, StoreError>
    ensures headline { IfOk result (λ survey. B.tells → (t : Table) → B.holds blocks.now t → HeadlineBy profile (state_of t) last (survey_by B.states survey)) }
    ensures of { IfOk result (λ survey. (survey.table.now ≡ blocks.now) × (survey.last ≡ last) × (survey.profile ≡ profile)) }
    ensures refused { IfErr result (λ why. B.tells → (t : Table) → B.holds blocks.now t → IfTold (λ e. IsUntold profile last (salvage_refusal_of e) t) why) }
    ensures fails { IsErrOf result StoreError.Unread → B.fails }
{
    match survey_store(alloc, blocks, last, profile) {
        Ok(survey) => Ok(survey),
        Err(why) => Err(why),
    }
}

/// Prints the report that a survey represents in this form, piece by piece: if it fails, a prefix of it may have been printed.
fn write_as<B: ReportStore, O: Sink>(
    alloc: Global,
    survey: &Survey<'_, B>,
    form: Form,
    out: &mut O,
) -> Result<(), PrintError>
    ensures printed { B.tells → (t : Table) → B.holds survey.now.table.now t → PrintsBy (O.stream out.old) (O.stream out.new)
        (form_text form survey.now.profile t survey.now.last (survey_by B.states survey.now)) result }
    ensures fails { IsErrOf result PrintError.Unread → B.fails }
{
    match form {
        Form::Text => write_survey_by(alloc, survey, out),
        Form::Json => write_json_by(alloc, survey, out),
    }
}

/// The same, and returns whether there are nodes and all are whole.
fn print_report<B: ReportStore, O: Sink>(
    alloc: Global,
    survey: &Survey<'_, B>,
    form: Form,
    out: &mut O,
) -> Result<bool, PrintError>
    ensures printed { B.tells → (t : Table) → B.holds survey.now.table.now t → PrintsBy (O.stream out.old) (O.stream out.new)
        (form_text form survey.now.profile t survey.now.last (survey_by B.states survey.now)) result }
    ensures whole { IfOk result (λ whole. whole ≡ all_whole (survey_by B.states survey.now).nodes) }
    ensures fails { IsErrOf result PrintError.Unread → B.fails }
{
    match write_as(alloc, survey, form, out) {
        Ok(()) => Ok(survey.all_whole()),
        Err(why) => Err(why),
    }
}

/// What is said where it could not be found whether the guarantee holds.
const UNJUDGED: &str = "whether the guarantee holds is not known: an input could not be read again";

/// Says in remarks what is said of a volume beside its report, and whether the guarantee holds for it, or that an input could not be read for it.
fn remark_survey<B: ReportStore, F: Files>(alloc: Global, survey: &Survey<'_, B>, files: &F) {
    if let Err(ReadFault) = remark_on_by(alloc, survey, files) {
        files.remark(UNREAD);
        return;
    }
    if let Err(ReadFault) = remark_on_guarantee_by(alloc, survey, files) {
        files.remark(UNJUDGED);
    }
}

/// The report in this form.
#[derive(Drop)]
pub struct ReportAs {
    pub form: Form,
    /// Whether remarks are shown. If not, none is made: whether the guarantee holds takes a second walk of the volume.
    pub remarks: bool,
}

impl ReportAs {
    /// Says beside the report what a person is told of it, where that is shown.
    fn remark<B: ReportStore, F: Files>(&self, alloc: Global, survey: &Survey<'_, B>, files: &F) {
        if self.remarks {
            remark_survey(alloc, survey, files);
        }
    }
}

impl Telling for ReportAs {
    ghost text = { λ report. IsThe (form_text report.form) };

    fn tell<B: SteadyStore, F: Files, O: Sink>(
        &self,
        alloc: Global,
        blocks: &B,
        last: u32,
        profile: Profile,
        files: &F,
        out: &mut O,
    ) -> Result<Result<bool, Refusal>, ReadFault> {
        files.begin(Stage::Walking);
        let survey = match surveyed_in(alloc, blocks, last, profile) {
            Ok(survey) => survey,
            Err(StoreError::Salvage(error)) => return Ok(Err(refused_report(error))),
            Err(StoreError::Unread) => return Err(ReadFault),
        };
        let whole = match print_report(alloc, &survey, self.form, out) {
            Ok(whole) => whole,
            Err(PrintError::Run(error)) => return Ok(Err(refused_run(error))),
            Err(PrintError::Unread) => return Err(ReadFault),
        };
        if !blocks.is_steady() {
            return Err(ReadFault);
        }
        self.remark(alloc, &survey, files);
        Ok(Ok(whole))
    }
}
