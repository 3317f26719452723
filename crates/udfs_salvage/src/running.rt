//! From the readings of a disc to its report.

ghost use Rattle.std.specs.Prelude.{◌≡◌, ◌≢◌, ◌⊎◌, ℕ, List, Err, MatchResult, map};
ghost use Rattle.udfs_lattice.specs.Tables.{Table};
ghost use Rattle.udfs_lattice.specs.Records.{Record, SameRecords, all_records, join_all, table_of};
ghost use Rattle.udfs_reading.specs.Answers.{IsOfFile};
ghost use Rattle.udfs_reading.specs.Several.{AllTell, InputFails, IsFirstFaulty};
ghost use Rattle.udfs_reading.specs.declared.inputs.InputError.{InputError};
ghost use Rattle.udfs_reading.specs.declared.error.ReadingFault.{ReadingFault};
ghost use Rattle.udfs_salvage.specs.Running.{AnswersFor, AnswersForBy, EndsEarly, IfNoInput, IfRead, IsRefusedFor, IsRefusedForBy, Names, OfJoin, RefusesWith, run_error_of, salvage_run_error};
ghost use Rattle.udfs_salvage.specs.declared.errors.SalvageError.{SalvageError};

use crate::errors::{RunError, SalvageError};
use crate::survey_printing::write_survey;
use crate::surveys::survey_volume_by;
use std::alloc::Global;
use udfs_lattice::BlockTable;
use udfs_reading::{InputError, ReadingFault, Sink, Source, join_inputs};
use udfs_volume::Profile;

/// An input's error as a run reports it.
fn run_error(error: InputError) -> RunError
    ensures { result ≡ run_error_of error }
{
    match error.error.fault {
        ReadingFault::OutOfMemory => RunError::OutOfMemory,
        _ => RunError::Reading(error),
    }
}

/// Why a table has no report, as a run reports it.
fn run_refusal(error: SalvageError) -> RunError
    ensures { result ≡ salvage_run_error error }
{
    match error {
        SalvageError::OutOfMemory => RunError::OutOfMemory,
        _ => RunError::Salvage(error),
    }
}

/// The report of a table, printed. What is missing of the nodes is not held for all of them at a time.
fn report_table<W: Sink>(
    alloc: Global,
    table: &BlockTable,
    last: u32,
    profile: Profile,
    sink: &mut W,
) -> Result<bool, RunError>
    ensures answers { AnswersForBy profile last (W.stream sink.old) (W.stream sink.new) result table.now }
    ensures untouched { EndsEarly result → sink.new ≡ sink.old }
{
    match survey_volume_by(alloc, table, last, profile) {
        Ok(survey) => match write_survey(alloc, &survey, sink) {
            Ok(()) => Ok(survey.all_whole()),
            Err(error) => Err(error),
        },
        Err(error) => Err(run_refusal(error)),
    }
}

/// Joins the inputs, and writes the report of the volume by the rules of a profile, where `last` is its last block. It returns whether there are
/// nodes and all of them are whole.
///
/// The text is the same for every order and repetition of the inputs, and however their records are split over files. It
/// describes every lawful volume with which the join of the inputs agrees, as [`salvage_by`](crate::salvage_by) says.
///
/// # Errors
///
/// `Reading` where an input cannot be read, with the error of [`join_inputs`]; else `Salvage` with the error of [`salvage_by`](crate::salvage_by),
/// where it has one other than `OutOfMemory`. Nothing is written then. `Write` exactly where the sink failed, and `OutOfMemory` wherever memory ran out:
/// then a beginning of the text is out.
pub fn report_run_by<R: Source, W: Sink>(
    alloc: Global,
    inputs: &mut [R],
    last: u32,
    profile: Profile,
    sink: &mut W,
) -> Result<bool, RunError>
    // The report is that of the join of the inputs' tables.
    ensures answers { IfRead result (OfJoin R.remaining inputs.old
        (AnswersForBy profile last (W.stream sink.old) (W.stream sink.new) result)) }
    ensures memory { result ≡ Err RunError.OutOfMemory → (sink.new ≡ sink.old) ⊎ OfJoin R.remaining inputs.old
        (AnswersForBy profile last (W.stream sink.old) (W.stream sink.new) result) }
    ensures untouched { EndsEarly result → sink.new ≡ sink.old }
    // Where the join of the inputs' tables has no report, the error is the reason, unless an input could not be read or memory ran out.
    ensures refuses { (ts : List Table) (why : SalvageError) → AllTell R.remaining inputs.old ts → IsRefusedForBy profile (join_all ts) last why →
        MatchResult result (λ _. ⊥) (RefusesWith why) }
    // No device failed, unless the error is `Reading`: in particular none where the error is `OutOfMemory`.
    ensures counts { IfNoInput result (map R.faults inputs.new ≡ map R.faults inputs.old) }
    // It is the same however the records are ordered, repeated and split over readings and table files.
    ensures any_mixture { (rss : List (List Record)) (rs : List Record) → AllTell R.remaining inputs.old (map table_of rss) →
        SameRecords (all_records rss) rs → IfRead result
        (AnswersForBy profile last (W.stream sink.old) (W.stream sink.new) result (table_of rs)) }
    // Inputs are judged before the last block. The first that is no good file is named, or a device or memory is blamed;
    // where all are good files, none is named.
    ensures first { (input : ℕ) (fault : ReadingFault) (number : ℕ) → IsFirstFaulty R.remaining inputs.old input fault number →
        MatchResult result (λ _. ⊥) (Names input fault number) }
    ensures good { (ts : List Table) → AllTell R.remaining inputs.old ts →
        (e : InputError) → result ≡ Err (RunError.Reading e) → ¬ IsOfFile e.error.fault }
    ensures not_memory { (e : InputError) → result ≡ Err (RunError.Reading e) → e.error.fault ≢ ReadingFault.OutOfMemory }
    ensures fails { (e : InputError) → result ≡ Err (RunError.Reading e) → InputFails R.remaining R.faults inputs.old inputs.new e }
{
    match join_inputs(alloc, inputs) {
        Ok(table) => report_table(alloc, &table, last, profile, sink),
        Err(error) => Err(run_error(error)),
    }
}

/// Joins the inputs, and writes the report of the volume of which `last` is the last block. It returns whether there are
/// nodes and all of them are whole.
///
/// The text is the same for every order and repetition of the inputs, and however their records are split over files. It
/// describes every lawful volume with which the join of the inputs agrees, as [`salvage`](crate::salvage) says.
///
/// # Errors
///
/// `Reading` where an input cannot be read, with the error of [`join_inputs`]; else `Salvage` with the error of [`salvage`](crate::salvage),
/// where it has one other than `OutOfMemory`. Nothing is written then. `Write` exactly where the sink failed, and `OutOfMemory` wherever memory ran out:
/// then a beginning of the text is out.
pub fn report_run<R: Source, W: Sink>(
    alloc: Global,
    inputs: &mut [R],
    last: u32,
    sink: &mut W,
) -> Result<bool, RunError>
    // The report is that of the join of the inputs' tables.
    ensures answers { IfRead result (OfJoin R.remaining inputs.old
        (AnswersFor last (W.stream sink.old) (W.stream sink.new) result)) }
    ensures memory { result ≡ Err RunError.OutOfMemory → (sink.new ≡ sink.old) ⊎ OfJoin R.remaining inputs.old
        (AnswersFor last (W.stream sink.old) (W.stream sink.new) result) }
    ensures untouched { EndsEarly result → sink.new ≡ sink.old }
    // Where the join of the inputs' tables has no report, the error is the reason, unless an input could not be read or memory ran out.
    ensures refuses { (ts : List Table) (why : SalvageError) → AllTell R.remaining inputs.old ts → IsRefusedFor (join_all ts) last why →
        MatchResult result (λ _. ⊥) (RefusesWith why) }
    // No device failed, unless the error is `Reading`: in particular none where the error is `OutOfMemory`.
    ensures counts { IfNoInput result (map R.faults inputs.new ≡ map R.faults inputs.old) }
    // It is the same however the records are ordered, repeated and split over readings and table files.
    ensures any_mixture { (rss : List (List Record)) (rs : List Record) → AllTell R.remaining inputs.old (map table_of rss) →
        SameRecords (all_records rss) rs → IfRead result
        (AnswersFor last (W.stream sink.old) (W.stream sink.new) result (table_of rs)) }
    // Inputs are judged before the last block. The first that is no good file is named, or a device or memory is blamed;
    // where all are good files, none is named.
    ensures first { (input : ℕ) (fault : ReadingFault) (number : ℕ) → IsFirstFaulty R.remaining inputs.old input fault number →
        MatchResult result (λ _. ⊥) (Names input fault number) }
    ensures good { (ts : List Table) → AllTell R.remaining inputs.old ts →
        (e : InputError) → result ≡ Err (RunError.Reading e) → ¬ IsOfFile e.error.fault }
    ensures not_memory { (e : InputError) → result ≡ Err (RunError.Reading e) → e.error.fault ≢ ReadingFault.OutOfMemory }
    ensures fails { (e : InputError) → result ≡ Err (RunError.Reading e) → InputFails R.remaining R.faults inputs.old inputs.new e }
{
    report_run_by(alloc, inputs, last, Profile::Strict, sink)
}
