//! Several inputs at once.

ghost use Rattle.std.specs.Prelude.{◌≡◌, ◌≢◌, ℕ, List, [], ◌↔◌, map, OnOk, IfOk, IfErr, MatchResult};
ghost use Rattle.udfs_lattice.specs.Tables.{Table, join_tables};
ghost use Rattle.udfs_lattice.specs.Records.{Record, table_of, join_all, SameTables, SameRecords, all_records};
ghost use Rattle.udfs_reading.specs.declared.error.ReadingFault.{ReadingFault};
ghost use Rattle.udfs_reading.specs.Answers.{IsOfFile};
ghost use Rattle.udfs_reading.specs.Gains.{Gains};
ghost use Rattle.udfs_reading.specs.Inputs.{inputs};
ghost use Rattle.udfs_reading.specs.Outcome.{Stops};
ghost use Rattle.udfs_reading.specs.Several.{TablesAre, AllTell, AllReadings, Joins, InputFails, IsFirstFaulty};

use crate::device::Source;
use crate::error::{ReadingError, ReadingFault};
use crate::input::join_any;
use crate::taker::Taker;
use crate::window::Window;
use std::alloc::Global;
use udfs_lattice::BlockTable;

/// An input that was not read, counted from 1, and why.
#[derive(Clone, Copy, Debug, PartialEq, Eq)]
pub struct InputError {
    pub input: usize,
    pub error: ReadingError,
}

/// Reads one input through an empty window, and hands its blocks to the taker.
fn take_input<R: Source, T: Taker<R>>(
    source: &mut R,
    window: &mut Window,
    taker: &mut T,
) -> Result<(), ReadingError>
    requires { window.now.bytes ≡ [] }
    ensures ok { OnOk result (Gains (T.took taker.old) (T.took taker.new) (Joins inputs (R.remaining source.old) (R.remaining source.new))) }
    ensures count { OnOk result (R.faults source.new ≡ R.faults source.old) }
    ensures err { IfErr result (λ e. Stops inputs (R.remaining source.old) (R.remaining source.new)
        (R.faults source.old) (R.faults source.new) e) }
    ensures empty { OnOk result (window.new.bytes ≡ []) }
{
    window.clear();
    taker.begin(source);
    match taker.take_records(source) {
        Ok(true) => Ok(()),
        Ok(false) => {
            join_any(source, window, taker)?;
            Ok(())
        }
        Err(number) => Err(ReadingError {
            fault: ReadingFault::OutOfMemory,
            number,
        }),
    }
}

fn take_each<R: Source, T: Taker<R>>(inputs: &mut [R], taker: &mut T) -> Result<(), InputError>
    ensures table { OnOk result ((ts : List Table) × TablesAre R.remaining inputs.old ts × ((t : Table) → T.took taker.old t → T.took taker.new (join_tables t (join_all ts)))) }
    ensures counts { OnOk result (map R.faults inputs.new ≡ map R.faults inputs.old) }
    ensures fails { IfErr result (λ e. InputFails R.remaining R.faults inputs.old inputs.new e) }
{
    let mut window = Window::new();
    for (index, source) in inputs.iter_mut().enumerate() {
        let input = index + 1;
        match take_input(source, &mut window, taker) {
            Ok(()) => {}
            Err(error) => return Err(InputError { input, error }),
        }
    }
    Ok(())
}

/// Reads all inputs, readings and table files of either version, in order, and hands their blocks to the taker.
///
/// # Errors
///
/// As [`join_inputs`] has them. The taker has taken some of the blocks then, and what they are is not said.
pub fn take_inputs<R: Source, T: Taker<R>>(
    inputs: &mut [R],
    taker: &mut T,
) -> Result<(), InputError>
    // The inputs' tables are joined to that of the taker, and no device failed.
    ensures table { OnOk result ((ts : List Table) × TablesAre R.remaining inputs.old ts × ((t : Table) → T.took taker.old t → T.took taker.new (join_tables t (join_all ts)))) }
    ensures counts { OnOk result (map R.faults inputs.new ≡ map R.faults inputs.old) }
    // Where each input is a good file, the only faults are `Io` and `OutOfMemory`.
    ensures good { (ts : List Table) → AllTell R.remaining inputs.old ts →
        MatchResult result (λ _. (t : Table) → T.took taker.old t → T.took taker.new (join_tables t (join_all ts))) (λ e. ¬ IsOfFile e.error.fault) }
    // What was taken is one and the same for every order and repetition of the inputs' tables,
    ensures any_order { (ts us : List Table) → AllTell R.remaining inputs.old ts → SameTables ts us →
        OnOk result ((t : Table) → T.took taker.old t → T.took taker.new (join_tables t (join_all us))) }
    // and for readings however their records are ordered, repeated and split over files.
    ensures any_split { (rss : List (List Record)) (rs : List Record) → AllReadings R.remaining inputs.old rss →
        SameRecords (all_records rss) rs → OnOk result ((t : Table) → T.took taker.old t → T.took taker.new (join_tables t (table_of rs))) }
    // So for a mixture of files, where each input, a reading or a table file, has the table of some of the records.
    ensures any_mixture { (rss : List (List Record)) (rs : List Record) → AllTell R.remaining inputs.old (map table_of rss) →
        SameRecords (all_records rss) rs → OnOk result ((t : Table) → T.took taker.old t → T.took taker.new (join_tables t (table_of rs))) }
    // The first input that is no good file is named, with its fault and record, or a device or memory is blamed.
    ensures first { (input : ℕ) (fault : ReadingFault) (number : ℕ) → IsFirstFaulty R.remaining inputs.old input fault number →
        MatchResult result (λ _. ⊥) (λ e. IsOfFile e.error.fault → (e.input ≡ input) × (e.error.fault ≡ fault) × (e.error.number ≡ number)) }
    // What an error says of the input that it names, and of the others.
    ensures fails { IfErr result (λ e. InputFails R.remaining R.faults inputs.old inputs.new e) }
{
    let outcome = take_each(inputs, taker);
    outcome
}

fn join_each<R: Source>(alloc: Global, inputs: &mut [R]) -> Result<BlockTable, InputError>
    ensures table { IfOk result (λ table. (ts : List Table) × TablesAre R.remaining inputs.old ts × (table ≡ join_all ts)) }
    ensures counts { IfOk result (λ _. map R.faults inputs.new ≡ map R.faults inputs.old) }
    ensures fails { IfErr result (λ e. InputFails R.remaining R.faults inputs.old inputs.new e) }
{
    let mut table = BlockTable::new(alloc);
    match take_each(inputs, &mut table) {
        Ok(()) => Ok(table),
        Err(error) => Err(error),
    }
}

/// Reads all inputs, readings and table files of either version, in order, and returns the join of their tables. The
/// records go straight into that one table.
///
/// # Errors
///
/// The number of the first input that was not read, with its error, as [`read_input`](crate::read_input)
/// has them. There is no table then, and later inputs are untouched.
pub fn join_inputs<R: Source>(alloc: Global, inputs: &mut [R]) -> Result<BlockTable, InputError>
    // The table is the join of the inputs' tables, and no device failed.
    ensures table { IfOk result (λ table. (ts : List Table) × TablesAre R.remaining inputs.old ts × (table ≡ join_all ts)) }
    ensures counts { IfOk result (λ _. map R.faults inputs.new ≡ map R.faults inputs.old) }
    // Where each input is a good file, the only faults are `Io` and `OutOfMemory`.
    ensures good { (ts : List Table) → AllTell R.remaining inputs.old ts →
        MatchResult result (λ table. table ≡ join_all ts) (λ e. ¬ IsOfFile e.error.fault) }
    // The result is one and the same for every order and repetition of the inputs' tables,
    ensures any_order { (ts us : List Table) → AllTell R.remaining inputs.old ts → SameTables ts us →
        IfOk result (λ table. table ≡ join_all us) }
    // and for readings however their records are ordered, repeated and split over files.
    ensures any_split { (rss : List (List Record)) (rs : List Record) → AllReadings R.remaining inputs.old rss →
        SameRecords (all_records rss) rs → IfOk result (λ table. table ≡ table_of rs) }
    // So for a mixture of files, where each input, a reading or a table file, has the table of some of the records.
    ensures any_mixture { (rss : List (List Record)) (rs : List Record) → AllTell R.remaining inputs.old (map table_of rss) →
        SameRecords (all_records rss) rs → IfOk result (λ table. table ≡ table_of rs) }
    // The first input that is no good file is named, with its fault and record, or a device or memory is blamed.
    ensures first { (input : ℕ) (fault : ReadingFault) (number : ℕ) → IsFirstFaulty R.remaining inputs.old input fault number →
        MatchResult result (λ _. ⊥) (λ e. IsOfFile e.error.fault → (e.input ≡ input) × (e.error.fault ≡ fault) × (e.error.number ≡ number)) }
    // What an error says of the input that it names, and of the others.
    ensures fails { IfErr result (λ e. InputFails R.remaining R.faults inputs.old inputs.new e) }
{
    let outcome = join_each(alloc, inputs);
    outcome
}
