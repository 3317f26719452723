//! One input: a reading, a table file of either version, or any of them, recognized by its first eight bytes.

ghost use Rattle.std.specs.Prelude.{◌≡◌, ◌≢◌, ◌↔◌, ℕ, List, [], OnOk, IfOk, IfErr, IfSome, IsErrAnd, MatchResult, cond, false};
ghost use Rattle.std.specs.Str.{bytes_eq};
ghost use Rattle.udfs_reading.specs.declared.error.ReadingFault.TheVariants.{Io};
ghost use Rattle.udfs_lattice.specs.Tables.{Table, IsTable};
ghost use Rattle.udfs_reading.specs.Device.{left};
ghost use Rattle.udfs_reading.specs.Gains.{Gains};
ghost use Rattle.udfs_reading.specs.Places.{StandsAt};
ghost use Rattle.udfs_reading.specs.Answers.{IsOfFile, GivesTable, GivesFault, TakesFile, RefusesFaulty, FailsAfter};
ghost use Rattle.udfs_reading.specs.Inputs.{files, kind_accepted, tables, inputs};
ghost use Rattle.udfs_reading.specs.Outcome.{Ends, Takes, Reads, Stops};
ghost use Rattle.udfs_reading.specs.Reading.{magic, readings};
ghost use Rattle.udfs_reading.specs.TableFile.{table_bytes_v1};
ghost use Rattle.udfs_reading.specs.PacketFile.{table_bytes};

use crate::device::Source;
use crate::error::{ReadingError, ReadingFault};
use crate::field::read_magic;
use crate::header::{names_packets, names_reading, names_table};
use crate::taker::Taker;
use crate::window::Window;
use crate::{packet_file, reading, table_file};
use std::alloc::Global;
use udfs_lattice::BlockTable;

/// Which kinds of file a call accepts.
#[derive(Clone, Copy, PartialEq, Eq)]
pub enum Accepted {
    Readings,
    Tables,
    All,
}

/// Reads a reading to the end of the source, and hands its blocks to the taker.
fn join_reading<R: Source, T: Taker<R>>(
    source: &mut R,
    window: &mut Window,
    taker: &mut T,
) -> Result<(), ReadingError>
    requires { StandsAt (T.input taker.now) window.now.at (left window.now.bytes (R.remaining source.now)) }
    ensures ok { OnOk result (Gains (T.took taker.old) (T.took taker.new) (Takes readings [] (left window.old.bytes (R.remaining source.old)) (left window.new.bytes (R.remaining source.new)))) }
    ensures count { OnOk result (R.faults source.new ≡ R.faults source.old) }
    ensures err { IfErr result (λ e. Ends readings [] (left window.old.bytes (R.remaining source.old)) (left window.new.bytes (R.remaining source.new))
        (R.faults source.old) (R.faults source.new) e) }
    ensures empty { IfErr result (λ e. e.fault ≡ Io → window.new.bytes ≡ []) }
    ensures done { OnOk result (window.new.bytes ≡ []) }
{
    let magic = read_magic(source, window)?;
    if names_reading(&magic) {
        reading::read_body(source, window, taker)?;
        return Ok(());
    }
    Err(ReadingError {
        fault: ReadingFault::Magic,
        number: 0,
    })
}

/// Whether these eight bytes name a reading, and readings are accepted.
fn names_accepted(readings: bool, bytes: &[u8; 8]) -> bool
    ensures { result ≡ cond readings (bytes_eq bytes.now magic) false }
{
    readings && names_reading(bytes)
}

/// Reads a table file of either version, or a reading where these are accepted, to the end of the source, and hands its blocks to the taker.
fn join_files<R: Source, T: Taker<R>>(
    source: &mut R,
    window: &mut Window,
    readings: bool,
    taker: &mut T,
) -> Result<(), ReadingError>
    requires { StandsAt (T.input taker.now) window.now.at (left window.now.bytes (R.remaining source.now)) }
    ensures ok { OnOk result (Gains (T.took taker.old) (T.took taker.new) (Takes (files readings) [] (left window.old.bytes (R.remaining source.old)) (left window.new.bytes (R.remaining source.new)))) }
    ensures count { OnOk result (R.faults source.new ≡ R.faults source.old) }
    ensures err { IfErr result (λ e. Ends (files readings) [] (left window.old.bytes (R.remaining source.old)) (left window.new.bytes (R.remaining source.new))
        (R.faults source.old) (R.faults source.new) e) }
    ensures empty { IfErr result (λ e. e.fault ≡ Io → window.new.bytes ≡ []) }
    ensures done { OnOk result (window.new.bytes ≡ []) }
{
    let magic = read_magic(source, window)?;
    if names_accepted(readings, &magic) {
        reading::read_body(source, window, taker)?;
        return Ok(());
    }
    if names_table(&magic) {
        table_file::read_body(source, window, taker)?;
        return Ok(());
    }
    if names_packets(&magic) {
        packet_file::read_body(source, window, taker)?;
        return Ok(());
    }
    Err(ReadingError {
        fault: ReadingFault::Magic,
        number: 0,
    })
}

/// Reads a file of any kind to the end of the source, and hands its blocks to the taker.
pub fn join_any<R: Source, T: Taker<R>>(
    source: &mut R,
    window: &mut Window,
    taker: &mut T,
) -> Result<(), ReadingError>
    requires { StandsAt (T.input taker.now) window.now.at (left window.now.bytes (R.remaining source.now)) }
    ensures ok { OnOk result (Gains (T.took taker.old) (T.took taker.new) (Takes inputs [] (left window.old.bytes (R.remaining source.old)) (left window.new.bytes (R.remaining source.new)))) }
    ensures count { OnOk result (R.faults source.new ≡ R.faults source.old) }
    ensures err { IfErr result (λ e. Ends inputs [] (left window.old.bytes (R.remaining source.old)) (left window.new.bytes (R.remaining source.new))
        (R.faults source.old) (R.faults source.new) e) }
    ensures empty { IfErr result (λ e. e.fault ≡ Io → window.new.bytes ≡ []) }
    ensures done { OnOk result (window.new.bytes ≡ []) }
{
    join_files(source, window, true, taker)
}

/// Reads a file that is accepted to the end of the source, and hands its blocks to the taker.
fn join_accepted<R: Source, T: Taker<R>>(
    source: &mut R,
    window: &mut Window,
    which: Accepted,
    taker: &mut T,
) -> Result<(), ReadingError>
    requires { StandsAt (T.input taker.now) window.now.at (left window.now.bytes (R.remaining source.now)) }
    ensures ok { OnOk result (Gains (T.took taker.old) (T.took taker.new) (Takes (kind_accepted which) [] (left window.old.bytes (R.remaining source.old)) (left window.new.bytes (R.remaining source.new)))) }
    ensures count { OnOk result (R.faults source.new ≡ R.faults source.old) }
    ensures err { IfErr result (λ e. Ends (kind_accepted which) [] (left window.old.bytes (R.remaining source.old)) (left window.new.bytes (R.remaining source.new))
        (R.faults source.old) (R.faults source.new) e) }
    ensures empty { IfErr result (λ e. e.fault ≡ Io → window.new.bytes ≡ []) }
    ensures done { OnOk result (window.new.bytes ≡ []) }
{
    match which {
        Accepted::Readings => join_reading(source, window, taker),
        Accepted::Tables => join_files(source, window, false, taker),
        Accepted::All => join_any(source, window, taker),
    }
}

/// Reads a file that is accepted to the end of the source.
fn read_accepted<R: Source>(
    alloc: Global,
    source: &mut R,
    which: Accepted,
) -> Result<BlockTable, ReadingError>
    ensures ok { IfOk result (λ table. Reads (kind_accepted which) (R.remaining source.old) (R.remaining source.new) table) }
    ensures count { OnOk result (R.faults source.new ≡ R.faults source.old) }
    ensures err { IfErr result (λ e. Stops (kind_accepted which) (R.remaining source.old) (R.remaining source.new)
        (R.faults source.old) (R.faults source.new) e) }
{
    let mut window = Window::new();
    let mut table = BlockTable::new(alloc);
    join_accepted(source, &mut window, which, &mut table)?;
    Ok(table)
}

/// Reads a reading file to the end of the source, and returns the table of its records.
///
/// # Errors
///
/// The first fault of the bytes, with the record that has it. `Io` where the source failed, with the
/// record of the field that was being read, or the file's own count of records where only its end was
/// still sought. `OutOfMemory` if memory ran out; its record is not specified. After an error there is no
/// table, and the source is read no further. The source is asked for more only when all whole fields
/// so far are judged.
pub fn read_reading<R: Source>(alloc: Global, source: &mut R) -> Result<BlockTable, ReadingError>
    // A table is that of the file's records.
    ensures table { GivesTable readings (R.remaining source.old) result }
    // A fault of the file is the first one of the bytes, at its record.
    ensures fault { GivesFault readings (R.remaining source.old) result }
    // A reading gives its table. The only errors are `Io` and, where it has a record, `OutOfMemory`.
    ensures file { TakesFile readings (R.remaining source.old) result }
    // Other bytes give no table and no other fault of the file, and `OutOfMemory` only past the header.
    ensures faulty { RefusesFaulty readings (R.remaining source.old) result }
    // It is the source that failed exactly where its count changed.
    ensures io { IsErrAnd result (λ e. e.fault ≡ Io) ↔ (R.faults source.new ≢ R.faults source.old) }
    ensures kept { ¬ IsErrAnd result (λ e. e.fault ≡ Io) → R.faults source.new ≡ R.faults source.old }
    // Then the bytes that it had given have no fault but a cut at their end.
    ensures cut { FailsAfter readings (R.remaining source.old) (R.remaining source.new) result }
{
    let outcome = read_accepted(alloc, source, Accepted::Readings);
    outcome
}

/// Reads a table file of either version to the end of the source, and returns its table.
///
/// # Errors
///
/// As [`read_reading`] has them.
pub fn read_table<R: Source>(alloc: Global, source: &mut R) -> Result<BlockTable, ReadingError>
    // A table is the one whose file the bytes are.
    ensures table { GivesTable tables (R.remaining source.old) result }
    // A fault of the file is the first one of the bytes, at its record.
    ensures fault { GivesFault tables (R.remaining source.old) result }
    // The file of a table gives that table. The only errors are `Io` and, where it has a record, `OutOfMemory`.
    ensures file { TakesFile tables (R.remaining source.old) result }
    // Other bytes give no table and no other fault of the file, and `OutOfMemory` only past the header.
    ensures faulty { RefusesFaulty tables (R.remaining source.old) result }
    // It is the source that failed exactly where its count changed.
    ensures io { IsErrAnd result (λ e. e.fault ≡ Io) ↔ (R.faults source.new ≢ R.faults source.old) }
    ensures kept { ¬ IsErrAnd result (λ e. e.fault ≡ Io) → R.faults source.new ≡ R.faults source.old }
    // Then the bytes that it had given have no fault but a cut at their end.
    ensures cut { FailsAfter tables (R.remaining source.old) (R.remaining source.new) result }
    // What `write_table` or `write_table_v1` writes of a table reads back as that table.
    ensures written { IfSome (R.remaining source.old) (λ bytes. (table : Table) → IsTable table → bytes ≡ table_bytes table →
        MatchResult result (λ t. t ≡ table) (λ e. ¬ IsOfFile e.fault)) }
    ensures written_v1 { IfSome (R.remaining source.old) (λ bytes. (table : Table) → IsTable table → bytes ≡ table_bytes_v1 table →
        MatchResult result (λ t. t ≡ table) (λ e. ¬ IsOfFile e.fault)) }
{
    let outcome = read_accepted(alloc, source, Accepted::Tables);
    outcome
}

/// Reads a reading or a table file of either version, recognized by its first eight bytes, to the end of the
/// source, and returns its table.
///
/// # Errors
///
/// As [`read_reading`] has them. Eight first bytes that name none of them are `Magic` at record 0.
pub fn read_input<R: Source>(alloc: Global, source: &mut R) -> Result<BlockTable, ReadingError>
    // A table is that of the file.
    ensures table { GivesTable inputs (R.remaining source.old) result }
    // A fault of the file is the first one of the bytes, at its record.
    ensures fault { GivesFault inputs (R.remaining source.old) result }
    // A file of any kind gives its table. The only errors are `Io` and, where it has a record, `OutOfMemory`.
    ensures file { TakesFile inputs (R.remaining source.old) result }
    // Other bytes give no table and no other fault of the file, and `OutOfMemory` only past the header.
    ensures faulty { RefusesFaulty inputs (R.remaining source.old) result }
    // It is the source that failed exactly where its count changed.
    ensures io { IsErrAnd result (λ e. e.fault ≡ Io) ↔ (R.faults source.new ≢ R.faults source.old) }
    ensures kept { ¬ IsErrAnd result (λ e. e.fault ≡ Io) → R.faults source.new ≡ R.faults source.old }
    // Then the bytes that it had given have no fault but a cut at their end.
    ensures cut { FailsAfter inputs (R.remaining source.old) (R.remaining source.new) result }
{
    let outcome = read_accepted(alloc, source, Accepted::All);
    outcome
}
