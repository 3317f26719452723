//! Table files: the states of all blocks that are not unknown.

ghost use Rattle.std.specs.Prelude.{◌≡◌, ℕ, ◌+◌, ◌≤◌, ◌++◌, [], List, length, OnOk, IfOk, IfErr};
ghost use Rattle.udfs_lattice.specs.States.{State};
ghost use Rattle.udfs_reading.specs.declared.error.ReadingFault.TheVariants.{Io};
ghost use Rattle.udfs_reading.specs.Device.{left};
ghost use Rattle.udfs_reading.specs.Gains.{Gains};
ghost use Rattle.udfs_reading.specs.Places.{StandsAt};
ghost use Rattle.udfs_reading.specs.Format.{number, header};
ghost use Rattle.udfs_reading.specs.Outcome.{Ends, Takes};
ghost use Rattle.udfs_reading.specs.TableFile.{table_magic};
ghost use Rattle.udfs_reading.specs.TableReading.{tables_v1, entries_front, floor_after, IsUnderEntries, TakesState, TakesEntry, TakesEntries};

use crate::block::{LAST_BLOCK, join_block};
use crate::device::Source;
use crate::error::{ReadingError, ReadingFault};
use crate::field::{read_byte, read_end, read_number};
use crate::header::read_count;
use crate::taker::Taker;
use crate::window::Window;

/// Takes the state of a block, and hands it to the taker.
fn read_state<R: Source, T: Taker<R>>(
    source: &mut R,
    window: &mut Window,
    entry: u32,
    block: u32,
    taker: &mut T,
) -> Result<(), ReadingError>
    requires block { block ≤ 4194303 }
    requires at { StandsAt (T.input taker.now) window.now.at (left window.now.bytes (R.remaining source.now)) }
    ensures ok { OnOk result (Gains (T.took taker.old) (T.took taker.new) (TakesState (left window.old.bytes (R.remaining source.old)) (left window.new.bytes (R.remaining source.new)) block)) }
    ensures count { OnOk result (R.faults source.new ≡ R.faults source.old) }
    ensures at { OnOk result (StandsAt (T.input taker.new) window.new.at (left window.new.bytes (R.remaining source.new))) }
    ensures err { IfErr result (λ e. (count : ℕ) (done : List (ℕ × State)) → IsUnderEntries count done → length done + 1 ≡ entry → floor_after 0 done ≤ block →
        Ends tables_v1 (entries_front count done ++ number block) (left window.old.bytes (R.remaining source.old)) (left window.new.bytes (R.remaining source.new))
        (R.faults source.old) (R.faults source.new) e) }
    ensures empty { IfErr result (λ e. e.fault ≡ Io → window.new.bytes ≡ []) }
{
    let code = read_byte(source, window, entry)?;
    if code == 1 {
        join_block(source, window, entry, block, taker)?;
        return Ok(());
    }
    if code != 2 {
        return Err(ReadingError {
            fault: ReadingFault::State,
            number: entry,
        });
    }
    match taker.dispute(block) {
        Ok(()) => Ok(()),
        Err(_) => Err(ReadingError {
            fault: ReadingFault::OutOfMemory,
            number: entry,
        }),
    }
}

/// Takes an entry, whose block must be at least `floor`, and returns the least block of the next one.
fn read_entry<R: Source, T: Taker<R>>(
    source: &mut R,
    window: &mut Window,
    entry: u32,
    floor: u32,
    taker: &mut T,
) -> Result<u32, ReadingError>
    requires { StandsAt (T.input taker.now) window.now.at (left window.now.bytes (R.remaining source.now)) }
    ensures ok { IfOk result (λ next. Gains (T.took taker.old) (T.took taker.new) (TakesEntry (left window.old.bytes (R.remaining source.old)) (left window.new.bytes (R.remaining source.new)) floor next)) }
    ensures count { OnOk result (R.faults source.new ≡ R.faults source.old) }
    ensures at { OnOk result (StandsAt (T.input taker.new) window.new.at (left window.new.bytes (R.remaining source.new))) }
    ensures err { IfErr result (λ e. (count : ℕ) (done : List (ℕ × State)) → IsUnderEntries count done → length done + 1 ≡ entry → floor_after 0 done ≡ floor →
        Ends tables_v1 (entries_front count done) (left window.old.bytes (R.remaining source.old)) (left window.new.bytes (R.remaining source.new))
        (R.faults source.old) (R.faults source.new) e) }
    ensures empty { IfErr result (λ e. e.fault ≡ Io → window.new.bytes ≡ []) }
{
    let block = read_number(source, window, entry)?;
    if block > LAST_BLOCK {
        return Err(ReadingError {
            fault: ReadingFault::BlockNumber,
            number: entry,
        });
    }
    if block < floor {
        return Err(ReadingError {
            fault: ReadingFault::Order,
            number: entry,
        });
    }
    read_state(source, window, entry, block, taker)?;
    Ok(block + 1)
}

/// Takes this many entries, and hands them to the taker.
fn read_entries<R: Source, T: Taker<R>>(
    source: &mut R,
    window: &mut Window,
    count: u32,
    taker: &mut T,
) -> Result<(), ReadingError>
    requires { StandsAt (T.input taker.now) window.now.at (left window.now.bytes (R.remaining source.now)) }
    ensures ok { OnOk result ((floor : ℕ) × Gains (T.took taker.old) (T.took taker.new) (TakesEntries (left window.old.bytes (R.remaining source.old)) (left window.new.bytes (R.remaining source.new)) count floor)) }
    ensures count { OnOk result (R.faults source.new ≡ R.faults source.old) }
    ensures err { IfErr result (λ e. Ends tables_v1 (header table_magic count) (left window.old.bytes (R.remaining source.old)) (left window.new.bytes (R.remaining source.new))
        (R.faults source.old) (R.faults source.new) e) }
    ensures empty { IfErr result (λ e. e.fault ≡ Io → window.new.bytes ≡ []) }
{
    let mut floor = 0;
    for index in 0..count {
        floor = read_entry(source, window, index + 1, floor, taker)?;
    }
    Ok(())
}

/// Reads what follows the magic of a table file of version 1, to the end of the source, and hands its entries to the
/// taker. After an error the taker may have some of them.
pub fn read_body<R: Source, T: Taker<R>>(
    source: &mut R,
    window: &mut Window,
    taker: &mut T,
) -> Result<(), ReadingError>
    requires { StandsAt (T.input taker.now) window.now.at (left window.now.bytes (R.remaining source.now)) }
    ensures ok { OnOk result (Gains (T.took taker.old) (T.took taker.new) (Takes tables_v1 table_magic (left window.old.bytes (R.remaining source.old)) (left window.new.bytes (R.remaining source.new)))) }
    ensures count { OnOk result (R.faults source.new ≡ R.faults source.old) }
    ensures err { IfErr result (λ e. Ends tables_v1 table_magic (left window.old.bytes (R.remaining source.old)) (left window.new.bytes (R.remaining source.new))
        (R.faults source.old) (R.faults source.new) e) }
    ensures empty { IfErr result (λ e. e.fault ≡ Io → window.new.bytes ≡ []) }
    ensures done { OnOk result (window.new.bytes ≡ []) }
{
    let count = read_count(source, window)?;
    read_entries(source, window, count, taker)?;
    read_end(source, window, count)?;
    Ok(())
}
