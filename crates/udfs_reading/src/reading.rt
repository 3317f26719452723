//! Reading files: the records that one pass over a disc read.

ghost use Rattle.std.specs.Prelude.{◌≡◌, ℕ, ◌+◌, ◌++◌, [], List, length, OnOk, IfOk, IfErr};
ghost use Rattle.udfs_lattice.specs.Records.{Record};
ghost use Rattle.udfs_reading.specs.declared.error.ReadingFault.TheVariants.{Io};
ghost use Rattle.udfs_reading.specs.Device.{left};
ghost use Rattle.udfs_reading.specs.Gains.{Gains};
ghost use Rattle.udfs_reading.specs.Places.{StandsAt};
ghost use Rattle.udfs_reading.specs.Format.{header};
ghost use Rattle.udfs_reading.specs.Reading.{magic, front, IsUnder, TakesRecord, TakesRecords, readings};
ghost use Rattle.udfs_reading.specs.Outcome.{Ends, Takes};

use crate::block::{LAST_BLOCK, join_block};
use crate::device::Source;
use crate::error::{ReadingError, ReadingFault};
use crate::field::{read_end, read_number};
use crate::header::read_count;
use crate::taker::Taker;
use crate::window::Window;

/// Takes the record of this number, and hands it to the taker.
fn read_record<R: Source, T: Taker<R>>(
    source: &mut R,
    window: &mut Window,
    number: u32,
    taker: &mut T,
) -> Result<(), ReadingError>
    requires { StandsAt (T.input taker.now) window.now.at (left window.now.bytes (R.remaining source.now)) }
    ensures ok { OnOk result (Gains (T.took taker.old) (T.took taker.new) (TakesRecord (left window.old.bytes (R.remaining source.old)) (left window.new.bytes (R.remaining source.new)))) }
    ensures count { OnOk result (R.faults source.new ≡ R.faults source.old) }
    ensures at { OnOk result (StandsAt (T.input taker.new) window.new.at (left window.new.bytes (R.remaining source.new))) }
    ensures err { IfErr result (λ e. (count : ℕ) (done : List Record) → IsUnder count done → length done + 1 ≡ number →
        Ends readings (front count done) (left window.old.bytes (R.remaining source.old)) (left window.new.bytes (R.remaining source.new))
        (R.faults source.old) (R.faults source.new) e) }
    ensures empty { IfErr result (λ e. e.fault ≡ Io → window.new.bytes ≡ []) }
{
    let block = read_number(source, window, number)?;
    if block > LAST_BLOCK {
        return Err(ReadingError {
            fault: ReadingFault::BlockNumber,
            number,
        });
    }
    join_block(source, window, number, block, taker)?;
    Ok(())
}

/// Takes this many records, and hands them to the taker.
fn read_records<R: Source, T: Taker<R>>(
    source: &mut R,
    window: &mut Window,
    count: u32,
    taker: &mut T,
) -> Result<(), ReadingError>
    requires { StandsAt (T.input taker.now) window.now.at (left window.now.bytes (R.remaining source.now)) }
    ensures ok { OnOk result (Gains (T.took taker.old) (T.took taker.new) (TakesRecords (left window.old.bytes (R.remaining source.old)) (left window.new.bytes (R.remaining source.new)) count)) }
    ensures count { OnOk result (R.faults source.new ≡ R.faults source.old) }
    ensures err { IfErr result (λ e. Ends readings (header magic count) (left window.old.bytes (R.remaining source.old)) (left window.new.bytes (R.remaining source.new))
        (R.faults source.old) (R.faults source.new) e) }
    ensures empty { IfErr result (λ e. e.fault ≡ Io → window.new.bytes ≡ []) }
{
    for index in 0..count {
        read_record(source, window, index + 1, taker)?;
    }
    Ok(())
}

/// Reads what follows the magic of a reading, to the end of the source, and hands its records to the taker. After an
/// error the taker may have some of them.
pub fn read_body<R: Source, T: Taker<R>>(
    source: &mut R,
    window: &mut Window,
    taker: &mut T,
) -> Result<(), ReadingError>
    requires { StandsAt (T.input taker.now) window.now.at (left window.now.bytes (R.remaining source.now)) }
    ensures ok { OnOk result (Gains (T.took taker.old) (T.took taker.new) (Takes readings magic (left window.old.bytes (R.remaining source.old)) (left window.new.bytes (R.remaining source.new)))) }
    ensures count { OnOk result (R.faults source.new ≡ R.faults source.old) }
    ensures err { IfErr result (λ e. Ends readings magic (left window.old.bytes (R.remaining source.old)) (left window.new.bytes (R.remaining source.new))
        (R.faults source.old) (R.faults source.new) e) }
    ensures empty { IfErr result (λ e. e.fault ≡ Io → window.new.bytes ≡ []) }
    ensures done { OnOk result (window.new.bytes ≡ []) }
{
    let count = read_count(source, window)?;
    read_records(source, window, count, taker)?;
    read_end(source, window, count)?;
    Ok(())
}
