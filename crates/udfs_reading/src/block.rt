//! The bytes of one block, as readings and table files contain them.

ghost use Rattle.std.specs.Prelude.{◌≡◌, ◌≤◌, [], OnOk, IfErr};
ghost use Rattle.udfs_reading.specs.declared.error.ReadingFault.TheVariants.{Io};
ghost use Rattle.udfs_reading.specs.Device.{left};
ghost use Rattle.udfs_reading.specs.Gains.{Gains};
ghost use Rattle.udfs_reading.specs.Places.{StandsAt};
ghost use Rattle.udfs_reading.specs.Field.{BlockFails, TakesBlock};

use crate::device::Source;
use crate::error::{ReadingError, ReadingFault};
use crate::field::field;
use crate::taker::Taker;
use crate::window::Window;
use udfs_lattice::table;

/// The greatest block number.
pub const LAST_BLOCK: u32 = table::LAST_BLOCK;

/// Reads the 2048 bytes of a block, and hands them to the taker.
pub fn join_block<R: Source, T: Taker<R>>(
    source: &mut R,
    window: &mut Window,
    number: u32,
    block: u32,
    taker: &mut T,
) -> Result<(), ReadingError>
    requires block { block ≤ 4194303 }
    requires at { StandsAt (T.input taker.now) window.now.at (left window.now.bytes (R.remaining source.now)) }
    ensures ok { OnOk result (Gains (T.took taker.old) (T.took taker.new) (TakesBlock (left window.old.bytes (R.remaining source.old)) (left window.new.bytes (R.remaining source.new)) block)) }
    ensures count { OnOk result (R.faults source.new ≡ R.faults source.old) }
    ensures at { OnOk result (StandsAt (T.input taker.new) window.new.at (left window.new.bytes (R.remaining source.new))) }
    ensures err { IfErr result (λ e. BlockFails (left window.old.bytes (R.remaining source.old)) (left window.new.bytes (R.remaining source.new))
        (R.faults source.old) (R.faults source.new) number e) }
    ensures empty { IfErr result (λ e. e.fault ≡ Io → window.new.bytes ≡ []) }
{
    field(source, window, 2048, number)?;
    let outcome = taker.put(block, window.chunk::<2048>(), window.at());
    window.take(2048);
    match outcome {
        Ok(()) => Ok(()),
        Err(_) => Err(ReadingError {
            fault: ReadingFault::OutOfMemory,
            number,
        }),
    }
}
