//! The header of a file: eight bytes that name its format, the block size, and the number of records.

ghost use Rattle.std.specs.Prelude.{◌≡◌, ℕ, List, ◌++◌, [], OnOk, IfOk, IfErr};
ghost use Rattle.std.specs.Io.KnownBytes.{Consumes};
ghost use Rattle.udfs_reading.specs.declared.error.ReadingFault.TheVariants.{Io, OutOfMemory};
ghost use Rattle.udfs_reading.specs.Device.{left};
ghost use Rattle.udfs_reading.specs.Places.{MovesOn};
ghost use Rattle.udfs_reading.specs.Format.{number, bare};
ghost use Rattle.std.specs.Str.{bytes_eq};
ghost use Rattle.udfs_reading.specs.Kind.{kind};
ghost use Rattle.udfs_reading.specs.Reading.{magic};
ghost use Rattle.udfs_reading.specs.TableFile.{table_magic};
ghost use Rattle.udfs_reading.specs.PacketFile.{packet_magic};
ghost use Rattle.udfs_reading.specs.Outcome.{Ends};

use crate::device::Source;
use crate::error::{ReadingError, ReadingFault};
use crate::field::read_number;
use crate::window::Window;

/// Takes the block size and the number of records, which follow the magic in each format, and returns the number.
pub fn read_count<R: Source>(source: &mut R, window: &mut Window) -> Result<u32, ReadingError>
    ensures bytes { IfOk result (λ count. Consumes (left window.old.bytes (R.remaining source.old)) (left window.new.bytes (R.remaining source.new)) (number 2048 ++ number count)) }
    ensures count { OnOk result (R.faults source.new ≡ R.faults source.old) }
    ensures at { OnOk result (MovesOn window.old.at window.new.at (left window.old.bytes (R.remaining source.old)) (left window.new.bytes (R.remaining source.new))) }
    ensures err { IfErr result (λ e. (magic : List ℕ) → Ends (kind (bare magic)) magic (left window.old.bytes (R.remaining source.old)) (left window.new.bytes (R.remaining source.new))
        (R.faults source.old) (R.faults source.new) e) }
    ensures of_file { IfErr result (λ e. e.fault ≡ OutOfMemory → ⊥) }
    ensures empty { IfErr result (λ e. e.fault ≡ Io → window.new.bytes ≡ []) }
{
    let size = read_number(source, window, 0)?;
    if size != 2048 {
        return Err(ReadingError {
            fault: ReadingFault::BlockSize,
            number: 0,
        });
    }
    let count = read_number(source, window, 0)?;
    Ok(count)
}

/// Whether these eight bytes name a reading.
#[tactic(auto, unfolding(crate::specs::Reading::magic))]
pub fn names_reading(bytes: &[u8; 8]) -> bool
    ensures { result ≡ bytes_eq bytes.now magic }
{
    *bytes == *b"UDFREAD1"
}

/// Whether these eight bytes name a table file of version 1.
#[tactic(auto, unfolding(crate::specs::TableFile::table_magic))]
pub fn names_table(bytes: &[u8; 8]) -> bool
    ensures { result ≡ bytes_eq bytes.now table_magic }
{
    *bytes == *b"UDFTABL1"
}

/// Whether these eight bytes name a table file of version 2.
#[tactic(auto, unfolding(crate::specs::PacketFile::packet_magic))]
pub fn names_packets(bytes: &[u8; 8]) -> bool
    ensures { result ≡ bytes_eq bytes.now packet_magic }
{
    *bytes == *b"UDFTABL2"
}
