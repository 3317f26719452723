//! The fields of a file.

ghost use Rattle.std.specs.Prelude.{◌≡◌, ℕ, ◌≤◌, ◌∷◌, [], length, OnOk, OnErr, IfOk, IfErr};
ghost use Rattle.std.specs.Io.KnownBytes.{Consumes, IsAtEnd};
ghost use Rattle.udfs_reading.specs.Device.{left};
ghost use Rattle.udfs_reading.specs.Places.{MovesOn};
ghost use Rattle.udfs_reading.specs.Field.{CutsField, Overruns};
ghost use Rattle.udfs_reading.specs.Format.{number};

use crate::device::Source;
use crate::error::{ReadingError, ReadingFault};
use crate::window::Window;
use byteorder::{ByteOrder, LittleEndian};

/// Reads ahead until the next field, of `size` bytes, is whole in the window.
///
/// Where the end or a fault of the source comes first, the window is empty from then on.
pub fn field<R: Source>(
    source: &mut R,
    window: &mut Window,
    size: usize,
    number: u32,
) -> Result<(), ReadingError>
    requires { size ≤ 2048 }
    ensures whole { OnOk result (size ≤ length window.new.bytes) }
    ensures left { OnOk result (Consumes (left window.old.bytes (R.remaining source.old)) (left window.new.bytes (R.remaining source.new)) []) }
    ensures count { OnOk result (R.faults source.new ≡ R.faults source.old) }
    ensures at { OnOk result (window.new.at ≡ window.old.at) }
    ensures err { IfErr result (λ e. CutsField (left window.old.bytes (R.remaining source.old)) (left window.new.bytes (R.remaining source.new))
        (R.faults source.old) (R.faults source.new) size number e) }
    ensures empty { OnErr result (window.new.bytes ≡ []) }
{
    match window.hold(source, size) {
        Ok(true) => Ok(()),
        Ok(false) => {
            window.clear();
            Err(ReadingError {
                fault: ReadingFault::Truncated,
                number,
            })
        }
        Err(_) => {
            window.clear();
            Err(ReadingError {
                fault: ReadingFault::Io,
                number,
            })
        }
    }
}

/// Takes the next four bytes, as a number of 32 bits.
pub fn read_number<R: Source>(
    source: &mut R,
    window: &mut Window,
    in_record: u32,
) -> Result<u32, ReadingError>
    ensures bytes { IfOk result (λ n. Consumes (left window.old.bytes (R.remaining source.old)) (left window.new.bytes (R.remaining source.new)) (number n)) }
    ensures count { OnOk result (R.faults source.new ≡ R.faults source.old) }
    ensures at { OnOk result (MovesOn window.old.at window.new.at (left window.old.bytes (R.remaining source.old)) (left window.new.bytes (R.remaining source.new))) }
    ensures err { IfErr result (λ e. CutsField (left window.old.bytes (R.remaining source.old)) (left window.new.bytes (R.remaining source.new))
        (R.faults source.old) (R.faults source.new) 4 in_record e) }
    ensures empty { OnErr result (window.new.bytes ≡ []) }
{
    field(source, window, 4, in_record)?;
    let n = LittleEndian::read_u32(window.chunk::<4>());
    window.take(4);
    Ok(n)
}

/// Takes the next byte.
pub fn read_byte<R: Source>(
    source: &mut R,
    window: &mut Window,
    in_record: u32,
) -> Result<u8, ReadingError>
    ensures bytes { IfOk result (λ byte. Consumes (left window.old.bytes (R.remaining source.old)) (left window.new.bytes (R.remaining source.new)) (byte ∷ [])) }
    ensures count { OnOk result (R.faults source.new ≡ R.faults source.old) }
    ensures at { OnOk result (MovesOn window.old.at window.new.at (left window.old.bytes (R.remaining source.old)) (left window.new.bytes (R.remaining source.new))) }
    ensures err { IfErr result (λ e. CutsField (left window.old.bytes (R.remaining source.old)) (left window.new.bytes (R.remaining source.new))
        (R.faults source.old) (R.faults source.new) 1 in_record e) }
    ensures empty { OnErr result (window.new.bytes ≡ []) }
{
    field(source, window, 1, in_record)?;
    let byte = window.chunk::<1>()[0];
    window.take(1);
    Ok(byte)
}

/// Takes the next eight bytes.
pub fn read_magic<R: Source>(source: &mut R, window: &mut Window) -> Result<[u8; 8], ReadingError>
    ensures bytes { IfOk result (λ magic. Consumes (left window.old.bytes (R.remaining source.old)) (left window.new.bytes (R.remaining source.new)) magic) }
    ensures eight { IfOk result (λ magic. length magic ≡ 8) }
    ensures count { OnOk result (R.faults source.new ≡ R.faults source.old) }
    ensures at { OnOk result (MovesOn window.old.at window.new.at (left window.old.bytes (R.remaining source.old)) (left window.new.bytes (R.remaining source.new))) }
    ensures err { IfErr result (λ e. CutsField (left window.old.bytes (R.remaining source.old)) (left window.new.bytes (R.remaining source.new))
        (R.faults source.old) (R.faults source.new) 8 0 e) }
    ensures empty { OnErr result (window.new.bytes ≡ []) }
{
    field(source, window, 8, 0)?;
    let magic = *window.chunk::<8>();
    window.take(8);
    Ok(magic)
}

/// Sees that the file ends here, after `count` records.
pub fn read_end<R: Source>(
    source: &mut R,
    window: &mut Window,
    count: u32,
) -> Result<(), ReadingError>
    ensures ok { OnOk result (Consumes (left window.old.bytes (R.remaining source.old)) (left window.new.bytes (R.remaining source.new)) []) }
    ensures end { OnOk result (IsAtEnd (left window.new.bytes (R.remaining source.new))) }
    ensures count { OnOk result (R.faults source.new ≡ R.faults source.old) }
    ensures err { IfErr result (λ e. Overruns (left window.old.bytes (R.remaining source.old)) (left window.new.bytes (R.remaining source.new))
        (R.faults source.old) (R.faults source.new) count e) }
    ensures empty { window.new.bytes ≡ [] }
{
    let outcome = window.hold(source, 1);
    window.clear();
    match outcome {
        Ok(false) => Ok(()),
        Ok(true) => Err(ReadingError {
            fault: ReadingFault::Trailing,
            number: count,
        }),
        Err(_) => Err(ReadingError {
            fault: ReadingFault::Io,
            number: count,
        }),
    }
}
