//! An image, which is read at any position.

ghost use Rattle.std.specs.Prelude.{◌≡◌, ℕ, ◌+◌, ◌^◌, ◌≤◌, ◌<◌, List, Option, length, take, drop, true, false, IfOk, IfSome};
ghost use Rattle.std.specs.Io.KnownBytes.{Keeps};
ghost use Rattle.udfs_reading.specs.Device.{CountsFault};

use udfs_reading::DeviceFault;

/// An image of a disc, read at positions: a file, or bytes in memory. It counts its faults, as a
/// [`Source`](udfs_reading::Source) does. Reading changes nothing of its bytes.
pub trait Image {
    /// Its bytes, where they are known.
    ghost bytes: { Self → Option (List ℕ) };

    /// How many of its calls were faults, modulo 2 ^ 64.
    ghost faults: { Self → ℕ };

    /// How many bytes it has.
    ///
    /// # Errors
    ///
    /// `DeviceFault`, exactly where the count of faults goes up by one.
    fn size(&mut self) -> Result<u64, DeviceFault>
        ensures value { IfSome (bytes self.old) (λ all. IfOk result (λ n. n ≡ length all)) }
        ensures same { Keeps (bytes self.old) (bytes self.new) }
        ensures count { CountsFault (faults self.old) (faults self.new) result };

    /// Reads the bytes from position `at` on into the front of the buffer, and returns how many came. Into some room
    /// it returns 0 only at or after the end.
    ///
    /// # Errors
    ///
    /// `DeviceFault`, exactly where the count of faults goes up by one.
    fn read_at(&mut self, at: u64, buf: &mut [u8]) -> Result<usize, DeviceFault>
        ensures bound { IfOk result (λ n. n ≤ length buf.new) }
        ensures value { IfSome (bytes self.old) (λ all. IfOk result (λ n. take n buf.new ≡ take n (drop at all))) }
        ensures end { IfSome (bytes self.old) (λ all. IfOk result (λ n. n ≡ 0 → 0 < length buf.new → length all ≤ at)) }
        ensures same { Keeps (bytes self.old) (bytes self.new) }
        ensures count { CountsFault (faults self.old) (faults self.new) result };
}

/// Fills the buffer from position `at` on, and returns whether the image had enough bytes to fill it.
pub fn fill<I: Image>(image: &mut I, at: u64, buf: &mut [u8]) -> Result<bool, DeviceFault>
    requires { at + length buf.old < 2 ^ 64 }
    ensures value { IfOk result (λ whole. whole ≡ true → IfSome (I.bytes image.old) (λ all. buf.new ≡ take (length buf.new) (drop at all))) }
    ensures short { IfOk result (λ whole. whole ≡ false → IfSome (I.bytes image.old) (λ all. length all < at + length buf.old)) }
    ensures same { Keeps (I.bytes image.old) (I.bytes image.new) }
    ensures count { CountsFault (I.faults image.old) (I.faults image.new) result }
{
    let mut filled = 0usize;
    while filled < buf.len() {
        let count = image.read_at(at + filled as u64, &mut buf[filled..])?;
        if count == 0 {
            return Ok(false);
        }
        filled += count;
    }
    Ok(true)
}
