//! Bytes that go out whole.

ghost use Rattle.std.specs.Prelude.{◌≡◌, ◌≤◌, length, take, OnOk};
ghost use Rattle.std.specs.Io.KnownBytes.{Appends};
ghost use Rattle.udfs_reading.specs.Device.{CountsFault};

use udfs_reading::{DeviceFault, Sink};

/// Writes until all is written or a write fails, and returns how many bytes the sink took, and the fault if there was one.
pub fn send<W: Sink>(bytes: &[u8], sink: &mut W) -> (usize, Result<(), DeviceFault>)
    ensures bound { result.0 ≤ length bytes.now }
    ensures all { OnOk result.1 (result.0 ≡ length bytes.now) }
    ensures bytes { Appends (W.stream sink.old).contents (W.stream sink.new).contents (take result.0 bytes.now) }
    ensures count { CountsFault (W.stream sink.old).faults (W.stream sink.new).faults result.1 }
{
    let mut sent = 0;
    while sent < bytes.len() {
        match sink.write(&bytes[sent..]) {
            Ok(count) => sent += count,
            Err(fault) => return (sent, Err(fault)),
        }
    }
    (sent, Ok(()))
}
