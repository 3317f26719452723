//! What the machine opened to be written. In a new file long runs of zeros are left out, so that it is sparse where the file system can be.

ghost use Rattle.std.specs.Prelude.{◌≡◌, ◌≤◌, ◌<◌, ◌+◌, length, take, true, false, Bool, IfOk, IfErr, OnOk, OnErr};
ghost use Rattle.udfs_calls.specs.Files.{bytes_of, zeros};
ghost use Rattle.udfs_host_fs.specs.Opened.{IsOutput, IsOutput-prop, contents_of};
ghost use Rattle.std.specs.Io.KnownBytes.{WriteAppends};
ghost use Rattle.udfs_reading.specs.Device.{CountsFault};

use crate::files::Handle;
use crate::watch::{Watch, heeded};
use std::io::{Error, ErrorKind};
use udfs_calls::Opened;
use udfs_reading::{DeviceFault, Sink};

/// How many zero bytes are worth a hole in a file: 32 KiB.
const HOLE: usize = 32_768;

/// How many zeros these bytes begin with.
fn zeros_in_front(bytes: &[u8]) -> usize
    ensures bound { result ≤ length bytes.now }
    ensures zeros { take result bytes.now ≡ zeros result }
{
    let mut count: usize = 0;
    while count < bytes.len() && bytes[count] == 0 {
        count += 1;
    }
    count
}

/// How many of these bytes come before the next zeros that are worth a hole.
fn before_hole(bytes: &[u8]) -> usize
    ensures { result ≤ length bytes.now }
{
    let mut count: usize = 0;
    for piece in bytes.chunks(HOLE) {
        if piece.len() == HOLE && zeros_in_front(piece) == HOLE {
            break;
        }
        count = count.saturating_add(piece.len());
    }
    count.min(bytes.len())
}

/// How many zeros at the front of these bytes are a hole: whole ones alone.
fn hole_in_front(bytes: &[u8]) -> usize
    ensures bound { result ≤ length bytes.now }
    ensures zeros { take result bytes.now ≡ zeros result }
{
    let count = zeros_in_front(bytes);
    count - count % HOLE
}

/// An output of the machine. Nothing is buffered here: those who write hand over large pieces.
#[derive(Drop)]
pub struct MachineFile<'a, O: Opened + Drop, N: Watch> {
    pub(crate) file: O,
    pub(crate) watch: &'a N,
    pub(crate) faults: u64,
    /// Whether it is a new file, which may have holes.
    pub(crate) may_have_holes: bool,
    /// How many bytes it has.
    pub(crate) size: u64,
    /// Whether it ends with a hole.
    pub(crate) ends_with_hole: bool,
    ghost at_end: { IsOutput (O.state file) size ends_with_hole } by { IsOutput-prop (O.state file) size ends_with_hole },
}

impl<'a, O: Opened + Drop, N: Watch> MachineFile<'a, O, N> {
    /// Leaves out `count` bytes at the end, as a hole.
    fn skip(&mut self, count: usize) -> Result<usize, Error>
        ensures number { O.number self.new.file ≡ O.number self.old.file }
        ensures faults { self.new.faults ≡ self.old.faults }
        ensures all { IfOk result (λ n. n ≡ count) }
        ensures bytes { WriteAppends (contents_of (O.state self.old.file) self.old.size) (contents_of (O.state self.new.file) self.new.size) result (zeros count) }
    {
        let Some(end) = self.size.checked_add(count as u64) else {
            return Err(Error::from(ErrorKind::InvalidInput));
        };
        self.file.go_to(end)?;
        self.size = end;
        self.ends_with_hole = true;
        Ok(count)
    }

    /// Writes a front of these bytes at the end.
    fn append(&mut self, bytes: &[u8]) -> Result<usize, Error>
        ensures number { O.number self.new.file ≡ O.number self.old.file }
        ensures faults { self.new.faults ≡ self.old.faults }
        ensures bound { IfOk result (λ n. n ≤ length bytes.now) }
        ensures bytes { WriteAppends (contents_of (O.state self.old.file) self.old.size) (contents_of (O.state self.new.file) self.new.size) result bytes.now }
    {
        let Some(_) = self.size.checked_add(bytes.len() as u64) else {
            return Err(Error::from(ErrorKind::InvalidInput));
        };
        let count = self.file.write(bytes)?;
        self.size += count as u64;
        self.ends_with_hole = false;
        Ok(count)
    }

    /// Writes a front of these bytes, or leaves it out where it is a hole.
    fn put_front(&mut self, bytes: &[u8]) -> Result<usize, Error>
        ensures number { O.number self.new.file ≡ O.number self.old.file }
        ensures faults { self.new.faults ≡ self.old.faults }
        ensures bound { IfOk result (λ n. n ≤ length bytes.now) }
        ensures bytes { WriteAppends (contents_of (O.state self.old.file) self.old.size) (contents_of (O.state self.new.file) self.new.size) result bytes.now }
    {
        if !self.may_have_holes {
            return self.append(bytes);
        }
        let hole = hole_in_front(bytes);
        if hole > 0 {
            return self.skip(hole);
        }
        let count = before_hole(bytes);
        self.append(&bytes[..count])
    }

    /// Writes a front of these bytes. It is a fault where nothing could be written.
    fn take(&mut self, buf: &[u8]) -> Result<usize, DeviceFault>
        ensures number { O.number self.new.file ≡ O.number self.old.file }
        ensures bound { IfOk result (λ n. n ≤ length buf.now) }
        ensures some { IfOk result (λ n. 0 < length buf.now → 0 < n) }
        ensures bytes { WriteAppends (contents_of (O.state self.old.file) self.old.size) (contents_of (O.state self.new.file) self.new.size) result buf.now }
        ensures count { CountsFault self.old.faults self.new.faults result }
    {
        let outcome = self.put_front(buf);
        match heeded(self.watch, outcome) {
            Some(count) if count > 0 || buf.is_empty() => {
                self.watch.wrote(count);
                Ok(count)
            }
            _ => {
                self.faults = self.faults.wrapping_add(1);
                Err(DeviceFault)
            }
        }
    }

    /// The file, with the zeros at its end that were left out.
    #[tactic(auto, using(crate::proofs::Taken::cut_whole, crate::proofs::Taken::whole_already))]
    pub(crate) fn into_file(self) -> Result<O, Error>
        ensures number { IfOk result (λ file. O.number file ≡ O.number self.entry.file) }
        ensures whole { IfOk result (λ file. bytes_of (O.state file) ≡ contents_of (O.state self.entry.file) self.entry.size) }
    {
        let MachineFile {
            mut file,
            size,
            ends_with_hole,
            ..
        } = self;
        if !ends_with_hole {
            return Ok(file);
        }
        file.set_len(size)?;
        Ok(file)
    }
}

impl<'a, O: Opened + Drop, N: Watch> Sink for MachineFile<'a, O, N> {
    ghost stream = { λ f. record { contents = contents_of (O.state f.file) f.size; faults = f.faults } };

    fn write(&mut self, buf: &[u8]) -> Result<usize, DeviceFault> {
        self.take(buf)
    }
}

impl<'a, O: Opened + Drop, N: Watch> Handle for MachineFile<'a, O, N> {
    ghost number = { λ f. O.number f.file };

    fn put(&mut self, buf: &[u8]) -> Result<usize, DeviceFault> {
        self.take(buf)
    }
}
