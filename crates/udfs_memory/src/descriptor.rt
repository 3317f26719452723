//! What was opened of files in memory.

ghost use Rattle.std.specs.Prelude.{◌≡◌, ◌≤◌, ◌<◌, All, IfOk, OnErr, OnOk, Some, [], length, take, drop};
ghost use Rattle.udfs_calls.specs.Files.{written};
ghost use Rattle.udfs_memory.specs.Bodies.{bytes_of};

use crate::contents::{rest, with_piece, with_size};
use crate::device::Device;
use std::alloc::Global;
use std::cell::Cell;
use std::fs::Permissions;
use std::io::{Error, ErrorKind};
use std::os::unix::fs::PermissionsExt;
use udfs_calls::{About, Opened};

/// The bytes of a file.
#[derive(Drop)]
pub(crate) enum Body<'a> {
    /// Of one that was there when the run began.
    Stored(&'a [u8]),
    /// Of one that was made since.
    Own(Vec<u8>),
}

/// A file that was opened in memory, or something else that is written in place. What it writes is kept once it is synced.
#[derive(Drop)]
pub struct MemoryDescriptor<'a> {
    alloc: Global,
    body: Body<'a>,
    at: u64,
    number: Option<u64>,
    /// How many calls were made before it was opened in place, if it was.
    place: Option<u64>,
    is_written: bool,
    device: Device,
    /// After how many more bytes its device fails.
    good: Cell<usize>,
    ghost sound: { All (λ byte. byte < 256) (bytes_of body) },
}

/// These bytes, which are bytes.
pub(crate) fn own<'a>(bytes: Vec<u8>) -> Body<'a>
    ensures same { bytes_of result ≡ bytes.items }
    ensures sound { All (λ byte. byte < 256) (bytes_of result) }
{
    Body::Own(bytes)
}

/// The same of what is borrowed.
pub(crate) fn stored<'a>(bytes: &'a [u8]) -> Body<'a>
    ensures same { bytes_of result ≡ bytes.now }
    ensures sound { All (λ byte. byte < 256) (bytes_of result) }
{
    Body::Stored(bytes)
}

impl<'a> MemoryDescriptor<'a> {
    /// One to read these bytes from their front.
    pub(crate) fn reading(alloc: Global, body: Body<'a>, device: Device) -> MemoryDescriptor<'a>
        requires { All (λ byte. byte < 256) (bytes_of body) }
        ensures bytes { bytes_of result.body ≡ bytes_of body.entry }
        ensures front { result.at ≡ 0 }
    {
        MemoryDescriptor {
            alloc,
            body,
            at: 0,
            number: None,
            place: None,
            is_written: false,
            device,
            good: Cell::new(device.good),
        }
    }

    /// One to write what has nothing in it, and is the new file of the first number, or was opened in place by the call of the second.
    pub(crate) fn writing(
        alloc: Global,
        number: Option<u64>,
        place: Option<u64>,
        device: Device,
    ) -> MemoryDescriptor<'a>
        ensures bytes { bytes_of result.body ≡ [] }
        ensures front { result.at ≡ 0 }
        ensures number { result.number ≡ number }
    {
        MemoryDescriptor {
            alloc,
            body: Body::Own(Vec::new(alloc)),
            at: 0,
            number,
            place,
            is_written: true,
            device,
            good: Cell::new(device.good),
        }
    }

    /// All its bytes.
    pub(crate) fn bytes(&self) -> &[u8]
        ensures { result.now ≡ bytes_of self.now.body }
    {
        match &self.body {
            Body::Stored(bytes) => bytes,
            Body::Own(bytes) => bytes,
        }
    }

    /// The number of the new file that it is, if it is one.
    pub(crate) fn number(&self) -> Option<u64>
        ensures { result ≡ self.now.number }
    {
        self.number
    }

    /// How many calls were made before it was opened in place, if it was.
    pub(crate) fn place(&self) -> Option<u64> {
        self.place
    }

    /// How many bytes the device moves in a call now.
    fn most(&self) -> usize {
        self.device.most.min(self.good.get())
    }

    /// So many bytes were moved.
    fn moved(&self, count: usize) {
        self.good.set(self.good.get().saturating_sub(count));
    }

    /// Reads from a position on.
    fn take(&self, at: u64, buf: &mut [u8]) -> Result<usize, Error>
        ensures bound { IfOk result (λ n. n ≤ length buf.new) }
        ensures value { IfOk result (λ n. take n buf.new ≡ take n (drop at (bytes_of self.now.body))) }
        ensures end { IfOk result (λ n. n ≡ 0 → 0 < length buf.new → length (bytes_of self.now.body) ≤ at) }
    {
        let most = self.most();
        if most == 0 && !buf.is_empty() {
            return Err(Error::from(ErrorKind::Other));
        }
        let rest = rest(self.bytes(), at);
        let count = rest.len().min(buf.len()).min(most);
        buf[..count].copy_from_slice(&rest[..count]);
        self.moved(count);
        Ok(count)
    }

    /// Writes a piece at the position, which stays.
    fn put(&mut self, piece: &[u8]) -> Result<(), Error>
        ensures done { OnOk result (bytes_of self.new.body ≡ written self.old.at piece.now (bytes_of self.old.body)) }
        ensures failed { OnErr result (bytes_of self.new.body ≡ bytes_of self.old.body) }
        ensures at { self.new.at ≡ self.old.at }
        ensures number { self.new.number ≡ self.old.number }
    {
        if self.at == self.bytes().len() as u64 {
            if let Body::Own(bytes) = &mut self.body {
                bytes.extend_from_slice(piece)?;
                return Ok(());
            }
        }
        let after = with_piece(self.alloc, self.bytes(), self.at, piece)?;
        self.body = own(after);
        Ok(())
    }
}

impl<'a> Opened for MemoryDescriptor<'a> {
    ghost state = { λ d. Some (record { bytes = bytes_of d.body; at = d.at }) };

    ghost number = { λ d. d.number };

    ghost are_bytes = { λ d. d.sound };

    fn read(&mut self, buf: &mut [u8]) -> Result<usize, Error> {
        let count = self.take(self.at, buf)?;
        let Some(next) = self.at.checked_add(count as u64) else {
            return Err(Error::from(ErrorKind::FileTooLarge));
        };
        self.at = next;
        Ok(count)
    }

    fn read_at(&self, at: u64, buf: &mut [u8]) -> Result<usize, Error> {
        self.take(at, buf)
    }

    fn write(&mut self, buf: &[u8]) -> Result<usize, Error> {
        let count = buf.len().min(self.most());
        let Some(next) = self.at.checked_add(count as u64) else {
            return Err(Error::from(ErrorKind::FileTooLarge));
        };
        if !self.is_written {
            return Err(Error::from(ErrorKind::PermissionDenied));
        }
        if count == 0 && !buf.is_empty() && !self.device.takes_none {
            return Err(Error::from(ErrorKind::StorageFull));
        }
        self.put(&buf[..count])?;
        self.moved(count);
        self.at = next;
        Ok(count)
    }

    fn go_to(&mut self, to: u64) -> Result<(), Error> {
        self.at = to;
        Ok(())
    }

    fn go_to_end(&mut self) -> Result<u64, Error> {
        self.at = self.bytes().len() as u64;
        Ok(self.at)
    }

    fn set_len(&mut self, size: u64) -> Result<(), Error> {
        if !self.is_written {
            return Err(Error::from(ErrorKind::InvalidInput));
        }
        let after = with_size(self.alloc, self.bytes(), size)?;
        self.body = own(after);
        Ok(())
    }

    fn about(&self) -> Result<About, Error> {
        Ok(About {
            is_file: true,
            is_folder: false,
            size: self.bytes().len() as u64,
            device: 0,
            inode: 0,
            modified: None,
            permissions: Permissions::from_mode(0o644),
        })
    }
}
