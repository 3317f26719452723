//! A runtime that has the zone of a clock, and nothing else.

use std::alloc::Allocator;
use std::env::FillError;
use std::fs::{Metadata, OpenFile, OpenOptions};
use std::io::{Error, ErrorKind, Read, Seek, SeekFrom, Write};
use std::rt::{Clock, Env, Files};
use std::time::Duration;

/// What it says of all but the zone.
fn unsupported() -> Error {
    Error::from(ErrorKind::Unsupported)
}

/// A file that it would open, if it opened one.
#[derive(Drop)]
pub struct NoFile {}

impl Read for NoFile {
    fn read(&mut self, _buf: &mut [u8]) -> Result<usize, Error> {
        Err(unsupported())
    }
}

impl Write for NoFile {
    fn write(&mut self, _buf: &[u8]) -> Result<usize, Error> {
        Err(unsupported())
    }

    fn flush(&mut self) -> Result<(), Error> {
        Err(unsupported())
    }
}

impl Seek for NoFile {
    fn seek(&mut self, _pos: SeekFrom) -> Result<u64, Error> {
        Err(unsupported())
    }
}

impl OpenFile for NoFile {
    fn metadata(&self) -> Result<Metadata, Error> {
        Err(unsupported())
    }

    fn set_len(&self, _size: u64) -> Result<(), Error> {
        Err(unsupported())
    }

    fn sync_all(&self) -> Result<(), Error> {
        Err(unsupported())
    }

    fn sync_data(&self) -> Result<(), Error> {
        Err(unsupported())
    }
}

/// A runtime whose environment has a zone alone: a rule as POSIX writes it, and UTC where it is empty.
#[derive(Clone, Copy)]
pub struct Clockwork {
    pub(crate) zone: &'static str,
}

impl Env for Clockwork {
    fn arg(&self, _i: usize, _buf: &mut [u8]) -> Result<usize, FillError> {
        Err(FillError::NotPresent)
    }

    fn var(&self, name: &str, buf: &mut [u8]) -> Result<usize, FillError> {
        if name != "TZ" {
            return Err(FillError::NotPresent);
        }
        let zone = self.zone.as_bytes();
        if zone.len() > buf.len() {
            return Err(FillError::TooLong);
        }
        buf[..zone.len()].copy_from_slice(zone);
        Ok(zone.len())
    }

    fn var_at(&self, _i: usize, _buf: &mut [u8]) -> Result<usize, FillError> {
        Err(FillError::NotPresent)
    }
}

impl Clock for Clockwork {
    fn monotonic(&self) -> Result<Duration, Error> {
        Err(unsupported())
    }

    fn since_1970(&self) -> Result<Duration, Error> {
        Err(unsupported())
    }
}

impl Files for Clockwork {
    type File = NoFile;

    type Dir = NoFile;

    fn open_file(&self, _how: &OpenOptions, _path: &str) -> Result<NoFile, Error> {
        Err(unsupported())
    }

    fn open_dir(&self, _path: &str) -> Result<NoFile, Error> {
        Err(unsupported())
    }

    fn metadata(&self, _path: &str) -> Result<Metadata, Error> {
        Err(unsupported())
    }

    fn symlink_metadata(&self, _path: &str) -> Result<Metadata, Error> {
        Err(unsupported())
    }

    fn copy(&self, _from: &str, _to: &str) -> Result<u64, Error> {
        Err(unsupported())
    }

    fn rename(&self, _from: &str, _to: &str) -> Result<(), Error> {
        Err(unsupported())
    }

    fn remove_file(&self, _path: &str) -> Result<(), Error> {
        Err(unsupported())
    }

    fn create_dir(&self, _path: &str) -> Result<(), Error> {
        Err(unsupported())
    }

    fn remove_dir(&self, _path: &str) -> Result<(), Error> {
        Err(unsupported())
    }

    fn remove_dir_all<B: Allocator>(&self, _alloc: B, _path: &str) -> Result<(), Error> {
        Err(unsupported())
    }
}
