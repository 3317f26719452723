//! A file of the machine as an input.

ghost use Rattle.std.specs.Prelude.{None, ⊤};

use crate::stored::Stored;
use std::fs::OpenFile;
use std::os::unix::fs::FileExt;
use std::time::SystemTime;
use udfs_reading::DeviceFault;

/// A file of the machine as an input. Its content is not specified: no contract can say what the system keeps.
#[derive(Drop)]
pub struct StoredFile<F: FileExt + OpenFile> {
    file: F,
}

impl<F: FileExt + OpenFile> StoredFile<F> {
    /// This file as an input. It is read at given positions, so the file's own offset does not matter.
    pub fn new(file: F) -> StoredFile<F> {
        StoredFile { file }
    }
}

impl<F: FileExt + OpenFile> Stored for StoredFile<F> {
    ghost content = { λ _. None };

    ghost fails = { λ _. ⊤ };

    fn size(&self) -> Result<u64, DeviceFault> {
        match self.file.metadata() {
            Ok(about) => Ok(about.len()),
            Err(_) => Err(DeviceFault),
        }
    }

    fn changed(&self) -> Option<SystemTime> {
        match self.file.metadata() {
            Ok(about) => about.modified().ok(),
            Err(_) => None,
        }
    }

    fn read_at(&self, at: u64, buf: &mut [u8]) -> Result<usize, DeviceFault> {
        match self.file.read_at(buf, at) {
            Ok(count) => Ok(count),
            Err(_) => Err(DeviceFault),
        }
    }
}
