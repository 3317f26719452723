//! The machine's system calls. **This file is trusted**: each body is one call of the toolchain's library, and has to do what its method of
//! [`Calls`](crate::Calls) and [`Opened`](crate::Opened) says. No contract can say so, since no contract can say what a system keeps.

ghost use Rattle.std.proofs.Common.{inr, refl};
ghost use Rattle.std.specs.Prelude.{◌≡◌, List, ℕ, None, [], ⊤};

use crate::calls::{About, Calls, Opened};
use std::alloc::Global;
use std::fs;
use std::fs::{FileTimes, Metadata, OpenFile, OpenOptions, Permissions};
use std::io::{Error, Read, Seek, SeekFrom, Write};
use std::os::unix::fs::{FileExt, MetadataExt};
use std::rt::Files;
use std::time::SystemTime;

/// What the system says, in our words.
fn about(metadata: Metadata) -> About {
    About {
        is_file: metadata.is_file(),
        is_folder: metadata.is_dir(),
        size: metadata.len(),
        device: metadata.dev(),
        inode: metadata.ino(),
        modified: metadata.modified().ok(),
        permissions: metadata.permissions(),
    }
}

/// A descriptor of the machine.
#[derive(Drop)]
pub struct HostFile<F: Read + Write + Seek + OpenFile + FileExt + Drop> {
    file: F,
}

impl<F: Read + Write + Seek + OpenFile + FileExt + Drop> Opened for HostFile<F> {
    ghost state = { λ _. None };

    ghost number = { λ _. None };

    ghost are_bytes = { λ _. tt };

    fn read(&mut self, buf: &mut [u8]) -> Result<usize, Error> {
        self.file.read(buf)
    }

    fn read_at(&self, at: u64, buf: &mut [u8]) -> Result<usize, Error> {
        self.file.read_at(buf, at)
    }

    fn write(&mut self, buf: &[u8]) -> Result<usize, Error> {
        self.file.write(buf)
    }

    fn go_to(&mut self, to: u64) -> Result<(), Error> {
        self.file.seek(SeekFrom::Start(to))?;
        Ok(())
    }

    fn go_to_end(&mut self) -> Result<u64, Error> {
        self.file.seek(SeekFrom::End(0))
    }

    fn set_len(&mut self, size: u64) -> Result<(), Error> {
        self.file.set_len(size)
    }

    fn about(&self) -> Result<About, Error> {
        Ok(about(self.file.metadata()?))
    }
}

/// The system calls of the machine, over a runtime that has files.
#[derive(Drop)]
pub struct Host<'a, R: Files> {
    rt: &'a R,
}

impl<'a, R: Files> Host<'a, R> {
    /// The system calls of this runtime.
    pub fn new(rt: &'a R) -> Host<'a, R> {
        Host { rt }
    }
}

impl<'a, R: Files> Calls for Host<'a, R>
where
    R::File: FileExt,
{
    type File = HostFile<R::File>;

    ghost tells = { ⊥ };

    ghost log = { λ _. None };

    ghost real = { λ _ path. path };

    ghost link_at = { λ _ _. None };

    ghost in_place = { λ _ _. ⊤ };

    ghost shut = { λ _ _. ⊤ };

    ghost identity = { λ _ _. (0, 0) };

    ghost told = { λ never. absurd never };

    ghost files_told = { λ never. absurd never };

    ghost told_or_silent = { inr (λ _. refl) };

    ghost lawful = { λ _. tt };

    ghost told_apart = { λ never. absurd never };

    ghost link_leads = { λ never. absurd never };

    ghost name_leads = { λ never. absurd never };

    ghost device_leads = { λ never. absurd never };

    fn open(&self, path: &str) -> Result<Self::File, Error> {
        Ok(HostFile {
            file: fs::open(self.rt, path)?,
        })
    }

    fn try_to_write(&self, path: &str) -> Result<(), Error> {
        OpenOptions::new().write(true).open(self.rt, path)?;
        Ok(())
    }

    fn about(&self, path: &str) -> Result<About, Error> {
        Ok(about(self.rt.metadata(path)?))
    }

    fn link(&self, alloc: Global, path: &str) -> Result<String, Error> {
        Ok(self.rt.read_link(alloc, path)?.into_string())
    }

    fn real_path(&self, alloc: Global, path: &str) -> Result<String, Error> {
        Ok(self.rt.canonicalize(alloc, path)?.into_string())
    }

    fn create_new(&mut self, path: &str) -> Result<Self::File, Error> {
        Ok(HostFile {
            file: fs::File::create_new(self.rt, path)?,
        })
    }

    fn open_in_place(&mut self, path: &str) -> Result<Self::File, Error> {
        Ok(HostFile {
            file: fs::create(self.rt, path)?,
        })
    }

    fn sync(&mut self, file: Self::File) -> Result<(), Error> {
        file.file.sync_all()
    }

    fn sync_folder(&mut self, path: &str) -> Result<(), Error> {
        fs::open(self.rt, path)?.sync_all()
    }

    fn rename(&mut self, from: &str, to: &str) -> Result<(), Error> {
        fs::rename(self.rt, from, to)
    }

    fn remove(&mut self, path: &str) -> Result<(), Error> {
        fs::remove_file(self.rt, path)
    }

    fn make_folder(&mut self, path: &str) -> Result<(), Error> {
        fs::create_dir(self.rt, path)
    }

    fn set_permissions(&self, path: &str, permissions: Permissions) -> Result<(), Error> {
        self.rt.set_permissions(path, permissions)
    }

    fn set_modified(&self, path: &str, time: SystemTime) -> Result<(), Error> {
        fs::open(self.rt, path)?.set_times(FileTimes::new().set_modified(time))
    }
}
