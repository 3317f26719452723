//! The disk of a test: what is on it between the runs, each of which makes its calls on it.

use crate::clockwork::Clockwork;
use crate::device::{Device, SOUND};
use crate::kept::{
    Found, Kept, StoredFile, What, content, find, is_named, parent, stored_bytes, stored_file,
};
use crate::notes::{Notes, Setting};
use crate::witness::Witness;
use std::alloc::{AllocError, Global};

/// A disk, and what the last run left of it.
#[derive(Drop)]
pub struct Memory {
    alloc: Global,
    entries: Vec<StoredFile>,
    notes: Notes,
    witness: Witness,
    /// How calls come out.
    pub setting: Setting,
    /// What standard output is.
    pub terminal: Device,
    /// The zone of the clock, as a POSIX rule; UTC where it is empty.
    pub zone: &'static str,
}

/// A path without the `./` that it may begin with.
fn short(path: &str) -> &str {
    path.strip_prefix("./").unwrap_or(path)
}

/// A copy of bytes that are known.
fn copy_of(alloc: Global, bytes: Option<&[u8]>) -> Result<Option<Vec<u8>>, AllocError> {
    match bytes {
        Some(bytes) => Ok(Some(bytes.to_vec(alloc)?)),
        None => Ok(None),
    }
}

/// The bytes of what was found, where they are known.
fn bytes_of<'a>(stored: &'a [StoredFile], kept: &'a [Kept], found: Found) -> Option<&'a [u8]> {
    match found {
        Found::There(number) => stored_bytes(stored, number),
        Found::Made(number) => content(kept, number),
        Found::Nothing | Found::Folder(_) => None,
    }
}

/// What a crash leaves at a path that takes all that was not synced with its folder.
fn survivor<'a>(stored: &'a [StoredFile], kept: &'a [Kept], path: &[u8]) -> Option<&'a [u8]> {
    for (index, done) in kept.iter().enumerate() {
        let earlier = kept.get(index.saturating_add(1)..).unwrap_or(&[]);
        if let What::FolderSynced(folder) = &done.what {
            if parent(path) == folder.as_slice() && is_named(earlier, folder) {
                return bytes_of(stored, kept, find(stored, earlier, path));
            }
        }
    }
    bytes_of(stored, &[], find(stored, &[], path))
}

impl Memory {
    /// An empty disk, on sound devices.
    pub fn new(alloc: Global) -> Memory {
        Memory {
            alloc,
            entries: Vec::new(alloc),
            notes: Notes::new(alloc),
            witness: Witness::new(alloc),
            setting: Setting::sound(),
            terminal: SOUND,
            zone: "",
        }
    }

    /// A path, spelled in full.
    fn whole(&self, path: &str) -> Result<String, AllocError> {
        let mut whole = String::new(self.alloc);
        if path != "." && !path.starts_with('/') && !path.starts_with("./") {
            whole.push_str("./")?;
        }
        whole.push_str(path)?;
        Ok(whole)
    }

    /// Puts something at a path.
    fn put(
        &mut self,
        path: &str,
        bytes: &[u8],
        is_file: bool,
        is_folder: bool,
    ) -> Result<(), AllocError> {
        let file = StoredFile {
            path: self.whole(path)?,
            twin: None,
            bytes: bytes.to_vec(self.alloc)?,
            is_file,
            is_folder,
            is_open: false,
            left: Some(bytes.to_vec(self.alloc)?),
        };
        Ok(self.entries.insert(0, file)?)
    }

    /// Stores a file, which is on the disk with its name. Below `dev/` or `/dev/` it is a device, which can be read.
    pub fn store(&mut self, path: &str, bytes: &[u8]) -> Result<(), AllocError> {
        let is_device = path.starts_with("dev/") || path.starts_with("/dev/");
        self.put(path, bytes, !is_device, false)
    }

    /// Gives the file that was stored last a second path: a hard link.
    pub fn store_twin(&mut self, path: &str) -> Result<(), AllocError> {
        let whole = self.whole(path)?;
        match self.entries.first_mut() {
            Some(file) => {
                file.twin = Some(whole);
                Ok(())
            }
            None => Err(AllocError),
        }
    }

    /// Stores a folder.
    pub fn store_folder(&mut self, path: &str) -> Result<(), AllocError> {
        self.put(path, &[], false, true)
    }

    /// A run begins: its own folder is there.
    pub fn begin(&mut self) -> Result<(), AllocError> {
        if at(&self.entries, ".").is_some() {
            return Ok(());
        }
        self.put(".", &[], false, true)
    }

    /// All that is there.
    pub fn stored(&self) -> &[StoredFile] {
        &self.entries
    }

    /// What is noted of the calls of a run.
    pub fn notes(&self) -> &Notes {
        &self.notes
    }

    /// Who watches it.
    pub fn witness(&self) -> &Witness {
        &self.witness
    }

    /// Its memory, and the zone of its clock.
    pub fn clockwork(&self) -> (Clockwork, Global) {
        (Clockwork { zone: self.zone }, self.alloc)
    }

    /// The run is over: what it did is on the disk, and all of it is when the next one begins.
    pub fn settle(&mut self) -> Result<(), AllocError> {
        let kept = self.notes.take();
        let mut entries = Vec::new(self.alloc);
        for done in &kept {
            if let What::Created(path)
            | What::Opened(path)
            | What::Renamed(_, path)
            | What::FolderMade(path) = &done.what
            {
                self.push_entry(&mut entries, &kept, path)?;
            }
        }
        for file in &self.entries {
            self.push_entry(&mut entries, &kept, file.path.as_bytes())?;
            if let Some(twin) = &file.twin {
                self.push_twin(&mut entries, &kept, file.path.as_str(), twin.as_str())?;
            }
        }
        self.entries = entries;
        Ok(())
    }

    /// Adds what a path names after a run, where it names something that is not there yet.
    fn push_entry(
        &self,
        entries: &mut Vec<StoredFile>,
        kept: &[Kept],
        path: &[u8],
    ) -> Result<(), AllocError> {
        let path = std::str::from_utf8(path).unwrap_or("no text");
        if at(entries, path).is_none() {
            if let Some(file) = self.after(kept, path)? {
                entries.push(file)?;
            }
        }
        Ok(())
    }

    /// Adds what the second path of a file names after a run: the same file, where its first path names it too.
    fn push_twin(
        &self,
        entries: &mut Vec<StoredFile>,
        kept: &[Kept],
        path: &str,
        twin: &str,
    ) -> Result<(), AllocError> {
        let one = find(&self.entries, kept, path.as_bytes());
        let other = find(&self.entries, kept, twin.as_bytes());
        match (one, other) {
            (Found::There(one), Found::There(other)) if one == other => {
                let whole = String::from_str(self.alloc, twin)?;
                let place = entries.iter().position(|file| file.path.as_str() == path);
                if let Some(file) = place.and_then(|at| entries.get_mut(at)) {
                    file.twin = Some(whole);
                }
                Ok(())
            }
            _ => self.push_entry(entries, kept, twin.as_bytes()),
        }
    }

    /// What a path names after a run.
    fn after(&self, kept: &[Kept], path: &str) -> Result<Option<StoredFile>, AllocError> {
        let found = find(&self.entries, kept, path.as_bytes());
        if matches!(found, Found::Nothing) {
            return Ok(None);
        }
        let known = bytes_of(&self.entries, kept, found);
        let was = was(&self.entries, found);
        let bytes: &[u8] = match (known, was) {
            (Some(bytes), _) => bytes,
            (None, Some(file)) => &file.bytes,
            (None, None) => &[],
        };
        let left = survivor(&self.entries, kept, path.as_bytes());
        Ok(Some(StoredFile {
            path: String::from_str(self.alloc, path)?,
            twin: None,
            bytes: bytes.to_vec(self.alloc)?,
            is_file: match was {
                Some(file) => file.is_file,
                None => matches!(found, Found::Made(_)),
            },
            is_folder: match was {
                Some(file) => file.is_folder,
                None => matches!(found, Found::Folder(_)),
            },
            is_open: was.is_none() && matches!(found, Found::Made(_)) && known.is_none(),
            left: copy_of(self.alloc, left)?,
        }))
    }
}

/// What was there when the run began, where that was found.
fn was(stored: &[StoredFile], found: Found) -> Option<&StoredFile> {
    match found {
        Found::There(number) => stored_file(stored, number),
        Found::Nothing | Found::Made(_) | Found::Folder(_) => None,
    }
}

/// What is at a path.
fn at<'a>(entries: &'a [StoredFile], path: &str) -> Option<&'a StoredFile> {
    for file in entries {
        if short(file.path.as_str()) == short(path) {
            return Some(file);
        }
        if let Some(twin) = &file.twin {
            if short(twin.as_str()) == short(path) {
                return Some(file);
            }
        }
    }
    None
}

/// What tests ask.
impl Memory {
    /// What is at a path, or nothing where it is only being written, or is a folder.
    pub fn bytes<'a>(&'a self, path: &'a str) -> Option<&'a [u8]> {
        match at(&self.entries, path) {
            Some(file) if !file.is_folder && !file.is_open => Some(&file.bytes),
            _ => None,
        }
    }

    /// Whether no file has this path, finished or not.
    pub fn is_absent(&self, path: &str) -> bool {
        match at(&self.entries, path) {
            Some(file) => file.is_folder,
            None => true,
        }
    }

    /// Whether the folder is there.
    pub fn has_folder(&self, path: &str) -> bool {
        match at(&self.entries, path) {
            Some(file) => file.is_folder,
            None => false,
        }
    }

    /// Whether a crash that takes all that was not synced with its folder leaves these bytes at the path.
    pub fn survives(&self, path: &str, bytes: &[u8]) -> bool {
        match at(&self.entries, path) {
            Some(file) => match &file.left {
                Some(left) => left.as_slice() == bytes,
                None => false,
            },
            None => false,
        }
    }

    /// How many files are there.
    pub fn count(&self) -> usize {
        self.entries.iter().filter(|file| !file.is_folder).count()
    }

    /// How many calls there were that change the disk.
    pub fn calls(&self) -> u64 {
        self.notes.calls()
    }

    /// Whether these files themselves ran out of memory.
    pub fn wanted_memory(&self) -> bool {
        self.notes.wanted()
    }

    /// The time of the last change that was set of what is at a path, in microseconds since 1970, if nothing has changed it since.
    pub fn modified(&self, path: &str) -> Option<u64> {
        self.notes.times.get(path.as_bytes())
    }

    /// Whether exactly these lines were remarked, while more was to be said.
    pub fn has_remarked(&self, lines: &str) -> bool {
        self.witness.has_heard(lines)
    }

    /// Whether the file is there and has these bytes.
    pub fn has(&self, path: &str, bytes: &[u8]) -> bool {
        match self.bytes(path) {
            Some(held) => held == bytes,
            None => false,
        }
    }

    /// The length of the finished file in bytes, or 0 if there is no such file.
    pub fn len(&self, path: &str) -> usize {
        match self.bytes(path) {
            Some(held) => held.len(),
            None => 0,
        }
    }

    /// Whether the file is there and has these bytes at this offset.
    pub fn has_at(&self, path: &str, at: usize, bytes: &[u8]) -> bool {
        match self.bytes(path) {
            Some(held) => held.get(at..at.saturating_add(bytes.len())) == Some(bytes),
            None => false,
        }
    }

    /// Whether two files are there and have the same bytes.
    pub fn same(&self, one: &str, other: &str) -> bool {
        match self.bytes(one) {
            Some(held) => self.has(other, held),
            None => false,
        }
    }
}
