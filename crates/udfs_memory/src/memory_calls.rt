//! The system calls on files in memory.

ghost use Rattle.std.proofs.Common.{inl, refl};
ghost use Rattle.std.specs.IoError.{error_kind};
ghost use Rattle.std.specs.Prelude.{◌≡◌, ◌≢◌, ℕ, Err, IfErr, IfOk, IfSome, None, OnErr, OnOk, Some, [], ◌∷◌, false, length, string_bytes, true};
ghost use Rattle.udfs_calls.specs.Lawful.{can_follow};
ghost use Rattle.udfs_calls.specs.Log.{Node, content, held_by, is_folder, node_at};
ghost use Rattle.udfs_calls.specs.Log.Call.{failed};
ghost use Rattle.udfs_memory.specs.Keeping.{node_of, start_of};
ghost use Rattle.udfs_memory.specs.Noted.{call_of};
ghost use Rattle.udfs_memory.specs.Spelling.{device_leads, is_plain, name_leads, spelled};
ghost use Rattle.udfs_memory.specs.Standing.{AreContents, AreContents-prop, AreNodes, AreNodes-prop, IsCount, IsCount-prop, apart, is_lawful, numbers, was_lawful};
ghost use Rattle.udfs_memory.specs.Bodies.{bytes_of};
ghost use Rattle.udfs_memory.specs.Telling.{IsInPlace, IsOther, IsShut, log_of, no_link};

use crate::deeds::{Deed, Outcome};
use crate::descriptor::{MemoryDescriptor, own, stored};
use crate::history::History;
use crate::kept::{
    Found, Kept, StoredFile, content, copied, find, parent, stored_bytes, stored_file,
};
use crate::notes::{Notes, Setting};
use crate::spelling::{is_device, is_plain, spelled};
use std::alloc::{AllocError, Global};
use std::fs::Permissions;
use std::io::{Error, ErrorKind};
use std::os::unix::fs::PermissionsExt;
use std::time::SystemTime;
use udfs_calls::{About, Calls};

/// The system calls on files in memory, of which all is told: what was there when the run began, and each call since. A path that is not spelled in full
/// is read from the run's own folder on; what is made at one is there by that spelling alone. There are no links.
#[derive(Drop)]
pub struct MemoryCalls<'a> {
    alloc: Global,
    stored: &'a [StoredFile],
    setting: Setting,
    notes: &'a Notes,
    kept: Vec<Kept>,
    count: u64,
    history: History,
    ghost nodes: { AreNodes (start_of stored.now) kept.items history.calls } by { AreNodes-prop (start_of stored.now) kept.items history.calls },
    ghost contents: { AreContents kept.items history.calls } by { AreContents-prop kept.items history.calls },
    ghost counted: { IsCount count history.calls } by { IsCount-prop count history.calls },
    ghost lawful: { was_lawful (start_of stored.now) history.calls ≡ true },
}

impl<'a> MemoryCalls<'a> {
    /// The calls on these files, of which none was made yet. What they do is noted too.
    pub fn new(
        alloc: Global,
        stored: &'a [StoredFile],
        setting: Setting,
        notes: &'a Notes,
    ) -> MemoryCalls<'a>
        ensures { ⟦<MemoryCalls<'a> as Calls>⟧.log result ≡ log_of stored.now [] }
    {
        MemoryCalls {
            alloc,
            stored,
            setting,
            notes,
            kept: Vec::new(alloc),
            count: 0,
            history: History::new(),
        }
    }

    /// The files in memory themselves ran out of memory.
    fn want(&self) -> Error
        ensures { error_kind result ≢ ErrorKind.InvalidInput × error_kind result ≢ ErrorKind.NotFound }
    {
        self.notes.want();
        Error::from(ErrorKind::OutOfMemory)
    }

    /// The call failed.
    fn fail<T>(&mut self, deed: &Deed<'_>, error: Error) -> Result<T, Error>
        ensures error { result ≡ Err error }
        ensures calls { self.new.history.calls ≡ failed (call_of deed.now) ∷ self.old.history.calls }
        ensures stored { self.new.stored ≡ self.old.stored }
    {
        self.history = self.history.then(&Outcome::Failed(*deed));
        self.count = self.count.saturating_add(1);
        Err(error)
    }

    /// Notes that it is done, unless it is to fail.
    fn note(&self, deed: &Deed<'_>) -> Result<(), Error>
        ensures { IfErr result (λ error. error_kind error ≢ ErrorKind.InvalidInput) }
    {
        if self.notes.fails(&self.setting) {
            return Err(Error::from(ErrorKind::Other));
        }
        match self.notes.note(self.count, deed) {
            Ok(()) => Ok(()),
            Err(AllocError) => Err(self.want()),
        }
    }

    /// Does it, and keeps it.
    ///
    /// # Errors
    ///
    /// `StorageFull` where no more calls can be counted, `Other` where this one is to fail, and `OutOfMemory`. Nothing is done then.
    fn act(&mut self, deed: &Deed<'_>) -> Result<(), Error>
        requires { can_follow (start_of self.old.stored.now) self.old.history.calls (call_of deed.now) }
        ensures done { OnOk result (self.new.history.calls ≡ call_of deed.now ∷ self.old.history.calls) }
        ensures failed { OnErr result (self.new.history.calls ≡ self.old.history.calls) }
        ensures number { OnOk result (self.old.count ≡ length self.old.history.calls) }
        ensures stored { self.new.stored ≡ self.old.stored }
        ensures kind { IfErr result (λ error. error_kind error ≢ ErrorKind.InvalidInput) }
    {
        if self.count >= u64::MAX {
            return Err(Error::from(ErrorKind::StorageFull));
        }
        if let Err(error) = self.note(deed) {
            return Err(error);
        }
        let number = self.count;
        let Ok(what) = copied(self.alloc, deed) else {
            return Err(self.want());
        };
        let Ok(()) = self.kept.insert(0, Kept { number, what }) else {
            return Err(self.want());
        };
        self.history = self.history.then(&Outcome::Done(*deed));
        self.count += 1;
        Ok(())
    }

    /// Does it, or fails.
    fn try_to(&mut self, deed: &Deed<'_>) -> Result<(), Error>
        requires { can_follow (start_of self.old.stored.now) self.old.history.calls (call_of deed.now) }
        ensures done { OnOk result (self.new.history.calls ≡ call_of deed.now ∷ self.old.history.calls) }
        ensures failed { OnErr result (self.new.history.calls ≡ failed (call_of deed.now) ∷ self.old.history.calls) }
        ensures number { OnOk result (self.old.count ≡ length self.old.history.calls) }
        ensures stored { self.new.stored ≡ self.old.stored }
        ensures kind { IfErr result (λ error. error_kind error ≢ ErrorKind.InvalidInput) }
    {
        match self.act(deed) {
            Ok(()) => Ok(()),
            Err(error) => self.fail(deed, error),
        }
    }

    /// What a path names.
    fn named(&self, path: &str) -> Found
        ensures { node_of result ≡ node_at (start_of self.now.stored.now) self.now.history.calls path.now }
    {
        find(self.stored, &self.kept, path.as_bytes())
    }

    /// What a path leads to, spelled in full.
    fn led(&self, path: &str) -> Result<Found, Error>
        ensures node { IfOk result (λ found. node_of found ≡ node_at (start_of self.now.stored.now) self.now.history.calls (spelled path.now)) }
        ensures kind { IfErr result (λ error. error_kind error ≢ ErrorKind.NotFound) }
        ensures shut { OnErr result (is_plain path.now ≢ true) }
    {
        if is_plain(path.as_bytes()) {
            return Ok(self.named(path));
        }
        match spelled(self.alloc, path) {
            Ok(whole) => Ok(self.named(whole.as_str())),
            Err(error) => {
                if error.kind() == ErrorKind::OutOfMemory {
                    self.notes.want();
                }
                Err(error)
            }
        }
    }

    /// Sees that something can be made at a path: neither it nor what it leads to is there, and its folder is.
    ///
    /// # Errors
    ///
    /// `AlreadyExists`, and `NotFound` where its folder is not there.
    fn see_free(&self, path: &str) -> Result<(), Error>
        ensures { OnOk result (node_at (start_of self.now.stored.now) self.now.history.calls path.now ≡ None) }
    {
        if !matches!(self.named(path), Found::Nothing) {
            return Err(Error::from(ErrorKind::AlreadyExists));
        }
        match self.led(path) {
            Ok(Found::Nothing) => self.see_parent(path),
            Ok(_) => Err(Error::from(ErrorKind::AlreadyExists)),
            Err(error) => Err(error),
        }
    }

    /// Sees that the folder of a path is there.
    fn see_parent(&self, path: &str) -> Result<(), Error> {
        let folder = std::str::from_utf8(parent(path.as_bytes())).unwrap_or("");
        if is_device(path) {
            return Ok(());
        }
        self.see_folder(folder)
    }

    /// Sees that a folder is there, as its path is spelled or where it leads.
    fn see_folder(&self, path: &str) -> Result<(), Error> {
        if self.is_folder(&self.named(path)) {
            return Ok(());
        }
        match self.led(path) {
            Ok(found) if self.is_folder(&found) => Ok(()),
            Ok(_) => Err(Error::from(ErrorKind::NotFound)),
            Err(error) => Err(error),
        }
    }

    /// Whether it is a folder.
    fn is_folder(&self, found: &Found) -> bool
        ensures { is_folder (node_of found.now) ≡ true → result ≡ true }
    {
        match found {
            Found::There(number) => match stored_file(self.stored, *number) {
                Some(file) => file.is_folder,
                None => false,
            },
            Found::Folder(_) => true,
            Found::Nothing | Found::Made(_) => false,
        }
    }

    /// Whether it is a regular file, as far as that is known.
    fn is_file(&self, found: &Found) -> bool
        ensures other { result ≢ true → IsOther self.now.stored.now found.now }
        ensures folder { is_folder (node_of found.now) ≡ true → result ≡ false }
    {
        match found {
            Found::There(number) => stored_bytes(self.stored, *number).is_some(),
            Found::Made(_) => true,
            Found::Nothing | Found::Folder(_) => false,
        }
    }

    /// Whether what a path names is a device that was there when the run began.
    fn is_stored_device(&self, path: &str) -> bool {
        match self.named(path) {
            Found::There(number) => match stored_file(self.stored, number) {
                Some(file) => !file.is_file && !file.is_folder,
                None => false,
            },
            Found::Nothing | Found::Made(_) | Found::Folder(_) => false,
        }
    }

    /// Opens to be read what was there when the run began: a file or a device.
    fn read_stored(&self, number: usize) -> Result<MemoryDescriptor<'a>, Error>
        ensures front { IfOk result (λ file. file.at ≡ 0) }
    {
        match stored_file(self.stored, number) {
            Some(file) if !file.is_folder => Ok(MemoryDescriptor::reading(
                self.alloc,
                stored(&file.bytes),
                self.setting.inputs,
            )),
            _ => Err(Error::from(ErrorKind::IsADirectory)),
        }
    }

    /// Whether something is at a path, as it is spelled or where it leads.
    fn is_there(&self, path: &str) -> bool {
        !matches!(self.named(path), Found::Nothing) || !matches!(self.led(path), Ok(Found::Nothing))
    }

    /// What was written in place is noted: of it the log tells nothing.
    fn finish(&self, file: &MemoryDescriptor<'_>) -> Result<(), Error>
        ensures { IfErr result (λ error. error_kind error ≢ ErrorKind.InvalidInput) }
    {
        if self.notes.fails(&self.setting) {
            return Err(Error::from(ErrorKind::Other));
        }
        let Some(number) = file.place() else {
            return Ok(());
        };
        match self.notes.note(number, &Deed::Synced(number, file.bytes())) {
            Ok(()) => Ok(()),
            Err(AllocError) => Err(self.want()),
        }
    }

    /// How many bytes of it are known.
    fn size_of(&self, found: &Found) -> u64
        ensures { IfSome (held_by (content (start_of self.now.stored.now) self.now.history.calls) (node_of found.now)) (λ held. IfSome held (λ all. result ≡ length all)) }
    {
        match found {
            Found::There(number) => match stored_bytes(self.stored, *number) {
                Some(bytes) => bytes.len() as u64,
                None => 0,
            },
            Found::Made(number) => match content(&self.kept, *number) {
                Some(bytes) => bytes.len() as u64,
                None => 0,
            },
            Found::Nothing | Found::Folder(_) => 0,
        }
    }
}

/// A time in microseconds since 1970.
fn micros_of(time: SystemTime) -> u64 {
    match time.duration_since(SystemTime::UNIX_EPOCH) {
        Ok(since) => u64::try_from(since.as_micros()).unwrap_or(u64::MAX),
        Err(_) => 0,
    }
}

/// The numbers of the device of what was found, and of it on that device.
fn numbers_of(found: &Found) -> (u64, u64)
    ensures { (node : Node) → node_of found.now ≡ Some node → numbers node ≡ result }
{
    match found {
        Found::Nothing => (0, 0),
        Found::There(number) => (0, *number as u64),
        Found::Made(number) => (1, *number),
        Found::Folder(number) => (2, *number),
    }
}

impl<'a> Calls for MemoryCalls<'a> {
    type File = MemoryDescriptor<'a>;

    ghost tells = { Unit {0} };

    ghost log = { λ c. log_of c.stored.now c.history.calls };

    ghost real = { λ _. spelled };

    ghost link_at = { λ _ _. None };

    ghost in_place = { λ c. IsInPlace (log_of c.stored.now c.history.calls) };

    ghost shut = { λ c. IsShut c.stored.now (log_of c.stored.now c.history.calls) };

    ghost identity = { λ _. numbers };

    ghost told = { λ _ c. (record { start = start_of c.stored.now; calls = c.history.calls }, refl) };

    ghost files_told = { λ _ f. (record { bytes = bytes_of f.body; at = f.at }, refl) };

    ghost told_or_silent = { inl (λ f. (record { bytes = bytes_of f.body; at = f.at }, refl)) };

    ghost lawful = { λ c. is_lawful (start_of c.stored.now) c.history.calls c.lawful };

    ghost told_apart = { λ _ c p q a b one two same. apart a b same };

    ghost link_leads = { λ _ c p text bad. absurd (no_link text bad) };

    ghost name_leads = { λ _ c p part none. name_leads p part };

    ghost device_leads = { λ _ c p is. (device_leads p is, inl is) };

    fn open(&self, path: &str) -> Result<MemoryDescriptor<'a>, Error> {
        match self.led(path) {
            Ok(Found::There(number)) => match stored_bytes(self.stored, number) {
                Some(bytes) => Ok(MemoryDescriptor::reading(
                    self.alloc,
                    stored(bytes),
                    self.setting.inputs,
                )),
                None => self.read_stored(number),
            },
            Ok(Found::Made(number)) => match content(&self.kept, number) {
                Some(bytes) => Ok(MemoryDescriptor::reading(
                    self.alloc,
                    own(bytes.to_vec(self.alloc)?),
                    self.setting.inputs,
                )),
                None => Err(Error::from(ErrorKind::ResourceBusy)),
            },
            Ok(Found::Folder(_)) => Err(Error::from(ErrorKind::IsADirectory)),
            Ok(Found::Nothing) => Err(Error::from(ErrorKind::NotFound)),
            Err(error) => Err(error),
        }
    }

    #[tactic(auto, using(crate::specs::Telling::other_is_shut))]
    fn try_to_write(&self, path: &str) -> Result<(), Error> {
        match self.led(path) {
            Ok(Found::Nothing) => Err(Error::from(ErrorKind::NotFound)),
            Ok(found) if self.is_folder(&found) && !self.is_file(&found) => {
                Err(Error::from(ErrorKind::IsADirectory))
            }
            Ok(_) => Ok(()),
            Err(error) => Err(error),
        }
    }

    #[tactic(auto, using(crate::specs::Telling::other_in_place))]
    fn about(&self, path: &str) -> Result<About, Error> {
        let found = match self.led(path) {
            Ok(Found::Nothing) => return Err(Error::from(ErrorKind::NotFound)),
            Ok(found) => found,
            Err(error) => return Err(error),
        };
        let (device, inode) = numbers_of(&found);
        Ok(About {
            is_file: self.is_file(&found) && !is_device(path),
            is_folder: self.is_folder(&found),
            size: self.size_of(&found),
            device,
            inode,
            modified: None,
            permissions: Permissions::from_mode(0o644),
        })
    }

    fn link(&self, _alloc: Global, path: &str) -> Result<String, Error> {
        match self.led(path) {
            Ok(Found::Nothing) => Err(Error::from(ErrorKind::NotFound)),
            _ => Err(Error::from(ErrorKind::InvalidInput)),
        }
    }

    fn real_path(&self, alloc: Global, path: &str) -> Result<String, Error> {
        match self.led(path) {
            Ok(Found::Nothing) => Err(Error::from(ErrorKind::NotFound)),
            Ok(_) => whole_path(alloc, path),
            Err(error) => Err(error),
        }
    }

    fn create_new(&mut self, path: &str) -> Result<MemoryDescriptor<'a>, Error> {
        let deed = Deed::Created(path);
        match self.see_free(path) {
            Ok(()) => {}
            Err(error) => return self.fail(&deed, error),
        }
        let number = self.count;
        self.notes.times.change(path.as_bytes());
        match self.try_to(&deed) {
            Ok(()) => Ok(MemoryDescriptor::writing(
                self.alloc,
                Some(number),
                None,
                self.setting.outputs,
            )),
            Err(error) => Err(error),
        }
    }

    fn open_in_place(&mut self, path: &str) -> Result<MemoryDescriptor<'a>, Error> {
        let deed = Deed::Opened(path);
        if !is_device(path) && !self.is_stored_device(path) {
            return self.fail(&deed, Error::from(ErrorKind::PermissionDenied));
        }
        let number = self.count;
        match self.try_to(&deed) {
            Ok(()) => Ok(MemoryDescriptor::writing(
                self.alloc,
                None,
                Some(number),
                self.setting.outputs,
            )),
            Err(error) => Err(error),
        }
    }

    fn sync(&mut self, file: MemoryDescriptor<'a>) -> Result<(), Error> {
        match file.number() {
            Some(number) => self.act(&Deed::Synced(number, file.bytes())),
            None => self.finish(&file),
        }
    }

    fn sync_folder(&mut self, path: &str) -> Result<(), Error> {
        let deed = Deed::FolderSynced(path);
        match self.see_folder(path) {
            Ok(()) => self.try_to(&deed),
            Err(_) => self.fail(&deed, Error::from(ErrorKind::NotFound)),
        }
    }

    fn rename(&mut self, from: &str, to: &str) -> Result<(), Error> {
        let deed = Deed::Renamed(from, to);
        if matches!(self.named(from), Found::Nothing | Found::Folder(_)) {
            return self.fail(&deed, Error::from(ErrorKind::NotFound));
        }
        if matches!(self.named(to), Found::Folder(_)) {
            return self.fail(&deed, Error::from(ErrorKind::IsADirectory));
        }
        match self.see_parent(to) {
            Ok(()) => {}
            Err(error) => return self.fail(&deed, error),
        }
        self.notes.times.change(from.as_bytes());
        self.notes.times.change(to.as_bytes());
        self.try_to(&deed)
    }

    fn remove(&mut self, path: &str) -> Result<(), Error> {
        let deed = Deed::Removed(path);
        match self.named(path) {
            Found::Nothing => return self.fail(&deed, Error::from(ErrorKind::NotFound)),
            Found::Folder(_) => return self.fail(&deed, Error::from(ErrorKind::IsADirectory)),
            Found::There(_) | Found::Made(_) => {}
        }
        self.notes.times.change(path.as_bytes());
        self.try_to(&deed)
    }

    fn make_folder(&mut self, path: &str) -> Result<(), Error> {
        let deed = Deed::FolderMade(path);
        match self.see_free(path) {
            Ok(()) => {}
            Err(error) => return self.fail(&deed, error),
        }
        self.notes.times.change(path.as_bytes());
        self.try_to(&deed)
    }

    /// Nobody reads them.
    fn set_permissions(&self, _path: &str, _permissions: Permissions) -> Result<(), Error> {
        Ok(())
    }

    fn set_modified(&self, path: &str, time: SystemTime) -> Result<(), Error> {
        if path == self.setting.timeless || !self.is_there(path) {
            return Err(Error::from(ErrorKind::NotFound));
        }
        match self.notes.times.set(path.as_bytes(), micros_of(time)) {
            Ok(()) => Ok(()),
            Err(AllocError) => Err(self.want()),
        }
    }
}

/// A path that leads to something, spelled in full.
fn whole_path(alloc: Global, path: &str) -> Result<String, Error>
    ensures value { IfOk result (λ whole. string_bytes whole ≡ spelled path.now) }
    ensures kind { IfErr result (λ error. is_plain path.now ≡ true → error_kind error ≡ ErrorKind.OutOfMemory) }
{
    if !is_plain(path.as_bytes()) {
        return spelled(alloc, path);
    }
    match String::from_str(alloc, path) {
        Ok(whole) => Ok(whole),
        Err(AllocError) => Err(Error::from(ErrorKind::OutOfMemory)),
    }
}
