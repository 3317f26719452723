//! The system calls on files that the program makes, one method each, and what each does to a disk that can crash.

ghost use Rattle.std.specs.Prelude.{◌≡◌, ◌≢◌, ◌⊎◌, ℕ, ◌≤◌, ◌<◌, All, List, Option, Some, None, [], ◌∷◌, length, IfOk, IfErr, IfSome, OnOk, OnErr, true, false, string_bytes};
ghost use Rattle.std.specs.IoError.{error_kind};
ghost use Rattle.udfs_calls.specs.Files.{Descriptor, ReadsAt, ReadsOn, IsAtFront, IsEmpty, bytes_of, cut_to, read_on, went_to, wrote_on};
ghost use Rattle.udfs_calls.specs.Log.{IsOpen, Log, Node, Names, NamesSome, after, after_sync, holds, names_folder, node_at, number_now};
ghost use Rattle.udfs_calls.specs.Lawful.{IsLawfulLog};
ghost use Rattle.udfs_calls.specs.Log.Call.{created, opened, renamed, removed, folder_made, folder_synced, failed};
ghost use Rattle.udfs_calls.specs.Paths.{IsDevice, IsPart, joined, last, parent};

use std::alloc::Global;
use std::fs::Permissions;
use std::io::{Error, ErrorKind};
use std::time::SystemTime;

/// What the system says of a file, a folder or a device.
#[derive(Debug, Drop)]
pub struct About {
    /// Whether it is a regular file: its bytes are kept.
    pub is_file: bool,
    /// Whether it is a folder.
    pub is_folder: bool,
    /// How many bytes a regular file has.
    pub size: u64,
    /// The number of the device that it is on.
    pub device: u64,
    /// Its number on that device.
    pub inode: u64,
    /// When its bytes were last changed, where that is known.
    pub modified: Option<SystemTime>,
    /// Who may read, write and run it.
    pub permissions: Permissions,
}

/// An opened file, folder, device or pipe: a descriptor. It is closed where it is dropped.
///
/// What is read does not change while it is open: a file is written by one descriptor alone.
pub trait Opened {
    /// Its bytes, those that it had when it was opened with those that were written since, and its position, where they are known.
    ghost state: { Self → Option Descriptor };

    /// The number of a file that was made new by this run: how many calls were made before. `None` where it was not, or that is not known.
    ghost number: { Self → Option ℕ };

    /// Reads from the position on into the front of the buffer (`read`).
    ///
    /// # Errors
    ///
    /// As the system says. Then the position is where it was.
    fn read(&mut self, buf: &mut [u8]) -> Result<usize, Error>
        ensures bound { IfOk result (λ n. n ≤ length buf.new) }
        ensures value { ReadsOn (state self.old) buf.new result }
        ensures moves { state self.new ≡ read_on result (state self.old) }
        ensures number { number self.new ≡ number self.old };

    /// Reads from this position on into the front of the buffer (`pread`). The file's own position stays.
    ///
    /// # Errors
    ///
    /// As the system says.
    fn read_at(&self, at: u64, buf: &mut [u8]) -> Result<usize, Error>
        ensures bound { IfOk result (λ n. n ≤ length buf.new) }
        ensures value { ReadsAt (bytes_of (state self.now)) at buf.new result };

    /// Writes a front of the bytes at the position (`write`).
    ///
    /// # Errors
    ///
    /// As the system says. No byte was written then, and the position is where it was.
    fn write(&mut self, buf: &[u8]) -> Result<usize, Error>
        ensures bound { IfOk result (λ n. n ≤ length buf.now) }
        ensures value { state self.new ≡ wrote_on result buf.now (state self.old) }
        ensures number { number self.new ≡ number self.old };

    /// Goes to this position, which may be beyond the end (`lseek` by `SEEK_SET`).
    ///
    /// # Errors
    ///
    /// As the system says. The position is where it was.
    fn go_to(&mut self, to: u64) -> Result<(), Error>
        ensures moves { OnOk result (state self.new ≡ went_to to (state self.old)) }
        ensures stays { OnErr result (state self.new ≡ state self.old) }
        ensures number { number self.new ≡ number self.old };

    /// Goes to the end, and returns its position (`lseek` by `SEEK_END`).
    ///
    /// # Errors
    ///
    /// As the system says. The position is where it was.
    fn go_to_end(&mut self) -> Result<u64, Error>
        ensures moves { IfOk result (λ end. state self.new ≡ went_to end (state self.old)) }
        ensures value { IfOk result (λ end. IfSome (state self.old) (λ d. end ≡ length d.bytes)) }
        ensures stays { OnErr result (state self.new ≡ state self.old) }
        ensures number { number self.new ≡ number self.old };

    /// Gives the file this size: cuts it, or adds zeros (`ftruncate`).
    ///
    /// # Errors
    ///
    /// As the system says. It is not specified which size it has then.
    fn set_len(&mut self, size: u64) -> Result<(), Error>
        ensures bytes { OnOk result (state self.new ≡ cut_to size (state self.old)) }
        ensures number { number self.new ≡ number self.old };

    /// What the system says of it (`fstat`).
    ///
    /// # Errors
    ///
    /// As the system says.
    fn about(&self) -> Result<About, Error>
        ensures size { IfOk result (λ about. IfSome (state self.now) (λ d. about.is_file ≡ true → about.size ≡ length d.bytes)) };

    /// Its bytes are bytes.
    ghost are_bytes: { (file : Self) → IfSome (state file) (λ d. All (λ byte. byte < 256) d.bytes) };
}

/// The system calls on files that the program makes. The machine's are [`Host`](crate::Host).
///
/// A path is a name without links, and two paths are two names, but where links are followed. What is said of a crash holds for the end of
/// the process at any moment, and for a power cut. Nothing else changes the disk meanwhile.
pub trait Calls {
    /// What was opened.
    type File: Opened + Drop;

    /// Whether it is known what these calls do. Of the machine's it is not: no contract can say what the system keeps.
    ghost tells: { Type 0 };

    /// What was done to the disk, where that is known.
    ghost log: { Self → Option Log };

    /// Where a path leads, every link followed.
    ghost real: { Self → List ℕ → List ℕ };

    /// What the link says that a path names, if it names one.
    ghost link_at: { Self → List ℕ → Option (List ℕ) };

    /// What a path leads to may be no regular file.
    ghost in_place: { Self → List ℕ → Type 0 };

    /// A call on what this path leads to may fail.
    ghost shut: { Self → List ℕ → Type 0 };

    /// The numbers of a file's device and of the file on it.
    ghost identity: { Self → Node → ℕ × ℕ };

    /// Opens what a path leads to, to be read from its beginning (`open` with `O_RDONLY`).
    ///
    /// # Errors
    ///
    /// As the system says.
    fn open(&self, path: &str) -> Result<Self::File, Error>
        ensures bytes { IfOk result (λ file. IfSome (holds (log self.now) (real self.now path.now)) (λ held. IfSome held (λ all. bytes_of (Self.File.state file) ≡ Some all))) }
        ensures front { IfOk result (λ file. IsAtFront (Self.File.state file)) }
        ensures there { OnOk result (NamesSome (log self.now) (real self.now path.now)) }
        ensures shut { OnErr result (shut self.now path.now) };

    /// Opens what a path leads to, to be written, and changes nothing (`open` with `O_WRONLY`): it is closed at once.
    ///
    /// # Errors
    ///
    /// As the system says.
    fn try_to_write(&self, path: &str) -> Result<(), Error>
        ensures shut { OnErr result (shut self.now path.now) };

    /// What the system says of what a path leads to (`stat`).
    ///
    /// # Errors
    ///
    /// As the system says: `NotFound` where it leads to nothing.
    fn about(&self, path: &str) -> Result<About, Error>
        ensures there { OnOk result (NamesSome (log self.now) (real self.now path.now)) }
        ensures other { IfOk result (λ about. about.is_file ≢ true → in_place self.now path.now) }
        ensures folder { IfOk result (λ about. names_folder (log self.now) (real self.now path.now) ≡ true → about.is_folder ≡ true × about.is_file ≡ false) }
        ensures size { IfOk result (λ about. IfSome (holds (log self.now) (real self.now path.now)) (λ held. IfSome held (λ all. about.is_file ≡ true → about.size ≡ length all))) }
        ensures same { IfOk result (λ about. (node : Node) → Names (log self.now) (real self.now path.now) (Some node) → tells → identity self.now node ≡ (about.device, about.inode)) }
        ensures absent { IfErr result (λ error. error_kind error ≡ ErrorKind.NotFound → Names (log self.now) (real self.now path.now) None) }
        ensures shut { IfErr result (λ error. error_kind error ≢ ErrorKind.NotFound → shut self.now path.now) };

    /// What the link says that a path names (`readlink`).
    ///
    /// # Errors
    ///
    /// As the system says: `InvalidInput` where it names what is no link, and `NotFound` where it names nothing.
    fn link(&self, alloc: Global, path: &str) -> Result<String, Error>
        ensures text { IfOk result (λ text. tells → link_at self.now path.now ≡ Some (string_bytes text)) }
        ensures other { IfErr result (λ error. error_kind error ≡ ErrorKind.InvalidInput → link_at self.now path.now ≡ None) }
        ensures absent { IfErr result (λ error. error_kind error ≡ ErrorKind.NotFound → link_at self.now path.now ≡ None) };

    /// The path that a path leads to (`realpath`).
    ///
    /// # Errors
    ///
    /// As the system says: `OutOfMemory` where memory ran out.
    fn real_path(&self, alloc: Global, path: &str) -> Result<String, Error>
        ensures value { IfOk result (λ real_path. tells → string_bytes real_path ≡ real self.now path.now) }
        ensures shut { IfErr result (λ error. error_kind error ≢ ErrorKind.OutOfMemory → shut self.now path.now) };

    /// Makes a file to be written, at a path that nothing has (`open` with `O_CREAT` and `O_EXCL`).
    ///
    /// # Errors
    ///
    /// As the system says: also where something has the path.
    fn create_new(&mut self, path: &str) -> Result<Self::File, Error>
        ensures absent { OnOk result (Names (log self.old) path.now None) }
        ensures made { OnOk result (log self.new ≡ after (created path.now) (log self.old)) }
        ensures failed { OnErr result (log self.new ≡ after (failed (created path.now)) (log self.old)) }
        ensures number { IfOk result (λ file. Self.File.number file ≡ number_now (log self.old)) }
        ensures empty { IfOk result (λ file. IsEmpty (Self.File.state file)) }
        ensures front { IfOk result (λ file. IsAtFront (Self.File.state file)) }
        ensures link { OnOk result (link_at self.new path.now ≡ None) }
        ensures real { real self.new ≡ real self.old };

    /// Opens what a path names to be written, and cuts it where it is a regular file (`open` with `O_CREAT` and `O_TRUNC`): for what is no regular
    /// file. It counts as a new file with nothing in it, of which no sync tells anything.
    ///
    /// # Errors
    ///
    /// As the system says.
    fn open_in_place(&mut self, path: &str) -> Result<Self::File, Error>
        ensures made { OnOk result (log self.new ≡ after (opened path.now) (log self.old)) }
        ensures failed { OnErr result (log self.new ≡ after (failed (opened path.now)) (log self.old)) }
        ensures number { IfOk result (λ file. Self.File.number file ≡ None) }
        ensures empty { IfOk result (λ file. IsEmpty (Self.File.state file)) }
        ensures front { IfOk result (λ file. IsAtFront (Self.File.state file)) }
        ensures real { real self.new ≡ real self.old };

    /// The bytes of an opened file are on the disk, and it is closed (`fsync`, and `close`). Its names may not be there yet. It says of which file
    /// of the disk: the one of its number.
    ///
    /// # Errors
    ///
    /// As the system says. `InvalidInput` where it can not be synced at all, as a pipe: that needs none.
    fn sync(&mut self, file: Self::File) -> Result<(), Error>
        requires open { IsOpen (log self.old) (Self.File.number file) }
        ensures done { OnOk result (log self.new ≡ after_sync (Self.File.number file) (bytes_of (Self.File.state file)) (log self.old)) }
        ensures needless { IfErr result (λ error. error_kind error ≡ ErrorKind.InvalidInput → log self.new ≡ after_sync (Self.File.number file) (bytes_of (Self.File.state file)) (log self.old)) }
        ensures failed { IfErr result (λ error. error_kind error ≢ ErrorKind.InvalidInput → log self.new ≡ log self.old) }
        ensures links { (q : List ℕ) → link_at self.new q ≡ link_at self.old q }
        ensures real { real self.new ≡ real self.old };

    /// The names in the folder of this path are on the disk (`open`, and `fsync`).
    ///
    /// # Errors
    ///
    /// As the system says. `InvalidInput` where it can not be synced at all: that needs none.
    fn sync_folder(&mut self, path: &str) -> Result<(), Error>
        ensures done { OnOk result (log self.new ≡ after (folder_synced path.now) (log self.old)) }
        ensures needless { IfErr result (λ error. error_kind error ≡ ErrorKind.InvalidInput → log self.new ≡ after (folder_synced path.now) (log self.old)) }
        ensures failed { IfErr result (λ error. error_kind error ≢ ErrorKind.InvalidInput → log self.new ≡ after (failed (folder_synced path.now)) (log self.old)) }
        ensures real { real self.new ≡ real self.old };

    /// Gives a file another path, in the place of what is there (`rename`).
    ///
    /// # Errors
    ///
    /// As the system says.
    fn rename(&mut self, from: &str, to: &str) -> Result<(), Error>
        ensures done { OnOk result (log self.new ≡ after (renamed from.now to.now) (log self.old)) }
        ensures failed { OnErr result (log self.new ≡ after (failed (renamed from.now to.now)) (log self.old)) }
        ensures links { OnErr result ((q : List ℕ) → link_at self.new q ≡ link_at self.old q) }
        ensures real { link_at self.old from.now ≡ None → link_at self.old to.now ≡ None → real self.new ≡ real self.old };

    /// Removes the name of a file (`unlink`).
    ///
    /// # Errors
    ///
    /// As the system says.
    fn remove(&mut self, path: &str) -> Result<(), Error>
        ensures done { OnOk result (log self.new ≡ after (removed path.now) (log self.old)) }
        ensures failed { OnErr result (log self.new ≡ after (failed (removed path.now)) (log self.old)) }
        ensures real { link_at self.old path.now ≡ None → real self.new ≡ real self.old };

    /// Makes a folder, at a path that nothing has (`mkdir`).
    ///
    /// # Errors
    ///
    /// As the system says: also where something has the path.
    fn make_folder(&mut self, path: &str) -> Result<(), Error>
        ensures absent { OnOk result (Names (log self.old) path.now None) }
        ensures done { OnOk result (log self.new ≡ after (folder_made path.now) (log self.old)) }
        ensures failed { OnErr result (log self.new ≡ after (failed (folder_made path.now)) (log self.old)) }
        ensures real { real self.new ≡ real self.old };

    /// Sets who may read, write and run what a path leads to (`chmod`). It changes no byte.
    ///
    /// # Errors
    ///
    /// As the system says.
    fn set_permissions(&self, path: &str, permissions: Permissions) -> Result<(), Error>;

    /// Sets the time of the last change of what a path leads to (`open`, and `futimens`). It changes no byte.
    ///
    /// # Errors
    ///
    /// As the system says.
    fn set_modified(&self, path: &str, time: SystemTime) -> Result<(), Error>;

    /// With `tells`, it is known what was done to the disk.
    ghost told: { tells → (calls : Self) → (l : Log) × (log calls ≡ Some l) };

    /// With `tells`, it is known of all that is opened what its bytes are.
    ghost files_told: { tells → (file : Self.File) → (d : Descriptor) × (Self.File.state file ≡ Some d) };

    /// It is known of all that is opened what its bytes are, or of nothing.
    ghost told_or_silent: { ((file : Self.File) → (d : Descriptor) × (Self.File.state file ≡ Some d)) ⊎ ((file : Self.File) → Self.File.state file ≡ None) };

    /// Each call could be made when it was.
    ghost lawful: { (calls : Self) → IsLawfulLog (log calls) };

    /// Two files have not the same numbers.
    ghost told_apart: { tells → (calls : Self) (p q : List ℕ) (a b : Node) → Names (log calls) p (Some a) → Names (log calls) q (Some b) → identity calls a ≡ identity calls b → a ≡ b };

    /// A link leads where what it says leads, from the folder that it is in.
    ghost link_leads: { tells → (calls : Self) (p text : List ℕ) → link_at calls p ≡ Some text → real calls p ≡ real calls (joined (parent p) text) };

    /// What is no link is in the folder that its own folder leads to, by its own name.
    ghost name_leads: { tells → (calls : Self) (p : List ℕ) → IsPart (last p) → link_at calls p ≡ None → real calls p ≡ joined (real calls (parent p)) (last p) };

    /// A device is not followed, and is written in place.
    ghost device_leads: { tells → (calls : Self) (p : List ℕ) → IsDevice p → (real calls p ≡ p) × in_place calls p };
}
