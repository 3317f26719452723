//! What files in memory keep: those that were there when the run began, and the calls since that did something.

ghost use Rattle.std.specs.Prelude.{◌≡◌, IfOk, [], bytes_eq};
ghost use Rattle.udfs_memory.specs.Keeping.{bytes_in, call_in, content_in, found, has_name, node_of, option_now, start_of};
ghost use Rattle.udfs_memory.specs.Noted.{call_of};

use crate::deeds::Deed;
use std::alloc::{AllocError, Global};

/// A file, a folder or a device that is there when the run begins.
#[derive(Drop)]
pub struct StoredFile {
    /// Its path, spelled in full: from the root, or from `./` on.
    pub path: String,
    /// A second path of the same file, if it has one: a hard link.
    pub twin: Option<String>,
    /// All its bytes, or what is read from the device.
    pub bytes: Vec<u8>,
    /// Whether it is a regular file.
    pub is_file: bool,
    /// Whether it is a folder.
    pub is_folder: bool,
    /// Whether it is a file that was not synced.
    pub is_open: bool,
    /// What a crash leaves there that takes all that was not synced with its folder.
    pub left: Option<Vec<u8>>,
}

/// What a call did.
#[derive(Drop)]
pub(crate) enum What {
    /// A new file is at a path.
    Created(Vec<u8>),
    /// What is at a path is written in place.
    Opened(Vec<u8>),
    /// The new file of this number has these bytes.
    Synced(u64, Vec<u8>),
    /// The file of the first path is at the second.
    Renamed(Vec<u8>, Vec<u8>),
    /// The path names nothing.
    Removed(Vec<u8>),
    /// A new folder is at a path.
    FolderMade(Vec<u8>),
    /// The names in a folder are on the disk.
    FolderSynced(Vec<u8>),
}

/// A call that did something, and how many calls were made before.
#[derive(Drop)]
pub(crate) struct Kept {
    pub(crate) number: u64,
    pub(crate) what: What,
}

/// What a path names.
#[derive(Clone, Copy)]
pub(crate) enum Found {
    /// Nothing.
    Nothing,
    /// The file of this number among those that were there when the run began.
    There(usize),
    /// The file that the call of this number made.
    Made(u64),
    /// The folder that the call of this number made.
    Folder(u64),
}

fn is_same(a: &[u8], b: &[u8]) -> bool
    ensures { result ≡ bytes_eq a.now b.now }
{
    a == b
}

/// Whether a path is one of the names of a file.
fn has_name(file: &StoredFile, path: &[u8]) -> bool
    ensures { result ≡ has_name file.now path.now }
{
    if is_same(path, file.path.as_bytes()) {
        return true;
    }
    match &file.twin {
        Some(twin) => is_same(path, twin.as_bytes()),
        None => false,
    }
}

/// The file of this path among those that were there when the run began.
fn stored_at(stored: &[StoredFile], path: &[u8]) -> Found
    ensures { node_of result ≡ found (start_of stored.now) [] path.now }
{
    match stored {
        [] => Found::Nothing,
        [file, rest @ ..] => {
            if has_name(file, path) {
                return Found::There(rest.len());
            }
            stored_at(rest, path)
        }
    }
}

/// What a path names.
pub(crate) fn find(stored: &[StoredFile], kept: &[Kept], path: &[u8]) -> Found
    ensures { node_of result ≡ found (start_of stored.now) kept.now path.now }
{
    match kept {
        [] => stored_at(stored, path),
        [kept, earlier @ ..] => match &kept.what {
            What::Created(q) | What::Opened(q) => {
                if is_same(path, q) {
                    return Found::Made(kept.number);
                }
                find(stored, earlier, path)
            }
            What::FolderMade(q) => {
                if is_same(path, q) {
                    return Found::Folder(kept.number);
                }
                find(stored, earlier, path)
            }
            What::Renamed(from, to) => {
                if is_same(path, to) {
                    return find(stored, earlier, from);
                }
                if is_same(path, from) {
                    return Found::Nothing;
                }
                find(stored, earlier, path)
            }
            What::Removed(q) => {
                if is_same(path, q) {
                    return Found::Nothing;
                }
                find(stored, earlier, path)
            }
            What::Synced(_, _) | What::FolderSynced(_) => find(stored, earlier, path),
        },
    }
}

/// The bytes of the file of this number among those that were there when the run began.
pub(crate) fn stored_bytes<'a>(stored: &'a [StoredFile], number: usize) -> Option<&'a [u8]>
    ensures { option_now result ≡ bytes_in stored.now number }
{
    match stored {
        [] => None,
        [file, rest @ ..] => {
            if number == rest.len() {
                if file.is_file {
                    return Some(&file.bytes);
                }
                return None;
            }
            stored_bytes(rest, number)
        }
    }
}

/// The file of this number among those that were there when the run began.
pub(crate) fn stored_file<'a>(stored: &'a [StoredFile], number: usize) -> Option<&'a StoredFile> {
    stored.iter().rev().nth(number)
}

/// The bytes of the new file of this number, once it was synced.
pub(crate) fn content<'a>(kept: &'a [Kept], number: u64) -> Option<&'a [u8]>
    ensures { option_now result ≡ content_in kept.now number }
{
    match kept {
        [] => None,
        [kept, earlier @ ..] => {
            if let What::Synced(other, bytes) = &kept.what {
                if number == *other {
                    return Some(bytes);
                }
            }
            content(earlier, number)
        }
    }
}

/// A copy of what a call does.
pub(crate) fn copied(alloc: Global, deed: &Deed<'_>) -> Result<What, AllocError>
    ensures { IfOk result (λ what. call_in what ≡ call_of deed.now) }
{
    Ok(match deed {
        Deed::Created(path) => What::Created(path.as_bytes().to_vec(alloc)?),
        Deed::Opened(path) => What::Opened(path.as_bytes().to_vec(alloc)?),
        Deed::Synced(number, bytes) => What::Synced(*number, bytes.to_vec(alloc)?),
        Deed::Renamed(from, to) => What::Renamed(
            from.as_bytes().to_vec(alloc)?,
            to.as_bytes().to_vec(alloc)?,
        ),
        Deed::Removed(path) => What::Removed(path.as_bytes().to_vec(alloc)?),
        Deed::FolderMade(path) => What::FolderMade(path.as_bytes().to_vec(alloc)?),
        Deed::FolderSynced(path) => What::FolderSynced(path.as_bytes().to_vec(alloc)?),
    })
}

/// The path of the folder that a path is in.
pub(crate) fn parent(path: &[u8]) -> &[u8] {
    match path.iter().rposition(|byte| *byte == b'/') {
        Some(0) => b"/",
        Some(at) => path.get(..at).unwrap_or(&[]),
        None => b".",
    }
}

/// Whether the name of a folder is on the disk: it was there when the run began, or its own folder was synced since it was made, when the name of that one
/// was on the disk.
pub(crate) fn is_named(kept: &[Kept], folder: &[u8]) -> bool {
    match kept {
        [] => true,
        [kept, earlier @ ..] => match &kept.what {
            What::FolderMade(made) if is_same(made, folder) => false,
            What::FolderSynced(above) if is_same(parent(folder), above) => {
                is_named(earlier, above) || is_named(earlier, folder)
            }
            _ => is_named(earlier, folder),
        },
    }
}
