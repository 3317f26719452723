//! The parts of a path, as the machine reads it.

ghost use Rattle.std.specs.Prelude.{◌≡◌, ◌↔◌, IfOk, IsTrue, string_bytes};
ghost use Rattle.udfs_calls.specs.Paths.{IsDevice, IsPart, joined, last, parent};

use std::alloc::{AllocError, Global};

/// A path's folder, and the name in it.
pub(crate) fn split(path: &str) -> (&str, &str)
    ensures folder { result.0.now ≡ parent path.now }
    ensures name { result.1.now ≡ last path.now }
{
    match path.rsplit_once('/') {
        Some((folder, name)) if folder.is_empty() => ("/", name),
        Some((folder, name)) => (folder, name),
        None => (".", path),
    }
}

/// The path of a name in a folder. A name that begins with `/` is that path itself.
pub(crate) fn name_in(alloc: Global, folder: &str, name: &str) -> Result<String, AllocError>
    ensures { IfOk result (λ path. string_bytes path ≡ joined folder.now name.now) }
{
    if name.starts_with('/') {
        return String::from_str(alloc, name);
    }
    let mut path = String::from_str(alloc, folder)?;
    if folder != "/" {
        path.push('/')?;
    }
    path.push_str(name)?;
    Ok(path)
}

/// Whether a name leads on from its folder to what is in it.
pub(crate) fn is_part(name: &str) -> bool
    ensures { IsTrue result → IsPart name.now }
{
    if name == "" {
        return false;
    }
    if name == "." {
        return false;
    }
    if name == ".." {
        return false;
    }
    true
}

/// Whether what is at the path is a device or an opened file by the name alone, as `/dev/stdout` is.
pub(crate) fn is_device(path: &str) -> bool
    ensures { IsTrue result ↔ IsDevice path.now }
{
    path.starts_with("/proc/") || (path.starts_with("/dev/") && !path.starts_with("/dev/shm/"))
}
