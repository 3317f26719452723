//! Paths as they are spelled in full: from the root, or from the run's own folder on.

ghost use Rattle.std.specs.Prelude.{◌≡◌, ◌≢◌, ◌↔◌, ◌++◌, IfOk, IfErr, IsTrue, codes, string_bytes};
ghost use Rattle.std.specs.IoError.{error_kind};
ghost use Rattle.udfs_calls.specs.Paths.{IsDevice};
ghost use Rattle.udfs_memory.specs.Spelling.{after_dot, after_slash, is_plain, is_short, spelled};

use std::alloc::{AllocError, Global};
use std::io::{Error, ErrorKind};

/// What comes behind a first slash leaves the path as it is.
fn after_slash(path: &[u8]) -> bool
    ensures { result ≡ after_slash path.now }
{
    match path {
        [] => true,
        [_] => true,
        [first, second, ..] => {
            if *first == b'/' {
                return *second == b'/';
            }
            true
        }
    }
}

/// What comes behind a first dot leaves the path as it is.
fn after_dot(path: &[u8]) -> bool
    ensures { result ≡ after_dot path.now }
{
    match path {
        [] => true,
        [first, ..] => *first == b'/',
    }
}

/// Whether a path is spelled in full: it begins with a slash, or with `./`, or is `.`.
pub(crate) fn is_plain(path: &[u8]) -> bool
    ensures { result ≡ is_plain path.now }
{
    match path {
        [] => false,
        [first, rest @ ..] => {
            if *first == b'/' {
                return after_slash(rest);
            }
            if *first == b'.' {
                return after_dot(rest);
            }
            false
        }
    }
}

/// Whether it is a relative path that is not spelled in full.
fn is_short(path: &[u8]) -> bool
    ensures { result ≡ is_short path.now }
{
    match path {
        [] => true,
        [first, ..] => {
            if is_plain(path) {
                return false;
            }
            if *first == b'/' {
                return false;
            }
            true
        }
    }
}

/// The path from `./` on, memory allowing.
fn from_dot(alloc: Global, path: &str) -> Result<String, AllocError>
    ensures { IfOk result (λ whole. string_bytes whole ≡ codes "./" ++ path.now) }
{
    let mut whole = String::from_str(alloc, "./")?;
    whole.push_str(path)?;
    Ok(whole)
}

/// A relative path, spelled in full.
///
/// # Errors
///
/// `OutOfMemory` where memory ran out. `InvalidInput` where it is none.
#[tactic(auto, using(crate::specs::Spelling::short_spelled))]
pub(crate) fn spelled(alloc: Global, path: &str) -> Result<String, Error>
    ensures value { IfOk result (λ whole. string_bytes whole ≡ spelled path.now) }
    ensures kind { IfErr result (λ error. error_kind error ≢ ErrorKind.NotFound) }
{
    if !is_short(path.as_bytes()) {
        return Err(Error::from(ErrorKind::InvalidInput));
    }
    match from_dot(alloc, path) {
        Ok(whole) => Ok(whole),
        Err(AllocError) => Err(Error::from(ErrorKind::OutOfMemory)),
    }
}

/// Whether what is at the path is a device or an opened file by the name alone, as `/dev/stdout` is.
pub(crate) fn is_device(path: &str) -> bool
    ensures { IsTrue result ↔ IsDevice path.now }
{
    path.starts_with("/proc/") || (path.starts_with("/dev/") && !path.starts_with("/dev/shm/"))
}
