//! A manifest: a line for each file that was written, with the digest of its bytes and its path in the folder, as `sha256sum` writes and reads it.
//! Until it is written, each file has the index of its node and its digest, however long its path is.

ghost use Rattle.std.specs.Prelude.{◌≡◌, ◌++◌, OnOk, drop};
ghost use Rattle.std.specs.List.{list_any};
ghost use Rattle.udfs_extraction.specs.Manifests.{notes_of};
ghost use Rattle.udfs_extraction.specs.SumLines.{must_escape, path_byte, path_text, sum_line};

use crate::nodes::{Done, Fate};
use std::alloc::{AllocError, Global};

/// Whether a byte of a path is written with a backslash: a backslash, a line feed and a carriage return are.
fn must_escape(byte: u8) -> bool
    ensures { result ≡ must_escape byte }
{
    byte == b'\\' || byte == b'\n' || byte == b'\r'
}

/// Whether a path has such a byte.
fn is_marked(path: &[u8]) -> bool
    ensures { result ≡ list_any must_escape path.now }
{
    for byte in path {
        if must_escape(*byte) {
            return true;
        }
    }
    false
}

/// Appends a byte of a path.
fn push_path_byte(text: &mut Vec<u8>, byte: u8) -> Result<(), AllocError>
    ensures { OnOk result (text.new.items ≡ text.old.items ++ path_byte byte) }
{
    match byte {
        b'\\' => text.extend_from_slice(b"\\\\"),
        b'\n' => text.extend_from_slice(b"\\n"),
        b'\r' => text.extend_from_slice(b"\\r"),
        _ => {
            text.push(byte)?;
            Ok(())
        }
    }
}

/// Appends a path.
fn push_path(text: &mut Vec<u8>, path: &[u8]) -> Result<(), AllocError>
    ensures { OnOk result (text.new.items ≡ text.old.items ++ path_text path.now) }
{
    for byte in path {
        push_path_byte(text, *byte)?;
    }
    Ok(())
}

/// Appends the line of a file: a backslash where its path has a byte that is written with one, the digest in hexadecimal, two spaces, the path, and a line feed.
pub fn push_sum_line(
    alloc: Global,
    text: &mut Vec<u8>,
    digest: &[u8; 32],
    path: &[u8],
) -> Result<(), AllocError>
    ensures { OnOk result (text.new.items ≡ text.old.items ++ sum_line digest.now path.now) }
{
    let digits = hex::encode(alloc, digest)?;
    if is_marked(path) {
        text.push(b'\\')?;
    }
    text.extend_from_slice(digits.as_bytes())?;
    text.extend_from_slice(b"  ")?;
    push_path(text, path)?;
    text.push(b'\n')?;
    Ok(())
}

/// A path without the byte in front.
pub fn behind_slash(path: &[u8]) -> &[u8]
    ensures { result.now ≡ drop 1 path.now }
{
    match path {
        [] => path,
        [_, rest @ ..] => rest,
    }
}

/// A file that was written: the index of its node, and the digest of its bytes.
#[derive(Clone, Copy)]
pub struct Noted {
    /// The index of its node.
    pub index: usize,
    /// The digest of the bytes that were written.
    pub digest: [u8; 32],
}

/// Notes the file of the node of this index, if it was written and its digest taken.
pub fn note(manifest: &mut Vec<Noted>, done: Done, index: usize) -> Result<(), AllocError>
    ensures { OnOk result (manifest.new.items ≡ manifest.old.items ++ notes_of done.fate done.digest index) }
{
    match (done.fate, done.digest) {
        (Fate::Written, Some(digest)) => {
            manifest.push(Noted { index, digest })?;
            Ok(())
        }
        _ => Ok(()),
    }
}
