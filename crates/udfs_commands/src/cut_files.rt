//! What is said of a reading or a table file that ends before it should.

use std::alloc::{AllocError, Global};
use udfs_common::files::Files;
use udfs_common::shown::Shown;
use udfs_host_fs::{Aim, Kind};
use udfs_overview::push_grouped;
use udfs_reading::Source;

/// The bytes of a header, of a reading and of a table file: its name, the size of a block, and how many records follow.
const HEADER: usize = 16;

/// The first [`HEADER`] bytes of a file, read a byte at a time; `None` where it is shorter, or a read fails.
fn front_of<R: Source>(source: &mut R) -> Option<[u8; HEADER]> {
    let mut header = [0u8; HEADER];
    for place in &mut header {
        let mut byte = [0u8; 1];
        match source.read(&mut byte) {
            Ok(count) if count > 0 => *place = byte[0],
            _ => return None,
        }
    }
    Some(header)
}

/// How many records a file says that it has. What is no file is not read again.
fn count_of<F: Files>(alloc: Global, path: &str, files: &F) -> Result<Option<u32>, AllocError> {
    match files.resolve(alloc, path, Aim::Reading)? {
        Ok(target) if target.kind == Kind::Regular => {}
        _ => return Ok(None),
    }
    let Ok(mut file) = files.open(path) else {
        return Ok(None);
    };
    let Some(header) = front_of(&mut file) else {
        return Ok(None);
    };
    let count = [header[12], header[13], header[14], header[15]];
    Ok(Some(u32::from_le_bytes(count)))
}

/// Whether a file has no byte. What is no file is not read again.
fn is_empty<F: Files>(alloc: Global, path: &str, files: &F) -> Result<bool, AllocError> {
    match files.resolve(alloc, path, Aim::Reading)? {
        Ok(target) if target.kind == Kind::Regular => {}
        _ => return Ok(false),
    }
    let Ok(mut file) = files.open(path) else {
        return Ok(false);
    };
    let mut byte = [0u8; 1];
    match file.read(&mut byte) {
        Ok(count) => Ok(count == 0),
        Err(_) => Ok(false),
    }
}

/// Appends a number with its thousands separated.
fn push_number(number: u32, text: &mut String) -> Result<(), AllocError> {
    match push_grouped(number as u128, text) {
        Ok(()) => Ok(()),
        Err(_) => Err(AllocError),
    }
}

/// What is said of a reading or a table file that ends inside a record.
pub fn of_cut<F: Files>(
    alloc: Global,
    path: &str,
    number: u32,
    files: &F,
) -> Result<String, AllocError> {
    let file = Shown(path);
    if number == 0 && is_empty(alloc, path, files)? {
        return format!(in alloc; "{file} is empty");
    }
    if number == 0 {
        return format!(in alloc; "{file} is cut short in its header");
    }
    let mut line = format!(in alloc; "{file} is cut short in record ")?;
    push_number(number, &mut line)?;
    if let Some(count) = count_of(alloc, path, files)? {
        line.push_str(" of ")?;
        push_number(count, &mut line)?;
    }
    Ok(line)
}
