//! System calls, one for each line of a script, on this machine or on files in memory, for `tools/try-same-calls`.

ghost use Rattle.std.specs.Prelude.{◌≡◌, OnOk};

use crate::Ending;
use std::alloc::{AllocError, Global};
use std::io::{Error, ErrorKind};
use udfs_calls::{Calls, Host, Opened};
use udfs_memory::{Memory, MemoryCalls};
use udfs_reading::{Sink, write_all};

/// Makes the calls of a script where they are made, which is `host` or `memory`, and prints for each line what came of it.
pub fn make_calls<W: Sink>(
    rt: &HostRuntime,
    alloc: Global,
    place: &str,
    script: &str,
    out: &mut W,
) -> Ending {
    if place == "host" {
        return make_all(alloc, &mut Host::new(rt), script, out);
    }
    let mut memory = Memory::new(alloc);
    if memory.begin().is_err() {
        return Ending::Refused;
    }
    let mut calls = MemoryCalls::new(alloc, memory.stored(), memory.setting, memory.notes());
    make_all(alloc, &mut calls, script, out)
}

fn make_all<C: Calls, W: Sink>(alloc: Global, calls: &mut C, script: &str, out: &mut W) -> Ending {
    for line in script.lines() {
        let Ok(told) = told(alloc, calls, line) else {
            return Ending::Refused;
        };
        if write_all(out, told.as_bytes()).is_err() {
            return Ending::Wrong;
        }
    }
    Ending::Done
}

/// What came of the call of a line, as a line.
fn told<C: Calls>(alloc: Global, calls: &mut C, line: &str) -> Result<String, AllocError> {
    match make(alloc, calls, line) {
        Ok(text) => format!(in alloc; "{text}\n"),
        Err(error) => {
            let kind = error.kind();
            format!(in alloc; "{kind:?}\n")
        }
    }
}

/// A line's first word, and the rest.
fn parts(line: &str) -> (&str, &str) {
    match line.split_once(' ') {
        Some((word, rest)) => (word, rest),
        None => (line, ""),
    }
}

/// Makes the call of a line: `put PATH PIECES`, `rename PATH PATH`, `remove PATH`, `folder PATH`, `sync PATH` of a folder, or one that changes nothing.
fn make<C: Calls>(alloc: Global, calls: &mut C, line: &str) -> Result<String, Error> {
    let (word, rest) = parts(line);
    let (path, other) = parts(rest);
    match word {
        "put" => put(calls, path, other)?,
        "rename" => calls.rename(path, other)?,
        "remove" => calls.remove(path)?,
        "folder" => calls.make_folder(path)?,
        "sync" => calls.sync_folder(path)?,
        "same" => return is_same(alloc, calls, path, other),
        _ => return look(alloc, calls, word, path),
    }
    Ok(String::from_str(alloc, "done")?)
}

/// Makes a new file, writes three pieces, and syncs it.
#[tactic(auto, using(crate::proofs::Opening::open_now))]
fn put<C: Calls>(calls: &mut C, path: &str, pieces: &str) -> Result<(), Error> {
    let mut file = calls.create_new(path)?;
    let (one, rest) = parts(pieces);
    let (two, three) = parts(rest);
    write_piece(&mut file, one)?;
    write_piece(&mut file, two)?;
    write_piece(&mut file, three)?;
    calls.sync(file)
}

/// Does what a piece says: `@NUMBER` goes to a position, `=NUMBER` gives the file a size, `end` goes to its end, and all else is written.
fn write_piece<O: Opened>(file: &mut O, piece: &str) -> Result<(), Error>
    ensures { O.number file.new ≡ O.number file.old }
{
    if let Some(digits) = piece.strip_prefix('@') {
        return file.go_to(digits.parse().unwrap_or(0));
    }
    if let Some(digits) = piece.strip_prefix('=') {
        return file.set_len(digits.parse().unwrap_or(0));
    }
    if piece == "end" {
        file.go_to_end()?;
        return Ok(());
    }
    let count = file.write(piece.as_bytes())?;
    if count != piece.len() {
        return Err(Error::from(ErrorKind::WriteZero));
    }
    Ok(())
}

/// Whether two paths lead to one file, by its numbers.
fn is_same<C: Calls>(alloc: Global, calls: &C, one: &str, two: &str) -> Result<String, Error> {
    let (one, two) = (calls.about(one)?, calls.about(two)?);
    let is_same = (one.device, one.inode) == (two.device, two.inode);
    Ok(format!(in alloc; "{is_same}")?)
}

/// Makes a call that changes nothing: `about PATH`, `read PATH`, `writable PATH`, `real PATH` or `link PATH`.
fn look<C: Calls>(alloc: Global, calls: &C, word: &str, path: &str) -> Result<String, Error> {
    match word {
        "about" => about(alloc, calls, path),
        "read" => read(alloc, calls, path),
        "real" => calls.real_path(alloc, path),
        "link" => calls.link(alloc, path),
        "writable" => {
            calls.try_to_write(path)?;
            Ok(String::from_str(alloc, "writable")?)
        }
        _ => Err(Error::from(ErrorKind::InvalidInput)),
    }
}

/// The kind of what a path leads to, and the size of a regular file.
fn about<C: Calls>(alloc: Global, calls: &C, path: &str) -> Result<String, Error> {
    let about = calls.about(path)?;
    if about.is_folder {
        return Ok(String::from_str(alloc, "folder")?);
    }
    let (is_file, size) = (about.is_file, about.size);
    Ok(format!(in alloc; "file {is_file} {size}")?)
}

/// What is read of a file: its first bytes by its position, those from the third on, and its size.
fn read<C: Calls>(alloc: Global, calls: &C, path: &str) -> Result<String, Error> {
    let mut file = calls.open(path)?;
    let mut front = [0; 5];
    let one = file.read(&mut front)?;
    let mut more = [0; 900];
    let two = file.read_at(3, &mut more)?;
    let size = file.about()?.size;
    let end = file.go_to_end()?;
    let (front, more) = (shown(&front, one), shown(&more, two));
    Ok(format!(in alloc; "{front} {more} {size} {end}")?)
}

/// The first of these bytes, as text.
fn shown(bytes: &[u8], count: usize) -> &str {
    std::str::from_utf8(bytes.get(..count).unwrap_or(&[])).unwrap_or("no text")
}
