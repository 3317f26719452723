//! Runs in which one allocation may fail. Each returns whether the run did its work, or else reported what it lacks. The files in
//! memory and the preparation need memory too: where that runs out, the call returns an error.

use crate::names::names_of;
use crate::runs::{Outcome, Program, ran, reading, store_table, table};
use std::alloc::{AllocError, Global};
use udfs_lattice::{BlockTable, TableError};
use udfs_memory::Memory;
use udfs_samples::Disc;

/// The bytes of the file `A` of the sample volumes.
fn a_bytes(alloc: Global) -> Result<Vec<u8>, AllocError> {
    let mut bytes = Vec::new(alloc);
    bytes.resize(2048, 0x61)?;
    bytes.resize(4096, 0x62)?;
    bytes.resize(5000, 0x63)?;
    Ok(bytes)
}

/// All blocks but these of the volume with one map.
fn table_but(alloc: Global, unread: &[u32]) -> Result<BlockTable, TableError> {
    Disc::type1(alloc)?.known_but(alloc, unread)
}

/// The volume with one map whose root has one file, of a name that is too long.
fn one_long_name(alloc: Global) -> Result<BlockTable, TableError> {
    let mut disc = Disc::type1(alloc)?;
    disc.fill(274, 0)?;
    disc.write_directory(272, 1, names_of(alloc, "long=3")?.as_slice())?;
    disc.known_but(alloc, &[])
}

/// Files of which `disc.tab` is the file of this table.
fn with_table(alloc: Global, table: Result<BlockTable, TableError>) -> Result<Memory, AllocError> {
    let Ok(table) = table else {
        return Err(AllocError);
    };
    let mut memory = Memory::new(alloc);
    store_table(alloc, &mut memory, &table)?;
    Ok(memory)
}

/// Runs the program with the arguments, and returns an error where the files in memory ran out of memory.
fn ran_with_memory<P: Program>(
    alloc: Global,
    program: &P,
    memory: &mut Memory,
    words: &str,
) -> Result<Outcome, AllocError> {
    let ran = ran(alloc, program, memory, words)?;
    if memory.wanted_memory() {
        return Err(AllocError);
    }
    Ok(ran)
}

/// Whether standard error is empty and `is_so` holds, or the status is 2 and standard error says that memory ran out or that a folder was not made.
fn is_told(ran: &Outcome, is_so: bool) -> bool {
    match ran.err.as_str() {
        "" => is_so,
        "udfsalvage: out of memory\n" => ran.status == 2,
        "udfsalvage: cannot make the folder\n" => ran.status == 2,
        _ => false,
    }
}

/// Whether the file at `path` has these bytes, if standard output has the line that reports it.
fn has_where_told(ran: &Outcome, line: &str, memory: &Memory, path: &str, bytes: &[u8]) -> bool {
    !ran.out.as_str().contains(line) || memory.has(path, bytes)
}

/// An old table file, without a block.
const OLD_TABLE: &[u8] = b"UDFTABL1\0\x08\0\0\0\0\0\0";

/// A merge of a reading of two records over an old table. It is done, or fails with the line that memory ran out, and the old table stays.
pub fn merge_wants_memory<P: Program>(alloc: Global, program: &P) -> Result<bool, AllocError> {
    let whole = table(alloc, &[(300, 0x61), (301, 0x62)])?;
    let mut memory = Memory::new(alloc);
    let two = reading(alloc, &[(300, 0x61), (301, 0x62)])?;
    memory.store("two.rd", two.as_slice())?;
    memory.store("t.tab", OLD_TABLE)?;
    let ran = ran_with_memory(alloc, program, &mut memory, "merge --v1 --out t.tab two.rd")?;
    if ran.status == 0 {
        return Ok(ran.is_silent() && memory.has("t.tab", whole.as_slice()));
    }
    let is_refused = ran.is_refused("udfsalvage: out of memory\n");
    Ok(is_refused && memory.has("t.tab", OLD_TABLE))
}

/// An old page.
const OLD_PAGE: &[u8] = b"<!DOCTYPE html>\n<!-- a page of udfsalvage -->\nold";

/// The page of the volume with one map and a torn file, over an old one. It is put, or the run fails with the line that memory ran out, and the old one stays.
pub fn page_wants_memory<P: Program>(alloc: Global, program: &P) -> Result<bool, AllocError> {
    let table = table_but(alloc, &[278]);
    let mut memory = with_table(alloc, table)?;
    memory.store("p.html", OLD_PAGE)?;
    let words = "page --last 600 --out p.html disc.tab";
    let ran = ran_with_memory(alloc, program, &mut memory, words)?;
    let is_old = memory.has("p.html", OLD_PAGE);
    if ran.status == 1 {
        return Ok(ran.out.is_empty() && ran.err.is_empty() && !is_old);
    }
    Ok(ran.is_refused("udfsalvage: out of memory\n") && is_old)
}

/// The files of the volume with one map. Each file that is reported as written has its bytes.
pub fn files_want_memory<P: Program>(alloc: Global, program: &P) -> Result<bool, AllocError> {
    let a = a_bytes(alloc)?;
    let table = table_but(alloc, &[]);
    let mut memory = with_table(alloc, table)?;
    let words = "extract --last 600 --to out disc.tab";
    let ran = ran_with_memory(alloc, program, &mut memory, words)?;
    let has_a = has_where_told(&ran, "written /A\n", &memory, "out/A", a.as_slice());
    let has_b = has_where_told(&ran, "written /B\n", &memory, "out/B", b"Hi");
    Ok(has_a && has_b && is_told(&ran, ran.status < 2))
}

/// The files to which no name leads. Each file that is reported as written has its bytes.
pub fn unnamed_want_memory<P: Program>(alloc: Global, program: &P) -> Result<bool, AllocError> {
    let a = a_bytes(alloc)?;
    let table = table_but(alloc, &[274]);
    let mut memory = with_table(alloc, table)?;
    let words = "extract --last 600 --to out --unnamed lost disc.tab";
    let ran = ran_with_memory(alloc, program, &mut memory, words)?;
    let has_a = has_where_told(&ran, "written unnamed 3\n", &memory, "lost/3", a.as_slice());
    let has_b = has_where_told(&ran, "written unnamed 4\n", &memory, "lost/4", b"Hi");
    Ok(has_a && has_b && is_told(&ran, ran.status == 1))
}

/// The times of the files, which are all this one. Where a time is lacking, the status says so.
pub fn times_want_memory<P: Program>(
    alloc: Global,
    program: &P,
    time: Option<u64>,
) -> Result<bool, AllocError> {
    let table = table_but(alloc, &[]);
    let mut memory = with_table(alloc, table)?;
    let words = "extract --last 600 --to out --times disc.tab";
    let ran = ran_with_memory(alloc, program, &mut memory, words)?;
    let mut all = true;
    for path in ["out", "out/A", "out/B"] {
        all = all && memory.modified(path) == time;
    }
    Ok(is_told(&ran, ran.status == if all { 0 } else { 1 }))
}

/// A file whose name is too long: 84 times U+4E00, which has 3 bytes, and its number. A file that is reported as written has its bytes.
pub fn short_names_want_memory<P: Program>(alloc: Global, program: &P) -> Result<bool, AllocError> {
    let a = a_bytes(alloc)?;
    let mut memory = with_table(alloc, one_long_name(alloc))?;
    let words = "extract --last 600 --to out --short-names disc.tab";
    let ran = ran_with_memory(alloc, program, &mut memory, words)?;
    let mut place = String::from_str(alloc, "out/")?;
    for _ in 0..84 {
        place.push_str("\u{4E00}")?;
    }
    place.push_str("~3")?;
    let has_a = has_where_told(&ran, "written ", &memory, place.as_str(), a.as_slice());
    Ok(has_a && is_told(&ran, ran.status < 2))
}
