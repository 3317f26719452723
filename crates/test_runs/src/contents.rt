//! What the files of scripts hold.

use crate::runs::{Record, header, number, reading, table};
use crate::texts::{Name, block_of, byte_of, bytes_of, first_word, number_of, text_of};
use std::alloc::{AllocError, Global};
use udfs_samples::{Disc, LAST};

/// The bytes of a file that is given in a line: `text T`, `cut N T`, which has the first N bytes of the text alone, `reading R`, `longer R`, which has
/// a byte of zeros appended, `front N R`, which has the first N bytes alone, `table R`, `blocks R`, the bytes of its blocks alone, or `sample`, the reading of all blocks of the volume with one map.
pub fn content_of(alloc: Global, names: &[Name], line: &str) -> Result<Vec<u8>, AllocError> {
    let (kind, rest) = first_word(line);
    match kind {
        "text" => bytes_of(alloc, names, rest),
        "cut" => cut_of(alloc, names, rest),
        "reading" => reading(alloc, records_of(alloc, rest)?.as_slice()),
        "longer" => longer(alloc, records_of(alloc, rest)?.as_slice()),
        "front" => front_of(alloc, names, rest),
        "table" => table(alloc, records_of(alloc, rest)?.as_slice()),
        "blocks" => blocks(alloc, records_of(alloc, rest)?.as_slice()),
        "sample" => whole_sample(alloc),
        _ => Err(AllocError),
    }
}

/// The bytes of blocks, one after the other.
fn blocks(alloc: Global, records: &[Record]) -> Result<Vec<u8>, AllocError> {
    let mut bytes = Vec::new(alloc);
    for (_, byte) in records {
        bytes.extend_from_slice(&[*byte; 2048])?;
    }
    Ok(bytes)
}

/// A reading file with a byte of zeros appended.
fn longer(alloc: Global, records: &[Record]) -> Result<Vec<u8>, AllocError> {
    let mut bytes = reading(alloc, records)?;
    bytes.push(0)?;
    Ok(bytes)
}

/// The first N bytes of the reading file of the records R, for a line `N R`.
fn front_of(alloc: Global, names: &[Name], line: &str) -> Result<Vec<u8>, AllocError> {
    let (digits, rest) = first_word(line);
    let whole = reading(alloc, records_of(alloc, rest)?.as_slice())?;
    front(alloc, names, digits, whole.as_slice())
}

/// The first N bytes of the text T, for a line `N T`.
fn cut_of(alloc: Global, names: &[Name], line: &str) -> Result<Vec<u8>, AllocError> {
    let (digits, rest) = first_word(line);
    let whole = bytes_of(alloc, names, rest)?;
    front(alloc, names, digits, whole.as_slice())
}

/// As many of these bytes as the digits say.
fn front(alloc: Global, names: &[Name], digits: &str, whole: &[u8]) -> Result<Vec<u8>, AllocError> {
    let digits = text_of(alloc, names, digits)?;
    match whole.get(..number_of(digits.as_str())?) {
        Some(front) => Vec::from_slice(alloc, front),
        None => Err(AllocError),
    }
}

/// The records of a list: `300:61` is block 300 of bytes 61 hex, `0..100:61` are the blocks from 0 up to 100, which is excluded,
/// `0..100:own` the same, each of the byte that is its number modulo 200, and `600:apart` 600 blocks from 0 on, each seven after the last,
/// each of the byte that is its place in that row, counted from 0, modulo 251.
fn records_of(alloc: Global, list: &str) -> Result<Vec<Record>, AllocError> {
    let mut records = Vec::new(alloc);
    for item in list.split(' ').filter(|item| !item.is_empty()) {
        push_item(&mut records, item)?;
    }
    Ok(records)
}

fn push_item(records: &mut Vec<Record>, item: &str) -> Result<(), AllocError> {
    let Some((blocks, byte)) = item.split_once(':') else {
        return Err(AllocError);
    };
    if byte == "apart" {
        return push_apart(records, block_of(blocks)?);
    }
    let Some((from, to)) = blocks.split_once("..") else {
        return Ok(records.push((block_of(blocks)?, byte_of(byte)?))?);
    };
    if byte == "own" {
        return push_own(records, block_of(from)?, block_of(to)?);
    }
    push_all(records, block_of(from)?, block_of(to)?, byte_of(byte)?)
}

fn push_all(records: &mut Vec<Record>, from: u32, to: u32, byte: u8) -> Result<(), AllocError> {
    for block in from..to {
        records.push((block, byte))?;
    }
    Ok(())
}

fn push_own(records: &mut Vec<Record>, from: u32, to: u32) -> Result<(), AllocError> {
    for block in from..to {
        records.push((block, (block % 200) as u8))?;
    }
    Ok(())
}

fn push_apart(records: &mut Vec<Record>, count: u32) -> Result<(), AllocError> {
    for place in 0..count {
        records.push((place.wrapping_mul(7), (place % 251) as u8))?;
    }
    Ok(())
}

/// The reading file of all blocks of the sample volume with one map.
fn whole_sample(alloc: Global) -> Result<Vec<u8>, AllocError> {
    let disc = Disc::type1(alloc)?;
    let mut bytes = header(alloc, b"UDFREAD1", LAST as usize + 1)?;
    for n in 0..=LAST {
        bytes.extend_from_slice(&number(u64::from(n)))?;
        match disc.block(n) {
            Some(block) => bytes.extend_from_slice(block)?,
            None => bytes.extend_from_slice(&[0; 2048])?,
        }
    }
    Ok(bytes)
}
