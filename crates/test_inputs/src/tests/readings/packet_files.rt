//! Table files of version 2 as the rules spell them, cut and damaged, and beside those of version 1.

use super::whole::{
    DISPUTED, Narrow, Pieces, assert_answer, assert_known, assert_table_file, fault_of, reading,
};
use crate::tests::assert_same;
use std::alloc::{AllocError, Global};
use std::io;
use std::process::Abort;
use std::test::Fail;
use udfs_lattice::BlockTable;
use udfs_reading::{
    Reader, ReadingFault, Writer, read_input, read_reading, read_table, write_table, write_table_v1,
};

/// A disputed block 300 alone: bit 12 of packet 9.
const DISPUTED_V2: &[u8; 28] =
    b"UDFTABL2\x00\x08\x00\x00\x01\x00\x00\x00\x09\x00\x00\x00\x00\x00\x00\x00\x00\x10\x00\x00";

fn written(alloc: Global, table: &BlockTable) -> Result<Vec<u8>, Fail> {
    let mut out = Writer::new(Vec::new(alloc));
    if write_table(table, &mut out).is_err() {
        return Err(Fail::from(io::Error::from(io::ErrorKind::Other)));
    }
    Ok(out.into_inner())
}

/// This is the table's file.
fn assert_written(
    rt: &impl Abort,
    alloc: Global,
    table: &BlockTable,
    expected: &[u8],
) -> Result<(), Fail> {
    let file = written(alloc, table)?;
    assert!(rt; file.as_slice() == expected);
    Ok(())
}

/// The file of packet 9 with blocks 300 and 301 known, each filled with its byte: bits 12 and 13.
fn known_pair(alloc: Global) -> Result<Vec<u8>, AllocError> {
    let mut out = Vec::new(alloc);
    out.extend_from_slice(
        b"UDFTABL2\x00\x08\x00\x00\x01\x00\x00\x00\x09\x00\x00\x00\x00\x30\x00\x00\x00\x00\x00\x00",
    )?;
    out.extend_from_slice(&[0x61; 2048])?;
    out.extend_from_slice(&[0x62; 2048])?;
    Ok(out)
}

#[test]
fn a_file_of_known_blocks_is_cut_at_each_length(rt: HostRuntime) -> Result<(), Fail> {
    let alloc = rt.alloc();
    let known = known_pair(alloc)?;
    for len in 0..known.len() {
        let number = if len < 16 { 0 } else { 1 };
        let cut = Some((ReadingFault::Truncated, number));
        assert_table_file(&rt, alloc, &known[..len], cut);
    }
    Ok(())
}

#[test]
fn a_device_fails_after_each_byte_of_packets(rt: HostRuntime) -> Result<(), Fail> {
    let alloc = rt.alloc();
    let known = known_pair(alloc)?;
    for good in 0..=known.len() {
        let number = if good < 16 { 0 } else { 1 };
        let mut failing = Reader::new(Pieces {
            rest: &known,
            most: 4000,
            good,
        });
        let failed = fault_of(read_table(alloc, &mut failing));
        assert_answer(&rt, good, failed, Some((ReadingFault::Io, number)));
    }
    Ok(())
}

/// A reading is one, and a table file of either version is none.
#[test]
fn a_table_file_is_no_reading(rt: HostRuntime) -> Result<(), Fail> {
    let alloc = rt.alloc();
    let pass = reading(alloc, &[(300, 0x61)])?;
    let table = read_reading(alloc, &mut Reader::new(pass.as_slice()))?;
    assert_known(&rt, &table, &[(300, 0x61)]);
    for file in [DISPUTED.as_slice(), DISPUTED_V2.as_slice()] {
        let found = fault_of(read_reading(alloc, &mut Reader::new(file)));
        assert_answer(&rt, file.len(), found, Some((ReadingFault::Magic, 0)));
    }
    Ok(())
}

/// The file says these records, and its table is written as this file of version 2.
fn assert_read_back(
    rt: &impl Abort,
    alloc: Global,
    file: &[u8],
    records: &[(u32, u8)],
    second: &[u8],
) -> Result<(), Fail> {
    let again = read_table(alloc, &mut Reader::new(file))?;
    assert_known(rt, &again, records);
    assert_written(rt, alloc, &again, second)
}

/// Three hundred records, five blocks apart.
fn apart(alloc: Global) -> Result<Vec<(u32, u8)>, AllocError> {
    let mut records = Vec::new(alloc);
    for n in 0..300u32 {
        records.push((5 * n, (n % 251) as u8))?;
    }
    Ok(records)
}

/// A table of several pieces: either version of it reads back, and gives the same files again.
#[test]
fn both_versions_read_back(rt: HostRuntime) -> Result<(), Fail> {
    let alloc = rt.alloc();
    let records = apart(alloc)?;
    let bytes = reading(alloc, records.as_slice())?;
    let table = read_input(alloc, &mut Reader::new(bytes.as_slice()))?;
    let second = written(alloc, &table)?;
    // Blocks 0 to 1495 are in the packets 0 to 46.
    assert_same(&rt, second.len(), 16 + 47 * 12 + 300 * 2048);
    let mut out = Writer::new(Vec::new(alloc));
    assert!(rt; write_table_v1(&table, &mut out).is_ok());
    let first = out.into_inner();
    assert_read_back(&rt, alloc, &first, &records, &second)?;
    assert_read_back(&rt, alloc, &second, &records, &second)
}

/// A sink that fails after `good` bytes has taken exactly the first `good` bytes of the whole file.
fn assert_taken(rt: &impl Abort, alloc: Global, table: &BlockTable, whole: &[u8], good: usize) {
    let mut out = Writer::new(Narrow {
        taken: Vec::new(alloc),
        most: 1000,
        good,
    });
    let outcome = write_table(table, &mut out);
    assert_eq!(rt; outcome.is_ok(), good == whole.len(), "fails at {good}");
    let Narrow { taken, .. } = out.into_inner();
    assert_eq!(rt;
        Some(taken.as_slice()),
        whole.get(..good),
        "fails at {good}"
    );
}

#[test]
fn a_sink_fails_after_each_byte_of_packets(rt: HostRuntime) -> Result<(), Fail> {
    let alloc = rt.alloc();
    let whole = known_pair(alloc)?;
    let table = read_table(alloc, &mut Reader::new(whole.as_slice()))?;
    for good in 0..=whole.len() {
        assert_taken(&rt, alloc, &table, &whole, good);
    }
    Ok(())
}
