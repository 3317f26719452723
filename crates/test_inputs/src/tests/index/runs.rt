//! How often an input is read where its blocks are consecutive.

use super::copies::{Shaky, unread};
use super::{index_of, reading};
use crate::tests::assert_same;
use std::alloc::Global;
use std::test::Fail;
use udfs_reading::{Reader, Writer, join_inputs, write_table, write_table_v1};

/// A reading of the blocks from `first` up to `end` in order, all bytes of each of them the block's number modulo 251.
fn in_order(alloc: Global, first: u32, end: u32) -> Result<Vec<u8>, Fail> {
    let mut records = Vec::new(alloc);
    for n in first..end {
        records.push((n, (n % 251) as u8))?;
    }
    Ok(reading(alloc, records.as_slice())?)
}

/// Writes the table of one input from its index. Returns the file, and how often the input was read for it.
fn copied(alloc: Global, file: &[u8]) -> Result<(Vec<u8>, u64), Fail> {
    let stored = Shaky::new(file);
    let empty = Shaky::new(b"UDFREAD1\x00\x08\x00\x00\x00\x00\x00\x00".as_slice());
    let (index, _) = index_of(alloc, &stored, &empty)?;
    stored.reads.set(1000);
    let mut out = Writer::new(Vec::new(alloc));
    if index.write_table(&mut out).is_err() {
        return Ok((Vec::new(alloc), 0));
    }
    let count = 1000u64.saturating_sub(stored.reads.get());
    Ok((out.into_inner(), count))
}

#[test]
fn blocks_in_order_are_read_at_once(rt: HostRuntime) -> Result<(), Fail> {
    let alloc = rt.alloc();
    // 31 blocks, of which the first 12 are in one packet, the others in the next.
    let file = in_order(alloc, 20, 51)?;
    let Ok(table) = join_inputs(alloc, &mut [Reader::new(file.as_slice())]) else {
        assert!(rt; false);
        return Ok(());
    };
    let mut second = Writer::new(Vec::new(alloc));
    assert!(rt; write_table(&table, &mut second).is_ok());
    let second = second.into_inner();
    let mut first = Writer::new(Vec::new(alloc));
    assert!(rt; write_table_v1(&table, &mut first).is_ok());
    let first = first.into_inner();
    // Between two blocks of a reading are 4 bytes, of a table file of version 1 5, of one of version 2 none, and 12 between
    // two packets.
    for input in [file.as_slice(), first.as_slice(), second.as_slice()] {
        let (written, reads) = copied(alloc, input)?;
        assert!(rt; written == second);
        assert_same(&rt, reads, 1);
    }
    Ok(())
}

#[test]
fn three_hundred_blocks_are_read_by_ten_reads(rt: HostRuntime) -> Result<(), Fail> {
    let alloc = rt.alloc();
    let file = in_order(alloc, 0, 300)?;
    let Ok(table) = join_inputs(alloc, &mut [Reader::new(file.as_slice())]) else {
        assert!(rt; false);
        return Ok(());
    };
    let mut out = Writer::new(Vec::new(alloc));
    assert!(rt; write_table(&table, &mut out).is_ok());
    // From the first block of 31 records to the end of the last are 63,608 bytes; with one more it would be above 65,536.
    let (written, reads) = copied(alloc, file.as_slice())?;
    assert!(rt; written == out.into_inner());
    assert_same(&rt, reads, 10);
    Ok(())
}

#[test]
fn a_device_that_fails_between_two_reads_is_named(rt: HostRuntime) -> Result<(), Fail> {
    let alloc = rt.alloc();
    let file = in_order(alloc, 0, 300)?;
    let other = reading(alloc, &[(400, 0x61)])?;
    let stored = Shaky::new(file.as_slice());
    let last = Shaky::new(other.as_slice());
    let (index, error) = index_of(alloc, &stored, &last)?;
    assert!(rt; error.is_none());
    let mut out = Writer::new(Vec::new(alloc));
    // The third read begins with the block of record 62, counted from 0.
    stored.reads.set(2);
    assert_same(
        &rt,
        index.write_table(&mut out),
        unread(0, 16 + 2052 * 62 + 4),
    );
    stored.reads.set(2);
    assert_same(
        &rt,
        index.write_table_v1(&mut out),
        unread(0, 16 + 2052 * 62 + 4),
    );
    stored.reads.set(10);
    last.reads.set(0);
    assert_same(&rt, index.write_table(&mut out), unread(1, 20));
    // In both versions the first input is read by ten reads, and the other one by one.
    stored.reads.set(10);
    last.reads.set(1);
    assert_same(&rt, index.write_table_v1(&mut out), Ok(()));
    Ok(())
}

#[test]
fn blocks_in_disorder_are_read_one_by_one(rt: HostRuntime) -> Result<(), Fail> {
    let alloc = rt.alloc();
    let file = reading(alloc, &[(3, 0x61), (2, 0x62), (9, 0x63), (4, 0x64)])?;
    let (written, reads) = copied(alloc, file.as_slice())?;
    // Block 3 comes before block 2, block 4 after block 3 with two records between them, and block 9 before block 4.
    assert_same(&rt, reads, 4);
    assert_eq!(rt; written.len(), 28 + 4 * 2048);
    for (i, byte) in [0x62, 0x61, 0x64, 0x63].iter().enumerate() {
        assert_same(&rt, written[28 + 2048 * i], *byte);
        assert_same(&rt, written[28 + 2048 * i + 2047], *byte);
    }
    Ok(())
}
