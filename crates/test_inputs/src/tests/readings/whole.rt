//! Files as the rules spell them, cut and damaged at every place, from devices that give little or fail.

use std::alloc::{AllocError, Global};
use std::io;
use std::io::{Read, Write};
use std::process::Abort;
use std::test::Fail;
use udfs_lattice::{BlockTable, Fact};
use udfs_reading::{
    Reader, ReadingError, ReadingFault, Writer, join_inputs, read_input, read_reading, read_table,
    write_table, write_table_v1,
};

/// A disputed block 300 alone, as a table file.
pub const DISPUTED: &[u8; 21] = b"UDFTABL1\x00\x08\x00\x00\x01\x00\x00\x00\x2c\x01\x00\x00\x02";

/// Gives at most `most` bytes a call, and fails once it has given `good`.
#[derive(Drop)]
pub struct Pieces<'a> {
    pub rest: &'a [u8],
    pub most: usize,
    pub good: usize,
}

impl Read for Pieces<'_> {
    fn read(&mut self, buf: &mut [u8]) -> io::Result<usize> {
        if self.good == 0 {
            return Err(io::Error::from(io::ErrorKind::Other));
        }
        let n = self.rest.len().min(buf.len()).min(self.most).min(self.good);
        let (front, rest) = self.rest.split_at(n);
        buf[..n].copy_from_slice(front);
        self.rest = rest;
        self.good -= n;
        Ok(n)
    }
}

/// Takes at most `most` bytes a call, and fails once it has taken `good`.
#[derive(Drop)]
pub struct Narrow {
    pub taken: Vec<u8>,
    pub most: usize,
    pub good: usize,
}

impl Write for Narrow {
    fn write(&mut self, buf: &[u8]) -> io::Result<usize> {
        let n = buf.len().min(self.most).min(self.good);
        self.good -= n;
        self.taken.extend_from_slice(&buf[..n])?;
        Ok(n)
    }

    fn flush(&mut self) -> io::Result<()> {
        Ok(())
    }
}

fn push_number(out: &mut Vec<u8>, n: u32) -> Result<(), AllocError> {
    out.extend_from_slice(&n.to_le_bytes())
}

/// The reading of these records, each a block and the byte that fills it.
pub fn reading(alloc: Global, records: &[(u32, u8)]) -> Result<Vec<u8>, AllocError> {
    let mut out = Vec::new(alloc);
    out.extend_from_slice(b"UDFREAD1")?;
    push_number(&mut out, 2048)?;
    push_number(&mut out, records.len().min(100_000) as u32)?;
    for (block, byte) in records {
        push_number(&mut out, *block)?;
        out.extend_from_slice(&[*byte; 2048])?;
    }
    Ok(out)
}

pub fn fault_of(outcome: Result<BlockTable, ReadingError>) -> Option<(ReadingFault, u32)> {
    match outcome {
        Ok(_) => None,
        Err(e) => Some((e.fault, e.number)),
    }
}

/// The table file of version 1.
fn written(alloc: Global, table: &BlockTable) -> Result<Vec<u8>, Fail> {
    let mut out = Writer::new(Vec::new(alloc));
    if write_table_v1(table, &mut out).is_err() {
        return Err(Fail::from(io::Error::from(io::ErrorKind::Other)));
    }
    Ok(out.into_inner())
}

/// A fault at a record, if there is one.
type Answer = Option<(ReadingFault, u32)>;

/// Asserts that `found`, the result for `len` bytes, is `answer`.
pub fn assert_answer(rt: &impl Abort, len: usize, found: Answer, answer: Answer) {
    assert_eq!(rt; found, answer, "{len} bytes");
}

/// As a table file the bytes get this result.
pub fn assert_table_file(rt: &impl Abort, alloc: Global, bytes: &[u8], answer: Answer) {
    let found = fault_of(read_table(alloc, &mut Reader::new(bytes)));
    assert_answer(rt, bytes.len(), found, answer);
}

/// As an input of any kind the bytes get this result.
fn assert_input(rt: &impl Abort, alloc: Global, bytes: &[u8], answer: Answer) {
    let found = fault_of(read_input(alloc, &mut Reader::new(bytes)));
    assert_answer(rt, bytes.len(), found, answer);
}

/// The reading of blocks 300 and 301.
fn pair(alloc: Global) -> Result<Vec<u8>, AllocError> {
    reading(alloc, &[(300, 0x61), (301, 0x62)])
}

/// The record of a cut of the two-record reading at this length.
fn record_at(len: usize) -> u32 {
    if len < 16 {
        0
    } else if len < 2068 {
        1
    } else {
        2
    }
}

#[test]
fn a_reading_is_cut_at_each_length(rt: HostRuntime) -> Result<(), Fail> {
    let alloc = rt.alloc();
    let bytes = pair(alloc)?;
    for len in 0..bytes.len() {
        let cut = Some((ReadingFault::Truncated, record_at(len)));
        assert_input(&rt, alloc, &bytes[..len], cut);
    }
    Ok(())
}

#[test]
fn a_device_fails_after_each_byte(rt: HostRuntime) -> Result<(), Fail> {
    let alloc = rt.alloc();
    let bytes = pair(alloc)?;
    for good in 0..=bytes.len() {
        let mut failing = Reader::new(Pieces {
            rest: &bytes,
            most: 4000,
            good,
        });
        let failed = fault_of(read_reading(alloc, &mut failing));
        assert_answer(&rt, good, failed, Some((ReadingFault::Io, record_at(good))));
    }
    Ok(())
}

#[test]
fn a_faulty_number_is_told_before_the_device_is_asked_again(rt: HostRuntime) -> Result<(), Fail> {
    let alloc = rt.alloc();
    let high = reading(alloc, &[(4_194_304, 0)])?;
    let mut failing = Reader::new(Pieces {
        rest: &high,
        most: 5000,
        good: 20,
    });
    let found = fault_of(read_reading(alloc, &mut failing));
    assert_answer(&rt, 20, found, Some((ReadingFault::BlockNumber, 1)));
    Ok(())
}

#[test]
fn a_faulty_magic_is_told_before_the_device_is_asked_again(rt: HostRuntime) {
    let mut failing = Reader::new(Pieces {
        rest: b"UDFREAD2\x00",
        most: 5000,
        good: 8,
    });
    let found = fault_of(read_input(rt.alloc(), &mut failing));
    assert_answer(&rt, 8, found, Some((ReadingFault::Magic, 0)));
}

#[test]
fn a_table_file_is_read(rt: HostRuntime) -> Result<(), Fail> {
    let table = read_table(rt.alloc(), &mut Reader::new(DISPUTED.as_slice()))?;
    assert_eq!(rt; table.conflicts(), 1);
    assert!(rt; matches!(table.state(300), Fact::Conflict));
    Ok(())
}

/// The blocks of these records are known, each with the byte that fills it.
pub fn assert_known(rt: &impl Abort, table: &BlockTable, records: &[(u32, u8)]) {
    for (block, byte) in records {
        assert!(rt;
            matches!(table.state(*block), Fact::Known(b) if b[0] == *byte && b[2047] == *byte),
            "{block}"
        );
    }
}

/// The file has this length, says these records, and what is read from it is written alike.
fn assert_read_back(
    rt: &impl Abort,
    alloc: Global,
    file: &[u8],
    records: &[(u32, u8)],
) -> Result<(), Fail> {
    let again = read_table(alloc, &mut Reader::new(file))?;
    assert_known(rt, &again, records);
    let second = written(alloc, &again)?;
    assert!(rt; second.as_slice() == file);
    Ok(())
}

/// Three hundred records of falling numbers.
fn falling(alloc: Global) -> Result<Vec<(u32, u8)>, AllocError> {
    let mut records = Vec::new(alloc);
    for n in 0..300u32 {
        records.push((1000 - n, (n % 251) as u8))?;
    }
    Ok(records)
}

/// The table of these records, which are as many as are known, as a file.
fn file_of(rt: &impl Abort, alloc: Global, records: &[(u32, u8)]) -> Result<Vec<u8>, Fail> {
    let bytes = reading(alloc, records)?;
    let table = read_input(alloc, &mut Reader::new(bytes.as_slice()))?;
    assert_eq!(rt; table.known(), 300);
    written(alloc, &table)
}

#[test]
fn files_longer_than_a_window_read_back(rt: HostRuntime) -> Result<(), Fail> {
    let alloc = rt.alloc();
    let records = falling(alloc)?;
    let file = file_of(&rt, alloc, &records)?;
    assert_eq!(rt; file.len(), 16 + 300 * 2053);
    assert_read_back(&rt, alloc, &file, &records)
}

/// A sink that fails after `good` bytes has taken exactly the first `good` bytes of the disputed block's file.
fn assert_taken(rt: &impl Abort, alloc: Global, table: &BlockTable, good: usize) {
    let mut out = Writer::new(Narrow {
        taken: Vec::new(alloc),
        most: 7,
        good,
    });
    let outcome = write_table_v1(table, &mut out);
    assert_eq!(rt; outcome.is_ok(), good == DISPUTED.len(), "fails at {good}");
    let Narrow { taken, .. } = out.into_inner();
    assert_eq!(rt;
        Some(taken.as_slice()),
        DISPUTED.get(..good),
        "fails at {good}"
    );
}

#[test]
fn a_sink_fails_after_each_byte(rt: HostRuntime) -> Result<(), Fail> {
    let alloc = rt.alloc();
    let table = read_table(alloc, &mut Reader::new(DISPUTED.as_slice()))?;
    for good in 0..=DISPUTED.len() {
        assert_taken(&rt, alloc, &table, good);
    }
    Ok(())
}

/// The table knows two blocks, and both versions of its file can be written.
fn assert_two_known(rt: &impl Abort, table: &BlockTable) {
    assert_eq!(rt; table.known(), 2);
    let mut out = Writer::new(io::sink());
    assert!(rt; write_table_v1(table, &mut out).is_ok());
    assert!(rt; write_table(table, &mut out).is_ok());
}

/// Where one allocation fails (`rt try --test --fail-alloc N`), the result is the table, or out of memory.
#[test]
fn want_of_memory_is_named(rt: HostRuntime) -> Result<(), Fail> {
    let alloc = rt.alloc();
    let Ok(a) = reading(alloc, &[(300, 0x61)]) else {
        return Ok(());
    };
    let Ok(b) = reading(alloc, &[(301, 0x62)]) else {
        return Ok(());
    };
    let mut inputs = [Reader::new(a.as_slice()), Reader::new(b.as_slice())];
    match join_inputs(alloc, &mut inputs) {
        Ok(table) => assert_two_known(&rt, &table),
        Err(e) => assert_eq!(rt; e.error.fault, ReadingFault::OutOfMemory),
    }
    Ok(())
}

/// A fault of the header is reported whatever memory there is.
#[test]
fn a_header_fault_needs_no_memory(rt: HostRuntime) {
    for bytes in [
        b"UDFREAD1\x00\x04\x00\x00".as_slice(),
        b"UDFTABL1\x00\x04\x00\x00".as_slice(),
        b"UDFTABL2\x00\x04\x00\x00".as_slice(),
    ] {
        assert_input(&rt, rt.alloc(), bytes, Some((ReadingFault::BlockSize, 0)));
    }
}
