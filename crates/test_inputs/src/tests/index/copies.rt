//! Table files that are written from an index.

ghost use Rattle.std.specs.Prelude.{None, ⊤};

use super::{index_of, reading};
use crate::tests::assert_same;
use std::alloc::{AllocError, Global};
use std::cell::Cell;
use std::process::Abort;
use std::test::Fail;
use udfs_index::{CopyFault, Cursor, Index, Stored, StoredBytes, Unread};
use udfs_lattice::BlockTable;
use udfs_reading::{
    DeviceFault, Reader, Sink, WriteFault, Writer, join_inputs, take_inputs, write_table,
    write_table_v1,
};

/// The table file of version 2 with packet 9 alone: block 300 is in conflict, and block 301 known. They are bits 12 and 13.
pub(super) fn two_states(alloc: Global) -> Result<Vec<u8>, AllocError> {
    let mut file = Vec::new(alloc);
    file.extend_from_slice(
        b"UDFTABL2\x00\x08\x00\x00\x01\x00\x00\x00\x09\x00\x00\x00\x00\x20\x00\x00\x00\x10\x00\x00",
    )?;
    file.extend_from_slice(&[0x63; 2048])?;
    Ok(file)
}

/// The first of three inputs: block 5 twice, block 8 after block 7, and block 300.
pub(super) fn first(alloc: Global) -> Result<Vec<u8>, AllocError> {
    reading(
        alloc,
        &[(5, 0x61), (7, 0x62), (8, 0x65), (300, 0x66), (5, 0x61)],
    )
}

/// The second of them: the last block, block 7 as it was, and other bytes of block 5.
pub(super) fn second(alloc: Global) -> Result<Vec<u8>, AllocError> {
    reading(alloc, &[(4_194_303, 0x64), (7, 0x62), (5, 0x63)])
}

/// All three in version 2: packet 0 has blocks 7 and 8 known, and 5 in conflict; packet 9 has block 301 known, and 300 in conflict;
/// packet 131,071 has its last block known.
fn packed(alloc: Global) -> Result<Vec<u8>, AllocError> {
    let mut file = Vec::new(alloc);
    file.extend_from_slice(b"UDFTABL2\x00\x08\x00\x00\x03\x00\x00\x00")?;
    file.extend_from_slice(b"\x00\x00\x00\x00\x80\x01\x00\x00\x20\x00\x00\x00")?;
    file.extend_from_slice(&[0x62; 2048])?;
    file.extend_from_slice(&[0x65; 2048])?;
    file.extend_from_slice(b"\x09\x00\x00\x00\x00\x20\x00\x00\x00\x10\x00\x00")?;
    file.extend_from_slice(&[0x63; 2048])?;
    file.extend_from_slice(b"\xff\xff\x01\x00\x00\x00\x00\x80\x00\x00\x00\x00")?;
    file.extend_from_slice(&[0x64; 2048])?;
    Ok(file)
}

/// All three in version 1.
fn listed(alloc: Global) -> Result<Vec<u8>, AllocError> {
    let mut file = Vec::new(alloc);
    file.extend_from_slice(b"UDFTABL1\x00\x08\x00\x00\x06\x00\x00\x00")?;
    file.extend_from_slice(b"\x05\x00\x00\x00\x02")?;
    file.extend_from_slice(b"\x07\x00\x00\x00\x01")?;
    file.extend_from_slice(&[0x62; 2048])?;
    file.extend_from_slice(b"\x08\x00\x00\x00\x01")?;
    file.extend_from_slice(&[0x65; 2048])?;
    file.extend_from_slice(b"\x2c\x01\x00\x00\x02")?;
    file.extend_from_slice(b"\x2d\x01\x00\x00\x01")?;
    file.extend_from_slice(&[0x63; 2048])?;
    file.extend_from_slice(b"\xff\xff\x3f\x00\x01")?;
    file.extend_from_slice(&[0x64; 2048])?;
    Ok(file)
}

/// The index of three inputs, if all of them were taken.
fn index_of_three<'a, S: Stored>(
    alloc: Global,
    first: &'a S,
    second: &'a S,
    third: &'a S,
) -> Result<(Index<'a, S>, bool), AllocError> {
    let mut index = Index::new(alloc)?;
    let mut sources = [Cursor::new(first), Cursor::new(second), Cursor::new(third)];
    let is_taken = take_inputs(&mut sources, &mut index).is_ok();
    Ok((index, is_taken))
}

/// The index's table files of version 2 and of version 1 are these.
fn assert_files<S: Stored>(
    rt: &impl Abort,
    alloc: Global,
    index: &Index<'_, S>,
    second: &[u8],
    first: &[u8],
) {
    let mut out = Writer::new(Vec::new(alloc));
    assert_same(rt, index.write_table(&mut out), Ok(()));
    assert_same(rt, out.into_inner().as_slice(), second);
    let mut out = Writer::new(Vec::new(alloc));
    assert_same(rt, index.write_table_v1(&mut out), Ok(()));
    assert_same(rt, out.into_inner().as_slice(), first);
}

#[test]
fn both_versions_are_those_of_the_table(rt: HostRuntime) -> Result<(), Fail> {
    let alloc = rt.alloc();
    let (one, two, three) = (first(alloc)?, second(alloc)?, two_states(alloc)?);
    let a = StoredBytes::new(one.as_slice());
    let b = StoredBytes::new(two.as_slice());
    let c = StoredBytes::new(three.as_slice());
    let (index, is_taken) = index_of_three(alloc, &a, &b, &c)?;
    assert!(rt; is_taken);
    assert_files(&rt, alloc, &index, &packed(alloc)?, &listed(alloc)?);
    Ok(())
}

/// The table's files of version 2 and of version 1 are these.
fn assert_table_files(
    rt: &impl Abort,
    alloc: Global,
    table: &BlockTable,
    second: &[u8],
    first: &[u8],
) {
    let mut out = Writer::new(Vec::new(alloc));
    assert!(rt; write_table(table, &mut out).is_ok());
    assert_same(rt, out.into_inner().as_slice(), second);
    let mut out = Writer::new(Vec::new(alloc));
    assert!(rt; write_table_v1(table, &mut out).is_ok());
    assert_same(rt, out.into_inner().as_slice(), first);
}

#[test]
fn a_table_of_the_same_inputs_is_written_alike(rt: HostRuntime) -> Result<(), Fail> {
    let alloc = rt.alloc();
    let (one, two, three) = (first(alloc)?, second(alloc)?, two_states(alloc)?);
    let mut sources = [
        Reader::new(one.as_slice()),
        Reader::new(two.as_slice()),
        Reader::new(three.as_slice()),
    ];
    let Ok(table) = join_inputs(alloc, &mut sources) else {
        assert!(rt; false);
        return Ok(());
    };
    assert_table_files(&rt, alloc, &table, &packed(alloc)?, &listed(alloc)?);
    Ok(())
}

#[test]
fn nothing_is_written_of_no_input(rt: HostRuntime) -> Result<(), Fail> {
    let alloc = rt.alloc();
    let index: Index<'_, StoredBytes<'_>> = Index::new(alloc)?;
    assert_files(
        &rt,
        alloc,
        &index,
        b"UDFTABL2\x00\x08\x00\x00\x00\x00\x00\x00",
        b"UDFTABL1\x00\x08\x00\x00\x00\x00\x00\x00",
    );
    Ok(())
}

/// Bytes in memory of which `reads` more reads succeed, and whose reads end at the byte `end`.
#[derive(Drop)]
pub(super) struct Shaky<'a> {
    pub(super) bytes: &'a [u8],
    pub(super) reads: Cell<u64>,
    pub(super) end: Cell<u64>,
}

impl<'a> Shaky<'a> {
    /// All of the bytes, for 1,000,000 reads.
    pub(super) fn new(bytes: &'a [u8]) -> Shaky<'a> {
        Shaky {
            bytes,
            reads: Cell::new(1_000_000),
            end: Cell::new(bytes.len() as u64),
        }
    }
}

impl<'a> Stored for Shaky<'a> {
    ghost content = { λ _. None };

    ghost fails = { λ _. ⊤ };

    fn size(&self) -> Result<u64, DeviceFault> {
        Ok(self.bytes.len() as u64)
    }

    fn read_at(&self, at: u64, buf: &mut [u8]) -> Result<usize, DeviceFault> {
        let Some(left) = self.reads.get().checked_sub(1) else {
            return Err(DeviceFault);
        };
        self.reads.set(left);
        let room = self.end.get().saturating_sub(at).min(buf.len() as u64);
        let most = room as usize;
        StoredBytes::new(self.bytes).read_at(at, &mut buf[..most])
    }
}

/// How the writing of a table file of version 2 ends.
fn assert_copy<S: Stored>(
    rt: &impl Abort,
    alloc: Global,
    index: &Index<'_, S>,
    outcome: Result<(), CopyFault>,
) {
    let mut out = Writer::new(Vec::new(alloc));
    assert_same(rt, index.write_table(&mut out), outcome);
}

/// How the writing of a table file of version 1 ends.
fn assert_copy_v1<S: Stored>(
    rt: &impl Abort,
    alloc: Global,
    index: &Index<'_, S>,
    outcome: Result<(), CopyFault>,
) {
    let mut out = Writer::new(Vec::new(alloc));
    assert_same(rt, index.write_table_v1(&mut out), outcome);
}

/// A block of which these bytes of this input cannot be read again.
pub(super) fn unread(input: usize, at: u64) -> Result<(), CopyFault> {
    Err(CopyFault::Input(Unread { input, at }))
}

#[test]
fn an_input_that_cannot_be_read_again_is_named(rt: HostRuntime) -> Result<(), Fail> {
    let alloc = rt.alloc();
    let (one, two) = (first(alloc)?, second(alloc)?);
    let a = Shaky::new(one.as_slice());
    let b = Shaky::new(two.as_slice());
    let (index, error) = index_of(alloc, &a, &b)?;
    assert!(rt; error.is_none());
    // Blocks 7, 8 and 300 are read of the first input at once, the last block of the second one.
    b.reads.set(0);
    a.reads.set(0);
    assert_copy(&rt, alloc, &index, unread(0, 2072));
    a.reads.set(1);
    assert_copy(&rt, alloc, &index, unread(1, 20));
    a.reads.set(1);
    assert_copy_v1(&rt, alloc, &index, unread(1, 20));
    a.reads.set(1);
    b.reads.set(1);
    assert_copy(&rt, alloc, &index, Ok(()));
    Ok(())
}

#[test]
fn an_input_that_ends_early_is_named(rt: HostRuntime) -> Result<(), Fail> {
    let alloc = rt.alloc();
    let (one, two) = (first(alloc)?, second(alloc)?);
    let a = Shaky::new(one.as_slice());
    let b = Shaky::new(two.as_slice());
    let (index, error) = index_of(alloc, &a, &b)?;
    assert!(rt; error.is_none());
    // The last block is at the beginning of the second input, after its header and the block's number.
    b.end.set(20 + 2047);
    assert_copy(&rt, alloc, &index, unread(1, 20));
    assert_copy_v1(&rt, alloc, &index, unread(1, 20));
    b.end.set(20 + 2048);
    assert_copy(&rt, alloc, &index, Ok(()));
    Ok(())
}

/// A sink that takes `room` bytes more and then fails. It counts its faults.
#[derive(Drop)]
struct Full {
    room: usize,
    faults: u64,
}

impl Sink for Full {
    ghost stream = { λ f. record { contents = None; faults = f.faults } };

    fn write(&mut self, buf: &[u8]) -> Result<usize, DeviceFault> {
        if self.room == 0 {
            self.faults = self.faults.wrapping_add(1);
            return Err(DeviceFault);
        }
        let count = self.room.min(buf.len());
        self.room -= count;
        Ok(count)
    }
}

/// In either version writing to a sink with `room` bytes of room ends with its fault, and it is at fault once.
fn assert_full<S: Stored>(rt: &impl Abort, index: &Index<'_, S>, room: usize) {
    let mut out = Full { room, faults: 0 };
    assert_same(
        rt,
        index.write_table(&mut out),
        Err(CopyFault::Sink(WriteFault)),
    );
    assert_eq!(rt; out.faults, 1, "{room}");
    let mut out = Full { room, faults: 0 };
    assert_same(
        rt,
        index.write_table_v1(&mut out),
        Err(CopyFault::Sink(WriteFault)),
    );
    assert_eq!(rt; out.faults, 1, "{room}");
}

#[test]
fn a_sink_that_fails_is_no_inputs_fault(rt: HostRuntime) -> Result<(), Fail> {
    let alloc = rt.alloc();
    let one = first(alloc)?;
    let stored = StoredBytes::new(one.as_slice());
    let (index, error) = index_of(alloc, &stored, &stored)?;
    assert!(rt; error.is_none());
    for room in [1, 16, 27, 2076] {
        assert_full(&rt, &index, room);
    }
    Ok(())
}
