//! Readings that say of which blocks their records are.

ghost use Rattle.std.specs.Prelude.{None, ⊤};

use crate::tests::assert_same;
use crate::tests::index::{index_of, reading};
use std::alloc::{AllocError, Global};
use std::cell::Cell;
use std::test::Fail;
use udfs_index::{Stored, StoredBytes, Unread};
use udfs_lattice::Fact;
use udfs_reading::{DeviceFault, ReadingFault};

/// A reading in memory that says of which blocks its records are, and counts how often it is read.
#[derive(Drop)]
struct Told<'a> {
    bytes: &'a [u8],
    count: u32,
    blocks: &'a [u32],
    reads: Cell<u32>,
}

impl<'a> Stored for Told<'a> {
    ghost content = { λ _. None };

    ghost fails = { λ _. ⊤ };

    fn size(&self) -> Result<u64, DeviceFault> {
        Ok(self.bytes.len() as u64)
    }

    fn records(&self) -> Option<u32> {
        Some(self.count)
    }

    fn block_of(&self, number: u32) -> Option<u32> {
        match self.blocks.get(number as usize) {
            Some(block) if *block <= 4_194_303 => Some(*block),
            _ => None,
        }
    }

    fn read_at(&self, at: u64, buf: &mut [u8]) -> Result<usize, DeviceFault> {
        self.reads.set(self.reads.get().saturating_add(1));
        StoredBytes::new(self.bytes).read_at(at, buf)
    }
}

/// The reading with these bytes, which says of which blocks its records are.
fn reading_of<'a>(bytes: &'a [u8], blocks: &'a [u32]) -> Told<'a> {
    Told {
        bytes,
        count: blocks.len().min(1000) as u32,
        blocks,
        reads: Cell::new(0),
    }
}

/// How many blocks are known and in conflict of two inputs, and what is said of block 7.
fn taken(
    alloc: Global,
    first: &Told<'_>,
    second: &Told<'_>,
) -> Result<(u32, u32, Fact<u64>), AllocError> {
    let (index, error) = index_of(alloc, first, second)?;
    if error.is_some() {
        return Err(AllocError);
    }
    Ok((index.known(), index.conflicts(), index.slot(7)))
}

#[test]
fn only_what_comes_again_is_read(rt: HostRuntime) -> Result<(), Fail> {
    let alloc = rt.alloc();
    let one = reading(alloc, &[(5, 0x61), (7, 0x62)])?;
    let two = reading(alloc, &[(7, 0x62), (9, 0x63)])?;
    let a = reading_of(one.as_slice(), &[5, 7]);
    let b = reading_of(two.as_slice(), &[7, 9]);
    let found = taken(alloc, &a, &b)?;
    // The header and a record come before the second record, and its number before its bytes.
    assert_same(&rt, found, (3, 0, Fact::Known(16 + 2052 + 4)));
    assert_same(&rt, a.reads.get(), 1);
    assert_same(&rt, b.reads.get(), 1);
    Ok(())
}

#[test]
fn other_bytes_are_a_conflict(rt: HostRuntime) -> Result<(), Fail> {
    let alloc = rt.alloc();
    let one = reading(alloc, &[(5, 0x61), (7, 0x62)])?;
    let two = reading(alloc, &[(7, 0x64), (9, 0x63)])?;
    let a = reading_of(one.as_slice(), &[5, 7]);
    let b = reading_of(two.as_slice(), &[7, 9]);
    let (mut index, error) = index_of(alloc, &a, &b)?;
    assert!(rt; error.is_none());
    assert_same(&rt, index.known(), 2);
    assert_same(&rt, index.slot(7), Fact::Conflict);
    assert_same(&rt, index.is_disputed_by(7, &[0x64; 2048]), Ok(true));
    Ok(())
}

#[test]
fn bytes_that_are_not_there_are_told(rt: HostRuntime) -> Result<(), Fail> {
    let alloc = rt.alloc();
    let one = reading(alloc, &[(5, 0x61), (7, 0x62)])?;
    let mut two = reading(alloc, &[(7, 0x62), (9, 0x63)])?;
    // It ends within its first block.
    two.truncate(1000);
    let a = reading_of(one.as_slice(), &[5, 7]);
    let b = reading_of(two.as_slice(), &[7, 9]);
    let (index, error) = index_of(alloc, &a, &b)?;
    match error {
        Some(error) => {
            assert_same(&rt, error.input, 2);
            assert_same(&rt, error.error.number, 1);
            assert_same(&rt, error.error.fault, ReadingFault::OutOfMemory);
        }
        None => assert!(rt; false),
    }
    assert_same(&rt, index.failed(), Some(Unread { input: 1, at: 20 }));
    Ok(())
}

#[test]
fn a_record_without_a_block_is_not_taken(rt: HostRuntime) -> Result<(), Fail> {
    let alloc = rt.alloc();
    let one = reading(alloc, &[(5, 0x61), (7, 0x62)])?;
    let a = reading_of(one.as_slice(), &[5, 7]);
    let mut b = reading_of(one.as_slice(), &[5, 7]);
    b.count = 3;
    let (_, error) = index_of(alloc, &a, &b)?;
    match error {
        Some(error) => assert_same(&rt, error.error.number, 3),
        None => assert!(rt; false),
    }
    Ok(())
}
