//! Which record of an input could not be read again, which bytes brought a block into conflict, and whether an input has changed.

ghost use Rattle.std.specs.Prelude.{None, ⊤};

use super::copies::{Shaky, first, second, two_states};
use super::{index_of, reading};
use crate::tests::assert_same;
use std::cell::Cell;
use std::test::Fail;
use std::time::{Duration, SystemTime};
use udfs_index::{END, Stored, StoredBytes, record_at, record_count};
use udfs_reading::DeviceFault;

#[test]
fn the_record_of_a_position_is_told(rt: HostRuntime) -> Result<(), Fail> {
    let alloc = rt.alloc();
    let one = first(alloc)?;
    let stored = StoredBytes::new(one.as_slice());
    // Behind the header of 16 bytes each record has 4 bytes of a number and 2048 of a block.
    static RECORDS: [(u64, u32); 5] = [(20, 1), (2072, 2), (4124, 3), (6176, 4), (8228, 5)];
    for &(at, number) in &RECORDS {
        assert_same(&rt, record_at(&stored, at), number);
    }
    // There is no content after the last one: the number is that of all records.
    assert_same(&rt, record_at(&stored, 8229), 5);
    assert_same(&rt, record_at(&stored, END), 5);
    assert_same(&rt, record_at(&stored, 0), 0);
    assert_same(&rt, record_count(&stored), 5);
    // Of a table file of version 2 the records are its packets.
    let table = two_states(alloc)?;
    let stored = StoredBytes::new(table.as_slice());
    assert_same(&rt, record_count(&stored), 1);
    assert_same(&rt, record_at(&stored, 28), 1);
    // Nothing of it can be read.
    let shaky = Shaky::new(one.as_slice());
    shaky.reads.set(0);
    assert_same(&rt, record_at(&shaky, 2072), 0);
    assert_same(&rt, record_count(&shaky), 0);
    Ok(())
}

#[test]
fn a_record_that_cannot_be_read_comes_before_the_position(rt: HostRuntime) -> Result<(), Fail> {
    let alloc = rt.alloc();
    let one = first(alloc)?;
    let shaky = Shaky::new(one.as_slice());
    // It ends in the middle of record 2.
    shaky.end.set(2100);
    assert_same(&rt, record_at(&shaky, 8228), 2);
    Ok(())
}

#[test]
fn the_bytes_that_brought_a_conflict_are_known(rt: HostRuntime) -> Result<(), Fail> {
    let alloc = rt.alloc();
    let (one, two) = (first(alloc)?, second(alloc)?);
    let a = Shaky::new(one.as_slice());
    let b = Shaky::new(two.as_slice());
    let (mut index, error) = index_of(alloc, &a, &b)?;
    assert!(rt; error.is_none());
    // Block 5 has 0x61 in the first input, and 0x63 in the second one, which brought the conflict.
    assert_same(&rt, index.is_disputed_by(5, &[0x63; 2048]), Ok(true));
    assert_same(&rt, index.is_disputed_by(5, &[0x61; 2048]), Ok(false));
    assert!(rt; index.failed().is_none());
    b.reads.set(0);
    assert!(rt; index.is_disputed_by(5, &[0x63; 2048]).is_err());
    match index.failed() {
        // Behind the second input's header, two records and the number of the third.
        Some(unread) => {
            assert_same(&rt, unread.input, 1);
            assert_same(&rt, unread.at, 4124);
        }
        None => assert!(rt; false),
    }
    assert_same(&rt, index.known(), 4);
    assert_same(&rt, index.conflicts(), 1);
    Ok(())
}

/// Bytes in memory that say when they were changed.
#[derive(Drop)]
struct Dated<'a> {
    bytes: &'a [u8],
    size: Cell<u64>,
    changed: Cell<Option<SystemTime>>,
}

impl<'a> Stored for Dated<'a> {
    ghost content = { λ _. None };

    ghost fails = { λ _. ⊤ };

    fn size(&self) -> Result<u64, DeviceFault> {
        Ok(self.size.get())
    }

    fn changed(&self) -> Option<SystemTime> {
        self.changed.get()
    }

    fn read_at(&self, at: u64, buf: &mut [u8]) -> Result<usize, DeviceFault> {
        StoredBytes::new(self.bytes).read_at(at, buf)
    }
}

#[test]
fn an_input_that_changed_is_named(rt: HostRuntime) -> Result<(), Fail> {
    let alloc = rt.alloc();
    let (one, two) = (first(alloc)?, reading(alloc, &[(9, 0x61)])?);
    let then = SystemTime::UNIX_EPOCH.checked_add(Duration::from_micros(1_000_000));
    let later = SystemTime::UNIX_EPOCH.checked_add(Duration::from_micros(1_000_001));
    let a = Dated {
        bytes: one.as_slice(),
        size: Cell::new(one.len() as u64),
        changed: Cell::new(then),
    };
    let b = Dated {
        bytes: two.as_slice(),
        size: Cell::new(two.len() as u64),
        changed: Cell::new(None),
    };
    let (index, error) = index_of(alloc, &a, &b)?;
    assert!(rt; error.is_none());
    assert!(rt; index.changed().is_none());
    b.size.set(0);
    assert_same(&rt, index.changed(), Some(1));
    a.changed.set(later);
    assert_same(&rt, index.changed(), Some(0));
    a.changed.set(then);
    b.size.set(two.len() as u64);
    assert!(rt; index.changed().is_none());
    b.changed.set(later);
    assert_same(&rt, index.changed(), Some(1));
    Ok(())
}
