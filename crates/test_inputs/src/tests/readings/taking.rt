//! The calls that a taker gets for inputs, in their order.

ghost use Rattle.std.specs.Prelude.{◌≡◌, None};

use super::whole::{DISPUTED, reading};
use crate::tests::assert_same;
use std::alloc::AllocError;
use std::test::Fail;
use udfs_lattice::{BlockTable, Fact};
use udfs_reading::{NotTaken, Reader, ReadingFault, Source, Taker, take_inputs};

/// A call that a taker got.
#[derive(Clone, Copy, Debug, PartialEq, Eq)]
enum Told {
    Begins,
    /// The block, its last byte, and how many bytes of the input come before its bytes.
    Bytes(u32, u8, u64),
    Conflict(u32),
}

/// A table that keeps the calls that it got.
#[derive(Drop)]
struct Log {
    table: BlockTable,
    told: Vec<Told>,
}

impl Log {
    fn tell(&mut self, told: Told) -> Result<(), NotTaken>
        ensures { self.new.table ≡ self.old.table }
    {
        match self.told.push(told) {
            Ok(()) => Ok(()),
            Err(_) => Err(NotTaken),
        }
    }
}

impl<R: Source> Taker<R> for Log {
    ghost took = { λ l t. l.table ≡ t };

    ghost input = { λ _. None };

    fn begin(&mut self, _source: &mut R) {
        let _ = self.told.push(Told::Begins);
    }

    fn put(&mut self, block: u32, bytes: &[u8; 2048], at: u64) -> Result<(), NotTaken> {
        self.tell(Told::Bytes(block, bytes[2047], at))?;
        match self.table.put(block, bytes) {
            Ok(()) => Ok(()),
            Err(_) => Err(NotTaken),
        }
    }

    fn dispute(&mut self, block: u32) -> Result<(), NotTaken> {
        self.tell(Told::Conflict(block))?;
        match self.table.add(block, Fact::Conflict) {
            Ok(()) => Ok(()),
            Err(_) => Err(NotTaken),
        }
    }
}

/// The table file of version 2 with packet 9 alone: block 300 is in conflict, and block 301 known. They are bits 12 and 13.
fn two_states(alloc: std::alloc::Global) -> Result<Vec<u8>, AllocError> {
    let mut file = Vec::new(alloc);
    file.extend_from_slice(
        b"UDFTABL2\x00\x08\x00\x00\x01\x00\x00\x00\x09\x00\x00\x00\x00\x20\x00\x00\x00\x10\x00\x00",
    )?;
    file.extend_from_slice(&[0x63; 2048])?;
    Ok(file)
}

#[test]
fn a_taker_is_told_all_in_order(rt: HostRuntime) -> Result<(), Fail> {
    let alloc = rt.alloc();
    let first = reading(alloc, &[(301, 0x61), (5, 0x62), (301, 0x61)])?;
    let third = two_states(alloc)?;
    let mut inputs = [
        Reader::new(first.as_slice()),
        Reader::new(DISPUTED.as_slice()),
        Reader::new(third.as_slice()),
    ];
    let mut log = Log {
        table: BlockTable::new(alloc),
        told: Vec::new(alloc),
    };
    assert!(rt; take_inputs(&mut inputs, &mut log).is_ok());
    assert_same(
        &rt,
        log.told.as_slice(),
        [
            Told::Begins,
            Told::Bytes(301, 0x61, 20),
            Told::Bytes(5, 0x62, 2072),
            Told::Bytes(301, 0x61, 4124),
            Told::Begins,
            Told::Conflict(300),
            Told::Begins,
            Told::Conflict(300),
            Told::Bytes(301, 0x63, 28),
        ]
        .as_slice(),
    );
    assert_same(&rt, log.table.known(), 1);
    assert_same(&rt, log.table.conflicts(), 2);
    Ok(())
}

#[test]
fn a_table_takes_inputs_over_what_it_has(rt: HostRuntime) -> Result<(), Fail> {
    let alloc = rt.alloc();
    let first = reading(alloc, &[(5, 0x61), (7, 0x62)])?;
    let second = reading(alloc, &[(5, 0x63)])?;
    let mut table = BlockTable::new(alloc);
    table.put(9, &[0x64; 2048])?;
    table.put(7, &[0x62; 2048])?;
    let mut inputs = [
        Reader::new(first.as_slice()),
        Reader::new(second.as_slice()),
    ];
    assert!(rt; take_inputs(&mut inputs, &mut table).is_ok());
    assert_same(&rt, table.known(), 2);
    assert!(rt; matches!(table.state(5), Fact::Conflict));
    assert!(rt; matches!(table.state(7), Fact::Known(_)));
    assert!(rt; matches!(table.state(9), Fact::Known(_)));
    let mut faulty = [
        Reader::new(first.as_slice()),
        Reader::new(b"UDFREAD1".as_slice()),
    ];
    match take_inputs(&mut faulty, &mut table) {
        Ok(()) => assert!(rt; false),
        Err(e) => {
            assert_same(&rt, e.input, 2);
            assert_same(&rt, e.error.fault, ReadingFault::Truncated);
        }
    }
    Ok(())
}
