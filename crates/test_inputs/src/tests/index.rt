//! An index of readings in memory.

ghost use Rattle.std.specs.Prelude.{None, ⊤};

mod copies;
mod files;
mod records;
mod runs;
mod told;

use crate::tests::assert_same;
use std::alloc::{AllocError, Global};
use std::test::Fail;
use udfs_index::{Cursor, Index, Stored, Unread};
use udfs_lattice::Fact;
use udfs_reading::{DeviceFault, InputError, ReadingFault, take_inputs};

/// Bytes in memory, of which no block can be read alone where that fails.
#[derive(Drop)]
struct Held<'a> {
    bytes: &'a [u8],
    fails: bool,
}

impl<'a> Stored for Held<'a> {
    ghost content = { λ _. None };

    ghost fails = { λ _. ⊤ };

    fn size(&self) -> Result<u64, DeviceFault> {
        Ok(self.bytes.len() as u64)
    }

    fn read_at(&self, at: u64, buf: &mut [u8]) -> Result<usize, DeviceFault> {
        // What is compared is asked for block by block, and what is read ahead in larger pieces.
        if self.fails && buf.len() == 2048 {
            return Err(DeviceFault);
        }
        let mut count = 0usize;
        for (to, from) in buf.iter_mut().zip(self.bytes.iter().skip(at as usize)) {
            *to = *from;
            count = count.saturating_add(1);
        }
        Ok(count.min(buf.len()))
    }
}

/// A reading in which all bytes of a block are the same.
pub(super) fn reading(alloc: Global, records: &[(u32, u8)]) -> Result<Vec<u8>, AllocError> {
    let mut file = Vec::new(alloc);
    file.extend_from_slice(b"UDFREAD1\x00\x08\x00\x00")?;
    file.extend_from_slice(&(records.len().min(1000) as u32).to_le_bytes())?;
    for (block, byte) in records {
        file.extend_from_slice(&block.to_le_bytes())?;
        file.extend_from_slice(&[*byte; 2048])?;
    }
    Ok(file)
}

/// The index of two inputs, and why not all of them were taken.
pub(super) fn index_of<'a, S: Stored>(
    alloc: Global,
    first: &'a S,
    second: &'a S,
) -> Result<(Index<'a, S>, Option<InputError>), AllocError> {
    let mut index = Index::new(alloc)?;
    let mut sources = [Cursor::new(first), Cursor::new(second)];
    let error = take_inputs(&mut sources, &mut index).err();
    Ok((index, error))
}

#[test]
fn two_passes_are_taken_by_index(rt: HostRuntime) -> Result<(), Fail> {
    let alloc = rt.alloc();
    let one = reading(alloc, &[(5, 0x61), (7, 0x62), (5, 0x61)])?;
    let two = reading(alloc, &[(4_194_303, 0x64), (7, 0x62), (5, 0x63)])?;
    let first = Held {
        bytes: one.as_slice(),
        fails: false,
    };
    let second = Held {
        bytes: two.as_slice(),
        fails: false,
    };
    let (index, error) = index_of(alloc, &first, &second)?;
    assert!(rt; error.is_none());
    assert!(rt; matches!(index.slot(5), Fact::Conflict));
    assert!(rt; matches!(index.slot(6), Fact::Unknown));
    // In the first input, after its header, a record, and the number of a block.
    assert!(rt; matches!(index.slot(7), Fact::Known(2072)));
    // In the second one, after its header and the number of a block.
    assert!(rt; matches!(index.slot(4_194_303), Fact::Known(17_592_186_044_436)));
    assert!(rt; index.failed().is_none());
    assert_same(&rt, index.known(), 2);
    assert_same(&rt, index.conflicts(), 1);
    assert!(rt; index.changed().is_none());
    Ok(())
}

#[test]
fn an_input_that_cannot_be_looked_into_is_named(rt: HostRuntime) -> Result<(), Fail> {
    let alloc = rt.alloc();
    let one = reading(alloc, &[(5, 0x61)])?;
    let first = Held {
        bytes: one.as_slice(),
        fails: true,
    };
    let second = Held {
        bytes: one.as_slice(),
        fails: false,
    };
    let (index, error) = index_of(alloc, &first, &second)?;
    match error {
        None => assert!(rt; false),
        Some(e) => {
            assert_same(&rt, e.input, 2);
            assert_same(&rt, e.error.fault, ReadingFault::OutOfMemory);
        }
    }
    assert_same(&rt, index.failed(), Some(Unread { input: 0, at: 20 }));
    Ok(())
}
