//! The record of an input to which bytes at a position belong.

ghost use Rattle.std.specs.Prelude.{None, ⊤};

use crate::cursor::Cursor;
use crate::stored::{HEADER, Stored, fill};
use byteorder::{ByteOrder, LittleEndian};
use udfs_reading::{NotTaken, Source, Taker, take_inputs};

/// A position at which no input has a byte. What is reported at it concerns the input's end.
pub const END: u64 = u64::MAX;

/// Takes nothing, and stops at the first content that begins at this position or after it.
#[derive(Drop)]
struct Seeker {
    at: u64,
}

impl<R: Source> Taker<R> for Seeker {
    ghost took = { λ _ _. ⊤ };

    ghost input = { λ _. None };

    fn begin(&mut self, _source: &mut R) {
        let _ = self;
    }

    fn put(&mut self, _block: u32, _bytes: &[u8; 2048], at: u64) -> Result<(), NotTaken> {
        if at >= self.at {
            return Err(NotTaken);
        }
        Ok(())
    }

    fn dispute(&mut self, _block: u32) -> Result<(), NotTaken> {
        let _ = self;
        Ok(())
    }
}

/// The number, from 1, of the first record of an input whose content begins at position `at` or after it. The input is read again from
/// its beginning; if that fails before this record, the number is that of the failure. It is 0 if `at` is in the header, and
/// [`record_count`] if `at` is [`END`] or no content begins at `at` or after it.
pub fn record_at<S: Stored>(stored: &S, at: u64) -> u32 {
    if at < HEADER {
        return 0;
    }
    if at == END {
        return record_count(stored);
    }
    let mut seeker = Seeker { at };
    match take_inputs(&mut [Cursor::new(stored)], &mut seeker) {
        Ok(()) => record_count(stored),
        Err(error) => error.error.number,
    }
}

/// The count of records in the header of an input, which is after the magic and the block length; 0 if it cannot be read.
pub fn record_count<S: Stored>(stored: &S) -> u32 {
    let mut bytes = [0; 4];
    match fill(stored, 12, &mut bytes) {
        Ok(true) => LittleEndian::read_u32(&bytes),
        _ => 0,
    }
}
