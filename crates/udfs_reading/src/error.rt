//! Why an input could not be read.

use thiserror::Error;

/// What is wrong with an input. The faults of a file are numbered from 1, as the program prints them.
#[derive(Clone, Copy, Debug, PartialEq, Eq)]
pub enum ReadingFault {
    /// The first eight bytes name no format that is read.
    Magic = 1,
    /// The block size is not 2048.
    BlockSize = 2,
    /// A block number is above 4,194,303.
    BlockNumber = 3,
    /// The file ends inside a field.
    Truncated = 4,
    /// Bytes follow the last record.
    Trailing = 5,
    /// The block numbers of a table file do not rise.
    Order = 6,
    /// The state of a block is neither 1 (known) nor 2 (in conflict).
    State = 7,
    /// The device failed.
    Io = 8,
    /// Memory ran out, or what takes the input did not take it.
    OutOfMemory = 9,
}

/// A fault, and the record that has it: 0 in the header, and counted from 1 after it. Bytes that trail
/// the last record carry its number.
#[derive(Clone, Copy, Debug, PartialEq, Eq, Error)]
#[error("fault {fault:?} at record {number}")]
pub struct ReadingError {
    pub fault: ReadingFault,
    pub number: u32,
}
