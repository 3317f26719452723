//! Why a mapfile cannot be read.

use thiserror::Error;

/// What is wrong with one line of a mapfile.
#[derive(Clone, Copy, Debug, PartialEq, Eq, Error)]
pub enum MapFault {
    /// The first line that is neither blank nor a comment is not a status line.
    #[error("not a status line")]
    NotStatusLine,
    /// A later line that is neither blank nor a comment is not a run.
    #[error("not a run")]
    NotRun,
    /// A run ends at 2^63 or above, or the position in the status line is 2^63 or above.
    #[error("number too large")]
    TooLarge,
    /// A run does not begin where the run before it ended.
    #[error("runs are not contiguous")]
    NotContiguous,
    /// A run of no bytes, at a position other than 0.
    #[error("run of size 0")]
    SizeZero,
    /// The mapfile ends without a run: it is empty, or has comments and a status line alone. The line is its last one, which may be empty.
    #[error("no runs")]
    NoRuns,
    /// The comment of a list of blocks to read again, which `write_domain` writes: no drive has read what it marks `+`.
    #[error("blocks to read again, not a pass")]
    NotPass,
}

/// The first fault of a mapfile.
#[derive(Clone, Copy, Debug, PartialEq, Eq, Error)]
#[error("mapfile line {line}: {fault}")]
pub struct LineFault {
    /// The number of the line, counted from 1, modulo 2^64.
    pub line: u64,
    pub fault: MapFault,
}

/// Why a mapfile was not read.
#[derive(Clone, Copy, Debug, PartialEq, Eq, Error)]
pub enum MapError {
    /// A line is malformed.
    #[error("{0}")]
    Line(LineFault),
    /// The device failed.
    #[error("the device failed")]
    Io,
    /// There is no memory for another run.
    #[error("out of memory")]
    OutOfMemory,
}
