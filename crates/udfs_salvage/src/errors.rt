//! Why there is no report.

ghost use Rattle.std.specs.Prelude.{◌≡◌};

use std::alloc::AllocError;
use std::error::Error;
use std::fmt;
use udfs_lattice::{GaveUp, ReadFault};
use udfs_reading::InputError;

/// Why a table has no report.
#[derive(Clone, Copy, Debug, PartialEq, Eq)]
pub enum SalvageError {
    /// The last block of a volume is not from 513 to 4,194,303.
    LastRange,
    /// Something is known of this block, which is after the last one. It is the least such block.
    PastEnd(u32),
    /// More than 65,536 routes lead from the root of the volume to a node.
    TooManyPaths,
    /// Memory ran out.
    OutOfMemory,
}

impl fmt::Display for SalvageError {
    fn fmt<W: fmt::Write>(&self, f: &mut fmt::Formatter<W>) -> fmt::Result {
        match self {
            SalvageError::LastRange => write!(f, "the last block is not from 513 to 4194303"),
            SalvageError::PastEnd(block) => write!(f, "block {block} lies behind the last one"),
            SalvageError::TooManyPaths => write!(f, "more than 65536 paths"),
            SalvageError::OutOfMemory => write!(f, "out of memory"),
        }
    }
}

impl Error for SalvageError {}

impl From<AllocError> for SalvageError {
    ghost use Rattle.udfs_salvage.specs.declared.errors.SalvageError.TheVariants.{OutOfMemory};

    ghost from_gives = { λ refused error. error ≡ OutOfMemory };

    fn from(_: AllocError) -> SalvageError {
        SalvageError::OutOfMemory
    }
}

/// Why a store of blocks has no report.
#[derive(Clone, Copy, Debug, PartialEq, Eq)]
pub enum StoreError {
    /// As of a table.
    Salvage(SalvageError),
    /// The bytes of a known block could not be read. Nothing is told of the volume then.
    Unread,
}

impl fmt::Display for StoreError {
    fn fmt<W: fmt::Write>(&self, f: &mut fmt::Formatter<W>) -> fmt::Result {
        match self {
            StoreError::Salvage(error) => write!(f, "{error}"),
            StoreError::Unread => write!(f, "a known block could not be read"),
        }
    }
}

impl Error for StoreError {}

impl From<ReadFault> for StoreError {
    ghost use Rattle.udfs_salvage.specs.declared.errors.StoreError.TheVariants.{Unread};

    ghost from_gives = { λ fault error. error ≡ Unread };

    fn from(_: ReadFault) -> StoreError {
        StoreError::Unread
    }
}

impl From<GaveUp> for StoreError {
    ghost use Rattle.udfs_salvage.specs.Stores.{store_error};

    ghost from_gives = { λ why error. error ≡ store_error why };

    fn from(why: GaveUp) -> StoreError {
        match why {
            GaveUp::OutOfMemory => StoreError::Salvage(SalvageError::OutOfMemory),
            GaveUp::Unread => StoreError::Unread,
        }
    }
}

impl From<AllocError> for StoreError {
    ghost use Rattle.udfs_salvage.specs.declared.errors.SalvageError.TheVariants as salvage_error;
    ghost use Rattle.udfs_salvage.specs.declared.errors.StoreError.TheVariants.{Salvage};

    ghost from_gives = { λ refused error. error ≡ Salvage salvage_error.OutOfMemory };

    fn from(_: AllocError) -> StoreError {
        StoreError::Salvage(SalvageError::OutOfMemory)
    }
}

/// Why no report was printed, or only a beginning of one.
#[derive(Clone, Copy, Debug, PartialEq, Eq)]
pub enum RunError {
    /// An input could not be read. Never because memory ran out.
    Reading(InputError),
    /// The table has no report. Never because memory ran out.
    Salvage(SalvageError),
    /// The sink failed.
    Write,
    /// Memory ran out, in any step.
    OutOfMemory,
}

impl fmt::Display for RunError {
    fn fmt<W: fmt::Write>(&self, f: &mut fmt::Formatter<W>) -> fmt::Result {
        match self {
            RunError::Reading(error) => write!(f, "input {} could not be read", error.input),
            RunError::Salvage(error) => write!(f, "{error}"),
            RunError::Write => write!(f, "the report could not be written"),
            RunError::OutOfMemory => write!(f, "out of memory"),
        }
    }
}

impl Error for RunError {}

impl From<AllocError> for RunError {
    ghost use Rattle.udfs_salvage.specs.declared.errors.RunError.TheVariants.{OutOfMemory};

    ghost from_gives = { λ refused error. error ≡ OutOfMemory };

    fn from(_: AllocError) -> RunError {
        RunError::OutOfMemory
    }
}

/// Why what a store of blocks says of a volume was not printed, or only a beginning of it.
#[derive(Clone, Copy, Debug, PartialEq, Eq)]
pub enum PrintError {
    /// As of a table.
    Run(RunError),
    /// The bytes of a known block could not be read. A beginning may be printed then. No table has it.
    Unread,
}

impl fmt::Display for PrintError {
    fn fmt<W: fmt::Write>(&self, f: &mut fmt::Formatter<W>) -> fmt::Result {
        match self {
            PrintError::Run(error) => write!(f, "{error}"),
            PrintError::Unread => write!(f, "a known block could not be read"),
        }
    }
}

impl Error for PrintError {}

impl From<RunError> for PrintError {
    ghost use Rattle.udfs_salvage.specs.declared.errors.PrintError.TheVariants.{Run};

    ghost from_gives = { λ why error. error ≡ Run why };

    fn from(why: RunError) -> PrintError {
        PrintError::Run(why)
    }
}

impl From<AllocError> for PrintError {
    ghost use Rattle.udfs_salvage.specs.declared.errors.RunError.TheVariants.{OutOfMemory};
    ghost use Rattle.udfs_salvage.specs.declared.errors.PrintError.TheVariants.{Run};

    ghost from_gives = { λ refused error. error ≡ Run OutOfMemory };

    fn from(_: AllocError) -> PrintError {
        PrintError::Run(RunError::OutOfMemory)
    }
}

impl From<GaveUp> for PrintError {
    ghost use Rattle.udfs_salvage.specs.StorePrinting.{print_error};

    ghost from_gives = { λ why error. error ≡ print_error why };

    fn from(why: GaveUp) -> PrintError {
        match why {
            GaveUp::OutOfMemory => PrintError::Run(RunError::OutOfMemory),
            GaveUp::Unread => PrintError::Unread,
        }
    }
}
