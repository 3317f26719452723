//! Why a report was not made or not printed, as the error of a command.

ghost use Rattle.std.specs.Prelude.{◌≡◌};
ghost use Rattle.udfs_remarks.specs.NoReports.{run_refusal_of, salvage_refusal_of};

use std::alloc::AllocError;
use udfs_common::refusal::Refusal;
use udfs_salvage::{RunError, SalvageError};

/// Why a table has no report.
pub fn refused_report(error: SalvageError) -> Refusal
    ensures { result ≡ salvage_refusal_of error }
{
    match error {
        SalvageError::LastRange => Refusal::LastRange,
        SalvageError::PastEnd(block) => Refusal::PastEnd(block),
        SalvageError::TooManyPaths => Refusal::TooManyPaths,
        SalvageError::OutOfMemory => Refusal::Memory(AllocError),
    }
}

/// Why a report was not printed, or only begun.
pub fn refused_run(error: RunError) -> Refusal
    ensures { result ≡ run_refusal_of error }
{
    match error {
        RunError::Reading(error) => Refusal::from(error),
        RunError::Salvage(error) => refused_report(error),
        RunError::Write => Refusal::Output,
        RunError::OutOfMemory => Refusal::Memory(AllocError),
    }
}
