//! Why not all was made of what is asked for.

use udfs_common::refusal::Refusal;

/// Why not all was made of what is asked for.
#[derive(Drop)]
pub enum Stop {
    /// For this reason, which is told.
    Refused(Refusal),
    /// The bytes of a known block could not be read.
    Unread,
}
