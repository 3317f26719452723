//! What is told of a volume beside its report.

use crate::lost_found::Lost;
use crate::lost_tallies::LostTally;
use udfs_lawfulness::Lawfulness;

/// What is told of a volume beside its report: whether it is lawful, and what is lost of it.
#[derive(Debug, Drop)]
pub struct Verdict {
    /// Whether it is lawful.
    pub lawfulness: Lawfulness,
    /// What is counted of its lost folders and lost files, and of deleted entries.
    pub lost: LostTally,
    /// The trees of its lost folders, and where these were looked for. There are none where there are too many to follow.
    pub found: Lost,
}
