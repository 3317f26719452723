//! The forms in which tables and reports are written, and how much is said beside them.

/// The versions of table files.
#[derive(Clone, Copy, PartialEq, Eq)]
pub enum Version {
    One,
    Two,
}

/// The forms of a report.
#[derive(Clone, Copy, PartialEq, Eq)]
pub enum Form {
    Text,
    Json,
}

/// How much is to be said on standard error.
#[derive(Clone, Copy, PartialEq, Eq)]
pub struct Tone {
    /// What a person is told is to be said, whoever reads.
    pub verbose: bool,
    /// Only what has to be said is to be.
    pub quiet: bool,
}
