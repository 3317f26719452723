//! Whether an input has changed while it was read.

use crate::stored::Stored;
use std::time::SystemTime;

/// What is reported of an input: how many bytes it has, and when they last changed.
#[derive(Clone, Copy, PartialEq, Eq)]
pub struct Stamp {
    size: u64,
    changed: Option<SystemTime>,
}

impl Stamp {
    /// What is reported of an input that has `size` bytes.
    pub fn new<S: Stored>(stored: &S, size: u64) -> Stamp {
        Stamp {
            size,
            changed: stored.changed(),
        }
    }

    /// Whether the same is reported of the input now.
    pub fn is_of<S: Stored>(self, stored: &S) -> bool {
        match stored.size() {
            Ok(size) => self == Stamp::new(stored, size),
            Err(_) => false,
        }
    }
}
