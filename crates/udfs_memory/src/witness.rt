//! Who watches a run of a test.

use std::alloc::Global;
use std::cell::{Cell, RefCell};
use std::io::Error;
use udfs_host_fs::{Stage, Watch};

/// No person: it keeps what is remarked, and nothing else.
#[derive(Drop)]
pub struct Witness {
    speaks: Cell<bool>,
    hushed: Cell<bool>,
    remarks: RefCell<String>,
}

impl Witness {
    /// One who has heard nothing yet.
    pub fn new(alloc: Global) -> Witness {
        Witness {
            speaks: Cell::new(false),
            hushed: Cell::new(false),
            remarks: RefCell::new(String::new(alloc)),
        }
    }

    /// Whether exactly these lines were remarked, while more was to be said.
    pub fn has_heard(&self, lines: &str) -> bool {
        match self.remarks.try_borrow() {
            Ok(held) => held.as_str() == lines,
            Err(_) => false,
        }
    }
}

impl Watch for Witness {
    fn failed(&self, _error: Error) {}

    fn reason(&self) -> Option<Error> {
        None
    }

    fn is_watched(&self) -> bool {
        false
    }

    fn begin(&self, _stage: Stage) {}

    fn opened(&self, _size: Option<u64>) -> usize {
        0
    }

    fn read(&self, _input: usize, _count: usize) {}

    fn wrote(&self, _count: usize) {}

    fn hush(&self) {
        self.hushed.set(true);
    }

    fn speak(&self) {
        self.speaks.set(true);
    }

    fn remark(&self, text: &str) {
        if self.hushed.get() || !self.speaks.get() {
            return;
        }
        if let Ok(mut held) = self.remarks.try_borrow_mut() {
            for piece in [text, "\n"] {
                let _ = held.push_str(piece);
            }
        }
    }
}
