//! Whether the times of what is made are kept.

use crate::zones::Zone;
use std::cell::{Cell, OnceCell};
use udfs_osta::Stamp;

/// Whether what is made gets the times that a volume has for it, and what came of that.
#[derive(Drop)]
pub struct Times {
    zone: OnceCell<Zone>,
    lacking: Cell<bool>,
}

impl Times {
    /// None are kept.
    pub fn new() -> Times {
        Times {
            zone: OnceCell::new(),
            lacking: Cell::new(false),
        }
    }

    /// They are kept from now on, and the clock of local ones is in this zone. The first zone stays.
    pub fn keep(&self, zone: Zone) {
        let _ = self.zone.set(zone);
    }

    /// Whether they are kept.
    pub fn are_kept(&self) -> bool {
        self.zone.get().is_some()
    }

    /// The moment of a stamp, as [`moment_in`](crate::moment_in) has it. None where no times are kept.
    pub fn moment(&self, stamp: Stamp) -> Option<u64> {
        self.zone.get()?.moment(stamp)
    }

    /// A time could not be set.
    pub fn lack(&self) {
        self.lacking.set(true);
    }

    /// Whether one could not be set.
    pub fn are_lacking(&self) -> bool {
        self.lacking.get()
    }
}
