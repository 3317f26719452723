//! What the calls of a run did, which a test reads when the run is over, and what is to become of them.

use crate::deeds::Deed;
use crate::device::{Device, SOUND};
use crate::kept::{Kept, copied};
use crate::modified::ModifiedTimes;
use std::alloc::{AllocError, Global};
use std::cell::{Cell, RefCell};

/// How the calls of a run come out.
#[derive(Clone, Copy)]
pub struct Setting {
    /// What files are read from.
    pub inputs: Device,
    /// What they are written to.
    pub outputs: Device,
    /// The first of the calls that change the disk that fails, counted from 1; 0 for none.
    pub fails_from: u64,
    /// The last one that fails.
    pub fails_to: u64,
    /// A path of which no time can be set.
    pub timeless: &'static str,
}

impl Setting {
    /// Sound devices, and no call fails.
    pub fn sound() -> Setting {
        Setting {
            inputs: SOUND,
            outputs: SOUND,
            fails_from: 0,
            fails_to: 0,
            timeless: "",
        }
    }
}

/// What was done, counted and set.
#[derive(Drop)]
pub struct Notes {
    alloc: Global,
    done: RefCell<Vec<Kept>>,
    calls: Cell<u64>,
    wanted: Cell<bool>,
    pub(crate) times: ModifiedTimes,
}

impl Notes {
    /// Nothing yet.
    pub fn new(alloc: Global) -> Notes {
        Notes {
            alloc,
            done: RefCell::new(Vec::new(alloc)),
            calls: Cell::new(0),
            wanted: Cell::new(false),
            times: ModifiedTimes::new(alloc),
        }
    }

    /// A call that changes the disk is made. Whether it is one that fails.
    pub(crate) fn fails(&self, setting: &Setting) -> bool {
        let number = self.calls.get().saturating_add(1);
        self.calls.set(number);
        setting.fails_from <= number && number <= setting.fails_to
    }

    /// A call, before which so many were made, did this.
    pub(crate) fn note(&self, number: u64, deed: &Deed<'_>) -> Result<(), AllocError> {
        let what = copied(self.alloc, deed)?;
        match self.done.try_borrow_mut() {
            Ok(mut done) => Ok(done.insert(0, Kept { number, what })?),
            Err(_) => Err(AllocError),
        }
    }

    /// What was done since this was last asked, the newest first.
    pub(crate) fn take(&self) -> Vec<Kept> {
        match self.done.try_replace(Vec::new(self.alloc)) {
            Ok(done) => done,
            Err(none) => none,
        }
    }

    /// How many calls there were that change the disk.
    pub(crate) fn calls(&self) -> u64 {
        self.calls.get()
    }

    /// The files in memory themselves ran out of memory.
    pub(crate) fn want(&self) {
        self.wanted.set(true);
    }

    /// Whether they did.
    pub(crate) fn wanted(&self) -> bool {
        self.wanted.get()
    }
}
