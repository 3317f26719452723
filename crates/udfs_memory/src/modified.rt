//! The times of files and folders in memory.

use std::alloc::{AllocError, Global};
use std::cell::RefCell;

/// The time that was set of a path.
#[derive(Drop)]
struct Modified {
    path: Vec<u8>,
    micros: u64,
}

/// The times that were set, and that nothing has changed since.
#[derive(Drop)]
pub struct ModifiedTimes {
    alloc: Global,
    times: RefCell<Vec<Modified>>,
}

impl ModifiedTimes {
    /// None.
    pub fn new(alloc: Global) -> ModifiedTimes {
        ModifiedTimes {
            alloc,
            times: RefCell::new(Vec::new(alloc)),
        }
    }

    /// The time of this path was set.
    pub fn set(&self, path: &[u8], micros: u64) -> Result<(), AllocError> {
        self.forget(path);
        let path = Vec::from_slice(self.alloc, path)?;
        match self.times.try_borrow_mut() {
            Ok(mut times) => Ok(times.push(Modified { path, micros })?),
            Err(_) => Err(AllocError),
        }
    }

    /// What is at this path has the time of a change that was made now.
    pub fn forget(&self, path: &[u8]) {
        if let Ok(mut times) = self.times.try_borrow_mut() {
            let mut index = 0;
            for _ in 0..times.len() {
                if index < times.len() && times[index].path.as_slice() == path {
                    drop(times.remove(index));
                } else {
                    index = index.saturating_add(1);
                }
            }
        }
    }

    /// Something was made, moved or removed at this path, so that its folder was changed now.
    pub fn change(&self, path: &[u8]) {
        if let Some(at) = path.iter().rposition(|byte| *byte == b'/') {
            self.forget(&path[..at]);
        }
    }

    /// The time of a path, if it was set.
    pub fn get(&self, path: &[u8]) -> Option<u64> {
        let Ok(times) = self.times.try_borrow() else {
            return None;
        };
        for modified in times.iter() {
            if modified.path.as_slice() == path {
                return Some(modified.micros);
            }
        }
        None
    }
}
