//! The allocation descriptors that a walk is in, copied out of the block that holds them.

ghost use Rattle.std.specs.Prelude.{◌≡◌, ◌≤◌, ◌<◌, length};
ghost use Rattle.udfs_file.specs.Bodies.{descriptor_at, descriptor_count};

use crate::extents::{descriptor, descriptor_count};
use std::marker::Model;
use udfs_tag::LongAd;

/// At most a block of allocation descriptors. It owns its bytes, so that the block that held them may be put away before the next one
/// is read. In contracts it is these bytes.
#[derive(Drop)]
pub(crate) struct Area {
    held: [u8; 2048],
    count: usize,
}

impl Model for Area {
    ghost use Rattle.std.specs.Prelude.{ℕ, List, ◌≤◌, take};

    ghost Value = { List ℕ };

    ghost view = { λ a. take a.count a.held };

    ghost invariant = { λ a. a.count ≤ 2048 };
}

impl Area {
    /// A copy of these descriptors.
    pub(crate) fn of(bytes: &[u8]) -> Area
        requires { length bytes.now ≤ 2048 }
        ensures { result ≡ bytes.now }
    {
        let mut held = [0; 2048];
        let count = bytes.len();
        held[..count].copy_from_slice(bytes);
        Area { held, count }
    }

    /// How many descriptors there are.
    pub(crate) fn descriptor_count(&self, form: u16) -> usize
        ensures value { result ≡ descriptor_count form self.now }
        ensures fits { result ≤ length self.now }
    {
        descriptor_count(form, &self.held[..self.count])
    }

    /// Descriptor `i`, as it is counted.
    pub(crate) fn descriptor(&self, tail: bool, form: u16, reference: u16, i: usize) -> LongAd
        requires { i < descriptor_count form self.now }
        ensures { result ≡ descriptor_at tail form reference self.now i }
    {
        descriptor(tail, form, reference, &self.held[..self.count], i)
    }
}
