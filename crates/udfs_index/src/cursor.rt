//! A stored input, read from its beginning to its end.

ghost use Rattle.std.specs.Prelude.{◌≡◌, Some, IfSome};
ghost use Rattle.udfs_index.specs.Places.{behind};

use crate::stored::Stored;
use udfs_reading::{DeviceFault, Source};

/// A source of the bytes of a stored input from a position on. It counts its faults.
#[derive(Drop)]
pub struct Cursor<'a, S: Stored> {
    stored: &'a S,
    at: u64,
    faults: u64,
}

impl<'a, S: Stored> Cursor<'a, S> {
    /// A source of all its bytes, with no fault so far.
    pub fn new(stored: &'a S) -> Cursor<'a, S>
        ensures bytes { ⟦<Cursor<'a, S> as Source>⟧.remaining result ≡ S.content stored.now }
        ensures count { ⟦<Cursor<'a, S> as Source>⟧.faults result ≡ 0 }
    {
        Cursor {
            stored,
            at: 0,
            faults: 0,
        }
    }

    /// What it reads, and the position of the next byte.
    pub fn place(&self) -> (&'a S, u64)
        ensures remaining { ⟦<Cursor<'a, S> as Source>⟧.remaining self.now ≡ behind result.1 (S.content result.0.now) }
        ensures stored { result.0 ≡ self.now.stored }
        ensures at { result.1 ≡ self.now.at }
    {
        (self.stored, self.at)
    }

    /// Makes the byte after the first `at` bytes of its input the next to be read, without checking that there is one.
    pub(crate) fn move_to(&mut self, at: u64)
        ensures at { self.new.at ≡ at }
        ensures stored { self.new.stored ≡ self.old.stored }
        ensures faults { self.new.faults ≡ self.old.faults }
    {
        self.at = at;
    }
}

impl<'a, S: Stored> Source for Cursor<'a, S> {
    ghost remaining = { λ c. behind c.at (S.content c.stored.now) };

    ghost faults = { λ c. c.faults };

    fn read(&mut self, buf: &mut [u8]) -> Result<usize, DeviceFault> {
        if let Ok(n) = self.stored.read_at(self.at, buf)
            && let Some(at) = self.at.checked_add(n as u64)
        {
            self.at = at;
            return Ok(n);
        }
        self.faults = self.faults.wrapping_add(1);
        Err(DeviceFault)
    }
}
