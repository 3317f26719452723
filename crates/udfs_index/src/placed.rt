//! What takes blocks by the positions of their bytes, and reads only those that it has to compare.

ghost use Rattle.std.specs.Prelude.{◌≡◌, ◌+◌, ◌^◌, ◌≤◌, ◌<◌, ⊤, None, IfSome, OnOk, take, drop};
ghost use Rattle.udfs_lattice.specs.States.{IsBlock};
ghost use Rattle.udfs_lattice.specs.Tables.{Table};
ghost use Rattle.udfs_reading.specs.Field.{TakesBlock};
ghost use Rattle.udfs_reading.specs.Gains.{Gains};
ghost use Rattle.udfs_index.specs.Places.{behind};
ghost use Rattle.udfs_index.specs.Recorded.{IsOf};

use crate::cursor::Cursor;
use crate::stored::Stored;
use udfs_reading::{NotTaken, Taker};

/// A taker that takes blocks also by the positions of their bytes. [`Index`](crate::Index) is one.
pub trait PlaceTaker<'a, S: Stored + 'a>: Taker<Cursor<'a, S>> {
    /// Takes the 2048 bytes of a block that are at position `at` of the input that is being taken, which is this one.
    ///
    /// # Errors
    ///
    /// As those of [`Taker::put`](udfs_reading::Taker::put).
    fn take_placed(&mut self, stored: &S, block: u32, at: u64) -> Result<(), NotTaken>
        requires block { block ≤ 4194303 }
        requires at { at < 2 ^ 63 }
        requires is { IsOf (Self.input self.old) (S.content stored.now) }
        requires whole { IfSome (S.content stored.now) (λ all. IsBlock (take 2048 (drop at all))) }
        ensures ok { OnOk result (Gains (Self.took self.old) (Self.took self.new) (TakesBlock (behind at (S.content stored.now)) (behind (at + 2048) (S.content stored.now)) block)) }
        ensures input { Self.input self.new ≡ Self.input self.old };

    /// The bytes from position `at` of the input that is being taken could not be read, or are others than before.
    fn miss(&mut self, at: u64)
        ensures same { (t : Table) → Self.took self.old t → Self.took self.new t }
        ensures input { Self.input self.new ≡ Self.input self.old };
}

/// Takes nothing of its input, which is only judged.
#[derive(Drop)]
pub struct Judge<'a, S: Stored> {
    pub stored: &'a S,
}

impl<'a, S: Stored + 'a> Taker<Cursor<'a, S>> for Judge<'a, S> {
    ghost took = { λ _ _. ⊤ };

    ghost input = { λ _. None };

    fn begin(&mut self, _source: &mut Cursor<'a, S>) {
        let _ = self;
    }

    fn put(&mut self, _block: u32, _bytes: &[u8; 2048], _at: u64) -> Result<(), NotTaken> {
        let _ = self;
        Ok(())
    }

    fn dispute(&mut self, _block: u32) -> Result<(), NotTaken> {
        let _ = self;
        Ok(())
    }
}

impl<'a, S: Stored + 'a> PlaceTaker<'a, S> for Judge<'a, S> {
    fn take_placed(&mut self, _stored: &S, _block: u32, _at: u64) -> Result<(), NotTaken> {
        let _ = self;
        Ok(())
    }

    fn miss(&mut self, _at: u64) {
        let _ = self;
    }
}
