//! Readings whose records are taken by position: only the taker reads the bytes of a block, where it needs them.

ghost use Rattle.std.specs.Prelude.{◌≡◌, ◌≤◌, ℕ, List, Option, IfErr, IfOk, IfSome, OnOk, true, false};
ghost use Rattle.udfs_lattice.specs.Tables.{Table};
ghost use Rattle.udfs_reading.specs.Gains.{LeavesReading, TakesReading};
ghost use Rattle.udfs_reading.specs.Places.{StandsAt};
ghost use Rattle.udfs_index.specs.Recorded.{IsOf, IsRecordedAt, TakesNext};

use crate::cursor::Cursor;
use crate::stored::{HEADER, RECORD, Stored};
use udfs_reading::{NotTaken, Source};

/// A taker of records by their positions in an input. [`Index`](crate::Index) is one, and a [`Taker`](udfs_reading::Taker) too.
pub trait RecordTaker<S: Stored> {
    /// This is the table of what it took so far.
    ghost took: { Self → Table → Type 0 };

    /// The bytes of the input that is being taken, where the taker looks into it and its bytes are known.
    ghost input: { Self → Option (List ℕ) };

    /// Takes the record of this number, from 0, of the input that is being taken, which is this one. The record is of this block.
    ///
    /// # Errors
    ///
    /// As those of [`Taker::put`](udfs_reading::Taker::put).
    fn take_record(&mut self, stored: &S, number: u32, block: u32) -> Result<(), NotTaken>
        requires block { block ≤ 4194303 }
        requires at { IfSome (S.content stored.now) (λ all. IsRecordedAt all number block) }
        requires is { IsOf (input self.old) (S.content stored.now) }
        ensures next { OnOk result (TakesNext (S.content stored.now) number (took self.old) (took self.new)) }
        ensures input { input self.new ≡ input self.old };
}

/// Takes all records of the input that has just begun, as [`Taker::take_records`](udfs_reading::Taker::take_records) does, where the
/// input says of which blocks they are.
///
/// # Errors
///
/// The number of the record, from 1, that was not taken.
pub fn take_records<'a, S: Stored, T: RecordTaker<S>>(
    source: &mut Cursor<'a, S>,
    taker: &mut T,
) -> Result<bool, u32>
    requires { StandsAt (T.input taker.now) 0 (⟦<Cursor<'a, S> as Source>⟧.remaining source.now) }
    ensures taken { IfOk result (λ all. all ≡ true → TakesReading (T.took taker.old) (T.took taker.new) (⟦<Cursor<'a, S> as Source>⟧.remaining source.old) (⟦<Cursor<'a, S> as Source>⟧.remaining source.new)) }
    ensures same { IfOk result (λ all. all ≡ false → (t : Table) → T.took taker.old t → T.took taker.new t) }
    ensures unread { IfOk result (λ all. all ≡ false → ⟦<Cursor<'a, S> as Source>⟧.remaining source.new ≡ ⟦<Cursor<'a, S> as Source>⟧.remaining source.old) }
    ensures input { IfOk result (λ all. all ≡ false → T.input taker.new ≡ T.input taker.old) }
    ensures left { IfErr result (LeavesReading (⟦<Cursor<'a, S> as Source>⟧.remaining source.old) (⟦<Cursor<'a, S> as Source>⟧.remaining source.new)) }
    ensures count { ⟦<Cursor<'a, S> as Source>⟧.faults source.new ≡ ⟦<Cursor<'a, S> as Source>⟧.faults source.old }
{
    let (stored, at) = source.place();
    if at > 0 {
        return Ok(false);
    }
    let Some(count) = stored.records() else {
        return Ok(false);
    };
    source.move_to(HEADER + RECORD * count as u64);
    for number in 0..count {
        let Some(block) = stored.block_of(number) else {
            return Err(number + 1);
        };
        match taker.take_record(stored, number, block) {
            Ok(()) => {}
            Err(NotTaken) => return Err(number + 1),
        }
    }
    Ok(true)
}
