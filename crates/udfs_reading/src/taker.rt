//! What takes the blocks of inputs: a table, or something that is used instead of one.

ghost use Rattle.std.specs.Prelude.{◌≡◌, ◌≤◌, ℕ, List, Option, None, IfOk, IfErr, OnOk, OnErr, true, false};
ghost use Rattle.udfs_lattice.specs.declared.facts.Fact.TheVariants.{Conflict};
ghost use Rattle.udfs_lattice.specs.Tables.{Table, join_tables, one_entry, one_record};
ghost use Rattle.udfs_reading.specs.Gains.{LeavesReading, TakesReading};
ghost use Rattle.udfs_reading.specs.Places.{StandsAt, HasBlockAt};

use crate::device::Source;
use udfs_lattice::{BlockTable, Fact};

/// A taker did not take what it was given, for example because memory ran out, or because what it looks into failed. A taker
/// that looks into something reports itself which it was.
#[derive(Clone, Copy, Debug, PartialEq, Eq)]
pub struct NotTaken;

/// What takes what inputs of the kind `R` say of blocks. It is given the beginning of each input, and each content and each
/// conflict in the order of the input, unless it takes all records itself in [`take_records`](Self::take_records).
pub trait Taker<R: Source> {
    /// This is the table of what it took so far. If it keeps no bytes, but looks into inputs, this is stated only where the bytes
    /// of these are known.
    ghost took: { Self → Table → Type 0 };

    /// The bytes of the input that is being taken, where the taker looks into it and its bytes are known.
    ghost input: { Self → Option (List ℕ) };

    /// The next input begins. It is said before its first byte is read.
    fn begin(&mut self, source: &mut R)
        ensures same { (t : Table) → took self.old t → took self.new t }
        ensures input { StandsAt (input self.new) 0 (R.remaining source.new) }
        ensures unread { R.remaining source.new ≡ R.remaining source.old }
        ensures count { R.faults source.new ≡ R.faults source.old };

    /// Takes all records of the input that has just begun, where it is a reading and says itself of which blocks its records
    /// are: so none of its bytes has to be read that is not looked into. It returns whether it did.
    ///
    /// # Errors
    ///
    /// The number of the record, from 1, that was not taken, for the reasons of [`put`](Self::put).
    fn take_records(&mut self, source: &mut R) -> Result<bool, u32>
        requires { StandsAt (input self.old) 0 (R.remaining source.old) }
        ensures taken { IfOk result (λ all. all ≡ true → TakesReading (took self.old) (took self.new) (R.remaining source.old) (R.remaining source.new)) }
        ensures same { IfOk result (λ all. all ≡ false → (t : Table) → took self.old t → took self.new t) }
        ensures unread { IfOk result (λ all. all ≡ false → R.remaining source.new ≡ R.remaining source.old) }
        ensures input { IfOk result (λ all. all ≡ false → input self.new ≡ input self.old) }
        ensures left { IfErr result (LeavesReading (R.remaining source.old) (R.remaining source.new)) }
        ensures count { R.faults source.new ≡ R.faults source.old }
    {
        let _ = self;
        let _ = source;
        Ok(false)
    }

    /// Takes the bytes of block `block` in one reading, as [`BlockTable::put`] does. `at` is their offset in the input, modulo
    /// 2 ^ 64.
    ///
    /// # Errors
    ///
    /// `NotTaken`, for example because memory ran out, or because what it looks into failed. Then its table is as it was before.
    fn put(&mut self, block: u32, bytes: &[u8; 2048], at: u64) -> Result<(), NotTaken>
        requires block { block ≤ 4194303 }
        requires at { HasBlockAt (input self.now) at bytes.now }
        ensures ok { OnOk result ((t : Table) → took self.old t → took self.new (join_tables t (one_record block bytes.now))) }
        ensures err { OnErr result ((t : Table) → took self.old t → took self.new t) }
        ensures input { input self.new ≡ input self.old };

    /// Takes that block `block` is in conflict, as [`BlockTable::add`] does with `Fact::Conflict`.
    ///
    /// # Errors
    ///
    /// As [`put`](Self::put).
    fn dispute(&mut self, block: u32) -> Result<(), NotTaken>
        requires { block ≤ 4194303 }
        ensures ok { OnOk result ((t : Table) → took self.old t → took self.new (join_tables t (one_entry block Conflict))) }
        ensures err { OnErr result ((t : Table) → took self.old t → took self.new t) }
        ensures input { input self.new ≡ input self.old };
}

/// It keeps the bytes, and does not need their offset in the input.
impl<R: Source> Taker<R> for BlockTable {
    ghost took = { λ a t. a ≡ t };

    ghost input = { λ _. None };

    fn begin(&mut self, _source: &mut R) {
        let _ = self;
    }

    fn put(&mut self, block: u32, bytes: &[u8; 2048], _at: u64) -> Result<(), NotTaken> {
        match BlockTable::put(self, block, bytes) {
            Ok(()) => Ok(()),
            Err(_) => Err(NotTaken),
        }
    }

    fn dispute(&mut self, block: u32) -> Result<(), NotTaken> {
        match self.add(block, Fact::Conflict) {
            Ok(()) => Ok(()),
            Err(_) => Err(NotTaken),
        }
    }
}
