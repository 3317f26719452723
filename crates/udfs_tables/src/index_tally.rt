//! The join of inputs of `merge` that are read at positions, by where its bytes are, and what is said of it when it is done.

ghost use Rattle.std.specs.Prelude.{◌≡◌, ℕ, IfOk};
ghost use Rattle.udfs_index.specs.Copying.{AreAllTold};
ghost use Rattle.udfs_lattice.specs.Tables.{Table, IsTable, conflict_count, empty_table, known_count};

use crate::beside::{Beside, Totals};
use crate::said::Disagreement;
use std::alloc::{AllocError, Global};
use udfs_common::index_taking::IndexTaker;
use udfs_index::{Cursor, Index, RecordTaker, Stored, Unread, take_records};
use udfs_lattice::Fact;
use udfs_reading::{NotTaken, ReadingError, Taker, take_inputs};

/// The index of the inputs, which counts while it takes them.
#[derive(Drop)]
pub struct IndexTally<'a, S: Stored> {
    index: Index<'a, S>,
    beside: Beside,
}

impl<'a, S: Stored> IndexTally<'a, S> {
    /// The tally of `inputs` inputs, of which none is begun.
    ///
    /// # Errors
    ///
    /// `AllocError` where memory ran out.
    pub fn new(alloc: Global, inputs: usize) -> Result<IndexTally<'a, S>, AllocError>
        ensures { IfOk result (λ tally. ⟦<IndexTally<'a, S> as Taker<Cursor<'a, S>>>⟧.took tally empty_table) }
    {
        Ok(IndexTally {
            index: Index::new(alloc)?,
            beside: Beside::new(alloc, inputs)?,
        })
    }

    /// The index of what was taken.
    pub fn index(&self) -> &Index<'a, S>
        ensures { (t : Table) → ⟦<IndexTally<'a, S> as Taker<Cursor<'a, S>>>⟧.took self.now t → IsTable t × ⟦<Index<'a, S> as Taker<Cursor<'a, S>>>⟧.took result.now t }
    {
        &self.index
    }

    /// The input that was read is over.
    fn end_input(&mut self)
        ensures { self.new.index ≡ self.old.index }
    {
        let conflicts = if self.beside.is_first() {
            self.index.conflicts()
        } else {
            0
        };
        self.beside.end_input(conflicts);
    }

    /// How many blocks are known that the first input says nothing of.
    fn new_known(&self) -> u32 {
        let mut count = 0u32;
        for block in 0..self.index.end() {
            if let Fact::Known(_) = self.index.slot(block)
                && !self.beside.first.speaks_of(block)
            {
                count = count.saturating_add(1);
            }
        }
        count
    }

    /// The last input is over: what is known and in conflict in the join.
    pub fn close(&mut self) -> Totals
        ensures known { (t : Table) → AreAllTold S.content → ⟦<IndexTally<'a, S> as Taker<Cursor<'a, S>>>⟧.took self.old t → result.known ≡ known_count t }
        ensures conflicts { (t : Table) → AreAllTold S.content → ⟦<IndexTally<'a, S> as Taker<Cursor<'a, S>>>⟧.took self.old t → result.conflicts ≡ conflict_count t }
    {
        self.end_input();
        let conflicts = self.index.conflicts();
        Totals {
            known: self.index.known(),
            new_known: self.new_known(),
            conflicts,
            new_conflicts: conflicts.saturating_sub(self.beside.first_conflicts),
        }
    }

    /// For each further input than the first that is over, in their order, in how many blocks it disagrees with those before it.
    pub fn disagreements(&self) -> &[Disagreement] {
        self.beside.disagreements()
    }

    /// Whether the input that is read had other bytes for a block at first than those before it, and these are the same again.
    fn is_other_again(&mut self, block: u32, bytes: &[u8; 2048]) -> Result<bool, NotTaken>
        ensures same { (t : Table) → ⟦<Index<'a, S> as Taker<Cursor<'a, S>>>⟧.took self.old.index t → ⟦<Index<'a, S> as Taker<Cursor<'a, S>>>⟧.took self.new.index t }
        ensures input { ⟦<Index<'a, S> as Taker<Cursor<'a, S>>>⟧.input self.new.index ≡ ⟦<Index<'a, S> as Taker<Cursor<'a, S>>>⟧.input self.old.index }
    {
        if !self.beside.input.differs_in(block) {
            return Ok(false);
        }
        self.index.is_disputed_by(block, bytes)
    }
}

impl<'a, S: Stored> RecordTaker<S> for IndexTally<'a, S> {
    ghost took = { λ x t. IsTable t × ⟦<Index<'a, S> as Taker<Cursor<'a, S>>>⟧.took x.index t };

    ghost input = { λ x. ⟦<Index<'a, S> as Taker<Cursor<'a, S>>>⟧.input x.index };

    fn take_record(&mut self, stored: &S, number: u32, block: u32) -> Result<(), NotTaken> {
        if self.beside.input.reach(block).is_err() {
            return Err(NotTaken);
        }
        let was_known = matches!(self.index.slot(block), Fact::Known(_));
        match self.index.take_record(stored, number, block) {
            Ok(()) => {
                let is_known = matches!(self.index.slot(block), Fact::Known(_));
                let is_further = self.beside.is_further();
                self.beside
                    .input
                    .hear(block, is_further && was_known, was_known && is_known);
                Ok(())
            }
            Err(_) => Err(NotTaken),
        }
    }
}

impl<'a, S: Stored> Taker<Cursor<'a, S>> for IndexTally<'a, S> {
    ghost took = { λ x t. IsTable t × ⟦<Index<'a, S> as Taker<Cursor<'a, S>>>⟧.took x.index t };

    ghost input = { λ x. ⟦<Index<'a, S> as Taker<Cursor<'a, S>>>⟧.input x.index };

    fn begin(&mut self, source: &mut Cursor<'a, S>) {
        self.end_input();
        self.beside.begin_input();
        self.index.begin(source);
    }

    fn take_records(&mut self, source: &mut Cursor<'a, S>) -> Result<bool, u32> {
        take_records(source, self)
    }

    fn put(&mut self, block: u32, bytes: &[u8; 2048], at: u64) -> Result<(), NotTaken> {
        if self.beside.input.reach(block).is_err() {
            return Err(NotTaken);
        }
        let Ok(is_again) = self.is_other_again(block, bytes) else {
            return Err(NotTaken);
        };
        let was_known = matches!(self.index.slot(block), Fact::Known(_));
        match self.index.put(block, bytes, at) {
            Ok(()) => {
                let is_known = matches!(self.index.slot(block), Fact::Known(_));
                let is_further = self.beside.is_further();
                self.beside.input.hear(
                    block,
                    is_further && was_known,
                    is_again || was_known && is_known,
                );
                Ok(())
            }
            Err(_) => Err(NotTaken),
        }
    }

    fn dispute(&mut self, block: u32) -> Result<(), NotTaken> {
        if self.beside.input.reach(block).is_err() {
            return Err(NotTaken);
        }
        match self.index.dispute(block) {
            Ok(()) => {
                self.beside.input.hear_conflict(block);
                Ok(())
            }
            Err(_) => Err(NotTaken),
        }
    }
}

/// All bytes of an input are read: it is told of each block whether it has the same bytes as before.
impl<'a, S: Stored + 'a> IndexTaker<'a, S> for IndexTally<'a, S> {
    fn take_input(&mut self, stored: &'a S) -> Result<(), ReadingError> {
        match take_inputs(&mut [Cursor::new(stored)], self) {
            Ok(()) => Ok(()),
            Err(error) => Err(error.error),
        }
    }

    fn unread(&self) -> Option<Unread> {
        self.index.failed()
    }

    fn in_conflict(&self) -> u32 {
        self.index.conflicts()
    }
}
