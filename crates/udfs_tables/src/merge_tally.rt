//! The join of the inputs of `merge`, and what is said of it when it is done.

ghost use Rattle.std.specs.Prelude.{◌≡◌, None, IfOk};
ghost use Rattle.udfs_lattice.specs.Tables.{conflict_count, empty_table, known_count};

use crate::beside::{Beside, Totals};
use crate::said::Disagreement;
use std::alloc::{AllocError, Global};
use std::marker::Model;
use udfs_common::taking::TableTaker;
use udfs_lattice::{BlockTable, Fact, Join};
use udfs_reading::{NotTaken, Source, Taker};

/// The table of the inputs, which counts while it takes them.
#[derive(Drop)]
pub struct MergeTally {
    joined: BlockTable,
    alloc: Global,
    beside: Beside,
    /// The first content of each block in which the input that is read disagrees with those before it: the join lets go of it, as the
    /// block is in conflict there.
    others: BlockTable,
}

impl Model for MergeTally {
    ghost use Rattle.udfs_lattice.specs.Tables.{Table, table_code};

    ghost Value = { Table };

    ghost coded = { table_code };

    ghost view = { λ m. m.joined };
}

impl MergeTally {
    /// The tally of `inputs` inputs, of which none is begun.
    ///
    /// # Errors
    ///
    /// `AllocError` where memory ran out.
    pub fn new(alloc: Global, inputs: usize) -> Result<MergeTally, AllocError>
        ensures { IfOk result (λ tally. tally ≡ empty_table) }
    {
        Ok(MergeTally {
            joined: BlockTable::new(alloc),
            alloc,
            beside: Beside::new(alloc, inputs)?,
            others: BlockTable::new(alloc),
        })
    }

    /// The join of what was taken.
    pub fn table(&self) -> &BlockTable
        ensures { result.now ≡ self.now }
    {
        &self.joined
    }

    /// The input that was read is over.
    fn end_input(&mut self)
        ensures { self.new ≡ self.old }
    {
        self.others = BlockTable::new(self.alloc);
        let conflicts = if self.beside.is_first() {
            self.joined.conflicts()
        } else {
            0
        };
        self.beside.end_input(conflicts);
    }

    /// How many blocks are known that the first input says nothing of.
    fn new_known(&self) -> u32 {
        let mut count = 0u32;
        for (block, fact) in self.joined.entries() {
            if let Fact::Known(_) = fact
                && !self.beside.first.speaks_of(block)
            {
                count = count.saturating_add(1);
            }
        }
        count
    }

    /// The last input is over: what is known and in conflict in the join.
    pub fn close(&mut self) -> Totals
        ensures known { result.known ≡ known_count self.old }
        ensures conflicts { result.conflicts ≡ conflict_count self.old }
        ensures table { self.new ≡ self.old }
    {
        self.end_input();
        let conflicts = self.joined.conflicts();
        Totals {
            known: self.joined.known(),
            new_known: self.new_known(),
            conflicts,
            new_conflicts: conflicts.saturating_sub(self.beside.first_conflicts),
        }
    }

    /// For each further input than the first that is over, in their order, in how many blocks it disagrees with those before it.
    pub fn disagreements(&self) -> &[Disagreement] {
        self.beside.disagreements()
    }

    /// The input that is read has these bytes for a block.
    fn hear(&mut self, block: u32, bytes: &[u8; 2048]) -> Result<(), AllocError>
        ensures { self.new ≡ self.old }
    {
        self.beside.input.reach(block)?;
        let joined = state_before(&self.joined, &self.beside, block);
        let is_known = matches!(joined, Fact::Known(_));
        let is_same = if self.beside.input.differs_in(block) {
            is_known_as(self.others.state(block), bytes)
        } else {
            is_known_as(joined, bytes)
        };
        if is_known
            && !is_same
            && !self.beside.input.speaks_of(block)
            && self.others.put(block, bytes).is_err()
        {
            return Err(AllocError);
        }
        self.beside.input.hear(block, is_known, is_same);
        Ok(())
    }
}

impl MergeTally {
    /// The input that is read has this state of a block.
    fn hear_fact(&mut self, block: u32, fact: Fact<&[u8; 2048]>) -> Result<(), AllocError>
        ensures { self.new ≡ self.old }
    {
        match fact {
            Fact::Unknown => Ok(()),
            Fact::Known(bytes) => self.hear(block, bytes),
            Fact::Conflict => {
                self.beside.input.reach(block)?;
                self.beside.input.hear_conflict(block);
                Ok(())
            }
        }
    }

    /// The input that is read has this table.
    fn hear_all(&mut self, own: &BlockTable) -> Result<(), AllocError>
        ensures { self.new ≡ self.old }
    {
        for (block, fact) in own.entries() {
            self.hear_fact(block, fact)?;
        }
        Ok(())
    }
}

/// The state of a block in the join, where inputs came before the one that is read.
fn state_before<'a>(joined: &'a BlockTable, beside: &Beside, block: u32) -> Fact<&'a [u8; 2048]> {
    if beside.is_further() {
        joined.state(block)
    } else {
        Fact::Unknown
    }
}

/// Whether a block is known to have these bytes.
fn is_known_as(fact: Fact<&[u8; 2048]>, bytes: &[u8; 2048]) -> bool {
    match fact {
        Fact::Known(known) => *known == *bytes,
        _ => false,
    }
}

impl<R: Source> TableTaker<R> for MergeTally {
    fn table(&self) -> &BlockTable {
        MergeTally::table(self)
    }

    fn take_table(&mut self, own: &BlockTable) -> Result<(), AllocError> {
        self.end_input();
        self.beside.begin_input();
        self.hear_all(own)?;
        match self.joined.join(own) {
            Ok(()) => Ok(()),
            Err(_) => Err(AllocError),
        }
    }
}

impl<R: Source> Taker<R> for MergeTally {
    ghost took = { λ m t. m ≡ t };

    ghost input = { λ _. None };

    fn begin(&mut self, _source: &mut R) {
        self.end_input();
        self.beside.begin_input();
    }

    fn put(&mut self, block: u32, bytes: &[u8; 2048], _at: u64) -> Result<(), NotTaken> {
        if self.hear(block, bytes).is_err() {
            return Err(NotTaken);
        }
        match self.joined.put(block, bytes) {
            Ok(()) => Ok(()),
            Err(_) => Err(NotTaken),
        }
    }

    fn dispute(&mut self, block: u32) -> Result<(), NotTaken> {
        if self.beside.input.reach(block).is_err() {
            return Err(NotTaken);
        }
        self.beside.input.hear_conflict(block);
        match self.joined.add(block, Fact::Conflict) {
            Ok(()) => Ok(()),
            Err(_) => Err(NotTaken),
        }
    }
}
