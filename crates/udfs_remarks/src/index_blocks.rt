//! An index as a store of blocks of which a report can be made.

ghost use Rattle.std.specs.Prelude.{◌≡◌, ℕ, IfOk, MatchOption, OnErr};
ghost use Rattle.udfs_index.specs.Copying.{AreAllTold};
ghost use Rattle.udfs_lattice.specs.States.{fact_now};
ghost use Rattle.udfs_lattice.specs.Tables.{IsTable, Table};
ghost use Rattle.udfs_salvage.specs.Reports.{IsPastEnd};
ghost use Rattle.udfs_remarks.specs.IndexBlocks.{IsNothingBehind, IsTakenTable, bounded};

use crate::steady::SteadyStore;
use std::cell::Cell;
use udfs_index::{Cursor, END, Index, Stored, Unread};
use udfs_lattice::{BlockStore, Fact, ReadFault};
use udfs_reading::Taker;
use udfs_salvage::ReportStore;

/// How many blocks there are at most.
const BLOCKS: u32 = 4_194_304;

/// How many bytes an input of an index has at most.
const BYTES: u64 = 1 << 44;

/// The blocks of an index, each of which is read again from its input where its bytes are asked for. It remembers what could not be read.
#[derive(Drop)]
pub struct IndexBlocks<'i, 'a, S: Stored> {
    index: &'i Index<'a, S>,
    /// The inputs of the index: while they are held, its blocks can be read.
    inputs: &'a [S],
    unread: Cell<Option<Unread>>,
}

impl<'i, 'a, S: Stored> IndexBlocks<'i, 'a, S> {
    /// The blocks of this index, which has taken these inputs.
    pub fn new(index: &'i Index<'a, S>, inputs: &'a [S]) -> IndexBlocks<'i, 'a, S>
        ensures { (t : Table) → AreAllTold S.content → IsTable t → ⟦<Index<'a, S> as Taker<Cursor<'a, S>>>⟧.took index.now t → ⟦<IndexBlocks<'i, 'a, S> as ReportStore>⟧.holds result t }
    {
        IndexBlocks {
            index,
            inputs,
            unread: Cell::new(None),
        }
    }

    /// What could not be read, where a read failed: an input, counted from 0, and the position of the block's bytes in it, or its end where it has changed.
    pub fn unread(&self) -> Unread {
        match self.unread.get() {
            Some(unread) => unread,
            None => Unread { input: 0, at: 0 },
        }
    }

    /// The least block after `last` of which something is known, if there is one.
    fn least_behind(&self, last: u32) -> Option<u32>
        ensures { AreAllTold S.content → MatchOption result (IsNothingBehind (⟦<IndexBlocks<'i, 'a, S> as BlockStore>⟧.states self.now) last) (λ n. IsPastEnd (⟦<IndexBlocks<'i, 'a, S> as BlockStore>⟧.states self.now) last n) }
    {
        if last >= BLOCKS {
            return None;
        }
        for block in last + 1..self.index.end() {
            match self.knowledge(block) {
                Fact::Unknown => {}
                Fact::Known(()) => return Some(block),
                Fact::Conflict => return Some(block),
            }
        }
        None
    }

    /// The bytes of this block could not be read.
    fn miss(&self, n: u32) -> ReadFault {
        if let Fact::Known(place) = self.index.slot(n) {
            self.unread.set(Some(Unread {
                input: (place / BYTES) as usize,
                at: place % BYTES,
            }));
        }
        ReadFault
    }
}

impl<'i, 'a, S: Stored> BlockStore for IndexBlocks<'i, 'a, S> {
    ghost tells = { AreAllTold S.content };

    ghost states = { λ x. bounded (⟦<Index<'a, S> as BlockStore>⟧.states x.index.now) };

    // A device may fail, and a file that was changed may be shorter.
    ghost fails = { Unit {0} };

    #[tactic(auto, using(crate::proofs::IndexStates::far_is, crate::proofs::IndexStates::near_is))]
    fn knowledge(&self, n: u32) -> Fact<()> {
        if n >= BLOCKS {
            return Fact::Unknown;
        }
        self.index.knowledge(n)
    }

    fn unknown_ahead(&self, n: u32) -> u32 {
        if n >= BLOCKS {
            return u32::MAX - n;
        }
        self.index.unknown_ahead(n)
    }

    #[tactic(auto, using(crate::proofs::IndexStates::far_is, crate::proofs::IndexStates::near_is))]
    fn read(&self, n: u32) -> Result<Fact<[u8; 2048]>, ReadFault> {
        if n >= BLOCKS {
            return Ok(Fact::Unknown);
        }
        match self.index.read(n) {
            Ok(fact) => Ok(fact),
            Err(ReadFault) => Err(self.miss(n)),
        }
    }

    #[tactic(auto, using(crate::proofs::IndexStates::far_is, crate::proofs::IndexStates::near_is))]
    fn lend<'s>(
        &'s self,
        n: u32,
        room: &'s mut [u8; 2048],
    ) -> Result<Fact<&'s [u8; 2048]>, ReadFault> {
        if n >= BLOCKS {
            return Ok(Fact::Unknown);
        }
        match self.index.lend(n, room) {
            Ok(fact) => Ok(fact),
            Err(ReadFault) => Err(self.miss(n)),
        }
    }
}

impl<'i, 'a, S: Stored> ReportStore for IndexBlocks<'i, 'a, S> {
    ghost holds = { λ x. IsTakenTable (AreAllTold S.content) (⟦<Index<'a, S> as Taker<Cursor<'a, S>>>⟧.took x.index.now) (bounded (⟦<Index<'a, S> as BlockStore>⟧.states x.index.now)) };

    ghost held = { λ x t h n. h.same n };

    fn known(&self) -> u32 {
        self.index.known()
    }

    fn conflicts(&self) -> u32 {
        self.index.conflicts()
    }

    #[tactic(auto, using(crate::proofs::IndexStates::nothing_past))]
    fn first_past(&self, last: u32) -> Option<u32> {
        self.least_behind(last)
    }
}

impl<'i, 'a, S: Stored> SteadyStore for IndexBlocks<'i, 'a, S> {
    /// Whether all reads came, and all inputs are as they were when they were taken, as far as their length and the time of their last change say.
    fn is_steady(&self) -> bool {
        if self.unread.get().is_some() {
            return false;
        }
        match self.index.changed() {
            Some(input) => {
                self.unread.set(Some(Unread { input, at: END }));
                false
            }
            None => true,
        }
    }
}
