//! Blocks, wherever their bytes are.

ghost use Rattle.std.specs.Prelude.{◌≡◌, ◌≢◌, ◌%◌, ◌+◌, ◌<◌, ◌⊎◌, ℕ, IfOk, OnErr};
ghost use Rattle.udfs_lattice.specs.States.{State, fact_now};
ghost use Rattle.udfs_lattice.specs.Tables.{state_of};
ghost use Rattle.udfs_lattice.specs.Stores.{known_as};
ghost use Rattle.udfs_lattice.specs.declared.blocks.GaveUp.TheVariants as gave_up;
ghost use Rattle.udfs_lattice.specs.declared.facts.Fact.TheVariants.{Unknown};

use crate::facts::Fact;
use crate::table::BlockTable;
use std::alloc::{AllocError, AllocFailed};

/// The bytes of a known block could not be read: a device failed, or a file is shorter than it was.
#[derive(Clone, Copy, Debug, PartialEq, Eq)]
pub struct ReadFault;

/// Why a call on a store of blocks gave up.
#[derive(Clone, Copy, Debug, PartialEq, Eq)]
pub enum GaveUp {
    /// Memory ran out.
    OutOfMemory,
    /// The bytes of a known block could not be read.
    Unread,
}

impl From<AllocError> for GaveUp {
    ghost from_gives = { λ _ e. e ≡ gave_up.OutOfMemory };

    fn from(_error: AllocError) -> GaveUp {
        GaveUp::OutOfMemory
    }
}

impl<T: Drop> From<AllocFailed<T>> for GaveUp {
    ghost from_gives = { λ _ e. e ≡ gave_up.OutOfMemory };

    fn from(_error: AllocFailed<T>) -> GaveUp {
        GaveUp::OutOfMemory
    }
}

impl From<ReadFault> for GaveUp {
    ghost from_gives = { λ _ e. e ≡ gave_up.Unread };

    fn from(_fault: ReadFault) -> GaveUp {
        GaveUp::Unread
    }
}

/// A store of blocks: what is known of each block of a volume, wherever the bytes of the known ones are. A [`BlockTable`] holds them in
/// memory; a store in files knows where they lie, and reads them again each time they are asked for.
///
/// A block has one of three states: unknown, known with its 2048 bytes, or in conflict. The states do not change while the store is
/// borrowed. A read that fails is an error and never a state: a block whose bytes cannot be had is not unknown.
pub trait BlockStore {
    // It is known what the stores of this type hold, so that a contract may speak of it: always, of a table in memory. Of files no
    // contract says what they give, so a clause about a state holds of a store in files if what its files hold is known.
    ghost tells: { Type 0 };

    // The state of each block.
    ghost states: { Self → ℕ → State };

    // A read may fail: never, of a table in memory.
    ghost fails: { Type 0 };

    /// What is known of block `n`, without its bytes. It takes no memory, reads nothing and cannot fail.
    fn knowledge(&self, n: u32) -> Fact<()>
        ensures { tells → result ≡ known_as (states self.now n) };

    /// A number of consecutive blocks from block `n` on, all of which are unknown. It takes no memory, reads nothing and cannot fail.
    /// It is 0 if block `n` is not unknown, and may be fewer than there are: as many as the store sees at one look.
    fn unknown_ahead(&self, n: u32) -> u32
        ensures { tells → (j : ℕ) → j < result → states self.now (n + j) ≡ Unknown };

    /// The state of block `n`, with a copy of the bytes of a known block. It takes no memory.
    ///
    /// # Errors
    ///
    /// `ReadFault` where the bytes of a known block could not be read.
    fn read(&self, n: u32) -> Result<Fact<[u8; 2048]>, ReadFault>
        ensures state { IfOk result (λ fact. tells → fact ≡ states self.now n) }
        ensures fails { OnErr result fails };

    /// The state of block `n`. The bytes of a known block are lent: a store that has them in memory lends them from there, and leaves
    /// `room` as it is; one that has to read them puts them into `room`, and lends that. So the caller owns the memory, no bytes are
    /// copied that lie in memory already, and as long as the result is used `room` cannot be used for another block. It takes no memory.
    ///
    /// # Errors
    ///
    /// `ReadFault` where the bytes of a known block could not be read. What is in `room` then is not said.
    fn lend<'s>(
        &'s self,
        n: u32,
        room: &'s mut [u8; 2048],
    ) -> Result<Fact<&'s [u8; 2048]>, ReadFault>
        ensures state { IfOk result (λ fact. tells → fact_now fact ≡ states self.now n) }
        ensures fails { OnErr result fails };
}

impl BlockStore for BlockTable {
    ghost tells = { Unit {0} };

    ghost states = { λ t n. state_of t n };

    ghost fails = { ⊥ };

    fn knowledge(&self, n: u32) -> Fact<()> {
        match self.state(n) {
            Fact::Unknown => Fact::Unknown,
            Fact::Known(_) => Fact::Known(()),
            Fact::Conflict => Fact::Conflict,
        }
    }

    fn unknown_ahead(&self, n: u32) -> u32 {
        BlockTable::unknown_ahead(self, n)
    }

    fn read(&self, n: u32) -> Result<Fact<[u8; 2048]>, ReadFault> {
        Ok(self.state(n).copied())
    }

    fn lend<'s>(
        &'s self,
        n: u32,
        room: &'s mut [u8; 2048],
    ) -> Result<Fact<&'s [u8; 2048]>, ReadFault> {
        let _ = room;
        Ok(self.state(n))
    }
}
