//! Stores of blocks of which a report can be made.

ghost use Rattle.std.specs.Prelude.{◌≡◌, ℕ, MatchOption};
ghost use Rattle.udfs_lattice.specs.Tables.{Table, conflict_count, known_count, state_of};
ghost use Rattle.udfs_salvage.specs.Reports.{IsNothingPast, IsPastEnd};

use udfs_lattice::{BlockStore, BlockTable};

/// A store of blocks of which a report can be made: it also says how many blocks are known and in conflict, and whether anything is known
/// after the last block of a volume.
pub trait ReportStore: BlockStore {
    // The store says of each block what this table does.
    ghost holds: { Self → Table → Type 0 };

    /// How many blocks are known. It takes no memory, reads nothing and cannot fail.
    fn known(&self) -> u32
        ensures { Self.tells → (t : Table) → holds self.now t → result ≡ known_count t };

    /// How many blocks are in conflict. It takes no memory, reads nothing and cannot fail.
    fn conflicts(&self) -> u32
        ensures { Self.tells → (t : Table) → holds self.now t → result ≡ conflict_count t };

    /// The least block after `last` that is not unknown, if there is one. It takes no memory, reads nothing and cannot fail.
    fn first_past(&self, last: u32) -> Option<u32>
        ensures { Self.tells → MatchOption result (IsNothingPast (Self.states self.now) last) (λ n. IsPastEnd (Self.states self.now) last n) };

    // So its states are the table's.
    ghost held: { (s : Self) (t : Table) → holds s t → (n : ℕ) → state_of t n ≡ Self.states s n };
}

impl ReportStore for BlockTable {
    ghost use Rattle.std.proofs.Common.{ap, sym};

    ghost holds = { λ s t. s ≡ t };

    ghost held = { λ s t same n. ap (λ z. state_of z n) (sym same) };

    fn known(&self) -> u32 {
        BlockTable::known(self)
    }

    fn conflicts(&self) -> u32 {
        BlockTable::conflicts(self)
    }

    fn first_past(&self, last: u32) -> Option<u32> {
        past_end(self, last)
    }
}

/// The least block after `last` of which something is known, if there is one.
fn past_end(table: &BlockTable, last: u32) -> Option<u32>
    ensures { MatchOption result (IsNothingPast (state_of table.now) last) (λ n. IsPastEnd (state_of table.now) last n) }
{
    for (block, _) in table.entries() {
        if block > last {
            return Some(block);
        }
    }
    None
}
