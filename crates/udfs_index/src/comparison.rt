//! Two tables beside one another.

ghost use Rattle.std.specs.Prelude.{◌≡◌, ◌≤◌};
ghost use Rattle.udfs_index.specs.Comparing.{are_known, are_other, disagreeing, is_other_disc, shared};
ghost use Rattle.udfs_lattice.specs.States.{fact_now};

use udfs_lattice::{BlockTable, Fact};

/// In how many blocks two tables disagree, of how many that both know.
#[derive(Clone, Copy, Debug, PartialEq, Eq)]
pub struct Comparison {
    /// How many blocks both know, by other bytes.
    pub blocks: u32,
    /// How many blocks both know.
    pub of: u32,
}

impl Comparison {
    /// Whether what was read is of another disc than what was read before: the two disagree in at least 4 blocks, and in more than one of four of those that
    /// both know.
    pub fn is_other_disc(self) -> bool
        ensures { result ≡ is_other_disc self.blocks self.of }
    {
        self.blocks >= 4 && u64::from(self.of) < 4 * u64::from(self.blocks)
    }
}

/// Whether a block is known by both states.
fn are_known(before: Fact<&[u8; 2048]>, own: Fact<&[u8; 2048]>) -> bool
    ensures { result ≡ are_known (fact_now before.entry) (fact_now own.entry) }
{
    matches!((before, own), (Fact::Known(_), Fact::Known(_)))
}

/// Whether a block is known by both states, by other bytes.
fn are_other(before: Fact<&[u8; 2048]>, own: Fact<&[u8; 2048]>) -> bool
    ensures { result ≡ are_other (fact_now before.entry) (fact_now own.entry) }
{
    match (before, own) {
        (Fact::Known(mine), Fact::Known(theirs)) => *mine != *theirs,
        _ => false,
    }
}

/// In how many blocks the tables disagree, of how many that both know. It takes no memory.
pub fn compare(before: &BlockTable, own: &BlockTable) -> Comparison
    ensures blocks { result.blocks ≡ disagreeing before.now own.now }
    ensures of { result.of ≡ shared before.now own.now }
{
    let mut blocks = 0u32;
    let mut of = 0u32;
    for (block, fact) in own.entries() {
        let known = before.state(block);
        if are_known(known, fact) {
            of += 1;
        }
        if are_other(known, fact) {
            blocks += 1;
        }
    }
    Comparison { blocks, of }
}
