//! The first and the last block of a stretch that are not known.

ghost use Rattle.std.specs.Prelude.{◌≡◌, ◌≤◌, ◌<◌, ℕ, false, true};
ghost use Rattle.udfs_lattice.specs.States.{is_known};

use udfs_lattice::{BlockStore, Fact};

/// Whether a block is known.
fn is_known<B: BlockStore>(blocks: &B, n: u32) -> bool
    ensures { B.tells → result ≡ is_known (B.states blocks.now n) }
{
    matches!(blocks.knowledge(n), Fact::Known(()))
}

/// The first block from one on that is not known; `to` is not.
pub(crate) fn first_unread<B: BlockStore>(blocks: &B, from: u32, to: u32) -> u32
    requires order { from ≤ to }
    requires end { B.tells → is_known (B.states blocks.now to) ≡ false }
    ensures from { from ≤ result }
    ensures to { result ≤ to }
    ensures unread { B.tells → is_known (B.states blocks.now result) ≡ false }
    ensures first { B.tells → (n : ℕ) → from ≤ n → n < result → is_known (B.states blocks.now n) ≡ true }
{
    for n in from..to {
        if !is_known(blocks, n) {
            return n;
        }
    }
    to
}

/// The last block up to one that is not known; `from` is not.
pub(crate) fn last_unread<B: BlockStore>(blocks: &B, from: u32, to: u32) -> u32
    requires order { from ≤ to }
    requires begin { B.tells → is_known (B.states blocks.now from) ≡ false }
    ensures from { from ≤ result }
    ensures to { result ≤ to }
    ensures unread { B.tells → is_known (B.states blocks.now result) ≡ false }
    ensures last { B.tells → (n : ℕ) → result < n → n ≤ to → is_known (B.states blocks.now n) ≡ true }
{
    let mut n = to;
    while n > from && is_known(blocks, n) {
        n -= 1;
    }
    n
}
