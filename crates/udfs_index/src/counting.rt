//! Of how many blocks an index says what.

ghost use Rattle.std.specs.Prelude.{◌≡◌, ◌≤◌, ℕ, List};
ghost use Rattle.udfs_lattice.specs.Tables.{Table, IsTable, conflict_count, known_count};
ghost use Rattle.udfs_index.specs.Copying.{IsShown};
ghost use Rattle.udfs_index.specs.Slots.{slot_at, is_disputed, is_placed};

use crate::packet::Packet;
use crate::places::{end_of, slot_of};
use udfs_lattice::Fact;

/// Whether a block is known.
fn is_known(packets: &[Packet], block: u32) -> bool
    ensures { result ≡ is_placed (slot_at packets.now block) }
{
    matches!(slot_of(packets, block), Fact::Known(_))
}

/// Whether a block is in conflict.
fn is_conflict(packets: &[Packet], block: u32) -> bool
    ensures { result ≡ is_disputed (slot_at packets.now block) }
{
    matches!(slot_of(packets, block), Fact::Conflict)
}

/// How many blocks are known.
pub fn count_known(packets: &[Packet]) -> u32
    ensures { (wholes : List (List ℕ)) (t : Table) → IsTable t → IsShown wholes packets.now t → result ≡ known_count t }
{
    let mut count = 0;
    let end = end_of(packets);
    for block in 0..end {
        if is_known(packets, block) {
            count += 1;
        }
    }
    count
}

/// How many blocks are in conflict.
pub fn count_conflicts(packets: &[Packet]) -> u32
    ensures { (wholes : List (List ℕ)) (t : Table) → IsTable t → IsShown wholes packets.now t → result ≡ conflict_count t }
{
    let mut count = 0;
    let end = end_of(packets);
    for block in 0..end {
        if is_conflict(packets, block) {
            count += 1;
        }
    }
    count
}
