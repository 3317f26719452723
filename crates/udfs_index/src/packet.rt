//! The places of 32 blocks.

ghost use Rattle.std.specs.Prelude.{◌≡◌, ◌+◌, ◌<◌, ◌≤◌, ◌==◌, ℕ};
ghost use Rattle.std.specs.Int.{bit_at};
ghost use Rattle.udfs_lattice.specs.declared.facts.Fact.TheVariants.{Unknown, Known, Conflict};
ghost use Rattle.udfs_index.specs.Slots.{IsSlotSet, slot_in, is_placed, is_disputed, settled};

use udfs_lattice::Fact;

/// The states of 32 blocks: a mask of the known ones, a mask of those in conflict, in which the bit of a known one has no meaning,
/// and a place for each block: that of the bytes of a known one, and for one in conflict that of the bytes that brought it there.
#[derive(Clone, Copy)]
pub struct Packet {
    known: u32,
    conflict: u32,
    places: [u64; 32],
}

/// Nothing is known of its blocks.
pub const UNKNOWN: Packet = Packet {
    known: 0,
    conflict: 0,
    places: [0; 32],
};

fn is_set(mask: u32, i: u32) -> bool
    requires { i < 32 }
    ensures { result ≡ (bit_at mask i == 1) }
{
    mask >> i & 1 == 1
}

impl Packet {
    /// What is said of block `i`.
    pub fn slot(&self, i: u32) -> Fact<u64>
        requires { i < 32 }
        ensures { result ≡ slot_in self.now i }
    {
        if is_set(self.known, i) {
            return Fact::Known(self.places[i as usize]);
        }
        if is_set(self.conflict, i) {
            return Fact::Conflict;
        }
        Fact::Unknown
    }

    /// The number of consecutive unknown blocks from block `i` on, up to the end of the packet.
    pub fn unknown_from(&self, i: u32) -> u32
        requires { i < 32 }
        ensures unknown { (j : ℕ) → j < result → slot_in self.now (i + j) ≡ Unknown }
        ensures most { i + result ≤ 32 }
    {
        if self.known == 0 && self.conflict == 0 {
            return 32 - i;
        }
        let mut count = 0;
        'slots: while i + count < 32 {
            if is_set(self.known, i + count) || is_set(self.conflict, i + count) {
                break 'slots;
            }
            count += 1;
        }
        count
    }

    /// The mask of the known blocks, and that of the blocks in conflict.
    pub fn masks(&self) -> (u32, u32)
        ensures known { (i : ℕ) → i < 32 → (bit_at result.0 i == 1) ≡ is_placed (slot_in self.now i) }
        ensures conflict { (i : ℕ) → i < 32 → (bit_at result.1 i == 1) ≡ is_disputed (slot_in self.now i) }
    {
        (self.known, self.conflict & !self.known)
    }

    /// The place of the bytes that brought block `i` into conflict. It has no meaning if the block is not in conflict.
    pub fn disputed_by(&self, i: u32) -> u64
        requires { i < 32 }
    {
        self.places[i as usize]
    }

    /// Marks block `i` as known, with its bytes at `place`.
    pub fn put(&mut self, i: u32, place: u64)
        requires { i < 32 }
        ensures { IsSlotSet self.old i (Known place) self.new }
    {
        self.places[i as usize] = place;
        self.known |= 1 << i;
    }

    /// Marks block `i` as in conflict, with the place of the bytes that brought it there.
    pub fn dispute(&mut self, i: u32, by: u64)
        requires { i < 32 }
        ensures { IsSlotSet self.old i Conflict self.new }
    {
        self.places[i as usize] = by;
        self.known &= !(1 << i);
        self.conflict |= 1 << i;
    }

    /// Makes block `i` unknown, whatever it is.
    pub fn forget(&mut self, i: u32)
        requires { i < 32 }
        ensures { IsSlotSet self.old i Unknown self.new }
    {
        self.known &= !(1 << i);
        self.conflict &= !(1 << i);
    }

    /// Makes each block that is in conflict unknown.
    pub fn forget_conflicts(&mut self)
        ensures { (i : ℕ) → slot_in self.new i ≡ settled (slot_in self.old i) }
    {
        self.conflict = 0;
    }
}
