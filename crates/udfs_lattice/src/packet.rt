//! The states of 32 blocks in two masks.
ghost use Rattle.std.specs.Prelude.{◌≡◌, ◌≢◌, ◌<◌, ◌≤◌, ◌+◌, ◌⊎◌, ◌==◌, ℕ, [], All, IsOk, OnOk, OnErr, IfSome, IfNone, IsErrOf, true, false};
ghost use Rattle.std.specs.Iterator.{YieldsFirstBy, item_count};
ghost use Rattle.std.specs.Int.{bit_at};
ghost use Rattle.udfs_lattice.specs.States.{fact_now, entry_now, is_known, is_conflict};
ghost use Rattle.udfs_lattice.specs.Tables.{state_of, entries_of, known_count, conflict_count, empty_table, one_entry, join_tables, IsAdded, IsTableBelow, IsWithoutConflicts};
ghost use Rattle.udfs_lattice.specs.TableLaws.{join_tables-comm, join_tables-assoc, join_tables-idem, IsTableBelow-join_tables, join_tables-least};
ghost use Rattle.udfs_lattice.specs.Packets.{IsPacketTable, IsSetTo, IsMaskOf, IsFirstLeft, entries_left, rank};
ghost use Rattle.udfs_lattice.specs.declared.facts.Fact.TheVariants.{Unknown};

use crate::error::TableError;
use crate::facts::{Fact, Join};
use std::alloc::{AllocError, Global};
use std::marker::Model;

/// The states of 32 blocks, at places 0 to 31: a mask of the known blocks, a mask of those in conflict, and
/// the bytes of the known blocks in the order of their places, one box a block. No bit is in both masks,
/// and as many blocks are stored as bits are known. A block has 2048 bytes.
#[derive(Drop)]
pub struct Packet {
    known: u32,
    conflict: u32,
    blocks: Vec<Box<[u8; 2048]>>,
}

impl Model for Packet {
    ghost use Rattle.udfs_lattice.specs.Tables.{Table, table_code};

    ghost Value = { Table };

    ghost coded = { table_code };

    ghost use Rattle.udfs_lattice.specs.Packets.{table_packet, box_values, IsPacket};

    ghost view = { λ p. table_packet p.known p.conflict (box_values p.blocks.items) };

    ghost invariant = { λ p. IsPacket p.known p.conflict (box_values p.blocks.items) };
}

fn is_set(mask: u32, i: u32) -> bool
    requires { i < 32 }
    ensures { result ≡ (bit_at mask i == 1) }
{
    mask >> i & 1 == 1
}

/// How many of the bits below this one are set.
fn rank_of(mask: u32, i: u32) -> u32
    requires { i < 32 }
    ensures { result ≡ rank mask i }
{
    (mask & ((1 << i) - 1)).count_ones()
}

impl Packet {
    /// The packet whose 32 blocks are all unknown. It takes no memory yet, and keeps the allocator.
    pub fn new(alloc: Global) -> Self
        ensures { result ≡ empty_table }
    {
        Packet {
            known: 0,
            conflict: 0,
            blocks: Vec::new(alloc),
        }
    }

    /// The state of the block at place `i`, which is below 32. It takes no memory.
    pub fn state(&self, i: u32) -> Fact<&[u8; 2048]>
        requires { i < 32 }
        ensures state { fact_now result ≡ state_of self.now i }
        ensures packet { IsPacketTable self.now }
    {
        if is_set(self.known, i) {
            let at = rank_of(self.known, i) as usize;
            return Fact::Known(&*self.blocks[at]);
        }
        if is_set(self.conflict, i) {
            return Fact::Conflict;
        }
        Fact::Unknown
    }

    /// Makes room for the boxes of `more` more blocks at once.
    fn reserve(&mut self, more: usize) -> Result<(), AllocError>
        ensures { self.new ≡ self.old }
    {
        self.blocks.reserve_exact(more)
    }

    /// Stores the bytes of an unknown block.
    fn store(&mut self, i: u32, bytes: &[u8; 2048]) -> Result<(), AllocError>
        requires place { i < 32 }
        requires unknown { state_of self.old i ≡ Unknown }
        ensures ok { OnOk result (IsSetTo self.old i (Fact.Known bytes.now) self.new) }
        ensures err { OnErr result (self.new ≡ self.old) }
    {
        let at = rank_of(self.known, i) as usize;
        let block = Box::new(*self.blocks.allocator(), *bytes)?;
        self.blocks.insert(at, block)?;
        self.known |= 1 << i;
        Ok(())
    }

    /// Gives up the bytes of a known block, which is unknown then.
    fn give_up(&mut self, i: u32)
        requires place { i < 32 }
        requires known { is_known (state_of self.old i) ≡ true }
        ensures { IsSetTo self.old i Unknown self.new }
    {
        let at = rank_of(self.known, i) as usize;
        self.blocks.remove(at);
        self.known &= !(1 << i);
    }

    /// Puts a block that is not known into conflict.
    fn mark(&mut self, i: u32)
        requires place { i < 32 }
        requires not_known { is_known (state_of self.old i) ≡ false }
        ensures { IsSetTo self.old i Fact.Conflict self.new }
    {
        self.conflict |= 1 << i;
    }

    /// Puts a block into conflict, whatever it is.
    fn dispute(&mut self, i: u32)
        requires { i < 32 }
        ensures { IsSetTo self.old i Fact.Conflict self.new }
    {
        if is_set(self.known, i) {
            self.give_up(i);
        }
        self.mark(i);
    }

    /// Takes a block that is not known out of conflict; it is unknown then.
    fn unmark(&mut self, i: u32)
        requires place { i < 32 }
        requires not_known { is_known (state_of self.old i) ≡ false }
        ensures { IsSetTo self.old i Unknown self.new }
    {
        self.conflict &= !(1 << i);
    }

    /// Makes the block at place `i`, which is below 32, unknown, whatever it is. It takes no memory.
    pub fn forget(&mut self, i: u32)
        requires { i < 32 }
        ensures { IsSetTo self.old i Unknown self.new }
    {
        if is_set(self.known, i) {
            self.give_up(i);
        } else {
            self.unmark(i);
        }
    }

    /// Makes each block that is in conflict unknown. It takes no memory.
    pub fn forget_conflicts(&mut self)
        ensures { IsWithoutConflicts self.old self.new }
    {
        self.conflict = 0;
    }

    fn add_bytes(&mut self, i: u32, bytes: &[u8; 2048]) -> Result<(), AllocError>
        requires { i < 32 }
        ensures ok { OnOk result (IsAdded self.old i (Fact.Known bytes.now) self.new) }
        ensures err { OnErr result (self.new ≡ self.old) }
        ensures no_memory { state_of self.old i ≢ Unknown → IsOk result }
    {
        match self.state(i) {
            Fact::Unknown => self.store(i, bytes),
            Fact::Known(mine) => {
                if *mine != *bytes {
                    self.dispute(i);
                }
                Ok(())
            }
            Fact::Conflict => Ok(()),
        }
    }

    /// Joins a state to that of the block at place `i`, which is below 32. A block that falls into conflict
    /// gives up its bytes. With `Fact::Unknown` nothing changes.
    ///
    /// # Errors
    ///
    /// `AllocError` where memory ran out. Only the bytes of an unknown block need memory. The error leaves the
    /// packet as it was.
    pub fn add(&mut self, i: u32, fact: Fact<&[u8; 2048]>) -> Result<(), AllocError>
        requires { i < 32 }
        ensures ok { OnOk result (self.new ≡ join_tables self.old (one_entry i (fact_now fact.entry))) }
        ensures err { OnErr result (self.new ≡ self.old) }
        ensures no_memory { state_of self.old i ≢ Unknown → IsOk result }
        ensures no_bytes { is_known (fact_now fact.entry) ≡ false → IsOk result }
    {
        match fact {
            Fact::Unknown => Ok(()),
            Fact::Known(bytes) => self.add_bytes(i, bytes),
            Fact::Conflict => {
                self.dispute(i);
                Ok(())
            }
        }
    }

    /// The mask of the known blocks: bit `i` is set where the block at place `i` is known.
    pub fn known_mask(&self) -> u32
        ensures { IsMaskOf is_known self.now result }
    {
        self.known
    }

    /// The mask of the blocks in conflict: bit `i` is set where the block at place `i` is in conflict.
    pub fn conflict_mask(&self) -> u32
        ensures { IsMaskOf is_conflict self.now result }
    {
        self.conflict
    }

    /// How many blocks are known. It takes no memory.
    pub fn known(&self) -> u32
        ensures { result ≡ known_count self.now }
    {
        self.known.count_ones()
    }

    /// How many blocks are in conflict. It takes no memory.
    pub fn conflicts(&self) -> u32
        ensures { result ≡ conflict_count self.now }
    {
        self.conflict.count_ones()
    }

    /// The first block that is not unknown from a place on: its place and its state.
    pub(crate) fn first_from(&self, at: u32) -> Option<(u32, Fact<&[u8; 2048]>)>
        ensures some { IfSome result (λ e. IsFirstLeft self.now at (entry_now e)) }
        ensures none { IfNone result (entries_left self.now at ≡ []) }
    {
        for i in at..32 {
            match self.state(i) {
                Fact::Unknown => {}
                fact => return Some((i, fact)),
            }
        }
        None
    }

    /// Whether the block at place `i`, which is below 32, is not unknown.
    fn is_taken(&self, i: u32) -> bool
        requires { i < 32 }
        ensures taken { result ≡ true → state_of self.now i ≢ Unknown }
        ensures free { result ≡ false → state_of self.now i ≡ Unknown }
    {
        match self.state(i) {
            Fact::Unknown => false,
            Fact::Known(_) => true,
            Fact::Conflict => true,
        }
    }

    /// The number of consecutive unknown blocks from place `at` on, up to the end of the packet. `at` is below 32.
    pub(crate) fn unknown_from(&self, at: u32) -> u32
        requires { at < 32 }
        ensures unknown { (j : ℕ) → j < result → state_of self.now (at + j) ≡ Unknown }
        ensures end { (at + result ≡ 32) ⊎ (state_of self.now (at + result) ≢ Unknown) }
        ensures most { at + result ≤ 32 }
    {
        let mut count = 0;
        'places: while at + count < 32 {
            if self.is_taken(at + count) {
                break 'places;
            }
            count += 1;
        }
        count
    }

    /// The blocks that are not unknown, ascending, each as its place, 0 to 31, and its state. It takes no
    /// memory.
    pub fn entries(&self) -> PacketEntries<'_>
        ensures entries { result ≡ entries_of self.now }
        ensures places { All (λ e. e.0 < 32) result }
    {
        let _ = &self.known;
        PacketEntries {
            packet: self,
            at: 0,
        }
    }
}

/// The entries of a packet that are left.
#[derive(Drop)]
pub struct PacketEntries<'a> {
    packet: &'a Packet,
    at: u32,
}

impl<'a> Model for PacketEntries<'a> {
    ghost use Rattle.std.specs.Prelude.{List, ℕ};
    ghost use Rattle.udfs_lattice.specs.States.{State};

    ghost Value = { List (ℕ × State) };

    ghost use Rattle.udfs_lattice.specs.Packets.{entries_left};

    ghost view = { λ e. entries_left e.packet.now e.at };
}

impl<'a> Iterator for PacketEntries<'a> {
    type Item = (u32, Fact<&'a [u8; 2048]>);

    ghost next_gives = { YieldsFirstBy entry_now (λ e. e) };

    ghost remaining = { item_count (λ e. e) };

    fn next(&mut self) -> Option<(u32, Fact<&'a [u8; 2048]>)> {
        let (i, fact) = self.packet.first_from(self.at)?;
        self.at = i + 1;
        Some((i, fact))
    }
}

impl Join for Packet {
    ghost joined = { join_tables };

    ghost is_below = { IsTableBelow };

    ghost commutative = { join_tables-comm };

    ghost associative = { join_tables-assoc };

    ghost idempotent = { join_tables-idem };

    ghost above = { IsTableBelow-join_tables };

    ghost least = { join_tables-least };

    /// Joins the state of each block of the other packet to that of the block at the same place.
    ///
    /// # Errors
    ///
    /// `OutOfMemory` alone. Then the packet lies between the old one and the join, and the same join
    /// again, once it succeeds, gives the join.
    fn join(&mut self, other: &Self) -> Result<(), TableError>
        ensures ok { OnOk result (self.new ≡ join_tables self.old other.now) }
        ensures error { OnErr result (IsErrOf result TableError.OutOfMemory) }
        ensures above_old { OnErr result (IsTableBelow self.old self.new) }
        ensures below_join { OnErr result (IsTableBelow self.new (join_tables self.old other.now)) }
        ensures again { OnErr result (join_tables self.new other.now ≡ join_tables self.old other.now) }
        ensures packet { IsPacketTable self.new }
    {
        let unknown = !(self.known | self.conflict);
        let more = (other.known & unknown).count_ones();
        self.reserve(more as usize)?;
        let theirs = other.known | other.conflict;
        for i in 0..32u32 {
            if is_set(theirs, i) {
                self.add(i, other.state(i))?;
            }
        }
        Ok(())
    }
}
