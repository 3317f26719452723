//! The table of the blocks of a volume.
ghost use Rattle.std.specs.Prelude.{◌≡◌, ◌≢◌, ◌≤◌, ◌<◌, ◌↔◌, ◌^◌, ◌+◌, ◌%◌, ◌⊎◌, ℕ, List, [], length, sum_by, All, IsOk, OnOk, OnErr, IfSome, IfNone, IsErrOf};
ghost use Rattle.std.specs.BTreeMap.{values};
ghost use Rattle.std.specs.Iterator.{YieldsFirstBy, item_count};
ghost use Rattle.udfs_lattice.specs.States.{fact_now, entry_now};
ghost use Rattle.udfs_lattice.specs.Tables.{state_of, entries_of, known_count, conflict_count, empty_table, one_record, one_entry, join_tables, IsStateAt, IsTable, IsTableBelow, IsForgotten, AreForgotten, IsWithoutConflicts};
ghost use Rattle.udfs_lattice.specs.TableLaws.{join_tables-comm, join_tables-assoc, join_tables-idem, IsTableBelow-join_tables, join_tables-least};
ghost use Rattle.udfs_lattice.specs.Packets.{IsPacketTable};
ghost use Rattle.udfs_lattice.specs.PacketTables.{one_packet, IsUnknownPacket, IsEntryFound, IsSettledIn, entries_of_packets};
ghost use Rattle.udfs_lattice.specs.declared.facts.Fact.TheVariants.{Unknown};

use crate::error::TableError;
use crate::facts::{Fact, Join};
use crate::packet::Packet;
use std::alloc::{AllocError, Global};
use std::collections::BTreeMap;
use std::collections::btree_map::Iter;
use std::marker::Model;

/// The greatest block number.
pub const LAST_BLOCK: u32 = 4_194_303;

/// What is known of each block of a volume: the states of the blocks 0 to [`LAST_BLOCK`], in packets of 32
/// blocks. A map holds the packets with at least one block that is not unknown. A block has 2048 bytes.
#[derive(Drop)]
pub struct BlockTable {
    packets: BTreeMap<u32, Packet>,
    alloc: Global,
}

impl Model for BlockTable {
    ghost use Rattle.udfs_lattice.specs.Tables.{Table, table_code};

    ghost Value = { Table };

    ghost coded = { table_code };

    ghost use Rattle.udfs_lattice.specs.PacketTables.{table_packets, IsPacketMap};

    ghost view = { λ a. table_packets a.packets.entries };

    ghost invariant = { λ a. IsPacketMap a.packets };
}

impl BlockTable {
    /// The table in which every block is unknown. It takes no memory yet, and keeps the allocator.
    pub fn new(alloc: Global) -> Self
        ensures { result ≡ empty_table }
    {
        BlockTable {
            packets: BTreeMap::new(alloc),
            alloc,
        }
    }

    /// The state of block `n`, unknown above [`LAST_BLOCK`]. It takes no memory.
    pub fn state(&self, n: u32) -> Fact<&[u8; 2048]>
        ensures state { fact_now result ≡ state_of self.now n }
        ensures table { IsTable self.now }
    {
        match self.packets.get(&(n / 32)) {
            Some(packet) => packet.state(n % 32),
            None => Fact::Unknown,
        }
    }

    /// The number of consecutive unknown blocks from block `n` on, up to the end of its packet of 32 blocks. If nothing is
    /// known of the packet, this is the whole rest of it. It allocates no memory.
    pub fn unknown_ahead(&self, n: u32) -> u32
        ensures unknown { (j : ℕ) → j < result → state_of self.now (n + j) ≡ Unknown }
        ensures end { (n % 32 + result ≡ 32) ⊎ (state_of self.now (n + result) ≢ Unknown) }
    {
        let place = n % 32;
        let Some(packet) = self.packets.get(&(n / 32)) else {
            return 32 - place;
        };
        packet.unknown_from(place)
    }

    /// Joins a state to that of a block.
    fn enter(&mut self, n: u32, fact: Fact<&[u8; 2048]>) -> Result<(), AllocError>
        requires number { n ≤ 4194303 }
        requires block { IsStateAt n (fact_now fact) }
        ensures ok { OnOk result (self.new ≡ join_tables self.old (one_entry n (fact_now fact.entry))) }
        ensures err { OnErr result (self.new ≡ self.old) }
        ensures no_memory { state_of self.old n ≢ Unknown → IsOk result }
    {
        match self.packets.get_mut(&(n / 32)) {
            Some(packet) => packet.add(n % 32, fact),
            None => {
                let mut packet = Packet::new(self.alloc);
                packet.add(n % 32, fact)?;
                self.insert(n / 32, packet)
            }
        }
    }

    /// Inserts a packet whose number is not in the map yet.
    fn insert(&mut self, number: u32, packet: Packet) -> Result<(), AllocError>
        requires number { number < 131072 }
        requires packet { IsPacketTable packet }
        requires missing { IsUnknownPacket self.old number }
        ensures ok { OnOk result (self.new ≡ join_tables self.old (one_packet number packet)) }
        ensures err { OnErr result (self.new ≡ self.old) }
    {
        self.packets.insert(number, packet)?;
        Ok(())
    }

    /// Joins a packet to the one of its number.
    fn join_packet(&mut self, number: u32, theirs: &Packet) -> Result<(), TableError>
        requires number { number < 131072 }
        requires packet { IsPacketTable theirs.now }
        ensures ok { OnOk result (self.new ≡ join_tables self.old (one_packet number theirs.now)) }
        ensures error { OnErr result (IsErrOf result TableError.OutOfMemory) }
        ensures above_old { OnErr result (IsTableBelow self.old self.new) }
        ensures below_join { OnErr result (IsTableBelow self.new (join_tables self.old (one_packet number theirs.now))) }
    {
        match self.packets.get_mut(&number) {
            Some(packet) => packet.join(theirs),
            None => {
                let mut packet = Packet::new(self.alloc);
                packet.join(theirs)?;
                self.insert(number, packet)?;
                Ok(())
            }
        }
    }

    /// Joins a state to that of block `n`, as [`put`](Self::put) does the bytes of one reading. With
    /// `Fact::Unknown` nothing changes.
    ///
    /// # Errors
    ///
    /// `BlockNumber` where `n` is above [`LAST_BLOCK`]; else `OutOfMemory` where memory ran out. A block
    /// that is not unknown needs no memory. Either error leaves the table as it was.
    pub fn add(&mut self, n: u32, fact: Fact<&[u8; 2048]>) -> Result<(), TableError>
        ensures ok { OnOk result (self.new ≡ join_tables self.old (one_entry n (fact_now fact.entry))) }
        ensures block_number { IsErrOf result TableError.BlockNumber ↔ (4194303 < n) }
        ensures err { OnErr result (self.new ≡ self.old) }
        ensures no_memory { state_of self.old n ≢ Unknown → n ≤ 4194303 → IsOk result }
    {
        if n > LAST_BLOCK {
            return Err(TableError::BlockNumber);
        }
        match fact {
            Fact::Unknown => Ok(()),
            Fact::Known(bytes) => self.put(n, bytes),
            Fact::Conflict => {
                self.enter(n, Fact::Conflict)?;
                Ok(())
            }
        }
    }

    /// Joins one record, the bytes of block `n` in one reading, into the table.
    ///
    /// # Errors
    ///
    /// `BlockNumber` where `n` is above [`LAST_BLOCK`]; else `OutOfMemory` where memory ran out. A block
    /// that is not unknown needs no memory. Either error leaves the table as it was.
    pub fn put(&mut self, n: u32, bytes: &[u8; 2048]) -> Result<(), TableError>
        ensures ok { OnOk result (self.new ≡ join_tables self.old (one_record n bytes.now)) }
        ensures block_number { IsErrOf result TableError.BlockNumber ↔ (4194303 < n) }
        ensures err { OnErr result (self.new ≡ self.old) }
        ensures no_memory { state_of self.old n ≢ Unknown → n ≤ 4194303 → IsOk result }
    {
        if n > LAST_BLOCK {
            return Err(TableError::BlockNumber);
        }
        self.enter(n, Fact::Known(bytes))?;
        Ok(())
    }

    /// Makes block `n` unknown, whatever it is, and leaves all others as they are. It takes no memory. A number above
    /// [`LAST_BLOCK`] changes nothing.
    pub fn forget(&mut self, n: u32)
        ensures { IsForgotten self.old n self.new }
    {
        let Some(packet) = self.packets.get_mut(&(n / 32)) else {
            return;
        };
        packet.forget(n % 32);
    }

    /// Makes these blocks unknown, whatever they are, and leaves all others as they are. They may be in any order, and
    /// each may come several times. It takes no memory. A number above [`LAST_BLOCK`] changes nothing.
    pub fn forget_all(&mut self, blocks: &[u32])
        ensures { AreForgotten self.old blocks.now self.new }
    {
        for n in blocks {
            self.forget(*n);
        }
    }

    /// Makes the blocks in conflict of one packet unknown.
    fn settle(&mut self, number: u32)
        ensures { IsSettledIn self.old number self.new }
    {
        let Some(packet) = self.packets.get_mut(&number) else {
            return;
        };
        packet.forget_conflicts();
    }

    /// Makes each block that is in conflict unknown, and leaves all others as they are. It takes no memory.
    pub fn forget_conflicts(&mut self)
        ensures { IsWithoutConflicts self.old self.new }
    {
        let _ = &self.packets;
        for number in 0..131_072 {
            self.settle(number);
        }
    }

    /// How many blocks are known. It takes no memory.
    pub fn known(&self) -> u32
        ensures { result ≡ known_count self.now }
    {
        count_known(&self.packets)
    }

    /// How many blocks are in conflict. It takes no memory.
    pub fn conflicts(&self) -> u32
        ensures { result ≡ conflict_count self.now }
    {
        count_conflicts(&self.packets)
    }

    /// The blocks that are not unknown, ascending, each with its state. It takes no memory.
    pub fn entries(&self) -> Entries<'_>
        ensures entries { result ≡ entries_of self.now }
        ensures few { length result ≤ 4194304 }
        ensures table { IsTable self.now }
    {
        Entries {
            packets: self.packets.iter(),
            here: None,
            at: 0,
        }
    }
}

fn count_known(packets: &BTreeMap<u32, Packet>) -> u32
    requires { sum_by known_count (values packets.now) < 2 ^ 32 }
    ensures { result ≡ sum_by known_count (values packets.now) }
{
    let mut count = 0;
    for packet in packets.values() {
        count += packet.known();
    }
    count
}

fn count_conflicts(packets: &BTreeMap<u32, Packet>) -> u32
    requires { sum_by conflict_count (values packets.now) < 2 ^ 32 }
    ensures { result ≡ sum_by conflict_count (values packets.now) }
{
    let mut count = 0;
    for packet in packets.values() {
        count += packet.conflicts();
    }
    count
}

impl Join for BlockTable {
    ghost joined = { join_tables };

    ghost is_below = { IsTableBelow };

    ghost commutative = { join_tables-comm };

    ghost associative = { join_tables-assoc };

    ghost idempotent = { join_tables-idem };

    ghost above = { IsTableBelow-join_tables };

    ghost least = { join_tables-least };

    /// Joins each packet of the other table to the one of its number in this one.
    ///
    /// # Errors
    ///
    /// `OutOfMemory` alone. Then the table lies between the old one and the join, and the same join
    /// again, once it succeeds, gives the join.
    fn join(&mut self, other: &Self) -> Result<(), TableError> {
        for (number, packet) in other.packets.iter() {
            self.join_packet(*number, packet)?;
        }
        Ok(())
    }
}

/// The entries of a table that are left: those of the packet under way from a place on, and those of the
/// packets after it.
#[derive(Drop)]
pub struct Entries<'a> {
    packets: Iter<'a, u32, Packet>,
    here: Option<(u32, &'a Packet)>,
    at: u32,
}

impl<'a> Model for Entries<'a> {
    ghost use Rattle.std.specs.Prelude.{List, ℕ, ◌++◌};
    ghost use Rattle.udfs_lattice.specs.States.{State};

    ghost Value = { List (ℕ × State) };

    ghost use Rattle.udfs_lattice.specs.PacketTables.{entries_here, entries_of_packets, AreEntries};

    ghost view = { λ e. entries_here e.here e.at ++ entries_of_packets e.packets };

    ghost invariant = { λ e. AreEntries e.here e.packets };
}

/// An entry: the packet that it is of with its number, and its place and state in the packet.
#[derive(Drop)]
struct Found<'a> {
    number: u32,
    packet: &'a Packet,
    place: u32,
    fact: Fact<&'a [u8; 2048]>,
}

/// The first entry of the packets that are left, of which its own is taken.
fn first_entry<'a>(packets: &mut Iter<'a, u32, Packet>) -> Option<Found<'a>>
    requires { All (λ e. e.0 < 131072) packets.old }
    ensures some { IfSome result (λ f. IsEntryFound packets.old f.number f.packet.now f.place (fact_now f.fact) packets.new) }
    ensures none { IfNone result ((entries_of_packets packets.old ≡ []) × (entries_of_packets packets.new ≡ [])) }
    ensures later { All (λ e. e.0 < 131072) packets.new }
{
    while let Some((number, packet)) = packets.next() {
        if let Some((place, fact)) = packet.first_from(0) {
            return Some(Found {
                number: *number,
                packet,
                place,
                fact,
            });
        }
    }
    None
}

impl<'a> Iterator for Entries<'a> {
    type Item = (u32, Fact<&'a [u8; 2048]>);

    ghost next_gives = { YieldsFirstBy entry_now (λ e. e) };

    ghost remaining = { item_count (λ e. e) };

    fn next(&mut self) -> Option<(u32, Fact<&'a [u8; 2048]>)> {
        if let Some((number, packet)) = self.here {
            if let Some((i, fact)) = packet.first_from(self.at) {
                self.at = i + 1;
                return Some((number * 32 + i, fact));
            }
        }
        let found = first_entry(&mut self.packets)?;
        self.here = Some((found.number, found.packet));
        self.at = found.place + 1;
        Some((found.number * 32 + found.place, found.fact))
    }
}
