//! The places of all blocks.

ghost use Rattle.std.specs.Prelude.{◌≡◌, ◌+◌, ◌≤◌, ◌<◌, ℕ, length, [], IfOk, OnOk, OnErr};
ghost use Rattle.udfs_lattice.specs.declared.facts.Fact.TheVariants.{Unknown, Known, Conflict};
ghost use Rattle.udfs_index.specs.Slots.{AreSlotsForgotten, AreSlotsSame, AreSlotsSet, AreSlotsSettled, slot_at};

use crate::packet::{Packet, UNKNOWN};
use std::alloc::{AllocError, Global};
use udfs_lattice::Fact;

/// How many packets of 32 blocks there are at most.
const PACKETS: usize = 131_072;

/// How many blocks there are at most.
const BLOCKS: u32 = 4_194_304;

/// A place in no input.
pub const NOWHERE: u64 = u64::MAX;

/// What is said of each block. There is room for all packets from the beginning, 36 MB at most; the system gives as much of
/// it as is written, up to the highest block.
#[derive(Drop)]
pub struct Places {
    pub packets: Vec<Packet>,
}

/// What packets say of block `n`.
pub fn slot_of(packets: &[Packet], n: u32) -> Fact<u64>
    ensures { result ≡ slot_at packets.now n }
{
    match packets.get((n / 32) as usize) {
        Some(packet) => packet.slot(n % 32),
        None => Fact::Unknown,
    }
}

/// The number of a block from which on nothing is said of any.
pub fn end_of(packets: &[Packet]) -> u32
    ensures most { result ≤ 4194304 }
    ensures rest { (q : ℕ) → result ≤ q → q < 4194304 → slot_at packets.now q ≡ Unknown }
{
    if packets.len() < PACKETS {
        packets.len() as u32 * 32
    } else {
        BLOCKS
    }
}

/// A number of consecutive blocks from block `n` on, of none of which packets say anything: up to the end of a packet, or, where
/// there is none, of the numbers.
pub fn unknown_from(packets: &[Packet], n: u32) -> u32
    ensures { (j : ℕ) → j < result → slot_at packets.now (n + j) ≡ Unknown }
{
    let number = (n / 32) as usize;
    match packets.get(number) {
        Some(packet) => packet.unknown_from(n % 32),
        None => u32::MAX - n,
    }
}

/// Adds packets of which nothing is known, up to this number.
fn reach(packets: &mut Vec<Packet>, number: usize) -> Result<(), AllocError>
    requires { number < 131072 }
    ensures same { AreSlotsSame packets.old.items packets.new.items }
    ensures reached { OnOk result (number < length packets.new.items) }
{
    while packets.len() <= number {
        packets.push(UNKNOWN)?;
    }
    Ok(())
}

impl Places {
    /// Nothing is known of any block.
    ///
    /// # Errors
    ///
    /// `AllocError` if memory ran out.
    pub fn new(alloc: Global) -> Result<Places, AllocError>
        ensures { IfOk result (λ places. (q : ℕ) → slot_at places.packets.items q ≡ Unknown) }
    {
        Ok(Places {
            packets: Vec::with_capacity(alloc, PACKETS)?,
        })
    }

    /// What is said of block `n`.
    pub fn slot(&self, n: u32) -> Fact<u64>
        ensures { result ≡ slot_at self.now.packets.items n }
    {
        slot_of(&self.packets, n)
    }

    /// Marks block `n` as known, with its bytes at `place`.
    ///
    /// # Errors
    ///
    /// `AllocError` if memory ran out. What is said of each block is unchanged then.
    pub fn put(&mut self, n: u32, place: u64) -> Result<(), AllocError>
        requires { n ≤ 4194303 }
        ensures ok { OnOk result (AreSlotsSet self.old.packets.items n (Known place) self.new.packets.items) }
        ensures err { OnErr result (AreSlotsSame self.old.packets.items self.new.packets.items) }
    {
        let number = (n / 32) as usize;
        reach(&mut self.packets, number)?;
        self.packets[number].put(n % 32, place);
        Ok(())
    }

    /// The place of the bytes that brought block `n` into conflict, or [`NOWHERE`] if that is not known. It has no meaning if the
    /// block is not in conflict.
    pub fn disputed_by(&self, n: u32) -> u64 {
        match self.packets.get((n / 32) as usize) {
            Some(packet) => packet.disputed_by(n % 32),
            None => NOWHERE,
        }
    }

    /// Marks block `n` as in conflict, with the place of the bytes that brought it there.
    ///
    /// # Errors
    ///
    /// As [`put`](Self::put).
    pub fn dispute(&mut self, n: u32, by: u64) -> Result<(), AllocError>
        requires { n ≤ 4194303 }
        ensures ok { OnOk result (AreSlotsSet self.old.packets.items n Conflict self.new.packets.items) }
        ensures err { OnErr result (AreSlotsSame self.old.packets.items self.new.packets.items) }
    {
        let number = (n / 32) as usize;
        reach(&mut self.packets, number)?;
        self.packets[number].dispute(n % 32, by);
        Ok(())
    }

    /// Makes block `n` unknown, whatever it is. It takes no memory.
    fn forget(&mut self, n: u32)
        ensures { AreSlotsSet self.old.packets.items n Unknown self.new.packets.items }
    {
        let number = (n / 32) as usize;
        if number < self.packets.len() {
            self.packets[number].forget(n % 32);
        }
    }

    /// Makes these blocks unknown, whatever they are. It takes no memory.
    pub fn forget_all(&mut self, blocks: &[u32])
        ensures { AreSlotsForgotten self.old.packets.items blocks.now self.new.packets.items }
    {
        for n in blocks {
            self.forget(*n);
        }
    }

    /// Makes each block that is in conflict unknown. It takes no memory.
    pub fn forget_conflicts(&mut self)
        ensures { AreSlotsSettled self.old.packets.items self.new.packets.items }
    {
        for number in 0..self.packets.len() {
            self.packets[number].forget_conflicts();
        }
    }
}
