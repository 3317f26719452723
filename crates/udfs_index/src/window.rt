//! Bytes of an input that are read at once, from which blocks are copied.

ghost use Rattle.std.specs.Prelude.{◌≡◌, ◌+◌, ◌/◌, ◌%◌, ◌^◌, ◌<◌, ◌≤◌, ℕ, List, Option, Some, map, length, take, drop, IfOk, IfSome, OnOk, OnErr};
ghost use Rattle.udfs_lattice.specs.declared.facts.Fact.TheVariants.{Known};
ghost use Rattle.udfs_index.specs.Copying.{NoneFails};
ghost use Rattle.udfs_index.specs.Index.{IsAtPlace, contents_of};
ghost use Rattle.udfs_index.specs.Places.{AreHeld, AreWhole, IsWholeAt};
ghost use Rattle.udfs_index.specs.Slots.{slot_at};
ghost use Rattle.udfs_index.specs.Windows.{IsRead};

use crate::fault::Unread;
use crate::inputs::{BYTES, read_from};
use crate::packet::Packet;
use crate::places::{end_of, slot_of};
use crate::stored::Stored;
use udfs_lattice::Fact;

/// How many bytes are read at once at most.
const LONGEST: u64 = 65_536;

/// How many bytes a block has.
const BLOCK: u64 = 2048;

/// The most bytes that may be between two blocks that are read at once. Numbers of records, entries of blocks in conflict and headers
/// of packets are such bytes.
const GAP: u64 = 64;

/// How many bytes to read from `place` on, instead of `span`, so that the block of this slot is read too; `span` if it is not
/// known. None if it is in another input, does not come at most `GAP` bytes after these, or would make it more than `LONGEST`.
fn with(place: u64, span: u64, slot: Fact<u64>) -> Option<u64>
    requires some { 2048 ≤ span }
    requires fits { span ≤ 65536 }
    ensures some { IfSome result (λ more. 2048 ≤ more) }
    ensures fits { IfSome result (λ more. more ≤ 65536) }
    ensures held { IfSome result (λ more. (wholes : List (List ℕ)) → IsWholeAt wholes slot → AreHeld wholes place span → AreHeld wholes place more) }
{
    let Fact::Known(next) = slot else {
        return Some(span);
    };
    if next / BYTES != place / BYTES {
        return None;
    }
    let far = (next % BYTES).checked_sub(place % BYTES)?;
    if far < span || far > span + GAP || far + BLOCK > LONGEST {
        return None;
    }
    Some(far + BLOCK)
}

/// How many bytes to read at once from `place` on, where the bytes of block `block` begin. The read extends over the known blocks
/// after `block` for as long as each is in the same input, at most `GAP` bytes after the one before it, and the whole is at most
/// `LONGEST` bytes. The next read begins at a block after these, so that each block is examined at most twice.
fn ahead(packets: &[Packet], block: u32, place: u64) -> u64
    requires block { block < 4194304 }
    requires known { slot_at packets.now block ≡ Known place }
    ensures some { 2048 ≤ result }
    ensures fits { result ≤ 65536 }
    ensures held { (wholes : List (List ℕ)) → AreWhole wholes packets.now → AreHeld wholes place result }
{
    let end = end_of(packets);
    let mut span = BLOCK;
    for next in block + 1..end {
        let Some(more) = with(place, span, slot_of(packets, next)) else {
            return span;
        };
        span = more;
    }
    span
}

/// Bytes of an input that were read at once: the first `len` of `bytes` are those from `place` on.
#[derive(Drop)]
pub struct Window {
    place: u64,
    len: u64,
    bytes: [u8; 65_536],
}

impl Window {
    /// Nothing was read.
    pub fn new() -> Window
        ensures { (contents : List (Option (List ℕ))) → IsRead contents result }
    {
        Window {
            place: 0,
            len: 0,
            bytes: [0; 65_536],
        }
    }

    /// Where in the window the block at a place begins, if all of it is in the window.
    fn find(&self, place: u64) -> Option<u64>
        ensures input { IfSome result (λ at. place / 2 ^ 44 ≡ self.now.place / 2 ^ 44) }
        ensures at { IfSome result (λ at. place % 2 ^ 44 ≡ self.now.place % 2 ^ 44 + at) }
        ensures whole { IfSome result (λ at. at + 2048 ≤ self.now.len) }
    {
        if place / BYTES != self.place / BYTES {
            return None;
        }
        let at = (place % BYTES).checked_sub(self.place % BYTES)?;
        if at + BLOCK > self.len {
            return None;
        }
        Some(at)
    }

    /// Returns where in the window the block begins whose bytes are at `place`. If it is not in the window, reads its bytes first,
    /// and those of the blocks that follow it.
    ///
    /// # Errors
    ///
    /// `Unread` where they could not be read.
    pub fn reach<S: Stored>(
        &mut self,
        inputs: &[&S],
        packets: &[Packet],
        block: u32,
        place: u64,
    ) -> Result<usize, Unread>
        requires block { block < 4194304 }
        requires known { slot_at packets.now block ≡ Known place }
        requires read { IsRead (contents_of S.content inputs.now) self.old }
        ensures read { OnOk result (IsRead (contents_of S.content inputs.now) self.new) }
        ensures within { IfOk result (λ at. at + 2048 ≤ 65536) }
        ensures there { IfOk result (λ at. IsAtPlace (contents_of S.content inputs.now) place (take 2048 (drop at self.new.bytes))) }
        ensures reads { (wholes : List (List ℕ)) → contents_of S.content inputs.now ≡ map Some wholes → NoneFails S.fails → AreWhole wholes packets.now → OnErr result ⊥ }
    {
        if let Some(at) = self.find(place) {
            return Ok(at as usize);
        }
        let span = ahead(packets, block, place);
        read_from(inputs, place, &mut self.bytes[..span as usize])?;
        self.place = place;
        self.len = span;
        Ok(0)
    }

    /// The 2048 bytes from there on.
    pub fn block(&self, at: usize) -> &[u8]
        requires { at + 2048 ≤ 65536 }
        ensures whole { length result.now ≡ 2048 }
        ensures bytes { result.now ≡ take 2048 (drop at self.now.bytes) }
    {
        &self.bytes[at..at + 2048]
    }
}
