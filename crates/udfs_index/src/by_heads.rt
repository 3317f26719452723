//! A table file of version 2 is taken by its headers alone: the masks say which blocks are known, and where their bytes are.

ghost use Rattle.std.specs.Prelude.{◌≡◌, ℕ, ◌+◌, ◌*◌, ◌^◌, ◌≤◌, ◌<◌, ◌==◌, cond, true, false, IfOk, OnOk, IfSome};
ghost use Rattle.udfs_lattice.specs.Tables.{Table};
ghost use Rattle.udfs_reading.specs.Gains.{Gains};
ghost use Rattle.udfs_reading.specs.PacketReading.{AreMasks, TakesPacket, TakesPackets, TakesPlace, TakesStates, size_of_blocks};
ghost use Rattle.udfs_reading.specs.Several.{HasTable};
ghost use Rattle.udfs_index.specs.Placed.{IsTaken, TakesInput};
ghost use Rattle.udfs_index.specs.Places.{behind};
ghost use Rattle.udfs_index.specs.Recorded.{IsOf};

use crate::heads::{HEAD, Head, read_head, read_table_head};
use crate::placed::{Judge, PlaceTaker};
use crate::stored::{HEADER, Stored};
use udfs_reading::NotTaken;

/// How many bytes a block has.
const BLOCK: u64 = 2048;

/// Takes what the bits of a block say of it, whose bytes would be at position `at` of a file of `size` bytes, and returns where those after it are.
fn take_place<'a, S: Stored + 'a, T: PlaceTaker<'a, S>>(
    stored: &S,
    size: u64,
    block: u32,
    at: u64,
    known: bool,
    conflict: bool,
    taker: &mut T,
) -> Result<u64, NotTaken>
    requires block { block ≤ 4194303 }
    requires taken { IsTaken (T.Taker.input taker.now) (S.content stored.now) size }
    requires within { at + cond known 2048 0 ≤ size }
    requires size { size < 2 ^ 62 }
    ensures ok { IfOk result (λ next. Gains (T.Taker.took taker.old) (T.Taker.took taker.new) (TakesPlace (behind at (S.content stored.now)) (behind next (S.content stored.now)) block known (cond known false conflict))) }
    ensures next { IfOk result (λ next. next ≡ at + cond known 2048 0) }
    ensures input { T.Taker.input taker.new ≡ T.Taker.input taker.old }
{
    if known {
        return match taker.take_placed(stored, block, at) {
            Ok(()) => Ok(at + BLOCK),
            Err(NotTaken) => Err(NotTaken),
        };
    }
    if !conflict {
        return Ok(at);
    }
    match taker.dispute(block) {
        Ok(()) => Ok(at),
        Err(NotTaken) => Err(NotTaken),
    }
}

/// Takes the blocks of a packet, whose bytes begin at position `at`, and returns where the next packet begins. The masks are halved from block to block.
fn take_blocks<'a, S: Stored + 'a, T: PlaceTaker<'a, S>>(
    stored: &S,
    size: u64,
    head: Head,
    at: u64,
    taker: &mut T,
) -> Result<u64, NotTaken>
    requires packet { head.packet ≤ 131071 }
    requires masks { AreMasks head.known head.conflict }
    requires taken { IsTaken (T.Taker.input taker.now) (S.content stored.now) size }
    requires within { at + size_of_blocks head.known ≤ size }
    requires size { size < 2 ^ 62 }
    ensures ok { IfOk result (λ next. Gains (T.Taker.took taker.old) (T.Taker.took taker.new) (TakesStates (behind at (S.content stored.now)) (behind next (S.content stored.now)) (32 * head.packet) head.known head.conflict)) }
    ensures within { IfOk result (λ next. next ≤ size) }
    ensures input { T.Taker.input taker.new ≡ T.Taker.input taker.old }
{
    let mut known = head.known;
    let mut conflict = head.conflict;
    let mut next = at;
    for place in 0..32 {
        let is_known = known % 2 == 1;
        let is_conflict = conflict % 2 == 1;
        let block = 32 * head.packet + place;
        match take_place(stored, size, block, next, is_known, is_conflict, taker) {
            Ok(after) => next = after,
            Err(NotTaken) => return Err(NotTaken),
        }
        known /= 2;
        conflict /= 2;
    }
    Ok(next)
}

/// Where the next packet begins, and the least number that it may have.
#[derive(Clone, Copy)]
struct Next {
    at: u64,
    low: u32,
}

/// Takes the packet that begins at `next.at`, where the file has `size` bytes.
fn take_packet<'a, S: Stored + 'a, T: PlaceTaker<'a, S>>(
    stored: &S,
    size: u64,
    next: Next,
    taker: &mut T,
) -> Result<Next, NotTaken>
    requires taken { IsTaken (T.Taker.input taker.now) (S.content stored.now) size }
    requires at { next.at ≤ size }
    requires size { size < 2 ^ 62 }
    ensures ok { IfOk result (λ after. Gains (T.Taker.took taker.old) (T.Taker.took taker.new) (TakesPacket (behind next.at (S.content stored.now)) (behind after.at (S.content stored.now)) next.low after.low)) }
    ensures at { IfOk result (λ after. after.at ≤ size) }
    ensures input { T.Taker.input taker.new ≡ T.Taker.input taker.old }
{
    let Some(head) = read_head(stored, next.at, size, next.low) else {
        taker.miss(next.at);
        return Err(NotTaken);
    };
    match take_blocks(stored, size, head, next.at + HEAD, taker) {
        Ok(at) => Ok(Next {
            at,
            low: head.packet + 1,
        }),
        Err(NotTaken) => Err(NotTaken),
    }
}

/// Takes all packets of a file of `size` bytes, which end with the file.
///
/// # Errors
///
/// The number of the packet, from 1, that was not taken.
fn take_packets<'a, S: Stored + 'a, T: PlaceTaker<'a, S>>(
    stored: &S,
    size: u64,
    count: u32,
    taker: &mut T,
) -> Result<(), u32>
    requires taken { IsTaken (T.Taker.input taker.now) (S.content stored.now) size }
    requires head { 16 ≤ size }
    requires size { size < 2 ^ 62 }
    ensures { OnOk result ((low : ℕ) × Gains (T.Taker.took taker.old) (T.Taker.took taker.new) (TakesPackets (behind 16 (S.content stored.now)) (behind size (S.content stored.now)) count low)) }
{
    let mut next = Next { at: HEADER, low: 0 };
    for index in 0..count {
        match take_packet(stored, size, next, taker) {
            Ok(after) => next = after,
            Err(NotTaken) => return Err(index + 1),
        }
    }
    if next.at != size {
        taker.miss(next.at);
        return Err(count);
    }
    Ok(())
}

/// Takes the packets of the input that has just begun, which is a table file of version 2.
///
/// # Errors
///
/// The number of the packet, from 1, that was not taken; 0 if the header of the file cannot be read, or is another one.
pub fn take_table<'a, S: Stored + 'a, T: PlaceTaker<'a, S>>(
    stored: &S,
    taker: &mut T,
) -> Result<(), u32>
    requires { IsOf (T.Taker.input taker.now) (S.content stored.now) }
    ensures { OnOk result (TakesInput (S.content stored.now) (T.Taker.took taker.old) (T.Taker.took taker.new)) }
{
    let Some(head) = read_table_head(stored) else {
        taker.miss(0);
        return Err(0);
    };
    match take_packets(stored, head.size, head.count, taker) {
        Ok(()) => Ok(()),
        Err(number) => Err(number),
    }
}

/// Whether an input is a table file of version 2 without a fault. Only its headers are read.
pub fn is_table<'a, S: Stored + 'a>(stored: &'a S) -> bool
    ensures { result ≡ true → (table : Table) × IfSome (S.content stored.now) (λ bytes. HasTable bytes table) }
{
    let mut judge = Judge { stored };
    match take_table(stored, &mut judge) {
        Ok(()) => true,
        Err(_) => false,
    }
}
