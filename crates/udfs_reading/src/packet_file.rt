//! Table files of version 2: packets of 32 blocks, each with a mask of its known blocks and one of its blocks
//! in conflict.

ghost use Rattle.std.specs.Prelude.{◌≡◌, ℕ, ◌+◌, ◌*◌, ◌^◌, ◌≤◌, ◌<◌, ◌++◌, ◌==◌, [], cond, false, List, length, OnOk, IfOk, IfErr};
ghost use Rattle.std.specs.Io.KnownBytes.{Consumes};
ghost use Rattle.udfs_reading.specs.declared.error.ReadingFault.TheVariants.{Io};
ghost use Rattle.udfs_reading.specs.Device.{left};
ghost use Rattle.udfs_reading.specs.Gains.{Gains};
ghost use Rattle.udfs_reading.specs.Places.{MovesOn, StandsAt};
ghost use Rattle.udfs_reading.specs.Format.{number, header};
ghost use Rattle.udfs_reading.specs.Outcome.{Ends, Takes};
ghost use Rattle.udfs_reading.specs.PacketFile.{packet_magic, Packet};
ghost use Rattle.udfs_reading.specs.PacketReading.{tables_v2, packets_front, low_after, IsUnderPackets, IsNextPacket, AreMasks, TakesPlace, PlaceFails, TakesStates, TakesPacket, TakesPackets};

use crate::block::join_block;
use crate::device::Source;
use crate::error::{ReadingError, ReadingFault};
use crate::field::{read_end, read_number};
use crate::header::read_count;
use crate::taker::Taker;
use crate::window::Window;

/// The greatest number of a packet.
const LAST_PACKET: u32 = 131_071;

/// The masks of a packet: bit i is that of its block i.
#[derive(Clone, Copy)]
pub struct Masks {
    pub known: u32,
    pub conflict: u32,
}

/// Takes the two masks of a packet.
fn read_masks<R: Source>(
    source: &mut R,
    window: &mut Window,
    entry: u32,
    packet: u32,
) -> Result<Masks, ReadingError>
    ensures given { IfOk result (λ masks. Consumes (left window.old.bytes (R.remaining source.old)) (left window.new.bytes (R.remaining source.new)) (number masks.known ++ number masks.conflict)) }
    ensures masks { IfOk result (λ masks. AreMasks masks.known masks.conflict) }
    ensures count { OnOk result (R.faults source.new ≡ R.faults source.old) }
    ensures at { OnOk result (MovesOn window.old.at window.new.at (left window.old.bytes (R.remaining source.old)) (left window.new.bytes (R.remaining source.new))) }
    ensures err { IfErr result (λ e. (count : ℕ) (done : List Packet) → IsNextPacket count done packet → length done + 1 ≡ entry →
        Ends tables_v2 (packets_front count done ++ number packet) (left window.old.bytes (R.remaining source.old)) (left window.new.bytes (R.remaining source.new))
        (R.faults source.old) (R.faults source.new) e) }
    ensures empty { IfErr result (λ e. e.fault ≡ Io → window.new.bytes ≡ []) }
{
    let known = read_number(source, window, entry)?;
    let conflict = read_number(source, window, entry)?;
    if known & conflict != 0 {
        return Err(ReadingError {
            fault: ReadingFault::State,
            number: entry,
        });
    }
    if known == 0 && conflict == 0 {
        return Err(ReadingError {
            fault: ReadingFault::State,
            number: entry,
        });
    }
    Ok(Masks { known, conflict })
}

/// Takes the bytes of a block that is known, and hands its state to the taker.
fn join_place<R: Source, T: Taker<R>>(
    source: &mut R,
    window: &mut Window,
    entry: u32,
    block: u32,
    known: bool,
    conflict: bool,
    taker: &mut T,
) -> Result<(), ReadingError>
    requires block { block ≤ 4194303 }
    requires at { StandsAt (T.input taker.now) window.now.at (left window.now.bytes (R.remaining source.now)) }
    ensures ok { OnOk result (Gains (T.took taker.old) (T.took taker.new) (TakesPlace (left window.old.bytes (R.remaining source.old)) (left window.new.bytes (R.remaining source.new)) block known (cond known false conflict))) }
    ensures count { OnOk result (R.faults source.new ≡ R.faults source.old) }
    ensures at { OnOk result (StandsAt (T.input taker.new) window.new.at (left window.new.bytes (R.remaining source.new))) }
    ensures err { IfErr result (λ e. PlaceFails (left window.old.bytes (R.remaining source.old)) (left window.new.bytes (R.remaining source.new))
        (R.faults source.old) (R.faults source.new) entry known e) }
    ensures empty { IfErr result (λ e. e.fault ≡ Io → window.new.bytes ≡ []) }
{
    if known {
        join_block(source, window, entry, block, taker)?;
        return Ok(());
    }
    if !conflict {
        return Ok(());
    }
    match taker.dispute(block) {
        Ok(()) => Ok(()),
        Err(_) => Err(ReadingError {
            fault: ReadingFault::OutOfMemory,
            number: entry,
        }),
    }
}

/// Takes the blocks of a packet, and hands their states to the taker. The masks are halved from block to block.
fn read_blocks<R: Source, T: Taker<R>>(
    source: &mut R,
    window: &mut Window,
    entry: u32,
    packet: u32,
    masks: Masks,
    taker: &mut T,
) -> Result<(), ReadingError>
    requires packet { packet ≤ 131071 }
    requires masks { AreMasks masks.known masks.conflict }
    requires at { StandsAt (T.input taker.now) window.now.at (left window.now.bytes (R.remaining source.now)) }
    ensures ok { OnOk result (Gains (T.took taker.old) (T.took taker.new) (TakesStates (left window.old.bytes (R.remaining source.old)) (left window.new.bytes (R.remaining source.new)) (32 * packet) masks.known masks.conflict)) }
    ensures count { OnOk result (R.faults source.new ≡ R.faults source.old) }
    ensures at { OnOk result (StandsAt (T.input taker.new) window.new.at (left window.new.bytes (R.remaining source.new))) }
    ensures err { IfErr result (λ e. (count : ℕ) (done : List Packet) → IsNextPacket count done packet → length done + 1 ≡ entry →
        Ends tables_v2 (packets_front count done ++ (number packet ++ (number masks.known ++ number masks.conflict))) (left window.old.bytes (R.remaining source.old)) (left window.new.bytes (R.remaining source.new))
        (R.faults source.old) (R.faults source.new) e) }
    ensures empty { IfErr result (λ e. e.fault ≡ Io → window.new.bytes ≡ []) }
{
    let mut known = masks.known;
    let mut conflict = masks.conflict;
    for place in 0..32 {
        let is_known = known % 2 == 1;
        let is_conflict = conflict % 2 == 1;
        join_place(
            source,
            window,
            entry,
            32 * packet + place,
            is_known,
            is_conflict,
            taker,
        )?;
        known /= 2;
        conflict /= 2;
    }
    Ok(())
}

/// Takes a packet, whose number must be at least `low`, and returns the least number of the next one.
fn read_packet<R: Source, T: Taker<R>>(
    source: &mut R,
    window: &mut Window,
    entry: u32,
    low: u32,
    taker: &mut T,
) -> Result<u32, ReadingError>
    requires { StandsAt (T.input taker.now) window.now.at (left window.now.bytes (R.remaining source.now)) }
    ensures ok { IfOk result (λ next. Gains (T.took taker.old) (T.took taker.new) (TakesPacket (left window.old.bytes (R.remaining source.old)) (left window.new.bytes (R.remaining source.new)) low next)) }
    ensures count { OnOk result (R.faults source.new ≡ R.faults source.old) }
    ensures at { OnOk result (StandsAt (T.input taker.new) window.new.at (left window.new.bytes (R.remaining source.new))) }
    ensures err { IfErr result (λ e. (count : ℕ) (done : List Packet) → IsUnderPackets count done → length done + 1 ≡ entry → low_after 0 done ≡ low →
        Ends tables_v2 (packets_front count done) (left window.old.bytes (R.remaining source.old)) (left window.new.bytes (R.remaining source.new))
        (R.faults source.old) (R.faults source.new) e) }
    ensures empty { IfErr result (λ e. e.fault ≡ Io → window.new.bytes ≡ []) }
{
    let packet = read_number(source, window, entry)?;
    if packet > LAST_PACKET {
        return Err(ReadingError {
            fault: ReadingFault::BlockNumber,
            number: entry,
        });
    }
    if packet < low {
        return Err(ReadingError {
            fault: ReadingFault::Order,
            number: entry,
        });
    }
    let masks = read_masks(source, window, entry, packet)?;
    read_blocks(source, window, entry, packet, masks, taker)?;
    Ok(packet + 1)
}

/// Takes this many packets, and hands them to the taker.
fn read_packets<R: Source, T: Taker<R>>(
    source: &mut R,
    window: &mut Window,
    count: u32,
    taker: &mut T,
) -> Result<(), ReadingError>
    requires { StandsAt (T.input taker.now) window.now.at (left window.now.bytes (R.remaining source.now)) }
    ensures ok { OnOk result ((low : ℕ) × Gains (T.took taker.old) (T.took taker.new) (TakesPackets (left window.old.bytes (R.remaining source.old)) (left window.new.bytes (R.remaining source.new)) count low)) }
    ensures count { OnOk result (R.faults source.new ≡ R.faults source.old) }
    ensures err { IfErr result (λ e. Ends tables_v2 (header packet_magic count) (left window.old.bytes (R.remaining source.old)) (left window.new.bytes (R.remaining source.new))
        (R.faults source.old) (R.faults source.new) e) }
    ensures empty { IfErr result (λ e. e.fault ≡ Io → window.new.bytes ≡ []) }
{
    let mut low = 0;
    for index in 0..count {
        low = read_packet(source, window, index + 1, low, taker)?;
    }
    Ok(())
}

/// Reads what follows the magic of a table file of version 2, to the end of the source, and hands its blocks to the
/// taker. After an error the taker may have some of them.
pub fn read_body<R: Source, T: Taker<R>>(
    source: &mut R,
    window: &mut Window,
    taker: &mut T,
) -> Result<(), ReadingError>
    requires { StandsAt (T.input taker.now) window.now.at (left window.now.bytes (R.remaining source.now)) }
    ensures ok { OnOk result (Gains (T.took taker.old) (T.took taker.new) (Takes tables_v2 packet_magic (left window.old.bytes (R.remaining source.old)) (left window.new.bytes (R.remaining source.new)))) }
    ensures count { OnOk result (R.faults source.new ≡ R.faults source.old) }
    ensures err { IfErr result (λ e. Ends tables_v2 packet_magic (left window.old.bytes (R.remaining source.old)) (left window.new.bytes (R.remaining source.new))
        (R.faults source.old) (R.faults source.new) e) }
    ensures empty { IfErr result (λ e. e.fault ≡ Io → window.new.bytes ≡ []) }
    ensures done { OnOk result (window.new.bytes ≡ []) }
{
    let count = read_count(source, window)?;
    read_packets(source, window, count, taker)?;
    read_end(source, window, count)?;
    Ok(())
}
