//! A table file of version 2 is written from an index, packet by packet.

ghost use Rattle.std.specs.Prelude.{◌≡◌, ◌*◌, ◌<◌, ◌++◌, ℕ, List, Some, map, length, OnOk};
ghost use Rattle.std.specs.List.{flat_map};
ghost use Rattle.udfs_lattice.specs.States.{is_conflict, is_known};
ghost use Rattle.udfs_lattice.specs.Tables.{IsTable, Table};
ghost use Rattle.udfs_reading.specs.Format.{number};
ghost use Rattle.udfs_reading.specs.PacketFile.{content, mask_of, packet_bytes, some_packet, says_some, states_from, packets_of, table_bytes};
ghost use Rattle.udfs_reading.specs.Writing.{Passes};
ghost use Rattle.udfs_index.specs.Copying.{BlamesNone, CopiesPast, Copies, CountsSink, IsShown, NoneFails};
ghost use Rattle.udfs_index.specs.Index.{contents_of};
ghost use Rattle.udfs_index.specs.Places.{state_by, AreWhole};
ghost use Rattle.udfs_index.specs.Slots.{slot_at};
ghost use Rattle.udfs_index.specs.Windows.{IsRead};

use crate::fault::CopyFault;
use crate::packet::Packet;
use crate::places::slot_of;
use crate::stored::Stored;
use crate::window::Window;
use udfs_lattice::Fact;
use udfs_reading::{Outgoing, Sink, WriteFault, write_header, write_number};

/// How many packets there are at most.
const PACKETS: u32 = 131_072;

/// Copies the bytes of a block, if it is known.
fn write_block<S: Stored, W: Sink>(
    inputs: &[&S],
    packets: &[Packet],
    block: u32,
    window: &mut Window,
    out: &mut Outgoing,
    sink: &mut W,
) -> Result<(), CopyFault>
    requires block { block < 4194304 }
    requires read { IsRead (contents_of S.content inputs.now) window.old }
    ensures read { OnOk result (IsRead (contents_of S.content inputs.now) window.new) }
    ensures bytes { (wholes : List (List ℕ)) → contents_of S.content inputs.now ≡ map Some wholes →
        CopiesPast (W.stream sink.old) (W.stream sink.new) out.old out.new (content (state_by wholes (slot_at packets.now block))) result }
    ensures count { CountsSink (W.stream sink.old).faults (W.stream sink.new).faults result }
    ensures reads { (wholes : List (List ℕ)) → contents_of S.content inputs.now ≡ map Some wholes → NoneFails S.fails → AreWhole wholes packets.now → BlamesNone result }
{
    let Fact::Known(place) = slot_of(packets, block) else {
        return Ok(());
    };
    let at = match window.reach(inputs, packets, block, place) {
        Ok(at) => at,
        Err(unread) => return Err(CopyFault::Input(unread)),
    };
    out.push(sink, window.block(at))?;
    Ok(())
}

/// Copies the known blocks of the packet of this number.
fn write_blocks<S: Stored, W: Sink>(
    inputs: &[&S],
    packets: &[Packet],
    index: u32,
    window: &mut Window,
    out: &mut Outgoing,
    sink: &mut W,
) -> Result<(), CopyFault>
    requires index { index < 131072 }
    requires read { IsRead (contents_of S.content inputs.now) window.old }
    ensures read { OnOk result (IsRead (contents_of S.content inputs.now) window.new) }
    ensures bytes { (wholes : List (List ℕ)) (t : Table) → contents_of S.content inputs.now ≡ map Some wholes → IsShown wholes packets.now t →
        CopiesPast (W.stream sink.old) (W.stream sink.new) out.old out.new (flat_map content (states_from t (32 * index) 32)) result }
    ensures count { CountsSink (W.stream sink.old).faults (W.stream sink.new).faults result }
    ensures reads { (wholes : List (List ℕ)) → contents_of S.content inputs.now ≡ map Some wholes → NoneFails S.fails → AreWhole wholes packets.now → BlamesNone result }
{
    for i in 0..32 {
        write_block(inputs, packets, 32 * index + i, window, out, sink)?;
    }
    Ok(())
}

/// The number and the masks of a packet.
fn put_masks<W: Sink>(
    out: &mut Outgoing,
    sink: &mut W,
    packet: u32,
    known: u32,
    conflict: u32,
) -> Result<(), WriteFault>
    ensures { Passes (W.stream sink.old) (W.stream sink.new) out.old out.new (number packet ++ (number known ++ number conflict)) result }
{
    write_number(out, sink, packet)?;
    write_number(out, sink, known)?;
    write_number(out, sink, conflict)?;
    Ok(())
}

/// The masks of the packet of this number: of the known blocks, and of the blocks in conflict.
fn masks_of(packets: &[Packet], index: u32) -> (u32, u32)
    ensures known { (wholes : List (List ℕ)) (t : Table) → IsShown wholes packets.now t → mask_of is_known (states_from t (32 * index) 32) ≡ result.0 }
    ensures conflict { (wholes : List (List ℕ)) (t : Table) → IsShown wholes packets.now t → mask_of is_conflict (states_from t (32 * index) 32) ≡ result.1 }
{
    match packets.get(index as usize) {
        Some(packet) => packet.masks(),
        None => (0, 0),
    }
}

/// The packet of this number.
fn write_packet<S: Stored, W: Sink>(
    inputs: &[&S],
    packets: &[Packet],
    index: u32,
    window: &mut Window,
    out: &mut Outgoing,
    sink: &mut W,
) -> Result<(), CopyFault>
    requires index { index < 131072 }
    requires read { IsRead (contents_of S.content inputs.now) window.old }
    ensures read { OnOk result (IsRead (contents_of S.content inputs.now) window.new) }
    ensures bytes { (wholes : List (List ℕ)) (t : Table) → contents_of S.content inputs.now ≡ map Some wholes → IsShown wholes packets.now t →
        CopiesPast (W.stream sink.old) (W.stream sink.new) out.old out.new (packet_bytes (index, states_from t (32 * index) 32)) result }
    ensures count { CountsSink (W.stream sink.old).faults (W.stream sink.new).faults result }
    ensures reads { (wholes : List (List ℕ)) → contents_of S.content inputs.now ≡ map Some wholes → NoneFails S.fails → AreWhole wholes packets.now → BlamesNone result }
{
    let (known, conflict) = masks_of(packets, index);
    put_masks(out, sink, index, known, conflict)?;
    write_blocks(inputs, packets, index, window, out, sink)
}

/// Whether something is said of one of the blocks of the packet of this number.
fn says(packets: &[Packet], index: u32) -> bool
    ensures { (wholes : List (List ℕ)) (t : Table) → IsShown wholes packets.now t → result ≡ says_some (states_from t (32 * index) 32) }
{
    let (known, conflict) = masks_of(packets, index);
    known != 0 || conflict != 0
}

/// The packet of this number, if something is said of one of its blocks.
fn write_some<S: Stored, W: Sink>(
    inputs: &[&S],
    packets: &[Packet],
    index: u32,
    window: &mut Window,
    out: &mut Outgoing,
    sink: &mut W,
) -> Result<(), CopyFault>
    requires index { index < 131072 }
    requires read { IsRead (contents_of S.content inputs.now) window.old }
    ensures read { OnOk result (IsRead (contents_of S.content inputs.now) window.new) }
    ensures bytes { (wholes : List (List ℕ)) (t : Table) → contents_of S.content inputs.now ≡ map Some wholes → IsShown wholes packets.now t →
        CopiesPast (W.stream sink.old) (W.stream sink.new) out.old out.new (flat_map packet_bytes (some_packet (index, states_from t (32 * index) 32))) result }
    ensures count { CountsSink (W.stream sink.old).faults (W.stream sink.new).faults result }
    ensures reads { (wholes : List (List ℕ)) → contents_of S.content inputs.now ≡ map Some wholes → NoneFails S.fails → AreWhole wholes packets.now → BlamesNone result }
{
    if says(packets, index) {
        write_packet(inputs, packets, index, window, out, sink)
    } else {
        Ok(())
    }
}

/// How many packets say something of one of their blocks.
fn count_packets(packets: &[Packet]) -> u32
    ensures { (wholes : List (List ℕ)) (t : Table) → IsShown wholes packets.now t → result ≡ length (packets_of t) }
{
    let mut count = 0;
    for index in 0..PACKETS {
        if says(packets, index) {
            count += 1;
        }
    }
    count
}

/// The header and the packets.
fn write_packets<S: Stored, W: Sink>(
    inputs: &[&S],
    packets: &[Packet],
    out: &mut Outgoing,
    sink: &mut W,
) -> Result<(), CopyFault>
    ensures bytes { (wholes : List (List ℕ)) (t : Table) → contents_of S.content inputs.now ≡ map Some wholes → IsShown wholes packets.now t →
        CopiesPast (W.stream sink.old) (W.stream sink.new) out.old out.new (table_bytes t) result }
    ensures count { CountsSink (W.stream sink.old).faults (W.stream sink.new).faults result }
    ensures reads { (wholes : List (List ℕ)) (t : Table) → IsTable t → contents_of S.content inputs.now ≡ map Some wholes → NoneFails S.fails → IsShown wholes packets.now t → BlamesNone result }
{
    let mut window = Window::new();
    let count = count_packets(packets);
    write_header(out, sink, b"UDFTABL2", count)?;
    for index in 0..PACKETS {
        write_some(inputs, packets, index, &mut window, out, sink)?;
    }
    Ok(())
}

/// Writes the table file of these packets in version 2.
///
/// # Errors
///
/// `CopyFault::Sink` exactly where the sink failed, and `CopyFault::Input` where an input could not be read again. Then a
/// beginning of the file is out.
pub fn write_table<S: Stored, W: Sink>(
    inputs: &[&S],
    packets: &[Packet],
    sink: &mut W,
) -> Result<(), CopyFault>
    ensures bytes { (wholes : List (List ℕ)) (t : Table) → contents_of S.content inputs.now ≡ map Some wholes → IsShown wholes packets.now t →
        Copies (W.stream sink.old) (W.stream sink.new) (table_bytes t) result }
    ensures count { CountsSink (W.stream sink.old).faults (W.stream sink.new).faults result }
    ensures reads { (wholes : List (List ℕ)) (t : Table) → IsTable t → contents_of S.content inputs.now ≡ map Some wholes → NoneFails S.fails → IsShown wholes packets.now t → BlamesNone result }
{
    let mut out = Outgoing::new();
    write_packets(inputs, packets, &mut out, sink)?;
    out.flush(sink)?;
    Ok(())
}
