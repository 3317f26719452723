//! A table file of version 1 is written from an index, block by block.

ghost use Rattle.std.specs.Prelude.{◌≡◌, ◌*◌, ◌+◌, ◌<◌, ◌≤◌, ◌++◌, ℕ, List, Some, map, length, OnOk};
ghost use Rattle.std.specs.List.{flat_map};
ghost use Rattle.udfs_lattice.specs.declared.facts.Fact.TheVariants.{Unknown, Known, Conflict};
ghost use Rattle.udfs_lattice.specs.Tables.{Table, IsTable, entries_of, state_of};
ghost use Rattle.udfs_reading.specs.PacketReading.{entry_at};
ghost use Rattle.udfs_reading.specs.TableFile.{entry_bytes, state_bytes, table_bytes_v1};
ghost use Rattle.udfs_reading.specs.Writing.{Passes};
ghost use Rattle.udfs_index.specs.Copying.{BlamesNone, CopiesPast, Copies, CountsSink, IsShown, NoneFails};
ghost use Rattle.udfs_index.specs.Index.{contents_of};
ghost use Rattle.udfs_index.specs.Places.{state_by, AreWhole};
ghost use Rattle.udfs_index.specs.Slots.{slot_at};
ghost use Rattle.udfs_index.specs.Windows.{IsRead};

use crate::fault::CopyFault;
use crate::packet::Packet;
use crate::places::{end_of, slot_of};
use crate::stored::Stored;
use crate::window::Window;
use udfs_lattice::Fact;
use udfs_reading::{Outgoing, Sink, WriteFault, write_header, write_number};

/// The number of a block and the mark of its state, and its bytes.
fn put_known<W: Sink>(
    out: &mut Outgoing,
    sink: &mut W,
    block: u32,
    bytes: &[u8],
) -> Result<(), WriteFault>
    requires { length bytes.now ≤ 2048 }
    ensures { Passes (W.stream sink.old) (W.stream sink.new) out.old out.new (entry_bytes (block, Known bytes.now)) result }
{
    write_number(out, sink, block)?;
    out.push(sink, &[1])?;
    out.push(sink, bytes)?;
    Ok(())
}

/// The number of a block that is in conflict, and the mark of that.
fn put_conflict<W: Sink>(out: &mut Outgoing, sink: &mut W, block: u32) -> Result<(), WriteFault>
    ensures { Passes (W.stream sink.old) (W.stream sink.new) out.old out.new (entry_bytes (block, Conflict)) result }
{
    write_number(out, sink, block)?;
    out.push(sink, &[2])?;
    Ok(())
}

/// The entry of a block, if something is said of it.
fn write_entry<S: Stored, W: Sink>(
    inputs: &[&S],
    packets: &[Packet],
    block: u32,
    window: &mut Window,
    out: &mut Outgoing,
    sink: &mut W,
) -> Result<(), CopyFault>
    requires block { block < 4194304 }
    requires read { IsRead (contents_of S.content inputs.now) window.old }
    ensures read { OnOk result (IsRead (contents_of S.content inputs.now) window.new) }
    ensures bytes { (wholes : List (List ℕ)) → contents_of S.content inputs.now ≡ map Some wholes →
        CopiesPast (W.stream sink.old) (W.stream sink.new) out.old out.new (flat_map entry_bytes (entry_at block (state_by wholes (slot_at packets.now block)))) result }
    ensures count { CountsSink (W.stream sink.old).faults (W.stream sink.new).faults result }
    ensures reads { (wholes : List (List ℕ)) → contents_of S.content inputs.now ≡ map Some wholes → NoneFails S.fails → AreWhole wholes packets.now → BlamesNone result }
{
    match slot_of(packets, block) {
        Fact::Unknown => Ok(()),
        Fact::Known(place) => {
            let at = match window.reach(inputs, packets, block, place) {
                Ok(at) => at,
                Err(unread) => return Err(CopyFault::Input(unread)),
            };
            put_known(out, sink, block, window.block(at))?;
            Ok(())
        }
        Fact::Conflict => {
            put_conflict(out, sink, block)?;
            Ok(())
        }
    }
}

/// How many entries a block has of which this is said: one, or none where it is unknown.
fn entries_in(slot: Fact<u64>) -> u32
    ensures most { result ≤ 1 }
    ensures count { (wholes : List (List ℕ)) (n : ℕ) → result ≡ length (entry_at n (state_by wholes slot)) }
{
    match slot {
        Fact::Unknown => 0,
        Fact::Known(_) => 1,
        Fact::Conflict => 1,
    }
}

/// Of how many blocks something is said.
fn count_entries(packets: &[Packet]) -> u32
    ensures { (wholes : List (List ℕ)) (t : Table) → IsTable t → IsShown wholes packets.now t → result ≡ length (entries_of t) }
{
    let mut count = 0;
    let end = end_of(packets);
    for block in 0..end {
        count += entries_in(slot_of(packets, block));
    }
    count
}

/// The header and the entries.
fn write_entries<S: Stored, W: Sink>(
    inputs: &[&S],
    packets: &[Packet],
    out: &mut Outgoing,
    sink: &mut W,
) -> Result<(), CopyFault>
    ensures bytes { (wholes : List (List ℕ)) (t : Table) → IsTable t → contents_of S.content inputs.now ≡ map Some wholes → IsShown wholes packets.now t →
        CopiesPast (W.stream sink.old) (W.stream sink.new) out.old out.new (table_bytes_v1 t) result }
    ensures count { CountsSink (W.stream sink.old).faults (W.stream sink.new).faults result }
    ensures reads { (wholes : List (List ℕ)) (t : Table) → IsTable t → contents_of S.content inputs.now ≡ map Some wholes → NoneFails S.fails → IsShown wholes packets.now t → BlamesNone result }
{
    let count = count_entries(packets);
    let end = end_of(packets);
    let mut window = Window::new();
    write_header(out, sink, b"UDFTABL1", count)?;
    for block in 0..end {
        write_entry(inputs, packets, block, &mut window, out, sink)?;
    }
    Ok(())
}

/// Writes the table file of these packets in version 1.
///
/// # Errors
///
/// As of [`packing::write_table`](crate::packing::write_table).
pub fn write_table_v1<S: Stored, W: Sink>(
    inputs: &[&S],
    packets: &[Packet],
    sink: &mut W,
) -> Result<(), CopyFault>
    ensures bytes { (wholes : List (List ℕ)) (t : Table) → IsTable t → contents_of S.content inputs.now ≡ map Some wholes → IsShown wholes packets.now t →
        Copies (W.stream sink.old) (W.stream sink.new) (table_bytes_v1 t) result }
    ensures count { CountsSink (W.stream sink.old).faults (W.stream sink.new).faults result }
    ensures reads { (wholes : List (List ℕ)) (t : Table) → IsTable t → contents_of S.content inputs.now ≡ map Some wholes → NoneFails S.fails → IsShown wholes packets.now t → BlamesNone result }
{
    let mut out = Outgoing::new();
    write_entries(inputs, packets, &mut out, sink)?;
    out.flush(sink)?;
    Ok(())
}
