//! Table files of version 2 are written: the one spelling of a table in it.

ghost use Rattle.std.specs.Prelude.{◌≡◌, ℕ, ◌+◌, ◌*◌, ◌^◌, ◌<◌, ◌≤◌, cond, length};
ghost use Rattle.std.specs.List.{flat_map};
ghost use Rattle.udfs_lattice.specs.States.{fact_now, is_known, is_conflict};
ghost use Rattle.udfs_reading.specs.PacketFile.{mask_of, content, packet_bytes, states_from, packets_of, table_bytes};
ghost use Rattle.udfs_reading.specs.Writing.{Writes, Passes};

use crate::device::Sink;
use crate::packet_file::Masks;
use crate::writing::{Outgoing, WriteFault, write_header, write_number};
use udfs_lattice::{BlockTable, Fact};

/// Two masks, with a bit more for this state, which becomes the lowest.
fn with_bit(masks: Masks, fact: Fact<&[u8; 2048]>) -> Masks
    requires known { 2 * masks.known + 1 < 2 ^ 32 }
    requires conflict { 2 * masks.conflict + 1 < 2 ^ 32 }
    ensures known { result.known ≡ cond (is_known (fact_now fact.entry)) 1 0 + 2 * masks.known }
    ensures conflict { result.conflict ≡ cond (is_conflict (fact_now fact.entry)) 1 0 + 2 * masks.conflict }
{
    let Masks { known, conflict } = masks;
    match fact {
        Fact::Unknown => Masks {
            known: 2 * known,
            conflict: 2 * conflict,
        },
        Fact::Known(_) => Masks {
            known: 2 * known + 1,
            conflict: 2 * conflict,
        },
        Fact::Conflict => Masks {
            known: 2 * known,
            conflict: 2 * conflict + 1,
        },
    }
}

/// The masks of the packet whose first block this is.
fn masks_of(table: &BlockTable, first: u32) -> Masks
    requires { first ≤ 4194272 }
    ensures known { result.known ≡ mask_of is_known (states_from table.now first 32) }
    ensures conflict { result.conflict ≡ mask_of is_conflict (states_from table.now first 32) }
{
    let mut masks = Masks {
        known: 0,
        conflict: 0,
    };
    let mut place = 32;
    while place > 0 {
        place -= 1;
        masks = with_bit(masks, table.state(first + place));
    }
    masks
}

/// The bytes of a block, if it is known.
fn write_content<W: Sink>(
    out: &mut Outgoing,
    sink: &mut W,
    fact: Fact<&[u8; 2048]>,
) -> Result<(), WriteFault>
    ensures { Passes (W.stream sink.old) (W.stream sink.new) out.old out.new (content (fact_now fact.entry)) result }
{
    match fact {
        Fact::Known(bytes) => {
            out.push(sink, bytes)?;
            Ok(())
        }
        Fact::Unknown => Ok(()),
        Fact::Conflict => Ok(()),
    }
}

/// The bytes of the known blocks of the packet whose first block this is.
fn write_blocks<W: Sink>(
    out: &mut Outgoing,
    sink: &mut W,
    table: &BlockTable,
    first: u32,
) -> Result<(), WriteFault>
    requires { first ≤ 4194272 }
    ensures { Passes (W.stream sink.old) (W.stream sink.new) out.old out.new (flat_map content (states_from table.now first 32)) result }
{
    for place in 0..32 {
        write_content(out, sink, table.state(first + place))?;
    }
    Ok(())
}

/// The packet of this number.
fn write_packet<W: Sink>(
    out: &mut Outgoing,
    sink: &mut W,
    table: &BlockTable,
    packet: u32,
) -> Result<(), WriteFault>
    requires { packet ≤ 131071 }
    ensures { Passes (W.stream sink.old) (W.stream sink.new) out.old out.new (packet_bytes (packet, states_from table.now (32 * packet) 32)) result }
{
    let first = 32 * packet;
    let masks = masks_of(table, first);
    write_number(out, sink, packet)?;
    write_number(out, sink, masks.known)?;
    write_number(out, sink, masks.conflict)?;
    write_blocks(out, sink, table, first)?;
    Ok(())
}

/// How many packets have a block that is not unknown.
fn count_packets(table: &BlockTable) -> u32
    ensures { result ≡ length (packets_of table.now) }
{
    let mut count = 0;
    let mut next = 0;
    for (block, _) in table.entries() {
        if block / 32 >= next {
            count += 1;
            next = block / 32 + 1;
        }
    }
    count
}

/// The header and the packets of the table.
fn write_packets<W: Sink>(
    out: &mut Outgoing,
    sink: &mut W,
    table: &BlockTable,
) -> Result<(), WriteFault>
    ensures { Passes (W.stream sink.old) (W.stream sink.new) out.old out.new (table_bytes table.now) result }
{
    let count = count_packets(table);
    write_header(out, sink, b"UDFTABL2", count)?;
    let mut next = 0;
    for (block, _) in table.entries() {
        if block / 32 >= next {
            write_packet(out, sink, table, block / 32)?;
            next = block / 32 + 1;
        }
    }
    Ok(())
}

/// Writes the table file of the table in version 2: `UDFTABL2`, the block size, the number of packets that
/// have a block which is not unknown, and these packets in the order of their numbers. It takes no memory.
///
/// # Errors
///
/// `WriteFault` exactly where the sink failed. Then a beginning of the file is out.
pub fn write_table<W: Sink>(table: &BlockTable, sink: &mut W) -> Result<(), WriteFault>
    ensures { Writes (W.stream sink.old) (W.stream sink.new) (table_bytes table.now) result }
{
    let mut out = Outgoing::new();
    write_packets(&mut out, sink, table)?;
    out.flush(sink)?;
    Ok(())
}
