//! The image of a table is written.

ghost use Rattle.std.specs.Prelude.{◌≤◌, ◌+◌};
ghost use Rattle.udfs_reading.specs.Writing.{Writes, Passes};
ghost use Rattle.udfs_lattice.specs.States.{fact_now};
ghost use Rattle.udfs_rescue.specs.Images.{bytes_of_state, blocks_from, image_bytes};

use udfs_lattice::{BlockTable, Fact};
use udfs_reading::{Outgoing, Sink, WriteFault};

/// What is written for a block that is not known.
const ZEROS: [u8; 2048] = [0; 2048];

/// The bytes of one block.
fn write_block<W: Sink>(
    out: &mut Outgoing,
    sink: &mut W,
    fact: Fact<&[u8; 2048]>,
) -> Result<(), WriteFault>
    ensures { Passes (W.stream sink.old) (W.stream sink.new) out.old out.new (bytes_of_state (fact_now fact.entry)) result }
{
    match fact {
        Fact::Known(bytes) => out.push(sink, bytes),
        Fact::Unknown | Fact::Conflict => out.push(sink, &ZEROS),
    }
}

/// The blocks up to the last one.
fn write_blocks<W: Sink>(
    out: &mut Outgoing,
    sink: &mut W,
    table: &BlockTable,
    last: u32,
) -> Result<(), WriteFault>
    requires { last ≤ 4194303 }
    ensures { Passes (W.stream sink.old) (W.stream sink.new) out.old out.new (image_bytes table.now last) result }
{
    for block in 0..last + 1 {
        write_block(out, sink, table.state(block))?;
    }
    Ok(())
}

/// Writes the image of a table: `2048 * (last + 1)` bytes, those of each block that is known, and zeros in the place of
/// each that is not. It writes in pieces of up to 256 KiB, and takes no memory.
///
/// # Errors
///
/// `WriteFault` exactly where the sink failed. Then a beginning of the image is out.
pub fn write_image<W: Sink>(table: &BlockTable, last: u32, sink: &mut W) -> Result<(), WriteFault>
    requires { last ≤ 4194303 }
    ensures { Writes (W.stream sink.old) (W.stream sink.new) (image_bytes table.now last) result }
{
    let mut out = Outgoing::new();
    write_blocks(&mut out, sink, table, last)?;
    out.flush(sink)?;
    Ok(())
}
