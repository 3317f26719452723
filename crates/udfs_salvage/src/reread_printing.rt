//! The blocks to read again are printed by themselves.

ghost use Rattle.udfs_reading.specs.Puts.{Puts};
ghost use Rattle.udfs_reading.specs.Writing.{Writes};
ghost use Rattle.udfs_salvage.specs.RereadTexts.{number_line, number_lines};

use crate::reports::Report;
use udfs_reading::{Printer, Sink, WriteFault};

/// The number of a block on a line of its own.
fn put_number<W: Sink>(out: &mut Printer, sink: &mut W, block: u32)
    ensures { Puts (W.stream sink.old) (W.stream sink.new) out.old out.new (number_line block) }
{
    out.put_number(sink, u64::from(block));
    out.put(sink, "\n");
}

/// The lines of blocks.
fn put_numbers<W: Sink>(out: &mut Printer, sink: &mut W, blocks: &[u32])
    ensures { Puts (W.stream sink.old) (W.stream sink.new) out.old out.new (number_lines blocks.now) }
{
    for block in blocks {
        put_number(out, sink, *block);
    }
}

/// Writes the numbers of blocks, in decimal, each on a line of its own. It takes no memory.
///
/// # Errors
///
/// `WriteFault` exactly where the sink failed. Then a beginning of the lines is out.
pub fn write_numbers<W: Sink>(blocks: &[u32], sink: &mut W) -> Result<(), WriteFault>
    ensures { Writes (W.stream sink.old) (W.stream sink.new) (number_lines blocks.now) result }
{
    let mut out = Printer::new();
    put_numbers(&mut out, sink, blocks);
    out.finish(sink)
}

/// Writes the numbers of the blocks to read again, in decimal, each on a line of its own. It takes no memory.
///
/// # Errors
///
/// `WriteFault` exactly where the sink failed. Then a beginning of the lines is out.
pub fn write_reread<W: Sink>(report: &Report<'_>, sink: &mut W) -> Result<(), WriteFault>
    ensures { Writes (W.stream sink.old) (W.stream sink.new) (number_lines report.now.reread.items) result }
{
    write_numbers(&report.reread, sink)
}
