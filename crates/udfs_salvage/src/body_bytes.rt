//! The bytes of bodies are written, from the blocks of a table or of another store.

ghost use Rattle.std.specs.Prelude.{◌≡◌, ◌<◌, List, [], IfOk, IsErrOf, OnOk, length, replicate, true};
ghost use Rattle.udfs_space.specs.Views.{view_by};
ghost use Rattle.udfs_file.specs.Portions.{IsPortion, portion_count};
ghost use Rattle.udfs_file.specs.Stretches.{cells_of};
ghost use Rattle.udfs_file.specs.declared.cells.Cell.{Cell};
ghost use Rattle.udfs_reading.specs.Writing.{Passes};
ghost use Rattle.udfs_salvage.specs.Extraction.{filled};
ghost use Rattle.udfs_salvage.specs.StoreExtraction.{PassesBody, PushesNext, WritesBody};

use udfs_file::{Body, Portion, StorePortions};
use udfs_lattice::{BlockStore, ReadFault};
use udfs_reading::{Outgoing, Sink, WriteFault};
use udfs_space::StoreView;

/// How many bytes are handed on at once.
const PIECE: usize = 2048;

/// Writes one byte `count` times.
fn push_same<W: Sink>(
    out: &mut Outgoing,
    sink: &mut W,
    byte: u8,
    count: u64,
) -> Result<(), WriteFault>
    ensures { Passes (W.stream sink.old) (W.stream sink.new) out.old out.new (replicate count byte) result }
{
    let piece = [byte; PIECE];
    let mut left = count;
    'pieces: while left > 0 {
        let here = left.min(2048);
        out.push(sink, &piece[..here as usize])?;
        left -= here;
    }
    Ok(())
}

/// Writes bytes of the table.
fn push_bytes<W: Sink>(out: &mut Outgoing, sink: &mut W, bytes: &[u8]) -> Result<(), WriteFault>
    ensures { Passes (W.stream sink.old) (W.stream sink.new) out.old out.new bytes.now result }
{
    let mut at = 0;
    'pieces: while at < bytes.len() {
        let here = (bytes.len() - at).min(PIECE);
        out.push(sink, &bytes[at..at + here])?;
        at += here;
    }
    Ok(())
}

/// Writes the bytes of a portion, and the byte `fill` for each that is missing.
fn push_portion<W: Sink>(
    out: &mut Outgoing,
    sink: &mut W,
    portion: Portion<'_>,
    fill: u8,
) -> Result<(), WriteFault>
    ensures { (cs : List Cell) → IsPortion portion.entry cs → length cs ≡ portion_count portion.entry →
        Passes (W.stream sink.old) (W.stream sink.new) out.old out.new (filled fill cs) result }
{
    match portion {
        Portion::Bytes(bytes) => push_bytes(out, sink, bytes),
        Portion::Zeros(count) => push_same(out, sink, 0, count),
        Portion::Missing(run) => push_same(out, sink, fill, run.count),
    }
}

/// Why the bytes of a body were not all handed on.
#[derive(Clone, Copy, Debug, PartialEq, Eq)]
pub(crate) enum BodyFault {
    /// The sink failed.
    Write,
    /// The bytes of a known block could not be read.
    Unread,
}

/// Writes the bytes of the next portion of a body, and returns whether there was one.
fn push_next<'a, B: BlockStore, W: Sink>(
    out: &mut Outgoing,
    sink: &mut W,
    portions: &mut StorePortions<'a, B>,
    room: &mut [u8; 2048],
    fill: u8,
) -> Result<bool, BodyFault>
    ensures step { B.tells → PushesNext (W.stream sink.old) (W.stream sink.new) out.old out.new fill portions.old portions.new result }
    ensures count { IfOk result (λ some. some ≡ true → length portions.new < length portions.old) }
    ensures fails { IsErrOf result BodyFault.Unread → B.fails }
{
    match portions.next(room) {
        Ok(Some(portion)) => match push_portion(out, sink, portion, fill) {
            Ok(()) => Ok(true),
            Err(WriteFault) => Err(BodyFault::Write),
        },
        Ok(None) => Ok(false),
        Err(ReadFault) => Err(BodyFault::Unread),
    }
}

/// Writes the bytes of all portions.
fn push_portions<B: BlockStore, W: Sink>(
    out: &mut Outgoing,
    sink: &mut W,
    view: StoreView<'_, B>,
    body: &Body,
    fill: u8,
) -> Result<(), BodyFault>
    ensures passes { B.tells → PassesBody (W.stream sink.old) (W.stream sink.new) out.old out.new
        (filled fill (cells_of (view_by B.states view.entry) body.now)) result }
    ensures fails { IsErrOf result BodyFault.Unread → B.fails }
{
    let mut portions = body.portions_by(view);
    let mut room = [0; 2048];
    'portions: loop {
        match push_next(out, sink, &mut portions, &mut room, fill) {
            Ok(true) => {}
            Ok(false) => return Ok(()),
            Err(fault) => return Err(fault),
        }
    }
}

/// Writes the bytes of a body, and the byte `fill` for each that is missing, through a piece of outgoing bytes that holds none, nor does then. It takes no memory.
/// Where a read fails, a beginning of them may be written.
pub(crate) fn write_body<B: BlockStore, W: Sink>(
    out: &mut Outgoing,
    sink: &mut W,
    view: StoreView<'_, B>,
    body: &Body,
    fill: u8,
) -> Result<(), BodyFault>
    requires { out.old ≡ [] }
    ensures written { B.tells → WritesBody (W.stream sink.old) (W.stream sink.new)
        (filled fill (cells_of (view_by B.states view.entry) body.now)) result }
    ensures fails { IsErrOf result BodyFault.Unread → B.fails }
    ensures empty { OnOk result (out.new ≡ []) }
{
    match push_portions(out, sink, view, body, fill) {
        Ok(()) => {}
        Err(fault) => return Err(fault),
    }
    match out.flush(sink) {
        Ok(()) => Ok(()),
        Err(WriteFault) => Err(BodyFault::Write),
    }
}
