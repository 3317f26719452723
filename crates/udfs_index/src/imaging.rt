//! The image of a disc is written from an index, block by block.

ghost use Rattle.std.specs.Prelude.{◌≡◌, ◌<◌, ◌≤◌, ℕ, List, Some, map, OnOk};
ghost use Rattle.udfs_lattice.specs.Tables.{IsTable, Table};
ghost use Rattle.udfs_index.specs.Copying.{BlamesNone, CopiesPast, Copies, CountsSink, IsShown, NoneFails};
ghost use Rattle.udfs_index.specs.Imaging.{filled, filled_to};
ghost use Rattle.udfs_index.specs.Index.{contents_of};
ghost use Rattle.udfs_index.specs.Places.{state_by, AreWhole};
ghost use Rattle.udfs_index.specs.Slots.{slot_at};
ghost use Rattle.udfs_index.specs.Windows.{IsRead};

use crate::fault::CopyFault;
use crate::packet::Packet;
use crate::places::slot_of;
use crate::stored::Stored;
use crate::window::Window;
use udfs_lattice::Fact;
use udfs_reading::{Outgoing, Sink};

/// What is written for a block that is not known.
const ZEROS: [u8; 2048] = [0; 2048];

/// Copies the bytes of a block, or takes zeros where it is not known.
fn write_block<S: Stored, W: Sink>(
    inputs: &[&S],
    packets: &[Packet],
    block: u32,
    window: &mut Window,
    out: &mut Outgoing,
    sink: &mut W,
) -> Result<(), CopyFault>
    requires block { block < 4194304 }
    requires read { IsRead (contents_of S.content inputs.now) window.old }
    ensures read { OnOk result (IsRead (contents_of S.content inputs.now) window.new) }
    ensures bytes { (wholes : List (List ℕ)) → contents_of S.content inputs.now ≡ map Some wholes →
        CopiesPast (W.stream sink.old) (W.stream sink.new) out.old out.new (filled (state_by wholes (slot_at packets.now block))) result }
    ensures count { CountsSink (W.stream sink.old).faults (W.stream sink.new).faults result }
    ensures reads { (wholes : List (List ℕ)) → contents_of S.content inputs.now ≡ map Some wholes → NoneFails S.fails → AreWhole wholes packets.now → BlamesNone result }
{
    let Fact::Known(place) = slot_of(packets, block) else {
        out.push(sink, &ZEROS)?;
        return Ok(());
    };
    let at = match window.reach(inputs, packets, block, place) {
        Ok(at) => at,
        Err(unread) => return Err(CopyFault::Input(unread)),
    };
    out.push(sink, window.block(at))?;
    Ok(())
}

/// The blocks from 0 to the last one.
fn write_blocks<S: Stored, W: Sink>(
    inputs: &[&S],
    packets: &[Packet],
    last: u32,
    out: &mut Outgoing,
    sink: &mut W,
) -> Result<(), CopyFault>
    requires { last ≤ 4194303 }
    ensures bytes { (wholes : List (List ℕ)) (t : Table) → contents_of S.content inputs.now ≡ map Some wholes → IsShown wholes packets.now t →
        CopiesPast (W.stream sink.old) (W.stream sink.new) out.old out.new (filled_to t last) result }
    ensures count { CountsSink (W.stream sink.old).faults (W.stream sink.new).faults result }
    ensures reads { (wholes : List (List ℕ)) (t : Table) → IsTable t → contents_of S.content inputs.now ≡ map Some wholes → NoneFails S.fails → IsShown wholes packets.now t → BlamesNone result }
{
    let mut window = Window::new();
    for block in 0..last + 1 {
        write_block(inputs, packets, block, &mut window, out, sink)?;
    }
    Ok(())
}

/// Writes the image of the blocks from 0 to the last one.
///
/// # Errors
///
/// As of [`packing::write_table`](crate::packing::write_table).
pub fn write_image<S: Stored, W: Sink>(
    inputs: &[&S],
    packets: &[Packet],
    last: u32,
    sink: &mut W,
) -> Result<(), CopyFault>
    requires { last ≤ 4194303 }
    ensures bytes { (wholes : List (List ℕ)) (t : Table) → contents_of S.content inputs.now ≡ map Some wholes → IsShown wholes packets.now t →
        Copies (W.stream sink.old) (W.stream sink.new) (filled_to t last) result }
    ensures count { CountsSink (W.stream sink.old).faults (W.stream sink.new).faults result }
    ensures reads { (wholes : List (List ℕ)) (t : Table) → IsTable t → contents_of S.content inputs.now ≡ map Some wholes → NoneFails S.fails → IsShown wholes packets.now t → BlamesNone result }
{
    let mut out = Outgoing::new();
    write_blocks(inputs, packets, last, &mut out, sink)?;
    out.flush(sink)?;
    Ok(())
}
