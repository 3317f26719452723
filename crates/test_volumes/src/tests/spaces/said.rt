//! What the spaces of sample volumes say, as texts.

ghost use Rattle.std.specs.Prelude.{◌≤◌};

use crate::tests::assert_text_in;
use crate::tests::volumes::said::holes_text;
use std::alloc::{AllocError, Global};
use std::process::Abort;
use std::test::Fail;
use udfs_lattice::{BlockTable, Fact};
use udfs_space::View;
use udfs_space::spaces::Space;
use udfs_tag::LbAddr;
use udfs_volume::layouts::layout_by;
use udfs_volume::{Profile, Seen};

/// The space by the layout of a volume.
pub fn space_of(alloc: Global, table: &BlockTable, last: u32) -> Seen<Space>
    requires from { 513 ≤ last }
    requires to { last ≤ 4194303 }
{
    space_by(alloc, table, last, Profile::Strict)
}

/// The same by the rules of a profile.
fn space_by(alloc: Global, table: &BlockTable, last: u32, profile: Profile) -> Seen<Space>
    requires from { 513 ≤ last }
    requires to { last ≤ 4194303 }
{
    match layout_by(alloc, table, last, profile) {
        Seen::Got(parts) => Space::build(alloc, table, &parts),
        Seen::Holes(blocks) => Seen::Holes(blocks),
        Seen::Fault(fault) => Seen::Fault(fault),
        Seen::OutOfMemory => Seen::OutOfMemory,
    }
}

/// What the space reports by the rules of a profile: `ok` and where the first logical block is, or holes, or a fault with its
/// number.
pub fn said(alloc: Global, table: &BlockTable, last: u32, profile: Profile) -> Result<String, Fail>
    requires from { 513 ≤ last }
    requires to { last ≤ 4194303 }
{
    match space_by(alloc, table, last, profile) {
        Seen::Got(space) => match space.place(0, 0) {
            Some(place) => Ok(format!(in alloc; "ok {place}")?),
            None => Ok(format!(in alloc; "no place")?),
        },
        Seen::Holes(blocks) => holes_text(alloc, &blocks),
        Seen::Fault(fault) => {
            let number = fault as u8;
            Ok(format!(in alloc; "fault {number} {fault}")?)
        }
        Seen::OutOfMemory => Ok(format!(in alloc; "out of memory")?),
    }
}

/// What is asked of an address: a partition's reference, a logical block and a count of blocks.
#[derive(Clone, Copy)]
pub enum Of {
    /// How many maps there are.
    Maps,
    /// How many blocks the partition has.
    Length,
    /// Where the logical block is.
    Place,
    /// Where it is, and what is known there.
    Block,
    /// The same of the logical block with a number that is 2^32 higher.
    BlockAbove,
    /// What is known of it: `unknown`, `conflict`, or its first byte.
    Known,
    /// Whether `count` blocks from it on pass the end of the partition.
    Past,
    /// How many blocks from it on are side by side.
    Beside,
    /// Where the block `count` after it is, and what is known there.
    Behind,
    /// Where the block `count` after it is, and how many from that one on are unknown and side by side.
    Ahead,
}

/// What is asked of which address, and what is told.
pub type Place = (Of, u16, u32, u32, &'static str);

/// By the rules of a profile these are the places of the volume of a table.
pub fn check_places(
    rt: &impl Abort,
    alloc: Global,
    table: &BlockTable,
    last: u32,
    profile: Profile,
    places: &[Place],
) -> Result<(), Fail>
    requires from { 513 ≤ last }
    requires to { last ≤ 4194303 }
{
    let Seen::Got(space) = space_by(alloc, table, last, profile) else {
        return Err(Fail::from("no space"));
    };
    let view = View {
        table,
        space: &space,
    };
    for (i, &(of, reference, block, count, expected)) in places.iter().enumerate() {
        let text = told(alloc, view, of, LbAddr { block, reference }, count)?;
        assert_text_in(rt, text, expected, i);
    }
    Ok(())
}

fn told(
    alloc: Global,
    view: View,
    of: Of,
    address: LbAddr,
    count: u32,
) -> Result<String, AllocError> {
    let LbAddr { block, reference } = address;
    let space = view.space;
    match of {
        Of::Maps => format!(in alloc; "{}", space.maps()),
        Of::Length => length_text(alloc, space, reference),
        Of::Place => format!(in alloc; "{:?}", space.place(reference, block)),
        Of::Block => block_text(
            alloc,
            space.block_at(view.table, reference, u64::from(block)),
        ),
        Of::BlockAbove => {
            let above = u64::from(block).wrapping_add(4_294_967_296);
            block_text(alloc, space.block_at(view.table, reference, above))
        }
        Of::Known => known_text(alloc, view, address),
        Of::Past => format!(in alloc; "{}", space.is_past(address, count)),
        Of::Beside => format!(in alloc; "{}", space.beside(address)),
        Of::Behind => block_text(alloc, view.block_behind(address, count)),
        Of::Ahead => format!(in alloc; "{:?}", view.unknown_ahead(address, count)),
    }
}

fn length_text(alloc: Global, space: &Space, reference: u16) -> Result<String, AllocError> {
    if reference >= space.maps() {
        return format!(in alloc; "None");
    }
    format!(in alloc; "{}", space.length(reference))
}

/// A block and what is known of it.
fn block_text(
    alloc: Global,
    block: Option<(u32, Fact<&[u8; 2048]>)>,
) -> Result<String, AllocError> {
    match block {
        None => format!(in alloc; "None"),
        Some((n, Fact::Unknown)) => format!(in alloc; "{n} unknown"),
        Some((n, Fact::Conflict)) => format!(in alloc; "{n} conflict"),
        Some((n, Fact::Known(bytes))) => {
            let byte = bytes[0];
            format!(in alloc; "{n} {byte:02x}")
        }
    }
}

/// What is known of a logical block, if the partition has it.
fn known_text(alloc: Global, view: View, address: LbAddr) -> Result<String, AllocError> {
    let LbAddr { block, reference } = address;
    let space = view.space;
    if reference >= space.maps() || block >= space.length(reference) {
        return format!(in alloc; "None");
    }
    match space.logical(view.table, reference, block) {
        Fact::Unknown => format!(in alloc; "unknown"),
        Fact::Conflict => format!(in alloc; "conflict"),
        Fact::Known(bytes) => {
            let byte = bytes[0];
            format!(in alloc; "{byte:02x}")
        }
    }
}
