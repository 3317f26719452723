//! Known blocks by which the volume is opened that do not say the same.

ghost use Rattle.std.specs.Prelude.{◌≡◌, ◌≤◌, ◌++◌, IfOk, IsTrue, OnErr, OnOk, Some, decimal};
ghost use Rattle.std.specs.String.{string_bytes};
ghost use Rattle.udfs_overview.specs.Disagreements.{anchors_back, anchors_front, anchors_line, anchors_of, anchors_text, apart_lines, copies_line, copies_of, has_room};

use std::alloc::Global;
use std::fmt::Write;
use udfs_lattice::{BlockStore, ReadFault};
use udfs_osta::OutOfMemory;
use udfs_volume::Profile;
use udfs_volume::differences::{anchors_apart_by, copies_differ_by};

/// A number in decimal.
fn push_decimal(text: &mut String, number: u32) -> Result<(), OutOfMemory>
    ensures { OnOk result (string_bytes text.new ≡ string_bytes text.old ++ decimal number) }
{
    write!(text, "{number}")
}

/// The block of the first anchor.
#[tactic(auto, unfolding(crate::specs::Disagreements::anchors_front))]
fn push_front(text: &mut String, one: u32) -> Result<(), OutOfMemory>
    ensures { OnOk result (string_bytes text.new ≡ string_bytes text.old ++ anchors_front one) }
{
    text.push_str("anchors differ: block ")?;
    push_decimal(text, one)
}

/// The block of the other one, and what follows.
#[tactic(auto, unfolding(crate::specs::Disagreements::anchors_back))]
fn push_back(text: &mut String, other: u32) -> Result<(), OutOfMemory>
    ensures { OnOk result (string_bytes text.new ≡ string_bytes text.old ++ anchors_back other) }
{
    text.push_str(" opens another state of the disc than block ")?;
    push_decimal(text, other)?;
    text.push_str(": the volume is not lawful, and the guarantee does not hold for it")
}

/// Appends what is said of anchors in these two blocks that name different extents (ECMA-167 3/10.2).
///
/// # Errors
///
/// If memory runs out. Then a part may be appended.
#[tactic(auto, unfolding(crate::specs::Disagreements::anchors_text))]
pub fn push_anchors_text(text: &mut String, one: u32, other: u32) -> Result<(), OutOfMemory>
    ensures { OnOk result (string_bytes text.new ≡ string_bytes text.old ++ anchors_text one other) }
{
    push_front(text, one)?;
    push_back(text, other)
}

/// The line of these two blocks.
fn push_anchors_of(text: &mut String, one: u32, other: u32) -> Result<(), OutOfMemory>
    ensures { OnOk result (string_bytes text.new ≡ string_bytes text.old ++ anchors_line (Some (one, other))) }
{
    text.push_str("Anchors    ")?;
    push_anchors_text(text, one, other)?;
    text.push_str("\n")
}

/// The line of two anchors that name different extents, if there are two.
fn push_anchors(text: &mut String, places: Option<(u32, u32)>) -> Result<(), OutOfMemory>
    ensures { OnOk result (string_bytes text.new ≡ string_bytes text.old ++ anchors_line places) }
{
    match places {
        Some((one, other)) => push_anchors_of(text, one, other),
        None => Ok(()),
    }
}

/// The line of copies of the volume descriptor sequence that differ, if they do.
fn push_copies(text: &mut String, differ: bool) -> Result<(), OutOfMemory>
    ensures { OnOk result (string_bytes text.new ≡ string_bytes text.old ++ copies_line differ) }
{
    if !differ {
        return Ok(());
    }
    text.push_str(
        "Copies     copies of the volume's descriptors differ: the volume is not lawful, and the guarantee does not hold for it\n",
    )
}

/// Whether a disc with this last block has room for a volume.
pub fn has_room(last: u32) -> bool
    ensures value { result ≡ has_room last }
    ensures from { IsTrue result → 513 ≤ last }
    ensures to { IsTrue result → last ≤ 4194303 }
{
    (513..=4_194_303).contains(&last)
}

/// Two known anchors that name different extents (ECMA-167 3/10.2), if there are two, of a disc that has room for a volume.
///
/// # Errors
///
/// `ReadFault` where the bytes of a known block could not be read.
#[tactic(auto, unfolding(crate::specs::Disagreements::anchors_of))]
pub(crate) fn anchors_of<B: BlockStore>(
    blocks: &B,
    last: u32,
) -> Result<Option<(u32, u32)>, ReadFault>
    ensures value { IfOk result (λ places. B.tells → places ≡ anchors_of (B.states blocks.now) last) }
    ensures fails { OnErr result B.fails }
{
    if !has_room(last) {
        return Ok(None);
    }
    anchors_apart_by(blocks, last)
}

/// Whether known copies of the volume descriptor sequence do not say the same of it or of the layout (ECMA-167 3/8.4), of a disc that has room for a volume.
///
/// # Errors
///
/// `ReadFault` where the bytes of a known block could not be read.
#[tactic(auto, unfolding(crate::specs::Disagreements::copies_of))]
pub(crate) fn copies_of<B: BlockStore>(
    alloc: Global,
    blocks: &B,
    last: u32,
    profile: Profile,
) -> Result<bool, ReadFault>
    ensures value { IfOk result (λ differ. B.tells → differ ≡ copies_of profile (B.states blocks.now) last) }
    ensures fails { OnErr result B.fails }
{
    if !has_room(last) {
        return Ok(false);
    }
    copies_differ_by(alloc, blocks, last, profile)
}

/// Appends the lines of two known anchors that name different extents, if there are two, and of known copies of the volume descriptor sequence, if they
/// differ, whether the volume opens or not. Then no lawful volume agrees with the table.
///
/// # Errors
///
/// If memory runs out. Then a part may be appended.
pub fn push_apart(
    text: &mut String,
    anchors: Option<(u32, u32)>,
    copies: bool,
) -> Result<(), OutOfMemory>
    ensures { OnOk result (string_bytes text.new ≡ string_bytes text.old ++ apart_lines anchors copies) }
{
    push_anchors(text, anchors)?;
    push_copies(text, copies)
}
