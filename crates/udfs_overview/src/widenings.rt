//! What the wide rules make of a volume that the strict ones refuse.

ghost use Rattle.std.specs.Prelude.{◌≡◌, ◌≤◌, ◌++◌, IfOk, IsErrOf, OnOk};
ghost use Rattle.std.specs.String.{string_bytes};
ghost use Rattle.udfs_lattice.specs.Tables.{state_of};
ghost use Rattle.udfs_volume.specs.Layout.{layout_by};
ghost use Rattle.udfs_volume.specs.declared.profiles.Profile.TheVariants as profile;
ghost use Rattle.udfs_salvage.specs.Texts.{revision_text};
ghost use Rattle.udfs_overview.specs.Widenings.{recorder_text, widened, widened_from, widening_by, widening_in, widening_text};

use crate::disagreements::has_room;
use std::alloc::{AllocError, Global};
use udfs_lattice::{BlockStore, BlockTable, GaveUp};
use udfs_osta::OutOfMemory;
use udfs_salvage::revision_name;
use udfs_volume::layouts::layout_in;
use udfs_volume::{Profile, Seen};

/// What the wide rules make of a volume that the strict ones refuse.
#[derive(Clone, Copy, Debug, PartialEq, Eq)]
pub enum Widening {
    /// They refuse it too, or the strict ones do not refuse it.
    No,
    /// They read a volume of this revision of UDF.
    Reads(u16),
    /// They may read it once more blocks are known.
    Wants,
}

/// What the wide rules make of a volume.
fn widened<B: BlockStore>(alloc: Global, blocks: &B, last: u32) -> Result<Widening, GaveUp>
    requires from { 513 ≤ last }
    requires to { last ≤ 4194303 }
    ensures value { IfOk result (λ found. B.tells → found ≡ widened (layout_by profile.Wide (B.states blocks.now) last)) }
    ensures fails { IsErrOf result GaveUp.Unread → B.fails }
{
    match layout_in(alloc, blocks, last, Profile::Wide)? {
        Seen::Got(parts) => Ok(Widening::Reads(parts.revision)),
        Seen::Holes(_) => Ok(Widening::Wants),
        Seen::Fault(_) => Ok(Widening::No),
        Seen::OutOfMemory => Err(GaveUp::OutOfMemory),
    }
}

/// The same where the strict rules refuse it.
fn widened_from<B: BlockStore>(alloc: Global, blocks: &B, last: u32) -> Result<Widening, GaveUp>
    requires from { 513 ≤ last }
    requires to { last ≤ 4194303 }
    ensures value { IfOk result (λ found. B.tells → found ≡ widened_from (layout_by profile.Strict (B.states blocks.now) last) (layout_by profile.Wide (B.states blocks.now) last)) }
    ensures fails { IsErrOf result GaveUp.Unread → B.fails }
{
    match layout_in(alloc, blocks, last, Profile::Strict)? {
        Seen::Got(_) | Seen::Holes(_) => Ok(Widening::No),
        Seen::Fault(_) => widened(alloc, blocks, last),
        Seen::OutOfMemory => Err(GaveUp::OutOfMemory),
    }
}

/// The same of a disc that has room for a volume.
fn widening_in<B: BlockStore>(alloc: Global, blocks: &B, last: u32) -> Result<Widening, GaveUp>
    ensures value { IfOk result (λ found. B.tells → found ≡ widening_in (B.states blocks.now) last) }
    ensures fails { IsErrOf result GaveUp.Unread → B.fails }
{
    if !has_room(last) {
        return Ok(Widening::No);
    }
    widened_from(alloc, blocks, last)
}

/// The same as [`widening_by`], by any store of blocks.
///
/// # Errors
///
/// `OutOfMemory` if memory runs out, and `Unread` where the bytes of a known block could not be read.
#[tactic(auto, unfolding(crate::specs::Widenings::widening_by))]
pub(crate) fn widening_of<B: BlockStore>(
    alloc: Global,
    blocks: &B,
    last: u32,
    profile: Profile,
) -> Result<Widening, GaveUp>
    ensures value { IfOk result (λ found. B.tells → found ≡ widening_by profile (B.states blocks.now) last) }
    ensures fails { IsErrOf result GaveUp.Unread → B.fails }
{
    match profile {
        Profile::Strict => widening_in(alloc, blocks, last),
        Profile::Wide => Ok(Widening::No),
    }
}

/// What the wide rules make of the volume of a table with this last block, where the rules that were taken are the strict ones and refuse its layout.
///
/// # Errors
///
/// If memory runs out.
pub fn widening_by(
    alloc: Global,
    table: &BlockTable,
    last: u32,
    profile: Profile,
) -> Result<Widening, OutOfMemory>
    ensures { IfOk result (λ found. found ≡ widening_by profile (state_of table.now) last) }
{
    match widening_of(alloc, table, last, profile) {
        Ok(found) => Ok(found),
        Err(GaveUp::OutOfMemory) => Err(AllocError),
        Err(GaveUp::Unread) => unreachable!(),
    }
}

/// What records discs of this revision.
#[tactic(auto, unfolding(crate::specs::Widenings::recorder_text))]
fn push_recorder(text: &mut String, revision: u16) -> Result<(), OutOfMemory>
    ensures { OnOk result (string_bytes text.new ≡ string_bytes text.old ++ recorder_text revision) }
{
    if revision == 0x0200 {
        text.push_str(" (a camcorder or recorder disc)")
    } else {
        Ok(())
    }
}

/// A revision of UDF.
fn push_revision_name(text: &mut String, revision: u16) -> Result<(), OutOfMemory>
    ensures { OnOk result (string_bytes text.new ≡ string_bytes text.old ++ revision_text revision) }
{
    text.push_str(revision_name(revision))
}

/// That the wide rules read a volume of this revision.
fn push_reads(text: &mut String, revision: u16) -> Result<(), OutOfMemory>
    ensures { OnOk result (string_bytes text.new ≡ string_bytes text.old ++ widening_text (Widening.Reads revision)) }
{
    text.push_str("UDF ")?;
    push_revision_name(text, revision)?;
    push_recorder(text, revision)?;
    text.push_str(": add --profile wide")
}

/// Appends what is said of it: `UDF 2.00 (a camcorder or recorder disc): add --profile wide`. Nothing is, where the wide rules do not help.
///
/// # Errors
///
/// If memory runs out. Then a part may be appended.
pub fn push_widening(text: &mut String, widening: Widening) -> Result<(), OutOfMemory>
    ensures { OnOk result (string_bytes text.new ≡ string_bytes text.old ++ widening_text widening) }
{
    match widening {
        Widening::No => Ok(()),
        Widening::Wants => text.push_str("a disc that the wide rules may read: add --profile wide"),
        Widening::Reads(revision) => push_reads(text, revision),
    }
}
