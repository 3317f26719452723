//! The pieces of a report's JSON, each appended to a text.

ghost use Rattle.std.specs.Prelude.{◌≡◌, ◌++◌, ℕ, Some, false, OnOk};
ghost use Rattle.std.specs.String.{string_bytes};
ghost use Rattle.serde_json.specs.View.{view};
ghost use Rattle.serde_json.specs.Written.{compact_text, has_float};
ghost use Rattle.udfs_lattice.specs.Tables.{Table};
ghost use Rattle.udfs_salvage.specs.Found.{volume_now};
ghost use Rattle.udfs_salvage.specs.JsonNodes.{count};
ghost use Rattle.udfs_salvage.specs.JsonPieces.{counts_piece, end_piece, entry_end, entry_front, kind_piece, node_end, node_front, object_end, reference_piece, report_end, report_front, reread_words, standing_piece};

use crate::json_nodes::{kind_value, path_value, size_value, standing_value, time_value};
use crate::json_reports::{label_in, volume_value};
use crate::stores::ReportStore;
use crate::volumes::Volume;
use serde_json::Value;
use std::alloc::Global;
use udfs_file::Kind;
use udfs_osta::OutOfMemory;
use udfs_volume::Profile;
use udfs_walk::{Node, Standing, Unnamed};

/// Appends `front`, and then the value as compact JSON.
pub(crate) fn push_value(
    alloc: Global,
    text: &mut String,
    front: &str,
    value: &Value,
) -> Result<(), OutOfMemory>
    requires { has_float (view value.now) ≡ false }
    ensures { OnOk result (string_bytes text.new ≡ string_bytes text.old ++ (front.now ++ compact_text (view value.now))) }
{
    let written = value.to_string(alloc)?;
    text.push_str(front)?;
    text.push_str(&written)
}

/// Appends `front`, and then the number.
pub(crate) fn push_count(
    alloc: Global,
    text: &mut String,
    front: &str,
    n: u64,
) -> Result<(), OutOfMemory>
    ensures { OnOk result (string_bytes text.new ≡ string_bytes text.old ++ (front.now ++ compact_text (count n))) }
{
    let value = Value::from(n);
    push_value(alloc, text, front, &value)
}

/// Appends the object of a node up to its holes.
#[tactic(auto, unfolding(crate::specs::JsonPieces::node_front))]
pub(crate) fn push_node_front(text: &mut String, hidden: bool) -> Result<(), OutOfMemory>
    ensures { OnOk result (string_bytes text.new ≡ string_bytes text.old ++ node_front hidden) }
{
    if hidden {
        text.push_str("{\"hidden\":true,\"holes\":")
    } else {
        text.push_str("{\"hidden\":false,\"holes\":")
    }
}

/// Appends the object of an entry that no name leads to, up to its holes.
#[tactic(auto, unfolding(crate::specs::JsonPieces::entry_front))]
pub(crate) fn push_entry_front(
    alloc: Global,
    text: &mut String,
    block: u32,
) -> Result<(), OutOfMemory>
    ensures { OnOk result (string_bytes text.new ≡ string_bytes text.old ++ entry_front block) }
{
    push_count(alloc, text, "{\"block\":", u64::from(block))?;
    text.push_str(",\"holes\":")
}

/// Appends what is between the holes and the missing blocks: the kind, and the key of the missing blocks.
#[tactic(auto, unfolding(crate::specs::JsonPieces::kind_piece))]
pub(crate) fn push_kind(alloc: Global, text: &mut String, kind: Kind) -> Result<(), OutOfMemory>
    ensures { OnOk result (string_bytes text.new ≡ string_bytes text.old ++ kind_piece kind) }
{
    let kind = kind_value(alloc, kind)?;
    push_value(alloc, text, ",\"kind\":", &kind)?;
    text.push_str(",\"missing\":")
}

/// What ends an object: the mark of a body that is read by the tail of its last extent, if it is, and the brace.
fn object_end(tail: bool) -> &'static str
    ensures { result.now ≡ object_end tail }
{
    if tail { ",\"tail\":true}" } else { "}" }
}

/// Appends the standing, and the end of the object.
#[tactic(auto, unfolding(crate::specs::JsonPieces::standing_piece))]
fn push_standing(
    alloc: Global,
    text: &mut String,
    tail: bool,
    standing: &Standing,
) -> Result<(), OutOfMemory>
    ensures { OnOk result (string_bytes text.new ≡ string_bytes text.old ++ standing_piece tail standing.now) }
{
    let standing = standing_value(alloc, standing)?;
    push_value(alloc, text, ",\"standing\":", &standing)?;
    text.push_str(object_end(tail))
}

/// Appends the size, the standing, and the end of the object.
#[tactic(auto, unfolding(crate::specs::JsonPieces::end_piece))]
fn push_end(
    alloc: Global,
    text: &mut String,
    tail: bool,
    size: Option<u64>,
    standing: &Standing,
) -> Result<(), OutOfMemory>
    ensures { OnOk result (string_bytes text.new ≡ string_bytes text.old ++ end_piece tail size standing.now) }
{
    let size = size_value(size);
    push_value(alloc, text, ",\"size\":", &size)?;
    push_standing(alloc, text, tail, standing)
}

/// Appends the rest of the object of a node, after its missing blocks. Its body is marked as read by a tail or not.
#[tactic(auto, unfolding(crate::specs::JsonPieces::node_end))]
pub(crate) fn push_node_end(
    alloc: Global,
    text: &mut String,
    tail: bool,
    node: &Node,
) -> Result<(), OutOfMemory>
    ensures { OnOk result (string_bytes text.new ≡ string_bytes text.old ++ node_end tail node.now) }
{
    let modified = time_value(alloc, node.stamp)?;
    let path = path_value(alloc, &node.path)?;
    push_value(alloc, text, ",\"modified\":", &modified)?;
    push_value(alloc, text, ",\"path\":", &path)?;
    push_end(alloc, text, tail, node.size, &node.standing)
}

/// Appends the partition reference of an entry where there are two partitions.
fn push_reference(
    alloc: Global,
    text: &mut String,
    two: bool,
    reference: u16,
) -> Result<(), OutOfMemory>
    ensures { OnOk result (string_bytes text.new ≡ string_bytes text.old ++ reference_piece two reference) }
{
    if two {
        return push_count(alloc, text, ",\"reference\":", u64::from(reference));
    }
    Ok(())
}

/// Appends the rest of the object of an entry that no name leads to, after its missing blocks.
#[tactic(auto, unfolding(crate::specs::JsonPieces::entry_end))]
pub(crate) fn push_entry_end(
    alloc: Global,
    text: &mut String,
    two: bool,
    entry: &Unnamed,
) -> Result<(), OutOfMemory>
    ensures { OnOk result (string_bytes text.new ≡ string_bytes text.old ++ entry_end two entry.now) }
{
    let modified = time_value(alloc, Some(entry.stamp))?;
    push_value(alloc, text, ",\"modified\":", &modified)?;
    push_reference(alloc, text, two, entry.reference)?;
    push_end(alloc, text, false, Some(entry.size), &entry.standing)
}

/// Appends how many blocks are in conflict and how many are known, with which an object begins.
fn push_counts<B: ReportStore>(
    alloc: Global,
    text: &mut String,
    blocks: &B,
) -> Result<(), OutOfMemory>
    ensures { OnOk result (B.tells → (t : Table) → B.holds blocks.now t → string_bytes text.new ≡ string_bytes text.old ++ counts_piece t) }
{
    push_count(alloc, text, "{\"conflict\":", u64::from(blocks.conflicts()))?;
    push_count(alloc, text, ",\"known\":", u64::from(blocks.known()))?;
    Ok(())
}

/// Appends the object of a report up to its nodes.
#[tactic(auto, using(crate::proofs::JsonFloats::label_of_none), unfolding(crate::specs::JsonPieces::report_front))]
pub(crate) fn push_report_front<B: ReportStore>(
    alloc: Global,
    text: &mut String,
    blocks: &B,
    last: u32,
    volume: &Volume,
) -> Result<(), OutOfMemory>
    ensures { OnOk result (B.tells → (t : Table) → B.holds blocks.now t → string_bytes text.new ≡ string_bytes text.old ++ report_front t last (volume_now volume.now)) }
{
    let label = label_in(alloc, volume)?;
    push_counts(alloc, text, blocks)?;
    push_value(alloc, text, ",\"label\":", &label)?;
    push_count(alloc, text, ",\"last\":", u64::from(last))?;
    text.push_str(",\"nodes\":")
}

/// The JSON between the nodes of a report and the blocks to read again.
pub(crate) fn reread_words(profile: Profile) -> &'static str
    ensures { result.now ≡ reread_words profile }
{
    match profile {
        Profile::Strict => ",\"reread\":",
        Profile::Wide => ",\"profile\":\"wide\",\"reread\":",
    }
}

/// Appends the rest of the object of a report, after its entries that no name leads to.
#[tactic(auto, using(crate::proofs::JsonFloats::volume_none), unfolding(crate::specs::JsonPieces::report_end))]
pub(crate) fn push_report_end(
    alloc: Global,
    text: &mut String,
    volume: &Volume,
) -> Result<(), OutOfMemory>
    ensures { OnOk result (string_bytes text.new ≡ string_bytes text.old ++ report_end (volume_now volume.now)) }
{
    let volume = volume_value(alloc, volume)?;
    push_value(alloc, text, ",\"volume\":", &volume)?;
    text.push_str("}")
}
