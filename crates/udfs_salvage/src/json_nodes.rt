//! The JSON of nodes, and of entries that no name leads to.

ghost use Rattle.std.specs.Prelude.{◌≡◌, false, IfOk, IsErrOf};
ghost use Rattle.serde_json.specs.Data.{string};
ghost use Rattle.serde_json.specs.View.{members_view, view};
ghost use Rattle.udfs_space.specs.Views.{view_by, view_now};
ghost use Rattle.udfs_salvage.specs.NodeTexts.{kind_name, path_name, standing_name};
ghost use Rattle.udfs_walk.specs.Rereads.{holes_of, missing_of};
ghost use Rattle.udfs_salvage.specs.JsonNodes.{count, hole_data, list_data, node_data, node_in, size_data, tail_in, time_data, told_members, unnamed_data};

use crate::appending::{push_path_name, push_word};
use crate::words::{kind_word, standing_word};
use serde_json::{Map, Value, json, put};
use std::alloc::{AllocError, Global};
use udfs_file::Kind;
use udfs_lattice::{BlockStore, GaveUp};
use udfs_osta::Stamp;
use udfs_space::{StoreView, View};
use udfs_tag::LongAd;
use udfs_volume::Profile;
use udfs_walk::{Node, Path, Standing, Unnamed, tail_by};

/// A standing.
pub(crate) fn standing_value(alloc: Global, standing: &Standing) -> Result<Value, AllocError>
    ensures { IfOk result (λ v. view v ≡ string (standing_name standing.now)) }
{
    let mut text = String::new(alloc);
    push_word(&mut text, standing_word(standing))?;
    Ok(Value::String(text))
}

/// A kind.
pub(crate) fn kind_value(alloc: Global, kind: Kind) -> Result<Value, AllocError>
    ensures { IfOk result (λ v. view v ≡ string (kind_name kind)) }
{
    let mut text = String::new(alloc);
    push_word(&mut text, kind_word(kind))?;
    Ok(Value::String(text))
}

/// A path.
pub(crate) fn path_value(alloc: Global, path: &Path) -> Result<Value, AllocError>
    ensures { IfOk result (λ v. view v ≡ string (path_name path.now)) }
{
    let mut text = String::new(alloc);
    push_path_name(&mut text, path)?;
    Ok(Value::String(text))
}

/// A size, null where the entry is not read.
pub(crate) fn size_value(size: Option<u64>) -> Value
    ensures { view result ≡ size_data size }
{
    match size {
        None => Value::Null,
        Some(size) => Value::from(size),
    }
}

/// A time, null where the entry is not read.
pub(crate) fn time_value(alloc: Global, stamp: Option<Stamp>) -> Result<Value, AllocError>
    ensures { IfOk result (λ v. view v ≡ time_data stamp) }
{
    let Some(stamp) = stamp else {
        return Ok(Value::Null);
    };
    let mut text = String::new(alloc);
    stamp.write_text(&mut text)?;
    Ok(Value::String(text))
}

/// Numbers of blocks.
pub(crate) fn blocks_value(alloc: Global, blocks: &[u32]) -> Result<Value, AllocError>
    ensures { IfOk result (λ v. view v ≡ list_data count blocks.now) }
{
    let mut items = Vec::new(alloc);
    for block in blocks {
        items.push(Value::from(*block))?;
    }
    Ok(Value::Array(items))
}

/// A run of missing bytes.
pub(crate) fn hole_value(alloc: Global, hole: (u64, u64)) -> Result<Value, AllocError>
    ensures { IfOk result (λ v. view v ≡ hole_data hole) }
{
    let (offset, length) = hole;
    json!(in alloc; [offset, length])
}

/// Runs of missing bytes.
fn holes_value(alloc: Global, holes: &[(u64, u64)]) -> Result<Value, AllocError>
    ensures { IfOk result (λ v. view v ≡ list_data hole_data holes.now) }
{
    let mut items = Vec::new(alloc);
    for hole in holes {
        items.push(hole_value(alloc, *hole)?)?;
    }
    Ok(Value::Array(items))
}

/// The missing blocks of a standing, as a list: an empty one where it is not torn.
fn missing_in(alloc: Global, standing: &Standing) -> Result<Value, AllocError>
    ensures { IfOk result (λ v. view v ≡ list_data count (missing_of standing.now)) }
{
    match standing {
        Standing::Torn(torn) => blocks_value(alloc, &torn.missing),
        _ => blocks_value(alloc, &[]),
    }
}

/// The runs of missing bytes of a standing, as a list: an empty one where it is not torn.
fn holes_in(alloc: Global, standing: &Standing) -> Result<Value, AllocError>
    ensures { IfOk result (λ v. view v ≡ list_data hole_data (holes_of standing.now)) }
{
    match standing {
        Standing::Torn(torn) => holes_value(alloc, &torn.holes),
        _ => holes_value(alloc, &[]),
    }
}

/// The members that a node and an entry without a name share.
fn told_members(
    alloc: Global,
    standing: &Standing,
    kind: Kind,
    size: Option<u64>,
    stamp: Option<Stamp>,
) -> Result<Map<String, Value>, AllocError>
    ensures { IfOk result (λ members. members_view members.entries ≡ told_members standing.now kind size stamp) }
{
    let holes = holes_in(alloc, standing)?;
    let kind = kind_value(alloc, kind)?;
    let missing = missing_in(alloc, standing)?;
    let modified = time_value(alloc, stamp)?;
    let size = size_value(size);
    let standing = standing_value(alloc, standing)?;
    let mut members = Map::new(alloc);
    put(&mut members, alloc, "holes", holes)?;
    put(&mut members, alloc, "kind", kind)?;
    put(&mut members, alloc, "missing", missing)?;
    put(&mut members, alloc, "modified", modified)?;
    put(&mut members, alloc, "size", size)?;
    put(&mut members, alloc, "standing", standing)?;
    Ok(members)
}

/// Whether the body at an address is marked as read by the tail of its last extent: by the strict rules none is.
pub(crate) fn tail_in<B: BlockStore>(
    alloc: Global,
    profile: Profile,
    view: StoreView<'_, B>,
    address: LongAd,
) -> Result<bool, GaveUp>
    ensures value { IfOk result (λ tail. B.tells → tail ≡ tail_in profile (view_by B.states view.entry) address) }
    ensures fails { IsErrOf result GaveUp.Unread → B.fails }
{
    match profile {
        Profile::Strict => Ok(false),
        Profile::Wide => tail_by(alloc, view, address),
    }
}

/// The same in a view of a table.
fn tail_at(
    alloc: Global,
    profile: Profile,
    volume: View<'_>,
    address: LongAd,
) -> Result<bool, AllocError>
    ensures { IfOk result (λ tail. tail ≡ tail_in profile (view_now volume.entry) address) }
{
    let stored = StoreView {
        blocks: volume.table,
        space: volume.space,
    };
    match tail_in(alloc, profile, stored, address) {
        Ok(tail) => Ok(tail),
        Err(GaveUp::OutOfMemory) => Err(AllocError),
        Err(GaveUp::Unread) => unreachable!(),
    }
}

/// A node, whose body is marked as read by the tail of its last extent or not.
fn node_value(alloc: Global, tail: bool, node: &Node) -> Result<Value, AllocError>
    ensures { IfOk result (λ v. view v ≡ node_data tail node.now) }
{
    let path = path_value(alloc, &node.path)?;
    let mut members = told_members(alloc, &node.standing, node.kind, node.size, node.stamp)?;
    put(&mut members, alloc, "hidden", Value::from(node.hidden))?;
    put(&mut members, alloc, "path", path)?;
    if tail {
        put(&mut members, alloc, "tail", Value::from(true))?;
        return Ok(Value::Object(members));
    }
    Ok(Value::Object(members))
}

/// Nodes of which no body is marked.
pub(crate) fn nodes_value(alloc: Global, nodes: &[Node]) -> Result<Value, AllocError>
    ensures { IfOk result (λ v. view v ≡ list_data (node_data false) nodes.now) }
{
    let mut items = Vec::new(alloc);
    for node in nodes {
        items.push(node_value(alloc, false, node)?)?;
    }
    Ok(Value::Array(items))
}

/// A node in a view.
fn node_value_in(
    alloc: Global,
    profile: Profile,
    volume: View<'_>,
    node: &Node,
) -> Result<Value, AllocError>
    ensures { IfOk result (λ v. view v ≡ node_in profile (view_now volume.entry) node.now) }
{
    let tail = tail_at(alloc, profile, volume, node.icb)?;
    node_value(alloc, tail, node)
}

/// Nodes in a view.
pub(crate) fn nodes_value_in(
    alloc: Global,
    profile: Profile,
    volume: View<'_>,
    nodes: &[Node],
) -> Result<Value, AllocError>
    ensures { IfOk result (λ v. view v ≡ list_data (node_in profile (view_now volume.entry)) nodes.now) }
{
    let mut items = Vec::new(alloc);
    for node in nodes {
        items.push(node_value_in(alloc, profile, volume, node)?)?;
    }
    Ok(Value::Array(items))
}

/// An entry that no name leads to, with its partition reference where there are two partitions.
fn unnamed_value(alloc: Global, two: bool, entry: &Unnamed) -> Result<Value, AllocError>
    ensures { IfOk result (λ v. view v ≡ unnamed_data two entry.now) }
{
    let size = Some(entry.size);
    let stamp = Some(entry.stamp);
    let mut members = told_members(alloc, &entry.standing, entry.kind, size, stamp)?;
    put(&mut members, alloc, "block", Value::from(entry.block))?;
    if two {
        put(
            &mut members,
            alloc,
            "reference",
            Value::from(entry.reference),
        )?;
        return Ok(Value::Object(members));
    }
    Ok(Value::Object(members))
}

/// Entries that no name leads to.
pub(crate) fn all_unnamed_value(
    alloc: Global,
    two: bool,
    entries: &[Unnamed],
) -> Result<Value, AllocError>
    ensures { IfOk result (λ v. view v ≡ list_data (unnamed_data two) entries.now) }
{
    let mut items = Vec::new(alloc);
    for entry in entries {
        items.push(unnamed_value(alloc, two, entry)?)?;
    }
    Ok(Value::Array(items))
}
