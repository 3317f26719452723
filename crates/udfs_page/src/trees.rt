//! The files and folders, each inside its folder. A function `push_..` appends to a text; if memory runs out, a part may be appended. A function `put_..`
//! also hands the text to a sink in pieces.

ghost use Rattle.std.specs.Prelude.{◌≡◌, ◌++◌, ◌+◌, ◌-◌, ◌<◌, ◌==◌, ℕ, List, IsErrOf, OnOk, codes, drop, length, map, if◌then◌else◌};
ghost use Rattle.std.specs.String.{string_bytes};
ghost use Rattle.udfs_osta.specs.StampTexts.{stamp_text};
ghost use Rattle.udfs_space.specs.Views.{view_by};
ghost use Rattle.udfs_walk.specs.Bare.{full_node, node_with};
ghost use Rattle.udfs_walk.specs.NodeFields.{NodeFields};
ghost use Rattle.udfs_salvage.specs.Printing.{PassesOn};
ghost use Rattle.udfs_salvage.specs.StorePrinting.{PassesOnBy};
ghost use Rattle.udfs_overview.specs.NodeLists.{short_time};
ghost use Rattle.udfs_page.specs.Markups.{markup, shown_name};
ghost use Rattle.udfs_page.specs.Nestings.{IsStepwise, open_after};
ghost use Rattle.udfs_page.specs.Insides.{inside, inside_of};
ghost use Rattle.udfs_page.specs.Trees.{class_in, class_of, date_html, details_front, fault_html, first_depth, folder_front, folder_html, is_shut, kind_html, known_lost, leaf_front, leaf_html, lost_html, node_html, node_in, nodes_html, note_html, other_html, own_name, size_html, standing_html, tail_html, told_html, tree_html};

use crate::holes::{push_closings, push_ranges};
use crate::insides::{Inside, inside_of, is_whole, push_inside};
use crate::markups::{push_figure, push_markup, push_shown};
use std::alloc::Global;
use udfs_file::{Kind, NodeFault};
use udfs_lattice::BlockStore;
use udfs_osta::{OutOfMemory, Stamp};
use udfs_overview::{lost_of, push_safe_name, push_size, push_stamp};
use udfs_reading::Sink;
use udfs_salvage::{PrintError, RunError, pass_on};
use udfs_space::StoreView;
use udfs_walk::{Node, Path, Standing, full_standing_by, tail_by};

/// How whole a node is, as the style knows it.
fn push_class(text: &mut String, standing: &Standing) -> Result<(), OutOfMemory>
    ensures { OnOk result (string_bytes text.new ≡ string_bytes text.old ++ markup (class_of standing.now)) }
{
    match standing {
        Standing::Whole => push_markup(text, "w"),
        Standing::Torn(_) => push_markup(text, "t"),
        Standing::Loop => push_markup(text, "f"),
        Standing::Fault(_) => push_markup(text, "f"),
    }
}

/// The name of a node in its folder, or `/` for the root.
fn push_own_name(text: &mut String, path: &Path) -> Result<(), OutOfMemory>
    ensures { OnOk result (string_bytes text.new ≡ string_bytes text.old ++ own_name path.now) }
{
    match path.last() {
        None => text.push('/'),
        Some(name) => push_safe_name(name, text),
    }
}

/// The name of a node, by itself.
fn push_name(alloc: Global, text: &mut String, path: &Path) -> Result<(), OutOfMemory>
    ensures { OnOk result (string_bytes text.new ≡ string_bytes text.old ++ shown_name (own_name path.now)) }
{
    let mut name = String::new(alloc);
    push_own_name(&mut name, path)?;
    push_shown(text, &name)
}

/// How many bytes a file has.
fn push_file_size(text: &mut String, size: Option<u64>) -> Result<(), OutOfMemory>
    ensures { OnOk result (string_bytes text.new ≡ string_bytes text.old ++ size_html size) }
{
    match size {
        None => push_markup(text, "size not known"),
        Some(bytes) => push_size(bytes as u128, text),
    }
}

/// A type that has no name here.
fn push_other(text: &mut String, number: u8) -> Result<(), OutOfMemory>
    ensures { OnOk result (string_bytes text.new ≡ string_bytes text.old ++ other_html number) }
{
    push_markup(text, "of type ")?;
    push_figure(text, number as u128)
}

/// What a node is.
fn push_kind(text: &mut String, kind: Kind, size: Option<u64>) -> Result<(), OutOfMemory>
    ensures { OnOk result (string_bytes text.new ≡ string_bytes text.old ++ kind_html kind size) }
{
    match kind {
        Kind::Directory => push_markup(text, "folder"),
        Kind::File => push_file_size(text, size),
        Kind::Link => push_markup(text, "link"),
        Kind::Other(number) => push_other(text, number),
        Kind::Unread => push_markup(text, "not yet known"),
    }
}

/// How many bytes are lost, and where.
fn push_known_lost(text: &mut String, lost: u128, holes: &[(u64, u64)]) -> Result<(), OutOfMemory>
    ensures { OnOk result (string_bytes text.new ≡ string_bytes text.old ++ known_lost lost holes.now) }
{
    push_markup(text, ", torn: ")?;
    push_size(lost, text)?;
    push_markup(text, " lost, bytes")?;
    push_ranges(text, holes)
}

/// What is lost of a torn node, and where.
fn push_lost(text: &mut String, lost: Option<u128>, holes: &[(u64, u64)]) -> Result<(), OutOfMemory>
    ensures { OnOk result (string_bytes text.new ≡ string_bytes text.old ++ lost_html lost holes.now) }
{
    match lost {
        None => Ok(()),
        Some(bytes) => push_known_lost(text, bytes, holes),
    }
}

/// A fault.
fn push_fault(text: &mut String, fault: NodeFault) -> Result<(), OutOfMemory>
    ensures { OnOk result (string_bytes text.new ≡ string_bytes text.old ++ fault_html fault) }
{
    push_markup(text, ", fault ")?;
    push_figure(text, fault as u8 as u128)
}

/// How whole a node is.
fn push_standing(text: &mut String, standing: &Standing, kind: Kind) -> Result<(), OutOfMemory>
    ensures { OnOk result (string_bytes text.new ≡ string_bytes text.old ++ standing_html standing.now kind) }
{
    let lost = lost_of(standing, kind);
    match standing {
        Standing::Whole => Ok(()),
        Standing::Torn(torn) => push_lost(text, lost, &torn.holes),
        Standing::Loop => push_markup(text, ", a loop: it is inside itself"),
        Standing::Fault(fault) => push_fault(text, *fault),
    }
}

/// The word of a body that is read by the tail of its last extent, with what that means.
fn push_tail(text: &mut String, tail: bool) -> Result<(), OutOfMemory>
    ensures { OnOk result (string_bytes text.new ≡ string_bytes text.old ++ tail_html tail) }
{
    if tail {
        push_markup(
            text,
            ", <abbr title='The last bytes are read behind its last extent, from the rest of the same block. If the disc was removed between two writes, they may be old.'>tail</abbr>",
        )
    } else {
        Ok(())
    }
}

/// What the page says of a node beside its name.
pub(crate) fn push_note(
    text: &mut String,
    tail: bool,
    standing: &Standing,
    kind: Kind,
    size: Option<u64>,
) -> Result<(), OutOfMemory>
    ensures { OnOk result (string_bytes text.new ≡ string_bytes text.old ++ note_html tail standing.now kind size) }
{
    push_markup(text, "<small>")?;
    push_kind(text, kind, size)?;
    push_tail(text, tail)?;
    push_standing(text, standing, kind)?;
    push_markup(text, "</small>")
}

/// The name of a node with this standing, whose body is read by a tail or not, and what the page says beside it.
#[tactic(auto, unfolding(crate::specs::Trees::told_html))]
fn push_told(
    alloc: Global,
    text: &mut String,
    tail: bool,
    node: &Node,
    standing: &Standing,
) -> Result<(), OutOfMemory>
    ensures { OnOk result (string_bytes text.new ≡ string_bytes text.old ++ told_html tail (node_with node.now standing.now)) }
{
    push_name(alloc, text, &node.path)?;
    push_note(text, tail, standing, node.kind, node.size)
}

/// How whole a folder is that is whole itself, in which so many entries and folders are not.
fn push_class_of_whole(text: &mut String, amiss: usize) -> Result<(), OutOfMemory>
    ensures { OnOk result (string_bytes text.new ≡ string_bytes text.old ++ markup (if amiss == 0 then codes "w" else codes "i")) }
{
    if amiss == 0 {
        push_markup(text, "w")
    } else {
        push_markup(text, "i")
    }
}

/// How whole a folder is, in which so many entries and folders are not whole.
fn push_class_in(text: &mut String, standing: &Standing, amiss: usize) -> Result<(), OutOfMemory>
    ensures { OnOk result (string_bytes text.new ≡ string_bytes text.old ++ markup (class_in standing.now amiss)) }
{
    match standing {
        Standing::Whole => push_class_of_whole(text, amiss),
        Standing::Torn(_) => push_markup(text, "t"),
        Standing::Loop => push_markup(text, "f"),
        Standing::Fault(_) => push_markup(text, "f"),
    }
}

/// Whether a folder at this depth is shut, in which so many entries and folders are not whole.
fn is_shut(depth: usize, standing: &Standing, amiss: usize) -> bool
    ensures { result ≡ is_shut depth standing.now amiss }
{
    depth > 0 && is_whole(standing) && amiss == 0
}

/// What a folder begins with.
fn push_begin(text: &mut String, shut: bool) -> Result<(), OutOfMemory>
    ensures { OnOk result (string_bytes text.new ≡ string_bytes text.old ++ details_front shut) }
{
    if shut {
        push_markup(text, "<details class=")
    } else {
        push_markup(text, "<details open class=")
    }
}

/// A folder at this depth begins, in which so many entries and folders are not whole.
pub(crate) fn push_folder_front(
    text: &mut String,
    depth: usize,
    standing: &Standing,
    amiss: usize,
) -> Result<(), OutOfMemory>
    ensures { OnOk result (string_bytes text.new ≡ string_bytes text.old ++ folder_front depth standing.now amiss) }
{
    push_begin(text, is_shut(depth, standing, amiss))?;
    push_class_in(text, standing, amiss)?;
    push_markup(text, "><summary>")
}

/// A node with this standing begins a folder, in which so many entries and folders are not whole.
fn push_node_front(
    text: &mut String,
    node: &Node,
    standing: &Standing,
    amiss: usize,
) -> Result<(), OutOfMemory>
    ensures { OnOk result (string_bytes text.new ≡ string_bytes text.old ++ folder_front (length node.now.path) standing.now amiss) }
{
    push_folder_front(text, node.path.len(), standing, amiss)
}

/// A node with this standing begins a folder, which has this inside it.
fn push_folder(
    alloc: Global,
    text: &mut String,
    tail: bool,
    node: &Node,
    standing: &Standing,
    inside: Inside,
) -> Result<(), OutOfMemory>
    ensures { OnOk result (string_bytes text.new ≡ string_bytes text.old ++ folder_html tail (node_with node.now standing.now) inside) }
{
    push_node_front(text, node, standing, inside.amiss)?;
    push_told(alloc, text, tail, node, standing)?;
    push_inside(text, inside)?;
    push_markup(text, "</summary>\n")
}

/// What the line of a node begins with.
pub(crate) fn push_leaf_front(text: &mut String, standing: &Standing) -> Result<(), OutOfMemory>
    ensures { OnOk result (string_bytes text.new ≡ string_bytes text.old ++ leaf_front standing.now) }
{
    push_markup(text, "<div class=")?;
    push_class(text, standing)?;
    push_markup(text, ">")
}

/// A time that is known.
fn push_known_date(text: &mut String, stamp: Stamp) -> Result<(), OutOfMemory>
    ensures { OnOk result (string_bytes text.new ≡ string_bytes text.old ++ (markup (codes "<small>") ++ short_time (stamp_text stamp) ++ markup (codes "</small>"))) }
{
    push_markup(text, "<small>")?;
    push_stamp(text, stamp)?;
    push_markup(text, "</small>")
}

/// The time of a node's last change, where that is known.
pub(crate) fn push_date(text: &mut String, stamp: Option<Stamp>) -> Result<(), OutOfMemory>
    ensures { OnOk result (string_bytes text.new ≡ string_bytes text.old ++ date_html stamp) }
{
    match stamp {
        None => Ok(()),
        Some(stamp) => push_known_date(text, stamp),
    }
}

/// The time of the last change of a node, where that is known.
fn push_node_date(text: &mut String, node: &Node) -> Result<(), OutOfMemory>
    ensures { OnOk result (string_bytes text.new ≡ string_bytes text.old ++ date_html node.now.stamp) }
{
    push_date(text, node.stamp)
}

/// The line of a node with this standing, after which `ended` folders end.
fn push_leaf(
    alloc: Global,
    text: &mut String,
    tail: bool,
    node: &Node,
    standing: &Standing,
    ended: usize,
) -> Result<(), OutOfMemory>
    ensures { OnOk result (string_bytes text.new ≡ string_bytes text.old ++ leaf_html tail (node_with node.now standing.now) ended) }
{
    push_leaf_front(text, standing)?;
    push_told(alloc, text, tail, node, standing)?;
    push_node_date(text, node)?;
    push_markup(text, "</div>\n")?;
    push_closings(text, ended)
}

/// A node with this standing, by how many names the path of the next one has, and what is inside it.
#[tactic(auto, unfolding(crate::specs::Trees::node_html))]
fn push_node(
    alloc: Global,
    text: &mut String,
    tail: bool,
    node: &Node,
    standing: &Standing,
    next: usize,
    inside: Inside,
) -> Result<(), OutOfMemory>
    ensures { OnOk result (string_bytes text.new ≡ string_bytes text.old ++ node_html tail (node_with node.now standing.now) next inside) }
{
    let depth = node.path.len();
    if depth < next {
        push_folder(alloc, text, tail, node, standing, inside)
    } else {
        push_leaf(alloc, text, tail, node, standing, depth - next)
    }
}

/// How many names the path of the first node has; none where there is no node.
fn first_depth(nodes: &[Node]) -> usize
    ensures { result ≡ first_depth (drop 0 nodes.now) }
{
    match nodes.get(0) {
        Some(node) => node.path.len(),
        None => 0,
    }
}

/// The nodes behind the one at this place.
fn behind(nodes: &[Node], index: usize) -> &[Node]
    requires { index < length nodes.now }
    ensures { result.now ≡ drop (index + 1) nodes.now }
{
    &nodes[index + 1..]
}

/// A node with this standing. The text that is held is handed on when it is long.
fn put_node<W: Sink>(
    alloc: Global,
    text: &mut String,
    sink: &mut W,
    tail: bool,
    node: &Node,
    standing: &Standing,
    next: usize,
    inside: Inside,
) -> Result<(), RunError>
    ensures { PassesOn (W.stream sink.old) (W.stream sink.new) (string_bytes text.old) (string_bytes text.new)
        (node_html tail (node_with node.now standing.now) next inside) result }
{
    push_node(alloc, text, tail, node, standing, next, inside)?;
    pass_on(text, sink)
}

/// A node that is given without its blocks and holes, with those behind it. They are found first.
fn put_full_node<B: BlockStore, W: Sink>(
    alloc: Global,
    text: &mut String,
    sink: &mut W,
    view: StoreView<'_, B>,
    node: &Node,
    behind: &[Node],
) -> Result<(), PrintError>
    ensures printed { B.tells → PassesOnBy (W.stream sink.old) (W.stream sink.new) (string_bytes text.old) (string_bytes text.new)
        (node_in (view_by B.states view.entry) (full_node (view_by B.states view.entry) node.now, behind.now)) result }
    ensures fails { IsErrOf result PrintError.Unread → B.fails }
{
    let full = full_standing_by(alloc, view, node.icb, &node.standing)?;
    let tail = tail_by(alloc, view, node.icb)?;
    let next = first_depth(behind);
    let inside = inside_of(behind, node.path.len());
    put_node(alloc, text, sink, tail, node, &full, next, inside)?;
    Ok(())
}

/// Nodes that are given without their blocks and holes. Those of one node are held at a time, and no more text than one piece and that of one node.
/// What is inside a folder is counted where it begins, so a node is looked at once more for each folder that it is in.
pub(crate) fn put_nodes<B: BlockStore, W: Sink>(
    alloc: Global,
    text: &mut String,
    sink: &mut W,
    view: StoreView<'_, B>,
    nodes: &[Node],
) -> Result<(), PrintError>
    ensures printed { B.tells → PassesOnBy (W.stream sink.old) (W.stream sink.new) (string_bytes text.old) (string_bytes text.new)
        (nodes_html (view_by B.states view.entry) (map (full_node (view_by B.states view.entry)) nodes.now)) result }
    ensures fails { IsErrOf result PrintError.Unread → B.fails }
{
    let count = nodes.len();
    for index in 0..count {
        let rest = behind(nodes, index);
        put_full_node(alloc, text, sink, view, &nodes[index], rest)?;
    }
    Ok(())
}

/// All nodes, which are given without their blocks and holes.
pub(crate) fn put_tree<B: BlockStore, W: Sink>(
    alloc: Global,
    text: &mut String,
    sink: &mut W,
    view: StoreView<'_, B>,
    nodes: &[Node],
) -> Result<(), PrintError>
    ensures printed { B.tells → PassesOnBy (W.stream sink.old) (W.stream sink.new) (string_bytes text.old) (string_bytes text.new)
        (tree_html (view_by B.states view.entry) (map (full_node (view_by B.states view.entry)) nodes.now)) result }
    ensures fails { IsErrOf result PrintError.Unread → B.fails }
{
    push_markup(text, "<h2>All files</h2>\n")?;
    put_nodes(alloc, text, sink, view, nodes)
}

/// If the first node is the root and no node is more than one folder deeper than the one before it, then each node is inside as many folders
/// as its path has names, and no folder is open after the last node. This is a law about the page; the call does nothing.
pub fn folders_nest()
    ensures { (nodes : List NodeFields) → (k : ℕ) → IsStepwise nodes → first_depth nodes ≡ 0 → open_after nodes k ≡ first_depth (drop k nodes) }
{}
