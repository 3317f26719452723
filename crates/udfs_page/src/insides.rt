//! What is inside a folder, at any depth. A function `push_..` appends to a text; if memory runs out, a part may be appended.

ghost use Rattle.std.specs.Prelude.{◌≡◌, ◌++◌, OnOk};
ghost use Rattle.std.specs.String.{string_bytes};
ghost use Rattle.udfs_walk.specs.Unsettled.{is_whole};
ghost use Rattle.udfs_overview.specs.Tallies.{is_folder, is_torn, is_unread};
ghost use Rattle.udfs_page.specs.Insides.{count_part, inside, inside_html, inside_of, is_deeper, is_part, other_part, some_inside, whole_part};

use crate::markups::push_markup;
use udfs_file::Kind;
use udfs_osta::OutOfMemory;
use udfs_overview::push_grouped;
use udfs_walk::{Node, Standing};

/// What is counted of the nodes inside a folder.
#[derive(Clone, Copy)]
pub(crate) enum Part {
    /// All but folders. What is not yet known may be a folder, and is an entry here.
    Entry,
    /// Entries that are whole.
    Whole,
    /// Entries that are torn.
    Torn,
    /// Entries that were not read.
    Unread,
    /// Entries and folders that are not whole.
    Amiss,
}

/// Whether a node is whole.
pub(crate) fn is_whole(standing: &Standing) -> bool
    ensures { result ≡ is_whole standing.now }
{
    match standing {
        Standing::Whole => true,
        _ => false,
    }
}

/// Whether bytes of a node are missing.
fn is_torn(standing: &Standing) -> bool
    ensures { result ≡ is_torn standing.now }
{
    match standing {
        Standing::Torn(_) => true,
        _ => false,
    }
}

/// Whether a node is a folder.
fn is_folder(kind: Kind) -> bool
    ensures { result ≡ is_folder kind }
{
    match kind {
        Kind::Directory => true,
        _ => false,
    }
}

/// Whether a node was not read.
fn is_unread(kind: Kind) -> bool
    ensures { result ≡ is_unread kind }
{
    match kind {
        Kind::Unread => true,
        _ => false,
    }
}

impl Part {
    /// Whether a node of this standing and kind is of the part.
    fn has(self, standing: &Standing, kind: Kind) -> bool
        ensures { result ≡ is_part self standing.now kind }
    {
        match self {
            Part::Entry => !is_folder(kind),
            Part::Whole => is_whole(standing) && !is_folder(kind),
            Part::Torn => is_torn(standing) && !(is_folder(kind) || is_unread(kind)),
            Part::Unread => is_unread(kind),
            Part::Amiss => !is_whole(standing),
        }
    }
}

/// How many nodes are of a part.
fn count_part(part: Part, nodes: &[Node]) -> usize
    ensures { result ≡ count_part part nodes.now }
{
    let mut count = 0;
    for node in nodes {
        if part.has(&node.standing, node.kind) {
            count += 1;
        }
    }
    count
}

/// What is inside a folder.
#[derive(Clone, Copy)]
pub(crate) struct Inside {
    /// How many entries.
    pub(crate) entries: usize,
    /// How many of them are whole.
    pub(crate) whole: usize,
    /// How many of them are torn.
    pub(crate) torn: usize,
    /// How many of them were not read.
    pub(crate) unread: usize,
    /// How many entries and folders are not whole.
    pub(crate) amiss: usize,
}

/// What is counted of these nodes.
#[tactic(auto, unfolding(crate::specs::Insides::inside_of))]
pub(crate) fn counted(nodes: &[Node]) -> Inside
    ensures { result ≡ inside_of nodes.now }
{
    Inside {
        entries: count_part(Part::Entry, nodes),
        whole: count_part(Part::Whole, nodes),
        torn: count_part(Part::Torn, nodes),
        unread: count_part(Part::Unread, nodes),
        amiss: count_part(Part::Amiss, nodes),
    }
}

/// Whether the path of a node has more names than these.
fn is_deeper(depth: usize, node: &Node) -> bool
    ensures { result ≡ is_deeper depth node.now }
{
    node.path.len() > depth
}

/// Of the nodes behind a folder whose path has so many names, those that are inside it.
fn those_inside(nodes: &[Node], depth: usize) -> &[Node]
    ensures { result.now ≡ inside depth nodes.now }
{
    for (index, node) in nodes.iter().enumerate() {
        if !is_deeper(depth, node) {
            return &nodes[..index];
        }
    }
    nodes
}

/// What is inside a folder whose path has so many names, by the nodes behind it.
pub(crate) fn inside_of(nodes: &[Node], depth: usize) -> Inside
    ensures { result ≡ inside_of (inside depth nodes.now) }
{
    counted(those_inside(nodes, depth))
}

/// How many entries are whole.
fn push_whole(text: &mut String, inside: Inside) -> Result<(), OutOfMemory>
    ensures { OnOk result (string_bytes text.new ≡ string_bytes text.old ++ whole_part inside) }
{
    push_markup(text, "<small>")?;
    push_grouped(inside.whole as u128, text)?;
    push_markup(text, " of ")?;
    push_grouped(inside.entries as u128, text)?;
    push_markup(text, " whole")
}

/// How many are not, if any.
fn push_other(text: &mut String, number: usize, words: &str) -> Result<(), OutOfMemory>
    ensures { OnOk result (string_bytes text.new ≡ string_bytes text.old ++ other_part number words.now) }
{
    if number == 0 {
        return Ok(());
    }
    push_markup(text, ", ")?;
    push_grouped(number as u128, text)?;
    push_markup(text, words)
}

/// Of a folder with entries: how many are whole, torn and not yet known.
fn push_some(text: &mut String, inside: Inside) -> Result<(), OutOfMemory>
    ensures { OnOk result (string_bytes text.new ≡ string_bytes text.old ++ some_inside inside) }
{
    push_whole(text, inside)?;
    push_other(text, inside.torn, " torn")?;
    push_other(text, inside.unread, " not yet known")?;
    push_markup(text, "</small>")
}

/// What the line of a folder says of what is inside it.
pub(crate) fn push_inside(text: &mut String, inside: Inside) -> Result<(), OutOfMemory>
    ensures { OnOk result (string_bytes text.new ≡ string_bytes text.old ++ inside_html inside) }
{
    if inside.entries == 0 {
        return Ok(());
    }
    push_some(text, inside)
}
