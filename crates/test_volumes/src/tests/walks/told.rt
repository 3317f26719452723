//! What is reported of a sample volume, as text: a line for each node, unnamed entry and block to read again.

use std::alloc::{AllocError, Global};
use std::test::Fail;
use udfs_file::{Kind, file_set};
use udfs_lattice::{BlockStore, BlockTable};
use udfs_osta::Stamp;
use udfs_samples::LAST;
use udfs_space::{Space, StoreView};
use udfs_tag::LongAd;
use udfs_volume::Seen;
use udfs_volume::layouts::layout;
use udfs_walk::answers::{Node, NodesError, NodesGaveUp, Unnamed};
use udfs_walk::standings::Standing;
use udfs_walk::unnamed_entries::bare_unnamed_by;
use udfs_walk::{bare_nodes_by, bare_reread_by, full_entries_by, full_nodes_by, nodes};

/// The places of a table's volume, and the address of its root.
pub fn rooted(alloc: Global, table: &BlockTable) -> Option<(Space, LongAd)> {
    let Seen::Got(parts) = layout(alloc, table, LAST) else {
        return None;
    };
    let Seen::Got(space) = Space::build(alloc, table, &parts) else {
        return None;
    };
    match file_set(alloc, table, &space, parts.file_set) {
        Seen::Got(root) => Some((space, root)),
        _ => None,
    }
}

/// The nodes of a volume, or why it has no nodes; `None` if its root is not found.
pub fn nodes_of(
    alloc: Global,
    table: &BlockTable,
) -> Result<Option<Result<Vec<Node>, NodesError>>, Fail> {
    let Some((space, root)) = rooted(alloc, table) else {
        return Ok(None);
    };
    Ok(Some(nodes(alloc, table, &space, root)))
}

/// A standing, with what is missing.
fn standing(alloc: Global, text: &mut String, standing: &Standing) -> Result<(), AllocError> {
    match standing {
        Standing::Whole => text.push_str("whole"),
        Standing::Loop => text.push_str("loop"),
        Standing::Fault(fault) => {
            let number = *fault as u8;
            text.push_str(format!(in alloc; "fault-{number}")?.as_str())
        }
        Standing::Torn(torn) => {
            text.push_str("torn")?;
            for n in &torn.missing {
                text.push_str(format!(in alloc; " missing {n}")?.as_str())?;
            }
            for (offset, length) in &torn.holes {
                text.push_str(format!(in alloc; " hole {offset} {length}")?.as_str())?;
            }
            Ok(())
        }
    }
}

/// A kind and a size.
fn kind(
    alloc: Global,
    text: &mut String,
    kind: Kind,
    size: Option<u64>,
    stamp: Option<Stamp>,
) -> Result<(), AllocError> {
    let one = match kind {
        Kind::Directory => format!(in alloc; " directory")?,
        Kind::File => format!(in alloc; " file")?,
        Kind::Link => format!(in alloc; " link")?,
        Kind::Other(t) => format!(in alloc; " other-{t}")?,
        Kind::Unread => format!(in alloc; " unread")?,
    };
    text.push_str(one.as_str())?;
    if let Some(size) = size {
        text.push_str(format!(in alloc; " {size}")?.as_str())?;
    }
    if let Some(stamp) = stamp {
        text.push(' ')?;
        stamp.write_text(text)?;
    }
    Ok(())
}

/// The line of a node.
fn push_node(alloc: Global, text: &mut String, node: &Node) -> Result<(), AllocError> {
    standing(alloc, text, &node.standing)?;
    kind(alloc, text, node.kind, node.size, node.stamp)?;
    text.push(' ')?;
    for index in 0..node.path.len() {
        if let Some(name) = node.path.get(index) {
            text.push('/')?;
            name.write_escaped(text)?;
        }
    }
    if node.hidden {
        text.push_str(" hidden")?;
    }
    text.push('\n')
}

/// The line of an entry that no name leads to.
fn push_unnamed(alloc: Global, text: &mut String, entry: &Unnamed) -> Result<(), AllocError> {
    let (reference, block) = (entry.reference, entry.block);
    write!(text, "unnamed {reference}:{block} ")?;
    standing(alloc, text, &entry.standing)?;
    kind(alloc, text, entry.kind, Some(entry.size), Some(entry.stamp))?;
    text.push('\n')
}

/// The lines of nodes, of entries that no name leads to, and of blocks to read again.
fn lines(
    alloc: Global,
    nodes: &[Node],
    entries: &[Unnamed],
    blocks: &[u32],
) -> Result<String, AllocError> {
    let mut text = String::new(alloc);
    for node in nodes {
        push_node(alloc, &mut text, node)?;
    }
    for entry in entries {
        push_unnamed(alloc, &mut text, entry)?;
    }
    for n in blocks {
        write!(text, "reread {n}\n")?;
    }
    Ok(text)
}

/// What is reported of the volume of a store of blocks: its nodes and the blocks to read again, and, if they are asked for, the entries
/// that no node names, which are looked for in every known block.
pub fn told_by<B: BlockStore>(
    alloc: Global,
    view: StoreView<'_, B>,
    root: LongAd,
    with_entries: bool,
) -> Result<String, NodesGaveUp> {
    let bare = bare_nodes_by(alloc, view, root)?;
    let entries = if with_entries {
        let entries = bare_unnamed_by(alloc, view, &bare)?;
        full_entries_by(alloc, view, entries)?
    } else {
        Vec::new(alloc)
    };
    let blocks = bare_reread_by(alloc, view, &bare)?;
    let nodes = full_nodes_by(alloc, view, bare)?;
    let text = lines(alloc, &nodes, &entries, &blocks)?;
    Ok(text)
}
