//! The lines of nodes, and of entries that no name leads to.

ghost use Rattle.std.specs.Prelude.{◌++◌, Some, codes, decimal};
ghost use Rattle.udfs_reading.specs.Puts.{Puts};
ghost use Rattle.udfs_salvage.specs.NodeTexts.{hole_line, kind_text, missing_line, name_text, names_text, node_line, path_name, path_text, place_text, size_text, standing_text, stamp_column, told_text, unnamed_line};

use crate::word_printing::{put_count, put_escaped, put_stamp, put_word};
use crate::words::{kind_word, standing_word};
use udfs_file::Kind;
use udfs_osta::{Name, Stamp};
use udfs_reading::{Printer, Sink};
use udfs_tag::LbAddr;
use udfs_walk::{Node, Path, Standing, Unnamed};

/// A standing, a space before it.
fn put_standing<W: Sink>(out: &mut Printer, sink: &mut W, standing: &Standing)
    ensures { Puts (W.stream sink.old) (W.stream sink.new) out.old out.new (standing_text standing.now) }
{
    out.put(sink, " ");
    put_word(out, sink, standing_word(standing));
}

/// A kind, a space before it.
fn put_kind<W: Sink>(out: &mut Printer, sink: &mut W, kind: Kind)
    ensures { Puts (W.stream sink.old) (W.stream sink.new) out.old out.new (kind_text kind) }
{
    out.put(sink, " ");
    put_word(out, sink, kind_word(kind));
}

/// A size, a space before it.
fn put_size<W: Sink>(out: &mut Printer, sink: &mut W, size: Option<u64>)
    ensures { Puts (W.stream sink.old) (W.stream sink.new) out.old out.new (size_text size) }
{
    match size {
        None => out.put(sink, " -"),
        Some(size) => put_count(out, sink, " ", size),
    }
}

/// A time that is known, a space before it.
fn put_known_time<W: Sink>(out: &mut Printer, sink: &mut W, stamp: Stamp)
    ensures { Puts (W.stream sink.old) (W.stream sink.new) out.old out.new (stamp_column (Some stamp)) }
{
    out.put(sink, " ");
    put_stamp(out, sink, stamp);
}

/// A time, a space before it.
fn put_time<W: Sink>(out: &mut Printer, sink: &mut W, stamp: Option<Stamp>)
    ensures { Puts (W.stream sink.old) (W.stream sink.new) out.old out.new (stamp_column stamp) }
{
    match stamp {
        None => out.put(sink, " -"),
        Some(stamp) => put_known_time(out, sink, stamp),
    }
}

/// The columns that a node and an entry without a name share: standing, kind, size and timestamp.
fn put_told<W: Sink>(
    out: &mut Printer,
    sink: &mut W,
    standing: &Standing,
    kind: Kind,
    size: Option<u64>,
    stamp: Option<Stamp>,
)
    ensures { Puts (W.stream sink.old) (W.stream sink.new) out.old out.new (told_text standing.now kind size stamp) }
{
    put_standing(out, sink, standing);
    put_kind(out, sink, kind);
    put_size(out, sink, size);
    put_time(out, sink, stamp);
}

/// A `/`, and then a name in its escaped form.
fn put_name<W: Sink>(out: &mut Printer, sink: &mut W, name: &Name)
    ensures { Puts (W.stream sink.old) (W.stream sink.new) out.old out.new (name_text name.now) }
{
    out.put(sink, "/");
    put_escaped(out, sink, name);
}

/// The names of a path.
fn put_names<W: Sink>(out: &mut Printer, sink: &mut W, path: &Path)
    ensures { Puts (W.stream sink.old) (W.stream sink.new) out.old out.new (names_text path.now) }
{
    for index in 0..path.len() {
        if let Some(name) = path.get(index) {
            put_name(out, sink, name);
        }
    }
}

/// A path: the root has no name.
fn put_path_name<W: Sink>(out: &mut Printer, sink: &mut W, path: &Path)
    ensures { Puts (W.stream sink.old) (W.stream sink.new) out.old out.new (path_name path.now) }
{
    if path.is_empty() {
        return out.put(sink, "/");
    }
    put_names(out, sink, path);
}

/// A path, a space before it.
fn put_path<W: Sink>(out: &mut Printer, sink: &mut W, path: &Path)
    ensures { Puts (W.stream sink.old) (W.stream sink.new) out.old out.new (path_text path.now) }
{
    out.put(sink, " ");
    put_path_name(out, sink, path);
}

/// The line of a node.
pub(crate) fn put_node_line<W: Sink>(out: &mut Printer, sink: &mut W, number: usize, node: &Node)
    ensures { Puts (W.stream sink.old) (W.stream sink.new) out.old out.new (node_line number node.now) }
{
    put_count(out, sink, "node ", number as u64);
    put_told(out, sink, &node.standing, node.kind, node.size, node.stamp);
    put_path(out, sink, &node.path);
    out.put(sink, "\n");
}

/// The address of an entry in a volume with two partitions: its partition reference, `:`, and its logical block.
fn put_two_place<W: Sink>(out: &mut Printer, sink: &mut W, address: LbAddr)
    ensures { Puts (W.stream sink.old) (W.stream sink.new) out.old out.new (decimal address.reference ++ codes ":" ++ decimal address.block) }
{
    out.put_number(sink, u64::from(address.reference));
    out.put(sink, ":");
    out.put_number(sink, u64::from(address.block));
}

/// The address of an entry: its logical block, with its partition reference before it where there are two partitions.
fn put_place<W: Sink>(out: &mut Printer, sink: &mut W, two: bool, entry: &Unnamed)
    ensures { Puts (W.stream sink.old) (W.stream sink.new) out.old out.new (place_text two entry.now) }
{
    if two {
        put_two_place(out, sink, entry.address());
    } else {
        out.put_number(sink, u64::from(entry.block));
    }
}

/// The line of an entry that no name leads to.
pub(crate) fn put_unnamed_line<W: Sink>(out: &mut Printer, sink: &mut W, two: bool, entry: &Unnamed)
    ensures { Puts (W.stream sink.old) (W.stream sink.new) out.old out.new (unnamed_line two entry.now) }
{
    out.put(sink, "unnamed ");
    put_place(out, sink, two, entry);
    put_told(
        out,
        sink,
        &entry.standing,
        entry.kind,
        Some(entry.size),
        Some(entry.stamp),
    );
    out.put(sink, "\n");
}

/// The line of a missing block.
pub(crate) fn put_missing<W: Sink>(out: &mut Printer, sink: &mut W, block: u32)
    ensures { Puts (W.stream sink.old) (W.stream sink.new) out.old out.new (missing_line block) }
{
    put_count(out, sink, "missing ", u64::from(block));
    out.put(sink, "\n");
}

/// The line of a run of missing bytes.
pub(crate) fn put_hole<W: Sink>(out: &mut Printer, sink: &mut W, hole: (u64, u64))
    ensures { Puts (W.stream sink.old) (W.stream sink.new) out.old out.new (hole_line hole) }
{
    let (offset, length) = hole;
    put_count(out, sink, "hole ", offset);
    out.put(sink, " ");
    out.put_number(sink, length);
    out.put(sink, "\n");
}
