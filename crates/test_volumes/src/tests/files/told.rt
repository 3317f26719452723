//! What is reported of the files of sample volumes, as texts.

use crate::tests::rows::OfBody;
use crate::tests::volumes::said::holes_text;
use std::alloc::{AllocError, Global};
use std::test::Fail;
use udfs_file::bodies::Body;
use udfs_file::cells::Cell;
use udfs_file::cursors::{Cursor, Step};
use udfs_file::directories::{Dir, DirFront};
use udfs_file::entries::Entry;
use udfs_file::faults::{Kind, NodeFault, WalkError};
use udfs_file::file_sets::file_set;
use udfs_file::portions::Portion;
use udfs_file::stretches::{Run, Stretch};
use udfs_lattice::{BlockTable, Fact};
use udfs_samples::LAST;
use udfs_space::{Space, View};
use udfs_tag::{LbAddr, LongAd};
use udfs_volume::layouts::layout_by;
use udfs_volume::{Profile, Seen};

/// The places of a table's volume by the rules of a profile, and the address of its file set.
pub fn laid_out(alloc: Global, table: &BlockTable, profile: Profile) -> Option<(Space, LongAd)> {
    let Seen::Got(parts) = layout_by(alloc, table, LAST, profile) else {
        return None;
    };
    let Seen::Got(space) = Space::build(alloc, table, &parts) else {
        return None;
    };
    Some((space, parts.file_set))
}

/// What the file set says: `root R:B`, holes, or a fault with its number.
pub fn root(alloc: Global, table: &BlockTable) -> Result<String, Fail> {
    let Some((space, address)) = laid_out(alloc, table, Profile::Strict) else {
        return Ok(format!(in alloc; "no layout")?);
    };
    match file_set(alloc, table, &space, address) {
        Seen::Got(root) => {
            let (reference, block) = (root.reference, root.block);
            Ok(format!(in alloc; "root {reference}:{block}")?)
        }
        Seen::Holes(blocks) => holes_text(alloc, &blocks),
        Seen::Fault(fault) => {
            let number = fault as u8;
            Ok(format!(in alloc; "fault {number} {fault}")?)
        }
        Seen::OutOfMemory => Ok(format!(in alloc; "out of memory")?),
    }
}

/// A fault with its number.
fn fault_text(alloc: Global, fault: NodeFault) -> Result<String, AllocError> {
    let number = fault as u8;
    format!(in alloc; "fault {number} {fault}")
}

/// The entry at an address, or the text that says why there is none.
fn entry_at<'a>(
    alloc: Global,
    view: View<'a>,
    at: LbAddr,
) -> Result<Result<Entry<'a>, String>, AllocError> {
    let Some((_, Fact::Known(bytes))) = view.block_at(at) else {
        return Ok(Err(format!(in alloc; "unread")?));
    };
    match Entry::read(bytes, at.block) {
        Ok(entry) => Ok(Ok(entry)),
        Err(fault) => Ok(Err(fault_text(alloc, fault)?)),
    }
}

/// The kind, size and stamp of an entry, or its fault.
pub fn entry(alloc: Global, table: &BlockTable, at: LbAddr) -> Result<String, Fail> {
    let Some((space, _)) = laid_out(alloc, table, Profile::Strict) else {
        return Ok(format!(in alloc; "no layout")?);
    };
    let view = View {
        table,
        space: &space,
    };
    match entry_at(alloc, view, at)? {
        Ok(entry) => Ok(entry_text(alloc, &entry)?),
        Err(text) => Ok(text),
    }
}

fn entry_text(alloc: Global, entry: &Entry) -> Result<String, AllocError> {
    let size = entry.size();
    let mut text = match entry.kind() {
        Kind::Directory => format!(in alloc; "directory {size} ")?,
        Kind::File => format!(in alloc; "file {size} ")?,
        Kind::Link => format!(in alloc; "link {size} ")?,
        Kind::Other(t) => format!(in alloc; "other-{t} {size} ")?,
        Kind::Unread => format!(in alloc; "unread {size} ")?,
    };
    entry.stamp().write_text(&mut text)?;
    Ok(text)
}

/// What is asked of the body of an entry, by the rules of a profile, or why it has none.
pub fn body(
    alloc: Global,
    table: &BlockTable,
    profile: Profile,
    of: OfBody,
    at: LbAddr,
) -> Result<String, Fail> {
    let Some((space, _)) = laid_out(alloc, table, profile) else {
        return Ok(format!(in alloc; "no layout")?);
    };
    let view = View {
        table,
        space: &space,
    };
    if let OfBody::Tail = of {
        return match entry_at(alloc, view, at)? {
            Ok(entry) => tail_text(alloc, view, &entry, at),
            Err(text) => Ok(text),
        };
    }
    match body_of(alloc, table, &space, at.reference, at.block)? {
        Ok(body) => told(alloc, view, &body, of),
        Err(text) => Ok(text),
    }
}

/// The body of an entry, or a text that says why the entry has no body.
fn body_of(
    alloc: Global,
    table: &BlockTable,
    space: &Space,
    reference: u16,
    b: u32,
) -> Result<Result<Body, String>, Fail> {
    let bytes = match space.block_at(table, reference, u64::from(b)) {
        Some((_, Fact::Known(bytes))) => bytes,
        _ => return Ok(Err(format!(in alloc; "unread")?)),
    };
    let entry = match Entry::read(bytes, b) {
        Ok(entry) => entry,
        Err(fault) => return Ok(Err(fault_text(alloc, fault)?)),
    };
    match Body::read(alloc, table, space, &entry, reference, b) {
        Ok(body) => Ok(Ok(body)),
        Err(WalkError::Fault(fault)) => Ok(Err(fault_text(alloc, fault)?)),
        Err(WalkError::OutOfMemory) => Ok(Err(format!(in alloc; "out of memory")?)),
    }
}

/// Whether a body is read by the tail of its last extent: `tail` or `no tail`.
fn tail_text(alloc: Global, view: View, entry: &Entry, at: LbAddr) -> Result<String, Fail> {
    if Body::is_tail_read(alloc, view, entry, at.reference, at.block)? {
        Ok(format!(in alloc; "tail")?)
    } else {
        Ok(format!(in alloc; "no tail")?)
    }
}

/// What is asked of a body.
fn told(alloc: Global, view: View, body: &Body, of: OfBody) -> Result<String, Fail> {
    match of {
        OfBody::Stretches | OfBody::Tail => stretches(alloc, body),
        OfBody::Portions => portions(alloc, view, body),
        OfBody::Cells => cells(alloc, view, body),
        OfBody::Front => {
            let front = Dir::front(alloc, view.table, view.space, body)?;
            front_text(alloc, &front)
        }
        OfBody::Within(most) => match Dir::front_within(alloc, view, body, most) {
            Ok(front) => front_text(alloc, &front),
            Err(error) => Ok(format!(in alloc; "{error}")?),
        },
        OfBody::End => end(alloc, view, body),
        OfBody::Steps(count) => steps(alloc, view, body, count),
    }
}

/// The stretches of a body.
fn stretches(alloc: Global, body: &Body) -> Result<String, Fail> {
    let mut text = format!(in alloc; "body")?;
    for stretch in body.stretches() {
        let one = match stretch {
            Stretch::Recorded(run, count) => {
                let LbAddr { block, reference } = run.address;
                let offset = run.offset;
                format!(in alloc; " recorded {reference}:{block}+{offset} {count}")?
            }
            Stretch::Zeros(count) => format!(in alloc; " zeros {count}")?,
            Stretch::Missing(n, count) => format!(in alloc; " missing {n} {count}")?,
        };
        text.push_str(one.as_str())?;
    }
    Ok(text)
}

/// The portions of a body.
fn portions(alloc: Global, view: View, body: &Body) -> Result<String, Fail> {
    let mut text = format!(in alloc; "portions")?;
    for portion in body.portions(view) {
        let one = match portion {
            Portion::Bytes(bytes) => {
                let count = bytes.len();
                format!(in alloc; " bytes {count}")?
            }
            Portion::Zeros(count) => format!(in alloc; " zeros {count}")?,
            Portion::Missing(run) => {
                let (first, last, count) = (run.first, run.last, run.count);
                format!(in alloc; " missing {first} to {last} {count}")?
            }
        };
        text.push_str(one.as_str())?;
    }
    Ok(text)
}

/// Like cells, and how many of them.
fn push_cells(
    alloc: Global,
    text: &mut String,
    cell: Option<Cell>,
    count: usize,
) -> Result<(), AllocError> {
    let one = match cell {
        None => return Ok(()),
        Some(Cell::Byte(x, _)) => format!(in alloc; " {x:02x}*{count}")?,
        Some(Cell::Gap(n)) => format!(in alloc; " ?{n}*{count}")?,
    };
    text.push_str(one.as_str())
}

/// Whether two cells are printed alike: known ones by their byte, missing ones by their block.
fn are_alike(a: Option<Cell>, b: Cell) -> bool {
    match (a, b) {
        (Some(Cell::Byte(x, _)), Cell::Byte(y, _)) => x == y,
        (Some(Cell::Gap(m)), Cell::Gap(n)) => m == n,
        _ => false,
    }
}

/// The cell `at` bytes after the start of a run's block.
fn recorded_cell(view: View, run: Run, at: u64) -> Cell {
    let b = u64::from(run.address.block).wrapping_add(at / 2048);
    match view.space.block_at(view.table, run.address.reference, b) {
        None => Cell::Byte(0, None),
        Some((_, Fact::Known(bytes))) => Cell::Byte(bytes[(at % 2048) as usize], Some(b as u32)),
        Some((n, _)) => Cell::Gap(n),
    }
}

/// The cells of a body one by one, and at most 8192 of a stretch.
fn all_cells(alloc: Global, view: View, body: &Body) -> Result<Vec<Cell>, AllocError> {
    let mut cells = Vec::new(alloc);
    for stretch in body.stretches() {
        for i in 0..stretch.count().min(8192) {
            cells.push(match stretch {
                Stretch::Recorded(run, _) => {
                    recorded_cell(view, *run, u64::from(run.offset).wrapping_add(i))
                }
                Stretch::Zeros(_) => Cell::Byte(0, None),
                Stretch::Missing(n, _) => Cell::Gap(*n),
            })?;
        }
    }
    Ok(cells)
}

/// The cells of a body, like ones together: `61*2048` for known ones, `?278*2048` for missing ones.
fn cells(alloc: Global, view: View, body: &Body) -> Result<String, Fail> {
    let all = all_cells(alloc, view, body)?;
    let mut text = format!(in alloc; "cells")?;
    let mut last = None;
    let mut count = 0usize;
    for cell in &all {
        if !are_alike(last, *cell) {
            push_cells(alloc, &mut text, last, count)?;
            count = 0;
        }
        last = Some(*cell);
        count = count.wrapping_add(1);
    }
    push_cells(alloc, &mut text, last, count)?;
    Ok(text)
}

/// Whether a directory lists anything, and what ends it.
fn end(alloc: Global, view: View, body: &Body) -> Result<String, Fail> {
    let end = Dir::end(view, body);
    let mut text = format!(in alloc; "{}", if end.lists { "some" } else { "none" })?;
    push_end(alloc, &mut text, end.missing, end.fault)?;
    Ok(text)
}

/// What a directory lists: each name with the address, like entries together, as ` A 0:3 *51`; and what ends it.
fn front_text(alloc: Global, front: &DirFront) -> Result<String, Fail> {
    let mut runs = Runs::new(alloc, "front")?;
    for entry in &front.entries {
        let mut one = String::new(alloc);
        entry.name.write_escaped(&mut one)?;
        let (reference, block) = (entry.icb.reference, entry.icb.block);
        write!(one, " {reference}:{block}")?;
        runs.push(one)?;
    }
    let mut text = runs.whole()?;
    push_end(alloc, &mut text, front.missing, front.fault)?;
    Ok(text)
}

/// What ends a directory.
fn push_end(
    alloc: Global,
    text: &mut String,
    missing: Option<u32>,
    fault: Option<NodeFault>,
) -> Result<(), AllocError> {
    if let Some(n) = missing {
        let missing = format!(in alloc; " missing {n}")?;
        text.push_str(missing.as_str())?;
    }
    if let Some(fault) = fault {
        text.push(' ')?;
        let fault = fault_text(alloc, fault)?;
        text.push_str(fault.as_str())?;
    }
    Ok(())
}

/// `count` steps of a cursor through a directory, like ones together: of a descriptor the sizes of its pieces, else what ends them.
fn steps(alloc: Global, view: View, body: &Body, count: usize) -> Result<String, Fail> {
    let mut cursor = Cursor::new(view, body);
    let mut runs = Runs::new(alloc, "steps")?;
    for _ in 0..count {
        let step = match cursor.next() {
            Step::Id(view) => {
                let (first, second) = (view.first.len(), view.second.len());
                format!(in alloc; "{first}+{second}")?
            }
            Step::Stop(n) => format!(in alloc; "stop {n}")?,
            Step::Fault(fault) => fault_text(alloc, fault)?,
            Step::End => format!(in alloc; "end")?,
        };
        runs.push(step)?;
    }
    Ok(runs.whole()?)
}

/// Words of which like ones that follow one another are told together.
#[derive(Drop)]
struct Runs {
    text: String,
    last: String,
    count: usize,
}

impl Runs {
    fn new(alloc: Global, word: &str) -> Result<Self, AllocError> {
        Ok(Runs {
            text: String::new(alloc),
            last: String::from_str(alloc, word)?,
            count: 1,
        })
    }

    fn push(&mut self, word: String) -> Result<(), AllocError> {
        if self.last.as_str() == word.as_str() {
            self.count = self.count.wrapping_add(1);
            return Ok(());
        }
        self.end()?;
        self.text.push(' ')?;
        self.last = word;
        self.count = 1;
        Ok(())
    }

    /// Tells the last word, and how often it came where that is more than once.
    fn end(&mut self) -> Result<(), AllocError> {
        self.text.push_str(self.last.as_str())?;
        if self.count > 1 {
            let count = self.count;
            write!(self.text, " *{count}")?;
        }
        Ok(())
    }

    fn whole(mut self) -> Result<String, AllocError> {
        self.end()?;
        Ok(self.text)
    }
}
