//! Rows: changes of a sample volume, the blocks of it that are not known, and what is told of it then.

use super::starts::Start;
use super::{assert_text_in, files, lawful_volumes, lawfulness, spaces, volumes};
use std::alloc::Global;
use std::process::Abort;
use std::test::Fail;
use udfs_lattice::BlockTable;
use udfs_samples::{Bytes, LAST};
use udfs_tag::LbAddr;
use udfs_volume::Profile;

/// Changes, the blocks that are not known, and what is told then.
pub type Row = (&'static [Bytes], &'static [u32], &'static str);

/// The same with what is told by the strict rules, and what by the wide ones.
pub type RowOfBoth = (&'static [Bytes], &'static [u32], &'static str, &'static str);

/// What is asked of a volume.
#[derive(Clone, Copy)]
pub enum Asked {
    /// Its layout: the revision and the kinds of the maps.
    Layout,
    /// The parts of its layout: the last block, the revision, the file set's address and the partitions.
    Parts,
    /// Its label.
    Label,
    /// Which anchors name different extents.
    Anchors,
    /// Whether the copies of its descriptors differ.
    Copies,
    /// Where its first logical block is.
    Space,
    /// Whether its structures are lawful.
    Structures,
    /// Whether it is lawful.
    Lawful,
    /// Its file set.
    Root,
    /// The entry at a logical block of a partition.
    Entry(u16, u32),
    /// What is asked of the body of that entry.
    Body(OfBody, u16, u32),
}

/// What is asked of a body.
#[derive(Clone, Copy)]
pub enum OfBody {
    /// Its stretches.
    Stretches,
    /// Its portions.
    Portions,
    /// Its cells.
    Cells,
    /// Whether it is read by the tail of its last extent.
    Tail,
    /// What it lists as a directory.
    Front,
    /// The same, if it has at most so many entries.
    Within(usize),
    /// Whether it lists anything, and what ends it.
    End,
    /// So many steps of a cursor through it.
    Steps(usize),
}

/// What is told of a volume by the rules of a profile.
fn told(alloc: Global, table: &BlockTable, profile: Profile, asked: Asked) -> Result<String, Fail> {
    match asked {
        Asked::Layout => volumes::said::layout_text(alloc, table, profile),
        Asked::Parts => volumes::said::parts_text(alloc, table, profile),
        Asked::Label => volumes::said::label(alloc, table),
        Asked::Anchors => volumes::said::anchors(alloc, table),
        Asked::Copies => volumes::said::copies(alloc, table, profile),
        Asked::Space => spaces::said::said(alloc, table, LAST, profile),
        Asked::Structures => lawfulness::structures(alloc, table, profile),
        Asked::Lawful => lawful_volumes::lawful(alloc, table, profile),
        Asked::Root => files::told::root(alloc, table),
        Asked::Entry(reference, block) => {
            files::told::entry(alloc, table, LbAddr { block, reference })
        }
        Asked::Body(of, reference, block) => {
            files::told::body(alloc, table, profile, of, LbAddr { block, reference })
        }
    }
}

/// What is told of the table is what a row expects.
fn assert_told(
    rt: &impl Abort,
    alloc: Global,
    table: &BlockTable,
    profile: Profile,
    asked: Asked,
    row: (usize, &'static str),
) -> Result<(), Fail> {
    let (index, expected) = row;
    let text = told(alloc, table, profile, asked)?;
    assert_text_in(rt, text, expected, index);
    Ok(())
}

/// By the rules of a profile this is told of a volume, by each row.
pub fn check_by(
    rt: &impl Abort,
    alloc: Global,
    profile: Profile,
    start: Start,
    asked: Asked,
    rows: &[Row],
) -> Result<(), Fail> {
    for (i, &(changes, unread, expected)) in rows.iter().enumerate() {
        let disc = start.changed(alloc, changes)?;
        let table = disc.known_but(alloc, unread)?;
        assert_told(rt, alloc, &table, profile, asked, (i, expected))?;
    }
    Ok(())
}

/// By the strict rules this is told of a volume.
pub fn check(
    rt: &impl Abort,
    alloc: Global,
    start: Start,
    asked: Asked,
    rows: &[Row],
) -> Result<(), Fail> {
    check_by(rt, alloc, Profile::Strict, start, asked, rows)
}

/// By both rules this is told of a volume.
pub fn check_alike(
    rt: &impl Abort,
    alloc: Global,
    start: Start,
    asked: Asked,
    rows: &[Row],
) -> Result<(), Fail> {
    check_by(rt, alloc, Profile::Strict, start, asked, rows)?;
    check_by(rt, alloc, Profile::Wide, start, asked, rows)
}

/// By the strict rules this is told of a volume, and that by the wide ones.
pub fn check_both(
    rt: &impl Abort,
    alloc: Global,
    start: Start,
    asked: Asked,
    rows: &[RowOfBoth],
) -> Result<(), Fail> {
    for (i, &(changes, unread, strict, wide)) in rows.iter().enumerate() {
        let disc = start.changed(alloc, changes)?;
        let table = disc.known_but(alloc, unread)?;
        assert_told(rt, alloc, &table, Profile::Strict, asked, (i, strict))?;
        assert_told(rt, alloc, &table, Profile::Wide, asked, (i, wide))?;
    }
    Ok(())
}

/// By the rules of a profile this is told of a volume of which the blocks of a row are known alone.
pub fn check_at(
    rt: &impl Abort,
    alloc: Global,
    profile: Profile,
    start: Start,
    asked: Asked,
    rows: &[Row],
) -> Result<(), Fail> {
    for (i, &(changes, known, expected)) in rows.iter().enumerate() {
        let disc = start.changed(alloc, changes)?;
        let table = disc.known_at(alloc, known)?;
        assert_told(rt, alloc, &table, profile, asked, (i, expected))?;
    }
    Ok(())
}

/// By the strict rules this is told of a volume of which this block was read a second time, all of zeros.
pub fn check_disputed(
    rt: &impl Abort,
    alloc: Global,
    start: Start,
    asked: Asked,
    disputed: u32,
    row: Row,
) -> Result<(), Fail> {
    let (changes, unread, expected) = row;
    let disc = start.changed(alloc, changes)?;
    let mut table = disc.known_but(alloc, unread)?;
    table.put(disputed, &[0; 2048])?;
    assert_told(rt, alloc, &table, Profile::Strict, asked, (0, expected))
}
