//! All tables that know some of twelve blocks of a volume, and nothing else.

use crate::tests::{assert_case, assert_same};
use std::alloc::Global;
use std::test::Fail;
use udfs_lattice::{BlockTable, TableError};
use udfs_salvage::salvage;
use udfs_samples::{Disc, LAST};
use udfs_walk::{Node, Standing};

/// An anchor, the main sequence, the file set, the root's entry and directory, the entries of `A` and of `B`, and the
/// three blocks of `A`.
static PLACES: [u32; 12] = [256, 32, 33, 34, 272, 273, 274, 275, 276, 277, 278, 279];

/// A set of the twelve blocks: one bit a place, the lowest for the first.
type Places = u32;

/// All twelve.
const ALL: Places = 0b1111_1111_1111;

/// What the root needs.
const FOR_ROOT: Places = 0b0000_0111_1111;

/// What `A` needs besides.
const FOR_A: Places = 0b1110_1000_0000;

/// What `B` needs besides.
const FOR_B: Places = 0b0001_0000_0000;

/// What is reported of one of the tables.
#[derive(Drop)]
struct Told {
    /// Which nodes are whole.
    root: bool,
    a: bool,
    b: bool,
    /// Whether nothing is listed to be read again.
    none_listed: bool,
    /// Which of the twelve are.
    listed: Places,
}

impl Told {
    /// Whether each node that is whole here is whole there.
    fn is_kept_in(&self, other: &Told) -> bool {
        (!self.root || other.root) && (!self.a || other.a) && (!self.b || other.b)
    }
}

fn holds(places: Places, some: Places) -> bool {
    places & some == some
}

/// The table that knows these blocks of the volume alone.
fn table_of(alloc: Global, disc: &Disc, places: Places) -> Result<BlockTable, TableError> {
    let mut table = BlockTable::new(alloc);
    let mut left = places;
    for &n in &PLACES {
        if left % 2 == 1 {
            disc.put(&mut table, n)?;
        }
        left /= 2;
    }
    Ok(table)
}

/// Those of the twelve that are listed.
fn places_in(blocks: &[u32]) -> Places {
    let mut places = 0;
    let mut bit = 1u32;
    for &n in &PLACES {
        if blocks.contains(&n) {
            places |= bit;
        }
        bit = bit.wrapping_mul(2);
    }
    places
}

/// Whether the node is whole whose path has this name alone, or none.
fn is_whole(nodes: &[Node], name: &[u16]) -> bool {
    for node in nodes {
        let last = match node.path.last() {
            Some(last) => last.units(),
            None => &[],
        };
        if last == name {
            return matches!(&node.standing, Standing::Whole);
        }
    }
    false
}

fn told_of(alloc: Global, disc: &Disc, places: Places) -> Result<Told, Fail> {
    let table = table_of(alloc, disc, places)?;
    let report = salvage(alloc, &table, LAST)?;
    Ok(Told {
        root: is_whole(&report.nodes, &[]),
        a: is_whole(&report.nodes, &[65]),
        b: is_whole(&report.nodes, &[66]),
        none_listed: report.reread.is_empty(),
        listed: places_in(&report.reread),
    })
}

/// What is reported of each of the 4,096 tables, in the order of their sets.
fn all_told(alloc: Global) -> Result<Vec<Told>, Fail> {
    let disc = Disc::type1(alloc)?;
    let mut all = Vec::new(alloc);
    for places in 0..=ALL {
        all.push(told_of(alloc, &disc, places)?)?;
    }
    Ok(all)
}

/// A node is whole exactly where all that it needs is known.
#[test]
fn whole_where_the_needed_is_known(rt: HostRuntime) -> Result<(), Fail> {
    let told = all_told(rt.alloc())?;
    let mut roots = 0u32;
    let mut files_a = 0u32;
    let mut files_b = 0u32;
    let mut none = 0u32;
    for (places, told) in (0..=ALL).zip(told.iter()) {
        let root = holds(places, FOR_ROOT);
        assert_same(&rt, told.root, root);
        assert_same(&rt, told.a, root && holds(places, FOR_A));
        assert_same(&rt, told.b, root && holds(places, FOR_B));
        assert_same(&rt, told.none_listed, places == ALL);
        roots = roots.wrapping_add(u32::from(told.root));
        files_a = files_a.wrapping_add(u32::from(told.a));
        files_b = files_b.wrapping_add(u32::from(told.b));
        none = none.wrapping_add(u32::from(told.none_listed));
    }
    assert_eq!(rt; told.len(), 4096);
    assert_same(&rt, (roots, files_b, files_a, none), (32, 16, 2, 1));
    Ok(())
}

/// One block more, or all that are not listed: what is whole stays so, and by the latter nothing more becomes whole.
#[test]
fn only_listed_blocks_help(rt: HostRuntime) -> Result<(), Fail> {
    let told = all_told(rt.alloc())?;
    for (places, old) in (0..=ALL).zip(told.iter()) {
        let mut bit = 1u32;
        for &_ in &PLACES {
            let Some(new) = told.get((places | bit) as usize) else {
                assert!(rt; false);
                return Ok(());
            };
            assert!(rt; old.is_kept_in(new), "{places} and {bit}");
            bit = bit.wrapping_mul(2);
        }
        let Some(new) = told.get((places | (ALL & !old.listed)) as usize) else {
            assert!(rt; false);
            return Ok(());
        };
        assert_case(&rt, new.is_kept_in(old), places);
    }
    Ok(())
}
