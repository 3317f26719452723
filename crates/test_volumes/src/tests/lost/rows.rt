//! The parents that directories name, and how many nodes lost trees have.

use crate::tests::assert_same;
use crate::tests::walks::rooted;
use std::test::Fail;
use udfs_lost::{lost_trees, parent};
use udfs_samples::Disc;
use udfs_space::View;
use udfs_tag::{LbAddr, LongAd};
use udfs_walk::answers::NodesError;

/// The address in the partition of the first map.
fn at(block: u32) -> LbAddr {
    LbAddr {
        block,
        reference: 0,
    }
}

/// The sample's root names itself as its parent, in its first identifier. A directory without such an identifier names none, nor
/// does a file, nor one whose block is not read.
#[test]
fn parents(rt: HostRuntime) -> Result<(), Fail> {
    let alloc = rt.alloc();
    let mut disc = Disc::type1(alloc)?;
    disc.write_directory(272, 10, &[(b"\x08A", 3)])?;
    let root = LongAd {
        kind: 0,
        length: 2048,
        block: 1,
        reference: 0,
    };
    for (unread, expected) in [(600, Some(root)), (274, None)] {
        let table = disc.known_but(alloc, &[unread])?;
        let Some((space, _)) = rooted(alloc, &table) else {
            assert!(rt; false);
            return Ok(());
        };
        let view = View {
            table: &table,
            space: &space,
        };
        assert_same(&rt, parent(view, at(1)), expected);
        assert_same(&rt, parent(view, at(10)), None);
        assert_same(&rt, parent(view, at(3)), None);
    }
    Ok(())
}

/// Directories of two names, each of which leads to the next one: from logical block 1 on 2^16 - 1 nodes in 16 of them.
fn doubling(rt: &HostRuntime) -> Result<Disc, Fail> {
    let mut disc = Disc::type1(rt.alloc())?;
    for i in 0..15u32 {
        let entry = i.wrapping_mul(2).wrapping_add(1);
        let next = entry.wrapping_add(2);
        disc.write_directory(272, entry, &[(b"\x08A", next), (b"\x08B", next)])?;
    }
    disc.write_directory(272, 31, &[])?;
    Ok(disc)
}

/// All lost trees together have at most 65,536 nodes.
#[test]
fn as_many_nodes_as_a_volume(rt: HostRuntime) -> Result<(), Fail> {
    let alloc = rt.alloc();
    let table = doubling(&rt)?.known_but(alloc, &[])?;
    let Some((space, _)) = rooted(alloc, &table) else {
        assert!(rt; false);
        return Ok(());
    };
    let view = View {
        table: &table,
        space: &space,
    };
    let Ok(trees) = lost_trees(alloc, view, &[at(1), at(31)]) else {
        assert!(rt; false);
        return Ok(());
    };
    assert_same(&rt, trees.len(), 2);
    assert_same(
        &rt,
        matches!(
            lost_trees(alloc, view, &[at(1), at(31), at(31)]),
            Err(NodesError::TooManyPaths)
        ),
        true,
    );
    Ok(())
}
