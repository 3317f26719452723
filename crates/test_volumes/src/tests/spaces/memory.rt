//! Out of memory: `rt try --test --fail-alloc N` fails the allocation with this number in each test.

use super::said::space_of;
use crate::tests::assert_same;
use std::test::Fail;
use udfs_samples::{Disc, LAST};
use udfs_volume::Seen;

/// Where one allocation fails, the result is the space, or out of memory.
#[test]
fn want_of_memory_is_told(rt: HostRuntime) -> Result<(), Fail> {
    let alloc = rt.alloc();
    let Ok(disc) = Disc::two_maps(alloc) else {
        return Ok(());
    };
    let Ok(table) = disc.known_at(alloc, &[256, 32, 33, 34, 35, 100]) else {
        return Ok(());
    };
    match space_of(alloc, &table, LAST) {
        Seen::Got(space) => assert_same(&rt, space.maps(), 2),
        Seen::OutOfMemory => {}
        Seen::Holes(_) | Seen::Fault(_) => assert!(rt; false),
    }
    Ok(())
}

/// The same where the table's copies are holes.
#[test]
fn want_of_memory_for_holes_is_told(rt: HostRuntime) -> Result<(), Fail> {
    let alloc = rt.alloc();
    let Ok(disc) = Disc::sparable(alloc) else {
        return Ok(());
    };
    let Ok(table) = disc.known_at(alloc, &[256, 32, 33, 34]) else {
        return Ok(());
    };
    match space_of(alloc, &table, LAST) {
        Seen::Holes(blocks) => assert_same(&rt, blocks.as_slice(), [100, 200].as_slice()),
        Seen::OutOfMemory => {}
        Seen::Got(_) | Seen::Fault(_) => assert!(rt; false),
    }
    Ok(())
}
