//! Out of memory: `rt try --test --fail-alloc N` fails the allocation with this number in each test.

use crate::tests::assert_same;
use std::test::Fail;
use udfs_samples::{Disc, LAST};
use udfs_volume::layouts::layout;
use udfs_volume::seen::Seen;

/// Where one allocation fails, the result is the layout, or out of memory.
#[test]
fn want_of_memory_is_told(rt: HostRuntime) -> Result<(), Fail> {
    let alloc = rt.alloc();
    let Ok(disc) = Disc::two_maps(alloc) else {
        return Ok(());
    };
    let Ok(table) = disc.known_at(alloc, &[256, 32, 33, 34, 35]) else {
        return Ok(());
    };
    match layout(alloc, &table, LAST) {
        Seen::Got(parts) => assert_same(&rt, parts.partitions.len(), 2),
        Seen::OutOfMemory => {}
        Seen::Holes(_) | Seen::Fault(_) => assert!(rt; false),
    }
    Ok(())
}
