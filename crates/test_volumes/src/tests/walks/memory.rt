//! Out of memory: `rt try --test --fail-alloc N` fails the allocation with this number in each test.

use super::told::rooted;
use crate::tests::assert_same;
use std::test::Fail;
use udfs_samples::Disc;
use udfs_space::View;
use udfs_walk::answers::NodesError;
use udfs_walk::unnamed_entries::{bare_unnamed, unnamed};
use udfs_walk::{nodes, reread};

/// Where one allocation fails, the result is that with ample memory, or out of memory.
#[test]
fn want_of_memory_is_told(rt: HostRuntime) -> Result<(), Fail> {
    let alloc = rt.alloc();
    let Ok(disc) = Disc::type1(alloc) else {
        return Ok(());
    };
    let Ok(table) = disc.known_at(alloc, &[256, 32, 33, 34, 272, 273, 274, 275, 277]) else {
        return Ok(());
    };
    let Some((space, root)) = rooted(alloc, &table) else {
        return Ok(());
    };
    let nodes = match nodes(alloc, &table, &space, root) {
        Ok(nodes) => nodes,
        Err(error) => {
            assert_same(&rt, error, NodesError::OutOfMemory);
            return Ok(());
        }
    };
    assert_same(&rt, nodes.len(), 3);
    if let Ok(blocks) = reread(alloc, &nodes) {
        assert_same(&rt, blocks.as_slice(), [276, 278, 279].as_slice());
    }
    if let Ok(entries) = unnamed(alloc, &table, &space, &nodes) {
        assert_same(&rt, entries.len(), 0);
    }
    let view = View {
        table: &table,
        space: &space,
    };
    if let Ok(entries) = bare_unnamed(alloc, view, &nodes) {
        assert_same(&rt, entries.len(), 0);
    }
    Ok(())
}
