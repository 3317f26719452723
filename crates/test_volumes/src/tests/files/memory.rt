//! Out of memory: `rt try --test --fail-alloc N` fails the allocation with this number in each test.

use super::told::laid_out;
use crate::tests::assert_same;
use std::test::Fail;
use udfs_file::bodies::Body;
use udfs_file::directories::Dir;
use udfs_file::entries::Entry;
use udfs_file::faults::WalkError;
use udfs_lattice::Fact;
use udfs_samples::Disc;
use udfs_volume::Profile;

/// Where one allocation fails, the result is that with ample memory, or out of memory.
#[test]
fn want_of_memory_is_told(rt: HostRuntime) -> Result<(), Fail> {
    let alloc = rt.alloc();
    let Ok(disc) = Disc::type1(alloc) else {
        return Ok(());
    };
    let Ok(table) = disc.known_at(alloc, &[256, 32, 33, 34, 273, 274]) else {
        return Ok(());
    };
    let Some((space, _)) = laid_out(alloc, &table, Profile::Strict) else {
        return Ok(());
    };
    let Some((_, Fact::Known(bytes))) = space.block_at(&table, 0, 1) else {
        return Ok(());
    };
    let Ok(entry) = Entry::read(bytes, 1) else {
        assert!(rt; false);
        return Ok(());
    };
    let body = match Body::read(alloc, &table, &space, &entry, 0, 1) {
        Ok(body) => body,
        Err(error) => {
            assert_same(&rt, error, WalkError::OutOfMemory);
            return Ok(());
        }
    };
    if let Ok(front) = Dir::front(alloc, &table, &space, &body) {
        assert_same(&rt, front.entries.len(), 2);
        assert_same(&rt, front.missing, None);
        assert_same(&rt, front.fault, None);
    }
    Ok(())
}
