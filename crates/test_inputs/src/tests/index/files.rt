//! A file of the machine as an input.

use crate::tests::assert_same;
use std::fs;
use std::test::Fail;
use udfs_index::{Stored, StoredFile};

#[test]
fn a_file_of_the_machine_is_read_at_positions(rt: HostRuntime) -> Result<(), Fail> {
    // The file that is run.
    let Ok(file) = fs::open(&rt, "/proc/self/exe") else {
        return Ok(());
    };
    let stored = StoredFile::new(file);
    let mut letters = [0; 3];
    for _ in 0..2 {
        letters = [0; 3];
        assert_same(&rt, stored.read_at(1, &mut letters), Ok(3));
        assert_same(&rt, letters, *b"ELF");
    }
    let size = stored.size().unwrap_or(0);
    assert!(rt; size > 4);
    assert_same(&rt, stored.read_at(size, &mut letters), Ok(0));
    assert_same(
        &rt,
        stored.read_at(size.saturating_sub(1), &mut letters),
        Ok(1),
    );
    Ok(())
}
