//! The bytes of entries that no name leads to. Without block 274, the root's, those at the logical blocks 3 and 4 have none.

use super::extraction::{A, Full, Outcome, runs};
use crate::tests::{assert_case, assert_same, assert_same_in};
use std::alloc::Global;
use std::test::Fail;
use udfs_lattice::BlockTable;
use udfs_reading::Writer;
use udfs_salvage::{ExtractError, extract_unnamed_by, has_two_partitions, is_lost_file, salvage};
use udfs_samples::{Bytes, Disc, LAST};

/// Extracts the entry at this index into a sink that takes `good` bytes.
fn extracted(
    alloc: Global,
    table: &BlockTable,
    index: usize,
    good: usize,
) -> Result<Outcome, Fail> {
    let report = salvage(alloc, table, LAST)?;
    let bytes = Vec::new(alloc);
    let mut sink = Writer::new(Full { bytes, good });
    let outcome = if index < report.unnamed.len() {
        extract_unnamed_by(alloc, &report, index, &mut sink)
    } else {
        Err(ExtractError::NotWhole)
    };
    let bytes = sink.into_inner().bytes;
    Ok(Outcome { outcome, bytes })
}

/// The volume of type 1 with these changes, in which these blocks are not known.
fn changed(alloc: Global, changes: &[Bytes], unread: &[u32]) -> Result<BlockTable, Fail> {
    let mut disc = Disc::type1(alloc)?;
    disc.write(changes)?;
    Ok(disc.known_but(alloc, unread)?)
}

#[test]
fn lost_files_are_written(rt: HostRuntime) -> Result<(), Fail> {
    let alloc = rt.alloc();
    let table = changed(alloc, &[], &[274])?;
    let file = extracted(alloc, &table, 0, usize::MAX)?;
    assert!(rt; file.outcome == Ok(()));
    assert_same(&rt, file.bytes.as_slice(), runs(alloc, &A)?.as_slice());
    let embedded = extracted(alloc, &table, 1, usize::MAX)?;
    assert!(rt; embedded.outcome == Ok(()));
    assert_same(&rt, embedded.bytes.as_slice(), b"Hi".as_slice());
    Ok(())
}

/// A torn file, a link in the place of a file, and an empty file.
#[test]
fn no_other_is_written(rt: HostRuntime) -> Result<(), Fail> {
    static CASES: [(&[Bytes], &[u32], usize); 3] = [
        (&[], &[274, 278], 0),
        (&[(276, 27, &[12])], &[274], 1),
        (&[(276, 56, &[0]), (276, 172, &[0])], &[274], 1),
    ];
    let alloc = rt.alloc();
    for &(changes, unread, index) in &CASES {
        let table = changed(alloc, changes, unread)?;
        let entry = extracted(alloc, &table, index, usize::MAX)?;
        assert!(rt; entry.outcome == Err(ExtractError::NotWhole), "{changes:?}");
        assert!(rt; entry.bytes.is_empty());
        let report = salvage(alloc, &table, LAST)?;
        assert_eq!(rt; report.unnamed.len(), 2);
        for (at, entry) in report.unnamed.iter().enumerate() {
            assert!(rt; is_lost_file(entry) == (at != index), "{changes:?}");
        }
    }
    Ok(())
}

#[test]
fn a_sink_that_fails_holds_a_beginning(rt: HostRuntime) -> Result<(), Fail> {
    let alloc = rt.alloc();
    let table = changed(alloc, &[], &[274])?;
    let whole = runs(alloc, &A)?;
    for good in [0, 2048, 4999, 5000] {
        let file = extracted(alloc, &table, 0, good)?;
        let expected = if good == 5000 {
            Ok(())
        } else {
            Err(ExtractError::Write)
        };
        assert_case(&rt, file.outcome == expected, good);
        let begun = whole.as_slice().get(..good).unwrap_or(&[]);
        assert_same_in(&rt, file.bytes.as_slice(), begun, good);
    }
    Ok(())
}

#[test]
fn volumes_with_two_partitions(rt: HostRuntime) -> Result<(), Fail> {
    let alloc = rt.alloc();
    for (disc, has_two) in [
        (Disc::type1(alloc)?, false),
        (Disc::sparable(alloc)?, false),
        (Disc::two_maps(alloc)?, true),
    ] {
        let table = disc.known_but(alloc, &[])?;
        let report = salvage(alloc, &table, LAST)?;
        assert_same(&rt, has_two_partitions(&report.volume), has_two);
    }
    let closed = changed(alloc, &[], &[33, 49])?;
    assert!(rt; !has_two_partitions(&salvage(alloc, &closed, LAST)?.volume));
    Ok(())
}
