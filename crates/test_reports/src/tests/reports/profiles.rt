//! Reports by the wide rules, of a volume of another revision and of nothing.

use crate::tests::assert_same;
use std::alloc::Global;
use std::test::Fail;
use udfs_lattice::BlockTable;
use udfs_reading::{Reader, Writer};
use udfs_salvage::{Fill, extract_by, report_run_by, salvage_by};
use udfs_samples::{Disc, LAST};
use udfs_volume::Profile;

/// All blocks of the sample volume with one map of type 1, whose logical volume descriptors have these bytes for their revision.
fn of_revision(alloc: Global, bytes: &'static [u8]) -> Result<BlockTable, Fail> {
    let mut disc = Disc::type1(alloc)?;
    disc.write(&[(32, 240, bytes), (48, 240, bytes)])?;
    Ok(disc.known_but(alloc, &[])?)
}

/// What a report says beside its text.
#[test]
fn a_wide_report(rt: HostRuntime) -> Result<(), Fail> {
    let alloc = rt.alloc();
    let table = of_revision(alloc, &[0, 2])?;
    let wide = salvage_by(alloc, &table, LAST, Profile::Wide)?;
    assert!(rt; wide.profile == Profile::Wide);
    assert_same(&rt, wide.last, LAST);
    assert_eq!(rt; wide.nodes.len(), 3);
    assert!(rt; wide.reread.is_empty());
    let mut bytes = Writer::new(Vec::new(alloc));
    extract_by(alloc, &wide, 1, Fill::Refuse, &mut bytes)?;
    assert_eq!(rt; bytes.into_inner().len(), 5000);
    Ok(())
}

/// What is read as an empty reading.
const EMPTY: &[u8] = b"UDFREAD1\x00\x08\x00\x00\x00\x00\x00\x00";

/// The wide report of nothing.
const NOTHING: &[u8] =
    b"UDFREPORT1 last 600\nprofile wide\nknown 0 conflict 0\nvolume holes 256 344 600\nreread 256 unknown\nreread 344 unknown\nreread 600 unknown\nend\n";

#[test]
fn a_wide_report_of_readings(rt: HostRuntime) -> Result<(), Fail> {
    let alloc = rt.alloc();
    let mut inputs = [Reader::new(EMPTY)];
    let mut text = Writer::new(Vec::new(alloc));
    let whole = report_run_by(alloc, &mut inputs, LAST, Profile::Wide, &mut text)?;
    assert!(rt; !whole);
    assert_same(&rt, text.into_inner().as_slice(), NOTHING);
    Ok(())
}
