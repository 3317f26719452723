//! A volume with one sparable map, and its changes.

use crate::tests::rows::{Asked, Row, check, check_at};
use crate::tests::starts::Start;
use std::test::Fail;
use udfs_volume::Profile;

/// Changes, the blocks that are not known, and what the layout then says.
static CHANGES: [Row; 18] = [
    (
        &[(32, 480, &[0x20])],
        &[],
        "ok revision 1.50 map sparable 32",
    ),
    (
        &[(32, 480, &[0x10])],
        &[],
        "ok revision 1.50 map sparable 16",
    ),
    (&[(32, 480, &[8])], &[], "fault 8 MapKind"),
    (&[(32, 441, &[63])], &[], "fault 8 MapKind"),
    (&[(32, 445, b"+")], &[], "fault 8 MapKind"),
    (&[(32, 264, &[0x3f])], &[], "fault 8 MapKind"),
    (&[(32, 482, &[0])], &[], "fault 8 MapKind"),
    (&[(32, 482, &[4])], &[], "ok revision 1.50 map sparable 32"),
    (&[(32, 482, &[5])], &[], "fault 8 MapKind"),
    (
        &[(32, 484, &[56, 0, 0])],
        &[],
        "ok revision 1.50 map sparable 32",
    ),
    (&[(32, 484, &[55, 0, 0])], &[], "fault 8 MapKind"),
    (
        &[(32, 484, &[0, 0, 1])],
        &[],
        "ok revision 1.50 map sparable 32",
    ),
    (&[(32, 484, &[1, 0, 1])], &[], "fault 8 MapKind"),
    (
        &[(32, 488, &[0x58, 2])],
        &[],
        "ok revision 1.50 map sparable 32",
    ),
    (&[(32, 488, &[0x59, 2])], &[], "fault 8 MapKind"),
    (&[(32, 492, &[0x59, 2])], &[], "fault 8 MapKind"),
    (&[(32, 478, &[5])], &[], "fault 9 NoPartition"),
    // the layout needs no sparing table
    (&[], &[100, 200], "ok revision 1.50 map sparable 32"),
];

/// One map, of packets of 32 blocks and tables of 2048 bytes at two places.
static PARTS: [Row; 1] = [(
    &[],
    &[256, 32, 33, 34],
    "600 0150 0 2048 0:0, 272+300 sparable 32 2048 [100, 200]",
)];

#[test]
fn layouts(rt: HostRuntime) -> Result<(), Fail> {
    check(&rt, rt.alloc(), Start::Sparable, Asked::Layout, &CHANGES)?;
    check_at(
        &rt,
        rt.alloc(),
        Profile::Strict,
        Start::Sparable,
        Asked::Parts,
        &PARTS,
    )
}
