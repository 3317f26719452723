//! A volume with two maps, and its changes.

use crate::tests::rows::{Asked, Row, check, check_at};
use crate::tests::starts::Start;
use std::test::Fail;
use udfs_volume::Profile;

/// With all blocks known: changes, and what the layout then says.
static CHANGES: [Row; 14] = [
    (
        &[(32, 268, &[2])],
        &[],
        "ok revision 1.50 map type1 sparable 32",
    ),
    (&[(32, 268, &[1])], &[], "ok revision 1.50 map type1"),
    (&[(32, 268, &[3])], &[], "fault 7 MapCount"),
    (&[(32, 264, &[0x45])], &[], "fault 8 MapKind"),
    (&[(32, 446, &[1, 6, 1, 0, 0, 0])], &[], "fault 8 MapKind"),
    (&[(32, 486, &[8])], &[], "fault 8 MapKind"),
    (&[(32, 444, &[5])], &[], "fault 9 NoPartition"),
    (&[(32, 484, &[5])], &[], "fault 9 NoPartition"),
    (&[(34, 30, b"4")], &[], "fault 10 Contents"),
    (
        &[(34, 192, &[0xc9])],
        &[],
        "ok revision 1.50 map type1 sparable 32",
    ),
    (&[(34, 192, &[0xca])], &[], "fault 11 PartitionRange"),
    (&[(33, 192, &[0])], &[], "fault 11 PartitionRange"),
    // two of one kind
    (
        &[(32, 264, &[12]), (32, 446, &[1, 6, 1, 0, 1, 0])],
        &[],
        "fault 8 MapKind",
    ),
    // a fault of any partition counts before one with a greater number of another
    (&[(33, 192, &[0]), (34, 30, b"4")], &[], "fault 10 Contents"),
];

/// The last block, the revision, the file set, and the partitions in the order of their maps.
static PARTS: [Row; 1] = [(
    &[],
    &[256, 32, 33, 34, 35],
    "600 0150 0 2048 0:0, 272+100 type1, 400+100 sparable 32 2048 [100, 200]",
)];

static PARTS_IN_THE_OTHER_ORDER: [Row; 1] = [(
    &[],
    &[256, 32, 33, 34, 35],
    "600 0150 0 2048 0:0, 400+100 sparable 32 2048 [100, 200], 272+100 type1",
)];

/// Two sparable maps; and one before the map of type 1.
static BOTH_SPARABLE: [Row; 1] = [(&[(32, 264, &[0x80])], &[], "fault 8 MapKind")];

static SPARABLE_FIRST: [Row; 1] = [(&[], &[], "ok revision 1.50 map sparable 32 type1")];

#[test]
fn layouts(rt: HostRuntime) -> Result<(), Fail> {
    check(&rt, rt.alloc(), Start::TwoMaps, Asked::Layout, &CHANGES)?;
    check(
        &rt,
        rt.alloc(),
        Start::TwoSparable,
        Asked::Layout,
        &BOTH_SPARABLE,
    )?;
    check(
        &rt,
        rt.alloc(),
        Start::SparableFirst,
        Asked::Layout,
        &SPARABLE_FIRST,
    )?;
    check_at(
        &rt,
        rt.alloc(),
        Profile::Strict,
        Start::TwoMaps,
        Asked::Parts,
        &PARTS,
    )?;
    check_at(
        &rt,
        rt.alloc(),
        Profile::Strict,
        Start::SparableFirst,
        Asked::Parts,
        &PARTS_IN_THE_OTHER_ORDER,
    )
}
