//! A volume with one map of type 1, and its changes.

use crate::tests::rows::{Asked, Row, check, check_at, check_disputed};
use crate::tests::starts::Start;
use std::test::Fail;
use udfs_samples::Bytes;
use udfs_volume::Profile;

/// Changes, the blocks that are not known, and what the layout then says.
static CHANGES: [Row; 26] = [
    (&[(32, 240, &[0x50, 1])], &[], "ok revision 1.50 map type1"),
    (&[(32, 240, &[1, 2])], &[], "ok revision 2.01 map type1"),
    (&[(32, 240, &[2, 1])], &[], "fault 5 Domain"),
    (&[(32, 217, b"+")], &[], "fault 5 Domain"),
    (&[(32, 213, &[2])], &[], "fault 6 BlockSize"),
    (&[(32, 268, &[0])], &[], "fault 7 MapCount"),
    (&[(32, 268, &[3])], &[], "fault 7 MapCount"),
    (&[(32, 268, &[2])], &[], "fault 8 MapKind"),
    (&[(32, 264, &[5])], &[], "fault 8 MapKind"),
    (&[(32, 444, &[5])], &[], "fault 9 NoPartition"),
    (&[(33, 30, b"3")], &[], "ok revision 1.50 map type1"),
    (&[(33, 30, b"4")], &[], "fault 10 Contents"),
    (&[(33, 192, &[0x49, 1])], &[], "ok revision 1.50 map type1"),
    (&[(33, 192, &[0x4a, 1])], &[], "fault 11 PartitionRange"),
    (&[(33, 192, &[0, 0])], &[], "fault 11 PartitionRange"),
    (&[(256, 16, &[0, 0x78, 0, 0])], &[], "fault 2 Extents"),
    (&[(256, 20, &[0x4a, 2])], &[], "fault 2 Extents"),
    (
        &[(34, 0, &[3, 0, 2, 0, 0x27, 0, 0, 0, 0, 0, 0, 0, 0x22])],
        &[],
        "fault 3 Pointer",
    ),
    (&[(32, 0, &[7])], &[], "fault 4 NoLogicalVolume"),
    (&[(34, 0, &[3])], &[], "ok revision 1.50 map type1"),
    (&[(256, 0, &[3])], &[], "ok revision 1.50 map type1"),
    // no anchor, or at most the one that is not known
    (
        &[(256, 0, &[3]), (600, 12, &[0x57])],
        &[],
        "fault 1 NoAnchor",
    ),
    (&[(256, 0, &[3]), (600, 12, &[0x57])], &[344], "holes 344"),
    (&[], &[33, 49], "holes 33 49"),
    (&[], &[34, 50], "holes 34 50"),
    (&[], &[256, 32, 33, 34], "ok revision 1.50 map type1"),
];

/// The blocks that are known alone.
static KNOWN: [Row; 5] = [
    (&[], &[], "holes 256 344 600"),
    (&[], &[344], "holes 256 600"),
    (&[], &[600], "holes 32 48"),
    (&[], &[256, 32, 34], "holes 33 49"),
    (&[], &[256, 32, 33, 34], "ok revision 1.50 map type1"),
];

/// Half of each copy is enough. The revision is hexadecimal, and the file set has 2048 bytes at the first logical block.
static HALF: [Row; 1] = [(
    &[],
    &[600, 32, 49, 50],
    "600 0150 0 2048 0:0, 272+300 type1",
)];

#[test]
fn layouts(rt: HostRuntime) -> Result<(), Fail> {
    check(&rt, rt.alloc(), Start::Type1, Asked::Layout, &CHANGES)?;
    check_at(
        &rt,
        rt.alloc(),
        Profile::Strict,
        Start::Type1,
        Asked::Layout,
        &KNOWN,
    )?;
    check_at(
        &rt,
        rt.alloc(),
        Profile::Strict,
        Start::Type1,
        Asked::Parts,
        &HALF,
    )?;
    // Where two readings disagree, a block is not known.
    let conflict: Row = (&[], &[49], "holes 33 49");
    check_disputed(&rt, rt.alloc(), Start::Type1, Asked::Layout, 33, conflict)
}

/// How many bytes of the label's field are used.
static LABELS: [Row; 3] = [
    (&[(32, 211, &[5])], &[], "name TEST"),
    (&[(32, 211, &[0])], &[], "empty"),
    (&[(32, 211, &[0x80])], &[], "invalid"),
];

#[test]
fn labels(rt: HostRuntime) -> Result<(), Fail> {
    check(&rt, rt.alloc(), Start::Type1, Asked::Label, &LABELS)
}

/// A partition descriptor with one block too many, in place of the terminating descriptor.
const THIRD: Bytes = (34, 188, &[0x10, 1, 0, 0, 0x4a, 1]);

/// The tag of a partition descriptor at 34 and at 35.
const TAG_34: Bytes = (34, 0, &[5, 0, 2, 0, 0x29, 0, 0, 0, 0, 0, 0, 0, 0x22]);

const TAG_35: Bytes = (35, 0, &[5, 0, 2, 0, 0x2a, 0, 0, 0, 0, 0, 0, 0, 0x23]);

/// Of the partition descriptors with a map's number the one with the greatest sequence number prevails, and
/// of equal ones the first. Only descriptors before the end count, and only those of positions that are known.
static PREVAILING: [Row; 6] = [
    (
        &[TAG_34, (34, 16, &[1]), (34, 25, b"+NSR02"), THIRD],
        &[],
        "ok revision 1.50 map type1",
    ),
    (
        &[TAG_34, (34, 16, &[2]), (34, 25, b"+NSR02"), THIRD],
        &[],
        "ok revision 1.50 map type1",
    ),
    (
        &[TAG_34, (34, 16, &[3]), (34, 25, b"+NSR02"), THIRD],
        &[],
        "fault 11 PartitionRange",
    ),
    (
        &[
            TAG_34,
            (34, 16, &[3]),
            (34, 22, &[1]),
            (34, 25, b"+NSR02"),
            THIRD,
        ],
        &[],
        "ok revision 1.50 map type1",
    ),
    // behind the end
    (&[TAG_35, (35, 16, &[9])], &[], "ok revision 1.50 map type1"),
    // behind a hole
    (
        &[TAG_35, (35, 16, &[9]), TAG_34, (34, 16, &[9])],
        &[33, 49],
        "holes 33 49",
    ),
];

#[test]
fn prevailing(rt: HostRuntime) -> Result<(), Fail> {
    check(&rt, rt.alloc(), Start::Type1, Asked::Layout, &PREVAILING)
}
