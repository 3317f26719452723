//! Whether the structures of sample volumes are lawful. What is expected comes from the formats' description, byte by byte.

use super::rows::{Asked, Row, check, check_alike, check_at};
use super::starts::Start;
use std::alloc::Global;
use std::test::Fail;
use udfs_lattice::BlockTable;
use udfs_lawfulness::structures_of;
use udfs_samples::LAST;
use udfs_volume::Profile;

/// What is found, as text.
pub fn structures(alloc: Global, table: &BlockTable, profile: Profile) -> Result<String, Fail> {
    let found = structures_of(alloc, table, LAST, profile)?;
    Ok(format!(in alloc; "{found:?}")?)
}

/// Changes of the volume with one map of type 1, the blocks that are not known, and what is found.
static TYPE1: [Row; 19] = [
    (&[], &[], "Sound"),

    // no block of a file, and none behind the end of the sequence
    (&[], &[272, 273, 277, 35, 51, 47, 63], "Sound"),
    (&[], &[256], "Open([256])"),
    (&[], &[344], "Open([344])"),
    (&[], &[600], "Open([600])"),
    (&[], &[600, 344, 256], "Open([256, 344, 600])"),
    (&[], &[32], "Open([32])"),
    (&[], &[50], "Open([50])"),

    // what follows a position of which no copy is known is not asked for yet
    (&[], &[33, 34, 49], "Open([33, 49])"),
    (&[], &[33, 34], "Open([33, 34])"),
    (
        &[(600, 16, &[0, 0x78])],
        &[33],
        "Unsound(Anchors { one: 256, other: 600 })",
    ),

    // the tag is not right, so this is no anchor
    (&[(600, 12, &[0x57])], &[], "Sound"),
    (
        &[(48, 85, b"B")],
        &[344, 34],
        "Unsound(Descriptors { main: 32, reserve: 48 })",
    ),
    (&[(48, 85, b"B")], &[32], "Open([32])"),
    (
        &[(34, 0, &[0])],
        &[],
        "Unsound(Descriptors { main: 34, reserve: 50 })",
    ),

    // a terminating descriptor has no bytes that are read
    (&[(50, 600, &[1])], &[], "Sound"),

    // the block size is 1024
    (
        &[(32, 213, &[4]), (48, 213, &[4])],
        &[344],
        "Unsound(Fault(BlockSize))",
    ),

    // neither extent has a block
    (
        &[
            (256, 17, &[0]),
            (256, 25, &[0]),
            (600, 17, &[0]),
            (600, 25, &[0]),
        ],
        &[],
        "Unsound(Fault(Extents))",
    ),

    // no anchor
    (
        &[(256, 0, &[3]), (600, 0, &[3])],
        &[],
        "Unsound(Fault(NoAnchor))",
    ),
];

/// The same of the volume with one sparable map, whose table has the copies 100 and 200.
static SPARABLE: [Row; 10] = [
    (&[], &[], "Sound"),
    (&[], &[400, 272], "Sound"),
    (&[], &[100], "Open([100])"),
    (&[], &[200, 48], "Open([48, 200])"),

    // the sequence numbers differ
    (
        &[(200, 52, &[1])],
        &[344],
        "Unsound(Tables { one: 100, other: 200 })",
    ),
    (&[(200, 52, &[1])], &[100], "Open([100])"),

    // the last byte of the table
    (
        &[(100, 2047, &[1])],
        &[],
        "Unsound(Tables { one: 100, other: 200 })",
    ),

    // the tag of one copy is not right
    (&[(200, 0, &[1])], &[], "Unsound(NoTable(200))"),
    (&[(200, 0, &[1])], &[100], "Unsound(NoTable(200))"),

    // the packet is mapped past the last block
    (
        &[(100, 62, &[1]), (200, 62, &[1])],
        &[],
        "Unsound(Fault(MappedRange))",
    ),
];

/// Of two maps, one is sparable.
static TWO_MAPS: [Row; 2] = [(&[], &[], "Sound"), (&[], &[200], "Open([200])")];

/// Of a disc of which nothing is known, the places of the anchors are asked for.
static NOTHING_KNOWN: [Row; 1] = [(&[], &[], "Open([256, 344, 600])")];

#[test]
fn structures_are_lawful(rt: HostRuntime) -> Result<(), Fail> {
    let asked = Asked::Structures;
    check_alike(&rt, rt.alloc(), Start::Type1, asked, &TYPE1)?;
    check_alike(&rt, rt.alloc(), Start::Sparable, asked, &SPARABLE)?;
    check(&rt, rt.alloc(), Start::TwoMaps, asked, &TWO_MAPS)?;
    check_at(
        &rt,
        rt.alloc(),
        Profile::Wide,
        Start::Type1,
        asked,
        &NOTHING_KNOWN,
    )
}
