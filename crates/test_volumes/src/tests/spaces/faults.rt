//! A volume with one sparable map: what its sparing table says, and its changes.

use crate::tests::rows::{Asked, Row, check, check_disputed};
use crate::tests::starts::Start;
use std::test::Fail;

/// Changes, the blocks that are not known, and what the space then says.
static CHANGES: [Row; 29] = [
    (&[(100, 48, &[1])], &[], "ok 400"),
    (&[(100, 60, &[0x3a, 2])], &[], "fault 15 MappedRange"),
    (&[(100, 60, &[0x39, 2])], &[], "ok 569"),
    (&[(100, 56, &[0x21])], &[], "fault 13 SparingShape"),
    (&[(100, 56, &[0x20])], &[], "ok 272"),
    (&[(100, 48, &[0xfa])], &[], "fault 13 SparingShape"),
    (&[(100, 48, &[0xf9])], &[], "fault 14 SparingOrder"),
    (&[(100, 48, &[0])], &[], "ok 272"),
    (&[(100, 17, b"+")], &[], "fault 12 SparingTag"),
    (&[(100, 35, b"+")], &[], "fault 12 SparingTag"),
    (&[(100, 4, &[0x67])], &[], "fault 12 SparingTag"),
    (&[(100, 12, &[0xc8])], &[], "fault 12 SparingTag"),
    (&[(100, 56, &[0xf0, 0xff, 0xff, 0xff])], &[], "ok 272"),
    (
        &[(100, 56, &[0xf1, 0xff, 0xff, 0xff])],
        &[],
        "fault 13 SparingShape",
    ),
    (
        &[(100, 56, &[0xfe, 0xff, 0xff, 0xff])],
        &[],
        "fault 13 SparingShape",
    ),
    (&[(100, 56, &[0xff, 0xff, 0xff, 0xff])], &[], "ok 272"),
    (&[(100, 56, &[0xe0, 0xff, 0xff, 0xff])], &[], "ok 272"),
    (
        &[(100, 56, &[0xf0, 0xff, 0xff, 0xff, 0xff, 0xff])],
        &[],
        "ok 272",
    ),
    // a table without its name has no identifier that is that of a sparing table
    (&[(100, 16, &[0; 32])], &[], "fault 12 SparingTag"),
    // the tag's identifier is 0, and its place that of the copy from which the first block comes
    (
        &[(100, 0, &[0, 0, 2, 0, 0x66, 0, 0, 0, 0, 0, 0, 0, 0x64])],
        &[],
        "ok 400",
    ),
    (
        &[(100, 0, &[1, 0, 2, 0, 0x67, 0, 0, 0, 0, 0, 0, 0, 0x64])],
        &[],
        "fault 12 SparingTag",
    ),
    (
        &[(100, 0, &[0, 0, 2, 0, 0xca, 0, 0, 0, 0, 0, 0, 0, 0xc8])],
        &[],
        "fault 12 SparingTag",
    ),
    // of several faults the one with the least number is reported
    (
        &[(100, 48, &[2]), (100, 56, &[0x20]), (100, 60, &[0x3a, 2])],
        &[],
        "fault 14 SparingOrder",
    ),
    (
        &[
            (100, 48, &[2]),
            (100, 56, &[0x20]),
            (100, 60, &[0x3a, 2]),
            (100, 64, &[1]),
        ],
        &[],
        "fault 13 SparingShape",
    ),
    (
        &[
            (100, 48, &[2]),
            (100, 56, &[0x20]),
            (100, 60, &[0x3a, 2]),
            (100, 64, &[1]),
            (100, 17, b"+"),
        ],
        &[],
        "fault 12 SparingTag",
    ),
    // copies that are not known
    (&[], &[100, 200], "holes 100 200"),
    (&[], &[100], "ok 400"),
    // copies that differ: the first known one is read
    (&[(200, 60, &[0xb0])], &[], "ok 400"),
    (&[(200, 60, &[0xb0])], &[100], "ok 432"),
];

/// Two entries: what their originals and the second block say.
static TWO_ENTRIES: [Row; 10] = [
    (
        &[
            (100, 48, &[2]),
            (100, 56, &[0, 0, 0, 0]),
            (100, 64, &[0x20, 0, 0, 0]),
            (100, 68, &[0xb0, 1]),
        ],
        &[],
        "ok 400",
    ),
    (
        &[
            (100, 48, &[2]),
            (100, 56, &[0x20, 0, 0, 0]),
            (100, 64, &[0, 0, 0, 0]),
            (100, 68, &[0xb0, 1]),
        ],
        &[],
        "fault 14 SparingOrder",
    ),
    (
        &[
            (100, 48, &[2]),
            (100, 56, &[0x20, 0, 0, 0]),
            (100, 64, &[0x20, 0, 0, 0]),
            (100, 68, &[0xb0, 1]),
        ],
        &[],
        "fault 14 SparingOrder",
    ),
    (
        &[
            (100, 48, &[2]),
            (100, 56, &[0, 0, 0, 0]),
            (100, 64, &[0x21, 0, 0, 0]),
            (100, 68, &[0xb0, 1]),
        ],
        &[],
        "fault 13 SparingShape",
    ),
    (
        &[
            (100, 48, &[2]),
            (100, 56, &[0, 0, 0, 0]),
            (100, 64, &[0xf0, 0xff, 0xff, 0xff]),
            (100, 68, &[0xb0, 1]),
        ],
        &[],
        "ok 400",
    ),
    (
        &[
            (100, 48, &[2]),
            (100, 56, &[0xf0, 0xff, 0xff, 0xff]),
            (100, 64, &[0xf0, 0xff, 0xff, 0xff]),
            (100, 68, &[0xb0, 1]),
        ],
        &[],
        "ok 272",
    ),
    (
        &[
            (100, 48, &[2]),
            (100, 56, &[0xf0, 0xff, 0xff, 0xff]),
            (100, 64, &[0xff, 0xff, 0xff, 0xff]),
            (100, 68, &[0xb0, 1]),
        ],
        &[],
        "ok 272",
    ),
    (
        &[
            (100, 48, &[2]),
            (100, 56, &[0xff, 0xff, 0xff, 0xff]),
            (100, 64, &[0xff, 0xff, 0xff, 0xff]),
            (100, 68, &[0xb0, 1]),
        ],
        &[],
        "ok 272",
    ),
    (
        &[
            (100, 48, &[2]),
            (100, 56, &[0xff, 0xff, 0xff, 0xff]),
            (100, 64, &[0xf0, 0xff, 0xff, 0xff]),
            (100, 68, &[0xb0, 1]),
        ],
        &[],
        "fault 14 SparingOrder",
    ),
    (
        &[
            (100, 48, &[2]),
            (100, 56, &[0xff, 0xff, 0xff, 0xff]),
            (100, 64, &[0, 0, 0, 0]),
            (100, 68, &[0xb0, 1]),
        ],
        &[],
        "fault 14 SparingOrder",
    ),
];

#[test]
fn sparing_tables(rt: HostRuntime) -> Result<(), Fail> {
    check(&rt, rt.alloc(), Start::Sparable, Asked::Space, &CHANGES)?;
    check(&rt, rt.alloc(), Start::Sparable, Asked::Space, &TWO_ENTRIES)?;
    // The first copy was read twice, with different bytes.
    let second: Row = (&[(200, 60, &[0xb0])], &[], "ok 432");
    check_disputed(&rt, rt.alloc(), Start::Sparable, Asked::Space, 100, second)
}
