//! Bodies.

use crate::tests::rows::{Asked, OfBody, Row, check, check_disputed};
use crate::tests::starts::Start;
use std::test::Fail;

/// The file at logical block 3 of the samples.
const CELLS: Asked = Asked::Body(OfBody::Cells, 0, 3);

const STRETCHES: Asked = Asked::Body(OfBody::Stretches, 0, 3);

const PORTIONS: Asked = Asked::Body(OfBody::Portions, 0, 3);

/// The blocks that are not known, and the cells of the file then.
static WHOLE: [Row; 1] = [(&[], &[], "cells 61*2048 62*2048 63*904")];

static TORN: [Row; 2] = [
    (&[], &[278], "cells 61*2048 ?278*2048 63*904"),
    (&[], &[277, 279], "cells ?277*2048 62*2048 ?279*904"),
];

#[test]
fn bytes_of_files(rt: HostRuntime) -> Result<(), Fail> {
    check(&rt, rt.alloc(), Start::Type1, CELLS, &WHOLE)?;
    check(&rt, rt.alloc(), Start::TwoMaps, CELLS, &WHOLE)?;
    check(&rt, rt.alloc(), Start::Sparable, CELLS, &WHOLE)?;
    check(&rt, rt.alloc(), Start::Type1, CELLS, &TORN)?;
    let disputed: Row = (&[], &[], "cells 61*2048 ?278*2048 63*904");
    check_disputed(&rt, rt.alloc(), Start::Type1, CELLS, 278, disputed)
}

/// Two bytes that are embedded in an entry; one of them where the information length is 3.
static EMBEDDED_CELLS: [Row; 1] = [(&[], &[], "cells 48*1 69*1")];

static EMBEDDED_STRETCHES: [Row; 2] = [
    (&[], &[], "body recorded 0:4+176 2"),
    (&[(276, 56, &[3])], &[], "fault 7 Short"),
];

#[test]
fn embedded_bytes(rt: HostRuntime) -> Result<(), Fail> {
    let cells = Asked::Body(OfBody::Cells, 0, 4);
    check(&rt, rt.alloc(), Start::Type1, cells, &EMBEDDED_CELLS)?;
    let cells = Asked::Body(OfBody::Cells, 1, 0);
    check(&rt, rt.alloc(), Start::TwoMaps, cells, &EMBEDDED_CELLS)?;
    let stretches = Asked::Body(OfBody::Stretches, 0, 4);
    check(
        &rt,
        rt.alloc(),
        Start::Type1,
        stretches,
        &EMBEDDED_STRETCHES,
    )
}

/// Blocks that follow one another are one run.
static RUNS: [Row; 5] = [
    (&[], &[], "portions bytes 2048 bytes 2048 bytes 904"),
    (
        &[],
        &[278],
        "portions bytes 2048 missing 278 to 278 2048 bytes 904",
    ),
    (
        &[],
        &[278, 279],
        "portions bytes 2048 missing 278 to 279 2952",
    ),
    (&[], &[277, 278, 279], "portions missing 277 to 279 5000"),
    // an extent of 4096 bytes that is allocated and not recorded
    (
        &[
            (275, 56, &[0, 0x10]),
            (275, 176, &[0, 0x10, 0, 0x40, 0, 0, 0, 0]),
        ],
        &[],
        "portions zeros 4096",
    ),
];

static RUNS_OF_A_CONTINUED_BODY: [Row; 1] = [(
    &[],
    &[278],
    "portions bytes 2048 missing 278 to 278 2048",
)];

#[test]
fn portions(rt: HostRuntime) -> Result<(), Fail> {
    check(&rt, rt.alloc(), Start::Type1, PORTIONS, &RUNS)?;
    check(
        &rt,
        rt.alloc(),
        Start::Continued,
        PORTIONS,
        &RUNS_OF_A_CONTINUED_BODY,
    )
}

/// The continued file: changes, the blocks that are not known, and the cells or the fault then.
static CONTINUED: [Row; 8] = [
    (&[], &[], "cells 61*2048 63*2048"),
    (&[], &[278], "cells 61*2048 ?278*2048"),
    (&[(278, 20, &[9])], &[], "fault 8 Chain"),
    (&[(278, 20, &[0xe8, 7])], &[], "cells 61*2048 63*2048"),
    (&[(278, 20, &[0xf0, 7])], &[], "fault 8 Chain"),
    (&[(275, 184, &[1, 8])], &[], "fault 8 Chain"),
    (&[(275, 188, &[0x2c, 1])], &[], "fault 6 Range"),
    (&[(278, 24, &[0, 0, 0, 0])], &[], "fault 7 Short"),
];

/// The same, and the stretches then. A continuation that continues in itself, and one whose block has another tag.
static CONTINUED_STRETCHES: [Row; 3] = [
    (&[], &[278], "body recorded 0:5+0 2048 missing 278 2048"),
    (
        &[(278, 24, &[0, 8, 0, 0xc0, 6, 0, 0, 0])],
        &[],
        "fault 8 Chain",
    ),
    (
        &[(278, 24, &[0, 8, 0, 0xc0, 6, 0, 0, 0]), (278, 0, &[3])],
        &[],
        "fault 8 Chain",
    ),
];

#[test]
fn continuations(rt: HostRuntime) -> Result<(), Fail> {
    check(&rt, rt.alloc(), Start::Continued, CELLS, &CONTINUED)?;
    check(
        &rt,
        rt.alloc(),
        Start::Continued,
        STRETCHES,
        &CONTINUED_STRETCHES,
    )
}

/// Changes, the blocks that are not known, and the stretches then.
static STRETCHES_TOLD: [Row; 14] = [
    (&[], &[], "body recorded 0:5+0 5000"),

    // A file of length 0 whose only descriptor continues in the unread block.
    (
        &[(275, 56, &[0, 0]), (275, 176, &[0, 8, 0, 0xc0, 6])],
        &[278],
        "body",
    ),

    // The block after the information length is not needed.
    (
        &[(275, 56, &[0, 8]), (275, 176, &[0, 0x10, 0, 0, 5])],
        &[278],
        "body recorded 0:5+0 2048",
    ),
    (
        &[
            (275, 56, &[0, 0x10]),
            (275, 176, &[0, 0x10, 0, 0x40, 0, 0, 0, 0]),
        ],
        &[278],
        "body zeros 4096",
    ),
    (
        &[
            (275, 56, &[0xff; 8]),
            (275, 176, &[0, 8, 0, 0xc0, 6, 0, 0, 0]),
        ],
        &[278],
        "body missing 278 18446744073709551615",
    ),
    (
        &[(275, 56, &[0, 0x10]), (275, 176, &[0, 0x10, 0, 0, 0x2b, 1])],
        &[],
        "fault 6 Range",
    ),
    (
        &[(275, 56, &[0, 0x10]), (275, 176, &[0, 0x10, 0, 0, 0x2a, 1])],
        &[],
        "body recorded 0:298+0 4096",
    ),
    (
        &[
            (275, 56, &[0xc8, 0]),
            (
                275,
                172,
                &[0x10, 0, 0, 0, 0x64, 0, 0, 0, 5, 0, 0, 0, 0x64, 0, 0, 0, 6],
            ),
        ],
        &[],
        "fault 9 Odd",
    ),
    (
        &[(275, 56, &[0xff; 8]), (275, 176, &[0, 0x10, 0, 0])],
        &[],
        "fault 7 Short",
    ),
    (
        &[(275, 56, &[0xff; 8]), (275, 176, &[0x88])],
        &[],
        "fault 9 Odd",
    ),
    (
        &[(275, 56, &[0x88]), (275, 176, &[0, 0, 0, 0])],
        &[],
        "fault 7 Short",
    ),
    (
        &[(275, 56, &[0x88]), (275, 172, &[0])],
        &[],
        "fault 7 Short",
    ),

    // A long descriptor of another partition, and one that is not recorded, whose reference decides nothing.
    (
        &[
            (275, 34, &[1]),
            (275, 172, &[0x10, 0, 0, 0, 0x88, 0x13, 0, 0, 5, 0, 0, 0, 1]),
        ],
        &[],
        "fault 5 Reference",
    ),
    (
        &[
            (275, 34, &[1]),
            (
                275,
                172,
                &[0x10, 0, 0, 0, 0x88, 0x13, 0, 0x40, 5, 0, 0, 0, 1],
            ),
        ],
        &[],
        "body zeros 5000",
    ),
];

#[test]
fn stretches(rt: HostRuntime) -> Result<(), Fail> {
    check(&rt, rt.alloc(), Start::Type1, STRETCHES, &STRETCHES_TOLD)
}
