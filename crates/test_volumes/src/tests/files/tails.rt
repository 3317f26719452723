//! Bodies whose last extent ends inside a block that goes on: a file that grew there may still have the old length.

use crate::tests::rows::{Asked, OfBody, Row, RowOfBoth, check_both, check_by};
use crate::tests::starts::Start;
use std::test::Fail;
use udfs_samples::Bytes;
use udfs_volume::Profile;

/// The file at logical block 3, all known: its information length, the length of its descriptors and these, and what
/// is then said of it by the strict rules and by the wide ones.
static ROWS: [RowOfBoth; 19] = [
    // 5010 bytes, an extent of 5000: the third block goes on.
    (
        &[
            (275, 56, &[0x92, 0x13]),
            (275, 172, &[8, 0, 0, 0, 0x88, 0x13, 0, 0, 5]),
        ],
        &[],
        "fault 9 Odd",
        "body recorded 0:5+0 5010",
    ),

    // 4990 bytes, an extent of 4140.
    (
        &[
            (275, 56, &[0x7e, 0x13]),
            (275, 172, &[8, 0, 0, 0, 0x2c, 0x10, 0, 0, 5]),
        ],
        &[],
        "fault 9 Odd",
        "body recorded 0:5+0 4990",
    ),

    // The same with a second extent after it: the first is not the last.
    (
        &[
            (275, 56, &[0x7e, 0x13]),
            (
                275,
                172,
                &[
                    16, 0, 0, 0, 0x2c, 0x10, 0, 0, 5, 0, 0, 0, 0, 8, 0, 0, 8, 0, 0, 0,
                ],
            ),
        ],
        &[],
        "fault 9 Odd",
        "fault 9 Odd",
    ),

    // With a length of 0 after it.
    (
        &[
            (275, 56, &[0x7e, 0x13]),
            (
                275,
                172,
                &[
                    16, 0, 0, 0, 0x2c, 0x10, 0, 0, 5, 0, 0, 0, 0, 0, 0, 0, 8, 0, 0, 0,
                ],
            ),
        ],
        &[],
        "fault 9 Odd",
        "body recorded 0:5+0 4990",
    ),

    // What follows a length of 0 is ignored.
    (
        &[
            (275, 56, &[0x7e, 0x13]),
            (
                275,
                172,
                &[
                    24, 0, 0, 0, 0x2c, 0x10, 0, 0, 5, 0, 0, 0, 0, 0, 0, 0xc0, 8, 0, 0, 0, 0, 8, 0,
                    0, 8, 0, 0, 0,
                ],
            ),
        ],
        &[],
        "fault 9 Odd",
        "body recorded 0:5+0 4990",
    ),

    // A last extent that is allocated and not recorded, and one that is neither.
    (
        &[
            (275, 56, &[0x7e, 0x13]),
            (275, 172, &[8, 0, 0, 0, 0x2c, 0x10, 0, 0x40, 0]),
        ],
        &[],
        "fault 9 Odd",
        "body zeros 4990",
    ),
    (
        &[
            (275, 56, &[0x7e, 0x13]),
            (275, 172, &[8, 0, 0, 0, 0x2c, 0x10, 0, 0x80, 0]),
        ],
        &[],
        "fault 9 Odd",
        "body zeros 4990",
    ),

    // 9000 bytes: 5000 up to the end of their last block are 6144.
    (
        &[
            (275, 56, &[0x28, 0x23]),
            (275, 172, &[8, 0, 0, 0, 0x88, 0x13, 0, 0, 5]),
        ],
        &[],
        "fault 9 Odd",
        "fault 9 Odd",
    ),

    // 6144 bytes are reached, 6145 are not.
    (
        &[
            (275, 56, &[0, 0x18]),
            (275, 172, &[8, 0, 0, 0, 0x88, 0x13, 0, 0, 5]),
        ],
        &[],
        "fault 9 Odd",
        "body recorded 0:5+0 6144",
    ),
    (
        &[
            (275, 56, &[1, 0x18]),
            (275, 172, &[8, 0, 0, 0, 0x88, 0x13, 0, 0, 5]),
        ],
        &[],
        "fault 9 Odd",
        "fault 9 Odd",
    ),

    // Whole blocks that do not suffice are too few by both rules.
    (
        &[
            (275, 56, &[1, 0x10]),
            (275, 172, &[8, 0, 0, 0, 0, 0x10, 0, 0, 5]),
        ],
        &[],
        "fault 7 Short",
        "fault 7 Short",
    ),

    // 2048 and 100 bytes of 4096.
    (
        &[
            (275, 56, &[0, 0x10]),
            (
                275,
                172,
                &[
                    16, 0, 0, 0, 0, 8, 0, 0, 5, 0, 0, 0, 0x64, 0, 0, 0, 6, 0, 0, 0,
                ],
            ),
        ],
        &[],
        "fault 9 Odd",
        "body recorded 0:5+0 2048 recorded 0:6+0 2048",
    ),

    // 100 and 100 bytes of 2148: the first block would go on in the middle of the file.
    (
        &[
            (275, 56, &[0x64, 8]),
            (
                275,
                172,
                &[
                    16, 0, 0, 0, 0x64, 0, 0, 0, 5, 0, 0, 0, 0x64, 0, 0, 0, 6, 0, 0, 0,
                ],
            ),
        ],
        &[],
        "fault 9 Odd",
        "fault 9 Odd",
    ),

    // 100 bytes before a continuation are not the last.
    (
        &[
            (275, 56, &[0, 8]),
            (
                275,
                172,
                &[
                    16, 0, 0, 0, 0x64, 0, 0, 0, 5, 0, 0, 0, 0, 8, 0, 0xc0, 6, 0, 0, 0,
                ],
            ),
        ],
        &[],
        "fault 9 Odd",
        "fault 9 Odd",
    ),

    // The last three blocks of the partition; and one block too few there.
    (
        &[
            (275, 56, &[0x92, 0x13]),
            (275, 172, &[8, 0, 0, 0, 0x88, 0x13, 0, 0, 0x29, 1]),
        ],
        &[],
        "fault 9 Odd",
        "body recorded 0:297+0 5010",
    ),
    (
        &[
            (275, 56, &[0x92, 0x13]),
            (275, 172, &[8, 0, 0, 0, 0x88, 0x13, 0, 0, 0x2a, 1]),
        ],
        &[],
        "fault 6 Range",
        "fault 6 Range",
    ),

    // Where the extent reaches the end of the file, both rules say the same.
    (
        &[
            (275, 56, &[0x88, 0x13]),
            (275, 172, &[8, 0, 0, 0, 0x88, 0x13, 0, 0, 5]),
        ],
        &[],
        "body recorded 0:5+0 5000",
        "body recorded 0:5+0 5000",
    ),
    (
        &[
            (275, 56, &[0x88, 0x13]),
            (275, 172, &[8, 0, 0, 0, 0x89, 0x13, 0, 0, 5]),
        ],
        &[],
        "body recorded 0:5+0 5000",
        "body recorded 0:5+0 5000",
    ),

    // A file without a descriptor.
    (
        &[(275, 56, &[0x88, 0x13]), (275, 172, &[0])],
        &[],
        "fault 7 Short",
        "fault 7 Short",
    ),
];

#[test]
fn last_extents(rt: HostRuntime) -> Result<(), Fail> {
    let stretches = Asked::Body(OfBody::Stretches, 0, 3);
    check_both(&rt, rt.alloc(), Start::Type1, stretches, &ROWS)?;
    let tail = Asked::Body(OfBody::Tail, 0, 3);
    for &(changes, unread, strict, wide) in &ROWS {
        // The tail is read where the rules differ.
        let told = if strict.starts_with("fault") && wide.starts_with("body") {
            "tail"
        } else {
            "no tail"
        };
        check_both(
            &rt,
            rt.alloc(),
            Start::Type1,
            tail,
            &[(changes, unread, "no tail", told)],
        )?;
    }
    Ok(())
}

/// A file of 5010 bytes with one long descriptor of 5000: the bytes of the third block, or the block that is missing.
const GROWN: [Bytes; 3] = [
    (275, 34, &[1]),
    (275, 56, &[0x92, 0x13]),
    (275, 172, &[16, 0, 0, 0, 0x88, 0x13, 0, 0, 5, 0, 0, 0, 0, 0]),
];

static BYTES: [RowOfBoth; 2] = [
    (&GROWN, &[], "fault 9 Odd", "cells 61*2048 62*2048 63*914"),
    (
        &GROWN,
        &[279],
        "fault 9 Odd",
        "cells 61*2048 62*2048 ?279*914",
    ),
];

/// A file whose descriptors go on in another block. Of 4000 bytes: 2048, and then an extent of 1000; and an extent of 1000 bytes before
/// the continuation.
static CONTINUED: [RowOfBoth; 2] = [
    (
        &[(275, 56, &[0xa0, 0x0f]), (278, 24, &[0xe8, 3, 0, 0])],
        &[],
        "fault 9 Odd",
        "cells 61*2048 63*1952",
    ),
    (
        &[
            (275, 56, &[0xa0, 0x0f]),
            (278, 24, &[0xe8, 3, 0, 0]),
            (275, 176, &[0xe8, 3, 0, 0]),
        ],
        &[],
        "fault 9 Odd",
        "fault 9 Odd",
    ),
];

/// Whether the block of the descriptors is known makes no fault.
static UNREAD: [Row; 1] = [(
    &[(275, 56, &[0xa0, 0x0f]), (278, 24, &[0xe8, 3, 0, 0])],
    &[278],
    "body recorded 0:5+0 2048 missing 278 1952",
)];

#[test]
fn bytes_of_the_last_block(rt: HostRuntime) -> Result<(), Fail> {
    let cells = Asked::Body(OfBody::Cells, 0, 3);
    check_both(&rt, rt.alloc(), Start::Type1, cells, &BYTES)?;
    check_both(&rt, rt.alloc(), Start::Continued, cells, &CONTINUED)?;
    let stretches = Asked::Body(OfBody::Stretches, 0, 3);
    check_by(
        &rt,
        rt.alloc(),
        Profile::Wide,
        Start::Continued,
        stretches,
        &UNREAD,
    )
}

/// Bytes that are embedded in the entry have no last extent.
static EMBEDDED: [Row; 2] = [
    (&[], &[], "cells 48*1 69*1"),
    (&[(276, 56, &[3])], &[], "fault 7 Short"),
];

static EMBEDDED_TAIL: [Row; 1] = [(&[(276, 56, &[3])], &[], "no tail")];

#[test]
fn embedded_bytes(rt: HostRuntime) -> Result<(), Fail> {
    let cells = Asked::Body(OfBody::Cells, 0, 4);
    check_by(
        &rt,
        rt.alloc(),
        Profile::Wide,
        Start::Type1,
        cells,
        &EMBEDDED,
    )?;
    let tail = Asked::Body(OfBody::Tail, 0, 4);
    check_by(
        &rt,
        rt.alloc(),
        Profile::Wide,
        Start::Type1,
        tail,
        &EMBEDDED_TAIL,
    )
}
