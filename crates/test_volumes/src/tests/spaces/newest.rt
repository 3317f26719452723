//! Sparing tables whose copies differ, by the strict rules and by the wide ones (UDF 2.01 2.2.11).

use crate::tests::rows::{Asked, RowOfBoth, check_both};
use crate::tests::starts::Start;
use std::test::Fail;
use udfs_samples::Bytes;

/// The second copy maps the packet to block 420.
const SECOND: Bytes = (200, 60, &[0xa4]);

/// Changes of the copies at 100 and 200; blocks that are not known; and where the first logical block is by the strict rules, and by
/// the wide ones.
static COPIES: [RowOfBoth; 12] = [
    // both have the sequence number 0: the first in map order counts
    (&[SECOND], &[], "ok 400", "ok 400"),
    (&[SECOND], &[100], "ok 420", "ok 420"),

    // the second is newer
    (&[SECOND, (200, 52, &[1])], &[], "ok 400", "ok 420"),
    (&[SECOND, (200, 52, &[1])], &[200], "ok 400", "ok 400"),
    (&[SECOND, (200, 52, &[1])], &[100], "ok 420", "ok 420"),
    (
        &[SECOND, (200, 52, &[1])],
        &[100, 200],
        "holes 100 200",
        "holes 100 200",
    ),

    // the number has four bytes
    (
        &[SECOND, (100, 52, &[0xff]), (200, 52, &[0, 1])],
        &[],
        "ok 400",
        "ok 420",
    ),
    (
        &[SECOND, (100, 52, &[0, 0, 0, 1]), (200, 52, &[0, 0, 1])],
        &[],
        "ok 400",
        "ok 400",
    ),

    // the newer one's tag is not valid, or of another identifier
    (
        &[SECOND, (200, 52, &[1]), (200, 4, &[0xcb])],
        &[],
        "ok 400",
        "ok 400",
    ),
    (
        &[SECOND, (200, 52, &[1]), (200, 0, &[1]), (200, 4, &[0xcb])],
        &[],
        "ok 400",
        "ok 400",
    ),

    // so is the first one's: then the second is the only one
    (
        &[SECOND, (100, 4, &[0x67])],
        &[],
        "fault 12 SparingTag",
        "ok 420",
    ),

    // the newer one has a fault behind its tag, which is the table's
    (
        &[SECOND, (200, 52, &[1]), (200, 17, b"+")],
        &[],
        "ok 400",
        "fault 12 SparingTag",
    ),
];

/// Of tables of two blocks a copy counts alone where both of its blocks are known, and block by block where no copy has both. The second
/// copy has a bad entry in its second block.
static UNREAD: [RowOfBoth; 6] = [
    (&[], &[], "ok 400", "ok 400"),
    (&[], &[200], "ok 400", "ok 400"),
    (&[], &[100], "ok 400", "fault 13 SparingShape"),
    (
        &[],
        &[101],
        "fault 13 SparingShape",
        "fault 13 SparingShape",
    ),
    (&[], &[100, 201], "ok 400", "ok 400"),
    (&[], &[101, 201], "holes 101 201", "holes 101 201"),
];

#[test]
fn the_newest_copy_counts(rt: HostRuntime) -> Result<(), Fail> {
    check_both(&rt, rt.alloc(), Start::Sparable, Asked::Space, &COPIES)?;
    check_both(&rt, rt.alloc(), Start::TwoBlocks, Asked::Space, &UNREAD)
}
