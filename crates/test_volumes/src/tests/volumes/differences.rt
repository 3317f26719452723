//! Anchors that name different extents, and copies of the sequence that differ.

use crate::tests::rows::{Asked, Row, check, check_alike};
use crate::tests::starts::Start;
use std::test::Fail;
use udfs_samples::Bytes;

/// The second of two sessions has its own anchor at the 257th block from the end.
const ANCHOR: [Bytes; 3] = [
    (344, 0, &[2, 0, 2, 0, 0x5d, 0, 0, 0, 0, 0, 0, 0, 0x58, 1]),
    (344, 16, &[0, 0x80, 0, 0, 0x60, 1, 0, 0]),
    (344, 24, &[0, 0x80, 0, 0, 0x70, 1, 0, 0]),
];

/// Changes, the blocks that are not known, and the places of anchors that differ.
static CHANGES: [Row; 11] = [
    (&[(600, 32, &[1])], &[], "alike"),
    (&[(600, 16, &[0, 0x78])], &[], "256 and 600"),
    (&[(600, 20, &[0x40])], &[], "256 and 600"),
    (&[(600, 31, &[1])], &[344], "256 and 600"),
    (&[(600, 20, &[0x40])], &[256], "alike"),
    (&[(600, 20, &[0x40])], &[600], "alike"),

    // the tag is not right, so this is no anchor
    (&[(600, 12, &[0x57, 2, 0, 0, 0, 0x40])], &[], "alike"),
    // two sessions
    (&ANCHOR, &[], "256 and 344"),
    (&ANCHOR, &[256], "344 and 600"),
    (&ANCHOR, &[344], "alike"),
    (&ANCHOR, &[256, 344, 600], "alike"),
];

/// A change of the copies, the blocks that are not known, and whether known copies differ in what is read of them.
static COPIES: [Row; 13] = [
    (&[(300, 0, &[1])], &[], "alike"),
    (&[(48, 85, b"B")], &[], "apart"),
    (&[(32, 85, b"B")], &[], "apart"),
    (&[(48, 85, b"B")], &[32], "alike"),
    (&[(48, 85, b"B")], &[48], "alike"),
    (&[(48, 85, b"B")], &[256, 344, 600], "alike"),
    (&[(49, 192, &[0x2d])], &[], "apart"),
    (&[(49, 192, &[0x2d])], &[32, 48], "alike"),

    // the tag is not right, so one copy is a descriptor and the other is none
    (&[(48, 0, &[7])], &[], "apart"),

    // so in any kind of descriptor, as in the one that ends the sequence
    (&[(34, 0, &[0])], &[], "apart"),
    (&[(34, 0, &[0])], &[50], "alike"),

    // its identifier is another: 5 in place of 8
    (&[(50, 0, &[5, 0, 2, 0, 0x39])], &[], "apart"),

    // a terminating descriptor has no bytes that are read
    (&[(50, 600, &[1])], &[], "alike"),
];

/// The tag of a partition descriptor at 34 and at 35.
const TAG_34: Bytes = (34, 0, &[5, 0, 2, 0, 0x29, 0, 0, 0, 0, 0, 0, 0, 0x22]);

const TAG_35: Bytes = (35, 0, &[5, 0, 2, 0, 0x2a, 0, 0, 0, 0, 0, 0, 0, 0x23]);

/// What is behind the end of the sequence, or behind a position that is not known, is not compared.
static BEHIND: [Row; 3] = [
    (&[TAG_35], &[], "alike"),
    (&[TAG_35, TAG_34], &[], "apart"),
    (&[TAG_35, TAG_34], &[33, 49], "alike"),
];

#[test]
fn differences(rt: HostRuntime) -> Result<(), Fail> {
    check(&rt, rt.alloc(), Start::Type1, Asked::Anchors, &CHANGES)?;
    check_alike(&rt, rt.alloc(), Start::Type1, Asked::Copies, &COPIES)?;
    check(&rt, rt.alloc(), Start::Type1, Asked::Copies, &BEHIND)
}
