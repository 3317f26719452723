//! Directories.

use crate::tests::rows::{Asked, OfBody, Row, check};
use crate::tests::starts::Start;
use std::test::Fail;
use udfs_samples::Bytes;

/// What the root lists.
const FRONT: Asked = Asked::Body(OfBody::Front, 0, 1);

/// An identifier of 2048 bytes.
const LONGEST: [Bytes; 8] = [
    (274, 0, &[0; 2048]),
    (274, 0, &[1, 1, 2, 0, 6, 0, 0, 0, 0, 0, 0, 0, 2]),
    (273, 56, &[0, 8]),
    (273, 176, &[0, 8]),
    (274, 16, &[1, 0, 0, 2]),
    (274, 20, &[0, 8, 0, 0, 3]),
    (274, 36, &[0xd8, 7]),
    (274, 2046, b"\x08A"),
];

/// An embedded identifier whose tag says that it is in logical block 1, and one whose tag says 2.
const EMBEDDED: [Bytes; 6] = [
    (273, 34, &[3]),
    (273, 56, &[40]),
    (273, 172, &[40]),
    (273, 192, &[1, 0, 0, 2, 0, 8, 0, 0, 3]),
    (273, 212, &[0, 0, 8, 65]),
    (273, 176, &[1, 1, 2, 0, 5, 0, 0, 0, 0, 0, 0, 0, 1, 0, 0, 0]),
];

const EMBEDDED_ELSEWHERE: [Bytes; 6] = [
    (273, 34, &[3]),
    (273, 56, &[40]),
    (273, 172, &[40]),
    (273, 192, &[1, 0, 0, 2, 0, 8, 0, 0, 3]),
    (273, 212, &[0, 0, 8, 65]),
    (273, 176, &[1, 1, 2, 0, 6, 0, 0, 0, 0, 0, 0, 0, 2, 0, 0, 0]),
];

/// Changes, the blocks that are not known, and what the root lists then.
static CHANGES: [Row; 16] = [
    (&[], &[], "front A 0:3 B 0:4"),
    (&[], &[274], "front missing 274"),

    // Deleted, with a malformed name.
    (&[(274, 58, &[4]), (274, 78, &[9])], &[], "front B 0:4"),
    (
        &[(274, 58, &[0]), (274, 78, &[9])],
        &[],
        "front fault 11 Name",
    ),
    (&[(274, 58, &[8]), (274, 78, &[9])], &[], "front B 0:4"),
    (
        &[(274, 58, &[3]), (274, 119, b"A")],
        &[],
        "front A 0:3 A 0:4",
    ),
    (
        &[(274, 58, &[0xf3]), (274, 119, b"B")],
        &[],
        "front A 0:3 B 0:4",
    ),
    (
        &[(274, 58, &[0]), (274, 108, &[1])],
        &[],
        "front A 0:3 B 1:4",
    ),
    (
        &[(274, 58, &[0]), (274, 80, &[2])],
        &[],
        "front A 0:3 fault 10 IdentifierTag",
    ),
    (
        &[(274, 84, &[7]), (274, 92, &[3])],
        &[],
        "front A 0:3 fault 10 IdentifierTag",
    ),
    (
        &[(273, 56, &[0x77]), (274, 119, b"B")],
        &[],
        "front A 0:3 fault 12 Cut",
    ),
    // one identifier that takes the block, and one that goes on
    (&LONGEST, &[], "front A 0:3"),
    (
        &[
            (274, 0, &[0; 2048]),
            (274, 0, &[1, 1, 2, 0, 6, 0, 0, 0, 0, 0, 0, 0, 2]),
            (273, 56, &[4, 8]),
            (273, 176, &[4, 8]),
            (274, 16, &[1, 0, 0, 2]),
            (274, 20, &[0, 8, 0, 0, 3]),
            (274, 36, &[0xd9, 7]),
            (274, 2046, b"\x08A"),
        ],
        &[],
        "front fault 12 Cut",
    ),
    // zeros that are not recorded end at their first byte, however many
    (
        &[
            (273, 56, &[0, 0xf8, 0xff, 0x3f]),
            (273, 176, &[0, 0xf8, 0xff, 0x7f]),
        ],
        &[],
        "front fault 10 IdentifierTag",
    ),
    // one identifier that is embedded in its entry, which is in logical block 1
    (&EMBEDDED, &[], "front A 0:3"),
    (&EMBEDDED_ELSEWHERE, &[], "front fault 10 IdentifierTag"),
];

/// The root of two maps; and a file of 2 bytes, which is no directory.
static OF_TWO_MAPS: [Row; 1] = [(&[], &[], "front A 0:3 B 1:0")];

static OF_A_FILE: [Row; 1] = [(&[], &[], "front fault 12 Cut")];

#[test]
fn fronts(rt: HostRuntime) -> Result<(), Fail> {
    check(&rt, rt.alloc(), Start::Type1, FRONT, &CHANGES)?;
    check(&rt, rt.alloc(), Start::TwoMaps, FRONT, &OF_TWO_MAPS)?;
    let of_a_file = Asked::Body(OfBody::Front, 0, 4);
    check(&rt, rt.alloc(), Start::Type1, of_a_file, &OF_A_FILE)
}

/// 52 identifiers in two blocks that lie side by side, and in two that do not; and one whose tag says that it is in the other block.
static NAMES: [Row; 2] = [
    (&[], &[], "front A 0:3 *51 B 0:4"),
    (&[], &[275], "front A 0:3 *51 missing 275"),
];

static MISPLACED_NAMES: [Row; 1] = [(&[], &[], "front A 0:3 *51 fault 10 IdentifierTag")];

/// An identifier whose last 32 bytes are not recorded is wrong whatever the checksum: they are zeros, and so is the location in its tag,
/// though its first byte is in logical block 2.
static NAMES_APART: [Row; 5] = [
    (&[], &[], "front A 0:3 *51 B 0:4"),
    (&[], &[282], "front A 0:3 *51 missing 282"),
    (&[], &[274], "front missing 274"),
    (
        &[(273, 187, &[0x40]), (274, 2044, &[6])],
        &[],
        "front A 0:3 *51 fault 10 IdentifierTag",
    ),
    (
        &[(273, 187, &[0x40]), (274, 2044, &[4])],
        &[],
        "front A 0:3 *51 fault 10 IdentifierTag",
    ),
];

#[test]
fn identifiers_in_two_blocks(rt: HostRuntime) -> Result<(), Fail> {
    check(&rt, rt.alloc(), Start::Names, FRONT, &NAMES)?;
    check(
        &rt,
        rt.alloc(),
        Start::MisplacedNames,
        FRONT,
        &MISPLACED_NAMES,
    )?;
    check(&rt, rt.alloc(), Start::NamesApart, FRONT, &NAMES_APART)
}

/// Of 52 entries, of 51 where the second block is not known, and of none where the first is not: those that a limit allows.
static WITHIN_52: [Row; 1] = [(&[], &[], "front A 0:3 *51 B 0:4")];

static WITHIN_51: [Row; 2] = [
    (&[], &[], "too many entries"),
    (&[], &[275], "front A 0:3 *51 missing 275"),
];

static WITHIN_50: [Row; 1] = [(&[], &[275], "too many entries")];

static WITHIN_0: [Row; 2] = [
    (&[], &[], "too many entries"),
    (&[], &[274], "front missing 274"),
];

#[test]
fn fronts_within(rt: HostRuntime) -> Result<(), Fail> {
    check(
        &rt,
        rt.alloc(),
        Start::Names,
        Asked::Body(OfBody::Within(52), 0, 1),
        &WITHIN_52,
    )?;
    check(
        &rt,
        rt.alloc(),
        Start::Names,
        Asked::Body(OfBody::Within(51), 0, 1),
        &WITHIN_51,
    )?;
    check(
        &rt,
        rt.alloc(),
        Start::Names,
        Asked::Body(OfBody::Within(50), 0, 1),
        &WITHIN_50,
    )?;
    check(
        &rt,
        rt.alloc(),
        Start::Names,
        Asked::Body(OfBody::Within(0), 0, 1),
        &WITHIN_0,
    )
}

/// Whether the root lists anything, and how it ends: with a file, without one, not known and wrong.
static ENDS: [Row; 4] = [
    (&[], &[], "some"),
    (&[], &[274], "none missing 274"),
    // the first entry is deleted, and then the second too
    (&[(274, 58, &[4])], &[], "some"),
    (&[(274, 58, &[4]), (274, 98, &[4])], &[], "none"),
];

static END_OF_A_FILE: [Row; 1] = [(&[], &[], "none fault 12 Cut")];

static ENDS_OF_NAMES: [Row; 1] = [(&[], &[275], "some missing 275")];

static ENDS_OF_MISPLACED_NAMES: [Row; 1] = [(&[], &[], "some fault 10 IdentifierTag")];

#[test]
fn ends(rt: HostRuntime) -> Result<(), Fail> {
    let end = Asked::Body(OfBody::End, 0, 1);
    check(&rt, rt.alloc(), Start::Type1, end, &ENDS)?;
    let of_a_file = Asked::Body(OfBody::End, 0, 4);
    check(&rt, rt.alloc(), Start::Type1, of_a_file, &END_OF_A_FILE)?;
    check(&rt, rt.alloc(), Start::Names, end, &ENDS_OF_NAMES)?;
    check(
        &rt,
        rt.alloc(),
        Start::MisplacedNames,
        end,
        &ENDS_OF_MISPLACED_NAMES,
    )
}

/// The steps of a cursor over 52 identifiers of 40 bytes: the last has two pieces, and what ends them is returned again.
static STEPS: [Row; 2] = [
    (&[], &[], "steps 40+0 *51 8+32 end *2"),
    (&[], &[275], "steps 40+0 *51 stop 275 *3"),
];

static STEPS_OF_MISPLACED_NAMES: [Row; 1] = [(
    &[],
    &[],
    "steps 40+0 *51 fault 10 IdentifierTag *3",
)];

#[test]
fn steps(rt: HostRuntime) -> Result<(), Fail> {
    let steps = Asked::Body(OfBody::Steps(54), 0, 1);
    check(&rt, rt.alloc(), Start::Names, steps, &STEPS)?;
    check(
        &rt,
        rt.alloc(),
        Start::MisplacedNames,
        steps,
        &STEPS_OF_MISPLACED_NAMES,
    )
}
