//! Partitions that pass the last block of the volume.

use super::said::{Of, Place, check_places};
use crate::tests::rows::{Asked, Row, check_by};
use crate::tests::starts::Start;
use std::test::Fail;
use udfs_samples::{Bytes, LAST};
use udfs_volume::Profile;

/// Lengths of 329 blocks, 330 and the greatest.
static LENGTHS: [Bytes; 3] = [
    (33, 192, &[0x49, 1]),
    (33, 192, &[0x4a, 1]),
    (33, 192, &[0xff, 0xff, 0xff, 0xff]),
];

/// Whatever the length, the partition has the blocks up to the last one.
static PARTS: [Row; 3] = [
    (
        &[(33, 192, &[0x49, 1])],
        &[],
        "600 0150 0 2048 0:0, 272+329 type1",
    ),
    (
        &[(33, 192, &[0x4a, 1])],
        &[],
        "600 0150 0 2048 0:0, 272+329 type1",
    ),
    (
        &[(33, 192, &[0xff, 0xff, 0xff, 0xff])],
        &[],
        "600 0150 0 2048 0:0, 272+329 type1",
    ),
];

static PLACES: [Place; 2] = [
    (Of::Place, 0, 328, 0, "Some(600)"),
    (Of::Place, 0, 329, 0, "None"),
];

/// By the wide rules a partition that passes the last block has the blocks up to it.
#[test]
fn blocks_past_the_last_one(rt: HostRuntime) -> Result<(), Fail> {
    check_by(
        &rt,
        rt.alloc(),
        Profile::Wide,
        Start::Type1,
        Asked::Parts,
        &PARTS,
    )?;
    for length in &LENGTHS {
        let disc = Start::Type1.changed(rt.alloc(), &[*length])?;
        let table = disc.known_but(rt.alloc(), &[])?;
        check_places(&rt, rt.alloc(), &table, LAST, Profile::Wide, &PLACES)?;
    }
    Ok(())
}
