//! Places of logical blocks, and what is known there.

use super::said::{Of, Place, check_places, said};
use crate::tests::assert_text;
use crate::tests::starts::Start;
use std::test::Fail;
use udfs_samples::{Bytes, LAST};
use udfs_volume::Profile;

/// One anchor, the main sequence, the second copy of the sparing table and the spared packet.
const ONE_COPY: &[u32] = &[256, 32, 33, 34, 200, 400, 401, 402, 403, 404, 405, 406, 407];

/// What these blocks tell: the first packet is at 400.
static ONE_COPY_TELLS: [Place; 25] = [
    (Of::Maps, 0, 0, 0, "1"),
    (Of::Length, 0, 0, 0, "300"),
    (Of::Place, 0, 0, 0, "Some(400)"),
    (Of::Place, 1, 0, 0, "None"),
    (Of::Place, 0, 7, 0, "Some(407)"),
    (Of::Place, 1, 7, 0, "None"),
    (Of::Place, 0, 31, 0, "Some(431)"),
    (Of::Place, 1, 31, 0, "None"),
    (Of::Place, 0, 32, 0, "Some(304)"),
    (Of::Place, 1, 32, 0, "None"),
    (Of::Place, 0, 299, 0, "Some(571)"),
    (Of::Place, 1, 299, 0, "None"),
    (Of::Place, 0, 300, 0, "None"),
    (Of::Place, 1, 300, 0, "None"),
    (Of::Place, 0, u32::MAX, 0, "None"),
    (Of::Place, 1, u32::MAX, 0, "None"),
    (Of::Known, 0, 0, 0, "00"),
    (Of::Known, 0, 1, 0, "05"),
    (Of::Known, 0, 2, 0, "01"),
    (Of::Known, 0, 3, 0, "05"),
    (Of::Known, 0, 4, 0, "05"),
    (Of::Known, 0, 5, 0, "61"),
    (Of::Known, 0, 6, 0, "62"),
    (Of::Known, 0, 7, 0, "63"),
    (Of::Known, 0, 8, 0, "unknown"),
];

#[test]
fn one_copy_is_enough(rt: HostRuntime) -> Result<(), Fail> {
    let disc = Start::Sparable.changed(rt.alloc(), &[])?;
    let table = disc.known_at(rt.alloc(), ONE_COPY)?;
    check_places(
        &rt,
        rt.alloc(),
        &table,
        LAST,
        Profile::Strict,
        &ONE_COPY_TELLS,
    )
}

/// The partition begins at 1024, and the packet at 64 is at 500000.
const FAR_AWAY: [Bytes; 2] = [
    (33, 188, &[0, 4, 0, 0, 0, 0x10, 0, 0]),
    (100, 56, &[0x40, 0, 0, 0, 0x20, 0xa1, 7, 0]),
];

/// The last block of the packet is 500031. The packet after the spared one and the one before it stay in their places.
static ABOUT_A_PACKET: [Place; 8] = [
    (Of::Maps, 0, 0, 0, "1"),
    (Of::Length, 0, 0, 0, "4096"),
    (Of::Place, 0, 0, 0, "Some(1024)"),
    (Of::Place, 0, 63, 0, "Some(1087)"),
    (Of::Place, 0, 64, 0, "Some(500000)"),
    (Of::Place, 0, 70, 0, "Some(500006)"),
    (Of::Place, 0, 95, 0, "Some(500031)"),
    (Of::Place, 0, 96, 0, "Some(1120)"),
];

/// The old place of a spared packet is never read, whatever it holds.
static OLD_PLACE: [Place; 1] = [(Of::Known, 0, 70, 0, "unknown")];

static NEW_PLACE: [Place; 1] = [(Of::Known, 0, 70, 0, "bb")];

#[test]
fn places_about_a_spared_packet(rt: HostRuntime) -> Result<(), Fail> {
    let disc = Start::Sparable.changed(rt.alloc(), &FAR_AWAY)?;
    let mut table = disc.known_at(rt.alloc(), &[256, 32, 33, 34, 100])?;
    let text = said(rt.alloc(), &table, 500_030, Profile::Strict)?;
    assert_text(&rt, text, "fault 15 MappedRange");
    check_places(
        &rt,
        rt.alloc(),
        &table,
        500_031,
        Profile::Strict,
        &ABOUT_A_PACKET,
    )?;
    table.put(1094, &[0xaa; 2048])?;
    check_places(
        &rt,
        rt.alloc(),
        &table,
        500_031,
        Profile::Strict,
        &OLD_PLACE,
    )?;
    table.put(500_006, &[0xbb; 2048])?;
    check_places(
        &rt,
        rt.alloc(),
        &table,
        500_031,
        Profile::Strict,
        &NEW_PLACE,
    )
}

/// Block 401 is not known. The packet at 0 is at 400; the partition has 300 blocks.
static BLOCKS: [Place; 21] = [
    (Of::Block, 0, 0, 0, "400 00"),
    (Of::Block, 0, 1, 0, "401 unknown"),
    (Of::Block, 0, 300, 0, "None"),
    (Of::BlockAbove, 0, 0, 0, "None"),
    (Of::Block, 1, 0, 0, "None"),
    (Of::Behind, 0, 0, 0, "400 00"),
    (Of::Behind, 0, 0, 1, "401 unknown"),
    (Of::Behind, 0, 1, 0, "401 unknown"),
    (Of::Behind, 0, 20, 11, "431 00"),
    (Of::Behind, 0, 299, 1, "None"),
    (Of::Behind, 0, u32::MAX, 1, "None"),
    (Of::Behind, 0, u32::MAX, u32::MAX, "None"),
    // runs that pass the end
    (Of::Past, 0, 0, 300, "false"),
    (Of::Past, 0, 0, 301, "true"),
    (Of::Past, 0, 1, 300, "true"),
    (Of::Past, 0, 299, 1, "false"),
    (Of::Past, 0, 300, 0, "false"),
    (Of::Past, 0, 300, 1, "true"),
    (Of::Past, 0, u32::MAX, u32::MAX, "true"),
    (Of::Past, 1, 0, 0, "false"),
    (Of::Past, 1, 0, 1, "true"),
];

/// The blocks 402, 403, 431 and 560 to 563 are not known: logical blocks that are consecutive on the disc, and unknown ones.
static RUNS: [Place; 17] = [
    (Of::Beside, 0, 0, 0, "32"),
    (Of::Beside, 0, 31, 0, "1"),
    (Of::Beside, 0, 32, 0, "32"),
    (Of::Beside, 0, 290, 0, "10"),
    (Of::Beside, 0, 299, 0, "1"),
    (Of::Beside, 0, 300, 0, "0"),
    (Of::Beside, 0, u32::MAX, 0, "0"),
    (Of::Beside, 1, 0, 0, "0"),
    (Of::Ahead, 0, 1, 0, "Some((401, 0))"),
    (Of::Ahead, 0, 2, 0, "Some((402, 2))"),
    (Of::Ahead, 0, 0, 2, "Some((402, 2))"),
    (Of::Ahead, 0, 3, 0, "Some((403, 1))"),
    (Of::Ahead, 0, 30, 1, "Some((431, 1))"),
    (Of::Ahead, 0, 288, 0, "Some((560, 4))"),
    (Of::Ahead, 0, 300, 0, "None"),
    (Of::Ahead, 0, u32::MAX, 3, "None"),
    (Of::Ahead, 1, 2, 0, "None"),
];

#[test]
fn blocks_and_runs(rt: HostRuntime) -> Result<(), Fail> {
    let disc = Start::Sparable.changed(rt.alloc(), &[])?;
    let table = disc.known_but(rt.alloc(), &[401])?;
    check_places(&rt, rt.alloc(), &table, LAST, Profile::Strict, &BLOCKS)?;
    let table = disc.known_but(rt.alloc(), &[402, 403, 431, 560, 561, 562, 563])?;
    check_places(&rt, rt.alloc(), &table, LAST, Profile::Strict, &RUNS)
}
