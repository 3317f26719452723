//! Mapfiles of discs that are too large for a test over an image, and where a map ends.

use crate::tests::{assert_case, assert_same};
use std::test::Fail;
use udfs_reading::{Reader, ReadingError, ReadingFault};
use udfs_rescue::{BlockRange, KnownBlocks, MapError, Mapfile};

fn read(rt: HostRuntime, text: &[u8]) -> Result<Mapfile, MapError> {
    Mapfile::read(rt.alloc(), &mut Reader::new(text))
}

fn known(rt: HostRuntime, text: &[u8]) -> Result<KnownBlocks, ReadingError> {
    match read(rt, text) {
        Ok(map) => KnownBlocks::of_map(rt.alloc(), &map),
        Err(_) => Err(ReadingError {
            fault: ReadingFault::Io,
            number: 0,
        }),
    }
}

/// Whether the map makes exactly these blocks known.
fn is_range(rt: HostRuntime, text: &[u8], start: u64, end: u64) -> bool {
    match known(rt, text) {
        Ok(known) => {
            known.ranges() == [BlockRange { start, end }].as_slice()
                && u64::from(known.count()) == end.wrapping_sub(start)
        }
        Err(_) => false,
    }
}

fn is_none(rt: HostRuntime, text: &[u8]) -> bool {
    match known(rt, text) {
        Ok(known) => known.ranges().is_empty() && known.count() == 0,
        Err(_) => false,
    }
}

fn is_too_high(rt: HostRuntime, text: &[u8], number: u32) -> bool {
    match known(rt, text) {
        Err(e) => e.fault == ReadingFault::BlockNumber && e.number == number,
        Ok(_) => false,
    }
}

#[test]
fn blocks_above_the_greatest_number(rt: HostRuntime) -> Result<(), Fail> {
    // Block 4,194,303 is at 8,589,932,544.
    assert!(rt; is_range(rt, b"0 +\n8589932544 2048 +\n", 4_194_303, 4_194_304));
    assert!(rt; is_too_high(rt, b"0 +\n8589932544 4096 +\n", 2));
    assert!(rt;
        is_too_high(
            rt,
            b"0 +\n0 6144 +\n6144 8589930496 ?\n8589936640 2048 +\n",
            4
        )
    );
    assert_case(
        &rt,
        is_none(rt, b"0 +\n8589934592 2047 +\n"),
        "a part of a block",
    );
    Ok(())
}

#[test]
fn what_a_map_tells(rt: HostRuntime) -> Result<(), Fail> {
    let map = read(rt, b"0 +\n0 2048 +\n2048 512 -\n")?;
    assert_same(&rt, map.end(), Some(2560));
    assert_eq!(rt; map.runs().len(), 2);
    Ok(())
}
