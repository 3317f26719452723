//! The samples' bytes, where a slip would make another volume.

use crate::tests::starts::Start;
use crate::tests::{assert_same, assert_same_in};
use std::test::Fail;
use udfs_samples::Disc;

/// The tags of a disc: block, byte position, identifier and location.
type Tags = &'static [(u32, usize, u16, u32)];

const TYPE1: Tags = &[
    (256, 0, 2, 256),
    (600, 0, 2, 600),
    (32, 0, 6, 32),
    (48, 0, 6, 48),
    (33, 0, 5, 33),
    (49, 0, 5, 49),
    (34, 0, 8, 34),
    (50, 0, 8, 50),
    (272, 0, 256, 0),
    (273, 0, 261, 1),
    (274, 0, 257, 2),
    (274, 40, 257, 2),
    (274, 80, 257, 2),
    (275, 0, 261, 3),
    (276, 0, 261, 4),
];

const SPARABLE: Tags = &[
    (100, 0, 0, 100),
    (200, 0, 0, 200),
    (400, 0, 256, 0),
    (401, 0, 261, 1),
    (402, 80, 257, 2),
    (403, 0, 261, 3),
    (404, 0, 261, 4),
];

const TWO_MAPS: Tags = &[
    (34, 0, 5, 34),
    (50, 0, 5, 50),
    (35, 0, 8, 35),
    (51, 0, 8, 51),
    (100, 0, 0, 100),
    (200, 0, 0, 200),
    (520, 0, 261, 0),
];

/// Writing a tag again changes nothing: the tag is already there, with its checksum.
#[test]
fn tags(rt: HostRuntime) -> Result<(), Fail> {
    let alloc = rt.alloc();
    for (start, tags) in [
        (Start::Type1, TYPE1),
        (Start::Continued, &[(278, 0, 258, 6)]),
        (Start::Sparable, SPARABLE),
        (Start::TwoMaps, TWO_MAPS),
    ] {
        let disc = start.changed(alloc, &[])?;
        for (n, at, identifier, location) in tags {
            let mut other = Disc::blank(alloc);
            other.write_tag(*n, *at, *identifier, *location)?;
            for i in 0..16usize {
                let i = at.wrapping_add(i);
                assert_eq!(rt; byte(&disc, *n, i), byte(&other, *n, i), "{n}: {i}");
            }
        }
    }
    Ok(())
}

fn byte(disc: &Disc, n: u32, at: usize) -> Option<u8> {
    let block = disc.block(n)?;
    block.get(at).copied()
}

/// Bytes of the samples, where each differs from the one that it is made of: block, byte position and byte.
static BYTES: [(Start, u32, usize, u8); 19] = [
    (Start::Type1, 272, 404, 1),
    (Start::Type1, 273, 180, 2),
    (Start::Type1, 274, 79, 0x41),
    (Start::Type1, 274, 104, 4),
    (Start::Type1, 274, 119, 0x42),
    (Start::Type1, 275, 57, 0x13),
    (Start::Type1, 275, 91, 0x1e),
    (Start::Type1, 276, 177, 0x69),
    (Start::Type1, 277, 0, 0x61),
    (Start::Type1, 278, 1, 0x62),
    (Start::Type1, 279, 2047, 0x63),
    (Start::Continued, 278, 28, 7),
    (Start::Continued, 278, 2047, 0),
    (Start::Sparable, 272, 404, 0xff),
    (Start::Sparable, 407, 2047, 0x63),
    (Start::Sparable, 48, 492, 0xc8),
    (Start::TwoMaps, 276, 0, 0),
    (Start::TwoMaps, 520, 176, 0x48),
    (Start::TwoMaps, 48, 484, 1),
];

#[test]
fn contents(rt: HostRuntime) -> Result<(), Fail> {
    for &(start, n, at, want) in &BYTES {
        let disc = start.changed(rt.alloc(), &[])?;
        assert_eq!(rt; byte(&disc, n, at), Some(want), "{n}: {at}");
    }
    Ok(())
}

/// A table knows what it is asked to know.
#[test]
fn tables(rt: HostRuntime) -> Result<(), Fail> {
    let alloc = rt.alloc();
    let disc = Disc::type1(alloc)?;
    assert_same(&rt, disc.known_but(alloc, &[])?.known(), 601);
    assert_same(&rt, disc.known_but(alloc, &[0, 600])?.known(), 599);
    assert_same(&rt, disc.known_at(alloc, &[256, 5])?.known(), 2);
    Ok(())
}

/// A directory that is built has the bytes of the sample's root, but for the parent's descriptor.
#[test]
fn directories(rt: HostRuntime) -> Result<(), Fail> {
    let alloc = rt.alloc();
    let sample = Disc::type1(alloc)?;
    let mut disc = Disc::blank(alloc);
    disc.write_directory(272, 1, &[(b"\x08A", 3), (b"\x08B", 4)])?;
    for i in 0..80usize {
        let there = i.wrapping_add(40);
        assert_same_in(&rt, byte(&disc, 274, i), byte(&sample, 274, there), i);
    }
    for i in 0..200usize {
        let size = i == 56 || i == 176;
        let want = if size {
            Some(80)
        } else {
            byte(&sample, 273, i)
        };
        assert_same_in(&rt, byte(&disc, 273, i), want, i);
    }
    Ok(())
}

/// The last of 52 identifiers begins in one block and ends in the next.
static LONG: [(u32, usize, u8); 6] = [
    (273, 56, 0x20),
    (273, 57, 8),
    (274, 2040, 1),
    (275, 4, 2),
    (275, 30, 8),
    (275, 31, 0x41),
];

#[test]
fn long_directories(rt: HostRuntime) -> Result<(), Fail> {
    let mut disc = Disc::blank(rt.alloc());
    let names = [(b"\x08A".as_slice(), 3); 52];
    disc.write_directory(272, 1, &names)?;
    for &(n, at, want) in &LONG {
        assert_eq!(rt; byte(&disc, n, at), Some(want), "{n}: {at}");
    }
    Ok(())
}
