//! Copies of a sparing table that disagree (UDF 2.01 2.2.11), in a volume that does not open.

use std::test::Fail;
use udfs_overview::spares_disagree;
use udfs_salvage::survey_volume;
use udfs_samples::{Bytes, Disc, LAST};

/// Tables of 4,096 bytes in three places, of which the second and the third differ at the first byte of the second block.
const THREE: [Bytes; 8] = [
    (32, 482, &[3]),
    (48, 482, &[3]),
    (32, 484, &[0, 0x10]),
    (48, 484, &[0, 0x10]),
    (32, 496, &[0x2c, 1]),
    (48, 496, &[0x2c, 1]),
    (300, 0, &[0, 0, 2, 0, 0x2f, 0, 0, 0, 0, 0, 0, 0, 0x2c, 1]),
    (301, 0, &[7]),
];

/// The first blocks are not asked for the second ones.
#[test]
fn known_in_both(rt: HostRuntime) -> Result<(), Fail> {
    let alloc = rt.alloc();
    let mut disc = Disc::sparable(alloc)?;
    disc.write(&THREE)?;
    disc.write(&[(300, 17, b"*UDF Sparing Table"), (300, 48, &[1])])?;
    disc.write(&[(300, 56, &[0, 0, 0, 0, 0x90, 1, 0, 0])])?;
    let table = disc.known_but(alloc, &[100, 200, 101])?;
    let survey = survey_volume(alloc, &table, LAST)?;
    assert!(rt; spares_disagree(&survey));
    Ok(())
}
