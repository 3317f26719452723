//! Where the blocks of a sparable partition are with the packets that the wide rules accept.

use super::said::{Of, Place, check_places};
use crate::tests::starts::Start;
use std::test::Fail;
use udfs_samples::{Bytes, LAST};
use udfs_volume::Profile;

/// The length of the packets, where the last block of the spared packet is, and where the next block is.
///
/// The packet at logical block 0 is spared and is at 400; the partition begins at 272. A packet of 128
/// blocks from 400 on ends before the last block, 600.
static PACKETS: [(Bytes, &[Place]); 4] = [
    (
        (32, 480, &[1]),
        &[
            (Of::Place, 0, 0, 0, "Some(400)"),
            (Of::Place, 0, 0, 0, "Some(400)"),
            (Of::Place, 0, 1, 0, "Some(273)"),
        ],
    ),
    (
        (32, 480, &[2]),
        &[
            (Of::Place, 0, 0, 0, "Some(400)"),
            (Of::Place, 0, 1, 0, "Some(401)"),
            (Of::Place, 0, 2, 0, "Some(274)"),
        ],
    ),
    (
        (32, 480, &[64]),
        &[
            (Of::Place, 0, 0, 0, "Some(400)"),
            (Of::Place, 0, 63, 0, "Some(463)"),
            (Of::Place, 0, 64, 0, "Some(336)"),
        ],
    ),
    (
        (32, 480, &[128]),
        &[
            (Of::Place, 0, 0, 0, "Some(400)"),
            (Of::Place, 0, 127, 0, "Some(527)"),
            (Of::Place, 0, 128, 0, "Some(400)"),
        ],
    ),
];

#[test]
fn spared_packets(rt: HostRuntime) -> Result<(), Fail> {
    for (change, places) in &PACKETS {
        let disc = Start::Sparable.changed(rt.alloc(), &[*change])?;
        let table = disc.known_but(rt.alloc(), &[])?;
        check_places(&rt, rt.alloc(), &table, LAST, Profile::Wide, places)?;
    }
    Ok(())
}
