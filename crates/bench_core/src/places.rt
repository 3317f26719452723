//! Places of logical blocks under a sparing table of 8,000 packets.

use std::alloc::{AllocError, Global};
use std::time::Instant;
use udfs_lattice::{BlockTable, TableError};
use udfs_samples::Disc;
use udfs_space::Space;
use udfs_volume::Seen;
use udfs_volume::layouts::layout;

/// The last block of the disc.
const LAST: u32 = 2_000_000;

/// The spared packets, of 32 blocks each.
const PACKETS: u32 = 8_000;

/// The first block of the one copy of the sparing table.
const TABLE: u32 = 1_000;

const ROUNDS: usize = 5;

/// Writes the 8,000 entries, which take 32 blocks with the head of 56 bytes: the packets are spared to places from 1,000,000
/// on, in another order than the packets.
fn write_entries(disc: &mut Disc) -> Result<(), AllocError> {
    for i in 0..PACKETS {
        let original = i.wrapping_mul(32);
        let mapped = (i.wrapping_mul(7) % PACKETS)
            .wrapping_mul(32)
            .wrapping_add(1_000_000);
        let at = i.wrapping_mul(8).wrapping_add(56);
        let block = TABLE.wrapping_add(at / 2048);
        let within = (at % 2048) as usize;
        disc.write_at(block, within, &original.to_le_bytes())?;
        disc.write_at(block, within.wrapping_add(4), &mapped.to_le_bytes())?;
    }
    Ok(())
}

/// What is known of a disc with one sparable map, whose partition has as many blocks as the packets.
fn disc(alloc: Global) -> Result<BlockTable, TableError> {
    let mut disc = Disc::sparable(alloc)?;
    disc.write_at(32, 482, &[1])?;
    disc.write_at(32, 484, &65_536u32.to_le_bytes())?;
    disc.write_at(32, 488, &TABLE.to_le_bytes())?;
    disc.write_at(33, 188, &4_096u32.to_le_bytes())?;
    disc.write_at(33, 192, &PACKETS.wrapping_mul(32).to_le_bytes())?;
    disc.write_tag(TABLE, 0, 0, TABLE)?;
    disc.write_at(TABLE, 17, b"*UDF Sparing Table")?;
    disc.write_at(TABLE, 48, &(PACKETS as u16).to_le_bytes())?;
    write_entries(&mut disc)?;
    let mut table = disc.known_at(alloc, &[256, 32, 33, 34])?;
    for k in 0..32 {
        disc.put(&mut table, TABLE + k)?;
    }
    Ok(table)
}

/// The places of the disc's partition.
fn space(alloc: Global, table: &BlockTable) -> Option<Space> {
    let Seen::Got(parts) = layout(alloc, table, LAST) else {
        return None;
    };
    match Space::build(alloc, table, &parts) {
        Seen::Got(space) => Some(space),
        _ => None,
    }
}

/// The sum of the places of `millions` million blocks in no order.
fn sum_of(space: &Space, millions: u32) -> u64 {
    let mut sum = 0u64;
    let mut state = 1u32;
    for _ in 0..millions {
        for _ in 0..1_000_000 {
            state = state.wrapping_mul(1_664_525).wrapping_add(1_013_904_223);
            if let Some(place) = space.place(0, (state >> 8) % (PACKETS * 32)) {
                sum = sum.wrapping_add(u64::from(place));
            }
        }
    }
    sum
}

/// Measures this many millions of places, 1 if left out: each round's microseconds go to standard error, and the sum of the places to standard
/// output.
pub fn measure(rt: &HostRuntime, millions: Option<String>) -> anyhow::Result<()> {
    let millions: u32 = millions.and_then(|word| word.parse().ok()).unwrap_or(1);
    let Ok(table) = disc(rt.alloc()) else {
        println!(rt; "no disc")?;
        return Ok(());
    };
    let Some(space) = space(rt.alloc(), &table) else {
        println!(rt; "no space")?;
        return Ok(());
    };
    for _ in 0..ROUNDS {
        let start = Instant::now(rt)?;
        let sum = sum_of(&space, millions);
        eprintln!(rt; "{} {sum}", start.elapsed(rt)?.as_micros())?;
    }
    println!(rt; "{}", sum_of(&space, millions))?;
    Ok(())
}
