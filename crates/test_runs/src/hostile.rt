//! Discs that somebody made to do harm.

use std::alloc::{AllocError, Global};
use udfs_samples::{Disc, NamedEntry};

/// A root of 1,024 extents that are not recorded, of 2^30 - 2048 bytes each, and one of 2^21 bytes: 2^40 bytes in all.
/// 233 of them are in its entry, and 252 or fewer in each of four continuations, in the blocks 301 to 304.
pub fn zeros(alloc: Global) -> Result<Disc, AllocError> {
    let mut disc = Disc::type1(alloc)?;
    disc.write_at(273, 56, &[0, 0, 0, 0, 0, 1, 0, 0])?;
    disc.write_at(273, 172, &1872u32.to_le_bytes())?;
    write_extents(&mut disc, 273, 176, 233, 29)?;
    for (k, count) in [(0u32, 252u32), (1, 252), (2, 252), (3, 35)] {
        write_continuation(&mut disc, k, count)?;
    }
    let end = 24 + 35 * 8;
    disc.write_at(304, end, &[0, 0, 0x20, 0x40, 0, 0, 0, 0])?;
    Ok(disc)
}

/// Writes the continuation with the number `k`, with `count` extents that are not recorded.
fn write_continuation(disc: &mut Disc, k: u32, count: u32) -> Result<(), AllocError> {
    let block = 301u32.wrapping_add(k);
    disc.write_tag(block, 0, 258, block.wrapping_sub(272))?;
    let bytes = count.wrapping_add(1).wrapping_mul(8);
    disc.write_at(block, 20, &bytes.to_le_bytes())?;
    write_extents(disc, block, 24, count, k.wrapping_add(30))
}

/// Writes `count` extents that are not recorded, and then the address of the continuation at the logical block `next`.
fn write_extents(
    disc: &mut Disc,
    n: u32,
    at: usize,
    count: u32,
    next: u32,
) -> Result<(), AllocError> {
    let mut place = at;
    for _ in 0..count {
        disc.write_at(n, place, &[0, 0xF8, 0xFF, 0x7F])?;
        place = place.wrapping_add(8);
    }
    disc.write_at(n, place, &[0, 8, 0, 0xC0])?;
    disc.write_at(n, place.wrapping_add(4), &next.to_le_bytes())
}

/// Directories of two names, each of which leads to the next one: 2^16 - 1 nodes in 16 of them. The root has `more` names
/// besides, 0 to 2, which lead to a file.
pub fn doubling(alloc: Global, more: usize) -> Result<Disc, AllocError> {
    let mut disc = Disc::type1(alloc)?;
    disc.write_tag(322, 0, 261, 50)?;
    disc.write(&[(322, 20, &[4]), (322, 27, &[5])])?;
    for i in 0..15u32 {
        let entry = i.wrapping_mul(2).wrapping_add(1);
        let next = entry.wrapping_add(2);
        let names: [NamedEntry; 4] = [
            (b"\x08A", next),
            (b"\x08B", next),
            (b"\x08C", 50),
            (b"\x08D", 50),
        ];
        let count = if i == 0 { more.saturating_add(2) } else { 2 };
        disc.write_directory(272, entry, names.get(..count).unwrap_or(&names))?;
    }
    disc.write_directory(272, 31, &[])?;
    Ok(disc)
}

/// Directories of one name each, one in the other.
pub fn nested(alloc: Global, names: u32) -> Result<Disc, AllocError> {
    let mut disc = Disc::type1(alloc)?;
    let mut entry = 1u32;
    for _ in 0..names {
        let next = entry.wrapping_add(2);
        disc.write_directory(272, entry, &[(b"\x08D", next)])?;
        entry = next;
    }
    disc.write_directory(272, entry, &[])?;
    Ok(disc)
}
