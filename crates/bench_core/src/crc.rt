//! The CRC of made-up bytes.

use std::alloc::{AllocError, Global};
use std::time::Instant;

const MEBIBYTE: usize = 1 << 20;

const ROUNDS: usize = 5;

/// `count` bytes that look like noise.
fn made_up(alloc: Global, count: usize) -> Result<Vec<u8>, AllocError> {
    let mut bytes = Vec::new(alloc);
    let mut state = 1u32;
    for _ in 0..count {
        state = state.wrapping_mul(1_664_525).wrapping_add(1_013_904_223);
        let [_, _, _, byte] = state.to_le_bytes();
        bytes.push(byte)?;
    }
    Ok(bytes)
}

/// Measures the CRC of this many mebibytes, 1 if left out: each round's microseconds go to standard error, and the CRC to standard output.
pub fn measure(rt: &HostRuntime, mebibytes: Option<String>) -> anyhow::Result<()> {
    let mebibytes: usize = mebibytes.and_then(|word| word.parse().ok()).unwrap_or(1);
    let bytes = made_up(rt.alloc(), mebibytes.min(4096) * MEBIBYTE)?;
    for _ in 0..ROUNDS {
        let start = Instant::now(rt)?;
        let sum = udfs_tag::crc(&bytes);
        eprintln!(rt; "{} {sum}", start.elapsed(rt)?.as_micros())?;
    }
    println!(rt; "{}", udfs_tag::crc(&bytes))?;
    Ok(())
}
