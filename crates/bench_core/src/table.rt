//! Times of the table of blocks.

ghost use Rattle.std.specs.Prelude.{◌<◌};

use std::alloc::{AllocError, Global};
use std::collections::BTreeMap;
use std::time::Instant;
use udfs_lattice::{BlockTable, Fact, Join, TableError};

/// A number that has no divisor in common with 300,000, so that its multiples come at each block once.
const STRIDE: u64 = 104_729;

/// The order in which blocks are put.
#[derive(Clone, Copy)]
enum Order {
    Rising,
    Shuffled,
}

/// The number of the block that comes at this place of `count`.
fn block_at(order: Order, i: u32, count: u32) -> u32
    requires { i < count }
{
    match order {
        Order::Rising => i,
        Order::Shuffled => (i as u64 * STRIDE % count as u64) as u32,
    }
}

/// The bytes of a block.
fn bytes_of(n: u32) -> [u8; 2048] {
    let [first, second, ..] = n.to_le_bytes();
    let mut bytes = [first; 2048];
    bytes[0] = second;
    bytes
}

/// Whether a block is among the half that are known at random: the last bit of the number, well mixed.
fn is_drawn(n: u32) -> bool {
    let mixed = (n ^ n >> 16).wrapping_mul(0x7feb_352d);
    let mixed = (mixed ^ mixed >> 15).wrapping_mul(0x846c_a68b);
    (mixed ^ mixed >> 16) & 1 == 1
}

/// The table of the first `count` blocks, or of those of them that are drawn.
fn put_all(alloc: Global, count: u32, order: Order, all: bool) -> Result<BlockTable, TableError> {
    let mut table = BlockTable::new(alloc);
    for i in 0..count {
        let n = block_at(order, i, count);
        if all || is_drawn(n) {
            table.put(n, &bytes_of(n))?;
        }
    }
    Ok(table)
}

/// The table of two of each three blocks below `count`.
fn two_of_three(alloc: Global, count: u32, left_out: u32) -> Result<BlockTable, TableError> {
    let mut table = BlockTable::new(alloc);
    for n in 0..count {
        if n % 3 != left_out {
            table.put(n, &bytes_of(n))?;
        }
    }
    Ok(table)
}

/// The table of the blocks between two numbers.
fn between(alloc: Global, from: u32, to: u32) -> Result<BlockTable, TableError> {
    let mut table = BlockTable::new(alloc);
    for n in from..to {
        table.put(n, &bytes_of(n))?;
    }
    Ok(table)
}

/// The blocks in an ordered map, each with its bytes in a box.
fn map_all(
    alloc: Global,
    count: u32,
    order: Order,
) -> Result<BTreeMap<u32, Box<[u8; 2048]>>, AllocError> {
    let mut map = BTreeMap::new(alloc);
    for i in 0..count {
        let n = block_at(order, i, count);
        map.insert(n, Box::new(alloc, bytes_of(n))?)?;
    }
    Ok(map)
}

fn in_map(map: BTreeMap<u32, Box<[u8; 2048]>>) -> u32 {
    u32::try_from(map.len()).unwrap_or(u32::MAX)
}

/// The bytes of the blocks that the second table knows and the first does not, one after the other.
fn copy_new(
    alloc: Global,
    first: &BlockTable,
    second: &BlockTable,
    room: usize,
) -> Result<Vec<u8>, AllocError> {
    let mut copy = Vec::new(alloc);
    copy.reserve(room)?;
    for (n, fact) in second.entries() {
        if let Fact::Known(bytes) = fact {
            if matches!(first.state(n), Fact::Unknown) {
                copy.extend_from_slice(bytes)?;
            }
        }
    }
    Ok(copy)
}

/// Joins the second table into the first. Prints how long the plain copying of the new blocks took, and how
/// long the join took. Returns how many blocks are known then.
fn join(
    rt: &HostRuntime,
    mut first: BlockTable,
    second: &BlockTable,
    new: u32,
) -> anyhow::Result<u32> {
    let start = Instant::now(rt)?;
    let copy = copy_new(rt.alloc(), &first, second, new as usize * 2048)?;
    eprintln!(rt; "copy {}", start.elapsed(rt)?.as_micros())?;
    drop(copy);
    let start = Instant::now(rt)?;
    first.join(second)?;
    eprintln!(rt; "join {}", start.elapsed(rt)?.as_micros())?;
    Ok(first.known())
}

/// Does one piece of work, prints how long all of it took, and returns how many blocks are known then.
fn work(rt: &HostRuntime, word: &str, count: u32) -> anyhow::Result<u32> {
    let alloc = rt.alloc();
    let start = Instant::now(rt)?;
    let known = match word {
        "rising" => put_all(alloc, count, Order::Rising, true)?.known(),
        "shuffled" => put_all(alloc, count, Order::Shuffled, true)?.known(),
        "half" => put_all(alloc, count, Order::Rising, false)?.known(),
        "half-shuffled" => put_all(alloc, count, Order::Shuffled, false)?.known(),
        "map" => in_map(map_all(alloc, count, Order::Rising)?),
        "map-shuffled" => in_map(map_all(alloc, count, Order::Shuffled)?),
        "join-mixed" => {
            let first = two_of_three(alloc, count, 0)?;
            join(rt, first, &two_of_three(alloc, count, 1)?, count / 3)?
        }
        _ => {
            let first = between(alloc, 0, count / 3 * 2)?;
            join(rt, first, &between(alloc, count / 3, count)?, count / 3)?
        }
    };
    eprintln!(rt; "all {}", start.elapsed(rt)?.as_micros())?;
    Ok(known)
}

/// Measures one piece of work on this many blocks, `join` and 96 if left out: each time goes to standard error in microseconds, and how many
/// blocks are known to standard output.
pub fn measure(
    rt: &HostRuntime,
    word: Option<String>,
    blocks: Option<String>,
) -> anyhow::Result<()> {
    let count = blocks.and_then(|word| word.parse().ok()).unwrap_or(96);
    let known = work(rt, word.as_deref().unwrap_or("join"), count)?;
    println!(rt; "{known}")?;
    Ok(())
}
