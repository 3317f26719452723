//! Two tables joined, and joined again where the first join fails.

use crate::Ending;
use crate::discs::disc_named;
use std::alloc::{AllocError, Global};
use udfs_lattice::{BlockTable, Fact, Join, TableError};
use udfs_samples::{Disc, LAST};

/// The first pass: each block whose number is no multiple of 3.
fn first_pass(alloc: Global, disc: &Disc) -> Result<BlockTable, TableError> {
    let mut table = BlockTable::new(alloc);
    for n in 0..LAST {
        if n % 3 != 0 {
            disc.put(&mut table, n)?;
        }
    }
    Ok(table)
}

/// The second pass: each block with an even number, one of them of other bytes.
fn second_pass(alloc: Global, disc: &Disc, other: u32) -> Result<BlockTable, TableError> {
    let mut table = BlockTable::new(alloc);
    for n in 0..LAST {
        if n % 2 == 0 && n != other {
            disc.put(&mut table, n)?;
        }
    }
    table.put(other % 4_194_304, &[0x5a; 2048])?;
    Ok(table)
}

/// Whether one state is that of a block in the other's place, or nearer to a conflict.
fn is_below(low: Fact<&[u8; 2048]>, high: Fact<&[u8; 2048]>) -> bool {
    match (low, high) {
        (Fact::Unknown, _) => true,
        (_, Fact::Conflict) => true,
        (Fact::Known(one), Fact::Known(other)) => one.as_slice() == other.as_slice(),
        _ => false,
    }
}

/// Whether a table says of each block at least what another says.
fn is_above(table: &BlockTable, below: &BlockTable) -> bool {
    for n in 0..LAST {
        if !is_below(below.state(n), table.state(n)) {
            return false;
        }
    }
    true
}

/// Joins two passes over a disc. Where the join fails, each state lies between its old one and that of the join, and
/// the same join again gives the join. The old table and the join are made anew from the records, to compare with.
pub fn join_twice(alloc: Global, name: &str, other: u32) -> Ending {
    let Ok(disc) = disc_named(alloc, name) else {
        return Ending::Unready;
    };
    let (Ok(old), Ok(mut table), Ok(mut joined), Ok(second)) = (
        first_pass(alloc, &disc),
        first_pass(alloc, &disc),
        first_pass(alloc, &disc),
        second_pass(alloc, &disc, other),
    ) else {
        return Ending::Unready;
    };
    for n in 0..LAST {
        if joined.add(n, second.state(n)).is_err() {
            return Ending::Unready;
        }
    }
    let refused = table.join(&second).is_err();
    if !is_above(&table, &old) || !is_above(&joined, &table) {
        return Ending::Wrong;
    }
    if refused && table.join(&second).is_err() {
        return Ending::Wrong;
    }
    if !is_above(&table, &joined) {
        return Ending::Wrong;
    }
    if refused {
        Ending::Refused
    } else {
        Ending::Done
    }
}
