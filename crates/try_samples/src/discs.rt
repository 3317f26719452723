//! The sample discs by name, and what passes over them know.

use crate::Ending;
use std::alloc::{AllocError, Global};
use udfs_lattice::{BlockTable, TableError};
use udfs_reading::{Sink, write_table};
use udfs_samples::Disc;

/// The disc with this name.
pub fn disc_named(alloc: Global, name: &str) -> Result<Disc, AllocError> {
    match name {
        "sparable" => Disc::sparable(alloc),
        "two" => Disc::two_maps(alloc),
        "continued" => Disc::continued(alloc),
        _ => Disc::type1(alloc),
    }
}

/// The table of all blocks of a disc but one.
pub fn table_of(alloc: Global, name: &str, unread: u32) -> Result<BlockTable, TableError> {
    disc_named(alloc, name)?.known_but(alloc, &[unread])
}

/// Writes that table's file.
pub fn table_file<W: Sink>(alloc: Global, name: &str, unread: u32, out: &mut W) -> Ending {
    let Ok(table) = table_of(alloc, name, unread) else {
        return Ending::Unready;
    };
    match write_table(&table, out) {
        Ok(()) => Ending::Done,
        Err(_) => Ending::Wrong,
    }
}
