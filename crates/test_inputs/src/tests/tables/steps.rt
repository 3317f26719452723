//! Steps on a table of blocks, and what it then has.

use std::alloc::Global;
use std::process::Abort;
use std::test::Fail;
use udfs_lattice::{BlockTable, Fact, TableError};

/// What is done to a table, or what is so of it.
#[derive(Clone, Copy)]
pub enum Step {
    /// A block is read that is full of this byte.
    Put(u32, u8),
    /// A block is added of which nothing is known, that is full of this byte, or that is in conflict.
    AddUnknown(u32),
    Add(u32, u8),
    Dispute(u32),
    /// Blocks are forgotten.
    Forget(u32),
    ForgetAll(&'static [u32]),
    ForgetConflicts,
    /// So many blocks are known, and so many in conflict.
    Counts(u32, u32),
    /// A block is not known, is full of this byte, or is in conflict.
    IsUnknown(u32),
    Is(u32, u8),
    IsConflict(u32),
    /// So many blocks from this one on, up to the end of the packet, are not known.
    Ahead(u32, u32),
    /// There is no such block: it is not taken.
    IsRefused(u32),
}

/// Does a step, or returns whether it is so.
fn is_so(table: &mut BlockTable, step: Step) -> Result<bool, TableError> {
    match step {
        Step::Put(n, byte) => table.put(n, &[byte; 2048])?,
        Step::AddUnknown(n) => table.add(n, Fact::Unknown)?,
        Step::Add(n, byte) => table.add(n, Fact::Known(&[byte; 2048]))?,
        Step::Dispute(n) => table.add(n, Fact::Conflict)?,
        Step::Forget(n) => table.forget(n),
        Step::ForgetAll(blocks) => table.forget_all(blocks),
        Step::ForgetConflicts => table.forget_conflicts(),
        Step::IsRefused(n) => {
            return Ok(table.put(n, &[0; 2048]).is_err() && table.add(n, Fact::Conflict).is_err());
        }
        _ => return Ok(is_seen(table, step)),
    }
    Ok(true)
}

/// Whether it is so of a table.
fn is_seen(table: &BlockTable, step: Step) -> bool {
    match step {
        Step::Counts(known, conflicts) => table.known() == known && table.conflicts() == conflicts,
        Step::IsUnknown(n) => matches!(table.state(n), Fact::Unknown),
        Step::Is(n, byte) => matches!(table.state(n), Fact::Known(bytes) if *bytes == [byte; 2048]),
        Step::IsConflict(n) => matches!(table.state(n), Fact::Conflict),
        Step::Ahead(n, count) => table.unknown_ahead(n) == count,
        _ => false,
    }
}

/// The table after steps each of which is so.
pub fn after(rt: &impl Abort, alloc: Global, steps: &[Step]) -> Result<BlockTable, Fail> {
    let mut table = BlockTable::new(alloc);
    for (i, step) in steps.iter().enumerate() {
        let is_so = is_so(&mut table, *step)?;
        assert!(rt; is_so, "step {i}");
    }
    Ok(table)
}
