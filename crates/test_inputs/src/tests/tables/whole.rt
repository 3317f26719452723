//! Whole tables.

use super::steps::{Step, after};
use crate::tests::{assert_case, assert_same};
use std::alloc::Global;
use std::test::Fail;
use udfs_lattice::table::LAST_BLOCK;
use udfs_lattice::{BlockTable, Fact, Join, TableError};

/// Two passes, of which the second has another content of block 300.
static FIRST: [Step; 3] = [
    Step::Put(300, 0x61),
    Step::Put(5, 0x62),
    Step::IsRefused(LAST_BLOCK + 1),
];

static SECOND: [Step; 2] = [Step::Put(300, 0x62), Step::Put(LAST_BLOCK, 0x63)];

#[test]
fn joins_two_passes(rt: HostRuntime) -> Result<(), Fail> {
    let alloc = rt.alloc();
    let mut table = after(&rt, alloc, &FIRST)?;
    let other = after(&rt, alloc, &SECOND)?;
    table.join(&other)?;
    table.join(&other)?;
    assert_same(&rt, (table.known(), table.conflicts()), (2, 1));
    let mut numbers = Vec::new(alloc);
    for (n, fact) in table.entries() {
        assert!(rt; fact == table.state(n));
        numbers.push(n)?;
    }
    assert_same(&rt, numbers.as_slice(), [5, 300, LAST_BLOCK].as_slice());
    assert!(rt; matches!(table.state(300), Fact::Conflict));
    assert!(rt; matches!(table.state(6), Fact::Unknown));
    assert!(rt; matches!(table.state(5), Fact::Known(bytes) if bytes[2047] == 0x62));
    Ok(())
}

/// Unknown blocks to the end of a packet.
static AHEAD: [Step; 15] = [
    Step::Put(70, 0x61),
    Step::Dispute(95),
    Step::Ahead(0, 32),
    Step::Ahead(31, 1),
    Step::Ahead(32, 32),
    Step::Ahead(64, 6),
    Step::Ahead(69, 1),
    Step::Ahead(70, 0),
    Step::Ahead(71, 24),
    Step::Ahead(94, 1),
    Step::Ahead(95, 0),
    Step::Ahead(LAST_BLOCK, 1),
    Step::Ahead(u32::MAX, 1),
    Step::Forget(70),
    Step::Ahead(64, 31),
];

/// Blocks are forgotten one by one.
static FORGETTING: [Step; 17] = [
    Step::Put(62, 0x61),
    Step::Put(63, 0x62),
    Step::Put(64, 0x63),
    Step::Dispute(61),
    Step::Dispute(60),
    Step::Forget(63),
    Step::Forget(61),
    Step::Forget(5000),
    Step::Forget(u32::MAX),
    Step::Counts(2, 1),
    Step::IsUnknown(63),
    Step::IsUnknown(61),
    Step::IsConflict(60),
    Step::Is(62, 0x61),
    Step::Is(64, 0x63),
    Step::Put(61, 0x64),
    Step::Is(61, 0x64),
];

/// Conflicts are forgotten, and lists of blocks.
static FORGETTING_MANY: [Step; 19] = [
    Step::Put(0, 0x61),
    Step::Put(31, 0x61),
    Step::Put(32, 0x61),
    Step::Put(LAST_BLOCK, 0x61),
    Step::Dispute(1),
    Step::Dispute(32),
    Step::Dispute(5000),
    Step::Dispute(LAST_BLOCK),
    Step::ForgetConflicts,
    Step::Counts(2, 0),
    Step::IsUnknown(LAST_BLOCK),
    Step::Put(33, 0x62),
    Step::Put(LAST_BLOCK, 0x62),
    Step::ForgetAll(&[]),
    Step::Counts(4, 0),
    Step::ForgetAll(&[LAST_BLOCK, 0, 7, LAST_BLOCK + 1, 0]),
    Step::Counts(2, 0),
    Step::Is(31, 0x61),
    Step::Is(33, 0x62),
];

/// States are added.
static ADDING: [Step; 10] = [
    Step::AddUnknown(7),
    Step::Counts(0, 0),
    Step::Add(7, 0x61),
    Step::Counts(1, 0),
    Step::Dispute(7),
    Step::Put(7, 0x61),
    Step::IsConflict(7),
    Step::Dispute(8),
    Step::Counts(0, 2),
    Step::IsRefused(LAST_BLOCK + 1),
];

#[test]
fn steps(rt: HostRuntime) -> Result<(), Fail> {
    after(&rt, rt.alloc(), &AHEAD)?;
    after(&rt, rt.alloc(), &FORGETTING)?;
    after(&rt, rt.alloc(), &FORGETTING_MANY)?;
    after(&rt, rt.alloc(), &ADDING)?;
    Ok(())
}

/// Whether `now` lies between the old state and the one that the join gives.
fn is_between(old: Fact<&[u8; 2048]>, now: Fact<&[u8; 2048]>, whole: Fact<&[u8; 2048]>) -> bool {
    now == old || now == whole
}

fn two_tables(alloc: Global) -> Result<(BlockTable, BlockTable), TableError> {
    let mut table = BlockTable::new(alloc);
    let mut other = BlockTable::new(alloc);
    for n in 0..8u32 {
        table.put(2 * n, &[0x61; 2048])?;
        other.put(3 * n, &[0x62; 2048])?;
    }
    Ok((table, other))
}

/// Where one allocation fails (`rt try --test --fail-alloc N`): a join that fails leaves a table between the
/// old table and the join, and the same join again gives the join.
#[test]
fn a_refused_join_can_be_done_again(rt: HostRuntime) -> Result<(), Fail> {
    let alloc = rt.alloc();
    let Ok((mut table, other)) = two_tables(alloc) else {
        return Ok(());
    };
    let Ok((old, _)) = two_tables(alloc) else {
        return Ok(());
    };
    let Ok((mut whole, _)) = two_tables(alloc) else {
        return Ok(());
    };
    let first = table.join(&other);
    if whole.join(&other).is_err() {
        return Ok(());
    }
    for n in 0..24u32 {
        assert_case(
            &rt,
            is_between(old.state(n), table.state(n), whole.state(n)),
            n,
        );
    }
    if first.is_err() {
        table.join(&other)?;
    }
    for n in 0..24u32 {
        assert_case(&rt, table.state(n) == whole.state(n), n);
    }
    assert_same(&rt, whole.conflicts(), 3);
    assert_same(&rt, whole.known(), 10);
    Ok(())
}

fn joined<J: Join + Drop>(mut first: J, second: &J) -> Result<J, TableError> {
    first.join(second)?;
    Ok(first)
}

#[test]
fn joins_facts(rt: HostRuntime) -> Result<(), Fail> {
    assert_same(
        &rt,
        joined(Fact::Known([1, 2]), &Fact::Unknown)?,
        Fact::Known([1, 2]),
    );
    assert_same(
        &rt,
        joined(Fact::Known([1, 2]), &Fact::Known([1, 3]))?,
        Fact::Conflict,
    );
    assert_same(
        &rt,
        joined(Fact::Conflict, &Fact::Known([1, 3]))?,
        Fact::Conflict,
    );
    Ok(())
}

#[test]
fn names_its_errors(rt: HostRuntime) -> Result<(), Fail> {
    let number = TableError::BlockNumber.to_string(rt.alloc())?;
    assert_same(&rt, number.as_str(), "the block number is above 4194303");
    let memory = TableError::OutOfMemory.to_string(rt.alloc())?;
    assert_same(&rt, memory.as_str(), "out of memory");
    Ok(())
}
