//! The blocks by which a volume is opened, taken out of any store of blocks: what remarks on a volume are made from.

ghost use Rattle.std.specs.Prelude.{◌≤◌, IsErrOf};

use std::alloc::Global;
use udfs_lattice::table::LAST_BLOCK;
use udfs_lattice::{BlockStore, BlockTable, Fact, GaveUp, TableError};
use udfs_salvage::{ReportStore, Volume};
use udfs_tag::ExtentAd;
use udfs_volume::anchors::anchor;
use udfs_volume::{Partition, PartitionMap, Seen};

/// How many blocks an extent of descriptors that is taken has at most.
const MOST: u32 = 256;

/// Takes what the store says of a block. Of a block after the last one of any volume it says nothing.
fn take<B: BlockStore>(table: &mut BlockTable, blocks: &B, n: u32) -> Result<(), GaveUp>
    ensures fails { IsErrOf result GaveUp.Unread → B.fails }
{
    let mut room = [0; 2048];
    match table.add(n, blocks.lend(n, &mut room)?) {
        Err(TableError::OutOfMemory) => Err(GaveUp::OutOfMemory),
        Ok(()) | Err(TableError::BlockNumber) => Ok(()),
    }
}

/// Takes so many blocks from one on.
fn take_run<B: BlockStore>(
    table: &mut BlockTable,
    blocks: &B,
    first: u32,
    count: u32,
) -> Result<(), GaveUp>
    ensures fails { IsErrOf result GaveUp.Unread → B.fails }
{
    for n in first..first.saturating_add(count) {
        take(table, blocks, n)?;
    }
    Ok(())
}

/// Takes an extent of descriptors.
fn take_extent<B: BlockStore>(
    table: &mut BlockTable,
    blocks: &B,
    extent: ExtentAd,
) -> Result<(), GaveUp>
    ensures fails { IsErrOf result GaveUp.Unread → B.fails }
{
    take_run(table, blocks, extent.block, MOST.min(extent.length / 2048))
}

/// Takes the places of anchors (ECMA-167 3/8.4.2.1), and both extents of the first that is known and valid.
fn take_sequences<B: BlockStore>(
    alloc: Global,
    table: &mut BlockTable,
    blocks: &B,
    last: u32,
) -> Result<(), GaveUp>
    requires from { 513 ≤ last }
    requires to { last ≤ 4194303 }
    ensures fails { IsErrOf result GaveUp.Unread → B.fails }
{
    for place in [256, last - 256, last] {
        take(table, blocks, place)?;
    }
    if let Seen::Got(extents) = anchor(alloc, table, last) {
        take_extent(table, blocks, extents.main)?;
        take_extent(table, blocks, extents.reserve)?;
    }
    Ok(())
}

/// Takes the copies of the sparing table of a partition, if it has some (UDF 2.01 2.2.11).
fn take_copies<B: BlockStore>(
    table: &mut BlockTable,
    blocks: &B,
    partition: &Partition,
) -> Result<(), GaveUp>
    ensures fails { IsErrOf result GaveUp.Unread → B.fails }
{
    let PartitionMap::Sparable(map) = &partition.kind else {
        return Ok(());
    };
    for first in &map.tables {
        take_run(table, blocks, *first, map.size.div_ceil(2048))?;
    }
    Ok(())
}

/// Takes the copies of all sparing tables of a volume that opens.
fn take_all_copies<B: BlockStore>(
    table: &mut BlockTable,
    blocks: &B,
    volume: &Volume,
) -> Result<(), GaveUp>
    ensures fails { IsErrOf result GaveUp.Unread → B.fails }
{
    let Volume::Open(opened) = volume else {
        return Ok(());
    };
    for partition in &opened.parts.partitions {
        take_copies(table, blocks, partition)?;
    }
    Ok(())
}

/// What a store says of the blocks by which a volume with this last block is opened: of the places of anchors, of the descriptors in both extents that the first
/// anchor names, and of the copies of sparing tables of a volume that opens. They are some hundred at most.
///
/// # Errors
///
/// `OutOfMemory` where memory runs out, and `Unread` where the bytes of a known block could not be read.
pub(crate) fn structures_in<B: BlockStore>(
    alloc: Global,
    blocks: &B,
    last: u32,
    volume: &Volume,
) -> Result<BlockTable, GaveUp>
    ensures fails { IsErrOf result GaveUp.Unread → B.fails }
{
    let mut table = BlockTable::new(alloc);
    if last < 513 || last > LAST_BLOCK {
        return Ok(table);
    }
    take_sequences(alloc, &mut table, blocks, last)?;
    take_all_copies(&mut table, blocks, volume)?;
    Ok(table)
}

/// The greatest block of which something is known, where something after `low` is, and nothing after `high`.
fn greatest_between<B: ReportStore>(blocks: &B, low: u32, high: u32) -> u32
    requires { low ≤ high }
{
    let mut from = low;
    let mut to = high;
    while to - from > 1 {
        let middle = from + (to - from) / 2;
        match blocks.first_past(middle) {
            Some(_) => from = middle,
            None => to = middle,
        }
    }
    to
}

/// The greatest block of which something is known, if there is one. It reads nothing.
pub(crate) fn greatest_in<B: ReportStore>(blocks: &B) -> Option<u32> {
    match blocks.first_past(0) {
        Some(_) => Some(greatest_between(blocks, 0, LAST_BLOCK)),
        None => match blocks.knowledge(0) {
            Fact::Unknown => None,
            _ => Some(0),
        },
    }
}
