//! The copies of sparing tables (UDF 2.01 2.2.11).

ghost use Rattle.std.specs.Prelude.{◌≡◌, ◌≤◌, ◌<◌, ◌+◌, ◌-◌, ◌++◌, All, IfOk, IfSome, IsErrOf, MatchOption, OnErr, drop, false, find, length, map, take, true};
ghost use Rattle.std.specs.List.{range_with_len};
ghost use Rattle.udfs_lattice.specs.States.{fact_now, is_known};
ghost use Rattle.udfs_lattice.specs.declared.facts.Fact.TheVariants.{Known};
ghost use Rattle.udfs_volume.specs.Layout.{blocks_in};
ghost use Rattle.udfs_volume.specs.LayoutParts.{partition_now};
ghost use Rattle.udfs_space.specs.Parts.{FitAll};
ghost use Rattle.udfs_lawfulness.specs.Searching.{apart_from, apart_in, copies_apart, copies_reason, map_reason, partitions_reason};
ghost use Rattle.udfs_lawfulness.specs.Tables.{FitsMap, blocks_of, copy_bytes, differs, differs_known, is_known_copy, is_untagged, map_blocks, said_in, table_blocks};

use crate::answers::Reason;
use std::alloc::{AllocError, Global};
use udfs_lattice::{BlockStore, Fact, GaveUp, ReadFault};
use udfs_tag::{Tag, identifiers};
use udfs_volume::{Partition, PartitionMap, SparableMap};

/// The bytes before a position, or all if there are not more than that.
#[tactic(auto, using(std::proofs::lemmas::List::take_all))]
fn front(bytes: &[u8], position: u64) -> &[u8]
    ensures { result.now ≡ take position bytes.now }
{
    if position >= bytes.len() as u64 {
        return bytes;
    }
    let (before, _) = bytes.split_at(position as usize);
    before
}

/// The bytes from a position on, if there are any.
#[tactic(auto, using(std::proofs::lemmas::List::drop_all))]
pub(crate) fn behind(bytes: &[u8], position: usize) -> &[u8]
    ensures { result.now ≡ drop position bytes.now }
{
    if position >= bytes.len() {
        return &[];
    }
    let (_, after) = bytes.split_at(position);
    after
}

/// What block `k` of a table of `size` bytes says: its bytes after the table's tag, and none after the table's size.
fn said_in(size: u32, k: u32, block: &[u8; 2048]) -> &[u8]
    ensures { result.now ≡ said_in size k block.now }
{
    let left = u64::from(size).saturating_sub(2048 * u64::from(k));
    behind(front(block, left), if k == 0 { 16 } else { 0 })
}

/// Whether block `k` of a copy does not say the same as that of another, if this is known.
fn differs_known(size: u32, k: u32, one: &[u8; 2048], other: Fact<&[u8; 2048]>) -> bool
    ensures { result ≡ differs_known size k one.now (fact_now other.entry) }
{
    match other {
        Fact::Known(other) => said_in(size, k, one) != said_in(size, k, other),
        _ => false,
    }
}

/// Whether block `k` of two copies is known in both, and does not say the same.
fn differs(size: u32, k: u32, one: Fact<&[u8; 2048]>, other: Fact<&[u8; 2048]>) -> bool
    ensures { result ≡ differs size k (fact_now one.entry) (fact_now other.entry) }
{
    match one {
        Fact::Known(one) => differs_known(size, k, one, other),
        _ => false,
    }
}

/// Whether block `k` of the copies that begin at two places is known in both, and does not say the same.
fn differ_at<B: BlockStore>(
    blocks: &B,
    size: u32,
    k: u32,
    place: u32,
    other: u32,
) -> Result<bool, ReadFault>
    requires place { place + k < 4194304 }
    requires other { other + k < 4194304 }
    ensures value { IfOk result (λ differ. B.tells → differ ≡ differs size k (B.states blocks.now (place + k)) (B.states blocks.now (other + k))) }
    ensures fails { OnErr result B.fails }
{
    let mut one_room = [0; 2048];
    let mut room = [0; 2048];
    let one = blocks.lend(place + k, &mut one_room)?;
    let two = blocks.lend(other + k, &mut room)?;
    Ok(differs(size, k, one, two))
}

/// Block `k` of the copy that begins at a place, and that of the first of these copies that differs from it.
fn apart_from<B: BlockStore>(
    blocks: &B,
    size: u32,
    k: u32,
    places: &[u32],
    place: u32,
) -> Result<Option<(u32, u32)>, ReadFault>
    requires place { place + k < 4194304 }
    requires fit { FitAll (k + 1) places.now }
    ensures value { IfOk result (λ pair. B.tells → pair ≡ apart_from (B.states blocks.now) size k places.now place) }
    ensures fails { OnErr result B.fails }
{
    for other in places {
        let differ = differ_at(blocks, size, k, place, *other)?;
        if differ {
            return Ok(Some((place + k, *other + k)));
        }
    }
    Ok(None)
}

/// Block `k` of the first two copies that differ in it.
fn apart_in<B: BlockStore>(
    blocks: &B,
    size: u32,
    k: u32,
    places: &[u32],
) -> Result<Option<(u32, u32)>, ReadFault>
    requires { FitAll (k + 1) places.now }
    ensures value { IfOk result (λ pair. B.tells → pair ≡ apart_in (B.states blocks.now) size places.now k) }
    ensures fails { OnErr result B.fails }
{
    for place in places {
        let found = apart_from(blocks, size, k, places, *place)?;
        if let Some(pair) = found {
            return Ok(Some(pair));
        }
    }
    Ok(None)
}

/// How many blocks a table of `bytes` bytes takes.
fn blocks_in(bytes: u32) -> u32
    ensures { result ≡ blocks_in bytes }
{
    ((u64::from(bytes) + 2047) / 2048) as u32
}

/// The first block of the table of a map in which copies differ: that block of two of them.
fn copies_apart<B: BlockStore>(
    blocks: &B,
    map: &SparableMap,
) -> Result<Option<(u32, u32)>, ReadFault>
    requires { FitAll (blocks_in map.now.size) map.now.tables.items }
    ensures value { IfOk result (λ pair. B.tells → pair ≡ copies_apart (B.states blocks.now) map.now.size map.now.tables.items) }
    ensures fails { OnErr result B.fails }
{
    for k in 0..blocks_in(map.size) {
        let found = apart_in(blocks, map.size, k, &map.tables)?;
        if let Some(pair) = found {
            return Ok(Some(pair));
        }
    }
    Ok(None)
}

/// The bytes of a block, if it is known.
fn known_block<B: BlockStore>(blocks: &B, n: u32) -> Result<Option<[u8; 2048]>, ReadFault>
    ensures known { IfOk result (λ read. B.tells → MatchOption read (is_known (B.states blocks.now n) ≡ false) (λ block. B.states blocks.now n ≡ Known block)) }
    ensures size { IfOk result (λ read. IfSome read (λ block. length block ≡ 2048)) }
    ensures fails { OnErr result B.fails }
{
    match blocks.read(n)? {
        Fact::Known(block) => Ok(Some(block)),
        _ => Ok(None),
    }
}

/// The bytes of the copy of a table that begins at a place, if each of its blocks is known.
fn copy_bytes<B: BlockStore>(
    alloc: Global,
    blocks: &B,
    size: u32,
    place: u32,
) -> Result<Option<Vec<u8>>, GaveUp>
    requires { place + blocks_in size ≤ 4194304 }
    ensures known { IfOk result (λ read. B.tells → MatchOption read (is_known_copy (B.states blocks.now) size place ≡ false)
        (λ bytes. is_known_copy (B.states blocks.now) size place ≡ true)) }
    ensures value { IfOk result (λ read. B.tells → MatchOption read (Unit {0}) (λ bytes. bytes.items ≡ copy_bytes (B.states blocks.now) size place)) }
    ensures size { IfOk result (λ read. MatchOption read (Unit {0}) (λ bytes. length bytes.items ≡ size)) }
    ensures fails { IsErrOf result GaveUp.Unread → B.fails }
{
    let mut bytes = Vec::new(alloc);
    for k in 0..blocks_in(size) {
        let read = known_block(blocks, place + k)?;
        let Some(block) = read else {
            return Ok(None);
        };
        bytes.extend_from_slice(&block)?;
    }
    bytes.truncate(size as usize);
    Ok(Some(bytes))
}

/// Whether the copy of a table that begins at a place is known whole, and has no valid tag there.
fn is_untagged<B: BlockStore>(
    alloc: Global,
    blocks: &B,
    size: u32,
    place: u32,
) -> Result<bool, GaveUp>
    requires size { 56 ≤ size }
    requires fit { place + blocks_in size ≤ 4194304 }
    ensures value { IfOk result (λ untagged. B.tells → untagged ≡ is_untagged (B.states blocks.now) size place) }
    ensures fails { IsErrOf result GaveUp.Unread → B.fails }
{
    match copy_bytes(alloc, blocks, size, place)? {
        Some(bytes) => Ok(!Tag::is_valid(&bytes, place, identifiers::SPARING_TABLE)),
        None => Ok(false),
    }
}

/// Where the first copy of the table of a map begins that is known whole and has no valid tag.
fn untagged<B: BlockStore>(
    alloc: Global,
    blocks: &B,
    map: &SparableMap,
) -> Result<Option<u32>, GaveUp>
    requires size { 56 ≤ map.now.size }
    requires fit { FitAll (blocks_in map.now.size) map.now.tables.items }
    ensures value { IfOk result (λ place. B.tells → place ≡ find (is_untagged (B.states blocks.now) map.now.size) map.now.tables.items) }
    ensures fails { IsErrOf result GaveUp.Unread → B.fails }
{
    for place in &map.tables {
        let without = is_untagged(alloc, blocks, map.size, *place)?;
        if without {
            return Ok(Some(*place));
        }
    }
    Ok(None)
}

/// Why the copies of the table of a map are not lawful.
fn copies_reason<B: BlockStore>(
    alloc: Global,
    blocks: &B,
    map: &SparableMap,
) -> Result<Option<Reason>, GaveUp>
    requires size { 56 ≤ map.now.size }
    requires fit { FitAll (blocks_in map.now.size) map.now.tables.items }
    ensures value { IfOk result (λ reason. B.tells → reason ≡ copies_reason (B.states blocks.now) map.now.size map.now.tables.items) }
    ensures fails { IsErrOf result GaveUp.Unread → B.fails }
{
    if let Some((one, other)) = copies_apart(blocks, map)? {
        return Ok(Some(Reason::Tables { one, other }));
    }
    match untagged(alloc, blocks, map)? {
        Some(place) => Ok(Some(Reason::NoTable(place))),
        None => Ok(None),
    }
}

/// The same of the table of a partition's map, if it has one.
fn map_reason<B: BlockStore>(
    alloc: Global,
    blocks: &B,
    partition: &Partition,
) -> Result<Option<Reason>, GaveUp>
    requires { FitsMap (partition_now partition.now).kind }
    ensures value { IfOk result (λ reason. B.tells → reason ≡ map_reason (B.states blocks.now) (partition_now partition.now).kind) }
    ensures fails { IsErrOf result GaveUp.Unread → B.fails }
{
    match &partition.kind {
        PartitionMap::Type1 => Ok(None),
        PartitionMap::Sparable(map) => copies_reason(alloc, blocks, map),
    }
}

/// The same of the first of these partitions.
pub(crate) fn partitions_reason<B: BlockStore>(
    alloc: Global,
    blocks: &B,
    partitions: &[Partition],
) -> Result<Option<Reason>, GaveUp>
    requires { All (λ p. FitsMap (partition_now p).kind) partitions.now }
    ensures value { IfOk result (λ reason. B.tells → reason ≡ partitions_reason (B.states blocks.now) (map partition_now partitions.now)) }
    ensures fails { IsErrOf result GaveUp.Unread → B.fails }
{
    for partition in partitions {
        let found = map_reason(alloc, blocks, partition)?;
        if let Some(reason) = found {
            return Ok(Some(reason));
        }
    }
    Ok(None)
}

/// Appends the numbers from `first` to the one before `end`.
fn push_row(numbers: &mut Vec<u32>, first: u32, end: u32) -> Result<(), AllocError>
    ensures { IfOk result (λ done. numbers.new.items ≡ numbers.old.items ++ range_with_len first (end - first)) }
{
    for n in first..end {
        numbers.push(n)?;
    }
    Ok(())
}

/// Appends the blocks of the copies of a table that begin at these places.
fn push_copies(numbers: &mut Vec<u32>, size: u32, places: &[u32]) -> Result<(), AllocError>
    requires { FitAll (blocks_in size) places.now }
    ensures { IfOk result (λ done. numbers.new.items ≡ numbers.old.items ++ blocks_of size places.now) }
{
    for place in places {
        push_row(numbers, *place, *place + blocks_in(size))?;
    }
    Ok(())
}

/// Appends the blocks of the table of a partition's map, if it has one.
fn push_map(numbers: &mut Vec<u32>, partition: &Partition) -> Result<(), AllocError>
    requires { FitsMap (partition_now partition.now).kind }
    ensures { IfOk result (λ done. numbers.new.items ≡ numbers.old.items ++ map_blocks (partition_now partition.now).kind) }
{
    match &partition.kind {
        PartitionMap::Type1 => Ok(()),
        PartitionMap::Sparable(map) => push_copies(numbers, map.size, &map.tables),
    }
}

/// Appends the blocks of the tables of these partitions.
pub(crate) fn push_tables(
    numbers: &mut Vec<u32>,
    partitions: &[Partition],
) -> Result<(), AllocError>
    requires { All (λ p. FitsMap (partition_now p).kind) partitions.now }
    ensures { IfOk result (λ done. numbers.new.items ≡ numbers.old.items ++ table_blocks (map partition_now partitions.now)) }
{
    for partition in partitions {
        push_map(numbers, partition)?;
    }
    Ok(())
}
