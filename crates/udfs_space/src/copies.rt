//! The copies of a sparing table (UDF 2.2.11).

ghost use Rattle.std.specs.Prelude.{◌≡◌, ◌≢◌, ◌≤◌, ◌<◌, ◌+◌, ◌++◌, [], All, IfOk, IfSome, IsErrOf, OnErr, MatchOption, flat_map, length, option_map};
ghost use Rattle.udfs_lattice.specs.Volumes.{ascending, first_known};
ghost use Rattle.udfs_volume.specs.Layout.{blocks_in};
ghost use Rattle.udfs_space.specs.Parts.{FitAll};
ghost use Rattle.udfs_space.specs.Sparing.{copies, place_of, sparing_table_bytes, unread};

use crate::ascending::ascending;
use std::alloc::{AllocError, Global};
use udfs_lattice::{BlockStore, Fact, GaveUp, ReadFault};
use udfs_volume::SparableMap;

/// How many blocks a table of `bytes` bytes has.
fn blocks_in(bytes: u32) -> u32
    ensures { result ≡ blocks_in bytes }
{
    ((u64::from(bytes) + 2047) / 2048) as u32
}

/// The first known copy of block `k` of a table. It reads no bytes.
fn known_copy<B: BlockStore>(blocks: &B, places: &[u32], k: u32) -> Option<u32>
    requires { FitAll (k + 1) places.now }
    ensures { B.tells → result ≡ option_map (λ known. known.0) (first_known (B.states blocks.now) (copies places.now k)) }
{
    for place in places {
        if let Fact::Known(()) = blocks.knowledge(*place + k) {
            return Some(*place + k);
        }
    }
    None
}

/// Of the copies of block `k` of a table the first that is known, with its bytes.
fn first_copy<B: BlockStore>(
    blocks: &B,
    places: &[u32],
    k: u32,
) -> Result<Option<[u8; 2048]>, ReadFault>
    requires { FitAll (k + 1) places.now }
    ensures value { IfOk result (λ copy. B.tells → copy ≡ option_map (λ known. known.1) (first_known (B.states blocks.now) (copies places.now k))) }
    ensures size { IfOk result (λ copy. IfSome copy (λ block. length block ≡ 2048)) }
    ensures fails { OnErr result B.fails }
{
    for place in places {
        if let Fact::Known(block) = blocks.read(*place + k)? {
            return Ok(Some(block));
        }
    }
    Ok(None)
}

/// The block of the first known copy of a table's block 0, or 0 if no copy of it is known.
pub(crate) fn first_place<B: BlockStore>(blocks: &B, places: &[u32]) -> u32
    requires { FitAll 1 places.now }
    ensures { B.tells → result ≡ place_of (first_known (B.states blocks.now) (copies places.now 0)) }
{
    match known_copy(blocks, places, 0) {
        Some(place) => place,
        None => 0,
    }
}

/// The bytes of a table, if of each block a copy is known: of each the first.
pub(crate) fn table_bytes<B: BlockStore>(
    alloc: Global,
    blocks: &B,
    map: &SparableMap,
) -> Result<Option<Vec<u8>>, GaveUp>
    requires { FitAll (blocks_in map.now.size) map.now.tables.items }
    ensures holes { IfOk result (λ read. B.tells → MatchOption read
        (unread (B.states blocks.now) map.now.tables.items (blocks_in map.now.size) ≢ [])
        (λ bytes. unread (B.states blocks.now) map.now.tables.items (blocks_in map.now.size) ≡ [])) }
    ensures value { IfOk result (λ read. B.tells → MatchOption read (Unit {0})
        (λ bytes. bytes.items ≡ sparing_table_bytes (B.states blocks.now) map.now.size map.now.tables.items)) }
    ensures size { IfOk result (λ read. MatchOption read (Unit {0}) (λ bytes. length bytes.items ≡ map.now.size)) }
    ensures fails { IsErrOf result GaveUp.Unread → B.fails }
{
    let mut bytes = Vec::new(alloc);
    for k in 0..blocks_in(map.size) {
        let Some(block) = first_copy(blocks, &map.tables, k)? else {
            return Ok(None);
        };
        bytes.extend_from_slice(&block)?;
    }
    bytes.truncate(map.size as usize);
    Ok(Some(bytes))
}

/// The numbers of those blocks of a table of which no copy is known.
fn unread<B: BlockStore>(
    alloc: Global,
    blocks: &B,
    map: &SparableMap,
) -> Result<Vec<u32>, AllocError>
    requires { FitAll (blocks_in map.now.size) map.now.tables.items }
    ensures value { IfOk result (λ found. B.tells → found.items ≡ unread (B.states blocks.now) map.now.tables.items (blocks_in map.now.size)) }
    ensures below { IfOk result (λ found. All (λ k. k < blocks_in map.now.size) found.items) }
{
    let mut found = Vec::new(alloc);
    for k in 0..blocks_in(map.size) {
        match known_copy(blocks, &map.tables, k) {
            Some(_) => {}
            None => found.push(k)?,
        }
    }
    Ok(found)
}

/// Appends the copies of block `k` to `numbers`.
fn push_copies(numbers: &mut Vec<u32>, places: &[u32], k: u32) -> Result<(), AllocError>
    requires { FitAll (k + 1) places.now }
    ensures { IfOk result (λ done. numbers.new.items ≡ numbers.old.items ++ copies places.now k) }
{
    for first in places {
        numbers.push(*first + k)?;
    }
    Ok(())
}

/// The copies of all those blocks of a table of which no copy is known, ascending and each once.
pub(crate) fn holes<B: BlockStore>(
    alloc: Global,
    blocks: &B,
    map: &SparableMap,
) -> Result<Vec<u32>, AllocError>
    requires { FitAll (blocks_in map.now.size) map.now.tables.items }
    ensures { IfOk result (λ holes. B.tells → holes.items ≡ ascending (flat_map (copies map.now.tables.items)
        (unread (B.states blocks.now) map.now.tables.items (blocks_in map.now.size)))) }
{
    let unread = unread(alloc, blocks, map)?;
    let mut numbers = Vec::new(alloc);
    for k in &unread {
        push_copies(&mut numbers, &map.tables, *k)?;
    }
    ascending(alloc, &numbers)
}
