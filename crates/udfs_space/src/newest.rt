//! The copy of a sparing table that counts by the wide rules (UDF 2.01 2.2.11).

ghost use Rattle.std.specs.Prelude.{◌≡◌, ◌≤◌, ◌+◌, ◌∷◌, [], IfOk, IsErrOf};
ghost use Rattle.udfs_volume.specs.Layout.{blocks_in};
ghost use Rattle.udfs_volume.specs.Parts.{sparable_now};
ghost use Rattle.udfs_volume.specs.Seen.{IfGot, Sees};
ghost use Rattle.udfs_space.specs.Parts.{AreSound, CopyFits, FitAll, HasNumber, begins, best_with, later_copy, number_at};
ghost use Rattle.udfs_space.specs.Sparing.{counted_map, is_whole_copy, newest, spared, table_number};

use crate::copies::table_bytes;
use crate::entries::{SparingEntry, behind};
use crate::spans::spared;
use byteorder::{ByteOrder, LittleEndian};
use std::alloc::{AllocError, Global};
use udfs_lattice::{BlockStore, GaveUp};
use udfs_tag::{Tag, identifiers};
use udfs_volume::{Profile, Seen, SparableMap};

/// A copy of a sparing table that is known whole.
#[derive(Clone, Copy, Debug, PartialEq, Eq)]
pub(crate) struct TableCopy {
    /// The block at which it begins.
    place: u32,
    /// Its sequence number.
    number: u32,
}

/// A map like this one, whose only table begins at this block.
fn alone(alloc: Global, map: &SparableMap, place: u32) -> Result<SparableMap, AllocError>
    ensures packet { IfOk result (λ made. made.packet ≡ map.now.packet) }
    ensures size { IfOk result (λ made. made.size ≡ map.now.size) }
    ensures tables { IfOk result (λ made. made.tables.items ≡ place ∷ []) }
{
    Ok(SparableMap {
        packet: map.packet,
        size: map.size,
        tables: vec![in alloc; place]?,
    })
}

/// The sequence number of the copy that begins at this block, if each of its blocks is known and its tag is valid there.
fn number_at<B: BlockStore>(
    alloc: Global,
    blocks: &B,
    map: &SparableMap,
    place: u32,
) -> Result<Option<u32>, GaveUp>
    requires size { 56 ≤ map.now.size }
    requires fit { place + blocks_in map.now.size ≤ 4194304 }
    ensures value { IfOk result (λ number. B.tells → number ≡ number_at (B.states blocks.now) map.now.size place) }
    ensures fails { IsErrOf result GaveUp.Unread → B.fails }
{
    let alone = alone(alloc, map, place)?;
    let Some(bytes) = table_bytes(alloc, blocks, &alone)? else {
        return Ok(None);
    };
    if !Tag::is_valid(&bytes, place, identifiers::SPARING_TABLE) {
        return Ok(None);
    }
    let content = behind(&bytes, 16);
    Ok(Some(LittleEndian::read_u32(behind(content, 36))))
}

/// The later of two copies by their numbers: on a tie the first.
fn later(best: Option<TableCopy>, next: TableCopy) -> TableCopy
    ensures { result ≡ later_copy best next }
{
    match best {
        Some(first) => {
            if first.number < next.number {
                next
            } else {
                first
            }
        }
        None => next,
    }
}

/// The later one of the best copy so far and the copy that begins at this block, if that is known whole.
fn better<B: BlockStore>(
    alloc: Global,
    blocks: &B,
    map: &SparableMap,
    best: Option<TableCopy>,
    place: u32,
) -> Result<Option<TableCopy>, GaveUp>
    requires size { 56 ≤ map.now.size }
    requires fit { place + blocks_in map.now.size ≤ 4194304 }
    requires best { CopyFits (blocks_in map.now.size) best }
    ensures value { IfOk result (λ next. B.tells → HasNumber (B.states blocks.now) map.now.size best
        → begins next ≡ best_with (table_number (B.states blocks.now) map.now.size) (is_whole_copy (B.states blocks.now) map.now.size) (begins best) place) }
    ensures number { IfOk result (λ next. B.tells → HasNumber (B.states blocks.now) map.now.size best → HasNumber (B.states blocks.now) map.now.size next) }
    ensures fits { IfOk result (CopyFits (blocks_in map.now.size)) }
    ensures fails { IsErrOf result GaveUp.Unread → B.fails }
{
    match number_at(alloc, blocks, map, place)? {
        Some(number) => Ok(Some(later(best, TableCopy { place, number }))),
        None => Ok(best),
    }
}

/// The newest copy of a table: of those that are known whole the first with the greatest sequence number.
fn newest<B: BlockStore>(
    alloc: Global,
    blocks: &B,
    map: &SparableMap,
) -> Result<Option<TableCopy>, GaveUp>
    requires size { 56 ≤ map.now.size }
    requires fit { FitAll (blocks_in map.now.size) map.now.tables.items }
    ensures value { IfOk result (λ copy. B.tells → begins copy ≡ newest (B.states blocks.now) map.now.size map.now.tables.items) }
    ensures fits { IfOk result (CopyFits (blocks_in map.now.size)) }
    ensures fails { IsErrOf result GaveUp.Unread → B.fails }
{
    let mut best = None;
    for place in &map.tables {
        best = better(alloc, blocks, map, best, *place)?;
    }
    Ok(best)
}

/// The packets that the sparing table of a map spares, by the copies of it that count, or the holes or the first fault of the table.
pub(crate) fn spared_by_counted<B: BlockStore>(
    alloc: Global,
    blocks: &B,
    profile: Profile,
    last: u32,
    map: &SparableMap,
) -> Result<Seen<Vec<SparingEntry>>, GaveUp>
    requires last { last ≤ 4194303 }
    requires packet { 1 ≤ map.now.packet }
    requires size { 56 ≤ map.now.size }
    requires fit { FitAll (blocks_in map.now.size) map.now.tables.items }
    ensures value { IfOk result (λ seen. B.tells → Sees (λ packets. packets.items) seen (spared (B.states blocks.now) last (counted_map profile (B.states blocks.now) (sparable_now map.now)))) }
    ensures sound { IfOk result (λ seen. IfGot seen (λ packets. AreSound map.now.packet packets.items)) }
    ensures fails { IsErrOf result GaveUp.Unread → B.fails }
{
    match profile {
        Profile::Strict => spared(alloc, blocks, last, map),
        Profile::Wide => match newest(alloc, blocks, map)? {
            None => spared(alloc, blocks, last, map),
            Some(copy) => {
                let alone = alone(alloc, map, copy.place)?;
                spared(alloc, blocks, last, &alone)
            }
        },
    }
}
