//! Descriptors one at a time: what each gives, and what follows an area.

ghost use Rattle.std.specs.Prelude.{◌≡◌, ◌≢◌, ℕ, ◌≤◌, ◌<◌, ◌/◌, ◌&&◌, min, length, Bool, true, false, IsNone, is_none, IfOk, OnErr};
ghost use Rattle.udfs_lattice.specs.Volumes.{Blocks};
ghost use Rattle.udfs_lattice.specs.States.{fact_now};
ghost use Rattle.udfs_space.specs.Places.{view as seen, place, block_now};
ghost use Rattle.udfs_space.specs.Views.{view_by};
ghost use Rattle.udfs_file.specs.Bodies.{descriptor_at, recorded_at, is_last_at, in_whole_blocks, descriptor_count, continuation_fault, is_misreferred, is_misplaced, is_odd, cells_in, is_extent, next_area, next_if, next_by};
ghost use Rattle.udfs_tag.specs.Fields.{uint32_at};
ghost use Rattle.udfs_tag.specs.Fields.{part};
ghost use Rattle.udfs_file.specs.Stretches.{IsExtentRead, next_now, IsFollowed, FitsArea};

use crate::entries::descriptor_size;
use crate::faults::NodeFault;
use crate::stretches::{Follow, Run, Stretch};
use byteorder::{ByteOrder, LittleEndian};
use udfs_lattice::{BlockStore, Fact, ReadFault};
use udfs_space::{Space, StoreView};
use udfs_tag::{LbAddr, LongAd, ShortAd, Tag, extent_types, identifiers};

/// How many descriptors an area has.
pub(crate) fn descriptor_count(form: u16, area: &[u8]) -> usize
    ensures value { result ≡ descriptor_count form area.now }
    ensures fits { result ≤ length area.now }
{
    area.len() / descriptor_size(form) as usize
}

/// Descriptor i of an area, as it is recorded.
fn recorded(form: u16, reference: u16, area: &[u8], i: usize) -> LongAd
    requires { i < descriptor_count form area.now }
    ensures value { result ≡ recorded_at form reference area.now i }
    ensures short { result.length < 1073741824 }
{
    if form == 0 {
        let (_, rest) = area.split_at(8 * i);
        let short = ShortAd::read(rest);
        LongAd {
            kind: short.kind,
            length: short.length,
            block: short.block,
            reference,
        }
    } else {
        let (_, rest) = area.split_at(16 * i);
        LongAd::read(rest)
    }
}

/// Whether descriptor `i` of an area is its last extent: no descriptor follows it, or one of length 0.
fn is_last(form: u16, reference: u16, area: &[u8], i: usize) -> bool
    requires { i < descriptor_count form area.now }
    ensures { result ≡ is_last_at form reference area.now i }
{
    i + 1 >= descriptor_count(form, area) || recorded(form, reference, area, i + 1).length == 0
}

/// An extent up to the end of its last block.
fn in_whole_blocks(d: LongAd) -> LongAd
    requires { d.length < 1073741824 }
    ensures { result ≡ in_whole_blocks d }
{
    if d.kind == extent_types::NEXT_EXTENT {
        return d;
    }
    LongAd {
        kind: d.kind,
        length: (d.length + 2047) / 2048 * 2048,
        block: d.block,
        reference: d.reference,
    }
}

/// Descriptor i of an area, as it is counted: where the tail is taken, the last extent goes on to the end of its
/// last block.
pub(crate) fn descriptor(tail: bool, form: u16, reference: u16, area: &[u8], i: usize) -> LongAd
    requires { i < descriptor_count form area.now }
    ensures { result ≡ descriptor_at tail form reference area.now i }
{
    let d = recorded(form, reference, area, i);
    if tail && is_last(form, reference, area, i) {
        return in_whole_blocks(d);
    }
    d
}

fn is_misreferred(space: &Space, d: LongAd) -> bool
    ensures { (blocks : Blocks) → result ≡ is_misreferred (seen blocks space.now) d }
{
    d.kind == extent_types::RECORDED && d.reference >= space.maps()
}

fn is_misplaced(space: &Space, d: LongAd, count: u64) -> bool
    requires { count < 4294967296 }
    ensures { (blocks : Blocks) → result ≡ is_misplaced (seen blocks space.now) d count }
{
    d.kind == extent_types::RECORDED && space.is_past(d.address(), ((count + 2047) / 2048) as u32)
}

fn is_odd(size: u64, c: u64, d: LongAd) -> bool
    requires { c ≤ size }
    ensures { result ≡ is_odd size c d }
{
    d.kind != extent_types::NEXT_EXTENT && u64::from(d.length) < size - c && d.length % 2048 != 0
}

/// The stretch of a taken extent.
pub(crate) fn extent(space: &Space, size: u64, c: u64, d: LongAd) -> Result<Stretch, NodeFault>
    requires left { c < size }
    requires is_extent { d.kind ≢ 3 }
    ensures { (blocks : Blocks) → IsExtentRead result (seen blocks space.now) size c d }
{
    let count = u64::from(d.length).min(size - c);
    if is_misreferred(space, d) {
        return Err(NodeFault::Reference);
    }
    if is_misplaced(space, d, count) {
        return Err(NodeFault::Range);
    }
    if is_odd(size, c, d) {
        return Err(NodeFault::Odd);
    }
    if d.kind == extent_types::RECORDED {
        let run = Run {
            address: d.address(),
            offset: 0,
        };
        Ok(Stretch::Recorded(run, count as u32))
    } else {
        Ok(Stretch::Zeros(count as u32))
    }
}

/// The bytes are an allocation extent descriptor of this form at logical block b.
fn is_extent(form: u16, b: u32, bytes: &[u8; 2048]) -> bool
    ensures value { result ≡ is_extent form b bytes.now }
    ensures fits { result ≡ true → uint32_at bytes.now 20 ≤ 2024 }
{
    let count = LittleEndian::read_u32(&bytes[20..]);
    Tag::is_valid(bytes, b, identifiers::ALLOCATION_EXTENT)
        && count <= 2024
        && count % descriptor_size(form) == 0
}

/// The descriptors in it.
fn extent_area<'a>(bytes: &'a [u8; 2048]) -> &'a [u8]
    requires { uint32_at bytes.now 20 ≤ 2024 }
    ensures value { result.now ≡ part bytes.now 24 (uint32_at bytes.now 20) }
    ensures fits { length result.now ≤ 2048 }
{
    let (_, rest) = bytes.split_at(24);
    let (area, _) = rest.split_at(LittleEndian::read_u32(&bytes[20..]) as usize);
    area
}

/// Whether an address has no place.
pub(crate) fn is_unplaced(space: &Space, address: LbAddr) -> bool
    ensures { result ≡ is_none (place space.now address.reference address.block) }
{
    space.place(address.reference, address.block).is_none()
}

/// What is wrong with a continuation before its block is looked at.
fn continuation_fault(space: &Space, is_last: bool, d: LongAd) -> Option<NodeFault>
    ensures value { (blocks : Blocks) → result ≡ continuation_fault (seen blocks space.now) is_last d }
    ensures allowed { IsNone result → is_last ≡ false }
{
    if d.reference >= space.maps() {
        return Some(NodeFault::Reference);
    }
    if is_unplaced(space, d.address()) {
        return Some(NodeFault::Range);
    }
    if d.length > 2048 || is_last {
        return Some(NodeFault::Chain);
    }
    None
}

/// What a block in a continuation's place says.
fn area_in<'a>(form: u16, b: u32, n: u32, fact: Fact<&'a [u8; 2048]>) -> Follow<'a>
    ensures value { next_now result ≡ next_area form b n (fact_now fact.entry) }
    ensures fits { FitsArea result }
{
    match fact {
        Fact::Unknown => Follow::Unread(n),
        Fact::Conflict => Follow::Unread(n),
        Fact::Known(bytes) => {
            if is_extent(form, b, bytes) {
                Follow::Area(extent_area(bytes))
            } else {
                Follow::Broken(NodeFault::Chain)
            }
        }
    }
}

/// The same, if there is such a place.
fn area_at<'a>(form: u16, b: u32, block: Option<(u32, Fact<&'a [u8; 2048]>)>) -> Follow<'a>
    ensures value { next_now result ≡ next_if form b None (block_now block.entry) }
    ensures fits { FitsArea result }
{
    match block {
        None => Follow::Broken(NodeFault::Range),
        Some((n, fact)) => area_in(form, b, n, fact),
    }
}

/// What follows the area that ends in this descriptor. The bytes of a continuation are lent from the store's memory, or from `room`.
pub(crate) fn follow<'r, 'a, B: BlockStore>(
    view: StoreView<'a, B>,
    form: u16,
    is_last: bool,
    d: LongAd,
    room: &'r mut [u8; 2048],
) -> Result<Follow<'r>, ReadFault>
where
    'a: 'r,
    ensures value { IfOk result (λ next. B.tells → next_now next ≡ next_by (view_by B.states view.entry) form is_last d) }
    ensures allowed { IfOk result (λ next. IsFollowed next is_last) }
    ensures fails { OnErr result B.fails }
{
    match continuation_fault(view.space, is_last, d) {
        Some(fault) => Ok(Follow::Broken(fault)),
        None => {
            let block = view.block_at(d.address(), room)?;
            Ok(area_at(form, d.block, block))
        }
    }
}
