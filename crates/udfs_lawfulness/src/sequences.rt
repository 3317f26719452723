//! Both copies of the volume descriptor sequence (ECMA-167 3/8.4.2).

ghost use Rattle.std.specs.Prelude.{◌≡◌, ◌≤◌, ◌+◌, ◌/◌, ◌++◌, IfOk, IsErrOf, MatchOption, OnErr, false};
ghost use Rattle.udfs_lattice.specs.States.{fact_now};
ghost use Rattle.udfs_volume.specs.Differences.{differ_in, known_differ, say_the_same};
ghost use Rattle.udfs_volume.specs.Laws.{is_of_layout};
ghost use Rattle.udfs_volume.specs.Sequence.{goes_on, position, shared, shorter};
ghost use Rattle.udfs_volume.specs.Sequences.{descriptor_of};
ghost use Rattle.udfs_lawfulness.specs.Sequences.{IsPairApart, pairs_in};

use crate::tables::behind;
use udfs_lattice::{BlockStore, Fact, GaveUp, ReadFault};
use udfs_tag::{Tag, identifiers};
use udfs_volume::AnchorExtents;

/// Whether the layout is read from descriptors of this kind: partition descriptors and logical volume descriptors (ECMA-167 3/10.5,
/// 3/10.6).
fn is_of_layout(identifier: u16) -> bool
    ensures { result ≡ is_of_layout identifier }
{
    identifier == identifiers::PARTITION || identifier == identifiers::LOGICAL_VOLUME
}

/// Whether both blocks are descriptors at their places, with one identifier and, where the layout is read from them, the same bytes from
/// 16 on; or neither is a descriptor there.
fn say_the_same(one: &[u8; 2048], n: u32, other: &[u8; 2048], m: u32) -> bool
    ensures { result ≡ say_the_same one.now n other.now m }
{
    match Tag::check(one, n) {
        Ok(first) => match Tag::check(other, m) {
            Ok(second) => {
                first.identifier == second.identifier
                    && (!is_of_layout(first.identifier) || behind(one, 16) == behind(other, 16))
            }
            Err(_) => false,
        },
        Err(_) => Tag::check(other, m).is_err(),
    }
}

/// Whether both are known, and do not say the same.
fn known_differ(one: Fact<&[u8; 2048]>, n: u32, other: Fact<&[u8; 2048]>, m: u32) -> bool
    ensures { result ≡ known_differ (fact_now one.entry) n (fact_now other.entry) m }
{
    let Fact::Known(one) = one else {
        return false;
    };
    match other {
        Fact::Known(other) => !say_the_same(one, n, other, m),
        _ => false,
    }
}

/// Whether the sequence goes on after a block: it is a descriptor at its place, and neither a terminating one nor a pointer.
fn goes_on(block: &[u8; 2048], place: u32) -> bool
    ensures { result ≡ goes_on (descriptor_of block.now place) }
{
    match Tag::check(block, place) {
        Ok(tag) => {
            tag.identifier != identifiers::TERMINATING
                && tag.identifier != identifiers::VOLUME_DESCRIPTOR_POINTER
        }
        Err(_) => false,
    }
}

/// Whether it is known to go on after a position, by the first of its copies that is known.
#[tactic(auto, unfolding(udfs_volume::specs::Sequence::position))]
fn goes_on_at<B: BlockStore>(blocks: &B, main: u32, reserve: u32) -> Result<bool, ReadFault>
    ensures value { IfOk result (λ on. B.tells → on ≡ goes_on (position (B.states blocks.now) main reserve)) }
    ensures fails { OnErr result B.fails }
{
    let mut room = [0; 2048];
    if let Fact::Known(block) = blocks.lend(main, &mut room)? {
        return Ok(goes_on(block, main));
    }
    match blocks.lend(reserve, &mut room)? {
        Fact::Known(block) => Ok(goes_on(block, reserve)),
        _ => Ok(false),
    }
}

/// Whether the blocks of a position are both known, and do not say the same.
fn differ_at<B: BlockStore>(blocks: &B, main: u32, reserve: u32) -> Result<bool, ReadFault>
    ensures value { IfOk result (λ differ. B.tells → differ ≡ known_differ (B.states blocks.now main) main (B.states blocks.now reserve) reserve) }
    ensures fails { OnErr result B.fails }
{
    let mut main_room = [0; 2048];
    let mut room = [0; 2048];
    let one = blocks.lend(main, &mut main_room)?;
    let other = blocks.lend(reserve, &mut room)?;
    Ok(known_differ(one, main, other, reserve))
}

/// How many positions the sequence has: as many blocks as the shorter extent has.
pub(crate) fn positions(extents: AnchorExtents) -> u32
    ensures { result ≡ shorter extents / 2048 }
{
    if extents.main.length <= extents.reserve.length {
        extents.main.length / 2048
    } else {
        extents.reserve.length / 2048
    }
}

/// The blocks of the first position that is known to be reached, and whose copies are both known and do not say the same.
pub(crate) fn pair_apart<B: BlockStore>(
    blocks: &B,
    extents: AnchorExtents,
) -> Result<Option<(u32, u32)>, ReadFault>
    requires main { extents.main.block + shorter extents / 2048 ≤ 4194304 }
    requires reserve { extents.reserve.block + shorter extents / 2048 ≤ 4194304 }
    ensures value { IfOk result (λ pair. B.tells → MatchOption pair (differ_in (B.states blocks.now) (shared extents) ≡ false) (λ pair. IsPairApart (B.states blocks.now) extents pair.0 pair.1)) }
    ensures fails { OnErr result B.fails }
{
    for i in 0..positions(extents) {
        let main = extents.main.block + i;
        let reserve = extents.reserve.block + i;
        let differ = differ_at(blocks, main, reserve)?;
        if differ {
            return Ok(Some((main, reserve)));
        }
        let on = goes_on_at(blocks, main, reserve)?;
        if !on {
            return Ok(None);
        }
    }
    Ok(None)
}

/// Appends both blocks of each position, up to the first after which the sequence is not known to go on.
pub(crate) fn push_pairs<B: BlockStore>(
    numbers: &mut Vec<u32>,
    blocks: &B,
    extents: AnchorExtents,
) -> Result<(), GaveUp>
    requires main { extents.main.block + shorter extents / 2048 ≤ 4194304 }
    requires reserve { extents.reserve.block + shorter extents / 2048 ≤ 4194304 }
    ensures value { IfOk result (λ done. B.tells → numbers.new.items ≡ numbers.old.items ++ pairs_in (B.states blocks.now) extents) }
    ensures fails { IsErrOf result GaveUp.Unread → B.fails }
{
    for i in 0..positions(extents) {
        let main = extents.main.block + i;
        let reserve = extents.reserve.block + i;
        numbers.push(main)?;
        numbers.push(reserve)?;
        let on = goes_on_at(blocks, main, reserve)?;
        if !on {
            return Ok(());
        }
    }
    Ok(())
}
