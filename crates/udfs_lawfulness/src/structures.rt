//! Whether the structures of a volume are lawful.

ghost use Rattle.std.specs.Prelude.{◌≡◌, ◌≢◌, ◌≤◌, ◌+◌, ◌/◌, ◌++◌, ◌==◌, All, IfOk, IsErrOf, IsTrue, MatchOption, None, OnErr, false, length, map, ◌↔◌};
ghost use Rattle.udfs_lattice.specs.States.{is_known};
ghost use Rattle.udfs_lattice.specs.Tables.{state_of};
ghost use Rattle.udfs_lattice.specs.Volumes.{ascending, not_known};
ghost use Rattle.udfs_volume.specs.Answers.{IsHoles, faulty, found};
ghost use Rattle.udfs_volume.specs.Differences.{anchors_apart, copies_differ};
ghost use Rattle.udfs_volume.specs.LayoutParts.{partition_now, parts_now};
ghost use Rattle.udfs_volume.specs.Laws.{IsBounded};
ghost use Rattle.udfs_volume.specs.Layout.{layout_by};
ghost use Rattle.udfs_volume.specs.Seen.{IfGot, IsRising, Sees};
ghost use Rattle.udfs_volume.specs.Sequence.{anchor, anchor_places, shorter};
ghost use Rattle.udfs_space.specs.Sparing.{space};
ghost use Rattle.udfs_lawfulness.specs.Clear.{EndInside, IsClear};
ghost use Rattle.udfs_lawfulness.specs.Structures.{IsJudged, IsReason, ListsRise, sequence_blocks, sparing_blocks};
ghost use Rattle.udfs_lawfulness.specs.Tables.{FitsMap, table_blocks};

use crate::answers::{Reason, Structures};
use crate::sequences::{pair_apart, positions, push_pairs};
use crate::tables::{partitions_reason, push_tables};
use std::alloc::{AllocError, Global};
use udfs_lattice::{BlockStore, BlockTable, Fact, GaveUp, ReadFault};
use udfs_space::Space;
use udfs_volume::anchors::anchor_by;
use udfs_volume::differences::anchors_apart_by;
use udfs_volume::layouts::layout_in;
use udfs_volume::{AnchorExtents, Partition, Profile, Seen, VolumeFault, VolumeParts};
use udfs_witnesses::add_rising;

/// How many blocks there are at most.
const BLOCKS: u64 = 4_194_304;

/// Whether both extents end where blocks may end, as far as the shorter one goes.
fn are_inside(extents: AnchorExtents) -> bool
    ensures { IsTrue result ↔ ((extents.main.block + shorter extents / 2048 ≤ 4194304) × (extents.reserve.block + shorter extents / 2048 ≤ 4194304)) }
{
    let count = u64::from(positions(extents));
    u64::from(extents.main.block) + count <= BLOCKS
        && u64::from(extents.reserve.block) + count <= BLOCKS
}

/// The extents of the anchor that is found, which end where blocks may end.
fn inner_anchor<B: BlockStore>(
    alloc: Global,
    blocks: &B,
    last: u32,
) -> Result<Seen<AnchorExtents>, ReadFault>
    requires from { 513 ≤ last }
    requires to { last ≤ 4194303 }
    requires inside { B.tells → EndInside (B.states blocks.now) last }
    ensures value { IfOk result (λ seen. B.tells → Sees (λ extents. extents) seen (anchor (B.states blocks.now) last)) }
    ensures memory { IfOk result (λ seen. B.tells → seen ≡ Seen.OutOfMemory → IsHoles (anchor (B.states blocks.now) last)) }
    ensures inside { IfOk result (λ seen. IfGot seen (λ extents. (extents.main.block + shorter extents / 2048 ≤ 4194304) × (extents.reserve.block + shorter extents / 2048 ≤ 4194304))) }
    ensures fails { OnErr result B.fails }
{
    let seen = anchor_by(alloc, blocks, last)?;
    match seen {
        Seen::Got(extents) => {
            let inside = are_inside(extents);
            if inside {
                return Ok(Seen::Got(extents));
            }
            // A volume whose extents end elsewhere has a fault, which was found before.
            Ok(Seen::OutOfMemory)
        }
        Seen::Holes(holes) => Ok(Seen::Holes(holes)),
        Seen::Fault(fault) => Ok(Seen::Fault(fault)),
        Seen::OutOfMemory => Ok(Seen::OutOfMemory),
    }
}

/// Two copies of a position of the sequence that do not say the same, in the extents of the anchor that is found.
fn sequence_reason<B: BlockStore>(
    alloc: Global,
    blocks: &B,
    last: u32,
) -> Result<Option<Reason>, ReadFault>
    requires from { 513 ≤ last }
    requires to { last ≤ 4194303 }
    requires inside { B.tells → EndInside (B.states blocks.now) last }
    ensures value { IfOk result (λ reason. B.tells → (profile : Profile) → MatchOption reason (copies_differ profile (B.states blocks.now) last ≡ false) (IsReason profile (B.states blocks.now) last)) }
    ensures fails { OnErr result B.fails }
{
    match inner_anchor(alloc, blocks, last)? {
        Seen::Got(extents) => match pair_apart(blocks, extents)? {
            Some((main, reserve)) => Ok(Some(Reason::Descriptors { main, reserve })),
            None => Ok(None),
        },
        _ => Ok(None),
    }
}

/// Whether a block is known.
fn is_known<B: BlockStore>(blocks: &B, n: u32) -> bool
    ensures { B.tells → result ≡ is_known (B.states blocks.now n) }
{
    matches!(blocks.knowledge(n), Fact::Known(_))
}

/// Those of these blocks that are not known.
fn not_known<B: BlockStore>(
    alloc: Global,
    blocks: &B,
    numbers: &[u32],
) -> Result<Vec<u32>, AllocError>
    ensures { IfOk result (λ unread. B.tells → unread.items ≡ not_known (B.states blocks.now) numbers.now) }
{
    let mut unread = Vec::new(alloc);
    for n in numbers {
        if !is_known(blocks, *n) {
            unread.push(*n)?;
        }
    }
    Ok(unread)
}

/// The places of an anchor, the blocks of the sequence, and those of the tables of these partitions.
fn asked<B: BlockStore>(
    alloc: Global,
    blocks: &B,
    last: u32,
    partitions: &[Partition],
) -> Result<Vec<u32>, GaveUp>
    requires from { 513 ≤ last }
    requires to { last ≤ 4194303 }
    requires inside { B.tells → EndInside (B.states blocks.now) last }
    requires fit { All (λ p. FitsMap (partition_now p).kind) partitions.now }
    ensures value { IfOk result (λ numbers. B.tells → numbers.items
        ≡ anchor_places last ++ sequence_blocks (B.states blocks.now) (anchor (B.states blocks.now) last) ++ table_blocks (map partition_now partitions.now)) }
    ensures fails { IsErrOf result GaveUp.Unread → B.fails }
{
    let mut numbers = vec![in alloc; 256, last - 256, last]?;
    if let Seen::Got(extents) = inner_anchor(alloc, blocks, last)? {
        push_pairs(&mut numbers, blocks, extents)?;
    }
    push_tables(&mut numbers, partitions)?;
    Ok(numbers)
}

/// Those of them that are not known, ascending.
fn unread<B: BlockStore>(
    alloc: Global,
    blocks: &B,
    last: u32,
    partitions: &[Partition],
) -> Result<Vec<u32>, GaveUp>
    requires from { 513 ≤ last }
    requires to { last ≤ 4194303 }
    requires inside { B.tells → EndInside (B.states blocks.now) last }
    requires fit { All (λ p. FitsMap (partition_now p).kind) partitions.now }
    ensures value { IfOk result (λ unread. B.tells → unread.items
        ≡ ascending (not_known (B.states blocks.now) (anchor_places last ++ sequence_blocks (B.states blocks.now) (anchor (B.states blocks.now) last) ++ table_blocks (map partition_now partitions.now)))) }
    ensures rising { IfOk result (λ unread. IsRising unread.items) }
    ensures fails { IsErrOf result GaveUp.Unread → B.fails }
{
    let asked = asked(alloc, blocks, last, partitions)?;
    let unread = not_known(alloc, blocks, &asked)?;
    let mut rising = Vec::new(alloc);
    add_rising(&mut rising, &unread)?;
    Ok(rising)
}

/// Whether there is no block.
pub(crate) fn is_none(numbers: &[u32]) -> bool
    ensures { result ≡ (length numbers.now == 0) }
{
    numbers.is_empty()
}

/// What is decided where nothing that is known contradicts it.
fn decided<B: BlockStore>(
    alloc: Global,
    blocks: &B,
    last: u32,
    partitions: &[Partition],
) -> Result<Structures, GaveUp>
    requires from { 513 ≤ last }
    requires to { last ≤ 4194303 }
    requires inside { B.tells → EndInside (B.states blocks.now) last }
    requires fit { All (λ p. FitsMap (partition_now p).kind) partitions.now }
    ensures judged { B.tells → (profile : Profile) → IsClear profile (B.states blocks.now) last
        → sparing_blocks (layout_by profile (B.states blocks.now) last) ≡ table_blocks (map partition_now partitions.now)
        → IfOk result (IsJudged profile (B.states blocks.now) last) }
    ensures rising { IfOk result ListsRise }
    ensures fails { IsErrOf result GaveUp.Unread → B.fails }
{
    let unread = unread(alloc, blocks, last, partitions)?;
    if is_none(&unread) {
        return Ok(Structures::Sound);
    }
    Ok(Structures::Open(unread))
}

/// What is found where the volume has no layout as far as it is known.
fn without_parts<B: BlockStore>(
    alloc: Global,
    blocks: &B,
    last: u32,
    profile: Profile,
) -> Result<Structures, GaveUp>
    requires from { 513 ≤ last }
    requires to { last ≤ 4194303 }
    requires alike { B.tells → anchors_apart (B.states blocks.now) last ≡ None }
    requires holes { B.tells → IsHoles (layout_by profile (B.states blocks.now) last) }
    requires inside { B.tells → EndInside (B.states blocks.now) last }
    ensures judged { IfOk result (λ found. B.tells → IsJudged profile (B.states blocks.now) last found) }
    ensures rising { IfOk result ListsRise }
    ensures fails { IsErrOf result GaveUp.Unread → B.fails }
{
    let reason = sequence_reason(alloc, blocks, last)?;
    match reason {
        Some(reason) => Ok(Structures::Unsound(reason)),
        None => decided(alloc, blocks, last, &[]),
    }
}

/// The fault of the places of the blocks of this layout, if they have one.
fn space_fault<B: BlockStore>(
    alloc: Global,
    blocks: &B,
    parts: &VolumeParts,
) -> Result<Option<VolumeFault>, GaveUp>
    requires to { parts.now.last ≤ 4194303 }
    requires bounded { IsBounded parts.now.last (parts_now parts.now) }
    ensures value { IfOk result (λ fault. B.tells → MatchOption fault
        ((f : VolumeFault) → space (B.states blocks.now) (parts_now parts.now) ≢ faulty f)
        (λ f. space (B.states blocks.now) (parts_now parts.now) ≡ faulty f)) }
    ensures fails { IsErrOf result GaveUp.Unread → B.fails }
{
    match Space::build_in(alloc, blocks, parts)? {
        Seen::Got(_) => Ok(None),
        Seen::Holes(_) => Ok(None),
        Seen::Fault(fault) => Ok(Some(fault)),
        Seen::OutOfMemory => Err(GaveUp::OutOfMemory),
    }
}

/// What is found where it has this layout.
fn with_parts<B: BlockStore>(
    alloc: Global,
    blocks: &B,
    last: u32,
    profile: Profile,
    parts: &VolumeParts,
) -> Result<Structures, GaveUp>
    requires from { 513 ≤ last }
    requires to { last ≤ 4194303 }
    requires alike { B.tells → anchors_apart (B.states blocks.now) last ≡ None }
    requires finds { B.tells → layout_by profile (B.states blocks.now) last ≡ found (parts_now parts.now) }
    requires bounded { IsBounded last (parts_now parts.now) }
    requires inside { B.tells → EndInside (B.states blocks.now) last }
    requires fit { All (λ p. FitsMap (partition_now p).kind) parts.now.partitions.items }
    ensures judged { IfOk result (λ found. B.tells → IsJudged profile (B.states blocks.now) last found) }
    ensures rising { IfOk result ListsRise }
    ensures fails { IsErrOf result GaveUp.Unread → B.fails }
{
    let apart = sequence_reason(alloc, blocks, last)?;
    if let Some(reason) = apart {
        return Ok(Structures::Unsound(reason));
    }
    let of_tables = partitions_reason(alloc, blocks, &parts.partitions)?;
    if let Some(reason) = of_tables {
        return Ok(Structures::Unsound(reason));
    }
    let fault = space_fault(alloc, blocks, parts)?;
    match fault {
        Some(fault) => Ok(Structures::Unsound(Reason::Fault(fault))),
        None => decided(alloc, blocks, last, &parts.partitions),
    }
}

/// Whether the structures by which a volume is opened are lawful by the rules of a profile, where `last` is its last block: its anchors name the
/// same extents (ECMA-167 3/10.2), both copies of its volume descriptor sequence say the same of its layout (3/8.4.2), the copies of its sparing
/// tables say the same and have valid tags (UDF 2.01 2.2.11), and by all of them the volume has a layout and places. Of its file set, directories
/// and files nothing is judged: a lawful volume has lawful structures, but a volume with lawful structures may be unlawful below them.
///
/// [`Structures::Sound`]: so it is, whatever the blocks hold that are not known. [`Structures::Unsound`]: it is not, whatever they hold, and this is
/// why. [`Structures::Open`]: nothing that is known contradicts it, and these blocks, which are asked for and not known, could. Where each block is
/// known that is asked for it is never `Open`: the places of an anchor, both blocks of each position of the sequence through the one that ends it,
/// and all copies of the sparing tables.
///
/// # Errors
///
/// `AllocError` where memory runs out. Nothing is judged then.
pub fn structures_of(
    alloc: Global,
    table: &BlockTable,
    last: u32,
    profile: Profile,
) -> Result<Structures, AllocError>
    requires from { 513 ≤ last }
    requires to { last ≤ 4194303 }
    ensures { IfOk result (IsJudged profile (state_of table.now) last) }
{
    match structures_by(alloc, table, last, profile) {
        Ok(found) => Ok(found),
        Err(GaveUp::OutOfMemory) => Err(AllocError),
        Err(GaveUp::Unread) => unreachable!(),
    }
}

/// The same as [`structures_of`], by any store of blocks.
///
/// # Errors
///
/// `OutOfMemory` where memory runs out, and `Unread` where the bytes of a known block could not be read. Nothing is judged then.
pub fn structures_by<B: BlockStore>(
    alloc: Global,
    blocks: &B,
    last: u32,
    profile: Profile,
) -> Result<Structures, GaveUp>
    requires from { 513 ≤ last }
    requires to { last ≤ 4194303 }
    ensures judged { IfOk result (λ found. B.tells → IsJudged profile (B.states blocks.now) last found) }
    ensures rising { IfOk result ListsRise }
    ensures fails { IsErrOf result GaveUp.Unread → B.fails }
{
    let apart = anchors_apart_by(blocks, last)?;
    if let Some((one, other)) = apart {
        return Ok(Structures::Unsound(Reason::Anchors { one, other }));
    }
    let seen = layout_in(alloc, blocks, last, profile)?;
    match seen {
        Seen::Got(parts) => with_parts(alloc, blocks, last, profile, &parts),
        Seen::Holes(_) => without_parts(alloc, blocks, last, profile),
        Seen::Fault(fault) => Ok(Structures::Unsound(Reason::Fault(fault))),
        Seen::OutOfMemory => Err(GaveUp::OutOfMemory),
    }
}
