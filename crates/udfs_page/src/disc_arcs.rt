//! The states of the disc's blocks, gathered in arcs of a picture. The picture has at most 2,000 arcs, however many blocks there are.

ghost use Rattle.std.specs.Prelude.{◌≡◌, ◌+◌, ◌-◌, ◌^◌, ◌<◌, ◌≤◌, ◌==◌, ◌&&◌, ℕ, Bool, List, IfOk, cond, count_by, get_or, length, map};
ghost use Rattle.std.specs.List.{range_with_len};
ghost use Rattle.udfs_page.specs.Arcs.{arc_length, arc_mark, arc_of, arcs_of, is_seen, first_block, mark_of, counted_in, needed_in};

use std::alloc::Global;
use udfs_lattice::{BlockStore, Fact};
use udfs_osta::OutOfMemory;

/// How many arcs the picture has at most.
const MOST_ARCS: u32 = 2_000;

/// What the picture shows of an arc: the worst that is true of a block in it.
#[derive(Clone, Copy, Debug, PartialEq, Eq)]
pub enum Mark {
    /// All blocks are known.
    Known,
    /// Some block is not known, and none is needed.
    NotKnown,
    /// Some block is worth reading again.
    Needed,
    /// Two readings of some block differ.
    InConflict,
}

/// Whether a state counts: where conflicts are asked for, if it is one; and otherwise if the block is known.
fn is_counted(conflicts: bool, fact: Fact<()>) -> bool
    ensures { result ≡ is_seen conflicts fact }
{
    match fact {
        Fact::Unknown => false,
        Fact::Known(_) => !conflicts,
        Fact::Conflict => conflicts,
    }
}

/// The arc that a block is in.
fn arc_of(count: u32, blocks: u64, block: u32) -> usize
    requires some { 0 < count }
    requires blocks { 0 < blocks }
    ensures { result ≡ arc_of count blocks block }
{
    let parts = (u64::from(block) + 1) * u64::from(count) - 1;
    (parts / blocks) as usize
}

/// Counts a block in its arc. A block past the end of the disc is in none.
fn count_block(counts: &mut [usize], blocks: u64, block: u32)
    requires some { 0 < length counts.old }
    requires few { length counts.old ≤ 2000 }
    requires blocks { 0 < blocks }
    ensures size { length counts.new ≡ length counts.old }
    ensures counted { (i : ℕ) → i < length counts.old → get_or counts.old i 0 < 2 ^ 64 - 1 →
        get_or counts.new i 0 ≡ get_or counts.old i 0 + cond (arc_of (length counts.old) blocks block == i) 1 0 }
{
    let arc = arc_of(counts.len() as u32, blocks, block);
    if arc < counts.len() {
        counts[arc] = counts[arc].saturating_add(1);
    }
}

/// Counts a block in its arc, if its state counts.
fn count_fact(counts: &mut [usize], blocks: u64, conflicts: bool, block: u32, fact: Fact<()>)
    requires some { 0 < length counts.old }
    requires few { length counts.old ≤ 2000 }
    requires blocks { 0 < blocks }
    ensures size { length counts.new ≡ length counts.old }
    ensures counted { (i : ℕ) → i < length counts.old → get_or counts.old i 0 < 2 ^ 64 - 1 →
        get_or counts.new i 0 ≡ get_or counts.old i 0 + cond (is_seen conflicts fact && arc_of (length counts.old) blocks block == i) 1 0 }
{
    if is_counted(conflicts, fact) {
        count_block(counts, blocks, block);
    }
}

/// Counts the blocks in conflict in their arcs, or the known ones.
fn count_states<B: BlockStore>(counts: &mut [usize], blocks: u64, conflicts: bool, store: &B)
    requires some { 0 < length counts.old }
    requires few { length counts.old ≤ 2000 }
    requires blocks { 0 < blocks }
    requires most { blocks ≤ 2 ^ 32 }
    requires zero { (i : ℕ) → i < length counts.old → get_or counts.old i 0 ≡ 0 }
    ensures size { length counts.new ≡ length counts.old }
    ensures counted { B.tells → (i : ℕ) → i < length counts.old → get_or counts.new i 0 ≡ counted_in conflicts (B.states store.now) (length counts.old) blocks i }
{
    for number in 0..blocks {
        let block = number as u32;
        count_fact(counts, blocks, conflicts, block, store.knowledge(block));
    }
}

/// Counts blocks in their arcs.
fn count_needed(counts: &mut [usize], blocks: u64, reread: &[u32])
    requires some { 0 < length counts.old }
    requires few { length counts.old ≤ 2000 }
    requires blocks { 0 < blocks }
    requires zero { (i : ℕ) → i < length counts.old → get_or counts.old i 0 ≡ 0 }
    ensures size { length counts.new ≡ length counts.old }
    ensures counted { (i : ℕ) → i < length counts.old → get_or counts.new i 0 ≡ needed_in reread.now (length counts.old) blocks i }
{
    for block in reread {
        count_block(counts, blocks, *block);
    }
}

/// What is shown of an arc with these counts and this many blocks.
fn mark_of(known: usize, conflicts: usize, needed: usize, blocks: u64) -> Mark
    ensures { result ≡ mark_of known conflicts needed blocks }
{
    if conflicts > 0 {
        Mark::InConflict
    } else if needed > 0 {
        Mark::Needed
    } else if known as u64 == blocks {
        Mark::Known
    } else {
        Mark::NotKnown
    }
}

/// The first block of an arc.
pub(crate) fn first_block(count: usize, blocks: u64, index: usize) -> u64
    requires some { 0 < count }
    requires index { index ≤ 2000 }
    requires blocks { blocks ≤ 2 ^ 32 }
    ensures { result ≡ first_block count blocks index }
{
    index as u64 * blocks / count as u64
}

/// What is shown of an arc, by the counts of all arcs.
fn mark_at(
    known: &[usize],
    conflicts: &[usize],
    needed: &[usize],
    blocks: u64,
    index: usize,
) -> Mark
    requires few { length known.now ≤ 2000 }
    requires index { index < length known.now }
    requires blocks { blocks ≤ 2 ^ 32 }
    requires conflicts { length conflicts.now ≡ length known.now }
    requires needed { length needed.now ≡ length known.now }
    ensures { result ≡ mark_of (get_or known.now index 0) (get_or conflicts.now index 0) (get_or needed.now index 0) (arc_length (length known.now) blocks index) }
{
    let first = first_block(known.len(), blocks, index);
    let next = first_block(known.len(), blocks, index + 1);
    let width = next.saturating_sub(first);
    mark_of(known[index], conflicts[index], needed[index], width)
}

/// What is shown of each arc, by the counts of all arcs.
fn marks_of(
    alloc: Global,
    known: &[usize],
    conflicts: &[usize],
    needed: &[usize],
    blocks: u64,
) -> Result<Vec<Mark>, OutOfMemory>
    requires few { length known.now ≤ 2000 }
    requires blocks { blocks ≤ 2 ^ 32 }
    requires conflicts { length conflicts.now ≡ length known.now }
    requires needed { length needed.now ≡ length known.now }
    ensures { IfOk result (λ marks. marks.items ≡ map (λ i. mark_of (get_or known.now i 0) (get_or conflicts.now i 0) (get_or needed.now i 0) (arc_length (length known.now) blocks i)) (range_with_len 0 (length known.now))) }
{
    let mut marks = Vec::new(alloc);
    let count = known.len();
    let mut index = 0;
    while index < count {
        marks.push(mark_at(known, conflicts, needed, blocks, index))?;
        index += 1;
    }
    Ok(marks)
}

/// How many blocks of each arc are in conflict, or known.
fn state_counts<B: BlockStore>(
    alloc: Global,
    count: usize,
    blocks: u64,
    conflicts: bool,
    store: &B,
) -> Result<Vec<usize>, OutOfMemory>
    requires some { 0 < count }
    requires few { count ≤ 2000 }
    requires blocks { 0 < blocks }
    requires most { blocks ≤ 2 ^ 32 }
    ensures size { IfOk result (λ counts. length counts.items ≡ count) }
    ensures counted { IfOk result (λ counts. B.tells → (i : ℕ) → i < count → get_or counts.items i 0 ≡ counted_in conflicts (B.states store.now) count blocks i) }
{
    let mut counts = vec![in alloc; 0usize; count]?;
    count_states(&mut counts, blocks, conflicts, store);
    Ok(counts)
}

/// How many blocks of each arc are worth reading again.
fn needed_counts(
    alloc: Global,
    count: usize,
    blocks: u64,
    reread: &[u32],
) -> Result<Vec<usize>, OutOfMemory>
    requires some { 0 < count }
    requires few { count ≤ 2000 }
    requires blocks { 0 < blocks }
    ensures size { IfOk result (λ counts. length counts.items ≡ count) }
    ensures counted { IfOk result (λ counts. (i : ℕ) → i < count → get_or counts.items i 0 ≡ needed_in reread.now count blocks i) }
{
    let mut counts = vec![in alloc; 0usize; count]?;
    count_needed(&mut counts, blocks, reread);
    Ok(counts)
}

/// What is shown of each of the `count` arcs of a disc with `blocks` blocks.
#[tactic(auto, using(crate::proofs::Counts::arcs_by_counts))]
fn arcs_in<B: BlockStore>(
    alloc: Global,
    store: &B,
    reread: &[u32],
    count: usize,
    blocks: u64,
) -> Result<Vec<Mark>, OutOfMemory>
    requires some { 0 < count }
    requires few { count ≤ 2000 }
    requires first { 0 < blocks }
    requires blocks { blocks ≤ 2 ^ 32 }
    ensures size { IfOk result (λ marks. length marks.items ≡ count) }
    ensures value { IfOk result (λ marks. B.tells → marks.items ≡ map (arc_mark (B.states store.now) reread.now count blocks) (range_with_len 0 count)) }
{
    let known = state_counts(alloc, count, blocks, false, store)?;
    let conflicts = state_counts(alloc, count, blocks, true, store)?;
    let needed = needed_counts(alloc, count, blocks, reread)?;
    marks_of(alloc, &known, &conflicts, &needed, blocks)
}

/// What is shown of each arc of the picture, in the order of the blocks. The disc has the blocks up to `last`, and those of `reread` are
/// worth reading again. There are as many arcs as blocks, but at most 2,000; arc `i` of `count` begins at block `i * blocks / count`.
///
/// # Errors
///
/// If memory runs out.
#[tactic(auto, unfolding(crate::specs::Arcs::arcs_of))]
pub fn arcs<B: BlockStore>(
    alloc: Global,
    store: &B,
    last: u32,
    reread: &[u32],
) -> Result<Vec<Mark>, OutOfMemory>
    ensures few { IfOk result (λ marks. length marks.items ≤ 2000) }
    ensures value { IfOk result (λ marks. B.tells → marks.items ≡ arcs_of (B.states store.now) reread.now last) }
{
    let blocks = u64::from(last) + 1;
    let count = blocks.min(u64::from(MOST_ARCS)) as usize;
    arcs_in(alloc, store, reread, count, blocks)
}
