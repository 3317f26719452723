//! What is counted of the disc, and of entries that no name leads to.

ghost use Rattle.std.specs.Prelude.{◌≡◌, ◌+◌, ◌∷◌, ◌≤◌, ℕ, List, count_by};
ghost use Rattle.udfs_lattice.specs.Tables.{Table};
ghost use Rattle.udfs_salvage.specs.Surveys.{survey_by};
ghost use Rattle.udfs_overview.specs.DiscTallies.{disc_of, has_data, is_empty_file, is_in_conflict, run_count, unnamed_of};

use crate::node_columns::is_whole;
use crate::tallies::is_file;
use udfs_lattice::{BlockStore, Fact};
use udfs_salvage::{ReportStore, Survey};
use udfs_walk::Unnamed;

/// The blocks of a disc, by what is known of them. All from 0 to the last one are known, not known or in conflict.
#[derive(Clone, Copy, Debug, PartialEq, Eq)]
pub struct DiscTally {
    /// How many blocks are known.
    pub known: u32,
    /// How many are not.
    pub not_known: u64,
    /// How many are in conflict.
    pub conflicts: u32,
    /// How many are worth reading again.
    pub needed: usize,
    /// How many of the blocks worth reading again are in conflict.
    pub needed_in_conflict: usize,
    /// How many runs of consecutive numbers the blocks worth reading again form.
    pub runs: usize,
}

/// Whole files that no name leads to.
#[derive(Clone, Copy, Debug, PartialEq, Eq)]
pub struct UnnamedTally {
    /// How many have bytes.
    pub with_data: usize,
    /// How many have none.
    pub empty: usize,
}

/// How many runs of consecutive numbers there are.
#[tactic(auto, unfolding(crate::specs::DiscTallies::run_count))]
fn run_count(blocks: &[u32]) -> usize
    ensures { result ≡ run_count blocks.now }
{
    let mut runs = 0;
    let mut rest = blocks;
    while let Some((first, others)) = rest.split_first() {
        runs += ends_of(*first, others);
        rest = others;
    }
    runs
}

/// 1 if a run ends with `number`, which `others` follow, and 0 if it goes on.
fn ends_of(number: u32, others: &[u32]) -> usize
    ensures ends { result + run_count others.now ≡ run_count (number ∷ others.now) }
    ensures one { result ≤ 1 }
{
    match others.first() {
        Some(next) if u64::from(*next) == u64::from(number) + 1 => 0,
        _ => 1,
    }
}

/// Whether two readings of a block differ.
pub(crate) fn is_in_conflict<B: BlockStore>(blocks: &B, block: u32) -> bool
    ensures { B.tells → result ≡ is_in_conflict (B.states blocks.now) block }
{
    match blocks.knowledge(block) {
        Fact::Unknown | Fact::Known(_) => false,
        Fact::Conflict => true,
    }
}

/// How many of these blocks are in conflict.
fn count_in_conflict<B: BlockStore>(blocks: &B, numbers: &[u32]) -> usize
    ensures { B.tells → result ≡ count_by (is_in_conflict (B.states blocks.now)) numbers.now }
{
    let mut count = 0;
    for number in numbers {
        if is_in_conflict(blocks, *number) {
            count += 1;
        }
    }
    count
}

/// Counts the blocks of the disc that a survey is of.
#[tactic(auto, unfolding(crate::specs::DiscTallies::disc_of))]
pub(crate) fn count_disc<B: ReportStore>(survey: &Survey<'_, B>) -> DiscTally
    ensures { B.tells → (t : Table) → B.holds survey.now.table.now t → result ≡ disc_of t survey.now.last survey.now.reread.items }
{
    let known = survey.table.known();
    let conflicts = survey.table.conflicts();
    let all = u64::from(survey.last) + 1;
    DiscTally {
        known,
        not_known: all
            .saturating_sub(u64::from(known))
            .saturating_sub(u64::from(conflicts)),
        conflicts,
        needed: survey.reread.len(),
        needed_in_conflict: count_in_conflict(survey.table, &survey.reread),
        runs: run_count(&survey.reread),
    }
}

/// Whether an entry is a whole file with bytes.
pub(crate) fn has_data(entry: &Unnamed) -> bool
    ensures { result ≡ has_data entry.now }
{
    is_whole(&entry.standing) && is_file(entry.kind) && entry.size > 0
}

/// Whether an entry is a whole file without a byte.
fn is_empty_file(entry: &Unnamed) -> bool
    ensures { result ≡ is_empty_file entry.now }
{
    is_whole(&entry.standing) && is_file(entry.kind) && entry.size == 0
}

/// How many whole files with bytes there are.
fn count_with_data(entries: &[Unnamed]) -> usize
    ensures { result ≡ count_by has_data entries.now }
{
    let mut count = 0;
    for entry in entries {
        if has_data(entry) {
            count += 1;
        }
    }
    count
}

/// How many whole files without a byte there are.
fn count_empty(entries: &[Unnamed]) -> usize
    ensures { result ≡ count_by is_empty_file entries.now }
{
    let mut count = 0;
    for entry in entries {
        if is_empty_file(entry) {
            count += 1;
        }
    }
    count
}

/// Counts the whole files that no name leads to, in the report that a survey represents.
pub(crate) fn count_unnamed<B: BlockStore>(survey: &Survey<'_, B>) -> UnnamedTally
    ensures { result ≡ unnamed_of (survey_by B.states survey.now).unnamed }
{
    let entries = survey.unnamed.as_slice();
    UnnamedTally {
        with_data: count_with_data(entries),
        empty: count_empty(entries),
    }
}
