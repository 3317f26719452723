//! Reports.

ghost use Rattle.std.specs.Prelude.{◌≡◌, ◌↔◌, ℕ, IfOk, IfErr, IsErrOf, OnOk};
ghost use Rattle.udfs_lattice.specs.Tables.{state_of};
ghost use Rattle.udfs_volume.specs.Seen.{IsRising};
ghost use Rattle.udfs_volume.specs.declared.profiles.Profile.TheVariants.{Strict};
ghost use Rattle.udfs_salvage.specs.Headline.{Headline, HeadlineBy};
ghost use Rattle.udfs_salvage.specs.TreeReports.{IsOfNoLawful, IsOfNoLawfulBy};
ghost use Rattle.udfs_salvage.specs.Reports.{HasTooManyPaths, HasTooManyPathsBy, IsNothingPast, IsOutOfRange, IsPastEnd, IsReport, IsReportBy, IsUnfit, MayWantMemory, MayWantMemoryBy, all_whole, report_now};
ghost use Rattle.udfs_walk.specs.Unsettled.{is_whole};

use crate::errors::SalvageError;
use crate::stores::ReportStore;
use crate::surveys::{filled, survey_volume_by};
use crate::volumes::Volume;
use std::alloc::Global;
use udfs_lattice::BlockTable;
use udfs_lattice::table::LAST_BLOCK;
use udfs_volume::Profile;
use udfs_walk::{Node, Standing, Unnamed};

/// The least last block of a volume.
const FIRST_LAST: u32 = 513;

/// What a table says of a volume.
#[derive(Drop)]
pub struct Report<'a> {
    /// The table.
    pub table: &'a BlockTable,
    /// The last block of the volume.
    pub last: u32,
    /// The rules by which the volume is read.
    pub profile: Profile,
    /// Whether the volume opens.
    pub volume: Volume,
    /// The nodes: the root, and after each directory its entries in their order, each with all that is below it.
    pub nodes: Vec<Node>,
    /// The entries that no name leads to, by partition reference and then by block.
    pub unnamed: Vec<Unnamed>,
    /// The blocks to read again, ascending and each once. None of them is known.
    pub reread: Vec<u32>,
}

/// Whether all of it is known.
pub(crate) fn is_whole(standing: &Standing) -> bool
    ensures { result ≡ is_whole standing.now }
{
    matches!(standing, Standing::Whole)
}

/// Whether there are nodes, and all are whole.
pub fn all_whole(nodes: &[Node]) -> bool
    ensures { result ≡ all_whole nodes.now }
{
    for node in nodes {
        if !is_whole(&node.standing) {
            return false;
        }
    }
    !nodes.is_empty()
}

/// Checks that `last` can be the last block of a volume, and that the store says nothing of a block after it. It takes no memory and reads nothing.
///
/// # Errors
///
/// `LastRange` exactly where `last` is not from 513 to 4,194,303; else `PastEnd` exactly where something is known of a block after the last, with the
/// least such block.
pub(crate) fn judge_last<B: ReportStore>(blocks: &B, last: u32) -> Result<(), SalvageError>
    ensures range { OnOk result (¬ IsOutOfRange last) }
    ensures good { OnOk result (B.tells → IsNothingPast (B.states blocks.now) last) }
    ensures bad { IfErr result (λ error. B.tells → IsUnfit (B.states blocks.now) last error) }
{
    if last < FIRST_LAST || last > LAST_BLOCK {
        return Err(SalvageError::LastRange);
    }
    match blocks.first_past(last) {
        Some(block) => Err(SalvageError::PastEnd(block)),
        None => Ok(()),
    }
}

/// What the table says of the volume by the rules of a profile, where `last` is its last block: whether it opens, its files and directories
/// and how whole they are, and which blocks are worth reading again.
///
/// For a lawful volume with which the table agrees, it reports what is found of the volume itself; or it has holes: then all
/// blocks of some group are among them, of which one is needed and none is known. It never reports a fault. Each node is one
/// of the tree that the standard reads from the volume's complete bytes, at its path, and none is a fault or a loop. What
/// is whole has that kind, size, stamp and those bytes, and of each group of blocks that it needs one is known; of a torn
/// node of known size each byte outside its holes is the volume's. Where the table knows all of the volume, the nodes are
/// the tree, all whole. The only error of a table that agrees with a lawful volume is `OutOfMemory`.
///
/// A node of the tree is reported as whole where of each group of blocks that it needs one is known, and stays whole, with the
/// same path and bytes, for every table that knows more and disputes nothing that is known. The list to read again is
/// empty exactly if all of the tree is whole. Each block in it is not known, and is in a needed group of which none is
/// known, or is an anchor place while no valid anchor is known. Each node of the tree is whole, or the list holds all of
/// such a group of it: so a pass that reads no listed block makes no further node whole.
///
/// # Errors
///
/// `LastRange` exactly where `last` is not from 513 to 4,194,303; else `PastEnd` exactly where something is known of a
/// block after the last, with the least such block; else `TooManyPaths` where more than 65,536 routes lead from the
/// root to a node; and `OutOfMemory` where memory runs out, but never where one of the first two is due, nor for a volume without
/// an anchor or with wrong extents.
pub fn salvage_by<'a>(
    alloc: Global,
    table: &'a BlockTable,
    last: u32,
    profile: Profile,
) -> Result<Report<'a>, SalvageError>
    ensures range { IsErrOf result SalvageError.LastRange ↔ IsOutOfRange last }
    ensures past { (n : ℕ) → (IsErrOf result (SalvageError.PastEnd n) ↔ ((¬ IsOutOfRange last) × IsPastEnd (state_of table.now) last n)) }
    ensures too_many { IsErrOf result SalvageError.TooManyPaths → (¬ IsOutOfRange last) × IsNothingPast (state_of table.now) last × HasTooManyPathsBy profile (state_of table.now) last }
    ensures report { IfOk result (λ report. IsReportBy profile (state_of table.now) last (report_now report)) }
    // All that is promised of it: it is the only report of the table; and of every lawful volume with which the table agrees, each node is the
    // tree's; what is known enough is whole, and stays so as more is known; and what is listed to be read again is needed, and enough of it.
    ensures headline { IfOk result (λ report. HeadlineBy profile (state_of table.now) last (report_now report)) }
    ensures memory { IsErrOf result SalvageError.OutOfMemory → (¬ IsOutOfRange last) × IsNothingPast (state_of table.now) last × MayWantMemoryBy profile (state_of table.now) last }
    ensures of_no_lawful { IfErr result (IsOfNoLawfulBy profile (state_of table.now) last) }
    ensures rising { IfOk result (λ report. IsRising report.reread.items) }
    ensures rules { IfOk result (λ report. report.profile ≡ profile) }
    ensures of { IfOk result (λ report. (report.table.now ≡ table.now) × (report.last ≡ last)) }
{
    match survey_volume_by(alloc, table, last, profile) {
        Ok(survey) => match filled(alloc, survey) {
            Ok(report) => Ok(report),
            Err(_) => Err(SalvageError::OutOfMemory),
        },
        Err(error) => Err(error),
    }
}

/// What the table says of the volume by the strict rules, where `last` is its last block: [`salvage_by`] with
/// [`Profile::Strict`].
///
/// # Errors
///
/// As those of [`salvage_by`].
pub fn salvage<'a>(
    alloc: Global,
    table: &'a BlockTable,
    last: u32,
) -> Result<Report<'a>, SalvageError>
    ensures range { IsErrOf result SalvageError.LastRange ↔ IsOutOfRange last }
    ensures past { (n : ℕ) → (IsErrOf result (SalvageError.PastEnd n) ↔ ((¬ IsOutOfRange last) × IsPastEnd (state_of table.now) last n)) }
    ensures too_many { IsErrOf result SalvageError.TooManyPaths → (¬ IsOutOfRange last) × IsNothingPast (state_of table.now) last × HasTooManyPaths (state_of table.now) last }
    ensures report { IfOk result (λ report. IsReport (state_of table.now) last (report_now report)) }
    // All that is promised of it: it is the only report of the table; and of every lawful volume with which the table agrees, each node is the
    // tree's; what is known enough is whole, and stays so as more is known; and what is listed to be read again is needed, and enough of it.
    ensures headline { IfOk result (λ report. Headline (state_of table.now) last (report_now report)) }
    ensures memory { IsErrOf result SalvageError.OutOfMemory → (¬ IsOutOfRange last) × IsNothingPast (state_of table.now) last × MayWantMemory (state_of table.now) last }
    ensures of_no_lawful { IfErr result (IsOfNoLawful (state_of table.now) last) }
    ensures rising { IfOk result (λ report. IsRising report.reread.items) }
    ensures rules { IfOk result (λ report. report.profile ≡ Strict) }
    ensures of { IfOk result (λ report. (report.table.now ≡ table.now) × (report.last ≡ last)) }
{
    salvage_by(alloc, table, last, Profile::Strict)
}
