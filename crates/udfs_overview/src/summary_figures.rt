//! All that a summary counts.

ghost use Rattle.std.specs.Prelude.{◌≡◌, IfOk, IsErrOf, length};
ghost use Rattle.udfs_lattice.specs.Tables.{Table};
ghost use Rattle.udfs_salvage.specs.Surveys.{survey_by};
ghost use Rattle.udfs_overview.specs.SummaryFigures.{IsCounted, figures_in, is_all_whole};
ghost use Rattle.udfs_overview.specs.Tallies.{node_count};

use crate::disagreements::{anchors_of, copies_of};
use crate::disc_tallies::{DiscTally, UnnamedTally, count_disc, count_unnamed};
use crate::left_out::left_out_types;
use crate::moved_tags::count_moved;
use crate::node_widenings::count_wider;
use crate::spares::spares_disagree_by;
use crate::streams::count_streams;
use crate::tallies::{Tally, count_nodes, survey_torn};
use crate::torn_rows::{TornFiles, shown_files};
use crate::widenings::{Widening, widening_of};
use std::alloc::Global;
use udfs_lattice::{BlockStore, GaveUp};
use udfs_osta::OutOfMemory;
use udfs_salvage::{ReportStore, Survey};
use udfs_volume::Profile;

/// All that a summary counts.
#[derive(Clone, Copy, Debug, PartialEq, Eq)]
pub struct Figures {
    /// The rules by which the volume is read.
    pub profile: Profile,
    /// The last block of the disc.
    pub last: u32,
    /// There are nodes, all are whole, and none is a file of a type that is not written.
    pub all_whole: bool,
    /// The nodes.
    pub tally: Tally,
    /// The blocks of the disc.
    pub disc: DiscTally,
    /// Whole files that no name leads to.
    pub unnamed: UnnamedTally,
    /// How many folders have tags of another place.
    pub moved: usize,
    /// How many files have named streams.
    pub streams: usize,
    /// Copies of a sparing table disagree.
    pub spares_disagree: bool,
    /// Two known anchors that name different extents.
    pub anchors: Option<(u32, u32)>,
    /// Known copies of the volume descriptor sequence differ.
    pub copies_differ: bool,
    /// How many nodes with a fault the wide rules read, where the strict ones were taken.
    pub wider: usize,
    /// What the wide rules make of the volume, where the strict ones refuse it.
    pub widening: Widening,
}

/// Whether there are nodes, all are whole, and none is a file of a type that is not written.
fn is_all_whole<B: BlockStore>(alloc: Global, survey: &Survey<'_, B>) -> Result<bool, OutOfMemory>
    ensures { IfOk result (λ whole. whole ≡ is_all_whole (survey_by B.states survey.now)) }
{
    let types = left_out_types(alloc, survey)?;
    Ok(survey.all_whole() && types.len() == 0)
}

impl Figures {
    /// What the summary of the report that a survey represents counts, where this is counted of its nodes and of the blocks of its disc.
    #[tactic(auto, unfolding(crate::specs::SummaryFigures::figures_in))]
    fn of<B: ReportStore>(
        alloc: Global,
        survey: &Survey<'_, B>,
        tally: Tally,
        disc: DiscTally,
    ) -> Result<Figures, GaveUp>
        ensures value { IfOk result (λ figures. B.tells → figures ≡ figures_in survey.now.profile (B.states survey.now.table.now) tally disc survey.now.last (survey_by B.states survey.now)) }
        ensures fails { IsErrOf result GaveUp.Unread → B.fails }
    {
        let blocks = survey.table;
        let all_whole = is_all_whole(alloc, survey)?;
        let moved = count_moved(alloc, survey)?;
        let streams = count_streams(survey)?;
        let spares_disagree = spares_disagree_by(blocks, &survey.volume)?;
        let anchors = anchors_of(blocks, survey.last)?;
        let copies_differ = copies_of(alloc, blocks, survey.last, survey.profile)?;
        let wider = count_wider(alloc, survey)?;
        let widening = widening_of(alloc, blocks, survey.last, survey.profile)?;
        Ok(Figures {
            profile: survey.profile,
            last: survey.last,
            all_whole,
            tally,
            disc,
            unnamed: count_unnamed(survey),
            moved,
            streams,
            spares_disagree,
            anchors,
            copies_differ,
            wider,
            widening,
        })
    }
}

/// All that a summary says by what is known of the blocks.
#[derive(Debug, Drop)]
pub struct Counts {
    /// The figures.
    pub figures: Figures,
    /// The torn files.
    pub torn: TornFiles,
}

impl Counts {
    /// What the summary of the report that a survey represents counts. What is missing of a torn file is found once, and held for one file at a time.
    ///
    /// # Errors
    ///
    /// `OutOfMemory` if memory runs out, and `Unread` where the bytes of a known block could not be read.
    pub fn of<B: ReportStore>(alloc: Global, survey: &Survey<'_, B>) -> Result<Counts, GaveUp>
        ensures counted { IfOk result (λ counts. B.tells → (t : Table) → B.holds survey.now.table.now t
            → IsCounted survey.now.profile t survey.now.last (survey_by B.states survey.now) counts.figures counts.torn.rows.items counts.torn.count) }
        // Each node is counted once.
        ensures all { IfOk result (λ counts. B.tells → node_count counts.figures.tally ≡ length (survey_by B.states survey.now).nodes) }
        ensures fails { IsErrOf result GaveUp.Unread → B.fails }
    {
        let files = survey_torn(alloc, survey)?;
        let tally = count_nodes(&survey.nodes, &files);
        let figures = Figures::of(alloc, survey, tally, count_disc(survey))?;
        let torn = shown_files(alloc, &files)?;
        Ok(Counts { figures, torn })
    }
}
