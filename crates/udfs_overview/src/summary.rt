//! The summary of a volume: what a person wants to know, on one screen.

ghost use Rattle.std.specs.Prelude.{◌≡◌, ◌++◌, IsErrOf, OnOk, codes, length, option_map, if◌then◌else◌};
ghost use Rattle.std.specs.String.{string_bytes};
ghost use Rattle.udfs_lattice.specs.Tables.{Table};
ghost use Rattle.udfs_salvage.specs.Found.{volume_now};
ghost use Rattle.udfs_salvage.specs.StorePrinting.{PrintsBy};
ghost use Rattle.udfs_salvage.specs.Surveys.{survey_by};
ghost use Rattle.udfs_overview.specs.Repeating.{given_now};
ghost use Rattle.udfs_overview.specs.Sentences.{sentence};
ghost use Rattle.udfs_overview.specs.Summaries.{again_lines, counts_lines, extract_lines, fault_lines, folders_counts, folders_line, found_lines, left_out_lines, missing_in, missing_line, names_missing, next_by, next_lines, no_need_lines, nodes_lines, summary_lines, summary_text, torn_folder, wide_lines};
ghost use Rattle.udfs_overview.specs.Guarantees.{guarantee_line};
ghost use Rattle.udfs_overview.specs.LeftOut.{left_out_line};
ghost use Rattle.udfs_overview.specs.LostSummaries.{lost_lines};
ghost use Rattle.udfs_overview.specs.Spares.{spares_line};
ghost use Rattle.udfs_overview.specs.MovedTags.{moved_line};
ghost use Rattle.udfs_overview.specs.Streams.{streams_line};
ghost use Rattle.udfs_overview.specs.SummaryTexts.{disc_line, files_line, others_line};
ghost use Rattle.udfs_overview.specs.UnreadLists.{unread_paths, unread_text};
ghost use Rattle.udfs_overview.specs.TornLists.{torn_text};

use crate::disagreements::push_apart;
use crate::disc_tallies::DiscTally;
use crate::guarantees::push_guarantee_line;
use crate::left_out::{left_out_types, push_left_out, wide_writes};
use crate::lost_summaries::push_lost;
use crate::lost_tallies::LostTally;
use crate::moved_tags::push_moved;
use crate::next_commands::{Margins, Pass, push_extract, push_needed_steps, push_summary_by};
use crate::node_widenings::push_wider;
use crate::repeating::{Given, pass_number};
use crate::sentences::{push_counted, push_part, push_sentence};
use crate::spares::push_spares;
use crate::streams::push_streams;
use crate::summary_figures::{Counts, Figures};
use crate::summary_lines::{push_disc, push_files, push_others};
use crate::tallies::{NodeSort, Tally};
use crate::torn_lines::{push_more, push_torn};
use crate::torn_rows::{SHOWN, TornFiles, push_narrow_path};
use crate::unread_lines::{push_unread, unread_in};
use crate::verdicts::Verdict;
use crate::volume_lines::push_volume;
use crate::widenings::{Widening, push_widening};
use std::alloc::Global;
use udfs_lattice::BlockStore;
use udfs_lawfulness::Lawfulness;
use udfs_osta::OutOfMemory;
use udfs_reading::Sink;
use udfs_salvage::{PrintError, ReportStore, Survey, Volume, flush};
use udfs_volume::Profile;
use udfs_walk::{Node, Path};

/// The path of the first torn directory.
fn torn_folder(nodes: &[Node]) -> Option<&Path>
    ensures { option_map (λ path. path.now) result ≡ torn_folder nodes.now }
{
    let mut rest = nodes;
    while let Some((first, others)) = rest.split_first() {
        if NodeSort::TornFolder.has(&first.standing, first.kind) {
            return Some(&first.path);
        }
        rest = others;
    }
    None
}

/// The path of the first torn directory of a survey, in which names may be missing.
#[tactic(auto, using(crate::proofs::FullFolders::folder_full))]
pub fn first_torn_folder<'a, B: BlockStore>(survey: &'a Survey<'_, B>) -> Option<&'a Path>
    ensures { option_map (λ path. path.now) result ≡ torn_folder (survey_by B.states survey.now).nodes }
{
    torn_folder(&survey.nodes)
}

/// Where names may be missing.
#[tactic(auto, unfolding(crate::specs::Summaries::missing_line))]
fn push_missing_line(alloc: Global, text: &mut String, path: &Path) -> Result<(), OutOfMemory>
    ensures { OnOk result (string_bytes text.new ≡ string_bytes text.old ++ missing_line path.now) }
{
    text.push_str("           names may be missing in ")?;
    push_narrow_path(alloc, text, 21, path)?;
    text.push_str("\n")
}

/// The first torn directory, and how many more.
fn push_missing_in(
    alloc: Global,
    text: &mut String,
    torn: usize,
    path: &Path,
) -> Result<(), OutOfMemory>
    ensures { OnOk result (string_bytes text.new ≡ string_bytes text.old ++ missing_in torn path.now) }
{
    push_missing_line(alloc, text, path)?;
    push_more(text, torn.saturating_sub(1))
}

/// Where names may be missing, if anywhere.
fn push_names_missing(
    alloc: Global,
    text: &mut String,
    torn: usize,
    path: Option<&Path>,
) -> Result<(), OutOfMemory>
    ensures { OnOk result (string_bytes text.new ≡ string_bytes text.old ++ names_missing torn (option_map (λ path. path.now) path.entry)) }
{
    match path {
        None => Ok(()),
        Some(path) => push_missing_in(alloc, text, torn, path),
    }
}

/// How many folders are whole, and how many torn.
#[tactic(auto, unfolding(crate::specs::Summaries::folders_counts))]
fn push_folders_counts(text: &mut String, tally: &Tally) -> Result<(), OutOfMemory>
    ensures { OnOk result (string_bytes text.new ≡ string_bytes text.old ++ folders_counts tally.now) }
{
    text.push_str("Folders    ")?;
    push_counted(text, tally.whole_folders as u64, " whole")?;
    push_part(text, "   ", tally.torn_folders as u64, " torn")?;
    text.push_str("\n")
}

/// The lines of the folders, if there are any.
#[tactic(auto, unfolding(crate::specs::Summaries::folders_line))]
fn push_folders(
    alloc: Global,
    text: &mut String,
    tally: &Tally,
    path: Option<&Path>,
) -> Result<(), OutOfMemory>
    ensures { OnOk result (string_bytes text.new ≡ string_bytes text.old ++ folders_line tally.now (option_map (λ path. path.now) path.entry)) }
{
    if tally.whole_folders == 0 && tally.torn_folders == 0 {
        return Ok(());
    }
    push_folders_counts(text, tally)?;
    push_names_missing(alloc, text, tally.torn_folders, path)
}

/// The lines of what is found of a volume that opens.
fn push_nodes(
    alloc: Global,
    text: &mut String,
    tally: &Tally,
    path: Option<&Path>,
    types: &[u8],
) -> Result<(), OutOfMemory>
    ensures { OnOk result (string_bytes text.new ≡ string_bytes text.old
        ++ (files_line tally.now ++ folders_line tally.now (option_map (λ path. path.now) path.entry) ++ others_line tally.now ++ left_out_line types.now)) }
{
    push_files(text, tally)?;
    push_folders(alloc, text, tally, path)?;
    push_others(text, tally)?;
    push_left_out(alloc, text, types)
}

/// The lines of what is counted of a volume, where it opens.
#[tactic(auto, unfolding(crate::specs::Summaries::counts_lines))]
fn push_counts<B: BlockStore>(
    alloc: Global,
    text: &mut String,
    survey: &Survey<'_, B>,
    figures: &Figures,
) -> Result<(), OutOfMemory>
    ensures { OnOk result (string_bytes text.new ≡ string_bytes text.old ++ counts_lines figures.now (survey_by B.states survey.now)) }
{
    let types = left_out_types(alloc, survey)?;
    let path = first_torn_folder(survey);
    push_nodes(alloc, text, &figures.tally, path, &types)
}

/// The sentence of the nodes of a survey.
fn push_nodes_sentence<B: BlockStore>(
    text: &mut String,
    survey: &Survey<'_, B>,
    figures: &Figures,
) -> Result<(), OutOfMemory>
    ensures { OnOk result (string_bytes text.new ≡ string_bytes text.old ++ sentence figures.now.tally (length (survey_by B.states survey.now).reread)) }
{
    push_sentence(text, &figures.tally, survey.reread.len() as u64)
}

/// The lines of what is found of the nodes of a volume, where it opens.
#[tactic(auto, unfolding(crate::specs::Summaries::nodes_lines))]
fn push_found<B: BlockStore>(
    alloc: Global,
    text: &mut String,
    survey: &Survey<'_, B>,
    figures: &Figures,
) -> Result<(), OutOfMemory>
    ensures { OnOk result (string_bytes text.new ≡ string_bytes text.old ++ nodes_lines figures.now (survey_by B.states survey.now)) }
{
    push_nodes_sentence(text, survey, figures)?;
    push_counts(alloc, text, survey, figures)
}

/// These lines, that of the files with named streams, that of the folders with tags of another place, and that of sparing copies which
/// disagree.
fn push_all_found<B: BlockStore>(
    alloc: Global,
    text: &mut String,
    survey: &Survey<'_, B>,
    figures: &Figures,
) -> Result<(), OutOfMemory>
    ensures { OnOk result (string_bytes text.new ≡ string_bytes text.old
        ++ (nodes_lines figures.now (survey_by B.states survey.now) ++ streams_line figures.now.streams ++ moved_line figures.now.moved ++ spares_line figures.now.spares_disagree)) }
{
    push_found(alloc, text, survey, figures)?;
    push_streams(text, figures.streams)?;
    push_moved(text, figures.moved)?;
    push_spares(text, figures.spares_disagree)
}

/// The lines of the torn files.
#[tactic(auto, unfolding(crate::specs::TornLists::torn_text))]
fn push_top(alloc: Global, text: &mut String, torn: &TornFiles) -> Result<(), OutOfMemory>
    ensures { OnOk result (string_bytes text.new ≡ string_bytes text.old ++ torn_text torn.now.rows.items torn.now.count) }
{
    push_torn(alloc, text, &torn.rows, torn.count.saturating_sub(SHOWN))
}

/// The lines of what is found of a volume, where it opens.
fn push_found_if_open<B: BlockStore>(
    alloc: Global,
    text: &mut String,
    survey: &Survey<'_, B>,
    figures: &Figures,
) -> Result<(), OutOfMemory>
    ensures { OnOk result (string_bytes text.new ≡ string_bytes text.old ++ found_lines (volume_now survey.now.volume) figures.now (survey_by B.states survey.now)) }
{
    match &survey.volume {
        Volume::Open(_) => push_all_found(alloc, text, survey, figures),
        _ => Ok(()),
    }
}

/// The same, and the lines of what is lost, which may be found where the volume does not open.
fn push_found_and_lost<B: BlockStore>(
    alloc: Global,
    text: &mut String,
    survey: &Survey<'_, B>,
    figures: &Figures,
    lost: &LostTally,
) -> Result<(), OutOfMemory>
    ensures { OnOk result (string_bytes text.new ≡ string_bytes text.old
        ++ (found_lines (volume_now survey.now.volume) figures.now (survey_by B.states survey.now) ++ lost_lines lost.now)) }
{
    push_found_if_open(alloc, text, survey, figures)?;
    push_lost(text, lost)
}

/// The lines of the entries that were not read.
fn push_all_unread<B: BlockStore>(
    alloc: Global,
    text: &mut String,
    survey: &Survey<'_, B>,
) -> Result<(), OutOfMemory>
    ensures { OnOk result (string_bytes text.new ≡ string_bytes text.old ++ unread_text (unread_paths (survey_by B.states survey.now).nodes)) }
{
    let paths = unread_in(alloc, survey)?;
    push_unread(alloc, text, &paths)
}

/// What stands before what to do next.
const MARGINS: Margins<'static> = Margins {
    first: "Next       ",
    other: "           ",
};

/// That all is whole, or that nothing is worth reading again.
fn extract_words(whole: bool) -> &'static str
    ensures { result.now ≡ (if whole then codes "Next       All is whole. Write it out:\n" else codes "Next       No block is worth reading again. Write out what is whole:\n") }
{
    if whole {
        "Next       All is whole. Write it out:\n"
    } else {
        "Next       No block is worth reading again. Write out what is whole:\n"
    }
}

/// The command that writes the files of a volume of which nothing is worth reading again.
fn push_extract_lines(
    text: &mut String,
    given: &Given<'_>,
    profile: Profile,
    last: u32,
    whole: bool,
) -> Result<(), OutOfMemory>
    ensures { OnOk result (string_bytes text.new ≡ string_bytes text.old ++ extract_lines (given_now given.now) profile last whole) }
{
    text.push_str(extract_words(whole))?;
    text.push_str("           ")?;
    push_extract(text, given, profile, last)
}

/// The summary by the wide rules, of a volume that these read.
#[tactic(auto, unfolding(crate::specs::Summaries::wide_lines))]
fn push_wide_lines(
    text: &mut String,
    given: &Given<'_>,
    last: u32,
    widening: Widening,
) -> Result<(), OutOfMemory>
    ensures { OnOk result (string_bytes text.new ≡ string_bytes text.old ++ wide_lines (given_now given.now) last widening) }
{
    text.push_str("Next       ")?;
    push_widening(text, widening)?;
    text.push_str("\n           ")?;
    push_summary_by(text, given, Profile::Wide, last)
}

/// What is said of a volume with a fault.
fn push_fault_lines(
    text: &mut String,
    given: &Given<'_>,
    last: u32,
    widening: Widening,
) -> Result<(), OutOfMemory>
    ensures { OnOk result (string_bytes text.new ≡ string_bytes text.old ++ fault_lines (given_now given.now) last widening) }
{
    match widening {
        Widening::No => text.push_str(
            "Next       Reading blocks again will not help:\n           man udfsalvage-errors explains this fault\n",
        ),
        Widening::Wants | Widening::Reads(_) => push_wide_lines(text, given, last, widening),
    }
}

/// What to do next, where no block is worth reading again.
fn push_no_need(
    text: &mut String,
    given: &Given<'_>,
    figures: &Figures,
    volume: &Volume,
) -> Result<(), OutOfMemory>
    ensures { OnOk result (string_bytes text.new ≡ string_bytes text.old ++ no_need_lines (given_now given.now) figures.now (volume_now volume.now)) }
{
    match volume {
        Volume::Open(_) => {
            push_extract_lines(
                text,
                given,
                figures.profile,
                figures.last,
                figures.all_whole,
            )
        }
        Volume::Holes(_) => Ok(()),
        Volume::Fault(_) => push_fault_lines(text, given, figures.last, figures.widening),
    }
}

/// What to do next, where blocks are worth reading again.
fn push_again(
    alloc: Global,
    text: &mut String,
    given: &Given<'_>,
    figures: &Figures,
) -> Result<(), OutOfMemory>
    ensures { OnOk result (string_bytes text.new ≡ string_bytes text.old ++ again_lines (given_now given.now) figures.now) }
{
    let pass = Pass {
        profile: figures.profile,
        last: figures.last,
        number: pass_number(alloc, given, figures.disc.known)?,
    };
    push_needed_steps(text, MARGINS, given, pass, figures.disc.needed_in_conflict)
}

/// The summary by the wide rules, where these write files that the strict ones leave out.
#[tactic(auto, unfolding(crate::specs::Summaries::left_out_lines))]
fn push_left_out_lines(text: &mut String, given: &Given<'_>, last: u32) -> Result<(), OutOfMemory>
    ensures { OnOk result (string_bytes text.new ≡ string_bytes text.old ++ left_out_lines (given_now given.now) last) }
{
    text.push_str(
        "Next       The wide rules also write files that are left out here:\n           ",
    )?;
    push_summary_by(text, given, Profile::Wide, last)
}

/// What to do next by these rules.
fn push_next_by(
    alloc: Global,
    text: &mut String,
    given: &Given<'_>,
    figures: &Figures,
    volume: &Volume,
    reread: &[u32],
) -> Result<(), OutOfMemory>
    ensures { OnOk result (string_bytes text.new ≡ string_bytes text.old ++ next_by (given_now given.now) figures.now (volume_now volume.now) reread.now) }
{
    match reread {
        [] => push_no_need(text, given, figures, volume),
        _ => push_again(alloc, text, given, figures),
    }
}

/// What to do next.
#[tactic(auto, unfolding(crate::specs::Summaries::next_lines))]
fn push_next<B: BlockStore>(
    alloc: Global,
    text: &mut String,
    given: &Given<'_>,
    survey: &Survey<'_, B>,
    figures: &Figures,
) -> Result<(), OutOfMemory>
    ensures { OnOk result (string_bytes text.new ≡ string_bytes text.old ++ next_lines (given_now given.now) figures.now (survey_by B.states survey.now)) }
{
    if wide_writes(alloc, survey)? {
        push_left_out_lines(text, given, figures.last)
    } else {
        push_next_by(alloc, text, given, figures, &survey.volume, &survey.reread)
    }
}

/// Whether the guarantee holds, and the lines of the blocks.
fn push_state(
    alloc: Global,
    text: &mut String,
    answer: &Lawfulness,
    disc: &DiscTally,
) -> Result<(), OutOfMemory>
    ensures { OnOk result (string_bytes text.new ≡ string_bytes text.old ++ (guarantee_line answer.now ++ disc_line disc.now)) }
{
    push_guarantee_line(alloc, text, answer)?;
    push_disc(text, disc)
}

/// All lines.
#[tactic(auto, unfolding(crate::specs::Summaries::summary_lines))]
fn push_summary<B: BlockStore>(
    alloc: Global,
    text: &mut String,
    given: &Given<'_>,
    survey: &Survey<'_, B>,
    counts: &Counts,
    answer: &Verdict,
) -> Result<(), OutOfMemory>
    ensures { OnOk result (string_bytes text.new ≡ string_bytes text.old
        ++ summary_lines (given_now given.now) counts.now.figures counts.now.torn.rows.items counts.now.torn.count (survey_by B.states survey.now) answer.now) }
{
    let figures = &counts.figures;
    push_volume(text, &survey.volume, figures.last)?;
    push_apart(text, figures.anchors, figures.copies_differ)?;
    push_found_and_lost(alloc, text, survey, figures, &answer.lost)?;
    push_wider(text, figures.wider)?;
    push_state(alloc, text, &answer.lawfulness, &figures.disc)?;
    push_all_unread(alloc, text, survey)?;
    push_top(alloc, text, &counts.torn)?;
    push_next(alloc, text, given, survey, figures)
}

/// Writes the summary of the report that a survey represents, of a disc that is read with these arguments: what the volume is, whether known anchors or
/// known copies of its descriptors differ, how many files are complete, damaged or could not be looked at, how many files and folders are whole, torn, links, of a type
/// that is not written or without a name, how many files have named streams, whether sparing copies disagree, whether the guarantee holds by this answer, the blocks of the disc,
/// the torn files of which most is lost, and what to do next, as commands. A volume that does not open has a line that says why, those of what is lost, that of the guarantee, that of the blocks, and what to do next. The blocks and holes of one
/// node are held at a time. All that is read is read before anything is written.
///
/// # Errors
///
/// `Run` with `Write` if and only if the sink failed, and with `OutOfMemory` if memory ran out: then a prefix of the lines, possibly empty, was written. `Unread` where the bytes of a known block could not be read, which no table has: what
/// could not be read is never told as unknown.
pub fn write_summary_by<B: ReportStore, W: Sink>(
    alloc: Global,
    given: &Given<'_>,
    survey: &Survey<'_, B>,
    answer: &Verdict,
    sink: &mut W,
) -> Result<(), PrintError>
    ensures printed { B.tells → (t : Table) → B.holds survey.now.table.now t → PrintsBy (W.stream sink.old) (W.stream sink.new)
        (summary_text (given_now given.now) survey.now.profile t survey.now.last (survey_by B.states survey.now) answer.now) result }
    ensures fails { IsErrOf result PrintError.Unread → B.fails }
{
    let counts = Counts::of(alloc, survey)?;
    let mut text = String::new(alloc);
    push_summary(alloc, &mut text, given, survey, &counts, answer)?;
    flush(&mut text, sink)?;
    Ok(())
}
