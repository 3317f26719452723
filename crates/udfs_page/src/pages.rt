//! The page of the report that a survey represents.

ghost use Rattle.std.specs.Prelude.{◌≡◌, ◌≤◌, ◌++◌, ◌+◌, ℕ, List, IsErrOf, OnOk, length, option_map};
ghost use Rattle.std.specs.String.{string_bytes};
ghost use Rattle.udfs_lattice.specs.Tables.{Table};
ghost use Rattle.udfs_volume.specs.declared.profiles.Profile.{Profile};
ghost use Rattle.udfs_salvage.specs.Found.{volume_now};
ghost use Rattle.udfs_salvage.specs.Reports.{Report};
ghost use Rattle.udfs_salvage.specs.StorePrinting.{PassesOnBy, PrintsBy};
ghost use Rattle.udfs_salvage.specs.Surveys.{survey_by};
ghost use Rattle.udfs_page.specs.Heads.{head_text, page_mark};
ghost use Rattle.udfs_overview.specs.Repeating.{GivenWords, given_now, inputs_words};
ghost use Rattle.udfs_overview.specs.UnreadLists.{unread_paths};
ghost use Rattle.udfs_page.specs.Markups.{shown_name};
ghost use Rattle.udfs_page.specs.Naming.{CalledWords, called_now};
ghost use Rattle.udfs_page.specs.Overviews.{overview_html, title_html};
ghost use Rattle.udfs_page.specs.Pages.{disc_html, files_html, front_html, inputs_html, lacking_html, page_html};
ghost use Rattle.udfs_page.specs.UnreadTables.{unread_html};
ghost use Rattle.udfs_overview.specs.declared.verdicts.Verdict.{Verdict};

use crate::disc_arcs::{Mark, arcs};
use crate::heads::{push_head_back, push_head_front, push_heading, push_titled};
use crate::lost_sections::put_lost;
use crate::markups::{push_markup, push_shown};
use crate::naming::Called;
use crate::next_steps::push_next;
use crate::overviews::{push_overview, push_title};
use crate::pictures::push_picture;
use crate::torn_tables::push_torn;
use crate::trees::put_tree;
use crate::unread_tables::push_unread;
use std::alloc::Global;
use udfs_lattice::BlockStore;
use udfs_osta::OutOfMemory;
use udfs_overview::{Counts, Figures, Given, TornFiles, Verdict, push_inputs, unread_in};
use udfs_reading::Sink;
use udfs_salvage::{PrintError, ReportStore, Survey, Volume, flush};

/// The head, with the title of the page.
#[tactic(auto, unfolding(crate::specs::Heads::head_text))]
fn push_head(
    alloc: Global,
    text: &mut String,
    title: Option<&str>,
    volume: &Volume,
) -> Result<(), OutOfMemory>
    ensures { OnOk result (string_bytes text.new ≡ string_bytes text.old ++ head_text (option_map (λ title. title.now) title.entry) (title_html (volume_now volume.now))) }
{
    push_head_front(text)?;
    push_titled(text, title)?;
    push_title(alloc, text, volume)?;
    push_head_back(text)?;
    push_heading(text, title)
}

/// The inputs by themselves, as they were given.
fn push_shown_inputs(alloc: Global, text: &mut String, given: &Given<'_>) -> Result<(), OutOfMemory>
    ensures { OnOk result (string_bytes text.new ≡ string_bytes text.old ++ shown_name (inputs_words (given_now given.now))) }
{
    let mut words = String::new(alloc);
    push_inputs(&mut words, given)?;
    push_shown(text, &words)
}

/// What was read.
fn push_read(alloc: Global, text: &mut String, given: &Given<'_>) -> Result<(), OutOfMemory>
    ensures { OnOk result (string_bytes text.new ≡ string_bytes text.old ++ inputs_html (given_now given.now)) }
{
    push_markup(text, "<p>Read from")?;
    push_shown_inputs(alloc, text, given)?;
    push_markup(text, "</p>\n")
}

/// What the disc is, what is known of it, and what was read.
fn push_overview_and_read<B: BlockStore>(
    alloc: Global,
    text: &mut String,
    given: &Given<'_>,
    survey: &Survey<'_, B>,
    figures: &Figures,
    answer: &Verdict,
) -> Result<(), OutOfMemory>
    ensures { OnOk result (string_bytes text.new ≡ string_bytes text.old ++ (overview_html figures.now (survey_by B.states survey.now) answer.now ++ inputs_html (given_now given.now))) }
{
    push_overview(alloc, text, survey, figures, answer)?;
    push_read(alloc, text, given)
}

/// What the page says of the disc.
fn push_about_disc<B: BlockStore>(
    alloc: Global,
    text: &mut String,
    given: &Given<'_>,
    called: &Called<'_>,
    survey: &Survey<'_, B>,
    figures: &Figures,
    marks: &[Mark],
    answer: &Verdict,
) -> Result<(), OutOfMemory>
    requires few { length marks.now ≤ 2000 }
    ensures { OnOk result (string_bytes text.new ≡ string_bytes text.old ++ disc_html (given_now given.now) (called_now called.now) figures.now marks.now (survey_by B.states survey.now) answer.now) }
{
    push_overview_and_read(alloc, text, given, survey, figures, answer)?;
    push_picture(text, marks, figures.last as u64 + 1)?;
    push_next(alloc, text, given, called, survey, figures)
}

/// What was not read.
fn push_unread_entries<B: BlockStore>(
    alloc: Global,
    text: &mut String,
    survey: &Survey<'_, B>,
) -> Result<(), OutOfMemory>
    ensures { OnOk result (string_bytes text.new ≡ string_bytes text.old ++ unread_html (unread_paths (survey_by B.states survey.now).nodes)) }
{
    let paths = unread_in(alloc, survey)?;
    push_unread(alloc, text, &paths)
}

/// What was not read, and what is torn.
fn push_lacking<B: BlockStore>(
    alloc: Global,
    text: &mut String,
    survey: &Survey<'_, B>,
    torn: &TornFiles,
) -> Result<(), OutOfMemory>
    ensures { OnOk result (string_bytes text.new ≡ string_bytes text.old ++ lacking_html (survey_by B.states survey.now).nodes torn.now.rows.items torn.now.count) }
{
    push_unread_entries(alloc, text, survey)?;
    push_torn(text, torn.count, &torn.rows)
}

/// All before the tree of the nodes.
#[tactic(auto, unfolding(crate::specs::Pages::front_html))]
fn push_front<B: BlockStore>(
    alloc: Global,
    text: &mut String,
    given: &Given<'_>,
    called: &Called<'_>,
    survey: &Survey<'_, B>,
    counts: &Counts,
    marks: &[Mark],
    answer: &Verdict,
) -> Result<(), OutOfMemory>
    requires few { length marks.now ≤ 2000 }
    ensures { OnOk result (string_bytes text.new ≡ string_bytes text.old
        ++ front_html (given_now given.now) (called_now called.now) counts.now.figures marks.now counts.now.torn.rows.items counts.now.torn.count (survey_by B.states survey.now) answer.now) }
{
    let figures = &counts.figures;
    push_head(alloc, text, called.title, &survey.volume)?;
    push_about_disc(alloc, text, given, called, survey, figures, marks, answer)?;
    push_lacking(alloc, text, survey, &counts.torn)
}

/// The tree of the nodes of the volume, if that opens.
fn put_about_files<B: BlockStore, W: Sink>(
    alloc: Global,
    text: &mut String,
    sink: &mut W,
    survey: &Survey<'_, B>,
) -> Result<(), PrintError>
    ensures printed { B.tells → PassesOnBy (W.stream sink.old) (W.stream sink.new) (string_bytes text.old) (string_bytes text.new)
        (files_html (B.states survey.now.table.now) (volume_now survey.now.volume) (survey_by B.states survey.now)) result }
    ensures fails { IsErrOf result PrintError.Unread → B.fails }
{
    match &survey.volume {
        Volume::Open(opened) => {
            let view = opened.view_by(survey.table);
            put_tree(alloc, text, sink, view, &survey.nodes)
        }
        _ => Ok(()),
    }
}

/// All of it.
fn put_page<B: ReportStore, W: Sink>(
    alloc: Global,
    text: &mut String,
    sink: &mut W,
    given: &Given<'_>,
    called: &Called<'_>,
    survey: &Survey<'_, B>,
    answer: &Verdict,
) -> Result<(), PrintError>
    ensures printed { B.tells → (t : Table) → B.holds survey.now.table.now t → PassesOnBy (W.stream sink.old) (W.stream sink.new) (string_bytes text.old) (string_bytes text.new)
        (page_html (given_now given.now) (called_now called.now) survey.now.profile t survey.now.last (survey_by B.states survey.now) answer.now) result }
    ensures fails { IsErrOf result PrintError.Unread → B.fails }
{
    let counts = Counts::of(alloc, survey)?;
    let marks = arcs(alloc, survey.table, survey.last, &survey.reread)?;
    push_front(alloc, text, given, called, survey, &counts, &marks, answer)?;
    put_about_files(alloc, text, sink, survey)?;
    put_lost(alloc, text, sink, given, survey, answer)?;
    push_markup(text, "</body>\n</html>\n")?;
    Ok(())
}

/// Writes the page of the report that a survey represents, where these arguments were given and the page is called so: a whole HTML file, with what is found of the volume, whether the guarantee holds by this answer, the disc as a picture, what to do
/// next, what was not read, the torn files of which most is lost, all files inside their folders, and the lost folders and files that the answer has. No name can begin or end an element in it. It is written in pieces: the
/// blocks and holes of one node are held at a time, and no more text of the nodes than a piece and that of one of them. What is missing of a torn node is read for its line.
///
/// # Errors
///
/// `Run` with `Write` if and only if the sink failed, and with `OutOfMemory` if memory ran out; `Unread` where the bytes of a known block could not be read, which no table has. In each case a prefix of the page, possibly
/// empty, was written: what could not be read is never told as unknown.
pub fn write_page_by<B: ReportStore, W: Sink>(
    alloc: Global,
    given: &Given<'_>,
    called: &Called<'_>,
    survey: &Survey<'_, B>,
    answer: &Verdict,
    sink: &mut W,
) -> Result<(), PrintError>
    ensures printed { B.tells → (t : Table) → B.holds survey.now.table.now t → PrintsBy (W.stream sink.old) (W.stream sink.new)
        (page_html (given_now given.now) (called_now called.now) survey.now.profile t survey.now.last (survey_by B.states survey.now) answer.now) result }
    ensures fails { IsErrOf result PrintError.Unread → B.fails }
{
    let mut text = String::new(alloc);
    put_page(alloc, &mut text, sink, given, called, survey, answer)?;
    flush(&mut text, sink)?;
    Ok(())
}

/// Each page begins with the mark by which it is known. This is a law about pages; the call does nothing.
pub fn pages_begin_so()
    ensures { (given : GivenWords) → (called : CalledWords) → (rules : Profile) → (table : Table) → (last : ℕ) → (report : Report) → (answer : Verdict) → (rest : List ℕ) × (page_html given called rules table last report answer ≡ page_mark ++ rest) }
{}
