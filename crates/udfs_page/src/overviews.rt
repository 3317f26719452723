//! The summary at the head of the page. Each function appends to a text; if memory runs out, a part may be appended.

ghost use Rattle.std.specs.Prelude.{◌≡◌, ◌++◌, OnOk, option_map};
ghost use Rattle.std.specs.String.{string_bytes};
ghost use Rattle.udfs_volume.specs.LayoutParts.{parts_now};
ghost use Rattle.udfs_salvage.specs.Found.{found_now, volume_now};
ghost use Rattle.udfs_salvage.specs.Surveys.{survey_by};
ghost use Rattle.udfs_overview.specs.Disagreements.{apart_lines};
ghost use Rattle.udfs_overview.specs.Guarantees.{guarantee_line, why_place, why_words};
ghost use Rattle.udfs_overview.specs.LeftOut.{left_out_line};
ghost use Rattle.udfs_overview.specs.LostSummaries.{lost_lines};
ghost use Rattle.udfs_overview.specs.MovedTags.{moved_line};
ghost use Rattle.udfs_overview.specs.NodeWidenings.{wider_line};
ghost use Rattle.udfs_overview.specs.Sentences.{sentence};
ghost use Rattle.udfs_overview.specs.SummaryTexts.{disc_line, files_line, others_line};
ghost use Rattle.udfs_overview.specs.TornLists.{shown_path};
ghost use Rattle.udfs_overview.specs.VolumeLines.{label_text, volume_line};
ghost use Rattle.udfs_page.specs.Escapes.{html_lines, html_text};
ghost use Rattle.udfs_page.specs.Markups.{shown_name};
ghost use Rattle.udfs_page.specs.Overviews.{counted_html, folder_counts_html, folders_html, found_html, guarantee_html, missing_html, names_missing_html, next_line, open_html, opened_html, other_folders_html, overview_html, title_html, torn_folders_html, unlawful_html, volume_html};

use crate::escapes::{push_html, push_lines};
use crate::markups::{push_markup, push_shown};
use std::alloc::Global;
use udfs_lattice::BlockStore;
use udfs_lawfulness::{Lawfulness, Why};
use udfs_osta::{Label, OutOfMemory};
use udfs_overview::{
    DiscTally, Figures, LostTally, Tally, Verdict, first_torn_folder, left_out_types, push_apart,
    push_disc, push_disc_size, push_files, push_grouped, push_guarantee_line, push_label,
    push_left_out, push_lost, push_moved, push_others, push_revision, push_sentence,
    push_shown_path, push_volume, push_why_place, push_why_words, push_wider,
};
use udfs_salvage::{OpenVolume, Survey, Volume};
use udfs_walk::Path;

/// The volume's name, by itself.
fn push_shown_label(alloc: Global, text: &mut String, label: &Label) -> Result<(), OutOfMemory>
    ensures { OnOk result (string_bytes text.new ≡ string_bytes text.old ++ shown_name (label_text label.now)) }
{
    let mut name = String::new(alloc);
    push_label(&mut name, label)?;
    push_shown(text, &name)
}

/// The volume's name as HTML text without elements, for the title.
fn push_title_label(alloc: Global, text: &mut String, label: &Label) -> Result<(), OutOfMemory>
    ensures { OnOk result (string_bytes text.new ≡ string_bytes text.old ++ html_text (label_text label.now)) }
{
    let mut name = String::new(alloc);
    push_label(&mut name, label)?;
    push_html(text, &name)
}

/// What the page is of: the volume's name, where it opens.
pub(crate) fn push_title(
    alloc: Global,
    text: &mut String,
    volume: &Volume,
) -> Result<(), OutOfMemory>
    ensures { OnOk result (string_bytes text.new ≡ string_bytes text.old ++ title_html (volume_now volume.now)) }
{
    match volume {
        Volume::Open(opened) => push_title_label(alloc, text, &opened.parts.label),
        Volume::Holes(_) => push_markup(text, "a disc that does not open"),
        Volume::Fault(_) => push_markup(text, "a disc that does not open"),
    }
}

/// A line ends, and the next begins.
fn push_next_line(text: &mut String) -> Result<(), OutOfMemory>
    ensures { OnOk result (string_bytes text.new ≡ string_bytes text.old ++ (next_line)) }
{
    push_markup(text, "</div>\n<div>")
}

/// The first line of a volume that opens: its name, its revision, and its size.
fn push_open(
    alloc: Global,
    text: &mut String,
    opened: &OpenVolume,
    last: u32,
) -> Result<(), OutOfMemory>
    ensures { OnOk result (string_bytes text.new ≡ string_bytes text.old ++ open_html (found_now opened.now) last) }
{
    push_shown_label(alloc, text, &opened.parts.label)?;
    push_markup(text, "   ")?;
    push_revision(text, &opened.parts)?;
    push_markup(text, "   ")?;
    push_disc_size(text, last)?;
    push_next_line(text)
}

/// A number, and what is counted.
fn push_counted(text: &mut String, number: usize, words: &str) -> Result<(), OutOfMemory>
    ensures { OnOk result (string_bytes text.new ≡ string_bytes text.old ++ counted_html number words.now) }
{
    push_grouped(number as u128, text)?;
    push_markup(text, words)
}

/// Of `torn` torn directories, how many there are beside the first, if any.
fn push_other_folders(text: &mut String, torn: usize) -> Result<(), OutOfMemory>
    ensures { OnOk result (string_bytes text.new ≡ string_bytes text.old ++ other_folders_html torn) }
{
    if torn <= 1 {
        return Ok(());
    }
    push_markup(text, " and ")?;
    push_counted(text, torn - 1, " more")
}

/// A path, by itself.
pub(crate) fn push_path(alloc: Global, text: &mut String, path: &Path) -> Result<(), OutOfMemory>
    ensures { OnOk result (string_bytes text.new ≡ string_bytes text.old ++ shown_name (shown_path path.now)) }
{
    let mut shown = String::new(alloc);
    push_shown_path(&mut shown, path)?;
    push_shown(text, &shown)
}

/// Where names may be missing: the first torn directory, and how many more.
fn push_missing(
    alloc: Global,
    text: &mut String,
    torn: usize,
    path: &Path,
) -> Result<(), OutOfMemory>
    ensures { OnOk result (string_bytes text.new ≡ string_bytes text.old ++ missing_html torn path.now) }
{
    push_markup(text, ": names may be missing in ")?;
    push_path(alloc, text, path)?;
    push_other_folders(text, torn)
}

/// Where names may be missing, if anywhere.
fn push_names_missing(
    alloc: Global,
    text: &mut String,
    torn: usize,
    path: Option<&Path>,
) -> Result<(), OutOfMemory>
    ensures { OnOk result (string_bytes text.new ≡ string_bytes text.old ++ names_missing_html torn (option_map (λ path. path.now) path.entry)) }
{
    match path {
        None => Ok(()),
        Some(path) => push_missing(alloc, text, torn, path),
    }
}

/// How many directories are torn, if any.
fn push_torn_folders(text: &mut String, torn: usize) -> Result<(), OutOfMemory>
    ensures { OnOk result (string_bytes text.new ≡ string_bytes text.old ++ torn_folders_html torn) }
{
    if torn == 0 {
        return Ok(());
    }
    push_markup(text, "   ")?;
    push_counted(text, torn, " torn")
}

/// How many directories there are.
fn push_folder_counts(text: &mut String, tally: &Tally) -> Result<(), OutOfMemory>
    ensures { OnOk result (string_bytes text.new ≡ string_bytes text.old ++ folder_counts_html tally.now) }
{
    push_markup(text, "Folders    ")?;
    push_counted(text, tally.whole_folders, " whole")?;
    push_torn_folders(text, tally.torn_folders)
}

/// The line of the folders, if there are any.
#[tactic(auto, unfolding(crate::specs::Overviews::folders_html))]
fn push_folders(
    alloc: Global,
    text: &mut String,
    tally: &Tally,
    path: Option<&Path>,
) -> Result<(), OutOfMemory>
    ensures { OnOk result (string_bytes text.new ≡ string_bytes text.old ++ folders_html tally.now (option_map (λ path. path.now) path.entry)) }
{
    if tally.whole_folders == 0 && tally.torn_folders == 0 {
        return Ok(());
    }
    push_folder_counts(text, tally)?;
    push_names_missing(alloc, text, tally.torn_folders, path)?;
    push_next_line(text)
}

/// The line of the files.
fn push_file_lines(alloc: Global, text: &mut String, tally: &Tally) -> Result<(), OutOfMemory>
    ensures { OnOk result (string_bytes text.new ≡ string_bytes text.old ++ html_lines (files_line tally.now)) }
{
    let mut lines = String::new(alloc);
    push_files(&mut lines, tally)?;
    push_lines(text, &lines)
}

/// The sentence on top.
fn push_sentence_lines(
    alloc: Global,
    text: &mut String,
    tally: &Tally,
    needed: usize,
) -> Result<(), OutOfMemory>
    ensures { OnOk result (string_bytes text.new ≡ string_bytes text.old ++ html_lines (sentence tally.now needed)) }
{
    let mut lines = String::new(alloc);
    push_sentence(&mut lines, tally, needed as u64)?;
    push_lines(text, &lines)
}

/// The line of links and devices, of faults and of loops.
fn push_other_lines(alloc: Global, text: &mut String, tally: &Tally) -> Result<(), OutOfMemory>
    ensures { OnOk result (string_bytes text.new ≡ string_bytes text.old ++ html_lines (others_line tally.now)) }
{
    let mut lines = String::new(alloc);
    push_others(&mut lines, tally)?;
    push_lines(text, &lines)
}

/// The line of the files of a type that is not written.
fn push_left_out_lines(alloc: Global, text: &mut String, types: &[u8]) -> Result<(), OutOfMemory>
    ensures { OnOk result (string_bytes text.new ≡ string_bytes text.old ++ html_lines (left_out_line types.now)) }
{
    let mut lines = String::new(alloc);
    push_left_out(alloc, &mut lines, types)?;
    push_lines(text, &lines)
}

/// The lines of what is lost, and of deleted entries.
fn push_lost_lines(alloc: Global, text: &mut String, lost: &LostTally) -> Result<(), OutOfMemory>
    ensures { OnOk result (string_bytes text.new ≡ string_bytes text.old ++ html_lines (lost_lines lost.now)) }
{
    let mut lines = String::new(alloc);
    push_lost(&mut lines, lost)?;
    push_lines(text, &lines)
}

/// The line of the blocks.
fn push_disc_lines(alloc: Global, text: &mut String, disc: &DiscTally) -> Result<(), OutOfMemory>
    ensures { OnOk result (string_bytes text.new ≡ string_bytes text.old ++ html_lines (disc_line disc.now)) }
{
    let mut lines = String::new(alloc);
    push_disc(&mut lines, disc)?;
    push_lines(text, &lines)
}

/// The lines of known anchors that differ, and of known copies of the volume's descriptors that do.
fn push_apart_lines(alloc: Global, text: &mut String, figures: &Figures) -> Result<(), OutOfMemory>
    ensures { OnOk result (string_bytes text.new ≡ string_bytes text.old ++ html_lines (apart_lines figures.now.anchors figures.now.copies_differ)) }
{
    let mut lines = String::new(alloc);
    push_apart(&mut lines, figures.anchors, figures.copies_differ)?;
    push_lines(text, &lines)
}

/// The line of the folders with tags of another place, and that of what has a fault and is read by the wide rules.
fn push_moved_lines(alloc: Global, text: &mut String, figures: &Figures) -> Result<(), OutOfMemory>
    ensures { OnOk result (string_bytes text.new ≡ string_bytes text.old ++ html_lines (moved_line figures.now.moved ++ wider_line figures.now.wider)) }
{
    let mut lines = String::new(alloc);
    push_moved(&mut lines, figures.moved)?;
    push_wider(&mut lines, figures.wider)?;
    push_lines(text, &lines)
}

/// Why a volume does not open.
fn push_volume_lines(
    alloc: Global,
    text: &mut String,
    volume: &Volume,
    last: u32,
) -> Result<(), OutOfMemory>
    ensures { OnOk result (string_bytes text.new ≡ string_bytes text.old ++ html_lines (volume_line (volume_now volume.now) last)) }
{
    let mut lines = String::new(alloc);
    push_volume(&mut lines, volume, last)?;
    push_lines(text, &lines)
}

/// The lines of what is found of a volume that opens.
fn push_found(
    alloc: Global,
    text: &mut String,
    tally: &Tally,
    path: Option<&Path>,
    types: &[u8],
) -> Result<(), OutOfMemory>
    ensures { OnOk result (string_bytes text.new ≡ string_bytes text.old ++ found_html tally.now (option_map (λ path. path.now) path.entry) types.now) }
{
    push_file_lines(alloc, text, tally)?;
    push_folders(alloc, text, tally, path)?;
    push_other_lines(alloc, text, tally)?;
    push_left_out_lines(alloc, text, types)
}

/// The lines of a volume that opens.
fn push_opened<B: BlockStore>(
    alloc: Global,
    text: &mut String,
    opened: &OpenVolume,
    survey: &Survey<'_, B>,
    figures: &Figures,
) -> Result<(), OutOfMemory>
    ensures { OnOk result (string_bytes text.new ≡ string_bytes text.old ++ opened_html figures.now (found_now opened.now) (survey_by B.states survey.now)) }
{
    let types = left_out_types(alloc, survey)?;
    push_open(alloc, text, opened, figures.last)?;
    push_sentence_lines(alloc, text, &figures.tally, survey.reread.len())?;
    let path = first_torn_folder(survey);
    push_found(alloc, text, &figures.tally, path, &types)
}

/// The lines of the volume: of one that does not open, why.
fn push_volume_of<B: BlockStore>(
    alloc: Global,
    text: &mut String,
    survey: &Survey<'_, B>,
    figures: &Figures,
) -> Result<(), OutOfMemory>
    ensures { OnOk result (string_bytes text.new ≡ string_bytes text.old ++ volume_html figures.now (volume_now survey.now.volume) (survey_by B.states survey.now)) }
{
    match &survey.volume {
        Volume::Open(opened) => push_opened(alloc, text, opened, survey, figures),
        Volume::Holes(_) => push_volume_lines(alloc, text, &survey.volume, figures.last),
        Volume::Fault(_) => push_volume_lines(alloc, text, &survey.volume, figures.last),
    }
}

/// Why a volume is not lawful.
fn push_why(alloc: Global, text: &mut String, why: &Why) -> Result<(), OutOfMemory>
    ensures { OnOk result (string_bytes text.new ≡ string_bytes text.old ++ html_text (why_words why.now)) }
{
    let mut words = String::new(alloc);
    push_why_words(&mut words, why)?;
    push_html(text, &words)
}

/// Where that is, by itself.
fn push_where(alloc: Global, text: &mut String, why: &Why) -> Result<(), OutOfMemory>
    ensures { OnOk result (string_bytes text.new ≡ string_bytes text.old ++ shown_name (why_place why.now)) }
{
    let mut place = String::new(alloc);
    push_why_place(&mut place, why)?;
    push_shown(text, &place)
}

/// Why a volume is not lawful, and where.
fn push_unlawful(alloc: Global, text: &mut String, why: &Why) -> Result<(), OutOfMemory>
    ensures { OnOk result (string_bytes text.new ≡ string_bytes text.old ++ unlawful_html why.now) }
{
    push_markup(text, "Guarantee  does not hold: ")?;
    push_why(alloc, text, why)?;
    push_markup(text, ": ")?;
    push_where(alloc, text, why)?;
    push_next_line(text)
}

/// Whether the guarantee holds, as the summary has it.
fn push_guarantee_lines(
    alloc: Global,
    text: &mut String,
    answer: &Lawfulness,
) -> Result<(), OutOfMemory>
    ensures { OnOk result (string_bytes text.new ≡ string_bytes text.old ++ html_lines (guarantee_line answer.now)) }
{
    let mut lines = String::new(alloc);
    push_guarantee_line(alloc, &mut lines, answer)?;
    push_lines(text, &lines)
}

/// Whether the guarantee holds.
fn push_guarantee(alloc: Global, text: &mut String, answer: &Lawfulness) -> Result<(), OutOfMemory>
    ensures { OnOk result (string_bytes text.new ≡ string_bytes text.old ++ guarantee_html answer.now) }
{
    match answer {
        Lawfulness::Lawful => push_guarantee_lines(alloc, text, answer),
        Lawfulness::Unlawful(why) => push_unlawful(alloc, text, why),
        Lawfulness::Open(_) => push_guarantee_lines(alloc, text, answer),
    }
}

/// The lines of the volume, and those of what is lost of it.
fn push_volume_and_lost<B: BlockStore>(
    alloc: Global,
    text: &mut String,
    survey: &Survey<'_, B>,
    figures: &Figures,
    lost: &LostTally,
) -> Result<(), OutOfMemory>
    ensures { OnOk result (string_bytes text.new ≡ string_bytes text.old
        ++ (volume_html figures.now (volume_now survey.now.volume) (survey_by B.states survey.now) ++ html_lines (lost_lines lost.now))) }
{
    push_volume_of(alloc, text, survey, figures)?;
    push_lost_lines(alloc, text, lost)
}

/// All lines.
#[tactic(auto, unfolding(crate::specs::Overviews::overview_html))]
pub(crate) fn push_overview<B: BlockStore>(
    alloc: Global,
    text: &mut String,
    survey: &Survey<'_, B>,
    figures: &Figures,
    answer: &Verdict,
) -> Result<(), OutOfMemory>
    ensures { OnOk result (string_bytes text.new ≡ string_bytes text.old ++ overview_html figures.now (survey_by B.states survey.now) answer.now) }
{
    push_markup(text, "<div class=s>\n<div>")?;
    push_volume_and_lost(alloc, text, survey, figures, &answer.lost)?;
    push_apart_lines(alloc, text, figures)?;
    push_moved_lines(alloc, text, figures)?;
    push_guarantee(alloc, text, &answer.lawfulness)?;
    push_disc_lines(alloc, text, &figures.disc)?;
    push_markup(text, "</div>\n</div>\n")
}
