//! The figures of a summary as a JSON object. Each function appends to a text; if memory runs out, a part may be appended.

ghost use Rattle.std.specs.Prelude.{◌≡◌, ◌++◌, IsErrOf, OnOk, codes, decimal};
ghost use Rattle.std.specs.String.{string_bytes};
ghost use Rattle.serde_json.specs.Data.{boolean, string};
ghost use Rattle.serde_json.specs.Written.{compact_text};
ghost use Rattle.udfs_lattice.specs.Tables.{Table};
ghost use Rattle.udfs_volume.specs.FaultNames.{volume_fault_name};
ghost use Rattle.udfs_volume.specs.LayoutParts.{parts_now};
ghost use Rattle.udfs_salvage.specs.Found.{volume_now};
ghost use Rattle.udfs_salvage.specs.StorePrinting.{PrintsBy};
ghost use Rattle.udfs_salvage.specs.Surveys.{survey_by};
ghost use Rattle.udfs_salvage.specs.Texts.{revision_text};
ghost use Rattle.udfs_overview.specs.Guarantees.{guarantee_text};
ghost use Rattle.udfs_overview.specs.SummaryJson.{disc_data, fault_data, figures_json, files_data, folders_data, guarantee_data, guarantee_state, holes_data, is_at_least, label_data, lost_data, open_count, open_data, others_data, profile_name, remarks_data, summary_data, summary_json, unnamed_data};
ghost use Rattle.udfs_overview.specs.SummaryPieces.{ends_piece, names_piece, nodes_piece, whole_piece};

use crate::disc_tallies::{DiscTally, UnnamedTally};
use crate::guarantees::push_guarantee;
use crate::lost_tallies::LostTally;
use crate::node_objects::push_quoted;
use crate::safe_names::push_safe_name;
use crate::summary_figures::{Counts, Figures};
use crate::tallies::Tally;
use crate::verdicts::Verdict;
use std::alloc::Global;
use std::fmt::Write;
use udfs_lawfulness::Lawfulness;
use udfs_osta::{Label, OutOfMemory};
use udfs_reading::Sink;
use udfs_salvage::{PrintError, ReportStore, Survey, Volume, flush, revision_name};
use udfs_volume::{Profile, VolumeFault, VolumeParts};

/// A number behind other text.
fn push_number(text: &mut String, front: &str, number: u128) -> Result<(), OutOfMemory>
    ensures { OnOk result (string_bytes text.new ≡ string_bytes text.old ++ (front.now ++ decimal number)) }
{
    text.push_str(front)?;
    write!(text, "{number}")
}

/// A number behind other text, and the end of an object.
fn push_last(text: &mut String, front: &str, number: u128) -> Result<(), OutOfMemory>
    ensures { OnOk result (string_bytes text.new ≡ string_bytes text.old ++ (front.now ++ (decimal number ++ codes "}"))) }
{
    text.push_str(front)?;
    write!(text, "{number}}}")
}

/// `true` or `false` behind other text.
fn push_truth(text: &mut String, front: &str, truth: bool) -> Result<(), OutOfMemory>
    ensures { OnOk result (string_bytes text.new ≡ string_bytes text.old ++ (front.now ++ compact_text (boolean truth))) }
{
    text.push_str(front)?;
    text.push_str(if truth { "true" } else { "false" })
}

/// A text as a JSON string, behind other text.
fn push_word(alloc: Global, text: &mut String, front: &str, word: &str) -> Result<(), OutOfMemory>
    ensures { OnOk result (string_bytes text.new ≡ string_bytes text.old ++ (front.now ++ compact_text (string word.now))) }
{
    let mut shown = String::new(alloc);
    shown.push_str(word)?;
    text.push_str(front)?;
    push_quoted(text, shown)
}

/// Text.
fn push_text(text: &mut String, words: &str) -> Result<(), OutOfMemory>
    ensures { OnOk result (string_bytes text.new ≡ string_bytes text.old ++ words.now) }
{
    text.push_str(words)
}

/// The blocks of a disc with this last block.
fn push_disc(text: &mut String, last: u32, disc: &DiscTally) -> Result<(), OutOfMemory>
    ensures { OnOk result (string_bytes text.new ≡ string_bytes text.old ++ compact_text (disc_data last disc.now)) }
{
    push_number(text, "{\"blocks\":", last as u128 + 1)?;
    push_number(text, ",\"conflicts\":", disc.conflicts as u128)?;
    push_number(text, ",\"known\":", disc.known as u128)?;
    push_number(text, ",\"needed\":", disc.needed as u128)?;
    push_number(text, ",\"not_known\":", disc.not_known as u128)?;
    push_last(text, ",\"places\":", disc.runs as u128)
}

/// The files, and their bytes.
fn push_files(text: &mut String, tally: &Tally) -> Result<(), OutOfMemory>
    ensures { OnOk result (string_bytes text.new ≡ string_bytes text.old ++ compact_text (files_data tally.now)) }
{
    push_number(text, "{\"disputed\":", tally.disputed as u128)?;
    push_number(text, ",\"left_out\":", tally.left_out as u128)?;
    push_number(text, ",\"lost_bytes\":", tally.lost_bytes)?;
    push_number(text, ",\"torn\":", tally.torn_files as u128)?;
    push_number(text, ",\"torn_bytes\":", tally.torn_bytes)?;
    push_number(text, ",\"whole\":", tally.whole_files as u128)?;
    push_last(text, ",\"whole_bytes\":", tally.whole_bytes)
}

/// The folders.
fn push_folders(text: &mut String, tally: &Tally) -> Result<(), OutOfMemory>
    ensures { OnOk result (string_bytes text.new ≡ string_bytes text.old ++ compact_text (folders_data tally.now)) }
{
    push_number(text, "{\"torn\":", tally.torn_folders as u128)?;
    push_last(text, ",\"whole\":", tally.whole_folders as u128)
}

/// What has a fault, is a link or a device, is a folder inside itself, or was not read.
fn push_others(text: &mut String, tally: &Tally) -> Result<(), OutOfMemory>
    ensures { OnOk result (string_bytes text.new ≡ string_bytes text.old ++ compact_text (others_data tally.now)) }
{
    push_number(text, "{\"faulty\":", tally.faulty as u128)?;
    push_number(text, ",\"links_and_devices\":", tally.others as u128)?;
    push_number(text, ",\"loops\":", tally.loops as u128)?;
    push_last(text, ",\"unread\":", tally.unread as u128)
}

/// The whole files that no name leads to.
fn push_unnamed(text: &mut String, tally: &UnnamedTally) -> Result<(), OutOfMemory>
    ensures { OnOk result (string_bytes text.new ≡ string_bytes text.old ++ compact_text (unnamed_data tally.now)) }
{
    push_number(text, "{\"empty\":", tally.empty as u128)?;
    push_last(text, ",\"with_data\":", tally.with_data as u128)
}

/// What is lost, and how many entries were deleted.
fn push_lost(text: &mut String, lost: &LostTally) -> Result<(), OutOfMemory>
    ensures { OnOk result (string_bytes text.new ≡ string_bytes text.old ++ compact_text (lost_data lost.now)) }
{
    push_number(text, "{\"deleted\":", lost.deleted as u128)?;
    push_number(text, ",\"files_without_folder\":", lost.files as u128)?;
    push_number(text, ",\"folders\":", lost.folders as u128)?;
    push_truth(text, ",\"too_many\":", lost.too_many)?;
    push_number(text, ",\"torn\":", lost.torn_files as u128)?;
    push_number(text, ",\"whole\":", lost.whole_files as u128)?;
    push_last(text, ",\"whole_bytes\":", lost.whole_bytes)
}

/// The same, behind other text.
fn push_lost_behind(text: &mut String, front: &str, lost: &LostTally) -> Result<(), OutOfMemory>
    ensures { OnOk result (string_bytes text.new ≡ string_bytes text.old ++ (front.now ++ compact_text (lost_data lost.now))) }
{
    text.push_str(front)?;
    push_lost(text, lost)
}

/// Folders with tags of another place, whether sparing copies disagree, and files with named streams.
fn push_remarks(text: &mut String, figures: &Figures) -> Result<(), OutOfMemory>
    ensures { OnOk result (string_bytes text.new ≡ string_bytes text.old ++ compact_text (remarks_data figures.now)) }
{
    push_number(text, "{\"moved_folders\":", figures.moved as u128)?;
    push_truth(text, ",\"spares_disagree\":", figures.spares_disagree)?;
    push_last(text, ",\"with_streams\":", figures.streams as u128)
}

/// The label as a person is shown it, as a JSON string; null if it is empty or malformed.
fn push_label(alloc: Global, text: &mut String, label: &Label) -> Result<(), OutOfMemory>
    ensures { OnOk result (string_bytes text.new ≡ string_bytes text.old ++ compact_text (label_data label.now)) }
{
    match label {
        Label::Name(name) => {
            let mut shown = String::new(alloc);
            push_safe_name(name, &mut shown)?;
            push_quoted(text, shown)
        }
        Label::Empty => text.push_str("null"),
        Label::Invalid => text.push_str("null"),
    }
}

/// The name of a profile.
fn profile_name(profile: Profile) -> &'static str
    ensures { result.now ≡ profile_name profile }
{
    match profile {
        Profile::Strict => "strict",
        Profile::Wide => "wide",
    }
}

/// The name of a profile, behind other text.
fn push_profile(
    alloc: Global,
    text: &mut String,
    front: &str,
    profile: Profile,
) -> Result<(), OutOfMemory>
    ensures { OnOk result (string_bytes text.new ≡ string_bytes text.old ++ (front.now ++ compact_text (string (profile_name profile)))) }
{
    push_word(alloc, text, front, profile_name(profile))
}

/// The name of a revision of UDF, behind other text.
fn push_revision(
    alloc: Global,
    text: &mut String,
    front: &str,
    revision: u16,
) -> Result<(), OutOfMemory>
    ensures { OnOk result (string_bytes text.new ≡ string_bytes text.old ++ (front.now ++ compact_text (string (revision_text revision)))) }
{
    push_word(alloc, text, front, revision_name(revision))
}

/// The name of a fault, behind other text.
fn push_fault_name(
    alloc: Global,
    text: &mut String,
    front: &str,
    fault: VolumeFault,
) -> Result<(), OutOfMemory>
    ensures { OnOk result (string_bytes text.new ≡ string_bytes text.old ++ (front.now ++ compact_text (string (volume_fault_name fault)))) }
{
    push_word(alloc, text, front, fault.name())
}

/// Whether the figures of files and folders are the least that they can be.
fn is_at_least(tally: &Tally) -> bool
    ensures { result ≡ is_at_least tally.now }
{
    !(tally.unread == 0 && tally.torn_folders == 0)
}

/// Whether they are, behind other text.
fn push_at_least(text: &mut String, front: &str, tally: &Tally) -> Result<(), OutOfMemory>
    ensures { OnOk result (string_bytes text.new ≡ string_bytes text.old ++ (front.now ++ compact_text (boolean (is_at_least tally.now)))) }
{
    push_truth(text, front, is_at_least(tally))
}

/// How many blocks that are not known decide whether the volume is lawful.
fn open_count(answer: &Lawfulness) -> usize
    ensures { result ≡ open_count answer.now }
{
    match answer {
        Lawfulness::Lawful => 0,
        Lawfulness::Unlawful(_) => 0,
        Lawfulness::Open(blocks) => blocks.len(),
    }
}

/// Whether the guarantee holds, in a word.
fn guarantee_state(answer: &Lawfulness) -> &'static str
    ensures { result.now ≡ guarantee_state answer.now }
{
    match answer {
        Lawfulness::Lawful => "holds",
        Lawfulness::Unlawful(_) => "fails",
        Lawfulness::Open(_) => "open",
    }
}

/// This word, behind other text.
fn push_state(
    alloc: Global,
    text: &mut String,
    front: &str,
    answer: &Lawfulness,
) -> Result<(), OutOfMemory>
    ensures { OnOk result (string_bytes text.new ≡ string_bytes text.old ++ (front.now ++ compact_text (string (guarantee_state answer.now)))) }
{
    push_word(alloc, text, front, guarantee_state(answer))
}

/// Whether the guarantee holds, as a sentence, behind other text.
fn push_told(
    alloc: Global,
    text: &mut String,
    front: &str,
    answer: &Lawfulness,
) -> Result<(), OutOfMemory>
    ensures { OnOk result (string_bytes text.new ≡ string_bytes text.old ++ (front.now ++ compact_text (string (guarantee_text answer.now)))) }
{
    let mut shown = String::new(alloc);
    push_guarantee(&mut shown, answer)?;
    text.push_str(front)?;
    push_quoted(text, shown)
}

/// How many blocks decide it, behind other text.
fn push_open_count(text: &mut String, front: &str, answer: &Lawfulness) -> Result<(), OutOfMemory>
    ensures { OnOk result (string_bytes text.new ≡ string_bytes text.old ++ (front.now ++ decimal (open_count answer.now))) }
{
    push_number(text, front, open_count(answer) as u128)
}

/// Whether the guarantee holds.
fn push_guarantee_object(
    alloc: Global,
    text: &mut String,
    answer: &Lawfulness,
) -> Result<(), OutOfMemory>
    ensures { OnOk result (string_bytes text.new ≡ string_bytes text.old ++ compact_text (guarantee_data answer.now)) }
{
    push_open_count(text, "{\"not_known\":", answer)?;
    push_state(alloc, text, ",\"state\":", answer)?;
    push_told(alloc, text, ",\"text\":", answer)?;
    push_text(text, "}")
}

/// The same, behind other text.
fn push_guarantee_behind(
    alloc: Global,
    text: &mut String,
    front: &str,
    answer: &Lawfulness,
) -> Result<(), OutOfMemory>
    ensures { OnOk result (string_bytes text.new ≡ string_bytes text.old ++ (front.now ++ compact_text (guarantee_data answer.now))) }
{
    text.push_str(front)?;
    push_guarantee_object(alloc, text, answer)
}

/// The object of a volume that opens, up to its files.
#[tactic(auto, unfolding(crate::specs::SummaryPieces::whole_piece))]
fn push_whole(text: &mut String, figures: &Figures) -> Result<(), OutOfMemory>
    ensures { OnOk result (string_bytes text.new ≡ string_bytes text.old ++ whole_piece figures.now) }
{
    push_truth(text, "{\"all_whole\":", figures.all_whole)?;
    push_at_least(text, ",\"at_least\":", &figures.tally)?;
    push_text(text, ",\"disc\":")?;
    push_disc(text, figures.last, &figures.disc)
}

/// What is counted of its nodes.
#[tactic(auto, unfolding(crate::specs::SummaryPieces::nodes_piece))]
fn push_nodes(
    alloc: Global,
    text: &mut String,
    figures: &Figures,
    answer: &Lawfulness,
) -> Result<(), OutOfMemory>
    ensures { OnOk result (string_bytes text.new ≡ string_bytes text.old ++ nodes_piece figures.now answer.now) }
{
    text.push_str(",\"files\":")?;
    push_files(text, &figures.tally)?;
    text.push_str(",\"folders\":")?;
    push_folders(text, &figures.tally)?;
    push_guarantee_behind(alloc, text, ",\"guarantee\":", answer)
}

/// Its label, what is lost, and what else there is.
#[tactic(auto, unfolding(crate::specs::SummaryPieces::names_piece))]
fn push_names(
    alloc: Global,
    text: &mut String,
    figures: &Figures,
    parts: &VolumeParts,
    lost: &LostTally,
) -> Result<(), OutOfMemory>
    ensures { OnOk result (string_bytes text.new ≡ string_bytes text.old ++ names_piece figures.now (parts_now parts.now) lost.now) }
{
    text.push_str(",\"label\":")?;
    push_label(alloc, text, &parts.label)?;
    push_lost_behind(text, ",\"lost\":", lost)?;
    text.push_str(",\"others\":")?;
    push_others(text, &figures.tally)
}

/// The rest of the object.
#[tactic(auto, unfolding(crate::specs::SummaryPieces::ends_piece))]
fn push_ends(
    alloc: Global,
    text: &mut String,
    figures: &Figures,
    parts: &VolumeParts,
) -> Result<(), OutOfMemory>
    ensures { OnOk result (string_bytes text.new ≡ string_bytes text.old ++ ends_piece figures.now (parts_now parts.now)) }
{
    push_profile(alloc, text, ",\"profile\":", figures.profile)?;
    push_text(text, ",\"remarks\":")?;
    push_remarks(text, figures)?;
    push_revision(alloc, text, ",\"revision\":", parts.revision)?;
    push_text(text, ",\"state\":\"ok\",\"unnamed\":")?;
    push_unnamed(text, &figures.unnamed)?;
    push_text(text, "}")
}

/// The object of a volume that opens.
fn push_open(
    alloc: Global,
    text: &mut String,
    figures: &Figures,
    parts: &VolumeParts,
    answer: &Verdict,
) -> Result<(), OutOfMemory>
    ensures { OnOk result (string_bytes text.new ≡ string_bytes text.old ++ compact_text (open_data figures.now (parts_now parts.now) answer.now)) }
{
    push_whole(text, figures)?;
    push_nodes(alloc, text, figures, &answer.lawfulness)?;
    push_names(alloc, text, figures, parts, &answer.lost)?;
    push_ends(alloc, text, figures, parts)
}

/// The object of a volume that lacks blocks before it opens.
fn push_holes(
    alloc: Global,
    text: &mut String,
    figures: &Figures,
    answer: &Verdict,
) -> Result<(), OutOfMemory>
    ensures { OnOk result (string_bytes text.new ≡ string_bytes text.old ++ compact_text (holes_data figures.now answer.now)) }
{
    push_text(text, "{\"disc\":")?;
    push_disc(text, figures.last, &figures.disc)?;
    push_guarantee_behind(alloc, text, ",\"guarantee\":", &answer.lawfulness)?;
    push_lost_behind(text, ",\"lost\":", &answer.lost)?;
    push_profile(alloc, text, ",\"profile\":", figures.profile)?;
    push_text(text, ",\"state\":\"holes\"}")
}

/// The object of a volume with this fault.
fn push_fault(
    alloc: Global,
    text: &mut String,
    figures: &Figures,
    fault: VolumeFault,
    answer: &Verdict,
) -> Result<(), OutOfMemory>
    ensures { OnOk result (string_bytes text.new ≡ string_bytes text.old ++ compact_text (fault_data figures.now (volume_fault_name fault) answer.now)) }
{
    push_text(text, "{\"disc\":")?;
    push_disc(text, figures.last, &figures.disc)?;
    push_fault_name(alloc, text, ",\"fault\":", fault)?;
    push_guarantee_behind(alloc, text, ",\"guarantee\":", &answer.lawfulness)?;
    push_lost_behind(text, ",\"lost\":", &answer.lost)?;
    push_profile(alloc, text, ",\"profile\":", figures.profile)?;
    push_text(text, ",\"state\":\"fault\"}")
}

/// The object of a volume.
fn push_volume(
    alloc: Global,
    text: &mut String,
    figures: &Figures,
    volume: &Volume,
    answer: &Verdict,
) -> Result<(), OutOfMemory>
    ensures { OnOk result (string_bytes text.new ≡ string_bytes text.old ++ compact_text (summary_data (volume_now volume.now) figures.now answer.now)) }
{
    match volume {
        Volume::Open(opened) => push_open(alloc, text, figures, &opened.parts, answer),
        Volume::Holes(_) => push_holes(alloc, text, figures, answer),
        Volume::Fault(fault) => push_fault(alloc, text, figures, *fault, answer),
    }
}

/// The object of a volume, and a line feed.
#[tactic(auto, unfolding(crate::specs::SummaryJson::figures_json))]
fn push_summary(
    alloc: Global,
    text: &mut String,
    figures: &Figures,
    volume: &Volume,
    answer: &Verdict,
) -> Result<(), OutOfMemory>
    ensures { OnOk result (string_bytes text.new ≡ string_bytes text.old ++ figures_json (volume_now volume.now) figures.now answer.now) }
{
    push_volume(alloc, text, figures, volume, answer)?;
    text.push_str("\n")
}

/// Writes the figures of the summary of the report that a survey represents as one JSON object on a line, by the definitions of the summary's lines. Of a volume
/// that does not open it has the blocks of the disc, whether the guarantee holds, what is lost, the profile, and the fault where it is one. All that is read is read before anything is written.
///
/// # Errors
///
/// `Run` with `Write` if and only if the sink failed, and with `OutOfMemory` if memory ran out: then a prefix of the line, possibly empty, was written. `Unread` where the bytes of a known block could not be read, which no table has: what
/// could not be read is never told as unknown.
pub fn write_summary_json_by<B: ReportStore, W: Sink>(
    alloc: Global,
    survey: &Survey<'_, B>,
    answer: &Verdict,
    sink: &mut W,
) -> Result<(), PrintError>
    ensures printed { B.tells → (t : Table) → B.holds survey.now.table.now t → PrintsBy (W.stream sink.old) (W.stream sink.new)
        (summary_json survey.now.profile t survey.now.last (survey_by B.states survey.now) answer.now) result }
    ensures fails { IsErrOf result PrintError.Unread → B.fails }
{
    let counts = Counts::of(alloc, survey)?;
    let mut text = String::new(alloc);
    push_summary(alloc, &mut text, &counts.figures, &survey.volume, answer)?;
    flush(&mut text, sink)?;
    Ok(())
}
