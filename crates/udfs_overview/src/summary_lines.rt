//! Lines of the summary. Each function appends to a text; if memory runs out, a part may be appended.

ghost use Rattle.std.specs.Prelude.{◌≡◌, ◌++◌, [], OnOk, codes};
ghost use Rattle.std.specs.String.{string_bytes};
ghost use Rattle.udfs_overview.specs.Sentences.{at_least, by_number, part};
ghost use Rattle.udfs_overview.specs.SummaryTexts.{disc_line, files_line, known_text, lost_files_text, needed_text, others_line, torn_files_text, whole_files_text};

use crate::disc_tallies::DiscTally;
use crate::figures::push_size;
use crate::sentences::{at_least, by_number, push_counted, push_part};
use crate::tallies::Tally;
use udfs_osta::OutOfMemory;

/// How many files are whole, and their bytes.
fn push_whole_files(text: &mut String, tally: &Tally) -> Result<(), OutOfMemory>
    ensures { OnOk result (string_bytes text.new ≡ string_bytes text.old ++ whole_files_text tally.now) }
{
    push_counted(text, tally.whole_files as u64, " whole (")?;
    push_size(tally.whole_bytes, text)?;
    text.push_str(")\n")
}

/// How many files are torn, and how many of their bytes are lost.
#[tactic(auto, unfolding(crate::specs::SummaryTexts::lost_files_text))]
fn push_lost_files(text: &mut String, tally: &Tally) -> Result<(), OutOfMemory>
    ensures { OnOk result (string_bytes text.new ≡ string_bytes text.old ++ lost_files_text tally.now) }
{
    push_counted(text, tally.torn_files as u64, " torn (")?;
    text.push_str(at_least(tally))?;
    push_size(tally.lost_bytes, text)?;
    text.push_str(" of ")?;
    push_size(tally.torn_bytes, text)?;
    text.push_str(" lost)\n")
}

/// The same, if there are any.
#[tactic(auto, unfolding(crate::specs::SummaryTexts::torn_files_text))]
fn push_torn_files(text: &mut String, tally: &Tally) -> Result<(), OutOfMemory>
    ensures { OnOk result (string_bytes text.new ≡ string_bytes text.old ++ torn_files_text tally.now) }
{
    if tally.torn_files == 0 {
        return Ok(());
    }
    text.push_str("           ")?;
    push_lost_files(text, tally)
}

/// How many files are disputed, if any are.
fn push_disputed(text: &mut String, disputed: u64) -> Result<(), OutOfMemory>
    ensures { OnOk result (string_bytes text.new ≡ string_bytes text.old
        ++ part (codes "           ") disputed (codes " disputed: two readings differ, nothing is lost\n")) }
{
    push_part(
        text,
        "           ",
        disputed,
        " disputed: two readings differ, nothing is lost\n",
    )
}

/// How many entries are not yet known, if any are.
fn push_unread(text: &mut String, unread: u64) -> Result<(), OutOfMemory>
    ensures { OnOk result (string_bytes text.new ≡ string_bytes text.old
        ++ part (codes "           ") unread (by_number unread (codes " not yet known: a file or a whole folder\n") (codes " not yet known: files or whole folders\n"))) }
{
    let words = by_number(
        unread,
        " not yet known: a file or a whole folder\n",
        " not yet known: files or whole folders\n",
    );
    push_part(text, "           ", unread, words)
}

/// Appends the lines of the files.
///
/// # Errors
///
/// If memory runs out. Then a part may be appended.
#[tactic(auto, unfolding(crate::specs::SummaryTexts::files_line))]
pub fn push_files(text: &mut String, tally: &Tally) -> Result<(), OutOfMemory>
    ensures { OnOk result (string_bytes text.new ≡ string_bytes text.old ++ files_line tally.now) }
{
    text.push_str("Files      ")?;
    push_whole_files(text, tally)?;
    push_torn_files(text, tally)?;
    push_disputed(text, tally.disputed as u64)?;
    push_unread(text, tally.unread as u64)
}

/// The line of links and devices, if there are any.
fn push_links(text: &mut String, others: u64) -> Result<(), OutOfMemory>
    ensures { OnOk result (string_bytes text.new ≡ string_bytes text.old
        ++ part (codes "Other      ") others (by_number others (codes " link or device\n") (codes " links and devices\n"))) }
{
    let words = by_number(others, " link or device\n", " links and devices\n");
    push_part(text, "Other      ", others, words)
}

/// The line of loops, if there are any.
fn push_loops(text: &mut String, loops: u64) -> Result<(), OutOfMemory>
    ensures { OnOk result (string_bytes text.new ≡ string_bytes text.old
        ++ part (codes "Loops      ") loops (by_number loops (codes " folder that is inside itself\n") (codes " folders that are inside themselves\n"))) }
{
    let words = by_number(
        loops,
        " folder that is inside itself\n",
        " folders that are inside themselves\n",
    );
    push_part(text, "Loops      ", loops, words)
}

/// Appends the lines of links and devices, of faults and of loops, if there are any.
///
/// # Errors
///
/// If memory runs out. Then a part may be appended.
#[tactic(auto, unfolding(crate::specs::SummaryTexts::others_line))]
pub fn push_others(text: &mut String, tally: &Tally) -> Result<(), OutOfMemory>
    ensures { OnOk result (string_bytes text.new ≡ string_bytes text.old ++ others_line tally.now) }
{
    push_links(text, tally.others as u64)?;
    push_part(text, "Faults     ", tally.faulty as u64, " with faults\n")?;
    push_loops(text, tally.loops as u64)
}

/// How many blocks are worth reading again, if any are.
fn push_worth(text: &mut String, needed: u64) -> Result<(), OutOfMemory>
    ensures { OnOk result (string_bytes text.new ≡ string_bytes text.old
        ++ part (codes "           ") needed (by_number needed (codes " of these is needed, in ") (codes " of these are needed, in "))) }
{
    let words = by_number(
        needed,
        " of these is needed, in ",
        " of these are needed, in ",
    );
    push_part(text, "           ", needed, words)
}

/// In how many places these are.
fn push_places(text: &mut String, runs: u64) -> Result<(), OutOfMemory>
    ensures { OnOk result (string_bytes text.new ≡ string_bytes text.old ++ part [] runs (by_number runs (codes " place\n") (codes " places\n"))) }
{
    let words = by_number(runs, " place\n", " places\n");
    push_part(text, "", runs, words)
}

/// How many blocks are worth reading again, and in how many places.
#[tactic(auto, unfolding(crate::specs::SummaryTexts::needed_text))]
fn push_needed(text: &mut String, tally: &DiscTally) -> Result<(), OutOfMemory>
    ensures { OnOk result (string_bytes text.new ≡ string_bytes text.old ++ needed_text tally.now) }
{
    push_worth(text, tally.needed as u64)?;
    push_places(text, tally.runs as u64)
}

/// How many blocks are known, not known and in conflict.
#[tactic(auto, unfolding(crate::specs::SummaryTexts::known_text))]
fn push_known(text: &mut String, tally: &DiscTally) -> Result<(), OutOfMemory>
    ensures { OnOk result (string_bytes text.new ≡ string_bytes text.old ++ known_text tally.now) }
{
    push_counted(text, tally.known as u64, " known   ")?;
    push_counted(text, tally.not_known, " not known   ")?;
    push_counted(text, tally.conflicts as u64, " in conflict\n")
}

/// Appends the lines of the blocks.
///
/// # Errors
///
/// If memory runs out. Then a part may be appended.
#[tactic(auto, unfolding(crate::specs::SummaryTexts::disc_line))]
pub fn push_disc(text: &mut String, tally: &DiscTally) -> Result<(), OutOfMemory>
    ensures { OnOk result (string_bytes text.new ≡ string_bytes text.old ++ disc_line tally.now) }
{
    text.push_str("Disc       ")?;
    push_known(text, tally)?;
    push_needed(text, tally)
}
