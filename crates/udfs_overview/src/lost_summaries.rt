//! Lines of the summary on what is lost. Each function appends to a text; if memory runs out, a part may be appended.

ghost use Rattle.std.specs.Prelude.{◌≡◌, ◌++◌, OnOk, codes};
ghost use Rattle.std.specs.String.{string_bytes};
ghost use Rattle.udfs_overview.specs.Figures.{size_text};
ghost use Rattle.udfs_overview.specs.LostSummaries.{lost_command_line, lost_counts, lost_files_line, lost_folders_line, lost_found_lines, lost_lines, lost_margin};
ghost use Rattle.udfs_overview.specs.Sentences.{by_number, counted, part};

use crate::figures::push_size;
use crate::lost_tallies::LostTally;
use crate::sentences::{by_number, push_counted, push_part};
use udfs_osta::OutOfMemory;

/// How many folders lost trees have.
fn push_folder_count(text: &mut String, folders: u64) -> Result<(), OutOfMemory>
    ensures { OnOk result (string_bytes text.new ≡ string_bytes text.old
        ++ counted folders (by_number folders (codes " folder with ") (codes " folders with "))) }
{
    let words = by_number(folders, " folder with ", " folders with ");
    push_counted(text, folders, words)
}

/// How many of their files are whole, and their bytes.
fn push_whole_count(text: &mut String, files: u64, bytes: u128) -> Result<(), OutOfMemory>
    ensures { OnOk result (string_bytes text.new ≡ string_bytes text.old
        ++ (counted files (by_number files (codes " file whole (") (codes " files whole (")) ++ size_text bytes ++ codes ")")) }
{
    let words = by_number(files, " file whole (", " files whole (");
    push_counted(text, files, words)?;
    push_size(bytes, text)?;
    text.push_str(")")
}

/// How many are torn, and the end of the line.
fn push_torn_count(text: &mut String, files: u64) -> Result<(), OutOfMemory>
    ensures { OnOk result (string_bytes text.new ≡ string_bytes text.old ++ (part (codes ", ") files (codes " torn") ++ codes "\n")) }
{
    push_part(text, ", ", files, " torn")?;
    text.push_str("\n")
}

/// All of these.
#[tactic(auto, unfolding(crate::specs::LostSummaries::lost_counts))]
fn push_lost_counts(text: &mut String, tally: &LostTally) -> Result<(), OutOfMemory>
    ensures { OnOk result (string_bytes text.new ≡ string_bytes text.old ++ lost_counts tally.now) }
{
    push_folder_count(text, tally.folders as u64)?;
    push_whole_count(text, tally.whole_files as u64, tally.whole_bytes)?;
    push_torn_count(text, tally.torn_files as u64)
}

/// The line of lost folders, if there are any.
#[tactic(auto, unfolding(crate::specs::LostSummaries::lost_folders_line))]
fn push_lost_folders(text: &mut String, tally: &LostTally) -> Result<(), OutOfMemory>
    ensures { OnOk result (string_bytes text.new ≡ string_bytes text.old ++ lost_folders_line tally.now) }
{
    if tally.folders == 0 {
        return Ok(());
    }
    text.push_str("Lost       ")?;
    push_lost_counts(text, tally)
}

/// What stands before the files without a folder.
fn lost_margin(tally: &LostTally) -> &'static str
    ensures { result.now ≡ lost_margin tally.now }
{
    if tally.folders == 0 {
        "Lost       "
    } else {
        "           "
    }
}

/// The line of the lost files that no lost tree names, if there are any.
fn push_lost_files(text: &mut String, tally: &LostTally) -> Result<(), OutOfMemory>
    ensures { OnOk result (string_bytes text.new ≡ string_bytes text.old ++ lost_files_line tally.now) }
{
    let files = tally.files as u64;
    let words = by_number(
        files,
        " file without a folder\n",
        " files without a folder\n",
    );
    push_part(text, lost_margin(tally), files, words)
}

/// The command that writes what is whole of these, where it writes a file.
fn push_lost_command(text: &mut String, tally: &LostTally) -> Result<(), OutOfMemory>
    ensures { OnOk result (string_bytes text.new ≡ string_bytes text.old ++ lost_command_line tally.now) }
{
    if tally.whole_files == 0 && tally.with_data == 0 {
        return Ok(());
    }
    text.push_str("           what is whole of these: extract --lost lost\n")
}

/// The lines of what is lost.
#[tactic(auto, unfolding(crate::specs::LostSummaries::lost_found_lines))]
fn push_lost_found(text: &mut String, tally: &LostTally) -> Result<(), OutOfMemory>
    ensures { OnOk result (string_bytes text.new ≡ string_bytes text.old ++ lost_found_lines tally.now) }
{
    if tally.too_many {
        return text.push_str("Lost       too many folders and files to follow\n");
    }
    push_lost_folders(text, tally)?;
    push_lost_files(text, tally)?;
    push_lost_command(text, tally)
}

/// The line of deleted entries, if there are any.
fn push_deleted(text: &mut String, deleted: u64) -> Result<(), OutOfMemory>
    ensures { OnOk result (string_bytes text.new ≡ string_bytes text.old
        ++ part (codes "Deleted    ") deleted (by_number deleted (codes " entry\n") (codes " entries\n"))) }
{
    let words = by_number(deleted, " entry\n", " entries\n");
    push_part(text, "Deleted    ", deleted, words)
}

/// Appends the lines of lost folders and lost files, if there are any, with the command that writes what is whole of them where it
/// writes a file; and that of deleted entries.
///
/// # Errors
///
/// If memory runs out. Then a part may be appended.
#[tactic(auto, unfolding(crate::specs::LostSummaries::lost_lines))]
pub fn push_lost(text: &mut String, tally: &LostTally) -> Result<(), OutOfMemory>
    ensures { OnOk result (string_bytes text.new ≡ string_bytes text.old ++ lost_lines tally.now) }
{
    push_lost_found(text, tally)?;
    push_deleted(text, tally.deleted as u64)
}
