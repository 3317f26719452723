//! The sentence on top of a summary. Each function appends to a text; if memory runs out, a part may be appended.

ghost use Rattle.std.specs.Prelude.{◌≡◌, ◌++◌, OnOk, codes};
ghost use Rattle.std.specs.String.{string_bytes};
ghost use Rattle.udfs_overview.specs.Sentences.{at_least, blocks_part, by_number, complete_text, counted, files_part, folders_part, part, sentence, worth_text};

use crate::figures::push_grouped;
use crate::tallies::Tally;
use udfs_osta::OutOfMemory;

/// A number, and what is counted.
pub(crate) fn push_counted(text: &mut String, number: u64, words: &str) -> Result<(), OutOfMemory>
    ensures { OnOk result (string_bytes text.new ≡ string_bytes text.old ++ counted number words.now) }
{
    push_grouped(u128::from(number), text)?;
    text.push_str(words)
}

/// The same behind other words, left out where the number is 0.
#[tactic(auto, unfolding(crate::specs::Sentences::part))]
pub(crate) fn push_part(
    text: &mut String,
    before: &str,
    number: u64,
    words: &str,
) -> Result<(), OutOfMemory>
    ensures { OnOk result (string_bytes text.new ≡ string_bytes text.old ++ part before.now number words.now) }
{
    if number == 0 {
        return Ok(());
    }
    text.push_str(before)?;
    push_counted(text, number, words)
}

/// Words for one, or for several.
pub(crate) fn by_number<'a>(number: u64, one: &'a str, several: &'a str) -> &'a str
    ensures { result.now ≡ by_number number one.now several.now }
{
    if number == 1 { one } else { several }
}

/// What stands before a figure that counts what cannot be known.
pub(crate) fn at_least(tally: &Tally) -> &'static str
    ensures { result.now ≡ at_least tally.now }
{
    if tally.unread == 0 && tally.torn_folders == 0 {
        ""
    } else {
        "at least "
    }
}

/// The files that are complete.
fn push_complete(text: &mut String, number: u64) -> Result<(), OutOfMemory>
    ensures { OnOk result (string_bytes text.new ≡ string_bytes text.old ++ complete_text number) }
{
    if number == 0 {
        return text.push_str("No file is complete");
    }
    let words = by_number(number, " file is complete", " files are complete");
    push_counted(text, number, words)
}

/// The files, and the entries of which nothing but the name is known.
#[tactic(auto, unfolding(crate::specs::Sentences::files_part))]
fn push_files_part(text: &mut String, tally: &Tally) -> Result<(), OutOfMemory>
    ensures { OnOk result (string_bytes text.new ≡ string_bytes text.old ++ files_part tally.now) }
{
    push_complete(text, tally.whole_files as u64)?;
    push_part(text, ", ", tally.torn_files as u64, " damaged")?;
    push_part(text, ", ", tally.unread as u64, " could not be looked at")
}

/// The folders that are torn.
fn push_torn_folders(text: &mut String, folders: u64) -> Result<(), OutOfMemory>
    ensures { OnOk result (string_bytes text.new ≡ string_bytes text.old
        ++ part (codes ",\nnames may be missing in ") folders (by_number folders (codes " folder") (codes " folders"))) }
{
    let words = by_number(folders, " folder", " folders");
    push_part(text, ",\nnames may be missing in ", folders, words)
}

/// The files of which readings differ, what has faults, the files of a type that is not written, and the folders that are torn.
#[tactic(auto, unfolding(crate::specs::Sentences::folders_part))]
fn push_folders_part(text: &mut String, tally: &Tally) -> Result<(), OutOfMemory>
    ensures { OnOk result (string_bytes text.new ≡ string_bytes text.old ++ folders_part tally.now) }
{
    push_part(
        text,
        ",\n",
        tally.disputed as u64,
        " disputed: two readings differ",
    )?;
    push_part(text, ",\n", tally.faulty as u64, " with faults")?;
    push_part(
        text,
        ",\n",
        tally.left_out as u64,
        " of a type that is not written",
    )?;
    push_torn_folders(text, tally.torn_folders as u64)
}

/// How many blocks are worth reading again.
#[tactic(auto, unfolding(crate::specs::Sentences::worth_text))]
fn push_worth(text: &mut String, needed: u64) -> Result<(), OutOfMemory>
    ensures { OnOk result (string_bytes text.new ≡ string_bytes text.old ++ worth_text needed) }
{
    let words = by_number(
        needed,
        " block is worth reading again",
        " blocks are worth reading again",
    );
    push_counted(text, needed, words)
}

/// The blocks that are worth reading again, if there are any.
#[tactic(auto, unfolding(crate::specs::Sentences::blocks_part))]
fn push_blocks_part(text: &mut String, tally: &Tally, needed: u64) -> Result<(), OutOfMemory>
    ensures { OnOk result (string_bytes text.new ≡ string_bytes text.old ++ blocks_part tally.now needed) }
{
    if needed == 0 {
        return Ok(());
    }
    text.push_str(";\n")?;
    text.push_str(at_least(tally))?;
    push_worth(text, needed)
}

/// Appends the sentence of a tally and so many blocks that are worth reading again: `241 files are complete, 5 damaged, 16 could not be looked at`, and
/// on a line of its own `69 blocks are worth reading again`.
///
/// # Errors
///
/// If memory runs out. Then a part may be appended.
#[tactic(auto, unfolding(crate::specs::Sentences::sentence))]
pub fn push_sentence(text: &mut String, tally: &Tally, needed: u64) -> Result<(), OutOfMemory>
    ensures { OnOk result (string_bytes text.new ≡ string_bytes text.old ++ sentence tally.now needed) }
{
    push_files_part(text, tally)?;
    push_folders_part(text, tally)?;
    push_blocks_part(text, tally, needed)?;
    text.push_str("\n")
}
