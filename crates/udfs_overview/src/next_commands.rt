//! The commands that come next, each on a line, with the arguments that were given. Each function appends to a text; if memory runs out, a part may be
//! appended.

ghost use Rattle.std.specs.Prelude.{◌≡◌, ◌++◌, OnOk, map};
ghost use Rattle.std.specs.String.{string_bytes};
ghost use Rattle.udfs_overview.specs.NextCommands.{cleaned, ddrescue_command, extract_command, forget_command, forget_steps, inputs_end, merge_command, merge_front, needed_steps, pass_end, pass_steps, pass_words, reread_command, reread_steps, summary_command, table_path};
ghost use Rattle.udfs_overview.specs.Repeating.{given_now};

use crate::repeating::{
    Given, force_words, push_disc_words, push_image_name, push_inputs, push_mapfile_name,
    push_shell_path,
};
use udfs_osta::OutOfMemory;
use udfs_volume::Profile;

/// The inputs after blocks in conflict were forgotten.
const CLEAN: &[&str] = &["clean.tab"];

/// What stands before the commands: before the first of them, and before each other one.
#[derive(Clone, Copy)]
pub struct Margins<'a> {
    /// What stands before the first one.
    pub first: &'a str,
    /// What stands before each other one.
    pub other: &'a str,
}

/// A pass over the blocks that are worth reading again: how the disc is read, and the number of the pass.
#[derive(Clone, Copy)]
pub struct Pass {
    /// The rules by which the volume is read.
    pub profile: Profile,
    /// The last block of the volume.
    pub last: u32,
    /// The number that names the pass.
    pub number: u64,
}

/// The path of the table file that takes the new pass too: the first of these that has the ending of one, or else `disc.tab`.
pub fn table_path<'a>(files: &[&'a str]) -> &'a str
    ensures { result.now ≡ table_path (map (λ path. path.now) files.now) }
{
    match files {
        [] => "disc.tab",
        [path, rest @ ..] => {
            if path.as_bytes().ends_with(b".tab") {
                path
            } else {
                table_path(rest)
            }
        }
    }
}

/// The names of the image and of the mapfile of a pass.
#[tactic(auto, unfolding(crate::specs::NextCommands::pass_words))]
fn push_pass(text: &mut String, number: u64) -> Result<(), OutOfMemory>
    ensures { OnOk result (string_bytes text.new ≡ string_bytes text.old ++ pass_words number) }
{
    push_image_name(text, number)?;
    text.push_str(" ")?;
    push_mapfile_name(text, number)
}

/// Appends the inputs at the end of a command, and the end of its line.
///
/// # Errors
///
/// If memory runs out. Then a part may be appended.
#[tactic(auto, unfolding(crate::specs::NextCommands::inputs_end))]
pub fn push_inputs_end(text: &mut String, given: &Given<'_>) -> Result<(), OutOfMemory>
    ensures { OnOk result (string_bytes text.new ≡ string_bytes text.old ++ inputs_end (given_now given.now)) }
{
    push_inputs(text, given)?;
    text.push_str("\n")
}

/// The command that puts the blocks that are worth reading again into a domain mapfile, by whole groups of 16, which a DVD drive reads as one.
#[tactic(auto, unfolding(crate::specs::NextCommands::reread_command))]
fn push_reread(
    text: &mut String,
    given: &Given<'_>,
    profile: Profile,
    last: u32,
) -> Result<(), OutOfMemory>
    ensures { OnOk result (string_bytes text.new ≡ string_bytes text.old ++ reread_command (given_now given.now) profile last) }
{
    text.push_str("udfsalvage reread")?;
    push_disc_words(text, given, profile, last)?;
    text.push_str(" --group 16 --mapfile want.map")?;
    push_inputs_end(text, given)
}

/// A pass over them.
#[tactic(auto, unfolding(crate::specs::NextCommands::ddrescue_command))]
fn push_ddrescue(text: &mut String, number: u64) -> Result<(), OutOfMemory>
    ensures { OnOk result (string_bytes text.new ≡ string_bytes text.old ++ ddrescue_command number) }
{
    text.push_str("ddrescue -d -r3 -b2048 -m want.map /dev/sr0 ")?;
    push_pass(text, number)?;
    text.push_str("\n")
}

/// What begins the next command, up to its inputs.
#[tactic(auto, unfolding(crate::specs::NextCommands::merge_front))]
fn push_merge_front(text: &mut String, given: &Given<'_>) -> Result<(), OutOfMemory>
    ensures { OnOk result (string_bytes text.new ≡ string_bytes text.old ++ merge_front (given_now given.now)) }
{
    text.push_str("udfsalvage merge --out ")?;
    push_shell_path(text, table_path(given.files))?;
    text.push_str(force_words(given.force))
}

/// The pass at its end.
#[tactic(auto, unfolding(crate::specs::NextCommands::pass_end))]
fn push_pass_end(text: &mut String, number: u64) -> Result<(), OutOfMemory>
    ensures { OnOk result (string_bytes text.new ≡ string_bytes text.old ++ pass_end number) }
{
    text.push_str(" --ddrescue ")?;
    push_pass(text, number)?;
    text.push_str("\n")
}

/// The table of the inputs and this pass.
#[tactic(auto, unfolding(crate::specs::NextCommands::merge_command))]
fn push_merge(text: &mut String, given: &Given<'_>, number: u64) -> Result<(), OutOfMemory>
    ensures { OnOk result (string_bytes text.new ≡ string_bytes text.old ++ merge_command (given_now given.now) number) }
{
    push_merge_front(text, given)?;
    push_inputs(text, given)?;
    push_pass_end(text, number)
}

/// The table of the inputs without the blocks in conflict.
#[tactic(auto, unfolding(crate::specs::NextCommands::forget_command))]
fn push_forget(text: &mut String, given: &Given<'_>) -> Result<(), OutOfMemory>
    ensures { OnOk result (string_bytes text.new ≡ string_bytes text.old ++ forget_command (given_now given.now)) }
{
    text.push_str("udfsalvage forget --conflicts --out clean.tab")?;
    text.push_str(force_words(given.force))?;
    push_inputs_end(text, given)
}

/// Appends the command that writes the whole files.
///
/// # Errors
///
/// If memory runs out. Then a part may be appended.
#[tactic(auto, unfolding(crate::specs::NextCommands::extract_command))]
pub fn push_extract(
    text: &mut String,
    given: &Given<'_>,
    profile: Profile,
    last: u32,
) -> Result<(), OutOfMemory>
    ensures { OnOk result (string_bytes text.new ≡ string_bytes text.old ++ extract_command (given_now given.now) profile last) }
{
    text.push_str("udfsalvage extract")?;
    push_disc_words(text, given, profile, last)?;
    text.push_str(" --to files")?;
    push_inputs_end(text, given)
}

/// Appends the command for the summary by the rules of a profile.
///
/// # Errors
///
/// If memory runs out. Then a part may be appended.
#[tactic(auto, unfolding(crate::specs::NextCommands::summary_command))]
pub fn push_summary_by(
    text: &mut String,
    given: &Given<'_>,
    profile: Profile,
    last: u32,
) -> Result<(), OutOfMemory>
    ensures { OnOk result (string_bytes text.new ≡ string_bytes text.old ++ summary_command (given_now given.now) profile last) }
{
    text.push_str("udfsalvage summary")?;
    push_disc_words(text, given, profile, last)?;
    push_inputs_end(text, given)
}

/// The same arguments where the table without the blocks in conflict is the only input.
pub fn cleaned<'a>(given: &Given<'a>) -> Given<'a>
    ensures { given_now result ≡ cleaned (given_now given.now) }
{
    Given {
        files: CLEAN,
        parts: &[],
        size: given.size,
        force: false,
    }
}

/// A pass, and the table with it.
#[tactic(auto, unfolding(crate::specs::NextCommands::pass_steps))]
fn push_pass_steps(
    text: &mut String,
    indent: &str,
    given: &Given<'_>,
    number: u64,
) -> Result<(), OutOfMemory>
    ensures { OnOk result (string_bytes text.new ≡ string_bytes text.old ++ pass_steps indent.now (given_now given.now) number) }
{
    text.push_str(indent)?;
    push_ddrescue(text, number)?;
    text.push_str(indent)?;
    push_merge(text, given, number)
}

/// What is wanted, and the pass.
#[tactic(auto, unfolding(crate::specs::NextCommands::reread_steps))]
fn push_reread_steps(
    text: &mut String,
    margins: Margins<'_>,
    given: &Given<'_>,
    pass: Pass,
) -> Result<(), OutOfMemory>
    ensures { OnOk result (string_bytes text.new ≡ string_bytes text.old ++ reread_steps margins.entry.first.now margins.entry.other.now (given_now given.now) pass.profile pass.last pass.number) }
{
    text.push_str(margins.first)?;
    push_reread(text, given, pass.profile, pass.last)?;
    push_pass_steps(text, margins.other, given, pass.number)
}

/// The same, where blocks in conflict are forgotten first.
#[tactic(auto, unfolding(crate::specs::NextCommands::forget_steps))]
fn push_forget_steps(
    text: &mut String,
    margins: Margins<'_>,
    given: &Given<'_>,
    pass: Pass,
) -> Result<(), OutOfMemory>
    ensures { OnOk result (string_bytes text.new ≡ string_bytes text.old ++ forget_steps margins.entry.first.now margins.entry.other.now (given_now given.now) pass.profile pass.last pass.number) }
{
    text.push_str(margins.first)?;
    push_forget(text, given)?;
    let clean = cleaned(given);
    let margins = Margins {
        first: margins.other,
        other: margins.other,
    };
    push_reread_steps(text, margins, &clean, pass)
}

/// Appends the commands that read again what is worth it, of which so many blocks are in conflict, and join it with what was read: those blocks are
/// forgotten first.
///
/// # Errors
///
/// If memory runs out. Then a part may be appended.
pub fn push_needed_steps(
    text: &mut String,
    margins: Margins<'_>,
    given: &Given<'_>,
    pass: Pass,
    disputed: usize,
) -> Result<(), OutOfMemory>
    ensures { OnOk result (string_bytes text.new ≡ string_bytes text.old ++ needed_steps margins.entry.first.now margins.entry.other.now (given_now given.now) pass.profile pass.last pass.number disputed) }
{
    if disputed == 0 {
        push_reread_steps(text, margins, given, pass)
    } else {
        push_forget_steps(text, margins, given, pass)
    }
}
