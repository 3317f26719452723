//! What to do next, as commands with the arguments that were given. Each function appends to a text; if memory runs out, a part may be appended.

ghost use Rattle.std.specs.Prelude.{◌≡◌, ◌++◌, [], OnOk, option_map};
ghost use Rattle.std.specs.String.{string_bytes};
ghost use Rattle.udfs_salvage.specs.Found.{volume_now};
ghost use Rattle.udfs_salvage.specs.Surveys.{survey_by};
ghost use Rattle.udfs_overview.specs.NextCommands.{cleaned, joined, needed_steps};
ghost use Rattle.udfs_overview.specs.Repeating.{given_now, pass_number};
ghost use Rattle.udfs_overview.specs.Widenings.{widening_text};
ghost use Rattle.udfs_page.specs.Escapes.{html_text};
ghost use Rattle.udfs_page.specs.Markups.{markup};
ghost use Rattle.udfs_page.specs.Naming.{called_now};
ghost use Rattle.udfs_page.specs.NextSteps.{advice_html, again_html, commands_html, extract_html, fault_html, files_steps, left_out_html, needed_html, needed_words, next_html, no_need_html, page_command, page_end, page_front, renewed, steps_html, title_words, whole_words, wide_html};

use crate::escapes::push_html;
use crate::markups::push_markup;
use crate::naming::Called;
use std::alloc::Global;
use udfs_lattice::BlockStore;
use udfs_osta::OutOfMemory;
use udfs_overview::{
    Figures, Given, Margins, Pass, Widening, cleaned, pass_number, push_disc_words, push_extract,
    push_inputs_end, push_needed_steps, push_shell_path, push_shell_word, push_widening,
    table_path, wide_writes,
};
use udfs_salvage::{Survey, Volume};
use udfs_volume::Profile;

/// The title as an argument, if there is one.
#[tactic(auto, unfolding(crate::specs::NextSteps::title_words))]
fn push_title_words(text: &mut String, title: Option<&str>) -> Result<(), OutOfMemory>
    ensures { OnOk result (string_bytes text.new ≡ string_bytes text.old ++ title_words (option_map (λ title. title.now) title.entry)) }
{
    match title {
        None => Ok(()),
        Some(title) => {
            push_markup(text, " --title ")?;
            push_shell_word(text, title)
        }
    }
}

/// How the disc is read, and how the page is called.
#[tactic(auto, unfolding(crate::specs::NextSteps::page_front))]
fn push_page_front(
    text: &mut String,
    given: &Given<'_>,
    called: &Called<'_>,
    profile: Profile,
    last: u32,
) -> Result<(), OutOfMemory>
    ensures { OnOk result (string_bytes text.new ≡ string_bytes text.old ++ page_front (given_now given.now) (called_now called.now) profile last) }
{
    push_markup(text, "udfsalvage page")?;
    push_disc_words(text, given, profile, last)?;
    push_title_words(text, called.title)
}

/// Where it is written, and the inputs.
#[tactic(auto, unfolding(crate::specs::NextSteps::page_end))]
fn push_page_end(
    text: &mut String,
    given: &Given<'_>,
    called: &Called<'_>,
) -> Result<(), OutOfMemory>
    ensures { OnOk result (string_bytes text.new ≡ string_bytes text.old ++ page_end (given_now given.now) (called_now called.now)) }
{
    push_markup(text, " --out ")?;
    push_shell_path(text, called.out)?;
    push_inputs_end(text, given)
}

/// The command that makes a page.
#[tactic(auto, unfolding(crate::specs::NextSteps::page_command))]
fn push_page_command(
    text: &mut String,
    given: &Given<'_>,
    called: &Called<'_>,
    profile: Profile,
    last: u32,
) -> Result<(), OutOfMemory>
    ensures { OnOk result (string_bytes text.new ≡ string_bytes text.old ++ page_command (given_now given.now) (called_now called.now) profile last) }
{
    push_page_front(text, given, called, profile, last)?;
    push_page_end(text, given, called)
}

/// Commands, in a box.
#[tactic(auto, unfolding(crate::specs::NextSteps::commands_html))]
pub(crate) fn push_commands(text: &mut String, commands: &str) -> Result<(), OutOfMemory>
    ensures { OnOk result (string_bytes text.new ≡ string_bytes text.old ++ commands_html commands.now) }
{
    push_markup(text, "<pre>")?;
    push_html(text, commands)?;
    push_markup(text, "</pre>\n")
}

/// What is said of blocks that are needed, of which so many are in conflict.
fn push_needed_words(text: &mut String, disputed: usize) -> Result<(), OutOfMemory>
    ensures { OnOk result (string_bytes text.new ≡ string_bytes text.old ++ markup (needed_words disputed)) }
{
    if disputed == 0 {
        push_markup(
            text,
            "<p>Some blocks that are not known are needed. Read only these again, with this drive or another, and join the pass with what was read:</p>\n",
        )
    } else {
        push_markup(
            text,
            "<p>Some blocks in conflict are needed: two readings of each differ. Forget them first, then read the needed blocks again, with this drive or another, and join the pass with the rest:</p>\n",
        )
    }
}

/// The commands that read again what is needed, in a box.
fn push_needed_commands(
    alloc: Global,
    text: &mut String,
    given: &Given<'_>,
    pass: Pass,
    disputed: usize,
) -> Result<(), OutOfMemory>
    ensures { OnOk result (string_bytes text.new ≡ string_bytes text.old ++ commands_html (needed_steps [] [] (given_now given.now) pass.profile pass.last pass.number disputed)) }
{
    let mut commands = String::new(alloc);
    let margins = Margins {
        first: "",
        other: "",
    };
    push_needed_steps(&mut commands, margins, given, pass, disputed)?;
    push_commands(text, &commands)
}

/// The command that makes the page by such arguments, in a box.
fn push_page_box(
    alloc: Global,
    text: &mut String,
    given: &Given<'_>,
    called: &Called<'_>,
    profile: Profile,
    last: u32,
) -> Result<(), OutOfMemory>
    ensures { OnOk result (string_bytes text.new ≡ string_bytes text.old ++ commands_html (page_command (given_now given.now) (called_now called.now) profile last)) }
{
    let mut commands = String::new(alloc);
    push_page_command(&mut commands, given, called, profile, last)?;
    push_commands(text, &commands)
}

/// The command that makes the page of the table with a new pass.
fn push_joined_box(
    alloc: Global,
    text: &mut String,
    given: &Given<'_>,
    called: &Called<'_>,
    profile: Profile,
    last: u32,
) -> Result<(), OutOfMemory>
    ensures { OnOk result (string_bytes text.new ≡ string_bytes text.old ++ commands_html (page_command (joined (given_now given.now)) (called_now called.now) profile last)) }
{
    let files = [table_path(given.files)];
    let joined = Given {
        files: &files,
        parts: &[],
        size: given.size,
        force: false,
    };
    push_page_box(alloc, text, &joined, called, profile, last)
}

/// The same, where so many blocks in conflict are forgotten first.
fn push_renewed_box(
    alloc: Global,
    text: &mut String,
    given: &Given<'_>,
    called: &Called<'_>,
    pass: Pass,
    disputed: usize,
) -> Result<(), OutOfMemory>
    ensures { OnOk result (string_bytes text.new ≡ string_bytes text.old ++ commands_html (page_command (renewed (given_now given.now) disputed) (called_now called.now) pass.profile pass.last)) }
{
    if disputed == 0 {
        push_joined_box(alloc, text, given, called, pass.profile, pass.last)
    } else {
        let clean = cleaned(given);
        push_joined_box(alloc, text, &clean, called, pass.profile, pass.last)
    }
}

/// What to read again, of which `disputed` blocks are in conflict, and the page of the table with the new pass.
#[tactic(auto, unfolding(crate::specs::NextSteps::needed_html))]
fn push_needed(
    alloc: Global,
    text: &mut String,
    given: &Given<'_>,
    called: &Called<'_>,
    pass: Pass,
    disputed: usize,
) -> Result<(), OutOfMemory>
    ensures { OnOk result (string_bytes text.new ≡ string_bytes text.old ++ needed_html (given_now given.now) (called_now called.now) pass.profile pass.last pass.number disputed) }
{
    push_needed_words(text, disputed)?;
    push_needed_commands(alloc, text, given, pass, disputed)?;
    push_markup(
        text,
        "<p>Then make the page again, and do what it says:</p>\n",
    )?;
    push_renewed_box(alloc, text, given, called, pass, disputed)
}

/// What is said of a volume that the wide rules read.
fn push_wide_words(alloc: Global, text: &mut String, widening: Widening) -> Result<(), OutOfMemory>
    ensures { OnOk result (string_bytes text.new ≡ string_bytes text.old ++ html_text (widening_text widening)) }
{
    let mut words = String::new(alloc);
    push_widening(&mut words, widening)?;
    push_html(text, &words)
}

/// The page by the wide rules, of a volume that these read.
#[tactic(auto, unfolding(crate::specs::NextSteps::wide_html))]
fn push_wide(
    alloc: Global,
    text: &mut String,
    given: &Given<'_>,
    called: &Called<'_>,
    last: u32,
    widening: Widening,
) -> Result<(), OutOfMemory>
    ensures { OnOk result (string_bytes text.new ≡ string_bytes text.old ++ wide_html (given_now given.now) (called_now called.now) last widening) }
{
    push_markup(text, "<p>")?;
    push_wide_words(alloc, text, widening)?;
    push_markup(text, ".</p>\n")?;
    push_page_box(alloc, text, given, called, Profile::Wide, last)
}

/// What is said of a volume with a fault.
fn push_fault(
    alloc: Global,
    text: &mut String,
    given: &Given<'_>,
    called: &Called<'_>,
    last: u32,
    widening: Widening,
) -> Result<(), OutOfMemory>
    ensures { OnOk result (string_bytes text.new ≡ string_bytes text.old ++ fault_html (given_now given.now) (called_now called.now) last widening) }
{
    match widening {
        Widening::No => push_markup(
            text,
            "<p>The volume does not open, and reading blocks again will not help: the manual of udfsalvage explains this fault.</p>\n",
        ),
        Widening::Wants | Widening::Reads(_) => {
            push_wide(alloc, text, given, called, last, widening)
        }
    }
}

/// That all is whole, or that no block is worth reading again.
fn push_whole_words(text: &mut String, whole: bool) -> Result<(), OutOfMemory>
    ensures { OnOk result (string_bytes text.new ≡ string_bytes text.old ++ markup (whole_words whole)) }
{
    if whole {
        push_markup(text, "<p>All is whole.</p>\n")
    } else {
        push_markup(text, "<p>No block is worth reading again.</p>\n")
    }
}

/// That no block is worth reading again.
fn push_no_need(
    alloc: Global,
    text: &mut String,
    given: &Given<'_>,
    called: &Called<'_>,
    figures: &Figures,
    volume: &Volume,
) -> Result<(), OutOfMemory>
    ensures { OnOk result (string_bytes text.new ≡ string_bytes text.old ++ no_need_html (given_now given.now) (called_now called.now) figures.now (volume_now volume.now)) }
{
    match volume {
        Volume::Open(_) => push_whole_words(text, figures.all_whole),
        Volume::Holes(_) => push_markup(
            text,
            "<p>The volume does not open, and no block is worth reading again.</p>\n",
        ),
        Volume::Fault(_) => {
            push_fault(alloc, text, given, called, figures.last, figures.widening)
        }
    }
}

/// What to read again, where something is worth it.
fn push_worth(
    alloc: Global,
    text: &mut String,
    given: &Given<'_>,
    called: &Called<'_>,
    figures: &Figures,
) -> Result<(), OutOfMemory>
    ensures { OnOk result (string_bytes text.new ≡ string_bytes text.old
        ++ needed_html (given_now given.now) (called_now called.now) figures.now.profile figures.now.last (pass_number (given_now given.now) figures.now.disc.known) figures.now.disc.needed_in_conflict) }
{
    let pass = Pass {
        profile: figures.profile,
        last: figures.last,
        number: pass_number(alloc, given, figures.disc.known)?,
    };
    let disputed = figures.disc.needed_in_conflict;
    push_needed(alloc, text, given, called, pass, disputed)
}

/// What to read again, if anything.
fn push_again(
    alloc: Global,
    text: &mut String,
    given: &Given<'_>,
    called: &Called<'_>,
    figures: &Figures,
    volume: &Volume,
    reread: &[u32],
) -> Result<(), OutOfMemory>
    ensures { OnOk result (string_bytes text.new ≡ string_bytes text.old
        ++ again_html (given_now given.now) (called_now called.now) figures.now (volume_now volume.now) reread.now) }
{
    match reread {
        [] => push_no_need(alloc, text, given, called, figures, volume),
        _ => push_worth(alloc, text, given, called, figures),
    }
}

/// The command that writes the files.
#[tactic(auto, unfolding(crate::specs::NextSteps::extract_html))]
fn push_extract_box(
    alloc: Global,
    text: &mut String,
    given: &Given<'_>,
    profile: Profile,
    last: u32,
) -> Result<(), OutOfMemory>
    ensures { OnOk result (string_bytes text.new ≡ string_bytes text.old ++ extract_html (given_now given.now) profile last) }
{
    let mut commands = String::new(alloc);
    push_extract(&mut commands, given, profile, last)?;
    push_markup(
        text,
        "<p>The whole files can be written out at any time:</p>\n",
    )?;
    push_commands(text, &commands)
}

/// The command that writes the files of a volume that opens.
fn push_files_steps(
    alloc: Global,
    text: &mut String,
    given: &Given<'_>,
    volume: &Volume,
    profile: Profile,
    last: u32,
) -> Result<(), OutOfMemory>
    ensures { OnOk result (string_bytes text.new ≡ string_bytes text.old ++ files_steps (given_now given.now) (volume_now volume.now) profile last) }
{
    match volume {
        Volume::Open(_) => push_extract_box(alloc, text, given, profile, last),
        Volume::Holes(_) | Volume::Fault(_) => Ok(()),
    }
}

/// The page by the wide rules, where these write files that the strict ones leave out.
#[tactic(auto, unfolding(crate::specs::NextSteps::left_out_html))]
fn push_left_out(
    alloc: Global,
    text: &mut String,
    given: &Given<'_>,
    called: &Called<'_>,
    last: u32,
) -> Result<(), OutOfMemory>
    ensures { OnOk result (string_bytes text.new ≡ string_bytes text.old ++ left_out_html (given_now given.now) (called_now called.now) last) }
{
    push_markup(
        text,
        "<p>The wide rules also write files that are left out here. To make the page with them:</p>\n",
    )?;
    push_page_box(alloc, text, given, called, Profile::Wide, last)
}

/// What to read again, if anything, and the command that writes the files.
#[tactic(auto, unfolding(crate::specs::NextSteps::steps_html))]
fn push_steps(
    alloc: Global,
    text: &mut String,
    given: &Given<'_>,
    called: &Called<'_>,
    figures: &Figures,
    volume: &Volume,
    reread: &[u32],
) -> Result<(), OutOfMemory>
    ensures { OnOk result (string_bytes text.new ≡ string_bytes text.old
        ++ steps_html (given_now given.now) (called_now called.now) figures.now (volume_now volume.now) reread.now) }
{
    push_again(alloc, text, given, called, figures, volume, reread)?;
    push_files_steps(alloc, text, given, volume, figures.profile, figures.last)
}

/// What to do by these rules; or by the wide ones, where they write files that are left out.
#[tactic(auto, unfolding(crate::specs::NextSteps::advice_html))]
fn push_advice<B: BlockStore>(
    alloc: Global,
    text: &mut String,
    given: &Given<'_>,
    called: &Called<'_>,
    survey: &Survey<'_, B>,
    figures: &Figures,
) -> Result<(), OutOfMemory>
    ensures { OnOk result (string_bytes text.new ≡ string_bytes text.old ++ advice_html (given_now given.now) (called_now called.now) figures.now (survey_by B.states survey.now)) }
{
    if wide_writes(alloc, survey)? {
        push_left_out(alloc, text, given, called, figures.last)
    } else {
        push_steps(
            alloc,
            text,
            given,
            called,
            figures,
            &survey.volume,
            &survey.reread,
        )
    }
}

/// What to do next, of a page that is called so.
#[tactic(auto, unfolding(crate::specs::NextSteps::next_html))]
pub(crate) fn push_next<B: BlockStore>(
    alloc: Global,
    text: &mut String,
    given: &Given<'_>,
    called: &Called<'_>,
    survey: &Survey<'_, B>,
    figures: &Figures,
) -> Result<(), OutOfMemory>
    ensures { OnOk result (string_bytes text.new ≡ string_bytes text.old ++ next_html (given_now given.now) (called_now called.now) figures.now (survey_by B.states survey.now)) }
{
    push_markup(text, "<h2>What to do next</h2>\n")?;
    push_advice(alloc, text, given, called, survey, figures)
}
