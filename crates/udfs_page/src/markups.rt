//! The page's own text, and figures in it. Each function appends to a text; if memory runs out, a part may be appended.

ghost use Rattle.std.specs.Prelude.{◌≡◌, ◌++◌, OnOk};
ghost use Rattle.std.specs.String.{string_bytes};
ghost use Rattle.udfs_page.specs.Markups.{figure, markup, shown_name};

use crate::escapes::push_html;
use std::fmt::Write;
use udfs_osta::OutOfMemory;

/// Text of the page's own, unchanged.
#[tactic(auto, unfolding(crate::specs::Markups::markup))]
pub(crate) fn push_markup(text: &mut String, words: &str) -> Result<(), OutOfMemory>
    ensures { OnOk result (string_bytes text.new ≡ string_bytes text.old ++ markup words.now) }
{
    text.push_str(words)
}

/// A number in decimal digits.
#[tactic(auto, unfolding(crate::specs::Markups::figure))]
pub(crate) fn push_figure(text: &mut String, number: u128) -> Result<(), OutOfMemory>
    ensures { OnOk result (string_bytes text.new ≡ string_bytes text.old ++ figure number) }
{
    write!(text, "{number}")
}

/// A name or a path, by itself.
pub(crate) fn push_shown(text: &mut String, shown: &str) -> Result<(), OutOfMemory>
    ensures { OnOk result (string_bytes text.new ≡ string_bytes text.old ++ shown_name shown.now) }
{
    push_markup(text, "<bdi>")?;
    push_html(text, shown)?;
    push_markup(text, "</bdi>")
}
