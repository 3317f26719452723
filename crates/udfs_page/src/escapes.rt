//! Text in HTML: the five characters that mean something to HTML are written as character references.

ghost use Rattle.std.specs.Prelude.{◌≡◌, ◌++◌, ℕ, List, OnOk, true, chars};
ghost use Rattle.std.specs.String.{string_bytes};
ghost use Rattle.std.specs.Str.{encode_utf8_all};
ghost use Rattle.udfs_page.specs.Escapes.{html_character, html_characters, html_lines, html_text, is_inert, line_character, unescaped};

use udfs_osta::OutOfMemory;

/// Appends a character, or the reference that represents it.
fn push_character(text: &mut String, character: char) -> Result<(), OutOfMemory>
    ensures { OnOk result (string_bytes text.new ≡ string_bytes text.old ++ encode_utf8_all (html_character character)) }
{
    match character {
        '<' => text.push_str("&lt;"),
        '>' => text.push_str("&gt;"),
        '&' => text.push_str("&amp;"),
        '"' => text.push_str("&quot;"),
        '\'' => text.push_str("&#39;"),
        _ => text.push(character),
    }
}

/// Appends a text as HTML shows it: `<`, `>`, `&`, `"` and `'` as character references, and each other character as it is.
///
/// # Errors
///
/// If memory runs out. Then a part may be appended.
pub fn push_html(text: &mut String, shown: &str) -> Result<(), OutOfMemory>
    ensures { OnOk result (string_bytes text.new ≡ string_bytes text.old ++ html_text shown.now) }
{
    for character in shown.chars() {
        push_character(text, character)?;
    }
    Ok(())
}

/// Appends a character of a text of several lines.
fn push_line_character(text: &mut String, character: char) -> Result<(), OutOfMemory>
    ensures { OnOk result (string_bytes text.new ≡ string_bytes text.old ++ encode_utf8_all (line_character character)) }
{
    match character {
        '\n' => text.push_str("</div>\n<div>"),
        _ => push_character(text, character),
    }
}

/// Appends a text of several lines as HTML shows it, each line in a division of its own.
pub(crate) fn push_lines(text: &mut String, shown: &str) -> Result<(), OutOfMemory>
    ensures { OnOk result (string_bytes text.new ≡ string_bytes text.old ++ html_lines shown.now) }
{
    for character in shown.chars() {
        push_line_character(text, character)?;
    }
    Ok(())
}

/// No text can end an element or an attribute, or begin one: its HTML has no `<`, `>`, `"` or `'`, and each `&` begins one of the
/// five references. This is a law about the text; the call does nothing.
pub fn html_injects_nothing()
    ensures { (characters : List ℕ) → is_inert (html_characters characters) ≡ true }
{}

/// Replacing the references in the HTML of a text gives the text. This is a law about the text; the call does nothing.
pub fn html_gives_the_text_back()
    ensures { (characters : List ℕ) → unescaped (html_characters characters) ≡ characters }
{}
