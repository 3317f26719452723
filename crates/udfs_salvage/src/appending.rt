//! Appends keywords and paths to a text, for JSON and for the paths of files. Where memory runs out, a part may have been appended.

ghost use Rattle.std.specs.Prelude.{◌≡◌, ◌++◌, ◌∷◌, [], ℕ, OnOk};
ghost use Rattle.std.specs.String.{string_bytes};
ghost use Rattle.udfs_salvage.specs.NodeTexts.{names_text, path_name, word_text};

use crate::words::Word;
use std::fmt::Write;
use udfs_osta::{Name, OutOfMemory};
use udfs_walk::Path;

/// Appends a keyword, and its number where it has one.
pub(crate) fn push_word(text: &mut String, word: Word) -> Result<(), OutOfMemory>
    ensures { OnOk result (string_bytes text.new ≡ string_bytes text.old ++ word_text word.front.now word.number) }
{
    let front = word.front;
    match word.number {
        None => text.push_str(front),
        Some(number) => write!(text, "{front}{number}"),
    }
}

/// Appends a `/`, and then a name in its escaped form.
fn push_name(text: &mut String, name: &Name) -> Result<(), OutOfMemory>
    ensures { OnOk result (string_bytes text.new ≡ string_bytes text.old ++ names_text (name.now ∷ [])) }
{
    text.push('/')?;
    name.write_escaped(text)
}

/// Appends each name of a path in its escaped form, after a `/`. Where memory runs out, it fails, and a part may have been appended.
pub fn push_names(text: &mut String, path: &Path) -> Result<(), OutOfMemory>
    ensures { OnOk result (string_bytes text.new ≡ string_bytes text.old ++ names_text path.now) }
{
    for index in 0..path.len() {
        if let Some(name) = path.get(index) {
            push_name(text, name)?;
        }
    }
    Ok(())
}

/// A path: the root has no name.
pub(crate) fn push_path_name(text: &mut String, path: &Path) -> Result<(), OutOfMemory>
    ensures { OnOk result (string_bytes text.new ≡ string_bytes text.old ++ path_name path.now) }
{
    if path.is_empty() {
        return text.push('/');
    }
    push_names(text, path)
}
