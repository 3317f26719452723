//! Paths on a line of a terminal: a long one is cut in the middle. Each function that appends to a text may have appended a part if memory runs out.

ghost use Rattle.std.specs.Prelude.{◌≡◌, ◌+◌, ◌*◌, ◌<◌, ◌≤◌, ◌++◌, IfOk, OnOk, chars, length};
ghost use Rattle.std.specs.Str.{encode_utf8_all};
ghost use Rattle.std.specs.String.{string_bytes};
ghost use Rattle.udfs_overview.specs.Narrow.{back_in, cost, cost_of, cut, front_in, narrow};

use std::alloc::Global;
use udfs_osta::OutOfMemory;

/// How many columns a character may take.
fn cost(character: char) -> u128
    ensures value { result ≡ cost character }
    ensures most { result ≤ 2 }
{
    if (character as u32) < 128 { 1 } else { 2 }
}

/// How many columns these may take.
fn cost_of(characters: &[char]) -> u128
    ensures { result ≡ cost_of characters.now }
{
    let mut columns = 0;
    for character in characters {
        columns += cost(*character);
    }
    columns
}

/// The characters of a text.
#[tactic(auto, using(std::proofs::lemmas::Str::chars_from_encodes))]
fn characters_of(alloc: Global, text: &str) -> Result<Vec<char>, OutOfMemory>
    ensures { IfOk result (λ found. found.items ≡ chars text.now) }
{
    Ok(text.chars().collect(alloc)?)
}

/// Those at the beginning that take no more than this many columns.
#[tactic(auto, unfolding(crate::specs::Narrow::front_in))]
fn push_front(text: &mut String, columns: u128, characters: &[char]) -> Result<(), OutOfMemory>
    ensures { OnOk result (string_bytes text.new ≡ string_bytes text.old ++ encode_utf8_all (front_in columns characters.now)) }
{
    match characters {
        [] => Ok(()),
        [first, rest @ ..] => {
            let cost = cost(*first);
            if cost > columns {
                return Ok(());
            }
            text.push(*first)?;
            push_front(text, columns - cost, rest)
        }
    }
}

/// Those at the end that do.
#[tactic(auto, unfolding(crate::specs::Narrow::back_in))]
fn back_in(columns: u128, characters: &[char]) -> &[char]
    ensures { result.now ≡ back_in columns characters.now }
{
    let mut left = cost_of(characters);
    let mut rest = characters;
    while let Some((first, others)) = rest.split_first() {
        if left <= columns {
            return rest;
        }
        left -= cost(*first);
        rest = others;
    }
    rest
}

/// Characters.
fn push_characters(text: &mut String, characters: &[char]) -> Result<(), OutOfMemory>
    ensures { OnOk result (string_bytes text.new ≡ string_bytes text.old ++ encode_utf8_all characters.now) }
{
    match characters {
        [] => Ok(()),
        [first, rest @ ..] => {
            text.push(*first)?;
            push_characters(text, rest)
        }
    }
}

/// The beginning and the end, with dots between them.
#[tactic(auto, unfolding(crate::specs::Narrow::cut))]
fn push_cut(text: &mut String, half: u128, characters: &[char]) -> Result<(), OutOfMemory>
    ensures { OnOk result (string_bytes text.new ≡ string_bytes text.old ++ cut half characters.now) }
{
    push_front(text, half, characters)?;
    text.push_str("...")?;
    push_characters(text, back_in(half, characters))
}

/// Appends a text that takes no more than twice this many columns and three, or its beginning and its end.
///
/// # Errors
///
/// If memory runs out. Then a part may be appended.
#[tactic(auto, unfolding(crate::specs::Narrow::narrow))]
pub(crate) fn push_narrow(
    alloc: Global,
    text: &mut String,
    half: u128,
    shown: &str,
) -> Result<(), OutOfMemory>
    requires { half < 1000 }
    ensures { OnOk result (string_bytes text.new ≡ string_bytes text.old ++ narrow half shown.now) }
{
    let characters = characters_of(alloc, shown)?;
    if cost_of(&characters) <= 2 * half + 3 {
        return text.push_str(shown);
    }
    push_cut(text, half, &characters)
}
