//! Names as a person is shown them, so that none can forge a line or turn the direction of text. Each function appends to a text;
//! if memory runs out, a part may be appended.

ghost use Rattle.std.specs.Prelude.{◌≡◌, ◌++◌, ◌<◌, ◌≤◌, ◌||◌, ℕ, List, OnOk, IfOk, length, false};
ghost use Rattle.std.specs.String.{string_bytes};
ghost use Rattle.std.specs.Str.{encode_utf8_all};
ghost use Rattle.std.specs.List.{All};
ghost use Rattle.std.specs.Option.{SomeIff};
ghost use Rattle.udfs_osta.specs.Escapes.{must_escape};
ghost use Rattle.udfs_osta.specs.Names.{AreUnits};
ghost use Rattle.udfs_osta.specs.Fronts.{front_len};
ghost use Rattle.udfs_overview.specs.SafeFronts.{front_characters};
ghost use Rattle.udfs_overview.specs.SafeNames.{IsSafe, is_unsafe, safe_characters, safe_name, safe_unit, safe_units};

use udfs_osta::{Name, OutOfMemory, is_dots, paired_char, write_escape, write_escapes};

/// The character of an unpaired unit, or `None` if the unit is written as an escape.
fn plain_char(unit: u16) -> Option<char>
    ensures { SomeIff result ((must_escape unit || is_unsafe unit) ≡ false) unit }
{
    match unit {
        0..=0x1f | 0x2f | 0x5c | 0x7f..=0x9f => None,
        0x61c | 0x200e | 0x200f | 0x2028..=0x202e | 0x2066..=0x2069 => None,
        _ => char::from_u32(u32::from(unit)),
    }
}

/// Appends an unpaired unit.
fn push_unit(unit: u16, text: &mut String) -> Result<(), OutOfMemory>
    ensures { OnOk result (string_bytes text.new ≡ string_bytes text.old ++ encode_utf8_all (safe_unit unit)) }
{
    match plain_char(unit) {
        Some(character) => text.push(character),
        None => write_escape(unit, text),
    }
}

/// Appends the first part, a surrogate pair or one unit, and returns how many units it takes.
fn push_front(units: &[u16], text: &mut String) -> Result<usize, OutOfMemory>
    requires { 0 < length units.now }
    ensures count { IfOk result (λ n. n ≡ front_len units.now) }
    ensures fits { IfOk result (λ n. n ≤ length units.now) }
    ensures ok { OnOk result (string_bytes text.new ≡ string_bytes text.old ++ encode_utf8_all (front_characters units.now)) }
{
    match paired_char(units) {
        Some(character) => {
            text.push(character)?;
            Ok(2)
        }
        None => {
            push_unit(units[0], text)?;
            Ok(1)
        }
    }
}

/// Appends the units, surrogate pairs joined.
fn push_units(units: &[u16], text: &mut String) -> Result<(), OutOfMemory>
    ensures { OnOk result (string_bytes text.new ≡ string_bytes text.old ++ encode_utf8_all (safe_units units.now)) }
{
    let mut rest = units;
    while !rest.is_empty() {
        let count = push_front(rest, text)?;
        let (_, others) = rest.split_at(count);
        rest = others;
    }
    Ok(())
}

/// Appends a name as a person is shown it: its escaped form, with U+007F to U+009F, U+061C, U+200E, U+200F, U+2028 to
/// U+202E and U+2066 to U+2069 also written as `\uXXXX`.
///
/// # Errors
///
/// If memory runs out. Then a part may be appended.
pub fn push_safe_name(name: &Name, text: &mut String) -> Result<(), OutOfMemory>
    ensures text { OnOk result (string_bytes text.new ≡ string_bytes text.old ++ safe_name name.now) }

    // The text has none of these characters, and no other name has the same text.
    ensures safe { All IsSafe (safe_characters name.now) }
    ensures alone { (other : List ℕ) → AreUnits other → safe_name other ≡ safe_name name.now → other ≡ name.now }
{
    let units = name.units();
    if is_dots(units) {
        write_escapes(units, text)
    } else {
        push_units(units, text)
    }
}

/// No character of a name's text is a control, a `/`, or one that separates lines or changes the direction of text. This is a law
/// about the text; the call does nothing.
pub fn safe_names_are_safe()
    ensures { (units : List ℕ) → AreUnits units → All IsSafe (safe_characters units) }
{}

/// Two names with the same text have the same units. This is a law about the text; the call does nothing.
pub fn safe_names_tell_units()
    ensures { (first second : List ℕ) → AreUnits first → AreUnits second → safe_name first ≡ safe_name second → first ≡ second }
{}
