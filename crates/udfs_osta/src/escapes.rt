//! The escaped form of a name.

ghost use Rattle.std.specs.Fmt.{digit_glyph};
ghost use Rattle.std.specs.Prelude.{◌≡◌, ℕ, ◌<◌, ◌≤◌, ◌++◌, List, length, drop, take, slice_index, true, false, Ok, OnOk, OnErr, IfOk};
ghost use Rattle.std.specs.String.{string_bytes};
ghost use Rattle.std.specs.Str.{IsAscii, encode_utf8_all};
ghost use Rattle.std.specs.Char.Utf16.{surrogate_pair_char};
ghost use Rattle.std.specs.List.{flat_map};
ghost use Rattle.std.specs.Option.{SomeIff};
ghost use Rattle.udfs_osta.specs.Parts.{IsPathPart};
ghost use Rattle.udfs_osta.specs.Texts.{AppendsPart};
ghost use Rattle.udfs_osta.specs.Names.{AreUnits, units_of};
ghost use Rattle.udfs_osta.specs.Escapes.{escape, must_escape, shown_unit, shown, is_dots, escaped};
ghost use Rattle.udfs_osta.specs.Fronts.{begins_with_pair, front_len, front_chars};

use crate::texts::{OutOfMemory, push_ascii};

/// A hexadecimal digit, in upper case.
fn hex_byte(digit: u16) -> u8
    requires { digit < 16 }
    ensures { result ≡ digit_glyph true digit }
{
    if digit < 10 {
        b'0' + digit as u8
    } else {
        b'A' + (digit - 10) as u8
    }
}

/// `\uXXXX`, with four hexadecimal digits.
pub(crate) fn escape_bytes(unit: u16) -> [u8; 6]
    ensures value { result ≡ escape unit }
    ensures ascii { IsAscii result }
{
    [
        b'\\',
        b'u',
        hex_byte(unit / 4096),
        hex_byte(unit / 256 % 16),
        hex_byte(unit / 16 % 16),
        hex_byte(unit % 16),
    ]
}

/// The character of a unit that is in no pair, or `None` if the unit is escaped.
pub(crate) fn plain_char(unit: u16) -> Option<char>
    ensures { SomeIff result (must_escape unit ≡ false) unit }
{
    match unit {
        0..=0x1f | 0x2f | 0x5c | 0x7f => None,
        _ => char::from_u32(u32::from(unit)),
    }
}

/// The character of the surrogate pair at the beginning of units of UTF-16, if there is one.
pub fn paired_char(units: &[u16]) -> Option<char>
    ensures { SomeIff result (begins_with_pair units.now ≡ true) (surrogate_pair_char (slice_index units.now 0) (slice_index units.now 1)) }
{
    match units {
        [high @ 0xd800..=0xdbff, low @ 0xdc00..=0xdfff, ..] => {
            char::from_u32(
                0x1_0000 + (u32::from(*high) - 0xd800) * 0x400 + (u32::from(*low) - 0xdc00),
            )
        }
        _ => None,
    }
}

/// Appends a unit's escape, `\uXXXX` with four hexadecimal digits.
///
/// # Errors
///
/// `OutOfMemory` where memory ran out. Then a beginning of the escape is appended.
pub fn write_escape(unit: u16, text: &mut String) -> Result<(), OutOfMemory>
    ensures ok { OnOk result (string_bytes text.new ≡ string_bytes text.old ++ encode_utf8_all (escape unit)) }
    ensures err { OnErr result (AppendsPart (string_bytes text.old) (string_bytes text.new) (encode_utf8_all (escape unit))) }
{
    push_ascii(text, &escape_bytes(unit))
}

/// Appends a unit in no pair.
fn write_unit(unit: u16, text: &mut String) -> Result<(), OutOfMemory>
    ensures ok { OnOk result (string_bytes text.new ≡ string_bytes text.old ++ encode_utf8_all (shown_unit unit)) }
    ensures err { OnErr result (AppendsPart (string_bytes text.old) (string_bytes text.new) (encode_utf8_all (shown_unit unit))) }
{
    match plain_char(unit) {
        Some(character) => text.push(character),
        None => write_escape(unit, text),
    }
}

/// Appends the first shown part, a pair or one unit, and says how many units it takes.
fn write_front(units: &[u16], text: &mut String) -> Result<usize, OutOfMemory>
    requires { 0 < length units.now }
    ensures count { IfOk result (λ n. n ≡ front_len units.now) }
    ensures fits { IfOk result (λ n. n ≤ length units.now) }
    ensures ok { OnOk result (string_bytes text.new ≡ string_bytes text.old ++ encode_utf8_all (front_chars units.now)) }
    ensures err { OnErr result (AppendsPart (string_bytes text.old) (string_bytes text.new) (encode_utf8_all (front_chars units.now))) }
{
    match paired_char(units) {
        Some(character) => {
            text.push(character)?;
            Ok(2)
        }
        None => {
            write_unit(units[0], text)?;
            Ok(1)
        }
    }
}

/// How many characters go out at once.
pub const PIECE: usize = 64;

/// The byte of a unit that is written unchanged, as one byte, or `None` for any other unit.
fn plain_byte(unit: u16) -> Option<u8>
    ensures { SomeIff result ((must_escape unit ≡ false) × (unit < 128)) unit }
{
    match unit {
        0x20..=0x2e | 0x30..=0x5b | 0x5d..=0x7e => Some(unit as u8),
        _ => None,
    }
}

/// Copies the units at the beginning that are written unchanged, as one byte each, as many as there is room for, and returns how many.
pub(crate) fn take_plain(units: &[u16], piece: &mut [u8; PIECE]) -> usize
    ensures room { result ≤ 64 }
    ensures fits { result ≤ length units.now }
    ensures plain { (k : ℕ) → k < result → (must_escape (slice_index units.now k) ≡ false) × (slice_index units.now k < 128) }
    ensures bytes { take result piece.new ≡ take result units.now }
{
    let mut count = 0;
    while count < PIECE && count < units.len() {
        let Some(byte) = plain_byte(units[count]) else {
            break;
        };
        piece[count] = byte;
        count += 1;
    }
    count
}

/// Appends some units from the beginning, and returns how many: those that are written unchanged, as one byte each, or else the first shown part.
fn write_part(units: &[u16], text: &mut String) -> Result<usize, OutOfMemory>
    requires { 0 < length units.now }
    ensures some { IfOk result (λ n. 0 < n) }
    ensures fits { IfOk result (λ n. n ≤ length units.now) }
    ensures ok { IfOk result (λ n. (part : List ℕ) × (encode_utf8_all (shown units.now) ≡ part ++ encode_utf8_all (shown (drop n units.now)))
        × (string_bytes text.new ≡ string_bytes text.old ++ part)) }
    ensures err { OnErr result (AppendsPart (string_bytes text.old) (string_bytes text.new) (encode_utf8_all (shown units.now))) }
{
    let mut piece = [0; PIECE];
    let count = take_plain(units, &mut piece);
    if count == 0 {
        return write_front(units, text);
    }
    push_ascii(text, &piece[..count])?;
    Ok(count)
}

/// Whether a name of these units is `.` or `..`.
pub fn is_dots(units: &[u16]) -> bool
    ensures { result ≡ is_dots units.now }
{
    units.len() < 3 && units.iter().all(|unit| *unit == 0x2e)
}

/// Appends the units, pairs joined.
pub(crate) fn write_units(units: &[u16], text: &mut String) -> Result<(), OutOfMemory>
    ensures ok { OnOk result (string_bytes text.new ≡ string_bytes text.old ++ encode_utf8_all (shown units.now)) }
    ensures err { OnErr result (AppendsPart (string_bytes text.old) (string_bytes text.new) (encode_utf8_all (shown units.now))) }
{
    let mut rest = units;
    while !rest.is_empty() {
        let count = write_part(rest, text)?;
        let (_, others) = rest.split_at(count);
        rest = others;
    }
    Ok(())
}

/// Appends the escapes of all units.
///
/// # Errors
///
/// `OutOfMemory` where memory ran out. Then a beginning of the text is appended.
pub fn write_escapes(units: &[u16], text: &mut String) -> Result<(), OutOfMemory>
    ensures ok { OnOk result (string_bytes text.new ≡ string_bytes text.old ++ encode_utf8_all (flat_map escape units.now)) }
    ensures err { OnErr result (AppendsPart (string_bytes text.old) (string_bytes text.new) (encode_utf8_all (flat_map escape units.now))) }
{
    for unit in units {
        write_escape(*unit, text)?;
    }
    Ok(())
}

/// The escaped form of every name that can be read from bytes is a valid part of a path, whatever the bytes are. This is a law
/// about the form; the call does nothing.
pub fn escaped_name_is_path_part()
    ensures { (bytes units : List ℕ) → units_of bytes ≡ Ok units → IsPathPart (escaped units) }
{}

/// The escaped form of a name is a valid part of a path: it is not empty, not `.` or `..`, and has no `/`, no byte below
/// 20 hexadecimal and so no zero byte. This is a law about the form; the call does nothing.
pub fn escaped_is_path_part()
    ensures { (units : List ℕ) → 0 < length units → IsPathPart (escaped units) }
{}

/// Two names with one escaped form have the same units, so that two files of a directory never fall together. This is a
/// law about the form; the call does nothing.
pub fn escaped_tells_units()
    ensures { (first second : List ℕ) → AreUnits first → AreUnits second → escaped first ≡ escaped second → first ≡ second }
{}
