//! The escaped form of a name in pieces, for which no memory is asked.

ghost use Rattle.std.specs.Prelude.{◌≡◌, ℕ, ◌<◌, ◌≤◌, ◌++◌, [], ◌∷◌, length, drop, take};
ghost use Rattle.std.specs.Str.{encode_utf8_all};
ghost use Rattle.udfs_osta.specs.Escapes.{escape, shown, shown_unit};
ghost use Rattle.udfs_osta.specs.Fronts.{front_len, front_chars};

use crate::escapes::{PIECE, escape_bytes, paired_char, plain_char, take_plain};
use std::marker::Model;

/// Writes the character to the front of the piece, and says how many bytes it has.
fn take_char(character: char, piece: &mut [u8; PIECE]) -> usize
    ensures some { 0 < result }
    ensures room { result ≤ 64 }
    ensures bytes { take result piece.new ≡ encode_utf8_all (character ∷ []) }
{
    let mut bytes = [0; 4];
    let encoded = character.encode_utf8(&mut bytes).as_bytes();
    let count = encoded.len();
    piece[..count].copy_from_slice(encoded);
    count
}

/// Writes the escape of a unit to the front of the piece, and says how many bytes it has.
fn take_escape(unit: u16, piece: &mut [u8; PIECE]) -> usize
    ensures some { 0 < result }
    ensures room { result ≤ 64 }
    ensures bytes { take result piece.new ≡ encode_utf8_all (escape unit) }
{
    let escape = escape_bytes(unit);
    piece[..escape.len()].copy_from_slice(&escape);
    escape.len()
}

/// Writes a unit in no pair to the front of the piece, and says how many bytes it has.
fn take_unit(unit: u16, piece: &mut [u8; PIECE]) -> usize
    ensures some { 0 < result }
    ensures room { result ≤ 64 }
    ensures bytes { take result piece.new ≡ encode_utf8_all (shown_unit unit) }
{
    match plain_char(unit) {
        Some(character) => take_char(character, piece),
        None => take_escape(unit, piece),
    }
}

/// How many units were taken, and how many bytes they have.
#[derive(Clone, Copy)]
struct Taken {
    units: usize,
    bytes: usize,
}

/// Takes the first shown part, a pair or one unit.
fn take_front(units: &[u16], piece: &mut [u8; PIECE]) -> Taken
    requires { 0 < length units.now }
    ensures some { 0 < result.bytes }
    ensures room { result.bytes ≤ 64 }
    ensures fits { result.units ≤ length units.now }
    ensures count { result.units ≡ front_len units.now }
    ensures bytes { take result.bytes piece.new ≡ encode_utf8_all (front_chars units.now) }
{
    match paired_char(units) {
        Some(character) => Taken {
            units: 2,
            bytes: take_char(character, piece),
        },
        None => Taken {
            units: 1,
            bytes: take_unit(units[0], piece),
        },
    }
}

/// Takes units from the beginning: those that are written unchanged, as one byte each, or else the first shown part.
fn take_part(units: &[u16], piece: &mut [u8; PIECE]) -> Taken
    requires { 0 < length units.now }
    ensures some { 0 < result.bytes }
    ensures room { result.bytes ≤ 64 }
    ensures fits { result.units ≤ length units.now }
    ensures bytes { encode_utf8_all (shown units.now) ≡ take result.bytes piece.new ++ encode_utf8_all (shown (drop result.units units.now)) }
{
    let count = take_plain(units, piece);
    if count == 0 {
        return take_front(units, piece);
    }
    Taken {
        units: count,
        bytes: count,
    }
}

/// What is left of the escaped form of a name. To contracts it is the bytes that are left.
#[derive(Drop)]
pub struct EscapedBytes<'a> {
    rest: &'a [u16],
    dots: bool,
}

impl<'a> Model for EscapedBytes<'a> {
    ghost use Rattle.std.specs.Prelude.{List, ℕ, if◌then◌else◌};
    ghost use Rattle.std.specs.List.{flat_map};
    ghost use Rattle.std.specs.Str.{encode_utf8_all};
    ghost use Rattle.udfs_osta.specs.Escapes.{escape, shown};

    ghost Value = { List ℕ };

    ghost view = { λ e. encode_utf8_all (if e.dots then flat_map escape e.rest.now else shown e.rest.now) };
}

impl<'a> EscapedBytes<'a> {
    ghost use Rattle.std.specs.Prelude.{if◌then◌else◌};
    ghost use Rattle.std.specs.List.{flat_map};

    /// The bytes of these units, each of which is escaped where `dots` says so.
    pub(crate) fn new(rest: &'a [u16], dots: bool) -> Self
        ensures { result ≡ encode_utf8_all (if dots then flat_map escape rest.now else shown rest.now) }
    {
        EscapedBytes { rest, dots }
    }

    /// Writes the next bytes to the front of the piece, and says how many: 0 only where none are left. It takes no memory.
    pub fn next_piece(&mut self, piece: &mut [u8; PIECE]) -> usize
        ensures bytes { self.old ≡ take result piece.new ++ self.new }
        ensures room { result ≤ 64 }
        ensures end { result ≡ 0 → self.old ≡ [] }
    {
        let units = self.rest;
        if units.is_empty() {
            return 0;
        }
        let taken = if self.dots {
            Taken {
                units: 1,
                bytes: take_escape(units[0], piece),
            }
        } else {
            take_part(units, piece)
        };
        self.rest = &units[taken.units..];
        taken.bytes
    }
}
