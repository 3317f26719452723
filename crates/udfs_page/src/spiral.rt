//! The disc as a spiral of 24 turns from 24 to 58 mm. All lengths are whole numbers, and an arc is turned to its place by the browser.

ghost use Rattle.std.specs.Prelude.{◌≡◌, ◌+◌, ◌*◌, ◌/◌, ◌^◌, ◌<◌, ◌≤◌, ◌++◌, ℕ, OnOk, flat_map, get_or, length};
ghost use Rattle.std.specs.List.{range_with_len};
ghost use Rattle.std.specs.String.{string_bytes};
ghost use Rattle.udfs_page.specs.Arcs.{first_block};
ghost use Rattle.udfs_page.specs.Markups.{figure, markup};
ghost use Rattle.udfs_page.specs.Spirals.{IsInArc, IsRoot, arc_text, blocks_text, bow, curve_from, curve_text, degrees, half_length, hundredths, inner_square, mark_class, placed_text, radius, root, spiral_text, title_end, title_text};

use crate::disc_arcs::{Mark, first_block};
use crate::markups::{push_figure, push_markup};
use udfs_osta::OutOfMemory;

/// The square of the inner radius, in ten-thousandths of a millimetre.
const INNER_SQUARE: u64 = 57_600_000_000;

/// By how much the square of the outer radius is more.
const SQUARES_BETWEEN: u64 = 278_800_000_000;

/// The square root, rounded down.
#[tactic(auto, using(crate::proofs::Roots::root_is, crate::proofs::Roots::root_least))]
fn root(number: u64) -> u64
    ensures value { result ≡ root number }
    ensures least { inner_square ≤ number → 240000 ≤ result }
    ensures most { result < 2 ^ 32 }
{
    number.isqrt()
}

/// The radius of the middle of an arc, in ten-thousandths of a millimetre.
#[tactic(auto, unfolding(crate::specs::Spirals::radius))]
fn radius(count: u64, index: u64) -> u64
    requires some { 0 < count }
    requires few { count ≤ 2000 }
    requires index { index < count }
    ensures value { result ≡ radius count index }
    ensures least { 240000 ≤ result }
    ensures most { result < 2 ^ 32 }
{
    root(INNER_SQUARE + SQUARES_BETWEEN * (2 * index + 1) / (2 * count))
}

/// A number of hundredths.
fn push_hundredths(text: &mut String, number: u64) -> Result<(), OutOfMemory>
    ensures { OnOk result (string_bytes text.new ≡ string_bytes text.old ++ hundredths number) }
{
    push_figure(text, (number / 100) as u128)?;
    push_markup(text, ".")?;
    push_figure(text, (number / 10 % 10) as u128)?;
    push_figure(text, (number % 10) as u128)
}

/// A curve that begins at this place, of this half length, and bent by so much.
fn push_curve_from(text: &mut String, start: u64, half: u64, bent: u64) -> Result<(), OutOfMemory>
    requires half { half ≤ 309132 }
    ensures { OnOk result (string_bytes text.new ≡ string_bytes text.old ++ curve_from start half bent) }
{
    push_markup(text, " d='M")?;
    push_figure(text, start as u128)?;
    push_markup(text, "-")?;
    push_figure(text, half as u128)?;
    push_markup(text, "q")?;
    push_figure(text, bent as u128)?;
    push_markup(text, " ")?;
    push_figure(text, half as u128)?;
    push_markup(text, " 0 ")?;
    push_figure(text, (2 * half) as u128)?;
    push_markup(text, "'")
}

/// A curve at this radius and of this half length, both in hundredths of a millimetre.
fn push_curve(text: &mut String, radius: u64, half: u64) -> Result<(), OutOfMemory>
    requires some { 0 < radius }
    requires few { radius < 2 ^ 32 }
    requires half { half ≤ 309132 }
    ensures { OnOk result (string_bytes text.new ≡ string_bytes text.old ++ curve_text radius half) }
{
    let bow = half * half / (2 * radius);
    push_curve_from(text, radius.saturating_sub(bow), half, 2 * bow)
}

/// The curve of an arc at this radius, in ten-thousandths of a millimetre, turned to its place.
fn push_placed(text: &mut String, count: u64, radius: u64) -> Result<(), OutOfMemory>
    requires some { 0 < count }
    requires least { 240000 ≤ radius }
    requires most { radius < 2 ^ 32 }
    ensures { OnOk result (string_bytes text.new ≡ string_bytes text.old ++ placed_text count radius) }
{
    push_curve(text, radius / 100, 309_132 / count)?;
    push_markup(text, " transform='rotate(")?;
    push_hundredths(text, (radius - 240_000) * 864_000 / 340_000 % 36_000)?;
    push_markup(text, ")'>")
}

/// What a mark means, and the end of the title that says so.
fn push_title_end(text: &mut String, mark: Mark) -> Result<(), OutOfMemory>
    ensures { OnOk result (string_bytes text.new ≡ string_bytes text.old ++ markup (title_end mark)) }
{
    match mark {
        Mark::Known => push_markup(text, ": known</title></path>\n"),
        Mark::NotKnown => push_markup(text, ": not known, and not needed</title></path>\n"),
        Mark::Needed => push_markup(text, ": needed</title></path>\n"),
        Mark::InConflict => push_markup(text, ": in conflict</title></path>\n"),
    }
}

/// The first and the last block of an arc, and what its mark means.
fn push_title(text: &mut String, mark: Mark, first: u64, last: u64) -> Result<(), OutOfMemory>
    ensures { OnOk result (string_bytes text.new ≡ string_bytes text.old ++ title_text mark first last) }
{
    push_markup(text, "<title>blocks ")?;
    push_figure(text, first as u128)?;
    push_markup(text, " to ")?;
    push_figure(text, last as u128)?;
    push_title_end(text, mark)
}

/// The blocks of an arc with this mark.
fn push_blocks(
    text: &mut String,
    count: usize,
    blocks: u64,
    index: usize,
    mark: Mark,
) -> Result<(), OutOfMemory>
    requires some { 0 < count }
    requires few { count ≤ 2000 }
    requires index { index < count }
    requires blocks { blocks ≤ 2 ^ 32 }
    ensures { OnOk result (string_bytes text.new ≡ string_bytes text.old ++ blocks_text count blocks index mark) }
{
    let first = first_block(count, blocks, index);
    let next = first_block(count, blocks, index + 1);
    push_title(text, mark, first, next.saturating_sub(1))
}

/// The class of a mark.
fn push_class(text: &mut String, mark: Mark) -> Result<(), OutOfMemory>
    ensures { OnOk result (string_bytes text.new ≡ string_bytes text.old ++ markup (mark_class mark)) }
{
    match mark {
        Mark::Known => push_markup(text, "k"),
        Mark::NotKnown => push_markup(text, "n"),
        Mark::Needed => push_markup(text, "m"),
        Mark::InConflict => push_markup(text, "c"),
    }
}

/// The curve of an arc, turned to its place.
fn push_turned(text: &mut String, count: u64, index: u64) -> Result<(), OutOfMemory>
    requires some { 0 < count }
    requires few { count ≤ 2000 }
    requires index { index < count }
    ensures { OnOk result (string_bytes text.new ≡ string_bytes text.old ++ placed_text count (radius count index)) }
{
    push_placed(text, count, radius(count, index))
}

/// The picture of an arc.
#[tactic(auto, unfolding(crate::specs::Spirals::arc_text))]
fn push_arc(
    text: &mut String,
    count: usize,
    blocks: u64,
    index: usize,
    mark: Mark,
) -> Result<(), OutOfMemory>
    requires some { 0 < count }
    requires few { count ≤ 2000 }
    requires index { index < count }
    requires blocks { blocks ≤ 2 ^ 32 }
    ensures { OnOk result (string_bytes text.new ≡ string_bytes text.old ++ arc_text count blocks index mark) }
{
    push_markup(text, "<path class=")?;
    push_class(text, mark)?;
    push_turned(text, count as u64, index as u64)?;
    push_blocks(text, count, blocks, index, mark)
}

/// The picture of all arcs of a disc with `blocks` blocks.
pub(crate) fn push_spiral(text: &mut String, marks: &[Mark], blocks: u64) -> Result<(), OutOfMemory>
    requires few { length marks.now ≤ 2000 }
    requires blocks { blocks ≤ 2 ^ 32 }
    ensures { OnOk result (string_bytes text.new ≡ string_bytes text.old ++ spiral_text marks.now blocks) }
{
    let count = marks.len();
    for index in 0..count {
        push_arc(text, count, blocks, index, marks[index])?;
    }
    Ok(())
}

/// The root of a number is the one whose square is at most the number while the next square is more. This is a law about the root; the
/// call does nothing.
pub fn roots_are_square_roots()
    ensures { (n : ℕ) → IsRoot n (root n) }
{}

/// The arcs partition the blocks: each block is at or after the first block of its arc, and before that of the next arc. This is a law about
/// arcs; the call does nothing.
pub fn arcs_part_the_blocks()
    ensures { (count blocks n : ℕ) → 0 < count → 0 < blocks → IsInArc count blocks n }
{}
