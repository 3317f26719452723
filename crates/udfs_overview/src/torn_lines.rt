//! The lines of torn files. Each function appends to a text; if memory runs out, a part may be appended.

ghost use Rattle.std.specs.Prelude.{◌≡◌, ◌++◌, IfOk, OnOk, flat_map, codes};
ghost use Rattle.std.specs.String.{string_bytes};
ghost use Rattle.udfs_overview.specs.TornLists.{cell, column_width, filling, later_line, left_cell, loss_cell, loss_text, more_line, right_cell, row_line, rows_text, spaces, text_width};

use crate::figures::{push_grouped, push_percent, push_size};
use crate::narrow::push_narrow;
use crate::torn_rows::TornRow;
use std::alloc::Global;
use udfs_osta::OutOfMemory;
use unicode_width::UnicodeWidthStr;

/// The columns of the lines of torn files.
#[derive(Clone, Copy, Debug, PartialEq, Eq)]
pub(crate) enum Column {
    /// How much of the file is lost, in hundredths.
    Percent,
    /// The path.
    Path,
    /// How many bytes are lost.
    Lost,
    /// How many bytes the file has.
    Size,
}

/// How much of a file is lost, in hundredths: `-` of a file without bytes, `disputed` where nothing is missing but blocks in conflict.
#[tactic(auto, unfolding(crate::specs::TornLists::loss_cell))]
fn push_loss_cell(text: &mut String, row: &TornRow) -> Result<(), OutOfMemory>
    ensures { OnOk result (string_bytes text.new ≡ string_bytes text.old ++ loss_cell row.now) }
{
    if row.disputed {
        return text.push_str("disputed");
    }
    if row.size == 0 {
        return text.push_str("-");
    }
    push_percent(row.lost, u128::from(row.size), text)
}

/// The text of a cell. A path takes at most 29 columns.
#[tactic(auto, unfolding(crate::specs::TornLists::cell))]
fn push_cell(
    alloc: Global,
    text: &mut String,
    column: Column,
    row: &TornRow,
) -> Result<(), OutOfMemory>
    ensures { OnOk result (string_bytes text.new ≡ string_bytes text.old ++ cell column row.now) }
{
    match column {
        Column::Percent => push_loss_cell(text, row),
        Column::Path => push_narrow(alloc, text, 13, &row.path),
        Column::Lost => push_size(row.lost, text),
        Column::Size => push_size(u128::from(row.size), text),
    }
}

/// How many columns of a terminal a cell takes.
fn cell_width(alloc: Global, column: Column, row: &TornRow) -> Result<usize, OutOfMemory>
    ensures { IfOk result (λ width. width ≡ text_width (cell column row.now)) }
{
    let mut text = String::new(alloc);
    push_cell(alloc, &mut text, column, row)?;
    Ok(text.as_str().width())
}

/// The width of the widest cell of a column.
#[tactic(auto, using(crate::proofs::TornOrder::width_more), unfolding(crate::specs::TornLists::column_width))]
fn column_width(alloc: Global, column: Column, rows: &[TornRow]) -> Result<usize, OutOfMemory>
    ensures { IfOk result (λ width. width ≡ column_width column rows.now) }
{
    let mut widest = 0;
    for row in rows {
        let width = cell_width(alloc, column, row)?;
        widest = widest.max(width);
    }
    Ok(widest)
}

/// Appends `count` spaces.
#[tactic(auto, using(crate::proofs::TornOrder::spaces_more))]
fn push_spaces(text: &mut String, count: usize) -> Result<(), OutOfMemory>
    ensures { OnOk result (string_bytes text.new ≡ string_bytes text.old ++ spaces count) }
{
    for _ in 0..count {
        text.push(' ')?;
    }
    Ok(())
}

/// What fills a cell up to the width of its column.
fn push_filling(
    alloc: Global,
    text: &mut String,
    column: Column,
    rows: &[TornRow],
    row: &TornRow,
) -> Result<(), OutOfMemory>
    ensures { OnOk result (string_bytes text.new ≡ string_bytes text.old ++ filling column rows.now row.now) }
{
    let widest = column_width(alloc, column, rows)?;
    let width = cell_width(alloc, column, row)?;
    push_spaces(text, widest.saturating_sub(width))
}

/// A cell at the right edge of its column.
#[tactic(auto, unfolding(crate::specs::TornLists::right_cell))]
fn push_right(
    alloc: Global,
    text: &mut String,
    column: Column,
    rows: &[TornRow],
    row: &TornRow,
) -> Result<(), OutOfMemory>
    ensures { OnOk result (string_bytes text.new ≡ string_bytes text.old ++ right_cell column rows.now row.now) }
{
    push_filling(alloc, text, column, rows, row)?;
    push_cell(alloc, text, column, row)
}

/// A cell at the left edge of its column.
#[tactic(auto, unfolding(crate::specs::TornLists::left_cell))]
fn push_left(
    alloc: Global,
    text: &mut String,
    column: Column,
    rows: &[TornRow],
    row: &TornRow,
) -> Result<(), OutOfMemory>
    ensures { OnOk result (string_bytes text.new ≡ string_bytes text.old ++ left_cell column rows.now row.now) }
{
    push_cell(alloc, text, column, row)?;
    push_filling(alloc, text, column, rows, row)
}

/// How many bytes of a file are lost, and of how many; of one that is disputed, how many differ.
fn push_loss(
    alloc: Global,
    text: &mut String,
    rows: &[TornRow],
    row: &TornRow,
) -> Result<(), OutOfMemory>
    ensures { OnOk result (string_bytes text.new ≡ string_bytes text.old ++ loss_text rows.now row.now) }
{
    push_right(alloc, text, Column::Lost, rows, row)?;
    text.push_str(" of ")?;
    push_right(alloc, text, Column::Size, rows, row)?;
    text.push_str(if row.disputed { " differ\n" } else { " lost\n" })
}

/// The line of a torn file, among the rows that are shown.
#[tactic(auto, unfolding(crate::specs::TornLists::row_line))]
fn push_row(
    alloc: Global,
    text: &mut String,
    rows: &[TornRow],
    row: &TornRow,
) -> Result<(), OutOfMemory>
    ensures { OnOk result (string_bytes text.new ≡ string_bytes text.old ++ row_line rows.now row.now) }
{
    push_right(alloc, text, Column::Percent, rows, row)?;
    text.push_str("  ")?;
    push_left(alloc, text, Column::Path, rows, row)?;
    text.push_str("   ")?;
    push_loss(alloc, text, rows, row)
}

/// The line of a torn file after the first.
fn push_later(
    alloc: Global,
    text: &mut String,
    rows: &[TornRow],
    row: &TornRow,
) -> Result<(), OutOfMemory>
    ensures { OnOk result (string_bytes text.new ≡ string_bytes text.old ++ later_line rows.now row.now) }
{
    text.push_str("           ")?;
    push_row(alloc, text, rows, row)
}

/// The lines of the torn files after the first.
fn push_all_later(
    alloc: Global,
    text: &mut String,
    rows: &[TornRow],
    others: &[TornRow],
) -> Result<(), OutOfMemory>
    ensures { OnOk result (string_bytes text.new ≡ string_bytes text.old ++ flat_map (later_line rows.now) others.now) }
{
    for row in others {
        push_later(alloc, text, rows, row)?;
    }
    Ok(())
}

/// The lines of the torn files that are shown.
fn push_rows(alloc: Global, text: &mut String, rows: &[TornRow]) -> Result<(), OutOfMemory>
    ensures { OnOk result (string_bytes text.new ≡ string_bytes text.old ++ rows_text rows.now rows.now) }
{
    match rows {
        [] => Ok(()),
        [first, others @ ..] => {
            text.push_str("Torn       ")?;
            push_row(alloc, text, rows, first)?;
            push_all_later(alloc, text, rows, others)
        }
    }
}

/// How many torn files are not shown.
pub(crate) fn push_more(text: &mut String, more: usize) -> Result<(), OutOfMemory>
    ensures { OnOk result (string_bytes text.new ≡ string_bytes text.old ++ more_line more) }
{
    if more == 0 {
        return Ok(());
    }
    text.push_str("           and ")?;
    push_grouped(more as u128, text)?;
    text.push_str(" more\n")
}

/// Appends the lines of torn files: those that are shown, and how many more there are.
///
/// # Errors
///
/// If memory runs out. Then a part may be appended.
pub(crate) fn push_torn(
    alloc: Global,
    text: &mut String,
    rows: &[TornRow],
    more: usize,
) -> Result<(), OutOfMemory>
    ensures { OnOk result (string_bytes text.new ≡ string_bytes text.old ++ (rows_text rows.now rows.now ++ more_line more)) }
{
    push_rows(alloc, text, rows)?;
    push_more(text, more)
}
