//! The torn files of which most is lost. Each function appends to a text; if memory runs out, a part may be appended.

ghost use Rattle.std.specs.Prelude.{◌≡◌, ◌++◌, OnOk, flat_map};
ghost use Rattle.std.specs.String.{string_bytes};
ghost use Rattle.udfs_page.specs.TornTables.{last_cell, lost_part, more_html, more_line, row_html, some_html, table_html, torn_html};

use crate::markups::{push_markup, push_shown};
use udfs_osta::OutOfMemory;
use udfs_overview::{TornRow, push_grouped, push_percent, push_size};

/// How much of a file is lost, if it is not disputed.
fn push_lost_part(text: &mut String, row: &TornRow) -> Result<(), OutOfMemory>
    ensures { OnOk result (string_bytes text.new ≡ string_bytes text.old ++ lost_part row.now) }
{
    if row.disputed {
        return push_markup(text, "disputed");
    }
    if row.size == 0 {
        return push_markup(text, "-");
    }
    push_percent(row.lost, row.size as u128, text)
}

/// The end of the row of a file: how many bytes it has.
fn push_last_cell(text: &mut String, row: &TornRow) -> Result<(), OutOfMemory>
    ensures { OnOk result (string_bytes text.new ≡ string_bytes text.old ++ last_cell row.now) }
{
    push_size(row.size as u128, text)?;
    push_markup(text, "\n")
}

/// The row of a file.
#[tactic(auto, unfolding(crate::specs::TornTables::row_html))]
fn push_row(text: &mut String, row: &TornRow) -> Result<(), OutOfMemory>
    ensures { OnOk result (string_bytes text.new ≡ string_bytes text.old ++ row_html row.now) }
{
    push_markup(text, "<tr><td>")?;
    push_shown(text, &row.path)?;
    push_markup(text, "<td>")?;
    push_lost_part(text, row)?;
    push_markup(text, "<td>")?;
    push_size(row.lost, text)?;
    push_markup(text, "<td>")?;
    push_last_cell(text, row)
}

/// The rows of files.
fn push_rows(text: &mut String, rows: &[TornRow]) -> Result<(), OutOfMemory>
    ensures { OnOk result (string_bytes text.new ≡ string_bytes text.old ++ flat_map row_html rows.now) }
{
    for row in rows {
        push_row(text, row)?;
    }
    Ok(())
}

/// That `more` files are not shown.
fn push_more_line(text: &mut String, more: usize) -> Result<(), OutOfMemory>
    ensures { OnOk result (string_bytes text.new ≡ string_bytes text.old ++ more_line more) }
{
    push_markup(text, "<p>And ")?;
    push_grouped(more as u128, text)?;
    push_markup(text, " more, each in the list of all files.</p>\n")
}

/// How many of `count` files are not shown, where `shown` are; nothing where all are.
pub(crate) fn push_more(text: &mut String, count: usize, shown: usize) -> Result<(), OutOfMemory>
    ensures { OnOk result (string_bytes text.new ≡ string_bytes text.old ++ more_html count shown) }
{
    if count <= shown {
        return Ok(());
    }
    push_more_line(text, count - shown)
}

/// The table of these files.
fn push_table(text: &mut String, rows: &[TornRow]) -> Result<(), OutOfMemory>
    ensures { OnOk result (string_bytes text.new ≡ string_bytes text.old ++ table_html rows.now) }
{
    push_markup(
        text,
        "<h2>Torn files, most lost first</h2>\n<table>\n<tr><th>File<th>Lost<th>Bytes<th>Of\n",
    )?;
    push_rows(text, rows)?;
    push_markup(text, "</table>\n")
}

/// The table of these rows of `count` torn files, and how many more files there are.
fn push_some(text: &mut String, count: usize, rows: &[TornRow]) -> Result<(), OutOfMemory>
    ensures { OnOk result (string_bytes text.new ≡ string_bytes text.old ++ some_html count rows.now) }
{
    push_table(text, rows)?;
    push_more(text, count, rows.len())
}

/// The table of these rows of `count` torn files, and how many more there are; nothing where there is no row.
pub(crate) fn push_torn(
    text: &mut String,
    count: usize,
    rows: &[TornRow],
) -> Result<(), OutOfMemory>
    ensures { OnOk result (string_bytes text.new ≡ string_bytes text.old ++ torn_html count rows.now) }
{
    match rows {
        [] => Ok(()),
        _ => push_some(text, count, rows),
    }
}
