//! The entries that were not read, by name. Each function appends to a text; if memory runs out, a part may be appended.

ghost use Rattle.std.specs.Prelude.{◌≡◌, ◌++◌, OnOk, flat_map, map, take};
ghost use Rattle.std.specs.String.{string_bytes};
ghost use Rattle.udfs_overview.specs.TornLists.{shown_rows};
ghost use Rattle.udfs_page.specs.UnreadTables.{unread_html, unread_item, unread_items};

use crate::markups::push_markup;
use crate::overviews::push_path;
use crate::torn_tables::push_more;
use std::alloc::Global;
use udfs_osta::OutOfMemory;
use udfs_walk::Path;

/// How many are shown.
const SHOWN: usize = 20;

/// One of them.
#[tactic(auto, unfolding(crate::specs::UnreadTables::unread_item))]
fn push_item(alloc: Global, text: &mut String, path: &Path) -> Result<(), OutOfMemory>
    ensures { OnOk result (string_bytes text.new ≡ string_bytes text.old ++ unread_item path.now) }
{
    push_markup(text, "<li>")?;
    push_path(alloc, text, path)?;
    push_markup(text, "\n")
}

/// These, each an item.
fn push_each(alloc: Global, text: &mut String, paths: &[&Path]) -> Result<(), OutOfMemory>
    ensures { OnOk result (string_bytes text.new ≡ string_bytes text.old ++ flat_map unread_item (map (λ path. path.now) paths.now)) }
{
    for path in paths {
        push_item(alloc, text, path)?;
    }
    Ok(())
}

/// Those that are shown.
#[tactic(auto, using(std::proofs::lemmas::List::take_all))]
fn shown<'a, 'b>(paths: &'b [&'a Path]) -> &'b [&'a Path]
    ensures { result.now ≡ take shown_rows paths.now }
{
    if paths.len() <= SHOWN {
        return paths;
    }
    let (front, _) = paths.split_at(SHOWN);
    front
}

/// The list of those that are shown.
#[tactic(auto, unfolding(crate::specs::UnreadTables::unread_items))]
fn push_items(alloc: Global, text: &mut String, paths: &[&Path]) -> Result<(), OutOfMemory>
    ensures { OnOk result (string_bytes text.new ≡ string_bytes text.old ++ unread_items (map (λ path. path.now) paths.now)) }
{
    push_markup(
        text,
        "<h2>Not yet looked at</h2>\n<p>Each is a file or a whole folder, of unknown size.</p>\n<ul>\n",
    )?;
    push_each(alloc, text, shown(paths))?;
    push_markup(text, "</ul>\n")
}

/// The list of the first twenty, and how many more there are; nothing where there are none.
#[tactic(auto, unfolding(crate::specs::UnreadTables::unread_html))]
pub(crate) fn push_unread(
    alloc: Global,
    text: &mut String,
    paths: &[&Path],
) -> Result<(), OutOfMemory>
    ensures { OnOk result (string_bytes text.new ≡ string_bytes text.old ++ unread_html (map (λ path. path.now) paths.now)) }
{
    if paths.is_empty() {
        return Ok(());
    }
    push_items(alloc, text, paths)?;
    push_more(text, paths.len(), SHOWN)
}
