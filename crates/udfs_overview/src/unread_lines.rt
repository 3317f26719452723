//! The entries that were not read, by name. Each function that appends to a text may have appended a part if memory runs out.

ghost use Rattle.std.specs.Prelude.{◌≡◌, ◌++◌, IfOk, OnOk, flat_map, map, option_map, take};
ghost use Rattle.std.specs.String.{string_bytes};
ghost use Rattle.udfs_salvage.specs.Surveys.{survey_by};
ghost use Rattle.udfs_overview.specs.TornLists.{shown_rows};
ghost use Rattle.udfs_overview.specs.UnreadLists.{path_line, unread_head, unread_path, unread_paths, unread_rows, unread_text};

use crate::sentences::{by_number, push_counted};
use crate::tallies::NodeSort;
use crate::torn_lines::push_more;
use crate::torn_rows::{SHOWN, push_narrow_path};
use std::alloc::Global;
use udfs_lattice::BlockStore;
use udfs_osta::OutOfMemory;
use udfs_salvage::Survey;
use udfs_walk::{Node, Path};

/// The path of a node that was not read.
fn unread_path(node: &Node) -> Option<&Path>
    ensures { option_map (λ path. path.now) result ≡ unread_path node.now }
{
    if NodeSort::Unread.has(&node.standing, node.kind) {
        Some(&node.path)
    } else {
        None
    }
}

/// The paths of the nodes that were not read, in their order.
#[tactic(auto, unfolding(crate::specs::UnreadLists::unread_paths))]
fn unread_paths<'a>(alloc: Global, nodes: &'a [Node]) -> Result<Vec<&'a Path>, OutOfMemory>
    ensures { IfOk result (λ paths. map (λ path. path.now) paths.items ≡ unread_paths nodes.now) }
{
    let mut paths = Vec::new(alloc);
    for node in nodes {
        if let Some(path) = unread_path(node) {
            paths.push(path)?;
        }
    }
    Ok(paths)
}

/// The paths of the nodes of a survey that were not read, in their order.
///
/// # Errors
///
/// If memory runs out.
#[tactic(auto, using(crate::proofs::UnreadNodes::unread_full))]
pub fn unread_in<'a, B: BlockStore>(
    alloc: Global,
    survey: &'a Survey<'_, B>,
) -> Result<Vec<&'a Path>, OutOfMemory>
    ensures { IfOk result (λ paths. map (λ path. path.now) paths.items ≡ unread_paths (survey_by B.states survey.now).nodes) }
{
    unread_paths(alloc, &survey.nodes)
}

/// How many there are.
#[tactic(auto, unfolding(crate::specs::UnreadLists::unread_head))]
fn push_head(text: &mut String, count: u64) -> Result<(), OutOfMemory>
    ensures { OnOk result (string_bytes text.new ≡ string_bytes text.old ++ unread_head count) }
{
    text.push_str("Unread     ")?;
    let words = by_number(
        count,
        " entry, a file or a whole folder of unknown size:\n",
        " entries, each a file or a whole folder of unknown size:\n",
    );
    push_counted(text, count, words)
}

/// The line of one.
#[tactic(auto, unfolding(crate::specs::UnreadLists::path_line))]
fn push_path_line(alloc: Global, text: &mut String, path: &Path) -> Result<(), OutOfMemory>
    ensures { OnOk result (string_bytes text.new ≡ string_bytes text.old ++ path_line path.now) }
{
    text.push_str("           ")?;
    push_narrow_path(alloc, text, 33, path)?;
    text.push_str("\n")
}

/// The lines of these.
fn push_path_lines(alloc: Global, text: &mut String, paths: &[&Path]) -> Result<(), OutOfMemory>
    ensures { OnOk result (string_bytes text.new ≡ string_bytes text.old ++ flat_map path_line (map (λ path. path.now) paths.now)) }
{
    for path in paths {
        push_path_line(alloc, text, path)?;
    }
    Ok(())
}

/// Those that are shown.
#[tactic(auto, using(std::proofs::lemmas::List::take_all))]
fn shown<'a, 'b>(paths: &'b [&'a Path]) -> &'b [&'a Path]
    ensures { result.now ≡ take shown_rows paths.now }
{
    if paths.len() <= SHOWN {
        return paths;
    }
    let (front, _) = paths.split_at(SHOWN);
    front
}

/// The lines of those that are shown, and how many more there are.
#[tactic(auto, unfolding(crate::specs::UnreadLists::unread_rows))]
fn push_shown(alloc: Global, text: &mut String, paths: &[&Path]) -> Result<(), OutOfMemory>
    ensures { OnOk result (string_bytes text.new ≡ string_bytes text.old ++ unread_rows (map (λ path. path.now) paths.now)) }
{
    push_path_lines(alloc, text, shown(paths))?;
    push_more(text, paths.len().saturating_sub(SHOWN))
}

/// Appends the lines of the entries that were not read, if there are any: the first twenty, and how many more there are.
///
/// # Errors
///
/// If memory runs out. Then a part may be appended.
#[tactic(auto, unfolding(crate::specs::UnreadLists::unread_text))]
pub fn push_unread(alloc: Global, text: &mut String, paths: &[&Path]) -> Result<(), OutOfMemory>
    ensures { OnOk result (string_bytes text.new ≡ string_bytes text.old ++ unread_text (map (λ path. path.now) paths.now)) }
{
    if paths.is_empty() {
        return Ok(());
    }
    push_head(text, paths.len() as u64)?;
    push_shown(alloc, text, paths)
}
