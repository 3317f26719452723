//! The list of lost folders and lost files, behind that of the nodes.

ghost use Rattle.std.specs.Prelude.{◌≡◌, IfOk, IsErrOf, flat_map, map, option_map};
ghost use Rattle.std.specs.List.{list_any};
ghost use Rattle.std.specs.String.{string_bytes};
ghost use Rattle.udfs_space.specs.Views.{view_by};
ghost use Rattle.udfs_walk.specs.Bare.{full_entry, full_node};
ghost use Rattle.udfs_walk.specs.Targets.{Icb, is_icb};
ghost use Rattle.udfs_salvage.specs.StorePrinting.{PassesOnBy, PrintsBy};
ghost use Rattle.udfs_salvage.specs.Surveys.{survey_by};
ghost use Rattle.udfs_overview.specs.FoundLists.{named};
ghost use Rattle.udfs_overview.specs.FullLists.{full_list, lost_and_found, lost_text};
ghost use Rattle.udfs_overview.specs.LostLists.{file_line, lost_lines, node_line, tree_lines};
ghost use Rattle.udfs_overview.specs.Searched.{rootless_now, searched_now};

use crate::found_list::put_found;
use crate::lost_found::Lost;
use crate::lost_lines::{place_column, push_file_line, push_lost_word, push_node_line};
use crate::node_list::{ListForm, put_list};
use std::alloc::Global;
use udfs_lattice::{BlockStore, GaveUp};
use udfs_lost::{LostTree, Met, found_entries, lost_files_by, unplaced_by};
use udfs_reading::Sink;
use udfs_salvage::{PrintError, Survey, Volume, flush, has_two_partitions, pass_on};
use udfs_space::StoreView;
use udfs_walk::{Node, Unnamed};

/// The line of a node of a lost tree, if it is asked for.
fn put_node<B: BlockStore, W: Sink>(
    alloc: Global,
    text: &mut String,
    sink: &mut W,
    form: ListForm,
    view: StoreView<'_, B>,
    word: &str,
    place: &str,
    named: bool,
    node: &Node,
) -> Result<(), PrintError>
    ensures printed { B.tells → PassesOnBy (W.stream sink.old) (W.stream sink.new) (string_bytes text.old) (string_bytes text.new)
        (node_line form (view_by B.states view.entry) word.now place.now named (full_node (view_by B.states view.entry) node.now)) result }
    ensures fails { IsErrOf result PrintError.Unread → B.fails }
{
    push_node_line(alloc, text, form, view, word, place, named, node)?;
    pass_on(text, sink)?;
    Ok(())
}

/// The lines of nodes of a lost tree.
fn put_nodes<B: BlockStore, W: Sink>(
    alloc: Global,
    text: &mut String,
    sink: &mut W,
    form: ListForm,
    view: StoreView<'_, B>,
    word: &str,
    place: &str,
    named: bool,
    nodes: &[Node],
) -> Result<(), PrintError>
    ensures printed { B.tells → PassesOnBy (W.stream sink.old) (W.stream sink.new) (string_bytes text.old) (string_bytes text.new)
        (flat_map (node_line form (view_by B.states view.entry) word.now place.now named) (map (full_node (view_by B.states view.entry)) nodes.now)) result }
    ensures fails { IsErrOf result PrintError.Unread → B.fails }
{
    for node in nodes {
        put_node(alloc, text, sink, form, view, word, place, named, node)?;
    }
    Ok(())
}

/// The lines of a lost tree of a volume that has these nodes.
#[tactic(auto, unfolding(crate::specs::LostLists::tree_lines))]
fn put_tree<B: BlockStore, W: Sink>(
    alloc: Global,
    text: &mut String,
    sink: &mut W,
    form: ListForm,
    view: StoreView<'_, B>,
    two: bool,
    named: &Met,
    nodes: &[Node],
    tree: &LostTree,
) -> Result<(), PrintError>
    ensures printed { B.tells → PassesOnBy (W.stream sink.old) (W.stream sink.new) (string_bytes text.old) (string_bytes text.new)
        (tree_lines form (view_by B.states view.entry) two (λ icb. list_any (is_icb icb) named.now) nodes.now tree.now) result }
    ensures fails { IsErrOf result PrintError.Unread → B.fails }
{
    let mut word = String::new(alloc);
    push_lost_word(&mut word, two, tree.folder)?;
    let place = place_column(alloc, form, view, nodes, tree.folder)?;
    let named = named.contains(tree.folder);
    put_nodes(
        alloc,
        text,
        sink,
        form,
        view,
        &word,
        &place,
        named,
        &tree.nodes,
    )
}

/// The lines of lost trees.
fn put_trees<B: BlockStore, W: Sink>(
    alloc: Global,
    text: &mut String,
    sink: &mut W,
    form: ListForm,
    view: StoreView<'_, B>,
    two: bool,
    named: &Met,
    nodes: &[Node],
    trees: &[LostTree],
) -> Result<(), PrintError>
    ensures printed { B.tells → PassesOnBy (W.stream sink.old) (W.stream sink.new) (string_bytes text.old) (string_bytes text.new)
        (flat_map (tree_lines form (view_by B.states view.entry) two (λ icb. list_any (is_icb icb) named.now) nodes.now) trees.now) result }
    ensures fails { IsErrOf result PrintError.Unread → B.fails }
{
    for tree in trees {
        put_tree(alloc, text, sink, form, view, two, named, nodes, tree)?;
    }
    Ok(())
}

/// The line of a lost file, if it is asked for.
fn put_file<B: BlockStore, W: Sink>(
    alloc: Global,
    text: &mut String,
    sink: &mut W,
    form: ListForm,
    view: StoreView<'_, B>,
    two: bool,
    named: &Met,
    file: &Unnamed,
) -> Result<(), PrintError>
    ensures printed { B.tells → PassesOnBy (W.stream sink.old) (W.stream sink.new) (string_bytes text.old) (string_bytes text.new)
        (file_line form (view_by B.states view.entry) two (λ icb. list_any (is_icb icb) named.now) (full_entry (view_by B.states view.entry) file.now)) result }
    ensures fails { IsErrOf result PrintError.Unread → B.fails }
{
    push_file_line(alloc, text, form, view, two, named, file)?;
    pass_on(text, sink)?;
    Ok(())
}

/// The lines of lost files.
fn put_files<B: BlockStore, W: Sink>(
    alloc: Global,
    text: &mut String,
    sink: &mut W,
    form: ListForm,
    view: StoreView<'_, B>,
    two: bool,
    named: &Met,
    files: &[&Unnamed],
) -> Result<(), PrintError>
    ensures printed { B.tells → PassesOnBy (W.stream sink.old) (W.stream sink.new) (string_bytes text.old) (string_bytes text.new)
        (flat_map (file_line form (view_by B.states view.entry) two (λ icb. list_any (is_icb icb) named.now)) (map (λ file. full_entry (view_by B.states view.entry) file.now) files.now)) result }
    ensures fails { IsErrOf result PrintError.Unread → B.fails }
{
    for file in files {
        put_file(alloc, text, sink, form, view, two, named, file)?;
    }
    Ok(())
}

/// The information control blocks of entries that are listed by a name which is found behind a hole.
fn named_in<B: BlockStore>(
    alloc: Global,
    form: ListForm,
    deleted: bool,
    view: StoreView<'_, B>,
    nodes: &[Node],
    entries: &[Unnamed],
    trees: &[LostTree],
) -> Result<Met, GaveUp>
    ensures value { IfOk result (λ met. B.tells → (icb : Icb) → list_any (is_icb icb) met ≡ named form deleted (view_by B.states view.entry) nodes.now (map (full_entry (view_by B.states view.entry)) entries.now) trees.now icb) }
    ensures fails { IsErrOf result GaveUp.Unread → B.fails }
{
    if form.paths {
        return Ok(Met::none(alloc));
    }
    let lost = unplaced_by(alloc, view, deleted, trees, entries)?;
    let named = found_entries(alloc, view, &lost, nodes, trees)?;
    Ok(named)
}

/// The lines of lost trees and lost files in a view, of a volume that has these nodes: not of the entries that are named elsewhere.
fn put_by_block<B: BlockStore, W: Sink>(
    alloc: Global,
    text: &mut String,
    sink: &mut W,
    form: ListForm,
    deleted: bool,
    view: StoreView<'_, B>,
    two: bool,
    named: &Met,
    nodes: &[Node],
    entries: &[Unnamed],
    trees: &[LostTree],
) -> Result<(), PrintError>
    ensures printed { B.tells → PassesOnBy (W.stream sink.old) (W.stream sink.new) (string_bytes text.old) (string_bytes text.new)
        (lost_lines form deleted (view_by B.states view.entry) two (λ icb. list_any (is_icb icb) named.now) nodes.now (map (full_entry (view_by B.states view.entry)) entries.now) trees.now) result }
    ensures fails { IsErrOf result PrintError.Unread → B.fails }
{
    let files = lost_files_by(alloc, view, deleted, trees, entries)?;
    put_trees(alloc, text, sink, form, view, two, named, nodes, trees)?;
    put_files(alloc, text, sink, form, view, two, named, &files)
}

/// All lines of lost trees and lost files in a view, of a volume that has these nodes, and of names that are found behind holes: each entry by the names that are found
/// of it, or else by its block.
fn put_lost_in<B: BlockStore, W: Sink>(
    alloc: Global,
    text: &mut String,
    sink: &mut W,
    form: ListForm,
    deleted: bool,
    view: StoreView<'_, B>,
    two: bool,
    nodes: &[Node],
    entries: &[Unnamed],
    trees: &[LostTree],
) -> Result<(), PrintError>
    ensures printed { B.tells → PassesOnBy (W.stream sink.old) (W.stream sink.new) (string_bytes text.old) (string_bytes text.new)
        (lost_and_found form deleted (view_by B.states view.entry) two nodes.now (map (full_entry (view_by B.states view.entry)) entries.now) trees.now) result }
    ensures fails { IsErrOf result PrintError.Unread → B.fails }
{
    let named = named_in(alloc, form, deleted, view, nodes, entries, trees)?;
    put_by_block(
        alloc, text, sink, form, deleted, view, two, &named, nodes, entries, trees,
    )?;
    put_found(
        alloc, text, sink, form, deleted, view, two, nodes, entries, trees,
    )
}

/// All lines of lost trees and lost files of a volume that does not open.
#[tactic(auto, unfolding(crate::specs::FullLists::lost_text))]
fn put_rootless<B: BlockStore, W: Sink>(
    alloc: Global,
    text: &mut String,
    sink: &mut W,
    survey: &Survey<'_, B>,
    form: ListForm,
    deleted: bool,
    lost: &Lost,
) -> Result<(), PrintError>
    ensures printed { B.tells → PassesOnBy (W.stream sink.old) (W.stream sink.new) (string_bytes text.old) (string_bytes text.new)
        (lost_text form deleted (option_map (rootless_now (B.states survey.now.table.now)) lost.now.rootless) survey.now.nodes.items lost.now.trees.items) result }
    ensures fails { IsErrOf result PrintError.Unread → B.fails }
{
    match &lost.rootless {
        Some(found) => put_lost_in(
            alloc,
            text,
            sink,
            form,
            deleted,
            found.volume.view_by(survey.table),
            found.volume.has_two(),
            &survey.nodes,
            &found.entries,
            &lost.trees,
        ),
        None => Ok(()),
    }
}

/// All lines of lost trees and lost files.
fn put_lost<B: BlockStore, W: Sink>(
    alloc: Global,
    text: &mut String,
    sink: &mut W,
    survey: &Survey<'_, B>,
    form: ListForm,
    deleted: bool,
    lost: &Lost,
) -> Result<(), PrintError>
    ensures printed { B.tells → PassesOnBy (W.stream sink.old) (W.stream sink.new) (string_bytes text.old) (string_bytes text.new)
        (lost_text form deleted (searched_now B.states survey.now lost.now) (survey_by B.states survey.now).nodes lost.now.trees.items) result }
    ensures fails { IsErrOf result PrintError.Unread → B.fails }
{
    match &survey.volume {
        Volume::Open(opened) => put_lost_in(
            alloc,
            text,
            sink,
            form,
            deleted,
            opened.view_by(survey.table),
            has_two_partitions(&survey.volume),
            &survey.nodes,
            &survey.unnamed,
            &lost.trees,
        ),
        Volume::Holes(_) => put_rootless(alloc, text, sink, survey, form, deleted, lost),
        Volume::Fault(_) => put_rootless(alloc, text, sink, survey, form, deleted, lost),
    }
}

/// The lines of the nodes, and those of lost trees and lost files.
fn put_both<B: BlockStore, W: Sink>(
    alloc: Global,
    text: &mut String,
    sink: &mut W,
    survey: &Survey<'_, B>,
    form: ListForm,
    deleted: bool,
    lost: &Lost,
) -> Result<(), PrintError>
    ensures printed { B.tells → PassesOnBy (W.stream sink.old) (W.stream sink.new) (string_bytes text.old) (string_bytes text.new)
        (full_list form deleted (B.states survey.now.table.now) (searched_now B.states survey.now lost.now) (survey_by B.states survey.now) lost.now.trees.items) result }
    ensures fails { IsErrOf result PrintError.Unread → B.fails }
{
    put_list(alloc, text, sink, survey, form)?;
    put_lost(alloc, text, sink, survey, form, deleted, lost)
}

/// Writes the lines that [`write_list_by`](crate::write_list_by) writes, and then a line for each node of the trees of lost folders, which
/// [`find_lost`](crate::find_lost) found of the survey, and for each lost file, which is a file that no known name leads to, not even
/// in them. With `deleted` those of link count 0 are files too. Paths begin with `lost:` and the logical block of the folder's or the
/// file's entry, with the partition reference and a `-` before it where there are two partitions. The folder's own path ends with `/`;
/// a last column `in PATH` is behind it where its parent's identifier (ECMA-167 4/14.4.3) names a directory that is a node.
///
/// Behind these, unless only paths are asked for, come the names that are found behind holes of torn folders, as `found_names_by` of
/// `udfs_lost` finds them, of lost files and of folders from which a lost tree is walked: of those folders that are nodes, by their
/// paths, and of those in lost trees. Before the last column, `found`, is what the entry is called by its block. What has such a line
/// has none of its own in the lines before, where what is in a folder stands below what it is called. Such a name is evidence and no
/// proof.
///
/// # Errors
///
/// `Run` with `Write` if and only if the sink failed, and with `OutOfMemory` if memory ran out; and `Unread` where the bytes of a known block could not be read. In
/// each case a prefix of the lines, possibly empty, was written: what could not be read is never told as unknown.
pub fn write_lost<B: BlockStore, W: Sink>(
    alloc: Global,
    survey: &Survey<'_, B>,
    form: ListForm,
    deleted: bool,
    lost: &Lost,
    sink: &mut W,
) -> Result<(), PrintError>
    ensures printed { B.tells → PrintsBy (W.stream sink.old) (W.stream sink.new)
        (full_list form deleted (B.states survey.now.table.now) (searched_now B.states survey.now lost.now) (survey_by B.states survey.now) lost.now.trees.items) result }
    ensures fails { IsErrOf result PrintError.Unread → B.fails }
{
    let mut text = String::new(alloc);
    put_both(alloc, &mut text, sink, survey, form, deleted, lost)?;
    flush(&mut text, sink)?;
    Ok(())
}
