//! Files of a type that is not written: they are no directories, no files by the rules and no links, and yet have bytes.

ghost use Rattle.std.specs.Prelude.{◌≡◌, ◌≤◌, ◌++◌, IfOk, OnOk, flat_map, option_map};
ghost use Rattle.std.specs.String.{string_bytes};
ghost use Rattle.udfs_salvage.specs.Surveys.{survey_by};
ghost use Rattle.udfs_overview.specs.LeftOut.{files_text, further_type, left_out_line, left_out_note, left_out_remark, left_out_type, left_out_types, of_types, other_type, remark_of, sized_type, type_name, type_text, types_below, types_text, which_of, wide_count, wide_text, wide_writes};

use crate::figures::push_grouped;
use std::alloc::Global;
use std::fmt::Write;
use udfs_file::Kind;
use udfs_lattice::BlockStore;
use udfs_osta::OutOfMemory;
use udfs_salvage::Survey;
use udfs_volume::Profile;
use udfs_walk::{Node, Standing};

/// The file type of what is no directory, no file and no link (ECMA-167 4/14.6.6).
fn other_type(kind: Kind) -> Option<u8>
    ensures { result ≡ other_type kind }
{
    match kind {
        Kind::Other(file_type) => Some(file_type),
        _ => None,
    }
}

/// The same where there are bytes, of which none are written.
fn sized_type(kind: Kind, size: Option<u64>) -> Option<u8>
    ensures { result ≡ sized_type kind size }
{
    if size.unwrap_or(0) > 0 {
        other_type(kind)
    } else {
        None
    }
}

/// The file type of a node that is left out: it is whole or torn, has a size above 0, and is no directory, no file and no link.
pub(crate) fn left_out_type(node: &Node) -> Option<u8>
    ensures { result ≡ left_out_type node.now }
{
    match node.standing {
        Standing::Whole | Standing::Torn(_) => sized_type(node.kind, node.size),
        _ => None,
    }
}

/// The file types of the nodes that are left out, one for each node.
#[tactic(auto, unfolding(crate::specs::LeftOut::left_out_types))]
fn types_in(alloc: Global, nodes: &[Node]) -> Result<Vec<u8>, OutOfMemory>
    ensures { IfOk result (λ types. types.items ≡ left_out_types nodes.now) }
{
    let mut types = Vec::new(alloc);
    for node in nodes {
        if let Some(file_type) = left_out_type(node) {
            types.push(file_type)?;
        }
    }
    Ok(types)
}

/// The file types of the nodes of a report that are left out, one for each node: they are whole or torn, have a size above 0, and are
/// no directories, no files by the rules and no links. `extract` writes none of them.
///
/// # Errors
///
/// If memory runs out.
#[tactic(auto, using(crate::proofs::Counting::types_full))]
pub fn left_out_types<B: BlockStore>(
    alloc: Global,
    survey: &Survey<'_, B>,
) -> Result<Vec<u8>, OutOfMemory>
    ensures { IfOk result (λ types. types.items ≡ left_out_types (survey_by B.states survey.now).nodes) }
{
    types_in(alloc, &survey.nodes)
}

/// The types among these that are less than a number, rising, each once.
#[tactic(auto, unfolding(crate::specs::LeftOut::types_below))]
fn types_below(alloc: Global, types: &[u8], end: u16) -> Result<Vec<u8>, OutOfMemory>
    requires { end ≤ 256 }
    ensures { IfOk result (λ found. found.items ≡ types_below end types.now) }
{
    let mut found = Vec::new(alloc);
    for number in 0..end {
        let file_type = number as u8;
        if types.contains(&file_type) {
            found.push(file_type)?;
        }
    }
    Ok(found)
}

/// How many of these files the wide rules take for files.
#[tactic(auto, unfolding(crate::specs::LeftOut::wide_count))]
fn wide_count(types: &[u8]) -> usize
    ensures { result ≡ wide_count types.now }
{
    types
        .iter()
        .filter(|file_type| Profile::Wide.is_file_type(**file_type))
        .count()
}

/// Whether the wide rules write some of the files of a report that are left out. By the wide rules none of these is left out.
///
/// # Errors
///
/// If memory runs out.
#[tactic(auto, unfolding(crate::specs::LeftOut::wide_writes))]
pub fn wide_writes<B: BlockStore>(
    alloc: Global,
    survey: &Survey<'_, B>,
) -> Result<bool, OutOfMemory>
    ensures { IfOk result (λ so. so ≡ wide_writes (survey_by B.states survey.now).nodes) }
{
    let types = left_out_types(alloc, survey)?;
    Ok(wide_count(&types) > 0)
}

/// What a type is called, with a comma before it; empty for one without a name here (ECMA-167 4/14.6.6, UDF 2.01 2.3.5.2).
fn type_name(file_type: u8) -> &'static str
    ensures { result.now ≡ type_name file_type }
{
    match file_type {
        0 => ", not specified",
        6 => ", block device",
        7 => ", character device",
        9 => ", FIFO",
        10 => ", socket",
        249 => ", real-time",
        _ => "",
    }
}

/// A type by its number, and its name if it has one.
fn push_type(text: &mut String, file_type: u8) -> Result<(), OutOfMemory>
    ensures { OnOk result (string_bytes text.new ≡ string_bytes text.old ++ type_text file_type) }
{
    write!(text, "{file_type}")?;
    text.push_str(type_name(file_type))
}

/// A type that follows another one.
fn push_further(text: &mut String, file_type: u8) -> Result<(), OutOfMemory>
    ensures { OnOk result (string_bytes text.new ≡ string_bytes text.old ++ further_type file_type) }
{
    text.push_str("; ")?;
    push_type(text, file_type)
}

/// The types that follow the first one.
fn push_all_further(text: &mut String, types: &[u8]) -> Result<(), OutOfMemory>
    ensures { OnOk result (string_bytes text.new ≡ string_bytes text.old ++ flat_map further_type types.now) }
{
    for file_type in types {
        push_further(text, *file_type)?;
    }
    Ok(())
}

/// The types in one list.
fn push_types(text: &mut String, types: &[u8]) -> Result<(), OutOfMemory>
    ensures { OnOk result (string_bytes text.new ≡ string_bytes text.old ++ types_text types.now) }
{
    match types {
        [] => Ok(()),
        [first, others @ ..] => {
            push_type(text, *first)?;
            push_all_further(text, others)
        }
    }
}

/// Of one type, or of several.
#[tactic(auto, unfolding(crate::specs::LeftOut::of_types))]
fn push_of_types(text: &mut String, types: &[u8]) -> Result<(), OutOfMemory>
    ensures { OnOk result (string_bytes text.new ≡ string_bytes text.old ++ of_types types.now) }
{
    text.push_str(if types.len() == 1 {
        " of a type that is not written ("
    } else {
        " of types that are not written ("
    })?;
    push_types(text, types)?;
    text.push_str(")")
}

/// A file, or so many.
#[tactic(auto, unfolding(crate::specs::LeftOut::files_text))]
fn push_files(text: &mut String, count: usize) -> Result<(), OutOfMemory>
    ensures { OnOk result (string_bytes text.new ≡ string_bytes text.old ++ files_text count) }
{
    push_grouped(count as u128, text)?;
    text.push_str(if count == 1 { " file" } else { " files" })
}

/// Which of so many files: the one, all, or some of them.
#[tactic(auto, unfolding(crate::specs::LeftOut::which_of))]
fn push_which(text: &mut String, all: usize, some: usize) -> Result<(), OutOfMemory>
    ensures { OnOk result (string_bytes text.new ≡ string_bytes text.old ++ which_of all some) }
{
    if some == all {
        return text.push_str(if all == 1 { "it" } else { "them" });
    }
    push_grouped(some as u128, text)?;
    text.push_str(" of them")
}

/// That the wide rules write some of so many files, if they do.
#[tactic(auto, unfolding(crate::specs::LeftOut::wide_text))]
fn push_wide(text: &mut String, all: usize, some: usize) -> Result<(), OutOfMemory>
    ensures { OnOk result (string_bytes text.new ≡ string_bytes text.old ++ wide_text all some) }
{
    if some == 0 {
        return Ok(());
    }
    text.push_str(": --profile wide writes ")?;
    push_which(text, all, some)
}

/// Appends how many files are left out, of which types, and that the wide rules write them, where they do. The types are one for each file.
///
/// # Errors
///
/// If memory runs out. Then a part may be appended.
#[tactic(auto, unfolding(crate::specs::LeftOut::left_out_note))]
fn push_left_out_note(alloc: Global, text: &mut String, types: &[u8]) -> Result<(), OutOfMemory>
    ensures { OnOk result (string_bytes text.new ≡ string_bytes text.old ++ left_out_note types.now) }
{
    let found = types_below(alloc, types, 256)?;
    push_files(text, types.len())?;
    push_of_types(text, &found)?;
    push_wide(text, types.len(), wide_count(types))
}

/// Appends the line of the files that are left out, if there are any. The types are one for each file.
///
/// # Errors
///
/// If memory runs out. Then a part may be appended.
#[tactic(auto, unfolding(crate::specs::LeftOut::left_out_line))]
pub fn push_left_out(alloc: Global, text: &mut String, types: &[u8]) -> Result<(), OutOfMemory>
    ensures { OnOk result (string_bytes text.new ≡ string_bytes text.old ++ left_out_line types.now) }
{
    if types.is_empty() {
        return Ok(());
    }
    text.push_str("Other      ")?;
    push_left_out_note(alloc, text, types)?;
    text.push_str("\n")
}

/// What is said of these files, if there are any. The types are one for each file.
fn remark_of(alloc: Global, types: &[u8]) -> Result<Option<String>, OutOfMemory>
    ensures { IfOk result (λ remark. option_map string_bytes remark ≡ remark_of types.now) }
{
    if types.is_empty() {
        return Ok(None);
    }
    let mut text = String::new(alloc);
    push_left_out_note(alloc, &mut text, types)?;
    Ok(Some(text))
}

/// What a person is told of the nodes of a report that are left out, if there are any: how many files are of a type that is not written,
/// and of which types.
///
/// # Errors
///
/// If memory runs out.
pub fn left_out_remark(alloc: Global, nodes: &[Node]) -> Result<Option<String>, OutOfMemory>
    ensures { IfOk result (λ remark. option_map string_bytes remark ≡ left_out_remark nodes.now) }
{
    let types = types_in(alloc, nodes)?;
    remark_of(alloc, &types)
}
