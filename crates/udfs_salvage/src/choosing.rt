//! Which nodes of a volume are asked for by their paths, as the report prints them.

ghost use Rattle.std.specs.Prelude.{◌≡◌, IfOk, map, string_bytes};
ghost use Rattle.std.specs.List.{list_all, list_any};
ghost use Rattle.std.specs.Str.{bytes_eq};
ghost use Rattle.udfs_salvage.specs.NodeTexts.{path_name};
ghost use Rattle.udfs_walk.specs.Unsettled.{is_whole};
ghost use Rattle.udfs_salvage.specs.Choosing.{AsksByNames, RootAsksForAll, chosen, goes_on, is_chosen, is_node, is_under};

use crate::appending::push_names;
use std::alloc::{AllocError, Global};
use udfs_walk::{Node, Path, Standing};

/// The path that asks for all nodes: that of the root.
const ALL: &str = "/";

/// Whether a text begins with `front` and then a `/`.
pub fn goes_on(front: &str, text: &str) -> bool
    ensures { result ≡ goes_on front.now text.now }
{
    match text.as_bytes().strip_prefix(front.as_bytes()) {
        Some(rest) => !rest.is_empty() && rest[0] == b'/',
        None => false,
    }
}

/// Whether an argument asks for the path of this text: it is that path, or that of a folder above it. `/` asks for all.
pub(crate) fn is_under(word: &str, text: &str) -> bool
    ensures { result ≡ is_under word.now text.now }
{
    word == ALL || text == word || goes_on(word, text)
}

/// Whether one of these arguments asks for the path of this text.
fn is_any_above(only: &[&str], text: &str) -> bool
    ensures { result ≡ list_any (λ word. is_under word text.now) (map (λ word. word.now) only.now) }
{
    for word in only {
        if is_under(word, text) {
            return true;
        }
    }
    false
}

/// Whether one of these arguments begins with this text and then a `/`.
fn is_any_below(only: &[&str], text: &str) -> bool
    ensures { result ≡ list_any (λ word. goes_on text.now word) (map (λ word. word.now) only.now) }
{
    for word in only {
        if goes_on(text, word) {
            return true;
        }
    }
    false
}

/// A path as the report prints it.
pub(crate) fn text_of(alloc: Global, path: &Path) -> Result<String, AllocError>
    ensures { IfOk result (λ text. string_bytes text ≡ path_name path.now) }
{
    let mut text = String::new(alloc);
    if path.is_empty() {
        text.push('/')?;
    } else {
        push_names(&mut text, path)?;
    }
    Ok(text)
}

/// Whether one of these arguments asks for the node of this path.
pub fn is_chosen(alloc: Global, only: &[&str], path: &Path) -> Result<bool, AllocError>
    ensures { IfOk result (λ yes. yes ≡ is_chosen (map (λ word. word.now) only.now) path.now) }
{
    if let [word] = only
        && *word == ALL
    {
        return Ok(true);
    }
    let text = text_of(alloc, path)?;
    Ok(is_any_above(only, text.as_str()))
}

/// Whether one of these arguments begins with this path, as the report prints it, and then a `/`.
pub fn is_above(alloc: Global, only: &[&str], path: &Path) -> Result<bool, AllocError>
    ensures { IfOk result (λ yes. yes ≡ list_any (λ word. goes_on (path_name path.now) word) (map (λ word. word.now) only.now)) }
{
    let text = text_of(alloc, path)?;
    Ok(is_any_below(only, text.as_str()))
}

/// Whether the report prints a path so.
fn is_printed_so(alloc: Global, path: &Path, word: &str) -> Result<bool, AllocError>
    ensures { IfOk result (λ yes. yes ≡ bytes_eq (path_name path.now) word.now) }
{
    if path.is_empty() {
        return Ok(word == ALL);
    }
    let text = text_of(alloc, path)?;
    Ok(text.as_str() == word)
}

/// Whether an argument is the path of one of these nodes, as the report prints it.
pub fn is_node(alloc: Global, nodes: &[Node], word: &str) -> Result<bool, AllocError>
    ensures { IfOk result (λ yes. yes ≡ is_node nodes.now word.now) }
{
    for node in nodes {
        if is_printed_so(alloc, &node.path, word)? {
            return Ok(true);
        }
    }
    Ok(false)
}

/// Whether all of these nodes that one of the arguments asks for are whole.
pub fn chosen_are_whole(alloc: Global, only: &[&str], nodes: &[Node]) -> Result<bool, AllocError>
    ensures { IfOk result (λ whole. whole ≡ list_all (λ n. is_whole n.standing) (chosen (map (λ word. word.now) only.now) nodes.now)) }
{
    for node in nodes {
        if !matches!(node.standing, Standing::Whole) && is_chosen(alloc, only, &node.path)? {
            return Ok(false);
        }
    }
    Ok(true)
}

/// A law: an argument that is not empty asks for exactly the nodes whose first names, or all of them, are printed so. It never matches a part of a name. The root's
/// asks for all.
pub fn asks_by_names()
    ensures names { AsksByNames }
    ensures all { RootAsksForAll }
{}
