//! What has to be read again for the nodes at some paths, below them and above them.

ghost use Rattle.std.specs.Prelude.{◌≡◌, ◌||◌, IfOk, IfErr, map};
ghost use Rattle.std.specs.List.{list_any};
ghost use Rattle.udfs_salvage.specs.Choosing.{is_under};
ghost use Rattle.udfs_salvage.specs.InLine.{AsksInLine, EachRereadForSuffices, IsFirstOf, RereadsForAll, is_in_line, lies_along, may_hide, may_list, names_nothing, nodes_for, reread_for};
ghost use Rattle.udfs_salvage.specs.Listings.{listing_by};
ghost use Rattle.udfs_salvage.specs.NodeTexts.{path_name};
ghost use Rattle.udfs_walk.specs.KnownLaws.{taken};
ghost use Rattle.udfs_volume.specs.Seen.{IsRising};

use crate::choosing::{is_node, is_under, text_of};
use crate::errors::SalvageError;
use crate::listings::Listing;
use std::alloc::{AllocError, Global};
use udfs_file::Kind;
use udfs_lattice::BlockStore;
use udfs_walk::{Node, Path, Standing};

/// Whether one of these arguments asks for the path of this text, or for one below it.
fn is_any_along(only: &[&str], text: &str) -> bool
    ensures { result ≡ list_any (λ word. is_under word text.now || is_under text.now word) (map (λ word. word.now) only.now) }
{
    for word in only {
        if is_under(word, text) || is_under(text, word) {
            return true;
        }
    }
    false
}

/// Whether a path is at one of these, below it or above it. Without arguments every path is.
#[tactic(auto, using(crate::proofs::InLineLists::in_line_none, crate::proofs::InLineLists::in_line_some))]
pub fn is_in_line(alloc: Global, only: &[&str], path: &Path) -> Result<bool, AllocError>
    ensures { IfOk result (λ yes. yes ≡ is_in_line (map (λ word. word.now) only.now) path.now) }
{
    if only.is_empty() {
        return Ok(true);
    }
    let text = text_of(alloc, path)?;
    Ok(is_any_along(only, text.as_str()))
}

/// The nodes that are at one of these paths, below it or above it.
fn nodes_in_line(alloc: Global, nodes: Vec<Node>, only: &[&str]) -> Result<Vec<Node>, AllocError>
    ensures { IfOk result (λ kept. kept.items ≡ taken (is_in_line (map (λ word. word.now) only.now)) nodes.items) }
{
    let mut kept = Vec::new(alloc);
    for node in nodes {
        if is_in_line(alloc, only, &node.path)? {
            kept.push(node)?;
        }
    }
    Ok(kept)
}

/// The listing of the nodes alone that are at one of these paths, as the report prints them, below it or above it: a torn directory above may hide a name.
/// The blocks to read again of what is returned are those for these nodes. Without arguments nothing is left out.
///
/// # Errors
///
/// Only `OutOfMemory`, where memory runs out.
#[tactic(auto, using(crate::proofs::InLineLists::kept_blocks, crate::proofs::InLineLists::kept_nodes, crate::proofs::InLineLists::kept_rise))]
pub fn keep_in_line<'a, B: BlockStore>(
    alloc: Global,
    listing: Listing<'a, B>,
    only: &[&str],
) -> Result<Listing<'a, B>, SalvageError>
    ensures blocks { IfOk result (λ kept. (listing_by B.states kept).reread ≡ reread_for (map (λ word. word.now) only.now) (listing_by B.states listing.entry)) }
    ensures rising { IsRising (listing_by B.states listing.entry).reread → IfOk result (λ kept. IsRising (listing_by B.states kept).reread) }
    ensures nodes { IfOk result (λ kept. (listing_by B.states kept).nodes ≡ nodes_for (map (λ word. word.now) only.now) (listing_by B.states listing.entry)) }
    ensures volume { IfOk result (λ kept. (listing_by B.states kept).volume ≡ (listing_by B.states listing.entry).volume) }
    ensures of { IfOk result (λ kept. (kept.table.now ≡ listing.entry.table.now) × (kept.last ≡ listing.entry.last) × (kept.profile ≡ listing.entry.profile)) }
    ensures refused { IfErr result (λ error. error ≡ SalvageError.OutOfMemory) }
{
    let Listing {
        table,
        last,
        profile,
        volume,
        nodes,
    } = listing;
    let nodes = nodes_in_line(alloc, nodes, only)?;
    Ok(Listing {
        table,
        last,
        profile,
        volume,
        nodes,
    })
}

/// Whether a node is a directory that is not whole, or one whose entry is not read, above the path of this text, or at it.
fn may_hide(alloc: Global, node: &Node, word: &str) -> Result<bool, AllocError>
    ensures { IfOk result (λ yes. yes ≡ may_hide node.now word.now) }
{
    if matches!(node.standing, Standing::Whole) {
        return Ok(false);
    }
    if !matches!(node.kind, Kind::Directory | Kind::Unread) {
        return Ok(false);
    }
    let text = text_of(alloc, &node.path)?;
    Ok(is_under(text.as_str(), word))
}

/// Whether one of these nodes is a directory that is not whole, above the path of this text.
fn is_any_hiding(alloc: Global, nodes: &[Node], word: &str) -> Result<bool, AllocError>
    ensures { IfOk result (λ yes. yes ≡ list_any (λ n. may_hide n word.now) nodes.now) }
{
    for node in nodes {
        if may_hide(alloc, node, word)? {
            return Ok(true);
        }
    }
    Ok(false)
}

/// Whether there are nodes, an argument is the path of none of them, and all directories above it are whole.
fn names_nothing(alloc: Global, nodes: &[Node], word: &str) -> Result<bool, AllocError>
    ensures { IfOk result (λ yes. yes ≡ names_nothing nodes.now word.now) }
{
    if nodes.is_empty() || is_node(alloc, nodes, word)? {
        return Ok(false);
    }
    let hides = is_any_hiding(alloc, nodes, word)?;
    Ok(!hides)
}

/// The number, counted from 1, of the first of these arguments that names nothing among some nodes, if one does.
fn first_of_nothing(
    alloc: Global,
    only: &[&str],
    nodes: &[Node],
) -> Result<Option<usize>, AllocError>
    ensures { IfOk result (λ first. IsFirstOf (map (λ word. word.now) only.now) nodes.now first) }
{
    for (index, word) in only.iter().enumerate() {
        match names_nothing(alloc, nodes, word) {
            Ok(false) => {}
            Ok(true) => return Ok(Some(index + 1)),
            Err(AllocError) => return Err(AllocError),
        }
    }
    Ok(None)
}

/// The number, counted from 1, of the first of these arguments that is the path of no node, where all directories above it are whole; `None` where there is none. Where no
/// nodes are listed, since the volume does not open, there is none either.
///
/// # Errors
///
/// `AllocError` where memory runs out.
pub fn first_nowhere<B: BlockStore>(
    alloc: Global,
    only: &[&str],
    listing: &Listing<'_, B>,
) -> Result<Option<usize>, AllocError>
    ensures { IfOk result (λ first. IsFirstOf (map (λ word. word.now) only.now) (listing_by B.states listing.now).nodes first) }
{
    let first = first_of_nothing(alloc, only, &listing.nodes)?;
    Ok(first)
}

/// A law: a path asks for exactly the nodes whose first names, or all of them, are printed as it is, and for those that are printed as its first names are. It
/// never matches a part of a name.
pub fn asks_in_line()
    ensures { AsksInLine }
{}

/// A law: in the report of each table, for every lawful volume that agrees with it, the blocks to read again for the nodes at, below and above some paths
/// are needed for them, and none is known. There are none exactly if all these nodes of the tree are reported whole; and a pass that reads none of them makes no further one
/// of these nodes whole.
pub fn rereads_suffice_for_paths()
    ensures { EachRereadForSuffices }
{}

/// A law: without paths they are all that the report lists.
pub fn rereads_for_all()
    ensures { RereadsForAll }
{}
