//! Nodes and entries without the blocks and the holes of torn ones, which are found again where they are reported.

ghost use Rattle.std.specs.Prelude.{◌≡◌, ◌∷◌, [], IfOk, IsErrOf, map};
ghost use Rattle.udfs_space.specs.Views.{view_by, view_now};
ghost use Rattle.udfs_file.specs.Bodies.{body};
ghost use Rattle.udfs_file.specs.Entries.{entry_of};
ghost use Rattle.udfs_file.specs.Stretches.{IsStanding};
ghost use Rattle.udfs_walk.specs.Bare.{body_lists, full_entry, full_node, lists_at, lists_of, no_lists, with_lists};

use crate::answers::{Node, Unnamed};
use crate::gaps::cells_standing;
use crate::standings::{Standing, Torn};
use crate::targets::{Target, target_at};
use std::alloc::{AllocError, Global};
use udfs_file::{Body, Entry, WalkError};
use udfs_lattice::{BlockStore, GaveUp};
use udfs_space::{StoreView, View};
use udfs_tag::{LbAddr, LongAd};

/// Nothing that is missing.
pub(crate) fn no_lists(alloc: Global) -> Torn
    ensures { result ≡ no_lists }
{
    Torn {
        missing: Vec::new(alloc),
        holes: Vec::new(alloc),
    }
}

/// What is missing where the block of an entry is not known.
fn one_block(alloc: Global, n: u32) -> Result<Torn, AllocError>
    ensures { IfOk result (λ torn. torn ≡ record { missing = n ∷ []; holes = [] }) }
{
    let missing = vec![in alloc; n]?;
    let holes = Vec::new(alloc);
    Ok(Torn { missing, holes })
}

/// What is missing, where something is.
fn lists_of(alloc: Global, standing: Standing) -> Torn
    ensures { result ≡ lists_of standing }
{
    match standing {
        Standing::Whole => no_lists(alloc),
        Standing::Torn(torn) => torn,
        Standing::Loop => no_lists(alloc),
        Standing::Fault(_) => no_lists(alloc),
    }
}

/// What is missing of the body of the entry at an address.
fn entry_lists<B: BlockStore>(
    alloc: Global,
    view: StoreView<'_, B>,
    entry: &Entry<'_>,
    address: LbAddr,
) -> Result<Torn, GaveUp>
    requires { B.tells → IsStanding (view_by B.states view) address.reference address.block entry.now }
    ensures value { IfOk result (λ torn. B.tells → torn ≡ body_lists (body (view_by B.states view.entry) address.reference address.block (entry_of entry.now))) }
    ensures fails { IsErrOf result GaveUp.Unread → B.fails }
{
    match Body::read_by(alloc, view, entry, address.reference, address.block)? {
        Err(WalkError::OutOfMemory) => Err(GaveUp::OutOfMemory),
        Err(WalkError::Fault(_)) => Ok(no_lists(alloc)),
        Ok(body) => {
            // The body has as many cells as this number of 64 bits says.
            let _size = entry.size();
            let standing = cells_standing(alloc, view, &body)?;
            Ok(lists_of(alloc, standing))
        }
    }
}

/// What is missing of what an address leads to.
fn lists_at<B: BlockStore>(
    alloc: Global,
    view: StoreView<'_, B>,
    address: LongAd,
) -> Result<Torn, GaveUp>
    ensures value { IfOk result (λ torn. B.tells → torn ≡ lists_at (view_by B.states view.entry) address) }
    ensures fails { IsErrOf result GaveUp.Unread → B.fails }
{
    let mut room = [0; 2048];
    match target_at(view, address, &mut room)? {
        Target::Fault(_) => Ok(no_lists(alloc)),
        Target::Unread(n) => {
            let torn = one_block(alloc, n)?;
            Ok(torn)
        }
        Target::Entry(entry) => entry_lists(alloc, view, &entry, address.address()),
    }
}

/// A standing, with the blocks and the holes of the body of the entry at `address` if it is torn. They are found anew, so
/// that the lists of one node alone have to be kept.
///
/// # Errors
///
/// `AllocError` where memory runs out.
pub fn full_standing(
    alloc: Global,
    view: View<'_>,
    address: LongAd,
    standing: &Standing,
) -> Result<Standing, AllocError>
    ensures { IfOk result (λ full. full ≡ with_lists (lists_at (view_now view.entry) address) standing.now) }
{
    let stored = StoreView {
        blocks: view.table,
        space: view.space,
    };
    match full_standing_by(alloc, stored, address, standing) {
        Ok(full) => Ok(full),
        Err(GaveUp::OutOfMemory) => Err(AllocError),
        Err(GaveUp::Unread) => unreachable!(),
    }
}

/// The same as [`full_standing`], by any store of blocks.
///
/// # Errors
///
/// `OutOfMemory` where memory runs out, and `Unread` where the bytes of a known block could not be read.
pub fn full_standing_by<B: BlockStore>(
    alloc: Global,
    view: StoreView<'_, B>,
    address: LongAd,
    standing: &Standing,
) -> Result<Standing, GaveUp>
    ensures value { IfOk result (λ full. B.tells → full ≡ with_lists (lists_at (view_by B.states view.entry) address) standing.now) }
    ensures fails { IsErrOf result GaveUp.Unread → B.fails }
{
    match standing {
        Standing::Whole => Ok(Standing::Whole),
        Standing::Torn(_) => {
            let torn = lists_at(alloc, view, address)?;
            Ok(Standing::Torn(torn))
        }
        Standing::Loop => Ok(Standing::Loop),
        Standing::Fault(fault) => Ok(Standing::Fault(*fault)),
    }
}

/// A node with the blocks and the holes.
fn full_node<B: BlockStore>(
    alloc: Global,
    view: StoreView<'_, B>,
    node: Node,
) -> Result<Node, GaveUp>
    ensures value { IfOk result (λ full. B.tells → full ≡ full_node (view_by B.states view.entry) node) }
    ensures fails { IsErrOf result GaveUp.Unread → B.fails }
{
    let standing = full_standing_by(alloc, view, node.icb, &node.standing)?;
    let Node {
        path,
        icb,
        kind,
        size,
        stamp,
        hidden,
        ..
    } = node;
    Ok(Node {
        path,
        icb,
        kind,
        size,
        stamp,
        hidden,
        standing,
    })
}

/// An entry with the blocks and the holes.
fn full_entry<B: BlockStore>(
    alloc: Global,
    view: StoreView<'_, B>,
    entry: Unnamed,
) -> Result<Unnamed, GaveUp>
    ensures value { IfOk result (λ full. B.tells → full ≡ full_entry (view_by B.states view.entry) entry) }
    ensures fails { IsErrOf result GaveUp.Unread → B.fails }
{
    let icb = entry.icb();
    let Unnamed {
        reference,
        block,
        kind,
        size,
        stamp,
        standing,
    } = entry;
    let standing = full_standing_by(alloc, view, icb, &standing)?;
    Ok(Unnamed {
        reference,
        block,
        kind,
        size,
        stamp,
        standing,
    })
}

/// Nodes with the blocks and the holes, of nodes without them.
///
/// # Errors
///
/// `AllocError` where memory runs out.
pub fn full_nodes(alloc: Global, view: View<'_>, bare: Vec<Node>) -> Result<Vec<Node>, AllocError>
    ensures { IfOk result (λ full. full.items ≡ map (full_node (view_now view.entry)) bare.items) }
{
    let stored = StoreView {
        blocks: view.table,
        space: view.space,
    };
    match full_nodes_by(alloc, stored, bare) {
        Ok(full) => Ok(full),
        Err(GaveUp::OutOfMemory) => Err(AllocError),
        Err(GaveUp::Unread) => unreachable!(),
    }
}

/// The same as [`full_nodes`], by any store of blocks.
///
/// # Errors
///
/// `OutOfMemory` where memory runs out, and `Unread` where the bytes of a known block could not be read.
pub fn full_nodes_by<B: BlockStore>(
    alloc: Global,
    view: StoreView<'_, B>,
    bare: Vec<Node>,
) -> Result<Vec<Node>, GaveUp>
    ensures value { IfOk result (λ full. B.tells → full.items ≡ map (full_node (view_by B.states view.entry)) bare.items) }
    ensures fails { IsErrOf result GaveUp.Unread → B.fails }
{
    let mut full = Vec::with_capacity(alloc, bare.len())?;
    for node in bare {
        let node = full_node(alloc, view, node)?;
        full.push_reserved(node);
    }
    Ok(full)
}

/// Entries that no name leads to, with the blocks and the holes, of entries without them.
///
/// # Errors
///
/// `AllocError` where memory runs out.
pub fn full_entries(
    alloc: Global,
    view: View<'_>,
    bare: Vec<Unnamed>,
) -> Result<Vec<Unnamed>, AllocError>
    ensures { IfOk result (λ full. full.items ≡ map (full_entry (view_now view.entry)) bare.items) }
{
    let stored = StoreView {
        blocks: view.table,
        space: view.space,
    };
    match full_entries_by(alloc, stored, bare) {
        Ok(full) => Ok(full),
        Err(GaveUp::OutOfMemory) => Err(AllocError),
        Err(GaveUp::Unread) => unreachable!(),
    }
}

/// The same as [`full_entries`], by any store of blocks.
///
/// # Errors
///
/// `OutOfMemory` where memory runs out, and `Unread` where the bytes of a known block could not be read.
pub fn full_entries_by<B: BlockStore>(
    alloc: Global,
    view: StoreView<'_, B>,
    bare: Vec<Unnamed>,
) -> Result<Vec<Unnamed>, GaveUp>
    ensures value { IfOk result (λ full. B.tells → full.items ≡ map (full_entry (view_by B.states view.entry)) bare.items) }
    ensures fails { IsErrOf result GaveUp.Unread → B.fails }
{
    let mut full = Vec::with_capacity(alloc, bare.len())?;
    for entry in bare {
        let entry = full_entry(alloc, view, entry)?;
        full.push_reserved(entry);
    }
    Ok(full)
}
