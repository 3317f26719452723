//! The body of the entry at an address.

ghost use Rattle.std.specs.Prelude.{◌≡◌, IfOk, IsErrOf, List, MatchOption, OnErr};
ghost use Rattle.udfs_space.specs.Views.{view_by, view_now};
ghost use Rattle.udfs_file.specs.Stretches.{cells_of};
ghost use Rattle.udfs_file.specs.declared.cells.Cell.{Cell};
ghost use Rattle.udfs_walk.specs.NodeBodies.{HasCells, MayTakeMemory, has_tail};

use crate::targets::{Target, target_at};
use std::alloc::{AllocError, Global};
use udfs_file::{Body, WalkError};
use udfs_lattice::{BlockStore, GaveUp};
use udfs_space::{StoreView, View};
use udfs_tag::LongAd;

/// The body of the entry that an address leads to, if an entry without a fault of its own is known there whose body
/// has none either. Bytes of it may be missing.
///
/// # Errors
///
/// `AllocError` where memory runs out: never for an empty body that is not embedded.
pub fn body_at(alloc: Global, view: View<'_>, address: LongAd) -> Result<Option<Body>, AllocError>
    ensures value { IfOk result (λ found. MatchOption found
        ((cs : List Cell) → ¬ HasCells (view_now view.entry) address cs)
        (λ body. HasCells (view_now view.entry) address (cells_of (view_now view.entry) body))) }
    ensures memory { OnErr result (MayTakeMemory (view_now view.entry) address) }
{
    let stored = StoreView {
        blocks: view.table,
        space: view.space,
    };
    match body_by(alloc, stored, address) {
        Ok(found) => Ok(found),
        Err(GaveUp::OutOfMemory) => Err(AllocError),
        Err(GaveUp::Unread) => unreachable!(),
    }
}

/// The same as [`body_at`], by any store of blocks.
///
/// # Errors
///
/// `OutOfMemory` as there, and `Unread` where the bytes of a known block could not be read.
pub fn body_by<B: BlockStore>(
    alloc: Global,
    view: StoreView<'_, B>,
    address: LongAd,
) -> Result<Option<Body>, GaveUp>
    ensures value { IfOk result (λ found. B.tells → MatchOption found
        ((cs : List Cell) → ¬ HasCells (view_by B.states view.entry) address cs)
        (λ body. HasCells (view_by B.states view.entry) address (cells_of (view_by B.states view.entry) body))) }
    ensures memory { IsErrOf result GaveUp.OutOfMemory → B.tells → MayTakeMemory (view_by B.states view.entry) address }
    ensures fails { IsErrOf result GaveUp.Unread → B.fails }
{
    let mut room = [0; 2048];
    match target_at(view, address, &mut room)? {
        Target::Entry(entry) => {
            match Body::read_by(alloc, view, &entry, address.reference, address.block)? {
                Ok(body) => Ok(Some(body)),
                Err(WalkError::Fault(_)) => Ok(None),
                Err(WalkError::OutOfMemory) => Err(GaveUp::OutOfMemory),
            }
        }
        _ => Ok(None),
    }
}

/// Whether the body of the entry that an address leads to is read by the tail of its last extent, as [`Body::is_tail_read`] says.
///
/// # Errors
///
/// If memory runs out.
pub fn tail_at(alloc: Global, view: View<'_>, address: LongAd) -> Result<bool, AllocError>
    ensures { IfOk result (λ tail. tail ≡ has_tail (view_now view.entry) address) }
{
    let stored = StoreView {
        blocks: view.table,
        space: view.space,
    };
    match tail_by(alloc, stored, address) {
        Ok(tail) => Ok(tail),
        Err(GaveUp::OutOfMemory) => Err(AllocError),
        Err(GaveUp::Unread) => unreachable!(),
    }
}

/// The same as [`tail_at`], by any store of blocks.
///
/// # Errors
///
/// `OutOfMemory` if memory runs out, and `Unread` where the bytes of a known block could not be read.
pub fn tail_by<B: BlockStore>(
    alloc: Global,
    view: StoreView<'_, B>,
    address: LongAd,
) -> Result<bool, GaveUp>
    ensures value { IfOk result (λ tail. B.tells → tail ≡ has_tail (view_by B.states view.entry) address) }
    ensures fails { IsErrOf result GaveUp.Unread → B.fails }
{
    let mut room = [0; 2048];
    match target_at(view, address, &mut room)? {
        Target::Entry(entry) => {
            let tail = Body::is_tail_read_by(
                alloc,
                view,
                &entry,
                address.reference,
                address.block,
            )?;
            Ok(tail)
        }
        _ => Ok(false),
    }
}
