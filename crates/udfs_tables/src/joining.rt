//! What the inputs of a command hold, joined.

ghost use Rattle.std.specs.Prelude.{◌≡◌, ◌⊎◌, IfOk, IfErr};
ghost use Rattle.udfs_common.specs.Blaming.{stored_reason};
ghost use Rattle.udfs_common.specs.Indexing.{Indexed};
ghost use Rattle.udfs_common.specs.Refused.{IsUnindexed};
ghost use Rattle.udfs_tables.specs.Joining.{IsNotJoined, OfInputs};

use std::alloc::{AllocError, Global};
use udfs_common::files::Files;
use udfs_common::indexing::index_all;
use udfs_common::inputs::{joined, unwritten};
use udfs_common::known::Known;
use udfs_common::refusal::Refusal;
use udfs_index::{AnyStored, Cursor, Index, Stored};
use udfs_lattice::BlockTable;
use udfs_reading::Taker;
use udfs_words::input_path::InputPath;
use udfs_words::request::Inputs;

/// The join of the inputs' tables. An image that disagrees with the inputs before it so that it is of another disc is refused, unless `force` is set.
///
/// # Errors
///
/// Those of [`joined`].
pub fn join_of<F: Files>(
    alloc: Global,
    inputs: &Inputs<'_>,
    force: bool,
    files: &F,
) -> Result<BlockTable, Refusal>
    ensures joined { IfOk result (λ table. OfInputs ⟦<F as Known>⟧.reach files.now inputs.now force (λ t. table ≡ t)) }
    ensures refused { IfErr result (IsNotJoined ⟦<F as Known>⟧.reach files.now inputs.now force) }
{
    let paths = inputs.paths.as_slice();
    match joined(alloc, paths, force, files) {
        Ok(table) => Ok(table),
        Err(refusal) => Err(refusal),
    }
}

/// The join of the inputs' tables, as an index of where its bytes are. Of a table file of version 2 only the headers of its packets are read, and the blocks that
/// an input before it knows too. An image of another disc than the inputs before it is refused, unless `force` is set.
///
/// # Errors
///
/// Those of [`index_all`].
pub fn index_of<'a, S: Stored>(
    alloc: Global,
    stored: &'a [AnyStored<S>],
    paths: &[InputPath<'_>],
    force: bool,
) -> Result<Index<'a, AnyStored<S>>, Refusal>
    ensures table { IfOk result (λ index. Indexed ⟦<AnyStored<S> as Stored>⟧.content paths.now stored.now force (⟦<Index<'a, AnyStored<S>> as Taker<Cursor<'a, AnyStored<S>>>>⟧.took index)) }
    ensures why { IfErr result (IsUnindexed ⟦<AnyStored<S> as Stored>⟧.content paths.now stored.now force) }
{
    let mut index = match Index::new(alloc) {
        Ok(index) => index,
        Err(AllocError) => return Err(Refusal::Memory(AllocError)),
    };
    match index_all(alloc, stored, paths, force, &mut index) {
        Ok(()) => Ok(index),
        Err(refusal) => Err(refusal),
    }
}

/// What is said of an output that could not be looked at: the inputs are judged before it.
pub fn unwritten_of<F: Files>(alloc: Global, inputs: &Inputs<'_>, force: bool, files: &F) -> Refusal
    ensures { (result ≡ Refusal.Output) ⊎ IsNotJoined ⟦<F as Known>⟧.reach files.now inputs.now force result }
{
    let paths = inputs.paths.as_slice();
    unwritten(alloc, paths, force, files)
}
