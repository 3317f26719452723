//! `merge` of inputs that are read at positions: its output is written from an index, and no block is held.

ghost use Rattle.std.specs.Prelude.{◌≡◌, ◌<◌, IfErr, IfOk, IsErrOf, length};
ghost use Rattle.udfs_common.specs.Blaming.{AreJudgedFor, stored_reason};
ghost use Rattle.udfs_common.specs.Indexing.{Indexed};
ghost use Rattle.udfs_common.specs.Keeping.{Opens};
ghost use Rattle.udfs_common.specs.Puts.{HasPut, Puts};
ghost use Rattle.udfs_common.specs.Reach.{found_at};
ghost use Rattle.udfs_common.specs.Refused.{IsUnindexed};
ghost use Rattle.udfs_tables.specs.Merging.{IsMerged, IsUnmerged};

use crate::closing::remark_on_merge;
use crate::index_tally::IndexTally;
use crate::indexed::put_index;
use std::alloc::{AllocError, Global};
use udfs_common::files::Files;
use udfs_common::indexing::index_all;
use udfs_common::known::Known;
use udfs_common::refusal::Refusal;
use udfs_index::{AnyStored, Cursor, Stored};
use udfs_reading::Taker;
use udfs_words::input_path::InputPath;
use udfs_words::request::MergeRequest;

/// The join of the inputs' tables, as an index of where its bytes are, and what was counted of them. An image of another disc than the inputs before it is
/// refused, unless `force` is set.
fn indexed<'a, S: Stored>(
    alloc: Global,
    stored: &'a [AnyStored<S>],
    paths: &[InputPath<'_>],
    force: bool,
) -> Result<IndexTally<'a, AnyStored<S>>, Refusal>
    ensures table { IfOk result (λ tally. Indexed ⟦<AnyStored<S> as Stored>⟧.content paths.now stored.now force (⟦<IndexTally<'a, AnyStored<S>> as Taker<Cursor<'a, AnyStored<S>>>>⟧.took tally)) }
    ensures why { IfErr result (IsUnindexed ⟦<AnyStored<S> as Stored>⟧.content paths.now stored.now force) }
{
    let mut tally = match IndexTally::new(alloc, stored.len()) {
        Ok(tally) => tally,
        Err(AllocError) => return Err(Refusal::Memory(AllocError)),
    };
    match index_all(alloc, stored, paths, force, &mut tally) {
        Ok(()) => Ok(tally),
        Err(refusal) => Err(refusal),
    }
}

/// Joins the inputs, which are opened, and puts their table file, as [`merge`](crate::merge::merge) does. Of each known block it keeps in which input its bytes
/// are, and where, and it reads them again when it writes them.
pub fn merge_stored<F: Files>(
    alloc: Global,
    stored: &[AnyStored<F::Stored>],
    request: &MergeRequest<'_>,
    files: &mut F,
) -> Result<(), Refusal>
    requires each { length stored.now ≡ length request.now.inputs.paths.items }
    requires opened { Opens (found_at ⟦<F as Known>⟧.reach files.now) ⟦<AnyStored<F::Stored> as Stored>⟧.content request.now.inputs.paths.items stored.now }
    requires judged { AreJudgedFor (found_at ⟦<F as Known>⟧.reach files.now) stored_reason request.now.inputs.paths.items stored.now }
    requires some { 0 < length request.now.inputs.paths.items }
    ensures puts { Puts ⟦<F as Known>⟧.reach (IsMerged ⟦<F as Known>⟧.reach files.old request.now) request.now.out.now files.old files.new result }
    ensures unkept { IsErrOf result Refusal.Unkept → F.tells → HasPut ⟦<F as Known>⟧.reach (IsMerged ⟦<F as Known>⟧.reach files.old request.now) request.now.out.now files.old files.new }
    ensures why { IfErr result (IsUnmerged ⟦<F as Known>⟧.reach files.old request.now) }
{
    let paths = request.inputs.paths.as_slice();
    let mut tally = match indexed(alloc, stored, paths, request.force) {
        Ok(tally) => tally,
        Err(refusal) => return Err(refusal),
    };
    match put_index(
        alloc,
        tally.index(),
        stored,
        request.version,
        request.out,
        files,
    ) {
        Ok(()) => {
            let totals = tally.close();
            remark_on_merge(alloc, paths.len(), totals, tally.disagreements(), files);
            Ok(())
        }
        Err(refusal) => Err(refusal),
    }
}
