//! `forget` of inputs that are read at positions: its output is written from an index, and no block is held.

ghost use Rattle.std.specs.Prelude.{◌≡◌, ◌<◌, IfErr, IsErrOf, length};
ghost use Rattle.udfs_common.specs.Blaming.{AreJudgedFor, stored_reason};
ghost use Rattle.udfs_common.specs.Keeping.{Opens};
ghost use Rattle.udfs_common.specs.Puts.{HasPut, Puts};
ghost use Rattle.udfs_common.specs.Reach.{found_at};
ghost use Rattle.udfs_lattice.specs.Tables.{Table};
ghost use Rattle.udfs_words.specs.Requests.{texts};
ghost use Rattle.udfs_tables.specs.Forgetting.{Forgets, IsForgotten, Lists};
ghost use Rattle.udfs_tables.specs.Outputs.{IsNotWritten};

use crate::indexed::put_index;
use crate::joining::index_of;
use std::alloc::Global;
use udfs_common::files::Files;
use udfs_common::known::Known;
use udfs_common::refusal::Refusal;
use udfs_index::{AnyStored, Cursor, Index, Stored};
use udfs_reading::Taker;
use udfs_words::forms::Version;
use udfs_words::request::ForgetRequest;

/// Makes these blocks unknown, and where that is asked those in conflict.
fn forget_in<'a, S: Stored>(index: &mut Index<'a, S>, conflicts: bool, blocks: &[u32])
    ensures { (t u : Table) → ⟦<Index<'a, S> as Taker<Cursor<'a, S>>>⟧.took index.old t → Forgets conflicts blocks.now t u → ⟦<Index<'a, S> as Taker<Cursor<'a, S>>>⟧.took index.new u }
{
    if conflicts {
        index.forget_conflicts();
    }
    index.forget_all(blocks);
}

/// Joins the inputs, which are opened, and puts the table file of their join without these blocks, as [`forget`](crate::forget::forget) does. Of each known block
/// it keeps in which input its bytes are, and where, and it reads them again when it writes them.
pub fn forget_stored<F: Files>(
    alloc: Global,
    stored: &[AnyStored<F::Stored>],
    request: &ForgetRequest<'_>,
    blocks: &[u32],
    files: &mut F,
) -> Result<(), Refusal>
    requires each { length stored.now ≡ length request.now.inputs.paths.items }
    requires opened { Opens (found_at ⟦<F as Known>⟧.reach files.now) ⟦<AnyStored<F::Stored> as Stored>⟧.content request.now.inputs.paths.items stored.now }
    requires judged { AreJudgedFor (found_at ⟦<F as Known>⟧.reach files.now) stored_reason request.now.inputs.paths.items stored.now }
    requires some { 0 < length request.now.inputs.paths.items }
    requires listed { Lists (found_at ⟦<F as Known>⟧.reach files.now) (texts request.now.lists.items) blocks.now }
    ensures puts { Puts ⟦<F as Known>⟧.reach (IsForgotten ⟦<F as Known>⟧.reach files.old request.now) request.now.out.now files.old files.new result }
    ensures unkept { IsErrOf result Refusal.Unkept → F.tells → HasPut ⟦<F as Known>⟧.reach (IsForgotten ⟦<F as Known>⟧.reach files.old request.now) request.now.out.now files.old files.new }
    ensures why { IfErr result (IsNotWritten ⟦<F as Known>⟧.reach files.old request.now.inputs request.now.force request.now.out.now) }
{
    let paths = request.inputs.paths.as_slice();
    let mut index = match index_of(alloc, stored, paths, request.force) {
        Ok(index) => index,
        Err(refusal) => return Err(refusal),
    };
    forget_in(&mut index, request.conflicts, blocks);
    match put_index(alloc, &index, stored, Version::Two, request.out, files) {
        Ok(()) => Ok(()),
        Err(refusal) => Err(refusal),
    }
}
