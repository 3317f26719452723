//! The command `merge`: readings and table files in, one table file out.

ghost use Rattle.std.specs.Prelude.{◌≡◌, IfOk, IfErr, IsErrOf, OnOk};
ghost use Rattle.udfs_reading.specs.Writing.{Writes};
ghost use Rattle.udfs_common.specs.Puts.{HasPut, Puts};
ghost use Rattle.udfs_common.specs.Spelling.{table_file};
ghost use Rattle.udfs_tables.specs.Joining.{IsNotJoined, OfInputs};
ghost use Rattle.udfs_tables.specs.Merging.{IsMerged, IsUnmerged, MergeFails};
ghost use Rattle.udfs_tables.specs.Outputs.{IsOutFree};

use crate::closing::remark_on_merge;
use crate::merge_stored::merge_stored;
use crate::merge_tally::MergeTally;
use crate::outlook::check_out;
use std::alloc::{AllocError, Global};
use udfs_common::files::Files;
use udfs_common::inputs::take_all;
use udfs_common::known::Known;
use udfs_common::putting::put_file;
use udfs_common::refusal::Refusal;
use udfs_common::stored_inputs::open_all_stored;
use udfs_host_fs::Content;
use udfs_lattice::BlockTable;
use udfs_reading::{Sink, WriteFault, write_table, write_table_v1};
use udfs_words::forms::Version;
use udfs_words::request::{Inputs, MergeRequest};

/// A table to be written as a table file of this version.
#[derive(Drop)]
pub struct TableFile<'a> {
    pub table: &'a BlockTable,
    pub version: Version,
}

impl<'a> Content for TableFile<'a> {
    ghost bytes = { λ file. table_file file.version file.table.now };

    fn write_to<W: Sink>(&self, sink: &mut W) -> Result<(), WriteFault> {
        write_version(self.table, self.version, sink)
    }
}

/// The join of the inputs' tables, and what was counted of them.
fn tallied<F: Files>(
    alloc: Global,
    inputs: &Inputs<'_>,
    force: bool,
    files: &F,
) -> Result<MergeTally, Refusal>
    ensures joined { IfOk result (λ tally. OfInputs ⟦<F as Known>⟧.reach files.now inputs.now force (λ t. tally ≡ t)) }
    ensures refused { IfErr result (IsNotJoined ⟦<F as Known>⟧.reach files.now inputs.now force) }
{
    let paths = inputs.paths.as_slice();
    let mut tally = match MergeTally::new(alloc, paths.len()) {
        Ok(tally) => tally,
        Err(AllocError) => return Err(Refusal::Memory(AllocError)),
    };
    match take_all(alloc, paths, force, &mut tally, files) {
        Ok(()) => Ok(tally),
        Err(refusal) => Err(refusal),
    }
}

/// Joins the inputs and puts their table file, as [`merge`] does, and holds the blocks meanwhile.
fn merge_held<F: Files>(
    alloc: Global,
    request: &MergeRequest<'_>,
    files: &mut F,
) -> Result<(), Refusal>
    ensures puts { Puts ⟦<F as Known>⟧.reach (IsMerged ⟦<F as Known>⟧.reach files.old request.now) request.now.out.now files.old files.new result }
    ensures unkept { IsErrOf result Refusal.Unkept → F.tells → HasPut ⟦<F as Known>⟧.reach (IsMerged ⟦<F as Known>⟧.reach files.old request.now) request.now.out.now files.old files.new }
    ensures why { IfErr result (IsUnmerged ⟦<F as Known>⟧.reach files.old request.now) }
{
    let mut tally = match tallied(alloc, &request.inputs, request.force, files) {
        Ok(tally) => tally,
        Err(refusal) => return Err(refusal),
    };
    let content = TableFile {
        table: tally.table(),
        version: request.version,
    };
    match put_file(alloc, &content, request.out, files) {
        Ok(()) => {
            let totals = tally.close();
            let inputs = request.inputs.paths.len();
            remark_on_merge(alloc, inputs, totals, tally.disagreements(), files);
            Ok(())
        }
        Err(refusal) => Err(refusal),
    }
}

/// Joins the inputs and puts their table file, as [`merge`] does, and holds no block where all of them can be read at positions.
fn merge_inputs<F: Files>(
    alloc: Global,
    request: &MergeRequest<'_>,
    files: &mut F,
) -> Result<(), Refusal>
    ensures puts { Puts ⟦<F as Known>⟧.reach (IsMerged ⟦<F as Known>⟧.reach files.old request.now) request.now.out.now files.old files.new result }
    ensures unkept { IsErrOf result Refusal.Unkept → F.tells → HasPut ⟦<F as Known>⟧.reach (IsMerged ⟦<F as Known>⟧.reach files.old request.now) request.now.out.now files.old files.new }
    ensures why { IfErr result (IsUnmerged ⟦<F as Known>⟧.reach files.old request.now) }
{
    let paths = request.inputs.paths.as_slice();
    // Where there is no input, nothing is read again.
    if paths.is_empty() {
        return merge_held(alloc, request, files);
    }
    match open_all_stored(alloc, paths, files) {
        Ok(Some(stored)) => merge_stored(alloc, stored.as_slice(), request, files),
        Ok(None) => merge_held(alloc, request, files),
        Err(refusal) => Err(refusal),
    }
}

/// Joins the inputs, and puts their table file at the output's path, over an old one. An image that disagrees with the inputs before it so that it is of another
/// disc is refused, but by force. All inputs are opened in order before one is read, and the output is begun only after all are joined. A file is put in its place
/// whole or not at all, and the output may be one of the inputs; a device or a pipe is written in place. Where each input is a regular file by its own path, or an
/// image and a mapfile that are, no block is held: of each known block is kept in which input its bytes are, and where, and they are read again when they are
/// written. An input must not change meanwhile: where its length or its time of change has, the merge fails before a file is in the output's place.
///
/// # Errors
///
/// `Spared` where the output would take the place of an image or a mapfile of the inputs or, without force, of a file with bytes that is no input and no table file. Why the inputs are not
/// joined. `Reread` where an input could not be read a second time or has changed: the new file is removed again. `Output` where what is at the output's path could
/// not be looked at, or a call that puts the file failed: its path then holds what it held, unless it is that of a device or a pipe, and so it does after `Reread`.
/// `Unkept` where the file is in its place and only its folder could not be synced. `Memory` if memory ran out. Any error but `Output`, `Unkept` and `Reread`
/// leaves all files as they were.
pub fn merge<F: Files>(
    alloc: Global,
    request: &MergeRequest<'_>,
    files: &mut F,
) -> Result<(), Refusal>
    // The output's path holds the table file of the join of what the inputs hold, none of them of another disc but by force; or, after an error, what it held,
    // and no other path changes. So does a crash at any moment leave it.
    ensures puts { Puts ⟦<F as Known>⟧.reach (IsMerged ⟦<F as Known>⟧.reach files.old request.now) request.now.out.now files.old files.new result }
    // With `Unkept` that file is in its place.
    ensures unkept { IsErrOf result Refusal.Unkept → F.tells → HasPut ⟦<F as Known>⟧.reach (IsMerged ⟦<F as Known>⟧.reach files.old request.now) request.now.out.now files.old files.new }
    // It takes the place of no file but an input, a table file or an empty one, but by force, and never that of an image or a mapfile of the inputs.
    ensures free { OnOk result (IsOutFree ⟦<F as Known>⟧.reach files.old request.now.inputs request.now.force request.now.out.now) }
    ensures why { IfErr result (MergeFails ⟦<F as Known>⟧.reach files.old request.now) }
{
    match check_out(alloc, &request.inputs, request.force, request.out, files) {
        Ok(()) => {}
        Err(refusal) => return Err(refusal),
    }
    match merge_inputs(alloc, request, files) {
        Ok(()) => Ok(()),
        Err(refusal) => Err(refusal),
    }
}

/// Writes the table file of this version.
fn write_version<W: Sink>(
    table: &BlockTable,
    version: Version,
    output: &mut W,
) -> Result<(), WriteFault>
    ensures { Writes (W.stream output.old) (W.stream output.new) (table_file version table.now) result }
{
    match version {
        Version::One => write_table_v1(table, output),
        Version::Two => write_table(table, output),
    }
}
