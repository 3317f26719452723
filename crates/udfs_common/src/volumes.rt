//! What was read of the disc of a volume: the join of its inputs, and where it ends.

ghost use Rattle.std.specs.Prelude.{◌≡◌, ◌⊎◌, IfOk, IfErr};
ghost use Rattle.udfs_common.specs.Volumes.{IsDisc, IsNoVolume};

use crate::ends::last_block;
use crate::files::Files;
use crate::inputs::{joined, unwritten};
use crate::known::Known;
use crate::refusal::Refusal;
use std::alloc::Global;
use udfs_lattice::BlockTable;
use udfs_words::request::VolumeSource;

/// What is known of the disc of a volume.
#[derive(Drop)]
pub struct Disc {
    /// The join of what was read of it.
    pub table: BlockTable,
    /// The number of its last block.
    pub last: u32,
}

/// What is known of the disc of a volume: where it ends is found first, and then the inputs are joined. All are opened in order before one is read. An image that
/// is of another disc than the inputs before it is refused, unless the volume says that it is to be joined.
///
/// # Errors
///
/// Those of [`last_block`], and then those of [`joined`].
pub fn joined_volume<F: Files>(
    alloc: Global,
    volume: &VolumeSource<'_>,
    files: &F,
) -> Result<Disc, Refusal>
    ensures joined { IfOk result (IsDisc ⟦<F as Known>⟧.reach files.now volume.now) }
    ensures refused { IfErr result (IsNoVolume ⟦<F as Known>⟧.reach files.now volume.now) }
{
    let paths = volume.inputs.paths.as_slice();
    let last = match last_block(alloc, volume.last, paths, volume.force, files) {
        Ok(last) => last,
        Err(refusal) => return Err(refusal),
    };
    match joined(alloc, paths, volume.force, files) {
        Ok(table) => Ok(Disc { table, last }),
        Err(refusal) => Err(refusal),
    }
}

/// What is said of an output that could not be looked at: the inputs of the volume are judged before it.
pub fn unwritten_volume<F: Files>(alloc: Global, volume: &VolumeSource<'_>, files: &F) -> Refusal
    ensures { (result ≡ Refusal.Output) ⊎ IsNoVolume ⟦<F as Known>⟧.reach files.now volume.now result }
{
    let paths = volume.inputs.paths.as_slice();
    unwritten(alloc, paths, volume.force, files)
}
