//! What was read of the disc of a volume, where all inputs can be read at positions: an index of where its bytes are, and no block is held.

ghost use Rattle.std.specs.Prelude.{◌≡◌, IfOk, IfErr, IfSome};
ghost use Rattle.udfs_lattice.specs.Tables.{IsTable, Table};
ghost use Rattle.udfs_common.specs.Blaming.{stored_reason};
ghost use Rattle.udfs_common.specs.Indexing.{Indexed};
ghost use Rattle.udfs_common.specs.Volumes.{IsNoVolume, IsStoredDisc, IsVolumeUnread, OfToldVolume};

use crate::ends::last_block;
use crate::files::Files;
use crate::index_taking::reread_of;
use crate::indexing::index_all;
use crate::known::Known;
use crate::refusal::Refusal;
use crate::stored_inputs::open_all_stored;
use std::alloc::{AllocError, Global};
use udfs_index::{AnyStored, Cursor, Index, Stored, Unread};
use udfs_reading::Taker;
use udfs_words::request::VolumeSource;

/// The inputs of a volume, which are read at positions as often as it is wanted.
#[derive(Drop)]
pub struct StoredDisc<S: Stored> {
    /// The inputs, in their order. There is at least one.
    pub stored: Vec<AnyStored<S>>,
    /// The number of the last block of the disc.
    pub last: u32,
}

/// Opens the inputs of a volume to be read at positions, if each of them is a regular file by its own path, or an image and a mapfile that are. It returns
/// `None` where one is a pipe or a device, or there is none: [`joined_volume`](crate::volumes::joined_volume) reads them then. Where the disc ends is found first.
///
/// # Errors
///
/// Those of [`last_block`]; `Open` with the first input, counted from 1, that cannot be opened; or `Memory`.
pub fn stored_volume<F: Files>(
    alloc: Global,
    volume: &VolumeSource<'_>,
    files: &F,
) -> Result<Option<StoredDisc<F::Stored>>, Refusal>
    ensures stored { IfOk result (λ found. IfSome found (λ disc. IsStoredDisc ⟦<F as Known>⟧.reach files.now volume.now ⟦<AnyStored<F::Stored> as Stored>⟧.content stored_reason disc.stored.items disc.last)) }
    ensures refused { IfErr result (IsNoVolume ⟦<F as Known>⟧.reach files.now volume.now) }
{
    let paths = volume.inputs.paths.as_slice();
    let last = match last_block(alloc, volume.last, paths, volume.force, files) {
        Ok(last) => last,
        Err(refusal) => return Err(refusal),
    };
    if paths.is_empty() {
        return Ok(None);
    }
    match open_all_stored(alloc, paths, files) {
        Ok(Some(stored)) => Ok(Some(StoredDisc { stored, last })),
        Ok(None) => Ok(None),
        Err(refusal) => Err(refusal),
    }
}

/// Takes the inputs of a volume, as [`index_all`] does, and returns the index of where the bytes of their join are. Of a table file of version 2 only the headers
/// of its packets are read, and the blocks that an input before it knows too.
///
/// # Errors
///
/// As those of [`index_all`].
pub fn indexed_volume<'a, F: Files>(
    alloc: Global,
    volume: &VolumeSource<'_>,
    disc: &'a StoredDisc<F::Stored>,
    files: &F,
) -> Result<Index<'a, AnyStored<F::Stored>>, Refusal>
    requires { IsStoredDisc ⟦<F as Known>⟧.reach files.now volume.now ⟦<AnyStored<F::Stored> as Stored>⟧.content stored_reason disc.now.stored.items disc.now.last }
    // It has taken the join of what the inputs hold.
    ensures index { IfOk result (λ index. OfToldVolume ⟦<F as Known>⟧.reach files.now volume.now (λ last table. (last ≡ disc.now.last) × IsTable table × ⟦<Index<'a, AnyStored<F::Stored>> as Taker<Cursor<'a, AnyStored<F::Stored>>>>⟧.took index table)) }
    // Where it is not known what an input holds, some table is taken for its own.
    ensures taken { IfOk result (λ index. Indexed ⟦<AnyStored<F::Stored> as Stored>⟧.content volume.now.inputs.paths.items disc.now.stored.items volume.now.force (⟦<Index<'a, AnyStored<F::Stored>> as Taker<Cursor<'a, AnyStored<F::Stored>>>>⟧.took index)) }
    ensures refused { IfErr result (IsVolumeUnread ⟦<F as Known>⟧.reach files.now volume.now) }
{
    let _ = files;
    let mut index = match Index::new(alloc) {
        Ok(index) => index,
        Err(AllocError) => return Err(Refusal::Memory(AllocError)),
    };
    let paths = volume.inputs.paths.as_slice();
    match index_all(
        alloc,
        disc.stored.as_slice(),
        paths,
        volume.force,
        &mut index,
    ) {
        Ok(()) => Ok(index),
        Err(refusal) => Err(refusal),
    }
}

/// What is said of bytes of one of the inputs of a volume that could not be read again, or of an input that has changed since it was taken.
pub fn unread_volume<F: Files>(
    volume: &VolumeSource<'_>,
    disc: &StoredDisc<F::Stored>,
    unread: Unread,
    files: &F,
) -> Refusal
    requires { IsStoredDisc ⟦<F as Known>⟧.reach files.now volume.now ⟦<AnyStored<F::Stored> as Stored>⟧.content stored_reason disc.now.stored.items disc.now.last }
    ensures { IsVolumeUnread ⟦<F as Known>⟧.reach files.now volume.now result }
{
    let _ = volume;
    let _ = files;
    reread_of(disc.stored.as_slice(), unread)
}
