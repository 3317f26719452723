//! An image and its mapfile are judged before a block is read.

ghost use Rattle.std.specs.Prelude.{◌≡◌, ℕ, ◌+◌, ◌*◌, ◌≤◌, length, OnOk, IfOk, IfErr, IfSome, IsErrOf};
ghost use Rattle.udfs_rescue.specs.Opening.{AreKnownOf, IsReadingOf, PairFails};
ghost use Rattle.udfs_index.specs.Told.{AreInside, HasSize};

use crate::Stored;
use crate::stored_pair::StoredPair;
use std::alloc::Global;
use udfs_reading::{DeviceFault, ReadingError, ReadingFault, Source};
use udfs_rescue::{KnownBlocks, MapError, Mapfile, PairFault};

/// What a device that failed before a block was read is reported as.
const FAILED: PairFault = PairFault::Reading(ReadingError {
    fault: ReadingFault::Io,
    number: 0,
});

/// The known blocks of a mapfile.
fn known_of<M: Source>(alloc: Global, map: &mut M) -> Result<KnownBlocks, PairFault>
    ensures known { IfOk result (λ known. AreKnownOf (M.remaining map.old) known) }
    ensures fails { IfErr result (λ e. (image : _) → PairFails image (M.remaining map.old) e) }
    ensures kept { OnOk result (M.faults map.new ≡ M.faults map.old) }
    ensures memory { IsErrOf result PairFault.OutOfMemory → M.faults map.new ≡ M.faults map.old }
{
    let map = match Mapfile::read(alloc, map) {
        Ok(map) => map,
        Err(MapError::Line(fault)) => return Err(PairFault::Line(fault)),
        Err(MapError::Io) => return Err(FAILED),
        Err(MapError::OutOfMemory) => return Err(PairFault::OutOfMemory),
    };
    match KnownBlocks::of_map(alloc, &map) {
        Ok(known) => Ok(known),
        Err(error) => match error.fault {
            ReadingFault::OutOfMemory => Err(PairFault::OutOfMemory),
            _ => Err(PairFault::Reading(error)),
        },
    }
}

/// How many bytes the image has, if all known blocks are in it.
fn size_with<S: Stored>(image: &S, known: &KnownBlocks) -> Result<u64, PairFault>
    ensures told { IfOk result (λ size. HasSize (S.content image.now) size) }
    ensures inside { IfOk result (λ size. AreInside known.now size) }
    ensures fails { IfErr result (λ e. (map : _) → AreKnownOf map known.now → PairFails (S.content image.now) map e) }
{
    let size = match image.size() {
        Ok(size) => size,
        Err(DeviceFault) => return Err(FAILED),
    };
    match known.first_outside(size) {
        Some(block) => Err(PairFault::EndsBefore(block)),
        None => Ok(size),
    }
}

/// Reads a mapfile, and returns the reading of the blocks that it makes known of the image, all of which are in the image.
///
/// # Errors
///
/// As of [`open_pair`](udfs_rescue::open_pair).
pub fn open_stored_pair<S: Stored, M: Source>(
    alloc: Global,
    image: S,
    map: &mut M,
) -> Result<StoredPair<S>, PairFault>
where
    S: Drop,
    ensures reading { IfOk result (λ pair. IsReadingOf (S.content image) (M.remaining map.old) (⟦<StoredPair<S> as Stored>⟧.content pair)) }
    ensures fails { IfErr result (λ e. PairFails (S.content image) (M.remaining map.old) e) }
    // The mapfile's device has not failed; nor has it where memory is said to be wanting.
    ensures kept { OnOk result (M.faults map.new ≡ M.faults map.old) }
    ensures memory { IsErrOf result PairFault.OutOfMemory → M.faults map.new ≡ M.faults map.old }
{
    let known = match known_of(alloc, map) {
        Ok(known) => known,
        Err(fault) => return Err(fault),
    };
    let size = match size_with(&image, &known) {
        Ok(size) => size,
        Err(fault) => return Err(fault),
    };
    match StoredPair::new(alloc, image, size, known) {
        Ok(pair) => Ok(pair),
        Err(_) => Err(PairFault::OutOfMemory),
    }
}
