//! An image and its mapfile are judged before a block is read.

ghost use Rattle.std.specs.Prelude.{◌≡◌, ◌≢◌, ◌⊎◌, ◌↔◌, ℕ, ◌+◌, ◌*◌, ◌≤◌, length, OnOk, IfOk, IfErr, IfSome, IsErrAnd, IsErrOf};
ghost use Rattle.std.specs.Io.KnownBytes.{Keeps};
ghost use Rattle.udfs_reading.specs.declared.error.ReadingFault.TheVariants.{Io};
ghost use Rattle.udfs_rescue.specs.Known.{InRanges};
ghost use Rattle.udfs_rescue.specs.Opening.{AreKnownOf, IsReadingOf, IsTableOfPair, PairFails};

use crate::fault::{LineFault, MapError};
use crate::image::Image;
use crate::known::KnownBlocks;
use crate::mapfile::Mapfile;
use crate::pair::Pair;
use std::alloc::Global;
use udfs_reading::{DeviceFault, ReadingError, ReadingFault, Source};

/// Why an image with its mapfile has no reading.
#[derive(Clone, Copy, Debug, PartialEq, Eq)]
pub enum PairFault {
    /// A line of the mapfile is malformed.
    Line(LineFault),
    /// A device failed before a block was read, at record 0; or a known block is above 4,194,303, with its place among all known blocks, counted from 1.
    Reading(ReadingError),
    /// The image ends before the end of this block, the least such of those that are known.
    EndsBefore(u64),
    /// There is no memory for the runs, or for a piece of the image.
    OutOfMemory,
}

/// What a device that failed before a block was read is reported as.
const FAILED: PairFault = PairFault::Reading(ReadingError {
    fault: ReadingFault::Io,
    number: 0,
});

/// The known blocks of a mapfile.
fn known_of<M: Source>(alloc: Global, map: &mut M) -> Result<KnownBlocks, PairFault>
    ensures known { IfOk result (λ known. AreKnownOf (M.remaining map.old) known) }
    ensures fails { IfErr result (λ e. (image : _) → PairFails image (M.remaining map.old) e) }
    ensures kept { OnOk result (M.faults map.new ≡ M.faults map.old) }
    ensures memory { IsErrOf result PairFault.OutOfMemory → M.faults map.new ≡ M.faults map.old }
{
    let map = match Mapfile::read(alloc, map) {
        Ok(map) => map,
        Err(MapError::Line(fault)) => return Err(PairFault::Line(fault)),
        Err(MapError::Io) => return Err(FAILED),
        Err(MapError::OutOfMemory) => return Err(PairFault::OutOfMemory),
    };
    match KnownBlocks::of_map(alloc, &map) {
        Ok(known) => Ok(known),
        Err(error) => match error.fault {
            ReadingFault::OutOfMemory => Err(PairFault::OutOfMemory),
            _ => Err(PairFault::Reading(error)),
        },
    }
}

/// Whether all known blocks are in the image.
fn check_end<I: Image>(image: &mut I, known: &KnownBlocks) -> Result<(), PairFault>
    ensures inside { OnOk result (IfSome (I.bytes image.old) (λ all. (n : ℕ) → InRanges known.now n → 2048 * (n + 1) ≤ length all)) }
    ensures same { Keeps (I.bytes image.old) (I.bytes image.new) }
    ensures fails { IfErr result (λ e. (map : _) → AreKnownOf map known.now → PairFails (I.bytes image.old) map e) }
{
    let size = match image.size() {
        Ok(size) => size,
        Err(DeviceFault) => return Err(FAILED),
    };
    match known.first_outside(size) {
        Some(block) => Err(PairFault::EndsBefore(block)),
        None => Ok(()),
    }
}

/// Reads a mapfile, and returns the source of the reading of the blocks that it makes known of the image, all of which are in the image.
///
/// # Errors
///
/// In this order: the first malformed line of the mapfile, or its device's failure; a known block above 4,194,303; a known
/// block that is not wholly in the image, or the failure of its device. `OutOfMemory` where there is no memory.
pub fn open_pair<I: Image, M: Source>(
    alloc: Global,
    mut image: I,
    map: &mut M,
) -> Result<Pair<I>, PairFault>
where
    I: Drop,
    ensures reading { IfOk result (λ pair. IsReadingOf (I.bytes image) (M.remaining map.old) (⟦<Pair<I> as Source>⟧.remaining pair)) }
    // It has no fault, and its table knows exactly these blocks, with the image's bytes.
    ensures table { IfOk result (λ pair. IsTableOfPair (I.bytes image) (M.remaining map.old) (⟦<Pair<I> as Source>⟧.remaining pair)) }
    ensures fails { IfErr result (λ e. PairFails (I.bytes image) (M.remaining map.old) e) }
    // The mapfile's device has not failed; nor has it where memory is said to be wanting.
    ensures kept { OnOk result (M.faults map.new ≡ M.faults map.old) }
    ensures memory { IsErrOf result PairFault.OutOfMemory → M.faults map.new ≡ M.faults map.old }
{
    let known = match known_of(alloc, map) {
        Ok(known) => known,
        Err(fault) => return Err(fault),
    };
    match check_end(&mut image, &known) {
        Ok(()) => {}
        Err(fault) => return Err(fault),
    }
    match Pair::new(alloc, image, known) {
        Ok(pair) => Ok(pair),
        Err(_) => Err(PairFault::OutOfMemory),
    }
}
