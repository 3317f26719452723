//! An image with the blocks that its mapfile makes known, as the source of their reading.

ghost use Rattle.std.specs.Prelude.{◌≡◌, ◌≢◌, [], OnOk, IfOk, IfSome};
ghost use Rattle.std.specs.Io.KnownBytes.{Keeps, IsAtEnd};
ghost use Rattle.udfs_rescue.specs.Blocks.{left_bytes, reading_known};

use crate::image::Image;
use crate::known::KnownBlocks;
use crate::piece::{Pending, Piece, Ranges};
use std::alloc::{AllocError, Global};
use udfs_reading::{DeviceFault, Source};

/// Makes the next record pending, where none is, and reads the next piece of the image where none is left.
fn refill<I: Image>(
    image: &mut I,
    pending: &mut Pending,
    piece: &mut Piece,
    left: &mut Ranges,
) -> Result<(), DeviceFault>
    ensures same { Keeps (left_bytes (I.bytes image.old) pending.old piece.old left.old) (left_bytes (I.bytes image.new) pending.new piece.new left.new) }
    ensures end { OnOk result (pending.new ≡ [] → IsAtEnd (left_bytes (I.bytes image.new) pending.new piece.new left.new)) }
{
    if !pending.is_empty() || piece.give(pending) {
        return Ok(());
    }
    let Some(front) = left.front() else {
        return Ok(());
    };
    piece.load(image, front)?;
    if !piece.give(pending) {
        return Err(DeviceFault);
    }
    left.advance(front);
    Ok(())
}

/// An image with the blocks that are known of it: a source of the reading file (`UDFREAD1`) of these blocks, in rising
/// order. It reads the image in pieces of up to 256 KiB, and nothing that is not known. An image that ends inside a
/// known block is a fault of the device there; [`KnownBlocks::first_outside`] finds such a block before anything is read.
#[derive(Drop)]
pub struct Pair<I: Image> {
    image: I,
    pending: Pending,
    piece: Piece,
    left: Ranges,
    faults: u64,
}

impl<I: Image> Pair<I> {
    /// The source of the reading of these blocks of the image. It takes 256 KiB.
    ///
    /// # Errors
    ///
    /// `AllocError` where there is no memory for the piece.
    pub fn new(alloc: Global, image: I, known: KnownBlocks) -> Result<Pair<I>, AllocError>
    where
        I: Drop,
        ensures bytes { IfOk result (λ pair. ⟦<Pair<I> as Source>⟧.remaining pair ≡ reading_known (I.bytes image) known) }
        ensures count { IfOk result (λ pair. ⟦<Pair<I> as Source>⟧.faults pair ≡ 0) }
    {
        let piece = Piece::new(alloc)?;
        let pending = Pending::header(known.count());
        Ok(Pair {
            image,
            pending,
            piece,
            left: Ranges::new(known.into_ranges()),
            faults: 0,
        })
    }
}

impl<I: Image> Source for Pair<I> {
    ghost remaining = { λ p. left_bytes (I.bytes p.image) p.pending p.piece p.left };

    ghost faults = { λ p. p.faults };

    fn read(&mut self, buf: &mut [u8]) -> Result<usize, DeviceFault> {
        match refill(
            &mut self.image,
            &mut self.pending,
            &mut self.piece,
            &mut self.left,
        ) {
            Ok(()) => Ok(self.pending.give(buf)),
            Err(_) => {
                self.faults = self.faults.wrapping_add(1);
                Err(DeviceFault)
            }
        }
    }
}
