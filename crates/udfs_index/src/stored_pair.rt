//! An image with its known blocks, as an input that is read at any position.

ghost use Rattle.std.specs.Prelude.{◌≡◌, ◌⊎◌, None, IfOk, IfSome};
ghost use Rattle.udfs_rescue.specs.Blocks.{reading_known};
ghost use Rattle.udfs_index.specs.Told.{AreInside, HasSize, HasSize-prop};

use crate::giving::{give_behind, give_header};
use crate::pair_blocks::NumberedBlocks;
use crate::{HEADER, RECORD, Stored};
use std::alloc::{AllocError, Global};
use std::time::SystemTime;
use udfs_reading::DeviceFault;
use udfs_rescue::KnownBlocks;

/// An image with its known blocks, all of which are in the image, as the reading (`UDFREAD1`) of these blocks, in rising order. Its records are at the
/// same positions as in a file. Only known blocks are read from the image, and none of its bytes are kept.
#[derive(Drop)]
pub struct StoredPair<S: Stored> {
    image: S,
    /// How many bytes the image had when it was opened.
    size: u64,
    blocks: NumberedBlocks,
    ghost told: { HasSize (S.content image) size } by { HasSize-prop (S.content image) size },
    ghost inside: { AreInside blocks size },
}

impl<S: Stored> StoredPair<S> {
    /// The reading of these blocks of an image that has `size` bytes.
    ///
    /// # Errors
    ///
    /// `AllocError` if memory ran out.
    pub fn new(
        alloc: Global,
        image: S,
        size: u64,
        known: KnownBlocks,
    ) -> Result<StoredPair<S>, AllocError>
    where
        S: Drop,
        requires told { HasSize (S.content image) size }
        requires inside { AreInside known size }
        ensures { IfOk result (λ pair. ⟦<StoredPair<S> as Stored>⟧.content pair ≡ reading_known (S.content image) known) }
    {
        let blocks = NumberedBlocks::new(alloc, known)?;
        Ok(StoredPair {
            image,
            size,
            blocks,
        })
    }
}

impl<S: Stored> Stored for StoredPair<S> {
    ghost content = { λ p. reading_known (S.content p.image) p.blocks };

    ghost fails = { λ p. (S.content p.image ≡ None) ⊎ S.fails p.image };

    /// How many bytes the reading has. An image that has another size than when it was opened is a fault of its device.
    fn size(&self) -> Result<u64, DeviceFault> {
        let size = self.image.size()?;
        if size != self.size {
            return Err(DeviceFault);
        }
        Ok(HEADER + RECORD * self.blocks.count() as u64)
    }

    fn changed(&self) -> Option<SystemTime> {
        self.image.changed()
    }

    fn records(&self) -> Option<u32> {
        match self.image.size() {
            Ok(_) => Some(self.blocks.count()),
            Err(_) => None,
        }
    }

    fn block_of(&self, number: u32) -> Option<u32> {
        match self.blocks.find(number as u64) {
            Some(found) => Some(found.block),
            None => None,
        }
    }

    fn read_at(&self, at: u64, buf: &mut [u8]) -> Result<usize, DeviceFault> {
        if at < HEADER {
            return Ok(give_header(self.blocks.count(), at as usize, buf));
        }
        let number = (at - HEADER) / RECORD;
        let skip = ((at - HEADER) % RECORD) as usize;
        match self.blocks.find(number) {
            Some(found) => give_behind(&self.image, found, skip, buf),
            None => Ok(0),
        }
    }
}
