//! Which known block has a number among all that are known.

ghost use Rattle.std.specs.Prelude.{◌≡◌, ◌+◌, ◌<◌, ◌≤◌, length, slice_index, IfOk, IfSome, IfNone};
ghost use Rattle.udfs_rescue.specs.Known.{AreBlocks, block_count};
ghost use Rattle.udfs_index.specs.PairPlaced.{IsBeforeEach, IsBlockOf};

use std::alloc::{AllocError, Global};
use std::marker::Model;
use udfs_rescue::{BlockRange, KnownBlocks};

/// A block, and how many blocks of its range are from it on.
#[derive(Clone, Copy)]
pub struct Found {
    pub block: u32,
    pub left: u32,
}

/// Known blocks, and how many of them come before each of their ranges. A range takes 20 bytes.
#[derive(Drop)]
pub struct NumberedBlocks {
    known: KnownBlocks,
    before: Vec<u32>,
}

impl Model for NumberedBlocks {
    ghost use Rattle.std.specs.Prelude.{List};
    ghost use Rattle.udfs_rescue.specs.declared.known.BlockRange.{BlockRange};

    ghost Value = { List BlockRange };

    ghost use Rattle.udfs_index.specs.PairPlaced.{IsBeforeEach};

    ghost view = { λ b. b.known };

    ghost invariant = { λ b. IsBeforeEach b.before.items b.known };
}

/// How many blocks come before each of these ranges.
fn numbers_of(alloc: Global, ranges: &[BlockRange]) -> Result<Vec<u32>, AllocError>
    requires { AreBlocks ranges.now }
    ensures { IfOk result (λ before. IsBeforeEach before.items ranges.now) }
{
    let mut before = Vec::new(alloc);
    let mut count = 0u32;
    for range in ranges {
        before.push(count)?;
        count += (range.end - range.start) as u32;
    }
    Ok(before)
}

/// The place of the last number that is at most this one. The numbers do not fall.
fn last_at_most(before: &[u32], number: u64) -> usize
    requires some { 0 < length before.now }
    requires first { slice_index before.now 0 ≤ number }
    ensures there { result < length before.now }
    ensures most { slice_index before.now result ≤ number }
    ensures last { result + 1 < length before.now → number < slice_index before.now (result + 1) }
{
    let mut low = 0;
    let mut high = before.len();
    while high - low > 1 {
        let middle = low + (high - low) / 2;
        if before[middle] as u64 <= number {
            low = middle;
        } else {
            high = middle;
        }
    }
    low
}

impl NumberedBlocks {
    /// The known blocks, numbered.
    ///
    /// # Errors
    ///
    /// `AllocError` if memory ran out.
    pub fn new(alloc: Global, known: KnownBlocks) -> Result<NumberedBlocks, AllocError>
        ensures { IfOk result (λ blocks. blocks ≡ known) }
    {
        let before = numbers_of(alloc, known.ranges())?;
        Ok(NumberedBlocks { known, before })
    }

    /// How many they are.
    pub fn count(&self) -> u32
        ensures value { result ≡ block_count self.now }
        ensures blocks { AreBlocks self.now }
    {
        self.known.count()
    }

    /// The block that has this number among them, from 0.
    pub fn find(&self, number: u64) -> Option<Found>
        ensures some { IfSome result (λ found. IsBlockOf self.now number found.block found.left) }
        ensures none { IfNone result (block_count self.now ≤ number) }
    {
        if number >= self.known.count() as u64 {
            return None;
        }
        let index = last_at_most(&self.before, number);
        let range = self.known.ranges()[index];
        let first = range.start + (number - self.before[index] as u64);
        Some(Found {
            block: first as u32,
            left: (range.end - first) as u32,
        })
    }
}
