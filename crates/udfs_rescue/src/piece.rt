//! Blocks that were read from an image and not yet given, and the ranges that are left.

ghost use Rattle.std.specs.Prelude.{◌≡◌, ◌≢◌, ◌↔◌, IsTrue, ℕ, ◌+◌, ◌-◌, ◌≤◌, ◌<◌, List, ◌*◌, [], ◌∷◌, ◌++◌, length, take, drop, true, false, OnOk, OnErr, IfOk, IfSome, IfNone};
ghost use Rattle.std.specs.Io.KnownBytes.{Keeps};
ghost use Rattle.std.specs.List.{flat_map};
ghost use Rattle.udfs_reading.specs.Reading.{magic, record_bytes};
ghost use Rattle.udfs_reading.specs.Format.{header};
ghost use Rattle.udfs_rescue.specs.Blocks.{records_from, records_in, IsFront, WithoutFront, AreSome};

use crate::image::{Image, fill};
use crate::known::BlockRange;
use byteorder::{ByteOrder, LittleEndian};
use std::alloc::{AllocError, Global};
use std::marker::Model;
use udfs_reading::DeviceFault;

/// How many bytes an image is asked for at once.
const PIECE: usize = 262_144;

/// How many blocks these are.
const BLOCKS_AT_ONCE: u64 = 128;

/// The bytes of one record, or of the header, of which the first were given.
#[derive(Drop)]
pub struct Pending {
    bytes: [u8; 2052],
    start: usize,
    end: usize,
}

impl Model for Pending {
    ghost use Rattle.std.specs.Prelude.{List, ℕ, ◌≤◌, slice_range};

    ghost Value = { List ℕ };

    ghost view = { λ p. slice_range p.bytes p.start p.end };

    ghost invariant = { λ p. (p.start ≤ p.end) × (p.end ≤ 2052) };
}

impl Pending {
    /// The header of a reading of `count` records.
    pub fn header(count: u32) -> Pending
        ensures { result ≡ header magic count }
    {
        let mut bytes = [0u8; 2052];
        let mut number = [0; 4];
        LittleEndian::write_u32(&mut number, count);
        bytes[..12].copy_from_slice(b"UDFREAD1\x00\x08\x00\x00");
        bytes[12..16].copy_from_slice(&number);
        Pending {
            bytes,
            start: 0,
            end: 16,
        }
    }

    pub fn is_empty(&self) -> bool
        ensures { IsTrue result ↔ (self.now ≡ []) }
    {
        self.start == self.end
    }

    /// Moves as many bytes into the front of the buffer as there is room for.
    pub fn give(&mut self, buf: &mut [u8]) -> usize
        ensures bound { result ≤ length buf.new }
        ensures given { self.old ≡ take result buf.new ++ self.new }
        ensures end { result ≡ 0 → 0 < length buf.new → self.old ≡ [] }
    {
        let count = (self.end - self.start).min(buf.len());
        buf[..count].copy_from_slice(&self.bytes[self.start..self.start + count]);
        self.start += count;
        count
    }

    /// Holds the record of a block, and nothing else.
    pub fn hold(&mut self, block: u32, bytes: &[u8; 2048])
        ensures { self.new ≡ record_bytes (block, bytes.now) }
    {
        let mut number = [0; 4];
        LittleEndian::write_u32(&mut number, block);
        self.bytes[..4].copy_from_slice(&number);
        self.bytes[4..].copy_from_slice(bytes);
        self.start = 0;
        self.end = 2052;
    }
}

/// Whole blocks that were read from an image at once, the first of them with this number.
#[derive(Drop)]
pub struct Piece {
    bytes: Vec<u8>,
    start: usize,
    block: u32,
    count: usize,
}

impl Model for Piece {
    ghost use Rattle.std.specs.Prelude.{◌≡◌, List, ℕ, ◌+◌, ◌*◌, ◌≤◌, drop, vec_len};
    ghost use Rattle.udfs_lattice.specs.Records.{Record};

    ghost Value = { List Record };

    ghost use Rattle.udfs_rescue.specs.Blocks.{records_in};

    ghost view = { λ p. records_in p.block p.count (drop p.start p.bytes.items) };

    ghost invariant = { λ p. (p.start + 2048 * p.count ≤ 262144) × (vec_len p.bytes ≡ 262144) × (p.block + p.count ≤ 4194304) };
}

impl Piece {
    /// No block yet. It takes 256 KiB.
    pub fn new(alloc: Global) -> Result<Piece, AllocError>
        ensures { IfOk result (λ piece. piece ≡ []) }
    {
        let bytes = vec![in alloc; 0u8; 262_144]?;
        Ok(Piece {
            bytes,
            start: 0,
            block: 0,
            count: 0,
        })
    }

    /// Moves the next record into the pending bytes, if there is one.
    pub fn give(&mut self, pending: &mut Pending) -> bool
        ensures some { result ≡ true → pending.new ++ flat_map record_bytes self.new ≡ flat_map record_bytes self.old }
        ensures held { result ≡ true → pending.new ≢ [] }
        ensures none { result ≡ false → (self.old ≡ []) × (self.new ≡ []) × (pending.new ≡ pending.old) }
    {
        if self.count == 0 {
            return false;
        }
        pending.hold(self.block, chunk_at::<2048>(&self.bytes, self.start));
        self.start += 2048;
        self.block += 1;
        self.count -= 1;
        true
    }

    /// Reads these blocks from the image. There is no block where the device fails, or the image ends before.
    pub fn load<I: Image>(&mut self, image: &mut I, range: BlockRange) -> Result<(), DeviceFault>
        requires some { range.start ≤ range.end }
        requires few { range.end - range.start ≤ 128 }
        requires within { range.end ≤ 4194304 }
        ensures ok { OnOk result (IfSome (I.bytes image.old) (λ all. self.new ≡ records_from all range.start (range.end - range.start))) }
        ensures err { OnErr result (self.new ≡ []) }
        ensures same { Keeps (I.bytes image.old) (I.bytes image.new) }
    {
        self.count = 0;
        let count = (range.end - range.start) as usize;
        match read_blocks(image, &mut self.bytes, range.start, count) {
            Ok(true) => {
                self.start = 0;
                self.block = range.start as u32;
                self.count = count;
                Ok(())
            }
            _ => Err(DeviceFault),
        }
    }
}

/// Reads `count` blocks from block `first` on to the front of the buffer, and returns whether the image had them all.
fn read_blocks<I: Image>(
    image: &mut I,
    bytes: &mut [u8],
    first: u64,
    count: usize,
) -> Result<bool, DeviceFault>
    requires room { 2048 * count ≤ length bytes.old }
    requires within { first + count ≤ 4194304 }
    ensures value { IfOk result (λ whole. whole ≡ true → IfSome (I.bytes image.old) (λ all. records_in first count bytes.new ≡ records_from all first count)) }
    ensures same { Keeps (I.bytes image.old) (I.bytes image.new) }
{
    fill(image, first * 2048, &mut bytes[..count * 2048])
}

/// The `N` bytes from `start` on.
fn chunk_at<const N: usize>(bytes: &[u8], start: usize) -> &[u8; N]
    requires { start + N ≤ length bytes.now }
    ensures { result.now ≡ take N (drop start bytes.now) }
{
    bytes[start..].first_chunk::<N>().unwrap()
}

/// Ranges of blocks that are left: those from an index on.
#[derive(Drop)]
pub struct Ranges {
    ranges: Vec<BlockRange>,
    index: usize,
}

impl Model for Ranges {
    ghost use Rattle.std.specs.Prelude.{List, ◌≤◌, drop, vec_len};
    ghost use Rattle.udfs_rescue.specs.declared.known.BlockRange.{BlockRange};

    ghost Value = { List BlockRange };

    ghost use Rattle.udfs_rescue.specs.Blocks.{AreSome};

    ghost view = { λ r. drop r.index r.ranges.items };

    ghost invariant = { λ r. (r.index ≤ vec_len r.ranges) × AreSome (drop r.index r.ranges.items) };
}

impl Ranges {
    pub fn new(ranges: Vec<BlockRange>) -> Ranges
        requires { AreSome ranges.items }
        ensures { result ≡ ranges.items }
    {
        Ranges { ranges, index: 0 }
    }

    /// At most 128 blocks of the first range.
    pub fn front(&self) -> Option<BlockRange>
        ensures some { IfSome result (λ r. IsFront self.now r) }
        ensures none { IfNone result (self.now ≡ []) }
    {
        let first = *self.ranges.get(self.index)?;
        Some(BlockRange {
            start: first.start,
            end: first.end.min(first.start + BLOCKS_AT_ONCE),
        })
    }

    /// Lets go of the front.
    pub fn advance(&mut self, front: BlockRange)
        requires { IsFront self.old front }
        ensures { WithoutFront self.old front self.new }
    {
        if front.end == self.ranges[self.index].end {
            self.index += 1;
        } else {
            self.ranges[self.index].start = front.end;
        }
    }
}
