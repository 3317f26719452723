//! What a read of an image with its mapfile gives: a part of the header, of a block's number or of its bytes, or whole records.

ghost use Rattle.std.specs.Prelude.{◌≡◌, ◌+◌, ◌-◌, ◌*◌, ◌<◌, ◌≤◌, length, take, drop, OnErr, IfOk, IfSome};
ghost use Rattle.udfs_reading.specs.Format.{header, number};
ghost use Rattle.udfs_reading.specs.Reading.{magic};
ghost use Rattle.udfs_index.specs.Fronts.{IsFrontBehind, MayFail};

use crate::Stored;
use crate::pair_blocks::Found;
use crate::spreading::spread;
use byteorder::{ByteOrder, LittleEndian};
use udfs_reading::DeviceFault;

/// How many blocks are read at once: 256 KiB.
const BLOCKS_AT_ONCE: usize = 128;

/// Copies the bytes after the first `skip` ones into the front of the buffer, as many as fit, and returns how many these are.
fn give(bytes: &[u8], skip: usize, buf: &mut [u8]) -> usize
    requires { skip < length bytes.now }
    ensures bound { result ≤ length buf.new }
    ensures few { result ≤ length bytes.now - skip }
    ensures value { take result buf.new ≡ take result (drop skip bytes.now) }
    ensures some { 0 < length buf.new → 0 < result }
{
    let count = (bytes.len() - skip).min(buf.len());
    buf[..count].copy_from_slice(&bytes[skip..skip + count]);
    count
}

/// Gives the bytes after the first `skip` ones of the header of a reading of `count` records.
pub fn give_header(count: u32, skip: usize, buf: &mut [u8]) -> usize
    requires { skip < 16 }
    ensures bound { result ≤ length buf.new }
    ensures few { result ≤ 16 - skip }
    ensures value { take result buf.new ≡ take result (drop skip (header magic count)) }
    ensures some { 0 < length buf.new → 0 < result }
{
    let mut bytes = [0u8; 16];
    let mut number = [0; 4];
    LittleEndian::write_u32(&mut number, count);
    bytes[..12].copy_from_slice(b"UDFREAD1\x00\x08\x00\x00");
    bytes[12..].copy_from_slice(&number);
    give(&bytes, skip, buf)
}

/// Gives the bytes of the number of a block after the first `skip` ones, as many as fit, and returns how many these are.
fn give_number(block: u32, skip: usize, buf: &mut [u8]) -> usize
    requires { skip < 4 }
    ensures bound { result ≤ length buf.new }
    ensures few { result ≤ 4 - skip }
    ensures value { take result buf.new ≡ take result (drop skip (number block)) }
    ensures some { 0 < length buf.new → 0 < result }
{
    let mut bytes = [0; 4];
    LittleEndian::write_u32(&mut bytes, block);
    give(&bytes, skip, buf)
}

/// Gives the bytes of a block after the first `skip` ones, as many as fit and one read of the image brings, and returns how many these are.
/// An image that ends before them is a fault of its device.
fn give_bytes<S: Stored>(
    image: &S,
    block: u32,
    skip: usize,
    buf: &mut [u8],
) -> Result<usize, DeviceFault>
    requires skip { skip < 2048 }
    requires block { block ≤ 4194303 }
    ensures bound { IfOk result (λ n. n ≤ length buf.new) }
    ensures few { IfOk result (λ n. n ≤ 2048 - skip) }
    ensures value { IfSome (S.content image.now) (λ all. IfOk result (λ n. take n buf.new ≡ take n (drop (2048 * block + skip) all))) }
    ensures some { IfOk result (λ n. 0 < length buf.new → 0 < n) }
    ensures fails { OnErr result (MayFail (S.content image.now) (S.fails image.now) (block + 1)) }
{
    let room = (2048 - skip).min(buf.len());
    let count = image.read_at(block as u64 * 2048 + skip as u64, &mut buf[..room])?;
    if count == 0 && room > 0 {
        return Err(DeviceFault);
    }
    Ok(count)
}

/// Gives whole records from a block on, as many as there is room for and one read of the image brings; none where that brings no whole block.
fn give_records<S: Stored>(image: &S, found: Found, buf: &mut [u8]) -> Result<usize, DeviceFault>
    requires room { 2052 ≤ length buf.old }
    requires some { 0 < found.left }
    requires within { found.block + found.left ≤ 4194304 }
    ensures bound { IfOk result (λ n. n ≤ length buf.new) }
    ensures value { IfSome (S.content image.now) (λ all. IfOk result (λ n. IsFrontBehind all found.block found.left 0 n buf.new)) }
    ensures fails { OnErr result (MayFail (S.content image.now) (S.fails image.now) (found.block + found.left)) }
{
    let most = (buf.len() / 2052)
        .min(BLOCKS_AT_ONCE)
        .min(found.left as usize);
    let count = image.read_at(found.block as u64 * 2048, &mut buf[..most * 2048])?;
    if count == 0 {
        return Err(DeviceFault);
    }
    let many = count / 2048;
    spread(buf, found.block, many);
    Ok(many * 2052)
}

/// Gives bytes of the records from block `found.block` on after the first `skip` ones, and returns how many these are: at least one, unless
/// the buffer is empty. `DeviceFault` if a read of the image fails, or begins at or after the image's end.
pub fn give_behind<S: Stored>(
    image: &S,
    found: Found,
    skip: usize,
    buf: &mut [u8],
) -> Result<usize, DeviceFault>
    requires skip { skip < 2052 }
    requires some { 0 < found.left }
    requires within { found.block + found.left ≤ 4194304 }
    ensures bound { IfOk result (λ n. n ≤ length buf.new) }
    ensures value { IfSome (S.content image.now) (λ all. IfOk result (λ n. IsFrontBehind all found.block found.left skip n buf.new)) }
    ensures some { IfOk result (λ n. 0 < length buf.new → 0 < n) }
    ensures fails { OnErr result (MayFail (S.content image.now) (S.fails image.now) (found.block + found.left)) }
{
    if skip == 0 && buf.len() >= 2052 {
        let given = give_records(image, found, buf)?;
        if given > 0 {
            return Ok(given);
        }
    }
    if skip < 4 {
        return Ok(give_number(found.block, skip, buf));
    }
    give_bytes(image, found.block, skip - 4, buf)
}
