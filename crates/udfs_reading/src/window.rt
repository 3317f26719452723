//! The bytes of a file that were read ahead of the fields that are judged.

ghost use Rattle.std.specs.Prelude.{◌≡◌, ℕ, slice_index, ◌-◌, ◌<◌, ◌≤◌, ◌+◌, ◌%◌, ◌^◌, [], length, take, drop, slice_range, get_or, IfOk, OnErr, true, false};
ghost use Rattle.std.specs.Io.KnownBytes.{Consumes, IsAtEnd};
ghost use Rattle.udfs_reading.specs.Device.{CountsFault, left};

use crate::device::{DeviceFault, Source};
use std::marker::Model;

/// How many bytes a source is asked for at once.
const PIECE: usize = 65_536;

/// Bytes that were read and not yet taken. They are in an array in the window itself, and no memory is allocated. It counts
/// the bytes of the input that were taken from it.
#[derive(Drop)]
pub struct Window {
    bytes: [u8; 65_536],
    start: usize,
    end: usize,
    /// The number of bytes of the input before those that are held, modulo 2 ^ 64.
    at: u64,
}

impl Model for Window {
    ghost use Rattle.std.specs.Prelude.{◌≤◌, slice_range};
    ghost use Rattle.udfs_reading.specs.Places.{Ahead, ahead_code};

    ghost Value = { Ahead };

    ghost coded = { ahead_code };

    ghost view = { λ w. record { bytes = slice_range w.bytes w.start w.end; at = w.at } };

    ghost invariant = { λ w. (w.start ≤ w.end) × (w.end ≤ 65536) };
}

/// Moves the bytes from `start` to `end` to the front.
fn move_to_front(bytes: &mut [u8], start: usize, end: usize)
    requires order { start ≤ end }
    requires within { end ≤ length bytes.now }
    ensures len { length bytes.new ≡ length bytes.old }
    ensures moved { take (end - start) bytes.new ≡ slice_range bytes.old start end }
{
    if start > 0 {
        bytes.copy_within(start..end, 0);
    }
}

/// The same bytes, each of which is below 256.
fn bounded(bytes: &[u8]) -> &[u8]
    ensures same { result.now ≡ bytes.now }
    ensures range { (i : ℕ) → slice_index result.now i < 256 }
{
    bytes
}

impl Window {
    pub fn new() -> Self
        ensures bytes { result.bytes ≡ [] }
        ensures at { result.at ≡ 0 }
    {
        Window {
            bytes: [0; 65_536],
            start: 0,
            end: 0,
            at: 0,
        }
    }

    pub fn len(&self) -> usize
        ensures { result ≡ length self.now.bytes }
    {
        self.end - self.start
    }

    /// The number of bytes of the input before those that are held, modulo 2 ^ 64.
    pub fn at(&self) -> u64
        ensures { result ≡ self.now.at }
    {
        self.at
    }

    /// The bytes, in the order in which they were read.
    pub fn bytes(&self) -> &[u8]
        ensures value { result.now ≡ self.now.bytes }
        ensures range { (i : ℕ) → slice_index result.now i < 256 }
    {
        bounded(&self.bytes[self.start..self.end])
    }

    /// The first `N` bytes.
    pub fn chunk<const N: usize>(&self) -> &[u8; N]
        requires { N ≤ length self.now.bytes }
        ensures value { result.now ≡ take N self.now.bytes }
        ensures range { (i : ℕ) → slice_index result.now i < 256 }
    {
        self.bytes().first_chunk::<N>().unwrap()
    }

    /// Lets go of the first bytes.
    pub fn take(&mut self, count: usize)
        requires { count ≤ length self.now.bytes }
        ensures bytes { self.new.bytes ≡ drop count self.old.bytes }
        ensures at { self.new.at ≡ (self.old.at + count) % 2 ^ 64 }
    {
        self.start += count;
        self.at = self.at.wrapping_add(count as u64);
    }

    /// Lets go of all bytes, and of the input: what is read next is the front of another one.
    pub fn clear(&mut self)
        ensures bytes { self.new.bytes ≡ [] }
        ensures at { self.new.at ≡ 0 }
    {
        self.start = 0;
        self.end = 0;
        self.at = 0;
    }

    /// Asks the source once for as many more bytes as there is room for, and returns how many came.
    fn more<R: Source>(&mut self, source: &mut R) -> Result<usize, DeviceFault>
        requires { length self.now.bytes < 2048 }
        ensures left { Consumes (left self.old.bytes (R.remaining source.old)) (left self.new.bytes (R.remaining source.new)) [] }
        ensures grown { IfOk result (λ n. length self.new.bytes ≡ length self.old.bytes + n) }
        ensures end { IfOk result (λ n. n ≡ 0 → IsAtEnd (R.remaining source.new)) }
        ensures fault { OnErr result (self.new.bytes ≡ self.old.bytes) }
        ensures at { self.new.at ≡ self.old.at }
        ensures count { CountsFault (R.faults source.old) (R.faults source.new) result }
    {
        move_to_front(&mut self.bytes, self.start, self.end);
        self.end -= self.start;
        self.start = 0;
        let count = source.read(&mut self.bytes[self.end..])?;
        self.end += count;
        Ok(count)
    }

    /// Reads ahead until there are `size` bytes, and returns whether there are. If not, the source is at its end.
    pub fn hold<R: Source>(&mut self, source: &mut R, size: usize) -> Result<bool, DeviceFault>
        requires { size ≤ 2048 }
        ensures left { Consumes (left self.old.bytes (R.remaining source.old)) (left self.new.bytes (R.remaining source.new)) [] }
        ensures held { IfOk result (λ held. held ≡ true → size ≤ length self.new.bytes) }
        ensures short { IfOk result (λ held. held ≡ false → length self.new.bytes < size) }
        ensures end { IfOk result (λ held. held ≡ false → IsAtEnd (R.remaining source.new)) }
        ensures fault { OnErr result (length self.new.bytes < size) }
        ensures at { self.new.at ≡ self.old.at }
        ensures count { CountsFault (R.faults source.old) (R.faults source.new) result }
    {
        while self.len() < size {
            if self.more(source)? == 0 {
                return Ok(false);
            }
        }
        Ok(true)
    }
}
