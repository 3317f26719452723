//! The tag at the front of a descriptor (ECMA-167 3/7.2 and 4/7.2).

ghost use Rattle.std.specs.Prelude.{◌≡◌, ◌≤◌, ◌<◌, ◌+◌, ◌-◌, ◌%◌, ◌++◌, ◌↔◌, length, take, sum, MatchOption, IfOk, IfErr, IsTrue, Ok};
ghost use Rattle.udfs_tag.specs.Crc.{crc_of};
ghost use Rattle.udfs_tag.specs.Tags.{tag_of, is_valid, IsAccepted, IsFirstFault};
ghost use Rattle.udfs_tag.specs.Steps.{verdict};

use crate::checksum::extended;
use byteorder::{ByteOrder, LittleEndian};
use std::error::Error;
use std::fmt;

/// What is kept of a tag that is accepted.
#[derive(Clone, Copy, Debug, PartialEq, Eq)]
pub struct Tag {
    /// The kind of descriptor that begins with the tag (ECMA-167 3/7.2.1 and 4/7.2.1).
    pub identifier: u16,
}

/// Why a tag is not accepted. Of several faults the one with the least number is reported.
#[derive(Clone, Copy, Debug, PartialEq, Eq, PartialOrd, Ord)]
pub enum TagFault {
    /// Byte 4 is not the sum modulo 256 of bytes 0 to 3 and 5 to 15 (ECMA-167 3/7.2.3).
    Checksum = 1,
    /// The version is not 2 or 3 (ECMA-167 3/7.2.2). A block of zeros has this fault.
    Version = 2,
    /// The bytes end before those that the CRC covers (ECMA-167 3/7.2.7).
    CrcLength = 3,
    /// The CRC is not that of the covered bytes (ECMA-167 3/7.2.6).
    Crc = 4,
    /// The tag gives another location (ECMA-167 3/7.2.8), as that of a descriptor copied from elsewhere does.
    Location = 5,
}

impl fmt::Display for TagFault {
    fn fmt<W: fmt::Write>(&self, f: &mut fmt::Formatter<W>) -> fmt::Result {
        match self {
            TagFault::Checksum => write!(f, "the tag's checksum is not that of its bytes"),
            TagFault::Version => write!(f, "the tag's version is not 2 or 3"),
            TagFault::CrcLength => write!(f, "the CRC covers more bytes than there are"),
            TagFault::Crc => write!(f, "the CRC is not that of the covered bytes"),
            TagFault::Location => write!(f, "the tag says that it stands elsewhere"),
        }
    }
}

impl Error for TagFault {}

/// The sum modulo 256.
fn sum_of(bytes: &[u8]) -> u8
    ensures { result ≡ sum bytes.now % 256 }
{
    let mut total: u8 = 0;
    for byte in bytes {
        total = total.wrapping_add(*byte);
    }
    total
}

/// The first 16 bytes of two pieces, the first of which has fewer.
fn joined(first: &[u8], second: &[u8]) -> [u8; 16]
    requires cut { length first.now < 16 }
    requires whole { 16 ≤ length first.now + length second.now }
    ensures { result ≡ first.now ++ take (16 - length first.now) second.now }
{
    let mut header = [0; 16];
    header[..first.len()].copy_from_slice(first);
    header[first.len()..].copy_from_slice(&second[..16 - first.len()]);
    header
}

impl Tag {
    /// Checks the tag in the first 16 bytes, over the bytes that follow it, for a descriptor at
    /// `location`: a sector number, or within a partition a logical block number.
    ///
    /// A CRC length of 0 is that of no bytes, whose CRC is 0. The reserved byte and the serial number
    /// decide nothing, but they are summed.
    ///
    /// # Errors
    ///
    /// The fault with the least number among those that hold.
    pub fn check(bytes: &[u8], location: u32) -> Result<Tag, TagFault>
        requires { 16 ≤ length bytes.now }
        ensures value { result ≡ tag_of bytes.now location }

        // The same by division, and for faults in any order: all is right, or the least that holds.
        ensures accepted { IfOk result (IsAccepted bytes.now location) }
        ensures fault { IfErr result (IsFirstFault bytes.now location) }
    {
        let (header, rest) = bytes.split_at(16);
        judged(header, rest, &[], location)
    }

    /// [`Tag::check`] of the two pieces put together, the first directly before the second. Either may
    /// be empty, and the tag itself may be cut. Nothing is copied but the bytes of a tag that is cut.
    ///
    /// # Errors
    ///
    /// Those of [`Tag::check`].
    pub fn check2(first: &[u8], second: &[u8], location: u32) -> Result<Tag, TagFault>
        requires { 16 ≤ length first.now + length second.now }
        ensures value { result ≡ tag_of (first.now ++ second.now) location }
        ensures accepted { IfOk result (IsAccepted (first.now ++ second.now) location) }
        ensures fault { IfErr result (IsFirstFault (first.now ++ second.now) location) }
    {
        if first.len() >= 16 {
            let (header, rest) = first.split_at(16);
            return judged(header, rest, second, location);
        }
        let header = joined(first, second);
        let (_, rest) = second.split_at(16 - first.len());
        judged(&header, &[], rest, location)
    }

    /// Whether [`Tag::check`] accepts the tag at this location, and its identifier is this one.
    pub fn is_valid(bytes: &[u8], location: u32, identifier: u16) -> bool
        requires { 16 ≤ length bytes.now }
        ensures value { result ≡ is_valid bytes.now location identifier }
        ensures accepted { IsTrue result ↔ (tag_of bytes.now location ≡ Ok (record { identifier = identifier })) }
    {
        match Tag::check(bytes, location) {
            Ok(tag) => tag.identifier == identifier,
            Err(_) => false,
        }
    }
}

/// The CRC of the first `count` bytes of two pieces, or `None` where they have fewer.
fn crc_of_pieces(front: &[u8], back: &[u8], count: usize) -> Option<u16>
    ensures { MatchOption result (length front.now + length back.now < count)
        (λ crc. (count ≤ length front.now + length back.now) × (crc ≡ crc_of (take count (front.now ++ back.now)))) }
{
    if count <= front.len() {
        return Some(extended(0, &front[..count]));
    }
    let rest = count - front.len();
    if rest > back.len() {
        return None;
    }
    Some(extended(extended(0, front), &back[..rest]))
}

/// The tag in the header, over what follows it in two pieces.
#[tactic(auto, unfolding(crate::specs::Steps::verdict))]
fn judged(header: &[u8], front: &[u8], back: &[u8], location: u32) -> Result<Tag, TagFault>
    requires { length header.now ≡ 16 }
    ensures { result ≡ verdict header.now (front.now ++ back.now) location }
{
    if sum_of(&header[..4]).wrapping_add(sum_of(&header[5..])) != header[4] {
        return Err(TagFault::Checksum);
    }
    let version = LittleEndian::read_u16(&header[2..]);
    if version != 2 && version != 3 {
        return Err(TagFault::Version);
    }
    let covered = LittleEndian::read_u16(&header[10..]) as usize;
    let Some(crc) = crc_of_pieces(front, back, covered) else {
        return Err(TagFault::CrcLength);
    };
    if crc != LittleEndian::read_u16(&header[8..]) {
        return Err(TagFault::Crc);
    }
    if LittleEndian::read_u32(&header[12..]) != location {
        return Err(TagFault::Location);
    }
    Ok(Tag {
        identifier: LittleEndian::read_u16(header),
    })
}
