//! The descriptors of a volume descriptor sequence.

ghost use Rattle.std.specs.Prelude.{◌≡◌, ◌≤◌, ◌+◌, length, drop, map, option_map};
ghost use Rattle.std.specs.Str.{bytes_eq};
ghost use Rattle.udfs_tag.specs.Fields.{regid_of, uint16_at, uint32_at};
ghost use Rattle.udfs_volume.specs.Layout.{bp, logical_volume, sequence_number, partition, partition_number};
ghost use Rattle.udfs_volume.specs.Prevailing.{best_of, later_of};
ghost use Rattle.udfs_volume.specs.Sequences.{descriptor_now, lent_now, sequence_now};

use byteorder::{ByteOrder, LittleEndian};
use udfs_tag::{RegId, identifiers};

/// A descriptor of a sequence, sound at the place of the copy that was read.
#[derive(Debug, Drop)]
pub struct Descriptor {
    /// What kind of descriptor it is (ECMA-167 3/7.2.1).
    pub identifier: u16,
    /// The block that it fills.
    pub block: Box<[u8; 2048]>,
}

impl Descriptor {
    /// The 2032 bytes after the tag.
    pub(crate) fn content(&self) -> &[u8]
        ensures content { result.now ≡ (descriptor_now self.now).content }
        ensures size { length result.now ≡ 2032 }
    {
        let (_, content) = self.block.split_at(16);
        content
    }

    /// The bytes from `position` on, counted from the descriptor's first byte; `position` is after the tag.
    pub(crate) fn from(&self, position: usize) -> &[u8]
        requires from { 16 ≤ position }
        requires to { position ≤ 2048 }
        ensures value { result.now ≡ drop (bp position) (descriptor_now self.now).content }
        ensures size { length result.now + position ≡ 2048 }
    {
        behind(self.content(), position - 16)
    }

    /// The two-byte number at byte `position` of the descriptor, which is after its tag.
    pub(crate) fn uint16(&self, position: usize) -> u16
        requires from { 16 ≤ position }
        requires to { position + 2 ≤ 2048 }
        ensures { result ≡ uint16_at (descriptor_now self.now).content (bp position) }
    {
        LittleEndian::read_u16(self.from(position))
    }

    /// The four-byte number at byte `position` of the descriptor, which is after its tag.
    pub(crate) fn uint32(&self, position: usize) -> u32
        requires from { 16 ≤ position }
        requires to { position + 4 ≤ 2048 }
        ensures { result ≡ uint32_at (descriptor_now self.now).content (bp position) }
    {
        LittleEndian::read_u32(self.from(position))
    }

    /// The volume descriptor sequence number (ECMA-167 3/10.5.2, 3/10.6.2).
    pub fn number(&self) -> u32
        ensures { result ≡ sequence_number (descriptor_now self.now) }
    {
        self.uint32(16)
    }

    /// The partition number, of a partition descriptor (ECMA-167 3/10.5.4).
    pub fn partition_number(&self) -> u16
        ensures { result ≡ partition_number (descriptor_now self.now) }
    {
        self.uint16(22)
    }
}

/// The later one of the descriptor that prevails so far and the next one: on a tie the first.
fn later<'a>(best: Option<&'a Descriptor>, next: &'a Descriptor) -> &'a Descriptor
    ensures { descriptor_now result.now ≡ later_of (option_map lent_now best.entry) (descriptor_now next.now) }
{
    match best {
        Some(first) => {
            if first.number() < next.number() {
                next
            } else {
                first
            }
        }
        None => next,
    }
}

/// The descriptors of a volume descriptor sequence before its end, in their order.
#[derive(Debug, Drop)]
pub struct Sequence {
    pub descriptors: Vec<Descriptor>,
}

impl Sequence {
    /// The logical volume descriptor that prevails: the first one with the greatest sequence number
    /// (ECMA-167 3/8.4.3, 3/10.6).
    pub fn logical_volume(&self) -> Option<&Descriptor>
        ensures { option_map lent_now result ≡ logical_volume (sequence_now self.now) }
    {
        let mut best = None;
        for descriptor in &self.descriptors {
            if descriptor.identifier == identifiers::LOGICAL_VOLUME {
                best = Some(later(best, descriptor));
            }
        }
        best
    }

    /// The partition descriptor with this partition number that prevails, as with the logical volume
    /// descriptors (ECMA-167 3/8.4.3, 3/10.5).
    pub fn partition(&self, number: u16) -> Option<&Descriptor>
        ensures { option_map lent_now result ≡ partition number (sequence_now self.now) }
    {
        let mut best = None;
        for descriptor in &self.descriptors {
            if descriptor.identifier == identifiers::PARTITION
                && descriptor.partition_number() == number
            {
                best = Some(later(best, descriptor));
            }
        }
        best
    }
}

/// Whether the entity identifier at the beginning of the bytes has this name (ECMA-167 1/7.4).
pub(crate) fn is_named(bytes: &[u8], name: &[u8; 23]) -> bool
    requires { 32 ≤ length bytes.now }
    ensures { result ≡ bytes_eq (regid_of bytes.now).name name.now }
{
    RegId::read(bytes).name == *name
}

/// The bytes from a position on.
pub(crate) fn behind(bytes: &[u8], position: usize) -> &[u8]
    requires { position ≤ length bytes.now }
    ensures value { result.now ≡ drop position bytes.now }
    ensures size { length result.now + position ≡ length bytes.now }
{
    let (_, rest) = bytes.split_at(position);
    rest
}
