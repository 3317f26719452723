//! The entries of a sparing table (UDF 2.2.11).

ghost use Rattle.std.specs.Prelude.{◌≡◌, ◌≤◌, ◌+◌, ◌*◌, IfOk, drop, length, map};
ghost use Rattle.std.specs.List.{list_any, range_with_len};
ghost use Rattle.udfs_tag.specs.Tags.{is_valid};
ghost use Rattle.udfs_volume.specs.Layout.{bp};
ghost use Rattle.udfs_volume.specs.Seen.{IfGot, Sees};
ghost use Rattle.udfs_space.specs.Parts.{AreSound, entries_fault};
ghost use Rattle.udfs_space.specs.Sparing.{breaks_order, sparing_entry_of, is_bad_original, is_out_of_order, is_sparing_table, is_used, passes_end, spared_from};

use byteorder::{ByteOrder, LittleEndian};
use std::alloc::{AllocError, Global};
use udfs_tag::{RegId, Tag, identifiers};
use udfs_volume::{Seen, VolumeFault};

/// An entry of a sparing table: a packet, and where it is now (UDF 2.2.11).
#[derive(Clone, Copy, Debug, PartialEq, Eq)]
pub struct SparingEntry {
    /// The first logical block of the packet. 0xFFFF_FFF0 marks blocks to which nothing may be mapped, and
    /// 0xFFFF_FFFF blocks to which a packet may be mapped.
    pub original: u32,
    /// The block of the volume at which the packet begins now.
    pub mapped: u32,
}

impl SparingEntry {
    /// Reads the first 8 bytes.
    pub fn read(bytes: &[u8]) -> Self
        requires { 8 ≤ length bytes.now }
        ensures { result ≡ sparing_entry_of bytes.now }
    {
        SparingEntry {
            original: LittleEndian::read_u32(bytes),
            mapped: LittleEndian::read_u32(&bytes[4..]),
        }
    }

    /// Whether the entry maps a packet.
    fn is_used(self) -> bool
        ensures { result ≡ is_used self }
    {
        self.original < 0xFFFF_FFF0
    }

    /// Whether the original is a number without a meaning, or not the first block of a packet.
    fn has_bad_original(self, packet: u32) -> bool
        requires { 1 ≤ packet }
        ensures { result ≡ is_bad_original packet self }
    {
        (0xFFFF_FFF1..=0xFFFF_FFFE).contains(&self.original)
            || self.is_used() && self.original % packet != 0
    }

    /// Whether the next entry may not follow this one: its original is less, or the same while this entry is used.
    fn breaks_order(self, next: SparingEntry) -> bool
        ensures { result ≡ breaks_order self next }
    {
        next.original < self.original || self.is_used() && next.original == self.original
    }

    /// Whether the entry is used and maps its packet past the last block.
    fn passes_end(self, last: u32, packet: u32) -> bool
        ensures { result ≡ passes_end last packet self }
    {
        self.is_used() && u64::from(self.mapped) + u64::from(packet) > u64::from(last) + 1
    }
}

/// The bytes from a position on.
pub(crate) fn behind(bytes: &[u8], position: usize) -> &[u8]
    requires { position ≤ length bytes.now }
    ensures value { result.now ≡ drop position bytes.now }
    ensures size { length result.now + position ≡ length bytes.now }
{
    let (_, rest) = bytes.split_at(position);
    rest
}

/// Whether the bytes are a sparing table at block `place`: the tag is valid there with identifier 0, and the
/// name is that of a sparing table.
fn is_sparing_table(bytes: &[u8], place: u32) -> bool
    requires { 56 ≤ length bytes.now }
    ensures { result ≡ is_sparing_table (is_valid bytes.now place 0) (drop 16 bytes.now) }
{
    Tag::is_valid(bytes, place, identifiers::SPARING_TABLE)
        && RegId::read(behind(bytes, 16)).name == *b"*UDF Sparing Table\0\0\0\0\0"
}

/// The first `count` entries of the table of which `content` is what follows the tag.
fn entries(alloc: Global, content: &[u8], count: u16) -> Result<Vec<SparingEntry>, AllocError>
    requires { 40 + 8 * count ≤ length content.now }
    ensures { IfOk result (λ read. read.items ≡ map (λ i. sparing_entry_of (drop (bp (56 + 8 * i)) content.now)) (range_with_len 0 count)) }
{
    let mut entries = Vec::new(alloc);
    for i in 0..count {
        let position = 56 + 8 * usize::from(i);
        entries.push(SparingEntry::read(behind(content, position - 16)))?;
    }
    Ok(entries)
}

/// Whether an original is a number without a meaning, or not the first block of a packet.
fn has_bad_original(packet: u32, entries: &[SparingEntry]) -> bool
    requires { 1 ≤ packet }
    ensures { result ≡ list_any (is_bad_original packet) entries.now }
{
    for entry in entries {
        if entry.has_bad_original(packet) {
            return true;
        }
    }
    false
}

/// Whether the originals fall somewhere, or two packets have the same.
fn is_out_of_order(entries: &[SparingEntry]) -> bool
    ensures { result ≡ is_out_of_order entries.now }
{
    for i in 1..entries.len() {
        if entries[i - 1].breaks_order(entries[i]) {
            return true;
        }
    }
    false
}

/// Whether a used entry maps its packet past the last block.
fn passes_end(last: u32, packet: u32, entries: &[SparingEntry]) -> bool
    ensures { result ≡ list_any (passes_end last packet) entries.now }
{
    for entry in entries {
        if entry.passes_end(last, packet) {
            return true;
        }
    }
    false
}

/// The first fault of the entries, all of which are within the table.
fn entries_fault(last: u32, packet: u32, entries: &[SparingEntry]) -> Option<VolumeFault>
    requires { 1 ≤ packet }
    ensures { result ≡ entries_fault last packet entries.now }
{
    if has_bad_original(packet, entries) {
        return Some(VolumeFault::SparingShape);
    }
    if is_out_of_order(entries) {
        return Some(VolumeFault::SparingOrder);
    }
    if passes_end(last, packet, entries) {
        return Some(VolumeFault::MappedRange);
    }
    None
}

/// The packets that the sparing table at block `place` maps, in its order, or the table's first fault.
pub(crate) fn spared_by(
    alloc: Global,
    last: u32,
    packet: u16,
    place: u32,
    bytes: &[u8],
) -> Result<Seen<Vec<SparingEntry>>, AllocError>
    requires last { last ≤ 4194303 }
    requires packet { 1 ≤ packet }
    requires size { 56 ≤ length bytes.now }
    ensures value { IfOk result (λ seen. Sees (λ spared. spared.items) seen
        (spared_from last packet (length bytes.now) (is_valid bytes.now place 0) (drop 16 bytes.now))) }
    ensures sound { IfOk result (λ seen. IfGot seen (λ spared. AreSound packet spared.items)) }
{
    if !is_sparing_table(bytes, place) {
        return Ok(Seen::Fault(VolumeFault::SparingTag));
    }
    let content = behind(bytes, 16);
    let count = LittleEndian::read_u16(behind(content, 32));
    if 56 + 8 * usize::from(count) > bytes.len() {
        return Ok(Seen::Fault(VolumeFault::SparingShape));
    }
    let mut entries = entries(alloc, content, count)?;
    if let Some(fault) = entries_fault(last, u32::from(packet), &entries) {
        return Ok(Seen::Fault(fault));
    }
    entries.retain(|entry| entry.is_used());
    Ok(Seen::Got(entries))
}
