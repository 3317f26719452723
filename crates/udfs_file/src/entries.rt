//! Entries of files and directories (ECMA-167 4/14.9, 4/14.17).

ghost use Rattle.std.specs.Prelude.{◌≡◌, ℕ, List, ◌≤◌, ◌<◌, ◌-◌, length, drop, false};
ghost use Rattle.udfs_file.specs.Entries.{FitsBlock, fixed_part, attributes_length, descriptors_length, descriptor_form, descriptor_size, area_start, is_entry, is_strange_form, is_cut_form, is_too_long, has_bad_lengths};

use crate::faults::{Kind, NodeFault};
use byteorder::{ByteOrder, LittleEndian};
use std::marker::Model;
use udfs_osta::Stamp;
use udfs_tag::{Tag, identifiers};

/// A file entry or extended file entry without a fault of its own. In contracts it is the bytes of its block.
#[derive(Drop)]
pub struct Entry<'a> {
    block: &'a [u8; 2048],
}

impl<'a> Model for Entry<'a> {
    ghost use Rattle.std.specs.Prelude.{◌≡◌, ℕ, List, length};
    ghost use Rattle.udfs_file.specs.Entries.{FitsBlock};

    ghost Value = { List ℕ };

    ghost view = { λ e. e.block.now };

    ghost invariant = { λ e. (length e.block.now ≡ 2048) × FitsBlock e.block.now };
}

impl<'a> Entry<'a> {
    ghost use Rattle.udfs_file.specs.Entries.{entry_of, IsEntryRead};

    /// Reads the entry in `block`, which is logical block `b` of its partition. It takes no memory.
    ///
    /// # Errors
    ///
    /// In this order: [`NodeFault::Tag`] where the block is not valid there with identifier 261 or 266,
    /// [`NodeFault::Strategy`] where the strategy is not 4, [`NodeFault::Descriptors`] where the low three flag bits
    /// are 2 or 4 to 7, [`NodeFault::Lengths`] where the fixed part and both stated lengths pass 2048 bytes, or where
    /// the descriptors' length is no multiple of one's size (8 bytes for short, 16 for long ones).
    #[tactic(auto, unfolding(crate::specs::Entries::entry_fault))]
    pub fn read(block: &'a [u8; 2048], b: u32) -> Result<Entry<'a>, NodeFault>
        ensures { IsEntryRead result block.now b }
    {
        if !is_entry(block, b) {
            return Err(NodeFault::Tag);
        }
        if LittleEndian::read_u16(&block[20..]) != 4 {
            return Err(NodeFault::Strategy);
        }
        if is_strange_form(descriptor_form(block)) {
            return Err(NodeFault::Descriptors);
        }
        if has_bad_lengths(block) {
            return Err(NodeFault::Lengths);
        }
        Ok(Entry { block })
    }

    /// The kind, by the file type (ECMA-167 4/14.6.6); never [`Kind::Unread`].
    #[tactic(auto, unfolding(crate::specs::Entries::entry_of))]
    pub fn kind(&self) -> Kind
        ensures { result ≡ (entry_of self.now).kind }
    {
        match self.block[27] {
            4 => Kind::Directory,
            5 => Kind::File,
            12 => Kind::Link,
            other => Kind::Other(other),
        }
    }

    /// The information length, in bytes (ECMA-167 4/14.9.10).
    #[tactic(auto, unfolding(crate::specs::Entries::entry_of))]
    pub fn size(&self) -> u64
        ensures { result ≡ (entry_of self.now).size }
    {
        let block = self.block;
        LittleEndian::read_u64(&block[56..])
    }

    /// The time of the last change (ECMA-167 4/14.9.13).
    #[tactic(auto, unfolding(crate::specs::Entries::entry_of))]
    pub fn stamp(&self) -> Stamp
        ensures { result ≡ (entry_of self.now).stamp }
    {
        let block = self.block;
        let place = if LittleEndian::read_u16(block) == 261 {
            84
        } else {
            92
        };
        let mut bytes = [0; 12];
        bytes.copy_from_slice(&block[place..place + 12]);
        Stamp::read(&bytes)
    }

    /// The form of the allocation descriptors (ECMA-167 4/14.6.8): 0 short, 1 long, 3 embedded bytes in their place.
    #[tactic(auto, unfolding(crate::specs::Entries::entry_of))]
    pub fn form(&self) -> u16
        ensures { result ≡ (entry_of self.now).form }
    {
        descriptor_form(self.block)
    }

    /// The bytes of the allocation descriptors, or the embedded body (ECMA-167 4/14.9.24).
    #[tactic(auto, unfolding(crate::specs::Entries::entry_of))]
    pub fn area(&self) -> &'a [u8]
        ensures value { result.now ≡ (entry_of self.now).area }
        ensures fits { length result.now ≤ 2048 }
    {
        let block = self.block;
        let (_, rest) = block.split_at(area_start(block) as usize);
        let (area, _) = rest.split_at(descriptors_length(block) as usize);
        area
    }

    /// Where these begin in the entry's block, in bytes.
    pub fn start(&self) -> u32
        ensures value { result ≡ area_start self.now }
        ensures fits { FitsBlock self.now }
        ensures whole { length self.now ≡ 2048 }
    {
        area_start(self.block) as u32
    }
}

/// The bytes from a position on.
pub(crate) fn behind(block: &[u8; 2048], position: usize) -> &[u8]
    requires { position ≤ 2048 }
    ensures value { result.now ≡ drop position block.now }
    ensures size { length result.now ≡ 2048 - position }
{
    let (_, rest) = block.split_at(position);
    rest
}

/// The length, in bytes, of what precedes the extended attributes.
fn fixed_part(block: &[u8; 2048]) -> usize
    ensures value { result ≡ fixed_part block.now }
    ensures low { 176 ≤ result }
    ensures high { result ≤ 216 }
{
    if LittleEndian::read_u16(block) == 261 {
        176
    } else {
        216
    }
}

fn attributes_length(block: &[u8; 2048]) -> u32
    ensures { result ≡ attributes_length block.now }
{
    LittleEndian::read_u32(&block[fixed_part(block) - 8..])
}

fn descriptors_length(block: &[u8; 2048]) -> u32
    ensures { result ≡ descriptors_length block.now }
{
    LittleEndian::read_u32(&block[fixed_part(block) - 4..])
}

fn descriptor_form(block: &[u8; 2048]) -> u16
    ensures value { result ≡ descriptor_form block.now }
    ensures low { result < 8 }
{
    LittleEndian::read_u16(&block[34..]) % 8
}

/// How many bytes a descriptor of this form takes.
pub(crate) fn descriptor_size(form: u16) -> u32
    ensures { result ≡ descriptor_size form }
{
    if form == 0 { 8 } else { 16 }
}

/// Where the descriptors begin.
fn area_start(block: &[u8; 2048]) -> u64
    ensures value { result ≡ area_start block.now }
    ensures fits { result ≤ 4294967511 }
{
    fixed_part(block) as u64 + u64::from(attributes_length(block))
}

fn is_entry(block: &[u8; 2048], b: u32) -> bool
    ensures { result ≡ is_entry block.now b }
{
    match Tag::check(block, b) {
        Ok(tag) => tag.identifier == identifiers::FILE_ENTRY
            || tag.identifier == identifiers::EXTENDED_FILE_ENTRY,
        Err(_) => false,
    }
}

fn is_strange_form(form: u16) -> bool
    ensures { result ≡ is_strange_form form }
{
    form == 2 || form >= 4
}

fn is_cut_form(form: u16, count: u32) -> bool
    ensures { result ≡ is_cut_form form count }
{
    form != 3 && count % descriptor_size(form) != 0
}

fn is_too_long(block: &[u8; 2048]) -> bool
    ensures { result ≡ is_too_long block.now }
{
    area_start(block) + u64::from(descriptors_length(block)) > 2048
}

fn has_bad_lengths(block: &[u8; 2048]) -> bool
    ensures value { result ≡ has_bad_lengths block.now }
    ensures fits { result ≡ false → FitsBlock block.now }
{
    is_too_long(block) || is_cut_form(descriptor_form(block), descriptors_length(block))
}
