//! Directories descriptor by descriptor, where they lie (ECMA-167 4/14.4).

ghost use Rattle.std.specs.Prelude.{◌≡◌, ◌≤◌, ◌<◌, ◌+◌, drop, is_some, length, nat_le, take};
ghost use Rattle.udfs_space.specs.Views.{view_now};
ghost use Rattle.udfs_tag.specs.Fields.{part, uint8_at, uint16_at, uint32_at};
ghost use Rattle.udfs_tag.specs.Tags.{is_valid};
ghost use Rattle.udfs_osta.specs.Names.{fault_of, units_of};
ghost use Rattle.udfs_file.specs.CellsLeft.{cells_left};
ghost use Rattle.udfs_file.specs.Fronts.{checked_by, directory, identifier_in, identifier_size, is_listed, place_asked, sized_identifier, step};
ghost use Rattle.udfs_file.specs.Stretches.{LieInBlocks, cells_of};
ghost use Rattle.udfs_file.specs.Steps.{HasBytes, HasFirstBytes, StepsTo, IsStep, StepIs, bytes_of, is_id};

use crate::bodies::Body;
use crate::cells::Cells;
use crate::faults::NodeFault;
use crate::pieces::{Front, Pieces};
use byteorder::{ByteOrder, LittleEndian};
use std::marker::Model;
use udfs_osta::Name;
use udfs_space::View;
use udfs_tag::{Tag, identifiers};
use udfs_volume::Profile;

/// The next item in a directory.
#[derive(Clone, Copy, Debug)]
pub enum Step<'a> {
    /// A file identifier descriptor with a good tag: all its bytes, from 38 to 2048. The name is good too, unless the
    /// entry is deleted or the directory's parent.
    Id(Pieces<'a>),
    /// A descriptor of which some byte is missing, since this block of the volume is not known.
    Stop(u32),
    /// A descriptor that has this fault.
    Fault(NodeFault),
    /// Nothing: the directory ends.
    End,
}

/// Goes through the file identifier descriptors of a directory, by the strict rules. It borrows the table's blocks, and takes no
/// memory. [`StoreCursor`](crate::StoreCursor) does so by the rules of a profile.
/// In contracts a cursor is the cells that are left.
#[derive(Drop)]
pub struct Cursor<'a> {
    cells: Cells<'a>,
}

impl<'a> Model for Cursor<'a> {
    ghost use Rattle.std.specs.Prelude.{List};
    ghost use Rattle.udfs_file.specs.CellsLeft.{cells_left};
    ghost use Rattle.udfs_file.specs.Stretches.{LieInBlocks};
    ghost use Rattle.udfs_file.specs.declared.cells.Cell.{Cell};

    ghost Value = { List Cell };

    ghost view = { λ c. cells_left c.cells };

    ghost invariant = { λ c. LieInBlocks c.cells.stretches.now };
}

impl<'a> Step<'a> {
    /// Whether it is a descriptor.
    pub fn is_id(&self) -> bool
        ensures { result ≡ is_id self.now }
    {
        matches!(self, Step::Id(_))
    }
}

impl<'a> Pieces<'a> {
    /// The number of bytes.
    pub fn len(&self) -> usize
        ensures { result ≡ length (bytes_of self.now) }
    {
        self.first.len() + self.second.len()
    }

    /// The byte at a place.
    fn uint8(&self, at: usize) -> u8
        requires { at < length (bytes_of self.now) }
        ensures { result ≡ uint8_at (bytes_of self.now) at }
    {
        if at < self.first.len() {
            self.first[at]
        } else {
            self.second[at - self.first.len()]
        }
    }

    /// The number of 16 bits at a place.
    fn uint16(&self, at: usize) -> u16
        requires { at + 2 ≤ length (bytes_of self.now) }
        ensures { result ≡ uint16_at (bytes_of self.now) at }
    {
        LittleEndian::read_u16(&[self.uint8(at), self.uint8(at + 1)])
    }

    /// The number of 32 bits at a place.
    fn uint32(&self, at: usize) -> u32
        requires { at + 4 ≤ length (bytes_of self.now) }
        ensures { result ≡ uint32_at (bytes_of self.now) at }
    {
        LittleEndian::read_u32(&[
            self.uint8(at),
            self.uint8(at + 1),
            self.uint8(at + 2),
            self.uint8(at + 3),
        ])
    }

    /// The place that the descriptor's tag is to name: the logical block that holds its first byte, and by the wide rules the
    /// place that it names, so that nothing is compared.
    fn place_asked(&self, profile: Profile) -> Option<u32>
        requires { 38 ≤ length (bytes_of self.now) }
        ensures { result ≡ place_asked profile self.now.holder (bytes_of self.now) }
    {
        match profile {
            Profile::Strict => self.holder,
            Profile::Wide => Some(self.uint32(12)),
        }
    }

    /// The size of a descriptor of which these are the first bytes (ECMA-167 4/14.4.9).
    pub(crate) fn identifier_size(&self) -> usize
        requires { 38 ≤ length (bytes_of self.now) }
        ensures value { result ≡ identifier_size (bytes_of self.now) }
        ensures least { 38 ≤ result }
    {
        4 * ((self.uint8(19) as usize + self.uint16(36) as usize + 41) / 4)
    }

    /// How many bytes of a descriptor the CRC of its tag covers (ECMA-167 3/7.2.6).
    pub(crate) fn crc_length(&self) -> u16
        requires { 38 ≤ length (bytes_of self.now) }
        ensures { result ≡ uint16_at (bytes_of self.now) 10 }
    {
        self.uint16(10)
    }

    /// Whether a descriptor is neither deleted nor the parent's.
    pub fn is_listed(&self) -> bool
        requires { 38 ≤ length (bytes_of self.now) }
        ensures { result ≡ is_listed (bytes_of self.now) }
    {
        self.uint8(18) / 4 % 4 == 0
    }
}

/// Whether the tag of a descriptor is that of a file identifier at this logical block.
fn is_identifier(view: &Pieces<'_>, b: u32) -> bool
    requires { 38 ≤ length (bytes_of view.now) }
    ensures { result ≡ is_valid (bytes_of view.now) b 257 }
{
    match Tag::check2(view.first, view.second, b) {
        Ok(tag) => tag.identifier == identifiers::FILE_IDENTIFIER,
        Err(_) => false,
    }
}

/// The bytes of a slice from place `at` on, at most `count` of them.
fn slice_of(bytes: &[u8], at: usize, count: usize) -> &[u8]
    ensures { result.now ≡ take count (drop at bytes.now) }
{
    if bytes.len() <= at {
        return &[];
    }
    let (_, rest) = bytes.split_at(at);
    if rest.len() <= count {
        return rest;
    }
    let (front, _) = rest.split_at(count);
    front
}

/// Whether the name in a descriptor is malformed.
fn has_bad_name(view: &Pieces<'_>) -> bool
    requires { 38 ≤ length (bytes_of view.now) }
    ensures { result ≡ is_some (fault_of (units_of (part (bytes_of view.now) (38 + uint16_at (bytes_of view.now) 36) (uint8_at (bytes_of view.now) 19)))) }
{
    let start = 38 + view.uint16(36) as usize;
    let count = view.uint8(19) as usize;
    let first = slice_of(view.first, start, count);
    let second = slice_of(
        view.second,
        start.saturating_sub(view.first.len()),
        count - first.len(),
    );
    Name::fault(first, second).is_some()
}

/// The descriptor in these bytes, whose tag was checked.
fn named<'a>(view: Pieces<'a>) -> Step<'a>
    requires least { 38 ≤ length (bytes_of view) }
    requires most { length (bytes_of view) ≤ 2048 }
    ensures value { StepIs result (identifier_in (length (bytes_of view.entry)) (bytes_of view.entry)) }
    ensures bytes { HasBytes (bytes_of view.entry) result }
{
    if !view.is_listed() {
        return Step::Id(view);
    }
    if has_bad_name(&view) {
        return Step::Fault(NodeFault::Name);
    }
    Step::Id(view)
}

/// The descriptor in these bytes.
pub(crate) fn checked<'a>(profile: Profile, view: Pieces<'a>) -> Step<'a>
    requires least { 38 ≤ length (bytes_of view) }
    requires most { length (bytes_of view) ≤ 2048 }
    ensures value { StepIs result (checked_by profile view.entry.holder (bytes_of view.entry)) }
    ensures bytes { HasBytes (bytes_of view.entry) result }
{
    match view.place_asked(profile) {
        Some(b) if is_identifier(&view, b) => named(view),
        _ => Step::Fault(NodeFault::IdentifierTag),
    }
}

/// The descriptor of this size at the beginning of some cells.
fn sized<'a>(cells: &Cells<'a>, size: usize) -> Step<'a>
    requires lies { LieInBlocks cells.now.stretches.now }
    requires least { 38 ≤ size }
    ensures value { StepIs result (sized_identifier (cells_left cells.now) size) }
    ensures bytes { HasFirstBytes (cells_left cells.now) result }
{
    if size > 2048 || !cells.holds(size as u64) {
        return Step::Fault(NodeFault::Cut);
    }
    match cells.front(size) {
        Front::Gap(n) => Step::Stop(n),
        Front::Bytes(view) => checked(Profile::Strict, view),
    }
}

/// The descriptor at the beginning of some cells, or what ends the directory there.
fn ahead<'a>(cells: &Cells<'a>) -> Step<'a>
    requires { LieInBlocks cells.now.stretches.now }
    ensures value { StepIs result (step (cells_left cells.now)) }
    ensures bytes { HasFirstBytes (cells_left cells.now) result }
{
    if !cells.holds(1) {
        return Step::End;
    }
    if !cells.holds(38) {
        return Step::Fault(NodeFault::Cut);
    }
    match cells.front(38) {
        Front::Gap(n) => Step::Stop(n),
        Front::Bytes(head) => sized(cells, head.identifier_size()),
    }
}

impl<'a> Cursor<'a> {
    /// The beginning of the directory that has this body, which is one of this view.
    pub fn new(view: View<'a>, body: &'a Body) -> Cursor<'a>
        ensures { result ≡ cells_of (view_now view.entry) body.now }
    {
        Cursor {
            cells: Cells {
                view,
                stretches: body.stretches(),
                passed: 0,
            },
        }
    }

    /// Returns the next descriptor and moves past it; or returns what ends the directory there, as does each later call.
    ///
    /// [`Step::End`] comes where no byte is left. Faults are, of one descriptor in this order: [`NodeFault::Cut`]
    /// where fewer than 38 bytes are left; [`NodeFault::Cut`] where it takes more than 2048 bytes or passes the end;
    /// [`NodeFault::IdentifierTag`] where its tag is not that of a file identifier at the logical block that holds its first
    /// byte; [`NodeFault::Name`] where its name is malformed, unless the entry is deleted or the parent. [`Step::Stop`]
    /// comes in place of a fault that cannot be determined without the missing block.
    #[tactic(auto, using(crate::proofs::CursorSteps::goes))]
    pub fn next(&mut self) -> Step<'a>
        ensures step { IsStep self.old result self.new }
        ensures directory { StepsTo (directory self.old) result (directory self.new) }
    {
        let step = ahead(&self.cells);
        if let Step::Id(view) = step {
            self.cells = self.cells.behind(view.len());
        }
        step
    }
}
