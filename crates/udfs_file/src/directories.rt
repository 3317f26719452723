//! Directories: the file identifier descriptors in the cells of a body (ECMA-167 4/14.4).

ghost use Rattle.std.specs.Prelude.{◌≡◌, ◌≤◌, ◌<◌, ◌+◌, ◌++◌, ◌∷◌, [], length, true, Ok, Some, IfErr, IfOk, OnErr};
ghost use Rattle.udfs_lattice.specs.Tables.{state_of};
ghost use Rattle.udfs_space.specs.Places.{view};
ghost use Rattle.udfs_space.specs.Views.{view_by, view_now};
ghost use Rattle.udfs_tag.specs.Fields.{uint8_at, uint16_at, part};
ghost use Rattle.udfs_file.specs.Stretches.{cells_of};
ghost use Rattle.udfs_file.specs.Fronts.{directory_entries, entry_with, has_moved_tags, is_listed, IsEndBy, IsFrontBy, IsFrontOf, IsRefusedBy};
ghost use Rattle.udfs_file.specs.Identifiers.{One};
ghost use Rattle.udfs_file.specs.Steps.{IsListedIn, bytes_of};
ghost use Rattle.udfs_file.specs.Told.{TellsBy, TellsFront};

use crate::bodies::Body;
use crate::cursors::Step;
use crate::faults::{FrontError, NodeFault};
use crate::marks::Marks;
use crate::pieces::Pieces;
use crate::store_cells::StoreCursor;
use byteorder::{ByteOrder, LittleEndian};
use std::alloc::{AllocError, Global};
use udfs_lattice::{BlockStore, BlockTable, ReadFault};
use udfs_osta::{Name, NameFault, OutOfMemory};
use udfs_space::{Space, StoreView, View};
use udfs_tag::LongAd;
use udfs_volume::Profile;

/// An entry of a directory.
#[derive(Debug, Drop)]
pub struct DirEntry {
    /// Its name.
    pub name: Name,
    /// The recorded address of its information control block.
    pub icb: LongAd,
    /// Its characteristics.
    pub marks: Marks,
}

/// The entries of a directory as far as they can be read, and what ended them.
#[derive(Debug, Drop)]
pub struct DirFront {
    /// The entries that are neither deleted nor the directory's parent, in their order.
    pub entries: Vec<DirEntry>,
    /// The block that is not known, if one ended the front.
    pub missing: Option<u32>,
    /// The fault that ended it, if one did.
    pub fault: Option<NodeFault>,
}

/// What ends a directory as far as it can be read, and whether it lists anything before that.
#[derive(Clone, Copy, Debug)]
pub struct DirEnd {
    /// Whether an entry that is neither deleted nor the directory's parent comes before the end.
    pub lists: bool,
    /// The block that is not known, where one ended the directory.
    pub missing: Option<u32>,
    /// The fault that ended it, if one did.
    pub fault: Option<NodeFault>,
}

/// The bytes of the name.
fn name_bytes(bytes: &[u8]) -> &[u8]
    requires { 38 ≤ length bytes.now }
    ensures { result.now ≡ part bytes.now (38 + uint16_at bytes.now 36) (uint8_at bytes.now 19) }
{
    let start = 38 + LittleEndian::read_u16(&bytes[36..]) as usize;
    let count = bytes[19] as usize;
    if bytes.len() <= start {
        return &[];
    }
    let (_, rest) = bytes.split_at(start);
    if rest.len() <= count {
        return rest;
    }
    let (name, _) = rest.split_at(count);
    name
}

/// A front that ended at a missing block or a fault; with neither, at the directory's end.
fn ended(entries: Vec<DirEntry>, missing: Option<u32>, fault: Option<NodeFault>) -> DirFront
    ensures { (result.entries ≡ entries) × (result.missing ≡ missing) × (result.fault ≡ fault) }
{
    DirFront {
        entries,
        missing,
        fault,
    }
}

/// An end of a directory.
fn end_at(lists: bool, missing: Option<u32>, fault: Option<NodeFault>) -> DirEnd
    ensures { (result.lists ≡ lists) × (result.missing ≡ missing) × (result.fault ≡ fault) }
{
    DirEnd {
        lists,
        missing,
        fault,
    }
}

/// The entry of this name in a descriptor.
fn entry(bytes: &[u8], name: Name) -> DirEntry
    requires { 38 ≤ length bytes.now }
    ensures { One (record { size = length bytes.now; listed = Some result }) ≡ entry_with (length bytes.now) bytes.now (Ok name) }
{
    DirEntry {
        name,
        icb: LongAd::read(&bytes[20..]),
        marks: Marks::read(bytes[18]),
    }
}

/// The entry in a descriptor that is neither deleted nor the parent's.
fn listed_entry(alloc: Global, bytes: &[u8]) -> Result<Option<DirEntry>, AllocError>
    requires least { 38 ≤ length bytes.now }
    requires listed { is_listed bytes.now ≡ true }
    ensures { IfOk result (IsListedIn bytes.now) }
{
    match Name::read(alloc, name_bytes(bytes)) {
        Ok(name) => Ok(Some(entry(bytes, name))),
        Err(NameFault::OutOfMemory) => Err(AllocError),
        Err(_) => Ok(None),
    }
}

/// The entry in a descriptor, if it is neither deleted nor the parent's. It is compiled into the walk that asks it, as a directory may
/// have many descriptors of deleted entries, which cost no more than a look at their marks then.
#[inline(always)]
pub(crate) fn listed(alloc: Global, view: &Pieces<'_>) -> Result<Option<DirEntry>, AllocError>
    requires { 38 ≤ length (bytes_of view.now) }
    ensures entry { IfOk result (IsListedIn (bytes_of view.now)) }
    ensures memory { IfErr result (λ e. is_listed (bytes_of view.now) ≡ true) }
{
    if !view.is_listed() {
        return Ok(None);
    }
    if view.second.is_empty() {
        let entry = listed_entry(alloc, view.first)?;
        return Ok(entry);
    }
    let mut bytes = Vec::from_slice(alloc, view.first)?;
    bytes.extend_from_slice(view.second)?;
    let entry = listed_entry(alloc, bytes.as_slice())?;
    Ok(entry)
}

/// Appends an entry.
fn put(entries: &mut Vec<DirEntry>, entry: DirEntry) -> Result<(), AllocError>
    ensures { IfOk result (λ done. entries.new.items ≡ entries.old.items ++ entry ∷ []) }
{
    entries.push(entry)?;
    Ok(())
}

/// The directories of a volume.
pub enum Dir {}

impl Dir {
    /// The entries of the directory that has this body, from its beginning as far as they can be read by the strict rules: up to
    /// its end, to a descriptor of which some cell is missing, or to a fault.
    ///
    /// The body is one of this table and space. Faults are, of one descriptor in this order:
    /// [`NodeFault::Cut`] where fewer than 38 cells are left, where it would take more than 2048 bytes or
    /// passes the end; [`NodeFault::IdentifierTag`] where its tag is not that of a file identifier at the
    /// logical block that holds its first byte; [`NodeFault::Name`] where its name is malformed, unless the entry
    /// is deleted or the directory's parent. The bytes that pad a descriptor to a multiple of 4 are not checked.
    ///
    /// Where each cell of the body is missing or that of a whole body, the entries are a beginning of those that
    /// the standard reads from the whole: an entry is among them exactly if no cell before the end of its
    /// descriptor is missing. There is a fault only if the whole has one.
    ///
    /// # Errors
    ///
    /// [`OutOfMemory`] where memory runs out: never where the directory lists nothing.
    pub fn front(
        alloc: Global,
        table: &BlockTable,
        space: &Space,
        body: &Body,
    ) -> Result<DirFront, OutOfMemory>
        ensures value { IfOk result (λ front. IsFrontOf front (cells_of (view (state_of table.now) space.now) body.now)) }
        ensures complete { IfOk result (TellsFront (cells_of (view (state_of table.now) space.now) body.now)) }
        ensures memory { IfErr result (λ e. 0 < length (directory_entries (cells_of (view (state_of table.now) space.now) body.now))) }
    {
        let blocks = table;
        match Dir::front_by(
            alloc,
            StoreView { blocks, space },
            body,
            Profile::Strict,
            usize::MAX,
        ) {
            Ok(Ok(front)) => Ok(front),
            Ok(Err(_)) => Err(AllocError),
            Err(_) => unreachable!(),
        }
    }

    /// The same as [`Dir::front`] by the rules of the view, for a directory that lists at most `most` entries: no more than these are
    /// kept. By the wide rules a descriptor's tag may name any place.
    ///
    /// # Errors
    ///
    /// [`FrontError::TooMany`] where the directory lists more than `most` entries, as far as they can be read, and
    /// [`FrontError::OutOfMemory`] where memory runs out: never where the directory lists nothing.
    pub fn front_within(
        alloc: Global,
        view: View<'_>,
        body: &Body,
        most: usize,
    ) -> Result<DirFront, FrontError>
        ensures value { IfOk result (λ front. IsFrontBy (view_now view.entry).profile front (cells_of (view_now view.entry) body.now)) }
        ensures complete { IfOk result (TellsBy (view_now view.entry).profile (cells_of (view_now view.entry) body.now)) }
        ensures few { IfOk result (λ front. length front.entries.items ≤ most) }
        ensures refused { IfErr result (IsRefusedBy (view_now view.entry).profile most (cells_of (view_now view.entry) body.now)) }
    {
        let profile = view.space.profile();
        let view = StoreView {
            blocks: view.table,
            space: view.space,
        };
        match Dir::front_by(alloc, view, body, profile, most) {
            Ok(told) => told,
            Err(_) => unreachable!(),
        }
    }

    /// The same as [`Dir::front_within`], by any store of blocks and the rules of this profile.
    ///
    /// # Errors
    ///
    /// `ReadFault` where the bytes of a known block could not be read. Nothing is told of the directory then.
    pub fn front_by<B: BlockStore>(
        alloc: Global,
        view: StoreView<'_, B>,
        body: &Body,
        profile: Profile,
        most: usize,
    ) -> Result<Result<DirFront, FrontError>, ReadFault>
        ensures value { IfOk result (λ told. B.tells → IfOk told (λ front. IsFrontBy profile front (cells_of (view_by B.states view.entry) body.now))) }
        ensures complete { IfOk result (λ told. B.tells → IfOk told (TellsBy profile (cells_of (view_by B.states view.entry) body.now))) }
        ensures few { IfOk result (λ told. IfOk told (λ front. length front.entries.items ≤ most)) }
        ensures refused { IfOk result (λ told. B.tells → IfErr told (IsRefusedBy profile most (cells_of (view_by B.states view.entry) body.now))) }
        ensures fails { OnErr result B.fails }
    {
        let mut spare = [0; 2048];
        let mut other = [0; 2048];
        let mut cursor = StoreCursor::new(view, body);
        cursor.keep()?;
        let mut entries = Vec::new(alloc);
        'steps: loop {
            match cursor.ahead(profile, &mut spare, &mut other)? {
                Step::Id(pieces) => {
                    let size = pieces.len();
                    match listed(alloc, &pieces) {
                        Ok(Some(entry)) => {
                            if entries.len() >= most {
                                return Ok(Err(FrontError::TooMany));
                            }
                            match put(&mut entries, entry) {
                                Ok(()) => cursor.pass(size)?,
                                Err(_) => return Ok(Err(FrontError::OutOfMemory)),
                            }
                        }
                        Ok(None) => cursor.pass(size)?,
                        Err(_) => return Ok(Err(FrontError::OutOfMemory)),
                    }
                }
                Step::Stop(n) => return Ok(Ok(ended(entries, Some(n), None))),
                Step::Fault(fault) => return Ok(Ok(ended(entries, None, Some(fault)))),
                Step::End => return Ok(Ok(ended(entries, None, None))),
            }
        }
    }

    /// What ends the directory that has this body, as [`Dir::front_within`] reports it, and whether it lists anything before that. It
    /// takes no memory.
    pub fn end(view: View<'_>, body: &Body) -> DirEnd
        ensures { IsEndBy (view_now view.entry).profile result (cells_of (view_now view.entry) body.now) }
    {
        let profile = view.space.profile();
        let view = StoreView {
            blocks: view.table,
            space: view.space,
        };
        match Dir::end_by(view, body, profile) {
            Ok(end) => end,
            Err(_) => unreachable!(),
        }
    }

    /// The same as [`Dir::end`], by any store of blocks and the rules of this profile.
    ///
    /// # Errors
    ///
    /// `ReadFault` where the bytes of a known block could not be read.
    pub fn end_by<B: BlockStore>(
        view: StoreView<'_, B>,
        body: &Body,
        profile: Profile,
    ) -> Result<DirEnd, ReadFault>
        ensures value { IfOk result (λ end. B.tells → IsEndBy profile end (cells_of (view_by B.states view.entry) body.now)) }
        ensures fails { OnErr result B.fails }
    {
        let mut spare = [0; 2048];
        let mut other = [0; 2048];
        let mut cursor = StoreCursor::new(view, body);
        cursor.keep()?;
        let mut lists = false;
        'steps: loop {
            match cursor.ahead(profile, &mut spare, &mut other)? {
                Step::Id(pieces) => {
                    let size = pieces.len();
                    let is_listed = pieces.is_listed();
                    cursor.pass(size)?;
                    if is_listed {
                        lists = true;
                    }
                }
                Step::Stop(n) => return Ok(end_at(lists, Some(n), None)),
                Step::Fault(fault) => return Ok(end_at(lists, None, Some(fault))),
                Step::End => return Ok(end_at(lists, None, None)),
            }
        }
    }

    /// Whether some descriptor of the directory that has this body, as far as the wide rules read it, has a tag of another place than the
    /// logical block that holds its first byte. It takes no memory.
    pub fn has_moved_tags(view: View<'_>, body: &Body) -> bool
        ensures { result ≡ has_moved_tags (cells_of (view_now view.entry) body.now) }
    {
        let view = StoreView {
            blocks: view.table,
            space: view.space,
        };
        match Dir::has_moved_tags_by(view, body) {
            Ok(moved) => moved,
            Err(_) => unreachable!(),
        }
    }

    /// The same as [`Dir::has_moved_tags`], by any store of blocks.
    ///
    /// # Errors
    ///
    /// `ReadFault` where the bytes of a known block could not be read.
    pub fn has_moved_tags_by<B: BlockStore>(
        view: StoreView<'_, B>,
        body: &Body,
    ) -> Result<bool, ReadFault>
        ensures value { IfOk result (λ moved. B.tells → moved ≡ has_moved_tags (cells_of (view_by B.states view.entry) body.now)) }
        ensures fails { OnErr result B.fails }
    {
        let mut spare = [0; 2048];
        let mut other = [0; 2048];
        let mut wide = StoreCursor::new(view, body);
        let mut strict = StoreCursor::new(view, body);
        'steps: loop {
            let read = wide.next(Profile::Wide, &mut spare, &mut other)?;
            if !read.is_id() {
                return Ok(false);
            }
            let kept = strict.next(Profile::Strict, &mut spare, &mut other)?;
            if !kept.is_id() {
                return Ok(true);
            }
        }
    }
}
