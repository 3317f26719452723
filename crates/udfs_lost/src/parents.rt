//! The directory in which a directory is, as it says itself (ECMA-167 4/14.4.3).

ghost use Rattle.std.specs.Prelude.{◌≡◌, ◌≤◌, IfOk, MatchOption, None, OnErr, Some, length, nat_le, option_and_then, ◌&&◌};
ghost use Rattle.udfs_space.specs.Views.{view_by, view_now};
ghost use Rattle.udfs_tag.specs.Tags.{is_valid};
ghost use Rattle.udfs_file.specs.Entries.{entry_of};
ghost use Rattle.udfs_lost.specs.Parents.{extent_front, first_extent, is_parent, kind_parent, parent_at, parent_in, place_by};

use crate::entries::entry_at;
use byteorder::{ByteOrder, LittleEndian};
use udfs_file::{Entry, Kind};
use udfs_lattice::{BlockStore, Fact, ReadFault};
use udfs_space::{StoreView, View};
use udfs_tag::{LbAddr, LongAd, ShortAd, Tag, extent_types, identifiers};
use udfs_volume::Profile;

/// The bytes of a logical block where an extent begins, if something is recorded there and the block is known. They are lent from the
/// store's memory, or from `room`.
fn extent_front<'r, 'a, B: BlockStore>(
    view: StoreView<'a, B>,
    extent: LongAd,
    room: &'r mut [u8; 2048],
) -> Result<Option<(u32, &'r [u8])>, ReadFault>
where
    'a: 'r,
    ensures value { IfOk result (λ found. B.tells → MatchOption found (extent_front (view_by B.states view.entry) extent ≡ None) (λ held. extent_front (view_by B.states view.entry) extent ≡ Some (held.0, held.1.now))) }
    ensures fails { OnErr result B.fails }
{
    if extent.kind != extent_types::RECORDED || extent.length == 0 {
        return Ok(None);
    }
    match view.block_at(extent.address(), room)? {
        None => Ok(None),
        Some((_, fact)) => match fact {
            Fact::Unknown => Ok(None),
            Fact::Conflict => Ok(None),
            Fact::Known(bytes) => Ok(Some((extent.block, bytes))),
        },
    }
}

/// The first extent of an entry whose body is not embedded, if it has a descriptor.
fn first_extent(entry: &Entry<'_>, reference: u16) -> Option<LongAd>
    ensures { result ≡ first_extent reference (entry_of entry.now) }
{
    let area = entry.area();
    if entry.form() == 0 {
        if area.len() < 8 {
            return None;
        }
        let short = ShortAd::read(area);
        return Some(LongAd {
            kind: short.kind,
            length: short.length,
            block: short.block,
            reference,
        });
    }
    if area.len() < 16 {
        return None;
    }
    Some(LongAd::read(area))
}

/// The place that the tag of a descriptor is to name.
fn place_by(profile: Profile, block: u32, bytes: &[u8]) -> u32
    requires { 16 ≤ length bytes.now }
    ensures { result ≡ place_by profile block bytes.now }
{
    match profile {
        Profile::Strict => block,
        Profile::Wide => LittleEndian::read_u32(&bytes[12..]),
    }
}

/// Whether the bytes begin with a good file identifier descriptor of the parent.
fn is_parents(profile: Profile, block: u32, bytes: &[u8]) -> bool
    requires { 38 ≤ length bytes.now }
    ensures { result ≡ (is_valid bytes.now (place_by profile block bytes.now) 257 && is_parent bytes.now) }
{
    Tag::is_valid(
        bytes,
        place_by(profile, block, bytes),
        identifiers::FILE_IDENTIFIER,
    ) && bytes[18] / 4 % 4 == 2
}

/// The address in the parent's descriptor at the beginning of these bytes.
fn parent_in(profile: Profile, block: u32, bytes: &[u8]) -> Option<LongAd>
    ensures { result ≡ parent_in profile (block, bytes.now) }
{
    if bytes.len() >= 38 && is_parents(profile, block, bytes) {
        Some(LongAd::read(&bytes[20..]))
    } else {
        None
    }
}

/// The address in the parent's descriptor at the beginning of an extent, if it is one.
fn extent_parent<B: BlockStore>(
    view: StoreView<'_, B>,
    extent: LongAd,
) -> Result<Option<LongAd>, ReadFault>
    ensures value { IfOk result (λ found. B.tells → found ≡ option_and_then (parent_in (view_by B.states view.entry).profile) (extent_front (view_by B.states view.entry) extent)) }
    ensures fails { OnErr result B.fails }
{
    let mut room = [0; 2048];
    match extent_front(view, extent, &mut room)? {
        None => Ok(None),
        Some((block, bytes)) => Ok(parent_in(view.space.profile(), block, bytes)),
    }
}

/// The address in the parent's descriptor of an entry, if it is a directory's.
fn entry_parent<B: BlockStore>(
    view: StoreView<'_, B>,
    entry: &Entry<'_>,
    icb: LbAddr,
) -> Result<Option<LongAd>, ReadFault>
    ensures value { IfOk result (λ found. B.tells → found ≡ kind_parent (view_by B.states view.entry) icb (entry_of entry.now) (entry_of entry.now).kind) }
    ensures fails { OnErr result B.fails }
{
    let Kind::Directory = entry.kind() else {
        return Ok(None);
    };
    if entry.form() == 3 {
        return Ok(parent_in(view.space.profile(), icb.block, entry.area()));
    }
    match first_extent(entry, icb.reference) {
        None => Ok(None),
        Some(extent) => extent_parent(view, extent),
    }
}

/// The address of the directory in which the directory at `folder` is, as its parent's identifier says (ECMA-167 4/14.4.3): none
/// where it is not known, or is not the first of the directory's identifiers. It takes no memory.
pub fn parent(view: View<'_>, folder: LbAddr) -> Option<LongAd>
    ensures { result ≡ parent_at (view_now view.entry) folder }
{
    let stored = StoreView {
        blocks: view.table,
        space: view.space,
    };
    match parent_by(stored, folder) {
        Ok(found) => found,
        Err(_) => unreachable!(),
    }
}

/// The same as [`parent`], by any store of blocks.
///
/// # Errors
///
/// `ReadFault` where the bytes of a known block could not be read.
pub fn parent_by<B: BlockStore>(
    view: StoreView<'_, B>,
    folder: LbAddr,
) -> Result<Option<LongAd>, ReadFault>
    ensures value { IfOk result (λ found. B.tells → found ≡ parent_at (view_by B.states view.entry) folder) }
    ensures fails { OnErr result B.fails }
{
    let mut room = [0; 2048];
    match entry_at(view, folder, &mut room)? {
        None => Ok(None),
        Some(entry) => entry_parent(view, &entry, folder),
    }
}
