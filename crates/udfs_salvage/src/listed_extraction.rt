//! The bytes of the nodes of a listing, and of its lost files, are written through one piece of outgoing bytes.

ghost use Rattle.std.specs.Prelude.{◌≡◌, ◌<◌, ◌↔◌, ℕ, Bool, true, false, List, [], Some, length, slice_get, IsErrOf, OnOk};
ghost use Rattle.udfs_lattice.specs.Tables.{state_of};
ghost use Rattle.udfs_tag.specs.declared.layouts.LongAd.{LongAd};
ghost use Rattle.udfs_space.specs.Places.{view};
ghost use Rattle.udfs_file.specs.declared.cells.Cell.{Cell};
ghost use Rattle.udfs_volume.specs.Answers.{found};
ghost use Rattle.udfs_volume.specs.declared.profiles.Profile.{Profile};
ghost use Rattle.udfs_walk.specs.NodeBodies.{MayTakeMemory};
ghost use Rattle.udfs_walk.specs.NodeFields.{NodeFields};
ghost use Rattle.udfs_walk.specs.declared.answers.Unnamed.{Unnamed};
ghost use Rattle.udfs_walk.specs.declared.standings.Standing.TheVariants.{Whole};
ghost use Rattle.udfs_walk.specs.Cells.{HasCellsAt};
ghost use Rattle.udfs_salvage.specs.Extraction.{Extracts, HasCellsInBy, fill_byte, filled, is_offered};
ghost use Rattle.udfs_salvage.specs.Found.{Found, volume_now};
ghost use Rattle.udfs_salvage.specs.Listings.{AreUnnamed, AreUnnamedBy, listing_by, listing_now};
ghost use Rattle.udfs_salvage.specs.Reports.{IsReportBy};
ghost use Rattle.udfs_salvage.specs.StoreExtraction.{StoreExtracts};
ghost use Rattle.udfs_salvage.specs.TreeReports.{FillsFileBy, WritesFileBy};
ghost use Rattle.udfs_salvage.specs.UnnamedExtraction.{HasUnnamedCellsBy, is_lost_file};
ghost use Rattle.udfs_salvage.specs.WalkedNodes.{AreNodesFrom};

use crate::extraction::{
    ExtractError, Fill, StoreExtractError, fill_byte, is_offered, write_at_by,
};
use crate::listings::Listing;
use crate::unnamed_extraction::is_lost_file;
use crate::volumes::Volume;
use std::alloc::Global;
use udfs_lattice::BlockStore;
use udfs_reading::{Outgoing, Sink};
use udfs_walk::Unnamed;

/// Writes the bytes of the node at this index, as [`write_node`] does, of a listing of any store of blocks, whose known blocks are read once more for it.
///
/// # Errors
///
/// As those of [`write_node`], and `Unread` where the bytes of a known block could not be read: a beginning of the node's may be written then.
pub fn write_node_by<B: BlockStore, W: Sink>(
    alloc: Global,
    listing: &Listing<'_, B>,
    index: usize,
    fill: Fill,
    out: &mut Outgoing,
    sink: &mut W,
) -> Result<(), StoreExtractError>
    requires index { index < length listing.now.nodes.items }
    requires empty { out.old ≡ [] }
    // The bytes are those of the cells at the end of the route of this index.
    ensures cells { B.tells → (profile : Profile) (last : ℕ) (n : NodeFields) → IsReportBy profile (B.states listing.now.table.now) last (listing_by B.states listing.now) →
        slice_get (listing_by B.states listing.now).nodes index ≡ Some n → is_offered n.standing n.size fill ≡ true →
        (cs : List Cell) × HasCellsInBy profile (B.states listing.now.table.now) last index cs ×
        StoreExtracts (W.stream sink.old) (W.stream sink.new) (filled (fill_byte fill) cs) result }
    ensures not_whole { B.tells → (profile : Profile) (last : ℕ) (n : NodeFields) → IsReportBy profile (B.states listing.now.table.now) last (listing_by B.states listing.now) →
        slice_get (listing_by B.states listing.now).nodes index ≡ Some n → (IsErrOf result (StoreExtractError.Extract ExtractError.NotWhole) ↔ (is_offered n.standing n.size fill ≡ false)) }
    // The same of nodes that were found from another root, as those below a lost folder.
    ensures walked { B.tells → (f : Found) (root : LongAd) (n : NodeFields) → AreNodesFrom (B.states listing.now.table.now) f root (listing_by B.states listing.now) →
        slice_get (listing_by B.states listing.now).nodes index ≡ Some n → is_offered n.standing n.size fill ≡ true →
        (cs : List Cell) × HasCellsAt (view (B.states listing.now.table.now) f.space) root index cs ×
        StoreExtracts (W.stream sink.old) (W.stream sink.new) (filled (fill_byte fill) cs) result }
    ensures unfit { B.tells → (f : Found) (root : LongAd) (n : NodeFields) → AreNodesFrom (B.states listing.now.table.now) f root (listing_by B.states listing.now) →
        slice_get (listing_by B.states listing.now).nodes index ≡ Some n → (IsErrOf result (StoreExtractError.Extract ExtractError.NotWhole) ↔ (is_offered n.standing n.size fill ≡ false)) }
    // Of a whole node they are those of the volume's file at its path, for every lawful volume with which the table agrees.
    ensures tree { B.tells → (profile : Profile) (last : ℕ) (n : NodeFields) → IsReportBy profile (B.states listing.now.table.now) last (listing_by B.states listing.now) →
        slice_get (listing_by B.states listing.now).nodes index ≡ Some n → n.standing ≡ Whole →
        WritesFileBy profile (B.states listing.now.table.now) last n
        (λ bytes. StoreExtracts (W.stream sink.old) (W.stream sink.new) bytes result) }
    // Of any node that is written, a torn one too, they are that file's bytes outside the node's holes, and in them the byte that fills.
    ensures filled { B.tells → (profile : Profile) (last : ℕ) (n : NodeFields) → IsReportBy profile (B.states listing.now.table.now) last (listing_by B.states listing.now) →
        slice_get (listing_by B.states listing.now).nodes index ≡ Some n → is_offered n.standing n.size fill ≡ true →
        FillsFileBy profile (B.states listing.now.table.now) last n (fill_byte fill)
        (λ bytes. StoreExtracts (W.stream sink.old) (W.stream sink.new) bytes result) }
    ensures nothing { IsErrOf result (StoreExtractError.Extract ExtractError.NotWhole) → sink.new ≡ sink.old }
    ensures memory { IsErrOf result (StoreExtractError.Extract ExtractError.OutOfMemory) → sink.new ≡ sink.old }
    // Memory is wanted only where the body at the node's address is embedded or has a byte.
    ensures wanted { B.tells → (f : Found) (n : NodeFields) → volume_now listing.now.volume ≡ found f → slice_get (listing_by B.states listing.now).nodes index ≡ Some n →
        IsErrOf result (StoreExtractError.Extract ExtractError.OutOfMemory) → MayTakeMemory (view (B.states listing.now.table.now) f.space) n.icb }
    ensures fails { IsErrOf result StoreExtractError.Unread → B.fails }
    ensures empty { OnOk result (out.new ≡ []) }
{
    let node = &listing.nodes[index];
    if !is_offered(node, fill) {
        return Err(StoreExtractError::Extract(ExtractError::NotWhole));
    }
    match &listing.volume {
        Volume::Open(opened) => {
            let byte = fill_byte(fill);
            let view = opened.view_by(listing.table);
            write_at_by(alloc, view, node.icb, byte, out, sink)
        }
        _ => Err(StoreExtractError::Extract(ExtractError::NotWhole)),
    }
}

/// Writes the bytes of the node at this index, counted from 0 and below the number of nodes, of a listing that [`list_volume_by`](crate::list_volume_by)
/// returned, as [`extract_by`](crate::extract_by) writes those of a report's node; or of one whose nodes are those below a lost folder of its volume. They go through `out`, which holds no bytes before the call, and none
/// after `Ok`, so that one serves for many nodes.
///
/// # Errors
///
/// As those of [`extract_by`](crate::extract_by). Then `out` may hold bytes that were not written.
pub fn write_node<W: Sink>(
    alloc: Global,
    listing: &Listing<'_>,
    index: usize,
    fill: Fill,
    out: &mut Outgoing,
    sink: &mut W,
) -> Result<(), ExtractError>
    requires index { index < length listing.now.nodes.items }
    requires empty { out.old ≡ [] }
    // The bytes are those of the cells at the end of the route of this index.
    ensures cells { (profile : Profile) (last : ℕ) (n : NodeFields) → IsReportBy profile (state_of listing.now.table.now) last (listing_now listing.now) →
        slice_get (listing_now listing.now).nodes index ≡ Some n → is_offered n.standing n.size fill ≡ true →
        (cs : List Cell) × HasCellsInBy profile (state_of listing.now.table.now) last index cs ×
        Extracts (W.stream sink.old) (W.stream sink.new) (filled (fill_byte fill) cs) result }
    ensures not_whole { (profile : Profile) (last : ℕ) (n : NodeFields) → IsReportBy profile (state_of listing.now.table.now) last (listing_now listing.now) →
        slice_get (listing_now listing.now).nodes index ≡ Some n → (IsErrOf result ExtractError.NotWhole ↔ (is_offered n.standing n.size fill ≡ false)) }
    // The same of nodes that were found from another root, as those below a lost folder.
    ensures walked { (f : Found) (root : LongAd) (n : NodeFields) → AreNodesFrom (state_of listing.now.table.now) f root (listing_now listing.now) →
        slice_get (listing_now listing.now).nodes index ≡ Some n → is_offered n.standing n.size fill ≡ true →
        (cs : List Cell) × HasCellsAt (view (state_of listing.now.table.now) f.space) root index cs ×
        Extracts (W.stream sink.old) (W.stream sink.new) (filled (fill_byte fill) cs) result }
    ensures unfit { (f : Found) (root : LongAd) (n : NodeFields) → AreNodesFrom (state_of listing.now.table.now) f root (listing_now listing.now) →
        slice_get (listing_now listing.now).nodes index ≡ Some n → (IsErrOf result ExtractError.NotWhole ↔ (is_offered n.standing n.size fill ≡ false)) }
    // Of a whole node they are those of the volume's file at its path, for every lawful volume with which the table agrees.
    ensures tree { (profile : Profile) (last : ℕ) (n : NodeFields) → IsReportBy profile (state_of listing.now.table.now) last (listing_now listing.now) →
        slice_get (listing_now listing.now).nodes index ≡ Some n → n.standing ≡ Whole →
        WritesFileBy profile (state_of listing.now.table.now) last n
        (λ bytes. Extracts (W.stream sink.old) (W.stream sink.new) bytes result) }
    // Of any node that is written, a torn one too, they are that file's bytes outside the node's holes, and in them the byte that fills.
    ensures filled { (profile : Profile) (last : ℕ) (n : NodeFields) → IsReportBy profile (state_of listing.now.table.now) last (listing_now listing.now) →
        slice_get (listing_now listing.now).nodes index ≡ Some n → is_offered n.standing n.size fill ≡ true →
        FillsFileBy profile (state_of listing.now.table.now) last n (fill_byte fill)
        (λ bytes. Extracts (W.stream sink.old) (W.stream sink.new) bytes result) }
    ensures nothing { IsErrOf result ExtractError.NotWhole → sink.new ≡ sink.old }
    ensures memory { IsErrOf result ExtractError.OutOfMemory → sink.new ≡ sink.old }
    // Memory is wanted only where the body at the node's address is embedded or has a byte.
    ensures wanted { (f : Found) (n : NodeFields) → volume_now listing.now.volume ≡ found f → slice_get (listing_now listing.now).nodes index ≡ Some n →
        IsErrOf result ExtractError.OutOfMemory → MayTakeMemory (view (state_of listing.now.table.now) f.space) n.icb }
    ensures empty { OnOk result (out.new ≡ []) }
{
    match write_node_by(alloc, listing, index, fill, out, sink) {
        Ok(()) => Ok(()),
        Err(StoreExtractError::Extract(error)) => Err(error),
        Err(StoreExtractError::Unread) => unreachable!(),
    }
}

/// Writes the bytes of the entry at this index, as [`write_lost`] does, of a listing of any store of blocks, whose known blocks are read once more for it.
///
/// # Errors
///
/// As those of [`write_lost`], and `Unread` where the bytes of a known block could not be read: a beginning of the entry's may be written then.
pub fn write_lost_by<B: BlockStore, W: Sink>(
    alloc: Global,
    listing: &Listing<'_, B>,
    entries: &[Unnamed],
    index: usize,
    out: &mut Outgoing,
    sink: &mut W,
) -> Result<(), StoreExtractError>
    requires index { index < length entries.now }
    requires empty { out.old ≡ [] }
    // The bytes are those of the body of the entry of this index.
    ensures cells { B.tells → (profile : Profile) (last : ℕ) (u : Unnamed) → IsReportBy profile (B.states listing.now.table.now) last (listing_by B.states listing.now) →
        AreUnnamedBy B.states listing.now entries.now →
        slice_get (listing_by B.states listing.now).unnamed index ≡ Some u → is_lost_file u ≡ true →
        (cs : List Cell) × HasUnnamedCellsBy profile (B.states listing.now.table.now) last u cs ×
        StoreExtracts (W.stream sink.old) (W.stream sink.new) (filled 0 cs) result }
    ensures not_whole { B.tells → (profile : Profile) (last : ℕ) (u : Unnamed) → IsReportBy profile (B.states listing.now.table.now) last (listing_by B.states listing.now) →
        AreUnnamedBy B.states listing.now entries.now →
        slice_get (listing_by B.states listing.now).unnamed index ≡ Some u → (IsErrOf result (StoreExtractError.Extract ExtractError.NotWhole) ↔ (is_lost_file u ≡ false)) }
    ensures nothing { IsErrOf result (StoreExtractError.Extract ExtractError.NotWhole) → sink.new ≡ sink.old }
    ensures memory { IsErrOf result (StoreExtractError.Extract ExtractError.OutOfMemory) → sink.new ≡ sink.old }
    ensures fails { IsErrOf result StoreExtractError.Unread → B.fails }
    ensures empty { OnOk result (out.new ≡ []) }
{
    let entry = &entries[index];
    if !is_lost_file(entry) {
        return Err(StoreExtractError::Extract(ExtractError::NotWhole));
    }
    match &listing.volume {
        Volume::Open(opened) => {
            let address = entry.icb();
            let view = opened.view_by(listing.table);
            write_at_by(alloc, view, address, 0, out, sink)
        }
        _ => Err(StoreExtractError::Extract(ExtractError::NotWhole)),
    }
}

/// Writes the bytes of the entry at this index, counted from 0 and below their number, of those that [`list_unnamed`](crate::list_unnamed) returned for
/// a listing, as [`extract_unnamed_by`](crate::extract_unnamed_by) writes those of a report's entry. They go through `out`, which holds no bytes before the
/// call, and none after `Ok`.
///
/// # Errors
///
/// As those of [`extract_unnamed_by`](crate::extract_unnamed_by). Then `out` may hold bytes that were not written.
pub fn write_lost<W: Sink>(
    alloc: Global,
    listing: &Listing<'_>,
    entries: &[Unnamed],
    index: usize,
    out: &mut Outgoing,
    sink: &mut W,
) -> Result<(), ExtractError>
    requires index { index < length entries.now }
    requires empty { out.old ≡ [] }
    // The bytes are those of the body of the entry of this index.
    ensures cells { (profile : Profile) (last : ℕ) (u : Unnamed) → IsReportBy profile (state_of listing.now.table.now) last (listing_now listing.now) →
        AreUnnamed listing.now entries.now →
        slice_get (listing_now listing.now).unnamed index ≡ Some u → is_lost_file u ≡ true →
        (cs : List Cell) × HasUnnamedCellsBy profile (state_of listing.now.table.now) last u cs ×
        Extracts (W.stream sink.old) (W.stream sink.new) (filled 0 cs) result }
    ensures not_whole { (profile : Profile) (last : ℕ) (u : Unnamed) → IsReportBy profile (state_of listing.now.table.now) last (listing_now listing.now) →
        AreUnnamed listing.now entries.now →
        slice_get (listing_now listing.now).unnamed index ≡ Some u → (IsErrOf result ExtractError.NotWhole ↔ (is_lost_file u ≡ false)) }
    ensures nothing { IsErrOf result ExtractError.NotWhole → sink.new ≡ sink.old }
    ensures memory { IsErrOf result ExtractError.OutOfMemory → sink.new ≡ sink.old }
    ensures empty { OnOk result (out.new ≡ []) }
{
    match write_lost_by(alloc, listing, entries, index, out, sink) {
        Ok(()) => Ok(()),
        Err(StoreExtractError::Extract(error)) => Err(error),
        Err(StoreExtractError::Unread) => unreachable!(),
    }
}
