//! The bytes of a node are written.

ghost use Rattle.std.specs.Prelude.{◌≡◌, ◌<◌, ◌↔◌, ℕ, Bool, true, false, List, [], Some, length, slice_get, IsErrOf, IfErr, OnOk};
ghost use Rattle.udfs_lattice.specs.Tables.{state_of};
ghost use Rattle.udfs_space.specs.Places.{view};
ghost use Rattle.udfs_space.specs.Views.{view_by, view_now};
ghost use Rattle.udfs_file.specs.declared.cells.Cell.{Cell};
ghost use Rattle.udfs_volume.specs.Answers.{found};
ghost use Rattle.udfs_volume.specs.declared.profiles.Profile.{Profile};
ghost use Rattle.udfs_walk.specs.NodeBodies.{HasCells, MayTakeMemory};
ghost use Rattle.udfs_walk.specs.NodeFields.{NodeFields};
ghost use Rattle.udfs_salvage.specs.Found.{Found, volume_now};
ghost use Rattle.udfs_salvage.specs.Reports.{IsReport, IsReportBy, report_now};
ghost use Rattle.udfs_salvage.specs.TreeReports.{FillsFile, FillsFileBy, WritesFile, WritesFileBy};
ghost use Rattle.udfs_salvage.specs.Extraction.{Extracts, HasCellsIn, HasCellsInBy, fill_byte, filled, is_offered};
ghost use Rattle.udfs_salvage.specs.StoreExtraction.{StoreExtracts};

use crate::body_bytes::{BodyFault, write_body};
use crate::reports::Report;
use crate::volumes::Volume;
use std::alloc::Global;
use std::error::Error;
use std::fmt;
use udfs_lattice::{BlockStore, GaveUp};
use udfs_reading::{Outgoing, Sink};
use udfs_space::{StoreView, View};
use udfs_tag::LongAd;
use udfs_walk::{Node, Standing, body_by};

/// What is written of nodes that are not whole.
#[derive(Clone, Copy, Debug, PartialEq, Eq)]
pub enum Fill {
    /// Nothing: writing such a node fails with [`ExtractError::NotWhole`].
    Refuse,
    /// A torn node of known size is written, with this byte for each that is missing.
    Byte(u8),
}

/// Why a node was not written, or only a beginning of it.
#[derive(Clone, Copy, Debug, PartialEq, Eq)]
pub enum ExtractError {
    /// The node is not whole, and is not torn with a known size and with leave to fill it.
    NotWhole,
    /// The sink failed.
    Write,
    /// Memory ran out.
    OutOfMemory,
}

impl fmt::Display for ExtractError {
    fn fmt<W: fmt::Write>(&self, f: &mut fmt::Formatter<W>) -> fmt::Result {
        f.write_str(match self {
            ExtractError::NotWhole => "the node is not whole",
            ExtractError::Write => "the bytes could not be written",
            ExtractError::OutOfMemory => "out of memory",
        })
    }
}

impl Error for ExtractError {}

/// The byte for those that are missing.
pub(crate) fn fill_byte(fill: Fill) -> u8
    ensures { result ≡ fill_byte fill }
{
    match fill {
        Fill::Refuse => 0,
        Fill::Byte(byte) => byte,
    }
}

/// Whether [`extract`] writes this node: where it is whole; and where it is torn, its size is known and `fill` has a byte.
pub fn is_offered(node: &Node, fill: Fill) -> bool
    ensures { result ≡ is_offered node.now.standing node.now.size fill }
{
    match node.standing {
        Standing::Whole => true,
        Standing::Torn(_) => node.size.is_some() && fill != Fill::Refuse,
        _ => false,
    }
}

/// Why a node of a store of blocks was not written, or only a beginning of it.
#[derive(Clone, Copy, Debug, PartialEq, Eq)]
pub enum StoreExtractError {
    /// As of a table.
    Extract(ExtractError),
    /// The bytes of a known block could not be read. A beginning of the node's may be written then.
    Unread,
}

impl fmt::Display for StoreExtractError {
    fn fmt<W: fmt::Write>(&self, f: &mut fmt::Formatter<W>) -> fmt::Result {
        match self {
            StoreExtractError::Extract(error) => write!(f, "{error}"),
            StoreExtractError::Unread => write!(f, "a known block could not be read"),
        }
    }
}

impl Error for StoreExtractError {}

/// Writes the body of the entry at an address, where there is one, through a piece of outgoing bytes that holds none, nor does after it.
pub(crate) fn write_at_by<B: BlockStore, W: Sink>(
    alloc: Global,
    view: StoreView<'_, B>,
    address: LongAd,
    fill: u8,
    out: &mut Outgoing,
    sink: &mut W,
) -> Result<(), StoreExtractError>
    requires { out.old ≡ [] }
    ensures cells { B.tells → (cs : List Cell) → HasCells (view_by B.states view.entry) address cs →
        StoreExtracts (W.stream sink.old) (W.stream sink.new) (filled fill cs) result }
    ensures not_whole { IsErrOf result (StoreExtractError.Extract ExtractError.NotWhole) → sink.new ≡ sink.old }
    ensures memory { IsErrOf result (StoreExtractError.Extract ExtractError.OutOfMemory) → sink.new ≡ sink.old }
    ensures wanted { IsErrOf result (StoreExtractError.Extract ExtractError.OutOfMemory) → B.tells → MayTakeMemory (view_by B.states view.entry) address }
    ensures fails { IsErrOf result StoreExtractError.Unread → B.fails }
    ensures empty { OnOk result (out.new ≡ []) }
{
    match body_by(alloc, view, address) {
        Ok(Some(body)) => match write_body(out, sink, view, &body, fill) {
            Ok(()) => Ok(()),
            Err(BodyFault::Write) => Err(StoreExtractError::Extract(ExtractError::Write)),
            Err(BodyFault::Unread) => Err(StoreExtractError::Unread),
        },
        Ok(None) => Err(StoreExtractError::Extract(ExtractError::NotWhole)),
        Err(GaveUp::OutOfMemory) => Err(StoreExtractError::Extract(ExtractError::OutOfMemory)),
        Err(GaveUp::Unread) => Err(StoreExtractError::Unread),
    }
}

/// The same of a table, whose blocks are never read again.
pub(crate) fn write_at<W: Sink>(
    alloc: Global,
    view: View<'_>,
    address: LongAd,
    fill: u8,
    out: &mut Outgoing,
    sink: &mut W,
) -> Result<(), ExtractError>
    requires { out.old ≡ [] }
    ensures cells { (cs : List Cell) → HasCells (view_now view.entry) address cs →
        Extracts (W.stream sink.old) (W.stream sink.new) (filled fill cs) result }
    ensures not_whole { IsErrOf result ExtractError.NotWhole → sink.new ≡ sink.old }
    ensures memory { IsErrOf result ExtractError.OutOfMemory → sink.new ≡ sink.old }
    ensures wanted { IsErrOf result ExtractError.OutOfMemory → MayTakeMemory (view_now view.entry) address }
    ensures empty { OnOk result (out.new ≡ []) }
{
    let stored = StoreView {
        blocks: view.table,
        space: view.space,
    };
    match write_at_by(alloc, stored, address, fill, out, sink) {
        Ok(()) => Ok(()),
        Err(StoreExtractError::Extract(error)) => Err(error),
        Err(StoreExtractError::Unread) => unreachable!(),
    }
}

/// Writes the bytes of the node at this index, counted from 0 and below the number of nodes, of a report that
/// [`salvage_by`] returned, by the rules of any profile: where the node is whole; and where it is torn, its size is known and `fill` has a byte, with this
/// byte in place of those that are missing.
///
/// They are the bytes of the body that is at the end of the route to that node, whatever other node has the same path; of a whole
/// node they are those of the file at its path in every volume that is lawful by these rules and with which the table agrees, and of a torn one those
/// outside its holes are. Nothing bounds
/// their number but the node's size, which can be up to 2^64 - 1.
///
/// # Errors
///
/// `NotWhole` exactly where the node is not to be written; then nothing is. `Write` exactly where the sink failed; then a beginning
/// of the bytes is written. `OutOfMemory` where memory runs out: never for a node without a byte
/// whose body is not embedded; then nothing is written.
///
/// [`salvage_by`]: crate::salvage_by
pub fn extract_by<W: Sink>(
    alloc: Global,
    report: &Report<'_>,
    index: usize,
    fill: Fill,
    sink: &mut W,
) -> Result<(), ExtractError>
    requires { index < length report.now.nodes.items }
    // The bytes are those of the cells at the end of the route of this index.
    ensures cells { (profile : Profile) (last : ℕ) (n : NodeFields) → IsReportBy profile (state_of report.now.table.now) last (report_now report.now) →
        slice_get report.now.nodes.items index ≡ Some n → is_offered n.standing n.size fill ≡ true →
        (cs : List Cell) × HasCellsInBy profile (state_of report.now.table.now) last index cs ×
        Extracts (W.stream sink.old) (W.stream sink.new) (filled (fill_byte fill) cs) result }
    ensures not_whole { (profile : Profile) (last : ℕ) (n : NodeFields) → IsReportBy profile (state_of report.now.table.now) last (report_now report.now) →
        slice_get report.now.nodes.items index ≡ Some n → (IsErrOf result ExtractError.NotWhole ↔ (is_offered n.standing n.size fill ≡ false)) }
    // Of a whole node they are those of the volume's file at its path, for every lawful volume with which the table agrees.
    ensures tree { (profile : Profile) (last : ℕ) (n : NodeFields) → IsReportBy profile (state_of report.now.table.now) last (report_now report.now) →
        slice_get report.now.nodes.items index ≡ Some n → n.standing ≡ Standing.Whole →
        WritesFileBy profile (state_of report.now.table.now) last n
        (λ bytes. Extracts (W.stream sink.old) (W.stream sink.new) bytes result) }
    // Of any node that is written, a torn one too, they are that file's bytes outside the node's holes, and in them the byte that fills.
    ensures filled { (profile : Profile) (last : ℕ) (n : NodeFields) → IsReportBy profile (state_of report.now.table.now) last (report_now report.now) →
        slice_get report.now.nodes.items index ≡ Some n → is_offered n.standing n.size fill ≡ true →
        FillsFileBy profile (state_of report.now.table.now) last n (fill_byte fill)
        (λ bytes. Extracts (W.stream sink.old) (W.stream sink.new) bytes result) }
    // Of a report that was put together otherwise, they are those that its volume and the node's own address give.
    ensures stated { (f : Found) (n : NodeFields) (cs : List Cell) → volume_now report.now.volume ≡ found f →
        slice_get report.now.nodes.items index ≡ Some n → is_offered n.standing n.size fill ≡ true → HasCells (view (state_of report.now.table.now) f.space) n.icb cs →
        Extracts (W.stream sink.old) (W.stream sink.new) (filled (fill_byte fill) cs) result }
    ensures nothing { IsErrOf result ExtractError.NotWhole → sink.new ≡ sink.old }
    ensures memory { IsErrOf result ExtractError.OutOfMemory → sink.new ≡ sink.old }
    // Memory is wanted only where the body at the node's address is embedded or has a byte.
    ensures wanted { (f : Found) (n : NodeFields) → volume_now report.now.volume ≡ found f → slice_get report.now.nodes.items index ≡ Some n →
        IsErrOf result ExtractError.OutOfMemory → MayTakeMemory (view (state_of report.now.table.now) f.space) n.icb }
{
    let node = &report.nodes[index];
    if !is_offered(node, fill) {
        return Err(ExtractError::NotWhole);
    }
    match &report.volume {
        Volume::Open(opened) => {
            let byte = fill_byte(fill);
            let mut out = Outgoing::new();
            let view = opened.view(report.table);
            write_at(alloc, view, node.icb, byte, &mut out, sink)
        }
        _ => Err(ExtractError::NotWhole),
    }
}

/// Writes the bytes of the node at this index, counted from 0 and below the number of nodes, of a report that [`salvage`]
/// returned: where the node is whole; and where it is torn, its size is known and `fill` has a byte, with this byte in place of those
/// that are missing.
///
/// They are the bytes of the body that is at the end of the route to that node, whatever other node has the same path; of a whole
/// node they are those of the file at its path in every lawful volume with which the table agrees, and of a torn one those
/// outside its holes are. Nothing bounds
/// their number but the node's size, which can be up to 2^64 - 1.
///
/// # Errors
///
/// `NotWhole` exactly where the node is not to be written; then nothing is. `Write` exactly where the sink failed; then a beginning
/// of the bytes is written. `OutOfMemory` where memory runs out: never for a node without a byte
/// whose body is not embedded; then nothing is written.
///
/// [`salvage`]: crate::salvage
pub fn extract<W: Sink>(
    alloc: Global,
    report: &Report<'_>,
    index: usize,
    fill: Fill,
    sink: &mut W,
) -> Result<(), ExtractError>
    requires { index < length report.now.nodes.items }
    // The bytes are those of the cells at the end of the route of this index.
    ensures cells { (last : ℕ) (n : NodeFields) → IsReport (state_of report.now.table.now) last (report_now report.now) →
        slice_get report.now.nodes.items index ≡ Some n → is_offered n.standing n.size fill ≡ true →
        (cs : List Cell) × HasCellsIn (state_of report.now.table.now) last index cs ×
        Extracts (W.stream sink.old) (W.stream sink.new) (filled (fill_byte fill) cs) result }
    ensures not_whole { (last : ℕ) (n : NodeFields) → IsReport (state_of report.now.table.now) last (report_now report.now) →
        slice_get report.now.nodes.items index ≡ Some n → (IsErrOf result ExtractError.NotWhole ↔ (is_offered n.standing n.size fill ≡ false)) }
    // Of a whole node they are those of the volume's file at its path, for every lawful volume with which the table agrees.
    ensures tree { (last : ℕ) (n : NodeFields) → IsReport (state_of report.now.table.now) last (report_now report.now) →
        slice_get report.now.nodes.items index ≡ Some n → n.standing ≡ Standing.Whole →
        WritesFile (state_of report.now.table.now) last n
        (λ bytes. Extracts (W.stream sink.old) (W.stream sink.new) bytes result) }
    // Of any node that is written, a torn one too, they are that file's bytes outside the node's holes, and in them the byte that fills.
    ensures filled { (last : ℕ) (n : NodeFields) → IsReport (state_of report.now.table.now) last (report_now report.now) →
        slice_get report.now.nodes.items index ≡ Some n → is_offered n.standing n.size fill ≡ true →
        FillsFile (state_of report.now.table.now) last n (fill_byte fill)
        (λ bytes. Extracts (W.stream sink.old) (W.stream sink.new) bytes result) }
    // Of a report that was put together otherwise, they are those that its volume and the node's own address give.
    ensures stated { (f : Found) (n : NodeFields) (cs : List Cell) → volume_now report.now.volume ≡ found f →
        slice_get report.now.nodes.items index ≡ Some n → is_offered n.standing n.size fill ≡ true → HasCells (view (state_of report.now.table.now) f.space) n.icb cs →
        Extracts (W.stream sink.old) (W.stream sink.new) (filled (fill_byte fill) cs) result }
    ensures nothing { IsErrOf result ExtractError.NotWhole → sink.new ≡ sink.old }
    ensures memory { IsErrOf result ExtractError.OutOfMemory → sink.new ≡ sink.old }
    // Memory is wanted only where the body at the node's address is embedded or has a byte.
    ensures wanted { (f : Found) (n : NodeFields) → volume_now report.now.volume ≡ found f → slice_get report.now.nodes.items index ≡ Some n →
        IsErrOf result ExtractError.OutOfMemory → MayTakeMemory (view (state_of report.now.table.now) f.space) n.icb }
{
    extract_by(alloc, report, index, fill, sink)
}
