//! The bytes of an entry that no name leads to are written.

ghost use Rattle.std.specs.Prelude.{◌≡◌, ◌<◌, ◌↔◌, ℕ, true, false, List, Some, length, slice_get, IsErrOf};
ghost use Rattle.udfs_lattice.specs.Tables.{state_of};
ghost use Rattle.udfs_file.specs.declared.cells.Cell.{Cell};
ghost use Rattle.udfs_volume.specs.declared.profiles.Profile.{Profile};
ghost use Rattle.udfs_walk.specs.declared.answers.Unnamed.{Unnamed};
ghost use Rattle.udfs_salvage.specs.Extraction.{Extracts, filled};
ghost use Rattle.udfs_salvage.specs.Found.{volume_now};
ghost use Rattle.udfs_salvage.specs.Reports.{IsReportBy, report_now};
ghost use Rattle.udfs_salvage.specs.Texts.{has_two};
ghost use Rattle.udfs_salvage.specs.UnnamedExtraction.{HasUnnamedCellsBy, is_lost_file};

use crate::extraction::{ExtractError, write_at};
use crate::lines::has_two;
use crate::reports::{Report, is_whole};
use crate::volumes::Volume;
use std::alloc::Global;
use udfs_file::Kind;
use udfs_reading::{Outgoing, Sink};
use udfs_walk::Unnamed;

/// Whether an entry that no name leads to is a lost file: a file with data that is whole.
pub fn is_lost_file(entry: &Unnamed) -> bool
    ensures { result ≡ is_lost_file entry.now }
{
    match entry.kind {
        Kind::File => entry.size > 0 && is_whole(&entry.standing),
        _ => false,
    }
}

/// Whether a volume is open and has two partitions: then an entry is named by its partition reference and its logical block, and else by its block alone.
pub fn has_two_partitions(volume: &Volume) -> bool
    ensures { result ≡ has_two (volume_now volume.now) }
{
    has_two(volume)
}

/// Writes the bytes of the entry at this index, counted from 0 and below their number, of those that no name leads to, of a report that
/// [`salvage_by`](crate::salvage_by) returned, by the rules of any profile: where it is a lost file, as [`is_lost_file`] says.
///
/// They are the bytes of the body of that entry, in the table; none is missing. Nothing shows whether the file was deleted long ago. Nothing bounds the
/// number of bytes but the entry's size, which can be up to 2^64 - 1.
///
/// # Errors
///
/// `NotWhole` exactly where the entry is no lost file; then nothing is written. `Write` exactly where the sink failed; then a beginning of the bytes is
/// written. `OutOfMemory` where memory runs out; then nothing is written.
pub fn extract_unnamed_by<W: Sink>(
    alloc: Global,
    report: &Report<'_>,
    index: usize,
    sink: &mut W,
) -> Result<(), ExtractError>
    requires { index < length report.now.unnamed.items }
    // The bytes are those of the body of the entry of this index.
    ensures cells { (profile : Profile) (last : ℕ) (u : Unnamed) → IsReportBy profile (state_of report.now.table.now) last (report_now report.now) →
        slice_get report.now.unnamed.items index ≡ Some u → is_lost_file u ≡ true →
        (cs : List Cell) × HasUnnamedCellsBy profile (state_of report.now.table.now) last u cs ×
        Extracts (W.stream sink.old) (W.stream sink.new) (filled 0 cs) result }
    ensures not_whole { (profile : Profile) (last : ℕ) (u : Unnamed) → IsReportBy profile (state_of report.now.table.now) last (report_now report.now) →
        slice_get report.now.unnamed.items index ≡ Some u → (IsErrOf result ExtractError.NotWhole ↔ (is_lost_file u ≡ false)) }
    ensures nothing { IsErrOf result ExtractError.NotWhole → sink.new ≡ sink.old }
    ensures memory { IsErrOf result ExtractError.OutOfMemory → sink.new ≡ sink.old }
{
    let entry = &report.unnamed[index];
    if !is_lost_file(entry) {
        return Err(ExtractError::NotWhole);
    }
    match &report.volume {
        Volume::Open(opened) => {
            let address = entry.icb();
            let mut out = Outgoing::new();
            let view = opened.view(report.table);
            write_at(alloc, view, address, 0, &mut out, sink)
        }
        _ => Err(ExtractError::NotWhole),
    }
}
