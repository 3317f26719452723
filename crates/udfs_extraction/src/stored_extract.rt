//! The files of a volume whose inputs are read at positions: no block of them is held.

ghost use Rattle.std.specs.Prelude.{◌≡◌, ◌⊎◌, ℕ, IfErr, IfOk, option_map, string_bytes};
ghost use Rattle.udfs_lattice.specs.Tables.{state_of};
ghost use Rattle.udfs_salvage.specs.Reports.{IsReportBy, Report};
ghost use Rattle.udfs_common.specs.Blaming.{stored_reason};
ghost use Rattle.udfs_common.specs.Volumes.{IsStoredDisc, OfToldVolume};
ghost use Rattle.udfs_extraction.specs.ByRequest.{Makes};
ghost use Rattle.udfs_extraction.specs.Refused.{VolumeStops};
ghost use Rattle.udfs_extraction.specs.Sparing.{SparesMaking};

use crate::making::make_all;
use crate::stopping::Stop;
use std::alloc::Global;
use udfs_common::files::Files;
use udfs_common::index_taking::reread_of;
use udfs_common::known::Known;
use udfs_common::refusal::Refusal;
use udfs_common::stored_volumes::{StoredDisc, indexed_volume};
use udfs_host_fs::Times;
use udfs_index::{AnyStored, Stored};
use udfs_reading::Sink;
use udfs_remarks::IndexBlocks;
use udfs_words::request::ExtractRequest;

/// Makes what a request asks for of its volume, of which no block is held. Where a block could not be read, or an input has changed, what was reported by then is made.
pub fn extract_stored<F: Files, O: Sink>(
    alloc: Global,
    disc: &StoredDisc<F::Stored>,
    request: &ExtractRequest<'_>,
    place: &Option<String>,
    times: &Times,
    files: &mut F,
    out: &mut O,
) -> Result<bool, Refusal>
    requires { IsStoredDisc ⟦<F as Known>⟧.reach files.old request.now.volume ⟦<AnyStored<F::Stored> as Stored>⟧.content stored_reason disc.now.stored.items disc.now.last }
    ensures made { IfOk result (λ good. OfToldVolume ⟦<F as Known>⟧.reach files.old request.now.volume (λ last table. (report : Report) × IsReportBy request.now.volume.profile (state_of table) last report ×
        Makes ⟦<F as Known>⟧.reach O.stream request.now (option_map string_bytes place.now) files.old files.new out.old out.new last (state_of table) report good)) }
    ensures why { IfErr result (VolumeStops ⟦<F as Known>⟧.reach O.stream request.now (option_map string_bytes place.now) files.old files.new out.old out.new) }
    ensures no_node { IfErr result (λ refusal. (i : ℕ) → refusal ≡ Refusal.NoNode i → files.new ≡ files.old) }
    ensures spares { (files.new ≡ files.old) ⊎ SparesMaking ⟦<F as Known>⟧.reach request.now (option_map string_bytes place.now) files.old files.new }
{
    let index = match indexed_volume(alloc, &request.volume, disc, files) {
        Ok(index) => index,
        Err(refusal) => return Err(refusal),
    };
    let inputs = disc.stored.as_slice();
    let blocks = IndexBlocks::new(&index, inputs);
    match make_all(alloc, &blocks, disc.last, request, place, times, files, out) {
        Ok(good) => Ok(good),
        Err(Stop::Refused(refusal)) => Err(refusal),
        Err(Stop::Unread) => Err(reread_of(inputs, blocks.unread())),
    }
}
