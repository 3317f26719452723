//! What a request asks for is made of a volume, whose blocks are a table's or a store's: the nodes, their manifest, and what is lost.

ghost use Rattle.std.specs.Prelude.{◌≡◌, ◌⊎◌, ⊤, ℕ, IfErr, IfOk, IsErrOf, MatchOption, option_map, string_bytes};
ghost use Rattle.udfs_lattice.specs.Tables.{Table, state_of};
ghost use Rattle.udfs_walk.specs.GivingUp.{IfTold};
ghost use Rattle.udfs_salvage.specs.Listings.{AreUnnamedBy, listing_by};
ghost use Rattle.udfs_salvage.specs.Reports.{IsReportBy, Report};
ghost use Rattle.udfs_extraction.specs.ByRequest.{Makes};
ghost use Rattle.udfs_extraction.specs.LostPlaces.{IsPlaceOf, lost_report};
ghost use Rattle.udfs_extraction.specs.LostTrees.{AreFoundOf, IsUnfoundBy};
ghost use Rattle.udfs_extraction.specs.ListedStops.{ListedStops};
ghost use Rattle.udfs_extraction.specs.Refused.{MakingCut, MakingRefused, lost_stop_of};
ghost use Rattle.udfs_extraction.specs.Sparing.{SparesMaking};
ghost use Rattle.udfs_extraction.specs.Stopping.{IfStopped};

use crate::lost_found::LostFound;
use crate::lost_places::{find_trees, put_lost, standing_in};
use crate::manifest_put::list_report;
use crate::nodes::is_all_good;
use crate::stopping::Stop;
use crate::unnamed::{add_lost, lost_entries};
use std::alloc::{AllocError, Global};
use udfs_common::files::Files;
use udfs_common::known::Known;
use udfs_common::refusal::Refusal;
use udfs_host_fs::{Stage, Times};
use udfs_lattice::{BlockStore, GaveUp};
use udfs_reading::Sink;
use udfs_remarks::SteadyStore;
use udfs_remarks::no_reports::refused_report;
use udfs_salvage::{Listing, ReportStore, StoreError, list_store};
use udfs_walk::{NodesError, NodesGaveUp, Unnamed};
use udfs_words::request::ExtractRequest;

/// What is lost of a volume, as far as it is asked for.
#[derive(Drop)]
struct Searched<'a, B: BlockStore> {
    /// The entries that no name leads to.
    entries: Vec<Unnamed>,
    /// Where lost folders were looked for, where this is not the volume itself.
    standing: Option<Listing<'a, B>>,
    /// The lost folders.
    found: LostFound,
}

/// Looks for what is lost of the volume of a listing, as far as it is asked for.
fn search_lost<'a, B: BlockStore>(
    alloc: Global,
    listing: &Listing<'a, B>,
    request: &ExtractRequest<'_>,
) -> Result<Searched<'a, B>, NodesGaveUp>
    ensures entries { IfOk result (λ s. MatchOption request.now.lost ⊤ (λ folder. B.tells → AreUnnamedBy B.states listing.now s.entries.items)) }
    ensures place { IfOk result (λ s. B.tells → IsPlaceOf B.states listing.now s.standing) }
    ensures found { IfOk result (λ s. MatchOption request.now.trees ⊤ (λ folder. B.tells → AreFoundOf request.now.deleted (B.states listing.now.table.now)
        (lost_report listing.now.profile (B.states listing.now.table.now) listing.now.last (listing_by B.states listing.now)) s.found.trees.items s.found.names)) }
    ensures refused { IfErr result (λ e. B.tells → IfTold (λ error. (error ≡ NodesError.OutOfMemory) ⊎ MatchOption request.now.trees ⊥ (λ folder. IsUnfoundBy request.now.deleted (B.states listing.now.table.now)
        (lost_report listing.now.profile (B.states listing.now.table.now) listing.now.last (listing_by B.states listing.now)) error)) e) }
    ensures fails { IsErrOf result NodesGaveUp.Unread → B.fails }
{
    let entries = match lost_entries(alloc, listing, request.lost, request.trees) {
        Ok(entries) => entries,
        Err(GaveUp::OutOfMemory) => return Err(NodesGaveUp::OutOfMemory),
        Err(GaveUp::Unread) => return Err(NodesGaveUp::Unread),
    };
    let standing = match standing_in(alloc, listing) {
        Ok(standing) => standing,
        Err(GaveUp::OutOfMemory) => return Err(NodesGaveUp::OutOfMemory),
        Err(GaveUp::Unread) => return Err(NodesGaveUp::Unread),
    };
    match find_trees(
        alloc,
        listing,
        &standing,
        request.trees,
        request.deleted,
        &entries,
    ) {
        Ok(found) => Ok(Searched {
            entries,
            standing,
            found,
        }),
        Err(error) => Err(error),
    }
}

/// Why nothing was made, where what is lost was not found.
fn unsearched(error: NodesGaveUp) -> Stop
    ensures { result ≡ lost_stop_of error }
{
    match error {
        NodesGaveUp::TooManyPaths => Stop::Refused(Refusal::TooManyPaths),
        NodesGaveUp::OutOfMemory => Stop::Refused(Refusal::Memory(AllocError)),
        NodesGaveUp::Unread => Stop::Unread,
    }
}

/// Makes what a request asks for of the volume of a listing: the nodes, the manifest at its place, the lost files, and the lost folders.
fn make_listed<B: ReportStore, F: Files, O: Sink>(
    alloc: Global,
    listing: Listing<'_, B>,
    request: &ExtractRequest<'_>,
    place: &Option<String>,
    times: &Times,
    files: &mut F,
    out: &mut O,
) -> Result<bool, Stop>
    requires told { F.tells → B.tells }
    requires rules { listing.profile ≡ request.now.volume.profile }
    ensures made { IfOk result (λ good. B.tells → Makes ⟦<F as Known>⟧.reach O.stream request.now (option_map string_bytes place.now) files.old files.new out.old out.new listing.entry.last (B.states listing.entry.table.now) (listing_by B.states listing.entry) good) }
    ensures why { IfErr result (λ stop. B.tells → ListedStops ⟦<F as Known>⟧.reach O.stream request.now (option_map string_bytes place.now) files.old files.new out.old out.new listing.entry.last (B.states listing.entry.table.now) (listing_by B.states listing.entry) stop) }
    ensures no_node { (i : ℕ) → IsErrOf result (Stop.Refused (Refusal.NoNode i)) → files.new ≡ files.old }
    ensures spares { (files.new ≡ files.old) ⊎ SparesMaking ⟦<F as Known>⟧.reach request.now (option_map string_bytes place.now) files.old files.new }
    ensures fails { IsErrOf result Stop.Unread → (B.fails → ⊥) → ⊥ }
{
    let Searched {
        entries,
        standing,
        found,
    } = match search_lost(alloc, &listing, request) {
        Ok(searched) => searched,
        Err(error) => return Err(unsearched(error)),
    };
    files.begin(Stage::Writing);
    let good = match list_report(alloc, &listing, request, place, times, files, out) {
        Ok(good) => good,
        Err(stop) => return Err(stop),
    };
    let lost_good = match add_lost(alloc, &listing, &entries, request.lost, times, files, out) {
        Ok(lost_good) => lost_good,
        Err(stop) => return Err(stop),
    };
    match put_lost(alloc, listing, standing, found, request, times, files, out) {
        Ok(trees_good) => Ok(is_all_good(good, is_all_good(lost_good, trees_good))),
        Err(stop) => Err(stop),
    }
}

/// Makes what a request asks for of a store's volume, where this is its last block: the nodes, the manifest at its place, the lost files, and the lost folders. It
/// returns whether all that is asked for is whole and nothing failed.
///
/// # Errors
///
/// `Unread` where the bytes of a known block could not be read, or the store has changed: what was reported by then is made. `Refused`: why else not all was made.
pub fn make_all<B: SteadyStore, F: Files, O: Sink>(
    alloc: Global,
    blocks: &B,
    last: u32,
    request: &ExtractRequest<'_>,
    place: &Option<String>,
    times: &Times,
    files: &mut F,
    out: &mut O,
) -> Result<bool, Stop>
    requires told { F.tells → B.tells }
    ensures made { IfOk result (λ good. B.tells → (t : Table) → B.holds blocks.now t → (report : Report) × IsReportBy request.now.volume.profile (state_of t) last report ×
        Makes ⟦<F as Known>⟧.reach O.stream request.now (option_map string_bytes place.now) files.old files.new out.old out.new last (state_of t) report good) }
    ensures why { IfErr result (λ stop. B.tells → (t : Table) → B.holds blocks.now t → IfStopped (MakingRefused ⟦<F as Known>⟧.reach O.stream request.now (option_map string_bytes place.now) files.old files.new out.old out.new last t)
        (MakingCut ⟦<F as Known>⟧.reach O.stream request.now (option_map string_bytes place.now) files.old files.new out.old out.new last t) stop) }
    ensures no_node { (i : ℕ) → IsErrOf result (Stop.Refused (Refusal.NoNode i)) → files.new ≡ files.old }
    ensures spares { (files.new ≡ files.old) ⊎ SparesMaking ⟦<F as Known>⟧.reach request.now (option_map string_bytes place.now) files.old files.new }
    ensures fails { IsErrOf result Stop.Unread → (B.fails → ⊥) → ⊥ }
{
    files.begin(Stage::Walking);
    let listing = match list_store(alloc, blocks, last, request.volume.profile) {
        Ok(listing) => listing,
        Err(StoreError::Salvage(error)) => return Err(Stop::Refused(refused_report(error))),
        Err(StoreError::Unread) => return Err(Stop::Unread),
    };
    let good = match make_listed(alloc, listing, request, place, times, files, out) {
        Ok(good) => good,
        Err(stop) => return Err(stop),
    };
    if !blocks.is_steady() {
        return Err(Stop::Unread);
    }
    Ok(good)
}
