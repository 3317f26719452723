//! Where what is lost is looked for: in a volume that opens; and in place of one that does not, in all that is known of it by its layout and the places of its blocks.

ghost use Rattle.std.specs.Prelude.{◌≡◌, ◌⊎◌, ⊤, ℕ, [], IfErr, IfOk, IsErrOf, MatchOption, option_map};
ghost use Rattle.udfs_volume.specs.Answers.{found};
ghost use Rattle.udfs_walk.specs.GivingUp.{IfTold};
ghost use Rattle.udfs_lost.specs.PlacedVolumes.{placed_now};
ghost use Rattle.udfs_salvage.specs.Listings.{AreUnnamedBy, listing_by};
ghost use Rattle.udfs_extraction.specs.ByRequest.{MakesTrees};
ghost use Rattle.udfs_extraction.specs.LostFiles.{SparesLost};
ghost use Rattle.udfs_extraction.specs.LostPlaces.{IsPlaceOf, IsStandIn, lost_report, placed_at, stand_in};
ghost use Rattle.udfs_extraction.specs.LostTrees.{AreFoundOf, IsUnfoundBy, nodes_report};
ghost use Rattle.udfs_extraction.specs.Refused.{TreesCut, TreesStop};
ghost use Rattle.udfs_extraction.specs.Stopping.{IfStopped};

use crate::lost_found::{LostFound, found_trees};
use crate::lost_trees::add_trees;
use crate::stopping::Stop;
use crate::unnamed::lost_entries;
use std::alloc::Global;
use udfs_common::files::Files;
use udfs_common::known::Known;
use udfs_common::refusal::Refusal;
use udfs_host_fs::Times;
use udfs_lattice::{BlockStore, GaveUp};
use udfs_lost::{PlacedVolume, placed_volume_by};
use udfs_overview::has_room;
use udfs_reading::Sink;
use udfs_salvage::{Listing, OpenVolume, Volume};
use udfs_tag::LongAd;
use udfs_volume::Profile;
use udfs_walk::{NodesError, NodesGaveUp, Unnamed};
use udfs_words::request::ExtractRequest;

/// An address that leads nowhere.
const NOWHERE: LongAd = LongAd {
    kind: 0,
    length: 0,
    block: 0,
    reference: 0,
};

/// The layout of a volume and the places of its blocks, where they are found, of a disc that has room for a volume.
#[tactic(auto, unfolding(crate::specs::LostPlaces::placed_at))]
fn placed_at<B: BlockStore>(
    alloc: Global,
    blocks: &B,
    last: u32,
    profile: Profile,
) -> Result<Option<PlacedVolume>, GaveUp>
    ensures placed { IfOk result (λ placed. B.tells → option_map placed_now placed ≡ placed_at profile (B.states blocks.now) last) }
    ensures fails { IsErrOf result GaveUp.Unread → B.fails }
{
    if !has_room(last) {
        return Ok(None);
    }
    placed_volume_by(alloc, blocks, last, profile)
}

/// The listing of a volume of which this is known, as if it opened: its root is nowhere, so that no name leads to any of its entries.
fn as_opened<'a, B: BlockStore>(
    alloc: Global,
    blocks: &'a B,
    last: u32,
    profile: Profile,
    placed: PlacedVolume,
) -> Listing<'a, B>
    ensures of { (listing_by B.states result ≡ nodes_report (B.states blocks.now) (found (stand_in (placed_now placed))) []) × (result.table.now ≡ blocks.now) }
{
    let PlacedVolume { parts, space } = placed;
    Listing {
        table: blocks,
        last,
        profile,
        volume: Volume::Open(OpenVolume {
            parts,
            space,
            root: NOWHERE,
        }),
        nodes: Vec::new(alloc),
    }
}

/// The listing that stands in for one of a volume that does not open, if its layout and the places of its blocks are found.
fn stand_in_for<'a, B: BlockStore>(
    alloc: Global,
    listing: &Listing<'a, B>,
) -> Result<Option<Listing<'a, B>>, GaveUp>
    ensures place { IfOk result (λ standing. B.tells → IsStandIn B.states listing.now standing) }
    ensures fails { IsErrOf result GaveUp.Unread → B.fails }
{
    match placed_at(alloc, listing.table, listing.last, listing.profile)? {
        Some(placed) => Ok(Some(as_opened(
            alloc,
            listing.table,
            listing.last,
            listing.profile,
            placed,
        ))),
        None => Ok(None),
    }
}

/// Where what is lost of a volume that does not open is looked for, if anywhere. For one that opens there is none: it is looked for there.
///
/// # Errors
///
/// `OutOfMemory` where memory runs out, and `Unread` where the bytes of a known block could not be read.
pub fn standing_in<'a, B: BlockStore>(
    alloc: Global,
    listing: &Listing<'a, B>,
) -> Result<Option<Listing<'a, B>>, GaveUp>
    ensures place { IfOk result (λ standing. B.tells → IsPlaceOf B.states listing.now standing) }
    ensures fails { IsErrOf result GaveUp.Unread → B.fails }
{
    match &listing.volume {
        Volume::Open(_) => Ok(None),
        Volume::Holes(_) => stand_in_for(alloc, listing),
        Volume::Fault(_) => stand_in_for(alloc, listing),
    }
}

/// What is lost of the volume of a listing, where it is asked for: see [`found_trees`]. Of one that does not open it is looked for in the listing that stands in for it.
///
/// # Errors
///
/// Those of [`found_trees`].
pub fn find_trees<B: BlockStore>(
    alloc: Global,
    listing: &Listing<'_, B>,
    standing: &Option<Listing<'_, B>>,
    trees: Option<&str>,
    deleted: bool,
    entries: &[Unnamed],
) -> Result<LostFound, NodesGaveUp>
    requires unnamed { MatchOption trees ⊤ (λ folder. B.tells → AreUnnamedBy B.states listing.now entries.now) }
    requires place { B.tells → IsPlaceOf B.states listing.now standing.now }
    ensures found { IfOk result (λ lost. MatchOption trees.entry ⊤ (λ folder. B.tells → AreFoundOf deleted (B.states listing.now.table.now)
        (lost_report listing.now.profile (B.states listing.now.table.now) listing.now.last (listing_by B.states listing.now)) lost.trees.items lost.names)) }
    ensures refused { IfErr result (λ e. B.tells → IfTold (λ error. (error ≡ NodesError.OutOfMemory) ⊎ MatchOption trees.entry ⊥ (λ folder. IsUnfoundBy deleted (B.states listing.now.table.now)
        (lost_report listing.now.profile (B.states listing.now.table.now) listing.now.last (listing_by B.states listing.now)) error)) e) }
    ensures fails { IsErrOf result NodesGaveUp.Unread → B.fails }
{
    match standing {
        None => match found_trees(alloc, listing, trees, deleted, entries) {
            Ok(found) => Ok(found),
            Err(error) => Err(error),
        },
        Some(place) => {
            let entries = match lost_entries(alloc, place, None, trees) {
                Ok(entries) => entries,
                Err(GaveUp::OutOfMemory) => return Err(NodesGaveUp::OutOfMemory),
                Err(GaveUp::Unread) => return Err(NodesGaveUp::Unread),
            };
            match found_trees(alloc, place, trees, deleted, &entries) {
                Ok(found) => Ok(found),
                Err(error) => Err(error),
            }
        }
    }
}

/// Writes what is lost, where it is asked for: see [`add_trees`].
///
/// # Errors
///
/// Those of [`add_trees`].
pub fn put_lost<B: BlockStore, F: Files, O: Sink>(
    alloc: Global,
    listing: Listing<'_, B>,
    standing: Option<Listing<'_, B>>,
    lost: LostFound,
    request: &ExtractRequest<'_>,
    times: &Times,
    files: &mut F,
    out: &mut O,
) -> Result<bool, Stop>
    requires place { B.tells → IsPlaceOf B.states listing standing }
    requires found { MatchOption request.now.trees ⊤ (λ folder. B.tells → AreFoundOf request.now.deleted (B.states listing.table.now)
        (lost_report listing.profile (B.states listing.table.now) listing.last (listing_by B.states listing)) lost.trees.items lost.names) }
    ensures made { IfOk result (λ good. B.tells → MakesTrees ⟦<F as Known>⟧.reach O.stream request.now files.old files.new out.old out.new (B.states listing.entry.table.now)
        (lost_report listing.entry.profile (B.states listing.entry.table.now) listing.entry.last (listing_by B.states listing.entry)) good) }
    ensures why { IfErr result (λ stop. B.tells → MatchOption request.now.trees ⊥ (λ folder. IfStopped (TreesStop F.Files F.Output.stream request.now.deleted request.now.short_names folder.now files.new (O.stream out.old) (O.stream out.new)
        (B.states listing.entry.table.now) (lost_report listing.entry.profile (B.states listing.entry.table.now) listing.entry.last (listing_by B.states listing.entry)))
        (TreesCut F.Files F.Output.stream request.now.deleted request.now.short_names folder.now files.new (O.stream out.old) (O.stream out.new)
        (B.states listing.entry.table.now) (lost_report listing.entry.profile (B.states listing.entry.table.now) listing.entry.last (listing_by B.states listing.entry))) stop)) }
    ensures spares { MatchOption request.now.trees (files.new ≡ files.old) (λ folder. SparesLost F.Files folder.now files.old files.new) }
    ensures no_node { (i : ℕ) → IsErrOf result (Stop.Refused (Refusal.NoNode i)) → ⊥ }
    ensures fails { IsErrOf result Stop.Unread → (B.fails → ⊥) → ⊥ }
{
    match standing {
        None => add_trees(alloc, listing, lost, request, times, files, out),
        Some(place) => add_trees(alloc, place, lost, request, times, files, out),
    }
}
