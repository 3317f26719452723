//! What a mapfile asks for: the blocks to read again, or whole groups of them, and known blocks to compare, by which a pass of another disc shows.

ghost use Rattle.std.specs.Prelude.{◌≡◌, ◌≤◌, ◌++◌, ℕ, List, IfOk, IsErrOf};
ghost use Rattle.std.specs.List.Sorted.{IsNonDecreasing};
ghost use Rattle.udfs_lattice.specs.Tables.{Table};
ghost use Rattle.udfs_lattice.specs.States.{is_known};
ghost use Rattle.udfs_lattice.specs.Volumes.{ascending, not_known};
ghost use Rattle.udfs_volume.specs.Seen.{IsRising};
ghost use Rattle.udfs_salvage.specs.Found.{volume_now};
ghost use Rattle.udfs_salvage.specs.Listings.{listing_by};
ghost use Rattle.udfs_space.specs.Places.{place};
ghost use Rattle.udfs_witnesses.specs.Witnesses.{witnesses};
ghost use Rattle.udfs_reports.specs.Comparing.{beside, block_of, compared, structures_of};
ghost use Rattle.udfs_reports.specs.Rereading.{AreAsked, AreMapped};

use std::alloc::{AllocError, Global};
use udfs_lattice::{BlockStore, Fact, GaveUp};
use udfs_salvage::{Listing, ReportStore, Volume, reread_blocks_by};
use udfs_space::Space;
use udfs_tag::LongAd;
use udfs_witnesses::{add_rising, grouped, rising_front, witnesses};
use udfs_words::group::GroupSize;
use udfs_words::request::RereadRequest;

/// Appends the block of the volume at an address, if there is one.
fn push_block(places: &mut Vec<u32>, space: &Space, address: LongAd) -> Result<(), AllocError>
    ensures { IfOk result (λ done. places.new.items ≡ places.old.items ++ block_of (place space.now address.reference address.block)) }
{
    match space.place(address.reference, address.block) {
        Some(block) => {
            places.push(block)?;
            Ok(())
        }
        None => Ok(()),
    }
}

/// Where the file set and the root's entry of a volume that opens are.
fn structures(alloc: Global, volume: &Volume) -> Result<Vec<u32>, AllocError>
    ensures { IfOk result (λ places. places.items ≡ structures_of (volume_now volume.now)) }
{
    let mut places = Vec::new(alloc);
    match volume {
        Volume::Open(opened) => {
            push_block(&mut places, &opened.space, opened.parts.file_set)?;
            push_block(&mut places, &opened.space, opened.root)?;
            Ok(places)
        }
        Volume::Holes(_) => Ok(places),
        Volume::Fault(_) => Ok(places),
    }
}

/// The known blocks to compare beside blocks that are wanted of a store's volume: none where none is to be compared, or nothing is wanted.
fn known_beside<B: BlockStore>(
    alloc: Global,
    blocks: &B,
    last: u32,
    volume: &Volume,
    wanted: &[u32],
    compares: bool,
) -> Result<Vec<u32>, GaveUp>
    requires from { 513 ≤ last }
    requires to { last ≤ 4194303 }
    ensures value { IfOk result (λ known. B.tells → known.items ≡ beside compares wanted.now (witnesses (B.states blocks.now) last (structures_of (volume_now volume.now)))) }
    ensures fails { IsErrOf result GaveUp.Unread → B.fails }
{
    if !compares || wanted.is_empty() {
        return Ok(Vec::new(alloc));
    }
    let places = structures(alloc, volume)?;
    witnesses(alloc, blocks, last, &places)
}

/// Whether a block is known.
fn is_known<B: BlockStore>(blocks: &B, n: u32) -> bool
    ensures { B.tells → result ≡ is_known (B.states blocks.now n) }
{
    matches!(blocks.knowledge(n), Fact::Known(()))
}

/// Those of these numbers whose blocks are not known.
fn not_known<B: BlockStore>(
    alloc: Global,
    blocks: &B,
    numbers: &[u32],
) -> Result<Vec<u32>, AllocError>
    ensures { IfOk result (λ unread. B.tells → unread.items ≡ not_known (B.states blocks.now) numbers.now) }
{
    let mut unread = Vec::new(alloc);
    for number in numbers {
        if !is_known(blocks, *number) {
            unread.push(*number)?;
        }
    }
    Ok(unread)
}

/// The blocks to ask for where those of a list are to be read again: the list, or the blocks of their whole groups.
#[tactic(auto, using(crate::proofs::RereadingLemmas::unread_rise))]
fn all_of_groups<B: BlockStore>(
    alloc: Global,
    blocks: &B,
    last: u32,
    group: Option<GroupSize>,
    wanted: &[u32],
) -> Result<Vec<u32>, AllocError>
    requires to { last ≤ 4194303 }
    requires rising { B.tells → IsRising wanted.now }
    ensures asked { IfOk result (λ asked. B.tells → AreAsked group (B.states blocks.now) last wanted.now asked.items) }
    ensures rises { IfOk result (λ asked. B.tells → IsRising asked.items) }
{
    let Some(size) = group else {
        let mut asked = Vec::new(alloc);
        asked.extend_from_slice(wanted)?;
        return Ok(asked);
    };
    let unread = not_known(alloc, blocks, wanted)?;
    grouped(alloc, blocks, last, size.blocks(), &unread)
}

/// The blocks to ask for of a list, and known ones, ascending.
#[tactic(auto, using(crate::proofs::RereadingLemmas::ascending_does_not_fall))]
fn all_asked<B: BlockStore>(
    alloc: Global,
    blocks: &B,
    last: u32,
    group: Option<GroupSize>,
    wanted: &[u32],
    known: &[u32],
) -> Result<Vec<u32>, AllocError>
    requires to { last ≤ 4194303 }
    requires rising { B.tells → IsRising wanted.now }
    ensures all { IfOk result (λ all. B.tells → (asked : List ℕ) × AreAsked group (B.states blocks.now) last wanted.now asked × (all.items ≡ ascending (known.now ++ asked))) }
    ensures rises { IfOk result (λ all. IsNonDecreasing all.items) }
{
    let asked = all_of_groups(alloc, blocks, last, group, wanted)?;
    let mut all = rising_front(asked);
    add_rising(&mut all, known)?;
    Ok(all)
}

/// What a mapfile asks for.
#[derive(Drop)]
pub struct Asked {
    /// The blocks that are worth reading again.
    pub wanted: Vec<u32>,
    /// Known blocks, by which a pass of another disc shows.
    pub known: Vec<u32>,
    /// All of them, ascending and each once.
    pub blocks: Vec<u32>,
}

/// What the mapfile of a store's volume, of which this is the listing, asks for: the blocks that are worth reading again, or whole groups of them, and known
/// ones, as the request says.
///
/// # Errors
///
/// `OutOfMemory` where memory runs out, and `Unread` where the bytes of a known block could not be read.
pub fn asked_in<B: ReportStore>(
    alloc: Global,
    last: u32,
    listing: &Listing<'_, B>,
    request: &RereadRequest<'_>,
) -> Result<Asked, GaveUp>
    requires from { 513 ≤ last }
    requires to { last ≤ 4194303 }
    requires rising { B.tells → IsRising (listing_by B.states listing.now).reread }
    ensures wanted { IfOk result (λ asked. B.tells → asked.wanted.items ≡ (listing_by B.states listing.now).reread) }
    ensures known { IfOk result (λ asked. B.tells → (t : Table) → B.holds listing.now.table.now t → asked.known.items ≡ compared request.now.witnesses t last (listing_by B.states listing.now).volume (listing_by B.states listing.now).reread) }
    ensures blocks { IfOk result (λ asked. B.tells → (t : Table) → B.holds listing.now.table.now t → AreMapped request.now t last (listing_by B.states listing.now).volume (listing_by B.states listing.now).reread asked.blocks.items) }
    ensures rises { IfOk result (λ asked. IsNonDecreasing asked.blocks.items) }
    ensures fails { IsErrOf result GaveUp.Unread → B.fails }
{
    let store = listing.table;
    let volume = &listing.volume;
    let wanted = reread_blocks_by(alloc, listing)?;
    let known = known_beside(alloc, store, last, volume, &wanted, request.witnesses)?;
    let blocks = all_asked(alloc, store, last, request.group, &wanted, &known)?;
    Ok(Asked {
        wanted,
        known,
        blocks,
    })
}
