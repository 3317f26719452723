//! The file set (ECMA-167 4/14.1).

ghost use Rattle.std.specs.Prelude.{◌≡◌, None, IfOk, OnErr};
ghost use Rattle.udfs_lattice.specs.Tables.{state_of};
ghost use Rattle.udfs_lattice.specs.States.{fact_now};
ghost use Rattle.udfs_lattice.specs.Volumes.{Blocks};
ghost use Rattle.udfs_space.specs.Places.{block_now, view};
ghost use Rattle.udfs_space.specs.Views.{view_by};
ghost use Rattle.udfs_volume.specs.Answers.{IsHoles};
ghost use Rattle.udfs_volume.specs.Seen.{HolesRise, Sees};
ghost use Rattle.udfs_file.specs.Addresses.{address_fault, file_set, file_set_at, file_set_in, is_no_reference};
ghost use Rattle.udfs_file.specs.Told.{TellsFileSet};

use crate::entries::behind;
use crate::extents::is_unplaced;
use crate::faults::NodeFault;
use std::alloc::Global;
use udfs_lattice::{BlockStore, BlockTable, Fact, ReadFault};
use udfs_space::{Space, StoreView};
use udfs_tag::{LongAd, Tag, extent_types, identifiers};
use udfs_volume::{Seen, VolumeFault};

/// Whether an address is no recorded extent, is empty, or is of no partition.
fn is_no_reference(space: &Space, a: LongAd) -> bool
    ensures { (blocks : Blocks) → result ≡ is_no_reference (view blocks space.now) a }
{
    a.kind != extent_types::RECORDED || a.length == 0 || a.reference >= space.maps()
}

/// What is wrong with the address of a single block (long_ad, ECMA-167 4/14.14.2): [`NodeFault::Reference`]
/// where it is no recorded extent, is empty or is of no partition, and [`NodeFault::Range`] where its block
/// has no place. It takes no memory.
pub fn address_fault(space: &Space, address: LongAd) -> Option<NodeFault>
    ensures { (blocks : Blocks) → result ≡ address_fault (view blocks space.now) address }
{
    if is_no_reference(space, address) {
        return Some(NodeFault::Reference);
    }
    if is_unplaced(space, address.address()) {
        return Some(NodeFault::Range);
    }
    None
}

/// What the block where the address leads says.
fn file_set_in(alloc: Global, address: LongAd, n: u32, fact: Fact<&[u8; 2048]>) -> Seen<LongAd>
    ensures value { Sees (λ a. a) result (file_set_in address n (fact_now fact.entry)) }
    ensures rising { HolesRise result }
    ensures memory { result ≡ Seen.OutOfMemory → IsHoles (file_set_in address n (fact_now fact.entry)) }
{
    let Fact::Known(bytes) = fact else {
        return match vec![in alloc; n] {
            Ok(holes) => Seen::Holes(holes),
            Err(_) => Seen::OutOfMemory,
        };
    };
    if Tag::is_valid(bytes, address.block, identifiers::FILE_SET) {
        Seen::Got(LongAd::read(behind(bytes, 400)))
    } else {
        Seen::Fault(VolumeFault::FileSet)
    }
}

/// The same, if there is such a block.
fn file_set_at(
    alloc: Global,
    address: LongAd,
    block: Option<(u32, Fact<&[u8; 2048]>)>,
) -> Seen<LongAd>
    ensures value { Sees (λ a. a) result (file_set_at address None (block_now block.entry)) }
    ensures rising { HolesRise result }
    ensures memory { result ≡ Seen.OutOfMemory → IsHoles (file_set_at address None (block_now block.entry)) }
{
    match block {
        None => Seen::Fault(VolumeFault::FileSet),
        Some((n, fact)) => file_set_in(alloc, address, n, fact),
    }
}

/// The address of the root directory's information control block, as recorded in the file set descriptor at
/// `address` (ECMA-167 4/14.1), which is that of the volume's layout.
///
/// The one fault is [`VolumeFault::FileSet`]: the address has a fault, as [`address_fault`] reports, or its
/// block is not a file set descriptor. A block that is not known is the one hole. It takes memory for holes alone: a
/// root and the fault are returned whatever memory there is.
///
/// Where the partitions are a part of complete ones, whose file set names a root as the standard reads it, this root
/// is returned, and the descriptor's block is known; or that block is not known, and is the hole or memory ran out.
pub fn file_set(alloc: Global, table: &BlockTable, space: &Space, address: LongAd) -> Seen<LongAd>
    ensures value { Sees (λ a. a) result (file_set (view (state_of table.now) space.now) address) }
    ensures complete { TellsFileSet (view (state_of table.now) space.now) address result }
    ensures rising { HolesRise result }
    ensures memory { result ≡ Seen.OutOfMemory → IsHoles (file_set (view (state_of table.now) space.now) address) }
{
    let view = StoreView {
        blocks: table,
        space,
    };
    match file_set_by(alloc, view, address) {
        Ok(seen) => seen,
        Err(_) => unreachable!(),
    }
}

/// The same as [`file_set`], by any store of blocks.
///
/// # Errors
///
/// `ReadFault` where the bytes of a known block could not be read. Nothing is told of the file set then.
#[tactic(auto, unfolding(crate::specs::Addresses::file_set))]
pub fn file_set_by<B: BlockStore>(
    alloc: Global,
    view: StoreView<'_, B>,
    address: LongAd,
) -> Result<Seen<LongAd>, ReadFault>
    ensures value { IfOk result (λ seen. B.tells → Sees (λ a. a) seen (file_set (view_by B.states view.entry) address)) }
    ensures complete { IfOk result (λ seen. B.tells → TellsFileSet (view_by B.states view.entry) address seen) }
    ensures rising { IfOk result HolesRise }
    ensures memory { IfOk result (λ seen. B.tells → seen ≡ Seen.OutOfMemory → IsHoles (file_set (view_by B.states view.entry) address)) }
    ensures fails { OnErr result B.fails }
{
    match address_fault(view.space, address) {
        Some(_) => Ok(Seen::Fault(VolumeFault::FileSet)),
        None => {
            let mut room = [0; 2048];
            let block = view.block_at(address.address(), &mut room)?;
            Ok(file_set_at(alloc, address, block))
        }
    }
}
