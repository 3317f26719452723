//! What the address of an information control block leads to.

ghost use Rattle.std.specs.Prelude.{◌≡◌, IfOk, OnErr};
ghost use Rattle.udfs_space.specs.Views.{view_by};
ghost use Rattle.udfs_walk.specs.Targets.{target};
ghost use Rattle.udfs_walk.specs.UnnamedEntries.{address_of};
ghost use Rattle.udfs_walk.specs.Visits.{Stands, target_now};

use udfs_file::file_sets::address_fault;
use udfs_file::{Entry, NodeFault};
use udfs_lattice::{BlockStore, Fact, ReadFault};
use udfs_space::StoreView;
use udfs_tag::{LbAddr, LongAd};

/// The recorded extent of one block that holds the information control block at `address`.
pub(crate) fn entry_address(address: LbAddr) -> LongAd
    ensures { result ≡ address_of address }
{
    LongAd {
        kind: 0,
        length: 2048,
        block: address.block,
        reference: address.reference,
    }
}

/// What an address leads to.
#[derive(Drop)]
pub(crate) enum Target<'a> {
    /// A fault of the address, or of the entry there.
    Fault(NodeFault),
    /// This block, which is not known.
    Unread(u32),
    /// An entry without a fault of its own.
    Entry(Entry<'a>),
}

/// What an address leads to. It takes no memory. The entry is lent from the store's memory, or from `room`.
pub(crate) fn target_at<'r, 'a, B: BlockStore>(
    view: StoreView<'a, B>,
    address: LongAd,
    room: &'r mut [u8; 2048],
) -> Result<Target<'r>, ReadFault>
where
    'a: 'r,
    ensures value { IfOk result (λ found. B.tells → target_now found ≡ target (view_by B.states view.entry) address) }
    ensures stands { IfOk result (λ found. B.tells → Stands (view_by B.states view.entry) address found) }
    ensures fails { OnErr result B.fails }
{
    match address_fault(view.space, address) {
        Some(fault) => Ok(Target::Fault(fault)),
        None => match view.block_at(address.address(), room)? {
            None => Ok(Target::Fault(NodeFault::Range)),
            Some((n, fact)) => match fact {
                Fact::Unknown => Ok(Target::Unread(n)),
                Fact::Conflict => Ok(Target::Unread(n)),
                Fact::Known(bytes) => match Entry::read(bytes, address.block) {
                    Ok(entry) => Ok(Target::Entry(entry)),
                    Err(fault) => Ok(Target::Fault(fault)),
                },
            },
        },
    }
}
