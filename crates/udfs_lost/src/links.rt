//! How many names an entry has, as it says itself.

ghost use Rattle.std.specs.Prelude.{◌≡◌, IfOk, OnErr};
ghost use Rattle.udfs_lattice.specs.States.{fact_now};
ghost use Rattle.udfs_space.specs.Views.{view_by};
ghost use Rattle.udfs_walk.specs.Targets.{icb_at};
ghost use Rattle.udfs_lost.specs.Links.{link_count, links_at, links_of};
ghost use Rattle.udfs_lost.specs.Folders.{is_taken};

use byteorder::{ByteOrder, LittleEndian};
use udfs_lattice::{BlockStore, Fact, ReadFault};
use udfs_space::StoreView;
use udfs_walk::Unnamed;

/// The file link count in the block of an entry (ECMA-167 4/14.9.6, and 4/14.17.6 at the same place).
fn count_in(bytes: &[u8; 2048]) -> u16
    ensures { result ≡ link_count bytes.now }
{
    LittleEndian::read_u16(&bytes[48..])
}

/// The same in a block of which this is known; 0 where its bytes are not.
fn count_of(fact: Fact<&[u8; 2048]>) -> u16
    ensures { result ≡ links_of (fact_now fact.entry) }
{
    match fact {
        Fact::Known(bytes) => count_in(bytes),
        Fact::Unknown => 0,
        Fact::Conflict => 0,
    }
}

/// The link count of an entry that no name leads to: how many names it had when it was written last. 0 says that it was
/// deleted. It takes no memory.
///
/// # Errors
///
/// `ReadFault` where the bytes of the entry's block could not be read.
pub fn link_count<B: BlockStore>(view: StoreView<'_, B>, entry: &Unnamed) -> Result<u16, ReadFault>
    ensures value { IfOk result (λ count. B.tells → count ≡ links_at (view_by B.states view.entry) (icb_at entry.now.reference entry.now.block)) }
    ensures fails { OnErr result B.fails }
{
    let mut room = [0; 2048];
    match view.block_at(entry.address(), &mut room)? {
        Some((_, fact)) => Ok(count_of(fact)),
        None => Ok(0),
    }
}

/// Whether an entry that no name leads to is taken in: with deleted ones each is.
pub(crate) fn is_taken<B: BlockStore>(
    view: StoreView<'_, B>,
    deleted: bool,
    entry: &Unnamed,
) -> Result<bool, ReadFault>
    ensures value { IfOk result (λ taken. B.tells → taken ≡ is_taken (view_by B.states view.entry) deleted entry.now) }
    ensures fails { OnErr result B.fails }
{
    if deleted {
        return Ok(true);
    }
    let count = link_count(view, entry)?;
    Ok(count > 0)
}
