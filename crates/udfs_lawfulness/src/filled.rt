//! A store with zeros in place of each block that is not known.

ghost use Rattle.std.specs.Prelude.{◌≡◌, IfOk, IsErrOf};
ghost use Rattle.udfs_space.specs.Views.{view_by};
ghost use Rattle.udfs_lawfulness.specs.Filled.{filled, is_mapped};

use std::alloc::Global;
use udfs_lattice::{BlockStore, Fact, GaveUp, ReadFault};
use udfs_space::StoreView;
use udfs_tag::LongAd;
use udfs_walk::body_by;

/// The store, in which each block is known.
#[derive(Drop)]
struct Filled<'a, B: BlockStore> {
    blocks: &'a B,
}

impl<'a, B: BlockStore> BlockStore for Filled<'a, B> {
    ghost tells = { B.tells };

    ghost states = { λ s n. filled (B.states s.blocks.now) n };

    ghost fails = { B.fails };

    fn knowledge(&self, n: u32) -> Fact<()> {
        let _ = n;
        Fact::Known(())
    }

    fn unknown_ahead(&self, n: u32) -> u32 {
        let _ = n;
        0
    }

    fn read(&self, n: u32) -> Result<Fact<[u8; 2048]>, ReadFault> {
        let fact = self.blocks.read(n)?;
        match fact {
            Fact::Known(block) => Ok(Fact::Known(block)),
            Fact::Unknown => Ok(Fact::Known([0; 2048])),
            Fact::Conflict => Ok(Fact::Known([0; 2048])),
        }
    }

    fn lend<'s>(
        &'s self,
        n: u32,
        room: &'s mut [u8; 2048],
    ) -> Result<Fact<&'s [u8; 2048]>, ReadFault> {
        match self.blocks.knowledge(n) {
            Fact::Known(()) => {
                let fact = self.blocks.lend(n, room)?;
                Ok(fact)
            }
            Fact::Unknown => {
                *room = [0; 2048];
                Ok(Fact::Known(room))
            }
            Fact::Conflict => {
                *room = [0; 2048];
                Ok(Fact::Known(room))
            }
        }
    }
}

/// Whether all allocation descriptors that the entry at an address needs are known.
pub(crate) fn is_mapped<B: BlockStore>(
    alloc: Global,
    view: StoreView<'_, B>,
    address: LongAd,
) -> Result<bool, GaveUp>
    ensures value { IfOk result (λ mapped. B.tells → mapped ≡ is_mapped (view_by B.states view.entry) address) }
    ensures fails { IsErrOf result GaveUp.Unread → B.fails }
{
    let filled = Filled {
        blocks: view.blocks,
    };
    let stored = StoreView {
        blocks: &filled,
        space: view.space,
    };
    match body_by(alloc, stored, address) {
        Ok(Some(_)) => Ok(true),
        Ok(None) => Ok(false),
        Err(why) => Err(why),
    }
}
