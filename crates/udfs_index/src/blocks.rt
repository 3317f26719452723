//! An index as a store of blocks.

ghost use Rattle.std.specs.Prelude.{◌≡◌, IfOk, OnErr};
ghost use Rattle.udfs_lattice.specs.States.{fact_now};
ghost use Rattle.udfs_index.specs.Copying.{AreAllTold};
ghost use Rattle.udfs_index.specs.Index.{contents_of};
ghost use Rattle.udfs_index.specs.Stores.{MayFail, states_of};

use crate::index::Index;
use crate::stored::Stored;
use udfs_lattice::{BlockStore, Fact, ReadFault};

impl<'a, S: Stored> BlockStore for Index<'a, S> {
    ghost tells = { AreAllTold S.content };

    ghost states = { λ x n. states_of (contents_of S.content x.inputs.items) x.places.packets.items n };

    // A device may fail, and a file that was changed may be shorter.
    ghost fails = { Unit {0} };

    fn knowledge(&self, n: u32) -> Fact<()> {
        match self.slot(n) {
            Fact::Unknown => Fact::Unknown,
            Fact::Known(_) => Fact::Known(()),
            Fact::Conflict => Fact::Conflict,
        }
    }

    fn unknown_ahead(&self, n: u32) -> u32 {
        self.unknown_from(n)
    }

    fn read(&self, n: u32) -> Result<Fact<[u8; 2048]>, ReadFault>
        ensures state { IfOk result (λ fact. AreAllTold S.content → fact ≡ states_of (contents_of S.content self.now.inputs.items) self.now.places.packets.items n) }
        ensures fails { OnErr result (Unit {0}) }
        ensures reads { OnErr result (MayFail S.fails (contents_of S.content self.now.inputs.items) self.now.places.packets.items) }
    {
        let mut room = [0; 2048];
        let fact = self.lend(n, &mut room)?;
        Ok(fact.copied())
    }

    fn lend<'s>(
        &'s self,
        n: u32,
        room: &'s mut [u8; 2048],
    ) -> Result<Fact<&'s [u8; 2048]>, ReadFault>
        ensures state { IfOk result (λ fact. AreAllTold S.content → fact_now fact ≡ states_of (contents_of S.content self.now.inputs.items) self.now.places.packets.items n) }
        ensures fails { OnErr result (Unit {0}) }
        ensures reads { OnErr result (MayFail S.fails (contents_of S.content self.now.inputs.items) self.now.places.packets.items) }
    {
        match self.slot(n) {
            Fact::Unknown => Ok(Fact::Unknown),
            Fact::Known(place) => match self.fill_from(place, room) {
                Ok(()) => Ok(Fact::Known(room)),
                Err(_) => Err(ReadFault),
            },
            Fact::Conflict => Ok(Fact::Conflict),
        }
    }
}
