//! What is missing of torn bodies, kept while there is room, so that it is found once for many names of one body.

ghost use Rattle.std.specs.Prelude.{◌≡◌, IfOk, IfSome, IsErrOf};
ghost use Rattle.std.specs.BTreeMap.{IsEmpty};
ghost use Rattle.udfs_space.specs.Views.{view_by};
ghost use Rattle.udfs_walk.specs.Bare.{lists_at, with_lists};
ghost use Rattle.udfs_walk.specs.TornFields.{TornFields};
ghost use Rattle.udfs_walk.specs.declared.standings.Standing.TheVariants as walk_standing;
ghost use Rattle.udfs_salvage.specs.KeptLists.{AreKeptLists};

use std::alloc::{AllocError, Global};
use std::collections::BTreeMap;
use udfs_file::file_sets::address_fault;
use udfs_lattice::{BlockStore, GaveUp};
use udfs_space::StoreView;
use udfs_tag::LongAd;
use udfs_walk::{Standing, Torn, full_standing_by};

/// How many bytes all kept lists together may take.
const MOST_KEPT: usize = 16_000_000;

/// How many bytes a kept body takes beside its lists.
const BESIDE: usize = 128;

/// The same lists once more.
fn copied(torn: &Torn) -> Result<Torn, AllocError>
    ensures { IfOk result (λ copy. copy ≡ torn.now) }
{
    let missing = torn.missing.clone()?;
    let holes = torn.holes.clone()?;
    Ok(Torn { missing, holes })
}

/// How many bytes lists take that are kept.
fn size_of(torn: &Torn) -> usize {
    let missing = torn.missing.len().saturating_mul(4);
    let holes = torn.holes.len().saturating_mul(16);
    missing.saturating_add(holes).saturating_add(BESIDE)
}

/// What is missing of torn bodies, by the numbers of their information control blocks, as much as there is room for.
#[derive(Drop)]
pub(crate) struct KeptLists {
    /// The lists.
    lists: BTreeMap<u64, Torn>,
    /// How many more bytes may be kept.
    room: usize,
}

impl KeptLists {
    /// Nothing is kept.
    pub(crate) fn new(alloc: Global) -> KeptLists
        ensures { IsEmpty result.lists }
    {
        KeptLists {
            lists: BTreeMap::new(alloc),
            room: MOST_KEPT,
        }
    }

    /// A standing with the kept missing blocks and holes of the body at an address; `None` where it is not torn or they are not kept.
    fn again<B: BlockStore>(
        &self,
        view: StoreView<'_, B>,
        address: LongAd,
        standing: &Standing,
    ) -> Result<Option<Standing>, AllocError>
        requires { B.tells → AreKeptLists (view_by B.states view) self.now.lists }
        ensures { IfOk result (λ again. IfSome again (λ full. B.tells → full ≡ with_lists (lists_at (view_by B.states view.entry) address) standing.now)) }
    {
        let Standing::Torn(_) = standing else {
            return Ok(None);
        };
        if address_fault(view.space, address).is_some() {
            return Ok(None);
        }
        let number = address.address().number();
        match self.lists.get(&number) {
            None => Ok(None),
            Some(torn) => {
                let torn = copied(torn)?;
                Ok(Some(Standing::Torn(torn)))
            }
        }
    }

    /// Keeps the missing blocks and the holes of the body at an address, if it is torn and there is room.
    fn keep<B: BlockStore>(
        &mut self,
        view: StoreView<'_, B>,
        address: LongAd,
        full: &Standing,
    ) -> Result<(), AllocError>
        requires lists { B.tells → AreKeptLists (view_by B.states view) self.old.lists }
        requires full { B.tells → (torn : TornFields) → full.now ≡ walk_standing.Torn torn → torn ≡ lists_at (view_by B.states view) address }
        ensures { IfOk result (λ done. B.tells → AreKeptLists (view_by B.states view.entry) self.new.lists) }
    {
        let Standing::Torn(torn) = full else {
            return Ok(());
        };
        let size = size_of(torn);
        if address_fault(view.space, address).is_some() || size > self.room {
            return Ok(());
        }
        self.room -= size;
        let number = address.address().number();
        self.lists.insert(number, copied(torn)?)?;
        Ok(())
    }

    /// A standing with the missing blocks and the holes of the body at an address, where it is torn. They are found
    /// anew only where they are not kept.
    pub(crate) fn full_standing<B: BlockStore>(
        &mut self,
        alloc: Global,
        view: StoreView<'_, B>,
        address: LongAd,
        standing: &Standing,
    ) -> Result<Standing, GaveUp>
        requires { B.tells → AreKeptLists (view_by B.states view) self.old.lists }
        ensures full { IfOk result (λ full. B.tells → full ≡ with_lists (lists_at (view_by B.states view.entry) address) standing.now) }
        ensures lists { IfOk result (λ full. B.tells → AreKeptLists (view_by B.states view.entry) self.new.lists) }
        ensures fails { IsErrOf result GaveUp.Unread → B.fails }
    {
        if let Some(again) = self.again(view, address, standing)? {
            return Ok(again);
        }
        let full = full_standing_by(alloc, view, address, standing)?;
        self.keep(view, address, &full)?;
        Ok(full)
    }
}
