//! The information control blocks that a search has met.

ghost use Rattle.std.specs.Prelude.{◌≡◌, ◌<◌, ◌+◌, ◌^◌, [], IfOk, IsSome, length, slice_get};
ghost use Rattle.std.specs.List.{list_any};
ghost use Rattle.udfs_walk.specs.Targets.{is_icb};
ghost use Rattle.udfs_lost.specs.Met.{AreMetWith, with_icb};

use std::alloc::{AllocError, Global};
use std::collections::BTreeSet;
use std::marker::Model;
use udfs_tag::LbAddr;

/// Information control blocks, each once, in the order in which they were met. In contracts they are that list.
#[derive(Drop)]
pub struct Met {
    /// Their numbers.
    numbers: BTreeSet<u64>,
    /// All of them, in that order.
    order: Vec<LbAddr>,
}

impl Model for Met {
    ghost use Rattle.std.specs.Prelude.{List};
    ghost use Rattle.udfs_tag.specs.declared.layouts.LbAddr.{LbAddr};
    ghost use Rattle.udfs_lost.specs.Met.{AgreeOn};

    ghost Value = { List LbAddr };

    ghost view = { λ m. m.order.items };

    ghost invariant = { λ m. AgreeOn m.numbers m.order.items };
}

impl Met {
    /// None.
    pub fn none(alloc: Global) -> Met
        ensures { result ≡ [] }
    {
        Met {
            numbers: BTreeSet::new(alloc),
            order: Vec::new(alloc),
        }
    }

    /// How many were met.
    pub(crate) fn len(&self) -> usize
        ensures { result ≡ length self.now }
    {
        self.order.len()
    }

    /// The one at this place, counted from 0.
    pub(crate) fn get(&self, at: usize) -> Option<LbAddr>
        ensures value { result ≡ slice_get self.now at }
        ensures fits { IsSome result → at + 1 < 2 ^ 64 }
    {
        if at < self.order.len() {
            Some(self.order[at])
        } else {
            None
        }
    }

    /// Whether one was met. It takes no memory.
    pub fn contains(&self, icb: LbAddr) -> bool
        ensures value { result ≡ list_any (is_icb icb) self.now }
        ensures near { icb.block < 4294967296 }
    {
        self.numbers.contains(&icb.number())
    }

    /// Meets one, if it was not met.
    pub(crate) fn meet(self, icb: LbAddr) -> Result<Met, AllocError>
        ensures { IfOk result (λ met. met ≡ with_icb self icb) }
    {
        if self.contains(icb) {
            return Ok(self);
        }
        let Met {
            mut numbers,
            mut order,
        } = self;
        numbers.insert(icb.number())?;
        order.push(icb)?;
        Ok(Met { numbers, order })
    }

    /// Meets all of these.
    pub(crate) fn meet_all(self, icbs: &[LbAddr]) -> Result<Met, AllocError>
        ensures { IfOk result (λ met. AreMetWith self icbs.now met) }
    {
        let mut met = self;
        for icb in icbs {
            met = met.meet(*icb)?;
        }
        Ok(met)
    }
}
