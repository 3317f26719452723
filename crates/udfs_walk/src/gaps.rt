//! The missing cells of a body, found run by run.

ghost use Rattle.std.specs.Prelude.{◌≡◌, ◌<◌, ◌+◌, ◌-◌, ◌^◌, ◌++◌, List, [], IfOk, length};
ghost use Rattle.udfs_space.specs.Views.{view_by};
ghost use Rattle.udfs_file.specs.Stretches.{cells_of};
ghost use Rattle.udfs_file.specs.Knowledge.{AreKnownCells, IsKnowledge, knowledge_count};
ghost use Rattle.udfs_file.specs.Portions.{AreUnread};
ghost use Rattle.udfs_file.specs.declared.cells.Cell.{Cell};
ghost use Rattle.udfs_walk.specs.Bare.{bare_standing};
ghost use Rattle.udfs_walk.specs.Gaps.{IsPassed, Leaves, closed};
ghost use Rattle.udfs_walk.specs.Standings.{cells_standing};

use crate::bare::no_lists;
use crate::block_runs::{BlockRun, ascending};
use crate::standings::{Standing, Torn};
use std::alloc::{AllocError, Global};
use std::marker::Model;
use udfs_file::{Body, Knowledge, Unread};
use udfs_lattice::BlockStore;
use udfs_space::StoreView;

/// What is missing of the cells that were gone through.
#[derive(Drop)]
struct Gaps {
    /// The blocks, in no order.
    missing: Vec<BlockRun>,
    /// The runs of missing cells that have an end.
    holes: Vec<(u64, u64)>,
    /// Where the last run begins, which may still grow.
    start: u64,
    /// How many cells it has; there is no such run if it has none.
    grown: u64,
}

impl Model for Gaps {
    ghost use Rattle.udfs_walk.specs.BlockRuns.{blocks_of};
    ghost use Rattle.udfs_walk.specs.Gaps.{GapFields};

    ghost Value = { GapFields };

    ghost view = { λ g. record { missing = blocks_of g.missing.items; holes = g.holes.items; start = g.start; grown = g.grown } };
}

impl Gaps {
    /// Ends the last run.
    fn close(&mut self) -> Result<(), AllocError>
        requires { self.old.start + self.old.grown < 2 ^ 64 }
        ensures missing { IfOk result (λ done. self.new.missing ≡ self.old.missing) }
        ensures holes { IfOk result (λ done. self.new.holes ≡ self.old.holes ++ closed self.old.start self.old.grown []) }
        ensures start { IfOk result (λ done. self.new.start ≡ self.old.start + self.old.grown) }
        ensures grown { IfOk result (λ done. self.new.grown ≡ 0) }
    {
        if self.grown == 0 {
            return Ok(());
        }
        self.holes.push((self.start, self.grown))?;
        self.start += self.grown;
        self.grown = 0;
        Ok(())
    }

    /// Goes through `count` known cells.
    fn pass_known(&mut self, count: u64) -> Result<(), AllocError>
        requires { self.old.start + self.old.grown + count < 2 ^ 64 }
        ensures passes { IfOk result (λ done. (cs : List Cell) → AreKnownCells cs → length cs ≡ count → Leaves cs [] self.old self.new) }
        ensures place { IfOk result (λ done. self.new.start + self.new.grown ≡ self.old.start + self.old.grown + count) }
    {
        if count == 0 {
            return Ok(());
        }
        self.close()?;
        self.start += count;
        Ok(())
    }

    /// Goes through missing cells.
    fn pass_missing(&mut self, run: Unread) -> Result<(), AllocError>
        requires { self.old.start + self.old.grown + run.count < 2 ^ 64 }
        ensures passes { IfOk result (λ done. (cs : List Cell) → AreUnread run.first (run.last + 1 - run.first) cs → length cs ≡ run.count → Leaves cs [] self.old self.new) }
        ensures place { IfOk result (λ done. self.new.start + self.new.grown ≡ self.old.start + self.old.grown + run.count) }
    {
        self.missing.push(BlockRun {
            first: run.first,
            last: run.last,
        })?;
        self.grown += run.count;
        Ok(())
    }

    /// Goes through cells of which this is known.
    fn pass(&mut self, told: Knowledge) -> Result<(), AllocError>
        requires { self.old.start + self.old.grown + knowledge_count told < 2 ^ 64 }
        ensures passes { IfOk result (λ done. (cs : List Cell) → IsKnowledge told cs → length cs ≡ knowledge_count told → Leaves cs [] self.old self.new) }
        ensures place { IfOk result (λ done. self.new.start + self.new.grown ≡ self.old.start + self.old.grown + knowledge_count told) }
    {
        match told {
            Knowledge::Known(count) => {
                self.pass_known(count)?;
                Ok(())
            }
            Knowledge::Missing(run) => {
                self.pass_missing(run)?;
                Ok(())
            }
        }
    }

    /// What all cells together say.
    fn standing(mut self, alloc: Global) -> Result<Standing, AllocError>
        requires { self.start + self.grown < 2 ^ 64 }
        ensures { IfOk result (λ standing. (whole : List Cell) → IsPassed whole [] self → standing ≡ cells_standing whole) }
    {
        self.close()?;
        let Gaps { missing, holes, .. } = self;
        let missing = ascending(alloc, missing)?;
        if missing.len() == 0 {
            return Ok(Standing::Whole);
        }
        Ok(Standing::Torn(Torn { missing, holes }))
    }
}

/// Whether all cells of a body are known, and else what is missing. No block is read.
pub(crate) fn cells_standing<B: BlockStore>(
    alloc: Global,
    view: StoreView<'_, B>,
    body: &Body,
) -> Result<Standing, AllocError>
    requires { length (cells_of (view_by B.states view) body.now) < 2 ^ 64 }
    ensures { IfOk result (λ standing. B.tells → standing ≡ cells_standing (cells_of (view_by B.states view.entry) body.now)) }
{
    let mut gaps = Gaps {
        missing: Vec::new(alloc),
        holes: Vec::new(alloc),
        start: 0,
        grown: 0,
    };
    let mut left = body.knowledge_by(view);
    'runs: loop {
        match left.next() {
            Some(told) => gaps.pass(told)?,
            None => {
                let standing = gaps.standing(alloc)?;
                return Ok(standing);
            }
        }
    }
}

/// Whether all cells of a body are known: `Whole`, or `Torn` without its blocks and holes. It stops at the first cell that is
/// missing, takes no memory and reads no block.
pub(crate) fn bare_cells_standing<B: BlockStore>(
    alloc: Global,
    view: StoreView<'_, B>,
    body: &Body,
) -> Standing
    ensures { B.tells → result ≡ bare_standing (cells_standing (cells_of (view_by B.states view.entry) body.now)) }
{
    let mut left = body.knowledge_by(view);
    'runs: loop {
        match left.next() {
            Some(told) => match told {
                Knowledge::Missing(_) => return Standing::Torn(no_lists(alloc)),
                Knowledge::Known(_) => {}
            },
            None => return Standing::Whole,
        }
    }
}
