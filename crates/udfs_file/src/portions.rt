//! The bytes of a body, run by run.

ghost use Rattle.std.specs.Prelude.{◌≡◌, ◌≤◌, ◌<◌, ◌+◌, ◌^◌, drop, length, map, take};
ghost use Rattle.std.specs.Iterator.{at_most};
ghost use Rattle.std.specs.List.{range_with_len};
ghost use Rattle.udfs_space.specs.Views.{view_now};
ghost use Rattle.udfs_file.specs.Bodies.{recorded_cell};
ghost use Rattle.udfs_file.specs.Stretches.{cells_of, stretch_cells, stretch_count};
ghost use Rattle.udfs_file.specs.Portions.{GivesPortion, IsPortion, portion_count};

use crate::bodies::Body;
use crate::cells::Cells;
use crate::pieces::bytes_at;
use crate::store_portions::unread_bytes;
use crate::stretches::{Run, Stretch};
use std::marker::Model;
use udfs_lattice::Fact;
use udfs_space::{StoreView, View};

/// Bytes of a body that lie side by side, at least one.
#[derive(Clone, Copy, Debug)]
pub enum Portion<'a> {
    /// Known bytes, all in one block.
    Bytes(&'a [u8]),
    /// This many zeros that are not recorded.
    Zeros(u64),
    /// Missing bytes.
    Missing(Unread),
}

/// Missing bytes that lie side by side, in consecutive blocks of the volume, each of which holds some of them.
#[derive(Clone, Copy, Debug, PartialEq, Eq)]
pub struct Unread {
    /// The first of the blocks.
    pub first: u32,
    /// The last of them.
    pub last: u32,
    /// How many bytes.
    pub count: u64,
}

impl<'a> Portion<'a> {
    /// The number of bytes.
    pub fn count(&self) -> u64
        ensures { result ≡ portion_count self.now }
    {
        match self {
            Portion::Bytes(bytes) => bytes.len() as u64,
            Portion::Zeros(count) => *count,
            Portion::Missing(run) => run.count,
        }
    }
}

/// The recorded bytes from byte `at` on, counted from the start of the run's first block, as far as one portion goes: at most `left`.
fn recorded_portion<'a>(view: View<'a>, run: Run, at: u64, left: u64) -> Portion<'a>
    requires some { 1 ≤ left }
    requires far { left < 2 ^ 32 }
    requires near { at < 2 ^ 33 }
    ensures cells { IsPortion result (map (recorded_cell (view_now view.entry) run.address.reference run.address.block) (range_with_len at (portion_count result))) }
    ensures some { 1 ≤ portion_count result }
    ensures most { portion_count result ≤ left }
{
    let here = left.min(2048 - at % 2048);
    let stored = StoreView {
        blocks: view.table,
        space: view.space,
    };
    match view.block_behind(run.address, (at / 2048) as u32) {
        None => Portion::Zeros(here),
        Some((_, Fact::Known(bytes))) => {
            Portion::Bytes(bytes_at(bytes, (at % 2048) as usize, here as usize))
        }
        Some((n, Fact::Unknown)) => Portion::Missing(unread_bytes(stored, run, at, n, left)),
        Some((n, Fact::Conflict)) => Portion::Missing(unread_bytes(stored, run, at, n, left)),
    }
}

/// The portion of a stretch after its first `passed` bytes.
fn stretch_portion<'a>(view: View<'a>, stretch: Stretch, passed: u64) -> Portion<'a>
    requires { passed < stretch_count stretch }
    ensures cells { IsPortion result (take (portion_count result) (drop passed (stretch_cells (view_now view.entry) stretch))) }
    ensures some { 1 ≤ portion_count result }
    ensures most { passed + portion_count result ≤ stretch_count stretch }
{
    match stretch {
        Stretch::Recorded(run, count) => recorded_portion(
            view,
            run,
            u64::from(run.offset) + passed,
            u64::from(count) - passed,
        ),
        Stretch::Zeros(count) => Portion::Zeros(u64::from(count) - passed),
        Stretch::Missing(n, count) => Portion::Missing(Unread {
            first: n,
            last: n,
            count: count - passed,
        }),
    }
}

/// The bytes of a body that are left, run by run. It borrows the table's blocks, and takes no memory.
/// In contracts it is the cells that are left.
#[derive(Drop)]
pub struct Portions<'a> {
    cells: Cells<'a>,
}

impl<'a> Model for Portions<'a> {
    ghost use Rattle.std.specs.Prelude.{List};
    ghost use Rattle.udfs_file.specs.CellsLeft.{cells_left};
    ghost use Rattle.udfs_file.specs.declared.cells.Cell.{Cell};

    ghost Value = { List Cell };

    ghost view = { λ p. cells_left p.cells };
}

impl<'a> Iterator for Portions<'a> {
    type Item = Portion<'a>;

    ghost next_gives = { GivesPortion };

    ghost remaining = { λ cells. at_most (length cells) };

    fn next(&mut self) -> Option<Portion<'a>> {
        let ahead = self.cells.settled();
        let Some((first, _)) = ahead.stretches.split_first() else {
            return None;
        };
        let portion = stretch_portion(ahead.view, *first, ahead.passed);
        self.cells = ahead.behind(portion.count() as usize);
        Some(portion)
    }
}

impl Body {
    ghost use Rattle.udfs_space.specs.Views.{view_now};

    /// The bytes, run by run, each run of missing blocks once. It takes no memory.
    pub fn portions<'a>(&'a self, view: View<'a>) -> Portions<'a>
        ensures { result ≡ cells_of (view_now view.entry) self.now }
    {
        Portions {
            cells: Cells {
                view,
                stretches: self.stretches(),
                passed: 0,
            },
        }
    }
}
