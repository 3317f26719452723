//! The bytes of a body, run by run, by any store of blocks.

ghost use Rattle.std.specs.Prelude.{◌≡◌, ℕ, ◌≤◌, ◌<◌, ◌+◌, ◌-◌, ◌/◌, ◌^◌, true, drop, length, map, take, IfOk, OnErr};
ghost use Rattle.std.specs.List.{range_with_len};
ghost use Rattle.udfs_space.specs.Places.{block_at};
ghost use Rattle.udfs_space.specs.Views.{view_by};
ghost use Rattle.udfs_file.specs.Bodies.{recorded_cell};
ghost use Rattle.udfs_file.specs.Stretches.{cells_of, stretch_cells, stretch_count};
ghost use Rattle.udfs_file.specs.Portions.{AreUnread, GivesCount, GivesPortion, IsPortion, IsUnreadAt, portion_count};

use crate::bodies::Body;
use crate::pieces::bytes_at;
use crate::portions::{Portion, Unread};
use crate::store_cells::StoreCells;
use crate::stretches::{Run, Stretch};
use std::marker::Model;
use udfs_lattice::{BlockStore, Fact, ReadFault};
use udfs_space::StoreView;
use udfs_tag::LbAddr;

/// Whether the block `behind` logical blocks after an address is not known and has the number `n`.
fn is_unread<B: BlockStore>(view: StoreView<'_, B>, address: LbAddr, behind: u32, n: u32) -> bool
    ensures { B.tells → result ≡ true → IsUnreadAt (block_at (view_by B.states view.entry) address.reference (address.block + behind)) n }
{
    match view.knowledge_behind(address, behind) {
        Some((found, Fact::Unknown)) => found == n,
        Some((found, Fact::Conflict)) => found == n,
        _ => false,
    }
}

/// How many consecutive logical blocks, from `behind` blocks after an address on, are not known and lie one after the other from block
/// `n` of the volume on, as far as a step goes: several at once only where they are unknown; none only where the first is not
/// such a block.
fn unread_step<B: BlockStore>(view: StoreView<'_, B>, address: LbAddr, behind: u32, n: u32) -> u32
    ensures { B.tells → (j : ℕ) → j < result → IsUnreadAt (block_at (view_by B.states view.entry) address.reference (address.block + behind + j)) (n + j) }
{
    match view.unknown_ahead(address, behind) {
        Some((found, count)) => {
            if found == n && count > 0 {
                return count;
            }
        }
        None => {}
    }
    u32::from(is_unread(view, address, behind, n))
}

/// How many consecutive logical blocks, from `behind` blocks after an address on, are not known and lie one after the other from block
/// `n` of the volume on: at most `most`.
fn unread_run<B: BlockStore>(
    view: StoreView<'_, B>,
    address: LbAddr,
    behind: u32,
    n: u32,
    most: u32,
) -> u32
    requires near { behind + most < 2 ^ 32 }
    requires low { n + most < 2 ^ 32 }
    ensures most { result ≤ most }
    ensures unread { B.tells → (j : ℕ) → j < result → IsUnreadAt (block_at (view_by B.states view.entry) address.reference (address.block + behind + j)) (n + j) }
{
    let mut count = 0;
    'blocks: while count < most {
        let step = unread_step(view, address, behind + count, n + count);
        if step == 0 {
            break 'blocks;
        }
        count += step.min(most - count);
    }
    count
}

/// The missing bytes from byte `at` on, counted from the start of the run's first block, of which the first is in block `n`: at most `left`.
pub(crate) fn unread_bytes<B: BlockStore>(
    view: StoreView<'_, B>,
    run: Run,
    at: u64,
    n: u32,
    left: u64,
) -> Unread
    requires some { 1 ≤ left }
    requires far { left < 2 ^ 32 }
    requires near { at < 2 ^ 33 }
    requires low { n ≤ 4194303 }
    requires unread { B.tells → IsUnreadAt (block_at (view_by B.states view) run.address.reference (run.address.block + at / 2048)) n }
    ensures cells { B.tells → AreUnread result.first (result.last + 1 - result.first) (map (recorded_cell (view_by B.states view.entry) run.address.reference run.address.block) (range_with_len at result.count)) }
    ensures some { 1 ≤ result.count }
    ensures most { result.count ≤ left }
{
    let more = ((at % 2048 + left - 1) / 2048) as u32;
    let behind = unread_run(view, run.address, (at / 2048) as u32 + 1, n + 1, more);
    let count = left.min(2048 * (u64::from(behind) + 1) - at % 2048);
    Unread {
        first: n,
        last: n + behind,
        count,
    }
}

/// The recorded bytes from byte `at` on, counted from the start of the run's first block, as far as one portion goes: at most `left`.
/// Known bytes are lent from the store's memory, or from `room`.
fn recorded_portion_in<'r, 'a, B: BlockStore>(
    view: StoreView<'a, B>,
    run: Run,
    at: u64,
    left: u64,
    room: &'r mut [u8; 2048],
) -> Result<Portion<'r>, ReadFault>
where
    'a: 'r,
    requires some { 1 ≤ left }
    requires far { left < 2 ^ 32 }
    requires near { at < 2 ^ 33 }
    ensures cells { IfOk result (λ portion. B.tells → IsPortion portion (map (recorded_cell (view_by B.states view.entry) run.address.reference run.address.block) (range_with_len at (portion_count portion)))) }
    ensures some { IfOk result (λ portion. 1 ≤ portion_count portion) }
    ensures most { IfOk result (λ portion. portion_count portion ≤ left) }
    ensures fails { OnErr result B.fails }
{
    let here = left.min(2048 - at % 2048);
    match view.block_behind(run.address, (at / 2048) as u32, room)? {
        None => Ok(Portion::Zeros(here)),
        Some((_, Fact::Known(bytes))) => {
            Ok(Portion::Bytes(bytes_at(bytes, (at % 2048) as usize, here as usize)))
        }
        Some((n, Fact::Unknown)) => Ok(Portion::Missing(unread_bytes(view, run, at, n, left))),
        Some((n, Fact::Conflict)) => Ok(Portion::Missing(unread_bytes(view, run, at, n, left))),
    }
}

/// The portion of a stretch after its first `passed` bytes.
fn stretch_portion_in<'r, 'a, B: BlockStore>(
    view: StoreView<'a, B>,
    stretch: Stretch,
    passed: u64,
    room: &'r mut [u8; 2048],
) -> Result<Portion<'r>, ReadFault>
where
    'a: 'r,
    requires { passed < stretch_count stretch }
    ensures cells { IfOk result (λ portion. B.tells → IsPortion portion (take (portion_count portion) (drop passed (stretch_cells (view_by B.states view.entry) stretch)))) }
    ensures some { IfOk result (λ portion. 1 ≤ portion_count portion) }
    ensures most { IfOk result (λ portion. passed + portion_count portion ≤ stretch_count stretch) }
    ensures fails { OnErr result B.fails }
{
    match stretch {
        Stretch::Recorded(run, count) => {
            let at = u64::from(run.offset) + passed;
            let portion = recorded_portion_in(view, run, at, u64::from(count) - passed, room)?;
            Ok(portion)
        }
        Stretch::Zeros(count) => Ok(Portion::Zeros(u64::from(count) - passed)),
        Stretch::Missing(n, count) => Ok(Portion::Missing(Unread {
            first: n,
            last: n,
            count: count - passed,
        })),
    }
}

/// The bytes of a body that are left, run by run, as [`Portions`](crate::Portions), by any store of blocks. It takes no memory. In contracts it is the cells that are
/// left.
#[derive(Drop)]
pub struct StorePortions<'a, B: BlockStore> {
    cells: StoreCells<'a, B>,
}

impl<'a, B: BlockStore> Model for StorePortions<'a, B> {
    ghost use Rattle.std.specs.Prelude.{List};
    ghost use Rattle.udfs_file.specs.StoreCells.{store_left};
    ghost use Rattle.udfs_file.specs.declared.cells.Cell.{Cell};

    ghost Value = { List Cell };

    ghost view = { λ p. store_left B.states p.cells };
}

impl<'a, B: BlockStore> StorePortions<'a, B> {
    /// Returns the next portion and moves past it, or `None` where no byte is left. Known bytes are lent from the store's memory, or
    /// from `room`. An error leaves the portions where they were.
    ///
    /// # Errors
    ///
    /// `ReadFault` where the bytes of a known block could not be read.
    pub fn next<'r>(&mut self, room: &'r mut [u8; 2048]) -> Result<Option<Portion<'r>>, ReadFault>
    where
        'a: 'r,
        ensures gives { IfOk result (λ portion. B.tells → GivesPortion self.old portion self.new) }
        ensures count { IfOk result (λ portion. GivesCount (length self.old) portion (length self.new)) }
        ensures stays { OnErr result (self.new ≡ self.old) }
        ensures fails { OnErr result B.fails }
    {
        let ahead = self.cells.settled();
        let Some((first, _)) = ahead.stretches.split_first() else {
            return Ok(None);
        };
        let portion = stretch_portion_in(ahead.view, *first, ahead.passed, room)?;
        self.cells = ahead.behind(portion.count() as usize);
        Ok(Some(portion))
    }
}

impl Body {
    ghost use Rattle.udfs_space.specs.Views.{view_by};

    /// The bytes, run by run, as [`Body::portions`], by any store of blocks. It takes no memory.
    pub fn portions_by<'a, B: BlockStore>(&'a self, view: StoreView<'a, B>) -> StorePortions<'a, B>
        ensures { result ≡ cells_of (view_by B.states view.entry) self.now }
    {
        StorePortions {
            cells: StoreCells {
                view,
                stretches: self.stretches(),
                passed: 0,
            },
        }
    }
}
