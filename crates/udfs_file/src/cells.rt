//! The cells of a body, as borrowed pieces.

ghost use Rattle.std.specs.Prelude.{◌≡◌, ℕ, ◌≤◌, ◌<◌, ◌+◌, drop, length, min, nat_le, take};
ghost use Rattle.udfs_space.specs.Places as places;
ghost use Rattle.udfs_file.specs.Stretches.{LieInBlocks, cells_of};
ghost use Rattle.udfs_file.specs.CellsLeft.{cells_left, IsSettled, room};
ghost use Rattle.udfs_file.specs.Pieces.{FitsPiece, IsPieceOf, IsFrontTaken, Starts};

use crate::pieces::{Front, Piece, Pieces, stretch_piece};
use crate::stretches::Stretch;
use udfs_space::View;

/// One cell of a body.
#[derive(Clone, Copy, Debug, PartialEq, Eq)]
pub enum Cell {
    /// A byte, with the logical block that holds it; no block holds a zero that is not recorded.
    Byte(u8, Option<u32>),
    /// A byte that is not known, since this block of the volume is not.
    Gap(u32),
}

/// The cells of some stretches, without the first `passed`.
#[derive(Clone, Copy)]
pub(crate) struct Cells<'a> {
    pub(crate) view: View<'a>,
    pub(crate) stretches: &'a [Stretch],
    /// How many cells from the first stretch on are left out.
    pub(crate) passed: u64,
}

/// Whether stretches have at least `count` cells.
pub(crate) fn hold(stretches: &[Stretch], count: u64) -> bool
    ensures { (v : places.View) → result ≡ nat_le count (length (cells_of v stretches.now)) }
{
    let mut left = count;
    for stretch in stretches {
        if left <= stretch.count() {
            return true;
        }
        left -= stretch.count();
    }
    left == 0
}

impl<'a> Cells<'a> {
    /// The same cells, with some of the first stretch among them if there are any.
    pub(crate) fn settled(&self) -> Cells<'a>
        ensures cells { cells_left result ≡ cells_left self.now }
        ensures settled { IsSettled result }
        ensures starts { (k : ℕ) → Starts (self.now.passed + k) self.now.stretches.now → Starts (result.passed + k) result.stretches.now }
        ensures lies { LieInBlocks self.now.stretches.now → LieInBlocks result.stretches.now }
    {
        let mut stretches = self.stretches;
        let mut passed = self.passed;
        'stretches: while let Some((first, rest)) = stretches.split_first() {
            if passed < first.count() {
                break 'stretches;
            }
            passed -= first.count();
            stretches = rest;
        }
        Cells {
            view: self.view,
            stretches,
            passed,
        }
    }

    /// Whether at least `count` cells are left.
    pub(crate) fn holds(&self, count: u64) -> bool
        ensures { result ≡ nat_le count (length (cells_left self.now)) }
    {
        let ahead = self.settled();
        let Some((first, rest)) = ahead.stretches.split_first() else {
            return count == 0;
        };
        let here = first.count() - ahead.passed;
        if count <= here {
            return true;
        }
        hold(rest, count - here)
    }

    /// The first cells as far as they lie in one block, and at most `want`.
    fn first_piece(&self, want: usize) -> Piece<'a>
        requires settled { IsSettled self.now }
        requires some { 1 ≤ want }
        requires block { want ≤ 2048 }
        ensures cells { IsPieceOf result (take (min want (room self.now)) (cells_left self.now)) }
        ensures size { FitsPiece result (min want (room self.now)) }
    {
        match self.stretches.split_first() {
            Some((first, _)) => stretch_piece(self.view, *first, self.passed, want),
            None => Piece::Bytes(&[], None),
        }
    }

    /// The first `want` cells, which have to be there.
    pub(crate) fn front(&self, want: usize) -> Front<'a>
        requires some { 1 ≤ want }
        requires block { want ≤ 2048 }
        requires there { want ≤ length (cells_left self.now) }
        requires lies { LieInBlocks self.now.stretches.now }
        ensures { IsFrontTaken result (take want (cells_left self.now)) }
    {
        let ahead = self.settled();
        let (first, holder) = match ahead.first_piece(want) {
            Piece::Gap(n) => return Front::Gap(n),
            Piece::Bytes(first, holder) => (first, holder),
        };
        if first.len() >= want {
            let second: &[u8] = &[];
            return Front::Bytes(Pieces {
                first,
                second,
                holder,
            });
        }
        let behind = ahead.behind(first.len()).settled();
        match behind.first_piece(want - first.len()) {
            Piece::Gap(n) => Front::Gap(n),
            Piece::Bytes(second, _) => Front::Bytes(Pieces {
                first,
                second,
                holder,
            }),
        }
    }

    /// The cells after the first `count`.
    pub(crate) fn behind(&self, count: usize) -> Cells<'a>
        ensures cells { cells_left result ≡ drop count (cells_left self.now) }
        ensures starts { Starts (self.now.passed + count) self.now.stretches.now → Starts result.passed result.stretches.now }
        ensures lies { LieInBlocks self.now.stretches.now → LieInBlocks result.stretches.now }
    {
        let ahead = self.settled();
        let Some((first, rest)) = ahead.stretches.split_first() else {
            return ahead;
        };
        let here = first.count() - ahead.passed;
        let count = count as u64;
        if count <= here {
            return Cells {
                view: ahead.view,
                stretches: ahead.stretches,
                passed: ahead.passed + count,
            };
        }
        Cells {
            view: ahead.view,
            stretches: rest,
            passed: count - here,
        }
    }
}
