//! Cells of a body that lie side by side, borrowed from the table's blocks.

ghost use Rattle.std.specs.Prelude.{◌≡◌, ◌≤◌, ◌<◌, ◌+◌, ◌%◌, ◌^◌, length, map, min, replicate, take, drop, IfOk, OnErr};
ghost use Rattle.std.specs.List.{range_with_len};
ghost use Rattle.udfs_space.specs.Views.{view_by, view_now};
ghost use Rattle.udfs_file.specs.Bodies.{recorded_cell};
ghost use Rattle.udfs_file.specs.Pieces.{FitsPiece, IsPieceOf, rest_in_block};
ghost use Rattle.udfs_file.specs.Stretches.{stretch_cells, stretch_count};

use crate::stretches::{Run, Stretch};
use udfs_lattice::{BlockStore, Fact, ReadFault};
use udfs_space::{StoreView, View};

/// A block of zeros, for those that are not recorded.
static ZEROS: [u8; 2048] = [0; 2048];

/// The first of some cells, all in one block.
#[derive(Clone, Copy)]
pub(crate) enum Piece<'a> {
    /// Bytes, with the logical block that holds them, if one does.
    Bytes(&'a [u8], Option<u32>),
    /// The first cell is missing, since this block of the volume is not known.
    Gap(u32),
}

/// Bytes of a body that lie side by side: one borrowed piece, or the end of one block and then the beginning of another.
#[derive(Clone, Copy, Debug)]
pub struct Pieces<'a> {
    /// The first of them, at least one.
    pub first: &'a [u8],
    /// Those after the first piece.
    pub second: &'a [u8],
    /// The logical block that holds the first byte; no block holds a zero that is not recorded.
    pub holder: Option<u32>,
}

/// A given number of cells, from the beginning of some.
#[derive(Clone, Copy)]
pub(crate) enum Front<'a> {
    /// Their bytes, of which none is missing.
    Bytes(Pieces<'a>),
    /// The block of the first of them that is missing.
    Gap(u32),
}

/// `count` zeros.
pub(crate) fn zeros(count: usize) -> &'static [u8]
    requires { count ≤ 2048 }
    ensures { result.now ≡ replicate count 0 }
{
    let (front, _) = ZEROS.split_at(count);
    front
}

/// `count` bytes of a block, from place `at` on.
pub(crate) fn bytes_at(block: &[u8; 2048], at: usize, count: usize) -> &[u8]
    requires { at + count ≤ 2048 }
    ensures value { result.now ≡ take count (drop at block.now) }
    ensures size { length block.now ≡ 2048 }
{
    let (_, behind) = block.split_at(at);
    let (front, _) = behind.split_at(count);
    front
}

/// `count` recorded cells in one block, from byte `at` on, counted from the start of the run's first block.
pub(crate) fn recorded_piece<'a>(view: View<'a>, run: Run, at: u64, count: usize) -> Piece<'a>
    requires inside { at % 2048 + count ≤ 2048 }
    requires some { 1 ≤ count }
    requires near { at < 2 ^ 33 }
    ensures { IsPieceOf result (map (recorded_cell (view_now view.entry) run.address.reference run.address.block) (range_with_len at count)) }
{
    let behind = (at / 2048) as u32;
    match view.block_behind(run.address, behind) {
        None => Piece::Bytes(zeros(count), None),
        Some((_, Fact::Known(bytes))) => {
            let holder = run.address.block + behind;
            Piece::Bytes(bytes_at(bytes, (at % 2048) as usize, count), Some(holder))
        }
        Some((n, Fact::Unknown)) => Piece::Gap(n),
        Some((n, Fact::Conflict)) => Piece::Gap(n),
    }
}

/// The cells of a stretch after the first `passed`, as far as they lie in one block, and at most `want`.
pub(crate) fn stretch_piece<'a>(
    view: View<'a>,
    stretch: Stretch,
    passed: u64,
    want: usize,
) -> Piece<'a>
    requires left { passed < stretch_count stretch }
    requires some { 1 ≤ want }
    requires block { want ≤ 2048 }
    ensures { IsPieceOf result (take (min want (rest_in_block stretch passed)) (drop passed (stretch_cells (view_now view.entry) stretch))) }
{
    match stretch {
        Stretch::Recorded(run, count) => {
            let at = u64::from(run.offset) + passed;
            let here = (2048 - at % 2048).min(u64::from(count) - passed);
            recorded_piece(view, run, at, here.min(want as u64) as usize)
        }
        Stretch::Zeros(count) => {
            let here = (u64::from(count) - passed).min(want as u64);
            Piece::Bytes(zeros(here as usize), None)
        }
        Stretch::Missing(n, _) => Piece::Gap(n),
    }
}

/// `count` recorded cells in one block, from byte `at` on, counted from the start of the run's first block. The bytes of a known
/// block are lent from the store's memory, or from `room`.
pub(crate) fn recorded_in<'r, 'a, B: BlockStore>(
    view: StoreView<'a, B>,
    run: Run,
    at: u64,
    count: usize,
    room: &'r mut [u8; 2048],
) -> Result<Piece<'r>, ReadFault>
where
    'a: 'r,
    requires inside { at % 2048 + count ≤ 2048 }
    requires some { 1 ≤ count }
    requires near { at < 2 ^ 33 }
    ensures value { IfOk result (λ piece. B.tells → IsPieceOf piece (map (recorded_cell (view_by B.states view.entry) run.address.reference run.address.block) (range_with_len at count))) }
    ensures size { IfOk result (λ piece. FitsPiece piece count) }
    ensures fails { OnErr result B.fails }
{
    let behind = (at / 2048) as u32;
    match view.block_behind(run.address, behind, room)? {
        None => Ok(Piece::Bytes(zeros(count), None)),
        Some((_, Fact::Known(bytes))) => {
            let holder = run.address.block + behind;
            Ok(Piece::Bytes(bytes_at(bytes, (at % 2048) as usize, count), Some(holder)))
        }
        Some((n, Fact::Unknown)) => Ok(Piece::Gap(n)),
        Some((n, Fact::Conflict)) => Ok(Piece::Gap(n)),
    }
}

/// The cells of a stretch after the first `passed`, as far as they lie in one block, and at most `want`.
pub(crate) fn stretch_in<'r, 'a, B: BlockStore>(
    view: StoreView<'a, B>,
    stretch: Stretch,
    passed: u64,
    want: usize,
    room: &'r mut [u8; 2048],
) -> Result<Piece<'r>, ReadFault>
where
    'a: 'r,
    requires left { passed < stretch_count stretch }
    requires some { 1 ≤ want }
    requires block { want ≤ 2048 }
    ensures value { IfOk result (λ piece. B.tells → IsPieceOf piece (take (min want (rest_in_block stretch passed)) (drop passed (stretch_cells (view_by B.states view.entry) stretch)))) }
    ensures size { IfOk result (λ piece. FitsPiece piece (min want (rest_in_block stretch passed))) }
    ensures fails { OnErr result B.fails }
{
    match stretch {
        Stretch::Recorded(run, count) => {
            let at = u64::from(run.offset) + passed;
            let here = (2048 - at % 2048).min(u64::from(count) - passed);
            let piece = recorded_in(view, run, at, here.min(want as u64) as usize, room)?;
            Ok(piece)
        }
        Stretch::Zeros(count) => {
            let here = (u64::from(count) - passed).min(want as u64);
            Ok(Piece::Bytes(zeros(here as usize), None))
        }
        Stretch::Missing(n, _) => Ok(Piece::Gap(n)),
    }
}
