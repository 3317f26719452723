//! The tables of inputs, one after the other; an image of another disc is found before it is joined.

ghost use Rattle.std.specs.Prelude.{◌≡◌, ◌≢◌, ◌⊎◌, ◌+◌, ◌<◌, ◌^◌, ⊤, true, false, IfErr, OnOk, alloc_error, length};
ghost use Rattle.udfs_lattice.specs.Tables.{Table, join_tables};
ghost use Rattle.udfs_common.specs.Blaming.{source_reason};
ghost use Rattle.udfs_common.specs.OtherDiscs.{IsOneDisc, IsOtherBy, is_compared, pair_at};
ghost use Rattle.udfs_common.specs.Refusing.{NamesNoOther, refusal_with};
ghost use Rattle.udfs_common.specs.Taking.{AreUntaken, BlamesAlone, IsUntaken, NoneFails, Taken, TakesAlone};

use crate::refusal::Refusal;
use crate::sources::{AnySource, refused_pair};
use std::alloc::{AllocError, Global};
use udfs_index::compare;
use udfs_lattice::{BlockTable, Join};
use udfs_reading::{InputError, Source, Taker, take_inputs};
use udfs_rescue::{Image, PairFault};
use udfs_words::input_path::InputPath;

/// What takes inputs, and has the table of all that it took in memory.
pub trait TableTaker<R: Source>: Taker<R> {
    /// The table of what was taken.
    fn table(&self) -> &BlockTable
        ensures { (t : Table) → Self.took self.now t → result.now ≡ t };

    /// Takes the table of an input of which nothing was taken so far.
    ///
    /// # Errors
    ///
    /// `AllocError` where memory ran out.
    fn take_table(&mut self, own: &BlockTable) -> Result<(), AllocError>
        ensures ok { OnOk result ((t : Table) → Self.took self.old t → Self.took self.new (join_tables t own.now)) };
}

impl<R: Source> TableTaker<R> for BlockTable {
    fn table(&self) -> &BlockTable {
        self
    }

    fn take_table(&mut self, own: &BlockTable) -> Result<(), AllocError> {
        match self.join(own) {
            Ok(()) => Ok(()),
            Err(_) => Err(AllocError),
        }
    }
}

/// Why an image with its mapfile has no reading, if the source is one.
fn reason<R: Source, I: Image>(source: &AnySource<R, I>) -> Option<PairFault>
    ensures { result ≡ source_reason source.now }
{
    match source {
        AnySource::Refused(fault, _) => Some(*fault),
        _ => None,
    }
}

/// What is said of an input's error. A pair that has no reading is reported with its own reason.
fn refusal_with(reason: Option<PairFault>, error: InputError) -> Refusal
    ensures value { result ≡ refusal_with reason error }
    ensures told { (result ≢ Refusal.Output) × (result ≢ Refusal.Unkept) × (result ≢ Refusal.Spared) }
    ensures no_other { NamesNoOther result }
{
    match reason {
        Some(fault) => refused_pair(error.input, fault),
        None => Refusal::from(error),
    }
}

/// Hands the blocks of the source with this number, which is the only one here, to the taker.
fn take_alone<R: Source, I: Image, T: Taker<AnySource<R, I>>>(
    one: &mut [AnySource<R, I>],
    number: usize,
    taker: &mut T,
) -> Result<(), Refusal>
    requires { length one.old ≡ 1 }
    ensures table { OnOk result (TakesAlone (⟦<AnySource<R, I> as Source>⟧.remaining) one.old (T.took taker.old) (T.took taker.new) ⊥) }
    ensures counts { OnOk result (NoneFails (⟦<AnySource<R, I> as Source>⟧.faults) one.old one.new) }
    ensures told { IfErr result (λ refusal. (refusal ≢ Refusal.Output) × (refusal ≢ Refusal.Unkept) × (refusal ≢ Refusal.Spared)) }
    ensures no_other { IfErr result NamesNoOther }
    ensures blamed { IfErr result (BlamesAlone (⟦<AnySource<R, I> as Source>⟧.remaining) (⟦<AnySource<R, I> as Source>⟧.faults) one.old one.new number) }
{
    let why = reason(&one[0]);
    match take_inputs(one, taker) {
        Ok(()) => Ok(()),
        Err(InputError { error, .. }) => {
            let input = number;
            Err(refusal_with(why, InputError { input, error }))
        }
    }
}

/// Joins a table of its own to what was taken, unless it is of another disc.
fn join_own<R: Source, T: TableTaker<R>>(
    own: &BlockTable,
    number: usize,
    taker: &mut T,
) -> Result<(), Refusal>
    ensures table { OnOk result ((t : Table) → T.took taker.old t → T.took taker.new (join_tables t own.now)) }
    ensures one { OnOk result ((t : Table) → T.took taker.old t → IsOneDisc t own.now) }
    ensures told { IfErr result (λ refusal. (refusal ≢ Refusal.Output) × (refusal ≢ Refusal.Unkept) × (refusal ≢ Refusal.Spared)) }
    ensures blamed { IfErr result (λ refusal. (refusal ≡ Refusal.Memory alloc_error) ⊎ ((t : Table) → T.took taker.old t → IsOtherBy t own.now number refusal)) }
{
    let found = compare(taker.table(), own);
    if found.is_other_disc() {
        return Err(Refusal::OtherDisc(number, found.blocks, found.of));
    }
    match taker.take_table(own) {
        Ok(()) => Ok(()),
        Err(AllocError) => Err(Refusal::Memory(AllocError)),
    }
}

/// Hands the blocks of the source with this number, which is the only one here, to the taker, unless it is of another disc.
fn take_apart<R: Source, I: Image, T: TableTaker<AnySource<R, I>>>(
    alloc: Global,
    one: &mut [AnySource<R, I>],
    number: usize,
    taker: &mut T,
) -> Result<(), Refusal>
    requires { length one.old ≡ 1 }
    ensures table { OnOk result (TakesAlone (⟦<AnySource<R, I> as Source>⟧.remaining) one.old (T.took taker.old) (T.took taker.new) ⊤) }
    ensures counts { OnOk result (NoneFails (⟦<AnySource<R, I> as Source>⟧.faults) one.old one.new) }
    ensures told { IfErr result (λ refusal. (refusal ≢ Refusal.Output) × (refusal ≢ Refusal.Unkept) × (refusal ≢ Refusal.Spared)) }
    ensures blamed { IfErr result (IsUntaken (⟦<AnySource<R, I> as Source>⟧.remaining) (⟦<AnySource<R, I> as Source>⟧.faults) one.old one.new (T.took taker.old) number ⊤) }
{
    let mut own = BlockTable::new(alloc);
    match take_alone(one, number, &mut own) {
        Ok(()) => {}
        Err(refusal) => return Err(refusal),
    }
    match join_own::<AnySource<R, I>, T>(&own, number, taker) {
        Ok(()) => Ok(()),
        Err(refusal) => Err(refusal),
    }
}

/// Whether the input at this place is an image with its mapfile.
pub fn is_pair_at(paths: &[InputPath<'_>], place: usize) -> bool
    ensures { result ≡ pair_at paths.now place }
{
    matches!(paths.get(place), Some(InputPath::Pair(_, _)))
}

/// Whether the input at this place is compared with those before it: an image that is not the first input, unless `force` is set.
pub fn is_compared(paths: &[InputPath<'_>], place: usize, force: bool) -> bool
    ensures { result ≡ is_compared paths.now place force }
{
    !force && place > 0 && is_pair_at(paths, place)
}

/// Hands the blocks of the source of the input at this place, which is the only one here, to the taker. An image of another disc than what was taken is
/// refused, unless it is the first input or `force` is set. Only for an image that is compared is a table of its own held.
fn take_next<R: Source, I: Image, T: TableTaker<AnySource<R, I>>>(
    alloc: Global,
    paths: &[InputPath<'_>],
    one: &mut [AnySource<R, I>],
    place: usize,
    force: bool,
    taker: &mut T,
) -> Result<(), Refusal>
    requires one { length one.old ≡ 1 }
    requires place { place + 1 < 2 ^ 64 }
    ensures table { OnOk result (TakesAlone (⟦<AnySource<R, I> as Source>⟧.remaining) one.old (T.took taker.old) (T.took taker.new) (is_compared paths.now place force ≡ true)) }
    ensures counts { OnOk result (NoneFails (⟦<AnySource<R, I> as Source>⟧.faults) one.old one.new) }
    ensures told { IfErr result (λ refusal. (refusal ≢ Refusal.Output) × (refusal ≢ Refusal.Unkept) × (refusal ≢ Refusal.Spared)) }
    ensures forced { IfErr result (λ refusal. force ≡ true → NamesNoOther refusal) }
    ensures blamed { IfErr result (IsUntaken (⟦<AnySource<R, I> as Source>⟧.remaining) (⟦<AnySource<R, I> as Source>⟧.faults) one.old one.new (T.took taker.old) (place + 1) (pair_at paths.now place ≡ true)) }
{
    if is_compared(paths, place, force) {
        return match take_apart(alloc, one, place + 1, taker) {
            Ok(()) => Ok(()),
            Err(refusal) => Err(refusal),
        };
    }
    match take_alone(one, place + 1, taker) {
        Ok(()) => Ok(()),
        Err(refusal) => Err(refusal),
    }
}

/// Reads the sources of the inputs at these paths in order, and hands their blocks to the taker. An image that disagrees with what was taken before it so that
/// it is of another disc is refused, unless it is the first input or `force` is set. Where memory is said to be wanting, no source has failed.
pub fn take_sources<R: Source, I: Image, T: TableTaker<AnySource<R, I>>>(
    alloc: Global,
    paths: &[InputPath<'_>],
    sources: &mut [AnySource<R, I>],
    force: bool,
    taker: &mut T,
) -> Result<(), Refusal>
    ensures table { OnOk result (Taken (⟦<AnySource<R, I> as Source>⟧.remaining) paths.now sources.old force (T.took taker.old) (T.took taker.new)) }
    // No source failed.
    ensures counts { OnOk result (NoneFails (⟦<AnySource<R, I> as Source>⟧.faults) sources.old sources.new) }
    ensures told { IfErr result (λ refusal. (refusal ≢ Refusal.Output) × (refusal ≢ Refusal.Unkept) × (refusal ≢ Refusal.Spared)) }
    // By force none is named as one of another disc.
    ensures forced { IfErr result (λ refusal. force ≡ true → NamesNoOther refusal) }
    // None has failed where memory is said to be wanting. Else the first source that could not be read is named, and why; or the first image of another disc, in
    // how many blocks it disagrees, and of how many.
    ensures blamed { IfErr result (AreUntaken (⟦<AnySource<R, I> as Source>⟧.remaining) (⟦<AnySource<R, I> as Source>⟧.faults) paths.now sources.old sources.new (T.took taker.old)) }
{
    for place in 0..sources.len() {
        match take_next(
            alloc,
            paths,
            &mut sources[place..place + 1],
            place,
            force,
            taker,
        ) {
            Ok(()) => {}
            Err(refusal) => return Err(refusal),
        }
    }
    Ok(())
}
