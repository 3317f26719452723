//! The table of the inputs.

ghost use Rattle.std.specs.Prelude.{◌≡◌, ◌≢◌, ◌⊎◌, true, false, IfOk, IfErr, OnOk};
ghost use Rattle.udfs_lattice.specs.Tables.{Table, empty_table, join_tables};
ghost use Rattle.udfs_common.specs.Blaming.{InputsRefused};
ghost use Rattle.udfs_common.specs.Keeping.{OfPaths};
ghost use Rattle.udfs_common.specs.OtherDiscs.{AreOneDisc};
ghost use Rattle.udfs_common.specs.Refusing.{NamesNoOther};
ghost use Rattle.udfs_common.specs.declared.sources.AnySource.{AnySource};

use crate::files::Files;
use crate::refusal::Refusal;
use crate::sources::{AnySource, open_all};
use crate::taking::{TableTaker, take_sources};
use std::alloc::Global;
use udfs_lattice::BlockTable;
use udfs_reading::Source;
use udfs_words::input_path::InputPath;

/// Hands the blocks of the inputs to the taker, one source an input. All inputs are opened in order before one is read, and closed again. An image that disagrees
/// with the inputs before it so that it is of another disc is refused, unless `force` is set.
pub fn take_all<F: Files, T: TableTaker<AnySource<F::Input, F::Image>>>(
    alloc: Global,
    inputs: &[InputPath<'_>],
    force: bool,
    taker: &mut T,
    files: &F,
) -> Result<(), Refusal>
    ensures by_path { OnOk result (OfPaths (λ path. F.holds files.now (F.real files.now path)) (⟦<AnySource<F::Input, F::Image> as Source>⟧.remaining) inputs.now (λ t. (s : Table) → T.took taker.old s → T.took taker.new (join_tables s t))) }
    ensures told { IfErr result (λ refusal. (refusal ≢ Refusal.Output) × (refusal ≢ Refusal.Unkept) × (refusal ≢ Refusal.Spared)) }
    // By force none is named as one of another disc.
    ensures forced { IfErr result (λ refusal. force ≡ true → NamesNoOther refusal) }
    // Where nothing was taken before: no image is of another disc, but by force;
    ensures one_disc { OnOk result (T.took taker.old empty_table → force ≡ false → AreOneDisc (λ path. F.holds files.now (F.real files.now path)) (⟦<AnySource<F::Input, F::Image> as Source>⟧.remaining) inputs.now) }
    // and the first input that cannot be opened is named, or else the first that cannot be read, and why, or that is of another disc.
    ensures blamed { IfErr result (λ refusal. T.took taker.old empty_table → InputsRefused (λ path. F.holds files.now (F.real files.now path)) (F.shut files.now) (⟦<AnySource<F::Input, F::Image> as Source>⟧.remaining) (⟦<AnySource<F::Input, F::Image> as Source>⟧.faults) inputs.now refusal) }
{
    let mut sources = match open_all(alloc, inputs, files) {
        Ok(sources) => sources,
        Err(refusal) => return Err(refusal),
    };
    match take_sources(alloc, inputs, sources.as_mut_slice(), force, taker) {
        Ok(()) => Ok(()),
        Err(refusal) => Err(refusal),
    }
}

/// The join of the inputs' tables. An image that disagrees with the inputs before it so that it is of another disc is refused, unless `force` is set.
pub fn joined<F: Files>(
    alloc: Global,
    inputs: &[InputPath<'_>],
    force: bool,
    files: &F,
) -> Result<BlockTable, Refusal>
    ensures by_path { IfOk result (λ table. OfPaths (λ path. F.holds files.now (F.real files.now path)) (⟦<AnySource<F::Input, F::Image> as Source>⟧.remaining) inputs.now (λ t. table ≡ t)) }
    // No image is of another disc, but by force.
    ensures one_disc { OnOk result (force ≡ false → AreOneDisc (λ path. F.holds files.now (F.real files.now path)) (⟦<AnySource<F::Input, F::Image> as Source>⟧.remaining) inputs.now) }
    ensures told { IfErr result (λ refusal. (refusal ≢ Refusal.Output) × (refusal ≢ Refusal.Unkept) × (refusal ≢ Refusal.Spared)) }
    // By force none is named as one of another disc.
    ensures forced { IfErr result (λ refusal. force ≡ true → NamesNoOther refusal) }
    // The first input that cannot be opened is named, or else the first that cannot be read, and why, or that is of another disc.
    ensures blamed { IfErr result (InputsRefused (λ path. F.holds files.now (F.real files.now path)) (F.shut files.now) (⟦<AnySource<F::Input, F::Image> as Source>⟧.remaining) (⟦<AnySource<F::Input, F::Image> as Source>⟧.faults) inputs.now) }
{
    let mut table = BlockTable::new(alloc);
    match take_all(alloc, inputs, force, &mut table, files) {
        Ok(()) => Ok(table),
        Err(refusal) => Err(refusal),
    }
}

/// What is said of an output that could not be looked at: the inputs are judged before it.
pub fn unwritten<F: Files>(
    alloc: Global,
    inputs: &[InputPath<'_>],
    force: bool,
    files: &F,
) -> Refusal
    ensures told { (result ≢ Refusal.Unkept) × (result ≢ Refusal.Spared) }
    // By force none is named as one of another disc.
    ensures forced { force ≡ true → NamesNoOther result }
    ensures blamed { (result ≡ Refusal.Output) ⊎ InputsRefused (λ path. F.holds files.now (F.real files.now path)) (F.shut files.now) (⟦<AnySource<F::Input, F::Image> as Source>⟧.remaining) (⟦<AnySource<F::Input, F::Image> as Source>⟧.faults) inputs.now result }
{
    if let Err(refusal) = joined(alloc, inputs, force, files) {
        return refusal;
    }
    Refusal::Output
}
