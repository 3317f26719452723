//! Inputs of both kinds, files and images with their mapfiles, as one kind of source.

ghost use Rattle.std.specs.Prelude.{◌≡◌, ◌≢◌, ◌⊎◌, ◌≤◌, ◌<◌, ℕ, IfOk, IfErr, OnErr, alloc_error, length, vec_len};
ghost use Rattle.udfs_common.specs.Blaming.{AreJudged, InputsRefused, IsJudged, MayBeShut};
ghost use Rattle.udfs_common.specs.Keeping.{Opens};
ghost use Rattle.udfs_common.specs.Refusing.{NamesNoOther, refused_pair};
ghost use Rattle.udfs_common.specs.Sources.{left_in, faults_in, IsPathOpened};

use crate::files::Files;
use crate::refusal::Refusal;
use std::alloc::{AllocError, Global};
use udfs_host_fs::Stage;
use udfs_reading::{DeviceFault, InputError, Source};
use udfs_rescue::{Image, Pair, PairFault, open_pair};
use udfs_words::input_path::InputPath;

/// An input as a source of a reading or a table file.
#[derive(Drop)]
pub enum AnySource<R: Source, I: Image> {
    /// A reading or a table file.
    File(R),
    /// An image with its known blocks.
    Paired(Pair<I>),
    /// An image with its mapfile of which it is known why it has no reading. Each read of it fails, so nothing is joined of it; they are counted.
    Refused(PairFault, u64),
}

impl<R: Source, I: Image> Source for AnySource<R, I> {
    ghost remaining = { left_in R.remaining ⟦<Pair<I> as Source>⟧.remaining };

    ghost faults = { faults_in R.faults ⟦<Pair<I> as Source>⟧.faults };

    fn read(&mut self, buf: &mut [u8]) -> Result<usize, DeviceFault> {
        match self {
            AnySource::File(source) => source.read(buf),
            AnySource::Paired(pair) => pair.read(buf),
            AnySource::Refused(_, faults) => {
                *faults = faults.wrapping_add(1);
                Err(DeviceFault)
            }
        }
    }
}

/// Opens a file as an input.
fn open_file<F: Files>(
    path: &str,
    number: usize,
    files: &F,
) -> Result<AnySource<F::Input, F::Image>, Refusal>
    ensures opened { IfOk result (λ source. IsPathOpened (λ path. F.holds files.now (F.real files.now path)) (InputPath.File path.entry) (⟦<AnySource<F::Input, F::Image> as Source>⟧.remaining source)) }
    ensures judged { IfOk result (λ source. IsJudged (λ path. F.holds files.now (F.real files.now path)) (InputPath.File path.entry) source) }
    ensures told { IfErr result (λ refusal. refusal ≡ Refusal.Open number) }
    ensures shut { OnErr result (MayBeShut (F.shut files.now) (InputPath.File path.entry)) }
{
    match files.open(path) {
        Ok(source) => Ok(AnySource::File(source)),
        Err(DeviceFault) => Err(Refusal::Open(number)),
    }
}

/// Opens an image and its mapfile, in this order, and judges them.
fn open_both<F: Files>(
    alloc: Global,
    image: &str,
    map: &str,
    number: usize,
    files: &F,
) -> Result<AnySource<F::Input, F::Image>, Refusal>
    ensures opened { IfOk result (λ source. IsPathOpened (λ path. F.holds files.now (F.real files.now path)) (InputPath.Pair image.entry map.entry) (⟦<AnySource<F::Input, F::Image> as Source>⟧.remaining source)) }
    ensures judged { IfOk result (λ source. IsJudged (λ path. F.holds files.now (F.real files.now path)) (InputPath.Pair image.entry map.entry) source) }
    ensures told { IfErr result (λ refusal. refusal ≢ Refusal.Open number → refusal ≡ Refusal.Memory alloc_error) }
    ensures why { IfErr result (λ refusal. (refusal ≡ Refusal.Memory alloc_error) ⊎ ((refusal ≡ Refusal.Open number) × MayBeShut (F.shut files.now) (InputPath.Pair image.entry map.entry))) }
{
    let Ok(image) = files.open_image(image) else {
        return Err(Refusal::Open(number));
    };
    let Ok(mut map) = files.open(map) else {
        return Err(Refusal::Open(number));
    };
    match open_pair(alloc, image, &mut map) {
        Ok(pair) => Ok(AnySource::Paired(pair)),
        Err(PairFault::OutOfMemory) => Err(Refusal::Memory(AllocError)),
        Err(fault) => Ok(AnySource::Refused(fault, 0)),
    }
}

/// Opens the input of this number.
fn open_one<F: Files>(
    alloc: Global,
    path: InputPath<'_>,
    number: usize,
    files: &F,
) -> Result<AnySource<F::Input, F::Image>, Refusal>
    ensures opened { IfOk result (λ source. IsPathOpened (λ path. F.holds files.now (F.real files.now path)) path.entry (⟦<AnySource<F::Input, F::Image> as Source>⟧.remaining source)) }
    ensures judged { IfOk result (λ source. IsJudged (λ path. F.holds files.now (F.real files.now path)) path.entry source) }
    ensures told { IfErr result (λ refusal. refusal ≢ Refusal.Open number → refusal ≡ Refusal.Memory alloc_error) }
    ensures why { IfErr result (λ refusal. (refusal ≡ Refusal.Memory alloc_error) ⊎ ((refusal ≡ Refusal.Open number) × MayBeShut (F.shut files.now) path.entry)) }
{
    match path {
        InputPath::File(path) => match open_file(path, number, files) {
            Ok(source) => Ok(source),
            Err(refusal) => Err(refusal),
        },
        InputPath::Pair(image, map) => match open_both(alloc, image, map, number, files) {
            Ok(source) => Ok(source),
            Err(refusal) => Err(refusal),
        },
    }
}

/// Opens all inputs in order, or says which is the first that cannot be opened. An image is opened before its mapfile, which is read at once.
pub fn open_all<F: Files>(
    alloc: Global,
    paths: &[InputPath<'_>],
    files: &F,
) -> Result<Vec<AnySource<F::Input, F::Image>>, Refusal>
    ensures each { IfOk result (λ sources. vec_len sources ≡ length paths.now) }
    ensures opened { IfOk result (λ sources. Opens (λ path. F.holds files.now (F.real files.now path)) (⟦<AnySource<F::Input, F::Image> as Source>⟧.remaining) paths.now sources.items) }
    ensures told { IfErr result (λ refusal. (refusal ≢ Refusal.Output) × (refusal ≢ Refusal.Unkept) × (refusal ≢ Refusal.Spared)) }
    ensures no_other { IfErr result NamesNoOther }
    ensures named { IfErr result (λ refusal. (input : ℕ) → refusal ≡ Refusal.Open input → (0 < input) × (input ≤ length paths.now)) }
    ensures judged { IfOk result (λ sources. AreJudged (λ path. F.holds files.now (F.real files.now path)) paths.now sources.items) }
    ensures blamed { IfErr result (InputsRefused (λ path. F.holds files.now (F.real files.now path)) (F.shut files.now) (⟦<AnySource<F::Input, F::Image> as Source>⟧.remaining) (⟦<AnySource<F::Input, F::Image> as Source>⟧.faults) paths.now) }
{
    files.begin(Stage::Reading);
    let mut sources = Vec::new(alloc);
    for (index, path) in paths.iter().enumerate() {
        match open_one(alloc, *path, index + 1, files) {
            Ok(source) => match sources.push(source) {
                Ok(()) => {}
                Err(_) => return Err(Refusal::Memory(AllocError)),
            },
            Err(refusal) => return Err(refusal),
        }
    }
    Ok(sources)
}

/// The error for the input with this number, a pair that has no reading for the reason `fault`.
pub fn refused_pair(input: usize, fault: PairFault) -> Refusal
    ensures value { result ≡ refused_pair input fault }
    ensures told { (result ≢ Refusal.Output) × (result ≢ Refusal.Unkept) × (result ≢ Refusal.Spared) }
    ensures no_other { NamesNoOther result }
{
    match fault {
        PairFault::Line(fault) => Refusal::Mapfile(input, fault),
        PairFault::Reading(error) => Refusal::from(InputError { input, error }),
        PairFault::EndsBefore(block) => Refusal::ImageEnds(input, block),
        PairFault::OutOfMemory => Refusal::Memory(AllocError),
    }
}
