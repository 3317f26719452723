//! Inputs that are read at positions, as often as it is wanted.

ghost use Rattle.std.specs.Prelude.{◌≡◌, ◌≢◌, ◌⊎◌, ◌≤◌, ◌<◌, ℕ, IfOk, IfErr, IfSome, OnErr, alloc_error, length, vec_len};
ghost use Rattle.udfs_common.specs.Blaming.{AreJudgedFor, IsJudgedFor, IsShut, MayBeShut, stored_reason};
ghost use Rattle.udfs_common.specs.Keeping.{Opens};
ghost use Rattle.udfs_common.specs.Sources.{IsPathOpened};

use crate::files::Files;
use crate::refusal::Refusal;
use std::alloc::{AllocError, Global};
use udfs_host_fs::Stage;
use udfs_index::{AnyStored, Cursor, Stored, open_stored_pair};
use udfs_reading::DeviceFault;
use udfs_rescue::PairFault;
use udfs_words::input_path::InputPath;

/// Opens a file as an input, if it is a regular file.
fn open_stored_file<F: Files>(
    path: &str,
    number: usize,
    files: &F,
) -> Result<Option<AnyStored<F::Stored>>, Refusal>
    ensures opened { IfOk result (λ found. IfSome found (λ stored. IsPathOpened (λ path. F.holds files.now (F.real files.now path)) (InputPath.File path.entry) (⟦<AnyStored<F::Stored> as Stored>⟧.content stored))) }
    ensures judged { IfOk result (λ found. IfSome found (λ stored. IsJudgedFor (λ path. F.holds files.now (F.real files.now path)) (InputPath.File path.entry) (stored_reason stored))) }
    ensures told { IfErr result (λ refusal. refusal ≡ Refusal.Open number) }
    ensures shut { OnErr result (MayBeShut (F.shut files.now) (InputPath.File path.entry)) }
{
    match files.open_stored(path) {
        Ok(Some(stored)) => Ok(Some(AnyStored::File(stored))),
        Ok(None) => Ok(None),
        Err(DeviceFault) => Err(Refusal::Open(number)),
    }
}

/// Opens an image and its mapfile, in this order, and judges them, if both are regular files.
fn open_stored_both<F: Files>(
    alloc: Global,
    image: &str,
    map: &str,
    number: usize,
    files: &F,
) -> Result<Option<AnyStored<F::Stored>>, Refusal>
    ensures opened { IfOk result (λ found. IfSome found (λ stored. IsPathOpened (λ path. F.holds files.now (F.real files.now path)) (InputPath.Pair image.entry map.entry) (⟦<AnyStored<F::Stored> as Stored>⟧.content stored))) }
    ensures told { IfErr result (λ refusal. refusal ≢ Refusal.Open number → refusal ≡ Refusal.Memory alloc_error) }
    ensures judged { IfOk result (λ found. IfSome found (λ stored. IsJudgedFor (λ path. F.holds files.now (F.real files.now path)) (InputPath.Pair image.entry map.entry) (stored_reason stored))) }
    ensures why { IfErr result (λ refusal. (refusal ≡ Refusal.Memory alloc_error) ⊎ ((refusal ≡ Refusal.Open number) × MayBeShut (F.shut files.now) (InputPath.Pair image.entry map.entry))) }
{
    let image = match files.open_stored(image) {
        Ok(Some(image)) => image,
        Ok(None) => return Ok(None),
        Err(DeviceFault) => return Err(Refusal::Open(number)),
    };
    let map = match files.open_stored(map) {
        Ok(Some(map)) => map,
        Ok(None) => return Ok(None),
        Err(DeviceFault) => return Err(Refusal::Open(number)),
    };
    match open_stored_pair(alloc, image, &mut Cursor::new(&map)) {
        Ok(pair) => Ok(Some(AnyStored::Paired(pair))),
        Err(PairFault::OutOfMemory) => Err(Refusal::Memory(AllocError)),
        Err(fault) => Ok(Some(AnyStored::Refused(fault))),
    }
}

/// Opens an input, if its own paths are those of regular files.
fn open_one_stored<F: Files>(
    alloc: Global,
    path: InputPath<'_>,
    number: usize,
    files: &F,
) -> Result<Option<AnyStored<F::Stored>>, Refusal>
    ensures opened { IfOk result (λ found. IfSome found (λ stored. IsPathOpened (λ path. F.holds files.now (F.real files.now path)) path.entry (⟦<AnyStored<F::Stored> as Stored>⟧.content stored))) }
    ensures told { IfErr result (λ refusal. refusal ≢ Refusal.Open number → refusal ≡ Refusal.Memory alloc_error) }
    ensures judged { IfOk result (λ found. IfSome found (λ stored. IsJudgedFor (λ path. F.holds files.now (F.real files.now path)) path.entry (stored_reason stored))) }
    ensures why { IfErr result (λ refusal. (refusal ≡ Refusal.Memory alloc_error) ⊎ ((refusal ≡ Refusal.Open number) × MayBeShut (F.shut files.now) path.entry)) }
{
    match path {
        InputPath::File(path) => match open_stored_file(path, number, files) {
            Ok(found) => Ok(found),
            Err(refusal) => Err(refusal),
        },
        InputPath::Pair(image, map) => match open_stored_both(alloc, image, map, number, files) {
            Ok(found) => Ok(found),
            Err(refusal) => Err(refusal),
        },
    }
}

/// Opens all inputs in order, if each of them is a regular file by its own path, or an image and a mapfile that are, or names the first one that
/// cannot be opened. It returns `None` where one is a pipe or a device. An image is opened before its mapfile, which is read at once.
pub fn open_all_stored<F: Files>(
    alloc: Global,
    paths: &[InputPath<'_>],
    files: &F,
) -> Result<Option<Vec<AnyStored<F::Stored>>>, Refusal>
    ensures each { IfOk result (λ found. IfSome found (λ all. vec_len all ≡ length paths.now)) }
    ensures opened { IfOk result (λ found. IfSome found (λ all. Opens (λ path. F.holds files.now (F.real files.now path)) ⟦<AnyStored<F::Stored> as Stored>⟧.content paths.now all.items)) }
    ensures told { IfErr result (λ refusal. (refusal ≢ Refusal.Output) × (refusal ≢ Refusal.Unkept) × (refusal ≢ Refusal.Spared)) }
    ensures named { IfErr result (λ refusal. (input : ℕ) → refusal ≡ Refusal.Open input → (0 < input) × (input ≤ length paths.now)) }
    // The reason why a pair has no reading is one that follows from what its paths lead to.
    ensures judged { IfOk result (λ found. IfSome found (λ all. AreJudgedFor (λ path. F.holds files.now (F.real files.now path)) stored_reason paths.now all.items)) }
    // The first input that cannot be opened is named, or memory ran out.
    ensures blamed { IfErr result (λ refusal. (refusal ≡ Refusal.Memory alloc_error) ⊎ IsShut (F.shut files.now) paths.now refusal) }
{
    files.begin(Stage::Reading);
    let mut all = Vec::new(alloc);
    for (index, path) in paths.iter().enumerate() {
        match open_one_stored(alloc, *path, index + 1, files) {
            Ok(Some(stored)) => match all.push(stored) {
                Ok(()) => {}
                Err(_) => return Err(Refusal::Memory(AllocError)),
            },
            Ok(None) => return Ok(None),
            Err(refusal) => return Err(refusal),
        }
    }
    Ok(Some(all))
}
