//! Where a manifest goes: to a path that no written file has, and over no old file but a manifest or an empty one.

ghost use Rattle.std.specs.Prelude.{◌≡◌, ◌⊎◌, ◌∷◌, ◌++◌, ℕ, List, Some, true, false, IfOk, IfErr, IsErrOf, OnErr, OnOk, codes, map, string_bytes, alloc_error};
ghost use Rattle.udfs_common.specs.Guarding.{MayNotBeSeen};
ghost use Rattle.udfs_host_fs.specs.Disk.{Fails};
ghost use Rattle.udfs_extraction.specs.BarePaths.{bare};
ghost use Rattle.udfs_extraction.specs.Manifests.{IsBeside, IsFreeManifest, IsNear, IsNoManifest, IsSparedManifest};
ghost use Rattle.udfs_extraction.specs.SumLines.{begins_as_sums, begins_by, fits, is_digit};

use crate::bare_paths::bare;
use std::alloc::{AllocError, Global};
use udfs_common::files::Files;
use udfs_common::placing::{begin_so, is_no_input};
use udfs_common::refusal::Refusal;
use udfs_host_fs::{Aim, Kind};
use udfs_reading::{DeviceFault, Source};
use udfs_salvage::choosing::goes_on;

/// Signs for the beginning of a manifest's line: 64 hexadecimal digits and two spaces.
const SUM: &[u8] = b"0000000000000000000000000000000000000000000000000000000000000000  ";

/// The same after the first digit.
const MORE: &[u8] = b"000000000000000000000000000000000000000000000000000000000000000  ";

/// Whether a byte is a hexadecimal digit, of which none is upper case.
fn is_digit(byte: u8) -> bool
    ensures { result ≡ is_digit byte }
{
    (48 <= byte && byte <= 57) || (97 <= byte && byte <= 102)
}

/// Whether a byte matches this sign: `0` matches any hexadecimal digit in lower case, and any other sign itself.
fn fits(sign: u8, byte: u8) -> bool
    ensures { result ≡ fits sign byte }
{
    if sign == b'0' {
        is_digit(byte)
    } else {
        byte == sign
    }
}

/// Whether what a source has left begins with bytes that match these signs. It reads one at a time, and no more than it needs.
fn begins_by<R: Source>(source: &mut R, signs: &[u8]) -> Result<bool, DeviceFault>
    ensures begins { IfOk result (λ so. (bytes : List ℕ) → R.remaining source.old ≡ Some bytes → so ≡ begins_by signs.now bytes) }
    ensures fault { OnErr result (Fails R.faults) }
{
    match signs {
        [] => Ok(true),
        [first, rest @ ..] => {
            let mut byte = [0u8; 1];
            match source.read(&mut byte) {
                Ok(0) => Ok(false),
                Ok(_) if !fits(*first, byte[0]) => Ok(false),
                Ok(_) => begins_by(source, rest),
                Err(fault) => Err(fault),
            }
        }
    }
}

/// Whether this byte, followed by what a source has left, begins as a manifest's line does.
fn begins_behind<R: Source>(first: u8, source: &mut R) -> Result<bool, DeviceFault>
    ensures begins { IfOk result (λ so. (rest : List ℕ) → R.remaining source.old ≡ Some rest → so ≡ begins_as_sums (first ∷ rest)) }
    ensures fault { OnErr result (Fails R.faults) }
{
    if first == b'\\' {
        return begins_by(source, SUM);
    }
    if !is_digit(first) {
        return Ok(false);
    }
    begins_by(source, MORE)
}

/// Whether what a source has left begins as a manifest does, or is nothing at all.
fn begins_as_sums<R: Source>(source: &mut R) -> Result<bool, DeviceFault>
    ensures begins { IfOk result (λ so. (bytes : List ℕ) → R.remaining source.old ≡ Some bytes → so ≡ begins_as_sums bytes) }
    ensures fault { OnErr result (Fails R.faults) }
{
    let mut byte = [0u8; 1];
    match source.read(&mut byte) {
        Ok(0) => Ok(true),
        Ok(_) => begins_behind(byte[0], source),
        Err(fault) => Err(fault),
    }
}

/// Whether the file at a path begins as a manifest does, or is empty.
fn is_manifest<F: Files>(path: &str, files: &F) -> Result<bool, DeviceFault>
    ensures yes { IfOk result (λ so. so ≡ true → (bytes : List ℕ) → F.holds files.now (F.real files.now path.now) ≡ Some (Some bytes) → begins_as_sums bytes ≡ true) }
    ensures no { IfOk result (λ so. so ≡ false → IsNoManifest (F.holds files.now (F.real files.now path.now))) }
    ensures fault { OnErr result (F.shut files.now path.now ⊎ Fails F.Input.faults) }
{
    match files.open(path) {
        Ok(mut file) => match begins_as_sums(&mut file) {
            Ok(so) => Ok(so),
            Err(fault) => Err(fault),
        },
        Err(fault) => Err(fault),
    }
}

/// What the names of new files begin with that are to go to a place.
fn own_name(alloc: Global, place: &str) -> Result<String, AllocError>
    ensures { IfOk result (λ name. string_bytes name ≡ place.now ++ codes ".unfinished") }
{
    let mut name = String::from_str(alloc, place)?;
    name.push_str(".unfinished")?;
    Ok(name)
}

/// That no path in a folder is this place, nor may be that of a new file that is to go there.
fn is_beside(alloc: Global, folder: &str, place: &str) -> Result<bool, AllocError>
    ensures beside { IfOk result (λ so. so ≡ true → IsBeside folder.now place.now) }
    ensures near { IfOk result (λ so. so ≡ false → IsNear folder.now place.now (place.now ++ codes ".unfinished")) }
{
    if folder == place {
        return Ok(false);
    }
    if goes_on(folder, place) {
        return Ok(false);
    }
    let own = own_name(alloc, place)?;
    if goes_on(folder, own.as_str()) {
        return Ok(false);
    }
    Ok(!begin_so(folder.as_bytes(), own.as_bytes()))
}

/// That no path in a folder that is to be made, every link followed, is this place, nor may be that of a new file that is to go there. A folder whose path leads nowhere
/// can not be made.
fn is_away<F: Files>(alloc: Global, folder: &str, place: &str, files: &F) -> Result<(), Refusal>
    ensures away { OnOk result (F.tells → IsBeside (F.real files.now (bare folder.now)) place.now) }
    ensures told { IfErr result (λ refusal. (refusal ≡ Refusal.Folder) ⊎ (refusal ≡ Refusal.Spared) ⊎ (refusal ≡ Refusal.Memory alloc_error)) }
    ensures near { IsErrOf result Refusal.Spared → F.tells → IsNear (F.real files.now (bare folder.now)) place.now (place.now ++ codes ".unfinished") }
    ensures cause { IsErrOf result Refusal.Folder → F.shut files.now (bare folder.now) }
{
    let target = match files.resolve(alloc, bare(folder), Aim::Writing) {
        Ok(Ok(target)) => target,
        Ok(Err(DeviceFault)) => return Err(Refusal::Folder),
        Err(AllocError) => return Err(Refusal::Memory(AllocError)),
    };
    match is_beside(alloc, target.path.as_str(), place) {
        Ok(true) => Ok(()),
        Ok(false) => Err(Refusal::Spared),
        Err(AllocError) => Err(Refusal::Memory(AllocError)),
    }
}

/// That a place comes into the way of nothing in a folder that is to be made, neither by the paths as they are given nor by where they lead.
fn is_out_of_the_way<F: Files>(
    alloc: Global,
    folder: &str,
    place: &str,
    files: &F,
) -> Result<(), Refusal>
    ensures beside { OnOk result (IsBeside folder.now place.now) }
    ensures away { OnOk result (F.tells → IsBeside (F.real files.now (bare folder.now)) place.now) }
    ensures told { IfErr result (λ refusal. (refusal ≡ Refusal.Folder) ⊎ (refusal ≡ Refusal.Spared) ⊎ (refusal ≡ Refusal.Memory alloc_error)) }
    ensures near { IsErrOf result Refusal.Spared → F.tells → IsNear folder.now place.now (place.now ++ codes ".unfinished") ⊎
        IsNear (F.real files.now (bare folder.now)) place.now (place.now ++ codes ".unfinished") }
    ensures cause { IsErrOf result Refusal.Folder → F.shut files.now (bare folder.now) }
{
    match is_beside(alloc, folder, place) {
        Ok(true) => {}
        Ok(false) => return Err(Refusal::Spared),
        Err(AllocError) => return Err(Refusal::Memory(AllocError)),
    }
    match is_away(alloc, folder, place, files) {
        Ok(()) => Ok(()),
        Err(refusal) => Err(refusal),
    }
}

/// Where a manifest goes, every link followed: to a path that nothing has, or over a file that begins as a manifest does. It is spared where something else is there, or
/// one of the inputs, and where it might come into the folder's way. `inputs` are the inputs that are files, and `parts` the images and mapfiles among the inputs.
///
/// # Errors
///
/// `Spared` where it is; `Output` where what is there could not be looked at, `Folder` where the folder's path leads nowhere, and `Memory` where memory runs out.
pub fn find_manifest<F: Files>(
    alloc: Global,
    inputs: &[&str],
    parts: &[&str],
    folder: &str,
    out: &str,
    files: &F,
) -> Result<String, Refusal>
    ensures leads { IfOk result (λ place. F.tells → string_bytes place ≡ F.real files.now out.now) }
    ensures free { IfOk result (λ place. F.tells → IsFreeManifest F.Files files.now (map (λ path. path.now) inputs.now) (map (λ path. path.now) parts.now) folder.now out.now) }
    ensures told { IfErr result (λ refusal. (refusal ≡ Refusal.Output) ⊎ (refusal ≡ Refusal.Spared) ⊎ (refusal ≡ Refusal.Folder) ⊎ (refusal ≡ Refusal.Memory alloc_error)) }
    ensures spared { IsErrOf result Refusal.Spared → F.tells → IsSparedManifest F.Files files.now (map (λ path. path.now) inputs.now) (map (λ path. path.now) parts.now) folder.now out.now }
    ensures cause { IsErrOf result Refusal.Output → MayNotBeSeen (F.shut files.now) (Fails F.Input.faults) (map (λ path. path.now) inputs.now) (map (λ path. path.now) parts.now) out.now }
    ensures unmade { IsErrOf result Refusal.Folder → F.shut files.now (bare folder.now) }
{
    let target = match files.resolve(alloc, out, Aim::Writing) {
        Ok(Ok(target)) => target,
        Ok(Err(DeviceFault)) => return Err(Refusal::Output),
        Err(AllocError) => return Err(Refusal::Memory(AllocError)),
    };
    match is_no_input(alloc, inputs, parts, &target, files) {
        Ok(()) => {}
        Err(refusal) => return Err(refusal),
    }
    match is_out_of_the_way(alloc, folder, target.path.as_str(), files) {
        Ok(()) => {}
        Err(refusal) => return Err(refusal),
    }
    match target.kind {
        Kind::Absent => Ok(target.path),
        Kind::Regular => match is_manifest(out, files) {
            Ok(true) => Ok(target.path),
            Ok(false) => Err(Refusal::Spared),
            Err(DeviceFault) => Err(Refusal::Output),
        },
        Kind::Other => Err(Refusal::Spared),
    }
}
