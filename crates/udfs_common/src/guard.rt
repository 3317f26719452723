//! What an output may not take the place of: a pass can not be had again.

ghost use Rattle.std.specs.Prelude.{◌≡◌, ◌≢◌, ◌⊎◌, ℕ, List, [], true, false, Some, IfOk, OnErr, map, string_bytes};
ghost use Rattle.udfs_host_fs.specs.Disk.{Fails};
ghost use Rattle.udfs_host_fs.specs.Identities.{HaveOne};
ghost use Rattle.udfs_common.specs.Guarding.{AreOne, AreTwo, BeginsOtherwise, IsFree, IsFreeMap, IsFreeOwn, IsSpared, IsSparedMap, IsSparedOwn, IsTable, MayBegin, MayNotBeSeen, NoneLeads, OfFollowed, SomeLeads, SomeShut, begins};

use crate::files::Files;
use std::alloc::{AllocError, Global};
use udfs_host_fs::{Aim, Identity, Kind, Target};
use udfs_reading::{DeviceFault, Source};

/// The bytes with which a table file begins, in either version.
const TABLE: &[u8] = b"UDFTABL";

/// The beginning of a map of blocks to read again: its first line, and the mark that no pass's mapfile has.
const DOMAIN: &[u8] =
    b"# Mapfile. Created by udfsalvage 0.1.0\n# Blocks to read again, for ddrescue -m: not the mapfile of a pass\n";

/// Whether what a source has left begins with these bytes. It reads one at a time, and no more than it needs.
fn begins_so<R: Source>(source: &mut R, kind: &[u8]) -> Result<bool, DeviceFault>
    ensures begins { IfOk result (λ so. (bytes : List ℕ) → R.remaining source.old ≡ Some bytes → so ≡ begins kind.now bytes) }
    ensures fault { OnErr result (Fails R.faults) }
{
    match kind {
        [] => Ok(true),
        [first, rest @ ..] => {
            let mut byte = [0u8; 1];
            match source.read(&mut byte) {
                Ok(0) => Ok(false),
                Ok(_) if byte[0] != *first => Ok(false),
                Ok(_) => begins_so(source, rest),
                Err(fault) => Err(fault),
            }
        }
    }
}

/// Whether a source has nothing left. It reads a byte where it has.
fn has_ended<R: Source>(source: &mut R) -> Result<bool, DeviceFault>
    ensures yes { IfOk result (λ so. so ≡ true → (bytes : List ℕ) → R.remaining source.old ≡ Some bytes → bytes ≡ []) }
    ensures no { IfOk result (λ so. so ≡ false → (bytes : List ℕ) → R.remaining source.old ≡ Some bytes → bytes ≢ []) }
    ensures fault { OnErr result (Fails R.faults) }
{
    let mut byte = [0u8; 1];
    match source.read(&mut byte) {
        Ok(read) => Ok(read == 0),
        Err(fault) => Err(fault),
    }
}

/// Whether the file at a path begins with these bytes.
pub fn is_kind<F: Files>(path: &str, kind: &[u8], files: &F) -> Result<bool, DeviceFault>
    ensures yes { IfOk result (λ so. so ≡ true → MayBegin kind.now (F.holds files.now (F.real files.now path.now))) }
    ensures no { IfOk result (λ so. so ≡ false → BeginsOtherwise kind.now (F.holds files.now (F.real files.now path.now))) }
    ensures fault { OnErr result (F.shut files.now path.now ⊎ Fails F.Input.faults) }
{
    match files.open(path) {
        Ok(mut file) => match begins_so(&mut file, kind) {
            Ok(so) => Ok(so),
            Err(fault) => Err(fault),
        },
        Err(fault) => Err(fault),
    }
}

/// Whether the file at a path has no bytes.
fn is_empty<F: Files>(path: &str, files: &F) -> Result<bool, DeviceFault>
    ensures yes { IfOk result (λ so. so ≡ true → (bytes : List ℕ) → F.holds files.now (F.real files.now path.now) ≡ Some (Some bytes) → bytes ≡ []) }
    ensures no { IfOk result (λ so. so ≡ false → (bytes : List ℕ) → F.holds files.now (F.real files.now path.now) ≡ Some (Some bytes) → bytes ≢ []) }
    ensures fault { OnErr result (F.shut files.now path.now ⊎ Fails F.Input.faults) }
{
    match files.open(path) {
        Ok(mut file) => match has_ended(&mut file) {
            Ok(so) => Ok(so),
            Err(fault) => Err(fault),
        },
        Err(fault) => Err(fault),
    }
}

/// Whether the file at a path is a table file, of either version, or has no bytes.
fn is_table<F: Files>(path: &str, files: &F) -> Result<bool, DeviceFault>
    ensures yes { IfOk result (λ so. so ≡ true → (bytes : List ℕ) → F.holds files.now (F.real files.now path.now) ≡ Some (Some bytes) → IsTable bytes) }
    ensures no { IfOk result (λ so. so ≡ false → (bytes : List ℕ) → F.holds files.now (F.real files.now path.now) ≡ Some (Some bytes) → ¬ IsTable bytes) }
    ensures fault { OnErr result (F.shut files.now path.now ⊎ Fails F.Input.faults) }
{
    match is_kind(path, TABLE, files) {
        Ok(true) => Ok(true),
        Ok(false) => is_empty(path, files),
        Err(fault) => Err(fault),
    }
}

/// Whether both are known, and are the same.
fn is_one_file(one: Option<Identity>, other: Option<Identity>) -> bool
    ensures yes { result ≡ true → HaveOne one other }
    ensures no { result ≡ false → ¬ HaveOne one other }
{
    match (one, other) {
        (Some(one), Some(other)) => one.device == other.device && one.inode == other.inode,
        _ => false,
    }
}

/// Whether two paths that were followed lead to one file: to one place, as by links, or to two names of a file, as on a disk that does not tell upper case from
/// lower, or where a disk is seen at two places.
pub fn are_one(one: &Target, other: &Target) -> bool
    ensures yes { result ≡ true → (string_bytes one.now.path ≡ string_bytes other.now.path) ⊎ HaveOne one.now.identity other.now.identity }
    ensures no { result ≡ false → (string_bytes one.now.path ≢ string_bytes other.now.path) × (¬ HaveOne one.now.identity other.now.identity) }
{
    if one.path.as_str() == other.path.as_str() {
        return true;
    }
    is_one_file(one.identity, other.identity)
}

/// Whether a path leads to the file that another leads to, which was followed to this target. A path that could not be followed is a fault: it may lead there.
fn leads_to<F: Files>(
    alloc: Global,
    path: &str,
    target: &Target,
    files: &F,
) -> Result<Result<bool, DeviceFault>, AllocError>
    ensures yes { IfOk result (λ found. IfOk found (λ leads. leads ≡ true → F.tells → OfFollowed F.Files files.now target.now (λ to. AreOne F.Files files.now path.now to))) }
    ensures no { IfOk result (λ found. IfOk found (λ leads. leads ≡ false → F.tells → OfFollowed F.Files files.now target.now (λ to. AreTwo F.Files files.now path.now to))) }
    ensures fault { IfOk result (λ found. OnErr found (F.shut files.now path.now)) }
{
    match files.resolve(alloc, path, Aim::Reading)? {
        Ok(found) => Ok(Ok(are_one(&found, target))),
        Err(DeviceFault) => Ok(Err(DeviceFault)),
    }
}

/// Whether one of these paths leads to the file that another leads to, which was followed to this target; or a fault, where one before it could not be followed.
pub fn is_among<F: Files>(
    alloc: Global,
    paths: &[&str],
    target: &Target,
    files: &F,
) -> Result<Result<bool, DeviceFault>, AllocError>
    ensures yes { IfOk result (λ found. IfOk found (λ leads. leads ≡ true → F.tells → OfFollowed F.Files files.now target.now (λ to. SomeLeads F.Files files.now to (map (λ path. path.now) paths.now)))) }
    ensures no { IfOk result (λ found. IfOk found (λ leads. leads ≡ false → F.tells → OfFollowed F.Files files.now target.now (λ to. NoneLeads F.Files files.now to (map (λ path. path.now) paths.now)))) }
    ensures fault { IfOk result (λ found. OnErr found (SomeShut (F.shut files.now) (map (λ path. path.now) paths.now))) }
{
    match paths {
        [] => Ok(Ok(false)),
        [first, rest @ ..] => {
            match leads_to(alloc, first, target, files)? {
                Ok(false) => {}
                Ok(true) => return Ok(Ok(true)),
                Err(DeviceFault) => return Ok(Err(DeviceFault)),
            }
            match is_among(alloc, rest, target, files) {
                Ok(found) => Ok(found),
                Err(AllocError) => Err(AllocError),
            }
        }
    }
}

/// What is known of an output before an input is read.
#[derive(Clone, Copy, PartialEq, Eq)]
pub enum Outlook {
    /// It may be written.
    Free,
    /// What is there is not to be written over.
    Spared,
    /// Its path leads nowhere, what is there could not be read, or a path of an input could not be followed.
    Unknown,
}

/// What is known of an output: it is spared where it is an image or a mapfile of the inputs, and without `force` also where it is a file with bytes that is no
/// table file and is not one of the inputs that are files: a mistyped path must not cost a pass.
pub fn look_at<F: Files>(
    alloc: Global,
    inputs: &[&str],
    parts: &[&str],
    force: bool,
    out: &str,
    files: &F,
) -> Result<Outlook, AllocError>
    ensures free { IfOk result (λ found. found ≡ Outlook.Free → F.tells → IsFree F.Files files.now (map (λ path. path.now) inputs.now) (map (λ path. path.now) parts.now) force out.now) }
    ensures spared { IfOk result (λ found. found ≡ Outlook.Spared → F.tells → IsSpared F.Files files.now (map (λ path. path.now) inputs.now) (map (λ path. path.now) parts.now) force out.now) }
    ensures unknown { IfOk result (λ found. found ≡ Outlook.Unknown → F.shut files.now out.now ⊎ SomeShut (F.shut files.now) (map (λ path. path.now) parts.now) ⊎ SomeShut (F.shut files.now) (map (λ path. path.now) inputs.now) ⊎ Fails F.Input.faults) }
{
    let Ok(target) = files.resolve(alloc, out, Aim::Writing)? else {
        return Ok(Outlook::Unknown);
    };
    match is_among(alloc, parts, &target, files)? {
        Ok(false) => {}
        Ok(true) => return Ok(Outlook::Spared),
        Err(DeviceFault) => return Ok(Outlook::Unknown),
    }
    if force || target.kind != Kind::Regular {
        return Ok(Outlook::Free);
    }
    match is_among(alloc, inputs, &target, files)? {
        Ok(false) => {}
        Ok(true) => return Ok(Outlook::Free),
        Err(DeviceFault) => return Ok(Outlook::Unknown),
    }
    match is_table(out, files) {
        Ok(true) => Ok(Outlook::Free),
        Ok(false) => Ok(Outlook::Spared),
        Err(DeviceFault) => Ok(Outlook::Unknown),
    }
}

/// What is known of an output that takes the place of its own kind of file alone: it is spared where it is one of the inputs, whose files are `inputs` and whose images and
/// mapfiles are `parts`, or where what is there is a file that begins otherwise than with `kind`.
pub fn look_at_own<F: Files>(
    alloc: Global,
    inputs: &[&str],
    parts: &[&str],
    kind: &[u8],
    out: &str,
    files: &F,
) -> Result<Outlook, AllocError>
    ensures free { IfOk result (λ found. found ≡ Outlook.Free → F.tells → IsFreeOwn kind.now F.Files files.now (map (λ path. path.now) inputs.now) (map (λ path. path.now) parts.now) out.now) }
    ensures spared { IfOk result (λ found. found ≡ Outlook.Spared → F.tells → IsSparedOwn kind.now F.Files files.now (map (λ path. path.now) inputs.now) (map (λ path. path.now) parts.now) out.now) }
    ensures unknown { IfOk result (λ found. found ≡ Outlook.Unknown → MayNotBeSeen (F.shut files.now) (Fails F.Input.faults) (map (λ path. path.now) inputs.now) (map (λ path. path.now) parts.now) out.now) }
{
    let Ok(place) = files.resolve(alloc, out, Aim::Writing)? else {
        return Ok(Outlook::Unknown);
    };
    match is_among(alloc, inputs, &place, files)? {
        Ok(false) => {}
        Ok(true) => return Ok(Outlook::Spared),
        Err(DeviceFault) => return Ok(Outlook::Unknown),
    }
    match is_among(alloc, parts, &place, files)? {
        Ok(false) => {}
        Ok(true) => return Ok(Outlook::Spared),
        Err(DeviceFault) => return Ok(Outlook::Unknown),
    }
    match place.kind {
        Kind::Absent | Kind::Other => Ok(Outlook::Free),
        Kind::Regular => match is_kind(out, kind, files) {
            Ok(true) => Ok(Outlook::Free),
            Ok(false) => Ok(Outlook::Spared),
            Err(DeviceFault) => Ok(Outlook::Unknown),
        },
    }
}

/// What is known of a map of blocks to read again that is to be written: it is spared where it is an image or a mapfile of the inputs, or where what is there is
/// a file and begins as no such map does, as the mapfile of a pass.
pub fn look_at_map<F: Files>(
    alloc: Global,
    parts: &[&str],
    out: &str,
    files: &F,
) -> Result<Outlook, AllocError>
    ensures free { IfOk result (λ found. found ≡ Outlook.Free → F.tells → IsFreeMap F.Files files.now (map (λ path. path.now) parts.now) out.now) }
    ensures spared { IfOk result (λ found. found ≡ Outlook.Spared → F.tells → IsSparedMap F.Files files.now (map (λ path. path.now) parts.now) out.now) }
    ensures unknown { IfOk result (λ found. found ≡ Outlook.Unknown → MayNotBeSeen (F.shut files.now) (Fails F.Input.faults) [] (map (λ path. path.now) parts.now) out.now) }
{
    let found = look_at_own(alloc, &[], parts, DOMAIN, out, files)?;
    Ok(found)
}
