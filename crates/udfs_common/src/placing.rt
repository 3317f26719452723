//! Where an image and its mapfile go: two paths, neither in the other's way, that take the place of nothing that is to stay.

ghost use Rattle.std.specs.Prelude.{◌≡◌, ◌≢◌, ◌⊎◌, ◌++◌, ◌≤◌, ℕ, List, true, false, Some, None, IfOk, IfErr, OnOk, IsErrOf, length, map, string_bytes, alloc_error};
ghost use Rattle.udfs_host_fs.specs.Disk.{Fails, IsOwn};
ghost use Rattle.udfs_host_fs.specs.Identities.{HaveOne, IsFileOf};
ghost use Rattle.udfs_host_fs.specs.declared.files.Kind.{Kind};
ghost use Rattle.udfs_common.specs.Guarding.{AreInTheWay, AreTwo, HaveNoPlace, NoneLeads, IsApart, IsFreePair, IsSparedPair, OfFollowed, SomeLeads, SomeShut};

use crate::files::Files;
use crate::guard::{are_one, is_among};
use crate::refusal::Refusal;
use std::alloc::{AllocError, Global};
use udfs_host_fs::{Aim, Kind, Target};
use udfs_reading::DeviceFault;

/// Where an image and its mapfile go, every link followed.
#[derive(Drop)]
pub struct Places {
    /// Where the image goes.
    pub image: Target,
    /// Where the mapfile goes.
    pub mapfile: Target,
}

/// Whether `bytes` starts with `front`.
pub fn begin_so(bytes: &[u8], front: &[u8]) -> bool
    ensures yes { result ≡ true → length front.now ≤ length bytes.now }
    ensures so { result ≡ true → (more : List ℕ) × (bytes.now ≡ front.now ++ more) }
    ensures no { result ≡ false → (more : List ℕ) → bytes.now ≢ front.now ++ more }
{
    bytes.len() >= front.len() && &bytes[..front.len()] == front
}

/// Whether `name` may be the path of a new file that is to go in the place of the one at `path`: whether it starts with `path` followed by `.unfinished`.
fn is_own(path: &str, name: &str) -> bool
    ensures yes { result ≡ true → IsOwn path.now name.now }
    ensures no { result ≡ false → ¬ IsOwn path.now name.now }
{
    let path = path.as_bytes();
    let name = name.as_bytes();
    begin_so(name, path) && begin_so(&name[path.len()..], b".unfinished")
}

/// Whether two places are those of two files, and neither is that of a new file for the other.
fn is_apart(image: &Target, mapfile: &Target) -> bool
    ensures yes { result ≡ true → IsApart (string_bytes image.now.path) (string_bytes mapfile.now.path) }
    ensures two { result ≡ true → ¬ HaveOne image.now.identity mapfile.now.identity }
    ensures no { result ≡ false → AreInTheWay (string_bytes image.now.path) (string_bytes mapfile.now.path) ⊎ HaveOne image.now.identity mapfile.now.identity }
{
    if are_one(image, mapfile) {
        return false;
    }
    let image = image.path.as_str();
    let mapfile = mapfile.path.as_str();
    !is_own(image, mapfile) && !is_own(mapfile, image)
}

/// Where an output goes. Something that is there stays, but a file by force.
fn place<F: Files>(alloc: Global, out: &str, force: bool, files: &F) -> Result<Target, Refusal>
    ensures leads { IfOk result (λ target. F.tells → string_bytes target.path ≡ F.real files.now out.now) }
    ensures same { IfOk result (λ target. F.tells → IsFileOf (F.identity files.now (F.real files.now out.now)) (F.in_place files.now out.now) target.identity) }
    ensures absent { IfOk result (λ target. target.kind ≡ Kind.Absent → F.tells → F.holds files.now (F.real files.now out.now) ≡ Some None) }
    ensures free { OnOk result (force ≡ false → F.tells → F.holds files.now (F.real files.now out.now) ≡ Some None) }
    ensures told { IfErr result (λ refusal. (refusal ≡ Refusal.Output) ⊎ (refusal ≡ Refusal.Spared) ⊎ (refusal ≡ Refusal.Memory alloc_error)) }
    ensures cause { IsErrOf result Refusal.Output → F.shut files.now out.now }
    ensures spared { IsErrOf result Refusal.Spared → F.in_place files.now out.now ⊎ (force ≡ false) }
{
    let target = match files.resolve(alloc, out, Aim::Writing) {
        Ok(Ok(target)) => target,
        Ok(Err(DeviceFault)) => return Err(Refusal::Output),
        Err(AllocError) => return Err(Refusal::Memory(AllocError)),
    };
    match target.kind {
        Kind::Absent => Ok(target),
        Kind::Regular if force => Ok(target),
        Kind::Regular | Kind::Other => Err(Refusal::Spared),
    }
}

/// Where an image and its mapfile go. Something that is there stays, but files by force.
pub fn find_places<F: Files>(
    alloc: Global,
    image: &str,
    mapfile: &str,
    force: bool,
    files: &F,
) -> Result<Places, Refusal>
    ensures image { IfOk result (λ places. F.tells → string_bytes places.image.path ≡ F.real files.now image.now) }
    ensures mapfile { IfOk result (λ places. F.tells → string_bytes places.mapfile.path ≡ F.real files.now mapfile.now) }
    ensures image_same { IfOk result (λ places. F.tells → IsFileOf (F.identity files.now (F.real files.now image.now)) (F.in_place files.now image.now) places.image.identity) }
    ensures mapfile_same { IfOk result (λ places. F.tells → IsFileOf (F.identity files.now (F.real files.now mapfile.now)) (F.in_place files.now mapfile.now) places.mapfile.identity) }
    ensures apart { IfOk result (λ places. IsApart (string_bytes places.image.path) (string_bytes places.mapfile.path)) }
    ensures two { OnOk result (F.tells → AreTwo F.Files files.now image.now mapfile.now) }
    ensures absent { IfOk result (λ places. places.mapfile.kind ≡ Kind.Absent → F.tells → F.holds files.now (string_bytes places.mapfile.path) ≡ Some None) }
    ensures no_image { OnOk result (force ≡ false → F.tells → F.holds files.now (F.real files.now image.now) ≡ Some None) }
    ensures no_mapfile { OnOk result (force ≡ false → F.tells → F.holds files.now (F.real files.now mapfile.now) ≡ Some None) }
    ensures told { IfErr result (λ refusal. (refusal ≡ Refusal.Output) ⊎ (refusal ≡ Refusal.Spared) ⊎ (refusal ≡ Refusal.Memory alloc_error)) }
    ensures cause { IsErrOf result Refusal.Output → F.shut files.now image.now ⊎ F.shut files.now mapfile.now }
    ensures spared { IsErrOf result Refusal.Spared → F.tells → HaveNoPlace F.Files files.now force image.now mapfile.now }
{
    let image = match place(alloc, image, force, files) {
        Ok(target) => target,
        Err(refusal) => return Err(refusal),
    };
    let mapfile = match place(alloc, mapfile, force, files) {
        Ok(target) => target,
        Err(refusal) => return Err(refusal),
    };
    if !is_apart(&image, &mapfile) {
        return Err(Refusal::Spared);
    }
    Ok(Places { image, mapfile })
}

/// That none of these paths leads to the file that another leads to, which was followed to this target.
fn none_leads<F: Files>(
    alloc: Global,
    paths: &[&str],
    target: &Target,
    files: &F,
) -> Result<(), Refusal>
    ensures none { OnOk result (F.tells → OfFollowed F.Files files.now target.now (λ to. NoneLeads F.Files files.now to (map (λ path. path.now) paths.now))) }
    ensures some { IsErrOf result Refusal.Spared → F.tells → OfFollowed F.Files files.now target.now (λ to. SomeLeads F.Files files.now to (map (λ path. path.now) paths.now)) }
    ensures told { IfErr result (λ refusal. (refusal ≡ Refusal.Output) ⊎ (refusal ≡ Refusal.Spared) ⊎ (refusal ≡ Refusal.Memory alloc_error)) }
    ensures cause { IsErrOf result Refusal.Output → SomeShut (F.shut files.now) (map (λ path. path.now) paths.now) }
{
    match is_among(alloc, paths, target, files) {
        Ok(Ok(false)) => Ok(()),
        Ok(Ok(true)) => Err(Refusal::Spared),
        Ok(Err(DeviceFault)) => Err(Refusal::Output),
        Err(AllocError) => Err(Refusal::Memory(AllocError)),
    }
}

/// That no input leads to the file that another path leads to, which was followed to this target: neither a file, nor an image or a mapfile.
pub fn is_no_input<F: Files>(
    alloc: Global,
    inputs: &[&str],
    parts: &[&str],
    target: &Target,
    files: &F,
) -> Result<(), Refusal>
    ensures inputs { OnOk result (F.tells → OfFollowed F.Files files.now target.now (λ to. NoneLeads F.Files files.now to (map (λ path. path.now) inputs.now))) }
    ensures parts { OnOk result (F.tells → OfFollowed F.Files files.now target.now (λ to. NoneLeads F.Files files.now to (map (λ path. path.now) parts.now))) }
    ensures some { IsErrOf result Refusal.Spared → F.tells → OfFollowed F.Files files.now target.now (λ to. SomeLeads F.Files files.now to (map (λ path. path.now) parts.now) ⊎ SomeLeads F.Files files.now to (map (λ path. path.now) inputs.now)) }
    ensures told { IfErr result (λ refusal. (refusal ≡ Refusal.Output) ⊎ (refusal ≡ Refusal.Spared) ⊎ (refusal ≡ Refusal.Memory alloc_error)) }
    ensures cause { IsErrOf result Refusal.Output → SomeShut (F.shut files.now) (map (λ path. path.now) parts.now) ⊎ SomeShut (F.shut files.now) (map (λ path. path.now) inputs.now) }
{
    match none_leads(alloc, parts, target, files) {
        Ok(()) => {}
        Err(refusal) => return Err(refusal),
    }
    match none_leads(alloc, inputs, target, files) {
        Ok(()) => Ok(()),
        Err(refusal) => Err(refusal),
    }
}

/// That an image and its mapfile take the place of nothing that is to stay: of no input, and without force of nothing at all. `inputs` are the inputs that are
/// files, and `parts` the images and mapfiles among the inputs.
pub fn look_at_both<F: Files>(
    alloc: Global,
    inputs: &[&str],
    parts: &[&str],
    image: &str,
    mapfile: &str,
    force: bool,
    files: &F,
) -> Result<(), Refusal>
    ensures free { OnOk result (F.tells → IsFreePair F.Files files.now (map (λ path. path.now) inputs.now) (map (λ path. path.now) parts.now) force image.now mapfile.now) }
    ensures spared { IsErrOf result Refusal.Spared → F.tells → IsSparedPair F.Files files.now (map (λ path. path.now) inputs.now) (map (λ path. path.now) parts.now) force image.now mapfile.now }
    ensures told { IfErr result (λ refusal. (refusal ≡ Refusal.Output) ⊎ (refusal ≡ Refusal.Spared) ⊎ (refusal ≡ Refusal.Memory alloc_error)) }
    ensures cause { IsErrOf result Refusal.Output → F.shut files.now image.now ⊎ F.shut files.now mapfile.now ⊎ SomeShut (F.shut files.now) (map (λ path. path.now) parts.now) ⊎ SomeShut (F.shut files.now) (map (λ path. path.now) inputs.now) }
{
    let places = match find_places(alloc, image, mapfile, force, files) {
        Ok(places) => places,
        Err(refusal) => return Err(refusal),
    };
    match is_no_input(alloc, inputs, parts, &places.image, files) {
        Ok(()) => {}
        Err(refusal) => return Err(refusal),
    }
    match is_no_input(alloc, inputs, parts, &places.mapfile, files) {
        Ok(()) => Ok(()),
        Err(refusal) => Err(refusal),
    }
}
