//! An image and its mapfile are put at two paths, so that at no moment a mapfile is beside an image that lacks what it lists.

ghost use Rattle.std.specs.Prelude.{◌≡◌, ◌≢◌, ◌⊎◌, ◌≤◌, ℕ, List, Some, None, IfErr, OnOk, OnErr};
ghost use Rattle.std.specs.Io.KnownBytes.{Appends};
ghost use Rattle.udfs_host_fs.specs.Disk.{Disk, Fails, SinkFails, Goes, Gone, IsOwn, Replaced};
ghost use Rattle.udfs_host_fs.specs.declared.files.Kind.{Kind};
ghost use Rattle.udfs_tables.specs.Pairing.{AreKept, GoesPair, IsGone, IsUnmade};
ghost use Rattle.udfs_common.specs.Guarding.{IsApart};
ghost use Rattle.udfs_common.specs.Keeping.{IsKept};
ghost use Rattle.udfs_common.specs.Refusing.{IsUnput};
ghost use Rattle.udfs_lattice.specs.Tables.{Table};
ghost use Rattle.udfs_rescue.specs.Images.{image_bytes};

use crate::imaged::Imaged;
use std::alloc::{AllocError, Global};
use udfs_common::files::Files;
use udfs_common::refusal::Refusal;
use udfs_host_fs::{Content, Job, JobError, Kind, ReplaceError, replace, replace_by_job};
use udfs_reading::{DeviceFault, Sink};

/// What an image is written of, up to a last block.
#[derive(Drop)]
pub struct ImageOf<'i, T: Imaged> {
    pub of: &'i T,
    pub last: u32,
    ghost in_range: { last ≤ 4194303 },
}

impl<'i, T: Imaged> Job for ImageOf<'i, T> {
    type Refusal = T::Fault;

    ghost wrote = { λ image old new. (t : Table) → T.shows image.of.now t → Appends old new (image_bytes t image.last) };

    ghost blames_sink = { λ image fault. T.blames image.of.now fault };

    fn write_to<W: Sink>(&self, sink: &mut W) -> Result<(), T::Fault> {
        self.of.write_image_to(self.last, sink)
    }
}

/// Removes an old mapfile, where there is one.
#[tactic(auto, using(crate::proofs::ImagingLemmas::goes_nowhere))]
fn remove_old<F: Files>(files: &mut F, mapfile: &str, kind: Kind) -> Result<(), Refusal>
    requires absent { kind ≡ Kind.Absent → F.tells → F.holds files.old mapfile.now ≡ Some None }
    ensures gone { OnOk result (F.tells → F.holds files.new mapfile.now ≡ Some None) }
    ensures failed { OnErr result ((q : List ℕ) → F.holds files.new q ≡ F.holds files.old q) }
    ensures others { (q : List ℕ) → q ≢ mapfile.now → F.holds files.new q ≡ F.holds files.old q }
    ensures why { IfErr result (λ refusal. (refusal ≡ Refusal.Output) × Fails F.faults) }
    ensures crash { Goes F.moment F.may_leave F.left_since files.old files.new (Gone mapfile.now) }
{
    if kind == Kind::Absent {
        return Ok(());
    }
    match files.remove(mapfile) {
        Ok(()) => Ok(()),
        Err(DeviceFault) => Err(Refusal::Output),
    }
}

/// Removes an old mapfile, and syncs its folder: from now on no crash brings one back.
fn clear<F: Files>(files: &mut F, mapfile: &str, kind: Kind) -> Result<(), Refusal>
    requires absent { kind ≡ Kind.Absent → F.tells → F.holds files.old mapfile.now ≡ Some None }
    ensures gone { OnOk result (IsGone F.Files mapfile.now files.new) }
    ensures either { F.tells → (F.holds files.new mapfile.now ≡ F.holds files.old mapfile.now) ⊎ (F.holds files.new mapfile.now ≡ Some None) }
    ensures others { (q : List ℕ) → q ≢ mapfile.now → F.holds files.new q ≡ F.holds files.old q }
    ensures why { IfErr result (λ refusal. (refusal ≡ Refusal.Output) × Fails F.faults) }
    ensures crash { Goes F.moment F.may_leave F.left_since files.old files.new (Gone mapfile.now) }
{
    match remove_old(files, mapfile, kind) {
        Ok(()) => {}
        Err(refusal) => return Err(refusal),
    }
    match files.sync_folder(mapfile) {
        Ok(()) => Ok(()),
        Err(DeviceFault) => Err(Refusal::Output),
    }
}

/// Puts a file with this content at a path, whole or not at all.
fn put<F: Files, C: Content>(
    alloc: Global,
    files: &mut F,
    path: &str,
    content: &C,
) -> Result<(), Refusal>
    ensures kept { OnOk result (F.tells → IsKept (F.holds files.new) (F.may_leave files.new) path.now (C.bytes content.now)) }
    ensures either { F.tells → (F.holds files.new path.now ≡ F.holds files.old path.now) ⊎ (F.holds files.new path.now ≡ Some (Some (C.bytes content.now))) }
    ensures elsewhere { (q : List ℕ) → q ≢ path.now → (¬ IsOwn path.now q) → F.holds files.new q ≡ F.holds files.old q }
    ensures why { IfErr result (IsUnput (Fails F.faults ⊎ SinkFails F.Output.stream)) }
    ensures crash { F.tells → Goes F.moment F.may_leave F.left_since files.old files.new (Replaced path.now (C.bytes content.now)) }
{
    match replace(alloc, files, path, content) {
        Ok(()) => Ok(()),
        Err(ReplaceError::OutOfMemory) => Err(Refusal::Memory(AllocError)),
        Err(ReplaceError::NotKept) => Err(Refusal::Unkept),
        Err(_) => Err(Refusal::Output),
    }
}

/// Puts an image at a path, whole or not at all.
fn put_blocks<F: Files, T: Imaged>(
    alloc: Global,
    files: &mut F,
    path: &str,
    image: &ImageOf<'_, T>,
) -> Result<(), Refusal>
    ensures kept { OnOk result ((t : Table) → (F.tells → T.shows image.now.of.now t) → F.tells → IsKept (F.holds files.new) (F.may_leave files.new) path.now (image_bytes t image.now.last)) }
    ensures either { (t : Table) → (F.tells → T.shows image.now.of.now t) → F.tells → (F.holds files.new path.now ≡ F.holds files.old path.now) ⊎ (F.holds files.new path.now ≡ Some (Some (image_bytes t image.now.last))) }
    ensures elsewhere { (q : List ℕ) → q ≢ path.now → (¬ IsOwn path.now q) → F.holds files.new q ≡ F.holds files.old q }
    ensures why { IfErr result (IsUnmade (T.inputs image.now.of.now) (Fails F.faults ⊎ SinkFails F.Output.stream)) }
    ensures crash { (t : Table) → (F.tells → T.shows image.now.of.now t) → F.tells → Goes F.moment F.may_leave F.left_since files.old files.new (Replaced path.now (image_bytes t image.now.last)) }
{
    match replace_by_job(alloc, files, path, image) {
        Ok(()) => Ok(()),
        Err(JobError::Files(ReplaceError::OutOfMemory)) => Err(Refusal::Memory(AllocError)),
        Err(JobError::Files(ReplaceError::NotKept)) => Err(Refusal::Unkept),
        Err(JobError::Files(_)) => Err(Refusal::Output),
        Err(JobError::Refused(fault)) => Err(image.of.refusal(fault)),
        Err(JobError::RefusedLeft(fault)) => Err(image.of.refusal(fault)),
    }
}

/// Removes an old mapfile, and puts the image.
fn put_image<F: Files, T: Imaged>(
    alloc: Global,
    files: &mut F,
    image: &str,
    blocks: &ImageOf<'_, T>,
    mapfile: &str,
    kind: Kind,
) -> Result<(), Refusal>
    requires apart { IsApart image.now mapfile.now }
    requires absent { kind ≡ Kind.Absent → F.tells → F.holds files.old mapfile.now ≡ Some None }
    ensures kept { OnOk result ((t : Table) → (F.tells → T.shows blocks.now.of.now t) → F.tells → IsKept (F.holds files.new) (F.may_leave files.new) image.now (image_bytes t blocks.now.last)) }
    ensures gone { OnOk result ((t : Table) → (F.tells → T.shows blocks.now.of.now t) → IsGone F.Files mapfile.now files.new) }
    ensures goes { (t : Table) (text : List ℕ) → (F.tells → T.shows blocks.now.of.now t) → GoesPair F.Files image.now mapfile.now (image_bytes t blocks.now.last) text files.old files.new }
    ensures why { IfErr result (IsUnmade (T.inputs blocks.now.of.now) (Fails F.faults ⊎ SinkFails F.Output.stream)) }
{
    match clear(files, mapfile, kind) {
        Ok(()) => {}
        Err(refusal) => return Err(refusal),
    }
    match put_blocks(alloc, files, image, blocks) {
        Ok(()) => Ok(()),
        Err(refusal) => Err(refusal),
    }
}

/// Puts an image and its mapfile, each whole or not at all: an old mapfile is removed first, and the new one is put last.
pub fn put_both<F: Files, T: Imaged, D: Content>(
    alloc: Global,
    files: &mut F,
    image: &str,
    blocks: &ImageOf<'_, T>,
    mapfile: &str,
    runs: &D,
    kind: Kind,
) -> Result<(), Refusal>
    requires apart { IsApart image.now mapfile.now }
    requires absent { kind ≡ Kind.Absent → F.tells → F.holds files.old mapfile.now ≡ Some None }
    ensures kept { OnOk result ((t : Table) → (F.tells → T.shows blocks.now.of.now t) → AreKept F.Files image.now mapfile.now (image_bytes t blocks.now.last) (D.bytes runs.now) files.new) }
    ensures goes { (t : Table) → (F.tells → T.shows blocks.now.of.now t) → GoesPair F.Files image.now mapfile.now (image_bytes t blocks.now.last) (D.bytes runs.now) files.old files.new }
    ensures why { IfErr result (IsUnmade (T.inputs blocks.now.of.now) (Fails F.faults ⊎ SinkFails F.Output.stream)) }
{
    match put_image(alloc, files, image, blocks, mapfile, kind) {
        Ok(()) => {}
        Err(refusal) => return Err(refusal),
    }
    match put(alloc, files, mapfile, runs) {
        Ok(()) => Ok(()),
        Err(refusal) => Err(refusal),
    }
}
