//! A file is put at a path, or written to what is there and is no file.

ghost use Rattle.std.specs.Prelude.{◌≡◌, ◌≢◌, ◌⊎◌, ℕ, List, Some, IfErr, OnOk, OnErr, IsErrOf};
ghost use Rattle.udfs_host_fs.specs.Disk.{Disk, After, IsOwn, Replaced, Fails, SinkFails};
ghost use Rattle.udfs_common.specs.Keeping.{IsKept, IsTaken, RefusedOut};
ghost use Rattle.udfs_common.specs.Puts.{Puts};
ghost use Rattle.udfs_common.specs.Refusing.{IsUnput};

use crate::files::Files;
use crate::known::Known;
use crate::refusal::Refusal;
use std::alloc::{AllocError, Global};
use udfs_host_fs::{Aim, Content, Kind, ReplaceError, Stage, fill, replace};
use udfs_reading::DeviceFault;

/// Puts a file with this content at the path, whole or not at all, or writes it to what is there and is no file.
pub fn put_file<F: Files, C: Content>(
    alloc: Global,
    content: &C,
    out: &str,
    files: &mut F,
) -> Result<(), Refusal>
    ensures written { OnOk result ((F.tells → IsKept (F.holds files.new) (F.may_leave files.new) (F.real files.old out.now) (C.bytes content.now))
        ⊎ (F.in_place files.old out.now × IsTaken F.Output.stream (C.bytes content.now))) }
    ensures any_moment { F.tells → (F.in_place files.old out.now → ⊥) → (c : Disk) → F.left_since files.new (F.moment files.old) c →
        After (F.may_leave files.old) (Replaced (F.real files.old out.now) (C.bytes content.now)) c }
    ensures untouched { IfErr result (λ refusal. refusal ≢ Refusal.Output → refusal ≢ Refusal.Unkept → files.new ≡ files.old) }
    ensures refused { IsErrOf result Refusal.Output → F.tells → (F.in_place files.old out.now → ⊥) → F.holds files.new (F.real files.old out.now) ≡ F.holds files.old (F.real files.old out.now) }
    // The content is in its place where only the folder could not be synced.
    ensures unkept { IsErrOf result Refusal.Unkept → F.tells → F.holds files.new (F.real files.old out.now) ≡ Some (Some (C.bytes content.now)) }
    // No other path changes, but for those of new files that are to go in its place.
    ensures elsewhere { F.tells → (F.in_place files.old out.now → ⊥) → (q : List ℕ) → q ≢ F.real files.old out.now → (¬ IsOwn (F.real files.old out.now) q) → F.holds files.new q ≡ F.holds files.old q }
    ensures cause { IfErr result (λ refusal. (refusal ≡ Refusal.Output) ⊎ (refusal ≡ Refusal.Unkept) → F.shut files.old out.now ⊎ Fails F.faults ⊎ SinkFails F.Output.stream) }
    // After an error nothing has changed; or a call failed, and the path, unless a device or a pipe, holds what it held or the new file, whole.
    ensures left { OnErr result (RefusedOut F.tells F.holds F.real F.in_place (F.shut files.old out.now ⊎ Fails F.faults ⊎ SinkFails F.Output.stream) out.now files.old files.new (λ Put. Put (C.bytes content.now))) }
    ensures told { IfErr result (λ refusal. refusal ≢ Refusal.Spared) }
    ensures why { IfErr result (IsUnput (F.shut files.old out.now ⊎ Fails F.faults ⊎ SinkFails F.Output.stream)) }
    // All of it as one fact.
    ensures puts { Puts ⟦<F as Known>⟧.reach (λ bytes. bytes ≡ C.bytes content.now) out.now files.old files.new result }
{
    files.begin(Stage::Writing);
    let target = match files.resolve(alloc, out, Aim::Writing) {
        Ok(Ok(target)) => target,
        Ok(Err(DeviceFault)) => return Err(Refusal::Output),
        Err(AllocError) => return Err(Refusal::Memory(AllocError)),
    };
    match target.kind {
        Kind::Other => write_in_place(files, target.path.as_str(), content),
        Kind::Absent | Kind::Regular => match replace(alloc, files, target.path.as_str(), content) {
            Ok(()) => Ok(()),
            Err(ReplaceError::OutOfMemory) => Err(Refusal::Memory(AllocError)),
            Err(ReplaceError::NotKept) => Err(Refusal::Unkept),
            Err(_) => Err(Refusal::Output),
        },
    }
}

/// Writes a content to what is no file: a device or a pipe.
fn write_in_place<F: Files, C: Content>(
    files: &mut F,
    path: &str,
    content: &C,
) -> Result<(), Refusal>
    ensures taken { OnOk result (IsTaken F.Output.stream (C.bytes content.now)) }
    ensures refused { IfErr result (λ refusal. refusal ≡ Refusal.Output) }
    ensures cause { OnErr result (Fails F.faults ⊎ SinkFails F.Output.stream) }
{
    let Ok(output) = files.make(path) else {
        return Err(Refusal::Output);
    };
    let Ok(output) = fill(output, content) else {
        return Err(Refusal::Output);
    };
    match files.sync(path, output) {
        Ok(()) => Ok(()),
        Err(DeviceFault) => Err(Refusal::Output),
    }
}
