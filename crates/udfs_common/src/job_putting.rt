//! What a job writes is put at a path, or written to what is there and is no file.

ghost use Rattle.std.specs.Prelude.{◌≡◌, ◌≢◌, ◌⊎◌, ℕ, List, [], Some, IfOk, IfErr, OnOk, OnErr, IsErrOf};
ghost use Rattle.udfs_host_fs.specs.Disk.{Disk, After, IsOwn, Replaced, Fails, SinkFails};
ghost use Rattle.udfs_common.specs.Jobs.{AreOnly, IsDone};
ghost use Rattle.udfs_common.specs.Keeping.{FailedOut, IsKept, RefusedOut};
ghost use Rattle.udfs_common.specs.Refusing.{IsUnput};

use crate::files::Files;
use crate::refusal::Refusal;
use std::alloc::{AllocError, Global};
use udfs_host_fs::{Aim, Job, JobError, Kind, ReplaceError, Stage, fill_by, replace_by_job};
use udfs_reading::DeviceFault;

/// Puts a file that a job writes at the path, whole or not at all, or has the job write to what is there and is no file.
///
/// # Errors
///
/// Those of [`put_file`](crate::putting::put_file). Where the job fails, the outer result is `Ok` and the inner one is the job's own error; the fault is then
/// counted among those of the files or of an output.
pub fn put_job<F: Files, J: Job>(
    alloc: Global,
    job: &J,
    out: &str,
    files: &mut F,
) -> Result<Result<(), J::Refusal>, Refusal>
    // Where these are the only bytes that the job can have written to a new file, they are put.
    ensures written { IfOk result (λ done. OnOk done ((bytes : List ℕ) → (F.tells → AreOnly (λ b. J.wrote job.now (Some []) (Some b)) bytes) →
        (F.tells → IsKept (F.holds files.new) (F.may_leave files.new) (F.real files.old out.now) bytes) ⊎ (F.in_place files.old out.now × IsDone F.Output.stream (J.wrote job.now)))) }
    ensures any_moment { (bytes : List ℕ) → (F.tells → AreOnly (λ b. J.wrote job.now (Some []) (Some b)) bytes) → F.tells → (F.in_place files.old out.now → ⊥) → (c : Disk) → F.left_since files.new (F.moment files.old) c →
        After (F.may_leave files.old) (Replaced (F.real files.old out.now) bytes) c }
    ensures untouched { IfErr result (λ refusal. refusal ≢ Refusal.Output → refusal ≢ Refusal.Unkept → files.new ≡ files.old) }
    ensures refused { IsErrOf result Refusal.Output → F.tells → (F.in_place files.old out.now → ⊥) → F.holds files.new (F.real files.old out.now) ≡ F.holds files.old (F.real files.old out.now) }
    // Where the job fails, the path holds what it held, unless it is that of a device or a pipe.
    ensures given_up { IfOk result (λ done. OnErr done (FailedOut F.tells F.holds F.real F.in_place (Fails F.faults ⊎ SinkFails F.Output.stream) out.now files.old files.new (λ Put. ⊥))) }
    // What the job wrote is in its place where only the folder could not be synced.
    ensures unkept { IsErrOf result Refusal.Unkept → F.tells → (bytes : List ℕ) → AreOnly (λ b. J.wrote job.now (Some []) (Some b)) bytes → F.holds files.new (F.real files.old out.now) ≡ Some (Some bytes) }
    // No other path changes, but for those of new files that are to go in its place.
    ensures elsewhere { F.tells → (F.in_place files.old out.now → ⊥) → (q : List ℕ) → q ≢ F.real files.old out.now → (¬ IsOwn (F.real files.old out.now) q) → F.holds files.new q ≡ F.holds files.old q }
    ensures cause { IfErr result (λ refusal. (refusal ≡ Refusal.Output) ⊎ (refusal ≡ Refusal.Unkept) → F.shut files.old out.now ⊎ Fails F.faults ⊎ SinkFails F.Output.stream) }
    // After an error nothing has changed; or a call failed, and the path, unless a device or a pipe, holds what it held or the new file, whole.
    ensures left { OnErr result ((bytes : List ℕ) → (F.tells → AreOnly (λ b. J.wrote job.now (Some []) (Some b)) bytes) →
        RefusedOut F.tells F.holds F.real F.in_place (F.shut files.old out.now ⊎ Fails F.faults ⊎ SinkFails F.Output.stream) out.now files.old files.new (λ Put. Put bytes)) }
    ensures told { IfErr result (λ refusal. refusal ≢ Refusal.Spared) }
    ensures why { IfErr result (IsUnput (F.shut files.old out.now ⊎ Fails F.faults ⊎ SinkFails F.Output.stream)) }
{
    files.begin(Stage::Writing);
    let target = match files.resolve(alloc, out, Aim::Writing) {
        Ok(Ok(target)) => target,
        Ok(Err(DeviceFault)) => return Err(Refusal::Output),
        Err(AllocError) => return Err(Refusal::Memory(AllocError)),
    };
    match target.kind {
        Kind::Other => do_in_place(files, target.path.as_str(), job),
        Kind::Absent | Kind::Regular => {
            match replace_by_job(alloc, files, target.path.as_str(), job) {
                Ok(()) => Ok(Ok(())),
                Err(JobError::Files(ReplaceError::OutOfMemory)) => {
                    Err(Refusal::Memory(AllocError))
                }
                Err(JobError::Files(ReplaceError::NotKept)) => Err(Refusal::Unkept),
                Err(JobError::Files(_)) => Err(Refusal::Output),
                Err(JobError::Refused(refusal)) => {
                    files.count_fault();
                    Ok(Err(refusal))
                }
                Err(JobError::RefusedLeft(refusal)) => Ok(Err(refusal)),
            }
        }
    }
}

/// Has a job write to what is no file: a device or a pipe.
fn do_in_place<F: Files, J: Job>(
    files: &mut F,
    path: &str,
    job: &J,
) -> Result<Result<(), J::Refusal>, Refusal>
    ensures taken { IfOk result (λ done. OnOk done (IsDone F.Output.stream (J.wrote job.now))) }
    ensures refused { IfErr result (λ refusal. refusal ≡ Refusal.Output) }
    ensures cause { OnErr result (Fails F.faults ⊎ SinkFails F.Output.stream) }
    ensures given_up { IfOk result (λ done. OnErr done (Fails F.faults)) }
{
    let Ok(output) = files.make(path) else {
        return Err(Refusal::Output);
    };
    let output = match fill_by(output, job) {
        Ok(output) => output,
        Err(refusal) => {
            files.count_fault();
            return Ok(Err(refusal));
        }
    };
    match files.sync(path, output) {
        Ok(()) => Ok(Ok(())),
        Err(DeviceFault) => Err(Refusal::Output),
    }
}
