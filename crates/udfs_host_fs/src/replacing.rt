//! One file in the place of another, whole or not at all.

ghost use Rattle.std.specs.Prelude.{◌≡◌, ◌≢◌, ◌⊎◌, ◌<◌, ◌++◌, ℕ, List, Option, All, [], length, codes, string_bytes, vec_len, IfErr, IfOk, OnOk, OnErr, IsErrOf, Some, None};
ghost use Rattle.udfs_host_fs.specs.Disk.{Disk, SameBut, SameButOwn, IsOwn, Replaced, After, Goes, Fails, SinkFails};
ghost use Rattle.udfs_host_fs.specs.Jobs.{EndsNew, GivesUp, HoldsSome, IsJobLeft, JobBlames, LeavesSome, ReplacedBySome, content_error};

use crate::{Content, ContentJob, Files, Job, fill_by};
use std::alloc::{AllocError, Global};
use udfs_reading::{DeviceFault, WriteFault};

/// Why a file was not put in the place of another.
#[derive(Clone, Copy, Debug, PartialEq, Eq)]
pub enum ReplaceError {
    /// Memory ran out before anything was tried.
    OutOfMemory,
    /// The new file could not be made. No path holds anything else.
    NotMade,
    /// The new file could not be written or moved. It is removed again.
    NotWritten,
    /// The same, but it could not be removed.
    LeftBehind,
    /// The new file is in its place, whole, but a crash may bring the old one back, whole.
    NotKept,
}

/// Why what a job writes was not put in the place of a file.
#[derive(Clone, Copy, Debug, PartialEq, Eq)]
pub enum JobError<X> {
    /// A call on the files failed, or memory ran out.
    Files(ReplaceError),
    /// The job failed with this error. The new file is removed again.
    Refused(X),
    /// The same, but it could not be removed.
    RefusedLeft(X),
}

/// The suffixes after a path and `.unfinished` in the names that are tried for a new file.
const MORE: [&str; 16] = [
    "",
    "~",
    "~~",
    "~~~",
    "~~~~",
    "~~~~~",
    "~~~~~~",
    "~~~~~~~",
    "~~~~~~~~",
    "~~~~~~~~~",
    "~~~~~~~~~~",
    "~~~~~~~~~~~",
    "~~~~~~~~~~~~",
    "~~~~~~~~~~~~~",
    "~~~~~~~~~~~~~~",
    "~~~~~~~~~~~~~~~",
];

/// A path for a new file that is to go in the place of this one.
fn own_name(alloc: Global, path: &str, more: &str) -> Result<String, AllocError>
    ensures { IfOk result (λ name. string_bytes name ≡ path.now ++ codes ".unfinished" ++ more.now) }
{
    let mut name = String::from_str(alloc, path)?;
    name.push_str(".unfinished")?;
    name.push_str(more)?;
    Ok(name)
}

/// Some paths for a new file that is to go in the place of this one, beside it.
fn own_names(alloc: Global, path: &str) -> Result<Vec<String>, AllocError>
    ensures some { IfOk result (λ names. 0 < vec_len names) }
    ensures own { IfOk result (λ names. All (λ name. IsOwn path.now (string_bytes name)) names.items) }
{
    let mut names = Vec::new(alloc);
    for more in &MORE {
        names.push(own_name(alloc, path, more)?)?;
    }
    Ok(names)
}

/// Makes a new file and does a job on it, and all of it is on the disk, but for its name. It has the permissions of the file at `path`, where there is one.
fn write_new<F: Files, J: Job>(
    files: &mut F,
    own: &str,
    path: &str,
    job: &J,
) -> Result<(), JobError<J::Refusal>>
    ensures holds { OnOk result (F.tells → HoldsSome (λ bytes. J.wrote job.now (Some []) (Some bytes)) (F.holds files.new own.now)) }
    ensures durable { OnOk result (F.tells → (c : Option (List ℕ)) → F.kept files.new own.now c → LeavesSome (λ bytes. J.wrote job.now (Some []) (Some bytes)) c) }
    ensures others { (q : List ℕ) → q ≢ own.now → F.holds files.new q ≡ F.holds files.old q }
    ensures not_made { IsErrOf result (JobError.Files ReplaceError.NotMade) → (q : List ℕ) → F.holds files.new q ≡ F.holds files.old q }
    ensures absent { OnOk result (F.tells → F.holds files.old own.now ≡ Some None) }
    ensures ours { IfErr result (λ e. e ≢ JobError.Files ReplaceError.NotMade → F.tells → F.holds files.old own.now ≡ Some None) }
    ensures refused { IfErr result (λ e. EndsNew e) }
    ensures cause { IfErr result (λ e. JobBlames (J.blames_sink job.now) (Fails F.faults ⊎ SinkFails F.Output.stream) e) }
    ensures link { OnOk result (F.is_no_link files.new own.now) }
    ensures begun { IfErr result (λ e. e ≢ JobError.Files ReplaceError.NotMade → F.is_no_link files.new own.now) }
    ensures real { F.real files.new ≡ F.real files.old }
    ensures crash { Goes F.moment F.may_leave F.left_since files.old files.new (SameBut own.now) }
{
    let Ok(output) = files.make_new(own) else {
        return Err(JobError::Files(ReplaceError::NotMade));
    };
    let output = match fill_by(output, job) {
        Ok(output) => output,
        Err(refusal) => return Err(JobError::Refused(refusal)),
    };
    files.copy_permissions(path, own);
    match files.sync(own, output) {
        Ok(()) => Ok(()),
        Err(DeviceFault) => Err(JobError::Files(ReplaceError::NotWritten)),
    }
}

/// Removes the new file after the job failed with `refusal`, or a call failed, and returns the error.
fn give_up<F: Files, X>(files: &mut F, own: &str, refusal: Option<X>) -> JobError<X>
    ensures gone { (¬ IsJobLeft result) → F.tells → F.holds files.new own.now ≡ Some None }
    ensures others { (q : List ℕ) → q ≢ own.now → F.holds files.new q ≡ F.holds files.old q }
    ensures told { GivesUp refusal result }
    ensures cause { IsJobLeft result → Fails F.faults }
    ensures real { F.is_no_link files.old own.now → F.real files.new ≡ F.real files.old }
    ensures crash { Goes F.moment F.may_leave F.left_since files.old files.new (SameBut own.now) }
{
    match (files.remove(own), refusal) {
        (Ok(()), None) => JobError::Files(ReplaceError::NotWritten),
        (Ok(()), Some(refusal)) => JobError::Refused(refusal),
        (Err(DeviceFault), None) => JobError::Files(ReplaceError::LeftBehind),
        (Err(DeviceFault), Some(refusal)) => JobError::RefusedLeft(refusal),
    }
}

/// Puts a file that a job writes at the path, by way of a new file at a path of its own in the same folder.
fn replace_by<F: Files, J: Job>(
    files: &mut F,
    own: &str,
    path: &str,
    job: &J,
) -> Result<(), JobError<J::Refusal>>
    requires own { IsOwn path.now own.now }
    requires apart { own.now ≢ path.now }
    ensures holds { OnOk result (F.tells → HoldsSome (λ bytes. J.wrote job.now (Some []) (Some bytes)) (F.holds files.new path.now)) }
    ensures durable { OnOk result (F.tells → (c : Disk) → F.may_leave files.new c → LeavesSome (λ bytes. J.wrote job.now (Some []) (Some bytes)) (c path.now)) }
    ensures done { OnOk result (F.tells → (q : List ℕ) → q ≢ path.now → F.holds files.new q ≡ F.holds files.old q) }
    ensures gone { IfErr result (λ e. (¬ IsJobLeft e) → F.tells → (q : List ℕ) → q ≢ path.now → F.holds files.new q ≡ F.holds files.old q) }
    ensures any_moment { F.tells → Goes F.moment F.may_leave F.left_since files.old files.new (ReplacedBySome path.now (λ bytes. J.wrote job.now (Some []) (Some bytes))) }
    ensures others { (q : List ℕ) → q ≢ own.now → q ≢ path.now → F.holds files.new q ≡ F.holds files.old q }
    ensures refused { IfErr result (λ e. e ≢ JobError.Files ReplaceError.NotKept → F.holds files.new path.now ≡ F.holds files.old path.now) }
    ensures not_made { IsErrOf result (JobError.Files ReplaceError.NotMade) → (q : List ℕ) → F.holds files.new q ≡ F.holds files.old q }
    ensures not_tried { IsErrOf result (JobError.Files ReplaceError.NotMade) → Goes F.moment F.may_leave F.left_since files.old files.new (SameButOwn path.now) }
    ensures not_kept { IsErrOf result (JobError.Files ReplaceError.NotKept) → F.tells → HoldsSome (λ bytes. J.wrote job.now (Some []) (Some bytes)) (F.holds files.new path.now) }
    ensures memory { IfErr result (λ e. e ≢ JobError.Files ReplaceError.OutOfMemory) }
    ensures cause { IfErr result (λ e. JobBlames (J.blames_sink job.now) (Fails F.faults ⊎ SinkFails F.Output.stream) e) }
    ensures real { F.real files.new ≡ F.real files.old }
{
    match write_new(files, own, path, job) {
        Ok(()) => {}
        Err(JobError::Files(ReplaceError::NotMade)) => {
            return Err(JobError::Files(ReplaceError::NotMade));
        }
        Err(JobError::Refused(refusal)) => return Err(give_up(files, own, Some(refusal))),
        Err(_) => return Err(give_up(files, own, None)),
    }
    match files.rename(own, path) {
        Ok(()) => {}
        Err(DeviceFault) => return Err(give_up(files, own, None)),
    }
    match files.sync_folder(path) {
        Ok(()) => Ok(()),
        Err(DeviceFault) => Err(JobError::Files(ReplaceError::NotKept)),
    }
}

/// The same, by way of the first of some paths at which a new file can be made.
fn replace_by_one<F: Files, J: Job>(
    files: &mut F,
    names: &[String],
    path: &str,
    job: &J,
) -> Result<(), JobError<J::Refusal>>
    requires some { 0 < length names.now }
    requires own { All (λ name. IsOwn path.now (string_bytes name)) names.now }
    ensures holds { OnOk result (F.tells → HoldsSome (λ bytes. J.wrote job.now (Some []) (Some bytes)) (F.holds files.new path.now)) }
    ensures durable { OnOk result (F.tells → (c : Disk) → F.may_leave files.new c → LeavesSome (λ bytes. J.wrote job.now (Some []) (Some bytes)) (c path.now)) }
    ensures any_moment { F.tells → Goes F.moment F.may_leave F.left_since files.old files.new (ReplacedBySome path.now (λ bytes. J.wrote job.now (Some []) (Some bytes))) }
    ensures done { OnOk result (F.tells → (q : List ℕ) → q ≢ path.now → F.holds files.new q ≡ F.holds files.old q) }
    ensures gone { IfErr result (λ e. (¬ IsJobLeft e) → F.tells → (q : List ℕ) → q ≢ path.now → F.holds files.new q ≡ F.holds files.old q) }
    ensures elsewhere { (q : List ℕ) → q ≢ path.now → (¬ IsOwn path.now q) → F.holds files.new q ≡ F.holds files.old q }
    ensures refused { IfErr result (λ e. e ≢ JobError.Files ReplaceError.NotKept → F.holds files.new path.now ≡ F.holds files.old path.now) }
    ensures not_kept { IsErrOf result (JobError.Files ReplaceError.NotKept) → F.tells → HoldsSome (λ bytes. J.wrote job.now (Some []) (Some bytes)) (F.holds files.new path.now) }
    ensures memory { IfErr result (λ e. e ≢ JobError.Files ReplaceError.OutOfMemory) }
    ensures cause { IfErr result (λ e. JobBlames (J.blames_sink job.now) (Fails F.faults ⊎ SinkFails F.Output.stream) e) }
    ensures real { F.real files.new ≡ F.real files.old }
{
    for name in names {
        match replace_by(files, name.as_str(), path, job) {
            Ok(()) => return Ok(()),
            Err(JobError::Files(ReplaceError::NotMade)) => {}
            Err(error) => return Err(error),
        }
    }
    Err(JobError::Files(ReplaceError::NotMade))
}

/// Puts a file that a job writes at the path, over an old one, whole or not at all, as [`replace`] does a content.
///
/// # Errors
///
/// `Files` as of [`replace`]. `Refused` and `RefusedLeft` where the job failed: the path holds what it held, and only at
/// `RefusedLeft` is the new file still there, possibly incomplete.
pub fn replace_by_job<F: Files, J: Job>(
    alloc: Global,
    files: &mut F,
    path: &str,
    job: &J,
) -> Result<(), JobError<J::Refusal>>
    // At `Ok` the path holds what the job wrote, and from now on each crash leaves it.
    ensures holds { OnOk result (F.tells → HoldsSome (λ bytes. J.wrote job.now (Some []) (Some bytes)) (F.holds files.new path.now)) }
    ensures durable { OnOk result (F.tells → (c : Disk) → F.may_leave files.new c → LeavesSome (λ bytes. J.wrote job.now (Some []) (Some bytes)) (c path.now)) }
    // A crash at any moment of the call leaves at the path what it would have left before or what the job wrote, whole; and at every
    // other path but those of new files for it what it would have left before.
    ensures any_moment { F.tells → Goes F.moment F.may_leave F.left_since files.old files.new (ReplacedBySome path.now (λ bytes. J.wrote job.now (Some []) (Some bytes))) }
    // Every other path holds what it held, except that of a new file that could not be removed.
    ensures done { OnOk result (F.tells → (q : List ℕ) → q ≢ path.now → F.holds files.new q ≡ F.holds files.old q) }
    ensures gone { IfErr result (λ e. (¬ IsJobLeft e) → F.tells → (q : List ℕ) → q ≢ path.now → F.holds files.new q ≡ F.holds files.old q) }
    ensures elsewhere { (q : List ℕ) → q ≢ path.now → (¬ IsOwn path.now q) → F.holds files.new q ≡ F.holds files.old q }
    // An error leaves what the path held, except `NotKept`, which leaves what the job wrote.
    ensures refused { IfErr result (λ e. e ≢ JobError.Files ReplaceError.NotKept → F.holds files.new path.now ≡ F.holds files.old path.now) }
    ensures not_kept { IsErrOf result (JobError.Files ReplaceError.NotKept) → F.tells → HoldsSome (λ bytes. J.wrote job.now (Some []) (Some bytes)) (F.holds files.new path.now) }
    ensures memory { IsErrOf result (JobError.Files ReplaceError.OutOfMemory) → files.new ≡ files.old }
    // It does not give up by itself.
    ensures cause { IfErr result (λ e. JobBlames (J.blames_sink job.now) (Fails F.faults ⊎ SinkFails F.Output.stream) e) }
    ensures real { F.real files.new ≡ F.real files.old }
{
    let Ok(names) = own_names(alloc, path) else {
        return Err(JobError::Files(ReplaceError::OutOfMemory));
    };
    replace_by_one(files, names.as_slice(), path, job)
}

/// Why a content was not put in the place of a file.
fn content_error(error: JobError<WriteFault>) -> ReplaceError
    ensures { result ≡ content_error error }
{
    match error {
        JobError::Files(error) => error,
        JobError::Refused(WriteFault) => ReplaceError::NotWritten,
        JobError::RefusedLeft(WriteFault) => ReplaceError::LeftBehind,
    }
}

/// Puts a file with this content at the path, over an old one, whole or not at all. The content is written to a new file in
/// the same folder, which is synced and moved over the old one, and then the folder is synced. The name of the new file is the
/// path followed by `.unfinished`; where no new file can be made there, up to fifteen `~` are appended in turn. It has the
/// permissions of the old file, where the system can. Both files exist for a moment, so there has to be room for both.
///
/// # Errors
///
/// `OutOfMemory` before anything was tried. `NotMade`, `NotWritten` and `LeftBehind` where a call on the files or a write failed:
/// the path holds what it held, and only at `LeftBehind` is the new file still there, possibly incomplete. `NotKept` where the
/// new file is in its place, whole, and its folder could not be synced.
pub fn replace<F: Files, C: Content>(
    alloc: Global,
    files: &mut F,
    path: &str,
    content: &C,
) -> Result<(), ReplaceError>
    // At `Ok` the path holds the content, and from now on each crash leaves it.
    ensures holds { OnOk result (F.tells → F.holds files.new path.now ≡ Some (Some (C.bytes content.now))) }
    ensures durable { OnOk result (F.tells → (c : Disk) → F.may_leave files.new c → c path.now ≡ Some (C.bytes content.now)) }
    // A crash at any moment of the call leaves at the path what it would have left before or the content, whole; and at every
    // other path but those of new files for it what it would have left before.
    ensures any_moment { F.tells → Goes F.moment F.may_leave F.left_since files.old files.new (Replaced path.now (C.bytes content.now)) }
    ensures each { F.tells → (c : Disk) → F.left_since files.new (F.moment files.old) c → After (F.may_leave files.old) (Replaced path.now (C.bytes content.now)) c }
    // Every other path holds what it held, except that of the new file at `LeftBehind`.
    ensures done { OnOk result (F.tells → (q : List ℕ) → q ≢ path.now → F.holds files.new q ≡ F.holds files.old q) }
    ensures gone { IfErr result (λ e. e ≢ ReplaceError.LeftBehind → F.tells → (q : List ℕ) → q ≢ path.now → F.holds files.new q ≡ F.holds files.old q) }
    ensures elsewhere { (q : List ℕ) → q ≢ path.now → (¬ IsOwn path.now q) → F.holds files.new q ≡ F.holds files.old q }
    // An error leaves what the path held, except `NotKept`, which leaves the content.
    ensures refused { IfErr result (λ e. e ≢ ReplaceError.NotKept → F.holds files.new path.now ≡ F.holds files.old path.now) }
    ensures not_kept { IsErrOf result ReplaceError.NotKept → F.tells → F.holds files.new path.now ≡ Some (Some (C.bytes content.now)) }
    ensures memory { IsErrOf result ReplaceError.OutOfMemory → files.new ≡ files.old }
    // It does not give up by itself.
    ensures cause { IfErr result (λ e. e ≢ ReplaceError.OutOfMemory → Fails F.faults ⊎ SinkFails F.Output.stream) }
    ensures real { F.real files.new ≡ F.real files.old }
{
    match replace_by_job(alloc, files, path, &ContentJob { content }) {
        Ok(()) => Ok(()),
        Err(error) => Err(content_error(error)),
    }
}
