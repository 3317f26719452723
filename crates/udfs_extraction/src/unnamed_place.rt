//! Where the folder of lost files goes: it may not be there yet.

ghost use Rattle.std.specs.Prelude.{◌≡◌, ◌⊎◌, List, ℕ, IfErr, OnOk, map, alloc_error};
ghost use Rattle.udfs_extraction.specs.LostFiles.{IsNewFolder};

use std::alloc::{AllocError, Global};
use udfs_common::files::Files;
use udfs_common::guard::is_among;
use udfs_common::refusal::Refusal;
use udfs_host_fs::{Aim, Kind};
use udfs_reading::DeviceFault;

/// Judges where a folder is to be made: nothing may be there, and these other paths may not lead there.
pub fn find_new_folder<F: Files>(
    alloc: Global,
    others: &[&str],
    folder: &str,
    files: &F,
) -> Result<(), Refusal>
    ensures free { OnOk result (F.tells → IsNewFolder F.Files files.now (map (λ path. path.now) others.now) folder.now) }
    ensures told { IfErr result (λ refusal. (refusal ≡ Refusal.LostSpared) ⊎ (refusal ≡ Refusal.Memory alloc_error)) }
{
    let target = match files.resolve(alloc, folder, Aim::Writing) {
        Ok(Ok(target)) => target,
        Ok(Err(DeviceFault)) => return Err(Refusal::LostSpared),
        Err(AllocError) => return Err(Refusal::Memory(AllocError)),
    };
    match target.kind {
        Kind::Absent => {}
        Kind::Regular | Kind::Other => return Err(Refusal::LostSpared),
    }
    match is_among(alloc, others, &target, files) {
        Ok(Ok(false)) => Ok(()),
        Ok(_) => Err(Refusal::LostSpared),
        Err(AllocError) => Err(Refusal::Memory(AllocError)),
    }
}
