//! Laws of files in memory, each the contract of a function that does nothing else.

ghost use Rattle.std.specs.Prelude.{◌≡◌, [], codes};
ghost use Rattle.udfs_memory.specs.Telling.{log_of};

use crate::kept::StoredFile;
use crate::memory_calls::MemoryCalls;
use crate::notes::{Notes, Setting};
use std::alloc::Global;
use udfs_calls::Calls;

/// The premise of every clause is met: the calls on files in memory tell. What they hold at first is what was stored.
pub fn files_in_memory_tell<'a>(
    alloc: Global,
    stored: &'a [StoredFile],
    setting: Setting,
    notes: &'a Notes,
) -> MemoryCalls<'a>
    ensures tells { ⟦<MemoryCalls<'a> as Calls>⟧.tells }
    ensures log { ⟦<MemoryCalls<'a> as Calls>⟧.log result ≡ log_of stored.now [] }
{
    MemoryCalls::new(alloc, stored, setting, notes)
}

/// On an empty disk, of what paths begin with `/dev/` or `/proc/` alone they say that it may be no file, so what is said of all other paths is said of something.
pub fn a_path_is_no_device<'a>(alloc: Global, notes: &'a Notes) -> MemoryCalls<'a>
    ensures { ⟦<MemoryCalls<'a> as Calls>⟧.in_place result (codes "disc.tab") → ⊥ }
{
    MemoryCalls::new(alloc, &[], Setting::sound(), notes)
}
