// SPDX-License-Identifier: MIT OR Apache-2.0
//! System calls on files in memory, which tell all: a crash may leave whatever the calls so far allow, and devices can be slow or fail. For tests alone.
#![tactic(auto)]

mod clockwork;
mod contents;
mod deeds;
mod descriptor;
mod device;
mod history;
mod kept;
pub mod laws;
mod memory;
mod memory_calls;
mod modified;
mod notes;
mod spelling;
mod witness;

pub use clockwork::{Clockwork, NoFile};
pub use descriptor::MemoryDescriptor;
pub use device::{Device, SOUND};
pub use kept::StoredFile;
pub use memory::Memory;
pub use memory_calls::MemoryCalls;
pub use notes::{Notes, Setting};
pub use witness::Witness;
