// SPDX-License-Identifier: MIT OR Apache-2.0
//! The system calls on files that the program makes: what each does to a disk that can crash, and those of the machine.
#![tactic(auto)]

mod calls;
mod host;
pub mod laws;

pub use calls::{About, Calls, Opened};
pub use host::{Host, HostFile};
