// SPDX-License-Identifier: MIT OR Apache-2.0
//! Runs of a program over files in memory, whose devices can be slow or fail, as scripts say. For tests alone.
#![tactic(auto)]

mod contents;
mod discs;
mod given;
mod hostile;
mod names;
mod runs;
mod scripts;
mod seen;
mod texts;
mod trial;
mod wants;

pub use runs::{Program, Taker};
pub use scripts::faults;
pub use wants::{
    files_want_memory, merge_wants_memory, page_wants_memory, short_names_want_memory,
    times_want_memory, unnamed_want_memory,
};
