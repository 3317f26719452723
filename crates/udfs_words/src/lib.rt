// SPDX-License-Identifier: MIT OR Apache-2.0
//! The command-line arguments of `udfsalvage`: their grammar, and what they ask for.
#![tactic(auto)]

mod arguments;
pub mod asking;
pub mod forms;
mod glob_names;
mod glob_rows;
pub mod globs;
pub mod group;
pub mod input_path;
pub mod last;
pub mod laws;
pub mod profile;
pub mod reading;
pub mod request;
pub mod sizes;
pub mod streams;
pub mod words;
