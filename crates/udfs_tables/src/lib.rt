// SPDX-License-Identifier: MIT OR Apache-2.0
//! The commands that join and keep what was read: `merge`, `forget` and `image`.
#![tactic(auto)]

mod beside;
mod closing;
pub mod forget;
mod forget_stored;
pub mod image;
mod imaged;
mod index_tally;
mod indexed;
mod joining;
pub mod merge;
mod merge_stored;
mod merge_tally;
mod outlook;
mod pairing;
mod said;
