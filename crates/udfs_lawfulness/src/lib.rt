// SPDX-License-Identifier: MIT OR Apache-2.0
//! Whether a volume is lawful, by what is known of its blocks.
//!
//! The rest are laws, which nothing runs: what descriptors say is stated a second time, by the tables of ECMA-167 and UDF, each field at its byte
//! position, and a decoder gives the fields of a table and no others; the layouts, sparing tables and trees of lawful volumes are those that the
//! tables give, and there is one with descriptors of many forms.
#![tactic(auto)]

pub mod answers;
pub mod deciding;
pub mod ecma_laws;
mod filled;
mod folders;
pub mod lawful_laws;
pub mod laws;
mod names;
mod sequences;
pub mod structures;
mod tables;
mod trees;

pub use answers::{Lawfulness, Reason, Structures, Why};
pub use deciding::{lawfulness, lawfulness_by};
pub use structures::{structures_by, structures_of};
