// SPDX-License-Identifier: MIT OR Apache-2.0
//! Witnesses: blocks of a disc that are known, and that a new pass is to read once more, so that a pass of another disc shows.
//!
//! A list of blocks to read again has no block that is known. So a pass of another disc that reads that list alone contradicts nothing
//! that is known, and its bytes complete our files. [`witnesses`] chooses at most [`MOST_WITNESSES`] known blocks to be read with the list:
//! those that name the volume, and others from all over the disc.
//!
//! Whole groups of blocks: a drive reads an ECC block as one, so to ask for one of its blocks costs as much as to ask for all of them.
//!
//! An ECC block has 16 blocks of 2048 bytes on a DVD; a packet of a rewritable CD has 32 (UDF 2.01 6.10). [`grouped`] adds to a list of blocks to read again the
//! others of their groups that are worth asking for as well.
#![tactic(auto)]

mod choosing;
mod edges;
mod fronts;
mod grouping;
mod inserting;
pub mod laws;
mod named;
mod spread;

pub use choosing::{MOST_WITNESSES, witnesses};
pub use fronts::rising_front;
pub use grouping::grouped;
pub use inserting::add_rising;
