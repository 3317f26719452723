//! What is reported of the files and directories of small volumes. What is expected comes from the
//! formats' description, byte by byte.

mod bodies;
mod directories;
mod entries;
mod memory;
mod tails;
pub mod told;
