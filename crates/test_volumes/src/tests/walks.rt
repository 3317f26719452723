//! What is reported of the nodes of small volumes, as expected from the formats' description, byte by byte.

mod memory;
mod paths;
mod stores;
mod told;

pub use told::rooted;
