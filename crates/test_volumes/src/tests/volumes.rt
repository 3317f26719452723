//! Layouts, holes and faults of small volumes. What is expected comes from the formats' description, byte by byte.

mod differences;
mod memory;
mod profiles;
pub mod said;
mod sparable;
mod texts;
mod two_maps;
mod type1;
