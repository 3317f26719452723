//! The table of blocks.

mod packets;
mod steps;
mod whole;
