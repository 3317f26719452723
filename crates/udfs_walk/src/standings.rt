//! How whole a node is.

use std::marker::Model;
use udfs_file::NodeFault;

/// How whole a node is.
#[derive(Debug, Drop)]
pub enum Standing {
    /// All its bytes are known.
    Whole,
    /// Some of its bytes are missing, or it was not read at all.
    Torn(Torn),
    /// It is a directory on its own path, and is not entered.
    Loop,
    /// It has this fault.
    Fault(NodeFault),
}

/// What is missing of a torn node.
#[derive(Debug, Drop)]
pub struct Torn {
    /// The blocks of the volume that are missing, ascending and each once.
    pub missing: Vec<u32>,
    /// The maximal runs of missing bytes, each by its offset and length.
    pub holes: Vec<(u64, u64)>,
}

impl Model for Torn {
    ghost use Rattle.udfs_walk.specs.TornFields.{TornFields};

    ghost Value = { TornFields };

    ghost view = { λ t. record { missing = t.missing.items; holes = t.holes.items } };
}
