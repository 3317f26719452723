//! Labels.

ghost use Rattle.std.specs.Prelude.{◌≡◌, ℕ, List, IfOk, IfErr};

use crate::names::{Name, NameFault};
use crate::texts::OutOfMemory;
use std::alloc::{AllocError, Global};

/// The label of a volume: a dstring of 128 bytes (OSTA UDF 2.1.3, ECMA-167 1/7.2.12).
#[derive(Debug, Drop)]
pub enum Label {
    /// The field is not used: its length is 0.
    Empty,
    /// A name, in the form of the names of files (OSTA UDF 2.1.1).
    Name(Name),
    /// The length is above 127, or what it covers is no name.
    Invalid,
}

impl Label {
    ghost use Rattle.udfs_osta.specs.Labels.{label_of, IsNamed};

    /// Reads a label. The last of the 128 bytes is the number of bytes in use, counted from the first one.
    ///
    /// # Errors
    ///
    /// `OutOfMemory` where memory ran out. This happens only if the label is a name: the other two kinds allocate nothing.
    pub fn read(alloc: Global, bytes: &[u8; 128]) -> Result<Label, OutOfMemory>
        ensures value { IfOk result (λ label. label ≡ label_of bytes.now) }
        ensures memory { IfErr result (λ refused. IsNamed (label_of bytes.now)) }
    {
        let used = bytes[127] as usize;
        if used == 0 {
            return Ok(Label::Empty);
        }
        if used > 127 {
            return Ok(Label::Invalid);
        }
        match Name::read(alloc, &bytes[..used]) {
            Ok(name) => Ok(Label::Name(name)),
            Err(NameFault::OutOfMemory) => Err(AllocError),
            Err(_) => Ok(Label::Invalid),
        }
    }
}
