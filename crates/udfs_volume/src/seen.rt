//! What a call finds of a volume by its known blocks.

ghost use Rattle.std.specs.Prelude.{◌≡◌};
ghost use Rattle.udfs_volume.specs.Seen.{GoesOn, IfGot};

use crate::faults::VolumeFault;

/// What the known blocks say of a volume.
#[derive(Debug, Drop)]
pub enum Seen<T> {
    /// The thing itself.
    Got(T),
    /// Blocks that are not known, ascending and each once: to go on, some of them have to be read.
    Holes(Vec<u32>),
    /// The first fault by the known blocks. Where redundant copies differ, more blocks may change it.
    Fault(VolumeFault),
    /// Memory ran out.
    OutOfMemory,
}

impl<T> Seen<T> {
    /// Calls `next` with what was got. Holes, a fault and `OutOfMemory` are returned unchanged.
    pub fn and_then<U, F: FnOnce(T) -> Seen<U>>(self, next: F) -> Seen<U>
        requires { IfGot self (F.pre next) }
        ensures { GoesOn self (F.post next) result }
    {
        match self {
            Seen::Got(x) => next(x),
            Seen::Holes(blocks) => Seen::Holes(blocks),
            Seen::Fault(fault) => Seen::Fault(fault),
            Seen::OutOfMemory => Seen::OutOfMemory,
        }
    }
}
