//! What is reported of a body.

ghost use Rattle.std.specs.Prelude.{◌≡◌};
ghost use Rattle.udfs_file.specs.Stretches.{stretch_count};

use crate::faults::NodeFault;
use udfs_tag::LbAddr;

/// Where recorded bytes begin.
#[derive(Clone, Copy, Debug, PartialEq, Eq)]
pub struct Run {
    /// The first logical block.
    pub address: LbAddr,
    /// The offset in it, in bytes, of the first byte: 0 except in an embedded body.
    pub offset: u32,
}

/// Bytes of a body that lie side by side, and how many there are. Nothing in it grows with their number.
#[derive(Clone, Copy, Debug, PartialEq, Eq)]
pub enum Stretch {
    /// Bytes in consecutive logical blocks, known or not.
    Recorded(Run, u32),
    /// Zeros that are not recorded: no block holds them.
    Zeros(u32),
    /// Bytes of which no place is known, since this block of the volume, where the descriptors are continued, is
    /// not known.
    Missing(u32, u64),
}

impl Stretch {
    /// The number of bytes.
    pub fn count(&self) -> u64
        ensures { result ≡ stretch_count self.now }
    {
        match self {
            Stretch::Recorded(_, count) => u64::from(*count),
            Stretch::Zeros(count) => u64::from(*count),
            Stretch::Missing(_, count) => *count,
        }
    }
}

/// What follows an area of descriptors.
#[derive(Clone, Copy)]
pub(crate) enum Follow<'a> {
    /// Another area.
    Area(&'a [u8]),
    /// This block, which is not known.
    Unread(u32),
    /// Nothing, since there is a fault.
    Broken(NodeFault),
}
