//! Why a table file was not written from an index.

ghost use Rattle.std.specs.Prelude.{◌≡◌};
ghost use Rattle.udfs_index.specs.declared.fault.CopyFault.TheVariants as copy_fault;

use udfs_reading::WriteFault;

/// Bytes of an input that could not be read again, or are no longer there.
#[derive(Clone, Copy, Debug, PartialEq, Eq)]
pub struct Unread {
    /// The number of the input, from 0.
    pub input: usize,

    /// The offset of the first of these bytes in the input.
    pub at: u64,
}

/// Why a table file was not written from an index. A beginning of the file is out then.
#[derive(Clone, Copy, Debug, PartialEq, Eq)]
pub enum CopyFault {
    /// The sink failed.
    Sink(WriteFault),

    /// An input could not be read again, or ended early.
    Input(Unread),
}

impl From<WriteFault> for CopyFault {
    ghost from_gives = { λ fault e. e ≡ copy_fault.Sink fault };

    fn from(fault: WriteFault) -> CopyFault {
        CopyFault::Sink(fault)
    }
}
