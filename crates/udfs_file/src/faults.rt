//! What is wrong with a node, and its kind.

ghost use Rattle.std.specs.Prelude.{◌≡◌, Some};
ghost use Rattle.udfs_file.specs.FaultNames.{node_fault_name, front_error_text, walk_error_text};
ghost use Rattle.udfs_file.specs.declared.faults.FrontError.TheVariants as front_error;
ghost use Rattle.udfs_file.specs.declared.faults.WalkError.TheVariants as walk_error;

use std::alloc::AllocError;
use std::error::Error;
use std::fmt;

/// What is wrong with a node: with the address of its information control block, its entry, its body, or, of a
/// directory, what it lists. Of several faults of one step the one with the least number is reported.
#[derive(Clone, Copy, Debug, PartialEq, Eq, PartialOrd, Ord)]
pub enum NodeFault {
    /// The block is no file entry and no extended file entry, valid at its logical block (ECMA-167 4/14.9, 4/14.17).
    Tag = 1,
    /// The strategy is not 4 (ECMA-167 4/14.6.2, UDF 2.3.5.1).
    Strategy = 2,
    /// The allocation descriptors are neither short ones nor long ones, nor is the body embedded (ECMA-167 4/14.6.8).
    Descriptors = 3,
    /// The entry's extended attributes and descriptors pass its block, or the descriptors do not fill their length
    /// (ECMA-167 4/14.9.21, 4/14.9.22).
    Lengths = 4,
    /// There is no such partition, or the address of an information control block is no recorded extent or is empty
    /// (ECMA-167 4/14.14).
    Reference = 5,
    /// A block that is used lies outside its partition (ECMA-167 4/14.14).
    Range = 6,
    /// The descriptors, or the embedded bytes, end before the information length (ECMA-167 4/12.1).
    Short = 7,
    /// The descriptors are continued at a block that is no allocation extent descriptor, or too long, or in more than
    /// 256 of them (ECMA-167 4/14.5).
    Chain = 8,
    /// An extent that is not the last does not fill its last block (ECMA-167 4/12.1).
    Odd = 9,
    /// A file identifier descriptor's tag is not valid at the logical block that holds its first byte (ECMA-167 4/14.4).
    IdentifierTag = 10,
    /// The name of a directory's entry is malformed (UDF 2.1.1).
    Name = 11,
    /// A file identifier descriptor passes the end of the directory, or takes more than 2048 bytes (ECMA-167 4/14.4).
    Cut = 12,
    /// A directory that lists entries has 64 names in its path, and is not entered.
    Depth = 13,
}

/// The fault's name.
impl fmt::Display for NodeFault {
    ghost output = { λ fault. Some (node_fault_name fault) };

    fn fmt<W: fmt::Write>(&self, f: &mut fmt::Formatter<W>) -> fmt::Result {
        f.write_str(match self {
            NodeFault::Tag => "Tag",
            NodeFault::Strategy => "Strategy",
            NodeFault::Descriptors => "Descriptors",
            NodeFault::Lengths => "Lengths",
            NodeFault::Reference => "Reference",
            NodeFault::Range => "Range",
            NodeFault::Short => "Short",
            NodeFault::Chain => "Chain",
            NodeFault::Odd => "Odd",
            NodeFault::IdentifierTag => "IdentifierTag",
            NodeFault::Name => "Name",
            NodeFault::Cut => "Cut",
            NodeFault::Depth => "Depth",
        })
    }
}

impl Error for NodeFault {}

/// The kind of a file (ECMA-167 4/14.6.6). The directory bit of an identifier decides nothing.
#[derive(Clone, Copy, Debug, PartialEq, Eq)]
pub enum Kind {
    /// File type 4.
    Directory,
    /// File type 5.
    File,
    /// File type 12, a symbolic link.
    Link,
    /// Any other file type.
    Other(u8),
    /// The entry was not read, or has a fault of its own.
    Unread,
}

/// Why there is no body.
#[derive(Clone, Copy, Debug, PartialEq, Eq)]
pub enum WalkError {
    /// The descriptors have a fault.
    Fault(NodeFault),
    /// Memory ran out.
    OutOfMemory,
}

impl From<NodeFault> for WalkError {
    ghost from_gives = { λ fault e. e ≡ walk_error.Fault fault };

    fn from(fault: NodeFault) -> WalkError {
        WalkError::Fault(fault)
    }
}

impl From<AllocError> for WalkError {
    ghost from_gives = { λ _ e. e ≡ walk_error.OutOfMemory };

    fn from(_error: AllocError) -> WalkError {
        WalkError::OutOfMemory
    }
}

impl fmt::Display for WalkError {
    ghost output = { λ e. Some (walk_error_text e) };

    fn fmt<W: fmt::Write>(&self, f: &mut fmt::Formatter<W>) -> fmt::Result {
        match self {
            WalkError::Fault(fault) => fault.fmt(f),
            WalkError::OutOfMemory => f.write_str("out of memory"),
        }
    }
}

impl Error for WalkError {}

/// Why the entries of a directory are not returned.
#[derive(Clone, Copy, Debug, PartialEq, Eq)]
pub enum FrontError {
    /// The directory lists more entries than were asked for.
    TooMany,
    /// Memory ran out.
    OutOfMemory,
}

impl From<AllocError> for FrontError {
    ghost from_gives = { λ _ e. e ≡ front_error.OutOfMemory };

    fn from(_error: AllocError) -> FrontError {
        FrontError::OutOfMemory
    }
}

impl fmt::Display for FrontError {
    ghost output = { λ e. Some (front_error_text e) };

    fn fmt<W: fmt::Write>(&self, f: &mut fmt::Formatter<W>) -> fmt::Result {
        f.write_str(match self {
            FrontError::TooMany => "too many entries",
            FrontError::OutOfMemory => "out of memory",
        })
    }
}

impl Error for FrontError {}
