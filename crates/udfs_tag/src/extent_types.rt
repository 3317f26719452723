//! Types of extents, the top two bits of an allocation descriptor's length (ECMA-167 4/14.14.1.1).

/// Recorded and allocated.
pub const RECORDED: u8 = 0;
/// Not recorded, but allocated.
pub const ALLOCATED: u8 = 1;
/// Neither recorded nor allocated.
pub const UNALLOCATED: u8 = 2;
/// The next extent of allocation descriptors.
pub const NEXT_EXTENT: u8 = 3;
