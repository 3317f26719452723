//! Tag identifiers: the kind of descriptor that begins with a tag (ECMA-167 3/7.2.1 and 4/7.2.1).

/// A sparing table, which has no kind of its own (UDF 1.50 and 2.01, 2.2.11).
pub const SPARING_TABLE: u16 = 0;
/// An anchor volume descriptor pointer (ECMA-167 3/10.2).
pub const ANCHOR: u16 = 2;
/// A volume descriptor pointer (ECMA-167 3/10.3).
pub const VOLUME_DESCRIPTOR_POINTER: u16 = 3;
/// A partition descriptor (ECMA-167 3/10.5).
pub const PARTITION: u16 = 5;
/// A logical volume descriptor (ECMA-167 3/10.6).
pub const LOGICAL_VOLUME: u16 = 6;
/// A terminating descriptor (ECMA-167 3/10.9).
pub const TERMINATING: u16 = 8;
/// A file set descriptor (ECMA-167 4/14.1).
pub const FILE_SET: u16 = 256;
/// A file identifier descriptor (ECMA-167 4/14.4).
pub const FILE_IDENTIFIER: u16 = 257;
/// An allocation extent descriptor (ECMA-167 4/14.5).
pub const ALLOCATION_EXTENT: u16 = 258;
/// A file entry (ECMA-167 4/14.9).
pub const FILE_ENTRY: u16 = 261;
/// An extended file entry (ECMA-167 4/14.17).
pub const EXTENDED_FILE_ENTRY: u16 = 266;
