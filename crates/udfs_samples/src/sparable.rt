//! A sparable map (UDF 2.2.9) and its sparing tables (UDF 2.2.11).

use crate::discs::Bytes;

/// By byte positions of the map: packets of 32 blocks, and two tables of 2048 bytes at 100 and 200.
pub(crate) const SPARABLE_MAP: [(usize, &[u8]); 6] = [
    (0, &[2, 0x40, 0, 0, 0]),
    (5, b"*UDF Sparable Partition"),
    (36, &[1, 0, 0, 0]),
    (40, &[0x20, 0, 2]),
    (44, &[0, 8, 0, 0]),
    (48, &[0x64, 0, 0, 0, 0xc8, 0, 0, 0]),
];

/// Both copies of the sparing table: the packet at logical block 0 is spared and mapped to block 400.
pub(crate) const SPARING_TABLES: [Bytes; 8] = [
    (100, 0, &[0, 0, 2, 0, 0x66, 0, 0, 0, 0, 0, 0, 0, 0x64]),
    (100, 17, b"*UDF Sparing Table"),
    (100, 48, &[1]),
    (100, 56, &[0, 0, 0, 0, 0x90, 1, 0, 0]),
    (200, 0, &[0, 0, 2, 0, 0xca, 0, 0, 0, 0, 0, 0, 0, 0xc8]),
    (200, 17, b"*UDF Sparing Table"),
    (200, 48, &[1]),
    (200, 56, &[0, 0, 0, 0, 0x90, 1, 0, 0]),
];
