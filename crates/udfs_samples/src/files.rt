//! The file set, the directory and the files of a partition.

use crate::discs::Bytes;

/// 2001-07-04 at 10:30 local time, one hour ahead of UTC (ECMA-167 1/7.3).
pub(crate) const STAMP: [u8; 8] = [0x3c, 0x10, 0xd1, 7, 7, 4, 0x0a, 0x1e];

/// The tag of a file identifier descriptor in logical block 2.
const IDENTIFIER_TAG: [u8; 13] = [1, 1, 2, 0, 6, 0, 0, 0, 0, 0, 0, 0, 2];

/// By logical blocks: the file set descriptor (ECMA-167 4/14.1), the root's entry (4/14.9) and its three
/// identifier descriptors (4/14.4), and the entries of its files.
pub(crate) const FILES: [Bytes; 35] = [
    (0, 0, &[0, 1, 2, 0, 3]),
    (0, 400, &[0, 8, 0, 0, 1]),
    (1, 0, &[5, 1, 2, 0, 9, 0, 0, 0, 0, 0, 0, 0, 1]),
    (1, 20, &[4]),
    (1, 27, &[4]),
    (1, 56, &[0x78]),
    (1, 84, &STAMP),
    (1, 172, &[8]),
    (1, 176, &[0x78, 0, 0, 0, 2]),
    (2, 0, &IDENTIFIER_TAG),
    (2, 16, &[1, 0, 0x0a]),
    (2, 20, &[0, 8, 0, 0, 1]),
    (2, 40, &IDENTIFIER_TAG),
    (2, 56, &[1, 0, 0, 2]),
    (2, 60, &[0, 8, 0, 0, 3]),
    (2, 78, b"\x08A"),
    (2, 80, &IDENTIFIER_TAG),
    (2, 96, &[1, 0, 0, 2]),
    (2, 100, &[0, 8, 0, 0, 4]),
    (2, 118, b"\x08B"),
    (3, 0, &[5, 1, 2, 0, 0x0b, 0, 0, 0, 0, 0, 0, 0, 3]),
    (3, 20, &[4]),
    (3, 27, &[5]),
    (3, 56, &[0x88, 0x13]),
    (3, 84, &STAMP),
    (3, 172, &[8]),
    (3, 176, &[0x88, 0x13, 0, 0, 5]),
    (4, 0, &[5, 1, 2, 0, 0x0c, 0, 0, 0, 0, 0, 0, 0, 4]),
    (4, 20, &[4]),
    (4, 27, &[5]),
    (4, 34, &[3]),
    (4, 56, &[2]),
    (4, 84, &STAMP),
    (4, 172, &[2]),
    (4, 176, b"Hi"),
];

/// The logical blocks of the file `A`, and what each is full of.
pub(crate) const FILLED: [(u32, u8); 3] = [(5, 0x61), (6, 0x62), (7, 0x63)];

/// In the volume of type 1: the entry of the file `A` with one extent and a continuation, which an
/// allocation extent descriptor (ECMA-167 4/14.5) begins.
pub(crate) const CONTINUATION: [Bytes; 6] = [
    (275, 56, &[0, 0x10]),
    (275, 172, &[0x10]),
    (275, 176, &[0, 8, 0, 0, 5, 0, 0, 0, 0, 8, 0, 0xc0, 6]),
    (278, 0, &[2, 1, 2, 0, 0x0b, 0, 0, 0, 0, 0, 0, 0, 6]),
    (278, 20, &[8]),
    (278, 24, &[0, 8, 0, 0, 7]),
];
