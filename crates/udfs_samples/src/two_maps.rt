//! The second partition of the volume with two maps.

use crate::discs::Bytes;
use crate::files::STAMP;

/// The first partition shortened, the descriptor of the second (ECMA-167 3/10.5) and, after it, the
/// terminating descriptor, in both copies of the sequence, with the new map table length and number of maps.
pub(crate) const SECOND_PARTITION: [Bytes; 18] = [
    (32, 264, &[0x46]),
    (48, 264, &[0x46]),
    (32, 268, &[2]),
    (48, 268, &[2]),
    (33, 192, &[0x64, 0]),
    (49, 192, &[0x64, 0]),
    (34, 0, &[5, 0, 2, 0, 0x29, 0, 0, 0, 0, 0, 0, 0, 0x22]),
    (34, 16, &[3]),
    (34, 22, &[1]),
    (34, 25, b"+NSR02"),
    (34, 188, &[0x90, 1, 0, 0, 0x64]),
    (50, 0, &[5, 0, 2, 0, 0x39, 0, 0, 0, 0, 0, 0, 0, 0x32]),
    (50, 16, &[3]),
    (50, 22, &[1]),
    (50, 25, b"+NSR02"),
    (50, 188, &[0x90, 1, 0, 0, 0x64]),
    (35, 0, &[8, 0, 2, 0, 0x2d, 0, 0, 0, 0, 0, 0, 0, 0x23]),
    (51, 0, &[8, 0, 2, 0, 0x3d, 0, 0, 0, 0, 0, 0, 0, 0x33]),
];

/// The first packet of the second partition spared at 520, the directory's name `B` with its entry at
/// logical block 0 of that partition, and the entry.
pub(crate) const SECOND_MAP: [Bytes; 12] = [
    (100, 60, &[8, 2]),
    (200, 60, &[8, 2]),
    (274, 104, &[0]),
    (274, 108, &[1]),
    (520, 0, &[5, 1, 2, 0, 8]),
    (520, 20, &[4]),
    (520, 27, &[5]),
    (520, 34, &[3]),
    (520, 56, &[2]),
    (520, 84, &STAMP),
    (520, 172, &[2]),
    (520, 176, b"Hi"),
];
