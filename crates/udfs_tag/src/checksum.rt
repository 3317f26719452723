//! The CRC of descriptors (ECMA-167 3/7.2.6).

ghost use Rattle.std.specs.Prelude.{◌≡◌, ℕ, ◌<◌, ◌≤◌, take, length};
ghost use Rattle.udfs_tag.specs.Crc.{crc_of, message, IsRemainder};
ghost use Rattle.udfs_tag.specs.Steps.{after_byte, crc_after};

use crate::tables::{TABLE_0, TABLE_1, TABLE_2, TABLE_3, TABLE_4, TABLE_5, TABLE_6, TABLE_7};

/// The remainder after one more byte.
fn with_byte(crc: u16, byte: u8) -> u16
    ensures { result ≡ after_byte crc byte }
{
    ((crc & 0xff) << 8) ^ TABLE_0[((crc >> 8) ^ byte as u16) as usize]
}

/// The remainder after the first eight bytes of the block, all at once.
fn with_eight(crc: u16, block: &[u8]) -> u16
    requires { 8 ≤ length block.now }
    ensures { result ≡ crc_after crc (take 8 block.now) }
{
    TABLE_7[((crc >> 8) ^ block[0] as u16) as usize]
        ^ (TABLE_6[((crc & 0xff) ^ block[1] as u16) as usize]
            ^ (TABLE_5[block[2] as usize]
                ^ (TABLE_4[block[3] as usize]
                    ^ (TABLE_3[block[4] as usize]
                        ^ (TABLE_2[block[5] as usize]
                            ^ (TABLE_1[block[6] as usize] ^ TABLE_0[block[7] as usize]))))))
}

/// The remainder after more bytes, eight at a time and then one at a time.
pub(crate) fn extended(crc: u16, bytes: &[u8]) -> u16
    ensures { result ≡ crc_after crc bytes.now }
{
    let mut crc = crc;
    let mut rest = bytes;
    while rest.len() >= 8 {
        crc = with_eight(crc, rest);
        rest = &rest[8..];
    }
    for byte in rest {
        crc = with_byte(crc, *byte);
    }
    crc
}

/// The CRC of the bytes (ECMA-167 3/7.2.6): the remainder of their bits, the most significant first
/// and followed by 16 zero bits, in division by x^16 + x^12 + x^5 + 1 over two values. That of no
/// bytes is 0.
pub fn crc(bytes: &[u8]) -> u16
    ensures value { result ≡ crc_of bytes.now }

    // No table and no loop: the number is a remainder by the generator, and there is no other.
    ensures remainder { IsRemainder (message bytes.now) result }
    ensures only { (r : ℕ) → IsRemainder (message bytes.now) r → r ≡ result }
{
    extended(0, bytes)
}
