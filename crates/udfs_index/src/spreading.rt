//! Adjacent blocks are spread to the records of a reading, in the buffer that they were read into.

ghost use Rattle.std.specs.Prelude.{◌≡◌, ◌+◌, ◌*◌, ◌≤◌, ◌++◌, length, take, drop};
ghost use Rattle.std.specs.List.{flat_map};
ghost use Rattle.udfs_reading.specs.Reading.{record_bytes};
ghost use Rattle.udfs_rescue.specs.Blocks.{records_in};

use byteorder::{ByteOrder, LittleEndian};

/// Writes the record of a block at `to`. The block's bytes are at `from`.
fn put_record(buf: &mut [u8], from: usize, to: usize, block: u32)
    requires order { from ≤ to }
    requires room { to + 2052 ≤ length buf.old }
    ensures { buf.new ≡ take to buf.old ++ (record_bytes (block, take 2048 (drop from buf.old)) ++ drop (to + 2052) buf.old) }
{
    let mut bytes = [0; 2048];
    bytes.copy_from_slice(&buf[from..from + 2048]);
    let mut number = [0; 4];
    LittleEndian::write_u32(&mut number, block);
    buf[to..to + 4].copy_from_slice(&number);
    buf[to + 4..to + 2052].copy_from_slice(&bytes);
}

/// Spreads the `many` blocks at the front of the buffer; the first has the number `first`. The last one is moved first.
pub fn spread(buf: &mut [u8], first: u32, many: usize)
    requires room { 2052 * many ≤ length buf.old }
    requires within { first + many ≤ 4194304 }
    ensures { buf.new ≡ flat_map record_bytes (records_in first many buf.old) ++ drop (2052 * many) buf.old }
{
    let mut left = many;
    while left > 0 {
        left -= 1;
        put_record(buf, 2048 * left, 2052 * left, first + left as u32);
    }
}
