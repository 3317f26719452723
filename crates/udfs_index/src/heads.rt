//! The headers in a table file of version 2, read at their positions: that of the file, and one before the blocks of each packet.

ghost use Rattle.std.specs.Prelude.{◌≡◌, ℕ, ◌+◌, ◌^◌, ◌≤◌, ◌<◌, ◌++◌, List, Option, length, take, drop, slice_index, IfSome, true};
ghost use Rattle.std.specs.Io.KnownBytes.{Consumes};
ghost use Rattle.std.specs.Str.{bytes_eq};
ghost use Rattle.udfs_reading.specs.Format.{number, header};
ghost use Rattle.udfs_reading.specs.PacketFile.{packet_magic};
ghost use Rattle.udfs_reading.specs.PacketReading.{size_of_blocks};
ghost use Rattle.udfs_index.specs.Placed.{IsTaken, MayFollow};
ghost use Rattle.udfs_index.specs.Places.{behind};
ghost use Rattle.udfs_index.specs.Recorded.{IsOf};

use crate::inputs::BYTES;
use crate::stored::{HEADER, Stored, fill};
use byteorder::{ByteOrder, LittleEndian};
use udfs_reading::DeviceFault;

/// How many bytes come before the blocks of a packet: its number, and its masks of the known blocks and of those in conflict.
pub const HEAD: u64 = 12;

/// The greatest number of a packet.
const LAST_PACKET: u32 = 131_071;

/// The header of a packet.
#[derive(Clone, Copy)]
pub struct Head {
    pub packet: u32,
    pub known: u32,
    pub conflict: u32,
}

/// The four bytes from `i` on.
fn chunk_at(bytes: &[u8], i: usize) -> &[u8]
    requires { i + 4 ≤ length bytes.now }
    ensures value { result.now ≡ take 4 (drop i bytes.now) }
    ensures range { (k : ℕ) → slice_index result.now k < 256 }
{
    &bytes[i..i + 4]
}

/// The number that the four bytes from `i` on are.
fn number_at(bytes: &[u8], i: usize) -> u32
    requires { i + 4 ≤ length bytes.now }
    ensures { number result ≡ take 4 (drop i bytes.now) }
{
    LittleEndian::read_u32(chunk_at(bytes, i))
}

/// How many bytes the blocks have that a mask makes known.
fn size_of(known: u32) -> u64
    ensures value { result ≡ size_of_blocks known }
    ensures most { result ≤ 65536 }
{
    2048 * known.count_ones() as u64
}

/// Whether a packet may have this header, where `low` is the least number that it may have.
fn may_follow(low: u32, head: Head) -> bool
    ensures { result ≡ true → MayFollow low head.packet head.known head.conflict }
{
    if head.packet > LAST_PACKET || head.packet < low {
        return false;
    }
    head.known & head.conflict == 0 && (head.known != 0 || head.conflict != 0)
}

/// The header at position `at`, if it is there.
fn head_at<S: Stored>(stored: &S, at: u64) -> Option<Head>
    requires { at < 2 ^ 63 }
    ensures { IfSome result (λ head. Consumes (behind at (S.content stored.now)) (behind (at + 12) (S.content stored.now)) (number head.packet ++ (number head.known ++ number head.conflict))) }
{
    let mut bytes = [0; 12];
    match fill(stored, at, &mut bytes) {
        Ok(true) => Some(Head {
            packet: number_at(&bytes, 0),
            known: number_at(&bytes, 4),
            conflict: number_at(&bytes, 8),
        }),
        _ => None,
    }
}

/// The header of the packet at position `at` of a file of `size` bytes, if it is there, a packet may have it, and the file has all its blocks.
pub fn read_head<S: Stored>(stored: &S, at: u64, size: u64, low: u32) -> Option<Head>
    requires { at < 2 ^ 62 }
    ensures given { IfSome result (λ head. Consumes (behind at (S.content stored.now)) (behind (at + 12) (S.content stored.now)) (number head.packet ++ (number head.known ++ number head.conflict))) }
    ensures follows { IfSome result (λ head. MayFollow low head.packet head.known head.conflict) }
    ensures within { IfSome result (λ head. at + 12 + size_of_blocks head.known ≤ size) }
{
    let head = head_at(stored, at)?;
    if !may_follow(low, head) {
        return None;
    }
    if at + HEAD + size_of(head.known) > size {
        return None;
    }
    Some(head)
}

/// The first twelve of these bytes.
fn front_of(bytes: &[u8; 16]) -> &[u8; 12]
    ensures { result.now ≡ take 12 bytes.now }
{
    bytes.first_chunk::<12>().unwrap()
}

/// Whether a header begins like that of a table file of version 2: with its name and the size of a block.
fn names_table(front: &[u8; 12]) -> bool
    ensures { result ≡ bytes_eq front.now (packet_magic ++ number 2048) }
{
    *front == *b"UDFTABL2\x00\x08\x00\x00"
}

/// How many packets a table file of version 2 has, by its header; `None` if it is not the header of one.
fn read_count<S: Stored>(stored: &S) -> Option<u32>
    ensures { IfSome result (λ count. Consumes (behind 0 (S.content stored.now)) (behind 16 (S.content stored.now)) (header packet_magic count)) }
{
    let mut bytes = [0; 16];
    match fill(stored, 0, &mut bytes) {
        Ok(true) => {
            if names_table(front_of(&bytes)) {
                return Some(number_at(&bytes, 12));
            }
            None
        }
        _ => None,
    }
}

/// How many bytes and how many packets a table file has.
#[derive(Clone, Copy)]
pub struct TableHead {
    pub size: u64,
    pub count: u32,
}

/// The size and the header of a table file of version 2; `None` if it is none, or is too long.
pub fn read_table_head<S: Stored>(stored: &S) -> Option<TableHead>
    ensures given { IfSome result (λ head. Consumes (behind 0 (S.content stored.now)) (behind 16 (S.content stored.now)) (header packet_magic head.count)) }
    ensures taken { IfSome result (λ head. (input : Option (List ℕ)) → IsOf input (S.content stored.now) → IsTaken input (S.content stored.now) head.size) }
    ensures least { IfSome result (λ head. 16 ≤ head.size) }
    ensures most { IfSome result (λ head. head.size < 2 ^ 44) }
{
    let size = match stored.size() {
        Ok(size) => size,
        Err(DeviceFault) => return None,
    };
    if size < HEADER || size >= BYTES {
        return None;
    }
    let count = read_count(stored)?;
    Some(TableHead { size, count })
}
