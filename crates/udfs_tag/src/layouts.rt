//! The small fields that descriptors share. All numbers have their lowest byte first (ECMA-167 1/7.1).

ghost use Rattle.std.specs.Prelude.{◌≡◌, ◌≤◌, ◌<◌, ◌/◌, ◌%◌, ◌^◌, length};

use byteorder::{ByteOrder, LittleEndian};

/// An extent of the volume, `extent_ad` (ECMA-167 3/7.1).
#[derive(Clone, Copy, Debug, PartialEq, Eq)]
pub struct ExtentAd {
    /// The length in bytes. All 32 bits of the field belong to it.
    pub length: u32,
    /// The first sector.
    pub block: u32,
}

/// An extent of the partition in which its descriptor lies, `short_ad` (ECMA-167 4/14.14.1).
#[derive(Clone, Copy, Debug, PartialEq, Eq)]
pub struct ShortAd {
    /// The extent's type, the top two bits of the length field (ECMA-167 4/14.14.1.1): 0 recorded,
    /// 1 allocated and not recorded, 2 neither, 3 the next extent of allocation descriptors.
    pub kind: u8,
    /// The length in bytes, the low 30 bits of its field.
    pub length: u32,
    /// The first logical block.
    pub block: u32,
}

/// A logical block of any partition, `lb_addr` (ECMA-167 4/7.1).
#[derive(Clone, Copy, Debug, PartialEq, Eq)]
pub struct LbAddr {
    /// The logical block within the partition.
    pub block: u32,
    /// The partition, by the number of its map.
    pub reference: u16,
}

/// An extent of any partition, `long_ad` (ECMA-167 4/14.14.2).
#[derive(Clone, Copy, Debug, PartialEq, Eq)]
pub struct LongAd {
    /// The extent's type, as that of a [`ShortAd`].
    pub kind: u8,
    /// The length in bytes, the low 30 bits of its field.
    pub length: u32,
    /// The first logical block within the partition (ECMA-167 4/7.1).
    pub block: u32,
    /// The partition, by the number of its map.
    pub reference: u16,
}

/// An entity identifier, `regid` (ECMA-167 1/7.4), without its flags.
#[derive(Clone, Copy, Debug, PartialEq, Eq)]
pub struct RegId {
    /// The identifier, filled up with zero bytes (ECMA-167 1/7.4.2).
    pub name: [u8; 23],
    /// The suffix, whose meaning the identifier gives (ECMA-167 1/7.4.3).
    pub suffix: [u8; 8],
}

impl ExtentAd {
    ghost use Rattle.udfs_tag.specs.Fields.{extent_ad_of};

    /// Reads the 8 bytes at the front. There are no type bits.
    pub fn read(bytes: &[u8]) -> Self
        requires { 8 ≤ length bytes.now }
        ensures { result ≡ extent_ad_of bytes.now }
    {
        ExtentAd {
            length: LittleEndian::read_u32(bytes),
            block: LittleEndian::read_u32(&bytes[4..]),
        }
    }
}

/// The two top bits of a length field, which are the extent's type, and the 30 bits below them.
fn type_and_length(field: u32) -> (u8, u32)
    ensures kind { result.0 ≡ field / 2 ^ 30 }
    ensures length { result.1 ≡ field % 2 ^ 30 }
    ensures kind_fits { result.0 < 4 }
    ensures length_fits { result.1 < 2 ^ 30 }
{
    ((field >> 30) as u8, field & 0x3fff_ffff)
}

impl ShortAd {
    ghost use Rattle.udfs_tag.specs.Fields.{short_ad_of};

    /// Reads the 8 bytes at the front.
    pub fn read(bytes: &[u8]) -> Self
        requires { 8 ≤ length bytes.now }
        ensures value { result ≡ short_ad_of bytes.now }
        ensures kind { result.kind < 4 }
        ensures length { result.length < 2 ^ 30 }
    {
        let (kind, length) = type_and_length(LittleEndian::read_u32(bytes));
        let block = LittleEndian::read_u32(&bytes[4..]);
        ShortAd {
            kind,
            length,
            block,
        }
    }
}

impl LongAd {
    ghost use Rattle.udfs_tag.specs.Fields.{first_address, long_ad_of};

    /// Reads the 16 bytes at the front. The last six are for the implementation's use.
    pub fn read(bytes: &[u8]) -> Self
        requires { 16 ≤ length bytes.now }
        ensures value { result ≡ long_ad_of bytes.now }
        ensures kind { result.kind < 4 }
        ensures length { result.length < 2 ^ 30 }
    {
        let (kind, length) = type_and_length(LittleEndian::read_u32(bytes));
        LongAd {
            kind,
            length,
            block: LittleEndian::read_u32(&bytes[4..]),
            reference: LittleEndian::read_u16(&bytes[8..]),
        }
    }

    /// The address of its first logical block.
    pub fn address(self) -> LbAddr
        ensures { result ≡ first_address self }
    {
        LbAddr {
            block: self.block,
            reference: self.reference,
        }
    }
}

impl LbAddr {
    ghost use Rattle.udfs_tag.specs.Fields.{number_of};

    /// The one number by which addresses are kept and sorted: by partition, and then by block.
    pub fn number(self) -> u64
        ensures value { result ≡ number_of self }
        ensures block { self.block < 4294967296 }
    {
        u64::from(self.reference) * 4294967296 + u64::from(self.block)
    }
}

impl RegId {
    ghost use Rattle.udfs_tag.specs.Fields.{regid_of};

    /// Reads the 32 bytes at the front. The flags in the first are left out.
    pub fn read(bytes: &[u8]) -> Self
        requires { 32 ≤ length bytes.now }
        ensures { result ≡ regid_of bytes.now }
    {
        let mut name = [0; 23];
        name.copy_from_slice(&bytes[1..24]);
        let mut suffix = [0; 8];
        suffix.copy_from_slice(&bytes[24..32]);
        RegId { name, suffix }
    }
}
