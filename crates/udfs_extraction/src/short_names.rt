//! Names that are too long for a file system, and the short ones in their place.

ghost use Rattle.std.specs.Prelude.{◌≡◌, ◌≤◌, ◌<◌, ◌++◌, ◌&&◌, IfOk, IfSome, OnOk, length, string_bytes};
ghost use Rattle.std.specs.Char.Utf16.{is_high_surrogate, is_low_surrogate};
ghost use Rattle.udfs_osta.specs.Fronts.{front_len};
ghost use Rattle.udfs_extraction.specs.ShortNames.{IsFileName, IsShortOf, front_bytes, front_count, icb_number, is_too_long, short_end, short_name, shortened, unit_bytes, unit_size};

use std::alloc::{AllocError, Global};
use std::fmt::Write;
use udfs_osta::Name;
use udfs_tag::LbAddr;

/// The most bytes of a name that the file systems of Linux take.
const NAME_MAX: usize = 255;

/// Appends the number of an information control block: its logical block, with the partition reference in front where there are two partitions.
pub fn push_icb_number(text: &mut String, two: bool, address: LbAddr) -> Result<(), AllocError>
    ensures { OnOk result (string_bytes text.new ≡ string_bytes text.old ++ icb_number two address.reference address.block) }
{
    let LbAddr { block, reference } = address;
    if two {
        return write!(text, "{reference}-{block}");
    }
    write!(text, "{block}")
}

/// Whether the escaped form of a name has more bytes than file systems take.
fn is_too_long(alloc: Global, name: &Name) -> Result<bool, AllocError>
    ensures { IfOk result (λ so. so ≡ is_too_long name.now) }
{
    let mut text = String::new(alloc);
    name.write_escaped(&mut text)?;
    Ok(text.len() > NAME_MAX)
}

/// The bytes of a unit in no pair, in its escaped form.
fn unit_size(unit: u16) -> usize
    ensures { result ≡ unit_size unit }
{
    match unit {
        0..=0x1f | 0x2f | 0x5c | 0x7f | 0xd800..=0xdfff => 6,
        0..=0x7f => 1,
        0..=0x7ff => 2,
        _ => 3,
    }
}

/// Whether two units are a surrogate pair.
fn is_pair(high: u16, low: u16) -> bool
    ensures { result ≡ (is_high_surrogate high && is_low_surrogate low) }
{
    0xd800 <= high && high <= 0xdbff && 0xdc00 <= low && low <= 0xdfff
}

/// How many units make the first character, and its bytes in its escaped form.
fn front_size(units: &[u16]) -> (usize, usize)
    ensures { 0 < length units.now → (result.0 ≡ front_len units.now) × (result.1 ≡ front_bytes units.now) }
{
    match units {
        [high, low, ..] if is_pair(*high, *low) => (2, 4),
        [unit, ..] => (1, unit_size(*unit)),
        [] => (0, 0),
    }
}

/// How many units from the front have at most `room` bytes in their escaped form. No surrogate pair is parted.
fn front_count(units: &[u16], room: usize) -> usize
    ensures value { result ≡ front_count room units.now }
    ensures bound { result ≤ length units.now }
{
    let mut count = 0;
    let mut left = room;
    let mut rest = units;
    while !rest.is_empty() {
        let (taken, size) = front_size(rest);
        if size > left {
            break;
        }
        left -= size;
        count += taken;
        let (_, others) = rest.split_at(taken);
        rest = others;
    }
    count
}

/// Appends units, the high byte of each first.
fn push_units(bytes: &mut Vec<u8>, units: &[u16]) -> Result<(), AllocError>
    ensures { OnOk result (bytes.new.items ≡ bytes.old.items ++ unit_bytes units.now) }
{
    for unit in units {
        bytes.push((*unit / 256) as u8)?;
        bytes.push((*unit % 256) as u8)?;
    }
    Ok(())
}

/// Appends bytes of ASCII as units.
fn push_ascii(bytes: &mut Vec<u8>, text: &[u8]) -> Result<(), AllocError>
    ensures { OnOk result (bytes.new.items ≡ bytes.old.items ++ unit_bytes text.now) }
{
    for byte in text {
        bytes.push(0)?;
        bytes.push(*byte)?;
    }
    Ok(())
}

/// The end of a short name: `~`, and the number of the information control block.
fn short_end(alloc: Global, two: bool, icb: LbAddr) -> Result<String, AllocError>
    ensures { IfOk result (λ end. string_bytes end ≡ short_end two icb) }
{
    let mut end = String::from_str(alloc, "~")?;
    push_icb_number(&mut end, two, icb)?;
    Ok(end)
}

/// The short form of a name: as much of its beginning as fits together with the end, and the end.
fn short_name(alloc: Global, two: bool, icb: LbAddr, name: &Name) -> Result<Name, AllocError>
    ensures name { IfOk result (λ short. short ≡ short_name two icb name.now) }
    ensures longest { IfOk result (λ short. IsShortOf name.now (short_end two icb) short) }
{
    let end = short_end(alloc, two, icb)?;
    let units = name.units();
    let count = front_count(units, NAME_MAX.saturating_sub(end.len()));
    let (front, _) = units.split_at(count);
    let mut bytes = Vec::new(alloc);
    bytes.push(16)?;
    push_units(&mut bytes, front)?;
    push_ascii(&mut bytes, end.as_bytes())?;
    match Name::read(alloc, bytes.as_slice()) {
        Ok(short) => Ok(short),
        Err(_) => Err(AllocError),
    }
}

/// The short one of a name that is too long.
pub fn shortened(
    alloc: Global,
    two: bool,
    icb: LbAddr,
    name: &Name,
) -> Result<Option<Name>, AllocError>
    ensures name { IfOk result (λ short. short ≡ shortened two icb name.now) }
    // File systems take it.
    ensures fits { IfOk result (λ short. IfSome short (λ short. IsFileName short)) }
{
    if !is_too_long(alloc, name)? {
        return Ok(None);
    }
    let short = short_name(alloc, two, icb, name)?;
    Ok(Some(short))
}
