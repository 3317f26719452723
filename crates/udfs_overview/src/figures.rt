//! Figures as people read them. Each function appends to a text; if memory runs out, a part may be appended.

ghost use Rattle.std.specs.Prelude.{◌≡◌, ◌≢◌, ◌++◌, ◌+◌, ◌*◌, ◌^◌, ◌<◌, ◌≤◌, ℕ, OnOk, length};
ghost use Rattle.std.specs.String.{string_bytes};
ghost use Rattle.udfs_overview.specs.Figures.{grouped, percent_text, rounded, size_text, tenths_in, unit_name, unit_of};

use std::fmt::Write;
use udfs_osta::OutOfMemory;

/// Appends a number, with its digits in groups of three: `5,120`.
///
/// # Errors
///
/// If memory runs out. Then a part may be appended.
pub fn push_grouped(number: u128, text: &mut String) -> Result<(), OutOfMemory>
    ensures { OnOk result (string_bytes text.new ≡ string_bytes text.old ++ grouped number) }
{
    if number < 1000 {
        return write!(text, "{number}");
    }
    push_grouped(number / 1000, text)?;
    let hundreds = number / 100 % 10;
    let tens = number / 10 % 10;
    let ones = number % 10;
    write!(text, ",{hundreds}{tens}{ones}")
}

/// How many bytes a unit has.
fn unit_bytes(unit: u32) -> u128
    requires some { 1 ≤ unit }
    requires known { unit ≤ 8 }
    ensures value { result ≡ 1000 ^ unit }
    ensures most { result ≤ 1000 ^ 8 }
    ensures least { 1000 ≤ result }
{
    match unit {
        1 => 1_000,
        2 => 1_000_000,
        3 => 1_000_000_000,
        4 => 1_000_000_000_000,
        5 => 1_000_000_000_000_000,
        6 => 1_000_000_000_000_000_000,
        7 => 1_000_000_000_000_000_000_000,
        _ => 1_000_000_000_000_000_000_000_000,
    }
}

/// A size in tenths of a unit, rounded half up. The arithmetic overflows for no size.
fn tenths_in(size: u128, unit: u32) -> u128
    requires some { 1 ≤ unit }
    requires known { unit ≤ 8 }
    ensures { result ≡ tenths_in size unit }
{
    let bytes = unit_bytes(unit);
    let rest = size % bytes;
    size / bytes * 10 + (20 * rest + bytes) / (2 * bytes)
}

/// The unit in which a size is shown, as a power of 1000.
fn unit_of(size: u128) -> u32
    ensures value { result ≡ unit_of size }
    ensures some { 1 ≤ result }
    ensures known { result ≤ 8 }
{
    let mut unit = 1;
    while unit < 8 && tenths_in(size, unit) >= 10_000 {
        unit += 1;
    }
    unit
}

/// The name of a unit.
fn unit_name(unit: u32) -> &'static str
    ensures { result.now ≡ unit_name unit }
{
    match unit {
        1 => "kB",
        2 => "MB",
        3 => "GB",
        4 => "TB",
        5 => "PB",
        6 => "EB",
        7 => "ZB",
        _ => "YB",
    }
}

/// Appends a size: plain bytes below 1,000, and from there on the first unit of 1,000, 1,000,000 and so on bytes in which the
/// figure, with one digit after the point and rounded half up, is below 1000.0; if it is in no unit, in YB.
///
/// # Errors
///
/// If memory runs out. Then a part may be appended.
#[tactic(auto, unfolding(crate::specs::Figures::size_text))]
pub fn push_size(size: u128, text: &mut String) -> Result<(), OutOfMemory>
    ensures { OnOk result (string_bytes text.new ≡ string_bytes text.old ++ size_text size) }
{
    if size < 1000 {
        return write!(text, "{size} B");
    }
    let unit = unit_of(size);
    let tenths = tenths_in(size, unit);
    let whole = tenths / 10;
    let tenth = tenths % 10;
    let name = unit_name(unit);
    write!(text, "{whole}.{tenth} {name}")
}

/// Ten times a part of the whole, as a number of wholes and the remainder. It multiplies nothing, so that nothing overflows.
fn ten_times(part: u128, whole: u128) -> (u128, u128)
    requires { part < whole }
    ensures value { 10 * part ≡ result.0 * whole + result.1 }
    ensures left { result.1 < whole }
    ensures digit { result.0 < 10 }
{
    let mut digit = 0;
    let mut left = 0;
    let mut count = 0u32;
    while count < 10 {
        if left >= whole - part {
            left -= whole - part;
            digit += 1;
        } else {
            left += part;
        }
        count += 1;
    }
    (digit, left)
}

/// A part of the whole in thousandths, rounded half up.
fn thousandths(part: u128, whole: u128) -> u128
    requires { part < whole }
    ensures value { result ≡ rounded (1000 * part) whole }
    ensures most { result ≤ 1000 }
    ensures none { part ≡ 0 → result ≡ 0 }
{
    let (hundreds, first) = ten_times(part, whole);
    let (tens, second) = ten_times(first, whole);
    let (ones, third) = ten_times(second, whole);
    let down = hundreds * 100 + tens * 10 + ones;
    if third >= whole - third {
        down + 1
    } else {
        down
    }
}

/// Appends a part as a percentage of the whole, with one digit after the point, rounded half up: `5.3 %`.
///
/// # Errors
///
/// If memory runs out. Then a part may be appended.
#[tactic(auto, unfolding(crate::specs::Figures::percent_text))]
pub fn push_percent(part: u128, whole: u128, text: &mut String) -> Result<(), OutOfMemory>
    requires { 0 < whole }
    ensures { OnOk result (string_bytes text.new ≡ string_bytes text.old ++ percent_text part whole) }
{
    let tenths = thousandths(part % whole, whole);
    let times = part / whole + tenths / 1000;
    let percent = tenths / 10 % 100;
    let tenth = tenths % 10;
    if times == 0 {
        return write!(text, "{percent}.{tenth} %");
    }
    let tens = percent / 10;
    let ones = percent % 10;
    write!(text, "{times}{tens}{ones}.{tenth} %")
}
