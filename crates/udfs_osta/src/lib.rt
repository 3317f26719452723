// SPDX-License-Identifier: MIT OR Apache-2.0
//! Names, labels and timestamps of UDF volumes.
//!
//! UDF writes the names of files and the labels of volumes as *compressed Unicode* (OSTA UDF 2.1.1): a first byte of 8
//! or 16 gives the number of bits per unit, and a unit is a number of 16 bits, read as UTF-16. A label is in a field of
//! fixed size, a *dstring* (OSTA UDF 2.1.3), and a time in twelve bytes (ECMA-167 1/7.3).
//!
//! [`Name`] and [`Label`] read the first two and [`Stamp`] the third. [`Name::write_escaped`] writes a name so that
//! it can be used as a part of a path of the host and in a line of text: it is never empty, never `.` or `..`, and holds
//! no `/`, no byte below 20 hexadecimal and so no zero byte ([`escaped_is_path_part`]); and two names that are written
//! alike have the same units ([`escaped_tells_units`]).
#![tactic(auto)]

mod escapes;
mod labels;
mod names;
mod pieces;
mod stamps;
mod texts;

pub use escapes::{
    escaped_is_path_part, escaped_tells_units, is_dots, paired_char, write_escape, write_escapes,
};
pub use labels::Label;
pub use names::{Name, NameFault, units_make_names};
pub use pieces::EscapedBytes;
pub use stamps::{Stamp, days_tell_dates, local_text_shows_fields};
pub use texts::OutOfMemory;
