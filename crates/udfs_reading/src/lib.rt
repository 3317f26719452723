// SPDX-License-Identifier: MIT OR Apache-2.0
//! The file formats of block tables: readings, which are lists of records, and table files in two versions.
//!
//! Text is printed through one buffer in the caller's frame, so that printing needs no memory.
//!
//! A [`Printer`] takes text piece by piece and hands it to a sink whenever it has gathered much. A fault of the sink is
//! kept: nothing is handed on after it, and [`Printer::finish`] reports it.
#![tactic(auto)]

mod block;
mod device;
mod error;
mod field;
mod header;
mod input;
mod inputs;
pub mod laws;
mod packet_file;
mod packing;
mod printer;
pub mod printing_laws;
mod reading;
mod table_file;
mod taker;
mod window;
mod writing;

pub use device::{DeviceFault, Reader, Sink, Source, Writer};
pub use error::{ReadingError, ReadingFault};
pub use input::{read_input, read_reading, read_table};
pub use inputs::{InputError, join_inputs, take_inputs};
pub use packing::write_table;
pub use printer::Printer;
pub use taker::{NotTaken, Taker};
pub use writing::{Outgoing, WriteFault, write_all, write_header, write_number, write_table_v1};
