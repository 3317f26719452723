//! The calls that take memory, each once.

use crate::Ending;
use crate::discs::table_of;
use std::alloc::{AllocError, Global};
use udfs_lattice::BlockTable;
use udfs_reading::{Reader, ReadingFault, Sink, Writer, join_inputs, write_all, write_table};
use udfs_salvage::{
    ExtractError, Fill, RunError, SalvageError, extract, report_json, report_run, salvage,
    write_report,
};
use udfs_samples::LAST;

/// How a printed report ended.
fn of_run(error: RunError) -> Ending {
    match error {
        RunError::OutOfMemory => Ending::Refused,
        _ => Ending::Wrong,
    }
}

/// How a call that returns no report ended.
fn of_salvage(error: SalvageError) -> Ending {
    match error {
        SalvageError::OutOfMemory => Ending::Refused,
        _ => Ending::Wrong,
    }
}

/// The report of a disc, printed.
pub fn report<W: Sink>(alloc: Global, name: &str, unread: u32, out: &mut W) -> Ending {
    let Ok(table) = table_of(alloc, name, unread) else {
        return Ending::Unready;
    };
    match salvage(alloc, &table, LAST) {
        Err(error) => of_salvage(error),
        Ok(report) => match write_report(&report, out) {
            Ok(()) => Ending::Done,
            Err(error) => of_run(error),
        },
    }
}

/// The report of a disc as JSON.
pub fn json<W: Sink>(alloc: Global, name: &str, unread: u32, out: &mut W) -> Ending {
    let Ok(table) = table_of(alloc, name, unread) else {
        return Ending::Unready;
    };
    match salvage(alloc, &table, LAST) {
        Err(error) => of_salvage(error),
        Ok(report) => match report_json(alloc, &report) {
            Err(_) => Ending::Refused,
            Ok(text) => match write_all(out, text.as_bytes()) {
                Ok(()) => Ending::Done,
                Err(_) => Ending::Wrong,
            },
        },
    }
}

/// The bytes of the file `A`, which is the second node of each sample volume, with `?` for those that are missing.
pub fn extract_a<W: Sink>(alloc: Global, name: &str, unread: u32, out: &mut W) -> Ending {
    let Ok(table) = table_of(alloc, name, unread) else {
        return Ending::Unready;
    };
    match salvage(alloc, &table, LAST) {
        Err(error) => of_salvage(error),
        Ok(report) => {
            if report.nodes.len() < 2 {
                return Ending::Wrong;
            }
            match extract(alloc, &report, 1, Fill::Byte(0x3f), out) {
                Ok(()) => Ending::Done,
                Err(ExtractError::OutOfMemory) => Ending::Refused,
                Err(_) => Ending::Wrong,
            }
        }
    }
}

/// The bytes of a table's file.
fn bytes_of(alloc: Global, table: &BlockTable) -> Result<Vec<u8>, AllocError> {
    let mut file = Writer::new(Vec::new(alloc));
    match write_table(table, &mut file) {
        Ok(()) => Ok(file.into_inner()),
        Err(_) => Err(AllocError),
    }
}

/// The report of two inputs that know the same of a disc.
pub fn run_report<W: Sink>(alloc: Global, name: &str, unread: u32, out: &mut W) -> Ending {
    let Ok(table) = table_of(alloc, name, unread) else {
        return Ending::Unready;
    };
    let Ok(bytes) = bytes_of(alloc, &table) else {
        return Ending::Unready;
    };
    let mut inputs = [Reader::new(bytes.as_slice()), Reader::new(bytes.as_slice())];
    match report_run(alloc, &mut inputs, LAST, out) {
        Ok(_) => Ending::Done,
        Err(error) => of_run(error),
    }
}

/// A reading of one block, all of whose bytes are the same.
fn reading(alloc: Global, block: u32, byte: u8) -> Result<Vec<u8>, AllocError> {
    let mut bytes = Vec::from_slice(alloc, b"UDFREAD1\x00\x08\x00\x00\x01\x00\x00\x00")?;
    bytes.extend_from_slice(&block.to_le_bytes())?;
    bytes.extend_from_slice(&[byte; 2048])?;
    Ok(bytes)
}

/// The table of a reading of block 300, one of block 301, and the first again.
pub fn read_inputs<W: Sink>(alloc: Global, out: &mut W) -> Ending {
    let (Ok(a), Ok(b)) = (reading(alloc, 300, 0x61), reading(alloc, 301, 0x62)) else {
        return Ending::Unready;
    };
    let mut inputs = [
        Reader::new(a.as_slice()),
        Reader::new(b.as_slice()),
        Reader::new(a.as_slice()),
    ];
    match join_inputs(alloc, &mut inputs) {
        Ok(table) => match write_table(&table, out) {
            Ok(()) => Ending::Done,
            Err(_) => Ending::Wrong,
        },
        Err(error) => match error.error.fault {
            ReadingFault::OutOfMemory => Ending::Refused,
            _ => Ending::Wrong,
        },
    }
}
