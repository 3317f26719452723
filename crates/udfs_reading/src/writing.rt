//! Table files of version 1 are written: the one spelling of a table in it. And what writing a file of either
//! version takes.

ghost use Rattle.std.specs.Prelude.{◌≡◌, ◌+◌, ◌++◌, ◌≤◌, [], ◌∷◌, length, OnOk};
ghost use Rattle.udfs_lattice.specs.States.{fact_now};
ghost use Rattle.udfs_lattice.specs.Tables.{entries_of};
ghost use Rattle.udfs_reading.specs.Format.{number, header};
ghost use Rattle.udfs_reading.specs.TableFile.{state_bytes, table_bytes_v1};
ghost use Rattle.udfs_reading.specs.Writing.{Writes, Passes};

use crate::device::Sink;
use byteorder::{ByteOrder, LittleEndian};
use std::marker::Model;
use udfs_lattice::{BlockTable, Fact};

/// How many bytes are handed to a sink at once.
const PIECE: usize = 65_536;

/// The sink failed.
#[derive(Clone, Copy, Debug, PartialEq, Eq)]
pub struct WriteFault;

/// Writes all of the bytes, in as many calls as the sink wants. It takes no memory.
///
/// # Errors
///
/// `WriteFault` exactly where the sink failed. Then a beginning of the bytes is out.
pub fn write_all<W: Sink>(sink: &mut W, bytes: &[u8]) -> Result<(), WriteFault>
    ensures { Writes (W.stream sink.old) (W.stream sink.new) bytes.now result }
{
    let mut at = 0;
    while at < bytes.len() {
        match sink.write(&bytes[at..]) {
            Ok(n) => at += n,
            Err(_) => return Err(WriteFault),
        }
    }
    Ok(())
}

/// Bytes that are still to be written. They are in an array in this value itself, and no memory is allocated.
#[derive(Drop)]
pub struct Outgoing {
    bytes: [u8; 65_536],
    len: usize,
}

impl Model for Outgoing {
    ghost use Rattle.std.specs.Prelude.{List, ℕ, ◌≤◌, slice_range};

    ghost Value = { List ℕ };

    ghost view = { λ o. slice_range o.bytes 0 o.len };

    ghost invariant = { λ o. o.len ≤ 65536 };
}

impl Outgoing {
    /// No bytes yet.
    pub fn new() -> Self
        ensures { result ≡ [] }
    {
        Outgoing {
            bytes: [0; 65_536],
            len: 0,
        }
    }

    /// Writes all bytes that are held.
    ///
    /// # Errors
    ///
    /// `WriteFault` exactly where the sink failed. Then a beginning of the bytes is out.
    pub fn flush<W: Sink>(&mut self, sink: &mut W) -> Result<(), WriteFault>
        ensures written { Writes (W.stream sink.old) (W.stream sink.new) self.old result }
        ensures empty { OnOk result (self.new ≡ []) }
    {
        write_all(sink, &self.bytes[..self.len])?;
        self.len = 0;
        Ok(())
    }

    /// Appends these bytes to those that are held.
    fn append(&mut self, bytes: &[u8])
        requires { length self.now + length bytes.now ≤ 65536 }
        ensures { self.new ≡ self.old ++ bytes.now }
    {
        let end = self.len + bytes.len();
        self.bytes[self.len..end].copy_from_slice(bytes);
        self.len = end;
    }

    /// Takes these bytes, at most 2048, to be written, and writes what is held before where there is no room for them.
    ///
    /// # Errors
    ///
    /// `WriteFault` exactly where the sink failed. Then a beginning of what is held is out, and these bytes are not taken.
    pub fn push<W: Sink>(&mut self, sink: &mut W, bytes: &[u8]) -> Result<(), WriteFault>
        requires { length bytes.now ≤ 2048 }
        ensures { Passes (W.stream sink.old) (W.stream sink.new) self.old self.new bytes.now result }
    {
        if bytes.len() > PIECE - self.len {
            self.flush(sink)?;
        }
        self.append(bytes);
        Ok(())
    }
}

/// Writes a number of 32 bits in four bytes, the least significant first.
///
/// # Errors
///
/// `WriteFault` exactly where the sink failed, as of [`Outgoing::push`].
pub fn write_number<W: Sink>(out: &mut Outgoing, sink: &mut W, n: u32) -> Result<(), WriteFault>
    ensures { Passes (W.stream sink.old) (W.stream sink.new) out.old out.new (number n) result }
{
    let mut bytes = [0; 4];
    LittleEndian::write_u32(&mut bytes, n);
    let outcome = out.push(sink, &bytes);
    outcome
}

fn write_state<W: Sink>(
    out: &mut Outgoing,
    sink: &mut W,
    fact: Fact<&[u8; 2048]>,
) -> Result<(), WriteFault>
    ensures { Passes (W.stream sink.old) (W.stream sink.new) out.old out.new (state_bytes (fact_now fact.entry)) result }
{
    match fact {
        Fact::Unknown => Ok(()),
        Fact::Known(bytes) => {
            out.push(sink, &[1])?;
            out.push(sink, bytes)?;
            Ok(())
        }
        Fact::Conflict => {
            out.push(sink, &[2])?;
            Ok(())
        }
    }
}

/// Writes the header of a file with this magic: the magic, the size of a block (2048), and how many records or packets follow.
///
/// # Errors
///
/// `WriteFault` exactly where the sink failed, as of [`Outgoing::push`].
pub fn write_header<W: Sink>(
    out: &mut Outgoing,
    sink: &mut W,
    magic: &[u8; 8],
    count: u32,
) -> Result<(), WriteFault>
    ensures { Passes (W.stream sink.old) (W.stream sink.new) out.old out.new (header magic.now count) result }
{
    out.push(sink, magic)?;
    write_number(out, sink, 2048)?;
    write_number(out, sink, count)?;
    Ok(())
}

fn write_entry<W: Sink>(
    out: &mut Outgoing,
    sink: &mut W,
    block: u32,
    fact: Fact<&[u8; 2048]>,
) -> Result<(), WriteFault>
    ensures { Passes (W.stream sink.old) (W.stream sink.new) out.old out.new (number block ++ state_bytes (fact_now fact.entry)) result }
{
    write_number(out, sink, block)?;
    write_state(out, sink, fact)?;
    Ok(())
}

fn count_entries(table: &BlockTable) -> u32
    ensures { result ≡ length (entries_of table.now) }
{
    table.entries().count() as u32
}

/// The header and the entries of the table.
fn write_entries<W: Sink>(
    out: &mut Outgoing,
    sink: &mut W,
    table: &BlockTable,
) -> Result<(), WriteFault>
    ensures { Passes (W.stream sink.old) (W.stream sink.new) out.old out.new (table_bytes_v1 table.now) result }
{
    let count = count_entries(table);
    write_header(out, sink, b"UDFTABL1", count)?;
    for (block, fact) in table.entries() {
        write_entry(out, sink, block, fact)?;
    }
    Ok(())
}

/// Writes the table file of the table in version 1: `UDFTABL1`, the block size, the number of entries, and
/// each entry in the order of the block numbers. It takes no memory.
///
/// # Errors
///
/// `WriteFault` exactly where the sink failed. Then a beginning of the file is out.
pub fn write_table_v1<W: Sink>(table: &BlockTable, sink: &mut W) -> Result<(), WriteFault>
    ensures { Writes (W.stream sink.old) (W.stream sink.new) (table_bytes_v1 table.now) result }
{
    let mut out = Outgoing::new();
    write_entries(&mut out, sink, table)?;
    out.flush(sink)?;
    Ok(())
}
