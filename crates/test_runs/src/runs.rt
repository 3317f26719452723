//! A run of the program over the machine's files, whose system calls are on files in memory, and files to run it on.

ghost use Rattle.udfs_calls.specs.Log.{IsFresh};

use std::alloc::{AllocError, Global};
use std::cell::RefCell;
use std::io;
use std::io::Write;
use std::rc::Rc;
use udfs_calls::Calls;
use udfs_host_fs::{Files, Machine};
use udfs_lattice::BlockTable;
use udfs_memory::{Device, Memory, MemoryCalls, SOUND};
use udfs_reading::{Writer, write_table};

/// How many bytes a path has at most, with the zero byte at its end.
const PATH_ROOM: usize = 4_096;

/// What was printed, which the test and the run share.
pub type Shared = Rc<RefCell<Vec<u8>>>;

/// What is run: the program, with its name and its arguments.
pub trait Program {
    /// Runs it over these files, and returns its status.
    fn run<F: Files>(
        &self,
        alloc: Global,
        words: &[String],
        files: &mut F,
        out: &mut Writer<Taker>,
        err: &mut Writer<Taker>,
    ) -> u8;
}

/// What a run prints to.
#[derive(Drop)]
pub struct Taker {
    bytes: Shared,
    device: Device,
}

impl Write for Taker {
    fn write(&mut self, buf: &[u8]) -> io::Result<usize> {
        if self.device.good == 0 && self.device.takes_none {
            return Ok(0);
        }
        if self.device.good == 0 {
            return Err(io::Error::from(io::ErrorKind::Other));
        }
        let most = self.device.most.min(self.device.good);
        let count = buf.len().min(most);
        let mut held = self.bytes.try_borrow_mut()?;
        held.extend_from_slice(&buf[..count])?;
        self.device.good -= count;
        Ok(count)
    }

    fn flush(&mut self) -> io::Result<()> {
        Ok(())
    }
}

/// Puts the file of a table at `disc.tab`.
pub fn store_table(
    alloc: Global,
    memory: &mut Memory,
    table: &BlockTable,
) -> Result<(), AllocError> {
    let mut file = Writer::new(Vec::new(alloc));
    write_table(table, &mut file).map_err(|_| AllocError)?;
    memory.store("disc.tab", file.into_inner().as_slice())
}

/// What a run returned and printed.
#[derive(Debug, Drop)]
pub struct Outcome {
    pub status: u8,
    pub out: String,
    pub err: String,
}

impl Outcome {
    /// Whether the run is done and nothing was printed.
    pub fn is_silent(&self) -> bool {
        self.status == 0 && self.out.is_empty() && self.err.is_empty()
    }

    /// Whether the run failed with status 2, printed exactly this line on standard error, and nothing on standard output.
    pub fn is_refused(&self, line: &str) -> bool {
        self.status == 2 && self.out.is_empty() && self.err.as_str() == line
    }
}

/// Runs the program with these arguments, separated by spaces, after its name.
pub fn ran<P: Program>(
    alloc: Global,
    program: &P,
    memory: &mut Memory,
    words: &str,
) -> Result<Outcome, AllocError> {
    let mut list: Vec<String> = Vec::new(alloc);
    list.push(String::from_str(alloc, "udfsalvage")?)?;
    for word in words.split(' ').filter(|word| !word.is_empty()) {
        list.push(String::from_str(alloc, word)?)?;
    }
    let out = Rc::new(alloc, RefCell::new(Vec::with_capacity(alloc, 4096)?))?;
    let err = Rc::new(alloc, RefCell::new(Vec::with_capacity(alloc, 4096)?))?;
    memory.begin()?;
    let status = run_on(alloc, program, memory, list.as_slice(), &out, &err)?;
    memory.settle()?;
    Ok(Outcome {
        status,
        out: text_of(alloc, &out)?,
        err: text_of(alloc, &err)?,
    })
}

/// Runs the program with these words on a disk, of which the run's calls are noted.
fn run_on<P: Program>(
    alloc: Global,
    program: &P,
    memory: &Memory,
    words: &[String],
    out: &Shared,
    err: &Shared,
) -> Result<u8, AllocError> {
    let calls = MemoryCalls::new(alloc, memory.stored(), memory.setting, memory.notes());
    let mut out = sink(out, memory.terminal)?;
    let mut err = sink(err, SOUND)?;
    run_over(program, memory, calls, words, &mut out, &mut err)
}

/// Runs the program with these words over the machine's files, which these calls reach.
fn run_over<P: Program, C: Calls + Drop>(
    program: &P,
    memory: &Memory,
    calls: C,
    words: &[String],
    out: &mut Writer<Taker>,
    err: &mut Writer<Taker>,
) -> Result<u8, AllocError>
    requires { IsFresh (C.log calls) }
{
    let clockwork = memory.clockwork();
    let alloc = clockwork.1;
    let room = String::with_capacity(alloc, PATH_ROOM)?;
    let mut files = Machine::new(calls, &clockwork, memory.witness(), room);
    Ok(program.run(alloc, words, &mut files, out, err))
}

fn sink(bytes: &Shared, device: Device) -> Result<Writer<Taker>, AllocError> {
    let bytes = bytes.clone()?;
    Ok(Writer::new(Taker { bytes, device }))
}

fn text_of(alloc: Global, bytes: &Shared) -> Result<String, AllocError> {
    match bytes.try_borrow() {
        Ok(held) => String::from_str(
            alloc,
            std::str::from_utf8(held.as_slice()).unwrap_or("no text"),
        ),
        Err(_) => String::from_str(alloc, "still borrowed"),
    }
}

/// A header: the magic, the block size 2048 and the count.
pub fn header(alloc: Global, magic: &[u8; 8], count: usize) -> Result<Vec<u8>, AllocError> {
    let mut bytes = Vec::from_slice(alloc, magic)?;
    bytes.extend_from_slice(&[0, 8, 0, 0])?;
    bytes.extend_from_slice(&number(count as u64))?;
    Ok(bytes)
}

/// The low 32 bits of a number, little-endian.
pub fn number(number: u64) -> [u8; 4] {
    let [a, b, c, d, ..] = number.to_le_bytes();
    [a, b, c, d]
}

/// A block number, and the byte that all bytes of the block are.
pub type Record = (u32, u8);

/// A reading file: each record is a block number and the byte that all its 2048 bytes are.
pub fn reading(alloc: Global, records: &[Record]) -> Result<Vec<u8>, AllocError> {
    let mut bytes = header(alloc, b"UDFREAD1", records.len())?;
    for (block, byte) in records {
        bytes.extend_from_slice(&number(u64::from(*block)))?;
        bytes.extend_from_slice(&[*byte; 2048])?;
    }
    Ok(bytes)
}

/// A table file of known blocks, in rising order.
pub fn table(alloc: Global, entries: &[Record]) -> Result<Vec<u8>, AllocError> {
    let mut bytes = header(alloc, b"UDFTABL1", entries.len())?;
    for (block, byte) in entries {
        bytes.extend_from_slice(&number(u64::from(*block)))?;
        bytes.push(1)?;
        bytes.extend_from_slice(&[*byte; 2048])?;
    }
    Ok(bytes)
}

/// Puts the files a.rd with block 300 of bytes 61 hex, b.rd with block 301 of bytes 62 hex, and c.rd which disputes block 300.
pub fn store_passes(alloc: Global, memory: &mut Memory) -> Result<(), AllocError> {
    memory.store("a.rd", reading(alloc, &[(300, 0x61)])?.as_slice())?;
    memory.store("b.rd", reading(alloc, &[(301, 0x62)])?.as_slice())?;
    memory.store("c.rd", reading(alloc, &[(300, 0x63)])?.as_slice())
}
