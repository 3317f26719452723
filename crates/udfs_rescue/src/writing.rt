//! Mapfiles are written.

ghost use Rattle.std.specs.Fmt.{digit_glyph};
ghost use Rattle.std.specs.Prelude.{◌≡◌, true, ℕ, ◌+◌, ◌*◌, ◌≤◌, ◌<◌, ◌++◌, List, OnOk, IfErr};
ghost use Rattle.std.specs.List.Sorted.{IsNonDecreasing};
ghost use Rattle.udfs_reading.specs.Writing.{Writes, Passes, FailedPast};
ghost use Rattle.udfs_rescue.specs.declared.run.Run.{Run};
ghost use Rattle.udfs_rescue.specs.declared.run.RunStatus.{RunStatus};
ghost use Rattle.udfs_rescue.specs.Writing.{wanted_status, table_status, status_byte, joined_run, runs_of_blocks, hex_digits, places, position_text, run_line, run_lines, made_by, mark_line, status_line, map_text, domain_text};
ghost use Rattle.udfs_rescue.specs.BlockSteps.{heading, TakesRun};

use crate::run::{Run, RunStatus};
use udfs_lattice::{BlockTable, Fact};
use udfs_reading::{Outgoing, Sink, WriteFault};

/// What has a status for each block: a table, or what else knows which blocks are known.
pub trait Statuses {
    /// The status of each block.
    ghost statuses: { Self → ℕ → RunStatus };

    /// The status of a block.
    fn status(&self, block: u32) -> RunStatus
        ensures { result ≡ statuses self.now block };
}

impl Statuses for BlockTable {
    ghost statuses = { λ t n. table_status t n };

    fn status(&self, block: u32) -> RunStatus {
        table_status(self, block)
    }
}

/// The blocks that are wanted, rising.
#[derive(Drop)]
struct Wanted<'a> {
    blocks: &'a [u32],
    ghost rises: { IsNonDecreasing blocks.now },
}

impl<'a> Statuses for Wanted<'a> {
    ghost statuses = { λ wanted n. wanted_status wanted.blocks.now n };

    fn status(&self, block: u32) -> RunStatus {
        wanted_status(self.blocks, block)
    }
}

fn wanted_status(wanted: &[u32], block: u32) -> RunStatus
    requires { IsNonDecreasing wanted.now }
    ensures { result ≡ wanted_status wanted.now block }
{
    match wanted.binary_search(&block) {
        Ok(_) => RunStatus::Finished,
        Err(_) => RunStatus::NonTried,
    }
}

fn table_status(table: &BlockTable, block: u32) -> RunStatus
    ensures { result ≡ table_status table.now block }
{
    match table.state(block) {
        Fact::Unknown => RunStatus::NonTried,
        Fact::Known(_) => RunStatus::Finished,
        Fact::Conflict => RunStatus::BadSector,
    }
}

/// The byte of a status in a mapfile.
fn status_byte(status: RunStatus) -> u8
    ensures { result ≡ status_byte status }
{
    match status {
        RunStatus::NonTried => b'?',
        RunStatus::NonTrimmed => b'*',
        RunStatus::NonScraped => b'/',
        RunStatus::BadSector => b'-',
        RunStatus::Finished => b'+',
    }
}

fn hex_digit(digit: u64) -> u8
    requires { digit < 16 }
    ensures { result ≡ digit_glyph true digit }
{
    if digit < 10 {
        48 + digit as u8
    } else {
        55 + digit as u8
    }
}

/// Writes the last `count` hexadecimal digits of a number.
fn write_digits<W: Sink>(
    out: &mut Outgoing,
    sink: &mut W,
    count: u32,
    n: u64,
) -> Result<(), WriteFault>
    ensures { Passes (W.stream sink.old) (W.stream sink.new) out.old out.new (hex_digits count n) result }
{
    if count == 0 {
        return Ok(());
    }
    write_digits(out, sink, count - 1, n / 16)?;
    out.push(sink, &[hex_digit(n % 16)])?;
    Ok(())
}

/// How many digits a number has: eight, or nine where it does not fit.
fn places(n: u64) -> u32
    ensures { result ≡ places n }
{
    if n < 4_294_967_296 { 8 } else { 9 }
}

/// A number as `0x%08X` prints it.
fn write_position<W: Sink>(out: &mut Outgoing, sink: &mut W, n: u64) -> Result<(), WriteFault>
    ensures { Passes (W.stream sink.old) (W.stream sink.new) out.old out.new (position_text n) result }
{
    out.push(sink, b"0x")?;
    write_digits(out, sink, places(n), n)?;
    Ok(())
}

/// The line of a run.
fn write_run<W: Sink>(out: &mut Outgoing, sink: &mut W, run: Run) -> Result<(), WriteFault>
    ensures { Passes (W.stream sink.old) (W.stream sink.new) out.old out.new (run_line run) result }
{
    write_position(out, sink, run.at)?;
    out.push(sink, b"  ")?;
    write_position(out, sink, run.size)?;
    out.push(sink, b"  ")?;
    out.push(sink, &[status_byte(run.status), b'\n'])?;
    Ok(())
}

/// Appends the next block to the run if both have the same status. Otherwise writes the run and begins another with the block.
fn take_block<W: Sink>(
    out: &mut Outgoing,
    sink: &mut W,
    run: &mut Run,
    block: u32,
    status: RunStatus,
) -> Result<(), WriteFault>
    requires { run.old.size ≤ 2048 * block }
    ensures ok { OnOk result (TakesRun (W.stream sink.old) (W.stream sink.new) out.old out.new run.old run.new (record { at = 2048 * block; size = 2048; status = status })) }
    ensures size { OnOk result (run.new.size ≤ 2048 * (block + 1)) }
    ensures err { IfErr result (λ _. (rest : List Run) → FailedPast (W.stream sink.old) (W.stream sink.new) out.old (run_lines (joined_run run.old (joined_run (record { at = 2048 * block; size = 2048; status = status }) rest)))) }
{
    if status_byte(run.status) == status_byte(status) {
        run.size += 2048;
        return Ok(());
    }
    write_run(out, sink, *run)?;
    *run = Run {
        at: 2048 * u64::from(block),
        size: 2048,
        status,
    };
    Ok(())
}

/// The runs of the blocks up to the last one.
fn write_runs<T: Statuses, W: Sink>(
    out: &mut Outgoing,
    sink: &mut W,
    of: &T,
    last: u32,
) -> Result<(), WriteFault>
    requires { last ≤ 4194303 }
    ensures { Passes (W.stream sink.old) (W.stream sink.new) out.old out.new (run_lines (runs_of_blocks (T.statuses of.now) 0 (last + 1))) result }
{
    let mut run = Run {
        at: 0,
        size: 2048,
        status: of.status(0),
    };
    let mut block = 1;
    while block <= last {
        take_block(out, sink, &mut run, block, of.status(block))?;
        block += 1;
    }
    write_run(out, sink, run)?;
    Ok(())
}

/// Who made the map, where it is marked the mark of wanted blocks, and the status line.
fn write_heading<W: Sink>(
    out: &mut Outgoing,
    sink: &mut W,
    is_marked: bool,
) -> Result<(), WriteFault>
    ensures { Passes (W.stream sink.old) (W.stream sink.new) out.old out.new (heading is_marked) result }
{
    if is_marked {
        out.push(
            sink,
            b"# Mapfile. Created by udfsalvage 0.1.0\n# Blocks to read again, for ddrescue -m: not the mapfile of a pass\n0x00000000     +               1\n",
        )
    } else {
        out.push(
            sink,
            b"# Mapfile. Created by udfsalvage 0.1.0\n0x00000000     +               1\n",
        )
    }
}

fn write_all_lines<T: Statuses, W: Sink>(
    out: &mut Outgoing,
    sink: &mut W,
    of: &T,
    is_marked: bool,
    last: u32,
) -> Result<(), WriteFault>
    requires { last ≤ 4194303 }
    ensures { Passes (W.stream sink.old) (W.stream sink.new) out.old out.new (heading is_marked ++ run_lines (runs_of_blocks (T.statuses of.now) 0 (last + 1))) result }
{
    write_heading(out, sink, is_marked)?;
    write_runs(out, sink, of, last)?;
    Ok(())
}

fn write_map<T: Statuses, W: Sink>(
    of: &T,
    is_marked: bool,
    last: u32,
    sink: &mut W,
) -> Result<(), WriteFault>
    requires { last ≤ 4194303 }
    ensures { Writes (W.stream sink.old) (W.stream sink.new) (heading is_marked ++ run_lines (runs_of_blocks (T.statuses of.now) 0 (last + 1))) result }
{
    let mut out = Outgoing::new();
    write_all_lines(&mut out, sink, of, is_marked, last)?;
    out.flush(sink)?;
    Ok(())
}

/// Writes the mapfile in which the wanted blocks are `+`, and all others from 0 to `last` are `?`. Its second line is a comment
/// that marks it as blocks to read again: `Mapfile::read` rejects it with `NotPass` at this line. Its runs go from 0 to
/// `2048 * (last + 1)` bytes. The wanted blocks are given in rising order; those above `last` are ignored. It allocates no memory.
///
/// # Errors
///
/// `WriteFault` if and only if the sink failed. A prefix of the mapfile has been written then.
pub fn write_domain<W: Sink>(wanted: &[u32], last: u32, sink: &mut W) -> Result<(), WriteFault>
    requires rises { IsNonDecreasing wanted.now }
    requires last { last ≤ 4194303 }
    ensures { Writes (W.stream sink.old) (W.stream sink.new) (domain_text wanted.now last) result }
{
    write_map(&Wanted { blocks: wanted }, true, last, sink)
}

/// Writes the mapfile of the image of a table, or of what else has statuses: from block 0 to `last`, `+` for each block that is known,
/// `-` for one in conflict, and `?` for one that is unknown. Its runs go from 0 to `2048 * (last + 1)` bytes. It takes no memory.
///
/// # Errors
///
/// `WriteFault` if and only if the sink failed. A prefix of the mapfile has been written then.
pub fn write_image_map<T: Statuses, W: Sink>(
    of: &T,
    last: u32,
    sink: &mut W,
) -> Result<(), WriteFault>
    requires { last ≤ 4194303 }
    ensures { Writes (W.stream sink.old) (W.stream sink.new) (map_text (T.statuses of.now) last) result }
{
    write_map(of, false, last, sink)
}
