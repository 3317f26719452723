//! Reports that a sink or memory stops half way.

use crate::tests::{assert_case, assert_same, assert_same_in};
use std::alloc::Global;
use std::io;
use std::io::Write;
use std::test::Fail;
use udfs_lattice::BlockTable;
use udfs_reading::{Reader, Writer};
use udfs_salvage::{RunError, report_run, salvage, write_report, write_volume};
use udfs_samples::{Disc, LAST};

/// Takes `good` bytes, one in each call, and then fails, or takes none where `takes_none`.
#[derive(Drop)]
struct Narrow {
    bytes: Vec<u8>,
    good: usize,
    takes_none: bool,
}

impl Write for Narrow {
    fn write(&mut self, buf: &[u8]) -> io::Result<usize> {
        if self.good == 0 && self.takes_none {
            return Ok(0);
        }
        if self.good == 0 {
            return Err(io::Error::from(io::ErrorKind::Other));
        }
        let Some(byte) = buf.first() else {
            return Ok(0);
        };
        self.bytes.push(*byte)?;
        self.good -= 1;
        Ok(1)
    }

    fn flush(&mut self) -> io::Result<()> {
        Ok(())
    }
}

/// The text of a volume of which the anchors alone are not known.
const TEXT: &[u8] =
    b"UDFREPORT1 last 600\nknown 598 conflict 0\nvolume holes 256 344 600\nreread 256 unknown\nreread 344 unknown\nreread 600 unknown\nend\n";

fn without_anchors(alloc: Global) -> Result<BlockTable, Fail> {
    Ok(Disc::type1(alloc)?.known_but(alloc, &[256, 344, 600])?)
}

#[test]
fn a_report_is_written_whole(rt: HostRuntime) -> Result<(), Fail> {
    let alloc = rt.alloc();
    let table = without_anchors(alloc)?;
    let report = salvage(alloc, &table, LAST)?;
    assert_same(&rt, report.last, LAST);
    assert!(rt; report.reread.as_slice() == [256, 344, 600].as_slice());
    let mut text = Writer::new(Vec::new(alloc));
    write_report(&report, &mut text)?;
    assert_same(&rt, text.into_inner().as_slice(), TEXT);
    let mut line = Writer::new(Vec::new(alloc));
    write_volume(&report, &mut line)?;
    assert_same(
        &rt,
        line.into_inner().as_slice(),
        b"volume holes 256 344 600\n".as_slice(),
    );
    Ok(())
}

#[test]
fn a_sink_that_fails_holds_a_beginning(rt: HostRuntime) -> Result<(), Fail> {
    let alloc = rt.alloc();
    let table = without_anchors(alloc)?;
    let report = salvage(alloc, &table, LAST)?;
    for good in 0..=TEXT.len() {
        let bytes = Vec::new(alloc);
        let takes_none = good % 2 == 1;
        let mut sink = Writer::new(Narrow {
            bytes,
            good,
            takes_none,
        });
        let outcome = write_report(&report, &mut sink);
        let expected = if good == TEXT.len() {
            Ok(())
        } else {
            Err(RunError::Write)
        };
        assert_case(&rt, outcome == expected, good);
        let begun = TEXT.get(..good).unwrap_or(&[]);
        assert_same_in(&rt, sink.into_inner().bytes.as_slice(), begun, good);
    }
    Ok(())
}

/// What is read as two empty readings.
const EMPTY: &[u8] = b"UDFREAD1\x00\x08\x00\x00\x00\x00\x00\x00";

/// The report of nothing.
const NOTHING: &[u8] =
    b"UDFREPORT1 last 600\nknown 0 conflict 0\nvolume holes 256 344 600\nreread 256 unknown\nreread 344 unknown\nreread 600 unknown\nend\n";

/// Where one allocation fails, the result is the report, or out of memory and a beginning of the report.
#[test]
fn want_of_memory_is_told(rt: HostRuntime) -> Result<(), Fail> {
    let alloc = rt.alloc();
    let Ok(bytes) = Vec::with_capacity(alloc, 4096) else {
        return Ok(());
    };
    let mut inputs = [Reader::new(EMPTY), Reader::new(EMPTY)];
    let mut text = Writer::new(bytes);
    let outcome = report_run(alloc, &mut inputs, LAST, &mut text);
    let out = text.into_inner();
    match outcome {
        Ok(whole) => {
            assert!(rt; !whole);
            assert_same(&rt, out.as_slice(), NOTHING);
        }
        Err(error) => {
            assert!(rt; error == RunError::OutOfMemory);
            assert!(rt; NOTHING.starts_with(out.as_slice()));
        }
    }
    Ok(())
}
