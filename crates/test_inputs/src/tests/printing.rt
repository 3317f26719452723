//! A printer hands on all that it takes, and `finish` reports a fault of the sink, however late.

use crate::tests::assert_same;
use std::alloc::{AllocError, Global};
use std::io;
use std::io::Write;
use std::test::Fail;
use udfs_reading::{Printer, WriteFault, Writer};

/// Takes bytes until it has taken `good`, takes none in the next call, and takes all after that.
#[derive(Drop)]
struct Stumbling {
    taken: Vec<u8>,
    good: usize,
}

impl Write for Stumbling {
    fn write(&mut self, buf: &[u8]) -> io::Result<usize> {
        let n = buf.len().min(self.good);
        if n == 0 && !buf.is_empty() {
            self.good = usize::MAX;
            return Ok(0);
        }
        self.good -= n;
        self.taken.extend_from_slice(&buf[..n])?;
        Ok(n)
    }

    fn flush(&mut self) -> io::Result<()> {
        Ok(())
    }
}

/// Puts a line of eleven bytes `count` times. Returns what the sink took, and how that ended.
fn print_lines(
    alloc: Global,
    good: usize,
    count: u32,
) -> Result<(Vec<u8>, Result<(), WriteFault>), AllocError> {
    let mut sink = Writer::new(Stumbling {
        taken: Vec::new(alloc),
        good,
    });
    let mut out = Printer::new();
    for _ in 0..count {
        out.put_number(&mut sink, 4_194_303);
        out.put(&mut sink, " is");
        out.put_bytes(&mut sink, b"\n");
    }
    let outcome = out.finish(&mut sink);
    let Stumbling { taken, good: _ } = sink.into_inner();
    Ok((taken, outcome))
}

#[test]
fn all_is_handed_on(rt: HostRuntime) -> Result<(), Fail> {
    let (taken, outcome) = print_lines(rt.alloc(), usize::MAX, 40_000)?;
    assert!(rt; outcome.is_ok());
    assert_eq!(rt; taken.len(), 440_000);
    assert!(rt; taken.as_slice().starts_with(b"4194303 is\n4194303 is\n"));
    assert!(rt; taken.as_slice().ends_with(b"\n4194303 is\n"));
    Ok(())
}

#[test]
fn a_fault_is_kept(rt: HostRuntime) -> Result<(), Fail> {
    static CASES: [usize; 5] = [0, 1_000, 262_144, 300_000, 439_999];
    for &good in &CASES {
        let (taken, outcome) = print_lines(rt.alloc(), good, 40_000)?;
        assert_same(&rt, outcome, Err(WriteFault));
        assert_eq!(rt; taken.len(), good);
    }
    Ok(())
}
