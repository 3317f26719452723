//! The page of a sample volume, over a sink that fails.

use super::stores::judged;
use crate::tests::{assert_case, assert_same_in};
use std::io;
use std::io::Write;
use std::test::Fail;
use udfs_overview::Given;
use udfs_page::{Called, write_page_by};
use udfs_reading::Writer;
use udfs_salvage::{PrintError, RunError, survey_volume};
use udfs_samples::{Disc, LAST};

/// The arguments of `page --last 600 --out p.html disc.tab`.
const GIVEN: Given<'static> = Given {
    files: &["disc.tab"],
    parts: &[],
    size: None,
    force: false,
};

/// The page has no title.
const CALLED: Called<'static> = Called {
    title: None,
    out: "p.html",
};

/// Takes `good` bytes, one in each call, and then fails.
#[derive(Drop)]
struct Narrow {
    bytes: Vec<u8>,
    good: usize,
}

impl Write for Narrow {
    fn write(&mut self, buf: &[u8]) -> io::Result<usize> {
        if self.good == 0 {
            return Err(io::Error::from(io::ErrorKind::Other));
        }
        let Some(byte) = buf.first() else {
            return Ok(0);
        };
        self.bytes.push(*byte)?;
        self.good -= 1;
        Ok(1)
    }

    fn flush(&mut self) -> io::Result<()> {
        Ok(())
    }
}

/// Also where its last byte is not taken.
#[test]
fn a_sink_that_fails_is_told(rt: HostRuntime) -> Result<(), Fail> {
    let alloc = rt.alloc();
    let table = Disc::type1(alloc)?.known_but(alloc, &[278])?;
    let survey = survey_volume(alloc, &table, LAST)?;
    let answer = judged(alloc, &survey)?;
    let mut text = Writer::new(Vec::new(alloc));
    write_page_by(alloc, &GIVEN, &CALLED, &survey, &answer, &mut text)?;
    let whole = text.into_inner();
    for good in [0usize, 1, 50_000, whole.len().saturating_sub(1)] {
        let bytes = Vec::new(alloc);
        let mut sink = Writer::new(Narrow { bytes, good });
        let outcome = write_page_by(alloc, &GIVEN, &CALLED, &survey, &answer, &mut sink);
        assert_case(&rt, outcome == Err(PrintError::Run(RunError::Write)), good);
        let begun = whole.as_slice().get(..good).unwrap_or(&[]);
        assert_same_in(&rt, sink.into_inner().bytes.as_slice(), begun, good);
    }
    Ok(())
}
