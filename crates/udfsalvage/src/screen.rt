//! The terminal of the person who watches a run: one line on standard error, rewritten in place, that says how far the run is.

use std::alloc::{AllocError, Global};
use std::cell::Cell;
use std::io::{Error, Write};
use std::time::{Clock, Duration, Instant};
use udfs_host_fs::{Stage, Watch};
use udfs_overview::push_size;
use udfs_reading::{DeviceFault, Sink};

/// How long a run lasts before it says how far it is, in milliseconds.
const SILENT: u64 = 1000;

/// The least time between two updates of the line, in milliseconds.
const STANDS: u64 = 100;

/// What removes the line: the cursor goes to its beginning, and the terminal clears it.
const CLEARS: &[u8] = b"\r\x1b[K";

/// A terminal, or no terminal where no person watches.
#[derive(Drop)]
pub struct Screen<'a, C: Clock, W: Write + Copy> {
    alloc: Global,
    clock: &'a C,
    err: W,
    is_watched: bool,
    /// Whether remarks are written, and whether they never are.
    remarks: Cell<bool>,
    hushed: Cell<bool>,
    reason: Cell<Option<Error>>,
    /// When the line is written next, if ever.
    next: Cell<Option<Instant>>,
    is_shown: Cell<bool>,
    stage: Cell<Stage>,
    /// How many inputs were opened, and how many bytes they have together where that is known.
    opened: Cell<usize>,
    size: Cell<Option<u64>>,
    /// The input that was read last, and how many bytes were moved in this stage.
    input: Cell<usize>,
    moved: Cell<u64>,
}

impl<'a, C: Clock, W: Write + Copy> Screen<'a, C, W> {
    /// The screen of a run that begins now, on this standard error.
    pub fn new(alloc: Global, clock: &'a C, err: W, is_watched: bool) -> Screen<'a, C, W> {
        let screen = Screen {
            alloc,
            clock,
            err,
            is_watched,
            remarks: Cell::new(is_watched),
            hushed: Cell::new(false),
            reason: Cell::new(None),
            next: Cell::new(None),
            is_shown: Cell::new(false),
            stage: Cell::new(Stage::Reading),
            opened: Cell::new(0),
            size: Cell::new(Some(0)),
            input: Cell::new(0),
            moved: Cell::new(0),
        };
        if is_watched {
            screen.wait(SILENT);
        }
        screen
    }

    /// The line is written next after `milliseconds` milliseconds, or never where the clock cannot be read.
    fn wait(&self, milliseconds: u64) {
        let next = match Instant::now(self.clock) {
            Ok(now) => now.checked_add(Duration::from_millis(milliseconds)),
            Err(_) => None,
        };
        self.next.set(next);
    }

    /// Writes to the terminal. What it does not take is lost.
    fn write(&self, bytes: &[u8]) {
        let mut err = self.err;
        let _ = err.write_all(bytes);
    }

    /// Removes the line, if it is shown.
    pub fn clear(&self) {
        if self.is_shown.get() {
            self.write(CLEARS);
            self.is_shown.set(false);
        }
    }

    /// Counts bytes, and writes the line where it is time.
    fn count(&self, count: usize) {
        self.moved
            .set(self.moved.get().saturating_add(count as u64));
        self.tick();
    }

    /// Writes the line where it is time.
    fn tick(&self) {
        let Some(next) = self.next.get() else {
            return;
        };
        match Instant::now(self.clock) {
            Ok(now) if now >= next => {}
            _ => return,
        }
        if let Ok(line) = self.line() {
            self.write(line.as_bytes());
            self.is_shown.set(true);
        }
        self.wait(STANDS);
    }

    /// The line, and what removes the one before it.
    fn line(&self) -> Result<String, AllocError> {
        match self.stage.get() {
            Stage::Reading => self.reading(),
            Stage::Walking => format!(in self.alloc; "\r\x1b[Kwalking the volume"),
            Stage::Writing => {
                let mut line = format!(in self.alloc; "\r\x1b[Kwriting   ")?;
                push_bytes(self.moved.get(), &mut line)?;
                Ok(line)
            }
        }
    }

    /// `reading 2 of 3   412.0 MB of 1.0 GB   41 %`; without what is not known.
    fn reading(&self) -> Result<String, AllocError> {
        let (input, opened) = (self.input.get(), self.opened.get());
        let mut line = format!(in self.alloc; "\r\x1b[Kreading {input} of {opened}   ")?;
        let moved = self.moved.get();
        push_bytes(moved, &mut line)?;
        if let Some(size) = self.size.get()
            && let Some(percent) = percent_of(moved, size)
        {
            line.push_str(" of ")?;
            push_bytes(size, &mut line)?;
            let more = format!(in self.alloc; "   {percent} %")?;
            line.push_str(more.as_str())?;
        }
        Ok(line)
    }
}

/// `part` as a percentage of `all`, rounded down; `None` if `all` is 0 or less than `part`.
fn percent_of(part: u64, all: u64) -> Option<u128> {
    if all == 0 || part > all {
        return None;
    }
    Some(part as u128 * 100 / all as u128)
}

/// Appends a number of bytes as people read it.
fn push_bytes(count: u64, line: &mut String) -> Result<(), AllocError> {
    match push_size(count as u128, line) {
        Ok(()) => Ok(()),
        Err(_) => Err(AllocError),
    }
}

impl<'a, C: Clock, W: Write + Copy> Watch for Screen<'a, C, W> {
    fn failed(&self, error: Error) {
        self.reason.set(Some(error));
    }

    fn reason(&self) -> Option<Error> {
        self.reason.get()
    }

    fn is_watched(&self) -> bool {
        self.is_watched
    }

    fn begin(&self, stage: Stage) {
        self.stage.set(stage);
        self.moved.set(0);
        self.opened.set(0);
        self.size.set(Some(0));
        self.tick();
    }

    fn opened(&self, size: Option<u64>) -> usize {
        let number = self.opened.get().saturating_add(1);
        self.opened.set(number);
        let sum = match (self.size.get(), size) {
            (Some(before), Some(size)) => Some(before.saturating_add(size)),
            _ => None,
        };
        self.size.set(sum);
        number
    }

    fn read(&self, input: usize, count: usize) {
        self.input.set(input);
        // While outputs are written, what is read for that does not count.
        match self.stage.get() {
            Stage::Writing => self.tick(),
            Stage::Reading | Stage::Walking => self.count(count),
        }
    }

    fn wrote(&self, count: usize) {
        self.count(count);
    }

    fn hush(&self) {
        self.clear();
        self.next.set(None);
        self.hushed.set(true);
    }

    fn speak(&self) {
        self.remarks.set(true);
    }

    fn remark(&self, text: &str) {
        if self.hushed.get() || !self.remarks.get() {
            return;
        }
        self.clear();
        if let Ok(line) = format!(in self.alloc; "  {text}\n") {
            self.write(line.as_bytes());
        }
    }
}

/// A stream before whose pieces the screen's line is removed.
#[derive(Drop)]
pub struct Cleared<'a, S: Sink, C: Clock, W: Write + Copy> {
    stream: S,
    screen: &'a Screen<'a, C, W>,
}

impl<'a, S: Sink, C: Clock, W: Write + Copy> Cleared<'a, S, C, W> {
    /// A stream of a run with this screen.
    pub fn new(stream: S, screen: &'a Screen<'a, C, W>) -> Cleared<'a, S, C, W> {
        Cleared { stream, screen }
    }
}

impl<'a, S: Sink, C: Clock, W: Write + Copy> Sink for Cleared<'a, S, C, W> {
    ghost stream = { λ c. S.stream c.stream };

    fn write(&mut self, buf: &[u8]) -> Result<usize, DeviceFault> {
        self.screen.clear();
        self.stream.write(buf)
    }
}
