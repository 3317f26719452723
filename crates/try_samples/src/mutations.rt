//! Discs of which one byte is changed, with the checksum of its tag mended.

use crate::Ending;
use crate::discs::disc_named;
use std::alloc::{AllocError, Global};
use udfs_lattice::TableError;
use udfs_reading::{Sink, Writer, write_all};
use udfs_salvage::{Report, SalvageError, Volume, all_whole, salvage, write_report};
use udfs_samples::{Disc, LAST};

/// The blocks of the sample discs that hold descriptors.
const DESCRIPTORS: [u32; 24] = [
    256, 344, 600, 32, 33, 34, 35, 48, 49, 50, 51, 100, 200, 272, 273, 274, 275, 276, 278, 400,
    401, 402, 403, 404,
];

/// These, and the rest of what their volumes need.
const NEEDED: [u32; 31] = [
    256, 344, 600, 32, 33, 34, 35, 48, 49, 50, 51, 100, 200, 272, 273, 274, 275, 276, 277, 278,
    279, 400, 401, 402, 403, 404, 405, 406, 407, 520, 521,
];

/// What is said of changed discs, counted.
#[derive(Clone, Copy)]
struct Counts {
    /// Volumes all of whose nodes are whole.
    whole: u32,
    /// Other open volumes.
    open: u32,
    /// Volumes that have holes.
    holes: u32,
    /// Volumes with a fault.
    faults: u32,
    /// Tables without a report, for a named reason.
    refused: u32,
    /// All other results.
    wrong: u32,
}

/// Whether a text is a report's, by its beginning and its last line.
fn is_report(text: &[u8]) -> bool {
    text.starts_with(b"UDFREPORT") && text.ends_with(b"\nend\n")
}

impl Counts {
    /// Counts a report.
    fn count(&mut self, report: &Report<'_>) {
        let slot = match report.volume {
            Volume::Open(_) => {
                if all_whole(&report.nodes) {
                    &mut self.whole
                } else {
                    &mut self.open
                }
            }
            Volume::Holes(_) => &mut self.holes,
            Volume::Fault(_) => &mut self.faults,
        };
        *slot = slot.wrapping_add(1);
    }

    /// Counts what is said of a disc.
    fn count_disc(&mut self, alloc: Global, disc: &Disc) -> Result<(), TableError> {
        let table = disc.known_at(alloc, &NEEDED)?;
        match salvage(alloc, &table, LAST) {
            Ok(report) => {
                let mut text = Writer::new(Vec::new(alloc));
                let written = write_report(&report, &mut text).is_ok();
                if written && is_report(text.into_inner().as_slice()) {
                    self.count(&report);
                } else {
                    self.wrong = self.wrong.wrapping_add(1);
                }
            }
            Err(SalvageError::OutOfMemory) => self.wrong = self.wrong.wrapping_add(1),
            Err(_) => self.refused = self.refused.wrapping_add(1),
        }
        Ok(())
    }

    /// Counts what is said of a disc with each other value of a byte.
    fn count_byte(
        &mut self,
        alloc: Global,
        disc: &mut Disc,
        n: u32,
        at: usize,
    ) -> Result<(), TableError> {
        let Some(block) = disc.block(n) else {
            return Ok(());
        };
        let Some(old) = block.get(at) else {
            return Ok(());
        };
        let old = *old;
        for flip in [0x01u8, 0x02, 0x10, 0x80, 0xff, old, !old] {
            if flip != 0 {
                disc.write_at(n, at, &[old ^ flip])?;
                mend(disc, n, at)?;
                self.count_disc(alloc, disc)?;
            }
        }
        disc.write_at(n, at, &[old])?;
        mend(disc, n, at)?;
        Ok(())
    }

    /// Counts what is said of a disc with each byte of a block changed.
    fn count_block(&mut self, alloc: Global, disc: &mut Disc, n: u32) -> Result<(), TableError> {
        for at in 0..2048usize {
            self.count_byte(alloc, disc, n, at)?;
        }
        Ok(())
    }
}

/// The sum of the bytes of a tag but that of its checksum (ECMA-167 3/7.2.3).
fn checksum(tag: &[u8]) -> u8 {
    let mut sum = 0u8;
    for (i, byte) in tag.iter().enumerate() {
        if i != 4 {
            sum = sum.wrapping_add(*byte);
        }
    }
    sum
}

/// Corrects the checksum of the tag that holds a byte, unless the byte is that checksum: in the directories of the sample discs
/// tags begin at 0, 40 and 80, elsewhere at 0.
fn mend(disc: &mut Disc, n: u32, at: usize) -> Result<(), AllocError> {
    let is_directory = n == 274 || n == 402;
    let start = match at {
        0..16 => 0,
        40..56 => 40,
        80..96 => 80,
        _ => return Ok(()),
    };
    if at == start + 4 || (start != 0 && !is_directory) {
        return Ok(());
    }
    let Some(block) = disc.block(n) else {
        return Ok(());
    };
    let Some(tag) = block.get(start..start + 16) else {
        return Ok(());
    };
    let sum = checksum(tag);
    disc.write_at(n, start + 4, &[sum])
}

/// Counts what is said of a sample disc with each byte of its descriptors changed in turn.
fn count_all(alloc: Global, name: &str) -> Result<Counts, TableError> {
    let mut counts = Counts {
        whole: 0,
        open: 0,
        holes: 0,
        faults: 0,
        refused: 0,
        wrong: 0,
    };
    let mut disc = disc_named(alloc, name)?;
    for n in DESCRIPTORS {
        counts.count_block(alloc, &mut disc, n)?;
    }
    Ok(counts)
}

/// Says of each change of one byte of a disc's descriptors what the report says, and prints how often each was said.
pub fn mutate<W: Sink>(alloc: Global, name: &str, out: &mut W) -> Ending {
    let Ok(counts) = count_all(alloc, name) else {
        return Ending::Unready;
    };
    let Counts {
        whole,
        open,
        holes,
        faults,
        refused,
        wrong,
    } = counts;
    let Ok(line) = format!(in alloc;
        "{name} whole {whole} open {open} holes {holes} faults {faults} refused {refused} wrong {wrong}\n"
    ) else {
        return Ending::Unready;
    };
    if write_all(out, line.as_bytes()).is_err() || wrong != 0 {
        return Ending::Wrong;
    }
    Ending::Done
}
