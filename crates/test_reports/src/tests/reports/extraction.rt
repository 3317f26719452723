//! The bytes of nodes.

use crate::tests::{assert_case, assert_same, assert_same_in};
use std::alloc::Global;
use std::io;
use std::io::Write;
use std::process::Abort;
use std::test::Fail;
use udfs_lattice::BlockTable;
use udfs_reading::Writer;
use udfs_salvage::{ExtractError, Fill, extract, salvage};
use udfs_samples::{Bytes, Disc, LAST};

/// Takes `good` bytes, and then fails.
#[derive(Drop)]
pub struct Full {
    pub bytes: Vec<u8>,
    pub good: usize,
}

impl Write for Full {
    fn write(&mut self, buf: &[u8]) -> io::Result<usize> {
        let count = buf.len().min(self.good);
        if count == 0 && !buf.is_empty() {
            return Err(io::Error::from(io::ErrorKind::Other));
        }
        self.bytes.extend_from_slice(&buf[..count])?;
        self.good -= count;
        Ok(count)
    }

    fn flush(&mut self) -> io::Result<()> {
        Ok(())
    }
}

/// What the extraction of a node returns, and the bytes that it wrote.
#[derive(Drop)]
pub struct Outcome {
    pub outcome: Result<(), ExtractError>,
    pub bytes: Vec<u8>,
}

/// Extracts the node at this index into a sink that takes `good` bytes.
fn extracted(
    alloc: Global,
    table: &BlockTable,
    index: usize,
    fill: Fill,
    good: usize,
) -> Result<Outcome, Fail> {
    let report = salvage(alloc, table, LAST)?;
    let bytes = Vec::new(alloc);
    let mut sink = Writer::new(Full { bytes, good });
    let outcome = if index < report.nodes.len() {
        extract(alloc, &report, index, fill, &mut sink)
    } else {
        Err(ExtractError::NotWhole)
    };
    let bytes = sink.into_inner().bytes;
    Ok(Outcome { outcome, bytes })
}

/// The node at this index is extracted, and these are its bytes.
fn assert_extracted(
    rt: &impl Abort,
    alloc: Global,
    table: &BlockTable,
    index: usize,
    fill: Fill,
    parts: &[(u8, usize)],
) -> Result<(), Fail> {
    let file = extracted(alloc, table, index, fill, usize::MAX)?;
    assert!(rt; file.outcome == Ok(()), "{index}");
    assert_same(rt, file.bytes.as_slice(), runs(alloc, parts)?.as_slice());
    Ok(())
}

/// The node at this index is not extracted.
fn assert_not_whole(
    rt: &impl Abort,
    alloc: Global,
    table: &BlockTable,
    index: usize,
    fill: Fill,
) -> Result<(), Fail> {
    let node = extracted(alloc, table, index, fill, usize::MAX)?;
    assert!(rt; node.outcome == Err(ExtractError::NotWhole), "{index}");
    assert!(rt; node.bytes.is_empty(), "{index}");
    Ok(())
}

/// Runs of equal bytes, one after the other.
pub fn runs(alloc: Global, parts: &[(u8, usize)]) -> Result<Vec<u8>, Fail> {
    let mut bytes = Vec::new(alloc);
    for (byte, count) in parts {
        for _ in 0..*count {
            bytes.push(*byte)?;
        }
    }
    Ok(bytes)
}

/// The bytes of the file `A` of the sample volumes.
pub const A: [(u8, usize); 3] = [(0x61, 2048), (0x62, 2048), (0x63, 904)];

/// Each node of the table is extracted whole.
fn assert_whole(
    rt: &impl Abort,
    alloc: Global,
    table: &BlockTable,
    fill: Fill,
) -> Result<(), Fail> {
    assert_extracted(rt, alloc, table, 1, fill, &A)?;
    assert_extracted(rt, alloc, table, 2, fill, &[(b'H', 1), (b'i', 1)])?;
    let root = extracted(alloc, table, 0, fill, usize::MAX)?;
    assert!(rt; root.outcome == Ok(()));
    assert_eq!(rt; root.bytes.len(), 120);
    assert_same(rt, root.bytes.as_slice().get(..2), Some([1, 1].as_slice()));
    Ok(())
}

#[test]
fn whole_nodes_are_written(rt: HostRuntime) -> Result<(), Fail> {
    let alloc = rt.alloc();
    for disc in [
        Disc::type1(alloc)?,
        Disc::sparable(alloc)?,
        Disc::two_maps(alloc)?,
    ] {
        let table = disc.known_but(alloc, &[])?;
        assert_whole(&rt, alloc, &table, Fill::Refuse)?;
        assert_whole(&rt, alloc, &table, Fill::Byte(0xEE))?;
    }
    Ok(())
}

/// Block 278 is not read, and then it is in conflict.
#[test]
fn torn_nodes_are_filled_only_where_asked(rt: HostRuntime) -> Result<(), Fail> {
    let alloc = rt.alloc();
    let disc = Disc::type1(alloc)?;
    let mut disputed = disc.known_but(alloc, &[])?;
    disputed.put(278, &[0; 2048])?;
    for table in [disc.known_but(alloc, &[278])?, disputed] {
        assert_not_whole(&rt, alloc, &table, 1, Fill::Refuse)?;
        for byte in [0, 0xEE] {
            let parts = [(0x61, 2048), (byte, 2048), (0x63, 904)];
            assert_extracted(&rt, alloc, &table, 1, Fill::Byte(byte), &parts)?;
        }
    }
    Ok(())
}

/// It is a directory on its own path; its address is bad; its entry is not read.
#[test]
fn nodes_that_are_never_written(rt: HostRuntime) -> Result<(), Fail> {
    static CASES: [(Bytes, u32); 3] = [
        ((274, 64, &[1]), 400),
        ((274, 68, &[1]), 400),
        ((274, 0, &[1]), 275),
    ];
    let alloc = rt.alloc();
    for &(change, unread) in &CASES {
        let mut disc = Disc::type1(alloc)?;
        disc.write(&[change])?;
        let table = disc.known_but(alloc, &[unread])?;
        assert_not_whole(&rt, alloc, &table, 1, Fill::Refuse)?;
        assert_not_whole(&rt, alloc, &table, 1, Fill::Byte(0))?;
    }
    Ok(())
}

/// Two nodes that are reported alike, one with the bytes of blocks 277 to 279 and one of zeros.
#[test]
fn two_files_of_one_path(rt: HostRuntime) -> Result<(), Fail> {
    let alloc = rt.alloc();
    let mut disc = Disc::type1(alloc)?;
    disc.write(&[
        (274, 119, &[0x41]),
        (276, 34, &[0]),
        (276, 56, &[0x88, 0x13]),
        (276, 172, &[8]),
        (276, 176, &[0x88, 0x13, 0, 0, 8]),
    ])?;
    let table = disc.known_but(alloc, &[])?;
    assert_extracted(&rt, alloc, &table, 1, Fill::Refuse, &A)?;
    assert_extracted(&rt, alloc, &table, 2, Fill::Refuse, &[(0, 5000)])
}

/// An extent that is allocated and not recorded has zeros, whatever is in its blocks.
#[test]
fn what_is_not_recorded_is_zero(rt: HostRuntime) -> Result<(), Fail> {
    let alloc = rt.alloc();
    let mut disc = Disc::type1(alloc)?;
    disc.write(&[(275, 179, &[0x40])])?;
    let table = disc.known_but(alloc, &[277, 278])?;
    assert_extracted(&rt, alloc, &table, 1, Fill::Refuse, &[(0, 5000)])
}

#[test]
fn a_sink_that_fails_holds_a_beginning(rt: HostRuntime) -> Result<(), Fail> {
    let alloc = rt.alloc();
    let table = Disc::type1(alloc)?.known_but(alloc, &[])?;
    let whole = runs(alloc, &A)?;
    for good in [0, 1, 2047, 2048, 4999, 5000] {
        let file = extracted(alloc, &table, 1, Fill::Refuse, good)?;
        let expected = if good == 5000 {
            Ok(())
        } else {
            Err(ExtractError::Write)
        };
        assert_case(&rt, file.outcome == expected, good);
        let begun = whole.as_slice().get(..good).unwrap_or(&[]);
        assert_same_in(&rt, file.bytes.as_slice(), begun, good);
    }
    Ok(())
}

/// A torn file of 2^64 - 1 bytes, all of them missing with the block of its continuation.
#[test]
fn a_size_of_64_bits_ends_with_the_sink(rt: HostRuntime) -> Result<(), Fail> {
    let alloc = rt.alloc();
    let mut disc = Disc::type1(alloc)?;
    disc.write(&[
        (275, 56, &[0xFF; 8]),
        (275, 176, &[0, 8, 0, 0xC0, 6, 0, 0, 0]),
    ])?;
    let table = disc.known_but(alloc, &[278])?;
    let file = extracted(alloc, &table, 1, Fill::Byte(0xEE), 4096)?;
    assert!(rt; file.outcome == Err(ExtractError::Write));
    assert_same(
        &rt,
        file.bytes.as_slice(),
        runs(alloc, &[(0xEE, 4096)])?.as_slice(),
    );
    Ok(())
}
