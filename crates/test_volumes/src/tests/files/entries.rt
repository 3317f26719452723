//! The file set and entries.

use super::told::laid_out;
use crate::tests::assert_same_in;
use crate::tests::rows::{Asked, Row, check, check_at};
use crate::tests::starts::Start;
use std::test::Fail;
use udfs_file::faults::NodeFault;
use udfs_file::file_sets::address_fault;
use udfs_tag::LongAd;
use udfs_volume::Profile;

/// Changes, the blocks that are not known, and what the file set says.
static ROOTS: [Row; 8] = [
    (&[], &[], "root 0:1"),
    (&[], &[272], "holes 272"),
    (&[(272, 0, &[1])], &[], "fault 16 FileSet"),
    // its address
    (&[(32, 251, &[0x40])], &[], "fault 16 FileSet"),
    (&[(32, 249, &[0])], &[], "fault 16 FileSet"),
    (&[(32, 252, &[0x2c, 1])], &[], "fault 16 FileSet"),
    (&[(32, 252, &[0x2b, 1])], &[], "fault 16 FileSet"),
    (&[(32, 256, &[1])], &[], "fault 16 FileSet"),
];

/// The blocks that are known alone: the file set is in the packet that is at 400.
static SPARED: [Row; 2] = [
    (&[], &[256, 32, 33, 34, 200, 400], "root 0:1"),
    (&[], &[256, 32, 33, 34, 200, 272], "holes 400"),
];

#[test]
fn file_sets(rt: HostRuntime) -> Result<(), Fail> {
    check(&rt, rt.alloc(), Start::Type1, Asked::Root, &ROOTS)?;
    check_at(
        &rt,
        rt.alloc(),
        Profile::Strict,
        Start::Sparable,
        Asked::Root,
        &SPARED,
    )
}

/// Changes of the entry at logical block 3, and what it says.
static ENTRIES: [Row; 15] = [
    (&[], &[], "file 5000 2001-07-04T09:30:00.000000Z"),
    (
        &[(275, 27, &[12])],
        &[],
        "link 5000 2001-07-04T09:30:00.000000Z",
    ),
    (
        &[(275, 27, &[9])],
        &[],
        "other-9 5000 2001-07-04T09:30:00.000000Z",
    ),
    (&[(275, 86, &[0, 0])], &[], "file 5000 invalid"),
    (&[(275, 0, &[6])], &[], "fault 1 Tag"),
    (&[(275, 12, &[4])], &[], "fault 1 Tag"),
    (&[(275, 20, &[5])], &[], "fault 2 Strategy"),
    (&[(275, 20, &[4, 16])], &[], "fault 2 Strategy"),
    (&[(275, 34, &[2])], &[], "fault 3 Descriptors"),
    (&[(275, 34, &[4])], &[], "fault 3 Descriptors"),
    (
        &[(275, 172, &[0x50, 7])],
        &[],
        "file 5000 2001-07-04T09:30:00.000000Z",
    ),
    (&[(275, 172, &[0x58, 7])], &[], "fault 4 Lengths"),
    (&[(275, 172, &[9])], &[], "fault 4 Lengths"),
    (&[(275, 168, &[0x49, 7])], &[], "fault 4 Lengths"),
    // an extended file entry, whose times and lengths are at other offsets
    (
        &[
            (275, 0, &[0; 2048]),
            (275, 0, &[10, 1, 2, 0, 0x10, 0, 0, 0, 0, 0, 0, 0, 3]),
            (275, 20, &[4]),
            (275, 27, &[5]),
            (275, 56, &[7]),
            (275, 92, &[0x3c, 0x10, 0xd1, 7, 7, 4, 0x0a, 0x1e]),
            (275, 212, &[8]),
        ],
        &[],
        "file 7 2001-07-04T09:30:00.000000Z",
    ),
];

static ROOT: [Row; 1] = [(&[], &[], "directory 120 2001-07-04T09:30:00.000000Z")];

static NO_ENTRY: [Row; 1] = [(&[], &[], "fault 1 Tag")];

static FILE: [Row; 1] = [(&[], &[], "file 2 2001-07-04T09:30:00.000000Z")];

#[test]
fn entries(rt: HostRuntime) -> Result<(), Fail> {
    check(&rt, rt.alloc(), Start::Type1, Asked::Entry(0, 1), &ROOT)?;
    check(&rt, rt.alloc(), Start::Type1, Asked::Entry(0, 2), &NO_ENTRY)?;
    check(&rt, rt.alloc(), Start::Type1, Asked::Entry(0, 3), &ENTRIES)?;
    check(&rt, rt.alloc(), Start::Type1, Asked::Entry(0, 4), &FILE)?;
    check(&rt, rt.alloc(), Start::TwoMaps, Asked::Entry(1, 0), &FILE)
}

/// The type of an extent, its length, its address, and the fault of that.
static ADDRESSES: [(u8, u32, u16, u32, Option<NodeFault>); 5] = [
    (0, 2048, 0, 299, None),
    (1, 2048, 0, 299, Some(NodeFault::Reference)),
    (0, 0, 0, 299, Some(NodeFault::Reference)),
    (0, 2048, 1, 299, Some(NodeFault::Reference)),
    (0, 2048, 0, 300, Some(NodeFault::Range)),
];

#[test]
fn addresses(rt: HostRuntime) -> Result<(), Fail> {
    let table = Start::Type1
        .changed(rt.alloc(), &[])?
        .known_but(rt.alloc(), &[])?;
    let (space, _) = laid_out(rt.alloc(), &table, Profile::Strict).ok_or("no layout")?;
    for (i, &(kind, length, reference, block, want)) in ADDRESSES.iter().enumerate() {
        let address = LongAd {
            kind,
            length,
            block,
            reference,
        };
        assert_same_in(&rt, address_fault(&space, address), want, i);
    }
    Ok(())
}
