//! The list of nodes, over sample volumes.

use crate::tests::assert_text;
use std::alloc::Global;
use std::test::Fail;
use udfs_lattice::BlockTable;
use udfs_overview::{ListForm, write_list_by};
use udfs_reading::Writer;
use udfs_salvage::survey_volume;
use udfs_samples::{Disc, LAST};

/// All nodes, their columns, a line feed after each.
pub(super) const ALL: ListForm = ListForm {
    torn: false,
    null: false,
    paths: false,
    header: false,
    json: false,
};

fn listed(alloc: Global, table: &BlockTable, form: ListForm) -> Result<String, Fail> {
    let survey = survey_volume(alloc, table, LAST)?;
    let mut text = Writer::new(Vec::new(alloc));
    write_list_by(alloc, &survey, form, &mut text)?;
    Ok(String::from_utf8(text.into_inner())?)
}

/// The blocks that are not known of the volume with one map, and its list.
pub(super) static UNREAD: [(&[u32], &str); 6] = [
    (
        &[],
        "whole\tfile\t0\t5000\t2001-07-04T09:30:00Z\t/A\nwhole\tfile\t0\t2\t2001-07-04T09:30:00Z\t/B\n",
    ),
    (
        &[278],
        "torn\tfile\t2048\t5000\t2001-07-04T09:30:00Z\t/A\nwhole\tfile\t0\t2\t2001-07-04T09:30:00Z\t/B\n",
    ),
    // two holes, of 2,048 and 904 bytes
    (
        &[277, 279],
        "torn\tfile\t2952\t5000\t2001-07-04T09:30:00Z\t/A\nwhole\tfile\t0\t2\t2001-07-04T09:30:00Z\t/B\n",
    ),
    (
        &[275],
        "torn\tunknown\t-\t-\t-\t/A\nwhole\tfile\t0\t2\t2001-07-04T09:30:00Z\t/B\n",
    ),
    // the root is torn, and is not listed
    (&[274], ""),
    // the volume does not open
    (&[256, 344, 600], ""),
];

#[test]
fn lists(rt: HostRuntime) -> Result<(), Fail> {
    let alloc = rt.alloc();
    for &(unread, expected) in &UNREAD {
        let table = Disc::type1(alloc)?.known_but(alloc, unread)?;
        assert_text(&rt, listed(alloc, &table, ALL)?, expected);
    }
    Ok(())
}
