//! A report as JSON, and the blocks to read again by themselves.

use crate::tests::assert_same;
use std::test::Fail;
use udfs_reading::Writer;
use udfs_salvage::{report_json, salvage, write_reread};
use udfs_samples::{Disc, LAST};

/// The JSON of the sample volume, of which every block is known.
const ALL: &str =
    "{\"conflict\":0,\"known\":601,\"label\":{\"state\":\"name\",\"text\":\"TEST\"},\"last\":600,\"nodes\":[{\"hidden\":false,\"holes\":[],\"kind\":\"directory\",\"missing\":[],\"modified\":\"2001-07-04T09:30:00.000000Z\",\"path\":\"/\",\"size\":120,\"standing\":\"whole\"},{\"hidden\":false,\"holes\":[],\"kind\":\"file\",\"missing\":[],\"modified\":\"2001-07-04T09:30:00.000000Z\",\"path\":\"/A\",\"size\":5000,\"standing\":\"whole\"},{\"hidden\":false,\"holes\":[],\"kind\":\"file\",\"missing\":[],\"modified\":\"2001-07-04T09:30:00.000000Z\",\"path\":\"/B\",\"size\":2,\"standing\":\"whole\"}],\"reread\":[],\"unnamed\":[],\"volume\":{\"map\":\"type1\",\"revision\":\"1.50\",\"state\":\"ok\"}}";

#[test]
fn the_json_of_all(rt: HostRuntime) -> Result<(), Fail> {
    let alloc = rt.alloc();
    let table = Disc::type1(alloc)?.known_but(alloc, &[])?;
    let report = salvage(alloc, &table, LAST)?;
    let text = report_json(alloc, &report)?;
    assert_same(&rt, text.as_str(), ALL);
    Ok(())
}

#[test]
fn the_blocks_to_read_again(rt: HostRuntime) -> Result<(), Fail> {
    let alloc = rt.alloc();
    let table = Disc::type1(alloc)?.known_but(alloc, &[279, 277])?;
    let report = salvage(alloc, &table, LAST)?;
    let mut text = Writer::new(Vec::new(alloc));
    write_reread(&report, &mut text)?;
    assert_same(&rt, text.into_inner().as_slice(), b"277\n279\n".as_slice());
    Ok(())
}
