//! The program over the machine's files, whose system calls are on files in memory. What is expected comes from the formats' description, byte by byte.

mod closing;
mod copies;
mod devices;
mod disagreeing;
mod ends;
mod explaining;
mod extracting;
mod forgetting;
mod hostile;
mod imaging;
mod inputs;
mod json;
mod keeping;
mod listing;
mod lists;
mod lost;
mod manifests;
mod mapfiles;
mod merging;
mod only;
mod other_discs;
mod pages;
mod paging;
mod pair_faults;
mod pairs;
mod profiles;
mod refusals;
mod reporting;
mod rereading;
mod rereading_paths;
mod revisions;
mod short_names;
mod sizes;
mod sparing;
mod stored;
mod stored_images;
mod stored_lists;
mod stored_rereads;
mod summing;
mod summing_json;
mod times;
mod unnamed;
mod versions;
mod walks;
mod words;

use std::alloc::Global;
use std::process::Abort;
use std::test::Fail;
use test_runs::{Program, Taker, faults};
use udfs_commands::run;
use udfs_host_fs::Files;
use udfs_reading::Writer;

/// The program's commands.
pub struct Commands;

impl Program for Commands {
    fn run<F: Files>(
        &self,
        alloc: Global,
        words: &[String],
        files: &mut F,
        out: &mut Writer<Taker>,
        err: &mut Writer<Taker>,
    ) -> u8 {
        run(alloc, words, false, files, out, err)
    }
}

/// `told` is empty: all is as a script says.
fn assert_nothing(rt: &impl Abort, told: String) {
    assert_eq!(rt; told.as_str(), "");
}

/// It is so, of this text.
pub fn assert_case(rt: &impl Abort, is_so: bool, text: &str) {
    assert!(rt; is_so, "{text}");
}

/// All is as a script says.
pub fn check(rt: &impl Abort, alloc: Global, script: &'static str) -> Result<(), Fail> {
    assert_nothing(rt, faults(alloc, &Commands, script)?);
    Ok(())
}
