// SPDX-License-Identifier: MIT OR Apache-2.0
//! Runs over the sample discs, for `tools/refuse-memory`, which fails one of a run's allocations, and for
//! `tools/mutate`: `try_samples RUN DISC [UNREAD]`, where UNREAD is a block that no pass has read.
//!
//! `try_samples calls PLACE SCRIPT` makes system calls for `tools/try-same-calls`, where PLACE is `host` or `memory`.
//!
//! Standard output has what the run prints, and the status says how it ended (`Ending`).
#![tactic(auto)]

mod calls;
mod discs;
mod mutations;
mod runs;
mod tables;

use calls::make_calls;
use discs::table_file;
use mutations::mutate;
use runs::{extract_a, json, read_inputs, report, run_report};
use std::alloc::Global;
use std::process::ExitCode;
use std::{env, io};
use tables::join_twice;
use udfs_reading::{Sink, Writer};

/// How a run ended.
#[derive(Clone, Copy, Debug, PartialEq, Eq)]
pub enum Ending {
    /// It gave a result.
    Done = 0,
    /// Its result is wrong, it failed in another way, or there is no such run.
    Wrong = 1,
    /// It reported that it was out of memory.
    Refused = 3,
    /// It did not begin: memory ran out before, or the arguments could not be read.
    Unready = 4,
}

/// The run with this name.
fn run<W: Sink>(rt: &HostRuntime, alloc: Global, words: &[String], out: &mut W) -> Ending {
    let (Some(name), Some(disc)) = (words.get(1), words.get(2)) else {
        return Ending::Wrong;
    };
    if name.as_str() == "calls" {
        let script = match words.get(3) {
            Some(script) => script.as_str(),
            None => "",
        };
        return make_calls(rt, alloc, disc, script, out);
    }
    let unread: u32 = match words.get(3) {
        Some(word) => word.parse().unwrap_or(u32::MAX),
        None => u32::MAX,
    };
    match name.as_str() {
        "file" => table_file(alloc, disc, unread, out),
        "join" => join_twice(alloc, disc, unread),
        "inputs" => read_inputs(alloc, out),
        "salvage" => report(alloc, disc, unread, out),
        "run" => run_report(alloc, disc, unread, out),
        "json" => json(alloc, disc, unread, out),
        "extract" => extract_a(alloc, disc, unread, out),
        "mutate" => mutate(alloc, disc, out),
        _ => Ending::Wrong,
    }
}

/// The arguments of the command line. It fails where one of them is not text.
fn words_of(rt: &HostRuntime, alloc: Global) -> io::Result<Vec<String>> {
    Ok(env::args(rt)?.collect(alloc)?)
}

fn main(rt: HostRuntime) -> ExitCode {
    let alloc = rt.alloc();
    let mut out = Writer::new(rt.stdout());
    let ending = match words_of(&rt, alloc) {
        Ok(words) => run(&rt, alloc, words.as_slice(), &mut out),
        Err(_) => Ending::Unready,
    };
    ExitCode::from(ending as u8)
}
