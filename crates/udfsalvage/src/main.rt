// SPDX-License-Identifier: MIT OR Apache-2.0
//! The command `udfsalvage`: runs what its arguments ask for on the machine's files.
#![tactic(auto)]

mod screen;

use screen::{Cleared, Screen};
use std::alloc::Global;
use std::io::IsTerminal;
use std::process::ExitCode;
use std::{env, io};
use udfs_calls::{Calls, Host};
use udfs_commands::{refuse_words, run};
use udfs_host_fs::Machine;
use udfs_reading::Writer;

/// How many bytes a path has at most, with the zero byte at its end (`PATH_MAX` of Linux).
const PATH_ROOM: usize = 4_096;

/// The arguments of the command line, the program's name first. It fails if one of them is not text, or if memory runs out.
fn words_of(rt: &HostRuntime, alloc: Global) -> io::Result<Vec<String>> {
    Ok(env::args(rt)?.collect(alloc)?)
}

/// Whether standard error leads to another file than standard output does: then a line on it comes between no lines of what is printed.
fn is_apart<C: Calls>(calls: &C) -> bool {
    match (calls.about("/dev/stdout"), calls.about("/dev/stderr")) {
        (Ok(out), Ok(err)) => out.device != err.device || out.inode != err.inode,
        _ => false,
    }
}

fn main(rt: HostRuntime) -> ExitCode {
    let alloc = rt.alloc();
    let is_watched = rt.stderr().is_terminal();
    let screen = Screen::new(alloc, &rt, rt.stderr(), is_watched);
    let mut out = Cleared::new(Writer::new(rt.stdout()), &screen);
    let mut err = Cleared::new(Writer::new(rt.stderr()), &screen);
    let Ok(room) = String::with_capacity(alloc, PATH_ROOM) else {
        return ExitCode::from(refuse_words(true, &mut err));
    };
    let hints = is_apart(&Host::new(&rt));
    let mut files = Machine::new(Host::new(&rt), &rt, &screen, room);
    let status = match words_of(&rt, alloc) {
        Ok(words) => run(
            alloc,
            words.as_slice(),
            hints,
            &mut files,
            &mut out,
            &mut err,
        ),
        Err(error) => {
            let wants_memory = error.kind() == io::ErrorKind::OutOfMemory;
            refuse_words(wants_memory, &mut err)
        }
    };
    screen.clear();
    ExitCode::from(status)
}
