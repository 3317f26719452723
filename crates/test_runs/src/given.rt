//! The lines of a script that set up what there is before a run.

use crate::contents::content_of;
use crate::runs::store_passes;
use crate::texts::{first_word, number_of};
use crate::trial::Trial;
use std::alloc::AllocError;

/// Sets up what the line says, and returns whether it is a line that sets something up.
pub fn give(trial: &mut Trial, word: &str, rest: &str) -> Result<bool, AllocError> {
    Ok(
        give_file(trial, word, rest)?
            || give_disc(trial, word, rest)?
            || give_device(trial, word, rest)?,
    )
}

/// `passes` are the files `a.rd` with block 300 of bytes 61 hex, `b.rd` with block 301 of bytes 62 hex, and `c.rd` with block 300 of bytes
/// 63 hex. `file PATH CONTENT` is a file, `twin PATH` a second name of the last one, `folder PATH` a folder, and `let NAME TEXT` names a text.
fn give_file(trial: &mut Trial, word: &str, rest: &str) -> Result<bool, AllocError> {
    match word {
        "passes" => store_passes(trial.alloc, &mut trial.memory)?,
        "file" => put_file(trial, rest)?,
        "twin" => trial.memory.store_twin(rest)?,
        "folder" => trial.memory.store_folder(rest)?,
        "let" => {
            let (name, text) = first_word(rest);
            trial.name(name, text)?;
        }
        _ => return Ok(false),
    }
    Ok(true)
}

fn put_file(trial: &mut Trial, line: &str) -> Result<(), AllocError> {
    let (path, content) = first_word(line);
    let bytes = content_of(trial.alloc, trial.names.as_slice(), content)?;
    trial.memory.store(path, bytes.as_slice())
}

/// `disc VOLUME` takes a volume, which `write`, `tag`, `fill` and `directory` change. `but BLOCKS` makes `disc.tab` of all blocks but these, `at
/// BLOCKS` of these alone; `also BLOCK BYTE` is another content of a block.
fn give_disc(trial: &mut Trial, word: &str, rest: &str) -> Result<bool, AllocError> {
    match word {
        "disc" => trial.take_volume(rest)?,
        "write" | "tag" | "fill" | "directory" => trial.change_disc(word, rest)?,
        "but" => trial.know(true, rest)?,
        "at" => trial.know(false, rest)?,
        "also" => trial.dispute(rest)?,
        _ => return Ok(false),
    }
    Ok(true)
}

/// Devices that fail after a number of bytes, or take none then, or that move at most a number of bytes a call; calls that change files
/// and fail, from the first to the last of them; a zone of the clock; and a path whose time can not be set.
fn give_device(trial: &mut Trial, word: &str, rest: &str) -> Result<bool, AllocError> {
    match word {
        "zone" => return give_zone(trial, rest),
        "timeless" => return give_timeless(trial, rest),
        "calls-fail" => give_calls(trial, rest)?,
        _ => return give_limit(trial, word, rest),
    }
    Ok(true)
}

/// The zones of scripts: that of Berlin, and UTC.
fn give_zone(trial: &mut Trial, rest: &str) -> Result<bool, AllocError> {
    match rest {
        "CET-1CEST,M3.5.0,M10.5.0/3" => trial.memory.zone = "CET-1CEST,M3.5.0,M10.5.0/3",
        "UTC" => trial.memory.zone = "",
        _ => return Err(AllocError),
    }
    Ok(true)
}

/// The paths of scripts of which no time can be set.
fn give_timeless(trial: &mut Trial, rest: &str) -> Result<bool, AllocError> {
    match rest {
        "out" => trial.memory.setting.timeless = "out",
        "out/A" => trial.memory.setting.timeless = "out/A",
        "lost/3" => trial.memory.setting.timeless = "lost/3",
        _ => return Err(AllocError),
    }
    Ok(true)
}

/// `calls-fail 2 4`, or `calls-fail 2 on` for all from the second one on.
fn give_calls(trial: &mut Trial, rest: &str) -> Result<(), AllocError> {
    let (from, to) = first_word(rest);
    let from = trial.text(from)?;
    let to = trial.text(to)?;
    trial.memory.setting.fails_from = number_of(from.as_str())? as u64;
    trial.memory.setting.fails_to = match to.as_str() {
        "on" => u64::MAX,
        digits => number_of(digits)? as u64,
    };
    Ok(())
}

/// The keywords of `give_limit`.
const LIMITS: [&str; 7] = [
    "inputs-fail",
    "inputs-move",
    "outputs-fail",
    "outputs-move",
    "outputs-take-none",
    "terminal-fails",
    "terminal-takes-none",
];

/// After how many bytes a device fails, how many it moves at most, and whether it then takes none, where the number is odd.
fn give_limit(trial: &mut Trial, word: &str, rest: &str) -> Result<bool, AllocError> {
    if !LIMITS.contains(&word) {
        return Ok(false);
    }
    let digits = trial.text(rest)?;
    let number = digits.parse::<usize>().unwrap_or(usize::MAX);
    match word {
        "inputs-fail" => trial.memory.setting.inputs.good = number,
        "inputs-move" => trial.memory.setting.inputs.most = number,
        "outputs-fail" => trial.memory.setting.outputs.good = number,
        "outputs-move" => trial.memory.setting.outputs.most = number,
        "outputs-take-none" => trial.memory.setting.outputs.takes_none = number % 2 == 1,
        "terminal-fails" => trial.memory.terminal.good = number,
        _ => trial.memory.terminal.takes_none = number % 2 == 1,
    }
    Ok(true)
}
