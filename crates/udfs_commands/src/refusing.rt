//! What is printed where a command fails, or where the arguments are not those of a command.

ghost use Rattle.std.specs.Prelude.{◌≡◌, ◌⊎◌, true};
ghost use Rattle.clap.specs.Words.{kind_of};

use crate::hints::second_line;
use crate::printing::send;
use clap::Error;
use clap::error::ErrorKind;
use std::alloc::{AllocError, Global};
use std::fmt;
use udfs_common::files::Files;
use udfs_common::refusal::Refusal;
use udfs_reading::{DeviceFault, Sink};
use udfs_words::forms::Tone;
use udfs_words::request::Request;
use udfs_words::words::{given_in, grammar, is_given};

/// The line that says that memory ran out. Itself it takes no memory.
const NO_MEMORY: &[u8] = b"udfsalvage: out of memory\n";

/// How clap lists that the last block is missing.
const NO_LAST: &str = "\n  --last <N>\n";

/// Where to find it.
const FIND_LAST: &str =
    "  blockdev --getsize64 /dev/sr0 prints the disc's size for --size; --size-of MAPFILE takes it from a mapfile\n";

/// How clap lists that an input is missing.
const NO_INPUT: &str = "\n  <IN>...\n";

/// What is one.
const FIND_INPUT: &str =
    "  an input is a table file or a reading, or a pass: --ddrescue IMAGE MAPFILE; udfsalvage-rescue begins without one\n";

/// How clap lists that an output is missing.
const NO_OUT: &str = "\n  --out <FILE>\n";

/// What it is.
const SAY_OUT: &str =
    "  --out names the file to write, which for merge and forget may be the table among the inputs\n";

/// How clap says that it does not know the name of the wide rules.
const BARE_WIDE: &str = "unexpected argument '--wide' found";

/// What it is.
const SAY_WIDE: &str = "  for the wide rules, add --profile wide\n";

/// How clap says that it does not know a flag for what is whole alone.
const BARE_WHOLE: &str = "unexpected argument '--whole' found";

/// How to have it.
const SAY_WHOLE: &str =
    "  the first column of list is the standing: udfsalvage list ... | grep ^whole\n";

/// How clap says that a command has no flag for what is not whole alone.
const BARE_TORN: &str = "unexpected argument '--torn' found";

/// Which one has it.
const SAY_TORN: &str = "  list --torn prints what is not whole\n";

/// How clap lists that a list of blocks is missing.
const NO_BLOCKS: &str = "\n  --blocks <LIST>\n";

/// How it lists that one of two is missing.
const NOTHING_TO_FORGET: &str = "\n  <--conflicts|--blocks <LIST>>\n";

/// What is printed where an argument is not UTF-8.
const NOT_TEXT: &[u8] =
    b"error: invalid UTF-8 was detected in one or more arguments\n\nFor more information, try '--help'.\n";

/// Prints a second line beneath that of an error of what was asked for, with `hints`, or where standard error is watched by a person or more is to be said, and not
/// only what has to be. It prints nothing where there is no more to say, or memory runs out.
pub fn explain<F: Files, E: Sink>(
    alloc: Global,
    refusal: &Refusal,
    request: &Request<'_>,
    tone: Tone,
    hints: bool,
    files: &F,
    err: &mut E,
)
    ensures quiet { tone.quiet ≡ true → err.new ≡ err.old }
{
    if tone.quiet || !(hints || files.is_watched() || tone.verbose) {
        return;
    }
    if let Ok(Some(more)) = second_line(alloc, refusal, request, files)
        && let Ok(line) = format!(in alloc; "  {more}\n")
    {
        let _ = send(line.as_bytes(), err);
    }
}

/// Says why the command-line arguments could not be had: memory ran out where `wants_memory`, else one is not text. It returns the exit status, 2.
pub fn refuse_words<E: Sink>(wants_memory: bool, err: &mut E) -> u8
    ensures { result ≡ 2 }
{
    let text = if wants_memory { NO_MEMORY } else { NOT_TEXT };
    let _ = send(text, err);
    2
}

/// Prints clap's text: help and version on `out`, a fault of the arguments on `err`. It returns the exit status: 0, or 2 for a fault, where memory runs out, or
/// where `out` does not take the text. Where a person reads it, a missing last block has a line on where to find it.
pub fn show<O: Sink, E: Sink>(
    alloc: Global,
    error: &Error,
    watched: bool,
    out: &mut O,
    err: &mut E,
) -> u8
    ensures status { (result ≡ 0) ⊎ (result ≡ 2) }
    ensures silent { result ≡ 0 → err.new ≡ err.old }
    ensures memory { kind_of error.now ≡ ErrorKind.OutOfMemory → result ≡ 2 }
{
    if error.use_stderr() || error.kind() == ErrorKind::OutOfMemory {
        return show_fault(alloc, error, watched, err);
    }
    let Ok(text) = format!(in alloc; "{error}") else {
        return refuse(alloc, &Refusal::Memory(AllocError), err);
    };
    match send(text.as_bytes(), out) {
        (_, Ok(())) => 0,
        (_, Err(DeviceFault)) => refuse(alloc, &Refusal::Output, err),
    }
}

/// Shows clap's text of a fault of the arguments, and returns the exit status, 2.
fn show_fault<E: Sink>(alloc: Global, error: &Error, watched: bool, err: &mut E) -> u8
    ensures { result ≡ 2 }
{
    if error.kind() == ErrorKind::OutOfMemory {
        return refuse(alloc, &Refusal::Memory(AllocError), err);
    }
    match fault_text(alloc, error, watched) {
        Ok(text) => {
            let _ = send(text.as_bytes(), err);
            2
        }
        Err(AllocError) => refuse(alloc, &Refusal::Memory(AllocError), err),
    }
}

/// Clap's text of a fault of the arguments. Where a list of blocks is missing, the other argument that would do is named too, as clap does in a group of which
/// one has to be given. Where a person reads it, one more line says what is meant, if there is one.
fn fault_text(alloc: Global, error: &Error, watched: bool) -> Result<String, AllocError> {
    let text = format!(in alloc; "{error}")?;
    if let Some((before, after)) = text.as_str().split_once(NO_BLOCKS) {
        return format!(in alloc; "{before}{NOTHING_TO_FORGET}{after}");
    }
    if !watched {
        return Ok(text);
    }
    let more = more_of(text.as_str());
    format!(in alloc; "{text}{more}")
}

/// What a person is told beneath clap's text of a fault of the arguments: where to find the last block, what an input is, what the output is, how the wide
/// rules are named, or how to have a part of a list.
fn more_of(text: &str) -> &'static str {
    if text.contains(NO_LAST) {
        return FIND_LAST;
    }
    if text.contains(NO_INPUT) {
        return FIND_INPUT;
    }
    if text.contains(NO_OUT) {
        return SAY_OUT;
    }
    if text.contains(BARE_WIDE) {
        return SAY_WIDE;
    }
    if text.contains(BARE_WHOLE) {
        return SAY_WHOLE;
    }
    if text.contains(BARE_TORN) {
        return SAY_TORN;
    }
    ""
}

/// Whether more is printed than the line of an error, by these arguments: with `hints`, on a terminal, or with `--verbose`, and never with `--quiet`.
pub fn is_explained<F: Files>(words: &[String], hints: bool, files: &F) -> bool {
    let verbose = is_given("--verbose", b"--verbose", words) || is_given("-v", b"-v", words);
    let quiet = is_given("--quiet", b"--quiet", words) || is_given("-q", b"-q", words);
    !quiet && (hints || verbose || files.is_watched())
}

/// Says, as clap does where neither a size nor an image with its mapfile is given, that the last block has to be given, and returns the exit status, 2.
pub fn ask_for_last<E: Sink>(alloc: Global, line: &[String], watched: bool, err: &mut E) -> u8
    ensures { result ≡ 2 }
{
    let mut given = given_in(line);
    given.needs_last = true;
    let command = match grammar(alloc, given) {
        Ok(command) => command,
        Err(AllocError) => return refuse(alloc, &Refusal::Memory(AllocError), err),
    };
    match command.try_get_matches_from(line) {
        Err(error) => show_fault(alloc, &error, watched, err),
        // The grammar asks for it.
        Ok(_) => refuse(alloc, &Refusal::NoLast, err),
    }
}

/// Says in clap's form what is wrong with the arguments, and returns the exit status, 2.
pub fn tell<T: fmt::Display, E: Sink>(alloc: Global, fault: &T, err: &mut E) -> u8
    ensures { result ≡ 2 }
{
    let _ = match format!(in alloc; "error: {fault}\n\nFor more information, try '--help'.\n") {
        Ok(text) => send(text.as_bytes(), err),
        Err(AllocError) => send(NO_MEMORY, err),
    };
    2
}

/// Says in clap's form that `name` names no rules, and returns the exit status, 2.
pub fn tell_profile<E: Sink>(alloc: Global, name: &str, err: &mut E) -> u8
    ensures { result ≡ 2 }
{
    let _ = match format!(in alloc;
        "error: invalid value '{name}' for '--profile <PROFILE>'\n  [possible values: strict, wide]\n\nFor more information, try '--help'.\n"
    ) {
        Ok(text) => send(text.as_bytes(), err),
        Err(AllocError) => send(NO_MEMORY, err),
    };
    2
}

/// Prints the line of an error, and returns the exit status, 2. Where memory runs out for the line, it prints [`NO_MEMORY`] instead.
pub fn refuse<E: Sink>(alloc: Global, refusal: &Refusal, err: &mut E) -> u8
    ensures { result ≡ 2 }
{
    let _ = match format!(in alloc; "udfsalvage: {refusal}\n") {
        Ok(line) => send(line.as_bytes(), err),
        Err(AllocError) => send(NO_MEMORY, err),
    };
    2
}
