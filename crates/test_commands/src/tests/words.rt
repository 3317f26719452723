//! The arguments of the command line.

use crate::tests::check;
use std::alloc::{AllocError, Global};
use std::process::Abort;
use std::test::Fail;
use udfs_commands::refuse_words;
use udfs_reading::Writer;

static SCRIPT: &str = r"
= help_and_version_go_to_standard_output
then status 0
then error

$ --help
out-begins Recovers files from scratched rewritable UDF discs
out-has merge

$ -h
out-begins Recovers files from scratched rewritable UDF discs

$ --help
out-begins Recovers files from scratched rewritable UDF discs
out-has \n\nExample:\n  udfsalvage merge --out disc.tab --ddrescue p1.img p1.map\n
out-has merge

$ help merge
out-begins Joins passes over a disc into one table file
out-has --out <FILE>

$ merge --help
out-begins Joins passes over a disc into one table file
out-has --v1

$ merge --help
out-begins Joins passes over a disc into one table file
out-has -o, --out <FILE>

$ merge --help
out-begins Joins passes over a disc into one table file
out-has --force

$ merge --help
out-begins Joins passes over a disc into one table file
out-has <IN>...

$ report --help
out-begins Prints what is known, file by file
out-has --last <N>

$ reread --help
out-begins Prints the numbers of the blocks to read again
out-has --last <N>

$ extract --help
out-begins Writes the files that are whole into a new folder
out-has --to <DIR>

$ extract --help
out-begins Writes the files that are whole into a new folder
out-has \n\nExample:\n  udfsalvage extract --size-of p1.map --to files --times disc.tab\n

$ list --help
out-begins Prints a line for each file and folder
out-has -0, --null

$ --version
out-begins udfsalvage 0.1.0\n
out-has 0.1.0

$ -V
out-begins udfsalvage 0.1.0\n
out-has 0.1.0

= a_fault_of_the_words_is_told_and_changes_nothing
passes
then status 2
then out
then no-call

$
error-begins error: 'udfsalvage' requires a subcommand

$ merge
error-begins error: the following required arguments were not provided

$ merge a.rd
error-begins error: the following required arguments were not provided

$ merge --out a.rd
error-begins error: the following required arguments were not provided

$ merge --oot t.tab a.rd
error-begins error: unexpected argument '--oot' found

$ merge --v1 --v1 --out t.tab a.rd
error-begins error: the argument '--v1' cannot be used multiple times

$ merge --out a.rd --out b.rd c.rd
error-begins error: the argument '--out <FILE>' cannot be used multiple times

$ read --last 600 a.rd
error-begins error: unrecognized subcommand 'read'

$ reread a.rd
error-begins error: the following required arguments were not provided

$ extract --last 600 a.rd
error-begins error: the following required arguments were not provided

$ extract --to out a.rd
error-begins error: the following required arguments were not provided

$ report a.rd
error-begins error: the following required arguments were not provided

$ report --last 600
error-begins error: the following required arguments were not provided

$ report --last all a.rd
error-begins error: invalid value 'all' for '--last <N>'

$ report --last 4294967296 a.rd
error-begins error: invalid value '4294967296' for '--last <N>'
";

#[test]
fn words_of_the_command_line(rt: HostRuntime) -> Result<(), Fail> {
    check(&rt, rt.alloc(), SCRIPT)
}

/// The status, and what is printed, where the arguments were not available: memory ran out, or one of them is not text.
fn words_refused(alloc: Global, wants_memory: bool) -> Result<(u8, String), AllocError> {
    let mut err = Writer::new(Vec::new(alloc));
    let status = refuse_words(wants_memory, &mut err);
    let bytes = err.into_inner();
    let text = std::str::from_utf8(bytes.as_slice()).unwrap_or("no text");
    Ok((status, String::from_str(alloc, text)?))
}

/// Asserts that the arguments are rejected with status 2 and this text.
fn assert_refused(rt: &impl Abort, told: (u8, String), text: &str) {
    assert_eq!(rt; told.0, 2);
    assert_eq!(rt; told.1.as_str(), text);
}

#[test]
fn words_that_are_not_text_are_refused(rt: HostRuntime) -> Result<(), Fail> {
    assert_refused(
        &rt,
        words_refused(rt.alloc(), true)?,
        "udfsalvage: out of memory\n",
    );
    assert_refused(
        &rt,
        words_refused(rt.alloc(), false)?,
        "error: invalid UTF-8 was detected in one or more arguments\n\nFor more information, try '--help'.\n",
    );
    Ok(())
}
