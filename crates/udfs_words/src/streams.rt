//! Standard input among the arguments: it can be read only once.

ghost use Rattle.std.specs.Prelude.{◌≡◌, true, map};
ghost use Rattle.clap.specs.Matches.{found_of};
ghost use Rattle.udfs_words.specs.Asking.{are_two_streams, is_twice, names_stream, takes_streams};

use crate::words::{BLOCKS, INPUTS};
use clap::ArgMatches;

/// Whether a command of this name takes `-` for standard input. The others take it for the path that it is.
fn takes_streams(name: &str) -> bool
    ensures { result ≡ takes_streams name.now }
{
    name == "forget" || name == "image" || name == "list" || name == "page" || name == "summary"
}

/// Whether one of these paths is `-`.
fn names_stream(paths: &[&str]) -> bool
    ensures { result ≡ names_stream (map (λ path. path.now) paths.now) }
{
    match paths {
        [] => false,
        [first, rest @ ..] => *first == "-" || names_stream(rest),
    }
}

/// Whether two of these paths are `-`.
fn is_twice(paths: &[&str]) -> bool
    ensures { result ≡ is_twice (map (λ path. path.now) paths.now) }
{
    match paths {
        [] => false,
        [first, rest @ ..] => {
            if *first == "-" {
                return names_stream(rest);
            }
            is_twice(rest)
        }
    }
}

/// Whether the command `name` takes `-` for standard input, and has it more than once among its inputs and its lists of blocks.
pub fn are_two_streams(name: &str, words: &ArgMatches<'_>) -> bool
    ensures { result ≡ are_two_streams name.now (found_of words.now) }
{
    let inputs = words.get_strs(INPUTS).unwrap_or(&[]);
    let lists = words.get_strs(BLOCKS).unwrap_or(&[]);
    takes_streams(name)
        && (is_twice(inputs) || is_twice(lists) || (names_stream(inputs) && names_stream(lists)))
}
