//! What the arguments of a command ask for: its inputs, its outputs and its flags.

ghost use Rattle.std.specs.Prelude.{◌≡◌, ◌++◌, true, false, Some, None, IfOk, OnOk, codes, map};
ghost use Rattle.clap.specs.Matches.{found_of, one_text};
ghost use Rattle.udfs_words.specs.declared.forms.Version.{Version};
ghost use Rattle.udfs_words.specs.declared.forms.Form.{Form};
ghost use Rattle.udfs_words.specs.Asking.{Asked, IsPicked, IsTone, asked_for, asked_inputs, asked_streams, folder_text, mapfile_text, out_text, pairs_of, stream_path};
ghost use Rattle.udfs_words.specs.Asking.Asked.{AskedFile};

use crate::forms::{Form, Tone, Version};
use crate::input_path::InputPath;
use crate::words::{
    CONFLICTS, FORCE, INPUTS, JSON, MAPFILE, NO_WITNESSES, OUT, PAIRS, QUIET, TO, V1, VERBOSE,
};
use clap::ArgMatches;
use std::alloc::{AllocError, Global};

/// Adds files.
#[tactic(auto, using(crate::proofs::AskingLemmas::one_more))]
fn push_files<'a>(inputs: &mut Vec<InputPath<'a>>, paths: &[&'a str]) -> Result<(), AllocError>
    ensures { OnOk result (map asked_for inputs.new.items ≡ map asked_for inputs.old.items ++ map AskedFile (map (λ path. path.now) paths.now)) }
{
    for path in paths {
        inputs.push(InputPath::File(path))?;
    }
    Ok(())
}

/// A path where `-` is standard input.
pub fn stream_path(path: &str) -> &str
    ensures { result.now ≡ stream_path path.now }
{
    if path == "-" { "/dev/stdin" } else { path }
}

/// Adds files, of which `-` is standard input.
#[tactic(auto, using(crate::proofs::AskingLemmas::one_more))]
fn push_streams<'a>(inputs: &mut Vec<InputPath<'a>>, paths: &[&'a str]) -> Result<(), AllocError>
    ensures { OnOk result (map asked_for inputs.new.items ≡ map asked_for inputs.old.items ++ map AskedFile (map stream_path (map (λ path. path.now) paths.now))) }
{
    for path in paths {
        inputs.push(InputPath::File(stream_path(path)))?;
    }
    Ok(())
}

/// Adds pairs of an image and its mapfile: `paths` holds each image, followed by its mapfile.
#[tactic(auto, using(crate::proofs::AskingLemmas::one_more, crate::proofs::AskingLemmas::no_pair))]
fn push_pairs<'a>(inputs: &mut Vec<InputPath<'a>>, paths: &[&'a str]) -> Result<(), AllocError>
    ensures { OnOk result (map asked_for inputs.new.items ≡ map asked_for inputs.old.items ++ pairs_of (map (λ path. path.now) paths.now)) }
{
    let mut rest = paths;
    while let [image, map, more @ ..] = rest {
        inputs.push(InputPath::Pair(image, map))?;
        rest = more;
    }
    Ok(())
}

/// The inputs: all files, and then all images with their mapfiles.
pub fn asked_inputs<'a>(
    alloc: Global,
    words: &ArgMatches<'a>,
) -> Result<Vec<InputPath<'a>>, AllocError>
    ensures { IfOk result (λ inputs. map asked_for inputs.items ≡ asked_inputs (found_of words.now)) }
{
    let mut inputs = Vec::new(alloc);
    push_files(&mut inputs, words.get_strs(INPUTS).unwrap_or(&[]))?;
    push_pairs(&mut inputs, words.get_strs(PAIRS).unwrap_or(&[]))?;
    Ok(inputs)
}

/// The inputs of a command that takes `-` for standard input: all files, and then all images with their mapfiles.
pub fn asked_streams<'a>(
    alloc: Global,
    words: &ArgMatches<'a>,
) -> Result<Vec<InputPath<'a>>, AllocError>
    ensures { IfOk result (λ inputs. map asked_for inputs.items ≡ asked_streams (found_of words.now)) }
{
    let mut inputs = Vec::new(alloc);
    push_streams(&mut inputs, words.get_strs(INPUTS).unwrap_or(&[]))?;
    push_pairs(&mut inputs, words.get_strs(PAIRS).unwrap_or(&[]))?;
    Ok(inputs)
}

/// Whether the arguments ask to join what is of another disc, and to write over what is otherwise spared: whether `--force` is given.
pub fn asked_force(words: &ArgMatches<'_>) -> bool
    ensures { IsPicked (found_of words.now) (codes "force") true false result }
{
    words.get_flag(FORCE)
}

/// The path that `--out` gives. The grammar of each command with this output requires it.
pub fn asked_out<'a>(words: &ArgMatches<'a>) -> &'a str
    ensures { result.now ≡ out_text (found_of words.now) }
{
    words.get_str(OUT).unwrap_or("")
}

/// The version of the table file that the arguments of `merge` ask for: 1 with `--v1`, and else 2.
pub fn asked_version(words: &ArgMatches<'_>) -> Version
    ensures unset { one_text (found_of words.now) (codes "v1") ≡ None → result ≡ Version.Two }
    ensures without { one_text (found_of words.now) (codes "v1") ≡ Some (codes "false") → result ≡ Version.Two }
    ensures with { one_text (found_of words.now) (codes "v1") ≡ Some (codes "true") → result ≡ Version.One }
{
    if words.get_flag(V1) {
        return Version::One;
    }
    Version::Two
}

/// The form of the report that the arguments of `report` ask for: JSON with `--json`, and else text.
pub fn asked_form(words: &ArgMatches<'_>) -> Form
    ensures unset { one_text (found_of words.now) (codes "json") ≡ None → result ≡ Form.Text }
    ensures without { one_text (found_of words.now) (codes "json") ≡ Some (codes "false") → result ≡ Form.Text }
    ensures with { one_text (found_of words.now) (codes "json") ≡ Some (codes "true") → result ≡ Form.Json }
{
    if words.get_flag(JSON) {
        return Form::Json;
    }
    Form::Text
}

/// Whether `--conflicts` is among the arguments of `forget`: the blocks in conflict are to be forgotten.
pub fn asked_conflicts(words: &ArgMatches<'_>) -> bool
    ensures { IsPicked (found_of words.now) (codes "conflicts") true false result }
{
    words.get_flag(CONFLICTS)
}

/// The path of the mapfile to write; `""` where the arguments give none.
pub fn asked_mapfile<'a>(words: &ArgMatches<'a>) -> &'a str
    ensures { result.now ≡ mapfile_text (found_of words.now) }
{
    words.get_str(MAPFILE).unwrap_or("")
}

/// Whether the mapfile to write is to have known blocks too, by which a pass of another disc shows: unless `--no-witnesses` is given.
pub fn asked_witnesses(words: &ArgMatches<'_>) -> bool
    ensures { IsPicked (found_of words.now) (codes "no-witnesses") false true result }
{
    !words.get_flag(NO_WITNESSES)
}

/// How much the arguments ask to be said on standard error.
pub fn asked_tone(words: &ArgMatches<'_>) -> Tone
    ensures { IsTone (found_of words.now) result }
{
    Tone {
        verbose: words.get_flag(VERBOSE),
        quiet: words.get_flag(QUIET),
    }
}

/// Whether a flag is among the arguments.
pub fn is_set(words: &ArgMatches<'_>, flag: &str) -> bool
    ensures { IsPicked (found_of words.now) flag.now true false result }
{
    words.get_flag(flag)
}

/// The path of the new folder that the arguments of `extract` give. The grammar requires it.
pub fn asked_folder<'a>(words: &ArgMatches<'a>) -> &'a str
    ensures { result.now ≡ folder_text (found_of words.now) }
{
    words.get_str(TO).unwrap_or("")
}
