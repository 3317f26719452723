//! The arguments of a command as a request.

ghost use Rattle.std.specs.Prelude.{◌≡◌, [], None, IfOk, IfErr, IfSome, codes, map, option_map, unwrap_or};
ghost use Rattle.clap.specs.Matches.{found_of, matched_of, raw_values};
ghost use Rattle.udfs_words.specs.Asking.{input_texts, only_path, only_texts, pair_texts, stream_path, without_slash};
ghost use Rattle.udfs_words.specs.Requests.{AreInputs, IsCommandName, IsLastSource, IsRequest, IsUsageFault, IsVolumeSource, Reads, optional_text, printed_path, streamed_texts, texts};

use crate::asking::{
    asked_conflicts, asked_folder, asked_force, asked_form, asked_inputs, asked_mapfile, asked_out,
    asked_streams, asked_version, asked_witnesses, is_set, stream_path,
};
use crate::group::{GroupFault, asked_group, group_fault};
use crate::last::{EndFault, asked_last, end_fault};
use crate::profile::{asked_profile, unknown_profile};
use crate::request::{
    ExtractRequest, ForgetRequest, ImageRequest, Inputs, LastSource, ListRequest, MergeRequest,
    PageRequest, ReportRequest, Request, RereadRequest, SummaryRequest, VolumeSource,
};
use crate::streams::are_two_streams;
use crate::words::{
    BLOCKS, DELETED, FILL, HEADER, INPUTS, JSON, LAST, LOST, MANIFEST, MAPFILE, NULL, ONLY, PAIRS,
    PATHS, SHORT_NAMES, SIZE, SIZE_OF, TIMES, TITLE, TORN, UNNAMED,
};
use clap::ArgMatches;
use std::alloc::{AllocError, Global};

/// The path of a volume's root, which asks for all that is in it.
const ROOT: &str = "/";

/// Why arguments that clap takes are no request.
pub enum UsageFault<'a> {
    /// What says where the disc ends is wrong.
    End(EndFault<'a>),
    /// Rules of this name there are not.
    Profile(&'a str),
    /// The size of groups is wrong, or there is no mapfile for them.
    Group(GroupFault<'a>),
    /// Standard input is to be read twice.
    TwoStreams,
    /// There is no command of this name.
    NoCommand,
    /// Memory ran out.
    OutOfMemory,
}

/// All that was given as this.
fn read_texts<'a>(
    alloc: Global,
    words: &ArgMatches<'a>,
    id: &str,
) -> Result<Vec<&'a str>, AllocError>
    ensures { IfOk result (λ paths. texts paths.items ≡ unwrap_or (option_map raw_values (matched_of (found_of words.now) id.now)) []) }
{
    let mut paths = Vec::new(alloc);
    match paths.extend_from_slice(words.get_strs(id).unwrap_or(&[])) {
        Ok(()) => Ok(paths),
        Err(_) => Err(AllocError),
    }
}

/// All that was given as this, where `-` is standard input.
fn read_streams<'a>(
    alloc: Global,
    words: &ArgMatches<'a>,
    id: &str,
) -> Result<Vec<&'a str>, AllocError>
    ensures { IfOk result (λ paths. texts paths.items ≡ map stream_path (unwrap_or (option_map raw_values (matched_of (found_of words.now) id.now)) [])) }
{
    let mut paths = Vec::new(alloc);
    for path in words.get_strs(id).unwrap_or(&[]) {
        paths.push(stream_path(path))?;
    }
    Ok(paths)
}

/// The inputs of a command for which `-` is a path as any other.
fn read_inputs<'a>(alloc: Global, words: &ArgMatches<'a>) -> Result<Inputs<'a>, AllocError>
    ensures { IfOk result (AreInputs (input_texts (found_of words.now)) (pair_texts (found_of words.now))) }
{
    let paths = asked_inputs(alloc, words)?;
    let files = read_texts(alloc, words, INPUTS)?;
    let parts = read_texts(alloc, words, PAIRS)?;
    Ok(Inputs {
        paths,
        files,
        parts,
    })
}

/// The inputs of a command that takes `-` for standard input.
fn read_streamed<'a>(alloc: Global, words: &ArgMatches<'a>) -> Result<Inputs<'a>, AllocError>
    ensures { IfOk result (AreInputs (streamed_texts (found_of words.now)) (pair_texts (found_of words.now))) }
{
    let paths = asked_streams(alloc, words)?;
    let files = read_streams(alloc, words, INPUTS)?;
    let parts = read_texts(alloc, words, PAIRS)?;
    Ok(Inputs {
        paths,
        files,
        parts,
    })
}

/// Where the disc ends.
fn read_last<'a>(words: &ArgMatches<'a>) -> LastSource<'a>
    ensures { IsLastSource (found_of words.now) result }
{
    if words.contains_id(LAST) || words.contains_id(SIZE) {
        return LastSource::Block(asked_last(words));
    }
    match read_optional(words, SIZE_OF) {
        Some(map) => LastSource::OfMap(map),
        None => LastSource::OfMaps,
    }
}

/// What was given as this, if anything was.
fn read_optional<'a>(words: &ArgMatches<'a>, id: &str) -> Option<&'a str>
    ensures { option_map (λ path. path.now) result ≡ optional_text (found_of words.now) id.now }
{
    if words.contains_id(id) {
        return Some(words.get_str(id).unwrap_or(""));
    }
    None
}

/// A path without a `/` at its end.
fn without_slash(path: &str) -> &str
    ensures { result.now ≡ without_slash path.now }
{
    path.strip_suffix('/').unwrap_or(path)
}

/// The path of what is wanted, without a `/` at its end; that of the root is `/`.
fn only_path(path: &str) -> &str
    ensures { result.now ≡ only_path path.now }
{
    if path == ROOT {
        return path;
    }
    without_slash(path)
}

/// These paths, none of which ends with a `/` but that of the root.
fn only_paths<'a>(alloc: Global, given: &[&'a str]) -> Result<Vec<&'a str>, AllocError>
    ensures { IfOk result (λ paths. texts paths.items ≡ map only_path (texts given.now)) }
{
    let mut paths = Vec::new(alloc);
    for path in given {
        paths.push(only_path(path))?;
    }
    Ok(paths)
}

/// The paths of what is wanted of a volume; that of the root, where none was given.
fn read_only<'a>(alloc: Global, words: &ArgMatches<'a>) -> Result<Vec<&'a str>, AllocError>
    ensures { IfOk result (λ paths. texts paths.items ≡ only_texts (found_of words.now)) }
{
    match words.get_strs(ONLY) {
        Some(given) => only_paths(alloc, given),
        None => {
            let mut paths = Vec::new(alloc);
            paths.push(ROOT)?;
            Ok(paths)
        }
    }
}

/// The path of the output, where `-` is standard output.
fn read_printed<'a>(words: &ArgMatches<'a>) -> &'a str
    ensures { result.now ≡ printed_path (found_of words.now) }
{
    let path = asked_out(words);
    if path == "-" { "/dev/stdout" } else { path }
}

/// The volume that a command looks into for which `-` is a path as any other.
fn read_volume<'a>(alloc: Global, words: &ArgMatches<'a>) -> Result<VolumeSource<'a>, AllocError>
    ensures { IfOk result (IsVolumeSource (input_texts (found_of words.now)) (found_of words.now)) }
{
    let inputs = read_inputs(alloc, words)?;
    Ok(VolumeSource {
        inputs,
        last: read_last(words),
        profile: asked_profile(words),
        force: asked_force(words),
    })
}

/// The volume that a command looks into that takes `-` for standard input.
fn read_streamed_volume<'a>(
    alloc: Global,
    words: &ArgMatches<'a>,
) -> Result<VolumeSource<'a>, AllocError>
    ensures { IfOk result (IsVolumeSource (streamed_texts (found_of words.now)) (found_of words.now)) }
{
    let inputs = read_streamed(alloc, words)?;
    Ok(VolumeSource {
        inputs,
        last: read_last(words),
        profile: asked_profile(words),
        force: asked_force(words),
    })
}

/// The arguments of `merge`.
fn read_merge<'a>(alloc: Global, words: &ArgMatches<'a>) -> Result<Request<'a>, AllocError>
    ensures { IfOk result (IsRequest (codes "merge") (found_of words.now)) }
{
    let inputs = read_inputs(alloc, words)?;
    Ok(Request::Merge(MergeRequest {
        inputs,
        version: asked_version(words),
        out: asked_out(words),
        force: asked_force(words),
    }))
}

/// The arguments of `forget`.
fn read_forget<'a>(alloc: Global, words: &ArgMatches<'a>) -> Result<Request<'a>, AllocError>
    ensures { IfOk result (IsRequest (codes "forget") (found_of words.now)) }
{
    let inputs = read_streamed(alloc, words)?;
    let lists = read_streams(alloc, words, BLOCKS)?;
    Ok(Request::Forget(ForgetRequest {
        inputs,
        conflicts: asked_conflicts(words),
        lists,
        out: read_printed(words),
        force: asked_force(words),
    }))
}

/// The arguments of `image`.
fn read_image<'a>(alloc: Global, words: &ArgMatches<'a>) -> Result<Request<'a>, AllocError>
    ensures { IfOk result (IsRequest (codes "image") (found_of words.now)) }
{
    let inputs = read_streamed(alloc, words)?;
    Ok(Request::Image(ImageRequest {
        inputs,
        last: read_last(words),
        image: asked_out(words),
        mapfile: asked_mapfile(words),
        force: asked_force(words),
    }))
}

/// The arguments of `report`.
fn read_report<'a>(alloc: Global, words: &ArgMatches<'a>) -> Result<Request<'a>, AllocError>
    ensures { IfOk result (IsRequest (codes "report") (found_of words.now)) }
{
    let volume = read_volume(alloc, words)?;
    Ok(Request::Report(ReportRequest {
        volume,
        form: asked_form(words),
    }))
}

/// The arguments of `reread`.
fn read_reread<'a>(alloc: Global, words: &ArgMatches<'a>) -> Result<Request<'a>, AllocError>
    ensures { IfOk result (IsRequest (codes "reread") (found_of words.now)) }
{
    let volume = read_volume(alloc, words)?;
    let only = only_paths(alloc, words.get_strs(ONLY).unwrap_or(&[]))?;
    Ok(Request::Reread(RereadRequest {
        volume,
        only,
        mapfile: read_optional(words, MAPFILE),
        group: asked_group(words),
        witnesses: asked_witnesses(words),
    }))
}

/// The arguments of `list`.
fn read_list<'a>(alloc: Global, words: &ArgMatches<'a>) -> Result<Request<'a>, AllocError>
    ensures { IfOk result (IsRequest (codes "list") (found_of words.now)) }
{
    let volume = read_streamed_volume(alloc, words)?;
    Ok(Request::List(ListRequest {
        volume,
        torn: is_set(words, TORN),
        null: is_set(words, NULL),
        paths: is_set(words, PATHS),
        header: is_set(words, HEADER),
        json: is_set(words, JSON),
        lost: is_set(words, LOST),
        deleted: is_set(words, DELETED),
    }))
}

/// The arguments of `summary`.
fn read_summary<'a>(alloc: Global, words: &ArgMatches<'a>) -> Result<Request<'a>, AllocError>
    ensures { IfOk result (IsRequest (codes "summary") (found_of words.now)) }
{
    let volume = read_streamed_volume(alloc, words)?;
    Ok(Request::Summary(SummaryRequest {
        volume,
        size: read_optional(words, SIZE),
        form: asked_form(words),
    }))
}

/// The arguments of `page`.
fn read_page<'a>(alloc: Global, words: &ArgMatches<'a>) -> Result<Request<'a>, AllocError>
    ensures { IfOk result (IsRequest (codes "page") (found_of words.now)) }
{
    let volume = read_streamed_volume(alloc, words)?;
    Ok(Request::Page(PageRequest {
        volume,
        size: read_optional(words, SIZE),
        title: read_optional(words, TITLE),
        out: read_printed(words),
    }))
}

/// The arguments of `extract`.
fn read_extract<'a>(alloc: Global, words: &ArgMatches<'a>) -> Result<Request<'a>, AllocError>
    ensures { IfOk result (IsRequest (codes "extract") (found_of words.now)) }
{
    let volume = read_volume(alloc, words)?;
    let only = read_only(alloc, words)?;
    Ok(Request::Extract(ExtractRequest {
        volume,
        folder: asked_folder(words),
        only,
        fill: is_set(words, FILL),
        short_names: is_set(words, SHORT_NAMES),
        times: is_set(words, TIMES),
        manifest: read_optional(words, MANIFEST),
        lost: read_optional(words, UNNAMED),
        trees: read_optional(words, LOST),
        deleted: is_set(words, DELETED),
    }))
}

/// The arguments of the command of this name, if there is one.
fn read_command<'a>(
    alloc: Global,
    name: &str,
    words: &ArgMatches<'a>,
) -> Option<Result<Request<'a>, AllocError>>
    ensures read { IfSome result (λ read. IfOk read (IsRequest name.now (found_of words.now))) }
    ensures none { result ≡ None → ¬ IsCommandName name.now }
{
    match name {
        "merge" => Some(read_merge(alloc, words)),
        "forget" => Some(read_forget(alloc, words)),
        "image" => Some(read_image(alloc, words)),
        "report" => Some(read_report(alloc, words)),
        "reread" => Some(read_reread(alloc, words)),
        "list" => Some(read_list(alloc, words)),
        "summary" => Some(read_summary(alloc, words)),
        "page" => Some(read_page(alloc, words)),
        "extract" => Some(read_extract(alloc, words)),
        _ => None,
    }
}

/// What the arguments of the command `name` ask for.
///
/// # Errors
///
/// The first of these faults that is in them: two of the last block, the size and a mapfile to take it from are given, or a size that is that of no disc of whole blocks (`End`); rules are
/// named that there are not (`Profile`); `--group` has no size of a group, or there is no `--mapfile` (`Group`); standard input is to be read twice (`TwoStreams`). `NoCommand` where no command has this name, and `OutOfMemory` if
/// memory runs out.
pub fn read<'a>(
    alloc: Global,
    name: &str,
    words: &ArgMatches<'a>,
) -> Result<Request<'a>, UsageFault<'a>>
    ensures read { IfOk result (Reads name.now (found_of words.now)) }
    ensures fault { IfErr result (IsUsageFault name.now (found_of words.now)) }
{
    if let Some(fault) = end_fault(words) {
        return Err(UsageFault::End(fault));
    }
    if let Some(profile) = unknown_profile(words) {
        return Err(UsageFault::Profile(profile));
    }
    if let Some(fault) = group_fault(words) {
        return Err(UsageFault::Group(fault));
    }
    if are_two_streams(name, words) {
        return Err(UsageFault::TwoStreams);
    }
    match read_command(alloc, name, words) {
        Some(Ok(request)) => Ok(request),
        Some(Err(AllocError)) => Err(UsageFault::OutOfMemory),
        None => Err(UsageFault::NoCommand),
    }
}
