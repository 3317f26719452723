//! The times of what is made: those that the volume has.

ghost use Rattle.udfs_extraction.specs.ByRequest.{IsGoodWithTimes};

use crate::node_files::{node_at, path_in};
use crate::nodes::Fate;
use crate::places::place_from;
use crate::unnamed::{lost_path, push_lost_name};
use std::alloc::{AllocError, Global};
use std::fmt::Write;
use udfs_common::files::Files;
use udfs_common::shown::Said;
use udfs_file::Kind;
use udfs_host_fs::Times;
use udfs_lattice::BlockStore;
use udfs_osta::Stamp;
use udfs_overview::push_shown_path;
use udfs_salvage::Listing;
use udfs_salvage::choosing::is_above;
use udfs_walk::{Node, Unnamed};

/// The times of what is made: where they are asked for they are kept, by the zone of the machine's clock.
pub fn times_for<F: Files>(asked: bool, files: &F) -> Result<Times, AllocError> {
    let times = Times::new();
    if asked {
        times.keep(files.zone()?);
    }
    Ok(times)
}

/// Whether all is good where this is: where times are asked for, one that could not be set is lacking too.
pub fn told_good(good: bool, asked: bool, times: &Times) -> bool
    ensures { IsGoodWithTimes asked good result }
{
    if asked && times.are_lacking() {
        return false;
    }
    good
}

/// Notes that a time could not be set, and shows this line as a remark, unless memory ran out for it.
fn miss<F: Files>(line: Result<String, AllocError>, times: &Times, files: &F) {
    times.lack();
    if let Ok(line) = line {
        files.remark(line.as_str());
    }
}

/// What is said of a file or a folder whose time could not be set, with a word before its path.
fn of_node<F: Files>(
    alloc: Global,
    word: &str,
    node: &Node,
    files: &F,
) -> Result<String, AllocError> {
    let reason = Said(files.reason());
    let mut line = String::from_str(alloc, "time of ")?;
    line.push_str(word)?;
    if push_shown_path(&mut line, &node.path).is_err() {
        return Err(AllocError);
    }
    write!(line, ": {reason}")?;
    Ok(line)
}

/// What is said of a lost file whose time could not be set.
fn of_lost<F: Files>(
    alloc: Global,
    two: bool,
    entry: &Unnamed,
    files: &F,
) -> Result<String, AllocError> {
    let reason = Said(files.reason());
    let mut line = String::from_str(alloc, "time of unnamed ")?;
    push_lost_name(&mut line, two, entry)?;
    write!(line, ": {reason}")?;
    Ok(line)
}

/// Sets the time of what is at a path by a stamp, if times are kept and it gives a moment since 1970. Returns `false` where it could not be set, else `true`.
fn set_time<F: Files>(stamp: Stamp, path: &str, times: &Times, files: &F) -> bool {
    match times.moment(stamp) {
        Some(micros) => files.set_modified(path, micros).is_ok(),
        None => true,
    }
}

/// Sets the time of what was made for a node at a place in a folder.
fn set_node_time<F: Files>(
    alloc: Global,
    word: &str,
    node: &Node,
    folder: &str,
    place: &str,
    times: &Times,
    files: &F,
) {
    let Some(stamp) = node.stamp else {
        return;
    };
    match path_in(alloc, folder, place) {
        Ok(path) => {
            if !set_time(stamp, path.as_str(), times, files) {
                miss(of_node(alloc, word, node, files), times, files);
            }
        }
        Err(AllocError) => times.lack(),
    }
}

/// Sets the time of the file that was written for an entry which no name leads to, where times are to be set.
pub fn set_lost_time<F: Files>(
    alloc: Global,
    two: bool,
    entry: &Unnamed,
    fate: Fate,
    folder: &str,
    times: &Times,
    files: &F,
) {
    if fate != Fate::Written || !times.are_kept() {
        return;
    }
    match lost_path(alloc, folder, two, entry) {
        Ok(path) => {
            if !set_time(entry.stamp, path.as_str(), times, files) {
                miss(of_lost(alloc, two, entry, files), times, files);
            }
        }
        Err(AllocError) => times.lack(),
    }
}

/// Sets the time of the file that was written at a place for a node, if one was and times are to be set.
pub fn set_written_time<F: Files>(
    alloc: Global,
    word: &str,
    node: &Node,
    fate: Fate,
    folder: &str,
    place: &str,
    times: &Times,
    files: &F,
) {
    if fate == Fate::Written && times.are_kept() {
        set_node_time(alloc, word, node, folder, place, times, files);
    }
}

/// Whether a folder was made for a node with this fate: for its own sake, or for what is below it.
fn is_folder_made(
    alloc: Global,
    only: &[&str],
    node: &Node,
    fate: Fate,
) -> Result<bool, AllocError> {
    match fate {
        Fate::Made => Ok(true),
        Fate::Passed if node.kind == Kind::Directory => is_above(alloc, only, &node.path),
        _ => Ok(false),
    }
}

/// Sets the time of the file that was written at a place for the node of this index, where times are to be set. A folder that was made there is noted by that
/// index: its time is set when all is made, since what is put into it changes it.
pub fn note_time<F: Files>(
    alloc: Global,
    word: &str,
    node: &Node,
    index: usize,
    only: &[&str],
    fate: Fate,
    folder: &str,
    place: &str,
    made: &mut Vec<usize>,
    times: &Times,
    files: &F,
) {
    if !times.are_kept() {
        return;
    }
    set_written_time(alloc, word, node, fate, folder, place, times, files);
    match is_folder_made(alloc, only, node, fate) {
        Ok(true) => {
            if made.push(index).is_err() {
                times.lack();
            }
        }
        Ok(false) => {}
        Err(AllocError) => times.lack(),
    }
}

/// Sets the time of the folder that was made for the node of this index. `way` has the way to the node of the index `at`, and then the way to this one,
/// or none where memory ran out. Returns the index of the node to which `way` leads then.
fn set_folder_time<B: BlockStore, F: Files>(
    alloc: Global,
    listing: &Listing<'_, B>,
    word: &str,
    at: usize,
    index: usize,
    short: bool,
    folder: &str,
    way: &mut Vec<usize>,
    times: &Times,
    files: &F,
) -> usize {
    if index >= listing.nodes.len() {
        return at;
    }
    match place_from(alloc, listing, at, index, short, way) {
        Ok(place) => {
            set_node_time(
                alloc,
                word,
                node_at(listing, index),
                folder,
                place.as_str(),
                times,
                files,
            );
            index
        }
        Err(AllocError) => {
            times.lack();
            way.clear();
            0
        }
    }
}

/// Sets the times of the folders that were made, in order, and last that of `folder`, which is the root's. `made` holds the indexes of their nodes.
/// Setting one changes no other.
pub fn set_folder_times<B: BlockStore, F: Files>(
    alloc: Global,
    listing: &Listing<'_, B>,
    word: &str,
    made: &[usize],
    short: bool,
    folder: &str,
    times: &Times,
    files: &F,
) {
    if !times.are_kept() {
        return;
    }
    let mut way = Vec::new(alloc);
    let mut at = 0;
    for index in made {
        at = set_folder_time(
            alloc, listing, word, at, *index, short, folder, &mut way, times, files,
        );
    }
    if let Some(root) = listing.nodes.first() {
        set_node_time(alloc, word, root, folder, "", times, files);
    }
}
