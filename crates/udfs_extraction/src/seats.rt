//! Where what is lost is written: by its number, or by a name that was found for it.

ghost use Rattle.std.specs.Prelude.{◌≡◌, ◌++◌, ℕ, List, None, Option, IfOk, IfSome, OnOk, codes, string_bytes};
ghost use Rattle.udfs_host_fs.specs.Disk.{Goes, Same};
ghost use Rattle.udfs_extraction.specs.Seats.{FoundAt, IsSeat, found_part, found_way, found_word, lead_part, lead_word, seat_path, seat_word, tree_word};

use crate::found_places::{FoundPlace, FoundPlaces};
use crate::node_files::{path_in, put_folder};
use crate::short_names::push_icb_number;
use std::alloc::{AllocError, Global};
use udfs_common::files::Files;
use udfs_host_fs::{Aim, Kind};
use udfs_tag::LbAddr;

/// Where a tree is written.
#[derive(Drop)]
pub struct Seat {
    /// What stands before the paths of its nodes in what is printed.
    pub word: String,
    /// The path of its first node.
    pub path: String,
}

/// Appends `lost:`, and the number of an information control block.
fn push_tree_word(text: &mut String, two: bool, icb: LbAddr) -> Result<(), AllocError>
    ensures { OnOk result (string_bytes text.new ≡ string_bytes text.old ++ tree_word two icb) }
{
    text.push_str("lost:")?;
    push_icb_number(text, two, icb)
}

/// Appends the same of the lost tree in which a torn folder is, if it is in one.
fn push_lead_word(text: &mut String, two: bool, tree: Option<LbAddr>) -> Result<(), AllocError>
    ensures { OnOk result (string_bytes text.new ≡ string_bytes text.old ++ lead_word two tree) }
{
    match tree {
        None => Ok(()),
        Some(icb) => push_tree_word(text, two, icb),
    }
}

/// Appends a `/` and the number of the lost tree in which a torn folder is, if it is in one.
fn push_lead_part(text: &mut String, two: bool, tree: Option<LbAddr>) -> Result<(), AllocError>
    ensures { OnOk result (string_bytes text.new ≡ string_bytes text.old ++ lead_part two tree) }
{
    match tree {
        None => Ok(()),
        Some(icb) => {
            text.push_str("/")?;
            push_icb_number(text, two, icb)
        }
    }
}

/// The place of a tree by its number.
fn numbered_seat(alloc: Global, two: bool, icb: LbAddr, folder: &str) -> Result<Seat, AllocError>
    ensures word { IfOk result (λ seat. string_bytes seat.word ≡ seat_word two icb None) }
    ensures path { IfOk result (λ seat. string_bytes seat.path ≡ seat_path folder.now two icb None) }
{
    let mut word = String::new(alloc);
    push_tree_word(&mut word, two, icb)?;
    let mut path = String::from_str(alloc, folder)?;
    path.push_str("/")?;
    push_icb_number(&mut path, two, icb)?;
    Ok(Seat { word, path })
}

/// Where a name that is found is: below `by-name`, that of the lost tree in which the torn folder is, if it is in one, and the path of the torn folder.
fn found_way(alloc: Global, two: bool, name: &FoundPlace) -> Result<String, AllocError>
    ensures { IfOk result (λ way. string_bytes way ≡ found_way two name.now) }
{
    let mut way = String::from_str(alloc, "by-name")?;
    push_lead_part(&mut way, two, name.tree)?;
    way.push_str(name.folder.as_str())?;
    Ok(way)
}

/// What stands before the paths of a tree that is written by a name.
fn found_word(alloc: Global, two: bool, name: &FoundPlace) -> Result<String, AllocError>
    ensures { IfOk result (λ word. string_bytes word ≡ found_word two name.now) }
{
    let mut word = String::from_str(alloc, "found:")?;
    push_lead_word(&mut word, two, name.tree)?;
    word.push_str(name.folder.as_str())?;
    word.push_str(name.name.as_str())?;
    Ok(word)
}

/// The place of a tree by a name, where this is the way to it.
fn named_seat(
    alloc: Global,
    two: bool,
    name: &FoundPlace,
    folder: &str,
    way: &str,
) -> Result<Seat, AllocError>
    requires { way.now ≡ found_way two name.now }
    ensures word { IfOk result (λ seat. string_bytes seat.word ≡ found_word two name.now) }
    ensures path { IfOk result (λ seat. string_bytes seat.path ≡ folder.now ++ codes "/" ++ found_part two name.now) }
{
    let word = found_word(alloc, two, name)?;
    let mut path = String::from_str(alloc, folder)?;
    path.push_str("/")?;
    path.push_str(way)?;
    path.push_str(name.name.as_str())?;
    Ok(Seat { word, path })
}

/// Makes the folders of a way in a folder, as far as they are not there. Whether they could be made is seen by what is put into the last one.
fn make_way<F: Files>(
    alloc: Global,
    folder: &str,
    way: &str,
    files: &mut F,
) -> Result<(), AllocError>
    ensures others { (q : List ℕ) → F.holds files.new q ≡ F.holds files.old q }
    ensures crash { Goes F.moment F.may_leave F.left_since files.old files.new Same }
{
    let mut path = String::from_str(alloc, folder)?;
    for part in way.split('/') {
        path.push('/')?;
        path.push_str(part)?;
        let _ = put_folder(path.as_str(), files);
    }
    Ok(())
}

/// Whether nothing is at a path, and something can be made there.
fn is_open<F: Files>(alloc: Global, path: &str, files: &F) -> Result<bool, AllocError> {
    match files.resolve(alloc, path, Aim::Reading)? {
        Ok(target) => Ok(target.kind == Kind::Absent),
        Err(_) => Ok(false),
    }
}

/// Makes the way to a name that is found, and returns the place of a tree by it, unless something is there or it cannot be made.
fn open_seat<F: Files>(
    alloc: Global,
    two: bool,
    name: &FoundPlace,
    folder: &str,
    files: &mut F,
) -> Result<Option<Seat>, AllocError>
    ensures word { IfOk result (λ found. IfSome found (λ seat. string_bytes seat.word ≡ found_word two name.now)) }
    ensures path { IfOk result (λ found. IfSome found (λ seat. string_bytes seat.path ≡ folder.now ++ codes "/" ++ found_part two name.now)) }
    ensures others { (q : List ℕ) → F.holds files.new q ≡ F.holds files.old q }
    ensures crash { Goes F.moment F.may_leave F.left_since files.old files.new Same }
{
    let way = found_way(alloc, two, name)?;
    let seat = named_seat(alloc, two, name, folder, way.as_str())?;
    make_way(alloc, folder, way.as_str(), files)?;
    if is_open(alloc, seat.path.as_str(), files)? {
        return Ok(Some(seat));
    }
    Ok(None)
}

/// The place of a tree by a name that was found for it, whose folders are made then; by its number, where there is none, or something is at that place already, or nothing
/// can be made there.
pub fn seat_for<F: Files>(
    alloc: Global,
    two: bool,
    icb: LbAddr,
    names: &FoundPlaces,
    folder: &str,
    files: &mut F,
) -> Result<Seat, AllocError>
    ensures seat { IfOk result (λ seat. (at : Option FoundAt) × IsSeat names.now icb at × (string_bytes seat.word ≡ seat_word two icb at) × (string_bytes seat.path ≡ seat_path folder.now two icb at)) }
    ensures others { (q : List ℕ) → F.holds files.new q ≡ F.holds files.old q }
    ensures crash { Goes F.moment F.may_leave F.left_since files.old files.new Same }
{
    let Some(name) = names.at(icb) else {
        return numbered_seat(alloc, two, icb, folder);
    };
    match open_seat(alloc, two, name, folder, files)? {
        Some(seat) => Ok(seat),
        None => numbered_seat(alloc, two, icb, folder),
    }
}
