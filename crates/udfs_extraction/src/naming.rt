//! The names of files come to the disk folder by folder: at once for all that were written there.

ghost use Rattle.std.specs.Prelude.{◌≡◌, ◌≢◌, ◌<◌, ◌++◌, ⊤, ℕ, List, Some, true, false, IfOk, IfSome, MatchOption, OnErr, OnOk, codes, length, slice_get, string_bytes};
ghost use Rattle.udfs_host_fs.specs.Disk.{Fails, Goes, Same, SameBut, folder_of};
ghost use Rattle.udfs_extraction.specs.Runs.{AreKept, IsEnd, IsNamed};

use crate::node_files::give_up;
use crate::nodes::{Done, Fate};
use crate::places::Place;
use udfs_common::files::Files;
use udfs_reading::DeviceFault;

/// What was done with a node, whose line is not printed yet.
#[derive(Drop)]
pub struct Put {
    /// Where it is, below the folder.
    pub place: Place,
    /// Its path, which begins with the folder's.
    pub path: String,
    /// What became of it so far. A file that was written is on the disk, and its name may not be there yet.
    pub done: Done,
}

/// What is before the last slash of a path, where it has one.
fn before_slash(path: &str) -> Option<&str>
    ensures { IfSome result (λ front. folder_of path.now ≡ front.now ++ codes "/") }
{
    match path.rsplit_once('/') {
        Some((front, _)) => Some(front),
        None => None,
    }
}

/// Whether two paths are known to have the same folder.
fn is_beside(one: &str, other: &str) -> bool
    ensures { result ≡ true → folder_of one.now ≡ folder_of other.now }
{
    let Some(front) = before_slash(one) else {
        return false;
    };
    match before_slash(other) {
        Some(there) => front == there,
        None => false,
    }
}

/// What was done with a node of a run.
pub fn put_at(puts: &[Put], k: usize) -> &Put
    requires { k < length puts.now }
    ensures { slice_get puts.now k ≡ Some result.now }
{
    &puts[k]
}

/// Brings the names in the folder of a path to the disk, unless it is the folder of `named`, in which they are there.
fn name_next<F: Files>(named: Option<&str>, path: &str, files: &mut F) -> Result<(), DeviceFault>
    ensures named { OnOk result (F.tells → MatchOption named.entry ⊤ (λ last. IsNamed (F.holds files.old) (F.may_leave files.old) last.now) → IsNamed (F.holds files.new) (F.may_leave files.new) path.now) }
    ensures cause { OnErr result (Fails F.faults) }
    ensures others { (q : List ℕ) → F.holds files.new q ≡ F.holds files.old q }
    ensures crash { Goes F.moment F.may_leave F.left_since files.old files.new Same }
{
    if let Some(last) = named {
        if is_beside(last, path) {
            return Ok(());
        }
    }
    match files.sync_folder(path) {
        Ok(()) => Ok(()),
        Err(fault) => Err(fault),
    }
}

/// Brings the name of a file to the disk, if one was written. Returns a path in whose folder the names are there, if it is known of one.
fn name_put<'a, F: Files>(
    named: Option<&'a str>,
    put: &'a Put,
    files: &mut F,
) -> Result<Option<&'a str>, DeviceFault>
    ensures last { IfOk result (λ last. F.tells → MatchOption named.entry ⊤ (λ path. IsNamed (F.holds files.old) (F.may_leave files.old) path.now) → MatchOption last ⊤ (λ path. IsNamed (F.holds files.new) (F.may_leave files.new) path.now)) }
    ensures put { OnOk result (F.tells → MatchOption named.entry ⊤ (λ path. IsNamed (F.holds files.old) (F.may_leave files.old) path.now) → put.now.done.fate ≡ Fate.Written → IsNamed (F.holds files.new) (F.may_leave files.new) (string_bytes put.now.path)) }
    ensures cause { OnErr result (Fails F.faults) }
    ensures others { (q : List ℕ) → F.holds files.new q ≡ F.holds files.old q }
    ensures crash { Goes F.moment F.may_leave F.left_since files.old files.new Same }
{
    if put.done.fate != Fate::Written {
        return Ok(named);
    }
    let path = put.path.as_str();
    match name_next(named, path, files) {
        Ok(()) => Ok(Some(path)),
        Err(fault) => Err(fault),
    }
}

/// Brings the names of the files to the disk that were written. A folder is synced once for those of its files that follow each other. Returns whether all
/// names are there.
pub fn name_files<F: Files>(puts: &[Put], files: &mut F) -> bool
    ensures kept { result ≡ true → F.tells → AreKept (F.holds files.new) (F.may_leave files.new) puts.now }
    ensures cause { result ≡ false → Fails F.faults }
    ensures others { (q : List ℕ) → F.holds files.new q ≡ F.holds files.old q }
    ensures crash { Goes F.moment F.may_leave F.left_since files.old files.new Same }
{
    let mut named: Option<&str> = None;
    for k in 0..puts.len() {
        let put = put_at(puts, k);
        match name_put(named, put, files) {
            Ok(last) => named = last,
            Err(DeviceFault) => return false,
        }
    }
    true
}

/// What became of a node in the end, once the names of a run are on the disk, or could not be brought there: then a file that was written is removed.
pub fn end_of<F: Files>(put: &Put, named: bool, files: &mut F) -> Fate
    ensures end { IsEnd named put.now.done.fate result }
    ensures named { named ≡ true → files.new ≡ files.old }
    ensures unwritten { put.now.done.fate ≢ Fate.Written → files.new ≡ files.old }
    ensures others { (q : List ℕ) → q ≢ string_bytes put.now.path → F.holds files.new q ≡ F.holds files.old q }
    ensures crash { Goes F.moment F.may_leave F.left_since files.old files.new (SameBut (string_bytes put.now.path)) }
{
    let fate = put.done.fate;
    if named {
        return fate;
    }
    if fate != Fate::Written {
        return fate;
    }
    give_up(put.path.as_str(), files)
}
