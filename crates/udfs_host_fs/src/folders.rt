//! Folders come to the disk from the outside in: a folder's own name before the names in it.

ghost use Rattle.std.specs.Prelude.{◌≡◌, ◌≢◌, ◌↔◌, ℕ, List, Option, Some, None, IsTrue, OnOk, OnErr};
ghost use Rattle.udfs_calls.specs.Log.{AreNamed, after, holds};
ghost use Rattle.udfs_calls.specs.Log.Call.{failed, folder_made, folder_synced};
ghost use Rattle.udfs_calls.specs.Paths.{parent};
ghost use Rattle.udfs_host_fs.specs.Disk.{Same};
ghost use Rattle.udfs_host_fs.specs.Told.{LogGoes, Settles, path_of};

use crate::places::split;
use std::io::{Error, ErrorKind};
use udfs_calls::Calls;

/// The folder that was made last: whether its name may not be on the disk, and its path where that is so. The room for its path is kept from one folder to the
/// next, so that no memory is taken while folders are made.
#[derive(Drop)]
pub(crate) struct LastFolder {
    pub path: String,
    pub waits: bool,
}

/// Brings the names in a folder to the disk. What can not be synced at all, as some folders on a network, needs no sync.
fn sync_folder<C: Calls>(calls: &mut C, folder: &str) -> Result<(), Error>
    ensures done { OnOk result (C.log calls.new ≡ after (folder_synced folder.now) (C.log calls.old)) }
    ensures failed { OnErr result (C.log calls.new ≡ after (failed (folder_synced folder.now)) (C.log calls.old)) }
    ensures real { C.real calls.new ≡ C.real calls.old }
{
    match calls.sync_folder(folder) {
        Err(error) if error.kind() == ErrorKind::InvalidInput => Ok(()),
        outcome => outcome,
    }
}

/// Brings the name of a folder to the disk, the only one that may not be there.
#[tactic(auto, using(crate::proofs::Logs::failed_holds, crate::proofs::Logs::failed_named, crate::proofs::Logs::last_named, crate::proofs::Logs::last_settles, crate::proofs::Logs::named_goes, crate::proofs::Logs::named_holds, crate::proofs::Logs::same_nowhere, crate::proofs::Logs::unnamed_goes))]
fn name_folder<C: Calls>(calls: &mut C, folder: &str) -> Result<(), Error>
    requires { AreNamed (C.log calls.old) (Some folder.now) }
    ensures named { OnOk result (AreNamed (C.log calls.new) None) }
    ensures still { OnErr result (AreNamed (C.log calls.new) (Some folder.now)) }
    ensures durable { OnOk result (Settles (C.log calls.old) (C.log calls.new) (parent folder.now)) }
    ensures others { (q : List ℕ) → holds (C.log calls.new) q ≡ holds (C.log calls.old) q }
    ensures real { C.real calls.new ≡ C.real calls.old }
    ensures crash { LogGoes (C.log calls.old) (C.log calls.new) Same }
{
    let above = split(folder).0;
    if above == folder {
        return Err(Error::from(ErrorKind::InvalidInput));
    }
    match sync_folder(calls, above) {
        Ok(()) => Ok(()),
        Err(error) => Err(error),
    }
}

/// Brings the name of the folder to the disk that was made last, where it may not be there.
#[tactic(auto, using(crate::proofs::Logs::same_nowhere))]
fn name_last<C: Calls>(calls: &mut C, unnamed: &mut LastFolder) -> Result<(), Error>
    requires { AreNamed (C.log calls.old) (path_of unnamed.old) }
    ensures named { AreNamed (C.log calls.new) (path_of unnamed.new) }
    ensures none { OnOk result (path_of unnamed.new ≡ None) }
    ensures durable { OnOk result ((p : List ℕ) → path_of unnamed.old ≡ Some p → Settles (C.log calls.old) (C.log calls.new) (parent p)) }
    ensures others { (q : List ℕ) → holds (C.log calls.new) q ≡ holds (C.log calls.old) q }
    ensures real { C.real calls.new ≡ C.real calls.old }
    ensures crash { LogGoes (C.log calls.old) (C.log calls.new) Same }
{
    if !unnamed.waits {
        return Ok(());
    }
    match name_folder(calls, unnamed.path.as_str()) {
        Ok(()) => {
            unnamed.waits = false;
            Ok(())
        }
        Err(error) => Err(error),
    }
}

/// Makes a folder at a path that nothing has, once the name of the one that was made before is on the disk.
#[tactic(auto, using(crate::proofs::Logs::failed_holds, crate::proofs::Logs::failed_named, crate::proofs::Logs::folder_goes, crate::proofs::Logs::folder_holds, crate::proofs::Logs::folder_named, crate::proofs::Logs::unmade_goes, crate::proofs::Logs::same_then))]
pub(crate) fn make_folder<C: Calls>(
    calls: &mut C,
    unnamed: &mut LastFolder,
    path: &str,
) -> Result<(), Error>
    requires { AreNamed (C.log calls.old) (path_of unnamed.old) }
    ensures named { AreNamed (C.log calls.new) (path_of unnamed.new) }
    ensures others { (q : List ℕ) → holds (C.log calls.new) q ≡ holds (C.log calls.old) q }
    ensures real { C.real calls.new ≡ C.real calls.old }
    ensures crash { LogGoes (C.log calls.old) (C.log calls.new) Same }
{
    match name_last(calls, unnamed) {
        Ok(()) => {}
        Err(error) => return Err(error),
    }
    unnamed.path.clear();
    unnamed.path.push_str(path)?;
    match calls.make_folder(path) {
        Ok(()) => {
            unnamed.waits = true;
            Ok(())
        }
        Err(error) => Err(error),
    }
}

/// Whether this folder is the one whose name may not be on the disk.
fn is_unnamed(unnamed: &LastFolder, folder: &str) -> bool
    ensures { IsTrue result ↔ path_of unnamed.now ≡ Some folder.now }
{
    unnamed.waits && unnamed.path.as_str() == folder
}

/// Brings the name of this folder to the disk, where it may not be there.
#[tactic(auto, using(crate::proofs::Logs::same_nowhere))]
fn name_this<C: Calls>(calls: &mut C, unnamed: &mut LastFolder, folder: &str) -> Result<(), Error>
    requires { AreNamed (C.log calls.old) (path_of unnamed.old) }
    ensures named { AreNamed (C.log calls.new) (path_of unnamed.new) }
    ensures other { OnOk result (path_of unnamed.new ≢ Some folder.now) }
    ensures others { (q : List ℕ) → holds (C.log calls.new) q ≡ holds (C.log calls.old) q }
    ensures real { C.real calls.new ≡ C.real calls.old }
    ensures crash { LogGoes (C.log calls.old) (C.log calls.new) Same }
{
    if !is_unnamed(unnamed, folder) {
        return Ok(());
    }
    match name_last(calls, unnamed) {
        Ok(()) => Ok(()),
        Err(error) => Err(error),
    }
}

/// Brings the names in a folder to the disk, once its own name is there.
#[tactic(auto, using(crate::proofs::Logs::failed_holds, crate::proofs::Logs::failed_named, crate::proofs::Logs::folder_synced_named, crate::proofs::Logs::named_goes, crate::proofs::Logs::named_holds, crate::proofs::Logs::names_stay, crate::proofs::Logs::same_then, crate::proofs::Logs::unnamed_goes))]
fn sync_named<C: Calls>(calls: &mut C, unnamed: &mut LastFolder, folder: &str) -> Result<(), Error>
    requires { AreNamed (C.log calls.old) (path_of unnamed.old) }
    ensures durable { OnOk result (Settles (C.log calls.old) (C.log calls.new) folder.now) }
    ensures named { AreNamed (C.log calls.new) (path_of unnamed.new) }
    ensures others { (q : List ℕ) → holds (C.log calls.new) q ≡ holds (C.log calls.old) q }
    ensures real { C.real calls.new ≡ C.real calls.old }
    ensures crash { LogGoes (C.log calls.old) (C.log calls.new) Same }
{
    match name_this(calls, unnamed, folder) {
        Ok(()) => {}
        Err(error) => return Err(error),
    }
    match sync_folder(calls, folder) {
        Ok(()) => Ok(()),
        Err(error) => Err(error),
    }
}

/// Brings the names to the disk that are in the folder of a path, once its own name is there.
pub(crate) fn sync_names<C: Calls>(
    calls: &mut C,
    unnamed: &mut LastFolder,
    path: &str,
) -> Result<(), Error>
    requires { AreNamed (C.log calls.old) (path_of unnamed.old) }
    ensures durable { OnOk result (Settles (C.log calls.old) (C.log calls.new) (parent path.now)) }
    ensures named { AreNamed (C.log calls.new) (path_of unnamed.new) }
    ensures others { (q : List ℕ) → holds (C.log calls.new) q ≡ holds (C.log calls.old) q }
    ensures real { C.real calls.new ≡ C.real calls.old }
    ensures crash { LogGoes (C.log calls.old) (C.log calls.new) Same }
{
    if is_unnamed(unnamed, path) {
        return match name_last(calls, unnamed) {
            Ok(()) => Ok(()),
            Err(error) => Err(error),
        };
    }
    sync_named(calls, unnamed, split(path).0)
}
