//! Where a path leads, every link followed, and what is there, as the machine's calls tell it.

ghost use Rattle.std.specs.Prelude.{◌≡◌, ◌≢◌, None, IfOk, IfSome, IsNone, OnErr, string_bytes};
ghost use Rattle.udfs_calls.specs.Log.{Names, NamesSome};
ghost use Rattle.udfs_host_fs.specs.Leading.{LeadsTo};
ghost use Rattle.udfs_host_fs.specs.Told.{identity_by};
ghost use Rattle.udfs_host_fs.specs.declared.files.Kind.{Kind};

use crate::files::{Aim, Identity, Kind, Target};
use crate::places::{is_device, is_part, name_in, split};
use crate::reaching::link_at;
use crate::watch::{Watch, heeded};
use std::alloc::{AllocError, Global};
use std::io::ErrorKind;
use udfs_calls::Calls;
use udfs_reading::DeviceFault;

/// How many links are followed one after the other, as the system does.
const LINKS: usize = 40;

/// What is at a path.
#[derive(Drop)]
struct There {
    kind: Kind,
    /// Which file it is, where it is a regular one.
    identity: Option<Identity>,
}

/// Whether a regular file serves what its path is followed for: one that may not be written is a fault where it is to be.
fn serves<C: Calls, N: Watch>(calls: &C, watch: &N, path: &str, aim: Aim) -> Result<(), DeviceFault>
    ensures { OnErr result (C.shut calls.now path.now) }
{
    if aim == Aim::Reading {
        return Ok(());
    }
    match heeded(watch, calls.try_to_write(path)) {
        Some(()) => Ok(()),
        None => Err(DeviceFault),
    }
}

/// What is at a path. A regular file that may not be written is a fault where it is to be.
#[tactic(auto, using(crate::proofs::Leading::no_file))]
fn what_is_at<C: Calls, N: Watch>(
    calls: &C,
    watch: &N,
    path: &str,
    aim: Aim,
) -> Result<There, DeviceFault>
    ensures absent { IfOk result (λ there. there.kind ≡ Kind.Absent → Names (C.log calls.now) (C.real calls.now path.now) None) }
    ensures regular { IfOk result (λ there. there.kind ≡ Kind.Regular → NamesSome (C.log calls.now) (C.real calls.now path.now)) }
    ensures other { IfOk result (λ there. there.kind ≡ Kind.Other → C.in_place calls.now path.now) }
    ensures file { IfOk result (λ there. there.kind ≢ Kind.Other → C.tells → there.identity ≡ identity_by (C.log calls.now) (C.identity calls.now) (C.real calls.now path.now)) }
    ensures no_file { IfOk result (λ there. there.kind ≡ Kind.Other → there.identity ≡ None) }
    ensures shut { OnErr result (C.shut calls.now path.now) }
{
    match calls.about(path) {
        Ok(about) if about.is_file => match serves(calls, watch, path, aim) {
            Ok(()) => Ok(There {
                kind: Kind::Regular,
                identity: Some(Identity {
                    device: about.device,
                    inode: about.inode,
                }),
            }),
            Err(fault) => Err(fault),
        },
        Ok(_) => Ok(There {
            kind: Kind::Other,
            identity: None,
        }),
        Err(error) if error.kind() == ErrorKind::NotFound => Ok(There {
            kind: Kind::Absent,
            identity: None,
        }),
        Err(error) => {
            watch.failed(error);
            Err(DeviceFault)
        }
    }
}

/// The path that a path leads to, where something is there.
fn real_path<C: Calls, N: Watch>(
    calls: &C,
    watch: &N,
    alloc: Global,
    path: &str,
) -> Result<Result<String, DeviceFault>, AllocError>
    ensures { IfOk result (λ found. IfOk found (λ real_path. C.tells → string_bytes real_path ≡ C.real calls.now path.now)) }
{
    match calls.real_path(alloc, path) {
        Ok(real_path) => Ok(Ok(real_path)),
        Err(error) if error.kind() == ErrorKind::OutOfMemory => Err(AllocError),
        Err(error) => {
            watch.failed(error);
            Ok(Err(DeviceFault))
        }
    }
}

/// The path that a path leads to which is no link, where nothing is there: the name in the folder that its own folder leads to. It is a fault where
/// the path ends with no name.
fn absent_path<C: Calls, N: Watch>(
    calls: &C,
    watch: &N,
    alloc: Global,
    path: &str,
) -> Result<Result<String, DeviceFault>, AllocError>
    ensures { IfOk result (λ found. IfOk found (λ real_path. C.tells → C.link_at calls.now path.now ≡ None → string_bytes real_path ≡ C.real calls.now path.now)) }
{
    let (folder, name) = split(path);
    match real_path(calls, watch, alloc, folder)? {
        Ok(real) if is_part(name) => Ok(Ok(name_in(alloc, real.as_str(), name)?)),
        Ok(_) => Ok(Err(DeviceFault)),
        Err(fault) => Ok(Err(fault)),
    }
}

/// Where a path leads that is no link.
fn settled<C: Calls, N: Watch>(
    calls: &C,
    watch: &N,
    alloc: Global,
    path: &str,
    aim: Aim,
) -> Result<Result<Target, DeviceFault>, AllocError>
    ensures { IfOk result (λ found. IfOk found (λ target. C.tells → C.link_at calls.now path.now ≡ None → LeadsTo (C.log calls.now) (C.real calls.now) (C.identity calls.now) (C.in_place calls.now) path.now target)) }
{
    let there = match what_is_at(calls, watch, path, aim) {
        Ok(there) => there,
        Err(fault) => return Ok(Err(fault)),
    };
    let found = match there.kind {
        Kind::Absent => absent_path(calls, watch, alloc, path)?,
        Kind::Regular | Kind::Other => real_path(calls, watch, alloc, path)?,
    };
    match found {
        Ok(path) => Ok(Ok(Target {
            path,
            kind: there.kind,
            identity: there.identity,
        })),
        Err(fault) => Ok(Err(fault)),
    }
}

/// The path that a link leads on to; `None` where the path is no link.
fn next<C: Calls, N: Watch>(
    calls: &C,
    watch: &N,
    alloc: Global,
    path: &str,
) -> Result<Result<Option<String>, DeviceFault>, AllocError>
    ensures leads { IfOk result (λ known. IfOk known (λ found. IfSome found (λ next. C.tells → C.real calls.now (string_bytes next) ≡ C.real calls.now path.now))) }
    ensures none { IfOk result (λ known. IfOk known (λ found. IsNone found → C.link_at calls.now path.now ≡ None)) }
{
    match link_at(calls, alloc, path) {
        Ok(Some(link)) => Ok(Ok(Some(name_in(alloc, split(path).0, link.as_str())?))),
        Ok(None) => Ok(Ok(None)),
        Err(error) if error.kind() == ErrorKind::OutOfMemory => Err(AllocError),
        Err(error) => {
            watch.failed(error);
            Ok(Err(DeviceFault))
        }
    }
}

/// Where a path leads, every link followed, and what is there. A path that leads through a device is one.
///
/// # Errors
///
/// `AllocError` where memory ran out. `DeviceFault` inside where it leads into nothing, or along too many links, or, where it is followed for writing, to a
/// file that may not be written.
pub(crate) fn resolve<C: Calls, N: Watch>(
    calls: &C,
    watch: &N,
    alloc: Global,
    path: &str,
    aim: Aim,
) -> Result<Result<Target, DeviceFault>, AllocError>
    ensures { IfOk result (λ found. IfOk found (λ target. C.tells → LeadsTo (C.log calls.now) (C.real calls.now) (C.identity calls.now) (C.in_place calls.now) path.now target)) }
{
    let mut at = String::from_str(alloc, path)?;
    for _ in 0..LINKS {
        if is_device(at.as_str()) {
            return Ok(Ok(Target {
                path: at,
                kind: Kind::Other,
                identity: None,
            }));
        }
        match next(calls, watch, alloc, at.as_str())? {
            Ok(Some(next)) => at = next,
            Ok(None) => return settled(calls, watch, alloc, at.as_str(), aim),
            Err(fault) => return Ok(Err(fault)),
        }
    }
    Ok(Err(DeviceFault))
}
