//! New files that killed runs left beside the file that they were to replace.

use crate::hints::asked_output;
use crate::longer_images::is_file;
use std::alloc::{AllocError, Global};
use udfs_common::files::Files;
use udfs_common::shown::Shown;
use udfs_host_fs::{Aim, Kind};
use udfs_words::request::Request;

/// How many names are looked at.
const MOST: usize = 16;

/// Whether a path leads to this one, which has no links.
fn leads_to<F: Files>(
    alloc: Global,
    path: &str,
    real: &str,
    files: &F,
) -> Result<bool, AllocError> {
    match files.resolve(alloc, path, Aim::Reading)? {
        Ok(target) => Ok(target.path.as_str() == real),
        Err(_) => Ok(false),
    }
}

/// Makes a remark on each new file beside the output, which was given as `out` and has the path `real`.
fn remark_beside<F: Files>(
    alloc: Global,
    out: &str,
    real: &str,
    files: &F,
) -> Result<(), AllocError> {
    let mut end = format!(in alloc; ".unfinished")?;
    for _ in 0..MOST {
        let left = format!(in alloc; "{real}{end}")?;
        if is_file(alloc, left.as_str(), files)? {
            let given = format!(in alloc; "{out}{end}")?;
            let is_given = leads_to(alloc, given.as_str(), left.as_str(), files)?;
            let name = if is_given { given } else { left };
            let text = format!(in alloc;
                "{} was left by a run that was killed: remove it, unless that run goes on",
                Shown(name.as_str())
            )?;
            files.remark(text.as_str());
        }
        end.push('~')?;
    }
    Ok(())
}

/// Makes a remark on each new file that a run left beside the output of a command that is done.
pub fn remark_on_left<F: Files>(alloc: Global, request: &Request<'_>, files: &F) {
    let Some(out) = asked_output(request) else {
        return;
    };
    if let Ok(Ok(target)) = files.resolve(alloc, out, Aim::Reading)
        && target.kind == Kind::Regular
    {
        let _ = remark_beside(alloc, out, target.path.as_str(), files);
    }
}
