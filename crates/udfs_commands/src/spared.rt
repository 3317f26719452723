//! Why what is there is not written over, for a person.

use std::alloc::{AllocError, Global};
use udfs_common::files::Files;
use udfs_common::guard::is_among;
use udfs_common::shown::Shown;
use udfs_host_fs::{Aim, Kind};
use udfs_words::request::{ImageRequest, Inputs, Request};

/// Whether one of these paths leads where this one does.
fn leads_there<F: Files>(
    alloc: Global,
    paths: &[&str],
    out: &str,
    files: &F,
) -> Result<bool, AllocError> {
    let Ok(target) = files.resolve(alloc, out, Aim::Reading)? else {
        return Ok(false);
    };
    match is_among(alloc, paths, &target, files)? {
        Ok(leads) => Ok(leads),
        Err(_) => Ok(false),
    }
}

/// Whether a path is that of an input, or of an image or a mapfile of one.
fn is_input<F: Files>(
    alloc: Global,
    inputs: &Inputs<'_>,
    out: &str,
    files: &F,
) -> Result<bool, AllocError> {
    if leads_there(alloc, inputs.files.as_slice(), out, files)? {
        return Ok(true);
    }
    leads_there(alloc, inputs.parts.as_slice(), out, files)
}

/// Whether nothing is at a path.
fn is_absent<F: Files>(alloc: Global, path: &str, files: &F) -> Result<bool, AllocError> {
    match files.resolve(alloc, path, Aim::Reading)? {
        Ok(target) => Ok(target.kind == Kind::Absent),
        Err(_) => Ok(false),
    }
}

/// What is said of a table file that is to go in the place of what is there.
fn of_table<F: Files>(
    alloc: Global,
    inputs: &Inputs<'_>,
    out: &str,
    files: &F,
) -> Result<String, AllocError> {
    if is_input(alloc, inputs, out, files)? {
        return of_input(alloc, out);
    }
    format!(in alloc;
        "{} is neither a table file nor an input: use another name, or add --force",
        Shown(out)
    )
}

/// What is said of a page that is to go in the place of what is there.
fn of_page<F: Files>(
    alloc: Global,
    inputs: &Inputs<'_>,
    out: &str,
    files: &F,
) -> Result<String, AllocError> {
    if is_input(alloc, inputs, out, files)? {
        return of_input(alloc, out);
    }
    format!(in alloc;
        "{} is not a page that udfsalvage wrote: use another name",
        Shown(out)
    )
}

/// What is said of a map of blocks to read again that is to go in the place of what is there.
fn of_map<F: Files>(
    alloc: Global,
    inputs: &Inputs<'_>,
    out: &str,
    files: &F,
) -> Result<String, AllocError> {
    if is_input(alloc, inputs, out, files)? {
        return of_input(alloc, out);
    }
    format!(in alloc;
        "{} is not a mapfile that reread of this udfsalvage wrote: use another name",
        Shown(out)
    )
}

/// What is said of an input that is to be written over.
fn of_input(alloc: Global, out: &str) -> Result<String, AllocError> {
    format!(in alloc;
        "{} is an input, which is never overwritten: use another name",
        Shown(out)
    )
}

/// What is said of one output of `image`, where it is the reason why nothing is written; `None` where it is not.
fn of_part<F: Files>(
    alloc: Global,
    request: &ImageRequest<'_>,
    out: &str,
    files: &F,
) -> Result<Option<String>, AllocError> {
    if is_input(alloc, &request.inputs, out, files)? {
        return Ok(Some(of_input(alloc, out)?));
    }
    if is_absent(alloc, out, files)? || request.force {
        return Ok(None);
    }
    Ok(Some(format!(in alloc;
        "{} already exists: use another name, or add --force",
        Shown(out)
    )?))
}

/// What is said of the outputs of `image`.
fn of_pair<F: Files>(
    alloc: Global,
    request: &ImageRequest<'_>,
    files: &F,
) -> Result<String, AllocError> {
    if let Some(line) = of_part(alloc, request, request.image, files)? {
        return Ok(line);
    }
    if let Some(line) = of_part(alloc, request, request.mapfile, files)? {
        return Ok(line);
    }
    format!(in alloc;
        "{} and {} must be two different files, neither in the way of the other, and not folders or devices",
        Shown(request.image),
        Shown(request.mapfile)
    )
}

/// What is said of a manifest.
fn of_manifest<F: Files>(
    alloc: Global,
    inputs: &Inputs<'_>,
    out: &str,
    files: &F,
) -> Result<String, AllocError> {
    if is_input(alloc, inputs, out, files)? {
        return of_input(alloc, out);
    }
    if is_absent(alloc, out, files)? {
        return format!(in alloc;
            "{} is in the way of the new folder: use another name",
            Shown(out)
        );
    }
    format!(in alloc; "{} is not a manifest: use another name", Shown(out))
}

/// Why what is there is not written over, for a person; `None` where no output was asked for.
pub fn why_spared<F: Files>(
    alloc: Global,
    request: &Request<'_>,
    files: &F,
) -> Result<Option<String>, AllocError> {
    let line = match request {
        Request::Merge(merge) => of_table(alloc, &merge.inputs, merge.out, files)?,
        Request::Forget(forget) => of_table(alloc, &forget.inputs, forget.out, files)?,
        Request::Image(image) => of_pair(alloc, image, files)?,
        Request::Page(page) => of_page(alloc, &page.volume.inputs, page.out, files)?,
        Request::Reread(reread) => match reread.mapfile {
            Some(mapfile) => of_map(alloc, &reread.volume.inputs, mapfile, files)?,
            None => return Ok(None),
        },
        Request::Extract(extract) => match extract.manifest {
            Some(manifest) => of_manifest(alloc, &extract.volume.inputs, manifest, files)?,
            None => return Ok(None),
        },
        Request::Report(_) | Request::List(_) | Request::Summary(_) => return Ok(None),
    };
    Ok(Some(line))
}
