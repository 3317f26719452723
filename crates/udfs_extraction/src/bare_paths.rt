//! The paths of folders that are to be made, as they are looked up: a folder that is not there yet has no path that ends with a `/`.

ghost use Rattle.std.specs.Prelude.{◌≡◌};
ghost use Rattle.udfs_extraction.specs.BarePaths.{bare, trimmed};

/// A path without any `/` at its end.
fn trimmed(path: &str) -> &str
    ensures { result.now ≡ trimmed path.now }
{
    match path.strip_suffix('/') {
        None => path,
        Some(shorter) => trimmed(shorter),
    }
}

/// A path without any `/` at its end; one that has nothing else stays.
pub fn bare(path: &str) -> &str
    ensures { result.now ≡ bare path.now }
{
    let shorter = trimmed(path);
    if shorter.is_empty() { path } else { shorter }
}
