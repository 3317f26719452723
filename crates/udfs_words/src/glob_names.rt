//! The names of a path.

ghost use Rattle.std.specs.Prelude.{◌≡◌, IfOk, map};
ghost use Rattle.std.specs.Str.{chars};
ghost use Rattle.udfs_words.specs.Globs.{names_in};

use std::alloc::{AllocError, Global};

/// The names between the slashes of a text.
fn split_names(alloc: Global, text: &[char]) -> Result<Vec<Vec<char>>, AllocError>
    ensures { IfOk result (λ names. map (λ name. name.items) names.items ≡ names_in text.now) }
{
    let mut names = Vec::new(alloc);
    let mut name = Vec::new(alloc);
    let mut rest = text;
    while let Some((first, others)) = rest.split_first() {
        if *first == '/' {
            names.push(name)?;
            name = Vec::new(alloc);
        } else {
            name.push(*first)?;
        }
        rest = others;
    }
    names.push(name)?;
    Ok(names)
}

/// The characters of a text.
fn characters(alloc: Global, text: &str) -> Result<Vec<char>, AllocError>
    ensures { IfOk result (λ all. all.items ≡ chars text.now) }
{
    text.chars().collect(alloc)
}

/// The names of a path, each as its characters, with what stands before the first slash.
pub(crate) fn names_of(alloc: Global, path: &str) -> Result<Vec<Vec<char>>, AllocError>
    ensures { IfOk result (λ names. map (λ name. name.items) names.items ≡ names_in (chars path.now)) }
{
    let all = characters(alloc, path)?;
    split_names(alloc, &all)
}
