//! How far into a list the first steps of a pattern reach: a truth for each place between two things, before the first and behind the last.

ghost use Rattle.std.specs.Prelude.{◌≡◌, ◌∷◌, ◌+◌, IfOk, false, true, length};
ghost use Rattle.std.specs.List.{list_any};
ghost use Rattle.udfs_words.specs.GlobRows.{both, last_from, spread_from, unreached};

use std::alloc::{AllocError, Global};

/// Before any step only the first place is reached.
pub(crate) fn first_row(alloc: Global, count: usize) -> Result<Vec<bool>, AllocError>
    ensures { IfOk result (λ row. row.items ≡ true ∷ unreached count) }
{
    let mut row = Vec::new(alloc);
    row.push(true)?;
    for _place in 0..count {
        row.push(false)?;
    }
    Ok(row)
}

/// The places that are reached by one more thing, where these are reached and these things are hit.
pub(crate) fn passed(alloc: Global, row: &[bool], hits: &[bool]) -> Result<Vec<bool>, AllocError>
    ensures { IfOk result (λ next. next.items ≡ false ∷ both row.now hits.now) }
{
    let mut next = Vec::new(alloc);
    next.push(false)?;
    let mut rest = row;
    let mut left = hits;
    while let Some((reached, others)) = rest.split_first() {
        let Some((hit, more)) = left.split_first() else {
            return Ok(next);
        };
        next.push(*reached && *hit)?;
        rest = others;
        left = more;
    }
    Ok(next)
}

/// The places that are reached by any number of things, where these are.
pub(crate) fn spread(alloc: Global, row: &[bool]) -> Result<Vec<bool>, AllocError>
    ensures { IfOk result (λ next. next.items ≡ spread_from false row.now) }
{
    let mut next = Vec::new(alloc);
    let mut reached = false;
    let mut rest = row;
    while let Some((here, others)) = rest.split_first() {
        reached = reached || *here;
        next.push(reached)?;
        rest = others;
    }
    Ok(next)
}

/// Whether a place is reached.
pub(crate) fn is_somewhere(row: &[bool]) -> bool
    ensures { result ≡ list_any (λ b. b) row.now }
{
    for reached in row {
        if *reached {
            return true;
        }
    }
    false
}

/// Whether the last place is reached.
pub(crate) fn is_at_end(row: &[bool]) -> bool
    ensures { result ≡ last_from false row.now }
{
    let mut reached = false;
    let mut rest = row;
    while let Some((here, others)) = rest.split_first() {
        reached = *here;
        rest = others;
    }
    reached
}
