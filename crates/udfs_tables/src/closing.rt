//! The remarks of `merge` when it is done.

use crate::beside::Totals;
use crate::said::Disagreement;
use std::alloc::{AllocError, Global};
use udfs_common::files::Files;
use udfs_overview::push_grouped;

/// Appends a number with its thousands separated, and then a text.
fn push_counted(line: &mut String, number: u32, words: &str) -> Result<(), AllocError> {
    if push_grouped(number as u128, line).is_err() {
        return Err(AllocError);
    }
    line.push_str(words)
}

/// The remark on the join of `inputs` inputs.
fn of_totals(alloc: Global, inputs: usize, totals: Totals) -> Result<String, AllocError> {
    let mut line = match inputs {
        1 => String::from_str(alloc, "1 input: ")?,
        _ => format!(in alloc; "{inputs} inputs: ")?,
    };
    push_counted(&mut line, totals.known, " known (")?;
    push_counted(&mut line, totals.new_known, " new), ")?;
    push_counted(&mut line, totals.conflicts, " in conflict (")?;
    push_counted(&mut line, totals.new_conflicts, " new)")?;
    Ok(line)
}

/// Whether more than one in a hundred of the blocks that are known in an input and before it disagree.
fn is_doubtful(found: Disagreement) -> bool {
    u64::from(found.blocks) * 100 > u64::from(found.of)
}

/// What is said of an input, counted from 1, that may be of another disc.
fn of_doubt(alloc: Global, input: usize, found: Disagreement) -> Result<String, AllocError> {
    let mut line = format!(in alloc; "input {input} disagrees in ")?;
    push_counted(&mut line, found.blocks, " of ")?;
    push_counted(&mut line, found.of, " blocks: is it the same disc?")?;
    Ok(line)
}

/// Makes the remarks on the join of `inputs` inputs: what was joined, and which of them may be of another disc. Where an input after the first brought
/// anything new, they are made also where no person watches.
pub fn remark_on_merge<F: Files>(
    alloc: Global,
    inputs: usize,
    totals: Totals,
    disagreements: &[Disagreement],
    files: &F,
) {
    if totals.new_known > 0 || totals.new_conflicts > 0 {
        files.speak();
    }
    if let Ok(text) = of_totals(alloc, inputs, totals) {
        files.remark(text.as_str());
    }
    for (before, found) in disagreements.iter().enumerate() {
        if is_doubtful(*found)
            && let Ok(text) = of_doubt(alloc, before.saturating_add(2), *found)
        {
            files.remark(text.as_str());
        }
    }
}
