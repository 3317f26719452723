//! What the output of `merge` or `forget` may take the place of.

ghost use Rattle.std.specs.Prelude.{IfErr, OnOk};
ghost use Rattle.udfs_tables.specs.Outputs.{IsOutFree, OutRefused};

use crate::joining::unwritten_of;
use std::alloc::{AllocError, Global};
use udfs_common::files::Files;
use udfs_common::guard::{Outlook, look_at};
use udfs_common::known::Known;
use udfs_common::refusal::Refusal;
use udfs_words::request::Inputs;

/// Checks that an output takes the place of no image and no mapfile of the inputs, and without `force` of no file but an input, a table file or an empty one.
///
/// # Errors
///
/// `Spared` where it does. Where what is there could not be looked at, why the inputs are not joined, or else `Output`. `Memory` if memory ran out.
pub fn check_out<F: Files>(
    alloc: Global,
    inputs: &Inputs<'_>,
    force: bool,
    out: &str,
    files: &F,
) -> Result<(), Refusal>
    ensures free { OnOk result (IsOutFree ⟦<F as Known>⟧.reach files.now inputs.now force out.now) }
    ensures why { IfErr result (OutRefused ⟦<F as Known>⟧.reach files.now inputs.now force out.now) }
{
    let given = inputs.files.as_slice();
    let parts = inputs.parts.as_slice();
    match look_at(alloc, given, parts, force, out, files) {
        Ok(Outlook::Free) => Ok(()),
        Ok(Outlook::Spared) => Err(Refusal::Spared),
        Ok(Outlook::Unknown) => Err(unwritten_of(alloc, inputs, force, files)),
        Err(AllocError) => Err(Refusal::Memory(AllocError)),
    }
}
