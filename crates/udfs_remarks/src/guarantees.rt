//! Whether the guarantee holds for a volume.

ghost use Rattle.std.specs.Prelude.{◌≤◌, IfOk, IsErrOf, OnErr};
ghost use Rattle.std.specs.String.{string_bytes};
ghost use Rattle.udfs_overview.specs.Guarantees.{IsGuarantee};

use std::alloc::Global;
use udfs_common::files::Files;
use udfs_lattice::{BlockStore, GaveUp, ReadFault};
use udfs_lawfulness::lawfulness_by;
use udfs_overview::push_guarantee;
use udfs_salvage::Survey;
use udfs_volume::Profile;

/// Whether the guarantee holds for a volume, as a sentence.
fn guarantee_text<B: BlockStore>(
    alloc: Global,
    blocks: &B,
    last: u32,
    profile: Profile,
) -> Result<String, GaveUp>
    requires from { 513 ≤ last }
    requires to { last ≤ 4194303 }
    ensures text { IfOk result (λ text. B.tells → IsGuarantee profile (B.states blocks.now) last (string_bytes text)) }
    ensures fails { IsErrOf result GaveUp.Unread → B.fails }
{
    let answer = lawfulness_by(alloc, blocks, last, profile)?;
    let mut text = String::new(alloc);
    match push_guarantee(&mut text, &answer) {
        Ok(()) => Ok(text),
        Err(_) => Err(GaveUp::OutOfMemory),
    }
}

/// Says in a remark whether the guarantee holds for the volume of a survey, by its rules. Where memory runs out nothing is said.
///
/// # Errors
///
/// Where the bytes of a known block could not be read: nothing is said then.
pub fn remark_on_guarantee_by<B: BlockStore, F: Files>(
    alloc: Global,
    survey: &Survey<'_, B>,
    files: &F,
) -> Result<(), ReadFault>
    ensures { OnErr result B.fails }
{
    if survey.last < 513 || survey.last > 4_194_303 {
        return Ok(());
    }
    match guarantee_text(alloc, survey.table, survey.last, survey.profile) {
        Ok(text) => files.remark(text.as_str()),
        Err(GaveUp::OutOfMemory) => {}
        Err(GaveUp::Unread) => return Err(ReadFault),
    }
    Ok(())
}
