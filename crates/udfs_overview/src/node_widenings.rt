//! Entries that the strict rules refuse, and whose bodies the wide rules read.

ghost use Rattle.std.specs.Prelude.{◌≡◌, ◌≤◌, ◌++◌, IfOk, IsErrOf, OnOk, count_by, length};
ghost use Rattle.std.specs.String.{string_bytes};
ghost use Rattle.udfs_space.specs.Views.{view_by};
ghost use Rattle.udfs_volume.specs.declared.profiles.Profile.TheVariants as profile;
ghost use Rattle.udfs_salvage.specs.Found.{volume_by};
ghost use Rattle.udfs_salvage.specs.Surveys.{survey_by};
ghost use Rattle.udfs_overview.specs.NodeWidenings.{is_wider, many_wider_line, some_wider_line, wider_count, wider_in, wider_line};

use crate::disagreements::has_room;
use crate::sentences::push_counted;
use crate::tallies::is_faulty;
use std::alloc::Global;
use udfs_lattice::{BlockStore, GaveUp};
use udfs_osta::OutOfMemory;
use udfs_salvage::{Survey, open_by};
use udfs_space::StoreView;
use udfs_volume::{Profile, Seen};
use udfs_walk::{Node, tail_by};

/// Whether a node has a fault, and its body is read in this view by the tail of its last extent.
fn is_wider<B: BlockStore>(
    alloc: Global,
    view: StoreView<'_, B>,
    node: &Node,
) -> Result<bool, GaveUp>
    ensures value { IfOk result (λ wider. B.tells → wider ≡ is_wider (view_by B.states view.entry) node.now) }
    ensures fails { IsErrOf result GaveUp.Unread → B.fails }
{
    if !is_faulty(&node.standing) {
        return Ok(false);
    }
    let tail = tail_by(alloc, view, node.icb)?;
    Ok(tail)
}

/// How many nodes these are.
fn count_in<B: BlockStore>(
    alloc: Global,
    view: StoreView<'_, B>,
    nodes: &[Node],
) -> Result<usize, GaveUp>
    ensures value { IfOk result (λ count. B.tells → count ≡ count_by (is_wider (view_by B.states view.entry)) nodes.now) }
    ensures fails { IsErrOf result GaveUp.Unread → B.fails }
{
    let mut count = 0;
    for node in nodes {
        if is_wider(alloc, view, node)? {
            count += 1;
        }
    }
    Ok(count)
}

/// How many they are in the volume of a store by the wide rules.
fn count_by_wide<B: BlockStore>(
    alloc: Global,
    blocks: &B,
    last: u32,
    nodes: &[Node],
) -> Result<usize, GaveUp>
    requires from { 513 ≤ last }
    requires to { last ≤ 4194303 }
    ensures value { IfOk result (λ count. B.tells → count ≡ wider_in (B.states blocks.now) (volume_by profile.Wide (B.states blocks.now) last) nodes.now) }
    ensures fails { IsErrOf result GaveUp.Unread → B.fails }
{
    match open_by(alloc, blocks, last, Profile::Wide)? {
        Seen::Got(opened) => count_in(alloc, opened.view_by(blocks), nodes),
        Seen::Holes(_) | Seen::Fault(_) => Ok(0),
        Seen::OutOfMemory => Err(GaveUp::OutOfMemory),
    }
}

/// Counts the nodes with a fault of the report that a survey represents whose bodies the wide rules read by the tail of the last extent: once for each of their
/// names. Where the wide rules were taken there are none.
///
/// # Errors
///
/// `OutOfMemory` if memory runs out, and `Unread` where the bytes of a known block could not be read.
#[tactic(auto, using(crate::proofs::Wider::wider_full), unfolding(crate::specs::NodeWidenings::wider_count))]
pub(crate) fn count_wider<B: BlockStore>(
    alloc: Global,
    survey: &Survey<'_, B>,
) -> Result<usize, GaveUp>
    ensures value { IfOk result (λ count. B.tells → count ≡ wider_count survey.now.profile (B.states survey.now.table.now) survey.now.last (survey_by B.states survey.now).nodes) }
    ensures fails { IsErrOf result GaveUp.Unread → B.fails }
{
    match survey.profile {
        Profile::Wide => Ok(0),
        Profile::Strict => {
            if !has_room(survey.last) {
                return Ok(0);
            }
            count_by_wide(alloc, survey.table, survey.last, &survey.nodes)
        }
    }
}

/// The line of several of these nodes.
fn push_many_wider(text: &mut String, count: usize) -> Result<(), OutOfMemory>
    ensures { OnOk result (string_bytes text.new ≡ string_bytes text.old ++ many_wider_line count) }
{
    text.push_str("Wide       ")?;
    push_counted(
        text,
        count as u64,
        " with faults are read by the wide rules: add --profile wide\n",
    )
}

/// The line of one of them, or of several.
fn push_some_wider(text: &mut String, count: usize) -> Result<(), OutOfMemory>
    ensures { OnOk result (string_bytes text.new ≡ string_bytes text.old ++ some_wider_line count) }
{
    if count == 1 {
        return text.push_str(
            "Wide       1 with a fault is read by the wide rules: add --profile wide\n",
        );
    }
    push_many_wider(text, count)
}

/// Appends the line that gives the number of these nodes, if there are any: `Wide       4 with faults are read by the wide rules: add --profile wide`.
///
/// # Errors
///
/// If memory runs out. Then a part may be appended.
pub fn push_wider(text: &mut String, count: usize) -> Result<(), OutOfMemory>
    ensures { OnOk result (string_bytes text.new ≡ string_bytes text.old ++ wider_line count) }
{
    if count == 0 {
        return Ok(());
    }
    push_some_wider(text, count)
}
