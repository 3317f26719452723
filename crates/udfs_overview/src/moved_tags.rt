//! Folders in which tags name another place than the block in which they are.

ghost use Rattle.std.specs.Prelude.{◌≡◌, ◌≤◌, ◌++◌, IfOk, IsErrOf, OnOk, count_by, length};
ghost use Rattle.std.specs.String.{string_bytes};
ghost use Rattle.udfs_space.specs.Views.{view_by};
ghost use Rattle.udfs_walk.specs.Targets.{target};
ghost use Rattle.udfs_salvage.specs.Surveys.{survey_by};
ghost use Rattle.udfs_overview.specs.MovedTags.{is_folder, is_moved, many_moved_line, moved_count, moved_line, some_moved_line, target_moved};

use crate::sentences::push_counted;
use std::alloc::Global;
use udfs_file::{Dir, Kind};
use udfs_lattice::{BlockStore, GaveUp};
use udfs_osta::OutOfMemory;
use udfs_salvage::{Survey, Volume};
use udfs_space::StoreView;
use udfs_tag::LongAd;
use udfs_volume::Profile;
use udfs_walk::{Node, Standing, body_by};

/// Whether something of this standing and kind is a folder that is not inside itself.
fn is_folder(standing: &Standing, kind: Kind) -> bool
    ensures { result ≡ is_folder standing.now kind }
{
    match standing {
        Standing::Loop => false,
        _ => matches!(kind, Kind::Directory),
    }
}

/// Whether some tag in the body of what an address leads to names another place.
#[tactic(auto, using(crate::proofs::Moving::body_found, crate::proofs::Moving::none_found))]
fn target_moved<B: BlockStore>(
    alloc: Global,
    view: StoreView<'_, B>,
    address: LongAd,
) -> Result<bool, GaveUp>
    ensures value { IfOk result (λ moved. B.tells → moved ≡ target_moved (view_by B.states view.entry) address (target (view_by B.states view.entry) address)) }
    ensures fails { IsErrOf result GaveUp.Unread → B.fails }
{
    match body_by(alloc, view, address)? {
        Some(body) => {
            let moved = Dir::has_moved_tags_by(view, &body)?;
            Ok(moved)
        }
        None => Ok(false),
    }
}

/// Whether a node is a folder that the rules of the view read though a tag in it names another place.
fn is_moved<B: BlockStore>(
    alloc: Global,
    view: StoreView<'_, B>,
    node: &Node,
) -> Result<bool, GaveUp>
    ensures value { IfOk result (λ moved. B.tells → moved ≡ is_moved (view_by B.states view.entry) node.now) }
    ensures fails { IsErrOf result GaveUp.Unread → B.fails }
{
    match view.space.profile() {
        Profile::Strict => Ok(false),
        Profile::Wide => {
            if !is_folder(&node.standing, node.kind) {
                return Ok(false);
            }
            let moved = target_moved(alloc, view, node.icb)?;
            Ok(moved)
        }
    }
}

/// How many nodes are such folders.
fn count_folders<B: BlockStore>(
    alloc: Global,
    view: StoreView<'_, B>,
    nodes: &[Node],
) -> Result<usize, GaveUp>
    ensures value { IfOk result (λ count. B.tells → count ≡ count_by (is_moved (view_by B.states view.entry)) nodes.now) }
    ensures fails { IsErrOf result GaveUp.Unread → B.fails }
{
    let mut count = 0;
    for node in nodes {
        if is_moved(alloc, view, node)? {
            count += 1;
        }
    }
    Ok(count)
}

/// Counts the folders of the report that a survey represents in which some tag names another place than the block in which it is, and
/// that are read all the same, as by the wide rules: once for each of their names. By the strict rules there are none.
///
/// # Errors
///
/// `OutOfMemory` if memory runs out, and `Unread` where the bytes of a known block could not be read.
#[tactic(auto, using(crate::proofs::Moving::moved_full), unfolding(crate::specs::MovedTags::moved_count))]
pub(crate) fn count_moved<B: BlockStore>(
    alloc: Global,
    survey: &Survey<'_, B>,
) -> Result<usize, GaveUp>
    ensures value { IfOk result (λ count. B.tells → count ≡ moved_count (B.states survey.now.table.now) (survey_by B.states survey.now)) }
    ensures fails { IsErrOf result GaveUp.Unread → B.fails }
{
    match &survey.volume {
        Volume::Open(opened) => {
            let view = opened.view_by(survey.table);
            let count = count_folders(alloc, view, &survey.nodes)?;
            Ok(count)
        }
        _ => Ok(0),
    }
}

/// The line of several such folders.
fn push_many_moved(text: &mut String, folders: usize) -> Result<(), OutOfMemory>
    ensures { OnOk result (string_bytes text.new ≡ string_bytes text.old ++ many_moved_line folders) }
{
    text.push_str("Tags       ")?;
    push_counted(
        text,
        folders as u64,
        " folders have tags that name another place\n",
    )
}

/// The line of one such folder, or of several.
fn push_some_moved(text: &mut String, folders: usize) -> Result<(), OutOfMemory>
    ensures { OnOk result (string_bytes text.new ≡ string_bytes text.old ++ some_moved_line folders) }
{
    if folders == 1 {
        return text.push_str("Tags       1 folder has tags that name another place\n");
    }
    push_many_moved(text, folders)
}

/// Appends the line of these folders, if there are any.
///
/// # Errors
///
/// If memory runs out. Then a part may be appended.
pub fn push_moved(text: &mut String, folders: usize) -> Result<(), OutOfMemory>
    ensures { OnOk result (string_bytes text.new ≡ string_bytes text.old ++ moved_line folders) }
{
    if folders == 0 {
        return Ok(());
    }
    push_some_moved(text, folders)
}
