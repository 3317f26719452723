//! The folders of nodes.

ghost use Rattle.std.specs.Prelude.{◌≡◌, ◌<◌, ◌↔◌, IfOk, IsTrue, MatchOption, length, slice_get};
ghost use Rattle.udfs_lawfulness.specs.Spelling.{AreFolders, BeginsWith, IsFolder, IsInside};

use std::alloc::{AllocError, Global};
use udfs_walk::{Node, Path};

/// Whether two paths have the same name at this place, counted from 0 at the root, or both have none.
fn is_same_at(path: &Path, other: &Path, index: usize) -> bool
    ensures { IsTrue result ↔ (slice_get path.now index ≡ slice_get other.now index) }
{
    match (path.get(index), other.get(index)) {
        (Some(name), Some(same)) => name.units() == same.units(),
        (None, None) => true,
        _ => false,
    }
}

/// Whether the first names of a path are those of another one.
fn begins_with(path: &Path, front: &Path) -> bool
    ensures { IsTrue result ↔ BeginsWith path.now front.now }
{
    for index in 0..front.len() {
        if !is_same_at(path, front, index) {
            return false;
        }
    }
    true
}

/// Whether two nodes have one path.
#[tactic(auto, using(crate::proofs::Fronts::one_path, crate::proofs::Fronts::begins))]
pub(crate) fn have_one_path(node: &Node, other: &Node) -> bool
    ensures { IsTrue result ↔ (node.now.path ≡ other.now.path) }
{
    node.path.len() == other.path.len() && begins_with(&node.path, &other.path)
}

/// Whether the path of a node is that of a folder and one name more.
#[tactic(auto, using(crate::proofs::Fronts::inside, crate::proofs::Fronts::long_inside, crate::proofs::Fronts::begins_inside))]
fn is_in(node: &Node, folder: &Node) -> bool
    ensures { IsTrue result ↔ IsInside node.now.path folder.now.path }
{
    let depth = node.path.len();
    if depth == 0 {
        return false;
    }
    depth - 1 == folder.path.len() && begins_with(&node.path, &folder.path)
}

/// The place of a node's folder in the list, if it is where it is looked for: `way` has for each number of names the last node so far that has so many.
fn folder_of(nodes: &[Node], way: &[usize], at: usize) -> Option<usize>
    requires { at < length nodes.now }
    ensures { MatchOption result (Unit {0}) (IsFolder nodes.now at) }
{
    let node = &nodes[at];
    let depth = node.path.len();
    if depth == 0 {
        return None;
    }
    match way.get(depth - 1) {
        Some(folder) if *folder < at && is_in(node, &nodes[*folder]) => Some(*folder),
        _ => None,
    }
}

/// The places of all nodes' folders in the list; for the root, which comes first, 0. A walk lists each folder before all that is in it, and this
/// without a gap: in another order it may be `None`.
pub(crate) fn folders_of(alloc: Global, nodes: &[Node]) -> Result<Option<Vec<usize>>, AllocError>
    ensures { IfOk result (λ found. MatchOption found (Unit {0}) (λ folders. AreFolders nodes.now folders.items)) }
{
    let mut folders = Vec::with_capacity(alloc, nodes.len())?;
    let mut way = Vec::new(alloc);
    for at in 0..nodes.len() {
        let node = &nodes[at];
        if at == 0 {
            if !node.path.is_empty() {
                return Ok(None);
            }
            folders.push(0)?;
        } else {
            let Some(folder) = folder_of(nodes, &way, at) else {
                return Ok(None);
            };
            folders.push(folder)?;
        }
        way.truncate(node.path.len());
        way.push(at)?;
    }
    Ok(Some(folders))
}
