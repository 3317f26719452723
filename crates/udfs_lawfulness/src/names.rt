//! Paths that two nodes have.

ghost use Rattle.std.specs.Prelude.{◌≡◌, ◌<◌, ◌-◌, ◌↔◌, [], IfOk, IsTrue, MatchOption, get_or, length};
ghost use Rattle.udfs_lawfulness.specs.Spelling.{AreFolders, ArePathsApart, IsTwice};

use crate::folders::{folders_of, have_one_path};
use std::alloc::{AllocError, Global};
use std::collections::BTreeSet;
use udfs_walk::{Node, Path};

/// The units of the last name of a path; none of the root's.
fn last_units(alloc: Global, path: &Path) -> Result<Vec<u16>, AllocError>
    ensures { IfOk result (λ units. units.items ≡ get_or path.now (length path.now - 1) []) }
{
    let mut units = Vec::new(alloc);
    if let Some(name) = path.last() {
        units.extend_from_slice(name.units())?;
    }
    Ok(units)
}

/// The same as [`first_twice`], where the folders of all nodes are known. As no two nodes so far have one path, two paths are the same where the place of
/// the folder is, and the last name.
fn twice_in_folders(
    alloc: Global,
    nodes: &[Node],
    folders: &[usize],
) -> Result<Option<usize>, AllocError>
    requires { AreFolders nodes.now folders.now }
    ensures { IfOk result (λ found. MatchOption found (ArePathsApart nodes.now) (IsTwice nodes.now)) }
{
    let mut met = BTreeSet::new(alloc);
    for at in 1..nodes.len() {
        let node = &nodes[at];
        let units = last_units(alloc, &node.path)?;
        if !met.insert((folders[at], units))? {
            return Ok(Some(at));
        }
    }
    Ok(None)
}

/// Whether a node before this one has its path.
fn is_twice(nodes: &[Node], at: usize) -> bool
    requires { at < length nodes.now }
    ensures { IsTrue result ↔ IsTwice nodes.now at }
{
    for first in 0..at {
        if have_one_path(&nodes[first], &nodes[at]) {
            return true;
        }
    }
    false
}

/// The same as [`first_twice`] for nodes in any order: each is compared with all before it.
fn twice_in_pairs(nodes: &[Node]) -> Option<usize>
    ensures { MatchOption result (ArePathsApart nodes.now) (IsTwice nodes.now) }
{
    for at in 0..nodes.len() {
        if is_twice(nodes, at) {
            return Some(at);
        }
    }
    None
}

/// The first node whose path an earlier one has. Of nodes in the order of a walk it holds the last names, and looks at each name of each path once.
pub(crate) fn first_twice(alloc: Global, nodes: &[Node]) -> Result<Option<usize>, AllocError>
    ensures { IfOk result (λ found. MatchOption found (ArePathsApart nodes.now) (IsTwice nodes.now)) }
{
    match folders_of(alloc, nodes)? {
        Some(folders) => twice_in_folders(alloc, nodes, &folders),
        None => Ok(twice_in_pairs(nodes)),
    }
}
