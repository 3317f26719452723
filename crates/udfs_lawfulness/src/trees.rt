//! What the nodes of a volume say of its tree.

ghost use Rattle.std.specs.Prelude.{◌≡◌, IfOk, IsErrOf, MatchOption, filter, true};
ghost use Rattle.udfs_space.specs.Views.{view_by};
ghost use Rattle.udfs_lawfulness.specs.Asking.{asks, is_data, is_torn};
ghost use Rattle.udfs_lawfulness.specs.Spelling.{AreFaultless, IsFaultyAt, IsFaultyFor, is_faulty};

use crate::answers::Why;
use crate::filled::is_mapped;
use std::alloc::Global;
use udfs_file::Kind;
use udfs_lattice::{BlockStore, GaveUp};
use udfs_space::StoreView;
use udfs_walk::{Node, Standing};

/// Whether a node is a loop or has a fault.
fn is_faulty(standing: &Standing) -> bool
    ensures { result ≡ is_faulty standing.now }
{
    matches!(standing, Standing::Loop | Standing::Fault(_))
}

/// The first node that is a loop or has a fault.
pub(crate) fn first_faulty(nodes: &[Node]) -> Option<usize>
    ensures { MatchOption result (AreFaultless nodes.now) (IsFaultyAt nodes.now) }
{
    for at in 0..nodes.len() {
        let node = &nodes[at];
        if is_faulty(&node.standing) {
            return Some(at);
        }
    }
    None
}

/// What is wrong with a node that is a loop or has a fault.
pub(crate) fn why_faulty(node: Node) -> Why
    requires { is_faulty node.standing ≡ true }
    ensures { IsFaultyFor node result }
{
    let Node { path, standing, .. } = node;
    match standing {
        Standing::Loop => Why::Loop(path),
        Standing::Fault(fault) => Why::Fault(path, fault),
        Standing::Whole => unreachable!(),
        Standing::Torn(_) => unreachable!(),
    }
}

/// Whether a node is read, and is no directory.
fn is_data(kind: Kind) -> bool
    ensures { result ≡ is_data kind }
{
    match kind {
        Kind::Directory => false,
        Kind::Unread => false,
        Kind::File => true,
        Kind::Link => true,
        Kind::Other(_) => true,
    }
}

/// Whether something of a node is missing.
fn is_torn(standing: &Standing) -> bool
    ensures { result ≡ is_torn standing.now }
{
    matches!(standing, Standing::Torn(_))
}

/// Whether a torn node could be unlawful: not if it is no directory, and all its allocation descriptors are known.
fn asks<B: BlockStore>(alloc: Global, view: StoreView<'_, B>, node: &Node) -> Result<bool, GaveUp>
    ensures value { IfOk result (λ asked. B.tells → asked ≡ asks (view_by B.states view.entry) node.now) }
    ensures fails { IsErrOf result GaveUp.Unread → B.fails }
{
    if !is_torn(&node.standing) {
        return Ok(false);
    }
    if !is_data(node.kind) {
        return Ok(true);
    }
    let mapped = is_mapped(alloc, view, node.icb)?;
    Ok(!mapped)
}

/// Those of these nodes.
pub(crate) fn asking<B: BlockStore>(
    alloc: Global,
    view: StoreView<'_, B>,
    nodes: Vec<Node>,
) -> Result<Vec<Node>, GaveUp>
    ensures value { IfOk result (λ kept. B.tells → kept.items ≡ filter (asks (view_by B.states view.entry)) nodes.items) }
    ensures fails { IsErrOf result GaveUp.Unread → B.fails }
{
    let mut kept = Vec::new(alloc);
    for node in nodes {
        if asks(alloc, view, &node)? {
            kept.push(node)?;
        }
    }
    Ok(kept)
}
