//! Paths: their names in order, those of the directory first.

use super::told::nodes_of;
use crate::tests::assert_same;
use std::test::Fail;
use udfs_samples::Disc;
use udfs_walk::answers::Node;

/// How many names the path of a node has, and the units of its first and last.
fn ends(node: &Node) -> (usize, &[u16], &[u16]) {
    let first = match node.path.get(0) {
        Some(name) => name.units(),
        None => &[],
    };
    let last = match node.path.last() {
        Some(name) => name.units(),
        None => &[],
    };
    (node.path.len(), first, last)
}

#[test]
fn paths_of_a_volume(rt: HostRuntime) -> Result<(), Fail> {
    let alloc = rt.alloc();
    let table = Disc::type1(alloc)?.known_but(alloc, &[])?;
    let nodes = match nodes_of(alloc, &table)? {
        Some(Ok(nodes)) => nodes,
        _ => Vec::new(alloc),
    };
    assert_eq!(rt; nodes.len(), 3);
    let (root, a, b) = (&nodes[0], &nodes[1], &nodes[2]);
    assert!(rt; root.path.is_empty() && !a.path.is_empty());
    assert!(rt; a.path.get(1).is_none());
    assert_same(&rt, ends(root), (0, [].as_slice(), [].as_slice()));
    assert_same(&rt, ends(a), (1, [65].as_slice(), [65].as_slice()));
    assert_same(&rt, ends(b), (1, [66].as_slice(), [66].as_slice()));
    Ok(())
}
