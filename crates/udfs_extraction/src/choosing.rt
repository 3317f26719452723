//! Whether paths that ask for nodes are those of nodes.

ghost use Rattle.std.specs.Prelude.{◌≡◌, ◌<◌, ◌-◌, ◌⊎◌, ℕ, List, Some, IfErr, IsErrOf, OnOk, alloc_error, false, true, map, slice_get};
ghost use Rattle.std.specs.List.{list_all};
ghost use Rattle.udfs_salvage.specs.Choosing.{is_node};
ghost use Rattle.udfs_extraction.specs.Refused.{NamesNoNode};

use std::alloc::{AllocError, Global};
use udfs_common::refusal::Refusal;
use udfs_salvage::choosing::is_node;
use udfs_walk::Node;

/// Checks that each of these arguments is the path of a node. Fails with `NoNode` and the number of the first that is not, counted from 1; or with
/// `Memory` where memory runs out.
pub fn all_are_nodes(alloc: Global, only: &[&str], nodes: &[Node]) -> Result<(), Refusal>
    ensures all { OnOk result (list_all (is_node nodes.now) (map (λ word. word.now) only.now) ≡ true) }
    ensures why { IfErr result (λ refusal. (refusal ≡ Refusal.Memory alloc_error) ⊎ NamesNoNode (map (λ word. word.now) only.now) nodes.now refusal) }
    ensures none { (i : ℕ) → IsErrOf result (Refusal.NoNode i) → (0 < i) × ((word : List ℕ) → slice_get (map (λ word. word.now) only.now) (i - 1) ≡ Some word → is_node nodes.now word ≡ false) }
{
    for (index, word) in only.iter().enumerate() {
        match is_node(alloc, nodes, word) {
            Ok(true) => {}
            Ok(false) => return Err(Refusal::NoNode(index + 1)),
            Err(AllocError) => return Err(Refusal::Memory(AllocError)),
        }
    }
    Ok(())
}
