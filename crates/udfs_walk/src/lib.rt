// SPDX-License-Identifier: MIT OR Apache-2.0
//! The nodes of a volume of which some blocks are not known: every path with what is known of it, the entries that
//! no name leads to, and the blocks to read again.
//!
//! Laws, which nothing runs, say what the nodes tell of the tree that the standard reads from the volume's complete bytes: each is over one view,
//! of which a part is known, and its complete one.
#![tactic(auto)]

pub mod answers;
mod ascending;
mod bare;
mod block_runs;
mod children;
pub mod counting;
mod forests;
mod gaps;
mod kinds;
pub mod known_laws;
pub mod laws;
mod memos;
mod node_bodies;
pub mod paths;
mod rereads;
mod settling;
pub mod standings;
mod targets;
mod told;
pub mod tree_laws;
pub mod unnamed_entries;
mod visits;
mod walks;

pub use answers::{Node, NodesError, NodesGaveUp, Unnamed};
pub use bare::{
    full_entries, full_entries_by, full_nodes, full_nodes_by, full_standing, full_standing_by,
};
pub use forests::{counted_forest_by, forest_by};
pub use node_bodies::{body_at, body_by, tail_at, tail_by};
pub use paths::Path;
pub use rereads::{bare_reread, bare_reread_by, reread};
pub use standings::{Standing, Torn};
pub use walks::{bare_nodes, bare_nodes_by, counted_nodes, counted_nodes_by, nodes};
