// SPDX-License-Identifier: MIT OR Apache-2.0
//! Lost folders with their names: directories that no known name leads to, the trees below them, and lost files.
//!
//! [`lost_roots_by`] finds the folders from which to walk, [`lost_trees`] their nodes, [`lost_files_by`] the files that no such tree
//! names, and [`parent`] the directory in which a folder says that it is. [`placed_volume`] finds what a lost folder needs of a
//! volume whose root is not known. [`found_names_by`] has the names that a torn directory still tells behind a hole: evidence, and
//! no proof. The laws in [`laws`] say what a lost tree tells of the tree of its volume.
#![tactic(auto)]

mod entries;
pub mod files;
pub mod folders;
pub mod laws;
pub mod links;
mod met;
pub mod named_entries;
pub mod names_behind;
pub mod parents;
pub mod placed;
mod search;
pub mod trees;
pub mod unplaced_entries;

pub use files::lost_files_by;
pub use folders::lost_roots_by;
pub use links::link_count;
pub use met::Met;
pub use named_entries::found_entries;
pub use names_behind::{FoundName, found_names_by, torn_folders};
pub use parents::{parent, parent_by};
pub use placed::{PlacedVolume, placed_volume, placed_volume_by};
pub use trees::{LostTree, lost_trees, lost_trees_by};
pub use unplaced_entries::{Unplaced, unplaced_by};
