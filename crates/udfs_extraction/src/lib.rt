// SPDX-License-Identifier: MIT OR Apache-2.0
//! The command `extract`: the files of a volume.
#![tactic(auto)]

mod bare_paths;
mod choosing;
mod digesting;
pub mod extract;
mod fate_remarks;
mod found_places;
pub mod laws;
mod lost_found;
mod lost_places;
mod lost_trees;
mod making;
mod manifest;
mod manifest_place;
mod manifest_put;
mod manifest_text;
mod naming;
mod node_files;
mod nodes;
mod out_places;
mod places;
mod runs;
mod seats;
mod short_names;
mod spare;
mod stopping;
mod stored_extract;
mod telling;
mod times;
mod unnamed;
mod unnamed_place;
