// SPDX-License-Identifier: MIT OR Apache-2.0
//! The page of a volume: one HTML file with what can be salvaged of a disc, for a person to read, to print and to keep.
#![tactic(auto)]

mod disc_arcs;
mod escapes;
mod heads;
mod holes;
mod insides;
mod lost_sections;
mod markups;
mod naming;
mod next_steps;
mod overviews;
mod pages;
mod pictures;
mod spiral;
mod torn_tables;
mod trees;
mod unread_tables;

pub use disc_arcs::{Mark, arcs};
pub use escapes::{html_gives_the_text_back, html_injects_nothing, push_html};
pub use holes::{push_closings, push_ranges};
pub use naming::Called;
pub use pages::{pages_begin_so, write_page_by};
pub use spiral::{arcs_part_the_blocks, roots_are_square_roots};
pub use trees::folders_nest;
