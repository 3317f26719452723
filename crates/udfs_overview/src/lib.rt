// SPDX-License-Identifier: MIT OR Apache-2.0
//! What a person is shown of a volume: figures, names that cannot forge a line, a line for each node, and what a summary counts.
#![tactic(auto)]

mod disagreements;
mod disc_tallies;
mod figures;
mod found_lines;
mod found_list;
mod guarantees;
mod left_out;
mod lost_found;
mod lost_lines;
mod lost_list;
mod lost_summaries;
mod lost_tallies;
mod moved_tags;
mod narrow;
mod next_commands;
mod node_columns;
mod node_list;
mod node_objects;
mod node_widenings;
mod repeating;
mod safe_names;
mod sentences;
mod spares;
mod streams;
mod summary;
mod summary_figures;
mod summary_json;
mod summary_lines;
mod tallies;
mod torn_lines;
mod torn_rows;
mod unread_lines;
mod verdicts;
mod volume_lines;
mod widenings;

pub use disagreements::{has_room, push_anchors_text, push_apart};
pub use disc_tallies::{DiscTally, UnnamedTally};
pub use figures::{push_grouped, push_percent, push_size};
pub use guarantees::{push_guarantee, push_guarantee_line, push_why_place, push_why_words};
pub use left_out::{left_out_remark, left_out_types, push_left_out, wide_writes};
pub use lost_found::{
    Lost, Rootless, find_lost, found_trees_are_the_volumes, places_are_the_volumes,
};
pub use lost_lines::{place_of_by, push_lost_word};
pub use lost_list::write_lost;
pub use lost_summaries::push_lost;
pub use lost_tallies::{LostTally, tally_lost};
pub use moved_tags::push_moved;
pub use next_commands::{
    Margins, Pass, cleaned, push_extract, push_inputs_end, push_needed_steps, push_summary_by,
    table_path,
};
pub use node_columns::{lost_of, push_stamp};
pub use node_list::{ListForm, write_list_by, write_listing_by};
pub use node_widenings::push_wider;
pub use repeating::{
    Given, pass_number, push_disc_words, push_inputs, push_shell_path, push_shell_word,
};
pub use safe_names::{push_safe_name, safe_names_are_safe, safe_names_tell_units};
pub use sentences::push_sentence;
pub use spares::{push_spares, spares_disagree, spares_disagree_in};
pub use streams::push_streams;
pub use summary::{first_torn_folder, write_summary_by};
pub use summary_figures::{Counts, Figures};
pub use summary_json::write_summary_json_by;
pub use summary_lines::{push_disc, push_files, push_others};
pub use tallies::Tally;
pub use torn_rows::{TornFiles, TornRow, push_shown_path, torn_files_are_by_loss};
pub use unread_lines::{push_unread, unread_in};
pub use verdicts::Verdict;
pub use volume_lines::{push_disc_size, push_label, push_revision, push_volume};
pub use widenings::{Widening, push_widening, widening_by};
