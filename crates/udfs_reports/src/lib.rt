// SPDX-License-Identifier: MIT OR Apache-2.0
//! The commands that report on a volume: `report`, `reread`, `list`, `summary` and `page`.
#![tactic(auto)]

mod comparing;
pub mod giving;
mod judging;
pub mod list;
pub mod lost_list;
pub mod page;
mod paths;
pub mod report;
pub mod reread;
pub mod reread_map;
pub mod summary;
pub mod telling;
