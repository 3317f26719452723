// SPDX-License-Identifier: MIT OR Apache-2.0
//! The commands of `udfsalvage`: what its arguments ask for, over any files.
#![tactic(auto)]

mod command;
mod cut_files;
mod foreign;
mod hints;
mod longer_images;
mod performing;
mod printing;
mod refusing;
mod spared;
mod unfinished;

pub use command::run;
pub use refusing::refuse_words;
