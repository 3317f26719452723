// SPDX-License-Identifier: MIT OR Apache-2.0
//! The tests of what is read and written: tables, readings, table files, mapfiles, images and printing.
#![tactic(auto)]

#[cfg(test)]
mod tests;
