// SPDX-License-Identifier: MIT OR Apache-2.0
//! Tests of the commands, the arguments, and the messages to a person, over files in memory: cases as data, which `test_runs` runs.
#![tactic(auto)]

#[cfg(test)]
mod tests;
