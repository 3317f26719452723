// SPDX-License-Identifier: MIT OR Apache-2.0
//! Tests of what is reported of a volume: reports, summaries, lists and pages, over sample volumes.
#![tactic(auto)]

#[cfg(test)]
mod tests;
