// SPDX-License-Identifier: MIT OR Apache-2.0
//! The tests of what is read from a volume: from the layout to the nodes, over sample volumes.
#![tactic(auto)]

#[cfg(test)]
mod tests;
