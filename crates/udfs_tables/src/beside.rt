//! The inputs of `merge` beside one another: what each says, and where it disagrees with those before it.

use crate::said::{Disagreement, Said};
use std::alloc::{AllocError, Global};
use std::mem;

/// How many blocks are known and in conflict in a join, and how many are not so in its first input.
#[derive(Clone, Copy, Debug, PartialEq, Eq)]
pub struct Totals {
    pub known: u32,
    pub new_known: u32,
    pub conflicts: u32,
    pub new_conflicts: u32,
}

/// The inputs that were begun.
#[derive(Drop)]
pub struct Beside {
    alloc: Global,
    /// How many inputs were begun.
    begun: usize,
    /// The input that is read.
    pub input: Said,
    /// The first one, and its blocks in conflict, once a second one is begun.
    pub first: Said,
    pub first_conflicts: u32,
    /// Each further input that is over.
    disagreements: Vec<Disagreement>,
}

impl Beside {
    /// None of `inputs` inputs is begun.
    ///
    /// # Errors
    ///
    /// `AllocError` where memory ran out.
    pub fn new(alloc: Global, inputs: usize) -> Result<Beside, AllocError> {
        Ok(Beside {
            alloc,
            begun: 0,
            input: Said::new(alloc),
            first: Said::new(alloc),
            first_conflicts: 0,
            disagreements: Vec::with_capacity(alloc, inputs)?,
        })
    }

    /// Whether inputs came before the one that is read.
    pub fn is_further(&self) -> bool {
        self.begun > 1
    }

    /// Whether the first input is read.
    pub fn is_first(&self) -> bool {
        self.begun == 1
    }

    /// The input that was read is over, and where it is the first one, `conflicts` of its blocks are in conflict.
    pub fn end_input(&mut self, conflicts: u32) {
        let ended = mem::replace(&mut self.input, Said::new(self.alloc));
        match self.begun {
            0 => {}
            1 => {
                self.first = ended;
                self.first_conflicts = conflicts;
            }
            _ => {
                let _ = self.disagreements.push(ended.disagreement());
            }
        }
    }

    /// The next input begins.
    pub fn begin_input(&mut self) {
        self.begun = self.begun.saturating_add(1);
    }

    /// For each further input than the first that is over, in their order, in how many blocks it disagrees with those before it.
    pub fn disagreements(&self) -> &[Disagreement] {
        self.disagreements.as_slice()
    }
}
