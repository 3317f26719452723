//! The calls so far, for proofs alone.

ghost use Rattle.std.specs.Prelude.{◌≡◌, List, []};
ghost use Rattle.std.specs.Borrow.{ftrue};
ghost use Rattle.std.specs.Coded.{coded_list};
ghost use Rattle.udfs_calls.specs.Log.{Call};
ghost use Rattle.udfs_memory.specs.Coding.{coded_call};

use crate::deeds::Outcome;
use std::marker::Model;

/// All calls so far, the newest first. It takes no memory, and only clauses read it: so a call that failed for want of memory is among them too.
#[derive(Drop)]
pub(crate) struct History {
    ghost calls: { List Call } by { coded_list coded_call },
}

impl Model for History {
    ghost also_owns = { λ _. ftrue };
}

impl History {
    ghost use Rattle.udfs_memory.specs.Noted.{noted};

    /// No call was made yet.
    pub(crate) fn new() -> History
        ensures { result.calls ≡ [] }
    {
        History {}
    }

    /// One call more.
    pub(crate) fn then(&self, _outcome: &Outcome<'_>) -> History
        ensures { result.calls ≡ noted self.now.calls _outcome.now }
    {
        History {}
    }
}
