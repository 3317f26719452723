//! A law of what calls do to a disk, the contract of a function that does nothing.

ghost use Rattle.udfs_calls.specs.Lawful.{SomeCrash};

/// After calls that can follow one another a crash leaves something, so what is said of all that a crash may leave is said of something.
#[tactic(auto, using(crate::proofs::SomeCrash::some_crash))]
pub fn a_crash_leaves_something()
    ensures { SomeCrash }
{}
