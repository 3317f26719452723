//! What a run shows to the person who watches it, beside what it prints. Nothing that a command does depends on it.

ghost use Rattle.std.specs.Prelude.{◌≡◌, Ok, IfSome, IsErr, IsNone};

use std::io::Error;

/// What a command does at the moment.
#[derive(Clone, Copy, Debug, PartialEq, Eq)]
pub enum Stage {
    /// The inputs are opened and read.
    Reading,
    /// The volume is walked.
    Walking,
    /// The outputs are written.
    Writing,
}

/// Someone who watches a run, or no one.
pub trait Watch {
    /// A call failed, and the system said why.
    fn failed(&self, error: Error);

    /// Why the last of the calls that failed did so, where the system said it.
    fn reason(&self) -> Option<Error>;

    /// Whether a person reads what is said on standard error.
    fn is_watched(&self) -> bool;

    /// Something else is done from now on.
    fn begin(&self, stage: Stage);

    /// An input was opened, of this size in bytes where it has one. Returns its number, counted from 1.
    fn opened(&self, size: Option<u64>) -> usize;

    /// `count` bytes were read from the input of this number.
    fn read(&self, input: usize, count: usize);

    /// `count` bytes were written.
    fn wrote(&self, count: usize);

    /// Nothing more is to be said.
    fn hush(&self);

    /// More is to be said than has to be, whoever watches.
    fn speak(&self);

    /// There is a line of text to be shown, where a person watches or more is to be said.
    fn remark(&self, text: &str);
}

/// The value of a call's outcome. Where it failed, `watch` is given the reason.
pub(crate) fn heeded<T: Drop, N: Watch>(watch: &N, outcome: Result<T, Error>) -> Option<T>
    ensures value { IfSome result (λ value. outcome ≡ Ok value) }
    ensures none { IsNone result → IsErr outcome }
{
    match outcome {
        Ok(value) => Some(value),
        Err(error) => {
            watch.failed(error);
            None
        }
    }
}
