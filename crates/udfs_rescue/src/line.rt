//! What one line of a mapfile says.

ghost use Rattle.std.specs.Prelude.{◌≡◌, ◌==◌, ℕ, length, Option, Some, None, IfSome, IfNone};
ghost use Rattle.udfs_rescue.specs.declared.line.StepError.TheVariants.{OutOfMemory};
ghost use Rattle.udfs_rescue.specs.Numbers.{capped};
ghost use Rattle.udfs_rescue.specs.Words.{words};
ghost use Rattle.udfs_rescue.specs.declared.run.Run.{Run};
ghost use Rattle.udfs_rescue.specs.Lines.{parts, is_phase, run_status, with_pass, status_by, status_of, run_of, nothing, after_status, after_run, after_text, is_due};
ghost use Rattle.udfs_rescue.specs.Views.{capped_run, Steps};

use crate::fault::MapFault;
use crate::mapfile::Mapfile;
use crate::number::{LIMIT, decimal_of, number_of};
use crate::run::{Run, RunStatus};
use crate::word::next_word;
use std::alloc::{AllocError, AllocFailed, Global};
use std::marker::Model;

/// Why a line was not taken.
#[derive(Debug, Drop)]
pub enum StepError {
    Fault(MapFault),
    OutOfMemory,
}

impl From<AllocError> for StepError {
    ghost from_gives = { λ _ e. e ≡ OutOfMemory };

    fn from(_e: AllocError) -> StepError {
        StepError::OutOfMemory
    }
}

impl<T: Drop> From<AllocFailed<T>> for StepError {
    ghost from_gives = { λ _ e. e ≡ OutOfMemory };

    fn from(_e: AllocFailed<T>) -> StepError {
        StepError::OutOfMemory
    }
}

/// The runs of the lines so far.
#[derive(Drop)]
pub struct MapRuns {
    begun: bool,
    due: Option<u64>,
    runs: Vec<Run>,
}

impl Model for MapRuns {
    ghost use Rattle.udfs_rescue.specs.Lines.{Progress};

    ghost Value = { Progress };

    ghost use Rattle.udfs_rescue.specs.Runs.{DueAfter};

    ghost view = { λ m. record { begun = m.begun; due = m.due; runs = m.runs.items } };

    ghost invariant = { λ m. DueAfter m.due m.runs.items };
}

/// The two or three words of a line; the third is empty if there are two. `None` if there are fewer or more.
fn parts(line: &[u8]) -> Option<(&[u8], &[u8], &[u8])>
    ensures some { IfSome result (λ r. parts (words line.now) ≡ Some (r.0.now, r.1.now, r.2.now)) }
    ensures none { IfNone result (parts (words line.now) ≡ None) }
{
    let Some((a, behind_a)) = next_word(line) else {
        return None;
    };
    let Some((b, behind_b)) = next_word(behind_a) else {
        return None;
    };
    let Some((c, behind_c)) = next_word(behind_b) else {
        return Some((a, b, &[]));
    };
    if next_word(behind_c).is_some() {
        return None;
    }
    Some((a, b, c))
}

/// Whether the word is the letter of a phase of ddrescue: one of `?`, `*`, `/`, `-`, `F`, `G` and `+`.
fn is_phase(word: &[u8]) -> bool
    ensures { result ≡ is_phase word.now }
{
    match word {
        [byte] => match byte {
            b'?' | b'*' | b'/' | b'-' | b'F' | b'G' | b'+' => true,
            _ => false,
        },
        _ => false,
    }
}

/// The status that a word gives: one of `?`, `*`, `/`, `-` and `+`. `None` for any other word.
fn run_status(word: &[u8]) -> Option<RunStatus>
    ensures { result ≡ run_status word.now }
{
    match word {
        [byte] => match byte {
            b'?' => Some(RunStatus::NonTried),
            b'*' => Some(RunStatus::NonTrimmed),
            b'/' => Some(RunStatus::NonScraped),
            b'-' => Some(RunStatus::BadSector),
            b'+' => Some(RunStatus::Finished),
            _ => None,
        },
        _ => None,
    }
}

/// The number, where the pass is one too, and not 0.
fn with_pass(number: Option<u64>, pass: Option<u64>) -> Option<u64>
    ensures { (n p : Option ℕ) → number ≡ capped n → pass ≡ capped p → result ≡ capped (with_pass n p) }
{
    match (number, pass) {
        (Some(number), Some(pass)) => { if pass == 0 { None } else { Some(number) } }
        _ => None,
    }
}

fn status_by(number: &[u8], phase: &[u8], pass: &[u8]) -> Option<u64>
    ensures { result ≡ capped (status_by (Some (number.now, phase.now, pass.now))) }
{
    if !is_phase(phase) {
        return None;
    }
    if pass.is_empty() {
        return number_of(number);
    }
    with_pass(number_of(number), decimal_of(pass))
}

/// The position in a status line.
fn status_of(line: &[u8]) -> Option<u64>
    ensures { result ≡ capped (status_of (words line.now)) }
{
    match parts(line) {
        Some((number, phase, pass)) => status_by(number, phase, pass),
        None => None,
    }
}

/// The run of a line.
fn run_of(line: &[u8]) -> Option<Run>
    ensures { result ≡ capped_run (run_of (words line.now)) }
{
    let Some((at, size, status)) = parts(line) else {
        return None;
    };
    match (number_of(at), number_of(size), run_status(status)) {
        (Some(at), Some(size), Some(status)) => Some(Run { at, size, status }),
        _ => None,
    }
}

/// Whether a run may begin at this position.
fn is_due(due: Option<u64>, at: u64) -> bool
    ensures { result ≡ is_due due at }
{
    match due {
        None => true,
        Some(due) => due == at,
    }
}

impl MapRuns {
    pub fn new(alloc: Global) -> MapRuns
        ensures { result ≡ nothing }
    {
        MapRuns {
            begun: false,
            due: None,
            runs: Vec::new(alloc),
        }
    }

    /// Whether none of the lines so far is a run.
    pub fn is_empty(&self) -> bool
        ensures { result ≡ (length self.now.runs == 0) }
    {
        self.runs.is_empty()
    }

    /// The mapfile of the lines so far.
    pub fn into_mapfile(self) -> Mapfile
        ensures { result ≡ self.runs }
    {
        let MapRuns {
            begun: _,
            due,
            runs,
        } = self;
        Mapfile::new(runs, due)
    }

    fn take_status(&mut self, number: Option<u64>) -> Result<(), StepError>
        ensures { (n : Option ℕ) → number ≡ capped n → Steps self.new result (after_status self.old n) }
    {
        match number {
            None => Err(StepError::Fault(MapFault::NotStatusLine)),
            Some(number) => {
                if number >= LIMIT {
                    return Err(StepError::Fault(MapFault::TooLarge));
                }
                self.begun = true;
                Ok(())
            }
        }
    }

    fn take_run(&mut self, run: Option<Run>) -> Result<(), StepError>
        ensures { (r : Option Run) → run ≡ capped_run r → Steps self.new result (after_run self.old r) }
    {
        let Some(run) = run else {
            return Err(StepError::Fault(MapFault::NotRun));
        };
        if run.at >= LIMIT || run.size >= LIMIT - run.at {
            return Err(StepError::Fault(MapFault::TooLarge));
        }
        if !is_due(self.due, run.at) {
            return Err(StepError::Fault(MapFault::NotContiguous));
        }
        if run.size == 0 && run.at != 0 {
            return Err(StepError::Fault(MapFault::SizeZero));
        }
        self.runs.push(run)?;
        self.due = Some(run.at + run.size);
        Ok(())
    }

    /// Takes the text of the next line. An error ends it all.
    pub fn take_text(&mut self, text: &[u8]) -> Result<(), StepError>
        ensures { Steps self.new result (after_text self.old text.now) }
    {
        if text.len() > 127 {
            return Err(StepError::Fault(if self.begun {
                MapFault::NotRun
            } else {
                MapFault::NotStatusLine
            }));
        }
        if next_word(text).is_none() {
            return Ok(());
        }
        if self.begun {
            self.take_run(run_of(text))
        } else {
            self.take_status(status_of(text))
        }
    }
}
