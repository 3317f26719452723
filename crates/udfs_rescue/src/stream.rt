//! A mapfile that comes byte by byte. Memory grows with its runs alone.

ghost use Rattle.std.specs.Prelude.{◌≡◌, ◌<◌, ℕ, List, [], ◌∷◌, ◌++◌, Result, OnOk, IfOk, IfErr, length, take};
ghost use Rattle.udfs_rescue.specs.declared.fault.LineFault.{LineFault};
ghost use Rattle.udfs_rescue.specs.declared.run.Run.{Run};
ghost use Rattle.udfs_rescue.specs.Lines.{outcome};
ghost use Rattle.udfs_rescue.specs.Held.{Keeps};
ghost use Rattle.udfs_rescue.specs.Views.{Parses, Refuses, Steps};
ghost use Rattle.udfs_rescue.specs.Stream.{StandsFor, EndsLine, LineFails, comes_to};

use crate::fault::{LineFault, MapError, MapFault};
use crate::front::LineFront;
use crate::held::HeldLine;
use crate::line::{MapRuns, StepError};
use crate::mapfile::Mapfile;
use std::alloc::{AllocError, Global};

/// What has come of a mapfile.
#[derive(Drop)]
pub struct MapReader {
    front: LineFront,
    held: HeldLine,
    runs: MapRuns,
    line: u64,
}

impl MapReader {
    pub fn new(alloc: Global) -> MapReader
        ensures { StandsFor result outcome }
    {
        MapReader {
            front: LineFront::new(alloc),
            held: HeldLine::new(alloc),
            runs: MapRuns::new(alloc),
            line: 1,
        }
    }

    /// Judges the line of which this is kept.
    fn judge(&mut self) -> Result<(), StepError>
        ensures steps { Steps self.new.runs result (comes_to self.old) }
        ensures line { self.new.line ≡ self.old.line }
    {
        if self.front.is_mark() {
            return Err(StepError::Fault(MapFault::NotPass));
        }
        self.runs.take_text(self.held.text())
    }

    /// Ends the line that has come.
    fn end_line(&mut self) -> Result<(), MapError>
        ensures ok { OnOk result (EndsLine self.old self.new) }
        ensures err { IfErr result (λ e. LineFails self.old e) }
    {
        match self.judge() {
            Ok(()) => {
                self.front.clear();
                self.held.clear();
                self.line = self.line.wrapping_add(1);
                Ok(())
            }
            Err(StepError::OutOfMemory) => Err(MapError::OutOfMemory),
            Err(StepError::Fault(fault)) => Err(MapError::Line(LineFault {
                line: self.line,
                fault,
            })),
        }
    }

    /// Keeps what is to be known of one more byte of the line.
    fn keep(&mut self, byte: u8) -> Result<(), AllocError>
        ensures front { OnOk result ((line : List ℕ) → self.old.front.kept.items ≡ take 68 line → self.new.front.kept.items ≡ take 68 (line ++ byte ∷ [])) }
        ensures held { OnOk result ((line : List ℕ) → Keeps self.old.held.held.items self.old.held.comment self.old.held.blank line → Keeps self.new.held.held.items self.new.held.comment self.new.held.blank (line ++ byte ∷ [])) }
        ensures runs { self.new.runs ≡ self.old.runs }
        ensures line { self.new.line ≡ self.old.line }
    {
        self.front.take(byte)?;
        self.held.take(byte)?;
        Ok(())
    }

    /// Takes one byte. An error ends it all.
    pub fn take(&mut self, byte: u8) -> Result<(), MapError>
        ensures ok { OnOk result ((says : List ℕ → Result (List Run) LineFault) → StandsFor self.old says → StandsFor self.new (λ rest. says (byte ∷ rest))) }
        ensures err { IfErr result (λ e. (says : List ℕ → Result (List Run) LineFault) → StandsFor self.old says → (rest : List ℕ) → Refuses e (says (byte ∷ rest))) }
    {
        if byte == b'\n' {
            return self.end_line();
        }
        match self.keep(byte) {
            Ok(()) => Ok(()),
            Err(AllocError) => Err(MapError::OutOfMemory),
        }
    }

    /// Takes the next piece. An error ends it all.
    pub fn feed(&mut self, piece: &[u8]) -> Result<(), MapError>
        ensures ok { OnOk result ((says : List ℕ → Result (List Run) LineFault) → StandsFor self.old says → StandsFor self.new (λ rest. says (piece.now ++ rest))) }
        ensures err { IfErr result (λ e. (says : List ℕ → Result (List Run) LineFault) → StandsFor self.old says → (rest : List ℕ) → Refuses e (says (piece.now ++ rest))) }
    {
        for byte in piece {
            match self.take(*byte) {
                Ok(()) => {}
                Err(e) => return Err(e),
            }
        }
        Ok(())
    }

    /// The runs, where no byte follows. Without a run that is an error.
    pub fn finish(mut self) -> Result<Mapfile, MapError>
        ensures says { (says : List ℕ → Result (List Run) LineFault) → StandsFor self says → Parses result (says []) }
        ensures some { IfOk result (λ runs. 0 < length runs) }
    {
        match self.end_line() {
            Ok(()) => {}
            Err(e) => return Err(e),
        }
        if self.runs.is_empty() {
            return Err(MapError::Line(LineFault {
                line: self.line.wrapping_sub(1),
                fault: MapFault::NoRuns,
            }));
        }
        Ok(self.runs.into_mapfile())
    }
}
