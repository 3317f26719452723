//! A mapfile, read from a source.

ghost use Rattle.std.specs.Prelude.{◌≡◌, ◌≢◌, ◌↔◌, ◌<◌, ℕ, List, length, IfSome, IfOk, IfErr, IsErrOf};
ghost use Rattle.udfs_reading.specs.Answers.{HadGiven};
ghost use Rattle.udfs_rescue.specs.declared.fault.MapError.TheVariants.{Io};
ghost use Rattle.udfs_rescue.specs.Lines.{outcome, HasNoFaultYet};
ghost use Rattle.udfs_rescue.specs.Runs.{AreRuns, DueAfter, end_of_runs};
ghost use Rattle.udfs_rescue.specs.Views.{ReadsRuns};
ghost use Rattle.udfs_rescue.specs.Stream.{ReadsMap};

use crate::fault::MapError;
use crate::run::Run;
use crate::stream::MapReader;
use std::alloc::Global;
use std::marker::Model;
use udfs_reading::Source;

/// The runs of a mapfile of GNU ddrescue. Each begins where the one before it ended, and all end below 2^63.
#[derive(Drop)]
pub struct Mapfile {
    runs: Vec<Run>,
    end: Option<u64>,
}

impl Model for Mapfile {
    ghost use Rattle.std.specs.Prelude.{List};
    ghost use Rattle.udfs_rescue.specs.declared.run.Run.{Run};

    ghost Value = { List Run };

    ghost use Rattle.udfs_rescue.specs.Runs.{DueAfter};

    ghost view = { λ m. m.runs.items };

    ghost invariant = { λ m. DueAfter m.end m.runs.items };
}

/// Reads to the end of the source.
fn read_lines<R: Source>(alloc: Global, source: &mut R) -> Result<Mapfile, MapError>
    ensures reads { ReadsMap (R.remaining source.old) (R.remaining source.new) (R.faults source.old) (R.faults source.new) result }
    ensures some { IfOk result (λ runs. 0 < length runs) }
{
    let mut reader = MapReader::new(alloc);
    let mut piece = [0u8; 4096];
    for _ in 0..u64::MAX {
        let n = match source.read(&mut piece) {
            Ok(n) => n,
            Err(_) => return Err(MapError::Io),
        };
        if n == 0 {
            return reader.finish();
        }
        match reader.feed(&piece[..n]) {
            Ok(()) => {}
            Err(e) => return Err(e),
        }
    }
    Err(MapError::OutOfMemory)
}

impl Mapfile {
    pub(crate) fn new(runs: Vec<Run>, end: Option<u64>) -> Mapfile
        requires { DueAfter end runs.items }
        ensures { result ≡ runs.items }
    {
        Mapfile { runs, end }
    }

    /// Reads a mapfile to the end of the source. Memory grows with the runs alone: lines and comments may be of any
    /// length. A run takes 24 bytes, and at most three times that while the list of runs grows.
    ///
    /// # Errors
    ///
    /// `Line` with the first fault of the mapfile and its line; a mapfile without a run is one, at its last line. `Io` exactly where the source failed; the lines that
    /// had come whole have no fault then. `OutOfMemory` where there is no memory for another run, or where the source
    /// has not ended after 2^64 - 1 reads. After an error the source is read no further.
    pub fn read<R: Source>(alloc: Global, source: &mut R) -> Result<Mapfile, MapError>
        // The runs, or the first fault, are those of the bytes.
        ensures outcome { IfSome (R.remaining source.old) (λ bytes. ReadsRuns result (outcome bytes)) }
        // There is a run: a file that is empty, or has none, is no mapfile.
        ensures some { IfOk result (λ runs. 0 < length runs) }
        // It is the source that failed exactly where its count changed.
        ensures io { IsErrOf result Io ↔ (R.faults source.new ≢ R.faults source.old) }
        ensures kept { ¬ IsErrOf result Io → R.faults source.new ≡ R.faults source.old }
        // Then the bytes that it had given have no fault, unless in the line that they end in.
        ensures cut { IfErr result (λ e. e ≡ Io → HadGiven (R.remaining source.old) (R.remaining source.new) HasNoFaultYet) }
    {
        let outcome = read_lines(alloc, source);
        outcome
    }

    /// The runs, in order.
    pub fn runs(&self) -> &[Run]
        ensures runs { result.now ≡ self.now }
        ensures contiguous { AreRuns self.now }
    {
        &self.runs
    }

    /// Where the last run ends, in bytes. `None` where there is no run, as in no mapfile that was read.
    pub fn end(&self) -> Option<u64>
        ensures { result ≡ end_of_runs self.now }
    {
        self.end
    }
}
