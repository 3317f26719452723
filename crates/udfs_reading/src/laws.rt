//! Laws of the file formats, each the contract of a function that does nothing.
ghost use Rattle.std.specs.Prelude.{◌≡◌, ℕ, List};
ghost use Rattle.udfs_lattice.specs.Tables.{Table, IsTable};
ghost use Rattle.udfs_reading.specs.Inputs.{tables, inputs};
ghost use Rattle.udfs_reading.specs.Kind.{HasOneOutcome};
ghost use Rattle.udfs_reading.specs.Laws.{FailedLast, FailedMore, FailedThen, PassedNone, PassedThen};
ghost use Rattle.udfs_reading.specs.Reading.{readings};
ghost use Rattle.udfs_reading.specs.PacketFile.{table_bytes};
ghost use Rattle.udfs_reading.specs.PacketReading.{IsPacketFile};
ghost use Rattle.udfs_reading.specs.TableFile.{table_bytes_v1};
ghost use Rattle.udfs_reading.specs.TableReading.{IsTableFile};

/// All bytes are a file of a kind or have a first fault; and none are two files, or a file and faulty, or have two first
/// faults.
pub fn one_outcome()
    ensures of_readings { HasOneOutcome readings }
    ensures of_tables { HasOneOutcome tables }
    ensures of_inputs { HasOneOutcome inputs }
{}

/// Each table has one spelling as a file of each version, and no two tables have the same one.
pub fn one_spelling()
    ensures spelled { (t : Table) → IsTable t → IsPacketFile (table_bytes t) t }
    ensures one { (bytes other : List ℕ) (t : Table) → IsPacketFile bytes t → IsPacketFile other t → bytes ≡ other }
    ensures tells_it { (t u : Table) → IsTable t → IsTable u → table_bytes t ≡ table_bytes u → t ≡ u }
    ensures spelled_v1 { (t : Table) → IsTable t → IsTableFile (table_bytes_v1 t) t }
    ensures one_v1 { (bytes other : List ℕ) (t : Table) → IsTableFile bytes t → IsTableFile other t → bytes ≡ other }
    ensures tells_it_v1 { (t u : Table) → IsTable t → IsTable u → table_bytes_v1 t ≡ table_bytes_v1 u → t ≡ u }
{}

/// Taking pieces one after another is the same as taking them as one piece. If the sink fails in a piece, it fails in the
/// whole, whatever was to come; and likewise if it fails in what is held at the end.
pub fn pieces_make_one()
    ensures none { PassedNone }
    ensures one_more { PassedThen }
    ensures fails { FailedThen }
    ensures fails_before_more { FailedMore }
    ensures fails_last { FailedLast }
{}
