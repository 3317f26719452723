//! Laws of printing, each the contract of a function that does nothing.
ghost use Rattle.udfs_reading.specs.PrintingLaws.{PutsNone, PutsThen, PutsAll};

/// No text is put where nothing was done, and two texts that are put one after the other are put as one. What was put
/// into an empty printer is written once it is finished, or a beginning of it is out and the sink's fault is reported.
pub fn pieces_make_one()
    ensures none { PutsNone }
    ensures one_more { PutsThen }
    ensures all { PutsAll }
{}
