//! Laws of witnesses, each the contract of a function that does nothing.

ghost use Rattle.udfs_witnesses.specs.Laws.{NamedAreWitnesses, SpreadAreWitnesses, WitnessesAreFew, WitnessesAreKnown, WitnessesRise};

/// Witnesses are known blocks of the disc, ascending, each once, and sixteen at most, where two structures at most are given.
pub fn witnesses_are_few_known_blocks()
    ensures rise { WitnessesRise }
    ensures known { WitnessesAreKnown }
    ensures few { WitnessesAreFew }
{}

/// What names the volume is among them where it is known, and so is, of each ninth of the disc, some block whose bytes are not all equal.
pub fn witnesses_tell_discs_apart()
    ensures named { NamedAreWitnesses }
    ensures spread { SpreadAreWitnesses }
{}
