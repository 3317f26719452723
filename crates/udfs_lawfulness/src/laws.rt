//! Laws of lawful structures, each the contract of a function that does nothing.

ghost use Rattle.udfs_lawfulness.specs.Lawful.{LawfulHasStructures, NoLawfulAgrees};

/// A lawful volume has lawful structures, by the rules of any profile: so where what is known contradicts these, no lawful volume agrees with it.
pub fn lawful_volumes_have_lawful_structures()
    ensures structures { LawfulHasStructures }
    ensures none { NoLawfulAgrees }
{}
