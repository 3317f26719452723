//! Laws of layouts, each the contract of a function that does nothing.
ghost use Rattle.std.specs.Prelude.{◌≡◌, ℕ};
ghost use Rattle.udfs_lattice.specs.declared.facts.Fact.TheVariants.{Unknown};
ghost use Rattle.udfs_volume.specs.Answers.{holes};
ghost use Rattle.udfs_volume.specs.Layout.{layout};
ghost use Rattle.udfs_volume.specs.Sequence.{anchor_places};
ghost use Rattle.udfs_volume.specs.Laws.{AscendingRises, EqualCopiesAreLawful, EqualCopiesAreLawfulBy, FoundBounds, FoundBoundsBy, LayoutBounds, LayoutLaw, LayoutLawBy, MainLayoutBy, StandardLayout, StandardLayoutBy, StrictSequence};
ghost use Rattle.udfs_volume.specs.declared.profiles.Profile.{Profile};
ghost use Rattle.udfs_volume.specs.Primaries.{PrimariesMayDiffer};
ghost use Rattle.udfs_volume.specs.Sample.{SampleLayout};

/// Over a table that agrees with a lawful volume, the layout is the volume's and each group of blocks of
/// which one is needed has a known block; or there are holes, which hold a whole group of which no block
/// is known, and nothing that is known.
pub fn layout_of_lawful()
    ensures strict { LayoutLaw }
    ensures by_profile { (profile : Profile) → LayoutLawBy profile }
{}

/// Over such a table the layout is what the main sequence gives, by the wide rules too: the reserve sequence is not asked.
pub fn main_sequence_counts()
    ensures { (profile : Profile) → MainLayoutBy profile }
{}

/// A layout that is found lies within the volume.
pub fn layout_is_bounded()
    ensures of_descriptors { LayoutBounds }
    ensures of_table { FoundBounds }
    ensures by_profile { (profile : Profile) → FoundBoundsBy profile }
{}

/// With all blocks of a lawful volume known, the layout is that of the first valid anchor and the main
/// sequence.
pub fn layout_of_standard()
    ensures strict { StandardLayout }
    ensures by_profile { (profile : Profile) → StandardLayoutBy profile }
{}

/// Of a disc of which nothing is known, the three places of an anchor have to be read.
pub fn layout_of_nothing()
    ensures { (last : ℕ) → layout (λ n. Unknown) last ≡ holes (anchor_places last) }
{}

/// What `ascending` makes of a list of numbers rises strictly.
pub fn ascending_rises()
    ensures { AscendingRises }
{}

/// There are lawful layouts with one map of type 1, with one sparable map and with both: sample volumes have them, whatever their
/// partitions hold.
pub fn sample_layout_is_lawful()
    ensures { SampleLayout }
{}

/// Where both copies of each position of the sequence are equal from byte 16 on, whatever kind of descriptor they are, the layout is
/// lawful: it asks this of partition descriptors and logical volume descriptors alone, of which the layout is read.
pub fn equal_copies_are_lawful()
    ensures strict { EqualCopiesAreLawful }
    ensures by_profile { (profile : Profile) → EqualCopiesAreLawfulBy profile }
{}

/// And there are lawful layouts whose copies are not all equal: a sample volume has two primary volume descriptors with different volume
/// set identifiers.
pub fn primaries_may_differ()
    ensures { PrimariesMayDiffer }
{}

/// By the strict rules both extents of an anchor have one length, so the sequence has all of their blocks.
pub fn strict_sequence()
    ensures { StrictSequence }
{}
