//! Laws of reports and trees, each the contract of a function that does nothing.
ghost use Rattle.udfs_volume.specs.declared.profiles.Profile.{Profile};
ghost use Rattle.udfs_salvage.specs.TreeReports.{OneFileAt, OneFileAtBy, OpensOnce, OpensOnceBy, ReportsTellTree, ReportsTellTreeBy, SomeLawful, SomeLawfulBy};
ghost use Rattle.udfs_salvage.specs.VolumeTrees.{LawfulIsWhole, LawfulIsWholeBy};
ghost use Rattle.udfs_salvage.specs.WideVolumes.{WideTakesMore, WideTakesStrict, WideTakesTails};

/// The standard opens a lawful volume, and in one way only.
pub fn opens_once()
    ensures strict { OpensOnce }
    ensures by_profile { (profile : Profile) → OpensOnceBy profile }
{}

/// A path of a lawful volume leads to one file: its fields and its bytes are determined.
pub fn one_file_at()
    ensures strict { OneFileAt }
    ensures by_profile { (profile : Profile) → OneFileAtBy profile }
{}

/// Every report of a table describes the tree of each lawful volume that agrees with the table.
pub fn reports_tell_tree()
    ensures strict { ReportsTellTree }
    ensures by_profile { (profile : Profile) → ReportsTellTreeBy profile }
{}

/// There are lawful volumes with a file, with a map of type 1, with a sparable one that has a spared packet, and with both; so what is said of
/// lawful volumes is said of something, by the strict rules and by those of each profile.
pub fn some_volume_is_lawful()
    ensures strict { SomeLawful }
    ensures by_profile { (profile : Profile) → SomeLawfulBy profile }
{}

/// A volume that is lawful by the strict rules is lawful by the wide ones, and these read the same files in it, with the same fields and bytes.
pub fn wide_takes_strict()
    ensures { WideTakesStrict }
{}

/// And there are volumes with a file that are lawful by the wide rules and not by the strict ones: of revision 2.00, and of 1.02 with
/// packets of 64 blocks.
pub fn wide_takes_more()
    ensures { WideTakesMore }
{}

/// And there is one with a file that is so because of a tail: nothing but its tree is not lawful by the strict rules.
pub fn wide_takes_tails()
    ensures { WideTakesTails }
{}

/// A volume is lawful, which the standard's reading alone defines, if and only if every node is whole when all of the volume is known.
pub fn lawful_is_whole()
    ensures strict { LawfulIsWhole }
    ensures by_profile { (profile : Profile) → LawfulIsWholeBy profile }
{}
