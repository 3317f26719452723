//! Laws of reports, each the contract of a function that does nothing: what [`crate::salvage`] says of the report that it
//! returns holds of every report that there is, by the strict rules and by those of any profile.
ghost use Rattle.udfs_volume.specs.declared.profiles.Profile.{Profile};
ghost use Rattle.udfs_salvage.specs.Headline.{OneReport, OneReportBy, OneText, OneTextBy, ReportsKeepIt, ReportsKeepItBy, SomeReport, SomeReportBy};
ghost use Rattle.udfs_salvage.specs.KnownEnough.{EachRereadSuffices, EachRereadSufficesBy, MetIsReportedWhole, MetIsReportedWholeBy, MoreStaysWhole, MoreStaysWholeBy};

/// A table has at most one report: what is found, the nodes, the entries that no name leads to, and the list to read again.
pub fn one_report()
    ensures strict { OneReport }
    ensures by_profile { (profile : Profile) → OneReportBy profile }
{}

/// A table that agrees with a lawful volume has a report.
pub fn some_report()
    ensures strict { SomeReport }
    ensures by_profile { (profile : Profile) → SomeReportBy profile }
{}

/// And the text of a table's report is one.
pub fn one_text()
    ensures strict { OneText }
    ensures by_profile { (profile : Profile) → OneTextBy profile }
{}

/// All that is promised of reports holds of every report that there is, however it was come by.
pub fn reports_keep_it()
    ensures strict { ReportsKeepIt }
    ensures by_profile { (profile : Profile) → ReportsKeepItBy profile }
{}

/// For every table and every lawful volume that agrees with it, a node of the volume's tree, of each needed group of which
/// a block is known, is reported whole, with the tree's kind, size, stamp and bytes.
pub fn met_is_whole()
    ensures strict { MetIsReportedWhole }
    ensures by_profile { (profile : Profile) → MetIsReportedWholeBy profile }
{}

/// So what is whole stays whole, with the same path and bytes, in the report of each table that agrees with the volume,
/// knows more, and disputes nothing that the first knows.
pub fn more_stays_whole()
    ensures strict { MoreStaysWhole }
    ensures by_profile { (profile : Profile) → MoreStaysWholeBy profile }
{}

/// The list of blocks to read again is empty exactly if all of the tree is reported whole; none of it is known, and each
/// block in it is needed, or is an anchor place while no valid anchor is known; and each node of the tree is reported whole,
/// or the list holds all of a needed group of which no block is known. So a pass that reads no listed block makes no
/// further node whole.
pub fn rereads_suffice()
    ensures strict { EachRereadSuffices }
    ensures by_profile { (profile : Profile) → EachRereadSufficesBy profile }
{}
