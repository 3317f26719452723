//! Lists and reports over a store that copies a block each time it is asked for, as one of files does, and whose reads may fail.

ghost use Rattle.std.specs.Prelude.{◌≡◌};
ghost use Rattle.udfs_lattice.specs.Tables.{state_of};

use super::list::{ALL, UNREAD};
use crate::tests::{assert_case, assert_text};
use std::alloc::{AllocError, Global};
use std::test::Fail;
use udfs_lattice::{BlockStore, BlockTable, Fact, ReadFault};
use udfs_lawfulness::lawfulness;
use udfs_overview::{
    Given, Verdict, tally_lost, write_list_by, write_listing_by, write_summary_by,
    write_summary_json_by,
};
use udfs_page::{Called, write_page_by};
use udfs_reading::{Sink, Writer};
use udfs_salvage::{
    Listing, PrintError, ReportStore, Survey, list_volume_by, survey_volume, write_json,
    write_json_by, write_survey, write_survey_by,
};
use udfs_samples::{Disc, LAST};
use udfs_volume::Profile;

/// A table that lends no block from its own memory, and of which one block can not be read.
#[derive(Drop)]
struct Copied<'a> {
    table: &'a BlockTable,
    broken: u32,
}

impl<'a> BlockStore for Copied<'a> {
    ghost tells = { Unit {0} };

    ghost states = { λ s n. state_of s.table.now n };

    ghost fails = { Unit {0} };

    fn knowledge(&self, n: u32) -> Fact<()> {
        self.table.knowledge(n)
    }

    fn unknown_ahead(&self, n: u32) -> u32 {
        self.table.unknown_ahead(n)
    }

    fn read(&self, n: u32) -> Result<Fact<[u8; 2048]>, ReadFault> {
        if n == self.broken {
            return Err(ReadFault);
        }
        Ok(self.table.state(n).copied())
    }

    fn lend<'s>(
        &'s self,
        n: u32,
        room: &'s mut [u8; 2048],
    ) -> Result<Fact<&'s [u8; 2048]>, ReadFault> {
        if n == self.broken {
            return Err(ReadFault);
        }
        match self.table.state(n) {
            Fact::Unknown => Ok(Fact::Unknown),
            Fact::Conflict => Ok(Fact::Conflict),
            Fact::Known(bytes) => {
                *room = *bytes;
                Ok(Fact::Known(room))
            }
        }
    }
}

impl<'a> ReportStore for Copied<'a> {
    ghost use Rattle.std.proofs.Common.{ap, sym};

    ghost holds = { λ s t. s.table.now ≡ t };

    ghost held = { λ s t same n. ap (λ z. state_of z n) (sym same) };

    fn known(&self) -> u32 {
        self.table.known()
    }

    fn conflicts(&self) -> u32 {
        self.table.conflicts()
    }

    fn first_past(&self, last: u32) -> Option<u32> {
        self.table.first_past(last)
    }
}

/// The list of a table's listing, where one block can not be read any more, and what came of it.
fn listed(
    alloc: Global,
    table: &BlockTable,
    broken: u32,
) -> Result<(String, Result<(), PrintError>), Fail> {
    let Listing {
        last,
        profile,
        volume,
        nodes,
        ..
    } = list_volume_by(alloc, table, LAST, Profile::Strict)?;
    let blocks = Copied { table, broken };
    let listing = Listing {
        table: &blocks,
        last,
        profile,
        volume,
        nodes,
    };
    let mut text = Writer::new(Vec::new(alloc));
    let outcome = write_listing_by(alloc, &listing, ALL, &mut text);
    Ok((String::from_utf8(text.into_inner())?, outcome))
}

/// The list is the same by blocks that are copied as by blocks that are lent.
#[test]
fn copies_are_listed_the_same(rt: HostRuntime) -> Result<(), Fail> {
    let alloc = rt.alloc();
    for &(unread, expected) in &UNREAD {
        let table = Disc::type1(alloc)?.known_but(alloc, unread)?;
        let (text, outcome) = listed(alloc, &table, u32::MAX)?;
        assert_case(&rt, outcome == Ok(()), expected);
        assert_text(&rt, text, expected);
    }
    Ok(())
}

/// An entry that can not be read any more, of the file A or B, ends the list, and is told as such: it is not one that is not known. The bytes of the files
/// are not read.
#[test]
fn a_failed_read_ends_the_list(rt: HostRuntime) -> Result<(), Fail> {
    let alloc = rt.alloc();
    let (unread, expected) = UNREAD[1];
    let table = Disc::type1(alloc)?.known_but(alloc, unread)?;
    for broken in [275, 276] {
        let (text, outcome) = listed(alloc, &table, broken)?;
        assert_case(&rt, outcome == Err(PrintError::Unread), broken);
        assert_case(&rt, expected.starts_with(text.as_str()), broken);
    }
    for broken in [274, 277, 279] {
        let (text, outcome) = listed(alloc, &table, broken)?;
        assert_case(&rt, outcome == Ok(()), broken);
        assert_text(&rt, text, expected);
    }
    Ok(())
}

/// What is printed of a survey.
#[derive(Clone, Copy, Debug, PartialEq, Eq)]
enum Shown {
    Report,
    ReportJson,
    Summary,
    SummaryJson,
    Page,
}

/// All of them.
const SHOWN: [Shown; 5] = [
    Shown::Report,
    Shown::ReportJson,
    Shown::Summary,
    Shown::SummaryJson,
    Shown::Page,
];

/// The arguments of `summary --last 600 disc.tab`.
const GIVEN: Given<'static> = Given {
    files: &["disc.tab"],
    parts: &[],
    size: None,
    force: false,
};

/// The page has no title.
const CALLED: Called<'static> = Called {
    title: None,
    out: "p.html",
};

/// Whether the volume of a table's survey is lawful, and what is lost of it.
pub(crate) fn judged(alloc: Global, survey: &Survey<'_>) -> Result<Verdict, Fail> {
    let lawfulness = lawfulness(alloc, survey.table, LAST, Profile::Strict)?;
    match tally_lost(alloc, survey) {
        Ok((lost, found)) => Ok(Verdict {
            lawfulness,
            lost,
            found,
        }),
        Err(_) => Err(Fail::from(AllocError)),
    }
}

/// Prints it by any store.
fn print_by<B: ReportStore, W: Sink>(
    alloc: Global,
    survey: &Survey<'_, B>,
    answer: &Verdict,
    shown: Shown,
    sink: &mut W,
) -> Result<(), PrintError> {
    match shown {
        Shown::Report => write_survey_by(alloc, survey, sink),
        Shown::ReportJson => write_json_by(alloc, survey, sink),
        Shown::Summary => write_summary_by(alloc, &GIVEN, survey, answer, sink),
        Shown::SummaryJson => write_summary_json_by(alloc, survey, answer, sink),
        Shown::Page => write_page_by(alloc, &GIVEN, &CALLED, survey, answer, sink),
    }
}

/// What is printed of a table's survey where one block can not be read any more, and what came of it.
fn reported(
    alloc: Global,
    table: &BlockTable,
    broken: u32,
    shown: Shown,
) -> Result<(String, Result<(), PrintError>), Fail> {
    let survey = survey_volume(alloc, table, LAST)?;
    let answer = judged(alloc, &survey)?;
    let Survey {
        last,
        profile,
        volume,
        nodes,
        unnamed,
        reread,
        ..
    } = survey;
    let blocks = Copied { table, broken };
    let survey = Survey {
        table: &blocks,
        last,
        profile,
        volume,
        nodes,
        unnamed,
        reread,
    };
    let mut text = Writer::new(Vec::new(alloc));
    let outcome = print_by(alloc, &survey, &answer, shown, &mut text);
    Ok((String::from_utf8(text.into_inner())?, outcome))
}

/// What is printed of a table's survey.
fn told(alloc: Global, table: &BlockTable, shown: Shown) -> Result<String, Fail> {
    let survey = survey_volume(alloc, table, LAST)?;
    let answer = judged(alloc, &survey)?;
    let mut text = Writer::new(Vec::new(alloc));
    match shown {
        Shown::Report => write_survey(alloc, &survey, &mut text)?,
        Shown::ReportJson => write_json(alloc, &survey, &mut text)?,
        Shown::Summary => write_summary_by(alloc, &GIVEN, &survey, &answer, &mut text)?,
        Shown::SummaryJson => write_summary_json_by(alloc, &survey, &answer, &mut text)?,
        Shown::Page => write_page_by(alloc, &GIVEN, &CALLED, &survey, &answer, &mut text)?,
    }
    Ok(String::from_utf8(text.into_inner())?)
}

/// A report, a summary and a page are printed of blocks that are copied as of blocks that are lent. The entry of the torn file A, block 275, is read for what it
/// lacks: where it can not be read any more, a beginning is out, and that is told as such.
#[test]
fn reports_of_stores_are_printed(rt: HostRuntime) -> Result<(), Fail> {
    let alloc = rt.alloc();
    let table = Disc::type1(alloc)?.known_but(alloc, &[278])?;
    for &shown in &SHOWN {
        let expected = told(alloc, &table, shown)?;
        let (text, outcome) = reported(alloc, &table, u32::MAX, shown)?;
        assert_case(&rt, outcome == Ok(()), shown as u8);
        assert_text(&rt, text, expected.as_str());
        let (text, outcome) = reported(alloc, &table, 275, shown)?;
        assert_case(&rt, outcome == Err(PrintError::Unread), shown as u8);
        assert_case(
            &rt,
            expected.as_str().starts_with(text.as_str()),
            shown as u8,
        );
    }
    Ok(())
}

/// A survey of any store is listed as one of a table.
#[test]
fn surveys_of_stores_are_listed(rt: HostRuntime) -> Result<(), Fail> {
    let alloc = rt.alloc();
    for &(unread, expected) in &UNREAD {
        let table = Disc::type1(alloc)?.known_but(alloc, unread)?;
        let Survey {
            last,
            profile,
            volume,
            nodes,
            unnamed,
            reread,
            ..
        } = survey_volume(alloc, &table, LAST)?;
        let blocks = Copied {
            table: &table,
            broken: u32::MAX,
        };
        let survey = Survey {
            table: &blocks,
            last,
            profile,
            volume,
            nodes,
            unnamed,
            reread,
        };
        let mut text = Writer::new(Vec::new(alloc));
        write_list_by(alloc, &survey, ALL, &mut text)?;
        assert_text(&rt, String::from_utf8(text.into_inner())?, expected);
    }
    Ok(())
}
