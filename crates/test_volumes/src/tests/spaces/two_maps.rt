//! A volume with two maps, in either order.

use super::said::{Of, Place, check_places};
use crate::tests::rows::{Asked, Row, check_at};
use crate::tests::starts::Start;
use std::test::Fail;
use udfs_samples::LAST;
use udfs_volume::Profile;

/// The blocks that are known alone: a copy of the sparing table is needed.
static KNOWN: [Row; 2] = [
    (&[], &[256, 32, 33, 34, 35], "holes 100 200"),
    (&[], &[256, 32, 33, 34, 35, 200], "ok 272"),
];

static PLACES: [Place; 13] = [
    (Of::Maps, 0, 0, 0, "2"),
    (Of::Length, 0, 0, 0, "100"),
    (Of::Length, 1, 0, 0, "100"),
    (Of::Place, 0, 0, 0, "Some(272)"),
    (Of::Place, 0, 4, 0, "Some(276)"),
    (Of::Place, 0, 99, 0, "Some(371)"),
    (Of::Place, 0, 100, 0, "None"),
    (Of::Place, 1, 0, 0, "Some(520)"),
    (Of::Place, 1, 31, 0, "Some(551)"),
    (Of::Place, 1, 32, 0, "Some(432)"),
    (Of::Place, 1, 99, 0, "Some(499)"),
    (Of::Place, 1, 100, 0, "None"),
    (Of::Place, 2, 0, 0, "None"),
];

static SPARABLE_FIRST: [Place; 5] = [
    (Of::Maps, 0, 0, 0, "2"),
    (Of::Place, 0, 0, 0, "Some(520)"),
    (Of::Place, 0, 32, 0, "Some(432)"),
    (Of::Place, 1, 0, 0, "Some(272)"),
    (Of::Place, 1, 99, 0, "Some(371)"),
];

#[test]
fn places_of_both(rt: HostRuntime) -> Result<(), Fail> {
    let alloc = rt.alloc();
    check_at(
        &rt,
        rt.alloc(),
        Profile::Strict,
        Start::TwoMaps,
        Asked::Space,
        &KNOWN,
    )?;
    let disc = Start::TwoMaps.changed(alloc, &[])?;
    let table = disc.known_at(alloc, &[256, 32, 33, 34, 35, 200])?;
    check_places(&rt, rt.alloc(), &table, LAST, Profile::Strict, &PLACES)?;
    let disc = Start::SparableFirst.changed(alloc, &[])?;
    let table = disc.known_but(alloc, &[])?;
    check_places(
        &rt,
        rt.alloc(),
        &table,
        LAST,
        Profile::Strict,
        &SPARABLE_FIRST,
    )
}
