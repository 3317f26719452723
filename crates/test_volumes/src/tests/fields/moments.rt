//! Moments of stamps.

use crate::tests::assert_same;
use jiff_tz::TimeZone;
use udfs_host_fs::{Times, Zone, moment_in};
use udfs_osta::Stamp;

/// `date -u -d 2004-07-01T12:30:45 +%s` is 1088685045.
#[test]
fn utc_is_its_own_moment(rt: HostRuntime) {
    let stamp = Stamp::Utc(1_088_685_045_123_456);
    assert_same(
        &rt,
        moment_in(&TimeZone::UTC, stamp),
        Some(1_088_685_045_123_456),
    );
}

/// The stamps of the year 1970's first second, and of the last microsecond before.
#[test]
fn none_before_1970(rt: HostRuntime) {
    assert_same(&rt, moment_in(&TimeZone::UTC, Stamp::Utc(0)), Some(0));
    assert_same(&rt, moment_in(&TimeZone::UTC, Stamp::Utc(-1)), None);
    assert_same(&rt, moment_in(&TimeZone::UTC, Stamp::Local(-1)), None);
    assert_same(&rt, moment_in(&TimeZone::UTC, Stamp::Invalid), None);
}

/// `TZ=CET-1CEST,M3.5.0,M10.5.0/3 date -d '2004-07-01 12:30:45' +%s` is 1088677845, and of 2004-01-15 1074166245.
#[test]
fn local_by_the_zone(rt: HostRuntime) {
    let Some(zone) = Zone::of_rule("CET-1CEST,M3.5.0,M10.5.0/3") else {
        panic!(rt; "no zone")
    };
    let summer = Stamp::Local(1_088_685_045_000_000);
    assert_same(&rt, zone.moment(summer), Some(1_088_677_845_000_000));
    let winter = Stamp::Local(1_074_169_845_000_007);
    assert_same(&rt, zone.moment(winter), Some(1_074_166_245_000_007));
}

/// Nothing is kept before it is asked for.
#[test]
fn kept_when_asked_for(rt: HostRuntime) {
    let times = Times::new();
    assert!(rt; !times.are_kept());
    assert_same(&rt, times.moment(Stamp::Utc(5)), None);
    times.keep(Zone::Utc);
    assert!(rt; times.are_kept());
    assert_same(&rt, times.moment(Stamp::Utc(5)), Some(5));
    assert!(rt; !times.are_lacking());
    times.lack();
    assert!(rt; times.are_lacking());
}
