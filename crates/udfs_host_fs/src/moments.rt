//! Stamps as moments.

ghost use Rattle.std.specs.Prelude.{◌≡◌, ℤ, pos, neg_ℤ, ◌≤ℤ◌, ◌*ℤ◌, ◌-ℤ◌, MatchOption};
ghost use Rattle.jiff_core.specs.DateTime.{civil_nanos, IsCivilNanos};
ghost use Rattle.udfs_host_fs.specs.Moments.{IsLocalMoment, IsMomentOf, seconds_ahead, since_1970};

use jiff_core::civil::DateTime;
use jiff_tz::{AmbiguousOffset, TimeZone};
use udfs_osta::Stamp;

/// What a clock shows `micros` microseconds after it showed 1970-01-01T00:00:00, if the calendar goes so far.
fn shown_at(micros: i64) -> Option<DateTime>
    ensures { MatchOption result (¬ IsCivilNanos (micros *ℤ pos 1000)) (λ dt. (civil_nanos dt ≡ micros *ℤ pos 1000) × IsCivilNanos (micros *ℤ pos 1000)) }
{
    match DateTime::from_nanosecond(i128::from(micros) * 1000) {
        Ok(shown) => Some(shown),
        Err(_) => None,
    }
}

/// How far the clock of a zone is ahead of UTC when it shows this, in seconds. Where it shows it twice or never, it is
/// taken as it was before the clock was changed.
fn seconds_ahead(zone: &TimeZone<'_>, shown: DateTime) -> i32
    ensures value { result ≡ seconds_ahead zone.now shown }
    ensures low { neg_ℤ (pos 93_599) ≤ℤ result }
    ensures high { result ≤ℤ pos 93_599 }
{
    match zone.to_ambiguous_offset(shown) {
        AmbiguousOffset::Unambiguous { offset } => offset.seconds,
        AmbiguousOffset::Gap { before, .. } => before.seconds,
        AmbiguousOffset::Fold { before, .. } => before.seconds,
    }
}

/// The time in microseconds that a clock shows when another one, which is `seconds` seconds ahead of it, shows `micros`.
fn behind(micros: i64, seconds: i32) -> i64
    requires shown { IsCivilNanos (micros *ℤ pos 1000) }
    requires low { neg_ℤ (pos 93_599) ≤ℤ seconds }
    requires high { seconds ≤ℤ pos 93_599 }
    ensures { result ≡ micros -ℤ seconds *ℤ pos 1_000_000 }
{
    micros - i64::from(seconds) * 1_000_000
}

/// This number, if the moment is not before 1970.
fn since_1970(micros: i64) -> Option<u64>
    ensures { result ≡ since_1970 micros }
{
    if micros < 0 {
        return None;
    }
    Some(micros as u64)
}

/// The moment at which a clock in this zone shows the time `micros` microseconds after 1970-01-01T00:00:00. None before 1970, or
/// where the calendar does not go so far.
#[tactic(auto, unfolding(crate::specs::Moments::IsLocalMoment))]
fn local_moment(zone: &TimeZone<'_>, micros: i64) -> Option<u64>
    ensures { IsLocalMoment zone.now micros result }
{
    match shown_at(micros) {
        Some(shown) => since_1970(behind(micros, seconds_ahead(zone, shown))),
        None => None,
    }
}

/// The moment of a stamp in microseconds since 1970-01-01T00:00:00Z, where the clock of a local one is in this zone: the
/// moment at which it shows the time. None before 1970, for a local time outside the calendar, and for bytes that give no time.
/// It allocates no memory.
pub fn moment_in(zone: &TimeZone<'_>, stamp: Stamp) -> Option<u64>
    ensures { IsMomentOf zone.now stamp result }
{
    match stamp {
        Stamp::Utc(micros) => since_1970(micros),
        Stamp::Local(micros) => local_moment(zone, micros),
        Stamp::Invalid => None,
    }
}
