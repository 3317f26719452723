//! The zone of a clock.

ghost use Rattle.jiff_tz.specs.declared.timezone.TimeZone.{TimeZone};
ghost use Rattle.udfs_host_fs.specs.Moments.{IsClockOf, IsMomentOf};

use crate::moments::moment_in;
use jiff_core::Error;
use jiff_tz::{SystemTimeZone, TimeZone, Tzif, posix};
use std::alloc::AllocError;
use std::fs;
use std::io::{ErrorKind, Read};
use std::rt::{Env, Files};
use udfs_osta::Stamp;

/// Where systems keep the tables of zones by their names.
const TABLES: &str = "/usr/share/zoneinfo/";

/// The longest table that is read, in bytes. Those of the Time Zone Database have a few kilobytes.
const LONGEST: u64 = 1 << 20;

/// The zone of a clock: how far it is ahead of UTC, and when that changes.
#[derive(Debug, Drop)]
pub enum Zone {
    /// UTC.
    Utc,
    /// A rule, as the environment's `TZ` may have it.
    Rule(posix::TimeZone),
    /// A table, as a file has it.
    Table(Tzif),
}

/// The zone of this table, or UTC for `None`.
fn table_or_utc(table: Option<Tzif>) -> Zone {
    match table {
        Some(table) => Zone::Table(table),
        None => Zone::Utc,
    }
}

/// The bytes of a table, if the file is there and can be read.
fn read_table<R: Files + AllocGlobal>(rt: &R, path: &str) -> Result<Option<Vec<u8>>, AllocError> {
    match fs::metadata(rt, path) {
        Ok(about) if about.is_file() => {}
        _ => return Ok(None),
    }
    let Ok(file) = fs::open(rt, path) else {
        return Ok(None);
    };
    let mut bytes = Vec::new(rt.alloc());
    match file.take(LONGEST).read_to_end(&mut bytes) {
        Ok(_) => Ok(Some(bytes)),
        Err(error) if error.kind() == ErrorKind::OutOfMemory => Err(AllocError),
        Err(_) => Ok(None),
    }
}

/// The table of the zone of this name, if the machine has one.
fn named<R: Files + AllocGlobal>(rt: &R, name: &str) -> Result<Option<Tzif>, AllocError> {
    let path = format!(in rt.alloc(); "{TABLES}{name}")?;
    let Some(bytes) = read_table(rt, path.as_str())? else {
        return Ok(None);
    };
    match Tzif::parse(rt.alloc(), None, bytes.as_slice()) {
        Ok(table) => Ok(Some(table)),
        Err(Error::OutOfMemory) => Err(AllocError),
        Err(_) => Ok(None),
    }
}

impl Zone {
    /// The zone of a rule as POSIX writes it, as `CET-1CEST,M3.5.0,M10.5.0/3`, if it is one.
    pub fn of_rule(text: &str) -> Option<Zone> {
        match posix::TimeZone::parse(text.as_bytes()) {
            Ok(rule) => Some(Zone::Rule(rule)),
            Err(_) => None,
        }
    }

    /// The zone of the machine's clock: that of the environment's `TZ`, and else that of `/etc/localtime`; UTC where
    /// neither gives one, as other programs have it.
    ///
    /// # Errors
    ///
    /// `AllocError` if memory ran out.
    pub fn of_machine<R: Env + Files + AllocGlobal>(rt: &R) -> Result<Zone, AllocError> {
        match SystemTimeZone::read(rt) {
            Ok(SystemTimeZone::Posix(rule)) => Ok(Zone::Rule(rule)),
            Ok(SystemTimeZone::Tzif(table)) => Ok(Zone::Table(table)),
            Ok(SystemTimeZone::Name { name, file, .. }) => {
                match named(rt, name.as_str())? {
                    Some(table) => Ok(Zone::Table(table)),
                    None => Ok(table_or_utc(file)),
                }
            }
            Err(Error::OutOfMemory) => Err(AllocError),
            Ok(SystemTimeZone::Utc) | Err(_) => Ok(Zone::Utc),
        }
    }

    /// The zone, as the calendar takes it.
    pub fn as_time_zone(&self) -> TimeZone<'_>
        ensures { IsClockOf self.now result }
    {
        match self {
            Zone::Utc => TimeZone::UTC,
            Zone::Rule(rule) => TimeZone::Posix(*rule),
            Zone::Table(table) => TimeZone::Tzif(table),
        }
    }

    /// The moment of a stamp in microseconds since 1970-01-01T00:00:00Z, as [`moment_in`] has it.
    pub fn moment(&self, stamp: Stamp) -> Option<u64>
        ensures { (clock : TimeZone) × IsClockOf self.now clock × IsMomentOf clock stamp result }
    {
        moment_in(&self.as_time_zone(), stamp)
    }
}
