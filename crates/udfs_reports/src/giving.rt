//! What was given to a command, as the commands that it names repeat it.

ghost use Rattle.std.specs.Prelude.{◌≡◌};
ghost use Rattle.udfs_overview.specs.Repeating.{given_now};
ghost use Rattle.udfs_reports.specs.Giving.{given_by};

use udfs_overview::Given;
use udfs_words::request::VolumeSource;

/// The arguments by which the disc of a volume is read, where its size was given so.
pub fn given_by<'a>(volume: &'a VolumeSource<'_>, size: Option<&'a str>) -> Given<'a>
    ensures { given_now result ≡ given_by volume.now size.entry }
{
    Given {
        files: volume.inputs.files.as_slice(),
        parts: volume.inputs.parts.as_slice(),
        size,
        force: volume.force,
    }
}
