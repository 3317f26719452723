//! The rules by which the volume is read, by the name that `--profile` gives.

ghost use Rattle.std.specs.Prelude.{MatchOption};
ghost use Rattle.clap.specs.Matches.{found_of};
ghost use Rattle.udfs_words.specs.Asking.{IsKnownProfile, IsProfile, IsUnknownProfile};

use crate::words::PROFILE;
use clap::ArgMatches;
use udfs_volume::Profile;

/// The value of `--profile`, where it is not the name of a profile.
pub fn unknown_profile<'a>(words: &ArgMatches<'a>) -> Option<&'a str>
    ensures { MatchOption result (IsKnownProfile (found_of words.now)) (λ name. IsUnknownProfile (found_of words.now) name.now) }
{
    let Some(name) = words.get_str(PROFILE) else {
        return None;
    };
    if name == "strict" || name == "wide" {
        return None;
    }
    Some(name)
}

/// The profile that `--profile` names: `Wide` for `wide`, and else `Strict`.
pub fn asked_profile(words: &ArgMatches<'_>) -> Profile
    ensures { IsProfile (found_of words.now) result }
{
    match words.get_str(PROFILE) {
        Some(name) if name == "wide" => Profile::Wide,
        _ => Profile::Strict,
    }
}
