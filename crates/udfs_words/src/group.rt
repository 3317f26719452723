//! Whole groups of blocks in the mapfile of `reread`, by the number that `--group` gives.

ghost use Rattle.std.specs.Prelude.{◌≡◌, ◌↔◌, MatchOption, Some};
ghost use Rattle.clap.specs.Matches.{found_of};
ghost use Rattle.udfs_words.specs.Asking.{IsGoodGroup, IsGroup, IsGroupFault, blocks_in, number_of};

use crate::words::{GROUP, MAPFILE};
use clap::ArgMatches;
use std::fmt;

/// How many blocks a group has that a drive reads as one.
#[derive(Clone, Copy, Debug, PartialEq, Eq)]
pub enum GroupSize {
    Two,
    Four,
    Eight,
    Sixteen,
    ThirtyTwo,
}

impl GroupSize {
    /// The number of blocks.
    pub fn blocks(self) -> u32
        ensures { result ≡ blocks_in self }
    {
        match self {
            GroupSize::Two => 2,
            GroupSize::Four => 4,
            GroupSize::Eight => 8,
            GroupSize::Sixteen => 16,
            GroupSize::ThirtyTwo => 32,
        }
    }
}

/// What is wrong with `--group`.
#[derive(Clone, Copy)]
pub enum GroupFault<'a> {
    /// The value, as it was given, is not the size of a group.
    Size(&'a str),
    /// There is no mapfile to write.
    NoMapfile,
}

/// In the wording that clap uses for other arguments.
impl<'a> fmt::Display for GroupFault<'a> {
    fn fmt<W: fmt::Write>(&self, f: &mut fmt::Formatter<W>) -> fmt::Result {
        match self {
            GroupFault::Size(text) => write!(
                f,
                "invalid value '{text}' for '--group <G>'\n  [possible values: 2, 4, 8, 16, 32]"
            ),
            GroupFault::NoMapfile => f.write_str(
                "the following required arguments were not provided:\n  --mapfile <FILE>",
            ),
        }
    }
}

/// The size of a group by its number.
#[tactic(auto, using(crate::proofs::GroupLemmas::that_size, crate::proofs::GroupLemmas::no_size))]
fn size_by(number: &str) -> Option<GroupSize>
    ensures { (size : GroupSize) → (result ≡ Some size) ↔ (number.now ≡ number_of size) }
{
    match number {
        "2" => Some(GroupSize::Two),
        "4" => Some(GroupSize::Four),
        "8" => Some(GroupSize::Eight),
        "16" => Some(GroupSize::Sixteen),
        "32" => Some(GroupSize::ThirtyTwo),
        _ => None,
    }
}

/// What is wrong with `--group`, if something is: its value is not the size of a group, or there is no `--mapfile`.
pub fn group_fault<'a>(words: &ArgMatches<'a>) -> Option<GroupFault<'a>>
    ensures { MatchOption result (IsGoodGroup (found_of words.now)) (IsGroupFault (found_of words.now)) }
{
    let Some(number) = words.get_str(GROUP) else {
        return None;
    };
    if size_by(number).is_none() {
        return Some(GroupFault::Size(number));
    }
    if !words.contains_id(MAPFILE) {
        return Some(GroupFault::NoMapfile);
    }
    None
}

/// The size of the groups whose number `--group` gives.
pub fn asked_group(words: &ArgMatches<'_>) -> Option<GroupSize>
    ensures { IsGroup (found_of words.now) result }
{
    match words.get_str(GROUP) {
        Some(number) => size_by(number),
        None => None,
    }
}
