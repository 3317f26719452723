//! Sizes as they are given: a number, and a unit after it.

ghost use Rattle.std.specs.Prelude.{◌<◌, ℕ, MatchOption};
ghost use Rattle.udfs_words.specs.Sizes.{IsCount, IsSize};

/// The size of a text that is a number of such units, each of so many bytes, if it is one, and fits in 64 bits.
fn count_in(text: &str, unit: &str, bytes: u64) -> Option<u64>
    requires { 0 < bytes }
    ensures { MatchOption result ((size : ℕ) → ¬ IsCount text.now unit.now bytes size) (IsCount text.now unit.now bytes) }
{
    let Some(number) = text.strip_suffix(unit) else {
        return None;
    };
    let Ok(count) = number.parse::<u64>() else {
        return None;
    };
    count.checked_mul(bytes)
}

/// The size in bytes that a text gives: a decimal number, and after it nothing, `s` for blocks of 2048 bytes, `k`, `M` or `G` for powers of 1000, or `Ki`, `Mi`
/// or `Gi` for powers of 1024. Any other text gives none, nor does one whose size does not fit in 64 bits.
pub fn size_in(text: &str) -> Option<u64>
    ensures { MatchOption result ((size : ℕ) → ¬ IsSize text.now size) (IsSize text.now) }
{
    count_in(text, "", 1)
        .or(count_in(text, "s", 2048))
        .or(count_in(text, "k", 1000))
        .or(count_in(text, "M", 1_000_000))
        .or(count_in(text, "G", 1_000_000_000))
        .or(count_in(text, "Ki", 1024))
        .or(count_in(text, "Mi", 1_048_576))
        .or(count_in(text, "Gi", 1_073_741_824))
}
