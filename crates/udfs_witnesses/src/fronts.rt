//! Numbers that rise.

ghost use Rattle.std.specs.Prelude.{◌≡◌, take};
ghost use Rattle.udfs_volume.specs.Seen.{IsRising};

/// How many of these numbers rise, from the first on.
fn count_rising(numbers: &[u32]) -> usize
    ensures rises { IsRising (take result numbers.now) }
    ensures all { IsRising numbers.now → take result numbers.now ≡ numbers.now }
{
    let mut next: u64 = 0;
    for i in 0..numbers.len() {
        let number = u64::from(numbers[i]);
        if number < next {
            return i;
        }
        next = number + 1;
    }
    numbers.len()
}

/// These numbers up to the first that is not above the one before it: all of them where they rise. So what goes by rising numbers needs no word of the store that
/// the numbers came from.
pub fn rising_front(numbers: Vec<u32>) -> Vec<u32>
    ensures rises { IsRising result.items }
    ensures all { IsRising numbers.items → result.items ≡ numbers.items }
{
    let mut front = numbers;
    let count = count_rising(&front);
    front.truncate(count);
    front
}
