//! Numbers in rising order.

ghost use Rattle.std.specs.Prelude.{◌≡◌};
ghost use Rattle.udfs_lattice.specs.Volumes.{ascending};

/// Sorts the numbers, and keeps each once. It takes no memory.
pub(crate) fn sort_once(numbers: &mut Vec<u32>)
    ensures { numbers.new.items ≡ ascending numbers.old.items }
{
    numbers.sort_unstable();
    numbers.dedup();
}
