//! The numbers of calls that are to fail.

ghost use Rattle.std.specs.Prelude.{◌≡◌};
ghost use Rattle.std.specs.Ordering.{nat_cmp};
ghost use Rattle.std.specs.FinSet as sets;

use std::collections::VecDeque;

/// Whether the number is one of those.
pub(crate) fn is_among(numbers: &VecDeque<u64>, number: u64) -> bool
    ensures { result ≡ sets.contains (sets.from_list {R = nat_cmp} numbers.now.items) number }
{
    numbers.contains(&number)
}
