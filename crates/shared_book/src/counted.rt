// Numbers of receipts, in their order.
ghost use Rattle.std.specs.Prelude.{◌≡◌, ◌+◌, ◌<◌, ◌^◌, length, MatchOption, IsPermutation};
ghost use Rattle.std.specs.List.{range_with_len};
ghost use Rattle.std.specs.List.Sorted.{IsNonDecreasing};
ghost use Rattle.shared_book.specs.Settled.{IsMiscounted};

/// The numbers in their order.
pub(crate) fn sorted_numbers(numbers: Vec<u64>) -> Vec<u64>
    ensures moved { IsPermutation numbers.items result.items }
    ensures sorted { IsNonDecreasing result.items }
{
    let mut numbers = numbers;
    numbers.sort_unstable();
    numbers
}

/// A number that isn't there once, or not at all, as it should be, where these are as many as those after `start`.
pub(crate) fn miscounted(numbers: &[u64], start: u64) -> Option<u64>
    requires sorted { IsNonDecreasing numbers.now }
    requires fits { start + length numbers.now < 2 ^ 64 }
    ensures { MatchOption result
        (numbers.now ≡ range_with_len (start + 1) (length numbers.now)) (IsMiscounted start numbers.now) }
{
    for i in 0..numbers.len() {
        let due = start + 1 + i as u64;
        let number = numbers[i];
        if number < due {
            return Some(number);
        }
        if number > due {
            return Some(due);
        }
    }
    None
}
