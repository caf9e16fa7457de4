// Lists of numbers, several in one block.
ghost use Rattle.std.specs.Prelude.{◌≡◌, ◌<◌, ◌≤◌, ◌∷◌, ◌++◌, [], All, Any};
ghost use Rattle.std.specs.Prelude.{IfErr, IfNone, IfOk, IfSome, MatchOption, OnErr, OnOk, drop, length, map, take};
ghost use Rattle.std.specs.List.{concat};
ghost use Rattle.shared_book.specs.Inner.Misplaced.{IsMisplaced, IsWellPlaced};
ghost use Rattle.shared_book.specs.Inner.Seat.{free_line};

use crate::numbers::{Numbers, NumbersLeft, is_fall};
use std::alloc::{AllocError, Global};
use std::marker::Model;

/// Lists of 1 to 255 numbers each, one after another in one block.
#[derive(Drop)]
pub(crate) struct ShortLists {
    // How many numbers each list has.
    sizes: Vec<u8>,
    // Those of the first list, then those of the second, and so on.
    numbers: Numbers,
}

impl Model for ShortLists {
    ghost use Rattle.std.specs.Prelude.{ℕ, List};
    ghost use Rattle.shared_book.specs.Inner.ShortLists.{AreSizes, cut};

    ghost Value = { List (List ℕ) };

    ghost view = { λ s. cut s.sizes.items s.numbers };

    ghost invariant = { λ s. AreSizes s.sizes.items s.numbers };
}

impl ShortLists {
    /// One list, where it has 1 to 255 numbers and there is memory for its size; or its numbers.
    pub(crate) fn one(alloc: Global, numbers: Numbers) -> Result<ShortLists, Numbers>
        ensures ok { IfOk result (λ lists. lists ≡ numbers ∷ []) }
        ensures err { IfErr result (λ same. same ≡ numbers) }
    {
        match one_size(alloc, numbers.len()) {
            Some(sizes) => Ok(ShortLists { sizes, numbers }),
            None => Err(numbers),
        }
    }

    /// Does nothing. It tells a caller's proof that no list is empty.
    pub(crate) fn are_filled(&self)
        ensures { All (λ list. 0 < length list) self.now }
    {
        let _sizes = &self.sizes;
    }

    /// Adds other lists, all or none.
    pub(crate) fn append(&mut self, other: &ShortLists) -> Result<(), AllocError>
        ensures ok { OnOk result (self.new ≡ self.old ++ other.now) }
        ensures err { OnErr result (self.new ≡ self.old) }
    {
        self.sizes.reserve(other.sizes.len())?;
        self.numbers.append(&other.numbers)?;
        let Ok(()) = self.sizes.extend_from_slice(other.sizes.as_slice()) else {
            unreachable!()
        };
        Ok(())
    }

    /// Adds the numbers of all lists to numbers that aren't packed.
    pub(crate) fn add_to(&self, all: &mut Vec<u64>) -> Result<(), AllocError>
        ensures { OnOk result (all.new.items ≡ all.old.items ++ concat self.now) }
    {
        self.numbers.add_to(all)
    }

    /// A number that isn't above the one before it in its list, or that is above `last`, if there is one.
    pub(crate) fn misplaced(&self, last: u64) -> Option<u64>
        ensures { MatchOption result
            (All (IsWellPlaced last) (map free_line self.now))
            (λ n. Any (IsMisplaced last n) (map free_line self.now)) }
    {
        let mut left = self.numbers.iter();
        for size in &self.sizes {
            if let Some(number) = misplaced_in_next(&mut left, *size, last) {
                return Some(number);
            }
        }
        None
    }

    /// Frees the memory that they don't need.
    pub(crate) fn shrink(&mut self)
        ensures { self.new ≡ self.old }
    {
        self.sizes.shrink_to_fit();
        self.numbers.shrink();
    }
}

// The size of one list, where that is 1 to 255 and there is memory for it.
fn one_size(alloc: Global, len: usize) -> Option<Vec<u8>>
    ensures size { IfSome result (λ sizes. sizes.items ≡ len ∷ []) }
    ensures some { IfSome result (λ _. 0 < len) }
{
    let size = u8::try_from(len).ok()?;
    if size == 0 {
        return None;
    }
    let mut sizes = Vec::with_capacity(alloc, 1).ok()?;
    sizes.push_reserved(size);
    Some(sizes)
}

// Goes over the next list, which is of `size` numbers: one of them that isn't above the one before it in the list, or that
// is above `last`, if there is one.
fn misplaced_in_next(left: &mut NumbersLeft<'_>, size: u8, last: u64) -> Option<u64>
    requires { size ≤ length left.old }
    ensures list { MatchOption result
        (IsWellPlaced last (free_line (take size left.old)))
        (λ n. IsMisplaced last n (free_line (take size left.old))) }
    ensures left { IfNone result (left.new ≡ drop size left.old) }
{
    let mut before = None;
    for _ in 0..size {
        let Some(number) = left.next() else {
            unreachable!()
        };
        if number > last || is_fall(before, number) {
            return Some(number);
        }
        before = Some(number);
    }
    None
}
