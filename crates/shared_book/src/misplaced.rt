// What one list of receipts shows by itself.
ghost use Rattle.std.specs.Prelude.{◌<◌, ◌≤◌, All, Any, Contains, MatchOption};
ghost use Rattle.shared_book.specs.Held.{all_lists, lists};
ghost use Rattle.shared_book.specs.Inner.Misplaced.{IsMisplaced, IsWellPlaced};
ghost use Rattle.shared_book.specs.Inner.Seat.{line_of, lines_in, lines_of};
ghost use Rattle.shared_book.specs.Receipts.{Falls, IsRising, LetGoAbove, LetGoUpTo};

use crate::numbers::{Numbers, is_fall};
use crate::origin::Origin;
use crate::pile::Pile;
use crate::receipt_list::ReceiptList;
use crate::seat::Seat;

/// A number that isn't above the one before it in a list of these seats, or that is above `last` and whose event a list
/// has let go of, if there is one.
pub(crate) fn misplaced<L: Origin>(seats: &[Seat<L>], last: u64) -> Option<u64>
    ensures { MatchOption result
        (All (IsWellPlaced last) (all_lists seats.now)) (λ n. Any (IsMisplaced last n) (all_lists seats.now)) }
{
    for seat in seats {
        if let Some(number) = misplaced_in_seat(seat, last) {
            return Some(number);
        }
    }
    None
}

fn misplaced_in_seat<L: Origin>(seat: &Seat<L>, last: u64) -> Option<u64>
    ensures { MatchOption result
        (All (IsWellPlaced last) (lists seat.now)) (λ n. Any (IsMisplaced last n) (lists seat.now)) }
{
    match misplaced_in_list(&seat.lines.own, last) {
        Some(number) => Some(number),
        None => misplaced_in_lists(seat.lines.joined.as_slice(), last),
    }
}

fn misplaced_in_lists(piles: &[Pile], last: u64) -> Option<u64>
    ensures { MatchOption result
        (All (IsWellPlaced last) (lines_in piles.now)) (λ n. Any (IsMisplaced last n) (lines_in piles.now)) }
{
    for pile in piles {
        if let Some(number) = misplaced_in_pile(pile, last) {
            return Some(number);
        }
    }
    None
}

fn misplaced_in_pile(pile: &Pile, last: u64) -> Option<u64>
    ensures { MatchOption result
        (All (IsWellPlaced last) (lines_of pile.now)) (λ n. Any (IsMisplaced last n) (lines_of pile.now)) }
{
    match pile {
        Pile::Whole(list) => misplaced_in_list(list, last),
        Pile::Short(lists) => lists.misplaced(last),
    }
}

fn misplaced_in_list(list: &ReceiptList, last: u64) -> Option<u64>
    ensures { MatchOption result
        (IsWellPlaced last (line_of list.now)) (λ n. IsMisplaced last n (line_of list.now)) }
{
    match fall(list) {
        Some(number) => Some(number),
        None => let_go_above(list, last),
    }
}

fn fall(list: &ReceiptList) -> Option<u64>
    ensures { MatchOption result (IsRising (line_of list.now)) (λ n. Falls n (line_of list.now)) }
{
    let mut before = None;
    let mut left = list.let_go.iter();
    while let Some(number) = left.next() {
        if is_fall(before, number) {
            return Some(number);
        }
        before = Some(number);
    }
    for receipt in &list.held {
        if is_fall(before, receipt.number) {
            return Some(receipt.number);
        }
        before = Some(receipt.number);
    }
    None
}

fn let_go_above(list: &ReceiptList, last: u64) -> Option<u64>
    ensures { MatchOption result (LetGoUpTo last (line_of list.now)) (λ n. LetGoAbove last n (line_of list.now)) }
{
    above(&list.let_go, last)
}

fn above(numbers: &Numbers, last: u64) -> Option<u64>
    ensures { MatchOption result (All (λ n. n ≤ last) numbers.now) (λ n. Contains numbers.now n × (last < n)) }
{
    let mut left = numbers.iter();
    while let Some(number) = left.next() {
        if number > last {
            return Some(number);
        }
    }
    None
}
