// Lists of receipts that are put together.
ghost use Rattle.std.specs.Prelude.{◌≡◌, ◌≤◌, ◌+◌, ◌<◌, ◌++◌, IfErr, IfOk, map, vec_capacity, vec_len};
ghost use Rattle.shared_book.specs.Inner.Seat.{free_line, lines_in, lines_of};

use crate::receipt_list::ReceiptList;
use crate::short_lists::ShortLists;

/// One list of receipts; or several of up to 255 receipts each, whose events are free, so that only their numbers are
/// kept. Short connections leave such lists.
#[derive(Drop)]
pub(crate) enum Pile {
    Whole(ReceiptList),
    Short(ShortLists),
}

/// Adds a pile to these, on top of the last one where both are of short lists. Takes no memory for the lists.
pub(crate) fn add_pile(piles: &mut Vec<Pile>, pile: Pile)
    requires { vec_len piles.old < vec_capacity piles.old }
    ensures items { lines_in piles.new.items ≡ lines_in piles.old.items ++ lines_of pile }
    ensures room { vec_capacity piles.old ≤ vec_capacity piles.new }
    ensures length { vec_len piles.new ≤ vec_len piles.old + 1 }
{
    match piles.pop() {
        Some(last) => add_both(piles, last, pile),
        None => push(piles, pile),
    }
}

// Adds two piles, put together where both are of short lists, and there is memory for that.
fn add_both(piles: &mut Vec<Pile>, first: Pile, second: Pile)
    requires { vec_len piles.old + 2 ≤ vec_capacity piles.old }
    ensures items { lines_in piles.new.items ≡ lines_in piles.old.items ++ (lines_of first ++ lines_of second) }
    ensures room { vec_capacity piles.old ≤ vec_capacity piles.new }
    ensures length { vec_len piles.new ≤ vec_len piles.old + 2 }
{
    match (short_lists(first), short_lists(second)) {
        (Ok(lists), Ok(more)) => add_short(piles, lists, more),
        (Ok(lists), Err(second)) => push_both(piles, Pile::Short(lists), second),
        (Err(first), Ok(more)) => push_both(piles, first, Pile::Short(more)),
        (Err(first), Err(second)) => push_both(piles, first, second),
    }
}

fn add_short(piles: &mut Vec<Pile>, lists: ShortLists, more: ShortLists)
    requires { vec_len piles.old + 2 ≤ vec_capacity piles.old }
    ensures items { lines_in piles.new.items
        ≡ lines_in piles.old.items ++ (map free_line lists ++ map free_line more) }
    ensures room { vec_capacity piles.old ≤ vec_capacity piles.new }
    ensures length { vec_len piles.new ≤ vec_len piles.old + 2 }
{
    let mut all = lists;
    match all.append(&more) {
        Ok(()) => push(piles, Pile::Short(all)),
        Err(_error) => push_both(piles, Pile::Short(all), Pile::Short(more)),
    }
}

fn push_both(piles: &mut Vec<Pile>, first: Pile, second: Pile)
    requires { vec_len piles.old + 2 ≤ vec_capacity piles.old }
    ensures items { lines_in piles.new.items ≡ lines_in piles.old.items ++ (lines_of first ++ lines_of second) }
    ensures room { vec_capacity piles.old ≤ vec_capacity piles.new }
    ensures length { vec_len piles.new ≤ vec_len piles.old + 2 }
{
    push(piles, first);
    push(piles, second);
}

// Adds a pile beside the others. Takes no memory.
fn push(piles: &mut Vec<Pile>, pile: Pile)
    requires { vec_len piles.old < vec_capacity piles.old }
    ensures items { lines_in piles.new.items ≡ lines_in piles.old.items ++ lines_of pile }
    ensures room { vec_capacity piles.old ≤ vec_capacity piles.new }
    ensures length { vec_len piles.new ≡ vec_len piles.old + 1 }
{
    let Ok(()) = piles.push(pile) else {
        unreachable!()
    };
}

// The lists of a pile of short lists; or the pile.
fn short_lists(pile: Pile) -> Result<ShortLists, Pile>
    ensures ok { IfOk result (λ lists. map free_line lists ≡ lines_of pile) }
    ensures err { IfErr result (λ same. lines_of same ≡ lines_of pile) }
{
    match pile {
        Pile::Short(lists) => Ok(lists),
        Pile::Whole(list) => match list.into_short() {
            Ok(lists) => Ok(lists),
            Err(list) => Err(Pile::Whole(list)),
        },
    }
}
