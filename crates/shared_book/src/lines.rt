// The receipts of a seat, and of those that it took over.
ghost use Rattle.std.specs.Prelude.{◌≡◌, ◌⊎◌, ◌+◌, ◌<◌, ◌≤◌, ◌∷◌, ◌++◌, [], vec_capacity, vec_len};
ghost use Rattle.std.specs.List.{AllZip};
ghost use Rattle.shared_book.specs.Held.{LetsGo, filled};
ghost use Rattle.shared_book.specs.Inner.Keeps.{Keeps};
ghost use Rattle.shared_book.specs.Inner.Seat.{line_of, lines_in, lines_of};

use crate::entered::Entered;
use crate::pile::{Pile, add_pile};
use crate::receipt_list::ReceiptList;
use std::alloc::Global;
use std::mem;

/// The receipts of a seat's own calls, and of the seats that it took over.
#[derive(Drop)]
pub(crate) struct Lines {
    pub(crate) own: ReceiptList,
    pub(crate) joined: Vec<Pile>,
    /// The greatest number up to which a checkpoint was said to have dropped events.
    pub(crate) told: u64,
    /// Up to which number no list holds an event.
    scanned: u64,
}

impl Lines {
    pub(crate) fn new(alloc: Global) -> Lines
        ensures own { line_of result.own ≡ record { let_go = []; held = [] } }
        ensures joined { result.joined.items ≡ [] }
        ensures told { result.told ≡ 0 }
    {
        Lines {
            own: ReceiptList::new(alloc),
            joined: Vec::new(alloc),
            told: 0,
            scanned: 0,
        }
    }

    /// Keeps the receipt of a call as the last of the own ones, once it has let go of events. Takes no memory for that.
    pub(crate) fn keep(&mut self, entered: Entered)
        requires { vec_len self.old.own.held < vec_capacity self.old.own.held }
        ensures told { (self.new.told ≡ self.old.told) ⊎ (self.new.told ≡ entered.base) }
        ensures own { Keeps self.new.told (line_of self.old.own) (line_of self.new.own) entered.receipt }
        ensures joined { AllZip (LetsGo (λ n. n ≤ self.new.told))
            (lines_in self.old.joined.items) (lines_in self.new.joined.items) }
    {
        let Entered {
            receipt,
            base,
            replaced: _replaced,
        } = entered;
        self.let_go(base, 0);
        let Ok(()) = self.own.held.push(receipt) else {
            unreachable!()
        };
    }

    /// Takes over the other lists, but the empty ones, and lets go of events. Takes no memory for the lists.
    pub(crate) fn take_over(&mut self, other: Lines)
        requires { vec_len self.old.joined + (vec_len other.joined + 1) ≤ vec_capacity self.old.joined }
        ensures told { (self.new.told ≡ self.old.told) ⊎ (self.new.told ≡ other.told) }
        ensures own { LetsGo (λ n. n ≤ self.new.told) (line_of self.old.own) (line_of self.new.own) }
        ensures joined { AllZip (LetsGo (λ n. n ≤ self.new.told))
            (lines_in self.old.joined.items ++ filled (line_of other.own ∷ lines_in other.joined.items))
            (lines_in self.new.joined.items) }
    {
        let mut other = other;
        other.let_go(self.told, 0);
        self.let_go(other.told, other.joined.len() + 1);
        self.scanned = lesser(self.scanned, other.scanned);
        let Lines {
            own,
            joined,
            told: _,
            scanned: _,
        } = other;
        add_lists(&mut self.joined, own, joined);
    }

    // Lets go of the events up to this number, or up to a greater one that it was told before, and leaves room for as
    // many piles more, if there was. What there is no memory for is tried again at the next call.
    fn let_go(&mut self, base: u64, room: usize)
        ensures told { (self.new.told ≡ self.old.told) ⊎ (self.new.told ≡ base) }
        ensures greater { base ≤ self.new.told }
        ensures own { LetsGo (λ n. n ≤ self.new.told) (line_of self.old.own) (line_of self.new.own) }
        ensures joined { AllZip (LetsGo (λ n. n ≤ self.new.told))
            (lines_in self.old.joined.items) (lines_in self.new.joined.items) }
        ensures own_capacity { vec_capacity self.new.own.held ≡ vec_capacity self.old.own.held }
        ensures own_length { vec_len self.new.own.held ≤ vec_len self.old.own.held }
        ensures length { vec_len self.new.joined ≤ vec_len self.old.joined }
        ensures room { vec_len self.old.joined + room ≤ vec_capacity self.old.joined
            → vec_len self.new.joined + room ≤ vec_capacity self.new.joined }
    {
        self.told = greater(self.told, base);
        if self.scanned >= self.told {
            return;
        }
        let is_own = self.own.let_go(self.told);
        let is_joined = let_all_go(&mut self.joined, self.told, room);
        if is_own && is_joined {
            self.scanned = self.told;
        }
    }
}

fn greater(a: u64, b: u64) -> u64
    ensures one { (result ≡ a) ⊎ (result ≡ b) }
    ensures least { a ≤ result }
    ensures greatest { b ≤ result }
{
    if a < b { b } else { a }
}

fn lesser(a: u64, b: u64) -> u64 {
    if a < b { a } else { b }
}

// Lets go of the events of each list up to this number, where there is memory for their numbers, and puts short lists
// together. Whether there was memory for all.
fn let_all_go(piles: &mut Vec<Pile>, last: u64, room: usize) -> bool
    ensures lines { AllZip (LetsGo (λ n. n ≤ last)) (lines_in piles.old.items) (lines_in piles.new.items) }
    ensures length { vec_len piles.new ≤ vec_len piles.old }
    ensures room { vec_len piles.old + room ≤ vec_capacity piles.old
        → vec_len piles.new + room ≤ vec_capacity piles.new }
{
    let alloc = *piles.allocator();
    let Some(capacity) = piles.len().checked_add(room) else {
        return false;
    };
    let Ok(empty) = Vec::with_capacity(alloc, capacity) else {
        return false;
    };
    let old = mem::replace(piles, Vec::new(alloc));
    let (mut left, is_done) = all_let_go(old, empty, last);
    left.shrink_to(left.len() + room);
    *piles = left;
    is_done
}

// The same, in a list that is empty and has room for the piles.
fn all_let_go(piles: Vec<Pile>, empty: Vec<Pile>, last: u64) -> (Vec<Pile>, bool)
    requires empty { empty.items ≡ [] }
    requires none { vec_len empty ≡ 0 }
    requires room { vec_len piles ≤ vec_capacity empty }
    ensures lines { AllZip (LetsGo (λ n. n ≤ last)) (lines_in piles.items) (lines_in result.0.items) }
    ensures length { vec_len result.0 ≤ vec_len piles }
    ensures capacity { vec_capacity empty ≤ vec_capacity result.0 }
{
    let mut left = empty;
    let mut is_done = true;
    for pile in piles {
        let (pile, is_free) = free(pile, last);
        add_pile(&mut left, pile);
        is_done = both(is_done, is_free);
    }
    (left, is_done)
}

fn both(a: bool, b: bool) -> bool {
    a && b
}

// The pile once it has let go of events. Whether there was memory for that.
fn free(pile: Pile, last: u64) -> (Pile, bool)
    ensures { AllZip (LetsGo (λ n. n ≤ last)) (lines_of pile) (lines_of result.0) }
{
    match pile {
        Pile::Whole(list) => {
            let mut list = list;
            let is_free = free_list(&mut list, last);
            (Pile::Whole(list), is_free)
        }
        Pile::Short(lists) => (Pile::Short(lists), true),
    }
}

// Lets go of the events of the list, and of its memory for receipts, where it holds none then.
fn free_list(list: &mut ReceiptList, last: u64) -> bool
    ensures { LetsGo (λ n. n ≤ last) (line_of list.old) (line_of list.new) }
{
    let is_done = list.let_go(last);
    list.shrink();
    is_done
}

// Adds a list to these, unless it is empty. Takes no memory for it.
fn add_list(piles: &mut Vec<Pile>, list: ReceiptList)
    requires { vec_len piles.old < vec_capacity piles.old }
    ensures items { lines_in piles.new.items ≡ lines_in piles.old.items ++ filled (line_of list ∷ []) }
    ensures room { vec_capacity piles.old ≤ vec_capacity piles.new }
    ensures length { vec_len piles.new ≤ vec_len piles.old + 1 }
{
    if list.len() == 0 {
        return;
    }
    let mut list = list;
    list.shrink();
    add_pile(piles, Pile::Whole(list));
}

// Adds the lists of a pile to these, but the empty ones.
fn add_filled(piles: &mut Vec<Pile>, pile: Pile)
    requires { vec_len piles.old < vec_capacity piles.old }
    ensures items { lines_in piles.new.items ≡ lines_in piles.old.items ++ filled (lines_of pile) }
    ensures room { vec_capacity piles.old ≤ vec_capacity piles.new }
    ensures length { vec_len piles.new ≤ vec_len piles.old + 1 }
{
    match pile {
        Pile::Whole(list) => add_list(piles, list),
        Pile::Short(lists) => {
            lists.are_filled();
            add_pile(piles, Pile::Short(lists))
        }
    }
}

// Adds a seat's lists to these, but the empty ones. Takes no memory for them.
fn add_lists(piles: &mut Vec<Pile>, own: ReceiptList, joined: Vec<Pile>)
    requires { vec_len piles.old + (vec_len joined + 1) ≤ vec_capacity piles.old }
    ensures { lines_in piles.new.items
        ≡ lines_in piles.old.items ++ filled (line_of own ∷ lines_in joined.items) }
{
    add_list(piles, own);
    for pile in joined {
        add_filled(piles, pile);
    }
}
