// The receipts of all seats beside a history, of whose calls they are.
ghost use Rattle.std.specs.Prelude.{◌≡◌, ◌+◌, ◌<◌, ◌^◌, length, IfErr, IfOk, IsPermutation, MatchOption};
ghost use Rattle.std.specs.List.{range_with_len};
ghost use Rattle.std.specs.List.Sorted.{IsNonDecreasingBy};
ghost use Rattle.request_journal.specs.Journal.{event_at};
ghost use Rattle.request_journal.specs.Past.{last_number};
ghost use Rattle.shared_book.specs.Held.{HoldReceipts, all_lists, all_numbers, all_parts};
ghost use Rattle.shared_book.specs.Inner.Refusal.{IsRefusalAt};
ghost use Rattle.shared_book.specs.Reached.{IsLawful, IsPastOf};
ghost use Rattle.shared_book.specs.Settled.{IsMiscounted, IsSettled, IsUnsettled};

use crate::base::base_of;
use crate::counted::{miscounted, sorted_numbers};
use crate::gather::{gather, gather_numbers};
use crate::history::History;
use crate::misplaced::misplaced;
use crate::origin::Origin;
use crate::receipt::Receipt;
use crate::seat::Seat;
use crate::settled::{SettleRefusal, Settled};
use book_history::history;
use request_journal::shared_event::SharedEvent;
use std::alloc::{AllocError, Global};
use stub_book::book::Book;

/// Compares the numbers of the seats' receipts with the history of a book, which has as many events since the `start`
/// as they have receipts. The event of each that is held needs no comparison: it is that of a call of the history.
pub(crate) fn compare<L: Origin>(
    book: &Book,
    whole: &History<L>,
    start: u64,
    alloc: Global,
    seats: &[Seat<L>],
) -> Result<Settled, SettleRefusal>
    requires lawful { IsLawful L.origin whole.now }
    requires past_of { IsPastOf L.origin whole.now book.now }
    requires start { start ≡ last_number L.origin }
    requires counted { last_number book.now ≡ start + length (all_numbers (all_lists seats.now)) }
    requires held { HoldReceipts L.origin whole.now (all_lists seats.now) }
    requires parts { all_parts seats.now ≡ L.parts }
    ensures settled { IfOk result (IsSettled L.origin whole.now book.now (all_lists seats.now)) }
    ensures why { IfErr result (IsUnsettled L.origin L.parts book.now seats.now) }
{
    let events = book.event_count();
    if let Some(number) = misplaced(seats, base_of(book)) {
        return Err(mismatch(book, number));
    }
    match miscounted_in(alloc, seats, start) {
        Ok(None) => {}
        Ok(Some(number)) => return Err(mismatch(book, number)),
        Err(_error) => return Err(SettleRefusal::OutOfMemory),
    }
    let receipts = match gather(alloc, seats) {
        Ok(receipts) => sorted(receipts),
        Err(_error) => return Err(SettleRefusal::OutOfMemory),
    };
    Ok(Settled { events, receipts })
}

// The number, with the event that the book keeps under it.
fn mismatch(book: &Book, number: u64) -> SettleRefusal
    ensures { IsRefusalAt (event_at book.now number) number result }
{
    match kept(book.history(), number) {
        Ok(kept) => SettleRefusal::Mismatch { number, kept },
        Err(_error) => SettleRefusal::OutOfMemory,
    }
}

// Puts the receipts into the order of their numbers.
fn sort(receipts: &mut [Receipt])
    ensures moved { IsPermutation receipts.old receipts.new }
    ensures sorted { IsNonDecreasingBy (λ r. r.number) receipts.new }
{
    receipts.sort_unstable_by_key(|receipt| receipt.number);
}

// The receipts in the order of their numbers.
fn sorted(receipts: Vec<Receipt>) -> Vec<Receipt>
    ensures moved { IsPermutation receipts.items result.items }
    ensures sorted { IsNonDecreasingBy (λ r. r.number) result.items }
{
    let mut receipts = receipts;
    sort(receipts.as_mut_slice());
    receipts
}

// A number that isn't there once, or not at all, as it should be, where receipts have the numbers after `start`.
fn miscounted_in<L: Origin>(
    alloc: Global,
    seats: &[Seat<L>],
    start: u64,
) -> Result<Option<u64>, AllocError>
    requires fits { start + length (all_numbers (all_lists seats.now)) < 2 ^ 64 }
    ensures { IfOk result (λ found. MatchOption found
        (IsPermutation (all_numbers (all_lists seats.now))
        (range_with_len (start + 1) (length (all_numbers (all_lists seats.now)))))
        (IsMiscounted start (all_numbers (all_lists seats.now)))) }
{
    let numbers = sorted_numbers(gather_numbers(alloc, seats)?);
    Ok(miscounted(numbers.as_slice(), start))
}

/// A copy of the event that the history keeps under the number. Takes no memory.
pub(crate) fn kept(
    history: &history::History,
    number: u64,
) -> Result<Option<SharedEvent>, AllocError>
    ensures { IfOk result (λ kept. kept ≡ event_at history.now.past number) }
{
    match history.event(number) {
        Some(event) => Ok(Some(event.clone()?)),
        None => Ok(None),
    }
}
