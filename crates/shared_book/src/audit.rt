// What the ledger says of seats that have all its parts together.
ghost use Rattle.std.specs.Prelude.{◌≡◌, ◌↔◌, ◌+◌, ◌<◌, IsTrue, length};
ghost use Rattle.shared_book.specs.Held.{all_lists, all_numbers, all_parts};

use crate::origin::Origin;
use crate::seat::Seat;
use std::sync::ledger;
use std::sync::ledger::Share;

/// Whether the seats have this number of parts together.
pub(crate) fn have_parts<L: Origin>(seats: &[Seat<L>], all: u64) -> bool
    ensures { IsTrue result ↔ (all_parts seats.now ≡ all) }
{
    let mut left = all;
    for seat in seats {
        match left.checked_sub(seat.parts()) {
            Some(rest) => left = rest,
            None => return false,
        }
    }
    left == 0
}

/// The ledger has as many entries as the seats have receipts. Takes no memory, and changes nothing.
#[tactic(auto, using(crate::proofs::HeldLemmas::parts_some))]
pub(crate) fn audit<L: Origin>(entries: &mut ledger::Book<L>, seats: &mut [Seat<L>])
    requires whole { all_parts seats.old ≡ L.parts }
    requires some { 0 < L.parts }
    ensures counted { entries.old.total ≡ length (all_numbers (all_lists seats.old)) }
    ensures same_entries { entries.new.total ≡ entries.old.total }
    ensures same_seats { seats.new ≡ seats.old }
{
    let (first, rest) = seats.split_at_mut(1);
    let seat = &mut first[0];
    audit_with(entries, &mut seat.share, rest);
}

// The same of one share and these seats. Each lends its share until all are counted.
fn audit_with<L: Origin>(entries: &mut ledger::Book<L>, share: &mut Share<L>, seats: &mut [Seat<L>])
    requires whole { share.old.parts + all_parts seats.old ≡ L.parts }
    requires some { 0 < share.old.parts }
    ensures counted { entries.old.total ≡ share.old.amount + length (all_numbers (all_lists seats.old)) }
    ensures same_entries { entries.new.total ≡ entries.old.total }
    ensures same_parts { share.new.parts ≡ share.old.parts }
    ensures same_amount { share.new.amount ≡ share.old.amount }
    ensures same_seats { seats.new ≡ seats.old }
{
    if seats.is_empty() {
        entries.audit(share);
        return;
    }
    let (first, rest) = seats.split_at_mut(1);
    let seat = &mut first[0];
    seat.share.give(share, seat.parts, seat.count);
    audit_with(entries, share, rest);
    share.give(&mut seat.share, seat.parts, seat.count);
}
