// What the lock keeps.
ghost use Rattle.std.specs.Prelude.{◌≡◌, ◌+◌, ◌<◌, ◌≤◌, ◌∷◌, [], IfErr, IfOk, OnErr, OnOk};
ghost use Rattle.request_journal.specs.Input.{IsAsked};
ghost use Rattle.request_journal.specs.Past.{last_number};
ghost use Rattle.request_journal.specs.declared.limits.TheConstants.{NUMBER_LIMIT};
ghost use Rattle.shared_book.specs.Held.{HoldReceipts, IsDropped, all_lists};
ghost use Rattle.shared_book.specs.Inner.Ends.{Ends, HaveAgreed};
ghost use Rattle.shared_book.specs.Reading.{IsRead, IsReadOnce};
ghost use Rattle.shared_book.specs.Reached.{InPastOf, IsLawful, IsPastOf, MayFollow};
ghost use Rattle.shared_book.specs.Seen.{IsEntered, IsJoined, IsSplit, SeesAll};
ghost use Rattle.shared_book.specs.Settled.{AreSettled, AreUnsettled, HaveSeen};
ghost use Rattle.shared_history.specs.Entries.{opening};
ghost use Rattle.shared_history.specs.Seal.{IsSeen};
ghost use Rattle.stub_book.specs.Growth.{Changes, IsServed};
ghost use Rattle.stub_book.specs.Refusals.{IsRefusal, IsServeRefusal};

use crate::audit::{audit, have_parts};
use crate::base::base_of;
use crate::book_read::{ReadAnswer, Reading};
use crate::compare::compare;
use crate::entered::Entered;
use crate::history::{History, Place};
use crate::look::look;
use crate::origin::Origin;
use crate::receipt::Receipt;
use crate::seat::Seat;
use crate::settled::{SettleRefusal, Settled};
use request_journal::event_memory::EventMemory;
use request_journal::input::BookInput;
use request_journal::read::BookRead;
use request_journal::shared_request::SharedRequest;
use request_match::parsed_request::ParsedRequest;
use std::alloc::{AllocError, Global};
use std::marker::Model;
use std::sync::ledger::Share;
use std::sync::{Wait, ledger};
use stub_book::accepted::Changed;
use stub_book::book::Book;
use stub_book::error::BookError;

/// A book, beside the whole history, and a ledger that has an entry for each event since the book was shared. Contracts
/// see the book's past and the history.
pub(crate) struct Locked<L: Origin> {
    book: Book,
    history: History<L>,
    entries: ledger::Book<L>,
    /// Into how many parts the ledger is cut.
    parts: u64,
    /// The number of the book's last event when it was shared.
    start: u64,
}

// Written out, so that a caller's proof sees one call and not the drop of each part.
impl<L: Origin> Drop for Locked<L> {
    fn drop(self) {
        let Locked {
            book: _book,
            history: _history,
            entries: _entries,
            parts: _parts,
            start: _start,
        } = self;
    }
}

impl<L: Origin> Model for Locked<L> {
    ghost use Rattle.std.specs.Coded.{codes};
    ghost use Rattle.book_history.specs.Inner.Codes.{states_code};
    ghost use Rattle.shared_book.specs.Inner.Kept.{Content, IsKept};

    ghost Value = { Content };

    ghost coded = { Prim.hlevel (codes, states_code) };

    ghost view = { λ l. record { past = l.book; whole = l.history } };

    ghost invariant = { λ l. IsKept L.origin L.parts l.book l.history l.entries.total l.parts l.start };
}

impl<L: Origin> Locked<L> {
    /// A book that is being shared.
    pub(crate) fn new(
        book: Book,
        history: History<L>,
        entries: ledger::Book<L>,
        parts: u64,
    ) -> Locked<L>
        requires origin { book ≡ L.origin }
        requires opened { history ≡ opening L.origin ∷ [] }
        requires parts { parts ≡ L.parts }
        requires some { 0 < parts }
        requires empty { entries.total ≡ 0 }
    {
        let start = book.event_count();
        Locked {
            book,
            history,
            entries,
            parts,
            start,
        }
    }

    /// Serves the request, whose event comes into this memory, and enters that for the share and the place; or enters
    /// that the place has looked.
    pub(crate) fn serve<R: Wait>(
        &mut self,
        rt: &R,
        share: &mut Share<L>,
        place: &mut Place<L>,
        request: SharedRequest,
        parsed: &mut ParsedRequest<'_>,
        memory: EventMemory,
    ) -> Result<Entered, BookError>
        requires part { 0 < share.old.parts }
        requires read { parsed.old ≡ request }
        ensures ok { IfOk result (λ entered.
            IsServed request entered.receipt.event
            × IsEntered L.origin L.book place.old place.new entered.receipt entered.replaced) }
        ensures base { IfOk result (λ entered. IsDropped L.origin place.new.seen entered.base) }
        ensures seen { OnErr result (SeesAll L.origin L.book place.old place.new) }
        ensures why { IfErr result
            (λ error. InPastOf L.origin place.new.seen (λ past. IsServeRefusal past error.code)) }
        ensures parts { share.new.parts ≡ share.old.parts }
        ensures entered { OnOk result
            ((share.new.amount ≡ share.old.amount + 1) × (share.new.amount ≤ NUMBER_LIMIT)) }
        ensures not_entered { OnErr result (share.new.amount ≡ share.old.amount) }
    {
        match self.book.serve_read(request, parsed, memory) {
            Ok(event) => Ok(enter(
                rt,
                &self.book,
                &mut self.history,
                &mut self.entries,
                share,
                place,
                Changed { event, replaced: 0 },
            )),
            Err(error) => {
                self.history.look(rt, place);
                Err(error)
            }
        }
    }

    /// Makes the change, and enters that for the share and the place; or enters that the place has looked.
    pub(crate) fn apply<R: Wait>(
        &mut self,
        rt: &R,
        share: &mut Share<L>,
        place: &mut Place<L>,
        input: BookInput,
    ) -> Result<Entered, BookError>
        requires { 0 < share.old.parts }
        ensures ok { IfOk result (λ entered.
            IsAsked input entered.receipt.event
            × IsEntered L.origin L.book place.old place.new entered.receipt entered.replaced) }
        ensures base { IfOk result (λ entered. IsDropped L.origin place.new.seen entered.base) }
        ensures seen { OnErr result (SeesAll L.origin L.book place.old place.new) }
        ensures why { IfErr result
            (λ error. InPastOf L.origin place.new.seen (λ past. IsRefusal past input error.code)) }
        ensures parts { share.new.parts ≡ share.old.parts }
        ensures entered { OnOk result
            ((share.new.amount ≡ share.old.amount + 1) × (share.new.amount ≤ NUMBER_LIMIT)) }
        ensures not_entered { OnErr result (share.new.amount ≡ share.old.amount) }
    {
        match self.book.apply_shared(input) {
            Ok(changed) => Ok(enter(
                rt,
                &self.book,
                &mut self.history,
                &mut self.entries,
                share,
                place,
                changed,
            )),
            Err(error) => {
                self.history.look(rt, place);
                Err(error)
            }
        }
    }

    /// Looks up what is asked for, and enters that the place has looked.
    pub(crate) fn read<R: Wait>(
        &mut self,
        rt: &R,
        place: &mut Place<L>,
        alloc: Global,
        asked: BookRead,
    ) -> Result<Reading, AllocError>
        ensures seen { SeesAll L.origin L.book place.old place.new }
        ensures answer { IfOk result (IsRead L.origin place.new.seen asked) }
    {
        self.history.look(rt, place);
        let number = self.book.event_count();
        let answer = look(&self.book, alloc, asked)?;
        Ok(Reading { number, answer })
    }

    /// Looks up what is asked for, for who has no place.
    pub(crate) fn peek(&self, alloc: Global, asked: BookRead) -> Result<ReadAnswer, AllocError>
        ensures { IfOk result (IsReadOnce L.origin L.book asked) }
    {
        self.history.front();
        look(&self.book, alloc, asked)
    }

    /// Makes a new seat's place.
    pub(crate) fn split<R: Wait>(&mut self, rt: &R, place: &mut Place<L>) -> Place<L>
        ensures { IsSplit L.origin L.book place.old place.new result }
    {
        self.history.split(rt, place)
    }

    /// Ends the other place.
    pub(crate) fn join<R: Wait>(&mut self, rt: &R, place: &mut Place<L>, other: Place<L>)
        ensures { IsJoined L.origin L.book place.old other place.new }
    {
        self.history.leave(rt, other);
        self.history.catch_up(rt, place);
    }

    /// Compares the receipts of the seats with the book's history. Where they are those of its calls, each seat leaves,
    /// and the history is over; else the seats are handed back.
    pub(crate) fn settle<R: Wait>(
        &mut self,
        rt: &R,
        alloc: Global,
        seats: Vec<Seat<L>>,
    ) -> Result<Settled, (SettleRefusal, Vec<Seat<L>>)>
        ensures settled { IfOk result (AreSettled L.origin L.parts L.book seats.items) }
        ensures why { IfErr result (λ left. AreUnsettled L.origin L.parts L.book seats.items left.0) }
        ensures handed_back { IfErr result (λ left. left.1.items ≡ seats.items) }
    {
        let mut seats = seats;
        match self.agree(rt, alloc, seats.as_mut_slice()) {
            Ok(settled) => {
                leave_all(rt, &mut self.history, seats);
                Ok(settled)
            }
            Err(reason) => Err((reason, seats)),
        }
    }

    // Compares the receipts of the seats with the book's history.
    fn agree<R: Wait>(
        &mut self,
        rt: &R,
        alloc: Global,
        seats: &mut [Seat<L>],
    ) -> Result<Settled, SettleRefusal>
        ensures same { self.new ≡ self.old }
        ensures same_seats { seats.new ≡ seats.old }
        ensures agreed { IfOk result (HaveAgreed L.origin L.parts self.old.whole self.old.past seats.old) }
        ensures why { IfErr result (AreUnsettled L.origin L.parts L.book seats.old) }
    {
        cover(rt, &self.history, seats);
        if !have_parts(seats, self.parts) {
            return Err(SettleRefusal::SeatsMissing);
        }
        audit(&mut self.entries, seats);
        compare(&self.book, &self.history, self.start, alloc, seats)
    }
}

// Each of the seats leaves, and they were all that there were.
fn leave_all<L: Origin, R: Wait>(rt: &R, history: &mut History<L>, seats: Vec<Seat<L>>)
    requires { IsLawful L.origin history.old }
    ensures ends { Ends L.origin L.book history.old history.new }
{
    for seat in seats {
        history.leave(rt, seat.into_place());
    }
    history.close(rt);
}

// Enters the event of a call that was accepted, the book's last, for the share and the place.
fn enter<L: Origin, R: Wait>(
    rt: &R,
    book: &Book,
    history: &mut History<L>,
    entries: &mut ledger::Book<L>,
    share: &mut Share<L>,
    place: &mut Place<L>,
    changed: Changed,
) -> Entered
    requires lawful { IsLawful L.origin history.old }
    requires grown { InPastOf L.origin history.old (λ past. Changes past book.now changed) }
    requires counted { last_number book.now ≡ last_number L.origin + entries.old.total + 1 }
    requires part { 0 < share.old.parts }
    ensures event { result.receipt.event ≡ changed.event }
    ensures replaced { result.replaced ≡ changed.replaced }
    ensures entered { IsEntered L.origin L.book place.old place.new result.receipt result.replaced }
    ensures base { IsDropped L.origin place.new.seen result.base }
    ensures lawful { IsLawful L.origin history.new }
    ensures past_of { IsPastOf L.origin history.new book.now }
    ensures total { entries.new.total ≡ entries.old.total + 1 }
    ensures parts { share.new.parts ≡ share.old.parts }
    ensures amount { (share.new.amount ≡ share.old.amount + 1) × (share.new.amount ≤ NUMBER_LIMIT) }
{
    history.enter(rt, place, changed.event.event());
    entries.add(share, 1);
    entries.audit(share);
    entered(book, changed)
}

// Each seat has seen a beginning of the history, and the receipts that they hold are of its calls.
fn cover<L: Origin, R: Wait>(rt: &R, history: &History<L>, seats: &[Seat<L>])
    ensures beginnings { HaveSeen history.now seats.now }
    ensures receipts { HoldReceipts L.origin history.now (all_lists seats.now) }
    ensures was_seen { IsSeen MayFollow L.book history.now }
{
    history.front();
    for seat in seats {
        history.covers(rt, &seat.front());
    }
}

// What is told of the call whose event is the book's last.
fn entered(book: &Book, changed: Changed) -> Entered
    ensures event { result.receipt.event ≡ changed.event }
    ensures replaced { result.replaced ≡ changed.replaced }
    ensures number { result.receipt.number ≡ last_number book.now }
    ensures base { result.base ≡ book.now.base.number }
{
    let Changed { event, replaced } = changed;
    Entered {
        receipt: Receipt {
            number: book.event_count(),
            event,
        },
        base: base_of(book),
        replaced,
    }
}
