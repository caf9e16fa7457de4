// A seat, by which calls are made on a shared book.
ghost use Rattle.std.specs.Prelude.{◌≡◌, ◌-◌, ◌^◌, ◌<◌, length, IfErr, IfOk, OnOk, ⊤};
ghost use Rattle.shared_book.specs.Held.{HasLetGo, HoldReceipts, lists, new_seat, sight, with_seat};
ghost use Rattle.shared_book.specs.Lent.{Gains, LendsServed, LendsApplied};
ghost use Rattle.request_journal.specs.Input.{IsAsked};
ghost use Rattle.request_journal.specs.Past.{Past};
ghost use Rattle.shared_book.specs.Reached.{IsLawful, IsPastOf, MayFollow};
ghost use Rattle.shared_book.specs.Reading.{IsRead};
ghost use Rattle.shared_book.specs.Receipts.{IsLast};
ghost use Rattle.shared_book.specs.Refused.{IsRefused, IsServeRefused};
ghost use Rattle.shared_book.specs.Seen.{HasCaughtUp, HasJoined, HasSplit};
ghost use Rattle.shared_history.specs.Seal.{IsSeen};
ghost use Rattle.stub_book.specs.Growth.{IsServed};
ghost use Rattle.std.specs.Borrow.{sem};
ghost use denote.Follow.{follows_so};
ghost use mathlib.Core.Option.{none};

use crate::book_read::Reading;
use crate::history::{Front, Place};
use crate::lines::Lines;
use crate::origin::Origin;
use crate::receipt::Receipt;
use crate::shared_book::SharedBook;
use mock_request::last_headers::LastHeaders;
use mock_request::snapshot::Snapshot;
use request_journal::event_memory::EventMemory;
use request_journal::input::BookInput;
use request_journal::read::BookRead;
use request_journal::shared_request::SharedRequest;
use request_match::parsed_request::ParsedRequest;
use std::alloc::{AllocError, Global};
use std::marker::Model;
use std::mem;
use std::sync::Wait;
use std::sync::ledger::Share;
use stub_book::error::BookError;

/// By a seat, one thread makes calls on a shared book. It keeps a receipt for each call that was accepted.
pub struct Seat<L: Origin> {
    pub(crate) share: Share<L>,
    /// Its place in the history: its number, and what it has seen.
    pub(crate) place: Place<L>,
    /// How many parts of the ledger it has.
    pub(crate) parts: u64,
    /// How many receipts it has, in all lists.
    pub(crate) count: u64,
    pub(crate) lines: Lines,
    /// How many mappings gave way in its last call that was accepted.
    replaced: u64,
    /// The headers that came last, for the next request to share. Contracts see nothing of them.
    headers: LastHeaders,
}

// Written out, so that a caller's proof sees one call and not the drop of each part.
impl<L: Origin> Drop for Seat<L> {
    fn drop(self) {
        let Seat {
            share: _share,
            place: _place,
            parts: _parts,
            count: _count,
            lines: _lines,
            replaced: _replaced,
            headers: _headers,
        } = self;
    }
}

impl<L: Origin> Model for Seat<L> {
    ghost use Rattle.std.specs.Prelude.{◌∷◌};
    ghost use Rattle.shared_book.specs.Held.{Held};
    ghost use Rattle.shared_book.specs.Inner.Seat.{IsSeat, line_of, lines_in};
    ghost use Rattle.std.specs.Coded.{codes};
    ghost use Rattle.book_history.specs.Inner.Codes.{states_code};

    ghost Value = { Held };

    ghost coded = { Prim.hlevel (codes, states_code) };

    ghost view = { λ s. record {
      number = s.place.number;
      seen = s.place.seen;
      parts = s.parts;
      own = line_of s.lines.own;
      joined = lines_in s.lines.joined.items;
      replaced = s.replaced;
    } };

    ghost invariant = { λ s. IsSeat L.origin L.parts s.share.parts s.share.amount s.parts s.count s.lines.told
        s.place.seen (line_of s.lines.own ∷ lines_in s.lines.joined.items) };
}

impl<L: Origin> Seat<L> {
    ghost use Rattle.shared_book.specs.contracts.seat.Seat.{the_row};

    pub(crate) fn new(alloc: Global, share: Share<L>, place: Place<L>, parts: u64) -> Seat<L>
        requires parts { share.parts ≡ parts }
        requires some { 0 < parts }
        requires fits { L.parts < 2 ^ 64 }
        requires empty { share.amount ≡ 0 }
        requires lawful { IsLawful L.origin place.seen }
        ensures { result ≡ new_seat place.number place.seen parts }
    {
        Seat {
            share,
            place,
            parts,
            count: 0,
            lines: Lines::new(alloc),
            replaced: 0,
            headers: LastHeaders::none(),
        }
    }

    /// Its place in the history alone.
    pub(crate) fn into_place(self) -> Place<L>
        ensures value { result ≡ sight self }
    {
        let Seat {
            share: _share,
            place,
            parts: _parts,
            count: _count,
            lines: _lines,
            replaced: _replaced,
            headers: _headers,
        } = self;
        place
    }

    /// Its number in the history.
    pub fn number(&self) -> u64
        ensures { result ≡ self.now.number }
    {
        self.place.number()
    }

    /// How many parts of the ledger it has.
    pub fn parts(&self) -> u64
        ensures value { result ≡ self.now.parts }
        ensures some { 0 < result }
    {
        self.parts
    }

    /// What it has seen of the history, whose calls lead to a past. Each receipt that it holds is that of one of these
    /// calls.
    #[tactic(auto, using(crate::proofs::ReachedLemmas::lawful_past))]
    pub fn front(&self) -> Front<L>
        ensures value { result ≡ self.now.seen }
        ensures lawful { IsLawful L.origin result }
        ensures seen { IsSeen MayFollow L.book self.now.seen }
        ensures past { (past : Past) × IsPastOf L.origin self.now.seen past }
        ensures receipts { HoldReceipts L.origin self.now.seen (lists self.now) }
    {
        self.place.front()
    }

    /// A new seat, with one of the parts.
    pub fn split<R: Wait>(&mut self, rt: &R, shared: &SharedBook<L>) -> Seat<L>
        requires { 1 < self.old.parts }
        ensures new { result ≡ new_seat result.number result.seen 1 }
        ensures left { self.new ≡ record self.old { parts = self.old.parts - 1; seen = self.new.seen } }
        ensures entered { HasSplit L.origin L.book self.old self.new result }
    {
        let place = shared.lock(rt).split(rt, &mut self.place);
        let share = self.share.split_off(1, 0);
        self.parts -= 1;
        let mut seat = Seat::new(*self.lines.joined.allocator(), share, place, 1);
        seat.headers = self.headers.share();
        seat
    }

    /// Takes out the headers that came last, for the next request to share. `put_headers` puts them back.
    pub fn take_headers(&mut self) -> LastHeaders
        ensures { self.new ≡ self.old }
    {
        mem::replace(&mut self.headers, LastHeaders::none())
    }

    /// Puts back the headers that came last.
    pub fn put_headers(&mut self, headers: LastHeaders)
        ensures { self.new ≡ self.old }
    {
        self.headers = headers;
    }

    /// How many mappings gave way, in its last call that was accepted, to one with their id that the call adds.
    pub fn replaced(&self) -> u64
        ensures { result ≡ self.now.replaced }
    {
        self.replaced
    }

    /// The receipts of its own calls that it holds, in their order.
    pub fn receipts(&self) -> &[Receipt]
        ensures { result.now ≡ self.now.own.held }
    {
        self.lines.own.held.as_slice()
    }

    /// The receipt of its last call.
    fn last(&self) -> &Receipt
        requires { 0 < length self.now.own.held }
        ensures { IsLast result.now self.now.own.held }
    {
        &self.lines.own.held[self.lines.own.held.len() - 1]
    }

    /// Serves a request, and lends the receipt that it keeps.
    // The clause `after` says of the value that the seat has once the lent receipt is no longer used that it is as
    // `LendsServed` says.
    pub fn serve<R: Wait>(
        &mut self,
        rt: &R,
        shared: &SharedBook<L>,
        request: Snapshot,
    ) -> Result<&Receipt, BookError>
        ensures* after { sem 𝓛 (follows_so
            (the_row L.row (record { origin = L.origin }) (record { name = L.name; parts = L.parts })
            (record { book = L.book }))
            (the_row L.row (record { origin = L.origin }) (record { name = L.name; parts = L.parts })
            (record { book = L.book }))
            self.entry.ghost_name none (λ _ _. ⊤)
            (λ seat. LendsServed L.origin L.book self.old seat request result)) }
    {
        match self.keep_served(rt, shared, request) {
            Ok(()) => Ok(self.last()),
            Err(error) => Err(error),
        }
    }

    /// Makes a change, and lends the receipt that it keeps.
    // `after`: as at `serve`, with `LendsApplied`.
    pub fn apply<R: Wait>(
        &mut self,
        rt: &R,
        shared: &SharedBook<L>,
        input: BookInput,
    ) -> Result<&Receipt, BookError>
        ensures* after { sem 𝓛 (follows_so
            (the_row L.row (record { origin = L.origin }) (record { name = L.name; parts = L.parts })
            (record { book = L.book }))
            (the_row L.row (record { origin = L.origin }) (record { name = L.name; parts = L.parts })
            (record { book = L.book }))
            self.entry.ghost_name none (λ _ _. ⊤)
            (λ seat. LendsApplied L.origin L.book self.old seat input result)) }
    {
        match self.keep_applied(rt, shared, input) {
            Ok(()) => Ok(self.last()),
            Err(error) => Err(error),
        }
    }

    /// Reads the book at one point. Requests are matched after the lock was let go. Adds no event, and
    /// keeps no receipt.
    pub fn read<R: Wait>(
        &mut self,
        rt: &R,
        shared: &SharedBook<L>,
        asked: BookRead,
    ) -> Result<Reading, AllocError>
        ensures seen { HasCaughtUp L.origin L.book self.old self.new }
        ensures ok { IfOk result (IsRead L.origin self.new.seen asked) }
    {
        let alloc = *self.lines.joined.allocator();
        shared.lock(rt).read(rt, &mut self.place, alloc, asked)
    }

    /// Takes over the other seat, which makes no call any more: its parts, its lists of receipts beside the own ones,
    /// and its headers, if it has any. Both let go of events, and `replaced` stays. Where memory runs out (or there are
    /// more receipts than a number has room for) the other seat is handed back.
    pub fn join<R: Wait>(
        &mut self,
        rt: &R,
        shared: &SharedBook<L>,
        other: Seat<L>,
    ) -> Result<(), Seat<L>>
        ensures ok { OnOk result (HasLetGo L.origin (with_seat self.old other) self.new) }
        ensures joined { OnOk result (HasJoined L.origin L.book self.old other self.new) }
        ensures replaced { OnOk result (self.new.replaced ≡ self.old.replaced) }
        ensures err { IfErr result (λ seat. (seat ≡ other) × (self.new ≡ self.old)) }
    {
        let Some(count) = self.count.checked_add(other.count) else {
            return Err(other);
        };
        let Some(more) = other.lines.joined.len().checked_add(1) else {
            return Err(other);
        };
        if let Err(_error) = self.lines.joined.reserve(more) {
            return Err(other);
        }
        let Seat {
            share,
            place,
            parts,
            count: _,
            lines,
            replaced: _,
            headers,
        } = other;
        shared.lock(rt).join(rt, &mut self.place, place);
        self.share.merge(share);
        self.parts += parts;
        self.count = count;
        keep_later(&mut self.headers, headers);
        self.lines.take_over(lines);
        Ok(())
    }

    // Serves a request, and keeps the receipt as the last. What its event needs of memory is taken before the lock, so
    // that nobody waits there for the system to give some.
    fn keep_served<R: Wait>(
        &mut self,
        rt: &R,
        shared: &SharedBook<L>,
        request: Snapshot,
    ) -> Result<(), BookError>
        ensures ok { OnOk result ((receipt : _) × Gains L.origin L.book self.old self.new (IsServed request) receipt) }
        ensures why { IfErr result (λ error. IsServeRefused L.origin L.book self.old self.new error.code) }
    {
        self.lines.own.held.reserve(1)?;
        let request = SharedRequest::new(*self.lines.joined.allocator(), request)?;
        let mut parsed = ParsedRequest::new(*self.lines.joined.allocator(), request.request());
        let memory = EventMemory::new(*self.lines.joined.allocator())?;
        let kept = request.clone()?;
        let entered = shared.lock(rt).serve(
            rt,
            &mut self.share,
            &mut self.place,
            kept,
            &mut parsed,
            memory,
        )?;
        self.count += 1;
        self.replaced = entered.replaced;
        self.lines.keep(entered);
        Ok(())
    }

    // Makes a change, and keeps the receipt as the last.
    fn keep_applied<R: Wait>(
        &mut self,
        rt: &R,
        shared: &SharedBook<L>,
        input: BookInput,
    ) -> Result<(), BookError>
        ensures ok { OnOk result ((receipt : _) × Gains L.origin L.book self.old self.new (IsAsked input) receipt) }
        ensures why { IfErr result (λ error. IsRefused L.origin L.book self.old self.new input error.code) }
    {
        self.lines.own.held.reserve(1)?;
        let entered = shared
            .lock(rt)
            .apply(rt, &mut self.share, &mut self.place, input)?;
        self.count += 1;
        self.replaced = entered.replaced;
        self.lines.keep(entered);
        Ok(())
    }
}

// Keeps the later headers in the place of these, if there are any.
fn keep_later(headers: &mut LastHeaders, later: LastHeaders) {
    if !later.is_none() {
        *headers = later;
    }
}
