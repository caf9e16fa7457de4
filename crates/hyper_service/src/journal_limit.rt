// A journal that the server itself clears once it shows as many requests as it may.
ghost use Rattle.std.specs.Prelude.{◌≡◌, IsFalse, IsSome, IsTrue};
ghost use Rattle.hyper_service.specs.Given.{IsJournalKept};
ghost use Rattle.request_journal.specs.Input.{IsAsked};
ghost use Rattle.request_journal.specs.declared.input.BookInput.TheVariants.{ClearJournal as Cleared};
ghost use Rattle.shared_book.specs.Lent.{Gains};
ghost use Rattle.shared_book.specs.Seen.{HasMadeNoCall};

use crate::outcome::Outcome;
use request_journal::event::Event;
use request_journal::input::BookInput;
use shared_book::origin::Origin;
use shared_book::seat::Seat;
use shared_book::shared_book::SharedBook;
use std::sync::{Mutex, Wait};

/// How many requests the journal shows at most, if there is a limit, and how many it shows. The count has a lock of
/// its own, since the calls of all connections are counted.
#[derive(Drop)]
pub struct JournalLimit {
    limit: Option<u64>,
    shown: Mutex<u64>,
}

impl JournalLimit {
    /// The limit of a journal that shows no request.
    pub fn new(limit: Option<u64>) -> JournalLimit
        ensures { result.limit ≡ limit }
    {
        JournalLimit {
            limit,
            shown: Mutex::new(0),
        }
    }

    /// Counts the event of that outcome. Whether the journal then shows as many requests as it may.
    pub(crate) fn count<R: Wait>(&self, rt: &R, outcome: Option<Outcome<'_>>) -> bool
        ensures { IsTrue result → IsSome self.now.limit }
    {
        let Some(limit) = self.limit else {
            return false;
        };
        let mut shown = self.shown.lock(rt);
        if let Some(outcome) = outcome {
            *shown = shown_after(*shown, outcome.receipt.event.event());
        }
        *shown > 0 && *shown >= limit
    }

    /// Clears the journal where it is full, by the same call as a client would. Where that is refused, it tries again
    /// after the next request.
    pub(crate) fn keep<L: Origin, R: Wait>(
        &self,
        rt: &R,
        book: &SharedBook<L>,
        seat: &mut Seat<L>,
        is_full: bool,
    )
        requires { IsTrue is_full → IsSome self.now.limit }
        ensures { IsJournalKept self.now.limit L.origin L.book seat.old seat.new }
    {
        if is_full && clear(rt, book, seat) {
            *self.shown.lock(rt) = 0;
        }
    }
}

// Clears the journal, if that isn't refused.
fn clear<L: Origin, R: Wait>(rt: &R, book: &SharedBook<L>, seat: &mut Seat<L>) -> bool
    ensures cleared { IsTrue result →
        (receipt : _) × Gains L.origin L.book seat.old seat.new (IsAsked Cleared) receipt }
    ensures refused { IsFalse result → HasMadeNoCall L.origin L.book seat.old seat.new }
{
    match seat.apply(rt, book, BookInput::ClearJournal) {
        Ok(_receipt) => true,
        Err(_error) => false,
    }
}

// How many requests the journal shows after the event, where it showed that many before it.
fn shown_after(shown: u64, event: &Event) -> u64 {
    match event {
        Event::Serve { .. } => shown.saturating_add(1),
        Event::ClearJournal | Event::ResetAll => 0,
        _ => shown,
    }
}
