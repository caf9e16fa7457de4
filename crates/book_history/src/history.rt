// The events of a book.
ghost use Rattle.std.specs.Prelude.{◌≡◌, ◌<◌, ◌≤◌, ◌↔◌, [], length, option_copied, IfOk, OnOk, OnErr, IsTrue, IsErrOf};
ghost use Rattle.request_match.specs.Matching.{MeetsRequest};
ghost use Rattle.request_journal.specs.Journal.{requests, unmatched, event_at, Picks, IsCount};
ghost use Rattle.request_journal.specs.Legal.{IsCheckpoint};
ghost use Rattle.request_journal.specs.Past.{opening_base, with_event, last_number};
ghost use Rattle.request_journal.specs.declared.limits.TheConstants.{NUMBER_LIMIT};

use crate::error::HistoryError;
use crate::events::Events;
use crate::journal::{Shown, visible};
use crate::known::Known;
use crate::parts::Parts;
use crate::pick::pick;
use plain_text::items::Items;
use request_journal::entry::Entry;
use request_journal::limits;
use request_journal::mapping::Mapping;
use request_journal::shared_event::SharedEvent;
use request_match::request_matcher::RequestMatcher;
use std::alloc::{AllocError, Global};
use std::marker::Model;

/// The events since the last checkpoint, with their numbers. Contracts see the past, and for how many more events
/// memory was reserved.
pub struct History {
    parts: Parts,
}

// Written out, so that a caller's proof sees one call and not the drop of each part.
impl Drop for History {
    fn drop(self) {
        let History { parts: _parts } = self;
    }
}

impl Model for History {
    ghost use Rattle.std.specs.Coded.{codes};
    ghost use Rattle.std.specs.Prelude.{◌-◌, vec_len, vec_capacity};
    ghost use Rattle.request_journal.specs.Past.{with_events};
    ghost use Rattle.book_history.specs.Inner.Codes.{states_code};
    ghost use Rattle.book_history.specs.Kept.{Kept};

    ghost Value = { Kept };

    ghost coded = { Prim.hlevel (codes, states_code) };

    ghost use Rattle.book_history.specs.Inner.Counts.{Counts};

    ghost view = { λ h. record {
      past = with_events h.parts.known.past h.parts.events.items.items;
      spare = vec_capacity h.parts.events.items - vec_len h.parts.events.items;
    } };

    ghost invariant = { λ h. Counts h.parts };
}

impl History {
    /// That of a book that is opened with these mappings, which its first event follows with the next number.
    pub fn open(alloc: Global, opening: u64, defaults: &Items<Mapping>) -> History
        requires { opening ≤ NUMBER_LIMIT }
        ensures { result.past ≡ record {
          opening = opening;
          defaults = defaults.now;
          base = opening_base opening defaults.now;
          events = [];
        } }
    {
        History {
            parts: Parts {
                known: Known::opened(&opening, defaults),
                base: opening,
                events: Events {
                    items: Vec::new(alloc),
                },
            },
        }
    }

    /// Shares the events.
    pub fn try_clone(&self) -> Result<History, AllocError>
        ensures { IfOk result (λ copy. copy.past ≡ self.now.past) }
    {
        Ok(History {
            parts: self.parts.try_clone()?,
        })
    }

    /// How many events are kept.
    pub fn len(&self) -> usize
        ensures { result ≡ length self.now.past.events }
    {
        self.parts.events.items.as_slice().len()
    }

    /// The number of the last event, kept or not, or else the opening number.
    pub fn last_number(&self) -> u64
        ensures value { result ≡ last_number self.now.past }
        ensures limit { result ≤ NUMBER_LIMIT }
    {
        self.parts.last_number()
    }

    /// Whether no number is left for another event.
    pub fn is_full(&self) -> bool
        ensures { IsTrue result ↔ (NUMBER_LIMIT ≤ last_number self.now.past) }
    {
        self.last_number() >= limits::NUMBER_LIMIT
    }

    /// The event of this number, where it is kept.
    pub fn event(&self, number: u64) -> Option<&SharedEvent>
        ensures { option_copied result ≡ event_at self.now.past number }
    {
        if number <= self.parts.base {
            return None;
        }
        let index = number - self.parts.base - 1;
        self.parts.events.items.as_slice().get(index as usize)
    }

    /// Takes the memory for one more event.
    pub fn reserve(&mut self) -> Result<(), HistoryError>
        ensures same { self.new.past ≡ self.old.past }
        ensures ok { OnOk result ((0 < self.new.spare) × (last_number self.new.past < NUMBER_LIMIT)) }
        ensures full { IsErrOf result HistoryError.HistoryFull
            ↔ (NUMBER_LIMIT ≤ last_number self.old.past) }
    {
        if self.is_full() {
            return Err(HistoryError::HistoryFull);
        }
        self.parts.events.items.reserve(1)?;
        Ok(())
    }

    /// Adds an event whose memory was reserved. Takes no memory.
    pub fn push_reserved(&mut self, event: SharedEvent)
        requires reserved { 0 < self.old.spare }
        requires not_full { last_number self.old.past < NUMBER_LIMIT }
        ensures { self.new.past ≡ with_event self.old.past event }
    {
        let Ok(()) = self.parts.events.items.push(event) else {
            unreachable!()
        };
    }

    /// Adds an event.
    pub fn push(&mut self, event: SharedEvent) -> Result<(), HistoryError>
        ensures ok { OnOk result (self.new.past ≡ with_event self.old.past event) }
        ensures err { OnErr result (self.new.past ≡ self.old.past) }
        ensures full { IsErrOf result HistoryError.HistoryFull
            ↔ (NUMBER_LIMIT ≤ last_number self.old.past) }
    {
        self.reserve()?;
        self.push_reserved(event);
        Ok(())
    }

    /// Drops the events, after which the base says what they left. Takes no memory.
    pub fn checkpoint(&mut self)
        ensures checkpoint { IsCheckpoint self.old.past self.new.past }
        ensures reserved { 0 < self.old.spare → 0 < self.new.spare }
    {
        self.parts.checkpoint();
    }

    /// The requests that the journal shows, newest first. Shares the requests.
    pub fn requests(&self, alloc: Global) -> Result<Vec<Entry>, AllocError>
        ensures { IfOk result (λ entries. entries.items ≡ requests self.now.past) }
    {
        visible(
            alloc,
            Shown::All,
            self.parts.base,
            self.parts.events.items.as_slice(),
        )
    }

    /// Those that no mapping matched and that weren't forwarded, newest first.
    pub fn unmatched(&self, alloc: Global) -> Result<Vec<Entry>, AllocError>
        ensures { IfOk result (λ entries. entries.items ≡ unmatched self.now.past) }
    {
        visible(
            alloc,
            Shown::Unmatched,
            self.parts.base,
            self.parts.events.items.as_slice(),
        )
    }

    /// Those that meet the matcher, newest first.
    pub fn find(
        &self,
        alloc: Global,
        matcher: &mut RequestMatcher,
    ) -> Result<Vec<Entry>, AllocError>
        ensures found { IfOk result (λ found. Picks
            (λ entry. MeetsRequest matcher.old entry.request) (requests self.now.past) found.items) }
        ensures same { matcher.new ≡ matcher.old }
    {
        pick(alloc, matcher, self.requests(alloc)?.as_slice())
    }

    /// How many meet the matcher.
    pub fn count(&self, alloc: Global, matcher: &mut RequestMatcher) -> Result<usize, AllocError>
        ensures count { IfOk result (IsCount
            (λ entry. MeetsRequest matcher.old entry.request) (requests self.now.past)) }
        ensures same { matcher.new ≡ matcher.old }
    {
        Ok(self.find(alloc, matcher)?.len())
    }
}
