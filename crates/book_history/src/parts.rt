// What a history is made of.
ghost use Rattle.std.specs.Prelude.{◌≡◌, ◌+◌, ◌<◌, ◌≤◌, [], length, IfOk, vec_len, vec_capacity};
ghost use Rattle.request_journal.specs.Past.{with_events};
ghost use Rattle.request_journal.specs.declared.limits.TheConstants.{NUMBER_LIMIT};
ghost use Rattle.book_history.specs.Inner.Checkpoint.{checkpointed};

use crate::events::Events;
use crate::known::Known;
use std::alloc::AllocError;

/// How many events there is room for, at least, after a checkpoint of a history that had room for as many.
const ROOM_KEPT: usize = 64;

/// What a history is made of.
#[derive(Drop)]
pub(crate) struct Parts {
    /// For contracts alone.
    pub(crate) known: Known,
    /// The number of the last event that was dropped, or the opening number.
    pub(crate) base: u64,
    pub(crate) events: Events,
}

impl Parts {
    /// The number of the last event.
    pub(crate) fn last_number(&self) -> u64
        requires { self.now.base + length self.now.events.items.items ≤ NUMBER_LIMIT }
        ensures { result ≡ self.now.base + length self.now.events.items.items }
    {
        self.base + self.events.items.as_slice().len() as u64
    }

    /// Shares the events.
    pub(crate) fn try_clone(&self) -> Result<Parts, AllocError>
        ensures known { IfOk result (λ copy. copy.known.past
            ≡ checkpointed (with_events self.now.known.past [])) }
        ensures base { IfOk result (λ copy. copy.base ≡ self.now.base) }
        ensures events { IfOk result (λ copy. copy.events.items.items ≡ self.now.events.items.items) }
    {
        let events = self.events.try_clone()?;
        Ok(Parts {
            known: self.known.copy(*self.events.items.allocator()),
            base: self.base,
            events,
        })
    }

    pub(crate) fn checkpoint(&mut self)
        requires { self.old.base + length self.old.events.items.items ≤ NUMBER_LIMIT }
        ensures known { self.new.known.past
            ≡ checkpointed (with_events self.old.known.past self.old.events.items.items) }
        ensures base { self.new.base ≡ self.old.base + length self.old.events.items.items }
        ensures empty { self.new.events.items.items ≡ [] }
        ensures len { vec_len self.new.events.items ≡ 0 }
        ensures room { 0 < vec_capacity self.old.events.items → 0 < vec_capacity self.new.events.items }
    {
        let base = self.last_number();
        let known = Known::after(&self.known, &self.events);
        self.known = known;
        self.base = base;
        self.events.items.clear();
        self.events.items.shrink_to(ROOM_KEPT);
    }
}
