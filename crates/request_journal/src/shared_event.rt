// An event that a history and receipts share.
ghost use Rattle.std.specs.Prelude.{◌≡◌, ◌↔◌, IfOk, IsTrue};

use crate::event::Event;
use plain_text::plain::Same;
use std::alloc::{AllocError, Global};
use std::marker::Model;
use std::mem::size_of;
use std::sync::Arc;

// Beside it a shared one has two counts, and each copy a pointer.
const _: () = prove!(size_of::<Event>() <= 64);

/// An event, which contracts see as it is: a copy shares it.
pub struct SharedEvent {
    event: Arc<Event>,
}

// Written out, so that a caller's proof sees one call and not the drop of each part.
impl Drop for SharedEvent {
    fn drop(self) {
        let SharedEvent { event: _event } = self;
    }
}

impl Model for SharedEvent {
    ghost use Rattle.std.specs.Arc.{arc_value};
    ghost use Rattle.request_journal.specs.declared.event.Event.{Event};

    ghost Value = { Event };

    ghost view = { λ s. arc_value s.event };
}

impl SharedEvent {
    ghost use Rattle.std.specs.Arc.{arc_value};

    pub fn new(alloc: Global, event: Event) -> Result<SharedEvent, AllocError>
        ensures { IfOk result (λ shared. shared ≡ event) }
    {
        Ok(SharedEvent {
            event: Arc::new(alloc, event)?,
        })
    }

    pub(crate) fn from_arc(event: Arc<Event>) -> SharedEvent
        ensures { result ≡ arc_value event }
    {
        SharedEvent { event }
    }

    pub fn event(&self) -> &Event
        ensures { result.now ≡ self.now }
    {
        &self.event
    }

    pub fn same(&self, other: &SharedEvent) -> bool
        ensures { IsTrue result ↔ (self.now ≡ other.now) }
    {
        self.event().same(other.event())
    }
}

/// Takes no memory.
impl Clone for SharedEvent {
    ghost use Rattle.std.specs.Prelude.{◌≡◌};

    ghost is_clone = { λ original copy. copy ≡ original };

    fn clone(&self) -> Result<SharedEvent, AllocError> {
        Ok(SharedEvent {
            event: Arc::try_clone(&self.event)?,
        })
    }
}

impl Same for SharedEvent {
    fn same(&self, other: &SharedEvent) -> bool {
        SharedEvent::same(self, other)
    }
}
