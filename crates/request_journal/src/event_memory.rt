// The memory of an event that is still to happen.
ghost use Rattle.std.specs.Prelude.{◌≡◌, IfOk};

use crate::event::Event;
use crate::shared_event::SharedEvent;
use std::alloc::{AllocError, Global};
use std::sync::Arc;

/// Memory for one event, taken before it is known what happens.
pub struct EventMemory {
    // Until the event is known, another one that owns nothing stands there.
    event: Arc<Event>,
}

// Written out, so that a caller's proof sees one call and not the drop of each part.
impl Drop for EventMemory {
    fn drop(self) {
        let EventMemory { event: _event } = self;
    }
}

impl EventMemory {
    pub fn new(alloc: Global) -> Result<EventMemory, AllocError> {
        Ok(EventMemory {
            event: Arc::new(alloc, Event::DeleteAll)?,
        })
    }

    /// The event, written into this memory. Takes no other: it has one owner, so its place can be written to.
    pub fn fill(self, alloc: Global, event: Event) -> Result<SharedEvent, AllocError>
        ensures { IfOk result (λ shared. shared ≡ event) }
    {
        let EventMemory { event: mut memory } = self;
        match Arc::get_mut(&mut memory) {
            Some(place) => {
                *place = event;
                Ok(SharedEvent::from_arc(memory))
            }
            None => SharedEvent::new(alloc, event),
        }
    }
}
