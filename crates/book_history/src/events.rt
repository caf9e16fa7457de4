// The events that are kept.
ghost use Rattle.std.specs.Prelude.{◌≡◌, IfOk};

use request_journal::shared_event::SharedEvent;
use std::alloc::AllocError;

/// The events that are kept, oldest first.
#[derive(Drop)]
pub(crate) struct Events {
    pub(crate) items: Vec<SharedEvent>,
}

impl Events {
    /// Shares the events.
    pub(crate) fn try_clone(&self) -> Result<Events, AllocError>
        ensures { IfOk result (λ copy. copy.items.items ≡ self.now.items.items) }
    {
        let mut items = Vec::with_capacity(*self.items.allocator(), self.items.len())?;
        for event in self.items.as_slice() {
            items.push(event.clone()?)?;
        }
        Ok(Events { items })
    }
}
