// What is kept of an accepted call.
ghost use Rattle.std.specs.Prelude.{◌≡◌, IfOk};

use request_journal::shared_event::SharedEvent;
use std::alloc::AllocError;

/// What a seat keeps of an accepted call: the number of its event, and the event, which it shares with the history.
pub struct Receipt {
    pub number: u64,
    pub event: SharedEvent,
}

// Written out, so that a caller's proof sees one call and not the drop of each part.
impl Drop for Receipt {
    fn drop(self) {
        let Receipt {
            number: _number,
            event: _event,
        } = self;
    }
}

impl Receipt {
    /// Takes no memory.
    pub fn try_clone(&self) -> Result<Receipt, AllocError>
        ensures { IfOk result (λ copy. copy ≡ self.now) }
    {
        Ok(Receipt {
            number: self.number,
            event: self.event.clone()?,
        })
    }
}
