// A request that the journal shows.
ghost use Rattle.std.specs.Prelude.{◌≡◌, IfOk};

use crate::shared_request::SharedRequest;
use std::alloc::AllocError;

/// A request, with the number of the event that served it.
#[derive(Drop)]
pub struct Entry {
    pub number: u64,
    pub request: SharedRequest,
}

impl Entry {
    /// Takes no memory.
    pub fn try_clone(&self) -> Result<Entry, AllocError>
        ensures { IfOk result (λ copy. copy ≡ self.now) }
    {
        Ok(Entry {
            number: self.number,
            request: self.request.clone()?,
        })
    }
}
