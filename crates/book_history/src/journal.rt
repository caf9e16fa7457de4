// What the journal shows of a list of events.
ghost use Rattle.std.specs.Prelude.{◌≡◌, ◌+◌, ◌^◌, ◌<◌, length, option_copied, IfOk};
ghost use Rattle.book_history.specs.Inner.Shown.{found_by, visible_in};

use request_journal::entry::Entry;
use request_journal::event::Event;
use request_journal::shared_event::SharedEvent;
use request_journal::shared_request::SharedRequest;
use std::alloc::{AllocError, Global};

/// Which requests are shown.
#[derive(Clone, Copy, Debug, PartialEq, Eq)]
pub(crate) enum Shown {
    All,
    Unmatched,
}

impl Shown {
    ghost use Rattle.book_history.specs.Inner.Shown.{found_by};

    /// The request of the event, if it is shown.
    fn request_of(self, event: &Event) -> Option<&SharedRequest>
        ensures { option_copied result ≡ found_by self event.now }
    {
        match self {
            Shown::All => event.request(),
            Shown::Unmatched => event.unmatched(),
        }
    }
}

/// The requests shown of events that come after the one with that number: those after the last that clears the journal,
/// newest first.
pub(crate) fn visible(
    alloc: Global,
    shown: Shown,
    before: u64,
    events: &[SharedEvent],
) -> Result<Vec<Entry>, AllocError>
    requires { before + length events.now < 2 ^ 64 }
    ensures { IfOk result (λ entries. entries.items ≡ visible_in (found_by shown) before events.now) }
{
    let mut entries = Vec::new(alloc);
    let mut left = events.len();
    while left > 0 {
        left -= 1;
        let event = events[left].event();
        if event.clears() {
            return Ok(entries);
        }
        if let Some(request) = shown.request_of(event) {
            entries.push(Entry {
                number: before + left as u64 + 1,
                request: request.clone()?,
            })?;
        }
    }
    Ok(entries)
}
