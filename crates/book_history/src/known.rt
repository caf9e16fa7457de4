// What only contracts see of a past.
ghost use Rattle.std.specs.Borrow.{ftrue};
ghost use Rattle.std.specs.Coded.{codes};
ghost use Rattle.std.specs.Prelude.{◌≡◌, []};
ghost use Rattle.request_journal.specs.Past.{Past, with_events};
ghost use Rattle.book_history.specs.Inner.Checkpoint.{just_opened, checkpointed};
ghost use Rattle.book_history.specs.Inner.Codes.{states_code};

use crate::events::Events;
use plain_text::items::Items;
use request_journal::mapping::Mapping;
use std::alloc::Global;
use std::marker::Model;

/// A past without events: how a book was opened, and what the events left that were dropped since. It takes no memory.
#[derive(Drop)]
pub(crate) struct Known {
    pub(crate) ghost past: { Past } by { Prim.hlevel (codes, states_code) },
}

impl Model for Known {
    ghost also_owns = { λ _. ftrue };
}

impl Known {
    /// That of a book that was just opened.
    pub(crate) fn opened(_opening: &u64, _defaults: &Items<Mapping>) -> Known
        ensures { result.past ≡ just_opened _opening.now _defaults.now }
    {
        Known {}
    }

    /// The same: what a checkpoint without events leaves.
    pub(crate) fn copy(&self, alloc: Global) -> Known
        ensures { result.past ≡ checkpointed (with_events self.now.past []) }
    {
        let none = Events {
            items: Vec::new(alloc),
        };
        Known::after(self, &none)
    }

    /// The same after these events, which may then be dropped.
    pub(crate) fn after(_known: &Known, _events: &Events) -> Known
        ensures { result.past ≡ checkpointed (with_events _known.now.past _events.now.items.items) }
    {
        Known {}
    }
}
