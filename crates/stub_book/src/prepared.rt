// An event that is ready to be added.
ghost use Rattle.std.specs.Prelude.{◌≡◌, ◌<◌, IfErr, IfOk};
ghost use Rattle.request_journal.specs.Input as asked;
ghost use Rattle.request_journal.specs.Past.{last_number};
ghost use Rattle.request_journal.specs.declared.limits.TheConstants.{NUMBER_LIMIT};
ghost use Rattle.stub_book.specs.Inner.Kept.{IsPrepared};
ghost use Rattle.stub_book.specs.Refusals.{IsServeRefusal};

use crate::accepted::Accepted;
use crate::error::BookError;
use book_history::history::History;
use request_journal::event::Event;
use request_journal::input::BookAnswer;
use request_journal::mapping::Mapping;
use request_journal::shared_event::SharedEvent;
use std::alloc::{AllocError, Global};

/// An event that the history has room for, and what its call gives once it is added.
#[derive(Drop)]
pub(crate) struct Prepared {
    pub(crate) event: SharedEvent,
    pub(crate) accepted: Accepted,
}

/// Takes the memory for the event, for its place in the history and for the answer, so that adding it takes none.
pub(crate) fn prepare(
    alloc: Global,
    history: &mut History,
    event: Event,
) -> Result<Prepared, BookError>
    ensures same { history.new.past ≡ history.old.past }
    ensures ok { IfOk result (λ made. IsPrepared event made × (0 < history.new.spare)
        × (last_number history.old.past < NUMBER_LIMIT)) }
    ensures why { IfErr result (λ error. IsServeRefusal history.old.past error.code) }
{
    history.reserve()?;
    let answer = answer_of(&event)?;
    let event = SharedEvent::new(alloc, event)?;
    let shared = event.clone()?;
    Ok(Prepared {
        event,
        accepted: Accepted {
            event: shared,
            answer,
        },
    })
}

// What is answered with an event.
fn answer_of(event: &Event) -> Result<BookAnswer, AllocError>
    ensures { IfOk result (λ answer. answer ≡ asked.answer_of event.now) }
{
    Ok(match event {
        Event::Add(mapping) => BookAnswer::Mapping(mapping.clone()?),
        Event::Edit { id, spec } => BookAnswer::Mapping(Mapping {
            id: *id,
            spec: spec.clone()?,
        }),
        Event::StopRecording { mappings, skipped } => BookAnswer::Recorded {
            mappings: mappings.clone()?,
            skipped: *skipped,
        },
        _ => BookAnswer::Done,
    })
}
