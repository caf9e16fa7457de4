// What happens to a book.
ghost use Rattle.std.specs.Prelude.{◌≡◌, ◌↔◌, IfOk, IsTrue};

use crate::mapping::Mapping;
use crate::shared_request::SharedRequest;
use mapping_model::mapping_id::MappingId;
use plain_text::items::Items;
use plain_text::plain::Same;
use plain_text::text::Text;
use recorder::exchange::SharedExchange;
use recorder::target::Target;
use request_match::shared_spec::SharedSpec;
use std::alloc::AllocError;

/// The mapping that was chosen for a request, as it was then. Its version of the response is shared.
pub struct Captured {
    pub mapping: Mapping,
}

// Written out, so that a caller's proof sees one call and not the drop of each part.
impl Drop for Captured {
    fn drop(self) {
        let Captured { mapping: _mapping } = self;
    }
}

impl Captured {
    pub fn try_clone(&self) -> Result<Captured, AllocError>
        ensures { IfOk result (λ copy. copy ≡ self.now) }
    {
        Ok(Captured {
            mapping: self.mapping.clone()?,
        })
    }

    pub fn same(&self, other: &Captured) -> bool
        ensures { IsTrue result ↔ (self.now ≡ other.now) }
    {
        self.mapping.same(&other.mapping)
    }
}

/// What a request is answered with.
pub enum ServeAnswer {
    Stub(Captured),
    /// It is forwarded, because a recording is on.
    Proxy(Target),
    Unmatched,
}

// Written out, so that a caller's proof sees one call and not the drop of each part.
impl Drop for ServeAnswer {
    fn drop(self) {
        match self {
            ServeAnswer::Stub(_captured) => {}
            ServeAnswer::Proxy(_target) => {}
            ServeAnswer::Unmatched => {}
        }
    }
}

impl ServeAnswer {
    pub fn try_clone(&self) -> Result<ServeAnswer, AllocError>
        ensures { IfOk result (λ copy. copy ≡ self.now) }
    {
        Ok(match self {
            ServeAnswer::Stub(captured) => ServeAnswer::Stub(captured.try_clone()?),
            ServeAnswer::Proxy(target) => ServeAnswer::Proxy(target.clone()?),
            ServeAnswer::Unmatched => ServeAnswer::Unmatched,
        })
    }

    pub fn same(&self, other: &ServeAnswer) -> bool
        ensures { IsTrue result ↔ (self.now ≡ other.now) }
    {
        match (self, other) {
            (ServeAnswer::Stub(a), ServeAnswer::Stub(b)) => a.same(b),
            (ServeAnswer::Proxy(a), ServeAnswer::Proxy(b)) => a.same(b),
            (ServeAnswer::Unmatched, ServeAnswer::Unmatched) => true,
            _ => false,
        }
    }
}

/// One change of the book that was accepted, or one request that was served: what was asked for, and what was
/// answered. An event that says no answer was answered with nothing else.
pub enum Event {
    Serve {
        request: SharedRequest,
        answer: ServeAnswer,
    },
    /// The mapping is the answer: its id was given to it.
    Add(Mapping),
    /// The mapping of this id is written anew, and keeps its id.
    Edit {
        id: MappingId,
        spec: SharedSpec,
    },
    Delete(MappingId),
    DeleteAll,
    ResetMappings,
    ResetAll,
    ResetScenarios,
    SetScenario {
        name: Text,
        state: Text,
    },
    ClearJournal,
    StartRecording {
        target: Target,
        /// The names of the request headers that recorded mappings match.
        captured: Items<Text>,
        /// Whether equal requests become a scenario.
        repeats: bool,
    },
    /// The exchange of the serve with this number.
    Record {
        serve: u64,
        exchange: SharedExchange,
    },
    /// The mappings that were recorded and added, and the number of exchanges that none was made of.
    StopRecording {
        mappings: Items<Mapping>,
        skipped: u64,
    },
}

// Written out, so that a caller's proof sees one call and not the drop of each part.
impl Drop for Event {
    fn drop(self) {
        match self {
            Event::Serve {
                request: _request,
                answer: _answer,
            } => {}
            Event::Add(_mapping) => {}
            Event::Edit {
                id: _id,
                spec: _spec,
            } => {}
            Event::Delete(_id) => {}
            Event::DeleteAll => {}
            Event::ResetMappings => {}
            Event::ResetAll => {}
            Event::ResetScenarios => {}
            Event::SetScenario {
                name: _name,
                state: _state,
            } => {}
            Event::ClearJournal => {}
            Event::StartRecording {
                target: _target,
                captured: _captured,
                repeats: _repeats,
            } => {}
            Event::Record {
                serve: _serve,
                exchange: _exchange,
            } => {}
            Event::StopRecording {
                mappings: _mappings,
                skipped: _skipped,
            } => {}
        }
    }
}

impl Event {
    ghost use Rattle.std.specs.Prelude.{option_copied};
    ghost use Rattle.request_journal.specs.Journal.{clears, request_of, unmatched_of};

    /// Whether it clears what the journal shows.
    pub fn clears(&self) -> bool
        ensures { result ≡ clears self.now }
    {
        matches!(self, Event::ClearJournal | Event::ResetAll)
    }

    /// The request that it served.
    pub fn request(&self) -> Option<&SharedRequest>
        ensures { option_copied result ≡ request_of self.now }
    {
        match self {
            Event::Serve { request, .. } => Some(request),
            _ => None,
        }
    }

    /// The request that it served unmatched.
    pub fn unmatched(&self) -> Option<&SharedRequest>
        ensures { option_copied result ≡ unmatched_of self.now }
    {
        match self {
            Event::Serve { request, answer } => match answer {
                ServeAnswer::Unmatched => Some(request),
                _ => None,
            },
            _ => None,
        }
    }

    /// Shares requests, mappings and exchanges.
    pub fn try_clone(&self) -> Result<Event, AllocError>
        ensures { IfOk result (λ copy. copy ≡ self.now) }
    {
        Ok(match self {
            Event::Serve { request, answer } => Event::Serve {
                request: request.clone()?,
                answer: answer.try_clone()?,
            },
            Event::Add(mapping) => Event::Add(mapping.clone()?),
            Event::Edit { id, spec } => Event::Edit {
                id: *id,
                spec: spec.clone()?,
            },
            Event::Delete(id) => Event::Delete(*id),
            Event::DeleteAll => Event::DeleteAll,
            Event::ResetMappings => Event::ResetMappings,
            Event::ResetAll => Event::ResetAll,
            Event::ResetScenarios => Event::ResetScenarios,
            Event::SetScenario { name, state } => Event::SetScenario {
                name: name.clone()?,
                state: state.clone()?,
            },
            Event::ClearJournal => Event::ClearJournal,
            Event::StartRecording {
                target,
                captured,
                repeats,
            } => Event::StartRecording {
                target: target.clone()?,
                captured: captured.clone()?,
                repeats: *repeats,
            },
            Event::Record { serve, exchange } => Event::Record {
                serve: *serve,
                exchange: exchange.clone()?,
            },
            Event::StopRecording { mappings, skipped } => Event::StopRecording {
                mappings: mappings.clone()?,
                skipped: *skipped,
            },
        })
    }

    pub fn same(&self, other: &Event) -> bool
        ensures { IsTrue result ↔ (self.now ≡ other.now) }
    {
        match self {
            Event::Serve { request, answer } => match other {
                Event::Serve {
                    request: other_request,
                    answer: other_answer,
                } => request.same(other_request) && answer.same(other_answer),
                _ => false,
            },
            Event::Add(mapping) => matches!(other, Event::Add(other) if mapping.same(other)),
            Event::Edit { id, spec } => match other {
                Event::Edit {
                    id: other_id,
                    spec: other_spec,
                } => id.same(*other_id) && spec.same(other_spec),
                _ => false,
            },
            Event::Delete(id) => matches!(other, Event::Delete(other) if id.same(*other)),
            Event::DeleteAll => matches!(other, Event::DeleteAll),
            Event::ResetMappings => matches!(other, Event::ResetMappings),
            Event::ResetAll => matches!(other, Event::ResetAll),
            Event::ResetScenarios => matches!(other, Event::ResetScenarios),
            Event::SetScenario { name, state } => match other {
                Event::SetScenario {
                    name: other_name,
                    state: other_state,
                } => name.same(other_name) && state.same(other_state),
                _ => false,
            },
            Event::ClearJournal => matches!(other, Event::ClearJournal),
            Event::StartRecording {
                target,
                captured,
                repeats,
            } => match other {
                Event::StartRecording {
                    target: other_target,
                    captured: other_captured,
                    repeats: other_repeats,
                } => {
                    target.same(other_target)
                        && captured.same(other_captured)
                        && repeats == other_repeats
                }
                _ => false,
            },
            Event::Record { serve, exchange } => match other {
                Event::Record {
                    serve: other_serve,
                    exchange: other_exchange,
                } => serve == other_serve && exchange.same(other_exchange),
                _ => false,
            },
            Event::StopRecording { mappings, skipped } => match other {
                Event::StopRecording {
                    mappings: other_mappings,
                    skipped: other_skipped,
                } => mappings.same(other_mappings) && skipped == other_skipped,
                _ => false,
            },
        }
    }
}
