// Serving a request.
ghost use Rattle.std.specs.Prelude.{◌≡◌, IfErr, IfOk, OnErr, OnOk};
ghost use Rattle.mock_request.specs.Request.{Request};
ghost use Rattle.request_journal.specs.Choice.{IsChoice};
ghost use Rattle.request_journal.specs.Past.{Past};
ghost use Rattle.request_journal.specs.State.{StatesFollow};
ghost use Rattle.request_journal.specs.declared.event.Event.TheVariants as event;
ghost use Rattle.scenario_core.specs.Scenarios.{state_of};
ghost use Rattle.stub_book.specs.Growth.{Grows, IsServed};
ghost use Rattle.stub_book.specs.Inner.Kept.{Agrees, IsUnchosen};
ghost use Rattle.stub_book.specs.Refusals.{IsServeRefusal};

use crate::book::Book;
use crate::error::BookError;
use mapping_store::mapping_store::MappingStore;
use mock_request::snapshot::Snapshot;
use recorder::recording::Recording;
use request_journal::event::{Captured, Event, ServeAnswer};
use request_journal::event_memory::EventMemory;
use request_journal::shared_event::SharedEvent;
use request_journal::shared_request::SharedRequest;
use request_match::parsed_request::ParsedRequest;
use scenario_core::scenarios::Scenarios;
use std::alloc::{AllocError, Global};

impl Book {
    /// Answers the request: chooses a mapping for it, and moves the mapping's scenario, if it moves one.
    pub fn serve(&mut self, request: Snapshot) -> Result<ServeAnswer, BookError>
        ensures ok { IfOk result (λ answer. Grows self.old self.new (event.Serve request answer)) }
        ensures err { OnErr result (self.new ≡ self.old) }
        ensures why { IfErr result (λ error. IsServeRefusal self.old error.code) }
    {
        self.has_number()?;
        let memory = EventMemory::new(self.alloc)?;
        let shared = SharedRequest::new(self.alloc, request)?;
        let kept = shared.clone()?;
        let mut parsed = ParsedRequest::new(self.alloc, shared.request());
        let answer = self.chosen(&mut parsed)?;
        let copy = answer.try_clone()?;
        self.add_served(kept, answer, memory)?;
        Ok(copy)
    }

    /// The same for a request that is shared already, with memory for its event that was taken before: under a lock the
    /// request is only compared and noted. It gives the event, which is shared with the history.
    pub fn serve_read(
        &mut self,
        request: SharedRequest,
        parsed: &mut ParsedRequest<'_>,
        memory: EventMemory,
    ) -> Result<SharedEvent, BookError>
        requires { parsed.old ≡ request }
        ensures ok { IfOk result (λ served. IsServed request served × Grows self.old self.new served) }
        ensures err { OnErr result (self.new ≡ self.old) }
        ensures why { IfErr result (λ error. IsServeRefusal self.old error.code) }
        ensures same_request { parsed.new ≡ parsed.old }
    {
        self.has_number()?;
        let answer = self.chosen(parsed)?;
        self.add_served(request, answer, memory)
    }

    // What the request is answered with. Nothing changes.
    fn chosen(&mut self, request: &mut ParsedRequest<'_>) -> Result<ServeAnswer, AllocError>
        ensures answer { IfOk result (IsChoice self.old request.old) }
        ensures same { self.new ≡ self.old }
        ensures same_request { request.new ≡ request.old }
    {
        choose(&mut self.store, &self.scenarios, &self.recording, request)
    }

    // Adds the event of a request that this was chosen for. What can fail comes before anything changes.
    fn add_served(
        &mut self,
        request: SharedRequest,
        answer: ServeAnswer,
        memory: EventMemory,
    ) -> Result<SharedEvent, BookError>
        requires { IsChoice self.old request answer }
        ensures ok { IfOk result
            (λ served. (served ≡ event.Serve request answer) × Grows self.old self.new served) }
        ensures err { OnErr result (self.new ≡ self.old) }
        ensures why { IfErr result (λ error. IsServeRefusal self.old error.code) }
    {
        self.history.reserve()?;
        let event = memory.fill(self.alloc, Event::Serve { request, answer })?;
        let shared = event.clone()?;
        move_scenario(self.alloc, &mut self.scenarios, event.event())?;
        self.history.push_reserved(event);
        Ok(shared)
    }
}

// What the request is answered with. The store is not changed.
fn choose(
    store: &mut MappingStore,
    scenarios: &Scenarios,
    recording: &Recording,
    request: &mut ParsedRequest<'_>,
) -> Result<ServeAnswer, AllocError>
    ensures answer { IfOk result (λ answer. (past : Past) → Agrees past store.old scenarios.now recording.now
        → IsChoice past request.old answer) }
    ensures same { store.new ≡ store.old }
    ensures same_request { request.new ≡ request.old }
{
    let found = store.find(scenarios, request)?;
    match found {
        Some(mapping) => Ok(ServeAnswer::Stub(Captured { mapping })),
        None => unchosen(recording),
    }
}

// What a request is answered with that no mapping was chosen for.
fn unchosen(recording: &Recording) -> Result<ServeAnswer, AllocError>
    ensures { IfOk result (IsUnchosen recording.now) }
{
    match recording {
        Recording::On(session) => Ok(ServeAnswer::Proxy(session.target.clone()?)),
        Recording::NeverStarted | Recording::Stopped(_) => Ok(ServeAnswer::Unmatched),
    }
}

// Moves the scenario of the mapping that a request was answered with, if it moves one.
fn move_scenario(alloc: Global, scenarios: &mut Scenarios, served: &Event) -> Result<(), AllocError>
    ensures ok { OnOk result ((request : Request) (answer : ServeAnswer) → served.now ≡ event.Serve request answer
        → StatesFollow (state_of scenarios.old) (state_of scenarios.new) (event.Serve request answer)) }
    ensures err { OnErr result (scenarios.new ≡ scenarios.old) }
{
    let Event::Serve {
        answer: ServeAnswer::Stub(captured),
        ..
    } = served
    else {
        return Ok(());
    };
    let Some(scenario) = &captured.mapping.spec.spec().scenario else {
        return Ok(());
    };
    match &scenario.next {
        Some(next) => scenarios.move_to(alloc, scenario.name.as_str(), next.as_str()),
        None => Ok(()),
    }
}
