// A world: a book, and what actors hold.
ghost use Rattle.std.specs.Prelude.{◌≡◌, ◌≢◌, [], Option, IfOk, OnErr, OnOk};
ghost use Rattle.request_journal.specs.Legal.{IsLegal};
ghost use Rattle.request_journal.specs.declared.event.Event.{Event};
ghost use Rattle.error_code.specs.declared.error_code.ErrorCode.TheVariants.{OutOfMemory};
ghost use Rattle.world_core.specs.Schedule as schedule;
ghost use Rattle.world_core.specs.Schedule.{IsAct, IsFinish, IsGiven, IsResponseOf, IsStep};
ghost use Rattle.shared_book.specs.declared.script.Call.TheVariants.{Apply, Serve};

use crate::held::{Held, held_by, hold, let_go};
use crate::step::Step;
use error_code::error_code::ErrorCode;
use mapping_model::reply::Reply;
use mock_request::snapshot::Snapshot;
use request_journal::event::{Event, ServeAnswer};
use request_journal::event_memory::EventMemory;
use request_journal::input::BookInput;
use request_journal::shared_request::SharedRequest;
use request_match::parsed_request::ParsedRequest;
use shared_book::script::Call;
use std::alloc::{AllocError, Global};
use std::marker::Model;
use stub_book::book::Book;
use stub_book::error::BookError;
use stub_response::limits::Limits;
use stub_response::respond::respond;

/// A book, the mappings that were chosen for requests of actors that haven't finished, and the limits of responses.
pub struct World {
    book: Book,
    held: Vec<Held>,
    limits: Limits,
    alloc: Global,
}

impl Model for World {
    ghost use Rattle.std.specs.Coded.{codes};
    ghost use Rattle.book_history.specs.Inner.Codes.{states_code};
    ghost use Rattle.world_core.specs.Schedule.{WorldState};

    ghost Value = { WorldState };

    ghost coded = { Prim.hlevel (codes, states_code) };

    ghost view = { λ w. record { past = w.book; held = w.held.items; limits = w.limits } };
}

// Written out, so that a caller's proof sees one call and not the drop of each part.
impl Drop for World {
    fn drop(self) {
        let World {
            book: _book,
            held: _held,
            limits: _limits,
            alloc: _alloc,
        } = self;
    }
}

impl World {
    /// No actor holds anything.
    pub fn new(alloc: Global, book: Book, limits: Limits) -> World
        ensures value { result ≡ record { past = book; held = []; limits = limits } }
        ensures legal { IsLegal result.past }
    {
        // For its clause: the book's past is legal.
        let _number = book.event_count();
        World {
            book,
            held: Vec::new(alloc),
            limits,
            alloc,
        }
    }

    pub(crate) fn allocator(&self) -> Global {
        self.alloc
    }

    pub fn book(&self) -> &Book
        ensures { result.now ≡ self.now.past }
    {
        &self.book
    }

    /// Makes one step, and gives the reply of a finish. A call that the history refuses changes nothing; only where
    /// memory runs out there is an error.
    pub fn step(&mut self, step: Step) -> Result<Option<Reply>, AllocError>
        ensures ok { IfOk result (λ reply. (event : Option Event)
            × IsStep self.old step (record { event = event; reply = reply }) self.new) }
        ensures err { OnErr result (self.new ≡ self.old) }
    {
        match step {
            Step::Act { actor, call } => {
                self.act(actor, call)?;
                Ok(None)
            }
            Step::Finish { actor } => self.finish(actor),
        }
    }

    fn act(&mut self, actor: u64, call: Call) -> Result<(), AllocError>
        ensures ok { OnOk result ((event : Option Event) × IsAct self.old actor call event self.new) }
        ensures err { OnErr result (self.new ≡ self.old) }
    {
        match call {
            Call::Serve(request) => self.serve(actor, request),
            Call::Apply(input) => self.apply(actor, input),
        }
    }

    fn serve(&mut self, actor: u64, request: Snapshot) -> Result<(), AllocError>
        ensures ok { OnOk result ((event : Option Event) × IsAct self.old actor (Serve request) event self.new) }
        ensures err { OnErr result (self.new ≡ self.old) }
    {
        let shared = SharedRequest::new(self.alloc, request)?;
        let kept = shared.clone()?;
        let mut parsed = ParsedRequest::new(self.alloc, shared.request());
        self.held.reserve(1)?;
        let memory = EventMemory::new(self.alloc)?;
        match self.book.serve_read(kept, &mut parsed, memory) {
            Ok(event) => {
                hold(&mut self.held, actor, event);
                Ok(())
            }
            Err(error) => refused(error),
        }
    }

    fn apply(&mut self, actor: u64, input: BookInput) -> Result<(), AllocError>
        ensures ok { OnOk result ((event : Option Event) × IsAct self.old actor (Apply input) event self.new) }
        ensures err { OnErr result (self.new ≡ self.old) }
    {
        match self.book.apply_shared(input) {
            Ok(_changed) => Ok(()),
            Err(error) => refused(error),
        }
    }

    fn finish(&mut self, actor: u64) -> Result<Option<Reply>, AllocError>
        ensures ok { IfOk result (λ reply. IsFinish self.old actor reply self.new) }
        ensures err { OnErr result (self.new ≡ self.old) }
    {
        let reply = self.reply_for(actor)?;
        let_go(&mut self.held, actor);
        Ok(reply)
    }

    fn reply_for(&self, actor: u64) -> Result<Option<Reply>, AllocError>
        ensures { IfOk result (λ reply. IsGiven self.now.limits (schedule.held_by actor self.now.held) reply) }
    {
        match held_by(self.held.as_slice(), actor) {
            Some(held) => self.response(held.event.event()),
            None => Ok(None),
        }
    }

    // The response of the mapping that the event chose.
    fn response(&self, event: &Event) -> Result<Option<Reply>, AllocError>
        ensures { IfOk result (IsResponseOf self.now.limits event.now) }
    {
        let Event::Serve { request, answer } = event else {
            return Ok(None);
        };
        let ServeAnswer::Stub(captured) = answer else {
            return Ok(None);
        };
        let spec = captured.mapping.spec.spec();
        let reply = respond(self.alloc, spec, request.request(), self.limits)?;
        Ok(Some(reply))
    }
}

// A call that is refused is a step that changes nothing, but for want of memory.
fn refused(error: BookError) -> Result<(), AllocError>
    ensures { OnOk result (error.code ≢ OutOfMemory) }
{
    match error.code {
        ErrorCode::OutOfMemory => Err(AllocError),
        _ => Ok(()),
    }
}
