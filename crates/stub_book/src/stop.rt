// The call that stops a recording.
ghost use Rattle.std.specs.Prelude.{◌≡◌, ◌⊎◌, ◌<◌, ◌≤◌, All, IfErr, IfOk, OnErr, OnOk, length};
ghost use Rattle.error_code.specs.declared.error_code.ErrorCode.TheVariants as code;
ghost use Rattle.recorder.specs.Stubs.{recorded_mappings, recorded_skipped};
ghost use Rattle.request_journal.specs.Legal.{IsAnswer, identified};
ghost use Rattle.request_journal.specs.Live.{live};
ghost use Rattle.request_journal.specs.Past.{with_event};
ghost use Rattle.request_journal.specs.declared.event.Event.TheVariants as event;
ghost use Rattle.request_journal.specs.declared.input.BookInput.TheVariants as input;
ghost use Rattle.request_journal.specs.declared.limits.TheConstants.{LIVE_LIMIT};
ghost use Rattle.stub_book.specs.Growth.{IsAccepted};
ghost use Rattle.stub_book.specs.Inner.Recorded.{LacksOnlyMemory};
ghost use Rattle.request_match.specs.Refusal as matcher;
ghost use Rattle.stub_book.specs.Refusals.{IsOwnReason, IsRefusal};

use crate::accepted::Accepted;
use crate::book::Book;
use crate::error::BookError;
use crate::prepared::prepare;
use bytes::Bytes;
use error_code::error_code::ErrorCode;
use mapping_model::mapping_id::MappingId;
use mapping_model::mapping_spec::MappingSpec;
use mapping_store::book_mapping::BookMapping;
use mapping_store::defaults::copies;
use plain_text::items::Items;
use recorded_stubs::stubs::stubs_of;
use recorder::recording::{Recording, Session};
use request_journal::event::Event;
use request_journal::limits;
use request_journal::mapping::Mapping;
use request_match::error::RequestMatchError;
use request_match::ready_mapping::ReadyMapping;
use std::alloc::{AllocError, Global};

/// The mappings that stopping a recording adds, and how many exchanges it skips.
#[derive(Drop)]
pub(crate) struct Additions {
    pub(crate) added: Vec<BookMapping>,
    /// The same, as the event has them.
    pub(crate) mappings: Items<Mapping>,
    pub(crate) skipped: u64,
}

impl Book {
    /// Stops the recording that is on, and adds the mappings of its exchanges by the same event. Where too many would
    /// be live it stays on, and keeps its exchanges.
    pub fn stop_recording(&mut self) -> Result<Accepted, BookError>
        ensures ok { IfOk result (IsAccepted self.old self.new input.StopRecording) }
        ensures err { OnErr result (self.new ≡ self.old) }
        ensures why { IfErr result (λ error. IsRefusal self.old input.StopRecording error.code) }
    {
        self.has_number()?;
        let number = self.history.last_number() + 1;
        let stubs = self.recorded()?;
        self.has_places(&stubs)?;
        self.store.reserve(stubs.added.len())?;
        let event = Event::StopRecording {
            mappings: stubs.mappings,
            skipped: stubs.skipped,
        };
        let made = prepare(self.alloc, &mut self.history, event)?;
        let Ok(()) = self.recording.stop() else {
            unreachable!()
        };
        self.store.add_all(number, stubs.added);
        self.history.push_reserved(made.event);
        Ok(made.accepted)
    }

    // What stopping the recording that is on adds.
    fn recorded(&self) -> Result<Additions, BookError>
        ensures same { IfOk result (λ stubs. stubs.added.items ≡ stubs.mappings) }
        ensures ok { IfOk result (λ stubs. IsAnswer self.now (event.StopRecording stubs.mappings stubs.skipped)) }
        ensures why { IfErr result (λ error.
            IsOwnReason self.now input.StopRecording error.code ⊎ (error.code ≡ code.OutOfMemory)) }
    {
        let Recording::On(session) = &self.recording else {
            return Err(BookError::from(ErrorCode::NotRecording));
        };
        let number = self.history.last_number() + 1;
        Ok(additions_of(self.alloc, session, number)?)
    }

    // They may be added by one event.
    fn has_places(&self, stubs: &Additions) -> Result<(), BookError>
        requires { stubs.now.added.items ≡ stubs.now.mappings }
        ensures ok { OnOk result
            (length (live (with_event self.now (event.StopRecording stubs.now.mappings stubs.now.skipped)))
            ≤ LIVE_LIMIT) }
        ensures why { IfErr result (λ error. (error.code ≡ code.TooManyMappings)
            × (LIVE_LIMIT < length
            (live (with_event self.now (event.StopRecording stubs.now.mappings stubs.now.skipped))))) }
    {
        if self.store.len_with(stubs.added.as_slice()) > limits::LIVE_LIMIT {
            return Err(BookError::from(ErrorCode::TooManyMappings));
        }
        Ok(())
    }
}

// What the session gives when the event with this number stops it.
fn additions_of(alloc: Global, session: &Session, number: u64) -> Result<Additions, AllocError>
    ensures same { IfOk result (λ stubs. stubs.added.items ≡ stubs.mappings) }
    ensures mappings { IfOk result (λ stubs. stubs.mappings ≡ identified (recorded_mappings session.now number)) }
    ensures skipped { IfOk result (λ stubs. stubs.skipped ≡ recorded_skipped session.now) }
{
    let recorded = stubs_of(
        alloc,
        session.exchanges.as_slice(),
        session.captured.as_slice(),
        session.repeats,
        number,
    )?;
    let skipped = recorded.skipped as u64;
    let added = all_ready(alloc, recorded.mappings, recorded.bodies)?;
    let mappings = Items::from(copies(alloc, added.as_slice())?);
    Ok(Additions {
        added,
        mappings,
        skipped,
    })
}

// The mappings under their ids, ready to be served. What they are answered with is kept once with these bodies.
fn all_ready(
    alloc: Global,
    specs: Vec<MappingSpec>,
    bodies: Vec<Bytes>,
) -> Result<Vec<BookMapping>, AllocError>
    requires { All LacksOnlyMemory specs.items }
    ensures { IfOk result (λ ready. ready.items ≡ identified specs.items) }
{
    let mut ready = Vec::with_capacity(alloc, specs.len())?;
    let mut bodies = bodies.into_iter();
    for spec in specs {
        let body = bodies.next();
        if let Some(id) = spec.id {
            ready.push(one_ready(alloc, id, spec, body)?)?;
        }
    }
    Ok(ready)
}

fn one_ready(
    alloc: Global,
    id: MappingId,
    spec: MappingSpec,
    body: Option<Bytes>,
) -> Result<BookMapping, AllocError>
    requires { LacksOnlyMemory spec }
    ensures { IfOk result (λ ready. ready ≡ record { id = id; spec = spec }) }
{
    match built(alloc, spec, body) {
        Ok(ready) => Ok(BookMapping::new(alloc, id, ready)?),
        Err(RequestMatchError::OutOfMemory) => Err(AllocError),
        Err(_) => unreachable!(),
    }
}

fn built(
    alloc: Global,
    spec: MappingSpec,
    body: Option<Bytes>,
) -> Result<ReadyMapping, RequestMatchError>
    ensures ok { IfOk result (λ mapping. mapping ≡ spec) }
    ensures refusal { IfErr result (matcher.IsRefusal spec.request) }
{
    match body {
        Some(body) => ReadyMapping::build_sharing(alloc, spec, &body),
        None => ReadyMapping::build(alloc, spec),
    }
}
