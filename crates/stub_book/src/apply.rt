// One call for every change.
ghost use Rattle.std.specs.Prelude.{◌≡◌, ◌<◌, ◌≤◌, ◌↔◌, ◌+◌, ℕ, IfErr, IfOk, List, OnErr, length};
ghost use Rattle.request_journal.specs.Input.{IsAsked};
ghost use Rattle.request_journal.specs.Legal.{IsLive};
ghost use Rattle.request_journal.specs.Live.{live};
ghost use Rattle.request_journal.specs.Past.{Past, with_event};
ghost use Rattle.request_journal.specs.declared.event.Event.TheVariants as event;
ghost use Rattle.request_journal.specs.declared.limits.TheConstants.{LIVE_LIMIT};
ghost use Rattle.request_journal.specs.declared.mapping.Mapping.{Mapping};
ghost use Rattle.stub_book.specs.Growth.{Applies, Changes, IsAccepted, replaced};
ghost use Rattle.stub_book.specs.Inner.Counted.{fewer};
ghost use Rattle.stub_book.specs.Refusals.{IsRefusal};

use crate::accepted::{Accepted, Changed};
use crate::book::Book;
use crate::error::BookError;
use request_journal::event::Event;
use request_journal::input::{BookAnswer, BookInput};

impl Book {
    /// Makes the change that is asked for.
    #[tactic(auto, using(crate::proofs::ApplyLemmas::applies))]
    pub fn apply(&mut self, input: BookInput) -> Result<BookAnswer, BookError>
        ensures ok { IfOk result (Applies self.old self.new input) }
        ensures err { OnErr result (self.new ≡ self.old) }
        ensures why { IfErr result (λ error. IsRefusal self.old input error.code) }
    {
        Ok(self.accept(input)?.answer)
    }

    /// The same, and gives the event, which is shared with the history, and how many mappings it replaced: these are
    /// counted, and not looked for.
    pub fn apply_shared(&mut self, input: BookInput) -> Result<Changed, BookError>
        ensures ok { IfOk result (λ changed. IsAsked input changed.event × Changes self.old self.new changed) }
        ensures err { OnErr result (self.new ≡ self.old) }
        ensures why { IfErr result (λ error. IsRefusal self.old input error.code) }
    {
        let before = self.live_count();
        let event = self.accept(input)?.event;
        let replaced = fewer(event.event(), before, self.live_count());
        Ok(Changed { event, replaced })
    }

    /// An event that adds a mapping replaces one exactly where the id is live. None is lost at the stop of a recording:
    /// those that are live after it, and those that it replaces, are as many as were live before it and it adds.
    pub fn law_replaced(&self)
        ensures add { (past : Past) → (mapping : Mapping)
            → (0 < replaced past (event.Add mapping)) ↔ IsLive past mapping.id }
        ensures stop { (past : Past) → (mappings : List Mapping) → (skipped : ℕ)
            → length (live (with_event past (event.StopRecording mappings skipped)))
            + replaced past (event.StopRecording mappings skipped)
            ≡ length (live past) + length mappings }
    {}

    // How many mappings are live.
    fn live_count(&self) -> u64
        ensures count { result ≡ length (live self.now) }
        ensures few { result ≤ LIVE_LIMIT }
    {
        self.store.len() as u64
    }

    fn accept(&mut self, input: BookInput) -> Result<Accepted, BookError>
        ensures ok { IfOk result (IsAccepted self.old self.new input) }
        ensures err { OnErr result (self.new ≡ self.old) }
        ensures why { IfErr result (λ error. IsRefusal self.old input error.code) }
    {
        match input {
            BookInput::Add(mapping) => self.add(mapping),
            BookInput::Edit { id, mapping } => self.edit(id, mapping),
            BookInput::Delete(id) => self.delete(id),
            BookInput::DeleteAll => self.delete_all(),
            BookInput::ResetMappings => self.reset_mappings(),
            BookInput::ResetAll => self.reset_all(),
            BookInput::ResetScenarios => self.reset_scenarios(),
            BookInput::SetScenario { name, state } => self.set_scenario(name, state),
            BookInput::ClearJournal => self.clear_journal(),
            BookInput::StartRecording {
                target,
                captured,
                repeats,
            } => self.start_recording(target, captured, repeats),
            BookInput::Record { serve, exchange } => self.take_exchange(serve, exchange),
            BookInput::StopRecording => self.stop_recording(),
        }
    }
}

// How many fewer mappings are live after the event than before it and those that it adds together.
fn fewer(event: &Event, before: u64, after: u64) -> u64
    requires { before ≤ LIVE_LIMIT }
    ensures { result ≡ fewer event.now before after }
{
    match event {
        Event::Add(_) => (before + 1).saturating_sub(after),
        Event::StopRecording {
            mappings,
            skipped: _,
        } => (before + mappings.as_slice().len() as u64).saturating_sub(after),
        _ => 0,
    }
}
