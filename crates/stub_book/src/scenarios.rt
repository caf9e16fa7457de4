// The calls that change states of scenarios.
ghost use Rattle.std.specs.Prelude.{◌≡◌, IfErr, IfOk, OnErr};
ghost use Rattle.request_journal.specs.declared.input.BookInput.TheVariants as input;
ghost use Rattle.stub_book.specs.Growth.{IsAccepted};
ghost use Rattle.stub_book.specs.Refusals.{IsRefusal};

use crate::accepted::Accepted;
use crate::book::Book;
use crate::error::BookError;
use crate::prepared::prepare;
use plain_text::text::Text;
use request_journal::event::Event;

impl Book {
    /// Sets every scenario back to `Started`.
    pub fn reset_scenarios(&mut self) -> Result<Accepted, BookError>
        ensures ok { IfOk result (IsAccepted self.old self.new input.ResetScenarios) }
        ensures err { OnErr result (self.new ≡ self.old) }
        ensures why { IfErr result (λ error. IsRefusal self.old input.ResetScenarios error.code) }
    {
        let made = prepare(self.alloc, &mut self.history, Event::ResetScenarios)?;
        self.scenarios.reset();
        self.history.push_reserved(made.event);
        Ok(made.accepted)
    }

    /// Sets a known scenario to one of its states, of which `Started` is always one.
    pub fn set_scenario(&mut self, name: Text, state: Text) -> Result<Accepted, BookError>
        ensures ok { IfOk result (IsAccepted self.old self.new (input.SetScenario name state)) }
        ensures err { OnErr result (self.new ≡ self.old) }
        ensures why { IfErr result (λ error. IsRefusal self.old (input.SetScenario name state) error.code) }
    {
        self.has_number()?;
        self.has_state(name.as_str(), state.as_str())?;
        let scenario = name.clone()?;
        let target = state.clone()?;
        let event = Event::SetScenario {
            name: scenario,
            state: target,
        };
        let made = prepare(self.alloc, &mut self.history, event)?;
        self.scenarios
            .move_to(self.alloc, name.as_str(), state.as_str())?;
        self.history.push_reserved(made.event);
        Ok(made.accepted)
    }
}
