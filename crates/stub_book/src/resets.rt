// The calls that clear the journal. The events before them are dropped.
ghost use Rattle.std.specs.Prelude.{◌≡◌, IfErr, IfOk, OnErr};
ghost use Rattle.request_journal.specs.declared.input.BookInput.TheVariants as input;
ghost use Rattle.stub_book.specs.Growth.{IsAccepted};
ghost use Rattle.stub_book.specs.Refusals.{IsRefusal};

use crate::accepted::Accepted;
use crate::book::Book;
use crate::error::BookError;
use crate::prepared::prepare;
use request_journal::event::Event;

impl Book {
    /// Makes the defaults the live mappings, sets every scenario back to `Started`, and clears the journal.
    pub fn reset_all(&mut self) -> Result<Accepted, BookError>
        ensures ok { IfOk result (IsAccepted self.old self.new input.ResetAll) }
        ensures err { OnErr result (self.new ≡ self.old) }
        ensures why { IfErr result (λ error. IsRefusal self.old input.ResetAll error.code) }
    {
        let made = prepare(self.alloc, &mut self.history, Event::ResetAll)?;
        self.store.reset(self.history.last_number() + 1);
        self.scenarios.reset();
        self.history.checkpoint();
        self.history.push_reserved(made.event);
        Ok(made.accepted)
    }

    /// Clears the journal.
    pub fn clear_journal(&mut self) -> Result<Accepted, BookError>
        ensures ok { IfOk result (IsAccepted self.old self.new input.ClearJournal) }
        ensures err { OnErr result (self.new ≡ self.old) }
        ensures why { IfErr result (λ error. IsRefusal self.old input.ClearJournal error.code) }
    {
        let made = prepare(self.alloc, &mut self.history, Event::ClearJournal)?;
        self.history.checkpoint();
        self.history.push_reserved(made.event);
        Ok(made.accepted)
    }
}
