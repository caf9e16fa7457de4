// The calls that start a recording and add to it.
ghost use Rattle.std.specs.Prelude.{◌≡◌, ◌⊎◌, IfErr, IfOk, OnErr};
ghost use Rattle.error_code.specs.declared.error_code.ErrorCode.TheVariants as code;
ghost use Rattle.recorder.specs.Recording.{IsOn};
ghost use Rattle.recorder.specs.Target.{IsTarget};
ghost use Rattle.request_journal.specs.Recording.{recording};
ghost use Rattle.request_journal.specs.declared.input.BookInput.TheVariants as input;
ghost use Rattle.stub_book.specs.Growth.{IsAccepted};
ghost use Rattle.stub_book.specs.Refusals.{IsRefusal};

use crate::accepted::Accepted;
use crate::book::Book;
use crate::error::BookError;
use crate::prepared::prepare;
use error_code::error_code::ErrorCode;
use plain_text::items::Items;
use plain_text::text::Text;
use recorder::exchange::SharedExchange;
use recorder::exchanges::Exchanges;
use recorder::recording::{Recording, Session};
use recorder::target::Target;
use request_journal::event::Event;

impl Book {
    /// Starts a recording of what is forwarded to the target; what the last one has is dropped.
    pub fn start_recording(
        &mut self,
        target: Text,
        captured: Items<Text>,
        repeats: bool,
    ) -> Result<Accepted, BookError>
        ensures ok { IfOk result
            (IsAccepted self.old self.new (input.StartRecording target captured repeats)) }
        ensures err { OnErr result (self.new ≡ self.old) }
        ensures why { IfErr result
            (λ error. IsRefusal self.old (input.StartRecording target captured repeats) error.code) }
    {
        self.has_number()?;
        let upstream = self.upstream(target.as_str())?;
        let kept = upstream.clone()?;
        let names = captured.clone()?;
        let event = Event::StartRecording {
            target: kept,
            captured: names,
            repeats,
        };
        let made = prepare(self.alloc, &mut self.history, event)?;
        let start = self.history.last_number() + 1;
        self.recording = Recording::On(Session {
            start,
            target: upstream,
            captured,
            repeats,
            exchanges: Exchanges::new(self.alloc),
        });
        self.history.push_reserved(made.event);
        Ok(made.accepted)
    }

    // Where a recording may be started, what it forwards to.
    fn upstream(&self, target: &str) -> Result<Target, BookError>
        ensures ok { IfOk result (λ upstream. (upstream ≡ target.now) × IsTarget target.now
            × ¬ (IsOn (recording self.now))) }
        ensures why { IfErr result (λ error. (error.code ≡ code.OutOfMemory)
            ⊎ ((error.code ≡ code.AlreadyRecording) × IsOn (recording self.now))
            ⊎ ((error.code ≡ code.BadTarget) × ¬ (IsOn (recording self.now)) × ¬ (IsTarget target.now))) }
    {
        if let Recording::On(_) = &self.recording {
            return Err(BookError::from(ErrorCode::AlreadyRecording));
        }
        Ok(Target::parse(self.alloc, target)?)
    }

    /// Takes the exchange of the serve with this number into the recording that is on.
    pub fn take_exchange(
        &mut self,
        serve: u64,
        exchange: SharedExchange,
    ) -> Result<Accepted, BookError>
        ensures ok { IfOk result (IsAccepted self.old self.new (input.Record serve exchange)) }
        ensures err { OnErr result (self.new ≡ self.old) }
        ensures why { IfErr result (λ error. IsRefusal self.old (input.Record serve exchange) error.code) }
    {
        self.has_number()?;
        if serve > self.history.last_number() {
            return Err(BookError::from(ErrorCode::NotRecording));
        }
        let kept = exchange.clone()?;
        let event = Event::Record {
            serve,
            exchange: kept,
        };
        let made = prepare(self.alloc, &mut self.history, event)?;
        self.recording.take(serve, exchange)?;
        self.history.push_reserved(made.event);
        Ok(made.accepted)
    }
}
