// A recording: whether one is on, and what it or the last one has taken.
ghost use Rattle.std.specs.Prelude.{◌≡◌, ◌↔◌, [], option_copied, IfOk, OnOk, OnErr, IsErr, IsErrOf};
ghost use Rattle.recorder.specs.Target.{IsTarget};
ghost use Rattle.recorder.specs.Recording.{status_of, session_of, IsOn, TakesFrom, IsFull, HasTaken, HasStopped};

use crate::error::RecordingError;
use crate::exchange::SharedExchange;
use crate::exchanges::Exchanges;
use crate::target::Target;
use plain_text::items::Items;
use plain_text::text::Text;
use std::alloc::{AllocError, Global};
use std::mem;

/// The most exchanges that a recording takes.
pub const EXCHANGE_LIMIT: usize = 10_000;

/// What was asked for when a recording was started, and what it has taken.
#[derive(Drop)]
pub struct Session {
    /// The number of the event that started it.
    pub start: u64,
    pub target: Target,
    /// The names of the captured headers.
    pub captured: Items<Text>,
    /// Whether equal requests become a scenario.
    pub repeats: bool,
    pub exchanges: Exchanges,
}

impl Session {
    /// Shares the exchanges.
    pub fn try_clone(&self) -> Result<Session, AllocError>
        ensures { IfOk result (λ copy. copy ≡ self.now) }
    {
        Ok(Session {
            start: self.start,
            target: self.target.clone()?,
            captured: self.captured.clone()?,
            repeats: self.repeats,
            exchanges: self.exchanges.try_clone()?,
        })
    }
}

#[derive(Clone, Copy, Debug, PartialEq, Eq)]
pub enum RecordingStatus {
    NeverStarted,
    Recording,
    Stopped,
}

/// The recording that is on, or else the last one.
#[derive(Drop)]
pub enum Recording {
    NeverStarted,
    On(Session),
    Stopped(Session),
}

impl Recording {
    pub fn status(&self) -> RecordingStatus
        ensures { result ≡ status_of self.now }
    {
        match self {
            Recording::NeverStarted => RecordingStatus::NeverStarted,
            Recording::On(_) => RecordingStatus::Recording,
            Recording::Stopped(_) => RecordingStatus::Stopped,
        }
    }

    /// What the recording that is on, or else the last one, has.
    pub fn session(&self) -> Option<&Session>
        ensures { option_copied result ≡ session_of self.now }
    {
        match self {
            Recording::NeverStarted => None,
            Recording::On(session) => Some(session),
            Recording::Stopped(session) => Some(session),
        }
    }

    /// Starts a recording; what the last one has is dropped.
    pub fn start(
        &mut self,
        alloc: Global,
        start: u64,
        target: &str,
        captured: Items<Text>,
        repeats: bool,
    ) -> Result<(), RecordingError>
        ensures ok { OnOk result (self.new ≡ Recording.On (record {
          start = start;
          target = target.now;
          captured = captured;
          repeats = repeats;
          exchanges = [];
        })) }
        ensures err { OnErr result (self.new ≡ self.old) }

        // That one is on is reported before a bad target.
        ensures already { IsErrOf result RecordingError.AlreadyRecording ↔ IsOn self.old }
        ensures bad_target { IsErrOf result RecordingError.BadTarget
            ↔ (¬ (IsOn self.old) × ¬ (IsTarget target.now)) }
        ensures why { ¬ (IsErrOf result RecordingError.NotRecording)
            × ¬ (IsErrOf result RecordingError.RecordingFull) }
    {
        if let Recording::On(_) = self {
            return Err(RecordingError::AlreadyRecording);
        }
        let target = Target::parse(alloc, target)?;
        *self = Recording::On(Session {
            start,
            target,
            captured,
            repeats,
            exchanges: Exchanges::new(alloc),
        });
        Ok(())
    }

    /// Takes the exchange of the request whose event has that number. One that was served before the recording was
    /// started is refused.
    pub fn take(&mut self, number: u64, exchange: SharedExchange) -> Result<(), RecordingError>
        ensures ok { OnOk result (HasTaken self.old self.new exchange) }
        ensures err { OnErr result (self.new ≡ self.old) }
        ensures not_recording { IsErrOf result RecordingError.NotRecording
            ↔ ¬ (TakesFrom self.old number) }
        ensures full { IsErrOf result RecordingError.RecordingFull
            ↔ (TakesFrom self.old number × IsFull self.old) }
        ensures why { ¬ (IsErrOf result RecordingError.AlreadyRecording)
            × ¬ (IsErrOf result RecordingError.BadTarget) }
    {
        let Recording::On(session) = self else {
            return Err(RecordingError::NotRecording);
        };
        if number <= session.start {
            return Err(RecordingError::NotRecording);
        }
        if session.exchanges.as_slice().len() >= EXCHANGE_LIMIT {
            return Err(RecordingError::RecordingFull);
        }
        session.exchanges.push(exchange)?;
        Ok(())
    }

    /// Stops the recording that is on. What it has taken is kept until another one is started. Takes no memory.
    pub fn stop(&mut self) -> Result<(), RecordingError>
        ensures ok { OnOk result (HasStopped self.old self.new) }
        ensures err { OnErr result (self.new ≡ self.old) }
        ensures not_recording { IsErr result ↔ ¬ (IsOn self.old) }
        ensures why { IsErr result → IsErrOf result RecordingError.NotRecording }
    {
        match mem::replace(self, Recording::NeverStarted) {
            Recording::On(session) => {
                *self = Recording::Stopped(session);
                Ok(())
            }
            other => {
                *self = other;
                Err(RecordingError::NotRecording)
            }
        }
    }

    /// Shares the exchanges.
    pub fn try_clone(&self) -> Result<Recording, AllocError>
        ensures { IfOk result (λ copy. copy ≡ self.now) }
    {
        Ok(match self {
            Recording::NeverStarted => Recording::NeverStarted,
            Recording::On(session) => Recording::On(session.try_clone()?),
            Recording::Stopped(session) => Recording::Stopped(session.try_clone()?),
        })
    }
}
