// A moment in which no connection is accepted.
ghost use Rattle.std.specs.Prelude.{◌≡◌, true};
ghost use Rattle.futures.specs.Poll.{OnPending};
ghost use Rattle.futures.specs.Task.{IsArmed, Keeps};

use futures::ready;
use futures::task::{Context, Poll};
use std::io;
use std::time::{Clock, Duration, Instant};
use tokio::time::{Handle, Sleep};

/// How long a pause is, in milliseconds.
const PAUSE: u64 = 10;

/// Ends a moment after it has begun.
#[derive(Drop)]
pub(crate) struct Pause<R> {
    clock: R,
    timers: Handle,
    sleep: Sleep,
    has_begun: bool,
}

impl<R: Clock + Drop> Pause<R> {
    pub(crate) fn new(clock: R, timers: &Handle) -> io::Result<Pause<R>> {
        let sleep = timers.sleep(&clock, Duration::from_millis(PAUSE))?;
        Ok(Pause {
            clock,
            timers: timers.clone()?,
            sleep,
            has_begun: false,
        })
    }

    /// What has its timer.
    pub(crate) fn timers(&self) -> &Handle {
        &self.timers
    }

    pub(crate) fn begin(&mut self)
        ensures { self.new.has_begun ≡ true }
    {
        if let Some(deadline) = self.deadline() {
            self.sleep.reset(deadline);
        }
        self.has_begun = true;
    }

    pub(crate) fn end(&mut self) {
        self.has_begun = false;
    }

    /// Ready where none has begun, or once it is over.
    pub(crate) fn poll(&mut self, cx: &mut Context<'_>) -> Poll<()>
        ensures registered { OnPending result (IsArmed cx.new) }
        ensures kept { Keeps cx.old cx.new }
    {
        if self.has_begun {
            let _ = ready!(self.sleep.poll_elapsed(cx));
            self.has_begun = false;
        }
        Poll::Ready(())
    }

    fn deadline(&self) -> Option<Instant> {
        Instant::now(&self.clock)
            .ok()?
            .checked_add(Duration::from_millis(PAUSE))
    }
}
