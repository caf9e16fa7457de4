// An exchange that ends when it has been silent for too long.
ghost use Rattle.std.specs.Prelude.{◌≡◌, IfOk, Ok};
ghost use Rattle.futures.specs.Poll.{OnPending};
ghost use Rattle.futures.specs.Task.{IsArmed, Keeps};

use crate::error::ProxyError;
use crate::failure::Failure;
use crate::motion::Motion;
use futures::task::{Context, Poll};
use futures::{Future, ready};
use std::cell::Cell;
use std::rc::Rc;
use std::time::{Clock, Duration, Instant};
use tokio::time::Sleep;

/// A future that fails once no byte has moved for a time, or there were too many interim replies. What moves bytes sets
/// `motion`.
pub struct Timed<R, F> {
    clock: R,
    limit: Duration,
    sleep: Sleep,
    motion: Rc<Cell<Motion>>,
    inner: F,
}

// Written out, so that a caller's proof sees one call and not the drop of each part.
impl<R: Drop, F: Drop> Drop for Timed<R, F> {
    fn drop(self) {
        let Timed {
            clock: _clock,
            limit: _limit,
            sleep: _sleep,
            motion: _motion,
            inner: _inner,
        } = self;
    }
}

impl<R, F> Timed<R, F> {
    /// `sleep` ends after the limit.
    pub fn new(
        clock: R,
        limit: Duration,
        sleep: Sleep,
        motion: Rc<Cell<Motion>>,
        inner: F,
    ) -> Timed<R, F>
        ensures clock { result.clock ≡ clock }
        ensures limit { result.limit ≡ limit }
        ensures sleep { result.sleep ≡ sleep }
        ensures motion { result.motion ≡ motion }
        ensures inner { result.inner ≡ inner }
    {
        Timed {
            clock,
            limit,
            sleep,
            motion,
            inner,
        }
    }
}

impl<R, F, T> Future for Timed<R, F>
where
    R: Clock + Drop,
    F: Future<Output = Result<T, ProxyError>>,
    T: Drop,
{
    type Output = Result<T, ProxyError>;

    ghost can_poll = { λ t. F.can_poll t.inner };

    ghost gives = { λ t result. IfOk result (λ value. F.gives t.inner (Ok value)) };

    fn poll(&mut self, cx: &mut Context<'_>) -> Poll<Result<T, ProxyError>> {
        let polled = self.inner.poll(cx);
        if self.motion.get() == Motion::TooManyInterim {
            return Poll::Ready(Err(ProxyError::UpstreamFailed(Failure::TooManyInterim)));
        }
        if let Poll::Ready(output) = polled {
            return Poll::Ready(output);
        }
        ready!(self.poll_silence(cx));
        Poll::Ready(Err(ProxyError::UpstreamFailed(Failure::Silent)))
    }
}

impl<R: Clock, F> Timed<R, F> {
    // Ready once no byte has moved for the time.
    fn poll_silence(&mut self, cx: &mut Context<'_>) -> Poll<()>
        ensures registered { OnPending result (IsArmed cx.new) }
        ensures kept { Keeps cx.old cx.new }
        ensures same { self.new.inner ≡ self.old.inner }
    {
        if self.motion.replace(Motion::Still) == Motion::Moved
            && let Some(deadline) = self.deadline()
        {
            self.sleep.reset(deadline);
        }
        let _ = ready!(self.sleep.poll_elapsed(cx));
        Poll::Ready(())
    }

    // None where the clock can't be read: then the old deadline stays.
    fn deadline(&self) -> Option<Instant> {
        Instant::now(&self.clock).ok()?.checked_add(self.limit)
    }
}
