// A counted reader and writer that tells the state of a connection what comes.
ghost use Rattle.std.specs.Prelude.{⊤};
ghost use Rattle.counted_io.specs.Turns.{Costs, IsOver, costs_in_order, costs_nothing};
ghost use Rattle.futures.specs.Task.{Keeps};

use crate::accept::connection_state::{ConnectionState, Stage};
use counted_io::counted::Counted;
use futures::task::{Context, Poll};
use hyper::rt::Timer;
use std::alloc::AllocError;
use std::io;
use std::io::ErrorKind;
use std::sync::Arc;
use std::time::{Instant, SystemTime};
use tokio::io::{AsyncRead, AsyncWrite};
use tokio::time::Sleep;

/// What a client is sent that has to leave, where something of its request has come (RFC 9110, section 15.5.9).
const REQUEST_TIMEOUT: &[u8] =
    b"HTTP/1.1 408 Request Timeout\r\nconnection: close\r\ncontent-length: 0\r\n\r\n";

/// A reader and writer that tells the state of a connection what comes, and that fails once the connection has to
/// leave, or once its turns are at their end.
#[derive(Drop)]
pub struct Watched<I> {
    io: Counted<I>,
    state: Arc<ConnectionState>,
}

/// A timer whose clock can't be read until a byte has come, so that the time of a head begins then.
#[derive(Drop)]
pub struct HeadTimer<T> {
    timer: T,
    state: Arc<ConnectionState>,
}

impl<I> Watched<I> {
    pub fn new(io: I, turns: u64, state: Arc<ConnectionState>) -> Watched<I>
        ensures { IsOver turns io result.io }
    {
        let io = Counted::new(io, turns);
        Watched { io, state }
    }

    // Nothing is read once the connection has to leave, but for content that is still to come: what gathers that leaves
    // by itself.
    fn is_read_no_more(&self) -> bool {
        self.state.must_leave() && !self.state.is_at(Stage::Content)
    }
}

// Not inlined, as it is rarely made.
#[inline(never)]
fn timed_out() -> io::Error {
    io::Error::from(ErrorKind::TimedOut)
}

impl<I: AsyncRead + AsyncWrite> AsyncRead for Watched<I> {
    ghost needs = { λ w. ⟦<Counted<I> as AsyncRead>⟧.needs w.io };

    ghost reads = { λ old bytes new. Costs I.reads old.io bytes new.io };

    ghost is_at_end = { λ w. ⟦<Counted<I> as AsyncRead>⟧.is_at_end w.io };

    ghost reads_nothing = { λ w. costs_nothing I.reads I.reads_nothing w.io };

    ghost reads_in_order = { λ a xs b ys c. costs_in_order I.reads I.reads_in_order a.io xs b.io ys c.io };

    fn poll_read(&mut self, cx: &mut Context<'_>, buf: &mut [u8]) -> Poll<io::Result<usize>> {
        if self.is_read_no_more() {
            return Poll::Ready(Err(timed_out()));
        }
        self.state.wants();
        // By its arms, as an error is large, and would be moved with each poll.
        match self.io.poll_read(cx, buf) {
            Poll::Ready(Ok(count)) => {
                if count > 0 {
                    self.state.hears();
                }
                return Poll::Ready(Ok(count));
            }
            Poll::Ready(Err(error)) => Poll::Ready(Err(error)),
            Poll::Pending => return Poll::Pending,
        }
    }
}

impl<I: AsyncWrite> AsyncWrite for Watched<I> {
    ghost needs = { λ w. ⟦<Counted<I> as AsyncWrite>⟧.needs w.io };

    ghost writes = { λ old bytes new. Costs I.writes old.io bytes new.io };

    ghost is_flushed = { λ w. ⟦<Counted<I> as AsyncWrite>⟧.is_flushed w.io };

    ghost is_shut_down = { λ w. ⟦<Counted<I> as AsyncWrite>⟧.is_shut_down w.io };

    ghost is_full = { λ w. ⟦<Counted<I> as AsyncWrite>⟧.is_full w.io };

    ghost writes_nothing = { λ w. costs_nothing I.writes I.writes_nothing w.io };

    ghost writes_in_order = { λ a xs b ys c. costs_in_order I.writes I.writes_in_order a.io xs b.io ys c.io };

    fn poll_write(&mut self, cx: &mut Context<'_>, buf: &[u8]) -> Poll<io::Result<usize>> {
        self.io.poll_write(cx, buf)
    }

    fn poll_flush(&mut self, cx: &mut Context<'_>) -> Poll<io::Result<()>> {
        self.io.poll_flush(cx)
    }

    fn poll_shutdown(&mut self, cx: &mut Context<'_>) -> Poll<io::Result<()>> {
        self.io.poll_shutdown(cx)
    }
}

impl<I: AsyncWrite> Watched<I> {
    /// Tells the client that it was too slow, where it has to leave and the head of its request is unfinished. (Where
    /// the head has come, the service has answered.)
    pub fn tell_late(&mut self, cx: &mut Context<'_>)
        ensures { Keeps cx.old cx.new }
    {
        if self.state.must_leave() && self.state.is_at(Stage::Head) {
            // Little enough for a socket to take it at once; where it doesn't, the connection ends without it.
            let _ = self.io.poll_write(cx, REQUEST_TIMEOUT);
        }
    }
}

impl<T> HeadTimer<T> {
    pub fn new(timer: T, state: Arc<ConnectionState>) -> HeadTimer<T> {
        HeadTimer { timer, state }
    }
}

impl<T: Clone> Clone for HeadTimer<T> {
    ghost is_clone = { λ _ _. ⊤ };

    fn clone(&self) -> Result<HeadTimer<T>, AllocError> {
        let state = Arc::try_clone(&self.state)?;
        Ok(HeadTimer::new(self.timer.clone()?, state))
    }
}

impl<T: Timer> Timer for HeadTimer<T> {
    fn now(&self) -> Option<Instant> {
        if self.state.is_at(Stage::Head) {
            self.timer.now()
        } else {
            None
        }
    }

    fn system_time(&self) -> Option<SystemTime> {
        self.timer.system_time()
    }

    fn sleep_until(&self, deadline: Instant) -> Result<Option<Sleep>, AllocError> {
        self.timer.sleep_until(deadline)
    }
}
