// A reader and writer that is asked a limited number of times.
ghost use Rattle.std.specs.Prelude.{◌≡◌, ◌+◌, OnErr, OnOk};
ghost use Rattle.counted_io.specs.Turns.{Costs, IsOver, costs_in_order, costs_nothing};

use futures::task::{Context, Poll};
use std::io;
use std::io::ErrorKind;
use tokio::io::{AsyncRead, AsyncWrite};

/// The most turns that a loop over the bytes of a connection has.
pub const TURN_LIMIT: u64 = 100_000_000;

/// A reader and writer that fails once it was polled as often as it may be.
#[derive(Drop)]
pub struct Counted<I> {
    io: I,
    turns: u64,
}

impl<I> Counted<I> {
    /// Each poll of a read, a write, a flush or a shutdown is a turn.
    pub fn new(io: I, turns: u64) -> Counted<I>
        ensures { IsOver turns io result }
    {
        let turns = turns.min(TURN_LIMIT);
        Counted { io, turns }
    }

    // A small error: each local is cleared when a function is entered.
    fn take_turn(&mut self) -> Result<(), ErrorKind>
        ensures counted { OnOk result (self.new.turns + 1 ≡ self.old.turns) }
        ensures ended { OnErr result ((self.old.turns ≡ 0) × (self.new.turns ≡ 0)) }
        ensures same { self.new.io ≡ self.old.io }
    {
        match self.turns.checked_sub(1) {
            Some(left) => {
                self.turns = left;
                Ok(())
            }
            None => Err(ErrorKind::QuotaExceeded),
        }
    }
}

// Not inlined, as it is rarely made.
#[inline(never)]
fn refusal(kind: ErrorKind) -> io::Error {
    io::Error::from(kind)
}

impl<I: AsyncRead> AsyncRead for Counted<I> {
    ghost needs = { λ c. I.needs c.io };

    ghost reads = { Costs I.reads };

    ghost is_at_end = { λ c. I.is_at_end c.io };

    ghost reads_nothing = { costs_nothing I.reads I.reads_nothing };

    ghost reads_in_order = { costs_in_order I.reads I.reads_in_order };

    fn poll_read(&mut self, cx: &mut Context<'_>, buf: &mut [u8]) -> Poll<io::Result<usize>> {
        if let Err(kind) = self.take_turn() {
            return Poll::Ready(Err(refusal(kind)));
        }
        self.io.poll_read(cx, buf)
    }
}

impl<I: AsyncWrite> AsyncWrite for Counted<I> {
    ghost needs = { λ c. I.needs c.io };

    ghost writes = { Costs I.writes };

    ghost is_flushed = { λ c. I.is_flushed c.io };

    ghost is_shut_down = { λ c. I.is_shut_down c.io };

    ghost is_full = { λ c. I.is_full c.io };

    ghost writes_nothing = { costs_nothing I.writes I.writes_nothing };

    ghost writes_in_order = { costs_in_order I.writes I.writes_in_order };

    fn poll_write(&mut self, cx: &mut Context<'_>, buf: &[u8]) -> Poll<io::Result<usize>> {
        if let Err(kind) = self.take_turn() {
            return Poll::Ready(Err(refusal(kind)));
        }
        self.io.poll_write(cx, buf)
    }

    fn poll_flush(&mut self, cx: &mut Context<'_>) -> Poll<io::Result<()>> {
        if let Err(kind) = self.take_turn() {
            return Poll::Ready(Err(refusal(kind)));
        }
        self.io.poll_flush(cx)
    }

    fn poll_shutdown(&mut self, cx: &mut Context<'_>) -> Poll<io::Result<()>> {
        if let Err(kind) = self.take_turn() {
            return Poll::Ready(Err(refusal(kind)));
        }
        self.io.poll_shutdown(cx)
    }
}
