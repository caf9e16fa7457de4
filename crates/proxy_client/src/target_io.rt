// The reader and writer of a connection to an upstream.
ghost use Rattle.std.specs.Prelude.{◌≡◌};
ghost use Rattle.counted_io.specs.Turns.{Costs, IsOver, costs_in_order, costs_nothing};

use crate::interim::InterimReplies;
use crate::motion::Motion;
use counted_io::counted::Counted;
use futures::task::{Context, Poll};
use std::cell::Cell;
use std::io;
use std::io::ErrorKind;
use std::rc::Rc;
use tokio::io::{AsyncRead, AsyncWrite};

/// A counted reader and writer that fails, too, once it has read more interim replies than an exchange may have; it
/// tells when it has moved a byte, and that there were too many of these.
#[derive(Drop)]
pub struct TargetIo<I> {
    io: Counted<I>,
    interim: InterimReplies,
    motion: Rc<Cell<Motion>>,
}

impl<I> TargetIo<I> {
    /// Whenever bytes move, `motion` is set.
    pub fn new(io: I, turns: u64, motion: Rc<Cell<Motion>>) -> TargetIo<I>
        ensures io { IsOver turns io result.io }
        ensures motion { result.motion ≡ motion }
    {
        TargetIo {
            io: Counted::new(io, turns),
            interim: InterimReplies::none(),
            motion,
        }
    }

    fn note(&self, polled: &Poll<io::Result<usize>>) {
        if let Poll::Ready(Ok(count)) = polled
            && *count > 0
        {
            self.motion.set(Motion::Moved);
        }
    }

    // Counts the interim replies in what was read.
    fn note_read(&mut self, buf: &[u8], polled: &Poll<io::Result<usize>>)
        ensures { self.new.io ≡ self.old.io }
    {
        self.note(polled);
        if let Poll::Ready(Ok(count)) = polled
            && let Some(bytes) = buf.get(..*count)
        {
            self.interim.take(bytes);
        }
        if self.interim.are_too_many() {
            self.motion.set(Motion::TooManyInterim);
        }
    }
}

impl<I: AsyncRead> AsyncRead for TargetIo<I> {
    ghost needs = { λ t. ⟦<Counted<I> as AsyncRead>⟧.needs t.io };

    ghost reads = { λ old bytes new. Costs I.reads old.io bytes new.io };

    ghost is_at_end = { λ t. ⟦<Counted<I> as AsyncRead>⟧.is_at_end t.io };

    ghost reads_nothing = { λ t. costs_nothing I.reads I.reads_nothing t.io };

    ghost reads_in_order = { λ a xs b ys c. costs_in_order I.reads I.reads_in_order a.io xs b.io ys c.io };

    fn poll_read(&mut self, cx: &mut Context<'_>, buf: &mut [u8]) -> Poll<io::Result<usize>> {
        if self.interim.are_too_many() {
            return Poll::Ready(Err(io::Error::from(ErrorKind::QuotaExceeded)));
        }
        let polled = self.io.poll_read(cx, buf);
        self.note_read(buf, &polled);
        polled
    }
}

impl<I: AsyncWrite> AsyncWrite for TargetIo<I> {
    ghost needs = { λ t. ⟦<Counted<I> as AsyncWrite>⟧.needs t.io };

    ghost writes = { λ old bytes new. Costs I.writes old.io bytes new.io };

    ghost is_flushed = { λ t. ⟦<Counted<I> as AsyncWrite>⟧.is_flushed t.io };

    ghost is_shut_down = { λ t. ⟦<Counted<I> as AsyncWrite>⟧.is_shut_down t.io };

    ghost is_full = { λ t. ⟦<Counted<I> as AsyncWrite>⟧.is_full t.io };

    ghost writes_nothing = { λ t. costs_nothing I.writes I.writes_nothing t.io };

    ghost writes_in_order = { λ a xs b ys c. costs_in_order I.writes I.writes_in_order a.io xs b.io ys c.io };

    fn poll_write(&mut self, cx: &mut Context<'_>, buf: &[u8]) -> Poll<io::Result<usize>> {
        let polled = self.io.poll_write(cx, buf);
        self.note(&polled);
        polled
    }

    fn poll_flush(&mut self, cx: &mut Context<'_>) -> Poll<io::Result<()>> {
        self.io.poll_flush(cx)
    }

    fn poll_shutdown(&mut self, cx: &mut Context<'_>) -> Poll<io::Result<()>> {
        self.io.poll_shutdown(cx)
    }
}
