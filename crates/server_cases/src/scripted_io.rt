// A reader and writer in memory whose peer goes away, or fails, where a script says so.
ghost use Rattle.std.specs.Prelude.{◌≡◌, ◌++◌, IfOk, take, refl, ⊤};
ghost use Rattle.std.proofs.Common.{rules};
ghost use Rattle.std.proofs.lemmas.Grind.{common_steps};

use bytes::Bytes;
use futures::task::{Context, Poll};
use std::alloc::{AllocError, Global};
use std::cell::Cell;
use std::io;
use std::io::ErrorKind;
use std::rc::Rc;
use tokio::io::{AsyncRead, AsyncWrite};

/// What the peer does.
#[derive(Clone, Copy, Debug)]
pub struct Script {
    /// The most bytes that a read or a write moves.
    pub piece: usize,
    /// It gives nothing before it has taken as many bytes.
    pub awaits: usize,
    /// It takes as many bytes, and then is gone.
    pub takes: usize,
    /// When it has given all it stays silent; else the input ends there.
    pub is_silent: bool,
    /// The read with this number, from 1, fails, and those after it don't.
    pub failing_read: Option<u64>,
    /// The write with this number, from 1, fails, and those after it don't.
    pub failing_write: Option<u64>,
}

/// A reader and writer in memory: a peer that gives its input, and does what a script says.
#[derive(Drop)]
pub struct ScriptedIo {
    alloc: Global,
    script: Script,
    // What is still to be given.
    input: Bytes,
    taken: Taken,
    reads: u64,
    writes: u64,
}

/// What a peer has taken, which copies of it share.
#[derive(Drop)]
pub struct Taken {
    bytes: Rc<Cell<Vec<u8>>>,
    count: Rc<Cell<usize>>,
}

impl Taken {
    fn new(alloc: Global) -> Result<Taken, AllocError> {
        Ok(Taken {
            bytes: Rc::new(alloc, Cell::new(Vec::new(alloc)))?,
            count: Rc::new(alloc, Cell::new(0))?,
        })
    }

    pub fn try_clone(&self) -> Result<Taken, AllocError> {
        Ok(Taken {
            bytes: self.bytes.clone()?,
            count: self.count.clone()?,
        })
    }

    /// How many bytes it has taken.
    pub fn len(&self) -> usize {
        self.count.get()
    }

    /// Gives the bytes away.
    pub fn take(&self, alloc: Global) -> Vec<u8> {
        self.bytes.replace(Vec::new(alloc))
    }

    fn push(&self, alloc: Global, bytes: &[u8]) -> Result<(), AllocError> {
        let mut all = self.take(alloc);
        let pushed = all.extend_from_slice(bytes);
        self.count.set(all.len());
        self.bytes.set(all);
        pushed
    }
}

impl ScriptedIo {
    /// A peer that gives the bytes.
    pub fn new(alloc: Global, input: Bytes, script: Script) -> Result<ScriptedIo, AllocError>
        ensures input { IfOk result (λ io. io.input ≡ input) }
        ensures script { IfOk result (λ io. io.script ≡ script) }
    {
        Ok(ScriptedIo {
            alloc,
            script,
            input,
            taken: Taken::new(alloc)?,
            reads: 0,
            writes: 0,
        })
    }

    /// What it takes.
    pub fn taken(&self) -> Result<Taken, AllocError> {
        self.taken.try_clone()
    }

    // The next read, where it fails.
    fn begin_read(&mut self) -> io::Result<()>
        ensures { self.new.input ≡ self.old.input }
    {
        self.reads = self.reads.saturating_add(1);
        if self.script.failing_read == Some(self.reads) {
            return Err(io::Error::from(ErrorKind::ConnectionReset));
        }
        Ok(())
    }

    // How many bytes the next write takes at most, where it doesn't fail.
    fn begin_write(&mut self) -> io::Result<usize> {
        self.writes = self.writes.saturating_add(1);
        if self.script.failing_write == Some(self.writes) {
            return Err(io::Error::from(ErrorKind::ConnectionReset));
        }
        let room = self.script.takes.saturating_sub(self.taken.len());
        if room == 0 {
            return Err(io::Error::from(ErrorKind::BrokenPipe));
        }
        Ok(room.min(self.script.piece))
    }
}

impl AsyncRead for ScriptedIo {
    ghost reads = { λ a xs b. a.input ≡ xs ++ b.input };

    ghost is_at_end = { λ _. ⊤ };

    ghost reads_nothing = { λ r. refl };

    ghost reads_in_order = { λ a xs b ys c p q. Prim.search (rules, common_steps) };

    fn poll_read(&mut self, cx: &mut Context<'_>, buf: &mut [u8]) -> Poll<io::Result<usize>> {
        if let Err(error) = self.begin_read() {
            return Poll::Ready(Err(error));
        }
        let is_ended = self.input.len() == 0 && self.script.is_silent;
        if is_ended || self.taken.len() < self.script.awaits {
            return cx.yield_now();
        }
        let count = self.input.len().min(buf.len()).min(self.script.piece);
        buf[..count].copy_from_slice(&self.input.as_slice()[..count]);
        self.input.advance(count);
        Poll::Ready(Ok(count))
    }
}

impl AsyncWrite for ScriptedIo {
    ghost writes = { λ _ _ _. ⊤ };

    ghost writes_nothing = { λ _. tt };

    ghost writes_in_order = { λ _ _ _ _ _ _ _. tt };

    fn poll_write(&mut self, _cx: &mut Context<'_>, buf: &[u8]) -> Poll<io::Result<usize>> {
        let most = match self.begin_write() {
            Ok(most) => most,
            Err(error) => return Poll::Ready(Err(error)),
        };
        let count = buf.len().min(most);
        match self.taken.push(self.alloc, &buf[..count]) {
            Ok(()) => Poll::Ready(Ok(count)),
            Err(error) => Poll::Ready(Err(io::Error::from(error))),
        }
    }

    fn poll_flush(&mut self, _cx: &mut Context<'_>) -> Poll<io::Result<()>> {
        Poll::Ready(Ok(()))
    }

    fn poll_shutdown(&mut self, _cx: &mut Context<'_>) -> Poll<io::Result<()>> {
        Poll::Ready(Ok(()))
    }
}
