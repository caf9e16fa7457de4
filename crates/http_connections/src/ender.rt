// The end of a server.
use std::alloc::{AllocError, Global};
use std::sync::Arc;
use std::sync::atomic::AtomicBool;
use std::sync::atomic::Ordering::SeqCst;
use tokio::sync::{Notify, OwnedNotified};

/// Ends a server when it is asked to, by any thread.
#[derive(Drop)]
pub struct Ender {
    is_asked: AtomicBool,
    told: Arc<Notify>,
}

impl Ender {
    /// One that nobody has asked.
    pub fn new(alloc: Global) -> Result<Ender, AllocError> {
        Ok(Ender {
            is_asked: AtomicBool::new(false),
            told: Arc::new(alloc, Notify::new(alloc)?)?,
        })
    }

    /// Asks for the end: no more connections are accepted.
    pub fn end(&self) {
        self.is_asked.store(true, SeqCst);
        self.tell();
    }

    /// Whether the end was asked for.
    pub fn is_asked(&self) -> bool {
        self.is_asked.load(SeqCst)
    }

    /// Tells each thread that there is something to look at: no more connections may be accepted, there may be room for
    /// another, or none may be left.
    pub(crate) fn tell(&self) {
        self.told.notify_waiters();
    }

    /// Is ready once threads are told so, from now on.
    pub(crate) fn notified(&self) -> Result<OwnedNotified, AllocError> {
        Ok(Notify::notified_owned(Arc::try_clone(&self.told)?))
    }
}
