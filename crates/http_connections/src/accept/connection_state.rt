// The state of a connection, as the server sees it beside the connection's own task.
ghost use Rattle.futures.specs.Task.{Keeps};

use crate::accept::coarse_clock::CoarseClock;
use futures::spin::lock;
use futures::task::{Context, Poll, Source, Waker};
use std::sync::atomic::{AtomicBool, AtomicU64, Ordering};
use std::sync::{Arc, Mutex};

/// Where the exchange of a connection stands.
#[derive(Clone, Copy, Debug, PartialEq, Eq)]
pub enum Stage {
    /// No connection has this state.
    Vacant,
    /// Nothing of a request has come.
    Idle,
    /// Something of a request's head has come.
    Head,
    /// The content of a request is still to come.
    Content,
    /// The answer is still to come.
    Answering,
}

/// Where the exchange of a connection stands, since when it is silent, and whether it has to leave: its task says the
/// first, others ask for the last. It is reused by later connections.
#[derive(Drop)]
pub struct ConnectionState {
    clock: Arc<CoarseClock>,
    stage: AtomicU64,
    /// When something came last, or an answer was given.
    heard: AtomicU64,
    must_leave: AtomicBool,
    /// Fires when it has to leave.
    asked: Source,
    waker: Mutex<Option<Waker>>,
}

impl ConnectionState {
    pub fn new(clock: Arc<CoarseClock>) -> ConnectionState {
        ConnectionState {
            clock,
            stage: AtomicU64::new(number_of(Stage::Vacant)),
            heard: AtomicU64::new(0),
            must_leave: AtomicBool::new(false),
            asked: Source::new(),
            waker: Mutex::new(None),
        }
    }

    /// A connection begins.
    pub fn begin(&self) {
        self.must_leave.store(false, Ordering::Relaxed);
        self.enter(Stage::Idle);
        self.hear();
    }

    /// The connection has ended.
    pub fn end(&self) {
        self.enter(Stage::Vacant);
        self.wake();
    }

    /// Something is wanted: an answer that was still to come has been given.
    pub fn wants(&self) {
        if self.is_at(Stage::Answering) {
            self.enter(Stage::Idle);
            self.hear();
        }
    }

    /// Something has come.
    pub fn hears(&self) {
        if self.is_at(Stage::Idle) {
            self.enter(Stage::Head);
        }
        self.hear();
    }

    /// The head of a request has come, and its content is still to come.
    pub fn gathers(&self) {
        self.enter(Stage::Content);
    }

    /// A request has come whole.
    pub fn answers(&self) {
        self.enter(Stage::Answering);
    }

    /// Whether the connection is at this stage.
    pub fn is_at(&self, stage: Stage) -> bool {
        self.stage.load(Ordering::Relaxed) == number_of(stage)
    }

    /// Asks the connection to leave, once no answer is still to come.
    pub fn leave(&self) {
        self.must_leave.store(true, Ordering::Relaxed);
        self.wake();
    }

    /// Whether the connection has to leave.
    pub fn must_leave(&self) -> bool {
        self.must_leave.load(Ordering::Relaxed)
    }

    /// Since when nothing has come from whoever has the next word; `None` where that is the server, or nobody.
    pub fn silent_since(&self) -> Option<u64> {
        if self.is_at(Stage::Vacant) || self.is_at(Stage::Answering) {
            return None;
        }
        Some(self.heard.load(Ordering::Relaxed))
    }

    /// The task is woken when it has to leave.
    pub fn attend(&self, cx: &mut Context<'_>)
        ensures { Keeps cx.old cx.new }
    {
        if let Some(mut waker) = lock(&self.waker) {
            let _: Poll<()> = cx.register(&self.asked, &mut *waker);
        }
    }

    fn enter(&self, stage: Stage) {
        self.stage.store(number_of(stage), Ordering::Relaxed);
    }

    fn hear(&self) {
        self.heard.store(self.clock.now(), Ordering::Relaxed);
    }

    fn wake(&self) {
        if let Some(mut waker) = lock(&self.waker) {
            // What is dropped wakes.
            let _ = waker.take();
        }
    }
}

fn number_of(stage: Stage) -> u64 {
    match stage {
        Stage::Vacant => 0,
        Stage::Idle => 1,
        Stage::Head => 2,
        Stage::Content => 3,
        Stage::Answering => 4,
    }
}
