// What renders responses by threads, a few at once.
ghost use Rattle.std.specs.Prelude.{◌≡◌, IfOk, IfSome, IsSome};
ghost use Rattle.answering.specs.Rendering.{IsRenderedReply};
ghost use Rattle.futures.specs.Poll.{IfReady, OnPending};
ghost use Rattle.futures.specs.Task.{IsArmed, Keeps};
ghost use Rattle.hyper_service.specs.Inner.Started.{IsStarted};
ghost use Rattle.hyper_service.specs.declared.renderer.Stage.TheVariants.{Running as Runs, Waiting as Waits};
ghost use Rattle.tokio.specs.Locks.{CanAcquire};

use crate::renders::Renders;
use answering::rendering::Rendering;
use futures::task::{Context, Poll};
use futures::{Future, ready};
use mapping_model::reply::Reply;
use std::alloc::{AllocError, AllocGlobal, Global};
use std::snapshot::Snapshot;
use std::sync::Arc;
use std::thread;
use std::thread::{Promise, PromisedHandle, Threads};
use tokio::sync::oneshot::Receiver;
use tokio::sync::{AcquireOwned, OwnedSemaphorePermit, Semaphore, oneshot};

/// How many responses are rendered at once. Those beyond wait, in the order in which they were begun.
pub const AT_ONCE: usize = 4;

/// Renders responses, each by a thread of its own, and only a few at once.
#[derive(Drop)]
pub struct Renderer<R> {
    rt: R,
    places: Arc<Semaphore>,
}

/// A response that a thread renders once there is a place for it. Where no thread can be made it is rendered in place.
pub struct ThreadRun<R> {
    rt: R,
    stage: Stage,
}

enum Stage {
    /// `None` once there is a place.
    Waiting(AcquireOwned, Option<Rendering>),
    Running(Running),
}

// A thread that renders.
struct Running {
    // Is woken when the thread has rendered. What it gives says nothing.
    done: Receiver<()>,
    // `None` once it was joined.
    thread: Option<PromisedHandle<Result<Reply, AllocError>, ReplyOf>>,
}

// That a thread gives the reply of this rendering.
#[derive(Drop)]
struct ReplyOf(Snapshot<Rendering>);

impl Promise<Result<Reply, AllocError>> for ReplyOf {
    ghost kept_by = { λ promise result. IfOk result (IsRenderedReply promise.0.value) };
}

// A thread that renders, or what was rendered in place.
enum Started {
    Running(Running),
    Done(Result<Reply, AllocError>),
}

// Written out, so that a caller's proof sees one call and not the drop of each part.
impl Drop for Running {
    fn drop(self) {
        let Running {
            done: _done,
            thread: _thread,
        } = self;
    }
}

// Written out, as that of `Running`.
impl Drop for Stage {
    fn drop(self) {
        match self {
            Stage::Waiting(_place, _rendering) => {}
            Stage::Running(_running) => {}
        }
    }
}

// Written out, as that of `Running`.
impl<R: Drop> Drop for ThreadRun<R> {
    fn drop(self) {
        let ThreadRun {
            rt: _rt,
            stage: _stage,
        } = self;
    }
}

impl<R: AllocGlobal + Drop> Renderer<R> {
    pub fn new(rt: R) -> Result<Renderer<R>, AllocError> {
        let alloc = rt.alloc();
        let places = Arc::new(alloc, Semaphore::new(alloc, AT_ONCE)?)?;
        Ok(Renderer { rt, places })
    }
}

impl<R: Threads + AllocGlobal + Copy + Drop> Renders for Renderer<R> {
    type Run = ThreadRun<R>;

    fn start(&self, rendering: &Rendering) -> Option<ThreadRun<R>> {
        let rendering = rendering.try_clone().ok()?;
        let places = Arc::try_clone(&self.places).ok()?;
        let place = Semaphore::acquire_owned(places);
        Some(ThreadRun {
            rt: self.rt,
            stage: Stage::Waiting(place, Some(rendering)),
        })
    }
}

impl<R: Threads + AllocGlobal + Drop> Future for ThreadRun<R> {
    type Output = Result<Reply, AllocError>;

    ghost can_poll = { λ run. elim run.stage [
      | Waits place rendering ↦ CanAcquire place × IsSome rendering
      | Runs running ↦ IsSome running.thread
    ] };

    ghost gives = { λ run result. elim run.stage [
      | Waits place rendering ↦ IfSome rendering (λ rendering. IfOk result (IsRenderedReply rendering))
      | Runs running ↦ IfSome running.thread (λ thread. IfOk result (IsRenderedReply thread.promise.0.value))
    ] };

    fn poll(&mut self, cx: &mut Context<'_>) -> Poll<Result<Reply, AllocError>> {
        match &mut self.stage {
            Stage::Waiting(place, rendering) => {
                let place = ready!(place.poll(cx));
                let rendering = rendering.take().unwrap();
                match begin(&self.rt, self.rt.alloc(), rendering, place.ok()) {
                    Started::Done(reply) => Poll::Ready(reply),
                    Started::Running(mut running) => {
                        let polled = running.poll(&self.rt, cx);
                        self.stage = Stage::Running(running);
                        polled
                    }
                }
            }
            Stage::Running(running) => running.poll(&self.rt, cx),
        }
    }
}

impl Running {
    fn poll<R: Threads>(&mut self, rt: &R, cx: &mut Context<'_>) -> Poll<Result<Reply, AllocError>>
        requires { IsSome self.old.thread }
        ensures value { IfReady result (λ reply. IfSome self.old.thread
            (λ thread. IfOk reply (IsRenderedReply thread.promise.0.value))) }
        ensures same { OnPending result (self.new.thread ≡ self.old.thread) }
        ensures registered { OnPending result (IsArmed cx.new) }
        ensures kept { Keeps cx.old cx.new }
    {
        let _done = ready!(self.done.poll(cx));
        let thread = self.thread.take().unwrap();
        Poll::Ready(thread.join(rt))
    }
}

// A thread that renders, and keeps the place until it has; or what was rendered here, where there is no place or no
// thread.
fn begin<R: Threads>(
    rt: &R,
    alloc: Global,
    rendering: Rendering,
    place: Option<OwnedSemaphorePermit>,
) -> Started
    ensures { IsStarted rendering result }
{
    let Some(place) = place else {
        return Started::Done(rendering.reply(alloc));
    };
    let Ok((sender, done)) = oneshot::channel(alloc) else {
        return Started::Done(rendering.reply(alloc));
    };
    let promise = ReplyOf(Snapshot::of(&rendering));
    let render = move || {
        let reply = rendering.reply(alloc);
        drop(place);
        // Nobody waits where the client has left.
        let _ = sender.send(());
        reply
    };
    match thread::spawn_with(rt, promise, render) {
        Ok(thread) => Started::Running(Running {
            done,
            thread: Some(thread),
        }),
        Err(refused) => Started::Done((refused.value)()),
    }
}
