// The requests of one connection.
ghost use Rattle.std.specs.Prelude.{◌≡◌, ◌<◌, ℕ, List, Result, Some, length, IfOk, IsSome, IsTrue};
ghost use Rattle.futures.specs.Poll.{IfReady, OnPending};
ghost use Rattle.futures.specs.Task.{IsArmed, Keeps};
ghost use Rattle.http_connections.specs.declared.request.content_error.ContentError.{ContentError as GatherError};
ghost use Rattle.http_connections.specs.declared.request.service.Answering.TheVariants.{Pending as Pends, Made};
ghost use Rattle.http_connections.specs.declared.request.service.Answering.TheVariants.{Waiting as Waits};
ghost use Rattle.http.specs.Request.{body_of, head_of};
ghost use Rattle.hyper.specs.Incoming.{size_left};
ghost use Rattle.http_connections.specs.Answering.{IsCalled};
ghost use Rattle.http_connections.specs.Content.{IsAnswerFor, IsAnswerTo, IsContentAtOnce, IsNewFor, IsTooLong};
ghost use Rattle.http_connections.specs.Inner.Progress.{IsProgressWith};
ghost use Rattle.http_connections.specs.Inner.Ready.{IsReady};
ghost use Rattle.http_connections.specs.Sent.{IsExchangeFor, IsForwardedBy, IsGivenBy};
ghost use Rattle.http_connections.specs.Site.{giver_of};
ghost use Rattle.mock_request.specs.declared.snapshot.TheConstants.{BODY_LIMIT};

use crate::accept::connection_state::ConnectionState;
use crate::answers::Answers;
use crate::request::content_error::ContentError;
use crate::request::gathering::Gathering;
use crate::request::patience::Patience;
use crate::request::pending::Pending;
use crate::request::progress::Progress;
use crate::request::refusal::{awaits_leave, late, out_of_memory, refusal, unknown_coding};
use crate::seats::slot::SeatSlot;
use bytes::{Bytes, BytesMut};
use futures::task::{Context, Poll};
use futures::{Future, ready};
use http::{Request, Response, StatusCode};
use http_body::Body;
use http_messages::error::ServiceError;
use http_messages::transfer_coding::has_other_coding;
use hyper::body::Incoming;
use hyper::service::Service;
use mock_request::snapshot::BODY_LIMIT;
use std::alloc::{AllocError, AllocGlobal, Global};
use std::mem;
use std::sync::{Arc, Wait};
use std::time::Clock;
use tokio::time::Handle;

/// Answers the requests of one connection, by the seat of its slot.
#[derive(Drop)]
pub struct MessageService<R, A: Answers> {
    rt: R,
    slot: Arc<SeatSlot<A>>,
    timers: Handle,
    state: Arc<ConnectionState>,
}

/// The answer to one request.
#[derive(Drop)]
pub enum Answering<R, A: Answers, G> {
    /// It was made at the call, as most requests have no content. `None` once it was given.
    Made(Option<Result<Response<A::Content>, ServiceError>>),
    /// The content is still to come. In a box, since hyper moves a future.
    Waiting(Box<Waiting<R, A, G>>),
    /// Its reply is still to come.
    Pending(Pending<R, A>),
}

/// A request, and what gathers its content.
#[derive(Drop)]
pub struct Waiting<R, A: Answers, G> {
    rt: R,
    slot: Arc<SeatSlot<A>>,
    /// Its body is empty until the content has come whole.
    request: Request<Bytes>,
    content: G,
    state: Arc<ConnectionState>,
}

impl<R, A: Answers> MessageService<R, A> {
    pub fn new(
        rt: R,
        slot: Arc<SeatSlot<A>>,
        timers: Handle,
        state: Arc<ConnectionState>,
    ) -> MessageService<R, A>
        ensures { result.slot ≡ slot }
    {
        MessageService {
            rt,
            slot,
            timers,
            state,
        }
    }
}

impl<R, A, I> Service<Request<Incoming<I>>> for MessageService<R, A>
where
    R: Wait + Clock + AllocGlobal + Copy + Drop,
    A: Answers,
    I: Drop,
{
    type Response = Response<A::Content>;

    type Error = ServiceError;

    type Future = Answering<R, A, Gathering<R, Incoming<I>>>;

    ghost calls = { λ service. IsCalled A.Content.is_default (IsGivenBy A.number_of A.gives)
        (IsForwardedBy A.number_of A.forwards) (giver_of service.slot) };

    // A request without content is answered at once, or forwarded.
    fn call(&self, request: Request<Incoming<I>>) -> Self::Future {
        if is_empty(request.body()) {
            return self.at_once(request, Bytes::new());
        }
        self.gathering(request)
    }
}

impl<R, A> MessageService<R, A>
where
    R: Wait + AllocGlobal + Copy + Drop,
    A: Answers,
{
    // The answer to a request of which nothing has to come, with its content. Not inlined, and the message is made here:
    // a request is large, and each function that hands it on would copy it.
    #[inline(never)]
    fn at_once<I: Drop>(
        &self,
        request: Request<Incoming<I>>,
        content: Bytes,
    ) -> Answering<R, A, Gathering<R, Incoming<I>>>
        ensures called { IsContentAtOnce (body_of request) content
            → IsCalled A.Content.is_default (IsGivenBy A.number_of A.gives)
            (IsForwardedBy A.number_of A.forwards) (giver_of self.now.slot) request result }
        ensures can_poll { IsReady A.Exchange.can_poll result }
    {
        // The message is made before the state changes, so that the head is copied straight from where it lies; and in
        // a block, so that it is dropped before the answer is moved.
        let begun = {
            let (head, _body) = request.into_parts();
            let message = Request::from_parts(head, content);
            self.state.answers();
            self.slot.begin(&self.rt, self.rt.alloc(), &message)
        };
        match begun {
            // `return`, here and in other such arms, since what a `match` gives is moved once more.
            Ok(Progress::Answered(response)) => return Answering::Made(Some(Ok(response))),
            Ok(Progress::Pending(exchange)) => match pending(self.rt, &self.slot, exchange) {
                Ok(pending) => Answering::Pending(pending),
                Err(AllocError) => Answering::Made(Some(Err(ServiceError::OutOfMemory))),
            },
            Err(ServiceError::OutOfMemory) => {
                Answering::Made(Some(Ok(out_of_memory(self.rt.alloc()))))
            }
            Err(error) => Answering::Made(Some(Err(error))),
        }
    }

    // The answer to a request whose content is still to come. A client that waits for leave to send what is too long is
    // answered before it sends it. Not inlined: a function clears all its locals when it is entered, and most requests
    // have no content.
    #[inline(never)]
    fn gathering<I: Drop>(
        &self,
        request: Request<Incoming<I>>,
    ) -> Answering<R, A, Gathering<R, Incoming<I>>>
        ensures called { IsCalled A.Content.is_default (IsGivenBy A.number_of A.gives)
            (IsForwardedBy A.number_of A.forwards) (giver_of self.now.slot) request result }
        ensures can_poll { IsReady A.Exchange.can_poll result }
    {
        self.state.answers();
        if has_other_coding(request.headers()) {
            return Answering::Made(Some(Ok(unknown_coding(self.rt.alloc()))));
        }
        if awaits_leave(request.headers()) && is_too_long(request.body()) {
            return self.too_long(request);
        }
        match self.waiting(request) {
            Ok(waiting) => Answering::Waiting(waiting),
            Err(AllocError) => Answering::Made(Some(Ok(out_of_memory(self.rt.alloc())))),
        }
    }

    // The answer to a request with content that is too long, of which nothing has come.
    fn too_long<I: Drop>(
        &self,
        request: Request<Incoming<I>>,
    ) -> Answering<R, A, Gathering<R, Incoming<I>>>
        requires { IsTooLong (body_of request) }
        ensures called { IsCalled A.Content.is_default (IsGivenBy A.number_of A.gives)
            (IsForwardedBy A.number_of A.forwards) (giver_of self.now.slot) request result }
        ensures can_poll { IsReady A.Exchange.can_poll result }
    {
        match overlong(self.rt.alloc()) {
            Ok(content) => self.at_once(request, content),
            Err(AllocError) => Answering::Made(Some(Ok(out_of_memory(self.rt.alloc())))),
        }
    }

    // What waits for the content of a request.
    fn waiting<I: Drop>(
        &self,
        request: Request<Incoming<I>>,
    ) -> Result<Box<Waiting<R, A, Gathering<R, Incoming<I>>>>, AllocError>
        ensures head { IfOk result (λ waiting. head_of waiting.value.request ≡ head_of request) }
        ensures content { IfOk result (λ waiting. IsNewFor waiting.value.content (body_of request)) }
        ensures giver { IfOk result (λ waiting. giver_of waiting.value.slot ≡ giver_of self.now.slot) }
    {
        let slot = Arc::try_clone(&self.slot)?;
        let state = Arc::try_clone(&self.state)?;
        let (head, body) = request.into_parts();
        let waiting = Waiting {
            rt: self.rt,
            slot,
            content: self.content_of(body)?,
            request: Request::from_parts(head, Bytes::new()),
            state,
        };
        let waiting = Box::new(self.rt.alloc(), waiting)?;
        self.state.gathers();
        Ok(waiting)
    }

    // What gathers the content of a body.
    fn content_of<I: Drop>(
        &self,
        body: Incoming<I>,
    ) -> Result<Gathering<R, Incoming<I>>, AllocError>
        ensures { IfOk result (λ content. IsNewFor content body) }
    {
        let timers = self.timers.clone()?;
        let state = Arc::try_clone(&self.state)?;
        let patience = Patience::new(self.rt, timers);
        Ok(Gathering::new(self.rt.alloc(), body, state, patience))
    }
}

impl<R, A, G> Future for Answering<R, A, G>
where
    R: Wait + AllocGlobal + Copy + Drop,
    A: Answers,
    G: Future<Output = Result<Bytes, ContentError>>,
{
    type Output = Result<Response<A::Content>, ServiceError>;

    ghost can_poll = { elim [
      | Made made ↦ IsSome made
      | Waits waiting ↦ G.can_poll waiting.value.content
      | Pends pending ↦ A.Exchange.can_poll pending.exchange.value
    ] };

    ghost gives = { λ f result. elim f [
      | Made made ↦ made ≡ Some result
      | Waits waiting ↦ IfOk result (λ made. (gathered : Result (List ℕ) GatherError)
          × G.gives waiting.value.content gathered
          × IsAnswerTo A.Content.is_default (IsGivenBy A.number_of A.gives (giver_of waiting.value.slot))
          (head_of waiting.value.request) gathered made)
      | Pends pending ↦ (message : _)
          → IsExchangeFor (IsForwardedBy A.number_of A.forwards (giver_of pending.slot)) A.Exchange.gives message
          pending.exchange.value
          → IfOk result (IsAnswerFor A.Content.is_default
          (IsGivenBy A.number_of A.gives (giver_of pending.slot)) message)
    ] };

    fn poll(&mut self, cx: &mut Context<'_>) -> Poll<Result<Response<A::Content>, ServiceError>> {
        match self {
            Answering::Made(made) => match mem::replace(made, None) {
                Some(result) => return Poll::Ready(result),
                None => unreachable!(),
            },
            Answering::Waiting(waiting) => match waiting.poll(cx) {
                Poll::Pending => Poll::Pending,
                Poll::Ready(Err(error)) => Poll::Ready(Err(error)),
                Poll::Ready(Ok(Progress::Answered(response))) => Poll::Ready(Ok(response)),
                Poll::Ready(Ok(Progress::Pending(exchange))) => {
                    let mut pending = match pending(waiting.rt, &waiting.slot, exchange) {
                        Ok(pending) => pending,
                        Err(AllocError) => return Poll::Ready(Err(ServiceError::OutOfMemory)),
                    };
                    let polled = pending.poll(cx);
                    *self = Answering::Pending(pending);
                    polled
                }
            },
            Answering::Pending(pending) => pending.poll(cx),
        }
    }
}

impl<R, A, G> Waiting<R, A, G>
where
    R: Wait + AllocGlobal + Copy + Drop,
    A: Answers,
{
    // What becomes of the request, once gathering the content has ended. Not inlined, as `gathering`.
    #[inline(never)]
    fn poll(
        &mut self,
        cx: &mut Context<'_>,
    ) -> Poll<Result<Progress<A::Exchange, A::Content>, ServiceError>>
    where
        G: Future<Output = Result<Bytes, ContentError>>,
        requires { G.can_poll self.old.content }
        ensures value { IfReady result (λ result. IfOk result (λ begun. (gathered : Result (List ℕ) GatherError)
            × G.gives self.old.content gathered
            × IsProgressWith A.Content.is_default (IsGivenBy A.number_of A.gives (giver_of self.old.slot))
            (IsForwardedBy A.number_of A.forwards (giver_of self.old.slot)) A.Exchange.can_poll
            (head_of self.old.request) gathered begun)) }
        ensures again { OnPending result (G.can_poll self.new.content) }
        ensures same { OnPending result (head_of self.new.request ≡ head_of self.old.request) }
        ensures slot { self.new.slot ≡ self.old.slot }
        ensures rest { OnPending result ((gathered : Result (List ℕ) GatherError)
            → G.gives self.new.content gathered → G.gives self.old.content gathered) }
        ensures registered { OnPending result (IsArmed cx.new) }
        ensures kept { Keeps cx.old cx.new }
    {
        let gathered = ready!(self.content.poll(cx));
        Poll::Ready(self.begin(gathered))
    }

    fn begin(
        &mut self,
        gathered: Result<Bytes, ContentError>,
    ) -> Result<Progress<A::Exchange, A::Content>, ServiceError>
        ensures begun { IfOk result (IsProgressWith A.Content.is_default
            (IsGivenBy A.number_of A.gives (giver_of self.old.slot)) (IsForwardedBy A.number_of A.forwards (giver_of self.old.slot)) A.Exchange.can_poll
            (head_of self.old.request) gathered) }
        ensures slot { self.new.slot ≡ self.old.slot }
    {
        self.state.answers();
        let alloc = self.rt.alloc();
        let content = match gathered {
            Ok(content) => content,
            Err(ContentError::TooLong) => match overlong(alloc) {
                Ok(content) => content,
                Err(AllocError) => return Ok(Progress::Answered(out_of_memory(alloc))),
            },
            Err(ContentError::Malformed) => {
                return Ok(Progress::Answered(refusal(alloc, StatusCode::BAD_REQUEST)));
            }
            Err(ContentError::Late) => return Ok(Progress::Answered(late(alloc))),
            Err(ContentError::OutOfMemory) => return Ok(Progress::Answered(out_of_memory(alloc))),
        };
        *self.request.body_mut() = content;
        match self.slot.begin(&self.rt, alloc, &self.request) {
            Err(ServiceError::OutOfMemory) => Ok(Progress::Answered(out_of_memory(alloc))),
            begun => begun,
        }
    }
}

// A request whose reply the exchange gives.
fn pending<R: Drop, A: Answers>(
    rt: R,
    slot: &Arc<SeatSlot<A>>,
    exchange: Box<A::Exchange>,
) -> Result<Pending<R, A>, AllocError>
    ensures exchange { IfOk result (λ pending. pending.exchange ≡ exchange) }
    ensures giver { IfOk result (λ pending. giver_of pending.slot ≡ giver_of slot.now) }
{
    Ok(Pending::new(rt, Arc::try_clone(slot)?, exchange))
}

fn is_empty<I: Drop>(body: &Incoming<I>) -> bool
    ensures { IsTrue result → size_left body.now.kind ≡ Some 0 }
{
    body.size_hint().exact() == Some(0)
}

fn is_too_long<I: Drop>(body: &Incoming<I>) -> bool
    ensures { IsTrue result → IsTooLong body.now }
{
    matches!(body.size_hint().exact(), Some(len) if len > BODY_LIMIT as u64)
}

// Content that is too long, in place of that which wasn't gathered.
fn overlong(alloc: Global) -> Result<Bytes, AllocError>
    ensures { IfOk result (λ bytes. BODY_LIMIT < length bytes) }
{
    Ok(BytesMut::from(vec![in alloc; 0; BODY_LIMIT + 1]?).freeze()?)
}
