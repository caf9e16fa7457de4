// Requests whose reply is still to come: they are forwarded, or rendered beside the connections.
ghost use Rattle.std.specs.Prelude.{◌≡◌, IfOk};
ghost use Rattle.http_connections.specs.Content.{IsAnswerFor};
ghost use Rattle.http_connections.specs.Sent.{IsExchangeFor, IsForwardedBy, IsGivenBy};
ghost use Rattle.http_connections.specs.Site.{giver_of};

use crate::answers::Answers;
use crate::request::refusal::out_of_memory;
use crate::seats::slot::SeatSlot;
use futures::task::{Context, Poll};
use futures::{Future, ready};
use http::Response;
use http_messages::error::ServiceError;
use std::alloc::AllocGlobal;
use std::sync::{Arc, Wait};

/// A request whose reply is awaited. The seat is in its slot meanwhile, and may be taken.
#[derive(Drop)]
pub struct Pending<R, A: Answers> {
    rt: R,
    slot: Arc<SeatSlot<A>>,
    /// In a box, since hyper moves a future.
    exchange: Box<A::Exchange>,
}

impl<R, A: Answers> Pending<R, A> {
    pub fn new(rt: R, slot: Arc<SeatSlot<A>>, exchange: Box<A::Exchange>) -> Pending<R, A>
        ensures exchange { result.exchange ≡ exchange }
        ensures site { result.slot ≡ slot }
    {
        Pending { rt, slot, exchange }
    }
}

impl<R, A> Future for Pending<R, A>
where
    R: Wait + AllocGlobal + Drop,
    A: Answers,
{
    type Output = Result<Response<A::Content>, ServiceError>;

    ghost can_poll = { λ f. A.Exchange.can_poll f.exchange.value };

    ghost gives = { λ f result. (message : _)
        → IsExchangeFor (IsForwardedBy A.number_of A.forwards (giver_of f.slot)) A.Exchange.gives message
        f.exchange.value
        → IfOk result (IsAnswerFor A.Content.is_default (IsGivenBy A.number_of A.gives (giver_of f.slot)) message) };

    fn poll(&mut self, cx: &mut Context<'_>) -> Poll<Result<Response<A::Content>, ServiceError>> {
        let reply = ready!(self.exchange.poll(cx));
        let alloc = self.rt.alloc();
        match self.slot.finish(&self.rt, alloc, reply) {
            Err(ServiceError::OutOfMemory) => Poll::Ready(Ok(out_of_memory(alloc))),
            finished => Poll::Ready(finished),
        }
    }
}
