// A site, beside the cell of a connection's seat.
ghost use Rattle.std.specs.Prelude.{◌≡◌, ◌≢◌, IfErr, IfOk, IfSome, IsTrue};
ghost use Rattle.std.specs.Arc.{arc_value};
ghost use Rattle.http_connections.specs.Sent.{IsProgress, IsForwardedBy, IsGivenBy, IsSentFor};
ghost use Rattle.http_connections.specs.Inner.Progress.{IsSentOf};
ghost use Rattle.http_connections.specs.Inner.Seat.{OnSeat};
ghost use Rattle.http_connections.specs.Site.{giver};
ghost use Rattle.http_messages.specs.Wire.{IsSent};
ghost use Rattle.http_messages.specs.declared.error.ServiceError.TheVariants.{Broken, OutOfMemory as NoMemory};

use crate::answers::Answers;
use crate::request::progress::Progress;
use crate::seats::cell::SeatCell;
use bytes::Bytes;
use http::{Request, Response};
use http_messages::error::ServiceError;
use http_messages::wire::{is_as_sent, sent};
use std::alloc::{AllocError, Global};
use std::rc::Rc;
use std::sync::{Arc, Wait};
use tokio::runtime::Handle;

/// A site, and the cell of the seat by which it answers the requests of one connection. The seat stays there. It is
/// locked in each call, and not between the two calls for a request that is forwarded. Where a seat with another number
/// lies there, nothing is answered by it: `Broken`.
#[derive(Drop)]
pub struct SeatSlot<A: Answers> {
    pub site: Arc<A>,
    cell: Arc<SeatCell<A::Seat>>,
    /// The number of the seat.
    number: u64,
    /// The runtime that drives the connection.
    handle: Rc<Handle>,
}

impl<A: Answers> SeatSlot<A> {
    pub fn new(
        site: Arc<A>,
        cell: Arc<SeatCell<A::Seat>>,
        number: u64,
        handle: Rc<Handle>,
    ) -> SeatSlot<A>
        ensures { giver result ≡ record { site = arc_value site; number = number } }
    {
        SeatSlot {
            site,
            cell,
            number,
            handle,
        }
    }

    /// What is sent of the answer to a request, or the exchange that forwards it, by the seat.
    pub fn begin<R: Wait>(
        &self,
        rt: &R,
        alloc: Global,
        request: &Request<Bytes>,
    ) -> Result<Progress<A::Exchange, A::Content>, ServiceError>
        ensures { IfOk result
            (IsProgress (IsSentFor A.Content.is_default (IsGivenBy A.number_of A.gives (giver self.now)))
            (IsForwardedBy A.number_of A.forwards (giver self.now)) A.Exchange.can_poll request.now) }
    {
        let mut held = self.cell.seat.lock(rt);
        let begun = begin_by(
            rt,
            alloc,
            &*self.handle,
            &*self.site,
            self.number,
            &mut *held,
            request,
        );
        drop(held);
        // Most answers are sent as they are, and aren't moved to see that.
        if goes_as_it_is(&begun) {
            return begun;
        }
        begun_anew(alloc, begun?)
    }

    /// What is sent of the answer to a request that was forwarded, by the seat.
    pub fn finish<R: Wait>(
        &self,
        rt: &R,
        alloc: Global,
        reply: A::Reply,
    ) -> Result<Response<A::Content>, ServiceError>
        ensures { (message : _) (exchange : _)
            → IsForwardedBy A.number_of A.forwards (giver self.now) message exchange → A.Exchange.gives exchange reply
            → IfOk result (IsSentFor A.Content.is_default (IsGivenBy A.number_of A.gives (giver self.now)) message) }
    {
        let response = self.finish_at_seat(rt, alloc, reply)?;
        Ok(as_sent(alloc, response)?)
    }

    fn finish_at_seat<R: Wait>(
        &self,
        rt: &R,
        alloc: Global,
        reply: A::Reply,
    ) -> Result<Response<A::Content>, ServiceError>
        ensures { (message : _) (exchange : _)
            → IsForwardedBy A.number_of A.forwards (giver self.now) message exchange → A.Exchange.gives exchange reply
            → IfOk result (IsGivenBy A.number_of A.gives (giver self.now) message) }
    {
        let mut held = self.cell.seat.lock(rt);
        finish_by(rt, alloc, &*self.site, self.number, &mut *held, reply)
    }
}

// What the site says by the seat of a cell; `Broken` where none with this number is there.
fn begin_by<R: Wait, A: Answers>(
    rt: &R,
    alloc: Global,
    handle: &Handle,
    site: &A,
    number: u64,
    held: &mut Option<A::Seat>,
    request: &Request<Bytes>,
) -> Result<Progress<A::Exchange, A::Content>, ServiceError>
    ensures ok { IfOk result (λ begun. OnSeat held.old held.new (λ old new. (A.number_of old ≡ number)
        × IsProgress (A.gives site.now old new) (A.forwards site.now old new) A.Exchange.can_poll request.now begun)) }
    ensures err { IfErr result (elim [
      | NoMemory ↦ OnSeat held.old held.new (λ old new. (A.number_of old ≡ number)
          × A.unanswered site.now old new request.now)
      | Broken ↦ (held.new ≡ held.old) × IfSome held.old (λ seat. A.number_of seat ≢ number)
    ]) }
{
    match held {
        Some(seat) => {
            if A::number(seat) != number {
                return Err(ServiceError::Broken);
            }
            return site.begin(rt, alloc, handle, seat, request);
        }
        None => Err(ServiceError::Broken),
    }
}

// What the site says to what came of forwarding a request, by the seat of a cell; `Broken` where none with this number
// is there.
fn finish_by<R: Wait, A: Answers>(
    rt: &R,
    alloc: Global,
    site: &A,
    number: u64,
    held: &mut Option<A::Seat>,
    reply: A::Reply,
) -> Result<Response<A::Content>, ServiceError>
    ensures ok { (message : _) (old : _) (new : _) (exchange : _) → A.number_of old ≡ number
        → A.forwards site.now old new message exchange → A.Exchange.gives exchange reply
        → IfOk result (λ made. OnSeat held.old held.new (λ old new. (A.number_of old ≡ number)
        × A.gives site.now old new message made)) }
    ensures err { IfErr result (elim [
      | NoMemory ↦ OnSeat held.old held.new (λ old new. (A.number_of old ≡ number) × A.unfinished site.now old new)
      | Broken ↦ (held.new ≡ held.old) × IfSome held.old (λ seat. A.number_of seat ≢ number)
    ]) }
{
    match held {
        Some(seat) => {
            if A::number(seat) == number {
                return site.finish(rt, alloc, seat, reply);
            }
            Err(ServiceError::Broken)
        }
        None => Err(ServiceError::Broken),
    }
}

// What is sent of a response: itself, where it may be.
fn as_sent<C: Default + Drop>(
    alloc: Global,
    response: Response<C>,
) -> Result<Response<C>, AllocError>
    ensures { IfOk result (IsSent C.is_default response) }
{
    if is_as_sent(&response) {
        return Ok(response);
    }
    sent(alloc, response)
}

// Whether there is no answer, or one that is sent as it is.
fn goes_as_it_is<E, C: Default>(begun: &Result<Progress<E, C>, ServiceError>) -> bool
    ensures { IsTrue result → IfOk begun.now (λ begun. IsSentOf C.is_default begun begun) }
{
    match begun {
        Ok(begun) => is_sent_as_it_is(begun),
        Err(_error) => true,
    }
}

fn is_sent_as_it_is<E, C: Default>(begun: &Progress<E, C>) -> bool
    ensures { IsTrue result → IsSentOf C.is_default begun.now begun.now }
{
    match begun {
        Progress::Answered(response) => is_as_sent(response),
        Progress::Pending(_exchange) => true,
    }
}

// With what is sent of an answer in place of it.
fn begun_anew<E: Drop, C: Default + Drop>(
    alloc: Global,
    begun: Progress<E, C>,
) -> Result<Progress<E, C>, ServiceError>
    ensures { IfOk result (IsSentOf C.is_default begun) }
{
    match begun {
        Progress::Answered(response) => Ok(Progress::Answered(sent(alloc, response)?)),
        Progress::Pending(exchange) => Ok(Progress::Pending(exchange)),
    }
}
