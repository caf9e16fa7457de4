// Requests that are no admin calls.
ghost use Rattle.std.specs.Prelude.{IfOk, MatchResult};
ghost use Rattle.answering.specs.Answering.{IsServeAnswered};
ghost use Rattle.answering.specs.Inner.Sent.{HasBegun, IsBegunOf, IsServedToForward, IsServedToRender};
ghost use Rattle.stub_response.specs.ErrorReply.{error_reply};

use crate::begin_event::begin_event;
use crate::begun::Begun;
use crate::clock::Clock;
use crate::response::error_response;
use crate::site::Site;
use error_code::error_code::ErrorCode;
use http_messages::error::ServiceError;
use mock_request::snapshot::Snapshot;
use shared_book::gate::Gate;
use shared_book::origin::Origin;
use shared_book::seat::Seat;
use std::alloc::Global;
use std::sync::Wait;

/// Serves the request, and gives the response or what is to be forwarded or rendered. That is made after the lock was
/// released, from the event that the receipt has. The error says that there was no memory to write the response.
pub(crate) fn serve<L: Origin, R: Wait, G: Gate, C: Clock>(
    rt: &R,
    alloc: Global,
    site: &Site<L, G, C>,
    seat: &mut Seat<L>,
    request: Snapshot,
) -> Result<Begun, ServiceError>
    ensures { MatchResult result
        (HasBegun (IsServeAnswered L.origin L.book site.now.limits seat.old seat.new request)
        (IsServedToForward L.origin L.book seat.old seat.new request)
        (IsServedToRender L.origin L.book site.now.limits seat.old seat.new request))
        (λ _. (reply : _) × IsServeAnswered L.origin L.book site.now.limits seat.old seat.new request reply) }
{
    match seat.serve(rt, &site.book, request) {
        // `return`, since what a `match` gives is moved once more, and an answer is large.
        Ok(receipt) => return begin_event(alloc, site, receipt.number, receipt.event.event()),
        Err(error) => unserved(alloc, error.code),
    }
}

// The answer to a request that isn't served. Not inlined, as `begin_other` in `begin_event.rt`.
#[inline(never)]
fn unserved(alloc: Global, reason: ErrorCode) -> Result<Begun, ServiceError>
    ensures { IfOk result (IsBegunOf (error_reply 503 reason)) }
{
    let response = error_response(alloc, 503, reason)?;
    Ok(Begun::Answered(response))
}
