// The response to a message that was forwarded.
ghost use Rattle.std.specs.Prelude.{◌≡◌, IfErr, IfOk, Ok, OnErr};
ghost use Rattle.answering.specs.Forwarding.{IsFinished, IsForwardReply, is_not_taken, record_of, reply_unrecorded};
ghost use Rattle.answering.specs.Reply.{IsResponseOfReply};
ghost use Rattle.error_code.specs.declared.error_code.ErrorCode.TheVariants as code;
ghost use Rattle.http_messages.specs.declared.error.ServiceError.TheVariants.{OutOfMemory as NoMemory};
ghost use Rattle.shared_book.specs.Seen.{HasMadeNoCall};
ghost use Rattle.stub_response.specs.ErrorReply.{error_reply};

use crate::clock::Clock;
use crate::content::Content;
use crate::forward::Forward;
use crate::response::{error_response, response_of};
use crate::site::Site;
use error_code::error_code::ErrorCode;
use http::Response;
use http_messages::error::ServiceError;
use mapping_model::reply::Reply;
use proxy_client::error::ProxyError;
use recorder::exchange::{Exchange, SharedExchange};
use request_journal::input::BookInput;
use shared_book::origin::Origin;
use shared_book::seat::Seat;
use std::alloc::{AllocError, Global};
use std::sync::Wait;

/// The response to a message that was forwarded, by what came of that: a reply is recorded where the recording takes
/// it, and relayed. The error says that there was no memory for a response; then nothing is recorded.
pub fn finish<L: Origin, R: Wait, G, C: Clock>(
    rt: &R,
    alloc: Global,
    site: &Site<L, G, C>,
    seat: &mut Seat<L>,
    forward: Forward,
    forwarded: Result<Reply, ProxyError>,
) -> Result<Response<Content>, ServiceError>
    ensures ok { IfOk result (IsFinished L.origin L.book seat.old seat.new forward forwarded) }
    ensures err { IfErr result (λ error. (error ≡ NoMemory) × HasMadeNoCall L.origin L.book seat.old seat.new) }
{
    match forwarded_response(rt, alloc, site, seat, forward, forwarded) {
        Ok(response) => Ok(response),
        Err(_error) => Ok(error_response(alloc, 503, ErrorCode::OutOfMemory)?),
    }
}

fn forwarded_response<L: Origin, R: Wait, G, C: Clock>(
    rt: &R,
    alloc: Global,
    site: &Site<L, G, C>,
    seat: &mut Seat<L>,
    forward: Forward,
    forwarded: Result<Reply, ProxyError>,
) -> Result<Response<Content>, AllocError>
    ensures ok { IfOk result (IsFinished L.origin L.book seat.old seat.new forward forwarded) }
    ensures err { OnErr result (HasMadeNoCall L.origin L.book seat.old seat.new) }
    ensures memory { OnErr result
        (IsForwardReply L.origin L.book seat.old seat.new forward forwarded (error_reply 503 code.OutOfMemory)) }
{
    match forwarded {
        Ok(reply) => relay(rt, alloc, site, seat, forward, reply),
        Err(ProxyError::UpstreamFailed(_)) => error_response(alloc, 502, ErrorCode::UpstreamFailed),
        Err(ProxyError::OutOfMemory) => error_response(alloc, 503, ErrorCode::OutOfMemory),
    }
}

// Records the exchange, and gives the response that the reply is. That is made first, so that a reply which was
// recorded is sent: from then on no memory is needed.
fn relay<L: Origin, R: Wait, G, C: Clock>(
    rt: &R,
    alloc: Global,
    site: &Site<L, G, C>,
    seat: &mut Seat<L>,
    forward: Forward,
    reply: Reply,
) -> Result<Response<Content>, AllocError>
    ensures ok { IfOk result (IsFinished L.origin L.book seat.old seat.new forward (Ok reply)) }
    ensures err { OnErr result (HasMadeNoCall L.origin L.book seat.old seat.new) }
{
    let wait_ms = site.clock.now_ms().saturating_sub(forward.started_ms);
    let input = input_of(alloc, &forward, &reply, wait_ms)?;
    let response = response_of(alloc, reply)?;
    match seat.apply(rt, &site.book, input) {
        Ok(_receipt) => Ok(response),
        Err(error) => unrecorded_response(alloc, response, error.code),
    }
}

// That the exchange be recorded. It shares the reply's body and the request's headers.
fn input_of(
    alloc: Global,
    forward: &Forward,
    reply: &Reply,
    wait_ms: u64,
) -> Result<BookInput, AllocError>
    ensures { IfOk result (λ input. input ≡ record_of forward.now reply.now wait_ms) }
{
    let exchange = Exchange {
        request: forward.request.request().try_clone()?,
        reply: reply.try_clone()?,
        started_ms: forward.started_ms,
        wait_ms,
    };
    Ok(BookInput::Record {
        serve: forward.number,
        exchange: SharedExchange::new(alloc, exchange)?,
    })
}

// The response where the exchange isn't recorded.
fn unrecorded_response(
    alloc: Global,
    response: Response<Content>,
    reason: ErrorCode,
) -> Result<Response<Content>, AllocError>
    ensures { (sent : _) → IsResponseOfReply sent response
        → IfOk result (IsResponseOfReply (reply_unrecorded sent reason)) }
{
    if is_not_taken(reason) {
        return Ok(response);
    }
    error_response(alloc, 503, reason)
}

// Whether no recording takes the exchange.
fn is_not_taken(reason: ErrorCode) -> bool
    ensures { result ≡ is_not_taken reason }
{
    matches!(reason, ErrorCode::NotRecording | ErrorCode::RecordingFull)
}
