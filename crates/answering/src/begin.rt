// The response to a message, or what is to be forwarded or rendered to have one.
ghost use Rattle.std.specs.Prelude.{◌≡◌, IfErr, IfOk};
ghost use Rattle.http_messages.specs.declared.error.ServiceError.TheVariants.{OutOfMemory as NoMemory};
ghost use Rattle.answering.specs.Answering.{BeginsMessage, IsMessageUnanswered};
ghost use Rattle.answering.specs.Inner.Sent.{IsBegunOf};
ghost use Rattle.error_code.specs.declared.error_code.ErrorCode.TheVariants.{OutOfMemory};
ghost use Rattle.stub_response.specs.ErrorReply.{error_reply};

use crate::begin_message::begin_message;
use crate::begun::Begun;
use crate::clock::Clock;
use crate::response::error_response;
use crate::site::Site;
use bytes::Bytes;
use error_code::error_code::ErrorCode;
use http::Request;
use http_messages::error::ServiceError;
use shared_book::gate::Gate;
use shared_book::origin::Origin;
use shared_book::seat::Seat;
use std::alloc::Global;
use std::sync::Wait;

/// Answers a message as far as that takes no other server. A request that is no admin call is one serve of the book.
/// Its response is made after the lock was released; or it is to be forwarded, and `finish` takes what came of that; or
/// it takes long and is to be rendered, as any thread may do. Where memory runs out after the serve, that stands, and the
/// answer is 503. The error says that there was no memory for that 503 either.
pub fn begin<L: Origin, R: Wait, G: Gate, C: Clock>(
    rt: &R,
    alloc: Global,
    site: &Site<L, G, C>,
    seat: &mut Seat<L>,
    message: &Request<Bytes>,
) -> Result<Begun, ServiceError>
    ensures ok { IfOk result (BeginsMessage L.origin L.book site.now.limits site.now.escape site.now.page seat.old seat.new
        message.now) }
    ensures err { IfErr result (λ error. (error ≡ NoMemory)
        × IsMessageUnanswered L.origin L.book site.now.limits site.now.escape site.now.page seat.old seat.new message.now) }
{
    match begin_message(rt, alloc, site, seat, message) {
        // `return`, as in `serve`.
        Ok(begun) => return Ok(begun),
        Err(_error) => no_memory(alloc),
    }
}

// The answer where there was no memory to write another. Not inlined: a function clears all its locals when it is
// entered, and most messages need none of these.
#[inline(never)]
fn no_memory(alloc: Global) -> Result<Begun, ServiceError>
    ensures ok { IfOk result (IsBegunOf (error_reply 503 OutOfMemory)) }
    ensures err { IfErr result (λ error. error ≡ NoMemory) }
{
    let response = error_response(alloc, 503, ErrorCode::OutOfMemory)?;
    Ok(Begun::Answered(response))
}
