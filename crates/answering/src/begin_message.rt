// Messages, each an admin call or a request that is served.
ghost use Rattle.std.specs.Prelude.{◌≡◌, ◌≤◌, ◌<◌, length, IfOk, IsErrOf, MatchResult, OnOk};
ghost use Rattle.http.specs.Request.{body_of};
ghost use Rattle.http_messages.specs.Received.{IsReceived, target_of};
ghost use Rattle.mock_request.specs.Target.{HasUrl};
ghost use Rattle.mock_request.specs.declared.snapshot.TheConstants.{BODY_LIMIT};
ghost use Rattle.admin_answers.specs.Replies.{reply_of};
ghost use Rattle.answering.specs.Admin.{IsAdminAnswered};
ghost use Rattle.answering.specs.Answering.{IsMessageUnanswered, IsMessageReply, refusal};
ghost use Rattle.answering.specs.Forwarding.{IsToForward};
ghost use Rattle.answering.specs.Inner.Outcome.{reply_in};
ghost use Rattle.answering.specs.Inner.Sent.{HasBegun, IsBegunOf};
ghost use Rattle.answering.specs.Rendering.{IsToRender};
ghost use Rattle.answering.specs.Reply.{IsResponseOfReply};

use crate::admin_answer::{AdminOutcome, admin_answer};
use crate::begun::Begun;
use crate::clock::Clock;
use crate::content::Content;
use crate::refused::Refused;
use crate::response::{error_response, listed_response, response_of};
use crate::serve::serve;
use crate::site::Site;
use admin_answers::admin_answer::AdminAnswer;
use admin_routes::router::AdminRoutes;
use admin_routes::url::is_admin;
use bytes::Bytes;
use call_refusal::refusal::Refusal;
use call_refusal::told::told_of;
use error_code::error_code::ErrorCode;
use http::{Request, Response};
use http_messages::error::ServiceError;
use http_messages::received::snapshot_of;
use mock_request::error::SnapshotError;
use mock_request::snapshot::Snapshot;
use shared_book::gate::Gate;
use shared_book::origin::Origin;
use shared_book::seat::Seat;
use std::alloc::{AllocError, Global};
use std::sync::Wait;

/// What `begin` gives. The error says that there was no memory to write the response.
pub(crate) fn begin_message<L: Origin, R: Wait, G: Gate, C: Clock>(
    rt: &R,
    alloc: Global,
    site: &Site<L, G, C>,
    seat: &mut Seat<L>,
    message: &Request<Bytes>,
) -> Result<Begun, ServiceError>
    ensures { MatchResult result
        (HasBegun (IsMessageReply L.origin L.book site.now.limits site.now.escape site.now.page seat.old seat.new message.now)
        (IsToForward L.origin L.book seat.old seat.new message.now)
        (IsToRender L.origin L.book site.now.limits seat.old seat.new message.now))
        (λ _. IsMessageUnanswered L.origin L.book site.now.limits site.now.escape site.now.page seat.old seat.new message.now) }
{
    match request_of(alloc, seat, message) {
        Ok(request) => {
            request.law_names();
            if is_admin(request.url()) {
                return admin_begun(rt, alloc, site, seat, &request);
            }
            // `return`, as in `serve`.
            return serve(rt, alloc, site, seat, request);
        }
        Err(error) => unread(alloc, &site.routes, message, error),
    }
}

// The request that the message is. It shares the headers that came last to the seat, if its own are the same.
fn request_of<L: Origin>(
    alloc: Global,
    seat: &mut Seat<L>,
    message: &Request<Bytes>,
) -> Result<Snapshot, SnapshotError>
    ensures received { IfOk result (IsReceived message.now) }
    ensures within { OnOk result (length (body_of message.now) ≤ BODY_LIMIT) }
    ensures bad_url { IsErrOf result SnapshotError.BadUrl → ¬ (HasUrl (target_of message.now)) }
    ensures too_large { IsErrOf result SnapshotError.BodyTooLarge
        → (HasUrl (target_of message.now) × (BODY_LIMIT < length (body_of message.now))) }
    ensures same { seat.new ≡ seat.old }
{
    let mut headers = seat.take_headers();
    let request = snapshot_of(alloc, message, &mut headers);
    seat.put_headers(headers);
    request
}

// What is answered to a message that isn't read, and what there is to tell of one to the path of an admin call. Its
// client isn't told more than the error.
#[inline(never)]
fn unread(
    alloc: Global,
    routes: &AdminRoutes,
    message: &Request<Bytes>,
    error: SnapshotError,
) -> Result<Begun, ServiceError>
    ensures { IfOk result (IsBegunOf (refusal error)) }
{
    let response = refusal_response(alloc, error)?;
    let path = message.uri().path();
    if !is_admin(path) {
        return Ok(Begun::Answered(response));
    }
    let why = Refusal::Unanswered(error.error_code());
    let lines = match told_of(alloc, routes, message.method().as_str(), path, b"", why) {
        Ok(told) => told.into_lines(),
        Err(AllocError) => String::new(alloc),
    };
    refused_begun(alloc, response, lines)
}

fn refused_begun(
    alloc: Global,
    response: Response<Content>,
    lines: String,
) -> Result<Begun, ServiceError>
    ensures { (reply : _) → IsResponseOfReply reply response → IfOk result (IsBegunOf reply) }
{
    match Box::new(alloc, Refused { response, lines }) {
        Ok(refused) => Ok(Begun::Refused(refused)),
        Err(_failed) => Err(ServiceError::OutOfMemory),
    }
}

// The response to a message that isn't read.
fn refusal_response(alloc: Global, error: SnapshotError) -> Result<Response<Content>, AllocError>
    ensures { IfOk result (IsResponseOfReply (refusal error)) }
{
    match error {
        SnapshotError::BadUrl => error_response(alloc, 400, ErrorCode::BadUrl),
        SnapshotError::BodyTooLarge => error_response(alloc, 413, ErrorCode::TooLarge),
        SnapshotError::OutOfMemory => error_response(alloc, 503, ErrorCode::OutOfMemory),
    }
}

// Not inlined, as `admin_answer`.
#[inline(never)]
fn admin_begun<L: Origin, R: Wait, G: Gate, C: Clock>(
    rt: &R,
    alloc: Global,
    site: &Site<L, G, C>,
    seat: &mut Seat<L>,
    request: &Snapshot,
) -> Result<Begun, ServiceError>
    ensures { MatchResult result
        (HasBegun
        (IsAdminAnswered L.origin L.book site.now.escape site.now.page seat.old seat.new request.now)
        (λ _. ⊥) (λ _. ⊥))
        (λ _. (reply : _) × IsAdminAnswered L.origin L.book site.now.escape site.now.page seat.old seat.new request.now
        reply) }
{
    let outcome = admin_answer(rt, alloc, site, seat, request)?;
    outcome_begun(alloc, outcome)
}

fn outcome_begun(alloc: Global, outcome: AdminOutcome) -> Result<Begun, ServiceError>
    ensures { IfOk result (IsBegunOf (reply_in outcome)) }
{
    match outcome {
        AdminOutcome::Answered(answer) => {
            let response = answer_response(alloc, answer)?;
            Ok(Begun::Answered(response))
        }
        AdminOutcome::Refused(reply, lines) => {
            let response = response_of(alloc, reply)?;
            refused_begun(alloc, response, lines)
        }
    }
}

fn answer_response(alloc: Global, answer: AdminAnswer) -> Result<Response<Content>, AllocError>
    ensures { IfOk result (IsResponseOfReply (reply_of answer)) }
{
    match answer {
        AdminAnswer::Whole(reply) => response_of(alloc, reply),
        AdminAnswer::Listed(listing) => listed_response(alloc, listing),
    }
}
