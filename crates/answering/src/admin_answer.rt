// Admin calls.
ghost use Rattle.std.specs.Prelude.{◌≡◌, IfOk, MatchResult};
ghost use Rattle.answering.specs.Admin.{IsAdminAnswered, IsAnsweredCall, IsCallAnswered, IsOwnAnswered, foreign_reply};
ghost use Rattle.answering.specs.Admin.{reporting};
ghost use Rattle.answering.specs.Inner.Outcome.{reply_in};
ghost use Rattle.answering.specs.Page.{page_reply};
ghost use Rattle.answering.specs.Reason.{IsRefusalReply};

use crate::clock::Clock;
use crate::foreign::is_foreign;
use crate::page::{page_in, page_reply};
use crate::refused::with_reason;
use crate::site::Site;
use admin_answers::admin_answer::AdminAnswer;
use admin_answers::answer::answer_admin;
use admin_routes::admin::admin_with;
use admin_routes::call::AdminCall;
use admin_routes::router::AdminRoutes;
use bytes::Bytes;
use call_refusal::refusal::Refusal;
use call_refusal::told::{Told, told_of};
use error_code::error_code::ErrorCode;
use mapping_model::reply::Reply;
use mock_request::snapshot::Snapshot;
use shared_book::gate::Gate;
use shared_book::origin::Origin;
use shared_book::seat::Seat;
use shared_book::shared_book::SharedBook;
use std::alloc::{AllocError, Global};
use std::sync::Wait;
use stub_response::error_reply::{error_reply, json_reply};
use template_tree::escape::Escape;

/// What is answered to a call that a page of another site makes. It has no code.
const FOREIGN: &str = "{\"errors\":[{\"title\":\"not for pages of other sites\"}]}";

/// What comes of an admin call: an answer; or a reply that refuses it, and whole lines that tell why.
#[derive(Drop)]
pub(crate) enum AdminOutcome {
    Answered(AdminAnswer),
    Refused(Reply, String),
}

/// Makes the admin call that the request is, unless a page of another site makes it, and gives the answer. The error
/// says that there was no memory to write the answer.
// Not inlined: a function clears all its locals when it is entered, and most requests need none of these.
#[inline(never)]
pub(crate) fn admin_answer<L: Origin, R: Wait, G: Gate, C: Clock>(
    rt: &R,
    alloc: Global,
    site: &Site<L, G, C>,
    seat: &mut Seat<L>,
    request: &Snapshot,
) -> Result<AdminOutcome, AllocError>
    ensures { MatchResult result
        (λ outcome. IsAdminAnswered L.origin L.book site.now.escape site.now.page seat.old seat.new request.now
        (reply_in outcome))
        (λ _. (reply : _) × IsAdminAnswered L.origin L.book site.now.escape site.now.page seat.old seat.new request.now
        reply) }
{
    if is_foreign(request) {
        return foreign_outcome(alloc, &site.routes, request);
    }
    own_answer(rt, alloc, site, seat, request)
}

// What comes of a call that a page of another site makes.
fn foreign_outcome(
    alloc: Global,
    routes: &AdminRoutes,
    request: &Snapshot,
) -> Result<AdminOutcome, AllocError>
    ensures { IfOk result (λ outcome. IsRefusalReply foreign_reply (reply_in outcome)) }
{
    let reply = foreign_reply(alloc)?;
    Ok(refusing(alloc, routes, request, reply, Refusal::Foreign))
}

fn foreign_reply(alloc: Global) -> Result<Reply, AllocError>
    ensures { IfOk result (λ reply. reply ≡ foreign_reply) }
{
    let body = String::from_str(alloc, FOREIGN)?;
    json_reply(alloc, 403, body)
}

// The answer to any other call.
fn own_answer<L: Origin, R: Wait, G: Gate, C: Clock>(
    rt: &R,
    alloc: Global,
    site: &Site<L, G, C>,
    seat: &mut Seat<L>,
    request: &Snapshot,
) -> Result<AdminOutcome, AllocError>
    ensures { MatchResult result
        (λ outcome. IsOwnAnswered L.origin L.book site.now.escape site.now.page seat.old seat.new request.now
        (reply_in outcome))
        (λ _. (reply : _) × IsOwnAnswered L.origin L.book site.now.escape site.now.page seat.old seat.new request.now
        reply) }
{
    match page_in(&site.page, request) {
        Some(page) => page_answer(alloc, page),
        None => made_answer(
            rt,
            alloc,
            &site.book,
            &site.routes,
            seat,
            request,
            site.escape,
        ),
    }
}

fn page_answer(alloc: Global, page: &Bytes) -> Result<AdminOutcome, AllocError>
    ensures { IfOk result (λ outcome. reply_in outcome ≡ page_reply page.now) }
{
    let reply = page_reply(alloc, page)?;
    Ok(AdminOutcome::Answered(AdminAnswer::Whole(reply)))
}

// The answer to a call that asks for no page. The prints of the templates of a posted mapping are escaped so.
fn made_answer<L: Origin, R: Wait>(
    rt: &R,
    alloc: Global,
    shared: &SharedBook<L>,
    routes: &AdminRoutes,
    seat: &mut Seat<L>,
    request: &Snapshot,
    escape: Escape,
) -> Result<AdminOutcome, AllocError>
    ensures { MatchResult result
        (λ outcome. IsCallAnswered L.origin L.book escape seat.old seat.new request.now (reply_in outcome))
        (λ _. (reply : _) × IsCallAnswered L.origin L.book escape seat.old seat.new request.now reply) }
{
    match admin_with(
        alloc,
        routes,
        request.method(),
        request.url(),
        request.body(),
        escape,
    ) {
        Ok(call) => call_answer(rt, alloc, shared, routes, seat, request, call),
        Err(error) => {
            let why = Refusal::NoCall(error);
            reporting(alloc, routes, request, error.error_code(), why)
        }
    }
}

fn call_answer<L: Origin, R: Wait>(
    rt: &R,
    alloc: Global,
    shared: &SharedBook<L>,
    routes: &AdminRoutes,
    seat: &mut Seat<L>,
    request: &Snapshot,
    call: AdminCall,
) -> Result<AdminOutcome, AllocError>
    ensures { MatchResult result
        (λ outcome. IsAnsweredCall L.origin L.book seat.old seat.new call (reply_in outcome))
        (λ _. (reply : _) × IsAnsweredCall L.origin L.book seat.old seat.new call reply) }
{
    match answer_admin(rt, alloc, shared, seat, call) {
        Ok(answer) => Ok(AdminOutcome::Answered(answer)),
        Err(error) => {
            let why = Refusal::Unanswered(error.code);
            reporting(alloc, routes, request, error.code, why)
        }
    }
}

// The reply that reports the error, which tells the client why.
fn reporting(
    alloc: Global,
    routes: &AdminRoutes,
    request: &Snapshot,
    reason: ErrorCode,
    why: Refusal,
) -> Result<AdminOutcome, AllocError>
    ensures { IfOk result (λ outcome. IsRefusalReply (reporting reason) (reply_in outcome)) }
{
    let reply = reporting_reply(alloc, reason)?;
    Ok(refusing(alloc, routes, request, reply, why))
}

fn reporting_reply(alloc: Global, reason: ErrorCode) -> Result<Reply, AllocError>
    ensures { IfOk result (λ reply. reply ≡ reporting reason) }
{
    error_reply(alloc, reason.status().unwrap_or(500), reason)
}

// The reply, which tells the client why the call is refused. Without memory for that, it is the reply alone.
fn refusing(
    alloc: Global,
    routes: &AdminRoutes,
    request: &Snapshot,
    reply: Reply,
    why: Refusal,
) -> AdminOutcome
    ensures { IsRefusalReply reply (reply_in result) }
{
    match told_of(
        alloc,
        routes,
        request.method(),
        request.url(),
        request.body(),
        why,
    ) {
        Ok(told) => {
            let Told { lines, reason } = told;
            AdminOutcome::Refused(with_reason(alloc, reply, reason), lines)
        }
        Err(AllocError) => AdminOutcome::Refused(reply, String::new(alloc)),
    }
}
