// Requests that were served.
ghost use Rattle.std.specs.Prelude.{IfOk};
ghost use Rattle.answering.specs.Inner.Sent.{HasBegun, IsBegunOf, IsForwardOf, IsRenderingOf};
ghost use Rattle.answering.specs.Served.{IsEventReply};
ghost use Rattle.request_journal.specs.declared.event.Event.TheVariants.{Serve};
ghost use Rattle.request_journal.specs.declared.event.ServeAnswer.TheVariants.{Proxy, Stub};
ghost use Rattle.stub_book.specs.Growth.{IsServed};
ghost use Rattle.stub_response.specs.ErrorReply.{unmatched_reply};

use crate::begun::Begun;
use crate::clock::Clock;
use crate::content::Content;
use crate::forward::Forward;
use crate::mapping_response::mapping_response;
use crate::rendering::Rendering;
use crate::response::{response_of, response_with};
use crate::site::Site;
use crate::slow::is_slow;
use http_messages::error::ServiceError;
use recorder::target::Target;
use request_journal::event::{Captured, Event, ServeAnswer};
use request_journal::shared_request::SharedRequest;
use shared_book::gate::Gate;
use shared_book::origin::Origin;
use std::alloc::Global;
use stub_response::limits::Limits;
use stub_response::prepared::Prepared;
use stub_response::unmatched_reply::unmatched_reply;

/// The response by the event of the serve, or what is to be forwarded or rendered by it. A response that was made once
/// with the mapping is shared.
pub(crate) fn begin_event<L: Origin, G: Gate, C: Clock>(
    alloc: Global,
    site: &Site<L, G, C>,
    number: u64,
    event: &Event,
) -> Result<Begun, ServiceError>
    requires { (request : _) × IsServed request event.now }
    ensures { IfOk result (HasBegun (IsEventReply site.now.limits event.now) (IsForwardOf number event.now)
        (IsRenderingOf site.now.limits number event.now)) }
{
    if let Event::Serve {
        request: _request,
        answer,
    } = event
        && let ServeAnswer::Stub(captured) = answer
        && let Prepared::Response(plain) = captured.mapping.spec.prepared()
    {
        site.gate.between_choice_and_render(number);
        // Neither copies a byte.
        let headers = plain.headers.clone()?;
        let body = plain.body.clone()?;
        return Ok(Begun::Answered(response_with(plain.status, headers, Content::whole(body))));
    }
    begin_other(alloc, site, number, event)
}

// The same where the response is made for the request, if there is one. Not inlined: a function clears all its locals
// when it is entered, and most events need none of these.
#[inline(never)]
fn begin_other<L: Origin, G: Gate, C: Clock>(
    alloc: Global,
    site: &Site<L, G, C>,
    number: u64,
    event: &Event,
) -> Result<Begun, ServiceError>
    requires { (request : _) × IsServed request event.now }
    ensures { IfOk result (HasBegun (IsEventReply site.now.limits event.now) (IsForwardOf number event.now)
        (IsRenderingOf site.now.limits number event.now)) }
{
    let Event::Serve { request, answer } = event else {
        unreachable!()
    };
    match answer {
        ServeAnswer::Stub(captured) => {
            site.gate.between_choice_and_render(number);
            let spec = &captured.mapping.spec;
            if is_slow(spec, request.request()) {
                return rendering_of(number, request, captured, site.limits);
            }
            mapping_response(alloc, spec, request.request(), site.limits)
        }
        ServeAnswer::Proxy(target) => forward_of(&site.clock, number, request, target),
        ServeAnswer::Unmatched => unmatched_response(alloc),
    }
}

// What is to be forwarded from now on. It shares the request with the event. Not inlined, as the two below: most events
// need none of their locals.
#[inline(never)]
fn forward_of<C: Clock>(
    clock: &C,
    number: u64,
    request: &SharedRequest,
    target: &Target,
) -> Result<Begun, ServiceError>
    ensures { IfOk result (HasBegun (λ _. ⊥) (IsForwardOf number (Serve request.now (Proxy target.now))) (λ _. ⊥)) }
{
    Ok(Begun::ToForward(Forward {
        number,
        request: request.clone()?,
        target: target.clone()?,
        started_ms: clock.now_ms(),
    }))
}

// What is to be rendered. It shares all of it with the event.
#[inline(never)]
fn rendering_of(
    number: u64,
    request: &SharedRequest,
    captured: &Captured,
    limits: Limits,
) -> Result<Begun, ServiceError>
    ensures { IfOk result (HasBegun (λ _. ⊥) (λ _. ⊥)
        (IsRenderingOf limits number (Serve request.now (Stub captured.now)))) }
{
    Ok(Begun::ToRender(Rendering {
        number,
        request: request.clone()?,
        captured: captured.try_clone()?,
        limits,
    }))
}

#[inline(never)]
fn unmatched_response(alloc: Global) -> Result<Begun, ServiceError>
    ensures { IfOk result (IsBegunOf unmatched_reply) }
{
    let response = response_of(alloc, unmatched_reply(alloc)?)?;
    Ok(Begun::Answered(response))
}
