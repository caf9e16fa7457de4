// A site answers the requests of connections.
ghost use Rattle.std.specs.Prelude.{◌≡◌, IfErr, IfOk, IsSome, IsTrue};
ghost use Rattle.answering.specs.Forwarding.{IsFinished};
ghost use Rattle.answering.specs.Rendering.{IsResponseOfRendered};
ghost use Rattle.http_messages.specs.declared.error.ServiceError.TheVariants.{OutOfMemory as NoMemory};
ghost use Rattle.hyper_service.specs.Given.{IsFinishedBy, IsGivenToMessage, IsLeft, IsPassedTo, IsUnanswered};
ghost use Rattle.hyper_service.specs.Given.{rules_of};
ghost use Rattle.hyper_service.specs.Inner.Begins.{Begins, HasNoAnswer, IsAnswering, IsForwardBegun};
ghost use Rattle.hyper_service.specs.Inner.Begins.{IsForwardingBy, IsRenderBegun, IsRenderingBy};
ghost use Rattle.hyper_service.specs.Inner.Failure.{IsFailure};
ghost use Rattle.hyper_service.specs.Seats.{IsConnectionJoined, IsConnectionSplit};
ghost use Rattle.shared_book.specs.Seen.{HasMadeNoCall};

use crate::forward_exchange::Forwarded;
use crate::journal_limit::JournalLimit;
use crate::log::Log;
use crate::outcome::{Outcome, last_number, outcome_of};
use crate::render_exchange::Rendered;
use crate::renders::Renders;
use crate::site_exchange::{SiteExchange, SiteReply};
use answering::begun::Begun;
use answering::clock::Clock;
use answering::content::Content;
use answering::forward::Forward;
use answering::refused::Refused;
use answering::rendering::{Rendering, rendered_response};
use answering::site::Site;
use bytes::Bytes;
use http::{Request, Response};
use http_connections::answers::Answers;
use http_connections::request::progress::Progress;
use http_messages::error::ServiceError;
use proxy_client::error::ProxyError;
use proxy_client::failure::Failure;
use proxy_client::forwards::Forwards;
use shared_book::gate::Gate;
use shared_book::origin::Origin;
use shared_book::seat::Seat;
use std::alloc::Global;
use std::sync::{Arc, Wait};
use tokio::runtime::Handle;

/// A site, what forwards its requests, what renders its responses where that takes long, what is told of them, and how
/// long its journal gets: what the connections of a server are served by.
#[derive(Drop)]
pub struct SiteAnswers<L: Origin, G, C, F, V, N> {
    site: Arc<Site<L, G, C>>,
    forwarder: F,
    renderer: V,
    log: N,
    journal: JournalLimit,
}

impl<L: Origin, G, C, F, V, N> SiteAnswers<L, G, C, F, V, N> {
    pub fn new(
        site: Arc<Site<L, G, C>>,
        forwarder: F,
        renderer: V,
        log: N,
        journal: JournalLimit,
    ) -> SiteAnswers<L, G, C, F, V, N>
        ensures { result ≡ record {
          site = site;
          forwarder = forwarder;
          renderer = renderer;
          log = log;
          journal = journal;
        } }
    {
        SiteAnswers {
            site,
            forwarder,
            renderer,
            log,
            journal,
        }
    }

    /// How many turns the loop over the bytes of a connection has.
    pub(crate) fn turns(&self) -> u64 {
        self.site.turns
    }
}

impl<L, G, C, F, V, N> Answers for SiteAnswers<L, G, C, F, V, N>
where
    L: Origin,
    G: Gate + Drop,
    C: Clock + Drop,
    F: Forwards,
    V: Renders,
    N: Log + Drop,
{
    type Seat = Seat<L>;

    type Reply = SiteReply;

    type Exchange = SiteExchange<F::Exchange, V::Run>;

    type Content = Content;

    ghost number_of = { λ seat. seat.number };

    ghost gives = { λ answers.
        IsGivenToMessage (rules_of L.origin L.book answers) (F.reaches answers.forwarder) F.sends F.Exchange.gives };

    ghost forwards = { λ answers.
        IsPassedTo (rules_of L.origin L.book answers) (F.reaches answers.forwarder) F.sends F.Exchange.gives
        V.Run.gives };

    ghost finishes = { λ _. IsFinishedBy L.origin L.book };

    ghost unanswered = { λ answers. IsUnanswered (rules_of L.origin L.book answers) };

    ghost unfinished = { λ _. HasMadeNoCall L.origin L.book };

    ghost splits = { λ _. IsConnectionSplit L.origin L.book };

    ghost joins = { λ _. IsConnectionJoined L.origin L.book };

    fn number(seat: &Seat<L>) -> u64 {
        seat.number()
    }

    fn begin<R: Wait>(
        &self,
        rt: &R,
        alloc: Global,
        handle: &Handle,
        seat: &mut Seat<L>,
        request: &Request<Bytes>,
    ) -> Result<Progress<SiteExchange<F::Exchange, V::Run>, Content>, ServiceError> {
        let before = last_number(seat);
        let answered = answering::begin::begin(rt, alloc, &self.site, seat, request);
        let is_full = self.tell(rt, alloc, request, outcome_of(seat, before), &answered);
        let begun = self.pass_on(rt, alloc, handle, seat, answered);
        self.journal.keep(rt, &self.site.book, seat, is_full);
        begun
    }

    fn finish<R: Wait>(
        &self,
        rt: &R,
        alloc: Global,
        seat: &mut Seat<L>,
        reply: SiteReply,
    ) -> Result<Response<Content>, ServiceError> {
        match reply {
            SiteReply::Forwarded(forwarded) => self.finish_forwarded(rt, alloc, seat, forwarded),
            SiteReply::Rendered(rendered) => self.finish_rendered(rt, alloc, rendered),
        }
    }

    fn split<R: Wait>(&self, rt: &R, seat: &mut Seat<L>) -> Option<Seat<L>> {
        if seat.parts() == 1 {
            return None;
        }
        Some(seat.split(rt, &self.site.book))
    }

    fn join<R: Wait>(&self, rt: &R, seat: &mut Seat<L>, other: Seat<L>) -> Result<(), Seat<L>> {
        seat.join(rt, &self.site.book, other)
    }
}

impl<L, G, C, F, V, N> SiteAnswers<L, G, C, F, V, N>
where
    L: Origin,
    G: Gate + Drop,
    C: Clock + Drop,
    F: Forwards,
    V: Renders,
    N: Log + Drop,
{
    // Tells the log what was answered, and counts the event. Whether the journal is full.
    fn tell<R: Wait>(
        &self,
        rt: &R,
        alloc: Global,
        request: &Request<Bytes>,
        outcome: Option<Outcome<'_>>,
        answered: &Result<Begun, ServiceError>,
    ) -> bool
        ensures { IsTrue result → IsSome self.now.journal.limit }
    {
        match answered {
            Ok(Begun::Answered(response)) => {
                self.log.answered(rt, alloc, request, outcome, response)
            }
            Ok(Begun::Refused(refused)) => {
                self.log.refused(rt, alloc, request, outcome, refused)
            }
            _ => {}
        }
        self.journal.count(rt, outcome)
    }

    // The answer, or the exchange that forwards the request or renders its response.
    fn pass_on<R: Wait>(
        &self,
        rt: &R,
        alloc: Global,
        handle: &Handle,
        seat: &mut Seat<L>,
        answered: Result<Begun, ServiceError>,
    ) -> Result<Progress<SiteExchange<F::Exchange, V::Run>, Content>, ServiceError>
        ensures ok { (old : _) → (message : _)
            → IfOk answered (IsAnswering (rules_of L.origin L.book self.now) old seat.old message)
            → IfOk result (Begins (rules_of L.origin L.book self.now) (F.reaches self.now.forwarder) F.sends
            F.Exchange.gives F.Exchange.can_poll V.Run.gives V.Run.can_poll old seat.new message) }
        ensures err { (old : _) → (message : _)
            → IfOk answered (IsAnswering (rules_of L.origin L.book self.now) old seat.old message)
            → IfErr answered (λ error. (error ≡ NoMemory)
            × HasNoAnswer (rules_of L.origin L.book self.now) old seat.old message)
            → IfErr result (λ error. (error ≡ NoMemory)
            × IsLeft (rules_of L.origin L.book self.now) old seat.new message) }
    {
        match answered {
            Ok(Begun::Answered(response)) => Ok(Progress::Answered(response)),
            Ok(Begun::Refused(refused)) => { Ok(Progress::Answered(refused_response(refused))) }
            Ok(Begun::ToForward(forward)) => { self.forward(rt, alloc, handle, seat, forward) }
            Ok(Begun::ToRender(rendering)) => self.render(rt, alloc, rendering),
            Err(error) => Err(error),
        }
    }

    // The exchange for what is to be forwarded; or the answer, where there can't be one. Not inlined: a function clears
    // all its locals when it is entered, and most requests are answered at once.
    #[inline(never)]
    fn forward<R: Wait>(
        &self,
        rt: &R,
        alloc: Global,
        handle: &Handle,
        seat: &mut Seat<L>,
        forward: Forward,
    ) -> Result<Progress<SiteExchange<F::Exchange, V::Run>, Content>, ServiceError>
        ensures ok { IfOk result (IsForwardBegun (rules_of L.origin L.book self.now) (F.reaches self.now.forwarder)
            F.sends F.Exchange.gives F.Exchange.can_poll seat.old seat.new forward) }
        ensures err { IfErr result (λ error. (error ≡ NoMemory) × HasMadeNoCall L.origin L.book seat.old seat.new) }
    {
        match self.exchange(alloc, handle, forward) {
            Ok(exchange) => Ok(Progress::Pending(exchange)),
            Err(failed) => {
                let response = self.finish_forwarded(rt, alloc, seat, failed)?;
                Ok(Progress::Answered(response))
            }
        }
    }

    fn finish_forwarded<R: Wait>(
        &self,
        rt: &R,
        alloc: Global,
        seat: &mut Seat<L>,
        forwarded: Forwarded,
    ) -> Result<Response<Content>, ServiceError>
        ensures ok { IfOk result (IsFinished L.origin L.book seat.old seat.new forwarded.forward forwarded.reply) }
        ensures err { IfErr result (λ error. (error ≡ NoMemory) × HasMadeNoCall L.origin L.book seat.old seat.new) }
    {
        let Forwarded { forward, reply } = forwarded;
        let number = forward.number;
        let failure = failure_in(&reply);
        let request: Result<_, _> = forward.request.clone();
        let response = answering::finish::finish(rt, alloc, &self.site, seat, forward, reply)?;
        if let Ok(request) = &request {
            let status = response.status().as_u16();
            self.log
                .forwarded(rt, alloc, number, request.request(), status, failure);
        }
        Ok(response)
    }

    // What renders the response beside the connections; or the response, where there can't be that. Not inlined, as
    // `forward`.
    #[inline(never)]
    fn render<R: Wait>(
        &self,
        rt: &R,
        alloc: Global,
        rendering: Rendering,
    ) -> Result<Progress<SiteExchange<F::Exchange, V::Run>, Content>, ServiceError>
        ensures ok { IfOk result (IsRenderBegun V.Run.gives V.Run.can_poll rendering) }
        ensures err { IfErr result (λ error. error ≡ NoMemory) }
    {
        match self.render_exchange(alloc, rendering) {
            Ok(exchange) => Ok(Progress::Pending(exchange)),
            Err(rendering) => {
                let reply = rendering.reply(alloc);
                let response = self.finish_rendered(rt, alloc, Rendered { rendering, reply })?;
                Ok(Progress::Answered(response))
            }
        }
    }

    fn finish_rendered<R: Wait>(
        &self,
        rt: &R,
        alloc: Global,
        rendered: Rendered,
    ) -> Result<Response<Content>, ServiceError>
        ensures ok { IfOk result (IsResponseOfRendered rendered.reply) }
        ensures err { IfErr result (λ error. error ≡ NoMemory) }
    {
        let Rendered { rendering, reply } = rendered;
        let response = rendered_response(alloc, reply)?;
        self.log
            .rendered(rt, alloc, &rendering, response.status().as_u16());
        Ok(response)
    }

    fn render_exchange(
        &self,
        alloc: Global,
        rendering: Rendering,
    ) -> Result<Box<SiteExchange<F::Exchange, V::Run>>, Rendering>
        ensures made { IfOk result (λ made. IsRenderingBy V.Run.gives V.Run.can_poll rendering made.value) }
        ensures none { IfErr result (λ same. same ≡ rendering) }
    {
        match self.renderer.start(&rendering) {
            Some(run) => SiteExchange::rendering(alloc, rendering, run),
            None => Err(rendering),
        }
    }

    fn exchange(
        &self,
        alloc: Global,
        handle: &Handle,
        forward: Forward,
    ) -> Result<Box<SiteExchange<F::Exchange, V::Run>>, Forwarded>
        ensures made { IfOk result (λ made. IsForwardingBy (rules_of L.origin L.book self.now)
            (F.reaches self.now.forwarder) F.sends F.Exchange.gives F.Exchange.can_poll forward made.value) }
        ensures none { IfErr result (IsFailure forward) }
    {
        match self
            .forwarder
            .exchange(handle, &forward.target, forward.request.request())
        {
            Ok(exchange) => SiteExchange::forwarding(alloc, forward, exchange),
            Err(error) => Err(Forwarded {
                forward,
                reply: Err(error),
            }),
        }
    }
}

// The response to an admin call that is refused. Not inlined, as `forward`.
#[inline(never)]
fn refused_response(refused: Box<Refused>) -> Response<Content>
    ensures { result ≡ refused.value.response }
{
    Box::into_inner(refused).into_response()
}

// Why the upstream gave no reply; nothing where it gave one, or where memory ran out.
fn failure_in<T>(reply: &Result<T, ProxyError>) -> Option<Failure> {
    match reply {
        Err(ProxyError::UpstreamFailed(failure)) => Some(*failure),
        _ => None,
    }
}
