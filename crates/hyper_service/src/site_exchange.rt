// A request of a site that isn't answered at once.
ghost use Rattle.std.specs.Prelude.{◌≡◌, IfErr, IfOk, Some};
ghost use Rattle.hyper_service.specs.Inner.Exchange.{CanPoll, Gives};
ghost use Rattle.hyper_service.specs.Inner.Failure.{IsFailure};
ghost use Rattle.hyper_service.specs.declared.site_exchange.SiteExchange.TheVariants.{Forwarding as Forwards};
ghost use Rattle.hyper_service.specs.declared.site_exchange.SiteExchange.TheVariants.{Rendering as Renders};

use crate::forward_exchange::{ForwardExchange, Forwarded};
use crate::render_exchange::{RenderExchange, Rendered};
use answering::forward::Forward;
use answering::rendering::Rendering;
use futures::Future;
use futures::task::{Context, Poll};
use mapping_model::reply::Reply;
use proxy_client::error::ProxyError;
use std::alloc::{AllocError, Global};

/// A request that is forwarded, or whose response is rendered beside the connections.
#[derive(Drop)]
pub enum SiteExchange<E, V> {
    Forwarding(ForwardExchange<E>),
    Rendering(RenderExchange<V>),
}

/// What came of it.
#[derive(Drop)]
pub enum SiteReply {
    Forwarded(Forwarded),
    Rendered(Rendered),
}

impl<E: Drop, V: Drop> SiteExchange<E, V> {
    /// Where there is no memory for it, nothing has been forwarded, and the failure is what came of that.
    pub(crate) fn forwarding(
        alloc: Global,
        forward: Forward,
        exchange: E,
    ) -> Result<Box<SiteExchange<E, V>>, Forwarded>
        ensures made { IfOk result
            (λ made. made.value ≡ Forwards (record { forward = Some forward; exchange = exchange })) }
        ensures none { IfErr result (IsFailure forward) }
    {
        let exchange = SiteExchange::Forwarding(ForwardExchange::new(forward, exchange));
        match Box::new(alloc, exchange) {
            Ok(exchange) => Ok(exchange),
            Err(refused) => match refused.value {
                SiteExchange::Forwarding(exchange) => Err(Forwarded {
                    forward: exchange.into_forward(),
                    reply: Err(ProxyError::OutOfMemory),
                }),
                SiteExchange::Rendering(_exchange) => unreachable!(),
            },
        }
    }

    /// Where there is no memory for it, it gives back what is to be rendered.
    pub(crate) fn rendering(
        alloc: Global,
        rendering: Rendering,
        run: V,
    ) -> Result<Box<SiteExchange<E, V>>, Rendering>
        ensures made { IfOk result
            (λ made. made.value ≡ Renders (record { rendering = Some rendering; run = run })) }
        ensures none { IfErr result (λ same. same ≡ rendering) }
    {
        let exchange = SiteExchange::Rendering(RenderExchange::new(rendering, run));
        match Box::new(alloc, exchange) {
            Ok(exchange) => Ok(exchange),
            Err(refused) => match refused.value {
                SiteExchange::Rendering(exchange) => Err(exchange.into_rendering()),
                SiteExchange::Forwarding(_exchange) => unreachable!(),
            },
        }
    }
}

impl<E, V> Future for SiteExchange<E, V>
where
    E: Future<Output = Result<Reply, ProxyError>>,
    V: Future<Output = Result<Reply, AllocError>>,
{
    type Output = SiteReply;

    ghost can_poll = { CanPoll E.can_poll V.can_poll };

    ghost needs = { elim [
      | Forwards exchange ↦ E.needs exchange.exchange
      | Renders exchange ↦ V.needs exchange.run
    ] };

    ghost gives = { Gives E.gives V.gives };

    fn poll(&mut self, cx: &mut Context<'_>) -> Poll<SiteReply> {
        match self {
            SiteExchange::Forwarding(forwarding) => match forwarding.poll(cx) {
                Poll::Ready(forwarded) => Poll::Ready(SiteReply::Forwarded(forwarded)),
                Poll::Pending => Poll::Pending,
            },
            SiteExchange::Rendering(rendering) => match rendering.poll(cx) {
                Poll::Ready(rendered) => Poll::Ready(SiteReply::Rendered(rendered)),
                Poll::Pending => Poll::Pending,
            },
        }
    }
}
