// A request of a site that is forwarded.
ghost use Rattle.std.specs.Prelude.{◌≡◌, IsSome, Some};

use answering::forward::Forward;
use futures::task::{Context, Poll};
use futures::{Future, ready};
use mapping_model::reply::Reply;
use proxy_client::error::ProxyError;

/// What is kept of a request, and the exchange that forwards it.
#[derive(Drop)]
pub struct ForwardExchange<E> {
    /// `None` once the reply has come.
    forward: Option<Forward>,
    exchange: E,
}

/// What was kept of a request, and what came of forwarding it.
#[derive(Drop)]
pub struct Forwarded {
    pub forward: Forward,
    pub reply: Result<Reply, ProxyError>,
}

impl<E: Drop> ForwardExchange<E> {
    pub(crate) fn new(forward: Forward, exchange: E) -> ForwardExchange<E>
        ensures { result ≡ record { forward = Some forward; exchange = exchange } }
    {
        ForwardExchange {
            forward: Some(forward),
            exchange,
        }
    }

    /// What is kept of the request, before the reply has come.
    pub(crate) fn into_forward(self) -> Forward
        requires { IsSome self.forward }
        ensures { self.forward ≡ Some result }
    {
        self.forward.unwrap()
    }
}

impl<E> Future for ForwardExchange<E>
where
    E: Future<Output = Result<Reply, ProxyError>>,
{
    type Output = Forwarded;

    ghost can_poll = { λ e. IsSome e.forward × E.can_poll e.exchange };

    ghost needs = { λ e. E.needs e.exchange };

    ghost gives = { λ e forwarded. (e.forward ≡ Some forwarded.forward) × E.gives e.exchange forwarded.reply };

    fn poll(&mut self, cx: &mut Context<'_>) -> Poll<Forwarded> {
        let reply = ready!(self.exchange.poll(cx));
        let forward = self.forward.take().unwrap();
        Poll::Ready(Forwarded { forward, reply })
    }
}
