// A connection that may have to leave.
ghost use Rattle.std.specs.Prelude.{◌≡◌, IsSomeAnd, Some};
ghost use Rattle.futures.specs.Task.{Keeps};

use crate::accept::watched::{HeadTimer, Watched};
use bytes::Bytes;
use futures::Future;
use futures::task::{Context, Poll};
use http::{Request, Response};
use http_body::Body;
use hyper::body::Incoming;
use hyper::rt::Timer;
use hyper::server::conn::http1::Connection;
use hyper::service::Service;
use tokio::io::{AsyncRead, AsyncWrite};

/// A connection. Where it has to leave within the head of a request, its client is told so at the end.
#[derive(Drop)]
pub struct Leaving<I, S: Service<Request<Incoming<Watched<I>>>>, B, T> {
    /// `None` once it has ended.
    connection: Option<Connection<Watched<I>, S, B, HeadTimer<T>>>,
}

impl<I, S, B, T> Leaving<I, S, B, T>
where
    S: Service<Request<Incoming<Watched<I>>>>,
{
    pub fn new(connection: Connection<Watched<I>, S, B, HeadTimer<T>>) -> Leaving<I, S, B, T>
        ensures { result.connection ≡ Some connection }
    {
        Leaving {
            connection: Some(connection),
        }
    }
}

impl<I, S, B, T> Future for Leaving<I, S, B, T>
where
    I: AsyncRead + AsyncWrite,
    S: Service<Request<Incoming<Watched<I>>>, Response = Response<B>>,
    S::Error: Into<anyhow::Error>,
    B: Body,
    B::Data: Into<Bytes>,
    B::Error: Into<anyhow::Error>,
    T: Timer,
{
    type Output = hyper::Result<()>;

    ghost can_poll = { λ l. IsSomeAnd l.connection
        (⟦<Connection<Watched<I>, S, B, HeadTimer<T>> as Future>⟧.can_poll) };

    ghost gives = { λ l ended. IsSomeAnd l.connection
        (λ connection. ⟦<Connection<Watched<I>, S, B, HeadTimer<T>> as Future>⟧.gives connection ended) };

    fn poll(&mut self, cx: &mut Context<'_>) -> Poll<hyper::Result<()>> {
        let Some(connection) = &mut self.connection else {
            unreachable!()
        };
        match connection.poll(cx) {
            Poll::Pending => Poll::Pending,
            Poll::Ready(ended) => {
                self.tell_late(cx);
                Poll::Ready(ended)
            }
        }
    }
}

impl<I, S, B, T> Leaving<I, S, B, T>
where
    I: AsyncRead + AsyncWrite,
    S: Service<Request<Incoming<Watched<I>>>, Response = Response<B>>,
    S::Error: Into<anyhow::Error>,
    B: Body,
    B::Data: Into<Bytes>,
    B::Error: Into<anyhow::Error>,
    T: Timer,
{
    fn tell_late(&mut self, cx: &mut Context<'_>)
        ensures { Keeps cx.old cx.new }
    {
        if let Some(connection) = self.connection.take() {
            connection.into_parts().io.tell_late(cx);
        }
    }
}
