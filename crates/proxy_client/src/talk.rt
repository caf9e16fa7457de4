// One request and its reply over a connection.
ghost use Rattle.std.specs.Prelude.{◌≡◌, Some, IfOk, IfSome, ⊤};
ghost use Rattle.futures.specs.Task.{Keeps};
ghost use Rattle.hyper.specs.ClientDispatch.{IsNewFor, Runs};

use crate::answer::Answer;
use crate::error::ProxyError;
use bytes::Bytes;
use futures::Future;
use futures::task::{Context, Poll};
use http::Request;
use http_body_util::Full;
use hyper::client::conn::http1::{Builder, Connection};
use std::alloc::Global;
use tokio::io::{AsyncRead, AsyncWrite};

/// A connection, and what is awaited of it. Polling it moves bytes first, and then looks whether the answer has come.
#[derive(Drop)]
pub struct Talk<C, A> {
    // `None` once it has ended; the answer is awaited on.
    connection: Option<C>,
    answer: A,
}

/// One request and its reply over a connection on `I`, which is closed after it.
pub type HttpTalk<I> = Talk<Connection<I, Full<Bytes>>, Answer<I>>;

impl<C, A, T> Future for Talk<C, A>
where
    C: Future<Output = T>,
    T: Drop,
    A: Future,
{
    type Output = A::Output;

    ghost can_poll = { λ t. IfSome t.connection C.can_poll × A.can_poll t.answer };

    ghost needs = { λ t. A.needs t.answer };

    ghost gives = { λ t. A.gives t.answer };

    fn poll(&mut self, cx: &mut Context<'_>) -> Poll<A::Output> {
        move_bytes(&mut self.connection, cx);
        self.answer.poll(cx)
    }
}

// Reads and writes what can be read and written. How the connection ends shows in the answer.
fn move_bytes<C, T>(connection: &mut Option<C>, cx: &mut Context<'_>)
where
    C: Future<Output = T>,
    T: Drop,
    requires { IfSome connection.old C.can_poll }
    ensures again { IfSome connection.new C.can_poll }
    ensures kept { Keeps cx.old cx.new }
{
    if let Some(conn) = connection
        && conn.poll(cx).is_ready()
    {
        *connection = None;
    }
}

/// Sends a message over a new connection.
pub fn http_talk<I: AsyncRead + AsyncWrite>(
    alloc: Global,
    builder: &Builder,
    io: I,
    message: Request<Full<Bytes>>,
) -> Result<HttpTalk<I>, ProxyError>
    ensures new { IfOk result (λ talk. (conn : _) × (talk.connection ≡ Some conn)
        × IsNewFor conn.inner io × (conn.inner.link.core.config ≡ builder.now.config)) }
    ensures runs { IfOk result (λ talk. IfSome talk.connection
        (λ conn. Runs I.reads I.writes (λ _. ⊤) conn.inner)) }
{
    let (mut sender, connection) = builder.handshake(io)?;
    let head = sender.send_request(message);
    // Without a sender the connection ends after this reply.
    drop(sender);
    Ok(Talk {
        connection: Some(connection),
        answer: Answer::Head(alloc, head),
    })
}
