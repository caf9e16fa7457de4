// The reply to a request that was sent.
ghost use Rattle.std.specs.Prelude.{IfOk};
ghost use Rattle.futures.specs.Poll.{IfReady, OnPending};
ghost use Rattle.futures.specs.Task.{IsArmed, Keeps};
ghost use Rattle.proxy_client.specs.Messages.{IsReplyMessage, IsSomeReply};

use crate::content::Content;
use crate::error::ProxyError;
use crate::failure::Failure;
use crate::reply::reply_of;
use bytes::Bytes;
use futures::task::{Context, Poll};
use futures::{Future, ready};
use http::response::Parts;
use http_messages::transfer_coding::has_other_coding;
use hyper::body::Incoming;
use hyper::client::conn::http1::ResponseFuture;
use mapping_model::reply::Reply;
use std::alloc::Global;

/// The reply to a request that was sent over a connection on `I`.
#[derive(Drop)]
pub enum Answer<I: Drop> {
    Head(Global, ResponseFuture<I>),
    Content(Received<I>),
}

/// A reply whose head has come.
#[derive(Drop)]
pub struct Received<I: Drop> {
    alloc: Global,
    head: Parts,
    content: Content<Incoming<I>>,
}

impl<I: Drop> Future for Answer<I> {
    type Output = Result<Reply, ProxyError>;

    ghost gives = { λ _ result. IfOk result IsSomeReply };

    fn poll(&mut self, cx: &mut Context<'_>) -> Poll<Result<Reply, ProxyError>> {
        match self {
            Answer::Head(alloc, head) => {
                let response = match ready!(head.poll(cx)) {
                    Ok(response) => response,
                    Err(error) => return Poll::Ready(Err(error.into())),
                };
                let (head, body) = response.into_parts();
                if has_other_coding(&head.headers) {
                    return Poll::Ready(Err(ProxyError::UpstreamFailed(Failure::OtherCoding)));
                }
                let mut received = Received {
                    alloc: *alloc,
                    head,
                    content: Content::new(*alloc, body),
                };
                let polled = received.poll(cx);
                *self = Answer::Content(received);
                polled
            }
            Answer::Content(received) => received.poll(cx),
        }
    }
}

impl<I: Drop> Received<I> {
    fn poll(&mut self, cx: &mut Context<'_>) -> Poll<Result<Reply, ProxyError>>
        ensures value { IfReady result (λ result. IfOk result IsSomeReply) }
        ensures registered { OnPending result (IsArmed cx.new) }
        ensures kept { Keeps cx.old cx.new }
    {
        match ready!(self.content.poll(cx)) {
            Ok(content) => Poll::Ready(self.reply(content)),
            Err(error) => Poll::Ready(Err(error)),
        }
    }

    fn reply(&self, content: Bytes) -> Result<Reply, ProxyError>
        ensures { IfOk result (λ reply. IsReplyMessage self.now.head content reply) }
    {
        Ok(reply_of(self.alloc, &self.head, content)?)
    }
}
