// The content of a message, gathered into one buffer.
ghost use Rattle.std.specs.Prelude.{◌≡◌, ◌≤◌, ◌++◌, [], length, IfOk, OnOk};
ghost use Rattle.http_body.specs.Frame.{MapsData, bytes_in};
ghost use Rattle.proxy_client.specs.Content.{Gathers};

use crate::error::ProxyError;
use crate::failure::Failure;
use bytes::{Buf, Bytes, BytesMut};
use futures::task::{Context, Poll};
use futures::{Future, ready};
use http_body::{Body, Frame};
use std::alloc::Global;
use std::mem;

/// The most bytes that the content of a reply may have (16 MiB).
pub const CONTENT_LIMIT: usize = 16_777_216;

/// Gathers the content of a message into one buffer, since each piece would keep a buffer of the connection.
#[derive(Drop)]
pub struct Content<B> {
    alloc: Global,
    body: B,
    gathered: BytesMut,
}

impl<B> Content<B> {
    pub fn new(alloc: Global, body: B) -> Content<B>
        ensures body { result.body ≡ body }
        ensures empty { result.gathered.items ≡ [] }
    {
        Content {
            alloc,
            body,
            gathered: BytesMut::new(alloc),
        }
    }
}

impl<B, D, E> Future for Content<B>
where
    B: Body<Data = D, Error = E>,
    D: Buf + Into<Bytes> + Drop,
    E: Into<ProxyError> + Drop,
{
    type Output = Result<Bytes, ProxyError>;

    ghost can_poll = { λ c. B.can_poll c.body };

    ghost needs = { λ c. B.needs c.body };

    ghost gives = { λ c result. IfOk result (Gathers D.converts (B.yields c.body) c.gathered.items) };

    // One frame a poll: a connection hands its frames over one by one, and others are served between them.
    fn poll(&mut self, cx: &mut Context<'_>) -> Poll<Result<Bytes, ProxyError>> {
        let frame = match ready!(self.body.poll_frame(cx)) {
            Some(Ok(frame)) => frame,
            Some(Err(error)) => return Poll::Ready(Err(error.into())),
            None => return Poll::Ready(self.take()),
        };
        match self.push(frame_of_bytes(frame)) {
            Ok(()) => cx.yield_now(),
            Err(error) => Poll::Ready(Err(error)),
        }
    }
}

impl<B> Content<B> {
    // The data of one more frame; trailers aren't relayed.
    fn push(&mut self, frame: Frame<Bytes>) -> Result<(), ProxyError>
        ensures pushed { OnOk result (self.new.gathered.items ≡ self.old.gathered.items ++ bytes_in frame.kind) }
        ensures same { self.new.body ≡ self.old.body }
    {
        let Ok(data) = frame.into_data() else {
            return Ok(());
        };
        if data.len() > CONTENT_LIMIT.saturating_sub(self.gathered.len()) {
            return Err(ProxyError::UpstreamFailed(Failure::TooLong));
        }
        Ok(self.gathered.extend_from_slice(data.as_slice())?)
    }

    fn take(&mut self) -> Result<Bytes, ProxyError>
        ensures value { IfOk result (λ content. content ≡ self.old.gathered.items) }
        ensures within { IfOk result (λ content. length content ≤ CONTENT_LIMIT) }
    {
        if self.gathered.len() > CONTENT_LIMIT {
            return Err(ProxyError::UpstreamFailed(Failure::TooLong));
        }
        let gathered = mem::replace(&mut self.gathered, BytesMut::new(self.alloc));
        match gathered.freeze() {
            Ok(content) => Ok(content),
            Err(_refused) => Err(ProxyError::OutOfMemory),
        }
    }
}

fn frame_of_bytes<D: Into<Bytes> + Drop>(frame: Frame<D>) -> Frame<Bytes>
    ensures { MapsData D.converts frame result }
{
    frame.map_data(|data| data.into())
}
