// The content of a request, gathered into one buffer.
ghost use Rattle.std.specs.Prelude.{◌≡◌, ◌≢◌, true, false, IfErr, IfOk, IsErrOf, IsTrue, OnOk};
ghost use Rattle.futures.specs.Task.{Keeps};
ghost use Rattle.http_connections.specs.Content.{IsGathered, IsNewFor};
ghost use Rattle.http_connections.specs.Inner.Pushed.{IsPushed};
ghost use Rattle.http_connections.specs.declared.request.content_error.ContentError.TheVariants.{Malformed, TooLong};

use crate::accept::connection_state::ConnectionState;
use crate::request::content_error::{ContentError, content_error};
use crate::request::patience::Patience;
use bytes::{Bytes, BytesMut};
use futures::task::{Context, Poll};
use futures::{Future, ready};
use http_body::{Body, Frame};
use mock_request::snapshot::BODY_LIMIT;
use std::alloc::Global;
use std::mem;
use std::sync::Arc;
use std::time::Clock;

/// Content that is too long is read on up to this number of bytes (64 MiB), and as long as there is patience: a client
/// that is still sending wouldn't see the answer.
pub const SKIPPED: usize = 67_108_864;

/// Gathers the content of a request, since each of its pieces would keep a buffer of the connection. Of content that is
/// too long nothing is kept. (A reply that is too long ends its exchange, so what gathers replies in `proxy_client` has
/// neither patience nor a connection state.)
#[derive(Drop)]
pub struct Gathering<R, B> {
    alloc: Global,
    body: B,
    state: Arc<ConnectionState>,
    patience: Patience<R>,
    gathered: BytesMut,
    is_too_long: bool,
    skipped: usize,
}

impl<R, B> Gathering<R, B> {
    pub fn new(
        alloc: Global,
        body: B,
        state: Arc<ConnectionState>,
        patience: Patience<R>,
    ) -> Gathering<R, B>
        ensures { IsNewFor result body }
    {
        Gathering {
            alloc,
            body,
            state,
            patience,
            gathered: BytesMut::new(alloc),
            is_too_long: false,
            skipped: 0,
        }
    }
}

impl<R, B> Future for Gathering<R, B>
where
    R: Clock + Drop,
    B: Body<Data = Bytes, Error = hyper::Error>,
{
    type Output = Result<Bytes, ContentError>;

    ghost can_poll = { λ g. B.can_poll g.body };

    ghost needs = { λ g. B.needs g.body };

    ghost gives = { λ g. IsGathered (B.yields g.body) g.is_too_long g.gathered.items };

    // One frame a poll: a connection hands its frames over one by one, and others are served between them.
    fn poll(&mut self, cx: &mut Context<'_>) -> Poll<Result<Bytes, ContentError>> {
        if self.state.must_leave() {
            return Poll::Ready(Err(ContentError::Late));
        }
        if is_enough(self.is_too_long, &mut self.patience, cx) {
            return Poll::Ready(Err(ContentError::TooLong));
        }
        let frame = match ready!(self.body.poll_frame(cx)) {
            Some(Ok(frame)) => frame,
            Some(Err(error)) => return Poll::Ready(Err(content_error(&error))),
            None => return Poll::Ready(self.end()),
        };
        if let Err(error) = self.push(frame) {
            return Poll::Ready(Err(error));
        }
        if self.body.is_end_stream() {
            return Poll::Ready(self.end());
        }
        cx.yield_now()
    }
}

// Whether what has come is too long, and was read on as long as there is patience.
fn is_enough<R: Clock>(is_too_long: bool, patience: &mut Patience<R>, cx: &mut Context<'_>) -> bool
    ensures too_long { IsTrue result → is_too_long ≡ true }
    ensures kept { Keeps cx.old cx.new }
{
    is_too_long && patience.is_over(cx)
}

impl<R, B> Gathering<R, B> {
    // The data of one more frame. Trailers are no content.
    fn push(&mut self, frame: Frame<Bytes>) -> Result<(), ContentError>
        ensures pushed { OnOk result (IsPushed self.old.is_too_long self.old.gathered.items frame
            self.new.is_too_long self.new.gathered.items) }
        ensures too_long { IsErrOf result TooLong
            → IsPushed self.old.is_too_long self.old.gathered.items frame true self.new.gathered.items }
        ensures err { IfErr result (λ error. error ≢ Malformed) }
        ensures same { self.new.body ≡ self.old.body }
    {
        let Ok(data) = frame.into_data() else {
            return Ok(());
        };
        if self.is_too_long || data.len() > BODY_LIMIT.saturating_sub(self.gathered.len()) {
            return self.skip(data.len());
        }
        Ok(self.gathered.extend_from_slice(data.as_slice())?)
    }

    fn skip(&mut self, len: usize) -> Result<(), ContentError>
        ensures too_long { self.new.is_too_long ≡ true }
        ensures err { IfErr result (λ error. error ≢ Malformed) }
        ensures same { self.new.body ≡ self.old.body }
    {
        self.is_too_long = true;
        self.gathered = BytesMut::new(self.alloc);
        self.skipped = self.skipped.saturating_add(len);
        if self.skipped > SKIPPED {
            return Err(ContentError::TooLong);
        }
        Ok(())
    }

    fn end(&mut self) -> Result<Bytes, ContentError>
        ensures value { IfOk result
            (λ content. (content ≡ self.old.gathered.items) × (self.old.is_too_long ≡ false)) }
        ensures too_long { IsErrOf result TooLong → self.old.is_too_long ≡ true }
        ensures err { IfErr result (λ error. error ≢ Malformed) }
    {
        if self.is_too_long {
            return Err(ContentError::TooLong);
        }
        let gathered = mem::replace(&mut self.gathered, BytesMut::new(self.alloc));
        match gathered.freeze() {
            Ok(content) => Ok(content),
            Err(_refused) => Err(ContentError::OutOfMemory),
        }
    }
}
