// An exchange with an upstream, from connecting to the reply.
ghost use Rattle.std.specs.Prelude.{IfOk, IfSome, ⊤};
ghost use Rattle.hyper.specs.ClientDispatch.{Runs};
ghost use Rattle.proxy_client.specs.Messages.{IsSomeReply};
ghost use Rattle.proxy_client.specs.declared.stage.Stage.TheVariants.{Connecting, Talking};

use crate::error::ProxyError;
use crate::failure::Failure;
use crate::motion::Motion;
use crate::talk::{HttpTalk, http_talk};
use crate::target_io::TargetIo;
use bytes::Bytes;
use futures::task::{Context, Poll};
use futures::{Future, ready};
use http::Request;
use http_body_util::Full;
use hyper::client::conn::http1::Builder;
use mapping_model::reply::Reply;
use std::alloc::Global;
use std::cell::Cell;
use std::io;
use std::rc::Rc;
use tokio::io::{AsyncRead, AsyncWrite};

/// An exchange: connecting, by the future `K`, and then the request and its reply over what it gave.
pub enum Stage<K, I: Drop> {
    /// What is sent is taken once there is a connection.
    Connecting(K, Option<Start>),
    Talking(Box<HttpTalk<TargetIo<I>>>),
}

// Written out, so that a caller's proof sees one call and not the drop of each part.
impl<K: Drop, I: Drop> Drop for Stage<K, I> {
    fn drop(self) {
        match self {
            Stage::Connecting(_connect, _start) => {}
            Stage::Talking(_talk) => {}
        }
    }
}

/// What is sent once there is a connection.
#[derive(Drop)]
pub struct Start {
    pub alloc: Global,
    pub builder: Builder,
    pub message: Request<Full<Bytes>>,
    pub turns: u64,
    pub motion: Rc<Cell<Motion>>,
}

impl Start {
    fn talk<I: AsyncRead + AsyncWrite>(
        self,
        io: I,
    ) -> Result<Box<HttpTalk<TargetIo<I>>>, ProxyError>
        ensures { IfOk result (λ talk. IfSome talk.value.connection (λ conn. Runs
            ⟦<TargetIo<I> as AsyncRead>⟧.reads ⟦<TargetIo<I> as AsyncWrite>⟧.writes (λ _. ⊤) conn.inner)) }
    {
        let Start {
            alloc,
            builder,
            message,
            turns,
            motion,
        } = self;
        let talk = http_talk(alloc, &builder, TargetIo::new(io, turns, motion), message)?;
        match Box::new(alloc, talk) {
            Ok(talk) => Ok(talk),
            Err(_refused) => Err(ProxyError::OutOfMemory),
        }
    }
}

impl<K, I> Future for Stage<K, I>
where
    K: Future<Output = io::Result<I>>,
    I: AsyncRead + AsyncWrite,
{
    type Output = Result<Reply, ProxyError>;

    ghost can_poll = { elim [
      | Connecting connect start ↦ K.can_poll connect
      | Talking talk ↦ IfSome talk.value.connection (λ conn. Runs
          ⟦<TargetIo<I> as AsyncRead>⟧.reads ⟦<TargetIo<I> as AsyncWrite>⟧.writes (λ _. ⊤) conn.inner)
    ] };

    ghost gives = { λ _ result. IfOk result IsSomeReply };

    fn poll(&mut self, cx: &mut Context<'_>) -> Poll<Result<Reply, ProxyError>> {
        match self {
            Stage::Connecting(connect, start) => {
                let io = match ready!(connect.poll(cx)) {
                    Ok(io) => io,
                    Err(error) => return Poll::Ready(Err(error.into())),
                };
                let Some(start) = start.take() else {
                    return Poll::Ready(Err(ProxyError::UpstreamFailed(Failure::Broken)));
                };
                let mut talk = match start.talk(io) {
                    Ok(talk) => talk,
                    Err(error) => return Poll::Ready(Err(error)),
                };
                let polled = talk.poll(cx);
                *self = Stage::Talking(talk);
                polled
            }
            Stage::Talking(talk) => talk.poll(cx),
        }
    }
}
