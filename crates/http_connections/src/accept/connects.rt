// What makes a connection of a reader and writer.
ghost use Rattle.std.specs.Prelude.{◌≡◌, IfOk, IfSome, IsSomeAnd, ⊤};
ghost use Rattle.counted_io.specs.Turns.{IsOver};
ghost use Rattle.http_connections.specs.Site.{IsConnectionFor, giver_of};
ghost use Rattle.hyper.specs.ServerDispatch.{Runs};

use crate::accept::connection_state::ConnectionState;
use crate::accept::leaving::Leaving;
use crate::accept::watched::{HeadTimer, Watched};
use crate::answers::Answers;
use crate::request::service::MessageService;
use crate::seats::slot::SeatSlot;
use bytes::Bytes;
use http::{Request, Response};
use http_body::Body;
use hyper::body::Incoming;
use hyper::rt::{Timer, TokioTimer};
use hyper::server::conn::http1::Builder;
use hyper::service::Service;
use std::alloc::AllocGlobal;
use std::hash::RandomState;
use std::io;
use std::random::RandomSource;
use std::sync::Arc;
use std::time::{Clock, Duration};
use tokio::io::{AsyncRead, AsyncWrite};
use tokio::time::Handle;

/// How many lines of headers a request may have.
pub const HEADER_LINES: usize = 256;

/// How long the head of a request may take from its first byte, in seconds.
pub const HEAD_TIME: u64 = 30;

/// Makes the connection over a reader and writer, whose requests the service answers.
pub(crate) trait Connects<I, S>: Drop {
    type Connection: Drop;

    /// It may be served by this service.
    ghost can_connect: { Self → S → Type 0 } = { λ _ _. ⊤ };

    /// It may make this connection over this reader and writer, with this service.
    ghost makes: { Self → I → S → Self.Connection → Type 0 } = { λ _ _ _ _. ⊤ };

    /// What comes is told to the state. `None` where there is no memory for a connection.
    fn connect(&self, io: I, state: &Arc<ConnectionState>, service: S) -> Option<Self::Connection>
        requires { can_connect self.now service }
        ensures { IfSome result (makes self.now io service) };
}

/// The settings of connections, what tells the time for their heads, and how many turns each has.
#[derive(Drop)]
pub(crate) struct Connecting<T> {
    builder: Builder,
    timer: T,
    turns: u64,
}

impl<I, S, B, T> Connects<I, S> for Connecting<T>
where
    I: AsyncRead + AsyncWrite,
    S: Service<Request<Incoming<Watched<I>>>, Response = Response<B>>,
    S::Error: Into<anyhow::Error>,
    B: Body,
    B::Data: Into<Bytes>,
    B::Error: Into<anyhow::Error>,
    T: Timer,
{
    type Connection = Leaving<I, S, B, T>;

    ghost can_connect = { λ _ service. S.can_call service × ((content : B) → B.can_poll content) };

    ghost makes = { λ connecting io service leaving. IsSomeAnd leaving.connection (λ made.
        Runs ⟦<Watched<I> as AsyncRead>⟧ ⟦<Watched<I> as AsyncWrite>⟧ S.Service S.Future.Future
        B.Body B.Data.Into made.conn × IsOver connecting.turns io made.conn.link.io.io
        × (made.conn.service ≡ service)) };

    fn connect(
        &self,
        io: I,
        state: &Arc<ConnectionState>,
        service: S,
    ) -> Option<Leaving<I, S, B, T>> {
        let timer = HeadTimer::new(self.timer.clone().ok()?, Arc::try_clone(state).ok()?);
        let watched = Watched::new(io, self.turns, Arc::try_clone(state).ok()?);
        let builder = self.builder.clone().ok()?.timer(timer);
        Some(Leaving::new(builder.serve_connection(watched, service)))
    }
}

impl<R: Clock + Copy> Connecting<TokioTimer<R>> {
    /// With the timers of a runtime.
    pub(crate) fn with_timers(
        rt: R,
        timers: &Handle,
        turns: u64,
    ) -> io::Result<Connecting<TokioTimer<R>>>
    where
        R: RandomSource + AllocGlobal,
        ensures { IfOk result (λ connecting. connecting.turns ≡ turns) }
    {
        let builder = builder(&rt)?;
        let timer = TokioTimer::new(rt, timers.clone()?);
        Ok(Connecting {
            builder,
            timer,
            turns,
        })
    }
}

// The settings of a connection.
fn builder<R: AllocGlobal + RandomSource>(rt: &R) -> io::Result<Builder> {
    let mut builder = Builder::new(rt.alloc(), RandomState::new(rt)?);
    builder.max_headers(HEADER_LINES);
    builder.header_read_timeout(Some(Duration::from_secs(HEAD_TIME)));
    builder.auto_date_header(false);
    // A client that has said all of its requests is still answered, also where an answer is awaited.
    builder.half_close(true);
    Ok(builder)
}

/// The connection over a reader and writer whose requests are answered by the seat of the slot; `None` where there is
/// no memory for it.
pub(crate) fn connection<R, A, I, M, F>(
    rt: R,
    connects: &M,
    timers: &Handle,
    slot: Arc<SeatSlot<A>>,
    state: &Arc<ConnectionState>,
    io: I,
) -> Option<F>
where
    R: AllocGlobal + Copy,
    A: Answers,
    I: Drop,
    M: Connects<I, MessageService<R, A>, Connection = F>,
    requires { (service : _) → M.can_connect connects.now service }
    ensures { IfSome result (IsConnectionFor M.makes connects.now io (giver_of slot)) }
{
    let own = Arc::try_clone(state).ok()?;
    let service = MessageService::new(rt, slot, timers.clone().ok()?, own);
    connects.connect(io, state, service)
}
