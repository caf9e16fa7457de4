// What makes exchanges with upstreams.
ghost use Rattle.std.specs.Prelude.{◌≡◌, IfOk, Some};
ghost use Rattle.proxy_client.specs.Messages.{IsForwarded};
ghost use Rattle.proxy_client.specs.declared.client.TheConstants.{HEADER_LINES};
ghost use Rattle.proxy_client.specs.declared.stage.Stage.TheVariants.{Connecting};
ghost use Rattle.proxy_client.specs.declared.stage.Start.{Start as Begun};

use crate::address::address_of;
use crate::error::ProxyError;
use crate::motion::Motion;
use crate::sent::message_of;
use crate::stage::{Stage, Start};
use crate::timed::Timed;
use futures::Future;
use hyper::client::conn::http1::Builder;
use mock_request::snapshot::Snapshot;
use recorder::target::Target;
use std::alloc::{AllocError, AllocGlobal, Global};
use std::cell::Cell;
use std::hash::RandomState;
use std::io;
use std::net::{Net, SocketAddr};
use std::random::RandomSource;
use std::rc::Rc;
use std::time::{Clock, Duration};
use tokio::net::{ConnectFuture, TcpStream};
use tokio::runtime::Handle;

/// How long an upstream may be silent, in seconds.
pub const SILENCE_SECONDS: u64 = 30;

/// How many lines of headers a reply may have.
pub const HEADER_LINES: usize = 256;

/// An exchange with an upstream as a future, connecting by the future `K`, which gives an `I`. It may be a part of
/// another future: it never blocks. It fails once no byte has moved for a time, or its reads and writes have used up
/// their turns.
pub type Exchange<R, K, I> = Timed<R, Stage<K, I>>;

/// Makes exchanges, each over a connection of its own.
#[derive(Clone, Copy)]
pub struct Client<R> {
    rt: R,
    builder: Builder,
    turns: u64,
    silence: Duration,
}

impl<R: AllocGlobal + RandomSource + Copy + Drop> Client<R> {
    /// Each exchange has as many turns, each of which polls a read or a write, and ends when it is silent for that
    /// long.
    pub fn new(rt: R, turns: u64, silence: Duration) -> io::Result<Client<R>>
        ensures turns { IfOk result (λ client. client.turns ≡ turns) }
        ensures silence { IfOk result (λ client. client.silence ≡ silence) }
        ensures lines { IfOk result (λ client. client.builder.config.max_headers ≡ HEADER_LINES) }
    {
        let mut builder = Builder::new(rt.alloc(), RandomState::new(&rt)?);
        builder.max_headers(HEADER_LINES);
        Ok(Client {
            rt,
            builder,
            turns,
            silence,
        })
    }
}

impl<R: Clock + AllocGlobal + Copy + Drop> Client<R> {
    /// The exchange for a request, over what `connect` gives.
    pub fn exchange<K, I>(
        &self,
        handle: &Handle,
        connect: K,
        target: &Target,
        request: &Snapshot,
    ) -> Result<Exchange<R, K, I>, ProxyError>
    where
        K: Future<Output = io::Result<I>>,
        I: Drop,
        requires { K.can_poll connect }
        ensures limit { IfOk result (λ exchange. exchange.limit ≡ self.now.silence) }
        ensures start { IfOk result (λ exchange. (start : Begun)
            × (exchange.inner ≡ Connecting connect (Some start))
            × IsForwarded target.now request.now start.message
            × (start.builder ≡ self.now.builder)
            × (start.turns ≡ self.now.turns)) }
    {
        let alloc = self.rt.alloc();
        let motion = still(alloc)?;
        let start = Start {
            alloc,
            builder: self.builder,
            message: message_of(alloc, target, request)?,
            turns: self.turns,
            motion: motion.clone()?,
        };
        let sleep = handle.time().sleep(&self.rt, self.silence)?;
        let stage = Stage::Connecting(connect, Some(start));
        Ok(Timed::new(self.rt, self.silence, sleep, motion, stage))
    }
}

impl<R: Clock + Net + AllocGlobal + Copy + Drop> Client<R> {
    /// The exchange for a request with its upstream, over a connection that is still to be made.
    pub fn connect(
        &self,
        handle: &Handle,
        target: &Target,
        request: &Snapshot,
    ) -> Result<Exchange<R, ConnectFuture, TcpStream>, ProxyError>
        ensures limit { IfOk result (λ exchange. exchange.limit ≡ self.now.silence) }
        ensures start { IfOk result (λ exchange. (connecting : _) × (start : Begun)
            × (exchange.inner ≡ Connecting connecting (Some start))
            × IsForwarded target.now request.now start.message
            × (start.builder ≡ self.now.builder)
            × (start.turns ≡ self.now.turns)) }
    {
        let connect = TcpStream::connect(&self.rt, address_of(target), handle.reactor());
        self.exchange(handle, connect, target, request)
    }

    /// Begins to connect to the address.
    pub(crate) fn start(&self, handle: &Handle, address: SocketAddr) -> ConnectFuture {
        TcpStream::connect(&self.rt, address, handle.reactor())
    }
}

fn still(alloc: Global) -> Result<Rc<Cell<Motion>>, AllocError> {
    Ok(Rc::new(alloc, Cell::new(Motion::Still))?)
}
