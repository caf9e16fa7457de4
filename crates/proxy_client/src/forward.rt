// A request forwarded, on a runtime of its own.
ghost use Rattle.std.specs.Prelude.{IfOk};
ghost use Rattle.proxy_client.specs.Messages.{IsSomeReply};

use crate::client::{Client, SILENCE_SECONDS};
use crate::error::ProxyError;
use futures::future;
use mapping_model::reply::Reply;
use mock_request::snapshot::Snapshot;
use recorder::target::Target;
use std::alloc::AllocGlobal;
use std::net::Net;
use std::random::RandomSource;
use std::sync::Wait;
use std::time::{Clock, Duration};
use tokio::io::{AsyncRead, AsyncWrite};
use tokio::runtime::LocalRuntime;

/// Forwards a request to its upstream over a new connection, in at most as many turns, each of which polls a read or a
/// write of the connection.
pub fn forward<R>(
    rt: &R,
    target: &Target,
    request: &Snapshot,
    turns: u64,
) -> Result<Reply, ProxyError>
where
    R: Wait + Net + Clock + RandomSource + AllocGlobal + Copy + Drop,
    ensures { IfOk result IsSomeReply }
{
    let client = Client::new(*rt, turns, Duration::from_secs(SILENCE_SECONDS))?;
    let mut runtime = LocalRuntime::new(rt)?;
    let exchange = client.connect(runtime.handle(), target, request)?;
    runtime.block_on(rt, exchange)?
}

/// Forwards a request over a reader and writer.
pub fn forward_over<R, I>(
    rt: &R,
    io: I,
    turns: u64,
    target: &Target,
    request: &Snapshot,
) -> Result<Reply, ProxyError>
where
    R: Wait + Net + Clock + RandomSource + AllocGlobal + Copy + Drop,
    I: AsyncRead + AsyncWrite,
    ensures { IfOk result IsSomeReply }
{
    let client = Client::new(*rt, turns, Duration::from_secs(SILENCE_SECONDS))?;
    let mut runtime = LocalRuntime::new(rt)?;
    let connected = future::ready(Ok(io));
    let exchange = client.exchange(runtime.handle(), connected, target, request)?;
    runtime.block_on(rt, exchange)?
}
