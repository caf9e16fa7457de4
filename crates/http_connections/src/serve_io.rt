// One connection by itself.
ghost use Rattle.std.specs.Prelude.{◌≡◌, IfOk, Ok};
ghost use Rattle.std.specs.Arc.{arc_value};
ghost use Rattle.http_connections.specs.Site.{IsConnectionFor, giver_of};

use crate::accept::coarse_clock::CoarseClock;
use crate::accept::connection_state::ConnectionState;
use crate::accept::connects::{Connecting, Connects, connection};
use crate::answers::Answers;
use crate::request::service::MessageService;
use crate::seats::cell::SeatCell;
use crate::seats::slot::SeatSlot;
use bytes::Bytes;
use futures::Future;
use http_body::Body;
use http_messages::error::ServiceError;
use std::alloc::{AllocError, AllocGlobal, Global};
use std::io;
use std::io::ErrorKind;
use std::random::RandomSource;
use std::rc::Rc;
use std::sync::{Arc, Wait};
use std::time::Clock;
use tokio::io::{AsyncRead, AsyncWrite};
use tokio::runtime;
use tokio::runtime::LocalRuntime;
use tokio::time::Handle;

/// Serves one connection over a reader and writer until it ends, as `Server::serve` does each of those that it
/// accepts, and gives its seat back, however it ends. `turns` is how often the reader and writer are polled at most.
pub fn serve_io<R, A, I>(
    rt: R,
    runtime: &mut LocalRuntime,
    site: &Arc<A>,
    seat: A::Seat,
    turns: u64,
    io: I,
) -> (Option<A::Seat>, Result<(), ServiceError>)
where
    R: Wait + Clock + RandomSource + AllocGlobal + Copy + Drop,
    A: Answers,
    A::Content: Body<Data = Bytes, Error: Into<anyhow::Error>>,
    I: AsyncRead + AsyncWrite,
    requires { (content : A.Content) → A.Content.can_poll content }
{
    let cell = match cell_of(rt.alloc()) {
        Ok(cell) => cell,
        Err(_error) => return (Some(seat), Err(ServiceError::OutOfMemory)),
    };
    let number = A::number(&seat);
    cell.put(&rt, seat);
    let served = serve_at(rt, runtime, site, &cell, number, turns, io);
    (cell.take(&rt), served)
}

// A cell by itself, which has to make room for no other.
fn cell_of<S: Drop>(alloc: Global) -> Result<Arc<SeatCell<S>>, AllocError> {
    let clock = Arc::new(alloc, CoarseClock::new())?;
    let state = Arc::new(alloc, ConnectionState::new(clock))?;
    state.begin();
    Ok(Arc::new(alloc, SeatCell::new(state))?)
}

fn slot_of<A: Answers>(
    alloc: Global,
    site: &Arc<A>,
    cell: &Arc<SeatCell<A::Seat>>,
    number: u64,
    handle: Rc<runtime::Handle>,
) -> Result<Arc<SeatSlot<A>>, AllocError>
    ensures { IfOk result (λ slot. giver_of slot ≡ record { site = arc_value site.now; number = number }) }
{
    let site = Arc::try_clone(site)?;
    let cell = Arc::try_clone(cell)?;
    Ok(Arc::new(alloc, SeatSlot::new(site, cell, number, handle))?)
}

// Serves one connection by the seat of the cell, which has this number.
fn serve_at<R, A, I>(
    rt: R,
    runtime: &mut LocalRuntime,
    site: &Arc<A>,
    cell: &Arc<SeatCell<A::Seat>>,
    number: u64,
    turns: u64,
    io: I,
) -> Result<(), ServiceError>
where
    R: Wait + Clock + RandomSource + AllocGlobal + Copy + Drop,
    A: Answers,
    A::Content: Body<Data = Bytes, Error: Into<anyhow::Error>>,
    I: AsyncRead + AsyncWrite,
    requires { (content : A.Content) → A.Content.can_poll content }
{
    let handle = runtime.handle().clone()?;
    let timers = handle.time().clone()?;
    let connects = match Connecting::with_timers(rt, &timers, turns) {
        Ok(connects) => connects,
        Err(error) => return Err(refused(&error)),
    };
    let Ok(handle) = Rc::new(rt.alloc(), handle) else {
        return Err(ServiceError::OutOfMemory);
    };
    let slot = slot_of(rt.alloc(), site, cell, number, handle)?;
    run(rt, runtime, &connects, &timers, slot, &cell.state, io)
}

// Runs a connection to its end, whose requests are answered by the seat of the slot.
fn run<R, A, I, M, F>(
    rt: R,
    runtime: &mut LocalRuntime,
    connects: &M,
    timers: &Handle,
    slot: Arc<SeatSlot<A>>,
    state: &Arc<ConnectionState>,
    io: I,
) -> Result<(), ServiceError>
where
    R: Wait + Clock + RandomSource + AllocGlobal + Copy + Drop,
    A: Answers,
    I: Drop,
    M: Connects<I, MessageService<R, A>, Connection = F>,
    F: Future<Output = hyper::Result<()>>,
    requires can_connect { (service : _) → M.can_connect connects.now service }
    requires can_poll { (io : _) (service : _) (made : F) → M.makes connects.now io service made → F.can_poll made }
    ensures { IfOk result (λ _. (made : F) × IsConnectionFor M.makes connects.now io (giver_of slot) made
        × F.gives made (Ok tt)) }
{
    let Some(connection) = connection(rt, connects, timers, slot, state, io) else {
        return Err(ServiceError::OutOfMemory);
    };
    match runtime.block_on(&rt, connection) {
        Ok(Ok(())) => Ok(()),
        Ok(Err(_error)) => Err(ServiceError::Broken),
        Err(error) => Err(refused(&error)),
    }
}

// Why the system refused a call.
fn refused(error: &io::Error) -> ServiceError {
    if error.kind() == ErrorKind::OutOfMemory {
        ServiceError::OutOfMemory
    } else {
        ServiceError::Broken
    }
}
