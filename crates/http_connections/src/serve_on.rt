// The connections of a listener, each a task.
ghost use Rattle.std.specs.Prelude.{◌≡◌, ◌↔◌, IfOk, IsErrAnd, IsFalse, IsOk, IsSome, IsTrue};
ghost use Rattle.std.specs.IoError.{error_kind};
ghost use Rattle.std.specs.Arc.{arc_value};
ghost use Rattle.http_connections.specs.Site.{settings_of, site_of};

use crate::accept::accepting::Accepting;
use crate::accept::connects::Connecting;
use crate::accept::pause::Pause;
use crate::answers::Answers;
use crate::ender::Ender;
use crate::seats::pool::SeatPool;
use crate::settings::Settings;
use bytes::Bytes;
use http_body::Body;
use hyper::rt::TokioTimer;
use std::alloc::{AllocError, AllocGlobal, Global};
use std::io::ErrorKind;
use std::random::RandomSource;
use std::rc::Rc;
use std::sync::{Arc, Wait};
use std::time::{Clock, Duration};
use std::{io, net};
use tokio::net::TcpListener;
use tokio::runtime;
use tokio::runtime::LocalRuntime;

/// How long answers may go on once the end was asked for, in seconds.
pub const END_TIME: u64 = 2;

/// The seats of all connections once they have been served, and why there were no more.
#[derive(Drop)]
pub struct Served<S> {
    pub seats: Vec<S>,
    pub end: End,
}

/// Why no more connections were accepted.
#[derive(Clone, Copy, Debug, PartialEq, Eq)]
pub enum End {
    /// As many as were wanted were served.
    AllServed,
    /// The end was asked for.
    Asked,
    /// The listener failed, no seat was left for a connection, or the runtime failed.
    AcceptFailed,
    /// The runtime had no memory.
    OutOfMemory,
}

/// What the threads of a server share.
#[derive(Drop)]
pub struct Server<A: Answers> {
    pool: Arc<SeatPool<A>>,
    settings: Settings,
    turns: u64,
}

impl<A: Answers> Server<A> {
    /// Opens a server, each connection of which gets a seat of its own that is split off `seat`. `turns` is how often
    /// each connection's socket is polled at most.
    pub fn open<R: Wait>(
        rt: &R,
        alloc: Global,
        site: &Arc<A>,
        seat: A::Seat,
        settings: Settings,
        turns: u64,
        ender: &Arc<Ender>,
    ) -> Result<Server<A>, AllocError>
        ensures site { IfOk result (λ server. site_of server ≡ arc_value site.now) }
        ensures settings { IfOk result (λ server. settings_of server ≡ settings) }
    {
        let ender = Arc::try_clone(ender)?;
        let pool = SeatPool::new(alloc, Arc::try_clone(site)?, settings, ender)?;
        let pool = Arc::new(alloc, pool)?;
        pool.open(rt, seat);
        Ok(Server {
            pool,
            settings,
            turns,
        })
    }

    /// Serves the connections of a listener of this runtime, as long as any are accepted, on the calling thread. After
    /// an error none are accepted on other threads either.
    pub fn serve<R>(
        &self,
        rt: R,
        runtime: &mut LocalRuntime,
        listener: TcpListener,
    ) -> io::Result<()>
    where
        R: Wait + Clock + RandomSource + AllocGlobal + Copy + Drop,
        A::Content: Body<Data = Bytes, Error: Into<anyhow::Error>>,
        requires { (content : A.Content) → A.Content.can_poll content }
    {
        let served = run(rt, runtime, listener, &self.pool, self.settings, self.turns);
        if served.is_err() {
            self.pool.close(&rt);
        }
        served
    }

    /// The seats of its connections once all have ended, and why there were no more. `ran` is what serving them gave.
    pub fn served<R: Wait>(
        &self,
        rt: &R,
        alloc: Global,
        ran: &io::Result<()>,
    ) -> Result<Served<A::Seat>, AllocError>
        ensures { IfOk result (λ served. served.end ≡ End.AllServed
            → IsSome (settings_of self.now).connections × IsOk ran.now) }
    {
        let end = end_of(
            ran,
            self.pool.is_open(rt),
            self.pool.is_asked(),
            self.settings,
        );
        let seats = self.pool.take_all(rt, alloc)?;
        Ok(Served { seats, end })
    }
}

/// Serves the connections of a listener, as long as any are accepted, on the calling thread, which drives this runtime.
pub fn on_this_thread<R, A>(
    rt: R,
    runtime: &mut LocalRuntime,
    listener: net::TcpListener,
    server: &Arc<Server<A>>,
) -> io::Result<()>
where
    R: Wait + Clock + RandomSource + AllocGlobal + Copy + Drop,
    A: Answers,
    A::Content: Body<Data = Bytes, Error: Into<anyhow::Error>>,
    requires { (content : A.Content) → A.Content.can_poll content }
{
    let listener = TcpListener::from_std(listener, runtime.handle().reactor())?;
    server.serve(rt, runtime, listener)
}

fn end_of(ran: &io::Result<()>, is_open: bool, is_asked: bool, settings: Settings) -> End
    ensures served { (result ≡ End.AllServed)
        ↔ (IsOk ran.now × IsTrue is_open × IsFalse is_asked × IsSome settings.connections) }
    ensures asked { (result ≡ End.Asked) ↔ (IsOk ran.now × IsTrue is_open × IsTrue is_asked) }
    ensures memory { (result ≡ End.OutOfMemory)
        ↔ IsErrAnd ran.now (λ error. error_kind error ≡ ErrorKind.OutOfMemory) }
{
    match ran {
        Ok(()) if is_open && is_asked => End::Asked,
        Ok(()) if is_open && settings.connections.is_some() => End::AllServed,
        Err(error) if error.kind() == ErrorKind::OutOfMemory => End::OutOfMemory,
        _ => End::AcceptFailed,
    }
}

fn run<R, A>(
    rt: R,
    runtime: &mut LocalRuntime,
    listener: TcpListener,
    pool: &Arc<SeatPool<A>>,
    settings: Settings,
    turns: u64,
) -> io::Result<()>
where
    R: Wait + Clock + RandomSource + AllocGlobal + Copy + Drop,
    A: Answers,
    A::Content: Body<Data = Bytes, Error: Into<anyhow::Error>>,
    requires { (content : A.Content) → A.Content.can_poll content }
{
    let mut accepting = accepting(rt, runtime.handle(), listener, pool, settings, turns)?;
    // The stream ends before its connections have only where the end was asked for.
    runtime.set_shutdown_timeout(Some(Duration::from_secs(END_TIME)));
    // By reference: the event loop moves what it is given, and clears room for it at each turn.
    runtime.run_all(&rt, &mut accepting)
}

// The connections that come to a listener of the runtime with this handle.
fn accepting<R, A>(
    rt: R,
    handle: &runtime::Handle,
    listener: TcpListener,
    pool: &Arc<SeatPool<A>>,
    settings: Settings,
    turns: u64,
) -> io::Result<Accepting<R, A, Connecting<TokioTimer<R>>>>
where
    R: Wait + Clock + RandomSource + AllocGlobal + Copy + Drop,
    A: Answers,
{
    let handle = Rc::new(rt.alloc(), handle.clone()?)?;
    let pool = Arc::try_clone(pool)?;
    let asked = pool.ender.notified()?;
    let pause = Pause::new(rt, handle.time())?;
    let connects = Connecting::with_timers(rt, handle.time(), turns)?;
    Ok(Accepting::new(rt, listener, pool, settings, pause, asked, handle, connects))
}
