// The threads that serve.
use crate::server_log::ServerLog;
use answering::clock::SystemClock;
use http_connections::serve_on::on_this_thread;
use http_connections::threads::{Job, on_threads};
use hyper_service::renderer::Renderer;
use hyper_service::serving::SiteServer;
use hyper_service::site_answers::SiteAnswers;
use proxy_client::forwarder::Forwarder;
use shared_book::gate::NoGate;
use shared_book::origin::Origin;
use std::alloc::AllocGlobal;
use std::io;
use std::net::{Net, TcpListener, TcpStream};
use std::random::RandomSource;
use std::sync::{Arc, Wait};
use std::thread::Threads;
use std::time::Clock;
use tokio::runtime::LocalRuntime;

/// What the connections of `mock serve` are served by.
pub type MockAnswers<L, R> = SiteAnswers<
    L,
    NoGate,
    SystemClock<R>,
    Forwarder<R>,
    Renderer<R>,
    ServerLog<L>,
>;

/// What the threads of `mock serve` share.
pub type MockServer<L, R> = SiteServer<
    L,
    NoGate,
    SystemClock<R>,
    Forwarder<R>,
    Renderer<R>,
    ServerLog<L>,
>;

// What each thread does. It has no other type parameters than these, so that few facts are passed where it is.
struct ServerJob<L, R>
where
    L: Origin,
    R: Threads
        + Net<Listener = TcpListener, Stream = TcpStream>
        + Clock
        + AllocGlobal
        + Copy
        + Drop,
{
    server: Arc<MockServer<L, R>>,
}

// Written out, so that a caller's proof sees one call and not the drop of each part.
impl<L, R> Drop for ServerJob<L, R>
where
    L: Origin,
    R: Threads
        + Net<Listener = TcpListener, Stream = TcpStream>
        + Clock
        + AllocGlobal
        + Copy
        + Drop,
{
    fn drop(self) {
        let ServerJob { server: _server } = self;
    }
}

impl<L, R> Job<R> for ServerJob<L, R>
where
    L: Origin,
    R: Threads
        + Wait
        + Net<Listener = TcpListener, Stream = TcpStream>
        + Clock
        + RandomSource
        + AllocGlobal
        + Copy
        + Drop,
{
    fn serve(
        &self,
        rt: R,
        runtime: &mut LocalRuntime,
        listener: tokio::net::TcpListener,
    ) -> io::Result<()> {
        self.server.serve(rt, runtime, listener)
    }
}

/// Serves the connections of a listener, as long as any are accepted, on `threads` threads, the calling one, which
/// drives this runtime, among them. Gives the first error of any.
pub fn serve_on_threads<L, R>(
    rt: R,
    runtime: &mut LocalRuntime,
    listener: TcpListener,
    server: &Arc<MockServer<L, R>>,
    threads: u64,
) -> io::Result<()>
where
    L: Origin + Send + Sync,
    R: Threads
        + Wait
        + Net<Listener = TcpListener, Stream = TcpStream>
        + Clock
        + RandomSource
        + AllocGlobal
        + Copy
        + Drop
        + Send
        + Sync,
{
    if threads <= 1 {
        return on_this_thread(rt, runtime, listener, server);
    }
    serve_beside(rt, runtime, listener, server, threads - 1)
}

// Serves on the calling thread and on others.
fn serve_beside<L, R>(
    rt: R,
    runtime: &mut LocalRuntime,
    listener: TcpListener,
    server: &Arc<MockServer<L, R>>,
    others: u64,
) -> io::Result<()>
where
    L: Origin + Send + Sync,
    R: Threads
        + Wait
        + Net<Listener = TcpListener, Stream = TcpStream>
        + Clock
        + RandomSource
        + AllocGlobal
        + Copy
        + Drop
        + Send
        + Sync,
{
    let job = ServerJob {
        server: Arc::try_clone(server)?,
    };
    on_threads(&rt, runtime, listener, &job, others)
}
