// The threads that serve the connections of a listener.
use std::alloc::AllocGlobal;
use std::net::Net;
use std::random::RandomSource;
use std::sync::Wait;
use std::thread::Threads;
use std::time::Clock;
use std::{io, net, thread};
use tokio::net::TcpListener;
use tokio::runtime::LocalRuntime;

/// What each thread of a server does.
pub trait Job<R>: Drop {
    /// Serves the connections of a listener of this runtime, as long as any are accepted, on the calling thread.
    fn serve(&self, rt: R, runtime: &mut LocalRuntime, listener: TcpListener) -> io::Result<()>;
}

/// Does the job on the calling thread and on `others` more, each with a listener and a runtime of its own, and gives
/// the first error of any. A thread that can't be started is done without.
pub fn on_threads<R, J>(
    rt: &R,
    runtime: &mut LocalRuntime,
    listener: net::TcpListener,
    job: &J,
    others: u64,
) -> io::Result<()>
where
    R: Threads
        + Wait
        + Net<Listener = net::TcpListener, Stream = net::TcpStream>
        + Clock
        + RandomSource
        + AllocGlobal
        + Copy
        + Drop
        + Sync,
    J: Job<R> + Sync,
{
    let here = listener.try_clone()?;
    let here = TcpListener::from_std(here, runtime.handle().reactor())?;
    thread::scope(thread::scope_env(), rt, move |scope| -> io::Result<()> {
        let mut threads = Vec::new(rt.alloc());
        for _ in 0..others {
            let Ok(listener) = listener.try_clone() else {
                break;
            };
            if threads.reserve(1).is_err() {
                break;
            }
            if let Ok(thread) = scope.spawn(move || on_thread(rt, listener, job)) {
                let _ = threads.push(thread);
            }
        }
        drop(listener);
        let mut served = job.serve(*rt, runtime, here);
        for thread in threads {
            served = served.and(thread.join(rt));
        }
        served
    })
}

// Does the job on a thread of its own, if that gets a runtime and has the listener there.
fn on_thread<R, J>(rt: &R, listener: net::TcpListener, job: &J) -> io::Result<()>
where
    R: Wait
        + Net<Listener = net::TcpListener, Stream = net::TcpStream>
        + Clock
        + RandomSource
        + AllocGlobal
        + Copy
        + Drop,
    J: Job<R>,
{
    let Ok(mut runtime) = LocalRuntime::new(rt) else {
        return Ok(());
    };
    let Ok(listener) = TcpListener::from_std(listener, runtime.handle().reactor()) else {
        return Ok(());
    };
    job.serve(*rt, &mut runtime, listener)
}
