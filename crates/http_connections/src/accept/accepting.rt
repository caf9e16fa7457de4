// The connections that a listener accepts, each a task.
ghost use Rattle.std.specs.Prelude.{◌≡◌, ◌⊎◌, ◌↔◌, ◌-◌, ◌<◌, IfSome, IsFalse, IsTrue, OnSome, false, option_map, true};
ghost use Rattle.std.specs.IoError.{raw_os_error};
ghost use Rattle.futures.specs.Poll.{OnPending};
ghost use Rattle.futures.specs.Task.{IsArmed, Keeps};
ghost use Rattle.http_connections.specs.Inner.Accepted.{AreWanted, IsOfListener};
ghost use Rattle.http_connections.specs.Site.{IsConnectionFor, IsConnectionOf, site_in};

use crate::accept::connection_task::ConnectionTask;
use crate::accept::connects::{Connects, connection};
use crate::accept::pause::Pause;
use crate::answers::Answers;
use crate::request::service::MessageService;
use crate::seats::cell::SeatCell;
use crate::seats::pool::SeatPool;
use crate::seats::{Admission, Assignment};
use crate::settings::Settings;
use futures::task::{Context, Poll};
use futures::{Future, Stream, ready};
use std::alloc::{AllocError, AllocGlobal};
use std::io;
use std::rc::Rc;
use std::sync::{Arc, Wait};
use std::time::{Clock, Instant};
use tokio::net::{TcpListener, TcpStream};
use tokio::runtime::Handle;
use tokio::sync::OwnedNotified;

/// The numbers of Linux for what is wrong with a listener itself (accept(2)).
const EBADF: i32 = 9;

const EFAULT: i32 = 14;

const EINVAL: i32 = 22;

const ENOTSOCK: i32 = 88;

/// Makes a task of each connection, as many as are wanted, with a cell of the pool.
#[derive(Drop)]
pub(crate) struct Accepting<R, A: Answers, M> {
    rt: R,
    /// `None` once no more are accepted: who comes then is refused.
    listener: Option<TcpListener>,
    pool: Arc<SeatPool<A>>,
    /// How many this thread may accept at most; how many all threads may is counted in the pool.
    left: Option<u64>,
    is_open: bool,
    /// A connection that waits for room.
    waiting: Option<TcpStream>,
    pause: Pause<R>,
    /// Is ready once there is something to look at: no more may be accepted, there may be room, or none may be left.
    told: OwnedNotified,
    handle: Rc<Handle>,
    connects: M,
}

impl<R, A, M> Accepting<R, A, M>
where
    R: Wait + Clock + AllocGlobal + Copy + Drop,
    A: Answers,
{
    pub(crate) fn new(
        rt: R,
        listener: TcpListener,
        pool: Arc<SeatPool<A>>,
        settings: Settings,
        pause: Pause<R>,
        told: OwnedNotified,
        handle: Rc<Handle>,
        connects: M,
    ) -> Accepting<R, A, M>
        ensures connects { result.connects ≡ connects }
        ensures pool { result.pool ≡ pool }
        ensures left { result.left ≡ settings.connections }
        ensures open { result.is_open ≡ true }
    {
        Accepting {
            rt,
            listener: Some(listener),
            pool,
            left: settings.connections,
            is_open: true,
            waiting: None,
            pause,
            told,
            handle,
            connects,
        }
    }

    fn wants_more(&self) -> bool
        ensures { IsTrue result ↔ (IfSome self.now.left (λ left. 0 < left) × (self.now.is_open ≡ true)) }
    {
        self.left != Some(0) && self.is_open
    }

    // Ready where there is no pause, or once it is over. From then on nothing is missed that is told.
    fn poll_turn(&mut self, cx: &mut Context<'_>) -> Poll<()>
        ensures registered { OnPending result (IsArmed cx.new) }
        ensures kept { Keeps cx.old cx.new }
        ensures connects { self.new.connects ≡ self.old.connects }
        ensures pool { self.new.pool ≡ self.old.pool }
        ensures left { self.new.left ≡ self.old.left }
    {
        ready!(self.poll_pause(cx));
        self.listen(cx);
        Poll::Ready(())
    }

    // What is told ends a pause.
    fn poll_pause(&mut self, cx: &mut Context<'_>) -> Poll<()>
        ensures registered { OnPending result (IsArmed cx.new) }
        ensures kept { Keeps cx.old cx.new }
        ensures connects { self.new.connects ≡ self.old.connects }
        ensures pool { self.new.pool ≡ self.old.pool }
        ensures left { self.new.left ≡ self.old.left }
    {
        if let Poll::Ready(()) = self.pause.poll(cx) {
            return Poll::Ready(());
        }
        if let Poll::Ready(Ok(())) = self.told.poll(cx) {
            self.pause.end();
            return Poll::Ready(());
        }
        Poll::Pending
    }

    // Waits for what is told from now on, or where there is no memory for that, for the end of a pause. Whatever there is
    // to look at is looked at afterwards.
    fn listen(&mut self, cx: &mut Context<'_>)
        ensures armed { IsArmed cx.new }
        ensures kept { Keeps cx.old cx.new }
        ensures connects { self.new.connects ≡ self.old.connects }
        ensures pool { self.new.pool ≡ self.old.pool }
        ensures left { self.new.left ≡ self.old.left }
    {
        if matches!(self.told.poll(cx), Poll::Pending) {
            return;
        }
        if let Ok(told) = self.pool.ender.notified() {
            self.told = told;
        }
        match self.told.poll(cx) {
            Poll::Pending => {}
            Poll::Ready(Ok(())) => {
                let _: Poll<()> = cx.yield_now();
            }
            Poll::Ready(Err(AllocError)) => self.look_again_soon(cx),
        }
    }

    // It is looked at again after a pause.
    fn look_again_soon(&mut self, cx: &mut Context<'_>)
        ensures armed { IsArmed cx.new }
        ensures kept { Keeps cx.old cx.new }
        ensures same { self.new ≡ record self.old { pause = self.new.pause } }
    {
        self.pause.begin();
        if let Poll::Ready(()) = self.pause.poll(cx) {
            let _: Poll<()> = cx.yield_now();
        }
    }

    // Whether no more are accepted, by this thread or by any.
    fn is_done(&self) -> bool
        ensures { IsFalse result → IfSome self.now.left (λ left. 0 < left) }
    {
        !self.wants_more() || self.pool.is_done(&self.rt)
    }

    // No more are accepted. That is all where the end was asked for: then the connections leave, and the event loop waits
    // for them as long as it may. Otherwise it goes on until all have ended.
    fn poll_end(&mut self, cx: &mut Context<'_>) -> Poll<()>
        ensures registered { OnPending result (IsArmed cx.new) }
        ensures kept { Keeps cx.old cx.new }
        ensures connects { self.new.connects ≡ self.old.connects }
        ensures pool { self.new.pool ≡ self.old.pool }
        ensures left { self.new.left ≡ self.old.left }
    {
        self.listener = None;
        self.waiting = None;
        if self.pool.is_asked() {
            self.pool.clear(&self.rt);
            return Poll::Ready(());
        }
        if !self.pool.has_connections(&self.rt) {
            return Poll::Ready(());
        }
        if matches!(self.told.poll(cx), Poll::Pending) {
            return Poll::Pending;
        }
        // Something was told meanwhile, or there is no memory to wait for it.
        self.look_again_soon(cx);
        Poll::Pending
    }

    // A cell with a seat of this number, if the connection can be served.
    fn cell(&mut self) -> Option<(Arc<SeatCell<A::Seat>>, u64)>
        ensures open { OnSome result (self.new.is_open ≡ self.old.is_open) }
        ensures connects { self.new.connects ≡ self.old.connects }
        ensures pool { self.new.pool ≡ self.old.pool }
        ensures left { self.new.left ≡ self.old.left }
    {
        match self.pool.assign(&self.rt, self.rt.alloc()) {
            Assignment::Cell(cell, number) => Some((cell, number)),
            Assignment::Enough | Assignment::NoCell => None,
            Assignment::NoSeat => {
                self.close();
                None
            }
        }
    }

    // No more are accepted.
    fn close(&mut self)
        ensures { self.new ≡ record self.old { is_open = false } }
    {
        self.is_open = false;
        self.pool.close(&self.rt);
    }

    // Where the listener itself is wrong, no more are accepted. Any other error is waited out: it is of one connection,
    // or of the moment.
    fn refused(&mut self, error: &io::Error)
        ensures open { (IsOfListener (raw_os_error error.now) × (self.new.is_open ≡ false))
            ⊎ (¬ (IsOfListener (raw_os_error error.now)) × (self.new.is_open ≡ self.old.is_open)
            × (self.new.pause.has_begun ≡ true)) }
        ensures connects { self.new.connects ≡ self.old.connects }
        ensures pool { self.new.pool ≡ self.old.pool }
        ensures left { self.new.left ≡ self.old.left }
    {
        if is_of_listener(error) {
            self.close();
        } else {
            self.pause.begin();
        }
    }

    // The socket that waits, or the next one.
    fn poll_socket(&mut self, cx: &mut Context<'_>) -> Poll<io::Result<TcpStream>>
        ensures registered { OnPending result (IsArmed cx.new) }
        ensures kept { Keeps cx.old cx.new }
        ensures connects { self.new.connects ≡ self.old.connects }
        ensures pool { self.new.pool ≡ self.old.pool }
        ensures left { self.new.left ≡ self.old.left }
    {
        if let Some(socket) = self.waiting.take() {
            return Poll::Ready(Ok(socket));
        }
        let Some(listener) = &mut self.listener else {
            return cx.yield_now();
        };
        match ready!(listener.poll_accept(cx)) {
            Ok((mut socket, _address)) => {
                // What the event loop is told of a socket it keeps only from the first poll on: a client that has left
                // before the task's first one would stay unnoticed.
                let _ = socket.poll_read_ready(cx);
                Poll::Ready(Ok(socket))
            }
            Err(error) => Poll::Ready(Err(error)),
        }
    }

    // The connections' states go by this time.
    fn look(&self) {
        if let Ok(now) = Instant::now(&self.rt) {
            self.pool.look(&self.rt, now);
        }
    }

    // The socket waits, and the connection that has been silent longest is asked to make room. It is looked at again
    // once there is room, and soon in any case: another may have been silent long enough then.
    fn wait_for_room(&mut self, socket: TcpStream)
        ensures connects { self.new.connects ≡ self.old.connects }
        ensures pool { self.new.pool ≡ self.old.pool }
        ensures left { self.new.left ≡ self.old.left }
    {
        self.waiting = Some(socket);
        self.pool.make_room(&self.rt);
        self.pause.begin();
    }

    // The connection of a socket, whose requests are answered by the seat of the cell, which has this number; `None`
    // where memory runs out.
    fn connection<F>(
        &self,
        socket: TcpStream,
        cell: &Arc<SeatCell<A::Seat>>,
        number: u64,
    ) -> Option<F>
    where
        M: Connects<TcpStream, MessageService<R, A>, Connection = F>,
        requires { (service : _) → M.can_connect self.now.connects service }
        ensures { IfSome result (IsConnectionFor M.makes self.now.connects socket
            (record { site = site_in self.now.pool; number = number })) }
    {
        // Answers are written whole, so there is nothing to wait for.
        let _ = socket.set_nodelay(true);
        let handle = self.handle.clone().ok()?;
        let slot = self.pool.slot(self.rt.alloc(), cell, number, handle).ok()?;
        connection(
            self.rt,
            &self.connects,
            self.pause.timers(),
            slot,
            &cell.state,
            socket,
        )
    }

    // The task that serves the connection; `None` where it is closed at once.
    fn task<F>(&mut self, socket: TcpStream) -> Option<ConnectionTask<R, A, F>>
    where
        M: Connects<TcpStream, MessageService<R, A>, Connection = F>,
        F: Future<Output = hyper::Result<()>>,
        requires { (service : _) → M.can_connect self.old.connects service }
        ensures made { IfSome result (λ task. IsConnectionOf M.makes self.old.connects socket
            (site_in self.old.pool) task.connection.value) }
        ensures connects { self.new.connects ≡ self.old.connects }
        ensures pool { self.new.pool ≡ self.old.pool }
        ensures left { self.new.left ≡ option_map (λ left. left - 1) self.old.left }
    {
        self.left = self.left.map(|left| left.saturating_sub(1));
        let pool = Arc::try_clone(&self.pool).ok()?;
        let (cell, number) = self.cell()?;
        let Some(connection) = self.connection(socket, &cell, number) else {
            pool.release(&self.rt, cell);
            return None;
        };
        ConnectionTask::new(self.rt, pool, cell, connection)
    }
}

impl<R, A, M, F> Stream for Accepting<R, A, M>
where
    R: Wait + Clock + AllocGlobal + Copy + Drop,
    A: Answers,
    M: Connects<TcpStream, MessageService<R, A>, Connection = F>,
    F: Future<Output = hyper::Result<()>>,
{
    type Item = ConnectionTask<R, A, F>;

    ghost can_poll = { λ accepting. ((service : _) → M.can_connect accepting.connects service)
        × ((io : _) (service : _) (made : F) → M.makes accepting.connects io service made → F.can_poll made) };

    // Each task is of a connection over some socket, whose requests the site of the pool answers; and there are no more
    // of them than are wanted.
    ghost yields = { λ accepting. AreWanted (λ task. (socket : _) × IsConnectionOf M.makes accepting.connects socket
        (site_in accepting.pool) task.connection.value) accepting.left };

    fn poll_next(&mut self, cx: &mut Context<'_>) -> Poll<Option<ConnectionTask<R, A, F>>> {
        ready!(self.poll_turn(cx));
        if self.is_done() {
            ready!(self.poll_end(cx));
            return Poll::Ready(None);
        }
        let socket = match ready!(self.poll_socket(cx)) {
            Ok(socket) => socket,
            Err(error) => {
                self.refused(&error);
                return cx.yield_now();
            }
        };
        self.look();
        match self.pool.admission(&self.rt) {
            Admission::Now => match self.task(socket) {
                Some(task) => Poll::Ready(Some(task)),
                None => cx.yield_now(),
            },
            Admission::Later => {
                self.wait_for_room(socket);
                cx.yield_now()
            }
            Admission::Never => {
                self.is_open = false;
                cx.yield_now()
            }
        }
    }
}

// Whether it is of the listener itself.
fn is_of_listener(error: &io::Error) -> bool
    ensures { IsTrue result ↔ IsOfListener (raw_os_error error.now) }
{
    matches!(
        error.raw_os_error(),
        Some(EBADF | EFAULT | EINVAL | ENOTSOCK)
    )
}
