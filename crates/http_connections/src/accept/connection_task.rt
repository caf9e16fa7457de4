// A connection as a task.
ghost use Rattle.std.specs.Prelude.{◌≡◌, IfSome};
ghost use Rattle.futures.specs.Task.{Keeps};

use crate::answers::Answers;
use crate::seats::cell::SeatCell;
use crate::seats::pool::SeatPool;
use futures::task::{Context, Poll};
use futures::{Future, ready};
use std::alloc::AllocGlobal;
use std::sync::{Arc, Wait};

/// Serves a connection until it ends, and then releases the cell of its seat. The connection is in a box, since an
/// executor moves its tasks.
#[derive(Drop)]
pub struct ConnectionTask<R, A: Answers, C> {
    rt: R,
    pool: Arc<SeatPool<A>>,
    cell: Option<Arc<SeatCell<A::Seat>>>,
    /// Whether it is woken when the connection has to leave.
    attends: bool,
    connection: Box<C>,
}

impl<R, A, C> ConnectionTask<R, A, C>
where
    R: Wait + AllocGlobal + Copy + Drop,
    A: Answers,
    C: Future,
{
    /// The task of a connection. Where there is no memory for it the cell is released.
    pub fn new(
        rt: R,
        pool: Arc<SeatPool<A>>,
        cell: Arc<SeatCell<A::Seat>>,
        connection: C,
    ) -> Option<ConnectionTask<R, A, C>>
        ensures { IfSome result (λ task. task.connection.value ≡ connection) }
    {
        let Ok(connection) = Box::new(rt.alloc(), connection) else {
            pool.release(&rt, cell);
            return None;
        };
        Some(ConnectionTask {
            rt,
            pool,
            cell: Some(cell),
            attends: false,
            connection,
        })
    }
}

impl<R, A: Answers, C> ConnectionTask<R, A, C> {
    // A task has the same waker each time it is polled.
    fn attend(&mut self, cx: &mut Context<'_>)
        ensures kept { Keeps cx.old cx.new }
        ensures same { self.new.connection ≡ self.old.connection }
    {
        if !self.attends
            && let Some(cell) = &self.cell
        {
            cell.state.attend(cx);
            self.attends = true;
        }
    }
}

impl<R, A, C> Future for ConnectionTask<R, A, C>
where
    R: Wait + Drop,
    A: Answers,
    C: Future<Output = hyper::Result<()>>,
{
    type Output = ();

    ghost can_poll = { λ f. C.can_poll f.connection.value };

    // The connection has ended so.
    ghost gives = { λ f _. (ended : _) × C.gives f.connection.value ended };

    fn poll(&mut self, cx: &mut Context<'_>) -> Poll<()> {
        self.attend(cx);
        // How it ended concerns its peer alone.
        let _ended = ready!(self.connection.poll(cx));
        if let Some(cell) = self.cell.take() {
            self.pool.release(&self.rt, cell);
        }
        Poll::Ready(())
    }
}
