// The seats of a server: its own, and that of each connection.
ghost use Rattle.std.specs.Prelude.{◌≡◌, IfOk};
ghost use Rattle.std.specs.Arc.{arc_value};
ghost use Rattle.http_connections.specs.Site.{giver_of};

use crate::answers::Answers;
use crate::ender::Ender;
use crate::seats::cell::SeatCell;
use crate::seats::slot::SeatSlot;
use crate::seats::{Admission, Assignment, Seats};
use crate::settings::Settings;
use std::alloc::{AllocError, Global};
use std::rc::Rc;
use std::sync::{Arc, Mutex, Wait};
use std::time::Instant;
use tokio::runtime::Handle;

/// The site of a server, and its seats, which its threads share.
#[derive(Drop)]
pub struct SeatPool<A: Answers> {
    pub site: Arc<A>,
    seats: Mutex<Seats<A::Seat>>,
    /// How many connections are open at a time.
    most: u64,
    pub(crate) ender: Arc<Ender>,
}

impl<A: Answers> SeatPool<A> {
    /// A pool without a seat.
    pub fn new(
        alloc: Global,
        site: Arc<A>,
        settings: Settings,
        ender: Arc<Ender>,
    ) -> Result<SeatPool<A>, AllocError>
        ensures { IfOk result (λ pool. pool.site ≡ site) }
    {
        Ok(SeatPool {
            site,
            seats: Mutex::new(Seats::new(alloc, settings.connections)?),
            most: settings.max_connections,
            ender,
        })
    }

    /// Lets connections come in, with the seat that theirs are split off.
    pub fn open<R: Wait>(&self, rt: &R, seat: A::Seat) {
        self.seats.lock(rt).open(seat);
    }

    /// Gives a connection a cell with a seat that is split off the server's own. The last that is wanted ends
    /// accepting.
    pub(crate) fn assign<R: Wait>(&self, rt: &R, alloc: Global) -> Assignment<A::Seat> {
        let (assignment, are_enough) = self.assign_locked(rt, alloc);
        if are_enough {
            self.ender.tell();
        }
        assignment
    }

    fn assign_locked<R: Wait>(&self, rt: &R, alloc: Global) -> (Assignment<A::Seat>, bool) {
        let mut seats = self.seats.lock(rt);
        let assignment = seats.assign(rt, alloc, &*self.site);
        (assignment, seats.are_enough())
    }

    /// The cell of the seat with this number, beside the site and the runtime of its connection.
    pub(crate) fn slot(
        &self,
        alloc: Global,
        cell: &Arc<SeatCell<A::Seat>>,
        number: u64,
        handle: Rc<Handle>,
    ) -> Result<Arc<SeatSlot<A>>, AllocError>
        ensures { IfOk result (λ slot. giver_of slot ≡ record { site = arc_value self.now.site; number = number }) }
    {
        let site = Arc::try_clone(&self.site)?;
        let cell = Arc::try_clone(cell)?;
        Ok(Arc::new(alloc, SeatSlot::new(site, cell, number, handle))?)
    }

    /// Joins the seat of a connection that has ended to the server's own, and frees its cell.
    /// Whoever accepts connections is told so, where it waits for that.
    pub fn release<R: Wait>(&self, rt: &R, cell: Arc<SeatCell<A::Seat>>) {
        if self.release_locked(rt, cell) {
            self.ender.tell();
        }
    }

    fn release_locked<R: Wait>(&self, rt: &R, cell: Arc<SeatCell<A::Seat>>) -> bool {
        let mut seats = self.seats.lock(rt);
        seats.release(rt, &*self.site, cell);
        seats.take_awaited()
    }

    /// Whether one more connection is accepted.
    pub(crate) fn admission<R: Wait>(&self, rt: &R) -> Admission {
        if self.is_asked() {
            return Admission::Never;
        }
        self.seats.lock(rt).admission(self.most)
    }

    /// Whether no more are, by any thread.
    pub(crate) fn is_done<R: Wait>(&self, rt: &R) -> bool {
        self.is_asked() || self.seats.lock(rt).are_done()
    }

    /// Whether a connection of any thread is open.
    pub(crate) fn has_connections<R: Wait>(&self, rt: &R) -> bool {
        self.seats.lock(rt).has_connections()
    }

    /// Whether the end was asked for.
    pub(crate) fn is_asked(&self) -> bool {
        self.ender.is_asked()
    }

    /// Looks at the clock: by this time the states of connections say when they were heard.
    pub(crate) fn look<R: Wait>(&self, rt: &R, now: Instant) {
        self.seats.lock(rt).room.look(now);
    }

    /// Asks the connection that has been silent longest, and long enough, to make room, if there is one.
    pub(crate) fn make_room<R: Wait>(&self, rt: &R) {
        self.seats.lock(rt).room.make();
    }

    /// Asks all connections to leave, each once the answer that it waits for has been given.
    pub fn clear<R: Wait>(&self, rt: &R) {
        self.seats.lock(rt).room.clear();
    }

    /// No more connections can be accepted.
    pub fn close<R: Wait>(&self, rt: &R) {
        self.seats.lock(rt).is_open = false;
        self.ender.tell();
    }

    /// Whether connections can be accepted.
    pub(crate) fn is_open<R: Wait>(&self, rt: &R) -> bool {
        self.seats.lock(rt).is_open
    }

    /// Takes all seats out, once no connection is left.
    pub(crate) fn take_all<R: Wait>(
        &self,
        rt: &R,
        alloc: Global,
    ) -> Result<Vec<A::Seat>, AllocError> {
        self.seats.lock(rt).take_all(rt, alloc)
    }
}
