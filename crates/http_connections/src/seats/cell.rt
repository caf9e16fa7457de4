// The cell in which a connection's seat lies.
use crate::accept::connection_state::ConnectionState;
use std::sync::{Arc, Mutex, Wait};

/// The cell of one connection's seat, which has none while it is free.
#[derive(Drop)]
pub struct SeatCell<S> {
    pub(crate) seat: Mutex<Option<S>>,
    /// That of the connection.
    pub(crate) state: Arc<ConnectionState>,
}

impl<S: Drop> SeatCell<S> {
    /// A cell without a seat.
    pub fn new(state: Arc<ConnectionState>) -> SeatCell<S> {
        SeatCell {
            seat: Mutex::new(None),
            state,
        }
    }

    /// Puts a seat into its cell.
    pub fn put<R: Wait>(&self, rt: &R, seat: S) {
        *self.seat.lock(rt) = Some(seat);
    }

    /// Takes the seat out of its cell.
    pub fn take<R: Wait>(&self, rt: &R) -> Option<S> {
        self.seat.lock(rt).take()
    }
}
