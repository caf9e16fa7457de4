// The seats of a server, as they lie under one lock.
ghost use Rattle.std.specs.Prelude.{◌≡◌, ◌≢◌, ◌-◌, ◌⊎◌, ◌∷◌, ◌<◌, ◌≤◌, IfOk, IfSome, IsSome, IsSomeAnd, IsTrue, List, None};
ghost use Rattle.std.specs.Prelude.{◌↔◌, Result, Some, false, option_map, true};
ghost use Rattle.http_connections.specs.Inner.Seat.{HasNoSeat, IsJoinedTo, IsTakenOver, OnSeat};
ghost use Rattle.http_connections.specs.declared.seats.Admission.TheVariants as admission;
ghost use Rattle.http_connections.specs.declared.seats.Assignment.TheVariants as given;
ghost use Rattle.http_connections.specs.declared.seats.Filled.TheVariants as filled;

pub mod cell;
pub mod pool;
pub mod slot;

use crate::accept::room::Room;
use crate::answers::Answers;
use crate::seats::cell::SeatCell;
use std::alloc::{AllocError, Global};
use std::sync::{Arc, Wait};

/// The server's own seat, and a cell for that of each connection. A cell without a connection is free, and has no
/// seat. Where memory ran out when its seat was to be joined, it keeps that seat and isn't used again.
#[derive(Drop)]
pub(crate) struct Seats<S> {
    own: Option<S>,
    cells: Vec<Arc<SeatCell<S>>>,
    free: Vec<Arc<SeatCell<S>>>,
    /// How many cells connections have.
    taken: u64,
    /// How many more connections are wanted; `None` for any number.
    wanted: Option<u64>,
    pub(crate) is_open: bool,
    /// Whether a connection waits until another has ended.
    is_awaited: bool,
    pub(crate) room: Room,
}

/// Whether one more connection is accepted.
pub(crate) enum Admission {
    Now,
    /// As many as may be are open.
    Later,
    /// As many as were wanted were accepted, or none can be.
    Never,
}

/// What a connection that was accepted gets.
#[derive(Drop)]
pub(crate) enum Assignment<S> {
    /// A cell with a seat of this number.
    Cell(Arc<SeatCell<S>>, u64),
    /// As many as were wanted were accepted before: the connection is closed.
    Enough,
    /// No memory for a cell: the connection is closed.
    NoCell,
    /// The server's seat can't be split: no more connections are accepted.
    NoSeat,
}

/// What became of a cell that was free.
enum Filled {
    /// It has a seat of this number.
    Seat(u64),
    /// It had a seat, which stays there.
    Occupied,
    NoSeat,
}

impl<S: Drop> Seats<S> {
    pub(crate) fn new(alloc: Global, wanted: Option<u64>) -> Result<Seats<S>, AllocError>
        ensures { IfOk result (λ seats. seats.wanted ≡ wanted) }
    {
        Ok(Seats {
            own: None,
            cells: Vec::new(alloc),
            free: Vec::new(alloc),
            taken: 0,
            wanted,
            is_open: false,
            is_awaited: false,
            room: Room::new(alloc)?,
        })
    }

    pub(crate) fn open(&mut self, seat: S)
        ensures { self.new.own ≡ Some seat }
    {
        self.own = Some(seat);
        self.is_open = true;
    }

    pub(crate) fn admission(&mut self, most: u64) -> Admission
        ensures admission { elim result [
          | admission.Now ↦ (self.old.is_open ≡ true) × (self.old.wanted ≢ Some 0) × (self.old.taken < most)
          | admission.Later ↦ (self.old.is_open ≡ true) × (self.old.wanted ≢ Some 0) × (most ≤ self.old.taken)
              × (self.new.is_awaited ≡ true)
          | admission.Never ↦ (self.old.is_open ≡ false) ⊎ (self.old.wanted ≡ Some 0)
        ] }
        ensures same { self.new ≡ record self.old { is_awaited = self.new.is_awaited } }
    {
        if self.are_done() {
            return Admission::Never;
        }
        if self.taken < most {
            return Admission::Now;
        }
        self.is_awaited = true;
        Admission::Later
    }

    /// Whether no more connections are accepted.
    pub(crate) fn are_done(&self) -> bool
        ensures { IsTrue result ↔ ((self.now.is_open ≡ false) ⊎ (self.now.wanted ≡ Some 0)) }
    {
        !self.is_open || self.wanted == Some(0)
    }

    /// Whether it is waited until a connection has ended: for room, or until none is left where no more are accepted.
    pub(crate) fn take_awaited(&mut self) -> bool
        ensures same { self.new ≡ record self.old { is_awaited = false } }
        ensures awaited { IsTrue result ↔ ((self.old.is_awaited ≡ true) ⊎ ((self.old.taken ≡ 0)
            × ((self.old.is_open ≡ false) ⊎ (self.old.wanted ≡ Some 0)))) }
    {
        let is_awaited = self.is_awaited || (self.taken == 0 && self.are_done());
        self.is_awaited = false;
        is_awaited
    }

    /// Whether as many connections as were wanted were accepted.
    pub(crate) fn are_enough(&self) -> bool
        ensures { IsTrue result ↔ (self.now.wanted ≡ Some 0) }
    {
        self.wanted == Some(0)
    }

    /// Whether a connection has a cell.
    pub(crate) fn has_connections(&self) -> bool
        ensures { IsTrue result ↔ (0 < self.now.taken) }
    {
        self.taken > 0
    }

    /// What one more connection gets, which is counted.
    pub(crate) fn assign<R: Wait, A: Answers<Seat = S>>(
        &mut self,
        rt: &R,
        alloc: Global,
        site: &A,
    ) -> Assignment<S>
        ensures given { elim result [
          | given.Cell cell number ↦ (self.old.wanted ≢ Some 0) × OnSeat self.old.own self.new.own (λ old new.
              (seat : S) × (A.number_of seat ≡ number) × A.splits site.now old new (Some seat))
          | given.Enough ↦ (self.old.wanted ≡ Some 0) × (self.new.own ≡ self.old.own)
          | given.NoCell ↦ (self.old.wanted ≢ Some 0) × (self.new.own ≡ self.old.own)
          | given.NoSeat ↦ (self.old.wanted ≢ Some 0) × HasNoSeat (A.splits site.now) self.old.own self.new.own
        ] }
        ensures wanted { self.new.wanted ≡ option_map (λ wanted. wanted - 1) self.old.wanted }
    {
        if self.are_enough() {
            return Assignment::Enough;
        }
        self.wanted = self.wanted.map(|wanted| wanted.saturating_sub(1));
        self.assign_cell(rt, alloc, site)
    }

    fn assign_cell<R: Wait, A: Answers<Seat = S>>(
        &mut self,
        rt: &R,
        alloc: Global,
        site: &A,
    ) -> Assignment<S>
        ensures given { elim result [
          | given.Cell cell number ↦ OnSeat self.old.own self.new.own (λ old new.
              (seat : S) × (A.number_of seat ≡ number) × A.splits site.now old new (Some seat))
          | given.Enough ↦ ⊥
          | given.NoCell ↦ self.new.own ≡ self.old.own
          | given.NoSeat ↦ HasNoSeat (A.splits site.now) self.old.own self.new.own
        ] }
        ensures wanted { self.new.wanted ≡ self.old.wanted }
    {
        let Ok(cell) = self.free_cell(alloc) else {
            return Assignment::NoCell;
        };
        match self.fill_cell(rt, site, &cell) {
            Filled::Seat(number) => {
                self.taken = self.taken.saturating_add(1);
                cell.state.begin();
                Assignment::Cell(cell, number)
            }
            Filled::Occupied => Assignment::NoCell,
            Filled::NoSeat => Assignment::NoSeat,
        }
    }

    fn fill_cell<R: Wait, A: Answers<Seat = S>>(
        &mut self,
        rt: &R,
        site: &A,
        cell: &SeatCell<S>,
    ) -> Filled
        ensures filled { elim result [
          | filled.Seat number ↦ OnSeat self.old.own self.new.own (λ old new.
              (seat : S) × (A.number_of seat ≡ number) × A.splits site.now old new (Some seat))
          | filled.Occupied ↦ self.new.own ≡ self.old.own
          | filled.NoSeat ↦ HasNoSeat (A.splits site.now) self.old.own self.new.own
        ] }
        ensures wanted { self.new.wanted ≡ self.old.wanted }
    {
        let mut held = cell.seat.lock(rt);
        self.fill(rt, site, &mut *held)
    }

    // Puts a seat that is split off the server's own where none is.
    fn fill<R: Wait, A: Answers<Seat = S>>(
        &mut self,
        rt: &R,
        site: &A,
        held: &mut Option<S>,
    ) -> Filled
        ensures filled { elim result [
          | filled.Seat number ↦ (held.old ≡ None) × IsSomeAnd held.new (λ seat. (A.number_of seat ≡ number)
              × OnSeat self.old.own self.new.own (λ old new. A.splits site.now old new (Some seat)))
          | filled.Occupied ↦ IsSome held.old × (held.new ≡ held.old) × (self.new.own ≡ self.old.own)
          | filled.NoSeat ↦ (held.old ≡ None) × (held.new ≡ None)
              × HasNoSeat (A.splits site.now) self.old.own self.new.own
        ] }
        ensures wanted { self.new.wanted ≡ self.old.wanted }
    {
        if held.is_some() {
            return Filled::Occupied;
        }
        match self.split(rt, site) {
            Some(seat) => {
                let number = A::number(&seat);
                *held = Some(seat);
                Filled::Seat(number)
            }
            None => Filled::NoSeat,
        }
    }

    fn split<R: Wait, A: Answers<Seat = S>>(&mut self, rt: &R, site: &A) -> Option<S>
        ensures split { elim result [
          | Some seat ↦ OnSeat self.old.own self.new.own (λ old new. A.splits site.now old new (Some seat))
          | None ↦ HasNoSeat (A.splits site.now) self.old.own self.new.own
        ] }
        ensures wanted { self.new.wanted ≡ self.old.wanted }
    {
        match &mut self.own {
            Some(own) => site.split(rt, own),
            None => None,
        }
    }

    // A cell that is free, or a new one.
    fn free_cell(&mut self, alloc: Global) -> Result<Arc<SeatCell<S>>, AllocError>
        ensures own { self.new.own ≡ self.old.own }
        ensures wanted { self.new.wanted ≡ self.old.wanted }
    {
        if let Some(cell) = self.free.pop() {
            return Ok(cell);
        }
        self.cells.reserve(1)?;
        self.free.reserve(self.cells.len().saturating_add(1))?;
        let state = self.room.state(alloc)?;
        let cell = Arc::new(alloc, SeatCell::new(state))?;
        self.cells.push(Arc::try_clone(&cell)?)?;
        Ok(cell)
    }

    pub(crate) fn release<R: Wait, A: Answers<Seat = S>>(
        &mut self,
        rt: &R,
        site: &A,
        cell: Arc<SeatCell<S>>,
    )
        ensures own { (self.new.own ≡ self.old.own) ⊎ OnSeat self.old.own self.new.own (λ old new.
            (seat : S) × (joined : Result (Unit {0}) S) × A.joins site.now old seat new joined) }
        ensures taken { self.new.taken ≡ self.old.taken - 1 }
    {
        self.taken = self.taken.saturating_sub(1);
        cell.state.end();
        if self.vacate(rt, site, &*cell) {
            // There is room for each cell.
            let _ = self.free.push(cell);
        }
    }

    fn vacate<R: Wait, A: Answers<Seat = S>>(
        &mut self,
        rt: &R,
        site: &A,
        cell: &SeatCell<S>,
    ) -> bool
        ensures own { (self.new.own ≡ self.old.own) ⊎ OnSeat self.old.own self.new.own (λ old new.
            (seat : S) × (joined : Result (Unit {0}) S) × A.joins site.now old seat new joined) }
        ensures taken { self.new.taken ≡ self.old.taken }
    {
        let mut held = cell.seat.lock(rt);
        self.take_over(rt, site, &mut *held)
    }

    // Joins the seat of a cell, if it has one. Where it can't, the cell keeps it, and isn't free.
    fn take_over<R: Wait, A: Answers<Seat = S>>(
        &mut self,
        rt: &R,
        site: &A,
        held: &mut Option<S>,
    ) -> bool
        ensures seat { IsTakenOver (A.joins site.now) self.old.own self.new.own held.old held.new result }
        ensures taken { self.new.taken ≡ self.old.taken }
    {
        let Some(seat) = held.take() else {
            return true;
        };
        match self.join(rt, site, seat) {
            Ok(()) => true,
            Err(kept) => {
                *held = Some(kept);
                false
            }
        }
    }

    fn join<R: Wait, A: Answers<Seat = S>>(&mut self, rt: &R, site: &A, seat: S) -> Result<(), S>
        ensures joined { IsJoinedTo (A.joins site.now) self.old.own self.new.own seat result }
        ensures taken { self.new.taken ≡ self.old.taken }
    {
        match &mut self.own {
            Some(own) => site.join(rt, own, seat),
            None => Err(seat),
        }
    }

    /// Takes all seats out, its own first.
    pub(crate) fn take_all<R: Wait>(&mut self, rt: &R, alloc: Global) -> Result<Vec<S>, AllocError>
        ensures { IfOk result (λ seats. IfSome self.old.own
            (λ first. (others : List S) × (seats.items ≡ first ∷ others))) }
    {
        let mut seats = Vec::with_capacity(alloc, self.cells.len().saturating_add(1))?;
        if let Some(own) = self.own.take() {
            seats.push(own)?;
        }
        for cell in &self.cells {
            if let Some(seat) = cell.take(rt) {
                seats.push(seat)?;
            }
        }
        Ok(seats)
    }
}
