//! Many calls by two threads, and a seat that is kept back.
ghost use Rattle.std.specs.Prelude.{◌≤◌};

use crate::calls;
use crate::calls::Asked;
use crate::first_waits::FirstWaits;
use crate::outcomes::{add_outcome, add_read, add_refusal};
use crate::threads::{Job, both};
use case_table::cells::Cells;
use shared_book::origin::Origin;
use shared_book::seat::Seat;
use shared_book::settle::SettleError;
use shared_book::shared_book::SharedBook;
use std::alloc::{AllocError, Global};
use std::sync::Wait;
use std::thread::Threads;

/// Each thread serves 500 requests and makes 10 edits, by an owner of its own. Then the journal shows 1,000 requests.
/// Without the second seat nothing is settled, and book and seats are handed back; with it, 1,020 events are.
pub fn two_threads<L: Origin + Send + Sync, R: Threads + Wait + Sync>(
    rt: &R,
    alloc: Global,
    cells: &mut Cells,
    shared: SharedBook<L>,
    seat: Seat<L>,
) -> Result<(), AllocError>
    requires { 3 ≤ seat.parts }
{
    let mut seat = seat;
    let one = seat.split(rt, &shared);
    let two = seat.split(rt, &shared);
    let gate = FirstWaits::new();
    let other = shared.try_clone()?;
    let (one, two) = both(
        rt,
        alloc,
        &shared,
        &other,
        one,
        two,
        &gate,
        Job::Many,
        Job::Many,
    );
    add_read(rt, alloc, cells, &shared, &mut seat, Asked::Count)?;
    calls::join(rt, &shared, &mut seat, one);
    settle_without(rt, alloc, cells, shared, seat, two)
}

// Settles without the other seat, and then with it.
fn settle_without<L: Origin, R: Wait>(
    rt: &R,
    alloc: Global,
    cells: &mut Cells,
    shared: SharedBook<L>,
    seat: Seat<L>,
    other: Seat<L>,
) -> Result<(), AllocError> {
    let seats = calls::list(alloc, seat)?;
    match calls::settled(rt, alloc, shared, seats) {
        Ok(_settled) => Ok(()),
        Err(error) => settle_with(rt, alloc, cells, error, other),
    }
}

// Settles what came back, with the other seat.
fn settle_with<L: Origin, R: Wait>(
    rt: &R,
    alloc: Global,
    cells: &mut Cells,
    error: SettleError<L>,
    other: Seat<L>,
) -> Result<(), AllocError> {
    let SettleError {
        reason,
        shared,
        seats,
        alone: _alone,
    } = error;
    add_refusal(cells, &reason, seats.len());
    let mut seats = seats;
    seats.push(other)?;
    cells.add("; then ");
    add_outcome(cells, &calls::settled(rt, alloc, shared, seats));
    Ok(())
}
