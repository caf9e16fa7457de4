//! What the seats of two threads have seen, put together.
ghost use Rattle.std.specs.Prelude.{◌≤◌};
ghost use mathlib.Core.List.{IsPrefix};

use crate::calls;
use crate::first_waits::FirstWaits;
use crate::one_seat::settle_seat;
use crate::outcomes::add_number;
use crate::threads::{Job, both};
use case_table::cells::Cells;
use shared_book::history::Front;
use shared_book::origin::Origin;
use shared_book::seat::Seat;
use shared_book::shared_book::SharedBook;
use std::alloc::{AllocError, Global};
use std::sync::Wait;
use std::thread::Threads;

/// The first thread serves, and a pause point holds it until the second has edited the mapping and served. Then the
/// first has seen its own call, and those before it; the second all, which both have seen together.
pub fn fronts<L: Origin + Send + Sync, R: Threads + Wait + Sync>(
    rt: &R,
    alloc: Global,
    cells: &mut Cells,
    shared: SharedBook<L>,
    seat: Seat<L>,
) -> Result<(), AllocError>
    requires { 2 ≤ seat.parts }
{
    let mut one = seat;
    let two = one.split(rt, &shared);
    let gate = FirstWaits::new();
    let (one, two) = both(
        rt,
        alloc,
        &shared,
        &shared,
        one,
        two,
        &gate,
        Job::Serve,
        Job::EditAndServe,
    );
    add_fronts(cells, &one, &two);
    let mut seat = one;
    calls::join(rt, &shared, &mut seat, two);
    cells.add("; once it has taken over the second, the first has seen ");
    add_number(cells, seat.front().len());
    cells.add("; ");
    settle_seat(rt, alloc, cells, shared, seat)?;
    gate.held()
}

// How many entries of the history each has seen, and how many both together.
fn add_fronts<L: Origin>(cells: &mut Cells, one: &Seat<L>, two: &Seat<L>) {
    cells.add("the first has seen ");
    add_number(cells, one.front().len());
    cells.add(" entries of the history, the second ");
    add_number(cells, two.front().len());
    cells.add(", both together ");
    add_number(cells, seen_by(one, two).len());
}

// What both have seen: it begins with what each has.
fn seen_by<L: Origin>(one: &Seat<L>, two: &Seat<L>) -> Front<L>
    ensures one { IsPrefix one.now.seen result }
    ensures two { IsPrefix two.now.seen result }
{
    one.front().longer(&two.front())
}
