//! A receipt keeps the version that was chosen, whatever is edited meanwhile.
ghost use Rattle.std.specs.Prelude.{◌≤◌};

use crate::books::word_of;
use crate::calls;
use crate::first_waits::FirstWaits;
use crate::one_seat::settle_seat;
use crate::threads::{Job, both};
use case_table::cells::Cells;
use shared_book::origin::Origin;
use shared_book::seat::Seat;
use shared_book::shared_book::SharedBook;
use std::alloc::{AllocError, Global};
use std::sync::Wait;
use std::thread::Threads;

/// The first thread serves, and a pause point holds it until the second has edited the mapping and served.
pub fn versions<L: Origin + Send + Sync, R: Threads + Wait + Sync>(
    rt: &R,
    alloc: Global,
    cells: &mut Cells,
    shared: SharedBook<L>,
    seat: Seat<L>,
) -> Result<(), AllocError>
    requires { 2 ≤ seat.parts }
{
    let mut one = seat;
    let two = one.split(rt, &shared);
    let gate = FirstWaits::new();
    let (one, two) = both(
        rt,
        alloc,
        &shared,
        &shared,
        one,
        two,
        &gate,
        Job::Serve,
        Job::EditAndServe,
    );
    cells.add("the first, held until the second, has ");
    cells.add(last_word(&one));
    cells.add(", the second ");
    cells.add(last_word(&two));
    cells.add("; ");
    let mut seat = one;
    calls::join(rt, &shared, &mut seat, two);
    settle_seat(rt, alloc, cells, shared, seat)?;
    gate.held()
}

fn last_word<L: Origin>(seat: &Seat<L>) -> &str {
    match seat.receipts().last() {
        Some(receipt) => word_of(receipt),
        None => "nothing",
    }
}
