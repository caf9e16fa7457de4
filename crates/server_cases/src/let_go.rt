//! Seats that let go of events that a cleared journal dropped.
ghost use Rattle.std.specs.Prelude.{◌≤◌};

use crate::books::Change;
use crate::calls;
use crate::one_seat::settle_seats;
use crate::outcomes::add_number;
use case_table::cells::Cells;
use shared_book::origin::Origin;
use shared_book::seat::Seat;
use shared_book::shared_book::SharedBook;
use std::alloc::{AllocError, Global};
use std::sync::Wait;

/// Three seats serve a request each, and the second is joined to the first, which then clears the journal. The third
/// makes no more calls: it alone holds the receipt of its request.
pub fn let_go<L: Origin, R: Wait>(
    rt: &R,
    alloc: Global,
    cells: &mut Cells,
    shared: SharedBook<L>,
    seat: Seat<L>,
) -> Result<(), AllocError>
    requires { 3 ≤ seat.parts }
{
    let mut first = seat;
    let mut second = first.split(rt, &shared);
    let mut third = first.split(rt, &shared);
    calls::serve(rt, alloc, &shared, &mut first);
    calls::serve(rt, alloc, &shared, &mut second);
    calls::serve(rt, alloc, &shared, &mut third);
    calls::join(rt, &shared, &mut first, second);
    calls::apply(rt, alloc, &shared, &mut first, Change::Clear);
    add_number(cells, first.receipts().len() as u64);
    cells.add(" held by the first; ");
    let mut seats = calls::list(alloc, first)?;
    seats.push(third)?;
    settle_seats(rt, alloc, cells, shared, seats);
    Ok(())
}
