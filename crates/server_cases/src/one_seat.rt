//! Settling a book that one seat has all parts of.

use crate::calls;
use crate::outcomes::{add_counts, add_receipts, add_refusal};
use case_table::cells::Cells;
use shared_book::origin::Origin;
use shared_book::seat::Seat;
use shared_book::shared_book::SharedBook;
use std::alloc::{AllocError, Global};
use std::sync::Wait;

/// Adds how many events there are and how many receipts are held, and a word for each of these.
pub fn settle_seat<L: Origin, R: Wait>(
    rt: &R,
    alloc: Global,
    cells: &mut Cells,
    shared: SharedBook<L>,
    seat: Seat<L>,
) -> Result<(), AllocError> {
    let seats = calls::list(alloc, seat)?;
    settle_seats(rt, alloc, cells, shared, seats);
    Ok(())
}

/// The same of seats that have all parts together.
pub fn settle_seats<L: Origin, R: Wait>(
    rt: &R,
    alloc: Global,
    cells: &mut Cells,
    shared: SharedBook<L>,
    seats: Vec<Seat<L>>,
) {
    match calls::settled(rt, alloc, shared, seats) {
        Ok(settled) => {
            add_counts(cells, &settled);
            cells.add(":");
            add_receipts(cells, &settled);
        }
        Err(error) => add_refusal(cells, &error.reason, error.seats.len()),
    }
}
