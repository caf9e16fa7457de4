//! A message that a full history can't take.

use crate::answers::answer_to;
use crate::books::LAST;
use crate::calls;
use crate::messages::Asked;
use crate::no_clock::NoClock;
use crate::outcomes::{add_number, add_receipts, add_refusal};
use admin_routes::router::AdminRoutes;
use answering::site::Site;
use case_table::cells::Cells;
use shared_book::gate::NoGate;
use shared_book::origin::Origin;
use shared_book::seat::Seat;
use shared_book::shared_book::SharedBook;
use std::alloc::{AllocError, Global};
use std::sync::Wait;
use stub_response::limits::Limits;
use template_tree::escape::Escape;

/// Answers the same message twice, over a book that has room for one event.
pub fn full<L: Origin, R: Wait>(
    rt: &R,
    alloc: Global,
    cells: &mut Cells,
    shared: SharedBook<L>,
    seat: Seat<L>,
) -> Result<(), AllocError> {
    let mut seat = seat;
    let site = Site {
        book: shared,
        limits: Limits::usual(),
        escape: Escape::Off,
        gate: NoGate,
        clock: NoClock,
        turns: 0,
        routes: AdminRoutes::new(alloc)?,
        page: None,
    };
    add_answer(rt, alloc, cells, &site, &mut seat)?;
    cells.add(", then ");
    add_answer(rt, alloc, cells, &site, &mut seat)?;
    cells.add("; ");
    let Site {
        book,
        limits: _limits,
        escape: _escape,
        gate: _gate,
        clock: _clock,
        turns: _turns,
        routes: _routes,
        page: _page,
    } = site;
    add_settled(rt, alloc, cells, book, seat)
}

// How many events there are beyond the opening, and a word for each.
fn add_settled<L: Origin, R: Wait>(
    rt: &R,
    alloc: Global,
    cells: &mut Cells,
    book: SharedBook<L>,
    seat: Seat<L>,
) -> Result<(), AllocError> {
    let seats = calls::list(alloc, seat)?;
    match calls::settled(rt, alloc, book, seats) {
        Ok(settled) => {
            add_number(cells, settled.events.saturating_sub(LAST));
            cells.add(" event:");
            add_receipts(cells, &settled);
        }
        Err(error) => add_refusal(cells, &error.reason, error.seats.len()),
    }
    Ok(())
}

// The status, and how many bytes the body has.
fn add_answer<L: Origin, R: Wait>(
    rt: &R,
    alloc: Global,
    cells: &mut Cells,
    site: &Site<L, NoGate, NoClock>,
    seat: &mut Seat<L>,
) -> Result<(), AllocError> {
    let answer = answer_to(rt, alloc, site, seat, Asked::Get)?;
    cells.add_number(u32::from(answer.status));
    cells.add(" with ");
    add_number(cells, answer.length);
    cells.add(" bytes");
    Ok(())
}
