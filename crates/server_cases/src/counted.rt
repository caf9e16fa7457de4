//! Many messages that two threads answer, and an admin call that counts them.
ghost use Rattle.std.specs.Prelude.{◌≤◌};

use crate::calls;
use crate::message_threads::{Task, book_of, both_answer, length_of, site_of};
use crate::messages::Asked;
use crate::outcomes::{add_counts, add_number, add_refusal, add_told};
use admin_answers::admin_answer::AdminAnswer;
use admin_answers::answer::answer_admin;
use admin_answers::listing::Listing;
use admin_routes::admin::admin_with;
use admin_routes::call::AdminCall;
use admin_routes::router::AdminRoutes;
use case_table::cells::Cells;
use shared_book::origin::Origin;
use shared_book::seat::Seat;
use shared_book::shared_book::SharedBook;
use std::alloc::{AllocError, Global};
use std::sync::Wait;
use std::thread::Threads;
use template_tree::escape::Escape;

/// Each thread answers 500 requests, one that no mapping answers, and 10 edits. Then a third seat edits once more and
/// counts the requests by an admin call, each seat takes over the next, and 1,023 events are settled.
pub fn counted<L: Origin + Send + Sync, R: Threads + Wait + Sync>(
    rt: &R,
    alloc: Global,
    cells: &mut Cells,
    shared: SharedBook<L>,
    seat: Seat<L>,
) -> Result<(), AllocError>
    requires { 3 ≤ seat.parts }
{
    let mut one = seat;
    let two = one.split(rt, &shared);
    let three = one.split(rt, &shared);
    let site = site_of(alloc, shared)?;
    let ((one, first), (two, second)) = both_answer(
        rt,
        alloc,
        &site,
        one,
        two,
        Task::Many,
        Task::Many,
    );
    first.and(second).ok_or(AllocError)?;
    cells.add("gate called ");
    add_number(cells, site.gate.count());
    cells.add(" times, the first held until the second; ");
    let mut seat = three;
    length_of(rt, alloc, &site, &mut seat, Asked::Edit).ok_or(AllocError)?;
    add_count(rt, alloc, cells, &site.book, &mut seat)?;
    let told = site.gate.told();
    settle_all(rt, alloc, cells, book_of(site)?, told, [one, two, seat])
}

// Each seat takes over the next, and the first is settled.
fn settle_all<L: Origin, R: Wait>(
    rt: &R,
    alloc: Global,
    cells: &mut Cells,
    shared: SharedBook<L>,
    told: u64,
    seats: [Seat<L>; 3],
) -> Result<(), AllocError> {
    let [one, two, three] = seats;
    let mut two = two;
    calls::join(rt, &shared, &mut two, three);
    let mut one = one;
    calls::join(rt, &shared, &mut one, two);
    let seats = calls::list(alloc, one)?;
    match calls::settled(rt, alloc, shared, seats) {
        Ok(settled) => {
            add_counts(cells, &settled);
            add_told(cells, told, &settled);
        }
        Err(error) => add_refusal(cells, &error.reason, error.seats.len()),
    }
    Ok(())
}

// What the admin call answers.
fn add_count<L: Origin, R: Wait>(
    rt: &R,
    alloc: Global,
    cells: &mut Cells,
    shared: &SharedBook<L>,
    seat: &mut Seat<L>,
) -> Result<(), AllocError> {
    let call = call_of(alloc, "POST", "/__admin/requests/count", "{}")?;
    match answer_admin(rt, alloc, shared, seat, call)
        .ok()
        .ok_or(AllocError)?
    {
        AdminAnswer::Listed(listing) => add_piece(alloc, cells, listing)?,
        AdminAnswer::Whole(_reply) => cells.add("no list"),
    }
    cells.add("; ");
    Ok(())
}

fn call_of(alloc: Global, method: &str, url: &str, body: &str) -> Result<AdminCall, AllocError> {
    let routes = AdminRoutes::new(alloc)?;
    let call = admin_with(alloc, &routes, method, url, body.as_bytes(), Escape::Off);
    call.ok().ok_or(AllocError)
}

// The text of a count is one piece.
fn add_piece(alloc: Global, cells: &mut Cells, listing: Listing) -> Result<(), AllocError> {
    let mut listing = listing;
    if let Some(piece) = listing.next(alloc)? {
        cells.add(piece.as_str());
    }
    Ok(())
}
