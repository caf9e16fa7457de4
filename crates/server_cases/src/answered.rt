//! A message is answered with the version that was chosen for it, whatever is edited and answered meanwhile.
ghost use Rattle.std.specs.Prelude.{◌≤◌};

use crate::calls;
use crate::message_threads::{Task, book_of, both_answer, site_of};
use crate::one_seat::settle_seat;
use crate::outcomes::add_number;
use case_table::cells::Cells;
use shared_book::origin::Origin;
use shared_book::seat::Seat;
use shared_book::shared_book::SharedBook;
use std::alloc::{AllocError, Global};
use std::sync::Wait;
use std::thread::Threads;

/// The first thread answers a message, and the pause point holds it until the second has edited the mapping and
/// answered the same message.
pub fn answered<L: Origin + Send + Sync, R: Threads + Wait + Sync>(
    rt: &R,
    alloc: Global,
    cells: &mut Cells,
    shared: SharedBook<L>,
    seat: Seat<L>,
) -> Result<(), AllocError>
    requires { 2 ≤ seat.parts }
{
    let mut one = seat;
    let two = one.split(rt, &shared);
    let site = site_of(alloc, shared)?;
    let ((one, first), (two, second)) = both_answer(
        rt,
        alloc,
        &site,
        one,
        two,
        Task::Get,
        Task::EditAndGet,
    );
    cells.add("the first, held until the second, has ");
    add_number(cells, first.ok_or(AllocError)?);
    cells.add(" bytes, the second ");
    add_number(cells, second.ok_or(AllocError)?);
    cells.add("; the numbers that the gate was told add up to ");
    add_number(cells, site.gate.told());
    cells.add("; ");
    let mut seat = one;
    let shared = book_of(site)?;
    calls::join(rt, &shared, &mut seat, two);
    settle_seat(rt, alloc, cells, shared, seat)
}
