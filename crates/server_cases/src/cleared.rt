//! Events that a cleared journal dropped are counted, and their receipts let go; and what may be read.

use crate::books::Change;
use crate::calls;
use crate::calls::Asked;
use crate::one_seat::settle_seat;
use crate::outcomes::add_read;
use case_table::cells::Cells;
use shared_book::origin::Origin;
use shared_book::seat::Seat;
use shared_book::shared_book::SharedBook;
use std::alloc::{AllocError, Global};
use std::sync::Wait;

/// Add, serve, serve, clear, serve. Then everything is read.
pub fn cleared<L: Origin, R: Wait>(
    rt: &R,
    alloc: Global,
    cells: &mut Cells,
    shared: SharedBook<L>,
    seat: Seat<L>,
) -> Result<(), AllocError> {
    let mut seat = seat;
    change(rt, alloc, &shared, &mut seat);
    read_all(rt, alloc, cells, &shared, &mut seat)?;
    settle_seat(rt, alloc, cells, shared, seat)
}

fn change<L: Origin, R: Wait>(rt: &R, alloc: Global, shared: &SharedBook<L>, seat: &mut Seat<L>) {
    calls::apply(rt, alloc, shared, seat, Change::Add);
    calls::serve(rt, alloc, shared, seat);
    calls::serve(rt, alloc, shared, seat);
    calls::apply(rt, alloc, shared, seat, Change::Clear);
    calls::serve(rt, alloc, shared, seat);
}

fn read_all<L: Origin, R: Wait>(
    rt: &R,
    alloc: Global,
    cells: &mut Cells,
    shared: &SharedBook<L>,
    seat: &mut Seat<L>,
) -> Result<(), AllocError> {
    for asked in [
        Asked::Mappings,
        Asked::Default,
        Asked::Unknown,
        Asked::Requests,
        Asked::Unmatched,
        Asked::Find,
        Asked::Count,
        Asked::Scenarios,
        Asked::RecordingStatus,
        Asked::Recording,
    ]
    .as_slice()
    {
        add_read(rt, alloc, cells, shared, seat, *asked)?;
    }
    Ok(())
}
