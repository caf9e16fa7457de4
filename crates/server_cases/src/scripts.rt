//! Two scripts, and a pause point.
ghost use Rattle.std.specs.Prelude.{◌≤◌};

use crate::books;
use crate::books::Change;
use crate::first_waits::FirstWaits;
use crate::outcomes::{add_counts, add_number, add_told};
use case_table::cells::Cells;
use shared_book::origin::Origin;
use shared_book::script::{Call, Script, run_scripts};
use shared_book::seat::Seat;
use shared_book::settled::Settled;
use shared_book::shared_book::SharedBook;
use std::alloc::{AllocError, Global};
use std::sync::Wait;
use std::thread::Threads;

/// Each script has 500 requests and 10 edits.
pub fn scripts<L: Origin + Send + Sync, R: Threads + Wait + Sync>(
    rt: &R,
    alloc: Global,
    cells: &mut Cells,
    shared: SharedBook<L>,
    seat: Seat<L>,
) -> Result<(), AllocError>
    requires { 3 ≤ seat.parts }
{
    let gate = FirstWaits::new();
    let first = script(alloc)?;
    let second = script(alloc)?;
    match run_scripts(rt, alloc, shared, seat, first, second, &gate) {
        Ok(settled) => add_played(cells, &gate, &settled),
        Err(_error) => Err(AllocError),
    }
}

// A call that runs out of memory is refused, and its script goes on: then all is played again.
fn add_played(cells: &mut Cells, gate: &FirstWaits, settled: &Settled) -> Result<(), AllocError> {
    if settled.events != 1020 {
        return Err(AllocError);
    }
    cells.add("gate called ");
    add_number(cells, gate.count());
    cells.add(" times, the first held until the second; ");
    add_counts(cells, settled);
    add_told(cells, gate.told(), settled);
    gate.held()
}

fn script(alloc: Global) -> Result<Script, AllocError> {
    let mut calls = Vec::new(alloc);
    for index in 0..500u32 {
        if index % 50 == 0 {
            calls.push(Call::Apply(books::input(alloc, Change::Edit)?))?;
        }
        calls.push(Call::Serve(books::request(alloc)?))?;
    }
    Ok(Script { calls })
}
