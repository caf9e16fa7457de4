//! Two threads with a seat each.

use crate::books::Change;
use crate::calls;
use crate::first_waits::FirstWaits;
use shared_book::gate::Gate;
use shared_book::origin::Origin;
use shared_book::seat::Seat;
use shared_book::shared_book::SharedBook;
use std::alloc::Global;
use std::sync::Wait;
use std::thread;
use std::thread::Threads;

/// What a thread does.
#[derive(Clone, Copy)]
pub enum Job {
    /// Serves 500 requests, and makes 10 edits.
    Many,
    /// Serves, and calls the pause point.
    Serve,
    /// Once the pause point was called, edits, serves, and calls the pause point.
    EditAndServe,
}

/// The seats, once both threads have done their job.
pub fn both<L: Origin + Send + Sync, R: Threads + Wait + Sync>(
    rt: &R,
    alloc: Global,
    book: &SharedBook<L>,
    other: &SharedBook<L>,
    one: Seat<L>,
    two: Seat<L>,
    gate: &FirstWaits,
    first: Job,
    second: Job,
) -> (Seat<L>, Seat<L>) {
    thread::join(
        rt,
        move || work(rt, alloc, book, one, gate, first),
        move || work(rt, alloc, other, two, gate, second),
    )
}

fn work<L: Origin, R: Wait>(
    rt: &R,
    alloc: Global,
    shared: &SharedBook<L>,
    seat: Seat<L>,
    gate: &FirstWaits,
    job: Job,
) -> Seat<L> {
    let mut seat = seat;
    match job {
        Job::Many => many(rt, alloc, shared, &mut seat),
        Job::Serve => {
            calls::serve(rt, alloc, shared, &mut seat);
            gate.between_choice_and_render(1);
        }
        Job::EditAndServe => {
            gate.wait_for(1);
            calls::apply(rt, alloc, shared, &mut seat, Change::Edit);
            calls::serve(rt, alloc, shared, &mut seat);
            gate.between_choice_and_render(3);
        }
    }
    seat
}

fn many<L: Origin, R: Wait>(rt: &R, alloc: Global, shared: &SharedBook<L>, seat: &mut Seat<L>) {
    for index in 0..500u32 {
        if index % 50 == 0 {
            calls::apply(rt, alloc, shared, seat, Change::Edit);
        }
        calls::serve(rt, alloc, shared, seat);
    }
}
