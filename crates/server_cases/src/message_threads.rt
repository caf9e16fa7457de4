//! Two threads that answer messages of one site, each by a seat of its own.

use crate::answers::answer_to;
use crate::first_waits::FirstWaits;
use crate::messages::Asked;
use crate::no_clock::NoClock;
use admin_routes::router::AdminRoutes;
use answering::site::Site;
use shared_book::gate::Gate;
use shared_book::origin::Origin;
use shared_book::seat::Seat;
use shared_book::shared_book::SharedBook;
use std::alloc::{AllocError, Global};
use std::sync::Wait;
use std::thread;
use std::thread::Threads;
use stub_response::limits::Limits;
use template_tree::escape::Escape;

/// What a thread answers.
#[derive(Clone, Copy)]
pub enum Task {
    /// `GET /a`.
    Get,
    /// Once the pause point was called, an edit and `GET /a`.
    EditAndGet,
    /// `GET /none`, `GET /a` 500 times, and 10 edits.
    Many,
}

/// A site of the book, with a pause point that holds its first call until its second.
pub fn site_of<L: Origin>(
    alloc: Global,
    book: SharedBook<L>,
) -> Result<Site<L, FirstWaits, NoClock>, AllocError> {
    Ok(Site {
        book,
        limits: Limits::usual(),
        escape: Escape::Off,
        gate: FirstWaits::new(),
        clock: NoClock,
        turns: 0,
        routes: AdminRoutes::new(alloc)?,
        page: None,
    })
}

/// The book of a site. The error says that its pause point gave up.
pub fn book_of<L: Origin>(site: Site<L, FirstWaits, NoClock>) -> Result<SharedBook<L>, AllocError> {
    let Site {
        book,
        limits: _limits,
        escape: _escape,
        gate,
        clock: _clock,
        turns: _turns,
        routes: _routes,
        page: _page,
    } = site;
    gate.held()?;
    Ok(book)
}

/// The seats, and how long the last answer of each thread is, if all have the status that they are to have.
pub fn both_answer<L: Origin + Send + Sync, R: Threads + Wait + Sync>(
    rt: &R,
    alloc: Global,
    site: &Site<L, FirstWaits, NoClock>,
    one: Seat<L>,
    two: Seat<L>,
    first: Task,
    second: Task,
) -> ((Seat<L>, Option<u64>), (Seat<L>, Option<u64>)) {
    thread::join(
        rt,
        move || answer_all(rt, alloc, site, one, first),
        move || answer_all(rt, alloc, site, two, second),
    )
}

fn answer_all<L: Origin, R: Wait>(
    rt: &R,
    alloc: Global,
    site: &Site<L, FirstWaits, NoClock>,
    seat: Seat<L>,
    task: Task,
) -> (Seat<L>, Option<u64>) {
    let mut seat = seat;
    let length = match task {
        Task::Get => length_of(rt, alloc, site, &mut seat, Asked::Get),
        Task::EditAndGet => edit_and_get(rt, alloc, site, &mut seat),
        Task::Many => many(rt, alloc, site, &mut seat),
    };
    if length.is_none() {
        // The other thread need not wait for it.
        site.gate.between_choice_and_render(0);
    }
    (seat, length)
}

fn edit_and_get<L: Origin, R: Wait>(
    rt: &R,
    alloc: Global,
    site: &Site<L, FirstWaits, NoClock>,
    seat: &mut Seat<L>,
) -> Option<u64> {
    site.gate.wait_for(1);
    length_of(rt, alloc, site, seat, Asked::Edit)?;
    length_of(rt, alloc, site, seat, Asked::Get)
}

fn many<L: Origin, R: Wait>(
    rt: &R,
    alloc: Global,
    site: &Site<L, FirstWaits, NoClock>,
    seat: &mut Seat<L>,
) -> Option<u64> {
    let mut last = Some(length_of(rt, alloc, site, seat, Asked::Missing)?);
    for index in 0..500u32 {
        if index % 50 == 0 {
            length_of(rt, alloc, site, seat, Asked::Edit)?;
        }
        last = Some(length_of(rt, alloc, site, seat, Asked::Get)?);
    }
    last
}

/// How long the answer is, if its status is the one that is wanted.
pub fn length_of<L: Origin, R: Wait>(
    rt: &R,
    alloc: Global,
    site: &Site<L, FirstWaits, NoClock>,
    seat: &mut Seat<L>,
    asked: Asked,
) -> Option<u64> {
    let answer = answer_to(rt, alloc, site, seat, asked).ok()?;
    if answer.status == asked.status() {
        Some(answer.length)
    } else {
        None
    }
}
