//! Calls on a shared book. Each is made once more where it is refused: then memory ran out, and book and seat are as
//! they were, so that nothing differs after the second call. One that is refused again is missing in what is counted.

use crate::books;
use crate::books::Change;
use mapping_model::mapping_id::MappingId;
use mapping_model::request_spec::RequestSpec;
use request_journal::read::BookRead;
use request_match::request_matcher::RequestMatcher;
use shared_book::book_read::Reading;
use shared_book::origin::Origin;
use shared_book::seat::Seat;
use shared_book::settle::{SettleError, settle};
use shared_book::settled::{SettleRefusal, Settled};
use shared_book::shared_book::SharedBook;
use std::alloc::{AllocError, Global};
use std::sync::Wait;

pub fn serve<L: Origin, R: Wait>(
    rt: &R,
    alloc: Global,
    shared: &SharedBook<L>,
    seat: &mut Seat<L>,
) {
    if !served(rt, alloc, shared, seat) {
        let _accepted = served(rt, alloc, shared, seat);
    }
}

// Whether it is accepted.
fn served<L: Origin, R: Wait>(
    rt: &R,
    alloc: Global,
    shared: &SharedBook<L>,
    seat: &mut Seat<L>,
) -> bool {
    match books::request(alloc) {
        Ok(request) => seat.serve(rt, shared, request).is_ok(),
        Err(_error) => false,
    }
}

pub fn apply<L: Origin, R: Wait>(
    rt: &R,
    alloc: Global,
    shared: &SharedBook<L>,
    seat: &mut Seat<L>,
    change: Change,
) {
    if !applied(rt, alloc, shared, seat, change) {
        let _accepted = applied(rt, alloc, shared, seat, change);
    }
}

// Whether it is accepted.
fn applied<L: Origin, R: Wait>(
    rt: &R,
    alloc: Global,
    shared: &SharedBook<L>,
    seat: &mut Seat<L>,
    change: Change,
) -> bool {
    match books::input(alloc, change) {
        Ok(input) => seat.apply(rt, shared, input).is_ok(),
        Err(_error) => false,
    }
}

/// What may be read.
#[derive(Clone, Copy)]
pub enum Asked {
    Mappings,
    Default,
    Unknown,
    Requests,
    Unmatched,
    Find,
    Count,
    Scenarios,
    RecordingStatus,
    Recording,
}

pub fn read<L: Origin, R: Wait>(
    rt: &R,
    alloc: Global,
    shared: &SharedBook<L>,
    seat: &mut Seat<L>,
    asked: Asked,
) -> Result<Reading, AllocError> {
    match read_once(rt, alloc, shared, seat, asked) {
        Ok(reading) => Ok(reading),
        Err(_error) => read_once(rt, alloc, shared, seat, asked),
    }
}

fn read_once<L: Origin, R: Wait>(
    rt: &R,
    alloc: Global,
    shared: &SharedBook<L>,
    seat: &mut Seat<L>,
    asked: Asked,
) -> Result<Reading, AllocError> {
    seat.read(rt, shared, question(alloc, asked)?)
}

fn question(alloc: Global, asked: Asked) -> Result<BookRead, AllocError> {
    Ok(match asked {
        Asked::Mappings => BookRead::Mappings,
        Asked::Default => BookRead::Mapping(MappingId::of_default(alloc, 0)?),
        Asked::Unknown => BookRead::Mapping(MappingId::of_default(alloc, 1)?),
        Asked::Requests => BookRead::Requests,
        Asked::Unmatched => BookRead::Unmatched,
        Asked::Find => BookRead::Find(any_request(alloc)?),
        Asked::Count => BookRead::Count(any_request(alloc)?),
        Asked::Scenarios => BookRead::Scenarios,
        Asked::RecordingStatus => BookRead::RecordingStatus,
        Asked::Recording => BookRead::Recording,
    })
}

// A matcher that every request meets.
fn any_request(alloc: Global) -> Result<RequestMatcher, AllocError> {
    let matcher = RequestMatcher::build(alloc, &RequestSpec::any(alloc));
    matcher.ok().ok_or(AllocError)
}

pub fn join<L: Origin, R: Wait>(
    rt: &R,
    shared: &SharedBook<L>,
    seat: &mut Seat<L>,
    other: Seat<L>,
) {
    if let Err(other) = seat.join(rt, shared, other) {
        let _joined = seat.join(rt, shared, other);
    }
}

/// A list of the seat, with room for another.
pub fn list<L: Origin>(alloc: Global, seat: Seat<L>) -> Result<Vec<Seat<L>>, AllocError> {
    let mut seats = Vec::with_capacity(alloc, 2)?;
    seats.push(seat)?;
    Ok(seats)
}

/// Settles a book with these seats.
pub fn settled<L: Origin, R: Wait>(
    rt: &R,
    alloc: Global,
    shared: SharedBook<L>,
    seats: Vec<Seat<L>>,
) -> Result<Settled, SettleError<L>> {
    match settle(rt, alloc, shared, seats) {
        Ok(settled) => Ok(settled),
        Err(error) => match error.reason {
            SettleRefusal::OutOfMemory => settle(rt, alloc, error.shared, error.seats),
            _ => Err(error),
        },
    }
}
