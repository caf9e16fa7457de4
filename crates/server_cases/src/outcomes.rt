//! What calls and settled books give, in words.

use crate::books::{is_stubbed, word_of};
use crate::calls;
use crate::calls::Asked;
use case_table::cells::Cells;
use shared_book::book_read::ReadAnswer;
use shared_book::origin::Origin;
use shared_book::seat::Seat;
use shared_book::settle::SettleError;
use shared_book::settled::{SettleRefusal, Settled};
use shared_book::shared_book::SharedBook;
use std::alloc::{AllocError, Global};
use std::sync::Wait;

pub fn add_number(cells: &mut Cells, number: u64) {
    cells.add_number(u32::try_from(number).unwrap_or(u32::MAX));
}

/// Reads, and adds how many items the answer has, and the number of the last event that it knows; of scenarios also the
/// state of `s`.
pub fn add_read<L: Origin, R: Wait>(
    rt: &R,
    alloc: Global,
    cells: &mut Cells,
    shared: &SharedBook<L>,
    seat: &mut Seat<L>,
    asked: Asked,
) -> Result<(), AllocError> {
    let reading = calls::read(rt, alloc, shared, seat, asked)?;
    add_number(cells, size_of(&reading.answer) as u64);
    cells.add("@");
    add_number(cells, reading.number);
    cells.add(" ");
    if let ReadAnswer::Scenarios { states, .. } = &reading.answer {
        cells.add(states.state("s"));
        cells.add(" ");
    }
    Ok(())
}

fn size_of(answer: &ReadAnswer) -> usize {
    match answer {
        ReadAnswer::Mappings(mappings) => mappings.len(),
        ReadAnswer::Mapping(mapping) => usize::from(mapping.is_some()),
        ReadAnswer::Requests(requests) | ReadAnswer::Unmatched(requests) => requests.len(),
        ReadAnswer::Find { requests, .. } | ReadAnswer::Count { requests, .. } => requests.len(),
        ReadAnswer::Scenarios { mappings, .. } => mappings.len(),
        ReadAnswer::RecordingStatus(_status) => 1,
        ReadAnswer::Recording(recording) => usize::from(recording.session().is_some()),
    }
}

/// How many events and receipts there are, or why there are none.
pub fn add_outcome<L: Origin>(cells: &mut Cells, outcome: &Result<Settled, SettleError<L>>) {
    match outcome {
        Ok(settled) => add_counts(cells, settled),
        Err(error) => add_refusal(cells, &error.reason, error.seats.len()),
    }
}

pub fn add_counts(cells: &mut Cells, settled: &Settled) {
    add_number(cells, settled.events);
    cells.add(" events, ");
    add_number(cells, settled.receipts.len() as u64);
    cells.add(" receipts");
}

/// Whether the numbers that a pause point was told add up to those of the requests that a mapping answers.
pub fn add_told(cells: &mut Cells, told: u64, settled: &Settled) {
    cells.add(if told == stubbed(settled) {
        "; the gate was told their numbers"
    } else {
        "; the gate was told other numbers"
    });
}

// What the numbers of the requests add up to that a mapping answers.
fn stubbed(settled: &Settled) -> u64 {
    let mut sum: u64 = 0;
    for receipt in settled.receipts.as_slice() {
        if is_stubbed(receipt) {
            sum = sum.wrapping_add(receipt.number);
        }
    }
    sum
}

/// Why seats aren't settled, and how many of them came back.
pub fn add_refusal(cells: &mut Cells, reason: &SettleRefusal, seats: usize) {
    cells.add(match reason {
        SettleRefusal::SeatsMissing => "seats missing",
        SettleRefusal::Mismatch { .. } => "mismatch",
        SettleRefusal::OutOfMemory => "out of memory",
    });
    cells.add(", ");
    add_number(cells, seats as u64);
    cells.add(" handed back");
}

/// A word for each receipt.
pub fn add_receipts(cells: &mut Cells, settled: &Settled) {
    for receipt in settled.receipts.as_slice() {
        cells.add(" ");
        cells.add(word_of(receipt));
    }
}
