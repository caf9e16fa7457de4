//! Copies of what a book lends.

use book_history::history::History;
use request_journal::event::Event;
use request_journal::shared_event::SharedEvent;
use std::alloc::AllocError;
use stub_book::book::Book;

/// Whether copies of the book's history, scenarios and recording are as what they are copied from, and a checkpoint of
/// the copied history keeps its number and drops its events.
pub fn are_copied(book: &Book) -> Result<bool, AllocError> {
    let history = book.history();
    let _scenarios = book.scenarios().try_clone()?;
    let recording = book.recording().try_clone()?;
    let mut copy = history.try_clone()?;
    let mut are_same = copy.last_number() == history.last_number()
        && copy.len() == history.len()
        && recording.status() == book.recording().status();
    for index in 0..history.len() {
        let number = history.last_number().saturating_sub(index as u64);
        are_same &= is_copied(history, &copy, number)?;
    }
    copy.checkpoint();
    Ok(are_same && copy.last_number() == history.last_number() && copy.len() == 0)
}

// Whether the two histories have the same event of this number, and copies of it are the same.
fn is_copied(history: &History, copy: &History, number: u64) -> Result<bool, AllocError> {
    let Some(event) = history.event(number) else {
        return Ok(copy.event(number).is_none());
    };
    match copy.event(number) {
        Some(other) => Ok(event.same(other) && is_shared(event)? && is_cloned(event.event())?),
        None => Ok(false),
    }
}

fn is_shared(event: &SharedEvent) -> Result<bool, AllocError> {
    let copy = event.clone()?;
    Ok(event.same(&copy))
}

fn is_cloned(event: &Event) -> Result<bool, AllocError> {
    let copy = event.try_clone()?;
    Ok(copy.same(event))
}
