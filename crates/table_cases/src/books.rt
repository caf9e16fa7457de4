//! Books. A row gives what a book is opened with and then calls, one after the other; it answers what each does. Every
//! row is run twice: by the calls that have a name each, and by those that a lock makes (`serve_read`, `apply_shared`)
//! or by `apply`.

use crate::answers::{add_applied, add_error, add_mapping, add_served, event_word, status_word};
use crate::copies::are_copied;
use crate::inputs::input;
use crate::mappings::{id, ready};
use crate::words::add_number;
use case_table::cells::Cells;
use case_table::requests::request_of;
use case_table::row::Row;
use case_table::words::{number, parts};
use error_code::error_code::ErrorCode;
use mock_request::snapshot::Snapshot;
use request_journal::event::Event;
use request_journal::event_memory::EventMemory;
use request_journal::input::{BookAnswer, BookInput};
use request_journal::shared_request::SharedRequest;
use request_match::parsed_request::ParsedRequest;
use request_match::ready_mapping::ReadyMapping;
use std::alloc::{AllocError, Global};
use stub_book::accepted::Accepted;
use stub_book::book::Book;
use stub_book::error::BookError;

/// How the calls of a row are made.
#[derive(Clone, Copy)]
enum Way {
    Named,
    Applied,
}

/// What each call does; both texts where the two ways differ.
pub fn answers(alloc: Global, row: &Row) -> Result<String, AllocError> {
    let named = run(alloc, row, Way::Named)?;
    let applied = run(alloc, row, Way::Applied)?;
    if named.as_str() == applied.as_str() {
        return Ok(named);
    }
    let mut cells = Cells::new(alloc);
    cells.add(named.as_str());
    cells.add_cell("and by apply");
    cells.add(applied.as_str());
    cells.finish()
}

fn run(alloc: Global, row: &Row, way: Way) -> Result<String, AllocError> {
    let mut cells = Cells::new(alloc);
    match opened(alloc, row) {
        Ok(mut book) => {
            for cell in row.given.as_slice() {
                let (word, text) = parts(cell.as_str());
                call(alloc, &mut book, way, word, text, &mut cells)?;
            }
        }
        Err(error) => refused(&mut cells, error)?,
    }
    cells.finish()
}

// `open` gives the opening number.
fn opened(alloc: Global, row: &Row) -> Result<Book, BookError> {
    let mut opening = 0;
    for cell in row.given.as_slice() {
        if let Some(text) = cell.as_str().strip_prefix("open ") {
            opening = number(text);
        }
    }
    Book::new(alloc, defaults(alloc, row)?, opening)
}

// `default` gives one, and `defaults` a number of them, named and found by their index.
fn defaults(alloc: Global, row: &Row) -> Result<Vec<ReadyMapping>, AllocError> {
    let mut defaults = Vec::new(alloc);
    for cell in row.given.as_slice() {
        let (word, text) = parts(cell.as_str());
        match word {
            "default" => defaults.push(ready(alloc, text)?)?,
            "defaults" => push_defaults(alloc, &mut defaults, number(text))?,
            _ => {}
        }
    }
    Ok(defaults)
}

fn push_defaults(
    alloc: Global,
    defaults: &mut Vec<ReadyMapping>,
    count: u64,
) -> Result<(), AllocError> {
    for index in 0..count {
        let words = default_words(alloc, index)?;
        defaults.push(ready(alloc, words.as_str())?)?;
    }
    Ok(())
}

// As `7 GET /7`.
fn default_words(alloc: Global, index: u64) -> Result<String, AllocError> {
    let mut words = Cells::new(alloc);
    add_number(alloc, &mut words, index)?;
    words.add(" GET /");
    add_number(alloc, &mut words, index)?;
    words.finish()
}

fn refused(cells: &mut Cells, error: BookError) -> Result<(), AllocError> {
    if is_memory(error) {
        return Err(AllocError);
    }
    add_error(cells, error);
    Ok(())
}

fn is_memory(error: BookError) -> bool {
    error.code == ErrorCode::OutOfMemory
}

// Appends what a call answers. The cells of the opening answer nothing.
fn call(
    alloc: Global,
    book: &mut Book,
    way: Way,
    word: &str,
    text: &str,
    cells: &mut Cells,
) -> Result<(), AllocError> {
    match word {
        "open" | "default" | "defaults" => Ok(()),
        "serve" => add_serve(alloc, book, way, text, cells),
        _ => {
            if is_counted(alloc, book, word, cells)? || is_shown(alloc, book, word, text, cells)? {
                return Ok(());
            }
            add_change(alloc, book, way, word, text, cells)
        }
    }
}

fn add_serve(
    alloc: Global,
    book: &mut Book,
    way: Way,
    text: &str,
    cells: &mut Cells,
) -> Result<(), AllocError> {
    match serve_again(alloc, book, way, text, cells) {
        Ok(()) => Ok(()),
        Err(error) => refused(cells, error),
    }
}

fn add_change(
    alloc: Global,
    book: &mut Book,
    way: Way,
    word: &str,
    text: &str,
    cells: &mut Cells,
) -> Result<(), AllocError> {
    match change_again(alloc, book, way, word, text, cells) {
        Ok(answer) => add_applied(alloc, cells, &answer),
        Err(error) => refused(cells, error),
    }
}

// Where memory runs out the book is as before, and the same call is made once more.
fn serve_again(
    alloc: Global,
    book: &mut Book,
    way: Way,
    text: &str,
    cells: &mut Cells,
) -> Result<(), BookError> {
    let count = book.event_count();
    match serve(alloc, book, way, text, cells) {
        Ok(()) => Ok(()),
        Err(error) => {
            mark_change(book, count, cells);
            if !is_memory(error) {
                return Err(error);
            }
            serve(alloc, book, way, text, cells)
        }
    }
}

fn change_again(
    alloc: Global,
    book: &mut Book,
    way: Way,
    word: &str,
    text: &str,
    cells: &mut Cells,
) -> Result<BookAnswer, BookError> {
    let count = book.event_count();
    match change(alloc, book, way, word, text) {
        Ok(answer) => Ok(answer),
        Err(error) => {
            mark_change(book, count, cells);
            if !is_memory(error) {
                return Err(error);
            }
            change(alloc, book, way, word, text)
        }
    }
}

fn mark_change(book: &Book, count: u64, cells: &mut Cells) {
    if book.event_count() != count {
        cells.add_cell("changed");
    }
}

// Appends the answer, if there is one.
fn serve(
    alloc: Global,
    book: &mut Book,
    way: Way,
    text: &str,
    cells: &mut Cells,
) -> Result<(), BookError> {
    let request = request_of(alloc, text)?;
    match way {
        Way::Named => add_served(cells, &book.serve(request)?),
        Way::Applied => add_served_read(alloc, book, request, cells)?,
    }
    Ok(())
}

fn add_served_read(
    alloc: Global,
    book: &mut Book,
    request: Snapshot,
    cells: &mut Cells,
) -> Result<(), BookError> {
    let shared = SharedRequest::new(alloc, request)?;
    let kept = shared.clone()?;
    let mut parsed = ParsedRequest::new(alloc, shared.request());
    let memory = EventMemory::new(alloc)?;
    let event = book.serve_read(kept, &mut parsed, memory)?;
    add_event(cells, event.event());
    Ok(())
}

// The answer that the event has.
fn add_event(cells: &mut Cells, event: &Event) {
    match event {
        Event::Serve { answer, .. } => add_served(cells, answer),
        _ => cells.add_cell(event_word(event)),
    }
}

fn change(
    alloc: Global,
    book: &mut Book,
    way: Way,
    word: &str,
    text: &str,
) -> Result<BookAnswer, BookError> {
    let input = input(alloc, word, text)?;
    match way {
        Way::Named => Ok(named(book, input)?.answer),
        Way::Applied => book.apply(input),
    }
}

fn named(book: &mut Book, input: BookInput) -> Result<Accepted, BookError> {
    match input {
        BookInput::Add(mapping) => book.add(mapping),
        BookInput::Edit { id, mapping } => book.edit(id, mapping),
        BookInput::Delete(id) => book.delete(id),
        BookInput::DeleteAll => book.delete_all(),
        BookInput::ResetMappings => book.reset_mappings(),
        BookInput::ResetAll => book.reset_all(),
        BookInput::ResetScenarios => book.reset_scenarios(),
        BookInput::SetScenario { name, state } => book.set_scenario(name, state),
        BookInput::ClearJournal => book.clear_journal(),
        BookInput::StartRecording {
            target,
            captured,
            repeats,
        } => book.start_recording(target, captured, repeats),
        BookInput::Record { serve, exchange } => book.take_exchange(serve, exchange),
        BookInput::StopRecording => book.stop_recording(),
    }
}

// Appends what the word asks of the book, which adds no event. False where it asks for a change.
fn is_shown(
    alloc: Global,
    book: &Book,
    word: &str,
    text: &str,
    cells: &mut Cells,
) -> Result<bool, AllocError> {
    match word {
        "event" => cells.add_cell(event_at(book, number(text))),
        "state" => cells.add_cell(book.scenarios().state(text)),
        "recording" => cells.add_cell(status_word(book.recording().status())),
        "mapping" => add_found(alloc, book, text, cells)?,
        "list" => add_listed(book, cells)?,
        "copies" => cells.add_cell(copies_word(book)?),
        _ => return Ok(false),
    }
    Ok(true)
}

fn event_at(book: &Book, number: u64) -> &'static str {
    match book.history().event(number) {
        Some(shared) => event_word(shared.event()),
        None => "none",
    }
}

fn add_found(alloc: Global, book: &Book, text: &str, cells: &mut Cells) -> Result<(), AllocError> {
    match book.mapping(id(alloc, text)?) {
        Ok(spec) => {
            cells.add_cell("");
            add_mapping(cells, spec.spec());
            Ok(())
        }
        Err(error) => refused(cells, error),
    }
}

fn add_listed(book: &Book, cells: &mut Cells) -> Result<(), AllocError> {
    for mapping in book.mappings()?.as_slice() {
        cells.add_cell("");
        add_mapping(cells, mapping.spec.spec());
    }
    Ok(())
}

fn copies_word(book: &Book) -> Result<&'static str, AllocError> {
    Ok(if are_copied(book)? {
        "same"
    } else {
        "different"
    })
}

// Appends the number that the word asks for, if it asks for one.
fn is_counted(
    alloc: Global,
    book: &Book,
    word: &str,
    cells: &mut Cells,
) -> Result<bool, AllocError> {
    let count = match word {
        "count" => book.event_count(),
        "kept" => book.history().len() as u64,
        "requests" => book.history().requests(alloc)?.len() as u64,
        "unmatched" => book.history().unmatched(alloc)?.len() as u64,
        _ => return Ok(false),
    };
    cells.add_cell("");
    add_number(alloc, cells, count)?;
    Ok(true)
}
