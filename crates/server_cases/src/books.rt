//! Books to share, and calls to make on them.

use case_table::mappings::mapping;
use mapping_model::mapping_id::MappingId;
use mapping_model::response_spec::{Body, Content};
use mock_request::snapshot::Snapshot;
use request_journal::event::{Event, ServeAnswer};
use request_journal::input::BookInput;
use shared_book::receipt::Receipt;
use std::alloc::{AllocError, Global};
use stub_book::book::Book;

const FIRST: &str =
    "{\"request\":{\"method\":\"GET\",\"url\":\"/a\"},\"response\":{\"body\":\"v1\"}}";

const SECOND: &str =
    "{\"request\":{\"method\":\"GET\",\"url\":\"/a\"},\"response\":{\"body\":\"v2\"}}";

const THIRD: &str = "{\"scenarioName\":\"s\",\"newScenarioState\":\"two\",
\"request\":{\"method\":\"GET\",\"url\":\"/a\"},\"response\":{\"body\":\"v3\"}}";

/// A change of a book.
#[derive(Clone, Copy)]
pub enum Change {
    /// The default mapping becomes version `v2`.
    Edit,
    /// A mapping of version `v3`, which moves the scenario `s` to `two`.
    Add,
    Clear,
}

/// The last opening number of a book, which then has room for one event.
pub const LAST: u64 = 9_223_372_036_854_775_807;

/// A book with one default mapping, of version `v1`, which answers `GET /a`.
pub fn book(alloc: Global, opening: u64) -> Result<Book, AllocError> {
    let mut mappings = Vec::new(alloc);
    mappings.push(mapping(alloc, FIRST)?)?;
    let book = Book::new(alloc, mappings, opening);
    book.ok().ok_or(AllocError)
}

pub fn input(alloc: Global, change: Change) -> Result<BookInput, AllocError> {
    Ok(match change {
        Change::Edit => BookInput::Edit {
            id: MappingId::of_default(alloc, 0)?,
            mapping: mapping(alloc, SECOND)?,
        },
        Change::Add => BookInput::Add(mapping(alloc, THIRD)?),
        Change::Clear => BookInput::ClearJournal,
    })
}

/// `GET /a`.
pub fn request(alloc: Global) -> Result<Snapshot, AllocError> {
    let headers = Vec::new(alloc);
    let request = Snapshot::new(alloc, "GET", "/a", headers.as_slice(), "".as_bytes());
    request.ok().ok_or(AllocError)
}

/// Whether the receipt is of a request that a mapping answers.
pub fn is_stubbed(receipt: &Receipt) -> bool {
    match receipt.event.event() {
        Event::Serve { answer, .. } => matches!(answer, ServeAnswer::Stub(_)),
        _ => false,
    }
}

/// What a receipt's event is, in a word: of a request, the version that it is answered with.
pub fn word_of(receipt: &Receipt) -> &str {
    match receipt.event.event() {
        Event::Serve { answer, .. } => version(answer),
        Event::Add(_) => "add",
        Event::Edit { .. } => "edit",
        Event::ClearJournal => "clear",
        _ => "other",
    }
}

fn version(answer: &ServeAnswer) -> &str {
    let ServeAnswer::Stub(captured) = answer else {
        return "none";
    };
    match &captured.mapping.spec.spec().response.content {
        Content::Plain {
            body: Body::Text(text),
            ..
        } => text.as_str(),
        _ => "other",
    }
}
