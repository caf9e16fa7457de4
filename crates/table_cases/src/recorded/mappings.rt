//! Keys of exchanges, and the mappings that recordings give.

use crate::recorded::exchanges::{Given, read};
use case_table::cells::Cells;
use case_table::octets::add_octets;
use case_table::row::Row;
use mapping_model::body_pattern::BodyPattern;
use mapping_model::mapping_spec::MappingSpec;
use mapping_model::named_matcher::NamedMatcher;
use mapping_model::request_spec::RequestSpec;
use mapping_model::response_spec::{Body, Content, ResponseSpec};
use mapping_model::url_spec::UrlSpec;
use plain_text::text::Text;
use recorded_stubs::stubs::{Recorded, stubs_of};
use recorder::exchange::SharedExchange;
use recorder::key::{Key, key_of};
use std::alloc::{AllocError, Global};
use value_match::value_spec::ValueSpec;

/// The key of the row's first exchange: method, URL, captured headers and body.
pub fn key(alloc: Global, row: &Row) -> Result<String, AllocError> {
    let given = read(alloc, row)?;
    let mut cells = Cells::new(alloc);
    if let Some(shared) = given.exchanges.get(0) {
        let key = key_of(alloc, shared.exchange(), given.captured.as_slice())?;
        add_key(alloc, &mut cells, &key)?;
    }
    cells.finish()
}

fn add_key(alloc: Global, cells: &mut Cells, key: &Key<'_>) -> Result<(), AllocError> {
    cells.add_cell(key.method());
    cells.add_cell(key.url());
    for header in key.headers() {
        add_part(alloc, cells, header.0, header.1)?;
    }
    add_part(alloc, cells, "body", key.body())
}

// Appends a cell: the word, and the bytes after a blank.
fn add_part(alloc: Global, cells: &mut Cells, word: &str, bytes: &[u8]) -> Result<(), AllocError> {
    cells.add_cell(word);
    cells.add(" ");
    add_octets(alloc, cells, bytes)
}

/// Whether the row's first two exchanges are the same, and whether their keys are equal. Copies are compared.
pub fn same(alloc: Global, row: &Row) -> Result<String, AllocError> {
    let given = read(alloc, row)?;
    let mut cells = Cells::new(alloc);
    if let Some(first) = given.exchanges.get(0) {
        if let Some(second) = given.exchanges.get(1) {
            let (first, second) = (first.clone()?, whole_copy(alloc, second)?);
            cells.add_cell(if first.same(&second) {
                "same"
            } else {
                "different"
            });
            cells.add_cell(if have_same_key(alloc, &first, &second, given.captured.as_slice())? {
                "same key"
            } else {
                "different keys"
            });
        }
    }
    cells.finish()
}

// A copy of the exchange itself, where `try_clone` of a shared one shares it.
fn whole_copy(alloc: Global, shared: &SharedExchange) -> Result<SharedExchange, AllocError> {
    SharedExchange::new(alloc, shared.exchange().try_clone()?)
}

fn have_same_key(
    alloc: Global,
    first: &SharedExchange,
    second: &SharedExchange,
    captured: &[Text],
) -> Result<bool, AllocError> {
    let key = key_of(alloc, first.exchange(), captured)?;
    Ok(key == key_of(alloc, second.exchange(), captured)?)
}

/// How many exchanges are skipped, and the mappings.
pub fn recorded(alloc: Global, row: &Row) -> Result<String, AllocError> {
    let given = read(alloc, row)?;
    let recorded = stubs(alloc, &given)?;
    let mut cells = Cells::new(alloc);
    cells.add_cell(format!(in alloc; "skipped {}", recorded.skipped)?.as_str());
    for mapping in recorded.mappings.as_slice() {
        add_mapping(alloc, &mut cells, mapping)?;
    }
    cells.finish()
}

fn stubs(alloc: Global, given: &Given) -> Result<Recorded, AllocError> {
    stubs_of(
        alloc,
        given.exchanges.as_slice(),
        given.captured.as_slice(),
        given.repeats,
        given.number,
    )
}

fn add_text(cells: &mut Cells, word: &str, text: &Text) {
    cells.add_cell(word);
    cells.add(" ");
    cells.add(text.as_str());
}

fn add_optional(cells: &mut Cells, word: &str, text: &Option<Text>) {
    if let Some(text) = text {
        add_text(cells, word, text);
    }
}

fn add_mapping(alloc: Global, cells: &mut Cells, mapping: &MappingSpec) -> Result<(), AllocError> {
    cells.add_cell("mapping ");
    if let Some(id) = mapping.id {
        cells.add(id.hyphenated(alloc)?.as_str());
    }
    add_optional(cells, "name", &mapping.name);
    if mapping.priority.is_some() {
        cells.add_cell("priority");
    }
    if let Some(scenario) = &mapping.scenario {
        add_text(cells, "scenario", &scenario.name);
        add_optional(cells, "required", &scenario.required);
        add_optional(cells, "next", &scenario.next);
    }
    add_request(alloc, cells, &mapping.request)?;
    add_response(alloc, cells, &mapping.response)
}

fn add_request(alloc: Global, cells: &mut Cells, request: &RequestSpec) -> Result<(), AllocError> {
    add_optional(cells, "method", &request.method);
    match &request.url {
        UrlSpec::Url(url) => add_text(cells, "url", url),
        _ => cells.add_cell("another URL matcher"),
    }
    for header in request.headers.as_slice() {
        add_header(cells, header);
    }
    if !request.query.as_slice().is_empty() || !request.cookies.as_slice().is_empty() {
        cells.add_cell("more matchers");
    }
    for pattern in request.body.as_slice() {
        add_pattern(alloc, cells, pattern)?;
    }
    Ok(())
}

fn add_header(cells: &mut Cells, header: &NamedMatcher) {
    match &header.matcher {
        ValueSpec::EqualTo(value) => {
            add_text(cells, "header equal", &header.name);
            cells.add(" ");
            cells.add(value.as_str());
        }
        ValueSpec::Absent => {
            add_text(cells, "header", &header.name);
            cells.add(" absent");
        }
        _ => add_text(cells, "another header matcher", &header.name),
    }
}

fn add_pattern(alloc: Global, cells: &mut Cells, pattern: &BodyPattern) -> Result<(), AllocError> {
    match pattern {
        BodyPattern::Value(ValueSpec::Absent) => cells.add_cell("body absent"),
        BodyPattern::Value(ValueSpec::EqualTo(text)) => add_text(cells, "body", text),
        BodyPattern::BinaryEqualTo(bytes) => {
            cells.add_cell("body hex ");
            cells.add(hex::encode(alloc, bytes.as_slice())?.as_str());
        }
        _ => cells.add_cell("another body pattern"),
    }
    Ok(())
}

fn add_response(
    alloc: Global,
    cells: &mut Cells,
    response: &ResponseSpec,
) -> Result<(), AllocError> {
    cells.add_cell("status ");
    cells.add_number(u32::from(response.status.code()));
    let Content::Plain { headers, body } = &response.content else {
        cells.add_cell("templates");
        return Ok(());
    };
    for line in headers.as_slice() {
        cells.add_cell("reply-header ");
        cells.add(line.name.as_str());
        cells.add(" ");
        cells.add(line.value.as_str());
    }
    match body {
        Body::Empty => {}
        Body::Text(text) => add_text(cells, "reply-body", text),
        Body::Json(_text) => cells.add_cell("a JSON body"),
        Body::Base64(bytes) => {
            cells.add_cell("reply-body hex ");
            cells.add(hex::encode(alloc, bytes.as_slice())?.as_str());
        }
    }
    Ok(())
}
