//! How what a book answers is written into cells.

use crate::words::add_number;
use case_table::cells::Cells;
use mapping_model::mapping_spec::MappingSpec;
use mapping_model::response_spec::{Body, Content};
use mapping_model::url_spec::UrlSpec;
use plain_text::text::Text;
use recorder::recording::RecordingStatus;
use request_journal::event::{Event, ServeAnswer};
use request_journal::input::BookAnswer;
use std::alloc::{AllocError, Global};
use stub_book::error::BookError;

/// The number of the error.
pub fn add_error(cells: &mut Cells, error: BookError) {
    cells.add_cell("");
    cells.add_number(u32::from(error.code.number()));
}

/// The mapping that was chosen, the target that the request is forwarded to, or neither.
pub fn add_served(cells: &mut Cells, answer: &ServeAnswer) {
    match answer {
        ServeAnswer::Stub(captured) => {
            cells.add_cell("");
            add_mapping(cells, captured.mapping.spec.spec());
        }
        ServeAnswer::Proxy(target) => {
            cells.add_cell("to ");
            cells.add(target.as_str());
        }
        ServeAnswer::Unmatched => cells.add_cell("none"),
    }
}

/// A mapping's name; a recorded one has none, and shows the body of its response.
pub fn add_mapping(cells: &mut Cells, spec: &MappingSpec) {
    match &spec.name {
        Some(name) => cells.add(name.as_str()),
        None => add_body(cells, &spec.response.content),
    }
}

fn add_body(cells: &mut Cells, content: &Content) {
    cells.add("body ");
    if let Content::Plain {
        body: Body::Text(text),
        ..
    } = content
    {
        cells.add(text.as_str());
    }
}

/// `done`, the mapping that was added or edited, or what was recorded: how many mappings and how many are skipped, then
/// each mapping.
pub fn add_applied(
    alloc: Global,
    cells: &mut Cells,
    answer: &BookAnswer,
) -> Result<(), AllocError> {
    match answer {
        BookAnswer::Done => cells.add_cell("done"),
        BookAnswer::Mapping(mapping) => {
            cells.add_cell("");
            add_mapping(cells, mapping.spec.spec());
        }
        BookAnswer::Recorded { mappings, skipped } => {
            cells.add_cell("");
            add_number(alloc, cells, mappings.as_slice().len() as u64)?;
            cells.add(" skipped ");
            add_number(alloc, cells, *skipped)?;
            for mapping in mappings.as_slice() {
                add_recorded(cells, mapping.spec.spec());
            }
        }
    }
    Ok(())
}

// Method, URL and body of the response, and the part in a scenario.
fn add_recorded(cells: &mut Cells, spec: &MappingSpec) {
    cells.add_cell("");
    add_text(cells, &spec.request.method);
    if let UrlSpec::Url(url) = &spec.request.url {
        cells.add(" ");
        cells.add(url.as_str());
    }
    cells.add(" ");
    add_mapping(cells, spec);
    if let Some(scenario) = &spec.scenario {
        cells.add(" in ");
        cells.add(scenario.name.as_str());
        cells.add(" from ");
        add_text(cells, &scenario.required);
        cells.add(" to ");
        add_text(cells, &scenario.next);
    }
}

fn add_text(cells: &mut Cells, text: &Option<Text>) {
    match text {
        Some(text) => cells.add(text.as_str()),
        None => cells.add("none"),
    }
}

pub fn status_word(status: RecordingStatus) -> &'static str {
    match status {
        RecordingStatus::NeverStarted => "never started",
        RecordingStatus::Recording => "recording",
        RecordingStatus::Stopped => "stopped",
    }
}

/// The word that asks for such an event.
pub fn event_word(event: &Event) -> &'static str {
    match event {
        Event::Serve { .. } => "serve",
        Event::Add(_) => "add",
        Event::Edit { .. } => "edit",
        Event::Delete(_) => "delete",
        Event::DeleteAll => "delete-all",
        Event::ResetMappings => "reset-mappings",
        Event::ResetAll => "reset-all",
        Event::ResetScenarios => "reset-scenarios",
        Event::SetScenario { .. } => "set",
        Event::ClearJournal => "clear",
        Event::StartRecording { .. } => "start",
        Event::Record { .. } => "record",
        Event::StopRecording { .. } => "stop",
    }
}
