//! The step of a cell: the actor's number, a word, and what it is about.

use case_table::exchanges::exchange_of;
use case_table::mappings::mapping;
use case_table::requests::request_of;
use case_table::words::{number, parts};
use mapping_model::mapping_id::MappingId;
use plain_text::items::Items;
use plain_text::text::Text;
use request_journal::input::BookInput;
use shared_book::script::Call;
use std::alloc::{AllocError, Global};
use world_core::step::Step;

/// As `1 serve GET /x`, `2 edit ID DOCUMENT`, `1 finish`.
pub fn step(alloc: Global, cell: &str) -> Result<Step, AllocError> {
    let (actor, rest) = parts(cell);
    let (word, text) = parts(rest);
    let actor = number(actor);
    Ok(match word {
        "finish" => Step::Finish { actor },
        "serve" => Step::Act {
            actor,
            call: Call::Serve(request_of(alloc, text)?),
        },
        _ => Step::Act {
            actor,
            call: Call::Apply(input(alloc, word, text)?),
        },
    })
}

fn text_of(alloc: Global, text: &str) -> Result<Text, AllocError> {
    Ok(Text::from(String::from_str(alloc, text)?))
}

fn input(alloc: Global, word: &str, text: &str) -> Result<BookInput, AllocError> {
    let (first, rest) = parts(text);
    Ok(match word {
        "add" => BookInput::Add(mapping(alloc, text)?),
        "edit" => BookInput::Edit {
            id: id(first)?,
            mapping: mapping(alloc, rest)?,
        },
        "delete" => BookInput::Delete(id(first)?),
        "delete-all" => BookInput::DeleteAll,
        "reset-mappings" => BookInput::ResetMappings,
        "reset-all" => BookInput::ResetAll,
        "reset-scenarios" => BookInput::ResetScenarios,
        "set" => BookInput::SetScenario {
            name: text_of(alloc, first)?,
            state: text_of(alloc, rest)?,
        },
        "clear" => BookInput::ClearJournal,
        "start" => BookInput::StartRecording {
            target: text_of(alloc, first)?,
            captured: Items::from(Vec::new(alloc)),
            repeats: true,
        },
        "record" => BookInput::Record {
            serve: number(first),
            exchange: exchange_of(alloc, rest)?,
        },
        "stop" => BookInput::StopRecording,
        _ => return Err(AllocError),
    })
}

fn id(text: &str) -> Result<MappingId, AllocError> {
    MappingId::parse(text).ok_or(AllocError)
}
