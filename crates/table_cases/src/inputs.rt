//! What a row asks of a book: a word and what it is about.

use crate::mappings::{id, ready};
use crate::words::text_of;
use case_table::exchanges::exchange_of;
use case_table::words::{number, parts};
use plain_text::items::Items;
use request_journal::input::BookInput;
use std::alloc::{AllocError, Global};

/// The change that a cell asks for.
pub fn input(alloc: Global, word: &str, text: &str) -> Result<BookInput, AllocError> {
    match word {
        "delete-all" => Ok(BookInput::DeleteAll),
        "reset-mappings" => Ok(BookInput::ResetMappings),
        "reset-all" => Ok(BookInput::ResetAll),
        "reset-scenarios" => Ok(BookInput::ResetScenarios),
        "clear" => Ok(BookInput::ClearJournal),
        "stop" => Ok(BookInput::StopRecording),
        _ => input_with(alloc, word, text),
    }
}

// A change that says what it is about.
fn input_with(alloc: Global, word: &str, text: &str) -> Result<BookInput, AllocError> {
    let (first, rest) = parts(text);
    match word {
        "add" => Ok(BookInput::Add(ready(alloc, text)?)),
        "edit" => edit(alloc, first, rest),
        "delete" => Ok(BookInput::Delete(id(alloc, text)?)),
        "set" => set(alloc, first, rest),
        "start" => start(alloc, first, rest),
        "record" => record(alloc, first, rest),
        _ => Err(AllocError),
    }
}

fn edit(alloc: Global, id_text: &str, words: &str) -> Result<BookInput, AllocError> {
    Ok(BookInput::Edit {
        id: id(alloc, id_text)?,
        mapping: ready(alloc, words)?,
    })
}

fn set(alloc: Global, name: &str, state: &str) -> Result<BookInput, AllocError> {
    Ok(BookInput::SetScenario {
        name: text_of(alloc, name)?,
        state: text_of(alloc, state)?,
    })
}

fn record(alloc: Global, serve: &str, words: &str) -> Result<BookInput, AllocError> {
    Ok(BookInput::Record {
        serve: number(serve),
        exchange: exchange_of(alloc, words)?,
    })
}

// Equal requests become a scenario unless the cell ends in `once`.
fn start(alloc: Global, target: &str, word: &str) -> Result<BookInput, AllocError> {
    Ok(BookInput::StartRecording {
        target: text_of(alloc, target)?,
        captured: Items::from(Vec::new(alloc)),
        repeats: word != "once",
    })
}
