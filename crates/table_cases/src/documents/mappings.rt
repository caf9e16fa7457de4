//! Single mappings: what is written for the mapping that a document spells, or the code of its error.

use crate::documents::answers;
use case_table::row::Row;
use mapping_json::error::MappingError;
use mapping_json::read::read_mapping;
use mapping_json::write::write_mapping;
use request_match::ready_mapping::ReadyMapping;
use serde_json::Value;
use std::alloc::{AllocError, Global};

/// The document.
pub fn of_text(alloc: Global, row: &Row) -> Result<String, AllocError> {
    answer(alloc, row.cell(0).as_bytes())
}

// In each of the functions below one mapping is dropped at most, at one place.
fn answer(alloc: Global, bytes: &[u8]) -> Result<String, AllocError> {
    match read(alloc, bytes) {
        Ok(mapping) => written_twice(alloc, &mapping),
        Err(error) => refused(alloc, error),
    }
}

pub fn read(alloc: Global, bytes: &[u8]) -> Result<ReadyMapping, MappingError> {
    read_mapping(alloc, bytes)
}

/// The cell of an error.
pub fn refused(alloc: Global, error: MappingError) -> Result<String, AllocError> {
    answers::refused(alloc, error.error_code())
}

/// The cell of a mapping: its JSON. It reads back as the same mapping; otherwise a cell more says what differs.
fn written_twice(alloc: Global, mapping: &ReadyMapping) -> Result<String, AllocError> {
    let text = written(alloc, mapping)?;
    let difference = read_back(alloc, mapping, text.as_str())?;
    format!(in alloc; "\t{text}{difference}")
}

fn read_back(alloc: Global, mapping: &ReadyMapping, text: &str) -> Result<String, AllocError> {
    match read(alloc, text.as_bytes()) {
        Ok(again) => difference(alloc, mapping, &again, text),
        Err(error) => refused(alloc, error),
    }
}

// A mapping keeps the text of an `equalToJson` as it was given, and its JSON has the compact one.
fn difference(
    alloc: Global,
    mapping: &ReadyMapping,
    again: &ReadyMapping,
    text: &str,
) -> Result<String, AllocError> {
    let second = written(alloc, again)?;
    if second.as_str() != text {
        return format!(in alloc; "\treads back as {second}");
    }
    if are_same(mapping, again) {
        return Ok(String::new(alloc));
    }
    String::from_str(alloc, "\tother texts")
}

fn are_same(mapping: &ReadyMapping, again: &ReadyMapping) -> bool {
    again.spec().same(mapping.spec())
}

/// The compact text of its JSON.
fn written(alloc: Global, mapping: &ReadyMapping) -> Result<String, AllocError> {
    write(alloc, mapping)?.to_string(alloc)
}

fn write(alloc: Global, mapping: &ReadyMapping) -> Result<Value, AllocError> {
    write_mapping(alloc, mapping.spec())
}
