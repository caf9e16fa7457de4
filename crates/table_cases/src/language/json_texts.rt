//! JSON texts and paths.

use crate::language::values::cell_of;
use data_tree::compact_text::CompactText;
use data_tree::data::Data;
use data_tree::step::Step;
use json_bridge::error::JsonPathError;
use json_bridge::json_path::JsonPath;
use json_bridge::read::data_of_json;
use std::alloc::{AllocError, Global};

/// The JSON text of the text's value.
pub fn value_of_text(alloc: Global, text: &str) -> Result<String, AllocError> {
    let found = data_of_json(alloc, text)?;
    match found {
        Some(value) => cell_of(alloc, Some(&value)),
        None => String::from_str(alloc, "\tnone"),
    }
}

/// The steps of the path, as a list of names and indices.
pub fn steps_of_path(alloc: Global, text: &str) -> Result<String, AllocError> {
    match JsonPath::parse(alloc, text) {
        Ok(path) => steps_cell(alloc, path.steps()),
        Err(JsonPathError::BadPath) => String::from_str(alloc, "\tbad path"),
        Err(JsonPathError::OutOfMemory) => Err(AllocError),
    }
}

fn steps_cell(alloc: Global, steps: &[Step]) -> Result<String, AllocError> {
    let list = list_of(alloc, steps)?;
    cell_of(alloc, Some(&list))
}

fn list_of(alloc: Global, steps: &[Step]) -> Result<Data, AllocError> {
    let mut items = Vec::new(alloc);
    for step in steps {
        match step {
            Step::Name(name) => items.push(Data::Text(CompactText::from_str(
                alloc,
                name.as_str(),
            )?))?,
            Step::Index(index) => items.push(Data::Number(i128::from(*index)))?,
        }
    }
    Ok(Data::List(items))
}
