// Why a body isn't JSON for matchers.
use mapping_diagnosis::numbers::{NumberAt, first_not_taken};
use mapping_diagnosis::shown::shortened;
use serde_json::Value;
use std::alloc::{AllocError, Global};

/// As `the number 9.99 at /price`, where only a number keeps it from being JSON; else what the parser says.
pub(crate) fn not_json_reason(alloc: Global, text: &str) -> Result<String, AllocError> {
    if text.is_empty() {
        return String::from_str(alloc, "it is empty");
    }
    match Value::from_str(alloc, text) {
        Ok(value) => match first_not_taken(alloc, &value)? {
            Some(found) => number_said(alloc, &found),
            None => Ok(String::new(alloc)),
        },
        Err(error) => if error.is_memory() {
            Err(AllocError)
        } else {
            format!(in alloc; "{error}")
        },
    }
}

fn number_said(alloc: Global, found: &NumberAt) -> Result<String, AllocError> {
    let mut said = String::from_str(alloc, "the number ")?;
    said.push_str(found.number.as_str())?;
    if !found.pointer.is_empty() {
        said.push_str(" at ")?;
        said.push_str(shortened(alloc, found.pointer.as_str())?.as_str())?;
    }
    Ok(said)
}
