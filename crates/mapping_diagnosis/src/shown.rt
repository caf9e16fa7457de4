//! Values and texts as they are shown in a message: on one line, and cut.
use serde_json::Value;
use std::alloc::{AllocError, Global};

/// How many characters of a value or a text are shown.
const SHOWN: usize = 60;

/// How many of the first characters of a longer text are shown, and how many of its last ones, where both are.
const SHOWN_FIRST: usize = 40;

const SHOWN_LAST: usize = 18;

/// The compact text of a value.
pub(crate) fn shown(alloc: Global, value: &Value) -> Result<String, AllocError> {
    let text = value.to_string(alloc)?;
    cut(alloc, text.as_str(), SHOWN)
}

/// A text in quotation marks, escaped as in JSON.
pub fn quoted(alloc: Global, text: &str) -> Result<String, AllocError> {
    let front = front_of(alloc, text, SHOWN)?;
    let value = Value::String(front);
    shown(alloc, &value)
}

/// The text, or its first characters, so many, and two dots.
pub fn cut(alloc: Global, text: &str, characters: usize) -> Result<String, AllocError> {
    let mut front = front_of(alloc, text, characters)?;
    if front.len() < text.len() {
        front.push_str("..")?;
    }
    Ok(front)
}

/// The text, or the beginning and the end of a long one.
pub fn shortened(alloc: Global, text: &str) -> Result<String, AllocError> {
    let count = text.chars().count();
    if count <= SHOWN {
        return String::from_str(alloc, text);
    }
    let mut short = String::new(alloc);
    for character in text.chars().take(SHOWN_FIRST) {
        short.push(character)?;
    }
    short.push_str("..")?;
    for character in text.chars().skip(count.saturating_sub(SHOWN_LAST)) {
        short.push(character)?;
    }
    Ok(short)
}

fn front_of(alloc: Global, text: &str, characters: usize) -> Result<String, AllocError> {
    if text.len() <= characters {
        return String::from_str(alloc, text);
    }
    let mut front = String::new(alloc);
    for character in text.chars().take(characters) {
        front.push(character)?;
    }
    Ok(front)
}

/// The texts, one after the other. A proof takes less time for this than for a `format!`.
pub(crate) fn joined(alloc: Global, texts: &[&str]) -> Result<String, AllocError> {
    let mut all = String::new(alloc);
    for text in texts {
        all.push_str(*text)?;
    }
    Ok(all)
}
