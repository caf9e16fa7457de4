//! Numbers that aren't taken.
use crate::fault::{Fault, Found, said_of};
use crate::pointer::pointer_under;
use itoa::Buffer;
use serde_json::{Map, Value};
use std::alloc::{AllocError, Global};

const WHOLE: &str = "a whole number from -9223372036854775808 to 18446744073709551615";

/// A number, and the JSON pointer (RFC 6901) to it from the value that was looked through.
#[derive(Drop)]
pub struct NumberAt {
    pub number: String,
    pub pointer: String,
}

impl NumberAt {
    /// The same number, of the object or the list that has the value there.
    fn under(self, alloc: Global, name: &str) -> Result<NumberAt, AllocError> {
        let NumberAt { number, pointer } = self;
        let pointer = pointer_under(alloc, name, pointer.as_str())?;
        Ok(NumberAt { number, pointer })
    }
}

/// The same as a fault.
pub(crate) fn number_fault(alloc: Global, value: &Value) -> Found {
    match first_not_taken(alloc, value)? {
        Some(found) => {
            let NumberAt { number, pointer } = found;
            let said = said_of(alloc, WHOLE, number.as_str())?;
            Ok(Some(Fault { pointer, said }))
        }
        None => Ok(None),
    }
}

/// The first number in the value that isn't whole, or doesn't fit 64 bits. The recursion is as deep as the value nests,
/// which is at most 127 in a document.
#[cycle(first_not_taken)]
pub fn first_not_taken(alloc: Global, value: &Value) -> Result<Option<NumberAt>, AllocError> {
    match value {
        Value::Number(number) if number.as_i128().is_none() => Ok(Some(NumberAt {
            number: value.to_string(alloc)?,
            pointer: String::new(alloc),
        })),
        Value::Array(items) => first_in_items(alloc, items),
        Value::Object(members) => first_in_members(alloc, members),
        _ => Ok(None),
    }
}

#[cycle(first_not_taken)]
fn first_in_items(alloc: Global, items: &Vec<Value>) -> Result<Option<NumberAt>, AllocError> {
    for (index, item) in items.iter().enumerate() {
        if let Some(found) = first_not_taken(alloc, item)? {
            let mut digits = Buffer::new();
            return Ok(Some(found.under(alloc, digits.format(index))?));
        }
    }
    Ok(None)
}

#[cycle(first_not_taken)]
fn first_in_members(
    alloc: Global,
    members: &Map<String, Value>,
) -> Result<Option<NumberAt>, AllocError> {
    for (name, member) in members.iter() {
        if let Some(found) = first_not_taken(alloc, member)? {
            return Ok(Some(found.under(alloc, name.as_str())?));
        }
    }
    Ok(None)
}
