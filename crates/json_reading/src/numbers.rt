// Which numbers a document may have, and the text of a value.
ghost use Rattle.std.specs.Prelude.{◌≡◌, IfOk, is_some};
ghost use Rattle.json_bridge.specs.Reading.{items_of, members_of};
ghost use Rattle.json_reading.specs.Numbers.{is_taken, taken, json_text_of};
ghost use Rattle.serde_json.specs.View.{view, items_view, members_view};

use crate::json_text::JsonText;
use crate::kind::Kind;
use crate::reading::{Reading, wrong_also};
use plain_text::text::Text;
use serde_json::{Map, Value};
use std::alloc::{AllocError, Global};

/// Whether each number in the value is whole and fits 64 bits. The recursion is as deep as the value nests.
#[cycle(is_taken)]
pub fn is_taken(value: &Value) -> bool
    ensures { result ≡ is_taken (view value.now) }
{
    match value {
        Value::Number(number) => number.as_i128().is_some(),
        Value::Array(items) => are_taken(items),
        Value::Object(members) => have_taken(members),
        _ => true,
    }
}

#[cycle(is_taken)]
fn are_taken(items: &Vec<Value>) -> bool
    ensures { result ≡ is_some (items_of (items_view items.now.items)) }
{
    for item in items {
        if !is_taken(item) {
            return false;
        }
    }
    true
}

#[cycle(is_taken)]
fn have_taken(members: &Map<String, Value>) -> bool
    ensures { result ≡ is_some (members_of (members_view members.now.entries)) }
{
    for (_name, member) in members.iter() {
        if !is_taken(member) {
            return false;
        }
    }
    true
}

/// A part of a value of which each number has to be taken.
pub fn taken<T: Drop>(value: &Value, part: Reading<T>) -> Reading<T>
    ensures { result ≡ taken (view value.now) part }
{
    if is_taken(value) {
        part
    } else {
        wrong_also(Kind::NumberNotWhole, part)
    }
}

/// The value's compact text, with names in byte order.
pub fn json_text_of(alloc: Global, value: &Value) -> Result<Reading<JsonText>, AllocError>
    ensures { IfOk result (λ text. text ≡ json_text_of (view value.now)) }
{
    if !is_taken(value) {
        return Ok(Reading::Wrong(Kind::NumberNotWhole));
    }
    let text = Text::from(value.to_string(alloc)?);
    Ok(Reading::Read(JsonText::new(text)))
}
