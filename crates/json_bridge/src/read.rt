// From a JSON text to its value.
ghost use Rattle.std.specs.Prelude.{◌≡◌, None, Some, IfOk, IfSome, IsErrOf, option_map};
ghost use Rattle.data_tree.specs.Tree as tree;
ghost use Rattle.data_tree.specs.WellFormed.{IsWellFormed};
ghost use Rattle.serde_json.specs.View.{view, number_view, items_view, members_view};
ghost use Rattle.json_bridge.specs.Reading.{IsJson, whole_number, tree_of_value, items_of, members_of, tree_of_text};

use crate::direct::read_direct;
use crate::error::JsonError;
use data_tree::compact_text::CompactText;
use data_tree::data::Data;
use serde_json::{Map, Number, Value};
use std::alloc::{AllocError, Global};

/// The value of a JSON text, or why it has none. JSON's `null` is `Nothing`. A text that nests over 127 deep is
/// no JSON.
///
/// The value is made once, straight from the text's tokens. Where a number in it isn't whole or doesn't fit, the text
/// is read again, as `serde_json` has it: the value of a repeated name but the last may have such a number. The
/// recursion is as deep as the text nests.
pub fn read_json(alloc: Global, text: &str) -> Result<Data, JsonError>
    ensures value { IfOk result (λ d. tree_of_text text.now ≡ Some (tree.view d)) }
    ensures well_formed { IfOk result (λ d. IsWellFormed (tree.view d)) }
    ensures not_json { IsErrOf result JsonError.NotJson → ¬ (IsJson text.now) }
    ensures number_not_whole { IsErrOf result JsonError.NumberNotWhole
        → IsJson text.now × (tree_of_text text.now ≡ None) }
{
    match read_direct(alloc, text) {
        Err(JsonError::NumberNotWhole) => read_value(alloc, text),
        read => read,
    }
}

// The same by a value of `serde_json`, in which each name has its last value. It takes memory twice; texts and names
// are moved.
fn read_value(alloc: Global, text: &str) -> Result<Data, JsonError>
    ensures value { IfOk result (λ d. tree_of_text text.now ≡ Some (tree.view d)) }
    ensures well_formed { IfOk result (λ d. IsWellFormed (tree.view d)) }
    ensures not_json { IsErrOf result JsonError.NotJson → ¬ (IsJson text.now) }
    ensures number_not_whole { IsErrOf result JsonError.NumberNotWhole
        → IsJson text.now × (tree_of_text text.now ≡ None) }
{
    match Value::from_str(alloc, text) {
        Ok(value) => match data_of(alloc, value)? {
            Some(data) => Ok(data),
            None => Err(JsonError::NumberNotWhole),
        },
        Err(error) => if error.is_memory() {
            Err(JsonError::OutOfMemory)
        } else {
            Err(JsonError::NotJson)
        },
    }
}

/// The value of a JSON text, or none where `read_json` finds none.
pub fn data_of_json(alloc: Global, text: &str) -> Result<Option<Data>, AllocError>
    ensures value { IfOk result (λ found. option_map tree.view found ≡ tree_of_text text.now) }
    ensures well_formed { IfOk result (λ found. IfSome found (λ d. IsWellFormed (tree.view d))) }
{
    match read_json(alloc, text) {
        Ok(data) => Ok(Some(data)),
        Err(JsonError::NotJson) | Err(JsonError::NumberNotWhole) => Ok(None),
        Err(JsonError::OutOfMemory) => Err(AllocError),
    }
}

// A number that `as_i64` or `as_u64` gives.
fn whole_number(number: &Number) -> Option<i128>
    ensures { result ≡ whole_number (number_view number.now) }
{
    number.as_i128()
}

// The tree of a value, or none where a number in it isn't whole or doesn't fit 64 bits.
#[cycle(data_of)]
fn data_of(alloc: Global, value: Value) -> Result<Option<Data>, AllocError>
    ensures { IfOk result (λ found. option_map tree.view found ≡ tree_of_value (view value)) }
{
    match value {
        Value::Null => Ok(Some(Data::Nothing)),
        Value::Bool(truth) => Ok(Some(Data::Truth(truth))),
        Value::Number(number) => Ok(whole_number(&number).map(Data::Number)),
        Value::String(text) => Ok(Some(Data::Text(CompactText::new(text)))),
        Value::Array(items) => Ok(list_of(alloc, items)?.map(Data::List)),
        Value::Object(members) => Ok(fields_of(alloc, members)?.map(Data::Fields)),
    }
}

#[cycle(data_of)]
fn list_of(alloc: Global, items: Vec<Value>) -> Result<Option<Vec<Data>>, AllocError>
    ensures { IfOk result (λ found. option_map (λ v. tree.items_view v.items) found
        ≡ items_of (items_view items.items)) }
{
    let mut found = Vec::with_capacity(alloc, items.len())?;
    for item in items {
        match data_of(alloc, item)? {
            Some(data) => found.push(data)?,
            None => return Ok(None),
        }
    }
    Ok(Some(found))
}

#[cycle(data_of)]
fn fields_of(
    alloc: Global,
    members: Map<String, Value>,
) -> Result<Option<Vec<(CompactText, Data)>>, AllocError>
    ensures { IfOk result (λ found. option_map (λ v. tree.members_view v.items) found
        ≡ members_of (members_view members.entries)) }
{
    let mut found = Vec::with_capacity(alloc, members.len())?;
    for (name, member) in members {
        match data_of(alloc, member)? {
            Some(data) => found.push((CompactText::new(name), data))?,
            None => return Ok(None),
        }
    }
    Ok(Some(found))
}
