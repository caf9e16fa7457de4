// Mappings of the book, as values.
ghost use Rattle.std.specs.Prelude.{◌≡◌, ◌<◌, ◌^◌, false, All, IfOk, IfSome, codes, nat_abs, string_bytes};
ghost use Rattle.admin_json.specs.Mappings.{with_id, json_of_held};
ghost use Rattle.admin_json.specs.WholeNumbers.{HasWholeBody, HasWholeJson, HasWholeNumbers};
ghost use Rattle.mapping_json.specs.Writing.{json_of_id};
ghost use Rattle.serde_json.specs.Data.{object, put};
ghost use Rattle.serde_json.specs.View.{view, members_view};
ghost use Rattle.serde_json.specs.Written.{compact_text, has_float};

use mapping_json::write::write_mapping;
use mapping_model::mapping_id::MappingId;
use mapping_model::response_spec::{Body, Content};
use mapping_model::status::Status;
use request_journal::mapping::Mapping;
use serde_json::{Map, Value};
use std::alloc::{AllocError, Global};

/// The mapping as it was written, under its id.
pub fn mapping_value(alloc: Global, mapping: &Mapping) -> Result<Value, AllocError>
    ensures { IfOk result (λ value. view value ≡ json_of_held mapping.now) }
{
    let value = write_mapping(alloc, mapping.spec.spec())?;
    with_id(alloc, mapping.id, value)
}

/// The compact text of a mapping under its id.
pub fn mapping_text(alloc: Global, mapping: &Mapping) -> Result<String, AllocError>
    ensures { IfOk result (λ text. string_bytes text ≡ compact_text (json_of_held mapping.now)) }
{
    law_numbers_are_whole(mapping);
    mapping_value(alloc, mapping)?.to_string(alloc)
}

/// A law: whatever the mapping has, each number of its JSON is whole and fits 64 bits.
pub fn law_numbers_are_whole(mapping: &Mapping)
    ensures numbers { HasWholeNumbers mapping.now }
    ensures no_float { has_float (json_of_held mapping.now) ≡ false }
{
    // Each part is looked at so that the prover knows what its type keeps; nothing is done with it.
    let spec = mapping.spec.spec();
    let response = &spec.response;
    law_body_is_whole(&response.content);
    law_status_is_word(response.status);
    law_priority_is_word(spec.priority);
}

/// The same of each of the mappings.
pub fn law_each_is_whole(mappings: &[Mapping])
    ensures { All HasWholeNumbers mappings.now }
{
    for mapping in mappings {
        law_numbers_are_whole(mapping);
    }
}

fn law_body_is_whole(content: &Content)
    ensures { HasWholeBody content.now }
{
    match content {
        Content::Plain { body, .. } => law_json_is_whole(body),
        Content::Templated { body, .. } => law_json_is_whole(body),
    }
}

fn law_json_is_whole<V>(body: &Body<V>)
    ensures { HasWholeJson body.now }
{
    if let Body::Json(text) = body {
        let _text = text.as_str();
    }
}

fn law_status_is_word(status: Status)
    ensures { status < 2 ^ 64 }
{
    let _code = status.code();
}

fn law_priority_is_word(priority: Option<i32>)
    ensures { IfSome priority (λ priority. nat_abs priority < 2 ^ 63) }
{
    if let Some(priority) = priority {
        let _distance = priority.unsigned_abs();
    }
}

/// The object with the id in place of the one that it has.
fn with_id(alloc: Global, id: MappingId, value: Value) -> Result<Value, AllocError>
    ensures { IfOk result (λ made. view made ≡ with_id id (view value)) }
{
    match value {
        Value::Object(members) => put_id(alloc, id, members),
        other => Ok(other),
    }
}

fn put_id(alloc: Global, id: MappingId, members: Map<String, Value>) -> Result<Value, AllocError>
    ensures { IfOk result (λ made.
        view made ≡ object (put (codes "id") (json_of_id id) (members_view members.entries))) }
{
    let mut members = members;
    let text = id.hyphenated(alloc)?;
    serde_json::put(&mut members, alloc, "id", Value::String(text))?;
    Ok(Value::Object(members))
}
