// What the fields of an object say.
ghost use Rattle.std.specs.Prelude.{◌≡◌, map, IfOk};
ghost use Rattle.std.specs.List.{list_any};
ghost use Rattle.std.specs.Str.{bytes_eq};
ghost use Rattle.json_reading.specs.Fields.{has_only, only, text_of, bool_of, bytes_of, text_field, bool_field};
ghost use Rattle.serde_json.specs.View.{view, members_view};

use crate::kind::Kind;
use crate::reading::{Reading, some, wrong_also};
use base64::DecodeAllocError;
use base64::engine::general_purpose::STANDARD;
use plain_text::octets::Octets;
use plain_text::text::Text;
use serde_json::{Map, Value};
use std::alloc::{AllocError, Global};

/// The reading of an object that has no other fields than these.
pub fn only<T: Drop>(names: &[&str], value: &Value, part: Reading<T>) -> Reading<T>
    ensures { result ≡ only (map (λ name. name.now) names.now) (view value.now) part }
{
    match value.as_object() {
        Some(members) => if has_only(names, members) {
            part
        } else {
            wrong_also(Kind::Unsupported, part)
        },
        None => Reading::Wrong(Kind::Misshapen),
    }
}

fn has_only(names: &[&str], members: &Map<String, Value>) -> bool
    ensures { result ≡ has_only (map (λ name. name.now) names.now) (members_view members.now.entries) }
{
    for (name, _member) in members.iter() {
        if !is_one_of(names, name.as_str()) {
            return false;
        }
    }
    true
}

fn is_one_of(names: &[&str], name: &str) -> bool
    ensures { result ≡ list_any (λ known. bytes_eq known name.now) (map (λ known. known.now) names.now) }
{
    names.contains(&name)
}

/// A text.
pub fn text_of(alloc: Global, value: &Value) -> Result<Reading<Text>, AllocError>
    ensures { IfOk result (λ text. text ≡ text_of (view value.now)) }
{
    match value {
        Value::String(text) => Ok(Reading::Read(Text::from(text.clone()?))),
        _ => Ok(Reading::Wrong(Kind::Misshapen)),
    }
}

/// `true` or `false`.
pub fn bool_of(value: &Value) -> Reading<bool>
    ensures { result ≡ bool_of (view value.now) }
{
    match value {
        Value::Bool(truth) => Reading::Read(*truth),
        _ => Reading::Wrong(Kind::Misshapen),
    }
}

/// Bytes, written as a text in base64 (RFC 4648, section 4), with padding.
pub fn bytes_of(alloc: Global, value: &Value) -> Result<Reading<Octets>, AllocError>
    ensures { IfOk result (λ bytes. bytes ≡ bytes_of (view value.now)) }
{
    let Value::String(text) = value else {
        return Ok(Reading::Wrong(Kind::Misshapen));
    };
    match STANDARD.decode(alloc, text.as_bytes()) {
        Ok(bytes) => Ok(Reading::Read(Octets::from(bytes))),
        Err(DecodeAllocError::DecodeError(_)) => Ok(Reading::Wrong(Kind::Misshapen)),
        Err(DecodeAllocError::OutOfMemory) => Err(AllocError),
    }
}

/// The text of that name in an object, if it has one.
pub fn text_field(
    alloc: Global,
    name: &str,
    value: &Value,
) -> Result<Reading<Option<Text>>, AllocError>
    ensures { IfOk result (λ text. text ≡ text_field name.now (view value.now)) }
{
    match value.get(name) {
        Some(found) => Ok(some(text_of(alloc, found)?)),
        None => Ok(Reading::Read(None)),
    }
}

/// The `true` or `false` of that name in an object, if it has one.
pub fn bool_field(name: &str, value: &Value) -> Reading<Option<bool>>
    ensures { result ≡ bool_field name.now (view value.now) }
{
    match value.get(name) {
        Some(found) => some(bool_of(found)),
        None => Reading::Read(None),
    }
}
