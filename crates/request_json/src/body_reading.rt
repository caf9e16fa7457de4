// Which body matcher an object spells.
ghost use Rattle.std.specs.Prelude.{◌≡◌, IfOk, codes, option_map};
ghost use Rattle.json_reading.specs.Fields.{optional, bytes_of};
ghost use Rattle.json_reading.specs.Reading.{both, read_map, read_then};
ghost use Rattle.mapping_model.specs.declared.body_pattern.BodyPattern.TheVariants.{Value as ValueMatcher};
ghost use Rattle.mapping_model.specs.declared.body_pattern.BodyPattern.TheVariants.{BinaryEqualTo, JsonPath};
ghost use Rattle.request_json.specs.BodyReading.{expected_of, equal_json_with, equal_json_in, path_object_of, path_of};
ghost use Rattle.request_json.specs.BodyReading.{body_in, reading_of_body};
ghost use Rattle.request_json.specs.ValueReading.{value_in};
ghost use Rattle.serde_json.specs.Find.{get};
ghost use Rattle.serde_json.specs.View.{view};

use crate::value_reading::value_in;
use json_match::json_spec::JsonSpec;
use json_reading::fields::{bool_field, bytes_of, only, text_field};
use json_reading::kind::Kind;
use json_reading::numbers::json_text_of;
use json_reading::reading::{Reading, both, either, needed, some};
use mapping_model::body_pattern::BodyPattern;
use plain_text::text::Text;
use serde_json::Value;
use std::alloc::{AllocError, Global};
use value_match::value_spec::ValueSpec;

/// A body matcher: an object with one word that says how a body is compared.
pub(crate) fn body_of(alloc: Global, value: &Value) -> Result<Reading<BodyPattern>, AllocError>
    ensures { IfOk result (λ pattern. pattern ≡ reading_of_body (view value.now)) }
{
    let words = [
        "equalTo",
        "caseInsensitive",
        "contains",
        "doesNotContain",
        "matches",
        "doesNotMatch",
        "absent",
        "binaryEqualTo",
        "equalToJson",
        "ignoreArrayOrder",
        "ignoreExtraElements",
        "matchesJsonPath",
    ];
    Ok(only(&words, value, needed(body_in(alloc, value)?)))
}

/// The one matcher that the words of an object spell, if they spell one.
fn body_in(alloc: Global, value: &Value) -> Result<Reading<Option<BodyPattern>>, AllocError>
    ensures { IfOk result (λ pattern. pattern ≡ body_in (view value.now)) }
{
    let found = path_in(alloc, value)?;
    let found = either(Kind::Misshapen, equal_json_in(alloc, value)?, found);
    let found = either(Kind::Misshapen, binary_in(alloc, value)?, found);
    Ok(either(Kind::Misshapen, text_matcher_in(alloc, value)?, found))
}

fn text_matcher_in(alloc: Global, value: &Value) -> Result<Reading<Option<BodyPattern>>, AllocError>
    ensures { IfOk result (λ pattern. pattern ≡ read_map (option_map ValueMatcher) (value_in (view value.now))) }
{
    match value_in(alloc, value)? {
        Reading::Read(matcher) => Ok(Reading::Read(matcher.map(BodyPattern::Value))),
        Reading::Wrong(kind) => Ok(Reading::Wrong(kind)),
    }
}

fn binary_in(alloc: Global, value: &Value) -> Result<Reading<Option<BodyPattern>>, AllocError>
    ensures { IfOk result (λ pattern. pattern ≡ read_map (option_map BinaryEqualTo)
        (optional bytes_of (get (codes "binaryEqualTo") (view value.now)))) }
{
    let Some(found) = value.get("binaryEqualTo") else {
        return Ok(Reading::Read(None));
    };
    match bytes_of(alloc, found)? {
        Reading::Read(bytes) => Ok(Reading::Read(Some(BodyPattern::BinaryEqualTo(bytes)))),
        Reading::Wrong(kind) => Ok(Reading::Wrong(kind)),
    }
}

fn equal_json_in(alloc: Global, value: &Value) -> Result<Reading<Option<BodyPattern>>, AllocError>
    ensures { IfOk result (λ pattern. pattern ≡ equal_json_in (view value.now)) }
{
    let expected = expected_in(alloc, value)?;
    let any_order = bool_field("ignoreArrayOrder", value);
    let more = bool_field("ignoreExtraElements", value);
    Ok(equal_json_of(both(expected, both(any_order, more))))
}

fn equal_json_of(
    parts: Reading<(Option<Text>, (Option<bool>, Option<bool>))>,
) -> Reading<Option<BodyPattern>>
    ensures { result ≡ read_then (λ p. equal_json_with p.0 p.1.0 p.1.1) parts }
{
    match parts {
        Reading::Read((expected, (any_order, more))) => equal_json_with(expected, any_order, more),
        Reading::Wrong(kind) => Reading::Wrong(kind),
    }
}

fn equal_json_with(
    expected: Option<Text>,
    any_order: Option<bool>,
    more: Option<bool>,
) -> Reading<Option<BodyPattern>>
    ensures { result ≡ equal_json_with expected any_order more }
{
    match expected {
        Some(expected) => Reading::Read(Some(BodyPattern::Json(JsonSpec::EqualTo {
            expected,
            ignore_array_order: any_order.unwrap_or(false),
            ignore_extra_elements: more.unwrap_or(false),
        }))),
        None => if any_order.is_none() && more.is_none() {
            Reading::Read(None)
        } else {
            Reading::Wrong(Kind::Misshapen)
        },
    }
}

fn expected_in(alloc: Global, value: &Value) -> Result<Reading<Option<Text>>, AllocError>
    ensures { IfOk result (λ text. text
        ≡ optional expected_of (get (codes "equalToJson") (view value.now))) }
{
    match value.get("equalToJson") {
        Some(found) => Ok(some(expected_of(alloc, found)?)),
        None => Ok(Reading::Read(None)),
    }
}

/// The expected JSON text: as it is given, or of the value that is given in its place.
fn expected_of(alloc: Global, value: &Value) -> Result<Reading<Text>, AllocError>
    ensures { IfOk result (λ text. text ≡ expected_of (view value.now)) }
{
    match value {
        Value::String(text) => Ok(Reading::Read(Text::from(text.clone()?))),
        _ => match json_text_of(alloc, value)? {
            Reading::Read(text) => Ok(Reading::Read(text.into_text())),
            Reading::Wrong(kind) => Ok(Reading::Wrong(kind)),
        },
    }
}

fn path_in(alloc: Global, value: &Value) -> Result<Reading<Option<BodyPattern>>, AllocError>
    ensures { IfOk result (λ pattern. pattern
        ≡ optional path_of (get (codes "matchesJsonPath") (view value.now))) }
{
    match value.get("matchesJsonPath") {
        Some(found) => Ok(some(path_of(alloc, found)?)),
        None => Ok(Reading::Read(None)),
    }
}

/// A JSON path, alone or with a value matcher on what it finds.
fn path_of(alloc: Global, value: &Value) -> Result<Reading<BodyPattern>, AllocError>
    ensures { IfOk result (λ pattern. pattern ≡ path_of (view value.now)) }
{
    match value {
        Value::String(path) => {
            let path = Text::from(path.clone()?);
            Ok(Reading::Read(BodyPattern::Json(JsonSpec::Path(path))))
        }
        _ => path_object_of(alloc, value),
    }
}

fn path_object_of(alloc: Global, value: &Value) -> Result<Reading<BodyPattern>, AllocError>
    ensures { IfOk result (λ pattern. pattern ≡ path_object_of (view value.now)) }
{
    let words = [
        "expression",
        "equalTo",
        "caseInsensitive",
        "contains",
        "doesNotContain",
        "matches",
        "doesNotMatch",
        "absent",
    ];
    let expression = needed(text_field(alloc, "expression", value)?);
    let part = path_with(expression, needed(value_in(alloc, value)?));
    Ok(only(&words, value, part))
}

fn path_with(expression: Reading<Text>, matcher: Reading<ValueSpec>) -> Reading<BodyPattern>
    ensures { result ≡ read_map (λ p. JsonPath p.0 p.1) (both expression matcher) }
{
    match both(expression, matcher) {
        Reading::Read((expression, matcher)) => Reading::Read(BodyPattern::JsonPath {
            expression,
            matcher,
        }),
        Reading::Wrong(kind) => Reading::Wrong(kind),
    }
}
