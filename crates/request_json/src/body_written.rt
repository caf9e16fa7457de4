// The object that is written for a body matcher.
ghost use Rattle.std.specs.Prelude.{◌≡◌, IfOk, OnOk, codes};
ghost use Rattle.request_json.specs.BodyWritten.{with_expected, with_json, with_pattern, json_of_pattern};
ghost use Rattle.request_json.specs.BodyWritten.{written_expected};
ghost use Rattle.request_json.specs.ValueWritten.{with_value};
ghost use Rattle.serde_json.specs.Data.{object, put, string, no_members};
ghost use Rattle.serde_json.specs.View.{view, members_view};

use crate::value_written::put_value;
use base64::engine::general_purpose::STANDARD;
use json_match::json_spec::JsonSpec;
use json_reading::numbers::json_text_of;
use json_reading::reading::Reading;
use json_reading::written::{put_flag, put_text};
use mapping_model::body_pattern::BodyPattern;
use plain_text::text::Text;
use serde_json::{Map, Value};
use std::alloc::{AllocError, Global};
use value_match::value_spec::ValueSpec;

pub(crate) fn write_pattern(alloc: Global, pattern: &BodyPattern) -> Result<Value, AllocError>
    ensures { IfOk result (λ value. view value ≡ json_of_pattern pattern.now) }
{
    let mut members = Map::new(alloc);
    put_pattern(alloc, &mut members, pattern)?;
    Ok(Value::Object(members))
}

fn put_pattern(
    alloc: Global,
    members: &mut Map<String, Value>,
    pattern: &BodyPattern,
) -> Result<(), AllocError>
    ensures { OnOk result (members_view members.new.entries
        ≡ with_pattern pattern.now (members_view members.old.entries)) }
{
    match pattern {
        BodyPattern::Value(matcher) => put_value(alloc, members, matcher),
        BodyPattern::BinaryEqualTo(bytes) => {
            let text = STANDARD.encode(alloc, bytes.as_slice())?;
            serde_json::put(members, alloc, "binaryEqualTo", Value::String(text))
        }
        BodyPattern::Json(matcher) => put_json(alloc, members, matcher),
        BodyPattern::JsonPath {
            expression,
            matcher,
        } => {
            let value = write_path(alloc, expression, matcher)?;
            serde_json::put(members, alloc, "matchesJsonPath", value)
        }
    }
}

fn write_path(alloc: Global, expression: &Text, matcher: &ValueSpec) -> Result<Value, AllocError>
    ensures { IfOk result (λ value. view value
        ≡ object (with_value matcher.now (put (codes "expression") (string expression.now) no_members))) }
{
    let mut members = Map::new(alloc);
    put_text(alloc, &mut members, "expression", expression)?;
    put_value(alloc, &mut members, matcher)?;
    Ok(Value::Object(members))
}

fn put_json(
    alloc: Global,
    members: &mut Map<String, Value>,
    matcher: &JsonSpec,
) -> Result<(), AllocError>
    ensures { OnOk result (members_view members.new.entries
        ≡ with_json matcher.now (members_view members.old.entries)) }
{
    match matcher {
        JsonSpec::EqualTo {
            expected,
            ignore_array_order,
            ignore_extra_elements,
        } => put_expected(
            alloc,
            members,
            expected,
            *ignore_array_order,
            *ignore_extra_elements,
        ),
        JsonSpec::Path(path) => put_text(alloc, members, "matchesJsonPath", path),
    }
}

fn put_expected(
    alloc: Global,
    members: &mut Map<String, Value>,
    expected: &Text,
    any_order: bool,
    more: bool,
) -> Result<(), AllocError>
    ensures { OnOk result (members_view members.new.entries
        ≡ with_expected expected.now any_order more (members_view members.old.entries)) }
{
    let text = written_expected(alloc, expected)?;
    serde_json::put(members, alloc, "equalToJson", text)?;
    put_flag(alloc, members, "ignoreArrayOrder", any_order)?;
    put_flag(alloc, members, "ignoreExtraElements", more)
}

/// The compact text of the expected JSON text, which is read for it.
#[tactic(auto, unfolding(crate::specs::BodyWritten::written_expected))]
fn written_expected(alloc: Global, expected: &Text) -> Result<Value, AllocError>
    ensures { IfOk result (λ text. view text ≡ string (written_expected expected.now)) }
{
    match Value::from_str(alloc, expected.as_str()) {
        Ok(value) => match json_text_of(alloc, &value)? {
            Reading::Read(text) => Ok(Value::String(text.into_text().into_string())),
            Reading::Wrong(_) => Value::try_from_str(alloc, expected.as_str()),
        },
        Err(error) => if error.is_memory() {
            Err(AllocError)
        } else {
            Value::try_from_str(alloc, expected.as_str())
        },
    }
}
