// The values of single fields.
use crate::fault::{Fault, Found};
use crate::numbers::number_fault;
use crate::reasons::{json_reason, pattern_reason, template_reason};
use crate::shown::{joined, quoted, shortened};
use crate::sought::Sought;
use json_bridge::error::JsonPathError;
use json_bridge::json_path::JsonPath;
use json_reading::fields::bytes_of;
use json_reading::reading::Reading;
use mapping_model::mapping_id::MappingId;
use path_template::error::PathTemplateError;
use path_template::path_template::PathTemplate;
use serde_json::Value;
use std::alloc::{AllocError, Global};

/// What the value of a field has to be.
#[derive(Clone, Copy, PartialEq, Eq)]
pub(crate) enum Leaf {
    Text,
    /// A text, which may be a template.
    Source,
    Truth,
    /// `true`.
    True,
    /// A whole number of 32 bits with a sign.
    Priority,
    /// 200 to 599.
    Status,
    Uuid,
    Base64,
    Pattern,
    PathTemplate,
    /// JSON, or its text.
    ExpectedJson,
    JsonPath,
    EmptyList,
    Transformer,
    Json,
    EmptyObject,
    /// Where a recording forwards requests to.
    Target,
}

/// What is wrong in the sought way with the value of a field.
pub(crate) fn leaf_fault(alloc: Global, leaf: Leaf, value: &Value, sought: Sought) -> Found {
    let is_right = match sought {
        Sought::Shape => has_shape(alloc, leaf, value)?,
        Sought::Field => is_supported(leaf, value),
        _ => return text_fault(alloc, leaf, value, sought),
    };
    if is_right {
        return Ok(None);
    }
    Ok(Some(Fault::of(alloc, wanted(leaf, sought), value)?))
}

fn is_supported(leaf: Leaf, value: &Value) -> bool {
    match leaf {
        Leaf::EmptyList => is_empty_list(value),
        Leaf::Transformer => value.as_str() == Some("response-template"),
        Leaf::EmptyObject => !has_members(value),
        _ => true,
    }
}

fn has_shape(alloc: Global, leaf: Leaf, value: &Value) -> Result<bool, AllocError> {
    Ok(match leaf {
        Leaf::Truth => matches!(value, Value::Bool(_)),
        Leaf::True => matches!(value, Value::Bool(true)),
        Leaf::Priority => is_priority(value),
        Leaf::Status => matches!(value.as_u64(), Some(200..=599)),
        Leaf::Uuid => is_uuid(value),
        Leaf::Base64 => matches!(bytes_of(alloc, value)?, Reading::Read(_)),
        Leaf::ExpectedJson | Leaf::EmptyList | Leaf::Json => true,
        Leaf::EmptyObject => value.is_object(),
        _ => value.is_string(),
    })
}

fn wanted(leaf: Leaf, sought: Sought) -> &'static str {
    match leaf {
        Leaf::Truth => "true or false",
        Leaf::True => "true",
        Leaf::Priority => "a whole number from -2147483648 to 2147483647",
        Leaf::Status => "a whole number from 200 to 599",
        Leaf::Uuid => "a UUID, as \"3f83df0b-a3bf-5f1c-9b5c-bffae2bac110\"",
        Leaf::Base64 => "a text in base64, with padding",
        Leaf::EmptyList => "no such field, or an empty list",
        Leaf::ExpectedJson | Leaf::Json => "JSON",
        Leaf::EmptyObject => "an empty object",
        Leaf::Transformer if sought == Sought::Field =>
            "\"response-template\", the one transformer",
        _ => "a text",
    }
}

fn is_priority(value: &Value) -> bool {
    matches!(value.as_i64(), Some(number) if i32::try_from(number).is_ok())
}

fn is_uuid(value: &Value) -> bool {
    matches!(value.as_str(), Some(text) if MappingId::parse(text).is_some())
}

fn is_empty_list(value: &Value) -> bool {
    matches!(value.as_array(), Some(items) if items.is_empty())
}

fn has_members(value: &Value) -> bool {
    matches!(value.as_object(), Some(members) if !members.is_empty())
}

/// What is wrong with a text that has the shape of a text.
fn text_fault(alloc: Global, leaf: Leaf, value: &Value, sought: Sought) -> Found {
    let Some(text) = value.as_str() else {
        return Ok(None);
    };
    match (leaf, sought) {
        (Leaf::Pattern, Sought::Pattern) => {
            reasoned(alloc, PATTERN, text, pattern_reason(alloc, text)?)
        }
        (Leaf::PathTemplate, Sought::PathTemplate) => path_template_fault(alloc, text, value),
        (Leaf::ExpectedJson, Sought::ExpectedJson) => {
            reasoned(alloc, EXPECTED, text, json_reason(alloc, text.as_bytes())?)
        }
        (Leaf::ExpectedJson, Sought::ExpectedNumber) => expected_number_fault(alloc, text),
        (Leaf::JsonPath, Sought::Path) => path_fault(alloc, text, value),
        (Leaf::Source, Sought::Template) => source_fault(alloc, text),
        // There is one, so that the error is its.
        (Leaf::Target, Sought::Target) => Ok(Some(Fault::of(alloc, TARGET, value)?)),
        _ => Ok(None),
    }
}

const PATTERN: &str = "a regular expression";

const TARGET: &str =
    "http://host[:port][/prefix] with localhost, an IPv4 address or an IPv6 address in brackets as its host";

const EXPECTED: &str = "JSON or the text of JSON";

/// The fault of a text, if there is a reason why it isn't what is wanted.
fn reasoned(alloc: Global, wanted: &str, text: &str, reason: Option<String>) -> Found {
    let Some(reason) = reason else {
        return Ok(None);
    };
    let found = quoted(alloc, text)?;
    let texts = [
        "wanted ",
        wanted,
        ", found ",
        found.as_str(),
        ": ",
        reason.as_str(),
    ];
    Ok(Some(Fault::saying(alloc, joined(alloc, texts.as_slice())?)))
}

fn path_template_fault(alloc: Global, text: &str, value: &Value) -> Found {
    match PathTemplate::parse(alloc, text) {
        Ok(_template) => Ok(None),
        Err(PathTemplateError::OutOfMemory) => Err(AllocError),
        Err(PathTemplateError::BadUrl) => Ok(Some(Fault::of(alloc, PATH_TEMPLATE, value)?)),
    }
}

const PATH_TEMPLATE: &str = "a path that begins with / and has no ?, each {name} once";

fn path_fault(alloc: Global, text: &str, value: &Value) -> Found {
    match JsonPath::parse(alloc, text) {
        Ok(_path) => Ok(None),
        Err(JsonPathError::OutOfMemory) => Err(AllocError),
        Err(JsonPathError::BadPath) => Ok(Some(Fault::of(alloc, JSON_PATH, value)?)),
    }
}

const JSON_PATH: &str = "a JSON path: $ and steps .name, ['text'] or [0]";

fn expected_number_fault(alloc: Global, text: &str) -> Found {
    let Ok(value) = Value::from_str(alloc, text) else {
        return Ok(None);
    };
    let Some(fault) = number_fault(alloc, &value)? else {
        return Ok(None);
    };
    let Fault { pointer, said } = fault;
    let pointer = shortened(alloc, pointer.as_str())?;
    let texts = [
        "in the JSON of this text, at \"",
        pointer.as_str(),
        "\": ",
        said.as_str(),
    ];
    Ok(Some(Fault::saying(alloc, joined(alloc, texts.as_slice())?)))
}

fn source_fault(alloc: Global, text: &str) -> Found {
    match template_reason(alloc, text)? {
        Some(reason) => {
            let said = joined(alloc, ["wanted a template: ", reason.as_str()].as_slice())?;
            Ok(Some(Fault::saying(alloc, said)))
        }
        None => Ok(None),
    }
}
