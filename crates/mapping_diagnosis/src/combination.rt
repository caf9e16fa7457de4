// Objects whose members are right one by one, but not together.
use crate::fault::{Fault, Found};
use crate::part::{BODY_WORDS, Part, VALUE_WORDS};
use crate::shown::{joined, quoted};
use crate::sought::Sought;
use mapping_model::field_name::FieldName;
use mapping_model::header_lines::HEADER_LIMIT;
use plain_text::text::Text;
use serde_json::{Map, Value};
use std::alloc::{AllocError, Global};

/// What is wrong in the sought way with an object as a whole.
pub(crate) fn combination_fault(alloc: Global, part: Part, value: &Value, sought: Sought) -> Found {
    match (part, sought) {
        (Part::Request, Sought::Shape) => lonely(alloc, value, "pathParameters", "urlPathTemplate"),
        (Part::Request, Sought::Urls) => several_of(alloc, value, URLS, URL_FIELDS.as_slice()),
        (Part::Response, Sought::Shape) => several_of(alloc, value, BODIES, BODY_FIELDS.as_slice()),
        (Part::Headers, Sought::Shape) => headers_fault(alloc, value),
        (Part::ValueMatcher, Sought::Shape) => words_fault(
            alloc,
            value,
            VALUE_WORDS,
            VALUE_FIELDS.as_slice(),
        ),
        (Part::BodyMatcher, Sought::Shape) => body_fault(alloc, value),
        (Part::PathMatcher, Sought::Shape) => path_fault(alloc, value),
        (Part::Recording, Sought::Shape) => lacking(alloc, value, "targetBaseUrl"),
        (Part::ScenarioState, Sought::Shape) => lacking(alloc, value, "state"),
        _ => Ok(None),
    }
}

const URLS: &str = "at most one of url, urlPattern, urlPath, urlPathPattern, urlPathTemplate";

const URL_FIELDS: [&str; 5] = [
    "url",
    "urlPattern",
    "urlPath",
    "urlPathPattern",
    "urlPathTemplate",
];

const BODIES: &str = "at most one of body, jsonBody, base64Body";

const BODY_FIELDS: [&str; 3] = ["body", "jsonBody", "base64Body"];

const VALUE_FIELDS: [&str; 6] = [
    "equalTo",
    "contains",
    "doesNotContain",
    "matches",
    "doesNotMatch",
    "absent",
];

const BODY_MATCHERS: [&str; 9] = [
    "equalTo",
    "contains",
    "doesNotContain",
    "matches",
    "doesNotMatch",
    "absent",
    "binaryEqualTo",
    "equalToJson",
    "matchesJsonPath",
];

fn several_of(alloc: Global, value: &Value, wanted: &str, names: &[&str]) -> Found {
    if count_of(names, value) < 2 {
        return Ok(None);
    }
    Ok(Some(Fault::of(alloc, wanted, value)?))
}

/// How many of the names the object has.
fn count_of(names: &[&str], value: &Value) -> usize {
    let mut count = 0usize;
    for name in names {
        if value.get(*name).is_some() {
            count = count.saturating_add(1);
        }
    }
    count
}

/// A matcher has one of its words, and `caseInsensitive` only beside `equalTo`.
fn words_fault(alloc: Global, value: &Value, words: &str, names: &[&str]) -> Found {
    let found = lonely(alloc, value, "caseInsensitive", "equalTo")?;
    if found.is_some() || count_of(names, value) == 1 {
        return Ok(found);
    }
    let wanted = joined(alloc, ["exactly one of ", words].as_slice())?;
    Ok(Some(Fault::of(alloc, wanted.as_str(), value)?))
}

fn body_fault(alloc: Global, value: &Value) -> Found {
    let found = lonely(alloc, value, "ignoreArrayOrder", "equalToJson")?;
    if found.is_some() {
        return Ok(found);
    }
    let found = lonely(alloc, value, "ignoreExtraElements", "equalToJson")?;
    if found.is_some() {
        return Ok(found);
    }
    words_fault(alloc, value, BODY_WORDS, BODY_MATCHERS.as_slice())
}

fn path_fault(alloc: Global, value: &Value) -> Found {
    if value.get("expression").is_none() {
        return Ok(Some(Fault::of(alloc, "a JSON path as `expression`", value)?));
    }
    words_fault(alloc, value, VALUE_WORDS, VALUE_FIELDS.as_slice())
}

/// A field that has to be there.
fn lacking(alloc: Global, value: &Value, name: &str) -> Found {
    if value.get(name).is_some() {
        return Ok(None);
    }
    let wanted = joined(alloc, ["the field ", name].as_slice())?;
    Ok(Some(Fault::of(alloc, wanted.as_str(), value)?))
}

/// A field that has no meaning without another.
fn lonely(alloc: Global, value: &Value, name: &str, other: &str) -> Found {
    let Some(member) = value.get(name) else {
        return Ok(None);
    };
    if value.get(other).is_some() {
        return Ok(None);
    }
    let wanted = joined(alloc, ["`", other, "` beside it"].as_slice())?;
    let fault = Fault::of(alloc, wanted.as_str(), member)?;
    Ok(Some(fault.under(alloc, name)?))
}

// ---- headers

fn headers_fault(alloc: Global, value: &Value) -> Found {
    let Some(members) = value.as_object() else {
        return Ok(None);
    };
    let found = name_fault(alloc, members)?;
    if found.is_some() || line_count(members) <= HEADER_LIMIT {
        return Ok(found);
    }
    Ok(Some(Fault::of(alloc, "at most 100 header lines", value)?))
}

/// The first name that is none.
fn name_fault(alloc: Global, members: &Map<String, Value>) -> Found {
    for (name, _member) in members.iter() {
        if !is_header_name(alloc, name.as_str())? {
            return Ok(Some(bad_name(alloc, name.as_str())?));
        }
    }
    Ok(None)
}

fn is_header_name(alloc: Global, name: &str) -> Result<bool, AllocError> {
    Ok(FieldName::new(Text::from(String::from_str(alloc, name)?)).is_some())
}

fn bad_name(alloc: Global, name: &str) -> Result<Fault, AllocError> {
    let found = quoted(alloc, name)?;
    let wanted = "wanted the name of a header, a token by RFC 9110, found ";
    let said = joined(alloc, [wanted, found.as_str()].as_slice())?;
    Fault::saying(alloc, said).under(alloc, name)
}

fn line_count(members: &Map<String, Value>) -> usize {
    let mut count = 0usize;
    for (_name, member) in members.iter() {
        let lines = match member.as_array() {
            Some(items) => items.len(),
            None => 1,
        };
        count = count.saturating_add(lines);
    }
    count
}
