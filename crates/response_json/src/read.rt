// From a JSON value to a response.
ghost use Rattle.std.specs.Prelude.{◌≡◌, IfOk};
ghost use Rattle.json_reading.specs.Fields.{each_item};
ghost use Rattle.response_json.specs.Reading.{reading_of_response, spelled_response, are_taken, fields_taken};
ghost use Rattle.response_json.specs.Reading.{status_of, status_in, headers_in, body_in, text_in, json_in, base64_in};
ghost use Rattle.response_json.specs.Reading.{is_templated_in, is_templated_by, transformer_of, response_in};
ghost use Rattle.serde_json.specs.View.{view, items_view, members_view};

use crate::draft::{ResponseDraft, no_headers};
use crate::header_reading::headers_of;
use json_reading::fields::{bytes_of, only, text_of};
use json_reading::kind::Kind;
use json_reading::numbers::{is_taken, json_text_of};
use json_reading::reading::{Reading, both, either, push, wrong_also};
use mapping_model::header_lines::HeaderLines;
use mapping_model::response_spec::Body;
use mapping_model::status::Status;
use plain_text::items::Items;
use plain_text::text::Text;
use serde_json::{Map, Value};
use std::alloc::{AllocError, Global};

/// The response that a value spells, or the way in which it is wrong that is reported first.
#[inline(never)]
pub fn read_response(alloc: Global, value: &Value) -> Result<Reading<ResponseDraft>, AllocError>
    ensures { IfOk result (λ response. response ≡ reading_of_response (view value.now)) }
{
    let response = spelled_response(alloc, value)?;
    if are_taken(value) {
        Ok(response)
    } else {
        Ok(wrong_also(Kind::NumberNotWhole, response))
    }
}

fn are_taken(value: &Value) -> bool
    ensures { result ≡ are_taken (view value.now) }
{
    match value {
        Value::Object(members) => fields_taken(members),
        value => is_taken(value),
    }
}

fn fields_taken(members: &Map<String, Value>) -> bool
    ensures { result ≡ fields_taken (members_view members.now.entries) }
{
    for (name, value) in members.iter() {
        if name.as_str() != "statusMessage" && !is_taken(value) {
            return false;
        }
    }
    true
}

#[tactic(auto, using(crate::proofs::Judged::not_spelled))]
fn spelled_response(alloc: Global, value: &Value) -> Result<Reading<ResponseDraft>, AllocError>
    ensures { IfOk result (λ response. response ≡ spelled_response (view value.now)) }
{
    if value.is_object() {
        object_response(alloc, value)
    } else {
        Ok(Reading::Wrong(Kind::Misshapen))
    }
}

// Not inlined: a function clears all its locals when it is entered, and a value that is no object needs none of these.
#[inline(never)]
fn object_response(alloc: Global, value: &Value) -> Result<Reading<ResponseDraft>, AllocError>
    ensures { IfOk result (λ response. response ≡ spelled_response (view value.now)) }
{
    let names = [
        "status",
        "statusMessage",
        "headers",
        "body",
        "jsonBody",
        "base64Body",
        "transformers",
    ];
    Ok(only(names.as_slice(), value, response_in(alloc, value)?))
}

fn response_in(alloc: Global, value: &Value) -> Result<Reading<ResponseDraft>, AllocError>
    ensures { IfOk result (λ response. response ≡ response_in (view value.now)) }
{
    let head = both(status_in(value), headers_in(alloc, value)?);
    let rest = both(body_in(alloc, value)?, is_templated_in(alloc, value)?);
    match both(head, rest) {
        Reading::Read(((status, headers), (body, is_templated))) => {
            Ok(Reading::Read(ResponseDraft {
                status,
                headers,
                body,
                is_templated,
            }))
        }
        Reading::Wrong(kind) => Ok(Reading::Wrong(kind)),
    }
}

fn status_in(value: &Value) -> Reading<Status>
    ensures { result ≡ status_in (view value.now) }
{
    match value.get("status") {
        Some(status) => status_of(status),
        None => Reading::Read(Status::ok()),
    }
}

fn status_of(value: &Value) -> Reading<Status>
    ensures { result ≡ status_of (view value.now) }
{
    match value.as_u64() {
        Some(code @ 200..=599) => match Status::new(code as u16) {
            Some(status) => Reading::Read(status),
            None => Reading::Wrong(Kind::Misshapen),
        },
        _ => Reading::Wrong(Kind::Misshapen),
    }
}

fn headers_in(alloc: Global, value: &Value) -> Result<Reading<HeaderLines<Text>>, AllocError>
    ensures { IfOk result (λ headers. headers ≡ headers_in (view value.now)) }
{
    match value.get("headers") {
        Some(headers) => headers_of(alloc, headers),
        None => Ok(Reading::Read(no_headers(alloc))),
    }
}

fn body_in(alloc: Global, value: &Value) -> Result<Reading<Body<Text>>, AllocError>
    ensures { IfOk result (λ body. body ≡ body_in (view value.now)) }
{
    let other = either(
        Kind::Misshapen,
        json_in(alloc, value)?,
        base64_in(alloc, value)?,
    );
    match either(Kind::Misshapen, text_in(alloc, value)?, other) {
        Reading::Read(Some(body)) => Ok(Reading::Read(body)),
        Reading::Read(None) => Ok(Reading::Read(Body::Empty)),
        Reading::Wrong(kind) => Ok(Reading::Wrong(kind)),
    }
}

fn text_in(alloc: Global, value: &Value) -> Result<Reading<Option<Body<Text>>>, AllocError>
    ensures { IfOk result (λ body. body ≡ text_in (view value.now)) }
{
    let Some(body) = value.get("body") else {
        return Ok(Reading::Read(None));
    };
    match text_of(alloc, body)? {
        Reading::Read(text) => Ok(Reading::Read(Some(Body::of_text(text)))),
        Reading::Wrong(kind) => Ok(Reading::Wrong(kind)),
    }
}

fn json_in(alloc: Global, value: &Value) -> Result<Reading<Option<Body<Text>>>, AllocError>
    ensures { IfOk result (λ body. body ≡ json_in (view value.now)) }
{
    let Some(body) = value.get("jsonBody") else {
        return Ok(Reading::Read(None));
    };
    match json_text_of(alloc, body)? {
        Reading::Read(text) => Ok(Reading::Read(Some(Body::Json(text)))),
        Reading::Wrong(kind) => Ok(Reading::Wrong(kind)),
    }
}

fn base64_in(alloc: Global, value: &Value) -> Result<Reading<Option<Body<Text>>>, AllocError>
    ensures { IfOk result (λ body. body ≡ base64_in (view value.now)) }
{
    let Some(body) = value.get("base64Body") else {
        return Ok(Reading::Read(None));
    };
    match bytes_of(alloc, body)? {
        Reading::Read(bytes) => Ok(Reading::Read(Some(Body::Base64(bytes)))),
        Reading::Wrong(kind) => Ok(Reading::Wrong(kind)),
    }
}

fn is_templated_in(alloc: Global, value: &Value) -> Result<Reading<bool>, AllocError>
    ensures { IfOk result (λ yes. yes ≡ is_templated_in (view value.now)) }
{
    match value.get("transformers") {
        Some(transformers) => is_templated_by(alloc, transformers),
        None => Ok(Reading::Read(false)),
    }
}

fn is_templated_by(alloc: Global, value: &Value) -> Result<Reading<bool>, AllocError>
    ensures { IfOk result (λ yes. yes ≡ is_templated_by (view value.now)) }
{
    let Value::Array(transformers) = value else {
        return Ok(Reading::Wrong(Kind::Misshapen));
    };
    match transformers_of(alloc, transformers)? {
        Reading::Read(transformers) => Ok(Reading::Read(!transformers.as_slice().is_empty())),
        Reading::Wrong(kind) => Ok(Reading::Wrong(kind)),
    }
}

fn transformers_of(alloc: Global, values: &Vec<Value>) -> Result<Reading<Items<Text>>, AllocError>
    ensures { IfOk result (λ found. found ≡ each_item transformer_of (items_view values.now.items)) }
{
    let mut found = Reading::Read(Items::from(Vec::new(alloc)));
    for value in values {
        found = push(found, transformer_of(alloc, value)?)?;
    }
    Ok(found)
}

fn transformer_of(alloc: Global, value: &Value) -> Result<Reading<Text>, AllocError>
    ensures { IfOk result (λ found. found ≡ transformer_of (view value.now)) }
{
    match text_of(alloc, value)? {
        Reading::Read(text) => if text.as_str() == "response-template" {
            Ok(Reading::Read(text))
        } else {
            Ok(Reading::Wrong(Kind::Unsupported))
        },
        Reading::Wrong(kind) => Ok(Reading::Wrong(kind)),
    }
}
