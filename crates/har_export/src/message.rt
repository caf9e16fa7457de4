// Requests and replies.
ghost use Rattle.std.specs.Prelude.{◌≡◌, [], unwrap_or, IfOk};
ghost use Rattle.har_export.specs.Message.{json_of_request, json_of_reply, received_members, status_phrase};
ghost use Rattle.http.specs.StatusCode.{reason_phrase};
ghost use Rattle.mock_request.specs.HeaderFields.{header_pairs};
ghost use Rattle.mock_request.specs.Values.{pairs_of};
ghost use Rattle.serde_json.specs.View.{members_view, view};

use crate::content::{content_value, mime_type, put_post_data};
use crate::pairs::{cookies_set, first_named, pairs_value, reply_pairs};
use http::StatusCode;
use mapping_model::reply::Reply;
use mock_request::cookies::cookie_pairs;
use mock_request::header_fields::header_pairs;
use mock_request::query::query_pairs;
use mock_request::snapshot::Snapshot;
use recorder::forwarding::forwarded_url;
use recorder::target::Target;
use serde_json::{Map, Value};
use std::alloc::{AllocError, Global};

/// The request of an exchange with the target.
#[tactic(auto, unfolding(crate::specs::Message::json_of_request))]
pub(crate) fn request_value(
    alloc: Global,
    target: &Target,
    request: &Snapshot,
) -> Result<Value, AllocError>
    ensures { IfOk result (λ value. view value ≡ json_of_request target.now request.now) }
{
    let headers = header_pairs(alloc, request)?;
    let mut members = received_members(alloc, request, headers.as_slice())?;
    put_post_data(
        alloc,
        &mut members,
        mime_type(headers.as_slice()),
        request.body(),
    )?;
    let query = query_pairs(alloc, request)?;
    let query = pairs_value(alloc, query.as_slice())?;
    serde_json::put(&mut members, alloc, "queryString", query)?;
    let url = Value::String(forwarded_url(alloc, target, request.url())?);
    serde_json::put(&mut members, alloc, "url", url)?;
    Ok(Value::Object(members))
}

// What was received, without its content.
#[tactic(auto, unfolding(crate::specs::Message::received_members))]
fn received_members(
    alloc: Global,
    request: &Snapshot,
    headers: &[(String, String)],
) -> Result<Map<String, Value>, AllocError>
    requires { pairs_of headers.now ≡ header_pairs request.now.headers }
    ensures { IfOk result (λ members. members_view members.entries ≡ received_members request.now) }
{
    let cookies = cookie_pairs(alloc, request)?;
    let mut members = Map::new(alloc);
    serde_json::put(
        &mut members,
        alloc,
        "bodySize",
        Value::from(request.body().len()),
    )?;
    let cookies = pairs_value(alloc, cookies.as_slice())?;
    serde_json::put(&mut members, alloc, "cookies", cookies)?;
    let headers = pairs_value(alloc, headers)?;
    serde_json::put(&mut members, alloc, "headers", headers)?;
    serde_json::put(&mut members, alloc, "headersSize", Value::from(-1_i64))?;
    let version = Value::try_from_str(alloc, "HTTP/1.1")?;
    serde_json::put(&mut members, alloc, "httpVersion", version)?;
    let method = Value::try_from_str(alloc, request.method())?;
    serde_json::put(&mut members, alloc, "method", method)?;
    Ok(members)
}

/// The reply of an exchange.
#[tactic(auto, unfolding(crate::specs::Message::json_of_reply))]
pub(crate) fn reply_value(alloc: Global, reply: &Reply) -> Result<Value, AllocError>
    ensures { IfOk result (λ value. view value ≡ json_of_reply reply.now) }
{
    let headers = reply_pairs(alloc, reply.headers.as_slice())?;
    let cookies = cookies_set(alloc, headers.as_slice())?;
    let mut members = Map::new(alloc);
    serde_json::put(
        &mut members,
        alloc,
        "bodySize",
        Value::from(reply.body.len()),
    )?;
    let content = content_value(alloc, mime_type(headers.as_slice()), reply.body.as_slice())?;
    serde_json::put(&mut members, alloc, "content", content)?;
    let cookies = pairs_value(alloc, cookies.as_slice())?;
    serde_json::put(&mut members, alloc, "cookies", cookies)?;
    let listed = pairs_value(alloc, headers.as_slice())?;
    serde_json::put(&mut members, alloc, "headers", listed)?;
    serde_json::put(&mut members, alloc, "headersSize", Value::from(-1_i64))?;
    let version = Value::try_from_str(alloc, "HTTP/1.1")?;
    serde_json::put(&mut members, alloc, "httpVersion", version)?;
    let location = Value::try_from_str(alloc, first_named("location", "", headers.as_slice()))?;
    serde_json::put(&mut members, alloc, "redirectURL", location)?;
    serde_json::put(&mut members, alloc, "status", Value::from(reply.status))?;
    let phrase = Value::try_from_str(alloc, status_phrase(reply.status))?;
    serde_json::put(&mut members, alloc, "statusText", phrase)?;
    Ok(Value::Object(members))
}

// The standard phrase of a status, or none.
fn status_phrase(status: u16) -> &'static str
    ensures { result.now ≡ status_phrase status }
{
    if status < 100 || 999 < status {
        return "";
    }
    match StatusCode::from_u16(status) {
        Ok(status) => reason_phrase(status),
        Err(_invalid) => unreachable!(),
    }
}

fn reason_phrase(status: StatusCode) -> &'static str
    ensures { result.now ≡ unwrap_or (reason_phrase status) [] }
{
    status.canonical_reason().unwrap_or("")
}
