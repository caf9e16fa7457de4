// The content of messages.
ghost use Rattle.std.specs.Prelude.{◌≡◌, IfOk, OnOk, string_bytes, true, false, MatchOption};
ghost use Rattle.std.specs.Str.{is_utf8};
ghost use Rattle.har_export.specs.Content.{content_text, with_encoding, mime_type, json_of_post_data, with_post_data};
ghost use Rattle.har_export.specs.Content.{json_of_content};
ghost use Rattle.mock_request.specs.Values.{pairs_of};
ghost use Rattle.serde_json.specs.Data.{put};
ghost use Rattle.serde_json.specs.View.{view, members_view};

use crate::pairs::first_named;
use base64::engine::general_purpose::STANDARD;
use serde_json::{Map, Value};
use std::alloc::{AllocError, Global};
use std::str;

/// The type of a content by the message's headers.
pub(crate) fn mime_type<'a>(pairs: &'a [(String, String)]) -> &'a str
    ensures { result.now ≡ mime_type (pairs_of pairs.now) }
{
    first_named("content-type", "application/octet-stream", pairs)
}

/// Puts the content of a request among its members, where it has any.
pub(crate) fn put_post_data(
    alloc: Global,
    members: &mut Map<String, Value>,
    mime: &str,
    bytes: &[u8],
) -> Result<(), AllocError>
    ensures { OnOk result (members_view members.new.entries
        ≡ with_post_data mime.now bytes.now (members_view members.old.entries)) }
{
    if bytes.is_empty() {
        return Ok(());
    }
    let data = post_data_value(alloc, mime, bytes)?;
    serde_json::put(members, alloc, "postData", data)
}

fn post_data_value(alloc: Global, mime: &str, bytes: &[u8]) -> Result<Value, AllocError>
    ensures { IfOk result (λ value. view value ≡ json_of_post_data mime.now bytes.now) }
{
    let mut members = Map::new(alloc);
    put_encoding(alloc, &mut members, "comment", bytes)?;
    let mime = Value::try_from_str(alloc, mime)?;
    serde_json::put(&mut members, alloc, "mimeType", mime)?;
    let text = Value::String(content_text(alloc, bytes)?);
    serde_json::put(&mut members, alloc, "text", text)?;
    Ok(Value::Object(members))
}

/// The content of a reply.
pub(crate) fn content_value(alloc: Global, mime: &str, bytes: &[u8]) -> Result<Value, AllocError>
    ensures { IfOk result (λ value. view value ≡ json_of_content mime.now bytes.now) }
{
    let mut members = Map::new(alloc);
    put_encoding(alloc, &mut members, "encoding", bytes)?;
    let mime = Value::try_from_str(alloc, mime)?;
    serde_json::put(&mut members, alloc, "mimeType", mime)?;
    serde_json::put(&mut members, alloc, "size", Value::from(bytes.len()))?;
    let text = Value::String(content_text(alloc, bytes)?);
    serde_json::put(&mut members, alloc, "text", text)?;
    Ok(Value::Object(members))
}

fn put_encoding(
    alloc: Global,
    members: &mut Map<String, Value>,
    name: &str,
    bytes: &[u8],
) -> Result<(), AllocError>
    ensures { OnOk result (members_view members.new.entries
        ≡ with_encoding name.now bytes.now (members_view members.old.entries)) }
{
    if utf8(bytes).is_some() {
        return Ok(());
    }
    let encoding = Value::try_from_str(alloc, "base64")?;
    serde_json::put(members, alloc, name, encoding)
}

fn content_text(alloc: Global, bytes: &[u8]) -> Result<String, AllocError>
    ensures { IfOk result (λ text. string_bytes text ≡ content_text bytes.now) }
{
    match utf8(bytes) {
        Some(text) => String::from_str(alloc, text),
        None => STANDARD.encode(alloc, bytes),
    }
}

fn utf8(bytes: &[u8]) -> Option<&str>
    ensures { MatchOption result (is_utf8 bytes.now ≡ false)
        (λ text. (is_utf8 bytes.now ≡ true) × (text.now ≡ bytes.now)) }
{
    match str::from_utf8(bytes) {
        Ok(text) => Some(text),
        Err(_error) => None,
    }
}
