// What is sent of a response.
ghost use Rattle.std.specs.Prelude.{◌≡◌, All, IfOk, IsTrue, OnOk};
ghost use Rattle.http_header.specs.HeaderMap.{pairs};
ghost use Rattle.http_messages.specs.Inner.AsSent.{IsAsSent};
ghost use Rattle.http_messages.specs.Wire.{IsSent, has_no_content, is_blank, sent_headers, with_sent};
ghost use Rattle.http_messages.specs.Wire.{without_blanks, without_end_blanks, without_front_blanks};

use bytes::Bytes;
use http::response::Parts;
use http::{HeaderMap, HeaderName, HeaderValue, Response, StatusCode};
use mock_request::connection_names::is_connection_name;
use std::alloc::{AllocError, Global};

/// Whether a response is sent as it is: most are, and nothing of them is made anew. `sent` makes what is sent
/// of the others.
pub fn is_as_sent<B: Default>(response: &Response<B>) -> bool
    ensures { IsTrue result → IsSent B.is_default response.now response.now }
{
    !has_no_content(response.status()) && are_as_sent(response.headers())
}

/// What is sent of a response: without headers that say how a message is framed, without blanks at the ends of values,
/// and without content where its status allows none: then its body is the empty one. The connection frames it.
// Not inlined: a function clears all its locals when it is entered, and a response that is sent as it is needs
// none of these.
#[inline(never)]
pub fn sent<B: Default + Drop>(
    alloc: Global,
    response: Response<B>,
) -> Result<Response<B>, AllocError>
    ensures { IfOk result (IsSent B.is_default response) }
{
    let (head, body) = response.into_parts();
    let headers = sent_headers(alloc, &head.headers)?;
    let body = if has_no_content(head.status) {
        B::default()
    } else {
        body
    };
    let head = Parts {
        status: head.status,
        version: head.version,
        headers,
    };
    Ok(Response::from_parts(head, body))
}

fn are_as_sent(headers: &HeaderMap) -> bool
    ensures { IsTrue result → sent_headers headers.now ≡ headers.now }
{
    headers.keys_len() == 0 || is_each_as_sent(headers)
}

fn is_each_as_sent(headers: &HeaderMap) -> bool
    ensures { IsTrue result → All IsAsSent (pairs headers.now) }
{
    for (name, value) in headers.iter() {
        if is_connection_name(name.as_str()) || !is_trimmed(value) {
            return false;
        }
    }
    true
}

// Whether a value has no blanks at its ends.
fn is_trimmed(value: &HeaderValue) -> bool
    ensures { IsTrue result → without_blanks value.now.bytes ≡ value.now.bytes }
{
    without_end_blanks(without_front_blanks(value.as_bytes())).len() == value.len()
}

fn has_no_content(status: StatusCode) -> bool
    ensures { result ≡ has_no_content status }
{
    matches!(status.as_u16(), 204 | 205 | 304)
}

fn sent_headers(alloc: Global, headers: &HeaderMap) -> Result<HeaderMap, AllocError>
    ensures { IfOk result (λ made. made ≡ sent_headers headers.now) }
{
    let mut made = HeaderMap::new(alloc);
    for (name, value) in headers.iter() {
        push_sent(alloc, &mut made, name, value)?;
    }
    Ok(made)
}

// One more header. A full map counts as no memory.
fn push_sent(
    alloc: Global,
    headers: &mut HeaderMap,
    name: &HeaderName,
    value: &HeaderValue,
) -> Result<(), AllocError>
    ensures { OnOk result (headers.new ≡ with_sent headers.old (name.now, value.now)) }
{
    if is_connection_name(name.as_str()) {
        return Ok(());
    }
    let Ok(_) = headers.append(name.clone()?, sent_value(alloc, value)?) else {
        return Err(AllocError);
    };
    Ok(())
}

// The value without the blanks at its ends. It is shared where it has none.
fn sent_value(alloc: Global, value: &HeaderValue) -> Result<HeaderValue, AllocError>
    ensures { IfOk result (λ made. made ≡ record value.now { bytes = without_blanks value.now.bytes }) }
{
    let trimmed = without_end_blanks(without_front_blanks(value.as_bytes()));
    if trimmed.len() == value.len() {
        return value.clone();
    }
    let mut made = HeaderValue::from_known_valid(Bytes::copy_from_slice(alloc, trimmed)?);
    made.set_sensitive(value.is_sensitive());
    Ok(made)
}

fn without_front_blanks(bytes: &[u8]) -> &[u8]
    ensures { result.now ≡ without_front_blanks bytes.now }
{
    let mut rest = bytes;
    while let Some((first, after)) = rest.split_first() {
        if !is_blank(*first) {
            break;
        }
        rest = after;
    }
    rest
}

fn without_end_blanks(bytes: &[u8]) -> &[u8]
    ensures { result.now ≡ without_end_blanks bytes.now }
{
    let mut rest = bytes;
    while let Some((last, before)) = rest.split_last() {
        if !is_blank(*last) {
            break;
        }
        rest = before;
    }
    rest
}

fn is_blank(byte: u8) -> bool
    ensures { result ≡ is_blank byte }
{
    byte == b' ' || byte == b'\t'
}
