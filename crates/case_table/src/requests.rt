//! Requests.

use crate::words::{parts, value};
use http_header::{HeaderName, HeaderValue};
use mock_request::snapshot::Snapshot;
use std::alloc::{AllocError, Global};

pub fn header(
    alloc: Global,
    name: &str,
    value: &[u8],
) -> Result<(HeaderName, HeaderValue), AllocError> {
    let name = HeaderName::from_bytes(alloc, name.as_bytes()).ok();
    let value = HeaderValue::from_bytes(alloc, value).ok();
    match (name, value) {
        (Some(name), Some(value)) => Ok((name, value)),
        _ => Err(AllocError),
    }
}

/// The request of these parts.
pub fn request(
    alloc: Global,
    method: &str,
    target: &str,
    headers: &[(HeaderName, HeaderValue)],
    body: &[u8],
) -> Result<Snapshot, AllocError> {
    let made = Snapshot::new(alloc, method, target, headers, body);
    made.ok().ok_or(AllocError)
}

/// The request of a method and a target, and perhaps a header as `X:1` and a body as `body=z`.
pub fn request_of(alloc: Global, words: &str) -> Result<Snapshot, AllocError> {
    let (method, rest) = parts(words);
    let (target, rest) = parts(rest);
    let mut headers = Vec::new(alloc);
    if let Some((name, value)) = rest.split_once(':') {
        headers.push(header(alloc, name, value.as_bytes())?)?;
    }
    let body = value(rest, "body").unwrap_or("");
    request(alloc, method, target, headers.as_slice(), body.as_bytes())
}
