// What all responses of a mapping without templates have.
ghost use Rattle.std.specs.Prelude.{◌≡◌, IfOk, map};
ghost use Rattle.stub_response.specs.Headers.{headers_of};
ghost use Rattle.stub_response.specs.Inner.Plain.{plain_header};
ghost use Rattle.stub_response.specs.PlainResponse.{HoldsLines};

use crate::headers::{empty_headers, push_header};
use crate::plain::{plain_body, plain_value};
use bytes::Bytes;
use http_header::HeaderMap;
use mapping_model::header_lines::HeaderLine;
use mapping_model::response_spec::Body;
use mapping_model::status::Status;
use plain_text::text::Text;
use std::alloc::{AllocError, Global};

/// What all responses of a mapping without templates have. It is made once: each response shares its bytes.
#[derive(Drop)]
pub struct PlainResponse {
    pub status: u16,
    pub headers: HeaderMap,
    pub body: Bytes,
}

impl PlainResponse {
    /// Shares these bytes, where they are those of the body, so that they are kept once. Takes no memory.
    pub(crate) fn share_body(&mut self, bytes: &Bytes)
        ensures { self.new ≡ self.old }
    {
        if self.body.as_slice() != bytes.as_slice() {
            return;
        }
        if let Ok(shared) = bytes.clone() {
            self.body = shared;
        }
    }
}

/// What they have: status, headers in their order, and body. Copies each value and the body once.
pub(crate) fn made_of(
    alloc: Global,
    status: Status,
    headers: &[HeaderLine<Text>],
    body: &Body<Text>,
) -> Result<PlainResponse, AllocError>
    ensures { IfOk result (HoldsLines status headers.now body.now) }
{
    let headers = plain_headers(alloc, headers)?;
    let body = plain_body(alloc, body)?;
    Ok(PlainResponse {
        status: status.code(),
        headers,
        body,
    })
}

fn plain_headers(alloc: Global, headers: &[HeaderLine<Text>]) -> Result<HeaderMap, AllocError>
    ensures { IfOk result (λ made. made ≡ headers_of (map plain_header headers.now)) }
{
    let mut made = empty_headers(alloc, headers.len())?;
    for header in headers {
        let value = plain_value(alloc, &header.value)?;
        push_header(alloc, &mut made, &header.name, value)?;
    }
    Ok(made)
}
