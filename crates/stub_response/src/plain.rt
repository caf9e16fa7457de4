// Replies of texts.
ghost use Rattle.std.specs.Prelude.{◌≡◌, IfOk};
ghost use Rattle.std.specs.List.{AllZip};
ghost use Rattle.stub_response.specs.HeaderText.{header_text};
ghost use Rattle.stub_response.specs.Response.{IsBody, IsLine, IsMade, Itself};

use crate::header_text::header_text;
use bytes::Bytes;
use mapping_model::header_lines::HeaderLine;
use mapping_model::reply::{Reply, ReplyHeader};
use mapping_model::response_spec::Body;
use mapping_model::status::Status;
use plain_text::items::Items;
use plain_text::octets::Octets;
use plain_text::text::Text;
use std::alloc::{AllocError, Global};

/// Copies each header and the body once.
pub(crate) fn plain_reply(
    alloc: Global,
    status: Status,
    headers: &[HeaderLine<Text>],
    body: &Body<Text>,
) -> Result<Reply, AllocError>
    ensures { IfOk result (λ reply. IsMade Itself status headers.now body.now reply) }
{
    Ok(Reply {
        status: status.code(),
        headers: Items::from(plain_headers(alloc, headers)?),
        body: plain_body(alloc, body)?,
    })
}

fn plain_headers(
    alloc: Global,
    headers: &[HeaderLine<Text>],
) -> Result<Vec<ReplyHeader>, AllocError>
    ensures { IfOk result (λ made. AllZip (IsLine Itself) headers.now made.items) }
{
    let mut made = Vec::with_capacity(alloc, headers.len())?;
    for header in headers {
        made.push(plain_header(alloc, header)?)?;
    }
    Ok(made)
}

fn plain_header(alloc: Global, header: &HeaderLine<Text>) -> Result<ReplyHeader, AllocError>
    ensures { IfOk result (λ made. IsLine Itself header.now made) }
{
    Ok(ReplyHeader {
        name: header.name.clone()?,
        value: plain_value(alloc, &header.value)?,
    })
}

/// The value of a header that is a text. Copies it once.
pub(crate) fn plain_value(alloc: Global, text: &Text) -> Result<Octets, AllocError>
    ensures { IfOk result (λ value. value ≡ header_text text.now) }
{
    let text = Vec::from_slice(alloc, text.as_str().as_bytes())?;
    Ok(header_text(text))
}

/// The body that is a text or bytes. Copies it once.
pub(crate) fn plain_body(alloc: Global, body: &Body<Text>) -> Result<Bytes, AllocError>
    ensures { IfOk result (λ made. IsBody Itself body.now made) }
{
    match body {
        Body::Empty => Ok(Bytes::new()),
        Body::Text(text) => Bytes::copy_from_slice(alloc, text.as_str().as_bytes()),
        Body::Json(text) => Bytes::copy_from_slice(alloc, text.as_str().as_bytes()),
        Body::Base64(bytes) => Bytes::copy_from_slice(alloc, bytes.as_slice()),
    }
}
