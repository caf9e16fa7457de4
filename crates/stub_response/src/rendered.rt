// Replies of templates.
ghost use Rattle.std.specs.Prelude.{IfOk, string_bytes};
ghost use Rattle.std.specs.List.{AllZip};
ghost use Rattle.data_tree.specs.RequestData.{root_of};
ghost use Rattle.stub_response.specs.Response.{IsBody, IsLine, IsMade, Rendered};

use crate::header_text::header_text;
use bytes::Bytes;
use data_tree::request_data::RequestData;
use mapping_model::header_lines::HeaderLine;
use mapping_model::reply::{Reply, ReplyHeader};
use mapping_model::response_spec::Body;
use mapping_model::status::Status;
use mapping_model::template_text::TemplateText;
use plain_text::items::Items;
use std::alloc::{AllocError, Global};
use template_machine::program::render;

pub(crate) fn rendered_reply(
    alloc: Global,
    status: Status,
    headers: &[HeaderLine<TemplateText>],
    body: &Body<TemplateText>,
    request: &RequestData,
) -> Result<Reply, AllocError>
    ensures { IfOk result (λ reply. IsMade (Rendered (root_of request.now)) status headers.now body.now reply) }
{
    Ok(Reply {
        status: status.code(),
        headers: Items::from(rendered_headers(alloc, headers, request)?),
        body: rendered_body(alloc, body, request)?,
    })
}

/// The headers that templates give over the data, in their order.
pub(crate) fn rendered_headers(
    alloc: Global,
    headers: &[HeaderLine<TemplateText>],
    request: &RequestData,
) -> Result<Vec<ReplyHeader>, AllocError>
    ensures { IfOk result (λ made. AllZip (IsLine (Rendered (root_of request.now))) headers.now made.items) }
{
    let mut made = Vec::with_capacity(alloc, headers.len())?;
    for header in headers {
        made.push(rendered_header(alloc, header, request)?)?;
    }
    Ok(made)
}

fn rendered_header(
    alloc: Global,
    header: &HeaderLine<TemplateText>,
    request: &RequestData,
) -> Result<ReplyHeader, AllocError>
    ensures { IfOk result (λ made. IsLine (Rendered (root_of request.now)) header.now made) }
{
    let text = rendered_text(alloc, &header.value, request)?;
    Ok(ReplyHeader {
        name: header.name.clone()?,
        value: header_text(text.into_bytes()),
    })
}

/// The body that a template gives over the data, or that is there as it is.
pub(crate) fn rendered_body(
    alloc: Global,
    body: &Body<TemplateText>,
    request: &RequestData,
) -> Result<Bytes, AllocError>
    ensures { IfOk result (λ made. IsBody (Rendered (root_of request.now)) body.now made) }
{
    match body {
        Body::Empty => Ok(Bytes::new()),
        Body::Text(template) => Bytes::from_string(rendered_text(alloc, template, request)?),
        Body::Json(text) => Bytes::copy_from_slice(alloc, text.as_str().as_bytes()),
        Body::Base64(bytes) => Bytes::copy_from_slice(alloc, bytes.as_slice()),
    }
}

fn rendered_text(
    alloc: Global,
    template: &TemplateText,
    request: &RequestData,
) -> Result<String, AllocError>
    ensures { IfOk result (λ text. Rendered (root_of request.now) template.now (string_bytes text)) }
{
    Ok(render(alloc, template.program(), request)?.text)
}
