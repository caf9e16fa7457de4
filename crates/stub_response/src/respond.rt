// The response of a mapping for a request.
ghost use Rattle.std.specs.Prelude.{IfOk};
ghost use Rattle.stub_response.specs.Response.{IsBodyOf, IsPathTemplate, IsRenderedBody, IsReplyOf, IsResponse};
ghost use Rattle.stub_response.specs.Response.{IsRendering, Rendered};

use crate::limits::Limits;
use crate::plain::{plain_body, plain_reply};
use crate::templated::{templated_body, templated_reply};
use bytes::Bytes;
use mapping_model::mapping_spec::MappingSpec;
use mapping_model::reply::Reply;
use mapping_model::response_spec::{Content, ResponseSpec};
use mapping_model::url_spec::UrlSpec;
use mock_request::snapshot::Snapshot;
use path_template::error::PathTemplateError;
use path_template::path_template::PathTemplate;
use std::alloc::{AllocError, Global};

/// The response of a mapping for a request. Where its templates could exceed a limit, it reports that they are over
/// budget, with status 500, and none of them is run.
///
/// The request's data is made only for templates, and of it what they look at. A path template is read for
/// each templated response.
pub fn respond(
    alloc: Global,
    mapping: &MappingSpec,
    request: &Snapshot,
    limits: Limits,
) -> Result<Reply, AllocError>
    ensures response { IfOk result (IsResponse limits mapping.now request.now) }
    ensures rendering { IfOk result (IsRendering limits mapping.now request.now) }
{
    let url = &mapping.request.url;
    reply_of(alloc, url, &mapping.response, request, limits)
}

/// The body of that response alone, written by such runs; `None` where it reports an error.
pub fn respond_body(
    alloc: Global,
    mapping: &MappingSpec,
    request: &Snapshot,
    limits: Limits,
) -> Result<Option<Bytes>, AllocError>
    ensures { IfOk result (IsRenderedBody limits mapping.now request.now) }
{
    let url = &mapping.request.url;
    body_of(alloc, url, &mapping.response.content, request, limits)
}

fn body_of(
    alloc: Global,
    url: &UrlSpec,
    content: &Content,
    request: &Snapshot,
    limits: Limits,
) -> Result<Option<Bytes>, AllocError>
    ensures { IfOk result (IsBodyOf Rendered limits url.now content.now request.now) }
{
    match content {
        Content::Plain { body, .. } => Ok(Some(plain_body(alloc, body)?)),
        Content::Templated { headers, body } => {
            let template = path_template(alloc, url)?;
            templated_body(
                alloc,
                headers.as_slice(),
                body,
                request,
                template.as_ref(),
                limits,
            )
        }
    }
}

fn reply_of(
    alloc: Global,
    url: &UrlSpec,
    response: &ResponseSpec,
    request: &Snapshot,
    limits: Limits,
) -> Result<Reply, AllocError>
    ensures { IfOk result
        (IsReplyOf Rendered limits url.now response.now.status response.now.content request.now) }
{
    let status = response.status;
    match &response.content {
        Content::Plain { headers, body } => plain_reply(alloc, status, headers.as_slice(), body),
        Content::Templated { headers, body } => {
            let template = path_template(alloc, url)?;
            templated_reply(
                alloc,
                status,
                headers.as_slice(),
                body,
                request,
                template.as_ref(),
                limits,
            )
        }
    }
}

// The template of a URL matcher that is one. Not inlined, as `templated_reply`.
#[inline(never)]
fn path_template(alloc: Global, url: &UrlSpec) -> Result<Option<PathTemplate>, AllocError>
    ensures { IfOk result (IsPathTemplate url.now) }
{
    let UrlSpec::UrlPathTemplate { template, .. } = url else {
        return Ok(None);
    };
    match PathTemplate::parse(alloc, template.as_str()) {
        Ok(template) => Ok(Some(template)),
        Err(PathTemplateError::BadUrl) => Ok(None),
        Err(PathTemplateError::OutOfMemory) => Err(AllocError),
    }
}
