// Replies of templates, within the limits.
ghost use Rattle.std.specs.Prelude.{◌≡◌, ◌≤◌, ◌<◌, IfOk, IfSome, IfNone, IsTrue, option_copied};
ghost use Rattle.data_tree.specs.Tree.{Tree};
ghost use Rattle.data_tree.specs.Json.{size};
ghost use Rattle.data_tree.specs.RequestData.{root_of};
ghost use Rattle.data_tree.specs.declared.request_data.TheConstants.{SIZE_LIMIT};
ghost use Rattle.request_data.specs.RequestTree.{request_tree};
ghost use Rattle.stub_response.specs.Inner.Alike.{IsDataWithin};
ghost use Rattle.stub_response.specs.Response.{IsBodyOver, IsReplyOver, IsWithin, Rendered, templates_of};

use crate::error_reply::error_reply;
use crate::limits::{Limits, keep_to};
use crate::needs::{needed_by, needed_by_body};
use crate::rendered::{rendered_body, rendered_reply};
use bytes::Bytes;
use data_tree::request_data::{DataError, RequestData, SIZE_LIMIT};
use error_code::error_code::ErrorCode;
use mapping_model::header_lines::HeaderLine;
use mapping_model::reply::Reply;
use mapping_model::response_spec::Body;
use mapping_model::status::Status;
use mapping_model::template_text::TemplateText;
use mock_request::snapshot::Snapshot;
use needed_data::needed::Needed;
use path_template::path_template::PathTemplate;
use request_data::part::part_of_data;
use request_data::size_bound::{closer_size_bound, size_bound};
use request_data::tree::request_data;
use std::alloc::{AllocError, Global};

/// The reply of templates over the data of a request, in which a path template names segments of the path: an error
/// where they or the data could exceed a limit.
// Not inlined: a function clears all its locals when it is entered, and a plain response needs none of these.
#[inline(never)]
pub(crate) fn templated_reply(
    alloc: Global,
    status: Status,
    headers: &[HeaderLine<TemplateText>],
    body: &Body<TemplateText>,
    request: &Snapshot,
    template: Option<&PathTemplate>,
    limits: Limits,
) -> Result<Reply, AllocError>
    ensures { IfOk result (IsReplyOver (Rendered (request_tree request.now (option_copied template.entry)))
        limits status headers.now body.now (request_tree request.now (option_copied template.entry))) }
{
    let needed = needed_by(headers, body);
    match data_for(alloc, headers, body, request, template, limits, &needed)? {
        Some(data) => rendered_reply(alloc, status, headers, body, &data),
        None => error_reply(alloc, 500, ErrorCode::OverBudget),
    }
}

/// The body of that reply alone; `None` where it is an error.
pub(crate) fn templated_body(
    alloc: Global,
    headers: &[HeaderLine<TemplateText>],
    body: &Body<TemplateText>,
    request: &Snapshot,
    template: Option<&PathTemplate>,
    limits: Limits,
) -> Result<Option<Bytes>, AllocError>
    ensures { IfOk result (IsBodyOver (Rendered (request_tree request.now (option_copied template.entry)))
        limits headers.now body.now (request_tree request.now (option_copied template.entry))) }
{
    let needed = needed_by_body(body);
    match data_for(alloc, headers, body, request, template, limits, &needed)? {
        Some(data) => Ok(Some(rendered_body(alloc, body, &data)?)),
        None => Ok(None),
    }
}

// Whether a bound on the size of the request's data shows that data and templates are within their limits. The closer
// one takes a pass over the body.
fn is_within(
    limits: Limits,
    headers: &[HeaderLine<TemplateText>],
    body: &Body<TemplateText>,
    request: &Snapshot,
    template: Option<&PathTemplate>,
) -> bool
    ensures { IsTrue result → IsWithin limits (templates_of headers.now body.now)
        (request_tree request.now (option_copied template.entry)) }
{
    is_kept_to(limits, headers, body, size_bound(request, template))
        || is_kept_to(limits, headers, body, closer_size_bound(request, template))
}

// Whether data of at most that size are within their limit, and the templates within theirs.
fn is_kept_to(
    limits: Limits,
    headers: &[HeaderLine<TemplateText>],
    body: &Body<TemplateText>,
    bound: Option<u64>,
) -> bool
    ensures { IsTrue result → (root : Tree) → IfSome bound (λ most. size root ≤ most)
        → IsWithin limits (templates_of headers.now body.now) root }
{
    match bound {
        Some(most) => most <= SIZE_LIMIT && keep_to(limits, headers, body, most),
        None => false,
    }
}

// The data to render over; none where the request's data or the templates exceed a limit. Where a bound on the data's
// size shows that they don't, only what is needed of it is made, and else all of it.
fn data_for(
    alloc: Global,
    headers: &[HeaderLine<TemplateText>],
    body: &Body<TemplateText>,
    request: &Snapshot,
    template: Option<&PathTemplate>,
    limits: Limits,
    needed: &Needed<'_>,
) -> Result<Option<RequestData>, AllocError>
    ensures { IfOk result (IsDataWithin limits (templates_of headers.now body.now) needed.now
        (request_tree request.now (option_copied template.entry))) }
{
    if is_within(limits, headers, body, request, template) {
        return Ok(Some(part_of_data(alloc, request, template, needed)?));
    }
    let Some(data) = data_within_limit(alloc, request, template)? else {
        return Ok(None);
    };
    if keep_to(limits, headers, body, data.size()) {
        Ok(Some(data))
    } else {
        Ok(None)
    }
}

// The data of the request, unless it is too large.
fn data_within_limit(
    alloc: Global,
    request: &Snapshot,
    template: Option<&PathTemplate>,
) -> Result<Option<RequestData>, AllocError>
    ensures some { IfOk result (λ kept. IfSome kept (λ made.
        (root_of made ≡ request_tree request.now (option_copied template.entry))
        × (size (root_of made) ≤ SIZE_LIMIT))) }
    ensures none { IfOk result (λ kept. IfNone kept
        (SIZE_LIMIT < size (request_tree request.now (option_copied template.entry)))) }
{
    match request_data(alloc, request, template) {
        Ok(data) => Ok(Some(data)),
        Err(DataError::TooLarge(_data)) => Ok(None),
        Err(DataError::OutOfMemory) => Err(AllocError),
    }
}
