// The response of `http` that a reply is.
ghost use Rattle.std.specs.Prelude.{◌≡◌, IfOk};
ghost use Rattle.answering.specs.Reply.{IsResponseOfReply, response_status};
ghost use Rattle.http.specs.Response.{head_of, body_of};
ghost use Rattle.http.specs.declared.version.TheConstants.Version.{HTTP_11};
ghost use Rattle.stub_response.specs.ErrorReply.{error_reply, json_reply};

use crate::content::Content;
use admin_answers::listing::Listing;
use error_code::error_code::ErrorCode;
use http::response::Parts;
use http::{HeaderMap, Response, StatusCode, Version};
use mapping_model::reply::Reply;
use std::alloc::{AllocError, Global};
use stub_response::error_reply::{error_reply, json_reply};
use stub_response::headers::header_map;

/// The response that reports the error, with that status.
// Not inlined, as it is seldom called.
#[inline(never)]
pub(crate) fn error_response(
    alloc: Global,
    status: u16,
    code: ErrorCode,
) -> Result<Response<Content>, AllocError>
    ensures { IfOk result (IsResponseOfReply (error_reply status code)) }
{
    response_of(alloc, error_reply(alloc, status, code)?)
}

/// The response that a reply is. Values and body are moved, and not copied.
pub(crate) fn response_of(alloc: Global, reply: Reply) -> Result<Response<Content>, AllocError>
    ensures { IfOk result (IsResponseOfReply reply) }
{
    let Reply {
        status,
        headers,
        body,
    } = reply;
    let made = header_map(alloc, headers.into_vec())?;
    Ok(response_with(status, made, Content::whole(body)))
}

/// The response whose body is the JSON text of a list.
// Not inlined, as it is seldom called.
#[inline(never)]
pub(crate) fn listed_response(
    alloc: Global,
    listing: Listing,
) -> Result<Response<Content>, AllocError>
    ensures { IfOk result (IsResponseOfReply (json_reply 200 listing)) }
{
    let without = json_reply(alloc, 200, String::new(alloc))?;
    let headers = header_map(alloc, without.headers.into_vec())?;
    Ok(response_with(200, headers, Content::listed(alloc, listing)?))
}

/// The response of these parts.
pub(crate) fn response_with(status: u16, headers: HeaderMap, body: Content) -> Response<Content>
    ensures version { (head_of result).version ≡ HTTP_11 }
    ensures status { (head_of result).status ≡ response_status status }
    ensures headers { (head_of result).headers ≡ headers }
    ensures body { body_of result ≡ body }
{
    let head = Parts {
        status: response_status(status),
        version: Version::HTTP_11,
        headers,
    };
    Response::from_parts(head, body)
}

fn response_status(status: u16) -> StatusCode
    ensures { result ≡ response_status status }
{
    match StatusCode::from_u16(status) {
        Ok(status) => status,
        Err(_invalid) => StatusCode::INTERNAL_SERVER_ERROR,
    }
}
