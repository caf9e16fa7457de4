// The connection's own answers.
ghost use Rattle.http_connections.specs.Content.{IsEmptyAnswer};

use http::response::Parts;
use http::{HeaderMap, HeaderValue, Response, StatusCode, header};
use std::alloc::Global;

/// An answer without content.
pub(crate) fn refusal<C: Default>(alloc: Global, status: StatusCode) -> Response<C>
    ensures { IsEmptyAnswer C.is_default status result }
{
    let mut head = Parts::new(alloc);
    head.status = status;
    Response::from_parts(head, C::default())
}

/// The answer where there is no memory for another.
pub(crate) fn out_of_memory<C: Default>(alloc: Global) -> Response<C>
    ensures { IsEmptyAnswer C.is_default 503 result }
{
    refusal(alloc, StatusCode::SERVICE_UNAVAILABLE)
}

/// The answer to a request in a coding that isn't known.
pub(crate) fn unknown_coding<C: Default>(alloc: Global) -> Response<C>
    ensures { IsEmptyAnswer C.is_default 501 result }
{
    last_refusal(alloc, StatusCode::NOT_IMPLEMENTED)
}

/// The answer to a request that hadn't come whole when its connection had to leave.
pub(crate) fn late<C: Default>(alloc: Global) -> Response<C>
    ensures { IsEmptyAnswer C.is_default 408 result }
{
    last_refusal(alloc, StatusCode::REQUEST_TIMEOUT)
}

// An answer without content, after which the connection ends.
fn last_refusal<C: Default>(alloc: Global, status: StatusCode) -> Response<C>
    ensures { IsEmptyAnswer C.is_default status result }
{
    let mut head = Parts::new(alloc);
    head.status = status;
    // Where there is no memory for it, the connection ends when the rest of the content doesn't come.
    let _ = head
        .headers
        .append(header::CONNECTION, HeaderValue::from_static("close"));
    Response::from_parts(head, C::default())
}

/// Whether the client waits for `100 Continue` before it sends the content (RFC 9110, section 10.1.1).
pub(crate) fn awaits_leave(headers: &HeaderMap) -> bool {
    matches!(headers.get(header::EXPECT), Some(value) if value.as_bytes().eq_ignore_ascii_case(b"100-continue"))
}
