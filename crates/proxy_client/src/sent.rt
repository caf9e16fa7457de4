// The message that is sent to an upstream for a request.
ghost use Rattle.std.specs.Prelude.{◌≡◌, Err, IfOk, None, string_bytes, true};
ghost use Rattle.http.specs.declared.version.TheConstants.Version.{HTTP_11};
ghost use Rattle.http_uri.specs.Grammar.{without_fragment};
ghost use Rattle.http_uri.specs.Uri.{HasParts};
ghost use Rattle.proxy_client.specs.Messages.{IsForwarded};
ghost use Rattle.proxy_client.specs.declared.error.ProxyError.TheVariants.{UpstreamFailed};
ghost use Rattle.proxy_client.specs.declared.failure.Failure.TheVariants.{ForwardedTooOften};
ghost use Rattle.recorder.specs.ForwardCount.{is_forwarded_too_often};

use crate::error::ProxyError;
use crate::failure::Failure;
use bytes::Bytes;
use http::request::Parts;
use http::uri::PathAndQuery;
use http::{HeaderMap, Method, Request, Uri, Version, uri};
use http_body_util::Full;
use mock_request::snapshot::Snapshot;
use recorder::forward_count::is_forwarded_too_often;
use recorder::forwarding::{forwarded_headers, forwarded_path};
use recorder::target::Target;
use std::alloc::Global;

/// The message that is sent to the upstream for a request, unless that was forwarded too often.
pub fn message_of(
    alloc: Global,
    target: &Target,
    request: &Snapshot,
) -> Result<Request<Full<Bytes>>, ProxyError>
    ensures value { IfOk result (IsForwarded target.now request.now) }
    ensures often { is_forwarded_too_often request.now.headers ≡ true
        → result ≡ Err (UpstreamFailed ForwardedTooOften) }
{
    if is_forwarded_too_often(request) {
        return Err(ProxyError::UpstreamFailed(Failure::ForwardedTooOften));
    }
    let path = forwarded_path(alloc, target, request.url())?;
    let headers = forwarded_headers(alloc, target, request)?;
    let head = head_of(alloc, request.method(), path, headers)?;
    let body = Full::new(Bytes::copy_from_slice(alloc, request.body())?);
    Ok(Request::from_parts(head, body))
}

fn head_of(alloc: Global, method: &str, path: String, headers: HeaderMap) -> http::Result<Parts>
    ensures method { IfOk result (λ head. head.method ≡ method.now) }
    ensures uri { IfOk result (λ head. HasParts head.uri None None (without_fragment (string_bytes path))) }
    ensures version { IfOk result (λ head. head.version ≡ HTTP_11) }
    ensures headers { IfOk result (λ head. head.headers ≡ headers) }
{
    Ok(Parts {
        method: Method::from_bytes(alloc, method.as_bytes())?,
        uri: uri_of(path)?,
        version: Version::HTTP_11,
        headers,
    })
}

fn uri_of(path: String) -> http::Result<Uri>
    ensures { IfOk result (λ uri. HasParts uri None None (without_fragment (string_bytes path))) }
{
    Ok(Uri::from_parts(uri::Parts {
        scheme: None,
        authority: None,
        path_and_query: Some(PathAndQuery::from_string(path)?),
    })?)
}
