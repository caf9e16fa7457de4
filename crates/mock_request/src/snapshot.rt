// A request as it was received.
ghost use Rattle.std.specs.Prelude.{ℕ, List, ◌≡◌, ◌≤◌, ◌<◌, ◌↔◌, length, slice_get};
ghost use Rattle.std.specs.Prelude.{All, IfSome, IfOk, IsTrue, OnOk, IsErrOf};
ghost use Rattle.std.specs.Option.{option_copied, option_map};
ghost use Rattle.http_header.specs.FieldName.{IsHeaderName};
ghost use Rattle.http_header.specs.HeaderMap.{pairs};
ghost use Rattle.mock_request.specs.Target.{IsTarget, HasUrl, IsRooted, IsRootedForm};
ghost use Rattle.mock_request.specs.Request.{headers_of};
ghost use Rattle.mock_request.specs.Url.{path_of, query_of};
ghost use Rattle.std.specs.Arc.{arc_value};

use crate::bare_request::BareRequest;
use crate::error::SnapshotError;
use crate::fields::Fields;
use crate::last_headers::LastHeaders;
use crate::target::{path_and_query, rooted};
use http_header::{HeaderMap, HeaderName, HeaderValue};
use std::alloc::{AllocError, Global};
use std::marker::Model;
use std::sync::Arc;

/// The most bytes that the body of a request may have (1 MiB).
pub const BODY_LIMIT: usize = 1_048_576;

/// A request as it was received: its method, its URL (path and query as they were received), its headers in their
/// order, and its body. It owns its method, URL and body, in one allocation. Its headers are shared with its copies,
/// and with a later request that has the same.
#[derive(Clone, Debug)]
pub struct Snapshot {
    bare: BareRequest,
    headers: Arc<Fields>,
}

// Written out, so that a caller's proof sees one call and not the drop of each part.
impl Drop for Snapshot {
    fn drop(self) {
        let Snapshot {
            bare: _bare,
            headers: _headers,
        } = self;
    }
}

impl Model for Snapshot {
    ghost use Rattle.std.specs.Arc.{arc_value};
    ghost use Rattle.mock_request.specs.Request.{Request};
    ghost use Rattle.mock_request.specs.Inner.Parts.{request_of, IsSnapshot};

    ghost Value = { Request };

    ghost view = { λ s. request_of s.bare (arc_value s.headers) };

    ghost invariant = { λ s. IsSnapshot s.bare };
}

impl Snapshot {
    /// Copies a request. Its target may be in origin form or in absolute form (RFC 9112, section 3.2).
    pub fn new(
        alloc: Global,
        method: &str,
        target: &str,
        headers: &[(HeaderName, HeaderValue)],
        body: &[u8],
    ) -> Result<Snapshot, SnapshotError>
        ensures url { IfOk result (λ request. IsTarget target.now request.url) }
        ensures kept { IfOk result (λ request. request ≡ record {
          method = method.now;
          url = request.url;
          headers = headers_of headers.now;
          body = body.now;
        }) }
        ensures within { OnOk result (length body.now ≤ BODY_LIMIT) }

        // A bad target is reported before a body that is too large.
        ensures bad_url { IsErrOf result SnapshotError.BadUrl ↔ ¬ (HasUrl target.now) }
        ensures too_large { IsErrOf result SnapshotError.BodyTooLarge
            ↔ (HasUrl target.now × (BODY_LIMIT < length body.now)) }
    {
        let text = taken(target, body)?;
        let headers = copied_headers(alloc, headers)?;
        Ok(Snapshot::of_text(alloc, method, text, headers, body)?)
    }

    /// The same of headers in a map: all values of a name are where its first one was. They are shared where they are
    /// the last ones, and else are these from now on.
    pub fn received(
        alloc: Global,
        method: &str,
        target: &str,
        headers: &HeaderMap,
        body: &[u8],
        last: &mut LastHeaders,
    ) -> Result<Snapshot, SnapshotError>
        ensures url { IfOk result (λ request. IsTarget target.now request.url) }
        ensures kept { IfOk result (λ request. request ≡ record {
          method = method.now;
          url = request.url;
          headers = headers_of (pairs headers.now);
          body = body.now;
        }) }
        ensures within { OnOk result (length body.now ≤ BODY_LIMIT) }
        ensures bad_url { IsErrOf result SnapshotError.BadUrl ↔ ¬ (HasUrl target.now) }
        ensures too_large { IsErrOf result SnapshotError.BodyTooLarge
            ↔ (HasUrl target.now × (BODY_LIMIT < length body.now)) }
    {
        let text = taken(target, body)?;
        let headers = last.fields_of(alloc, headers)?;
        Ok(Snapshot::of_text(alloc, method, text, headers, body)?)
    }

    // The request for the URL of that path and query.
    fn of_text(
        alloc: Global,
        method: &str,
        text: &str,
        headers: Arc<Fields>,
        body: &[u8],
    ) -> Result<Snapshot, AllocError>
        requires { length body.now ≤ BODY_LIMIT }
        ensures url { IfOk result (λ request. IsRootedForm text.now request.url) }
        ensures kept { IfOk result (λ request. request ≡ record {
          method = method.now;
          url = request.url;
          headers = arc_value headers;
          body = body.now;
        }) }
    {
        if text.starts_with('/') {
            return Snapshot::of_url(alloc, method, text, headers, body);
        }
        let url = rooted(alloc, text)?;
        Snapshot::of_url(alloc, method, url.as_str(), headers, body)
    }

    fn of_url(
        alloc: Global,
        method: &str,
        url: &str,
        headers: Arc<Fields>,
        body: &[u8],
    ) -> Result<Snapshot, AllocError>
        requires rooted { IsRooted url.now }
        requires within { length body.now ≤ BODY_LIMIT }
        ensures { IfOk result (λ request. request ≡ record {
          method = method.now;
          url = url.now;
          headers = arc_value headers;
          body = body.now;
        }) }
    {
        Ok(Snapshot {
            bare: BareRequest::new(alloc, method, url, body)?,
            headers,
        })
    }

    /// The method as it was received.
    pub fn method(&self) -> &str
        ensures { result.now ≡ self.now.method }
    {
        self.bare.method()
    }

    /// The path and the query as they were received.
    pub fn url(&self) -> &str
        ensures value { result.now ≡ self.now.url }
        ensures rooted { IsRooted result.now }
    {
        self.bare.url()
    }

    /// The URL up to the first `?`.
    pub fn path(&self) -> &str
        ensures value { result.now ≡ path_of self.now.url }
        ensures rooted { IsRooted result.now }
    {
        match self.url().split_once('?') {
            Some((path, _query)) => path,
            None => self.url(),
        }
    }

    /// What follows the first `?` of the URL, if there is one.
    pub fn query(&self) -> Option<&str>
        ensures { option_copied result ≡ query_of self.now.url }
    {
        let (_path, query) = self.url().split_once('?')?;
        Some(query)
    }

    /// How many headers there are.
    pub fn header_count(&self) -> usize
        ensures { result ≡ length self.now.headers }
    {
        self.headers.len()
    }

    /// The name and the value of the header at that index.
    pub fn header(&self, index: usize) -> Option<(&str, &[u8])>
        ensures value { option_map (λ header. record { name = header.0.now; value = header.1.now }) result
            ≡ slice_get self.now.headers index }
        ensures lower_case { IfSome result (λ header. IsHeaderName header.0.now) }
    {
        self.headers.get(index)
    }

    /// A law: the names of headers are in lower case, whichever request was received.
    pub fn law_names(&self)
        ensures { All (λ header. IsHeaderName header.name) self.now.headers }
    {
        self.headers.law_names()
    }

    /// The body, `BODY_LIMIT` bytes at most.
    pub fn body(&self) -> &[u8]
        ensures value { result.now ≡ self.now.body }
        ensures within { length result.now ≤ BODY_LIMIT }
    {
        self.bare.body()
    }

    /// Whether the other request is equal: its method, URL, headers and body.
    pub fn same(&self, other: &Snapshot) -> bool
        ensures { IsTrue result ↔ (self.now ≡ other.now) }
    {
        self.method() == other.method()
            && self.url() == other.url()
            && self.body() == other.body()
            && self.headers.same(&other.headers)
    }

    /// A copy, which shares the headers.
    pub fn try_clone(&self) -> Result<Snapshot, AllocError>
        ensures { IfOk result (λ copy. copy ≡ self.now) }
    {
        self.clone()
    }
}

// The path and the query of a target, where a request of this body may be taken.
fn taken<'a>(target: &'a str, body: &[u8]) -> Result<&'a str, SnapshotError>
    ensures text { IfOk result (λ text. (url : List ℕ) → IsRootedForm text.now url → IsTarget target.now url) }
    ensures within { OnOk result (length body.now ≤ BODY_LIMIT) }
    ensures bad_url { IsErrOf result SnapshotError.BadUrl ↔ ¬ (HasUrl target.now) }
    ensures too_large { IsErrOf result SnapshotError.BodyTooLarge
        ↔ (HasUrl target.now × (BODY_LIMIT < length body.now)) }
{
    let text = path_and_query(target).ok_or(SnapshotError::BadUrl)?;
    if body.len() > BODY_LIMIT {
        return Err(SnapshotError::BodyTooLarge);
    }
    Ok(text)
}

fn copied_headers(
    alloc: Global,
    headers: &[(HeaderName, HeaderValue)],
) -> Result<Arc<Fields>, AllocError>
    ensures { IfOk result (λ copied. arc_value copied ≡ headers_of headers.now) }
{
    Ok(Arc::new(alloc, Fields::of_list(alloc, headers)?)?)
}
