// What matchers need of a request.
ghost use Rattle.std.specs.Prelude.{◌≡◌, ◌<◌, length, slice_get, string_bytes, All, IsTrue, MatchOption, IfOk};
ghost use Rattle.std.specs.Option.{option_map};
ghost use Rattle.std.specs.Str.{IsUtf8};
ghost use Rattle.std.specs.Str.Lossy.{utf8_lossy};
ghost use Rattle.mock_request.specs.Cookies.{cookie_pairs};
ghost use Rattle.mock_request.specs.HeaderFields.{header_pairs};
ghost use Rattle.mock_request.specs.Query.{query_pairs};
ghost use Rattle.mock_request.specs.Values.{pairs_of};

use crate::body::body_text;
use crate::cookies::cookie_pairs;
use crate::header_fields::header_pairs;
use crate::query::query_pairs;
use crate::snapshot::Snapshot;
use std::alloc::{AllocError, Global};
use std::marker::Model;
use std::str;

/// The values of a request by name, and the text of its body. They are made once for all mappings that the request is
/// compared with, and what is UTF-8 is lent and not copied.
#[derive(Drop)]
pub struct RequestValues<'a> {
    snapshot: &'a Snapshot,
    query: Vec<(String, String)>,
    cookies: Vec<(String, String)>,

    // Where a value isn't UTF-8: the texts of all headers.
    made_headers: Option<Vec<(String, String)>>,

    // Where the body isn't UTF-8: its text.
    made_body: Option<String>,
}

impl<'a> Model for RequestValues<'a> {
    ghost use Rattle.mock_request.specs.Request.{Request};

    ghost Value = { Request };

    ghost use Rattle.mock_request.specs.Inner.Made.{AreValues};

    ghost view = { λ v. v.snapshot.now };

    ghost invariant = { AreValues };
}

impl<'a> RequestValues<'a> {
    /// Reads them. It takes memory for the query where there is one, for cookies where there is a `cookie` header, and
    /// for the texts of headers or of the body where these aren't UTF-8.
    pub fn read(alloc: Global, snapshot: &'a Snapshot) -> Result<RequestValues<'a>, AllocError>
        ensures { IfOk result (λ values. values ≡ snapshot.now) }
    {
        Ok(RequestValues {
            snapshot,
            query: query_pairs(alloc, snapshot)?,
            cookies: cookie_pairs(alloc, snapshot)?,
            made_headers: made_headers(alloc, snapshot)?,
            made_body: made_body(alloc, snapshot)?,
        })
    }

    /// The request itself.
    pub fn snapshot(&self) -> &'a Snapshot
        ensures { result.now ≡ self.now }
    {
        self.snapshot
    }

    /// The decoded names and values of the query, in their order.
    pub fn query(&self) -> &[(String, String)]
        ensures { pairs_of result.now ≡ query_pairs self.now.url }
    {
        self.query.as_slice()
    }

    /// The names and values of the cookies in all `cookie` headers, in their order.
    pub fn cookies(&self) -> &[(String, String)]
        ensures { pairs_of result.now ≡ cookie_pairs self.now.headers }
    {
        self.cookies.as_slice()
    }

    /// How many headers there are.
    pub fn header_count(&self) -> usize
        ensures { result ≡ length self.now.headers }
    {
        self.snapshot.header_count()
    }

    /// The name in lower case and the text of the header at that index.
    pub fn header(&self, index: usize) -> Option<(&str, &str)>
        ensures { option_map (λ pair. (pair.0.now, pair.1.now)) result
            ≡ slice_get (header_pairs self.now.headers) index }
    {
        match &self.made_headers {
            Some(pairs) => made_header(pairs.as_slice(), index),
            None => lent_header(self.snapshot, index),
        }
    }

    /// The body read as UTF-8, with U+FFFD for what is not.
    pub fn body_text(&self) -> &str
        ensures { result.now ≡ utf8_lossy self.now.body }
    {
        match &self.made_body {
            Some(text) => text.as_str(),
            // `made_body` has looked at its bytes.
            None => unsafe { str::from_utf8_unchecked(self.snapshot.body()) },
        }
    }
}

fn made_header(pairs: &[(String, String)], index: usize) -> Option<(&str, &str)>
    ensures { option_map (λ pair. (pair.0.now, pair.1.now)) result ≡ slice_get (pairs_of pairs.now) index }
{
    let (name, text) = pairs.get(index)?;
    Some((name.as_str(), text.as_str()))
}

// `made_headers` has looked at the bytes of all values.
fn lent_header(snapshot: &Snapshot, index: usize) -> Option<(&str, &str)>
    requires { All (λ header. IsUtf8 header.value) snapshot.now.headers }
    ensures { option_map (λ pair. (pair.0.now, pair.1.now)) result
        ≡ slice_get (header_pairs snapshot.now.headers) index }
{
    let (name, value) = snapshot.header(index)?;
    Some((name, unsafe { str::from_utf8_unchecked(value) }))
}

// The texts of all headers, where the value of one isn't UTF-8.
fn made_headers(
    alloc: Global,
    snapshot: &Snapshot,
) -> Result<Option<Vec<(String, String)>>, AllocError>
    ensures { IfOk result (λ made. MatchOption made
        (All (λ header. IsUtf8 header.value) snapshot.now.headers)
        (λ pairs. pairs_of pairs.items ≡ header_pairs snapshot.now.headers)) }
{
    if headers_are_text(snapshot) {
        return Ok(None);
    }
    Ok(Some(header_pairs(alloc, snapshot)?))
}

// The text of the body, where it isn't UTF-8.
fn made_body(alloc: Global, snapshot: &Snapshot) -> Result<Option<String>, AllocError>
    ensures { IfOk result (λ made. MatchOption made (IsUtf8 snapshot.now.body)
        (λ text. string_bytes text ≡ utf8_lossy snapshot.now.body)) }
{
    if str::from_utf8(snapshot.body()).is_ok() {
        return Ok(None);
    }
    Ok(Some(body_text(alloc, snapshot)?))
}

fn headers_are_text(snapshot: &Snapshot) -> bool
    ensures { IsTrue result → All (λ header. IsUtf8 header.value) snapshot.now.headers }
{
    for index in 0..snapshot.header_count() {
        if !header_is_text(snapshot, index) {
            return false;
        }
    }
    true
}

fn header_is_text(snapshot: &Snapshot, index: usize) -> bool
    requires { index < length snapshot.now.headers }
    ensures { IsTrue result
        → MatchOption (slice_get snapshot.now.headers index) ⊥ (λ header. IsUtf8 header.value) }
{
    matches!(snapshot.header(index), Some((_name, value)) if str::from_utf8(value).is_ok())
}
