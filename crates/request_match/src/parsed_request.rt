// A request as matchers read it.
ghost use Rattle.std.specs.Prelude.{◌≡◌, ◌↔◌, IfOk, IfSome, IsSome, IsSomeAnd, IsTrue, OnOk, option_map};
ghost use Rattle.std.specs.Str.Lossy.{utf8_lossy};
ghost use Rattle.data_tree.specs.LookUp.{at};
ghost use Rattle.data_tree.specs.Tree.{view};
ghost use Rattle.data_tree.specs.WellFormed.{IsWellFormed};
ghost use Rattle.json_bridge.specs.Reading.{tree_of_text};
ghost use Rattle.json_match.specs.Matching as json;
ghost use Rattle.mapping_model.specs.declared.url_spec.UrlSpec.TheVariants.{Url, UrlPath};
ghost use Rattle.mock_request.specs.Cookies.{cookie_pairs};
ghost use Rattle.mock_request.specs.Query.{query_pairs};
ghost use Rattle.mock_request.specs.Url.{path_of};
ghost use Rattle.request_match.specs.Inner.Read.{IsReadOf};
ghost use Rattle.request_match.specs.Parts.Key.{key_of};
ghost use Rattle.request_match.specs.Parts.Matching.{MeetHeaders, MeetPairs, MeetsText, found_text};
ghost use Rattle.value_match.specs.Matching as value;

use crate::body_test::{meets_found, meets_text};
use crate::hashed_text::HashedStr;
use crate::named_test::{NamedTest, meet_headers, meet_pairs};
use crate::url_key::UrlKey;
use data_tree::data::Data;
use json_bridge::json_path::JsonPath;
use json_bridge::read::data_of_json;
use json_match::json_matcher::JsonMatcher;
use mock_request::request_values::RequestValues;
use mock_request::snapshot::Snapshot;
use std::alloc::{AllocError, Global};
use std::marker::Model;
use std::mem::size_of;
use value_match::value_matcher::ValueMatcher;

// One is made for each request, and moved.
const _: () = prove!(size_of::<ParsedRequest<'static>>() <= 208);

/// A request with the hashes of its URL and of its path, and what matchers ask for beside: its values by name and the
/// text of its body, and the JSON of that. Each is read once for all mappings that the request is compared with, when
/// the first matcher asks for it. Contracts see the request alone.
pub struct ParsedRequest<'a> {
    snapshot: &'a Snapshot,
    method: &'a str,
    url: HashedStr<'a>,
    path: HashedStr<'a>,
    /// Boxed: most requests need none.
    values: Option<Box<RequestValues<'a>>>,
    /// `Some(None)`: the body isn't JSON.
    json: Option<Option<Data>>,
    alloc: Global,
}

impl<'a> Model for ParsedRequest<'a> {
    ghost use Rattle.mock_request.specs.Request.{Request};
    ghost use Rattle.mock_request.specs.Url.{path_of};
    ghost use Rattle.request_match.specs.Inner.Read.{IsReadOf};
    ghost use Rattle.std.specs.Prelude.{◌≡◌, IfSome};

    ghost Value = { Request };

    ghost view = { λ p. p.snapshot.now };

    ghost invariant = { λ p. (p.method.now ≡ p.snapshot.now.method) × (p.url ≡ p.snapshot.now.url)
        × (p.path ≡ path_of p.snapshot.now.url) × IfSome p.values (λ values. values.value ≡ p.snapshot.now)
        × IfSome p.json (IsReadOf p.snapshot.now.body) };
}

impl<'a> ParsedRequest<'a> {
    /// Takes no memory: what takes some is read later.
    pub fn new(alloc: Global, snapshot: &'a Snapshot) -> ParsedRequest<'a>
        ensures { result ≡ snapshot.now }
    {
        ParsedRequest {
            snapshot,
            method: snapshot.method(),
            url: HashedStr::new(snapshot.url()),
            path: HashedStr::new(snapshot.path()),
            values: None,
            json: None,
            alloc,
        }
    }

    /// The request itself.
    pub fn snapshot(&self) -> &'a Snapshot
        ensures { result.now ≡ self.now }
    {
        self.snapshot
    }

    pub fn method(&self) -> &'a str
        ensures { result.now ≡ self.now.method }
    {
        self.method
    }

    /// The path and the query as they were received.
    pub fn url(&self) -> &'a str
        ensures { result.now ≡ self.now.url }
    {
        self.url.as_str()
    }

    /// The URL up to the first `?`. It was looked for once.
    pub fn path(&self) -> &'a str
        ensures { result.now ≡ path_of self.now.url }
    {
        self.path.as_str()
    }

    /// What a matcher that asks for its very path and query is known by.
    pub fn url_key(&self) -> UrlKey
        ensures { result ≡ key_of (Url self.now.url) }
    {
        UrlKey::Url(self.url.hash())
    }

    /// What a matcher that asks for its very path is known by.
    pub fn path_key(&self) -> UrlKey
        ensures { result ≡ key_of (UrlPath (path_of self.now.url)) }
    {
        UrlKey::UrlPath(self.path.hash())
    }

    /// The path and the query with their hash.
    pub(crate) fn hashed_url(&self) -> &HashedStr<'a>
        ensures { result.now ≡ self.now.url }
    {
        &self.url
    }

    /// The path with its hash.
    pub(crate) fn hashed_path(&self) -> &HashedStr<'a>
        ensures { result.now ≡ path_of self.now.url }
    {
        &self.path
    }

    /// Whether its headers meet each test.
    pub fn meets_headers(&mut self, tests: &mut [NamedTest]) -> Result<bool, AllocError>
        ensures answer { IfOk result (λ yes. IsTrue yes ↔ MeetHeaders tests.old self.old) }
        ensures same { self.new ≡ self.old }
        ensures same_tests { tests.new ≡ tests.old }
    {
        if tests.is_empty() {
            return Ok(true);
        }
        read_values(self.alloc, self.snapshot, &mut self.values)?;
        let values = values_read(&self.values);
        meet_headers(tests, values)
    }

    /// Whether its query meets each test.
    pub fn meets_query(&mut self, tests: &mut [NamedTest]) -> Result<bool, AllocError>
        ensures answer { IfOk result (λ yes. IsTrue yes ↔ MeetPairs tests.old (query_pairs self.old.url)) }
        ensures same { self.new ≡ self.old }
        ensures same_tests { tests.new ≡ tests.old }
    {
        if tests.is_empty() {
            return Ok(true);
        }
        read_values(self.alloc, self.snapshot, &mut self.values)?;
        let values = values_read(&self.values);
        meet_pairs(tests, values.query())
    }

    /// Whether its cookies meet each test.
    pub fn meets_cookies(&mut self, tests: &mut [NamedTest]) -> Result<bool, AllocError>
        ensures answer { IfOk result (λ yes. IsTrue yes ↔ MeetPairs tests.old (cookie_pairs self.old.headers)) }
        ensures same { self.new ≡ self.old }
        ensures same_tests { tests.new ≡ tests.old }
    {
        if tests.is_empty() {
            return Ok(true);
        }
        read_values(self.alloc, self.snapshot, &mut self.values)?;
        let values = values_read(&self.values);
        meet_pairs(tests, values.cookies())
    }

    /// Whether the text of its body meets the matcher.
    pub(crate) fn meets_text(&mut self, matcher: &mut ValueMatcher) -> Result<bool, AllocError>
        ensures answer { IfOk result (λ yes. IsTrue yes ↔ MeetsText matcher.old self.old.body) }
        ensures same { self.new ≡ self.old }
        ensures same_matcher { matcher.new ≡ matcher.old }
    {
        read_values(self.alloc, self.snapshot, &mut self.values)?;
        let values = values_read(&self.values);
        meets_text(matcher, values)
    }

    /// Whether the body is JSON that meets the matcher.
    pub(crate) fn meets_json(&mut self, matcher: &JsonMatcher) -> Result<bool, AllocError>
        ensures answer { IfOk result (λ yes. IsTrue yes
            ↔ IsSomeAnd (tree_of_text (utf8_lossy self.old.body)) (json.Matches matcher.now)) }
        ensures same { self.new ≡ self.old }
    {
        read_json(self.alloc, self.snapshot, &mut self.values, &mut self.json)?;
        match &self.json {
            Some(found) => meets_read(found, matcher),
            None => Ok(false),
        }
    }

    /// Whether the body is JSON in which the path finds what meets the matcher.
    pub(crate) fn meets_at(
        &mut self,
        path: &JsonPath,
        matcher: &mut ValueMatcher,
    ) -> Result<bool, AllocError>
        ensures answer { IfOk result (λ yes. IsTrue yes
            ↔ IsSomeAnd (tree_of_text (utf8_lossy self.old.body))
            (λ tree. value.Matches matcher.old (found_text (at path.now tree)))) }
        ensures same { self.new ≡ self.old }
        ensures same_matcher { matcher.new ≡ matcher.old }
    {
        read_json(self.alloc, self.snapshot, &mut self.values, &mut self.json)?;
        match &self.json {
            Some(Some(data)) => meets_found(self.alloc, matcher, data.at(path.steps())),
            _ => Ok(false),
        }
    }
}

// Written out, so that a caller's proof sees one call and not the drop of each field.
impl<'a> Drop for ParsedRequest<'a> {
    fn drop(self) {
        let ParsedRequest {
            snapshot: _snapshot,
            method: _method,
            url: _url,
            path: _path,
            values: _values,
            json: _json,
            alloc: _alloc,
        } = self;
    }
}

/// Reads the values, unless they were read before.
fn read_values<'a>(
    alloc: Global,
    snapshot: &'a Snapshot,
    values: &mut Option<Box<RequestValues<'a>>>,
) -> Result<(), AllocError>
    requires { IfSome values.old (λ read. read.value ≡ snapshot.now) }
    ensures read { OnOk result (IsSomeAnd values.new (λ read. read.value ≡ snapshot.now)) }
    ensures kept { IfSome values.new (λ read. read.value ≡ snapshot.now) }
{
    if values.is_none() {
        *values = Some(Box::new(alloc, RequestValues::read(alloc, snapshot)?)?);
    }
    Ok(())
}

/// The values, which were read.
fn values_read<'v, 'a>(values: &'v Option<Box<RequestValues<'a>>>) -> &'v RequestValues<'a>
    requires { IsSome values.now }
    ensures { IfSome values.now (λ read. read.value ≡ result.now) }
{
    match values {
        Some(values) => values,
        None => unreachable!(),
    }
}

/// Reads the JSON of the body, unless it was read before.
fn read_json<'a>(
    alloc: Global,
    snapshot: &'a Snapshot,
    values: &mut Option<Box<RequestValues<'a>>>,
    json: &mut Option<Option<Data>>,
) -> Result<(), AllocError>
    requires values { IfSome values.old (λ read. read.value ≡ snapshot.now) }
    requires json { IfSome json.old (IsReadOf snapshot.now.body) }
    ensures read { OnOk result (IsSomeAnd json.new (IsReadOf snapshot.now.body)) }
    ensures kept_values { IfSome values.new (λ read. read.value ≡ snapshot.now) }
    ensures kept { IfSome json.new (IsReadOf snapshot.now.body) }
{
    if json.is_none() {
        read_values(alloc, snapshot, values)?;
        *json = Some(data_of_json(alloc, values_read(values).body_text())?);
    }
    Ok(())
}

/// Whether there is a value, and it meets the matcher.
fn meets_read(found: &Option<Data>, matcher: &JsonMatcher) -> Result<bool, AllocError>
    requires { IfSome found.now (λ d. IsWellFormed (view d)) }
    ensures answer { IfOk result (λ yes. IsTrue yes
        ↔ IsSomeAnd (option_map view found.now) (json.Matches matcher.now)) }
{
    match found {
        Some(data) => matcher.matches(data),
        None => Ok(false),
    }
}
