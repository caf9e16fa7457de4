// Which requests meet a matcher.
ghost use Rattle.std.specs.Prelude.{◌≡◌, ◌↔◌, IfOk, IfErr, OnOk, IsTrue};
ghost use Rattle.mock_request.specs.Request.{Request};
ghost use Rattle.request_match.specs.Inner.Heads.{MeetsHead};
ghost use Rattle.request_match.specs.Matching.{MeetsRequest, MeetsMethod};
ghost use Rattle.request_match.specs.Refusal.{CanBeBuilt, IsRefusal};
ghost use Rattle.request_match.specs.Parts.Key.{MayHave, key_of};

use crate::body_test::{BodyTest, build_body, meet_body};
use crate::error::RequestMatchError;
use crate::named_test::{NamedTest, build_tests};
use crate::parsed_request::ParsedRequest;
use crate::url_key::UrlKey;
use crate::url_test::UrlTest;
use mapping_model::request_spec::RequestSpec;
use plain_text::text::Text;
use std::alloc::{AllocError, Global};
use std::marker::Model;

/// A request matcher that was built: contracts see what it was built from.
pub struct RequestMatcher {
    method: Option<Text>,
    url: UrlTest,
    headers: Vec<NamedTest>,
    query: Vec<NamedTest>,
    cookies: Vec<NamedTest>,
    body: Vec<BodyTest>,
    alloc: Global,
}

impl Model for RequestMatcher {
    ghost use Rattle.mapping_model.specs.declared.request_spec.RequestSpec.{RequestSpec};

    ghost Value = { RequestSpec };

    ghost view = { λ m. record {
      method = m.method;
      url = m.url;
      headers = m.headers.items;
      query = m.query.items;
      cookies = m.cookies.items;
      body = m.body.items;
    } };
}

impl RequestMatcher {
    /// Builds a matcher, each pattern, path and expected value of it once for all requests.
    pub fn build(alloc: Global, spec: &RequestSpec) -> Result<RequestMatcher, RequestMatchError>
        ensures ok { IfOk result (λ matcher. matcher ≡ spec.now) }
        ensures usable { OnOk result (CanBeBuilt spec.now) }
        ensures refusal { IfErr result (IsRefusal spec.now) }
    {
        Ok(RequestMatcher {
            method: match &spec.method {
                Some(method) => Some(method.clone()?),
                None => None,
            },
            url: UrlTest::build(alloc, &spec.url)?,
            headers: build_tests(alloc, spec.headers.as_slice())?,
            query: build_tests(alloc, spec.query.as_slice())?,
            cookies: build_tests(alloc, spec.cookies.as_slice())?,
            body: build_body(alloc, spec.body.as_slice())?,
            alloc,
        })
    }

    /// Whether the request meets it. The body is compared last.
    pub fn matches(&mut self, request: &mut ParsedRequest<'_>) -> Result<bool, AllocError>
        ensures answer { IfOk result (λ yes. IsTrue yes ↔ MeetsRequest self.old request.old) }
        ensures same { self.new ≡ self.old }
        ensures same_request { request.new ≡ request.old }
    {
        if !self.meets_head(request)? {
            return Ok(false);
        }
        meet_body(self.body.as_mut_slice(), request)
    }

    /// Whether all but the body meets it, in the order of what the comparison costs.
    fn meets_head(&mut self, request: &mut ParsedRequest<'_>) -> Result<bool, AllocError>
        ensures answer { IfOk result (λ yes. IsTrue yes ↔ MeetsHead self.old request.old) }
        ensures same { self.new ≡ self.old }
        ensures same_request { request.new ≡ request.old }
    {
        if !meets_method(&self.method, request.method()) {
            return Ok(false);
        }
        if !self.url.meets(self.alloc, request)? {
            return Ok(false);
        }
        if !request.meets_headers(self.headers.as_mut_slice())? {
            return Ok(false);
        }
        if !request.meets_query(self.query.as_mut_slice())? {
            return Ok(false);
        }
        request.meets_cookies(self.cookies.as_mut_slice())
    }

    /// What its literal URL is known by: a request for another one doesn't meet it.
    pub fn key(&self) -> UrlKey
        ensures value { result ≡ key_of self.now.url }
        ensures only { (request : Request) → MeetsRequest self.now request → MayHave result request.url }
    {
        self.url.key()
    }
}

// Written out, so that a caller's proof sees one call and not the drop of each field.
impl Drop for RequestMatcher {
    fn drop(self) {
        let RequestMatcher {
            method: _method,
            url: _url,
            headers: _headers,
            query: _query,
            cookies: _cookies,
            body: _body,
            alloc: _alloc,
        } = self;
    }
}

/// Whether the method is the wanted one. `ANY` stands for each.
pub fn meets_method(wanted: &Option<Text>, method: &str) -> bool
    ensures { IsTrue result ↔ MeetsMethod wanted.now method.now }
{
    match wanted {
        Some(wanted) => wanted.as_str() == method || wanted.as_str() == "ANY",
        None => true,
    }
}
