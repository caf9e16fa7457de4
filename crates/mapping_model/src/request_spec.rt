// Which requests a mapping matches.
ghost use Rattle.std.specs.Prelude.{◌≡◌, ◌↔◌, [], None, IfOk, IsTrue};

use crate::body_pattern::BodyPattern;
use crate::named_matcher::NamedMatcher;
use crate::same_option::same_option;
use crate::url_spec::UrlSpec;
use plain_text::items::Items;
use plain_text::text::Text;
use std::alloc::{AllocError, Global};

/// A request matcher as it was written: a request has to meet each of its parts.
pub struct RequestSpec {
    /// `ANY` means each method, as an absent one does.
    pub method: Option<Text>,
    pub url: UrlSpec,
    pub headers: Items<NamedMatcher>,
    pub query: Items<NamedMatcher>,
    pub cookies: Items<NamedMatcher>,
    pub body: Items<BodyPattern>,
}

// Written out, so that a caller's proof sees one fact and not a copy of each field.
impl Clone for RequestSpec {
    ghost use Rattle.std.specs.Prelude.{◌≡◌};

    ghost is_clone = { λ original copy. copy ≡ original };

    fn clone(&self) -> Result<RequestSpec, AllocError> {
        Ok(RequestSpec {
            method: self.method.clone()?,
            url: copied_url(&self.url)?,
            headers: copied(&self.headers)?,
            query: copied(&self.query)?,
            cookies: copied(&self.cookies)?,
            body: copied_body(&self.body)?,
        })
    }
}

// Written out, so that a caller's proof sees one call and not the drop of each field.
impl Drop for RequestSpec {
    fn drop(self) {
        let RequestSpec {
            method: _method,
            url: _url,
            headers: _headers,
            query: _query,
            cookies: _cookies,
            body: _body,
        } = self;
    }
}

impl RequestSpec {
    /// Matches each request. Takes no memory.
    pub fn any(alloc: Global) -> RequestSpec
        ensures { result ≡ record {
          method = None;
          url = UrlSpec.Any;
          headers = [];
          query = [];
          cookies = [];
          body = [];
        } }
    {
        RequestSpec {
            method: None,
            url: UrlSpec::Any,
            headers: Items::from(Vec::new(alloc)),
            query: Items::from(Vec::new(alloc)),
            cookies: Items::from(Vec::new(alloc)),
            body: Items::from(Vec::new(alloc)),
        }
    }

    pub fn same(&self, other: &RequestSpec) -> bool
        ensures { IsTrue result ↔ (self.now ≡ other.now) }
    {
        same_option(&self.method, &other.method)
            && self.url.same(&other.url)
            && self.headers.same(&other.headers)
            && self.query.same(&other.query)
            && self.cookies.same(&other.cookies)
            && self.body.same(&other.body)
    }
}

fn copied(matchers: &Items<NamedMatcher>) -> Result<Items<NamedMatcher>, AllocError>
    ensures { IfOk result (λ copy. copy ≡ matchers.now) }
{
    matchers.clone()
}

fn copied_body(patterns: &Items<BodyPattern>) -> Result<Items<BodyPattern>, AllocError>
    ensures { IfOk result (λ copy. copy ≡ patterns.now) }
{
    patterns.clone()
}

fn copied_url(url: &UrlSpec) -> Result<UrlSpec, AllocError>
    ensures { IfOk result (λ copy. copy ≡ url.now) }
{
    url.clone()
}
