// The request matcher of an exchange.
ghost use Rattle.std.specs.Prelude.{◌≡◌, true, IfOk};
ghost use Rattle.std.specs.List.{list_all};
ghost use Rattle.std.specs.Str.{is_utf8};
ghost use Rattle.recorder.specs.Key.{headers_named};
ghost use Rattle.recorder.specs.Stubs.{body_pattern, first_value, header_matcher, request_of};

use crate::utf8::{octets_of, text_of, utf8, utf8_text};
use mapping_model::body_pattern::BodyPattern;
use mapping_model::named_matcher::NamedMatcher;
use mapping_model::request_spec::RequestSpec;
use mapping_model::url_spec::UrlSpec;
use mock_request::snapshot::Snapshot;
use plain_text::items::Items;
use plain_text::text::Text;
use recorder::exchange::Exchange;
use recorder::key::is_named;
use std::alloc::{AllocError, Global};
use value_match::value_spec::ValueSpec;

pub(crate) fn request_of(
    alloc: Global,
    exchange: &Exchange,
    captured: &[Text],
) -> Result<RequestSpec, AllocError>
    requires { list_all (λ name. list_all (λ header. is_utf8 header.value)
        (headers_named name exchange.now.request.headers)) captured.now ≡ true }
    ensures { IfOk result (λ spec. spec ≡ request_of captured.now exchange.now) }
{
    let request = &exchange.request;
    let mut headers = Vec::with_capacity(alloc, captured.len())?;
    for name in captured {
        headers.push(header_matcher(alloc, request, name)?)?;
    }
    let mut body = Vec::with_capacity(alloc, 1)?;
    body.push(body_pattern(alloc, request.body())?)?;
    Ok(RequestSpec {
        method: Some(text_of(alloc, request.method())?),
        url: UrlSpec::Url(text_of(alloc, request.url())?),
        headers: Items::from(headers),
        query: Items::from(Vec::new(alloc)),
        cookies: Items::from(Vec::new(alloc)),
        body: Items::from(body),
    })
}

fn header_matcher(
    alloc: Global,
    request: &Snapshot,
    name: &Text,
) -> Result<NamedMatcher, AllocError>
    requires { list_all (λ header. is_utf8 header.value) (headers_named name.now request.now.headers) ≡ true }
    ensures { IfOk result (λ matcher. matcher ≡ header_matcher request.now.headers name.now) }
{
    Ok(NamedMatcher {
        name: name.clone()?,
        matcher: first_value(alloc, request, name.as_str())?,
    })
}

// The value of the first header of that name.
fn first_value(alloc: Global, request: &Snapshot, name: &str) -> Result<ValueSpec, AllocError>
    requires { list_all (λ header. is_utf8 header.value) (headers_named name.now request.now.headers) ≡ true }
    ensures { IfOk result (λ value. value ≡ first_value (headers_named name.now request.now.headers)) }
{
    for index in 0..request.header_count() {
        if let Some((header, value)) = request.header(index) {
            if is_named(header, name) {
                return Ok(ValueSpec::EqualTo(utf8_text(alloc, value)?));
            }
        }
    }
    Ok(ValueSpec::Absent)
}

fn body_pattern(alloc: Global, body: &[u8]) -> Result<BodyPattern, AllocError>
    ensures { IfOk result (λ pattern. pattern ≡ body_pattern body.now) }
{
    if body.is_empty() {
        return Ok(BodyPattern::Value(ValueSpec::Absent));
    }
    match utf8(body) {
        Some(text) => Ok(BodyPattern::Value(ValueSpec::EqualTo(text_of(alloc, text)?))),
        None => Ok(BodyPattern::BinaryEqualTo(octets_of(alloc, body)?)),
    }
}
