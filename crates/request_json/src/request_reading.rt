// Which request matcher an object spells.
ghost use Rattle.std.specs.Prelude.{◌≡◌, IfOk};
ghost use Rattle.json_reading.specs.Fields.{list_of};
ghost use Rattle.json_reading.specs.Reading.{read_map};
ghost use Rattle.request_json.specs.BodyReading.{reading_of_body};
ghost use Rattle.request_json.specs.RequestReading.{body_field, request_with, reading_of_request};
ghost use Rattle.serde_json.specs.View.{view};

use crate::body_reading::body_of;
use crate::named_reading::named_field;
use crate::url_reading::url_of;
use json_reading::fields::{only, text_field};
use json_reading::kind::Kind;
use json_reading::reading::{Reading, both, push};
use mapping_model::body_pattern::BodyPattern;
use mapping_model::named_matcher::NamedMatcher;
use mapping_model::request_spec::RequestSpec;
use mapping_model::url_spec::UrlSpec;
use plain_text::items::Items;
use plain_text::text::Text;
use serde_json::Value;
use std::alloc::{AllocError, Global};

/// Method and URL; headers, query parameters, cookies and body.
type Parts = (
    (Option<Text>, UrlSpec),
    (
        (Items<NamedMatcher>, Items<NamedMatcher>),
        (Items<NamedMatcher>, Items<BodyPattern>),
    ),
);

/// The request matcher that an object spells. Each text is copied once. Patterns, templates, JSON paths and expected
/// JSON texts aren't judged here but where the matcher is built.
#[tactic(auto, using(crate::proofs::Parts::no_request))]
pub fn request_of(alloc: Global, value: &Value) -> Result<Reading<RequestSpec>, AllocError>
    ensures { IfOk result (λ request. request ≡ reading_of_request (view value.now)) }
{
    if value.is_object() {
        fields_of(alloc, value)
    } else {
        Ok(Reading::Wrong(Kind::Misshapen))
    }
}

// Not inlined: a function clears all its locals when it is entered, and a value that is no object needs none of these.
#[inline(never)]
fn fields_of(alloc: Global, value: &Value) -> Result<Reading<RequestSpec>, AllocError>
    ensures { IfOk result (λ request. request ≡ reading_of_request (view value.now)) }
{
    let fields = [
        "method",
        "url",
        "urlPattern",
        "urlPath",
        "urlPathPattern",
        "urlPathTemplate",
        "headers",
        "queryParameters",
        "cookies",
        "pathParameters",
        "bodyPatterns",
    ];
    let target = both(text_field(alloc, "method", value)?, url_of(alloc, value)?);
    let headers = named_field(alloc, "headers", value)?;
    let query = named_field(alloc, "queryParameters", value)?;
    let cookies = named_field(alloc, "cookies", value)?;
    let body = body_field(alloc, value)?;
    let parts = both(target, both(both(headers, query), both(cookies, body)));
    Ok(only(&fields, value, request_with(parts)))
}

fn request_with(parts: Reading<Parts>) -> Reading<RequestSpec>
    ensures { result ≡ read_map request_with parts }
{
    match parts {
        Reading::Read(((method, url), ((headers, query), (cookies, body)))) => {
            Reading::Read(RequestSpec {
                method,
                url,
                headers,
                query,
                cookies,
                body,
            })
        }
        Reading::Wrong(kind) => Reading::Wrong(kind),
    }
}

/// The body matchers; an absent field has none.
fn body_field(alloc: Global, value: &Value) -> Result<Reading<Items<BodyPattern>>, AllocError>
    ensures { IfOk result (λ patterns. patterns ≡ body_field (view value.now)) }
{
    match value.get("bodyPatterns") {
        Some(found) => patterns_of(alloc, found),
        None => Ok(Reading::Read(Items::from(Vec::new(alloc)))),
    }
}

fn patterns_of(alloc: Global, value: &Value) -> Result<Reading<Items<BodyPattern>>, AllocError>
    ensures { IfOk result (λ patterns. patterns ≡ list_of reading_of_body (view value.now)) }
{
    let Some(items) = value.as_array() else {
        return Ok(Reading::Wrong(Kind::Misshapen));
    };
    let mut patterns = Reading::Read(Items::from(Vec::new(alloc)));
    for item in items {
        patterns = push(patterns, body_of(alloc, item)?)?;
    }
    Ok(patterns)
}
