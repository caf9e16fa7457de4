// The object that is written for a request matcher.
ghost use Rattle.std.specs.Prelude.{◌≡◌, IfOk, OnOk, map, codes};
ghost use Rattle.json_reading.specs.Written.{with_field};
ghost use Rattle.request_json.specs.RequestWritten.{with_url, with_named, json_of_named, json_of_body, json_of_request};
ghost use Rattle.serde_json.specs.Data.{object, array, no_members};
ghost use Rattle.request_json.specs.BodyWritten.{json_of_pattern};
ghost use Rattle.request_json.specs.ValueWritten.{with_value};
ghost use Rattle.serde_json.specs.View.{view, members_view, items_of};

use crate::body_written::write_pattern;
use crate::value_written::put_value;
use json_reading::written::put_text;
use mapping_model::body_pattern::BodyPattern;
use mapping_model::named_matcher::NamedMatcher;
use mapping_model::request_spec::RequestSpec;
use mapping_model::url_spec::UrlSpec;
use serde_json::{Map, Value};
use std::alloc::{AllocError, Global};

/// The object of the request matcher, with names in byte order; absent fields and empty objects and lists are left out.
/// Each expected JSON text is read, and written compactly.
pub fn write_request(alloc: Global, request: &RequestSpec) -> Result<Value, AllocError>
    ensures { IfOk result (λ value. view value ≡ json_of_request request.now) }
{
    let mut members = Map::new(alloc);
    if let Some(method) = &request.method {
        put_text(alloc, &mut members, "method", method)?;
    }
    put_url(alloc, &mut members, &request.url)?;
    put_named(alloc, &mut members, "headers", request.headers.as_slice())?;
    put_named(
        alloc,
        &mut members,
        "queryParameters",
        request.query.as_slice(),
    )?;
    put_named(alloc, &mut members, "cookies", request.cookies.as_slice())?;
    put_body(alloc, &mut members, request.body.as_slice())?;
    Ok(Value::Object(members))
}

fn put_url(alloc: Global, members: &mut Map<String, Value>, url: &UrlSpec) -> Result<(), AllocError>
    ensures { OnOk result (members_view members.new.entries
        ≡ with_url url.now (members_view members.old.entries)) }
{
    match url {
        UrlSpec::Any => Ok(()),
        UrlSpec::Url(text) => put_text(alloc, members, "url", text),
        UrlSpec::UrlPattern(pattern) => put_text(alloc, members, "urlPattern", pattern),
        UrlSpec::UrlPath(text) => put_text(alloc, members, "urlPath", text),
        UrlSpec::UrlPathPattern(pattern) => put_text(alloc, members, "urlPathPattern", pattern),
        UrlSpec::UrlPathTemplate {
            template,
            parameters,
        } => {
            put_text(alloc, members, "urlPathTemplate", template)?;
            put_named(alloc, members, "pathParameters", parameters.as_slice())
        }
    }
}

fn put_named(
    alloc: Global,
    members: &mut Map<String, Value>,
    name: &str,
    matchers: &[NamedMatcher],
) -> Result<(), AllocError>
    ensures { OnOk result (members_view members.new.entries
        ≡ with_field name.now (json_of_named matchers.now) (members_view members.old.entries)) }
{
    if matchers.is_empty() {
        return Ok(());
    }
    serde_json::put(members, alloc, name, write_named(alloc, matchers)?)
}

fn write_named(alloc: Global, matchers: &[NamedMatcher]) -> Result<Value, AllocError>
    ensures { IfOk result (λ value. view value ≡ object (with_named matchers.now no_members)) }
{
    let mut members = Map::new(alloc);
    for named in matchers {
        let value = write_value(alloc, named)?;
        serde_json::put(&mut members, alloc, named.name.as_str(), value)?;
    }
    Ok(Value::Object(members))
}

fn write_value(alloc: Global, named: &NamedMatcher) -> Result<Value, AllocError>
    ensures { IfOk result (λ value. view value ≡ object (with_value named.now.matcher no_members)) }
{
    let mut members = Map::new(alloc);
    put_value(alloc, &mut members, &named.matcher)?;
    Ok(Value::Object(members))
}

fn put_body(
    alloc: Global,
    members: &mut Map<String, Value>,
    patterns: &[BodyPattern],
) -> Result<(), AllocError>
    ensures { OnOk result (members_view members.new.entries
        ≡ with_field (codes "bodyPatterns") (json_of_body patterns.now) (members_view members.old.entries)) }
{
    if patterns.is_empty() {
        return Ok(());
    }
    serde_json::put(
        members,
        alloc,
        "bodyPatterns",
        write_patterns(alloc, patterns)?,
    )
}

fn write_patterns(alloc: Global, patterns: &[BodyPattern]) -> Result<Value, AllocError>
    ensures { IfOk result (λ value. view value ≡ array (items_of (map json_of_pattern patterns.now))) }
{
    let mut values = Vec::with_capacity(alloc, patterns.len())?;
    for pattern in patterns {
        values.push(write_pattern(alloc, pattern)?)?;
    }
    Ok(Value::Array(values))
}
