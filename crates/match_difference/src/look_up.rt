// What a request has in place of what a condition asks for.
use crate::condition::{Condition, Source};
use crate::found::Found;
use crate::read_request::{JsonBody, ReadBody, ReadRequest};
use data_tree::data::Data;
use json_bridge::json_path::JsonPath;
use json_match::json_spec::JsonSpec;
use mapping_model::body_pattern::BodyPattern;
use mapping_model::url_spec::UrlSpec;
use mock_request::request_values::RequestValues;
use mock_request::snapshot::Snapshot;
use path_template::path_template::PathTemplate;
use scenario_core::scenarios::Scenarios;
use std::alloc::{AllocError, Global};

/// What the request, or the state of the scenario, has there.
pub fn found_of(
    alloc: Global,
    condition: &Condition,
    request: &ReadRequest<'_>,
    scenarios: &Scenarios,
) -> Result<Found, AllocError> {
    match condition {
        Condition::Method(_) => one_value(alloc, request.snapshot.method()),
        Condition::Url(wanted) => one_value(alloc, compared(wanted, request.snapshot)),
        Condition::Value { source, matcher } => {
            values_found(alloc, *source, matcher.name.as_str(), &request.values)
        }
        Condition::PathParameter { template, matcher } => {
            let name = matcher.name.as_str();
            segment_found(alloc, template.as_str(), name, request.snapshot)
        }
        Condition::Body(pattern) => body_found(alloc, pattern, request),
        Condition::Scenario(scenario) => {
            one_value(alloc, scenarios.state(scenario.name.as_str()))
        }
    }
}

fn one_value(alloc: Global, value: &str) -> Result<Found, AllocError> {
    let mut values = Vec::new(alloc);
    values.push(String::from_str(alloc, value)?)?;
    Ok(Found::Values(values))
}

/// What a URL matcher compares: the path, or the path and the query.
fn compared<'r>(wanted: &UrlSpec, request: &'r Snapshot) -> &'r str {
    match wanted {
        UrlSpec::Any | UrlSpec::Url(_) | UrlSpec::UrlPattern(_) => request.url(),
        _ => request.path(),
    }
}

fn values_found(
    alloc: Global,
    source: Source,
    name: &str,
    read: &RequestValues<'_>,
) -> Result<Found, AllocError> {
    let mut values = Vec::new(alloc);
    match source {
        Source::Header => for index in 0..read.header_count() {
            if let Some((key, value)) = read.header(index) {
                if key.eq_ignore_ascii_case(name) {
                    values.push(String::from_str(alloc, value)?)?;
                }
            }
        },
        Source::Query => push_named(alloc, &mut values, read.query(), name)?,
        Source::Cookie => push_named(alloc, &mut values, read.cookies(), name)?,
    }
    Ok(found_values(values))
}

fn push_named(
    alloc: Global,
    values: &mut Vec<String>,
    pairs: &[(String, String)],
    name: &str,
) -> Result<(), AllocError> {
    for (key, value) in pairs {
        if key.as_str() == name {
            values.push(String::from_str(alloc, value.as_str())?)?;
        }
    }
    Ok(())
}

fn found_values(values: Vec<String>) -> Found {
    if values.is_empty() {
        Found::None
    } else {
        Found::Values(values)
    }
}

/// The segment that the name is bound to.
fn segment_found(
    alloc: Global,
    template: &str,
    name: &str,
    request: &Snapshot,
) -> Result<Found, AllocError> {
    let Ok(template) = PathTemplate::parse(alloc, template) else {
        return Ok(Found::None);
    };
    match template.binding(request.path(), name) {
        Some(segment) => one_value(alloc, segment),
        None => Ok(Found::None),
    }
}

fn body_found(
    alloc: Global,
    pattern: &BodyPattern,
    request: &ReadRequest<'_>,
) -> Result<Found, AllocError> {
    match pattern {
        BodyPattern::Value(_) => one_value(alloc, request.values.body_text()),
        BodyPattern::BinaryEqualTo(_) => Ok(Found::Bytes(request.snapshot.body().len())),
        BodyPattern::Json(JsonSpec::EqualTo { .. }) => json_found(alloc, request),
        BodyPattern::Json(JsonSpec::Path(expression)) => {
            path_found(alloc, expression.as_str(), &request.body)
        }
        BodyPattern::JsonPath { expression, .. } => {
            path_found(alloc, expression.as_str(), &request.body)
        }
    }
}

fn json_found(alloc: Global, request: &ReadRequest<'_>) -> Result<Found, AllocError> {
    match &request.body {
        ReadBody::Json(_) => one_value(alloc, request.values.body_text()),
        ReadBody::NotJson(reason) => not_json(alloc, reason.as_str()),
    }
}

/// What a path finds in the body, as it is printed.
fn path_found(alloc: Global, expression: &str, body: &ReadBody) -> Result<Found, AllocError> {
    match body {
        ReadBody::Json(json) => found_at(alloc, expression, json),
        ReadBody::NotJson(reason) => not_json(alloc, reason.as_str()),
    }
}

fn found_at(alloc: Global, expression: &str, json: &JsonBody) -> Result<Found, AllocError> {
    let Ok(path) = JsonPath::parse(alloc, expression) else {
        return Ok(Found::NoSuchPath);
    };
    match json.root().at(path.steps()) {
        None | Some(Data::Nothing) => Ok(Found::NoSuchPath),
        Some(data) => {
            let mut printed = String::new(alloc);
            data.print_into(alloc, &mut printed)?;
            one_value(alloc, printed.as_str())
        }
    }
}

fn not_json(alloc: Global, reason: &str) -> Result<Found, AllocError> {
    Ok(Found::NotJson(String::from_str(alloc, reason)?))
}
