// A condition that isn't met, and what there is in its place, in words and on one line.
use crate::condition::{Condition, Source};
use crate::found::Found;
use base64::engine::general_purpose::STANDARD;
use itoa::Buffer;
use json_match::json_spec::JsonSpec;
use mapping_diagnosis::shown::shortened;
use mapping_model::body_pattern::BodyPattern;
use mapping_model::named_matcher::NamedMatcher;
use mapping_model::url_spec::UrlSpec;
use plain_text::text::Text;
use serde_json::Value;
use std::alloc::{AllocError, Global};
use value_match::value_spec::ValueSpec;

/// How many values of a name are shown.
const VALUES_SHOWN: usize = 10;

/// As `header "accept" equalTo "text/plain", found "text/html"`, without a line feed.
pub fn line_of(alloc: Global, condition: &Condition, found: &Found) -> Result<String, AllocError> {
    let mut line = String::new(alloc);
    push_condition(alloc, &mut line, condition)?;
    line.push_str(", found ")?;
    push_found(alloc, &mut line, found)?;
    Ok(line)
}

/// A text in quotation marks, escaped as in JSON; a long one is cut in the middle.
pub fn quoted(alloc: Global, text: &str) -> Result<String, AllocError> {
    Value::String(shortened(alloc, text)?).to_string(alloc)
}

fn push_condition(
    alloc: Global,
    line: &mut String,
    condition: &Condition,
) -> Result<(), AllocError> {
    match condition {
        Condition::Method(wanted) => push_quoted(alloc, line, "method ", wanted.as_str()),
        Condition::Url(wanted) => push_url(alloc, line, wanted),
        Condition::Value { source, matcher } => {
            push_named(alloc, line, source_front(*source), matcher)
        }
        Condition::PathParameter { matcher, .. } => {
            push_named(alloc, line, "path parameter ", matcher)
        }
        Condition::Body(pattern) => push_pattern(alloc, line, pattern),
        Condition::Scenario(scenario) => {
            push_quoted(alloc, line, "scenario ", scenario.name.as_str())?;
            push_state(alloc, line, &scenario.required)
        }
    }
}

fn push_state(alloc: Global, line: &mut String, required: &Option<Text>) -> Result<(), AllocError> {
    match required {
        Some(required) => push_quoted(alloc, line, " in state ", required.as_str()),
        None => Ok(()),
    }
}

fn source_front(source: Source) -> &'static str {
    match source {
        Source::Header => "header ",
        Source::Query => "query parameter ",
        Source::Cookie => "cookie ",
    }
}

fn push_quoted(
    alloc: Global,
    line: &mut String,
    front: &str,
    text: &str,
) -> Result<(), AllocError> {
    let text = quoted(alloc, text)?;
    line.push_str(front)?;
    line.push_str(text.as_str())
}

fn push_url(alloc: Global, line: &mut String, wanted: &UrlSpec) -> Result<(), AllocError> {
    match wanted {
        UrlSpec::Any => line.push_str("url"),
        UrlSpec::Url(text) => push_quoted(alloc, line, "url ", text.as_str()),
        UrlSpec::UrlPattern(text) => push_quoted(alloc, line, "urlPattern ", text.as_str()),
        UrlSpec::UrlPath(text) => push_quoted(alloc, line, "urlPath ", text.as_str()),
        UrlSpec::UrlPathPattern(text) => {
            push_quoted(alloc, line, "urlPathPattern ", text.as_str())
        }
        UrlSpec::UrlPathTemplate { template, .. } => {
            push_quoted(alloc, line, "urlPathTemplate ", template.as_str())
        }
    }
}

fn push_named(
    alloc: Global,
    line: &mut String,
    front: &str,
    matcher: &NamedMatcher,
) -> Result<(), AllocError> {
    push_quoted(alloc, line, front, matcher.name.as_str())?;
    line.push_str(" ")?;
    push_matcher(alloc, line, &matcher.matcher)
}

fn push_matcher(alloc: Global, line: &mut String, matcher: &ValueSpec) -> Result<(), AllocError> {
    match matcher {
        ValueSpec::EqualTo(text) => push_quoted(alloc, line, "equalTo ", text.as_str()),
        ValueSpec::EqualToIgnoringCase(text) => {
            push_quoted(alloc, line, "equalTo ", text.as_str())?;
            line.push_str(" in any case")
        }
        ValueSpec::Contains(text) => push_quoted(alloc, line, "contains ", text.as_str()),
        ValueSpec::DoesNotContain(text) => {
            push_quoted(alloc, line, "doesNotContain ", text.as_str())
        }
        ValueSpec::Matches(text) => push_quoted(alloc, line, "matches ", text.as_str()),
        ValueSpec::DoesNotMatch(text) => {
            push_quoted(alloc, line, "doesNotMatch ", text.as_str())
        }
        ValueSpec::Absent => line.push_str("absent"),
    }
}

fn push_pattern(alloc: Global, line: &mut String, pattern: &BodyPattern) -> Result<(), AllocError> {
    line.push_str("body ")?;
    match pattern {
        BodyPattern::Value(matcher) => push_matcher(alloc, line, matcher),
        BodyPattern::BinaryEqualTo(bytes) => {
            let text = STANDARD.encode(alloc, bytes.as_slice())?;
            push_quoted(alloc, line, "binaryEqualTo ", text.as_str())
        }
        BodyPattern::Json(matcher) => push_json(alloc, line, matcher),
        BodyPattern::JsonPath {
            expression,
            matcher,
        } => {
            push_quoted(alloc, line, "matchesJsonPath ", expression.as_str())?;
            line.push_str(" ")?;
            push_matcher(alloc, line, matcher)
        }
    }
}

fn push_json(alloc: Global, line: &mut String, matcher: &JsonSpec) -> Result<(), AllocError> {
    match matcher {
        JsonSpec::Path(path) => push_quoted(alloc, line, "matchesJsonPath ", path.as_str()),
        JsonSpec::EqualTo {
            expected,
            ignore_array_order,
            ignore_extra_elements,
        } => {
            push_quoted(alloc, line, "equalToJson ", expected.as_str())?;
            line.push_str(if *ignore_array_order {
                " ignoreArrayOrder"
            } else {
                ""
            })?;
            line.push_str(if *ignore_extra_elements {
                " ignoreExtraElements"
            } else {
                ""
            })
        }
    }
}

fn push_found(alloc: Global, line: &mut String, found: &Found) -> Result<(), AllocError> {
    match found {
        Found::None => line.push_str("none"),
        Found::Values(values) => push_values(alloc, line, values.as_slice()),
        Found::NotJson(reason) => {
            line.push_str("not JSON: ")?;
            line.push_str(reason.as_str())
        }
        Found::NoSuchPath => line.push_str("no such path"),
        Found::Bytes(count) => {
            let mut digits = Buffer::new();
            line.push_str(digits.format(*count))?;
            line.push_str(" bytes")
        }
    }
}

fn push_values(alloc: Global, line: &mut String, values: &[String]) -> Result<(), AllocError> {
    let mut front = "";
    for value in values.get(..VALUES_SHOWN).unwrap_or(values) {
        push_quoted(alloc, line, front, value.as_str())?;
        front = ", ";
    }
    if values.len() > VALUES_SHOWN {
        let mut digits = Buffer::new();
        line.push_str(", and ")?;
        line.push_str(digits.format(values.len().saturating_sub(VALUES_SHOWN)))?;
        line.push_str(" more")?;
    }
    Ok(())
}
