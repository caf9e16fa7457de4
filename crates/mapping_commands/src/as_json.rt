// An explanation as JSON, for tools.
use crate::explanation::{Explained, Explanation};
use mapping_model::body_pattern::BodyPattern;
use mapping_model::named_matcher::NamedMatcher;
use mapping_model::request_spec::RequestSpec;
use mapping_model::scenario_spec::ScenarioSpec;
use mapping_model::url_spec::UrlSpec;
use match_difference::condition::{Condition, Source};
use match_difference::difference::Difference;
use match_difference::found::Found;
use plain_text::items::Items;
use plain_text::text::Text;
use request_journal::event::ServeAnswer;
use request_journal::mapping::Mapping;
use request_json::write_request::write_request;
use serde_json::{Map, Number, Value};
use std::alloc::{AllocError, Global};

/// The compact text and a line feed.
pub(crate) fn json_of(alloc: Global, explanation: &Explanation) -> Result<String, AllocError> {
    let mut members = Map::new(alloc);
    let answer = match &explanation.answer {
        ServeAnswer::Stub(captured) => {
            Value::Object(named(alloc, explanation.number, &captured.mapping)?)
        }
        _ => Value::Null,
    };
    put(alloc, &mut members, "answer", answer)?;
    let mut mappings = Vec::new(alloc);
    for explained in &explanation.mappings {
        mappings.push(mapping_json(alloc, explained)?)?;
    }
    put(alloc, &mut members, "mappings", Value::Array(mappings))?;
    let status = Value::Number(Number::from(explanation.status));
    put(alloc, &mut members, "status", status)?;
    let mut text = Value::Object(members).to_string(alloc)?;
    text.push_str("\n")?;
    Ok(text)
}

fn put(
    alloc: Global,
    members: &mut Map<String, Value>,
    name: &str,
    value: Value,
) -> Result<(), AllocError> {
    let _before = members.insert(String::from_str(alloc, name)?, value)?;
    Ok(())
}

fn put_str(
    alloc: Global,
    members: &mut Map<String, Value>,
    name: &str,
    text: &str,
) -> Result<(), AllocError> {
    let text = Value::String(String::from_str(alloc, text)?);
    put(alloc, members, name, text)
}

/// The number, the id and the name of a mapping.
fn named(
    alloc: Global,
    number: usize,
    mapping: &Mapping,
) -> Result<Map<String, Value>, AllocError> {
    let mut members = Map::new(alloc);
    let id = mapping.id.hyphenated(alloc)?;
    put(alloc, &mut members, "id", Value::String(id))?;
    let number = Value::Number(Number::from(number as u64));
    put(alloc, &mut members, "mapping", number)?;
    if let Some(name) = &mapping.spec.spec().name {
        put_str(alloc, &mut members, "name", name.as_str())?;
    }
    Ok(members)
}

fn mapping_json(alloc: Global, explained: &Explained) -> Result<Value, AllocError> {
    let mut members = named(alloc, explained.number, &explained.mapping)?;
    let mut differences = Vec::new(alloc);
    for difference in &explained.differences {
        differences.push(difference_json(alloc, difference)?)?;
    }
    put(
        alloc,
        &mut members,
        "differences",
        Value::Array(differences),
    )?;
    put_str(alloc, &mut members, "verdict", verdict(explained))?;
    Ok(Value::Object(members))
}

fn verdict(explained: &Explained) -> &'static str {
    if explained.is_chosen {
        "chosen"
    } else if explained.differences.is_empty() {
        "matches"
    } else {
        "differs"
    }
}

fn difference_json(alloc: Global, difference: &Difference) -> Result<Value, AllocError> {
    let mut members = Map::new(alloc);
    let condition = condition_json(alloc, &difference.condition)?;
    put(alloc, &mut members, "condition", condition)?;
    put_found(alloc, &mut members, &difference.found)?;
    Ok(Value::Object(members))
}

/// The condition as a mapping document has it: the request matcher with that part alone, or the scenario's fields.
fn condition_json(alloc: Global, condition: &Condition) -> Result<Value, AllocError> {
    let mut spec = RequestSpec::any(alloc);
    match condition {
        Condition::Method(wanted) => spec.method = Some(wanted.clone()?),
        Condition::Url(wanted) => spec.url = wanted.clone()?,
        Condition::Value { source, matcher } => {
            let one = one_matcher(alloc, matcher)?;
            match source {
                Source::Header => spec.headers = one,
                Source::Query => spec.query = one,
                Source::Cookie => spec.cookies = one,
            }
        }
        Condition::PathParameter { template, matcher } => {
            spec.url = UrlSpec::UrlPathTemplate {
                template: template.clone()?,
                parameters: one_matcher(alloc, matcher)?,
            }
        }
        Condition::Body(pattern) => spec.body = one_pattern(alloc, pattern)?,
        Condition::Scenario(scenario) => return scenario_json(alloc, scenario),
    }
    write_request(alloc, &spec)
}

fn one_matcher(alloc: Global, matcher: &NamedMatcher) -> Result<Items<NamedMatcher>, AllocError> {
    let mut one = Vec::new(alloc);
    one.push(matcher.clone()?)?;
    Ok(Items::from(one))
}

fn one_pattern(alloc: Global, pattern: &BodyPattern) -> Result<Items<BodyPattern>, AllocError> {
    let mut one = Vec::new(alloc);
    one.push(pattern.clone()?)?;
    Ok(Items::from(one))
}

fn scenario_json(alloc: Global, scenario: &ScenarioSpec) -> Result<Value, AllocError> {
    let mut members = Map::new(alloc);
    if let Some(required) = &scenario.required {
        put_str(
            alloc,
            &mut members,
            "requiredScenarioState",
            required.as_str(),
        )?;
    }
    put_str(alloc, &mut members, "scenarioName", scenario.name.as_str())?;
    Ok(Value::Object(members))
}

/// The values that were found: none, or why there can be none.
fn put_found(
    alloc: Global,
    members: &mut Map<String, Value>,
    found: &Found,
) -> Result<(), AllocError> {
    let mut values = Vec::new(alloc);
    match found {
        Found::Values(texts) => for text in texts {
            values.push(Value::String(text.clone()?))?;
        },
        Found::NotJson(reason) => put_str(alloc, members, "notJson", reason.as_str())?,
        Found::Bytes(count) => {
            let count = Value::Number(Number::from(*count as u64));
            put(alloc, members, "bytes", count)?;
        }
        Found::None | Found::NoSuchPath => {}
    }
    put(alloc, members, "found", Value::Array(values))
}
