//! The mappings of a row: a name, a method (`ANY` for each), a URL, and further words as `priority=1`, `id=7`,
//! `header=X:1`, `scenario=S`, `requires=Started`, `moves=two`.

use crate::words::text_of;
use case_table::words::{number, parts, value};
use mapping_model::header_lines::HeaderLines;
use mapping_model::mapping_id::MappingId;
use mapping_model::mapping_spec::MappingSpec;
use mapping_model::named_matcher::NamedMatcher;
use mapping_model::request_spec::RequestSpec;
use mapping_model::response_spec::{Body, Content, ResponseSpec};
use mapping_model::scenario_spec::ScenarioSpec;
use mapping_model::status::Status;
use mapping_model::url_spec::UrlSpec;
use plain_text::items::Items;
use plain_text::text::Text;
use request_match::ready_mapping::ReadyMapping;
use std::alloc::{AllocError, Global};
use value_match::value_spec::ValueSpec;

/// `default:0` and `event:3` stand for the ids that mappings without one get; a number stands for an id that none gets,
/// since no recording is stopped by event 0.
pub fn id(alloc: Global, text: &str) -> Result<MappingId, AllocError> {
    let (word, digits) = text.split_once(':').unwrap_or(("", text));
    match word {
        "default" => MappingId::of_default(alloc, number(digits)),
        "event" => MappingId::of_event(alloc, number(digits)),
        _ => MappingId::of_recording(alloc, 0, number(digits)),
    }
}

pub fn ready(alloc: Global, words: &str) -> Result<ReadyMapping, AllocError> {
    let built = ReadyMapping::build(alloc, mapping(alloc, words)?);
    built.ok().ok_or(AllocError)
}

fn mapping(alloc: Global, words: &str) -> Result<MappingSpec, AllocError> {
    let (name, rest) = parts(words);
    let (method, rest) = parts(rest);
    let (url, rest) = parts(rest);
    Ok(MappingSpec {
        id: wanted_id(alloc, rest)?,
        name: Some(text_of(alloc, name)?),
        priority: value(rest, "priority").and_then(|text| text.parse::<i32>().ok()),
        scenario: scenario(alloc, rest)?,
        request: request(alloc, method, url, rest)?,
        response: response(alloc)?,
    })
}

fn request(alloc: Global, method: &str, url: &str, words: &str) -> Result<RequestSpec, AllocError> {
    let mut request = RequestSpec::any(alloc);
    if method != "ANY" {
        request.method = Some(text_of(alloc, method)?);
    }
    request.url = UrlSpec::Url(text_of(alloc, url)?);
    request.headers = headers(alloc, words)?;
    Ok(request)
}

fn headers(alloc: Global, words: &str) -> Result<Items<NamedMatcher>, AllocError> {
    let mut headers = Vec::new(alloc);
    if let Some(text) = value(words, "header") {
        let (name, value) = text.split_once(':').unwrap_or((text, ""));
        headers.push(NamedMatcher {
            name: text_of(alloc, name)?,
            matcher: ValueSpec::EqualTo(text_of(alloc, value)?),
        })?;
    }
    Ok(Items::from(headers))
}

fn wanted_id(alloc: Global, words: &str) -> Result<Option<MappingId>, AllocError> {
    match value(words, "id") {
        Some(text) => Ok(Some(id(alloc, text)?)),
        None => Ok(None),
    }
}

fn scenario(alloc: Global, words: &str) -> Result<Option<ScenarioSpec>, AllocError> {
    match value(words, "scenario") {
        Some(name) => Ok(Some(ScenarioSpec {
            name: text_of(alloc, name)?,
            required: option_text(alloc, words, "requires")?,
            next: option_text(alloc, words, "moves")?,
        })),
        None => Ok(None),
    }
}

fn option_text(alloc: Global, words: &str, name: &str) -> Result<Option<Text>, AllocError> {
    match value(words, name) {
        Some(text) => Ok(Some(text_of(alloc, text)?)),
        None => Ok(None),
    }
}

fn response(alloc: Global) -> Result<ResponseSpec, AllocError> {
    Ok(ResponseSpec {
        status: Status::ok(),
        content: Content::Plain {
            headers: HeaderLines::new(Vec::new(alloc)).ok_or(AllocError)?,
            body: Body::Empty,
        },
    })
}
