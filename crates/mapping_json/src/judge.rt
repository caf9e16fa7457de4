// Whether a value spells a mapping, where no more is wanted of it than its response, as in `mock check`. `read_value`
// makes a mapping of the same fields; here none is made, so no name or scenario is copied, and no matcher is built
// where there is no `request`.
ghost use Rattle.std.specs.Prelude.{◌≡◌, true, None, codes, is_some, IfOk, IfErr};
ghost use Rattle.mapping_json.specs.Inner.Wrongs.{alone, joined, misshapen_kind, wrong_field, wrong_fields, wrong_list};
ghost use Rattle.mapping_json.specs.Inner.Wrongs.{wrong_of, wrong_scenario, wrong_text};
ghost use Rattle.mapping_json.specs.Reading.{any_request, id_field, id_of, priority_of};
ghost use Rattle.mapping_json.specs.Spelling.{SpellsResponse, IsValueError, IsResponseOf, IsDraftError};
ghost use Rattle.serde_json.specs.Find.{as_object, get};
ghost use Rattle.serde_json.specs.View.{view};

use crate::error::MappingError;
use crate::read_value::{
    id_field, id_of, is_empty_list, parts_in, priority_of, response_in, unsupported_kind,
};
use json_reading::kind::Kind;
use json_reading::numbers::is_taken;
use json_reading::reading::Reading;
use mapping_model::request_spec::RequestSpec;
use mapping_model::response_spec::ResponseSpec;
use request_match::request_matcher::RequestMatcher;
use response_json::draft::ResponseDraft;
use serde_json::Value;
use std::alloc::Global;
use template_tree::escape::Escape;

/// The response of the mapping that a value spells, where no more is wanted of it. The whole mapping is judged.
pub fn response_of(
    alloc: Global,
    value: &Value,
    escape: Escape,
) -> Result<ResponseSpec, MappingError>
    ensures ok { IfOk result (SpellsResponse escape (view value.now)) }
    ensures error { IfErr result (IsValueError escape (view value.now)) }
{
    if value.is_object() {
        response_in_object(alloc, value, escape)
    } else {
        Err(MappingError::Document(misshapen_kind(value)))
    }
}

// Not inlined, as none below that is marked so: a function clears all its locals when it is entered, and a value that
// is no object, or has no such field, needs none of these.
#[inline(never)]
fn response_in_object(
    alloc: Global,
    value: &Value,
    escape: Escape,
) -> Result<ResponseSpec, MappingError>
    requires { is_some (as_object (view value.now)) ≡ true }
    ensures ok { IfOk result (SpellsResponse escape (view value.now)) }
    ensures error { IfErr result (IsValueError escape (view value.now)) }
{
    let wrong = wrong_fields(value);
    match value.get("request") {
        Some(_request) => with_request(alloc, value, wrong, escape),
        None => without_request(alloc, value, wrong, escape),
    }
}

/// Of an object whose other fields are wrong so.
#[inline(never)]
fn with_request(
    alloc: Global,
    value: &Value,
    wrong: Option<Kind>,
    escape: Escape,
) -> Result<ResponseSpec, MappingError>
    requires object { is_some (as_object (view value.now)) ≡ true }
    requires fields { wrong ≡ wrong_fields (view value.now) }
    ensures ok { IfOk result (SpellsResponse escape (view value.now)) }
    ensures error { IfErr result (IsValueError escape (view value.now)) }
{
    let parts = parts_in(alloc, value)?;
    if let Some(kind) = joined(wrong, wrong_of(&parts)) {
        return Err(MappingError::Document(kind));
    }
    match parts {
        Reading::Read((request, response)) => built(alloc, request, response, escape),
        Reading::Wrong(kind) => Err(MappingError::Document(kind)),
    }
}

/// The same without a request. The matcher that matches each request has nothing that can be wrong, so none is built.
fn without_request(
    alloc: Global,
    value: &Value,
    wrong: Option<Kind>,
    escape: Escape,
) -> Result<ResponseSpec, MappingError>
    requires object { is_some (as_object (view value.now)) ≡ true }
    requires fields { wrong ≡ wrong_fields (view value.now) }
    requires absent { get (codes "request") (view value.now) ≡ None }
    ensures ok { IfOk result (SpellsResponse escape (view value.now)) }
    ensures error { IfErr result (IsValueError escape (view value.now)) }
{
    let response = response_in(alloc, value)?;
    if let Some(kind) = joined(wrong, wrong_of(&response)) {
        return Err(MappingError::Document(kind));
    }
    match response {
        Reading::Read(response) => compiled(alloc, response, escape),
        Reading::Wrong(kind) => Err(MappingError::Document(kind)),
    }
}

#[tactic(auto, using(crate::proofs::Wrongs::any_built, crate::proofs::ErrorLemmas::template_error))]
fn compiled(
    alloc: Global,
    response: ResponseDraft,
    escape: Escape,
) -> Result<ResponseSpec, MappingError>
    ensures ok { IfOk result (IsResponseOf escape (alone any_request response)) }
    ensures error { IfErr result (IsDraftError escape (alone any_request response)) }
{
    Ok(response.compile(alloc, escape)?)
}

/// What is wrong with the matcher is reported before what is wrong with a template.
#[tactic(auto, using(crate::proofs::ErrorLemmas::request_error, crate::proofs::ErrorLemmas::template_error))]
fn built(
    alloc: Global,
    request: RequestSpec,
    response: ResponseDraft,
    escape: Escape,
) -> Result<ResponseSpec, MappingError>
    ensures ok { IfOk result (IsResponseOf escape (alone request response)) }
    ensures error { IfErr result (IsDraftError escape (alone request response)) }
{
    let _matcher = RequestMatcher::build(alloc, &request)?;
    Ok(response.compile(alloc, escape)?)
}

/// In which way the fields of an object are wrong that are neither its request nor its response. Takes no memory.
#[tactic(auto, unfolding(crate::specs::Inner::Wrongs::wrong_fields))]
fn wrong_fields(value: &Value) -> Option<Kind>
    ensures { result ≡ wrong_fields (view value.now) }
{
    let place = joined(wrong_priority(value), wrong_scenario(value));
    let names = joined(wrong_id(value), wrong_text("name", value));
    let lists = joined(
        wrong_list("postServeActions", value),
        wrong_list("serveEventListeners", value),
    );
    joined(lists, joined(names, place))
}

fn wrong_scenario(value: &Value) -> Option<Kind>
    ensures { result ≡ wrong_scenario (view value.now) }
{
    let states = joined(
        wrong_text("requiredScenarioState", value),
        wrong_text("newScenarioState", value),
    );
    joined(wrong_text("scenarioName", value), states)
}

fn wrong_priority(value: &Value) -> Option<Kind>
    ensures { result ≡ wrong_field priority_of (get (codes "priority") (view value.now)) }
{
    wrong_of(&priority_of(value.get("priority")?))
}

fn wrong_id(value: &Value) -> Option<Kind>
    ensures { result ≡ wrong_field id_of (id_field (view value.now)) }
{
    wrong_of(&id_of(id_field(value)?))
}

fn wrong_text(name: &str, value: &Value) -> Option<Kind>
    ensures { result ≡ wrong_text (get name.now (view value.now)) }
{
    match value.get(name) {
        Some(text) => if text.is_string() {
            None
        } else {
            Some(misshapen_kind(text))
        },
        None => None,
    }
}

fn wrong_of<T>(part: &Reading<T>) -> Option<Kind>
    ensures { result ≡ wrong_of part.now }
{
    match part {
        Reading::Read(_) => None,
        Reading::Wrong(kind) => Some(*kind),
    }
}

fn joined(a: Option<Kind>, b: Option<Kind>) -> Option<Kind>
    ensures { result ≡ joined a b }
{
    match (a, b) {
        (Some(a), Some(b)) => Some(a.first(b)),
        (Some(a), None) => Some(a),
        (None, b) => b,
    }
}

fn wrong_list(name: &str, value: &Value) -> Option<Kind>
    ensures { result ≡ wrong_list (get name.now (view value.now)) }
{
    match value.get(name) {
        Some(field) => if is_empty_list(field) {
            None
        } else {
            Some(unsupported_kind(field))
        },
        None => None,
    }
}

fn misshapen_kind(value: &Value) -> Kind
    ensures { result ≡ misshapen_kind (view value.now) }
{
    if is_taken(value) {
        Kind::Misshapen
    } else {
        Kind::NumberNotWhole
    }
}
