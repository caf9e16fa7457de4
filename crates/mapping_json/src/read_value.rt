// What the fields of a mapping say.
ghost use Rattle.std.specs.Prelude.{◌≡◌, IfOk, IfErr, option_copied, option_map};
ghost use Rattle.mapping_json.specs.Reading.{id_in, id_of, id_field, uuid_in, uuid_of, text_in, taken_text};
ghost use Rattle.mapping_json.specs.Reading.{priority_in, priority_of, priority_number, scenario_in, scenario_of};
ghost use Rattle.mapping_json.specs.Reading.{request_in, response_in, names_in, place_in, parts_in, fields_of};
ghost use Rattle.mapping_json.specs.Reading.{has_no_items, is_empty_list, unsupported_kind, unless_empty, beside};
ghost use Rattle.mapping_json.specs.Reading.{mapping_in, reading_of_mapping};
ghost use Rattle.mapping_json.specs.Spelling.{SpellsMapping, IsValueError};
ghost use Rattle.serde_json.specs.Find.{get};
ghost use Rattle.serde_json.specs.View.{view, items_view};

use crate::draft::MappingDraft;
use crate::error::MappingError;
use json_reading::fields::text_of;
use json_reading::kind::Kind;
use json_reading::numbers::{is_taken, taken};
use json_reading::reading::{Reading, both, some, wrong_also};
use mapping_model::mapping_id::MappingId;
use mapping_model::request_spec::RequestSpec;
use mapping_model::scenario_spec::ScenarioSpec;
use plain_text::text::Text;
use request_json::request_reading::request_of;
use request_match::ready_mapping::ReadyMapping;
use response_json::draft::ResponseDraft;
use response_json::read::read_response;
use serde_json::Value;
use std::alloc::{AllocError, Global};
use template_tree::escape::Escape;

/// The mapping that a value spells, where the prints of its templates are escaped so.
#[tactic(auto, using(crate::proofs::ErrorLemmas::draft_error, crate::proofs::ErrorLemmas::wrong_value))]
pub fn mapping_of(
    alloc: Global,
    value: &Value,
    escape: Escape,
) -> Result<ReadyMapping, MappingError>
    ensures ok { IfOk result (SpellsMapping escape (view value.now)) }
    ensures error { IfErr result (IsValueError escape (view value.now)) }
{
    match read_draft(alloc, value)? {
        Reading::Read(draft) => draft.build(alloc, escape),
        Reading::Wrong(kind) => Err(MappingError::Document(kind)),
    }
}

#[tactic(auto, unfolding(crate::specs::Reading::reading_of_mapping))]
fn read_draft(alloc: Global, value: &Value) -> Result<Reading<MappingDraft>, AllocError>
    ensures { IfOk result (λ draft. draft ≡ reading_of_mapping (view value.now)) }
{
    if value.is_object() {
        mapping_in(alloc, value)
    } else {
        Ok(taken(value, Reading::Wrong(Kind::Misshapen)))
    }
}

fn mapping_in(alloc: Global, value: &Value) -> Result<Reading<MappingDraft>, AllocError>
    ensures { IfOk result (λ draft. draft ≡ mapping_in (view value.now)) }
{
    let draft = beside("serveEventListeners", value, fields_of(alloc, value)?);
    Ok(beside("postServeActions", value, draft))
}

/// A part beside a field that may only be an empty list.
fn beside(name: &str, value: &Value, part: Reading<MappingDraft>) -> Reading<MappingDraft>
    ensures { result ≡ beside (get name.now (view value.now)) part }
{
    match value.get(name) {
        Some(field) => unless_empty(field, part),
        None => part,
    }
}

fn unless_empty(field: &Value, part: Reading<MappingDraft>) -> Reading<MappingDraft>
    ensures { result ≡ unless_empty (view field.now) part }
{
    if is_empty_list(field) {
        part
    } else {
        wrong_also(unsupported_kind(field), part)
    }
}

fn fields_of(alloc: Global, value: &Value) -> Result<Reading<MappingDraft>, AllocError>
    ensures { IfOk result (λ draft. draft ≡ fields_of (view value.now)) }
{
    let names = names_in(alloc, value)?;
    let place = place_in(alloc, value)?;
    let parts = parts_in(alloc, value)?;
    match both(names, both(place, parts)) {
        Reading::Read(((id, name), ((priority, scenario), (request, response)))) => {
            Ok(Reading::Read(MappingDraft {
                id,
                name,
                priority,
                scenario,
                request,
                response,
            }))
        }
        Reading::Wrong(kind) => Ok(Reading::Wrong(kind)),
    }
}

#[tactic(auto, unfolding(crate::specs::Reading::names_in))]
fn names_in(
    alloc: Global,
    value: &Value,
) -> Result<Reading<(Option<MappingId>, Option<Text>)>, AllocError>
    ensures { IfOk result (λ names. names ≡ names_in (view value.now)) }
{
    Ok(both(id_in(value), text_in(alloc, "name", value)?))
}

#[tactic(auto, unfolding(crate::specs::Reading::place_in))]
fn place_in(
    alloc: Global,
    value: &Value,
) -> Result<Reading<(Option<i32>, Option<ScenarioSpec>)>, AllocError>
    ensures { IfOk result (λ place. place ≡ place_in (view value.now)) }
{
    Ok(both(priority_in(value), scenario_in(alloc, value)?))
}

#[tactic(auto, unfolding(crate::specs::Reading::parts_in))]
pub(crate) fn parts_in(
    alloc: Global,
    value: &Value,
) -> Result<Reading<(RequestSpec, ResponseDraft)>, AllocError>
    ensures { IfOk result (λ parts. parts ≡ parts_in (view value.now)) }
{
    Ok(both(request_in(alloc, value)?, response_in(alloc, value)?))
}

fn id_in(value: &Value) -> Reading<Option<MappingId>>
    ensures { result ≡ id_in (view value.now) }
{
    match id_field(value) {
        Some(id) => some(id_of(id)),
        None => Reading::Read(None),
    }
}

pub(crate) fn id_field(value: &Value) -> Option<&Value>
    ensures { option_map (λ v. view v.now) result ≡ id_field (view value.now) }
{
    match value.get("id") {
        Some(id) => Some(id),
        None => value.get("uuid"),
    }
}

pub(crate) fn id_of(value: &Value) -> Reading<MappingId>
    ensures { result ≡ id_of (view value.now) }
{
    taken(value, uuid_of(value))
}

fn uuid_of(value: &Value) -> Reading<MappingId>
    ensures { result ≡ uuid_of (view value.now) }
{
    uuid_in(value.as_str())
}

fn uuid_in(text: Option<&str>) -> Reading<MappingId>
    ensures { result ≡ uuid_in (option_copied text.entry) }
{
    let Some(text) = text else {
        return Reading::Wrong(Kind::Misshapen);
    };
    match MappingId::parse(text) {
        Some(id) => Reading::Read(id),
        None => Reading::Wrong(Kind::Misshapen),
    }
}

fn text_in(alloc: Global, name: &str, value: &Value) -> Result<Reading<Option<Text>>, AllocError>
    ensures { IfOk result (λ text. text ≡ text_in name.now (view value.now)) }
{
    match value.get(name) {
        Some(text) => Ok(some(taken_text(alloc, text)?)),
        None => Ok(Reading::Read(None)),
    }
}

fn taken_text(alloc: Global, value: &Value) -> Result<Reading<Text>, AllocError>
    ensures { IfOk result (λ text. text ≡ taken_text (view value.now)) }
{
    Ok(taken(value, text_of(alloc, value)?))
}

fn priority_in(value: &Value) -> Reading<Option<i32>>
    ensures { result ≡ priority_in (view value.now) }
{
    match value.get("priority") {
        Some(priority) => some(priority_of(priority)),
        None => Reading::Read(None),
    }
}

pub(crate) fn priority_of(value: &Value) -> Reading<i32>
    ensures { result ≡ priority_of (view value.now) }
{
    taken(value, priority_number(value.as_i64()))
}

fn priority_number(number: Option<i64>) -> Reading<i32>
    ensures { result ≡ priority_number number }
{
    match number {
        Some(number) if -2_147_483_648 <= number && number <= 2_147_483_647 => {
            Reading::Read(number as i32)
        }
        _ => Reading::Wrong(Kind::Misshapen),
    }
}

fn scenario_in(alloc: Global, value: &Value) -> Result<Reading<Option<ScenarioSpec>>, AllocError>
    ensures { IfOk result (λ scenario. scenario ≡ scenario_in (view value.now)) }
{
    let name = text_in(alloc, "scenarioName", value)?;
    let required = text_in(alloc, "requiredScenarioState", value)?;
    let next = text_in(alloc, "newScenarioState", value)?;
    match both(name, both(required, next)) {
        Reading::Read((name, (required, next))) => {
            Ok(Reading::Read(scenario_of(name, required, next)))
        }
        Reading::Wrong(kind) => Ok(Reading::Wrong(kind)),
    }
}

fn scenario_of(
    name: Option<Text>,
    required: Option<Text>,
    next: Option<Text>,
) -> Option<ScenarioSpec>
    ensures { result ≡ scenario_of (name, (required, next)) }
{
    match name {
        Some(name) => Some(ScenarioSpec {
            name,
            required,
            next,
        }),
        None => None,
    }
}

fn request_in(alloc: Global, value: &Value) -> Result<Reading<RequestSpec>, AllocError>
    ensures { IfOk result (λ request. request ≡ request_in (view value.now)) }
{
    match value.get("request") {
        Some(request) => Ok(taken(request, request_of(alloc, request)?)),
        None => Ok(Reading::Read(RequestSpec::any(alloc))),
    }
}

pub(crate) fn response_in(
    alloc: Global,
    value: &Value,
) -> Result<Reading<ResponseDraft>, AllocError>
    ensures { IfOk result (λ response. response ≡ response_in (view value.now)) }
{
    match value.get("response") {
        Some(response) => read_response(alloc, response),
        None => Ok(Reading::Read(ResponseDraft::none(alloc))),
    }
}

pub(crate) fn is_empty_list(value: &Value) -> bool
    ensures { result ≡ is_empty_list (view value.now) }
{
    matches!(value.as_array(), Some(items) if has_no_items(items))
}

fn has_no_items(items: &Vec<Value>) -> bool
    ensures { result ≡ has_no_items (items_view items.now.items) }
{
    match items.as_slice() {
        [] => true,
        [_, ..] => false,
    }
}

pub(crate) fn unsupported_kind(value: &Value) -> Kind
    ensures { result ≡ unsupported_kind (view value.now) }
{
    if is_taken(value) {
        Kind::Unsupported
    } else {
        Kind::NumberNotWhole
    }
}
