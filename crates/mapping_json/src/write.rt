// From a mapping to its JSON value.
ghost use Rattle.std.specs.Prelude.{◌≡◌, Some, IfOk, OnOk, option_map, codes};
ghost use Rattle.json_reading.specs.Written.{with_field};
ghost use Rattle.mapping_json.specs.Writing.{json_of_id, json_of_mapping, json_of_priority, with_names, with_scenario};
ghost use Rattle.mapping_json.specs.Writing.{with_text};
ghost use Rattle.serde_json.specs.View.{view, members_view};

use json_reading::written::put_text;
use mapping_model::mapping_id::MappingId;
use mapping_model::mapping_spec::MappingSpec;
use mapping_model::scenario_spec::ScenarioSpec;
use plain_text::text::Text;
use request_json::write_request::write_request;
use response_json::write::write_response;
use serde_json::{Map, Value};
use std::alloc::{AllocError, Global};

/// The object of a mapping.
#[tactic(auto, unfolding(crate::specs::Writing::json_of_mapping))]
pub fn write_mapping(alloc: Global, mapping: &MappingSpec) -> Result<Value, AllocError>
    ensures { IfOk result (λ value. view value ≡ json_of_mapping mapping.now) }
{
    let mut members = Map::new(alloc);
    put_names(alloc, &mut members, mapping)?;
    let request = write_request(alloc, &mapping.request)?;
    serde_json::put(&mut members, alloc, "request", request)?;
    let response = write_response(alloc, &mapping.response)?;
    serde_json::put(&mut members, alloc, "response", response)?;
    Ok(Value::Object(members))
}

fn put_names(
    alloc: Global,
    members: &mut Map<String, Value>,
    mapping: &MappingSpec,
) -> Result<(), AllocError>
    ensures { OnOk result (members_view members.new.entries
        ≡ with_names mapping.now (members_view members.old.entries)) }
{
    put_id(alloc, members, mapping.id)?;
    put_optional(alloc, members, "name", &mapping.name)?;
    put_priority(alloc, members, mapping.priority)?;
    match &mapping.scenario {
        Some(scenario) => put_scenario(alloc, members, scenario),
        None => Ok(()),
    }
}

fn put_id(
    alloc: Global,
    members: &mut Map<String, Value>,
    id: Option<MappingId>,
) -> Result<(), AllocError>
    ensures { OnOk result (members_view members.new.entries
        ≡ with_field (codes "id") (option_map json_of_id id) (members_view members.old.entries)) }
{
    match id {
        Some(id) => {
            let text = id.hyphenated(alloc)?;
            serde_json::put(members, alloc, "id", Value::String(text))
        }
        None => Ok(()),
    }
}

fn put_optional(
    alloc: Global,
    members: &mut Map<String, Value>,
    name: &str,
    text: &Option<Text>,
) -> Result<(), AllocError>
    ensures { OnOk result (members_view members.new.entries
        ≡ with_text name.now text.now (members_view members.old.entries)) }
{
    match text {
        Some(text) => put_text(alloc, members, name, text),
        None => Ok(()),
    }
}

fn put_priority(
    alloc: Global,
    members: &mut Map<String, Value>,
    priority: Option<i32>,
) -> Result<(), AllocError>
    ensures { OnOk result (members_view members.new.entries
        ≡ with_field (codes "priority") (option_map json_of_priority priority) (members_view members.old.entries)) }
{
    match priority {
        Some(priority) => serde_json::put(members, alloc, "priority", Value::from(priority)),
        None => Ok(()),
    }
}

fn put_scenario(
    alloc: Global,
    members: &mut Map<String, Value>,
    scenario: &ScenarioSpec,
) -> Result<(), AllocError>
    ensures { OnOk result (members_view members.new.entries
        ≡ with_scenario (Some scenario.now) (members_view members.old.entries)) }
{
    put_text(alloc, members, "scenarioName", &scenario.name)?;
    put_optional(alloc, members, "requiredScenarioState", &scenario.required)?;
    put_optional(alloc, members, "newScenarioState", &scenario.next)
}
