// Scenarios, as values.
ghost use Rattle.std.specs.Prelude.{◌≡◌, ◌++◌, ◌∷◌, [], map, IfOk, OnOk, Some, string_bytes};
ghost use Rattle.std.specs.List.{filter};
ghost use Rattle.admin_json.specs.Names.{in_order};
ghost use Rattle.std.specs.BTreeMap.{keys};
ghost use Rattle.admin_json.specs.Scenarios.{is_other, json_of_named, json_of_scenario, json_of_scenarios, named_by};
ghost use Rattle.admin_json.specs.Scenarios.{paired, possible_states, states_named};
ghost use Rattle.mock_request.specs.Values.{pairs_of};
ghost use Rattle.serde_json.specs.View.{view};

use crate::grouped::by_name;
use crate::names::{add, push_all};
use crate::written::{only_member, texts_value};
use mapping_model::scenario_spec::ScenarioSpec;
use plain_text::text::Text;
use request_journal::mapping::Mapping;
use scenario_core::scenarios::{STARTED, Scenarios};
use serde_json::{Map, Value};
use std::alloc::{AllocError, Global};
use std::collections::BTreeMap;

/// The scenarios that the mappings name, each with the states in which it may be and the one in which it is.
pub fn scenarios_value(
    alloc: Global,
    states: &Scenarios,
    mappings: &[Mapping],
) -> Result<Value, AllocError>
    ensures { IfOk result (λ value. view value ≡ json_of_scenarios states.now mappings.now) }
{
    let list = list_value(alloc, states, named_by(alloc, mappings)?)?;
    only_member(alloc, "scenarios", list)
}

fn list_value(
    alloc: Global,
    states: &Scenarios,
    named: Vec<(String, String)>,
) -> Result<Value, AllocError>
    ensures { IfOk result (λ value. view value ≡ json_of_named states.now (pairs_of named.items)) }
{
    let mut values = Vec::new(alloc);
    for (name, named) in by_name(alloc, named)? {
        values.push(scenario_value(alloc, states, name, named.as_slice())?)?;
    }
    Ok(Value::Array(values))
}

/// Each scenario with each state in which it may be.
fn named_by(alloc: Global, mappings: &[Mapping]) -> Result<Vec<(String, String)>, AllocError>
    ensures { IfOk result (λ pairs. pairs_of pairs.items ≡ named_by mappings.now) }
{
    let mut pairs = Vec::new(alloc);
    for mapping in mappings {
        push_named(alloc, &mut pairs, &mapping.spec.spec().scenario)?;
    }
    Ok(pairs)
}

fn push_named(
    alloc: Global,
    pairs: &mut Vec<(String, String)>,
    scenario: &Option<ScenarioSpec>,
) -> Result<(), AllocError>
    ensures { OnOk result (pairs_of pairs.new.items ≡ pairs_of pairs.old.items ++ states_named scenario.now) }
{
    match scenario {
        Some(scenario) => push_states(alloc, pairs, scenario),
        None => Ok(()),
    }
}

fn push_states(
    alloc: Global,
    pairs: &mut Vec<(String, String)>,
    scenario: &ScenarioSpec,
) -> Result<(), AllocError>
    ensures { OnOk result (pairs_of pairs.new.items ≡ pairs_of pairs.old.items ++ states_named (Some scenario.now)) }
{
    push_pair(alloc, pairs, scenario.name.as_str(), STARTED)?;
    push_optional(alloc, pairs, scenario.name.as_str(), &scenario.required)?;
    push_optional(alloc, pairs, scenario.name.as_str(), &scenario.next)
}

fn push_optional(
    alloc: Global,
    pairs: &mut Vec<(String, String)>,
    name: &str,
    state: &Option<Text>,
) -> Result<(), AllocError>
    ensures { OnOk result (pairs_of pairs.new.items ≡ pairs_of pairs.old.items ++ paired name.now state.now) }
{
    match state {
        Some(state) => push_pair(alloc, pairs, name, state.as_str()),
        None => Ok(()),
    }
}

fn push_pair(
    alloc: Global,
    pairs: &mut Vec<(String, String)>,
    name: &str,
    state: &str,
) -> Result<(), AllocError>
    ensures { OnOk result (pairs_of pairs.new.items ≡ pairs_of pairs.old.items ++ (name.now, state.now) ∷ []) }
{
    let name = String::from_str(alloc, name)?;
    let state = String::from_str(alloc, state)?;
    Ok(pairs.push((name, state))?)
}

fn scenario_value(
    alloc: Global,
    states: &Scenarios,
    name: String,
    named: &[Text],
) -> Result<Value, AllocError>
    ensures { IfOk result (λ value. view value ≡ json_of_scenario states.now (string_bytes name) named.now) }
{
    let mut members = Map::new(alloc);
    let state = Value::try_from_str(alloc, states.state(name.as_str()))?;
    serde_json::put(&mut members, alloc, "name", Value::String(name))?;
    let possible = texts_value(alloc, possible_states(alloc, named)?)?;
    serde_json::put(&mut members, alloc, "possibleStates", possible)?;
    serde_json::put(&mut members, alloc, "state", state)?;
    Ok(Value::Object(members))
}

/// `STARTED`, then the others in byte order.
fn possible_states(alloc: Global, named: &[Text]) -> Result<Vec<Text>, AllocError>
    ensures { IfOk result (λ found. found.items ≡ possible_states named.now) }
{
    let mut found = Vec::new(alloc);
    found.push(Text::from(String::from_str(alloc, STARTED)?))?;
    push_all(&mut found, others(alloc, named)?)?;
    Ok(found)
}

fn others(alloc: Global, named: &[Text]) -> Result<BTreeMap<String, ()>, AllocError>
    ensures { IfOk result (λ names. map string_bytes (keys names) ≡ in_order (filter is_other named.now)) }
{
    let mut names = BTreeMap::new(alloc);
    for state in named {
        if state.as_str() != STARTED {
            add(alloc, &mut names, state)?;
        }
    }
    Ok(names)
}
