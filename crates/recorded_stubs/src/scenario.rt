// The part of a recorded mapping in the scenario of its group.
ghost use Rattle.std.specs.Prelude.{◌≡◌, ◌<◌, ◌+◌, decimal, nat_lt, if◌then◌else◌, IfOk, Some, None};
ghost use Rattle.recorder.specs.Stubs.{scenario_name, scenario_of, state_name};

use itoa::Buffer;
use key_groups::place::Place;
use mapping_model::scenario_spec::ScenarioSpec;
use plain_text::text::Text;
use std::alloc::{AllocError, Global};

// The state in which each scenario starts (WireMock's documentation, "Stateful behaviour").
const STARTED: &str = "Started";

/// None for a group of one.
pub(crate) fn scenario_of(
    alloc: Global,
    number: u64,
    place: Place,
) -> Result<Option<ScenarioSpec>, AllocError>
    ensures { IfOk result (λ scenario. scenario ≡ scenario_of number place) }
{
    let Some(group) = place.group else {
        return Ok(None);
    };
    Ok(Some(ScenarioSpec {
        name: scenario_name(alloc, number, group as u64)?,
        required: Some(state_name(alloc, place.position as u64)?),
        next: next_state(alloc, place)?,
    }))
}

fn scenario_name(alloc: Global, number: u64, group: u64) -> Result<Text, AllocError>
    ensures { IfOk result (λ name. name ≡ scenario_name number group) }
{
    let mut name = String::from_str(alloc, "recording-")?;
    name.push_str(Buffer::new().format(number))?;
    name.push_str("-")?;
    name.push_str(Buffer::new().format(group))?;
    Ok(Text::from(name))
}

fn state_name(alloc: Global, position: u64) -> Result<Text, AllocError>
    ensures { IfOk result (λ state. state ≡ state_name position) }
{
    if position <= 1 {
        return Ok(Text::from(String::from_str(alloc, STARTED)?));
    }
    decimal(alloc, position)
}

// The state to which the last of a group moves is none.
fn next_state(alloc: Global, place: Place) -> Result<Option<Text>, AllocError>
    ensures { IfOk result (λ state. state
        ≡ (if nat_lt place.position place.size then Some (decimal (place.position + 1)) else None)) }
{
    if place.position >= place.size {
        return Ok(None);
    }
    Ok(Some(decimal(alloc, place.position as u64 + 1)?))
}

fn decimal(alloc: Global, number: u64) -> Result<Text, AllocError>
    ensures { IfOk result (λ text. text ≡ decimal number) }
{
    Ok(Text::from(String::from_str(alloc, Buffer::new().format(number))?))
}
