// The conditions of a mapping that a request doesn't meet.
ghost use Rattle.std.specs.Prelude.{◌≡◌, ◌↔◌, ◌⊎◌, ◌∷◌, ◌++◌, [], IfErr, IfOk, OnOk, map};
ghost use Rattle.match_difference.specs.Conditions.{conditions_of};
ghost use Rattle.match_difference.specs.Refusal.{IsConditionRefusal, IsDifferenceRefusal};
ghost use Rattle.match_difference.specs.Inner.Added.{IsAdded};
ghost use Rattle.match_difference.specs.Unmet.{AreUnmet};
ghost use Rattle.request_journal.specs.Choice.{IsEligible};
ghost use Rattle.request_match.specs.declared.error.RequestMatchError.TheVariants.{OutOfMemory as NoMemory};
ghost use Rattle.scenario_core.specs.Scenarios.{state_of};

use crate::condition::Condition;
use crate::conditions::{conditions_of, push};
use crate::found::Found;
use crate::look_up::found_of;
use crate::met::is_met;
use crate::read_request::ReadRequest;
use request_journal::mapping::Mapping;
use request_match::error::RequestMatchError;
use request_match::parsed_request::ParsedRequest;
use scenario_core::scenarios::Scenarios;
use std::alloc::{AllocError, Global};

/// A condition that isn't met, and what there is in its place.
pub struct Difference {
    pub condition: Condition,
    pub found: Found,
}

// Written out, so that a caller's proof sees one call and not the drop of each part.
impl Drop for Difference {
    fn drop(self) {
        let Difference {
            condition: _condition,
            found: _found,
        } = self;
    }
}

/// The conditions of the mapping that the request doesn't meet, where its scenario is in the state that it has there.
/// There are none exactly where the mapping may be chosen. What there is in their place is looked up in the request as
/// it was read, which is that of `request`.
pub fn differences(
    alloc: Global,
    mapping: &Mapping,
    request: &mut ParsedRequest<'_>,
    read: &ReadRequest<'_>,
    scenarios: &Scenarios,
) -> Result<Vec<Difference>, RequestMatchError>
    ensures unmet { IfOk result (λ found. AreUnmet (state_of scenarios.now) request.old
        (conditions_of mapping.now.spec) (map (λ d. d.condition) found.items)) }
    ensures eligible { IfOk result
        (λ found. (found.items ≡ []) ↔ IsEligible (state_of scenarios.now) request.old mapping.now) }
    ensures same_request { request.new ≡ request.old }
    ensures refusal { IfErr result (IsDifferenceRefusal (conditions_of mapping.now.spec)) }
{
    let unmet = unmet_conditions(alloc, mapping, request, scenarios)?;
    Ok(each_with_found(alloc, unmet, read, scenarios)?)
}

/// The conditions alone.
pub fn unmet_conditions(
    alloc: Global,
    mapping: &Mapping,
    request: &mut ParsedRequest<'_>,
    scenarios: &Scenarios,
) -> Result<Vec<Condition>, RequestMatchError>
    ensures unmet { IfOk result (λ found. AreUnmet (state_of scenarios.now) request.old
        (conditions_of mapping.now.spec) found.items) }
    ensures eligible { IfOk result
        (λ found. (found.items ≡ []) ↔ IsEligible (state_of scenarios.now) request.old mapping.now) }
    ensures same_request { request.new ≡ request.old }
    ensures refusal { IfErr result (IsDifferenceRefusal (conditions_of mapping.now.spec)) }
{
    let conditions = conditions_of(alloc, mapping.spec.spec())?;
    unmet(alloc, conditions, request, scenarios)
}

fn unmet(
    alloc: Global,
    conditions: Vec<Condition>,
    request: &mut ParsedRequest<'_>,
    scenarios: &Scenarios,
) -> Result<Vec<Condition>, RequestMatchError>
    ensures unmet { IfOk result (λ found. AreUnmet (state_of scenarios.now) request.old
        conditions.items found.items) }
    ensures same_request { request.new ≡ request.old }
    ensures refusal { IfErr result (IsDifferenceRefusal conditions.items) }
{
    let mut list = Vec::new(alloc);
    for condition in conditions {
        add_unmet(alloc, &mut list, condition, request, scenarios)?;
    }
    Ok(list)
}

/// Adds the condition, unless it is met.
fn add_unmet(
    alloc: Global,
    list: &mut Vec<Condition>,
    condition: Condition,
    request: &mut ParsedRequest<'_>,
    scenarios: &Scenarios,
) -> Result<(), RequestMatchError>
    ensures added { OnOk result (IsAdded (state_of scenarios.now) request.old condition
        list.old.items list.new.items) }
    ensures same_request { request.new ≡ request.old }
    ensures refusal { IfErr result (λ error. (error ≡ NoMemory) ⊎ IsConditionRefusal condition error) }
{
    if is_met(alloc, &condition, request, scenarios)? {
        return Ok(());
    }
    push(list, condition)?;
    Ok(())
}

fn each_with_found(
    alloc: Global,
    conditions: Vec<Condition>,
    read: &ReadRequest<'_>,
    scenarios: &Scenarios,
) -> Result<Vec<Difference>, AllocError>
    ensures { IfOk result (λ list. map (λ d. d.condition) list.items ≡ conditions.items) }
{
    let mut list = Vec::new(alloc);
    for condition in conditions {
        push_found(alloc, &mut list, condition, read, scenarios)?;
    }
    Ok(list)
}

fn push_found(
    alloc: Global,
    list: &mut Vec<Difference>,
    condition: Condition,
    read: &ReadRequest<'_>,
    scenarios: &Scenarios,
) -> Result<(), AllocError>
    ensures { OnOk result (map (λ d. d.condition) list.new.items
        ≡ map (λ d. d.condition) list.old.items ++ condition ∷ []) }
{
    let found = found_of(alloc, &condition, read, scenarios)?;
    list.push(Difference { condition, found })?;
    Ok(())
}
