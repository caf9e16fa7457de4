// The conditions of a mapping.
ghost use Rattle.std.specs.Prelude.{◌≡◌, ◌↔◌, ◌∷◌, ◌++◌, [], All, IfOk, List, OnOk, ℕ, map};
ghost use Rattle.match_difference.specs.Conditions.{IsMet, conditions_of, method_conditions, url_conditions};
ghost use Rattle.match_difference.specs.Conditions.{parameter_conditions, scenario_conditions};
ghost use Rattle.match_difference.specs.declared.condition.Condition.TheVariants as condition;
ghost use Rattle.mock_request.specs.Request.{Request};
ghost use Rattle.request_journal.specs.Choice.{IsEligible};
ghost use Rattle.request_journal.specs.declared.mapping.Mapping.{Mapping};

use crate::condition::{Condition, Source};
use mapping_model::body_pattern::BodyPattern;
use mapping_model::mapping_spec::MappingSpec;
use mapping_model::named_matcher::NamedMatcher;
use mapping_model::scenario_spec::ScenarioSpec;
use mapping_model::url_spec::UrlSpec;
use plain_text::items::Items;
use plain_text::text::Text;
use std::alloc::{AllocError, Global};

/// A law: a mapping is eligible for a request exactly where all of its conditions are met.
pub fn eligible_where_all_are_met()
    ensures { (state_of : List ℕ → List ℕ) (request : Request) (mapping : Mapping)
        → All (IsMet state_of request) (conditions_of mapping.spec) ↔ IsEligible state_of request mapping }
{}

/// The conditions, in the order of the parts of a request.
pub(crate) fn conditions_of(
    alloc: Global,
    mapping: &MappingSpec,
) -> Result<Vec<Condition>, AllocError>
    ensures { IfOk result (λ list. list.items ≡ conditions_of mapping.now) }
{
    let mut list = Vec::new(alloc);
    push_method(&mut list, &mapping.request.method)?;
    push_url(alloc, &mut list, &mapping.request.url)?;
    push_values(
        &mut list,
        Source::Header,
        mapping.request.headers.as_slice(),
    )?;
    push_values(&mut list, Source::Query, mapping.request.query.as_slice())?;
    push_values(
        &mut list,
        Source::Cookie,
        mapping.request.cookies.as_slice(),
    )?;
    push_parameters(&mut list, &mapping.request.url)?;
    push_body(&mut list, mapping.request.body.as_slice())?;
    push_scenario(&mut list, &mapping.scenario)?;
    Ok(list)
}

fn push_method(list: &mut Vec<Condition>, method: &Option<Text>) -> Result<(), AllocError>
    ensures { OnOk result (list.new.items ≡ list.old.items ++ method_conditions method.now) }
{
    match method {
        Some(wanted) => push(list, Condition::Method(wanted.clone()?)),
        None => Ok(()),
    }
}

fn push_url(alloc: Global, list: &mut Vec<Condition>, url: &UrlSpec) -> Result<(), AllocError>
    ensures { OnOk result (list.new.items ≡ list.old.items ++ url_conditions url.now) }
{
    match url {
        UrlSpec::Any => Ok(()),
        UrlSpec::UrlPathTemplate { template, .. } => {
            let alone = UrlSpec::UrlPathTemplate {
                template: template.clone()?,
                parameters: Items::from(Vec::new(alloc)),
            };
            push(list, Condition::Url(alone))
        }
        _ => push(list, Condition::Url(url.clone()?)),
    }
}

fn push_values(
    list: &mut Vec<Condition>,
    source: Source,
    matchers: &[NamedMatcher],
) -> Result<(), AllocError>
    ensures { OnOk result (list.new.items
        ≡ list.old.items ++ map (λ m. condition.Value source m) matchers.now) }
{
    for matcher in matchers {
        push(
            list,
            Condition::Value {
                source,
                matcher: copied(matcher)?,
            },
        )?;
    }
    Ok(())
}

fn push_parameters(list: &mut Vec<Condition>, url: &UrlSpec) -> Result<(), AllocError>
    ensures { OnOk result (list.new.items ≡ list.old.items ++ parameter_conditions url.now) }
{
    match url {
        UrlSpec::UrlPathTemplate {
            template,
            parameters,
        } => push_each_parameter(list, template, parameters.as_slice()),
        _ => Ok(()),
    }
}

fn push_each_parameter(
    list: &mut Vec<Condition>,
    template: &Text,
    parameters: &[NamedMatcher],
) -> Result<(), AllocError>
    ensures { OnOk result (list.new.items
        ≡ list.old.items ++ map (λ m. condition.PathParameter template.now m) parameters.now) }
{
    for matcher in parameters {
        push(
            list,
            Condition::PathParameter {
                template: template.clone()?,
                matcher: copied(matcher)?,
            },
        )?;
    }
    Ok(())
}

// Apart, so that the proofs of loops see one fact and not a copy of each part.
fn copied(matcher: &NamedMatcher) -> Result<NamedMatcher, AllocError>
    ensures { IfOk result (λ copy. copy ≡ matcher.now) }
{
    matcher.clone()
}

fn push_body(list: &mut Vec<Condition>, patterns: &[BodyPattern]) -> Result<(), AllocError>
    ensures { OnOk result (list.new.items ≡ list.old.items ++ map (λ p. condition.Body p) patterns.now) }
{
    for pattern in patterns {
        push(list, Condition::Body(pattern.clone()?))?;
    }
    Ok(())
}

fn push_scenario(
    list: &mut Vec<Condition>,
    scenario: &Option<ScenarioSpec>,
) -> Result<(), AllocError>
    ensures { OnOk result (list.new.items ≡ list.old.items ++ scenario_conditions scenario.now) }
{
    match scenario {
        Some(scenario) => push(list, Condition::Scenario(scenario.clone()?)),
        None => Ok(()),
    }
}

pub(crate) fn push(list: &mut Vec<Condition>, condition: Condition) -> Result<(), AllocError>
    ensures { OnOk result (list.new.items ≡ list.old.items ++ condition ∷ []) }
{
    list.push(condition)?;
    Ok(())
}
