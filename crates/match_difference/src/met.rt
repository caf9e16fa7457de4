// Is a condition met?
ghost use Rattle.std.specs.Prelude.{◌≡◌, ◌↔◌, ◌∷◌, [], IfErr, IfOk, IsTrue, Some};
ghost use Rattle.match_difference.specs.Conditions.{IsMet, MeetsParameter, values_in};
ghost use Rattle.match_difference.specs.Refusal.{IsConditionRefusal, IsNamedRefusal};
ghost use Rattle.match_difference.specs.declared.condition.Condition.TheVariants as condition;
ghost use Rattle.request_journal.specs.Choice.{IsReady};
ghost use Rattle.request_match.specs.Matching.{MeetsMethod};
ghost use Rattle.request_match.specs.Parts.Matching.{MeetsAny, MeetsBody, MeetsUrl};
ghost use Rattle.request_match.specs.Parts.Refusal.{IsBodyRefusal, IsUrlRefusal};
ghost use Rattle.scenario_core.specs.Scenarios.{state_of};

use crate::condition::{Condition, Source};
use mapping_model::body_pattern::BodyPattern;
use mapping_model::named_matcher::NamedMatcher;
use mapping_model::scenario_spec::ScenarioSpec;
use mapping_model::url_spec::UrlSpec;
use path_template::path_template::PathTemplate;
use plain_text::text::Text;
use request_match::body_test::{build_body, meet_body};
use request_match::error::RequestMatchError;
use request_match::named_test::{NamedTest, build_tests, meet_pairs};
use request_match::parsed_request::ParsedRequest;
use request_match::url_test::UrlTest;
use scenario_core::scenarios::Scenarios;
use std::alloc::Global;
use std::slice;

/// Whether the request, or the state of the scenario, meets it.
pub(crate) fn is_met(
    alloc: Global,
    condition: &Condition,
    request: &mut ParsedRequest<'_>,
    scenarios: &Scenarios,
) -> Result<bool, RequestMatchError>
    ensures answer { IfOk result
        (λ yes. IsTrue yes ↔ IsMet (state_of scenarios.now) request.old condition.now) }
    ensures same_request { request.new ≡ request.old }
    ensures refusal { IfErr result (IsConditionRefusal condition.now) }
{
    match condition {
        Condition::Method(wanted) => Ok(is_method(wanted, request.method())),
        Condition::Url(wanted) => meets_url(alloc, wanted, request),
        Condition::Value { source, matcher } => meets_value(alloc, *source, matcher, request),
        Condition::PathParameter { template, matcher } => {
            meets_parameter(alloc, template, matcher, request)
        }
        Condition::Body(pattern) => meets_pattern(alloc, pattern, request),
        Condition::Scenario(scenario) => Ok(is_ready(scenario, scenarios)),
    }
}

fn is_method(wanted: &Text, method: &str) -> bool
    ensures { IsTrue result ↔ MeetsMethod (Some wanted.now) method.now }
{
    wanted.as_str() == method || wanted.as_str() == "ANY"
}

fn meets_url(
    alloc: Global,
    wanted: &UrlSpec,
    request: &ParsedRequest<'_>,
) -> Result<bool, RequestMatchError>
    ensures answer { IfOk result (λ yes. IsTrue yes ↔ MeetsUrl wanted.now request.now.url) }
    ensures refusal { IfErr result (IsUrlRefusal wanted.now) }
{
    let mut test = UrlTest::build(alloc, wanted)?;
    Ok(test.meets(alloc, request)?)
}

fn meets_value(
    alloc: Global,
    source: Source,
    matcher: &NamedMatcher,
    request: &mut ParsedRequest<'_>,
) -> Result<bool, RequestMatchError>
    ensures answer { IfOk result
        (λ yes. IsTrue yes ↔ MeetsAny matcher.now.matcher (values_in source matcher.now.name request.old)) }
    ensures same_request { request.new ≡ request.old }
    ensures refusal { IfErr result (IsNamedRefusal matcher.now) }
{
    let mut tests = tests_of(alloc, matcher)?;
    match source {
        Source::Header => Ok(request.meets_headers(tests.as_mut_slice())?),
        Source::Query => Ok(request.meets_query(tests.as_mut_slice())?),
        Source::Cookie => Ok(request.meets_cookies(tests.as_mut_slice())?),
    }
}

/// Its test alone.
fn tests_of(alloc: Global, matcher: &NamedMatcher) -> Result<Vec<NamedTest>, RequestMatchError>
    ensures ok { IfOk result (λ tests. tests.items ≡ matcher.now ∷ []) }
    ensures refusal { IfErr result (IsNamedRefusal matcher.now) }
{
    Ok(build_tests(alloc, slice::from_ref(matcher))?)
}

fn meets_parameter(
    alloc: Global,
    template: &Text,
    matcher: &NamedMatcher,
    request: &ParsedRequest<'_>,
) -> Result<bool, RequestMatchError>
    ensures answer { IfOk result (λ yes. IsTrue yes ↔ MeetsParameter template.now matcher.now request.now.url) }
    ensures refusal { IfErr result (IsConditionRefusal (condition.PathParameter template.now matcher.now)) }
{
    let template = PathTemplate::parse(alloc, template.as_str())?;
    let mut tests = tests_of(alloc, matcher)?;
    match template.bindings(alloc, request.path())? {
        Some(pairs) => Ok(meet_pairs(tests.as_mut_slice(), pairs.as_slice())?),
        None => Ok(true),
    }
}

fn meets_pattern(
    alloc: Global,
    pattern: &BodyPattern,
    request: &mut ParsedRequest<'_>,
) -> Result<bool, RequestMatchError>
    ensures answer { IfOk result (λ yes. IsTrue yes ↔ MeetsBody pattern.now request.old.body) }
    ensures same_request { request.new ≡ request.old }
    ensures refusal { IfErr result (IsBodyRefusal (pattern.now ∷ [])) }
{
    let mut tests = build_body(alloc, slice::from_ref(pattern))?;
    Ok(meet_body(tests.as_mut_slice(), request)?)
}

fn is_ready(scenario: &ScenarioSpec, scenarios: &Scenarios) -> bool
    ensures { IsTrue result ↔ IsReady (state_of scenarios.now) (Some scenario.now) }
{
    match &scenario.required {
        Some(required) => scenarios.state(scenario.name.as_str()) == required.as_str(),
        None => true,
    }
}
