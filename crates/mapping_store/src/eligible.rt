// Which entries are eligible for a request.
ghost use Rattle.std.specs.Prelude.{◌≡◌, ◌↔◌, ◌<◌, ◌≤◌, ⊤, false, length, true, AllPairs, IfOk, IfSome, IsTrue};
ghost use Rattle.std.specs.List.{AllWithin};
ghost use Rattle.std.specs.Ordering.{is_lt};
ghost use Rattle.request_journal.specs.Choice.{IsEligible, IsReady};
ghost use Rattle.request_match.specs.Matching.{MeetsRequest};
ghost use Rattle.scenario_core.specs.Scenarios.{state_of};
ghost use Rattle.mapping_store.specs.Kept.{AreKept, Fits, IsBefore, key_order, placed_of};
ghost use Rattle.mapping_store.specs.Inner.Best.{IsBest, IsBetterOf};

use crate::book_mapping::BookMapping;
use crate::entry::{Entry, Source, key_order};
use mapping_model::scenario_spec::ScenarioSpec;
use request_match::parsed_request::ParsedRequest;
use request_match::shared_spec::SharedSpec;
use request_match::url_key::UrlKey;
use scenario_core::scenarios::Scenarios;
use std::alloc::AllocError;

/// The specification of an entry.
pub(crate) fn spec_of<'a>(entry: &'a Entry, defaults: &'a [BookMapping]) -> &'a SharedSpec
    requires { Fits defaults.now entry.now }
    ensures { result.now ≡ entry.now.seen.value }
{
    match &entry.source {
        Source::Own(mapping) => mapping.shared(),
        Source::Default(at) => defaults[*at].shared(),
    }
}

/// The index of the eligible entry that wins over all others. Only those that are known by the request's URL or path,
/// or that ask for none, are compared with the request.
pub(crate) fn best_eligible(
    entries: &mut [Entry],
    defaults: &mut [BookMapping],
    scenarios: &Scenarios,
    request: &mut ParsedRequest<'_>,
) -> Result<Option<usize>, AllocError>
    requires { AreKept defaults.old entries.old }
    ensures found { IfOk result (IsBest (λ e. ⊤)
        (λ e. IsEligible (state_of scenarios.now) request.old (placed_of e).mapping) entries.old) }
    ensures same_entries { entries.new ≡ entries.old }
    ensures same_defaults { defaults.new ≡ defaults.old }
    ensures same_request { request.new ≡ request.old }
{
    let url = request.url_key();
    let path = request.path_key();
    let by_any = best_of(entries, UrlKey::Any, defaults, scenarios, request)?;
    let by_url = best_of(entries, url, defaults, scenarios, request)?;
    let by_path = best_of(entries, path, defaults, scenarios, request)?;
    let by_literal = better(entries, by_url, by_path);
    Ok(better(entries, by_any, by_literal))
}

// That of both entries which wins over the other.
fn better(entries: &[Entry], one: Option<usize>, other: Option<usize>) -> Option<usize>
    requires one { IfSome one (λ at. at < length entries.now) }
    requires other { IfSome other (λ at. at < length entries.now) }
    ensures { IsBetterOf entries.now one other result }
{
    match (one, other) {
        (Some(at), Some(after)) => {
            if entries[after].choice_order(&entries[at]).is_lt() {
                other
            } else {
                one
            }
        }
        (Some(_at), None) => one,
        (None, _) => other,
    }
}

// That of the entries with this key.
fn best_of(
    entries: &mut [Entry],
    key: UrlKey,
    defaults: &mut [BookMapping],
    scenarios: &Scenarios,
    request: &mut ParsedRequest<'_>,
) -> Result<Option<usize>, AllocError>
    requires { AreKept defaults.old entries.old }
    ensures found { IfOk result (IsBest (λ e. e.key ≡ key)
        (λ e. IsEligible (state_of scenarios.now) request.old (placed_of e).mapping) entries.old) }
    ensures within { IfOk result (λ found. IfSome found (λ at. at < length entries.old)) }
    ensures same_entries { entries.new ≡ entries.old }
    ensures same_defaults { defaults.new ≡ defaults.old }
    ensures same_request { request.new ≡ request.old }
{
    let start = start_of(entries, key);
    let end = entries.len();
    for i in start..end {
        if key_order(entries[i].key, key).is_gt() {
            return Ok(None);
        }
        if is_eligible(&mut entries[i], defaults, scenarios, request)? {
            return Ok(Some(i));
        }
    }
    Ok(None)
}

// Where the entries with this key begin. Those that ask for no literal URL come first.
fn start_of(entries: &[Entry], key: UrlKey) -> usize
    requires { AllPairs IsBefore entries.now }
    ensures before { AllWithin (λ e. is_lt (key_order e.key key) ≡ true) entries.now 0 result }
    ensures from { AllWithin (λ e. is_lt (key_order e.key key) ≡ false) entries.now result (length entries.now) }
    ensures within { result ≤ length entries.now }
{
    if matches!(key, UrlKey::Any) {
        return 0;
    }
    entries.partition_point(|entry| key_order(entry.key, key).is_lt())
}

fn is_eligible(
    entry: &mut Entry,
    defaults: &mut [BookMapping],
    scenarios: &Scenarios,
    request: &mut ParsedRequest<'_>,
) -> Result<bool, AllocError>
    requires { Fits defaults.old entry.old }
    ensures answer { IfOk result (λ yes. IsTrue yes
        ↔ IsEligible (state_of scenarios.now) request.old (placed_of entry.old).mapping) }
    ensures same_entry { entry.new ≡ entry.old }
    ensures same_defaults { defaults.new ≡ defaults.old }
    ensures same_request { request.new ≡ request.old }
{
    if !meets(entry, defaults, request)? {
        return Ok(false);
    }
    Ok(is_ready(scenarios, &spec_of(entry, defaults).spec().scenario))
}

fn meets(
    entry: &mut Entry,
    defaults: &mut [BookMapping],
    request: &mut ParsedRequest<'_>,
) -> Result<bool, AllocError>
    requires { Fits defaults.old entry.old }
    ensures answer { IfOk result (λ yes. IsTrue yes ↔ MeetsRequest entry.old.seen.value.request request.old) }
    ensures same_entry { entry.new ≡ entry.old }
    ensures same_defaults { defaults.new ≡ defaults.old }
    ensures same_request { request.new ≡ request.old }
{
    match &mut entry.source {
        Source::Own(mapping) => mapping.matches(request),
        Source::Default(at) => defaults[*at].matches(request),
    }
}

fn is_ready(scenarios: &Scenarios, scenario: &Option<ScenarioSpec>) -> bool
    ensures { IsTrue result ↔ IsReady (state_of scenarios.now) scenario.now }
{
    match scenario {
        Some(scenario) => match &scenario.required {
            Some(required) => scenarios.state(scenario.name.as_str()) == required.as_str(),
            None => true,
        },
        None => true,
    }
}
