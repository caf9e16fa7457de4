// The mappings that come nearest to a request that none of them matched.
ghost use Rattle.std.specs.Prelude.{◌≤◌, length};

use crate::mapping_name::push_mapping;
use match_difference::condition::Condition;
use match_difference::difference::unmet_conditions;
use match_difference::look_up::found_of;
use match_difference::read_request::ReadRequest;
use match_difference::said::line_of;
use mock_request::snapshot::Snapshot;
use request_journal::mapping::Mapping;
use request_match::error::RequestMatchError;
use request_match::parsed_request::ParsedRequest;
use request_match::request_matcher::meets_method;
use request_match::url_test::UrlTest;
use scenario_core::scenarios::Scenarios;
use std::alloc::{AllocError, Global};

/// How many mappings are told.
const TOLD: usize = 3;

/// How many mappings are looked at: the first ones in the order in which they are chosen. Of those after them only the
/// ones whose method and URL are the request's.
const LOOKED_AT: usize = 1000;

/// What a request could be answered by at some point: the live mappings, the newest first, and the states of scenarios.
#[derive(Drop)]
pub struct Offer {
    pub mappings: Vec<Mapping>,
    pub scenarios: Scenarios,
}

// A mapping, and the conditions of it that the request doesn't meet.
#[derive(Drop)]
struct Near {
    mapping: Mapping,
    unmet: Vec<Condition>,
}

/// A line for each of the mappings that differ from the request in the fewest conditions; of two that differ in as many,
/// first the one that is chosen before the other.
pub(crate) fn nearest_lines(
    alloc: Global,
    request: &Snapshot,
    offer: Offer,
) -> Result<String, RequestMatchError> {
    let Offer {
        mappings,
        scenarios,
    } = offer;
    let nearest = nearest(alloc, request, in_order(mappings)?, &scenarios)?;
    let read = ReadRequest::read(alloc, request)?;
    let mut lines = String::new(alloc);
    for near in &nearest {
        push_near(alloc, &mut lines, near, &read, &scenarios)?;
    }
    Ok(lines)
}

// Those of the least priority number first, and of these the newest.
fn in_order(mappings: Vec<Mapping>) -> Result<Vec<Mapping>, AllocError> {
    let mut ordered = mappings;
    ordered.sort_by(|one, other| priority(one).cmp(&priority(other)))?;
    Ok(ordered)
}

fn priority(mapping: &Mapping) -> i32 {
    mapping.spec.spec().priority_number()
}

fn nearest(
    alloc: Global,
    request: &Snapshot,
    mappings: Vec<Mapping>,
    scenarios: &Scenarios,
) -> Result<Vec<Near>, RequestMatchError> {
    let mut parsed = ParsedRequest::new(alloc, request);
    let mut nearest = Vec::new(alloc);
    let mut left = LOOKED_AT;
    for mapping in mappings {
        if left > 0 || is_of_request(alloc, &mapping, &parsed)? {
            let unmet = unmet_conditions(alloc, &mapping, &mut parsed, scenarios)?;
            keep(&mut nearest, Near { mapping, unmet })?;
        }
        left = left.saturating_sub(1);
    }
    Ok(nearest)
}

// Whether its method and its URL are the request's.
fn is_of_request(
    alloc: Global,
    mapping: &Mapping,
    request: &ParsedRequest<'_>,
) -> Result<bool, RequestMatchError> {
    let wanted = &mapping.spec.spec().request;
    if !meets_method(&wanted.method, request.method()) {
        return Ok(false);
    }
    let mut url = UrlTest::build(alloc, &wanted.url)?;
    Ok(url.meets(alloc, request)?)
}

// Keeps it among the nearest so far, after those that differ in no more.
fn keep(nearest: &mut Vec<Near>, near: Near) -> Result<(), AllocError> {
    let index = count_nearer(nearest.as_slice(), near.unmet.len());
    if index >= TOLD {
        return Ok(());
    }
    nearest.insert(index, near)?;
    nearest.truncate(TOLD);
    Ok(())
}

// How many differ in no more than so many conditions. They stand first.
fn count_nearer(nearest: &[Near], count: usize) -> usize
    ensures { result ≤ length nearest.now }
{
    for index in 0..nearest.len() {
        if nearest[index].unmet.len() > count {
            return index;
        }
    }
    nearest.len()
}

// As `  nearest 3f83df0b-a3bf-5f1c-9b5c-bffae2bac110 "todo": method "PUT", found "GET"; url "/a", found "/b"`.
fn push_near(
    alloc: Global,
    lines: &mut String,
    near: &Near,
    read: &ReadRequest<'_>,
    scenarios: &Scenarios,
) -> Result<(), AllocError> {
    lines.push_str("  nearest ")?;
    push_mapping(alloc, lines, &near.mapping)?;
    let mut front = ": ";
    for condition in &near.unmet {
        let found = found_of(alloc, condition, read, scenarios)?;
        lines.push_str(front)?;
        lines.push_str(line_of(alloc, condition, &found)?.as_str())?;
        front = "; ";
    }
    if near.unmet.is_empty() {
        // The book has changed since the request was answered.
        lines.push_str(": it matches by now")?;
    }
    lines.push_str("\n")
}
