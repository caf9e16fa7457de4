// Does the body of a request meet a body matcher?
ghost use Rattle.std.specs.Prelude.{◌≡◌, ◌↔◌, ◌++◌, ◌∷◌, [], List, None, Some, IfOk, IfErr, IsTrue, OnOk, All};
ghost use Rattle.std.specs.Option.{option_map_or};
ghost use Rattle.data_tree.specs.Tree.{view, nothing};
ghost use Rattle.request_match.specs.Parts.Matching.{MeetsBody, MeetsText, found_text};
ghost use Rattle.request_match.specs.Parts.Refusal.{HavePatterns, HaveTrees, HavePaths, IsBodyRefusal};
ghost use Rattle.request_match.specs.Inner.FirstError.{rank_of, IsFirstError};
ghost use Rattle.request_match.specs.Inner.Kept.{body_pattern_of, KeepsPath};
ghost use Rattle.value_match.specs.Matching as value;

use crate::error::RequestMatchError;
use crate::parsed_request::ParsedRequest;
use data_tree::data::Data;
use json_bridge::json_path::JsonPath;
use json_match::json_matcher::JsonMatcher;
use mapping_model::body_pattern::BodyPattern;
use mock_request::request_values::RequestValues;
use plain_text::octets::Octets;
use plain_text::text::Text;
use std::alloc::{AllocError, Global};
use std::marker::Model;
use value_match::value_matcher::ValueMatcher;
use value_match::value_spec::ValueSpec;

/// A body matcher that was built: contracts see what it was built from.
pub struct BodyTest {
    kind: BodyKind,
}

#[derive(Drop)]
pub(crate) enum BodyKind {
    Value(ValueMatcher),
    BinaryEqualTo(Octets),
    Json(JsonMatcher),
    /// An expression, the path that it spells, and the matcher of what that finds.
    JsonPath(Text, JsonPath, ValueMatcher),
}

impl Model for BodyTest {
    ghost use Rattle.mapping_model.specs.declared.body_pattern.BodyPattern.{BodyPattern};
    ghost use Rattle.request_match.specs.Inner.Kept.{body_pattern_of, KeepsPath};

    ghost Value = { BodyPattern };

    ghost view = { λ t. body_pattern_of t.kind };

    ghost invariant = { λ t. KeepsPath t.kind };
}

impl BodyTest {
    fn build(alloc: Global, spec: &BodyPattern) -> Result<BodyTest, RequestMatchError>
        ensures ok { IfOk result (λ test. test ≡ spec.now) }
        ensures usable { OnOk result (IsFirstError None (spec.now ∷ [])) }
        ensures refusal { IfErr result (λ error. IsFirstError (Some error) (spec.now ∷ [])) }
    {
        Ok(BodyTest {
            kind: kind_of(alloc, spec)?,
        })
    }

    fn meets(&mut self, request: &mut ParsedRequest<'_>) -> Result<bool, AllocError>
        ensures answer { IfOk result (λ yes. IsTrue yes ↔ MeetsBody self.old request.old.body) }
        ensures same { self.new ≡ self.old }
        ensures same_request { request.new ≡ request.old }
    {
        meets_kind(&mut self.kind, request)
    }
}

// Written out, so that a caller's proof sees one call and not the drop of each field.
impl Drop for BodyTest {
    fn drop(self) {
        let BodyTest { kind: _kind } = self;
    }
}

fn meets_kind(kind: &mut BodyKind, request: &mut ParsedRequest<'_>) -> Result<bool, AllocError>
    requires { KeepsPath kind.old }
    ensures answer { IfOk result (λ yes. IsTrue yes ↔ MeetsBody (body_pattern_of kind.old) request.old.body) }
    ensures same { body_pattern_of kind.new ≡ body_pattern_of kind.old }
    ensures keeps { KeepsPath kind.new }
    ensures same_request { request.new ≡ request.old }
{
    match kind {
        BodyKind::Value(matcher) => request.meets_text(matcher),
        BodyKind::BinaryEqualTo(bytes) => Ok(request.snapshot().body() == bytes.as_slice()),
        BodyKind::Json(matcher) => request.meets_json(matcher),
        BodyKind::JsonPath(_, path, matcher) => request.meets_at(path, matcher),
    }
}

fn kind_of(alloc: Global, spec: &BodyPattern) -> Result<BodyKind, RequestMatchError>
    ensures ok { IfOk result (λ kind. (body_pattern_of kind ≡ spec.now) × KeepsPath kind) }
    ensures usable { OnOk result (IsFirstError None (spec.now ∷ [])) }
    ensures refusal { IfErr result (λ error. IsFirstError (Some error) (spec.now ∷ [])) }
{
    match spec {
        BodyPattern::Value(matcher) => Ok(BodyKind::Value(ValueMatcher::build(alloc, matcher)?)),
        BodyPattern::BinaryEqualTo(bytes) => Ok(BodyKind::BinaryEqualTo(bytes.clone()?)),
        BodyPattern::Json(matcher) => Ok(BodyKind::Json(JsonMatcher::build(alloc, matcher)?)),
        BodyPattern::JsonPath {
            expression,
            matcher,
        } => path_kind(alloc, expression, matcher),
    }
}

fn path_kind(
    alloc: Global,
    expression: &Text,
    matcher: &ValueSpec,
) -> Result<BodyKind, RequestMatchError>
    ensures ok { IfOk result (λ kind.
        (body_pattern_of kind ≡ BodyPattern.JsonPath expression.now matcher.now) × KeepsPath kind) }
    ensures usable { OnOk result (IsFirstError None (BodyPattern.JsonPath expression.now matcher.now ∷ [])) }
    ensures refusal { IfErr result (λ error.
        IsFirstError (Some error) (BodyPattern.JsonPath expression.now matcher.now ∷ [])) }
{
    let matcher = ValueMatcher::build(alloc, matcher)?;
    let path = JsonPath::parse(alloc, expression.as_str())?;
    Ok(BodyKind::JsonPath(expression.clone()?, path, matcher))
}

/// Builds each. All of them are tried, so that of several errors the first in order is reported.
pub fn build_body(alloc: Global, specs: &[BodyPattern]) -> Result<Vec<BodyTest>, RequestMatchError>
    ensures ok { IfOk result (λ tests. tests.items ≡ specs.now) }
    ensures patterns { OnOk result (HavePatterns specs.now) }
    ensures trees { OnOk result (HaveTrees specs.now) }
    ensures paths { OnOk result (HavePaths specs.now) }
    ensures refusal { IfErr result (IsBodyRefusal specs.now) }
{
    let mut tests = Vec::with_capacity(alloc, specs.len())?;
    let mut first = None;
    for spec in specs {
        match BodyTest::build(alloc, spec) {
            Ok(test) => push(&mut tests, test)?,
            Err(error) => first = Some(first_error(first, error)),
        }
    }
    match first {
        Some(error) => Err(error),
        None => Ok(tests),
    }
}

fn push(tests: &mut Vec<BodyTest>, test: BodyTest) -> Result<(), AllocError>
    ensures { OnOk result (tests.new.items ≡ tests.old.items ++ test ∷ []) }
{
    tests.push(test)?;
    Ok(())
}

/// Whether the body meets each test.
pub fn meet_body(
    tests: &mut [BodyTest],
    request: &mut ParsedRequest<'_>,
) -> Result<bool, AllocError>
    ensures answer { IfOk result (λ yes. IsTrue yes
        ↔ All (λ pattern. MeetsBody pattern request.old.body) tests.old) }
    ensures same { tests.new ≡ tests.old }
    ensures same_request { request.new ≡ request.old }
{
    for i in 0..tests.len() {
        if !tests[i].meets(request)? {
            return Ok(false);
        }
    }
    Ok(true)
}

/// A body is always one value; an empty one also counts as absent.
pub(crate) fn meets_text(
    matcher: &mut ValueMatcher,
    request: &RequestValues<'_>,
) -> Result<bool, AllocError>
    ensures answer { IfOk result (λ yes. IsTrue yes ↔ MeetsText matcher.old request.now.body) }
    ensures same { matcher.new ≡ matcher.old }
{
    if matcher.matches(Some(request.body_text()))? {
        return Ok(true);
    }
    if request.snapshot().body().is_empty() {
        matcher.matches(None)
    } else {
        Ok(false)
    }
}

/// Whether the printed text of what a path finds meets the matcher.
pub(crate) fn meets_found(
    alloc: Global,
    matcher: &mut ValueMatcher,
    found: Option<&Data>,
) -> Result<bool, AllocError>
    ensures answer { IfOk result (λ yes. IsTrue yes ↔ value.Matches matcher.old
        (found_text (option_map_or (λ d. view d.now) found.entry nothing))) }
    ensures same { matcher.new ≡ matcher.old }
{
    match found {
        None | Some(Data::Nothing) => matcher.matches(None),
        Some(Data::Text(text)) => matcher.matches(Some(text.as_str())),
        Some(data) => {
            let mut printed = String::new(alloc);
            data.print_into(alloc, &mut printed)?;
            matcher.matches(Some(printed.as_str()))
        }
    }
}

/// The one of the two that is reported.
fn first_error(known: Option<RequestMatchError>, error: RequestMatchError) -> RequestMatchError
    ensures { (patterns more : List BodyPattern) → IsFirstError known patterns → IsFirstError (Some error) more
        → IsFirstError (Some result) (patterns ++ more) }
{
    match known {
        Some(known) if rank(known) <= rank(error) => known,
        _ => error,
    }
}

/// Its index in the order in which errors are reported.
fn rank(error: RequestMatchError) -> u8
    ensures { result ≡ rank_of error }
{
    match error {
        RequestMatchError::OutOfMemory => 0,
        RequestMatchError::BadUrl => 1,
        RequestMatchError::BadPattern => 2,
        RequestMatchError::NotJson => 3,
        RequestMatchError::NumberNotWhole => 4,
        RequestMatchError::BadPath => 5,
    }
}
