// Does the URL of a request meet a URL matcher?
ghost use Rattle.std.specs.Prelude.{◌≡◌, ◌↔◌, ◌∷◌, [], ℕ, List, IfOk, IfErr, IsErrOf};
ghost use Rattle.std.specs.Prelude.{IsSomeAnd, IsTrue, OnOk, All, Any};
ghost use Rattle.path_template.specs.Matching.{bindings_of};
ghost use Rattle.request_match.specs.Parts.Key.{MayHave, key_of};
ghost use Rattle.request_match.specs.Parts.Matching.{MeetsUrl, MeetPairs};
ghost use Rattle.request_match.specs.Parts.Refusal.{HasTemplate, IsUrlRefusal, matchers_of, url_matchers};
ghost use Rattle.path_template.specs.Template.{IsTemplate};
ghost use Rattle.request_match.specs.Inner.Kept.{url_spec_of, KeepsPattern};
ghost use Rattle.value_match.specs.Refusal.{HasPattern, MayBeRefused};

use crate::error::RequestMatchError;
use crate::hashed_text::HashedText;
use crate::named_test::{NamedTest, build_tests, meet_pairs};
use crate::parsed_request::ParsedRequest;
use crate::url_key::UrlKey;
use mapping_model::named_matcher::NamedMatcher;
use mapping_model::url_spec::UrlSpec;
use path_template::path_template::PathTemplate;
use plain_text::text::Text;
use std::alloc::{AllocError, Global};
use std::marker::Model;
use value_match::error::ValueError;
use value_match::value_matcher::ValueMatcher;
use value_match::value_spec::ValueSpec;

/// A URL matcher that was built: contracts see what it was built from.
pub struct UrlTest {
    kind: UrlKind,
}

#[derive(Drop)]
pub(crate) enum UrlKind {
    Any,
    Url(HashedText),
    /// A pattern and the matcher of it.
    UrlPattern(Text, ValueMatcher),
    UrlPath(HashedText),
    UrlPathPattern(Text, ValueMatcher),
    UrlPathTemplate(PathTemplate, Vec<NamedTest>),
}

impl Model for UrlTest {
    ghost use Rattle.mapping_model.specs.declared.url_spec.UrlSpec.{UrlSpec};
    ghost use Rattle.request_match.specs.Inner.Kept.{url_spec_of, KeepsPattern};

    ghost Value = { UrlSpec };

    ghost view = { λ t. url_spec_of t.kind };

    ghost invariant = { λ t. KeepsPattern t.kind };
}

impl UrlTest {
    pub fn build(alloc: Global, spec: &UrlSpec) -> Result<UrlTest, RequestMatchError>
        ensures ok { IfOk result (λ test. test ≡ spec.now) }
        ensures template { OnOk result (HasTemplate spec.now) }
        ensures patterns { OnOk result (All HasPattern (url_matchers spec.now)) }
        ensures refusal { IfErr result (IsUrlRefusal spec.now) }
    {
        Ok(UrlTest {
            kind: kind_of(alloc, spec)?,
        })
    }

    /// Whether the request's URL meets it.
    pub fn meets(&mut self, alloc: Global, request: &ParsedRequest<'_>) -> Result<bool, AllocError>
        ensures answer { IfOk result (λ yes. IsTrue yes ↔ MeetsUrl self.old request.now.url) }
        ensures same { self.new ≡ self.old }
    {
        meets_kind(&mut self.kind, alloc, request)
    }

    /// What its literal URL is known by.
    pub fn key(&self) -> UrlKey
        ensures value { result ≡ key_of self.now }
        ensures only { (target : List ℕ) → MeetsUrl self.now target → MayHave result target }
    {
        match &self.kind {
            UrlKind::Url(text) => UrlKey::Url(text.hash()),
            UrlKind::UrlPath(text) => UrlKey::UrlPath(text.hash()),
            _ => UrlKey::Any,
        }
    }
}

// Written out, so that a caller's proof sees one call and not the drop of each field.
impl Drop for UrlTest {
    fn drop(self) {
        let UrlTest { kind: _kind } = self;
    }
}

fn meets_kind(
    kind: &mut UrlKind,
    alloc: Global,
    request: &ParsedRequest<'_>,
) -> Result<bool, AllocError>
    requires { KeepsPattern kind.old }
    ensures answer { IfOk result (λ yes. IsTrue yes ↔ MeetsUrl (url_spec_of kind.old) request.now.url) }
    ensures same { url_spec_of kind.new ≡ url_spec_of kind.old }
    ensures keeps { KeepsPattern kind.new }
{
    match kind {
        UrlKind::Any => Ok(true),
        UrlKind::Url(text) => Ok(request.hashed_url().equals(text)),
        UrlKind::UrlPattern(_, matcher) => matcher.matches(Some(request.url())),
        UrlKind::UrlPath(text) => Ok(request.hashed_path().equals(text)),
        UrlKind::UrlPathPattern(_, matcher) => matcher.matches(Some(request.path())),
        UrlKind::UrlPathTemplate(template, parameters) => {
            meets_template(alloc, template, parameters.as_mut_slice(), request.path())
        }
    }
}

fn kind_of(alloc: Global, spec: &UrlSpec) -> Result<UrlKind, RequestMatchError>
    ensures ok { IfOk result (λ kind. (url_spec_of kind ≡ spec.now) × KeepsPattern kind) }
    ensures template { OnOk result (HasTemplate spec.now) }
    ensures patterns { OnOk result (All HasPattern (url_matchers spec.now)) }
    ensures refusal { IfErr result (IsUrlRefusal spec.now) }
{
    match spec {
        UrlSpec::Any => Ok(UrlKind::Any),
        UrlSpec::Url(text) => Ok(UrlKind::Url(HashedText::new(text)?)),
        UrlSpec::UrlPath(text) => Ok(UrlKind::UrlPath(HashedText::new(text)?)),
        UrlSpec::UrlPattern(text) => {
            let matcher = pattern_of(alloc, text)?;
            Ok(UrlKind::UrlPattern(text.clone()?, matcher))
        }
        UrlSpec::UrlPathPattern(text) => {
            let matcher = pattern_of(alloc, text)?;
            Ok(UrlKind::UrlPathPattern(text.clone()?, matcher))
        }
        UrlSpec::UrlPathTemplate {
            template,
            parameters,
        } => template_kind(alloc, template.as_str(), parameters.as_slice()),
    }
}

fn template_kind(
    alloc: Global,
    template: &str,
    parameters: &[NamedMatcher],
) -> Result<UrlKind, RequestMatchError>
    ensures ok { IfOk result (λ kind.
        (url_spec_of kind ≡ UrlSpec.UrlPathTemplate template.now parameters.now) × KeepsPattern kind) }
    ensures template { OnOk result (IsTemplate template.now) }
    ensures patterns { OnOk result (All HasPattern (matchers_of parameters.now)) }
    ensures refusal { IfErr result (IsUrlRefusal (UrlSpec.UrlPathTemplate template.now parameters.now)) }
{
    let template = PathTemplate::parse(alloc, template)?;
    Ok(UrlKind::UrlPathTemplate(template, build_tests(alloc, parameters)?))
}

/// The matcher of a pattern.
fn pattern_of(alloc: Global, text: &Text) -> Result<ValueMatcher, ValueError>
    ensures ok { IfOk result (λ matcher. matcher ≡ ValueSpec.Matches text.now) }
    ensures patterns { OnOk result (All HasPattern (ValueSpec.Matches text.now ∷ [])) }
    ensures bad_pattern { IsErrOf result ValueError.BadPattern
        → Any MayBeRefused (ValueSpec.Matches text.now ∷ []) }
{
    let pattern = ValueSpec::Matches(text.clone()?);
    ValueMatcher::build(alloc, &pattern)
}

/// Whether the path matches the template and what that binds meets the parameters.
fn meets_template(
    alloc: Global,
    template: &PathTemplate,
    parameters: &mut [NamedTest],
    path: &str,
) -> Result<bool, AllocError>
    ensures answer { IfOk result (λ yes. IsTrue yes
        ↔ IsSomeAnd (bindings_of template.now path.now) (MeetPairs parameters.old)) }
    ensures same { parameters.new ≡ parameters.old }
{
    if !template.matches(path) {
        return Ok(false);
    }
    match template.bindings(alloc, path)? {
        Some(pairs) => meet_pairs(parameters, pairs.as_slice()),
        None => Ok(false),
    }
}
