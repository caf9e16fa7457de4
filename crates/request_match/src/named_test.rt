// Do the values of a name meet a matcher?
ghost use Rattle.std.specs.Prelude.{◌≡◌, ◌↔◌, ◌++◌, ◌∷◌, [], map, IfOk, IsTrue, IsErrOf, OnOk, All, Any};
ghost use Rattle.std.specs.Char.{to_ascii_lowercase};
ghost use Rattle.std.specs.Str.{bytes_eq};
ghost use Rattle.mock_request.specs.HeaderFields.{texts_of};
ghost use Rattle.mock_request.specs.Values.{pairs_of, values_of};
ghost use Rattle.request_match.specs.Inner.Rest.{MeetsRest};
ghost use Rattle.request_match.specs.Parts.Matching.{MeetsAny, MeetPairs, MeetHeaders};
ghost use Rattle.request_match.specs.Parts.Refusal.{matchers_of};
ghost use Rattle.value_match.specs.Refusal.{HasPattern, MayBeRefused};

use mapping_model::named_matcher::NamedMatcher;
use mock_request::request_values::RequestValues;
use plain_text::text::Text;
use std::alloc::{AllocError, Global};
use std::marker::Model;
use value_match::error::ValueError;
use value_match::value_matcher::ValueMatcher;

/// A matcher of the values of a name that was built: contracts see what it was built from.
pub struct NamedTest {
    name: Text,
    matcher: ValueMatcher,
}

impl Model for NamedTest {
    ghost use Rattle.mapping_model.specs.declared.named_matcher.NamedMatcher.{NamedMatcher};

    ghost Value = { NamedMatcher };

    ghost view = { λ t. record { name = t.name; matcher = t.matcher } };
}

impl NamedTest {
    fn build(alloc: Global, spec: &NamedMatcher) -> Result<NamedTest, ValueError>
        ensures ok { IfOk result (λ test. test ≡ spec.now) }
        ensures pattern { OnOk result (HasPattern spec.now.matcher) }
        ensures bad_pattern { IsErrOf result ValueError.BadPattern → MayBeRefused spec.now.matcher }
    {
        Ok(NamedTest {
            matcher: ValueMatcher::build(alloc, &spec.matcher)?,
            name: spec.name.clone()?,
        })
    }

    /// Whether its name's values among the pairs meet it.
    fn meets(&mut self, pairs: &[(String, String)]) -> Result<bool, AllocError>
        ensures answer { IfOk result (λ yes. IsTrue yes
            ↔ MeetsAny self.old.matcher (values_of self.old.name (pairs_of pairs.now))) }
        ensures same { self.new ≡ self.old }
    {
        meets_any(&mut self.matcher, self.name.as_str(), pairs)
    }

    /// Whether the texts of the headers of its name meet it.
    fn meets_headers(&mut self, request: &RequestValues<'_>) -> Result<bool, AllocError>
        ensures answer { IfOk result (λ yes. IsTrue yes
            ↔ MeetsAny self.old.matcher (texts_of (map to_ascii_lowercase self.old.name) request.now.headers)) }
        ensures same { self.new ≡ self.old }
    {
        meets_any_header(&mut self.matcher, self.name.as_str(), request)
    }
}

// Written out, so that a caller's proof sees one call and not the drop of each field.
impl Drop for NamedTest {
    fn drop(self) {
        let NamedTest {
            name: _name,
            matcher: _matcher,
        } = self;
    }
}

/// Builds each.
pub fn build_tests(alloc: Global, specs: &[NamedMatcher]) -> Result<Vec<NamedTest>, ValueError>
    ensures ok { IfOk result (λ tests. tests.items ≡ specs.now) }
    ensures patterns { OnOk result (All HasPattern (matchers_of specs.now)) }
    ensures bad_pattern { IsErrOf result ValueError.BadPattern → Any MayBeRefused (matchers_of specs.now) }
{
    let mut tests = Vec::with_capacity(alloc, specs.len())?;
    for spec in specs {
        push(&mut tests, NamedTest::build(alloc, spec)?)?;
    }
    Ok(tests)
}

fn push(tests: &mut Vec<NamedTest>, test: NamedTest) -> Result<(), AllocError>
    ensures { OnOk result (tests.new.items ≡ tests.old.items ++ test ∷ []) }
{
    tests.push(test)?;
    Ok(())
}

/// Whether the pairs meet each test.
pub fn meet_pairs(tests: &mut [NamedTest], pairs: &[(String, String)]) -> Result<bool, AllocError>
    ensures answer { IfOk result (λ yes. IsTrue yes ↔ MeetPairs tests.old (pairs_of pairs.now)) }
    ensures same { tests.new ≡ tests.old }
{
    for i in 0..tests.len() {
        if !tests[i].meets(pairs)? {
            return Ok(false);
        }
    }
    Ok(true)
}

/// Whether the headers meet each test.
pub fn meet_headers(
    tests: &mut [NamedTest],
    request: &RequestValues<'_>,
) -> Result<bool, AllocError>
    ensures answer { IfOk result (λ yes. IsTrue yes ↔ MeetHeaders tests.old request.now) }
    ensures same { tests.new ≡ tests.old }
{
    for i in 0..tests.len() {
        if !tests[i].meets_headers(request)? {
            return Ok(false);
        }
    }
    Ok(true)
}

fn meets_any(
    matcher: &mut ValueMatcher,
    name: &str,
    pairs: &[(String, String)],
) -> Result<bool, AllocError>
    ensures answer { IfOk result (λ yes. IsTrue yes
        ↔ MeetsAny matcher.old (values_of name.now (pairs_of pairs.now))) }
    ensures same { matcher.new ≡ matcher.old }
{
    let mut found = false;
    for (key, value) in pairs {
        if name == key.as_str() {
            if matcher.matches(Some(value.as_str()))? {
                return Ok(true);
            }
            found = true;
        }
    }
    meets_none(matcher, found)
}

fn meets_any_header(
    matcher: &mut ValueMatcher,
    name: &str,
    request: &RequestValues<'_>,
) -> Result<bool, AllocError>
    ensures answer { IfOk result (λ yes. IsTrue yes
        ↔ MeetsAny matcher.old (texts_of (map to_ascii_lowercase name.now) request.now.headers)) }
    ensures same { matcher.new ≡ matcher.old }
{
    let mut found = false;
    for i in 0..request.header_count() {
        if let Some((key, value)) = request.header(i) {
            if is_lower_case_of(key, name) {
                if matcher.matches(Some(value))? {
                    return Ok(true);
                }
                found = true;
            }
        }
    }
    meets_none(matcher, found)
}

/// Whether no value is enough: not where there were some.
fn meets_none(matcher: &mut ValueMatcher, found: bool) -> Result<bool, AllocError>
    ensures answer { IfOk result (λ yes. IsTrue yes ↔ MeetsRest found matcher.old []) }
    ensures same { matcher.new ≡ matcher.old }
{
    if found {
        Ok(false)
    } else {
        matcher.matches(None)
    }
}

/// Whether the text is the name with its ASCII letters in lower case.
fn is_lower_case_of(text: &str, name: &str) -> bool
    ensures { result ≡ bytes_eq (map to_ascii_lowercase name.now) text.now }
{
    let (text, name) = (text.as_bytes(), name.as_bytes());
    if text.len() != name.len() {
        return false;
    }
    for i in 0..text.len() {
        let lower = name[i].to_ascii_lowercase();
        if lower != text[i] {
            return false;
        }
    }
    true
}
