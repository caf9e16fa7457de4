// Whether values meet a matcher.
ghost use Rattle.std.specs.Prelude.{◌≡◌, ◌↔◌, ◌⊎◌, ℕ, List, Some, IfOk, OnOk, IsOk, IsTrue, IfErr};
ghost use Rattle.std.specs.Prelude.{IsErrOf, option_copied};
ghost use Rattle.regex.specs.Strings.{IsDefaultFailure};
ghost use Rattle.std.specs.Str.Iter.{HasSubslice};
ghost use Rattle.value_match.specs.Matching.{Matches};
ghost use Rattle.value_match.specs.Refusal.{HasPattern, MayBeRefused, IsPatternOfWhole, IsRefused};
ghost use Rattle.value_match.specs.Patterns.{IsPattern, whole_of, FindsIn};
ghost use Rattle.value_match.specs.Inner.Engine.{IsReadFrom};
ghost use Rattle.value_match.specs.Inner.Searches.{SearchesFor};

use crate::automaton::parsed;
use crate::error::ValueError;
use crate::pattern::Pattern;
use crate::value_spec::ValueSpec;
use regex::Error;
use std::alloc::{AllocError, Global};
use std::marker::Model;

/// A value matcher that was built: contracts see what it was built from.
pub struct ValueMatcher {
    spec: ValueSpec,
    /// For a matcher with a pattern. Boxed: most have none, and a pattern with its searches takes 2 kB.
    pattern: Option<Box<Pattern>>,
}

impl Model for ValueMatcher {
    ghost use Rattle.value_match.specs.declared.value_spec.ValueSpec.{ValueSpec};

    ghost Value = { ValueSpec };

    ghost use Rattle.value_match.specs.Inner.Searches.{Searches};

    ghost view = { λ m. m.spec };

    ghost invariant = { λ m. Searches m.spec m.pattern };
}

impl ValueMatcher {
    /// Builds a matcher, its pattern once for all values.
    pub fn build(alloc: Global, spec: &ValueSpec) -> Result<ValueMatcher, ValueError>
        ensures ok { IfOk result (λ matcher. matcher ≡ spec.now) }
        ensures pattern { OnOk result (HasPattern spec.now) }

        // Which patterns are too big when they are compiled is left open.
        ensures bad_pattern { IsErrOf result ValueError.BadPattern → MayBeRefused spec.now }
    {
        let pattern = match spec.pattern() {
            Some(source) => Some(pattern_of_whole(alloc, source)?),
            None => None,
        };
        Ok(ValueMatcher {
            spec: spec.clone()?,
            pattern,
        })
    }

    /// Whether the value meets the matcher. Only the DFA of a pattern takes memory, and where there is none the search
    /// goes on without it, more slowly.
    pub fn matches(&mut self, value: Option<&str>) -> Result<bool, AllocError>
        ensures answer { IfOk result (λ yes. IsTrue yes ↔ Matches self.old (option_copied value.entry)) }
        ensures same { self.new ≡ self.old }
        ensures never_fails { IsOk result }
    {
        let Some(value) = value else {
            return Ok(matches!(&self.spec, ValueSpec::Absent));
        };
        Ok(match &self.spec {
            ValueSpec::EqualTo(text) => value == text.as_str(),
            ValueSpec::EqualToIgnoringCase(text) => value.eq_ignore_ascii_case(text.as_str()),
            ValueSpec::Contains(text) => contains(value, text.as_str()),
            ValueSpec::DoesNotContain(text) => !contains(value, text.as_str()),
            ValueSpec::Matches(_) => finds(&mut self.pattern, value),
            ValueSpec::DoesNotMatch(_) => !finds(&mut self.pattern, value),
            ValueSpec::Absent => false,
        })
    }
}

// Written out, so that a caller's proof sees one call and not the drop of each field.
impl Drop for ValueMatcher {
    fn drop(self) {
        let ValueMatcher {
            spec: _spec,
            pattern: _pattern,
        } = self;
    }
}

/// The pattern of whole values, where the text is one by itself too.
fn pattern_of_whole(alloc: Global, source: &str) -> Result<Box<Pattern>, ValueError>
    ensures read { IfOk result (λ p. IsReadFrom (whole_of source.now) p.value.automaton) }
    ensures pattern { OnOk result (IsPatternOfWhole source.now) }
    ensures bad_pattern { IsErrOf result ValueError.BadPattern
        → IsRefused source.now ⊎ IsRefused (whole_of source.now) }
{
    check_alone(alloc, source)?;
    let pattern = whole_pattern(alloc, source)?;
    Ok(boxed(alloc, pattern)?)
}

/// Refuses what is no pattern by itself, as `a)(b`.
fn check_alone(alloc: Global, source: &str) -> Result<(), Error>
    ensures pattern { OnOk result (IsPattern source.now) }
    ensures refused { IfErr result (IsDefaultFailure source.now) }
{
    let _read = parsed(alloc, source)?;
    Ok(())
}

fn whole_pattern(alloc: Global, source: &str) -> Result<Pattern, Error>
    ensures read { IfOk result (λ p. IsReadFrom (whole_of source.now) p.automaton) }
    ensures refused { IfErr result (IsDefaultFailure (whole_of source.now)) }
{
    let mut whole = String::from_str(alloc, r"\A(?:")?;
    whole.push_str(source)?;
    whole.push_str(r")\z")?;
    Pattern::new(alloc, whole.as_str())
}

fn boxed(alloc: Global, pattern: Pattern) -> Result<Box<Pattern>, AllocError>
    ensures { IfOk result (λ boxed. boxed.value ≡ pattern) }
{
    Ok(Box::new(alloc, pattern)?)
}

fn finds(pattern: &mut Option<Box<Pattern>>, value: &str) -> bool
    ensures found { (source : List ℕ) → SearchesFor source pattern.old
        → (IsTrue result ↔ FindsIn source value.now) }
    ensures same { (source : List ℕ) → SearchesFor source pattern.old → SearchesFor source pattern.new }
{
    match pattern {
        Some(pattern) => pattern.is_match(value),
        None => false,
    }
}

fn contains(value: &str, text: &str) -> bool
    ensures { IsTrue result ↔ HasSubslice value.now text.now }
{
    value.contains(text)
}
