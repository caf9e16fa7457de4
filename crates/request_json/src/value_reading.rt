// Which value matcher an object spells.
ghost use Rattle.std.specs.Prelude.{◌≡◌, IfOk, codes};
ghost use Rattle.request_json.specs.ValueReading.{equal_in, absent_in, word, value_in, reading_of_value};
ghost use Rattle.serde_json.specs.View.{view};
ghost use Rattle.value_match.specs.declared.value_spec.ValueSpec.TheVariants.{Contains, DoesNotContain, Matches};
ghost use Rattle.value_match.specs.declared.value_spec.ValueSpec.TheVariants.{DoesNotMatch};

use json_reading::fields::{bool_field, only, text_field};
use json_reading::kind::Kind;
use json_reading::reading::{Reading, both, either, needed};
use serde_json::Value;
use std::alloc::{AllocError, Global};
use value_match::value_spec::ValueSpec;

/// A value matcher: an object with one word that says how a value is compared.
pub(crate) fn value_of(alloc: Global, value: &Value) -> Result<Reading<ValueSpec>, AllocError>
    ensures { IfOk result (λ matcher. matcher ≡ reading_of_value (view value.now)) }
{
    let words = [
        "equalTo",
        "caseInsensitive",
        "contains",
        "doesNotContain",
        "matches",
        "doesNotMatch",
        "absent",
    ];
    Ok(only(&words, value, needed(value_in(alloc, value)?)))
}

/// The one matcher that the words of an object spell, if they spell one.
pub(crate) fn value_in(
    alloc: Global,
    value: &Value,
) -> Result<Reading<Option<ValueSpec>>, AllocError>
    ensures { IfOk result (λ matcher. matcher ≡ value_in (view value.now)) }
{
    let found = either(
        Kind::Misshapen,
        does_not_match_in(alloc, value)?,
        absent_in(value),
    );
    let found = either(Kind::Misshapen, matches_in(alloc, value)?, found);
    let found = either(Kind::Misshapen, does_not_contain_in(alloc, value)?, found);
    let found = either(Kind::Misshapen, contains_in(alloc, value)?, found);
    Ok(either(Kind::Misshapen, equal_in(alloc, value)?, found))
}

fn equal_in(alloc: Global, value: &Value) -> Result<Reading<Option<ValueSpec>>, AllocError>
    ensures { IfOk result (λ matcher. matcher ≡ equal_in (view value.now)) }
{
    let text = text_field(alloc, "equalTo", value)?;
    match both(text, bool_field("caseInsensitive", value)) {
        Reading::Read((None, None)) => Ok(Reading::Read(None)),
        Reading::Read((None, Some(_))) => Ok(Reading::Wrong(Kind::Misshapen)),
        Reading::Read((Some(text), Some(true))) => {
            Ok(Reading::Read(Some(ValueSpec::EqualToIgnoringCase(text))))
        }
        Reading::Read((Some(text), _)) => Ok(Reading::Read(Some(ValueSpec::EqualTo(text)))),
        Reading::Wrong(kind) => Ok(Reading::Wrong(kind)),
    }
}

fn absent_in(value: &Value) -> Reading<Option<ValueSpec>>
    ensures { result ≡ absent_in (view value.now) }
{
    match bool_field("absent", value) {
        Reading::Read(None) => Reading::Read(None),
        Reading::Read(Some(true)) => Reading::Read(Some(ValueSpec::Absent)),
        Reading::Read(Some(false)) => Reading::Wrong(Kind::Misshapen),
        Reading::Wrong(kind) => Reading::Wrong(kind),
    }
}

fn contains_in(alloc: Global, value: &Value) -> Result<Reading<Option<ValueSpec>>, AllocError>
    ensures { IfOk result (λ matcher. matcher ≡ word (codes "contains") Contains (view value.now)) }
{
    match text_field(alloc, "contains", value)? {
        Reading::Read(text) => Ok(Reading::Read(text.map(ValueSpec::Contains))),
        Reading::Wrong(kind) => Ok(Reading::Wrong(kind)),
    }
}

fn does_not_contain_in(
    alloc: Global,
    value: &Value,
) -> Result<Reading<Option<ValueSpec>>, AllocError>
    ensures { IfOk result (λ matcher. matcher ≡ word (codes "doesNotContain") DoesNotContain (view value.now)) }
{
    match text_field(alloc, "doesNotContain", value)? {
        Reading::Read(text) => Ok(Reading::Read(text.map(ValueSpec::DoesNotContain))),
        Reading::Wrong(kind) => Ok(Reading::Wrong(kind)),
    }
}

fn matches_in(alloc: Global, value: &Value) -> Result<Reading<Option<ValueSpec>>, AllocError>
    ensures { IfOk result (λ matcher. matcher ≡ word (codes "matches") Matches (view value.now)) }
{
    match text_field(alloc, "matches", value)? {
        Reading::Read(text) => Ok(Reading::Read(text.map(ValueSpec::Matches))),
        Reading::Wrong(kind) => Ok(Reading::Wrong(kind)),
    }
}

fn does_not_match_in(alloc: Global, value: &Value) -> Result<Reading<Option<ValueSpec>>, AllocError>
    ensures { IfOk result (λ matcher. matcher ≡ word (codes "doesNotMatch") DoesNotMatch (view value.now)) }
{
    match text_field(alloc, "doesNotMatch", value)? {
        Reading::Read(text) => Ok(Reading::Read(text.map(ValueSpec::DoesNotMatch))),
        Reading::Wrong(kind) => Ok(Reading::Wrong(kind)),
    }
}
