// Which matchers of named values an object spells.
ghost use Rattle.std.specs.Prelude.{◌≡◌, IfOk, string_bytes};
ghost use Rattle.json_reading.specs.Fields.{optional};
ghost use Rattle.request_json.specs.RequestReading.{named_matcher_of, named_of, named_field};
ghost use Rattle.serde_json.specs.Find.{get};
ghost use Rattle.serde_json.specs.View.{view};

use crate::value_reading::value_of;
use json_reading::kind::Kind;
use json_reading::reading::{Reading, push, some};
use mapping_model::named_matcher::NamedMatcher;
use plain_text::items::Items;
use plain_text::text::Text;
use serde_json::Value;
use std::alloc::{AllocError, Global};

/// The matchers of a field; an absent field has none.
pub(crate) fn named_field(
    alloc: Global,
    name: &str,
    value: &Value,
) -> Result<Reading<Items<NamedMatcher>>, AllocError>
    ensures { IfOk result (λ matchers. matchers ≡ named_field name.now (view value.now)) }
{
    match value.get(name) {
        Some(found) => named_of(alloc, found),
        None => Ok(Reading::Read(Items::from(Vec::new(alloc)))),
    }
}

/// The matchers of a field, if it is there.
pub(crate) fn named_optional(
    alloc: Global,
    name: &str,
    value: &Value,
) -> Result<Reading<Option<Items<NamedMatcher>>>, AllocError>
    ensures { IfOk result (λ matchers. matchers ≡ optional named_of (get name.now (view value.now))) }
{
    match value.get(name) {
        Some(found) => Ok(some(named_of(alloc, found)?)),
        None => Ok(Reading::Read(None)),
    }
}

/// An object with a value matcher at each name.
fn named_of(alloc: Global, value: &Value) -> Result<Reading<Items<NamedMatcher>>, AllocError>
    ensures { IfOk result (λ matchers. matchers ≡ named_of (view value.now)) }
{
    let Some(members) = value.as_object() else {
        return Ok(Reading::Wrong(Kind::Misshapen));
    };
    let mut matchers = Reading::Read(Items::from(Vec::new(alloc)));
    for (name, member) in members.iter() {
        matchers = push(matchers, named_matcher_of(alloc, name, member)?)?;
    }
    Ok(matchers)
}

fn named_matcher_of(
    alloc: Global,
    name: &String,
    value: &Value,
) -> Result<Reading<NamedMatcher>, AllocError>
    ensures { IfOk result (λ matcher. matcher ≡ named_matcher_of (string_bytes name.now) (view value.now)) }
{
    match value_of(alloc, value)? {
        Reading::Read(matcher) => Ok(Reading::Read(NamedMatcher {
            name: Text::from(name.clone()?),
            matcher,
        })),
        Reading::Wrong(kind) => Ok(Reading::Wrong(kind)),
    }
}
