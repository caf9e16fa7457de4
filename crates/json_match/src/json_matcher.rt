// Whether values meet a JSON matcher.
ghost use Rattle.std.specs.Prelude.{◌≡◌, ◌↔◌, IfOk, OnOk, IsTrue, IsErrOf};
ghost use Rattle.data_tree.specs.Tree.{view};
ghost use Rattle.data_tree.specs.WellFormed.{IsWellFormed};
ghost use Rattle.json_match.specs.Inner.Test.{IsTestOf};
ghost use Rattle.json_match.specs.Matching.{Matches};
ghost use Rattle.json_match.specs.Refusal.{IsNotJson, HasNumberNotWhole, HasBadPath, CanBeBuilt};

use crate::compare::{Flags, is_equal};
use crate::error::JsonMatchError;
use crate::find::finds_something;
use crate::json_spec::JsonSpec;
use data_tree::data::Data;
use json_bridge::json_path::JsonPath;
use json_bridge::read::read_json;
use std::alloc::{AllocError, Global};
use std::marker::Model;

/// A JSON matcher that was built: contracts see what it was built from.
pub struct JsonMatcher {
    spec: JsonSpec,
    test: Test,
}

/// What a value is compared with.
#[derive(Drop)]
pub(crate) enum Test {
    EqualTo(Data, Flags),
    Path(JsonPath),
}

impl Model for JsonMatcher {
    ghost use Rattle.json_match.specs.declared.json_spec.JsonSpec.{JsonSpec};
    ghost use Rattle.json_match.specs.Inner.Test.{IsTestOf};

    ghost Value = { JsonSpec };

    ghost view = { λ m. m.spec };

    ghost invariant = { λ m. IsTestOf m.spec m.test };
}

impl JsonMatcher {
    /// Builds a matcher, its expected value or its path once for all values.
    pub fn build(alloc: Global, spec: &JsonSpec) -> Result<JsonMatcher, JsonMatchError>
        ensures ok { IfOk result (λ matcher. matcher ≡ spec.now) }
        ensures usable { OnOk result (CanBeBuilt spec.now) }
        ensures not_json { IsErrOf result JsonMatchError.NotJson → IsNotJson spec.now }
        ensures number_not_whole { IsErrOf result JsonMatchError.NumberNotWhole → HasNumberNotWhole spec.now }
        ensures bad_path { IsErrOf result JsonMatchError.BadPath ↔ HasBadPath spec.now }
    {
        let test = test_of(alloc, spec)?;
        Ok(JsonMatcher {
            spec: spec.clone()?,
            test,
        })
    }

    /// Whether the value meets the matcher. Only lists in any order take memory.
    pub fn matches(&self, actual: &Data) -> Result<bool, AllocError>
        requires { IsWellFormed (view actual.now) }
        ensures answer { IfOk result (λ yes. IsTrue yes ↔ Matches self.now (view actual.now)) }
    {
        match &self.test {
            Test::EqualTo(expected, flags) => is_equal(*flags, expected, actual),
            Test::Path(path) => Ok(finds_something(actual.at(path.steps()))),
        }
    }
}

// Written out, so that a caller's proof sees one call and not the drop of each field.
impl Drop for JsonMatcher {
    fn drop(self) {
        let JsonMatcher {
            spec: _spec,
            test: _test,
        } = self;
    }
}

fn test_of(alloc: Global, spec: &JsonSpec) -> Result<Test, JsonMatchError>
    ensures ok { IfOk result (IsTestOf spec.now) }
    ensures not_json { IsErrOf result JsonMatchError.NotJson → IsNotJson spec.now }
    ensures number_not_whole { IsErrOf result JsonMatchError.NumberNotWhole → HasNumberNotWhole spec.now }
    ensures bad_path { IsErrOf result JsonMatchError.BadPath ↔ HasBadPath spec.now }
{
    match spec {
        JsonSpec::EqualTo {
            expected,
            ignore_array_order,
            ignore_extra_elements,
        } => {
            let expected = read_json(alloc, expected.as_str())?;
            Ok(Test::EqualTo(
                expected,
                Flags {
                    ignore_array_order: *ignore_array_order,
                    ignore_extra_elements: *ignore_extra_elements,
                },
            ))
        }
        JsonSpec::Path(path) => Ok(Test::Path(JsonPath::parse(alloc, path.as_str())?)),
    }
}
