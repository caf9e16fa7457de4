// Names with their values, as the fields of an object.
ghost use Rattle.std.specs.Prelude.{◌≡◌, ◌<◌, ℕ, List, [], ◌∷◌, ◌++◌, All, length, is_some, IfOk, OnOk};
ghost use Rattle.std.specs.BTreeMap.{get_by_text};
ghost use Rattle.std.specs.Bool.{OnTrue};
ghost use Rattle.std.specs.List.{list_any};
ghost use Rattle.std.specs.Option.{unwrap_or};
ghost use Rattle.std.specs.Str.{bytes_eq};
ghost use Rattle.data_tree.specs.Tree.{view};
ghost use Rattle.mock_request.specs.Values.{values_of};
ghost use Rattle.request_data.specs.Grouped.{grouped};
ghost use Rattle.request_data.specs.Inner.RunFields.{runs_in, IsRunField};
ghost use Rattle.request_data.specs.Inner.Runs.{pairs_of_runs, AreInOrder};

use crate::values::Values;
use data_tree::compact_text::CompactText;
use data_tree::data::Data;
use std::alloc::{AllocError, Global};
use std::cmp::Ordering;
use std::collections::BTreeMap;
use std::marker::Model;

/// Names, each with its values, in the order in which they were pushed. They lie as they do in the data.
#[derive(Drop)]
pub(crate) struct Runs {
    fields: Vec<(CompactText, Data)>,
}

impl Model for Runs {
    ghost use Rattle.std.specs.Prelude.{List, All};
    ghost use Rattle.request_data.specs.Inner.Runs.{Run};
    ghost use Rattle.request_data.specs.Inner.RunFields.{runs_in, IsRunField};

    ghost Value = { List Run };

    ghost view = { λ r. runs_in r.fields.items };

    ghost invariant = { λ r. All IsRunField r.fields.items };
}

impl Runs {
    /// None, with room for that many names.
    pub(crate) fn with_room(alloc: Global, room: usize) -> Result<Runs, AllocError>
        ensures { IfOk result (λ made. made ≡ []) }
    {
        Ok(Runs {
            fields: Vec::with_capacity(alloc, room)?,
        })
    }

    pub(crate) fn push(&mut self, name: CompactText, values: Values) -> Result<(), AllocError>
        requires { 0 < length values }
        ensures { OnOk result (self.new ≡ self.old ++ (name, values) ∷ []) }
    {
        self.fields.push((name, values.into_data()))?;
        Ok(())
    }

    /// Whether each name is before the next.
    pub(crate) fn are_in_order(&self) -> bool
        ensures { OnTrue result (AreInOrder self.now) }
    {
        ascend(self.fields.as_slice())
    }

    /// The names, each with its first value and all its values.
    pub(crate) fn into_data(self) -> Data
        requires { AreInOrder self }
        ensures { view result ≡ grouped (pairs_of_runs self) }
    {
        Data::Fields(self.fields)
    }

    /// All values of each name.
    pub(crate) fn by_name(self, alloc: Global) -> Result<BTreeMap<String, Values>, AllocError>
        ensures values { IfOk result (λ groups. (name : List ℕ) →
            unwrap_or (get_by_text groups name) [] ≡ values_of name (pairs_of_runs self)) }
        ensures names { IfOk result (λ groups. (name : List ℕ) →
            is_some (get_by_text groups name)
            ≡ list_any (λ pair. bytes_eq name pair.0) (pairs_of_runs self)) }
    {
        fields_by_name(alloc, self.fields)
    }
}

fn ascend(fields: &[(CompactText, Data)]) -> bool
    ensures { OnTrue result (AreInOrder (runs_in fields.now)) }
{
    let mut rest = fields;
    while let [(name, _value), after @ ..] = rest {
        if let [(next, _), ..] = after {
            if name.as_str().cmp(next.as_str()) != Ordering::Less {
                return false;
            }
        }
        rest = after;
    }
    true
}

fn fields_by_name(
    alloc: Global,
    fields: Vec<(CompactText, Data)>,
) -> Result<BTreeMap<String, Values>, AllocError>
    requires { All IsRunField fields.items }
    ensures values { IfOk result (λ groups. (name : List ℕ) →
        unwrap_or (get_by_text groups name) [] ≡ values_of name (pairs_of_runs (runs_in fields.items))) }
    ensures names { IfOk result (λ groups. (name : List ℕ) →
        is_some (get_by_text groups name)
        ≡ list_any (λ pair. bytes_eq name pair.0) (pairs_of_runs (runs_in fields.items))) }
{
    let mut groups: BTreeMap<String, Values> = BTreeMap::new(alloc);
    for (name, value) in fields {
        groups
            .entry(name.into_string(alloc)?)?
            .or_insert(Values::new(alloc))
            .append(Values::from_data(value))?;
    }
    Ok(groups)
}
