// Names and values, grouped by name.
ghost use Rattle.std.specs.Prelude.{◌≡◌, ℕ, List, [], is_some, IfOk};
ghost use Rattle.std.specs.BTreeMap.{get_by_text};
ghost use Rattle.std.specs.List.{list_any};
ghost use Rattle.std.specs.Option.{unwrap_or};
ghost use Rattle.std.specs.Str.{bytes_eq};
ghost use Rattle.data_tree.specs.Tree.{members_view, view};
ghost use Rattle.mock_request.specs.Values.{pairs_of, values_of};
ghost use Rattle.request_data.specs.Grouped.{firsts, grouped};
ghost use Rattle.request_data.specs.Inner.Runs.{pairs_of_runs};

use crate::runs::Runs;
use crate::values::Values;
use data_tree::compact_text::CompactText;
use data_tree::data::Data;
use std::alloc::{AllocError, Global};
use std::collections::BTreeMap;

/// The names in byte order, each with its first value and all its values.
pub(crate) fn grouped(alloc: Global, pairs: Vec<(String, String)>) -> Result<Data, AllocError>
    ensures { IfOk result (λ made. view made ≡ grouped (pairs_of pairs.items)) }
{
    let groups = by_name(alloc, pairs)?;
    fields_of(alloc, groups)
}

/// The same of names that come with several values. No map is made of names that are in byte order.
pub(crate) fn grouped_runs(alloc: Global, runs: Runs) -> Result<Data, AllocError>
    ensures { IfOk result (λ made. view made ≡ grouped (pairs_of_runs runs)) }
{
    if runs.are_in_order() {
        return Ok(runs.into_data());
    }
    let groups = runs.by_name(alloc)?;
    fields_of(alloc, groups)
}

// The first value and all values of each name.
fn fields_of(alloc: Global, groups: BTreeMap<String, Values>) -> Result<Data, AllocError>
    ensures { IfOk result (λ made. (pairs : List (List ℕ × List ℕ))
        → ((name : List ℕ) → unwrap_or (get_by_text groups name) [] ≡ values_of name pairs)
        → ((name : List ℕ) → is_some (get_by_text groups name) ≡ list_any (λ pair. bytes_eq name pair.0) pairs)
        → view made ≡ grouped pairs) }
{
    let mut fields = Vec::with_capacity(alloc, groups.len())?;
    for (name, values) in groups {
        fields.push((CompactText::new(name), values.into_data()))?;
    }
    Ok(Data::Fields(fields))
}

/// The names in byte order, each with its first value.
pub(crate) fn firsts(
    alloc: Global,
    pairs: Vec<(String, String)>,
) -> Result<Vec<(CompactText, Data)>, AllocError>
    ensures { IfOk result (λ made. members_view made.items ≡ firsts (pairs_of pairs.items)) }
{
    let mut fields = Vec::new(alloc);
    for (name, values) in by_name(alloc, pairs)? {
        let first = CompactText::from_str(alloc, values.first())?;
        fields.push((CompactText::new(name), Data::Text(first)))?;
    }
    Ok(fields)
}

// All values of each name.
fn by_name(
    alloc: Global,
    pairs: Vec<(String, String)>,
) -> Result<BTreeMap<String, Values>, AllocError>
    ensures values { IfOk result (λ groups. (name : List ℕ) →
        unwrap_or (get_by_text groups name) [] ≡ values_of name (pairs_of pairs.items)) }
    ensures names { IfOk result (λ groups. (name : List ℕ) →
        is_some (get_by_text groups name)
        ≡ list_any (λ pair. bytes_eq name pair.0) (pairs_of pairs.items)) }
{
    let mut groups: BTreeMap<String, Values> = BTreeMap::new(alloc);
    for (name, value) in pairs {
        groups
            .entry(name)?
            .or_insert(Values::new(alloc))
            .push(CompactText::new(value))?;
    }
    Ok(groups)
}
