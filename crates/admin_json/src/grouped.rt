// Names and values, grouped by name.
ghost use Rattle.std.specs.Prelude.{◌≡◌, ℕ, List, [], is_some, IfOk};
ghost use Rattle.std.specs.BTreeMap.{get_by_text};
ghost use Rattle.std.specs.List.{list_any};
ghost use Rattle.std.specs.Option.{option_map_or};
ghost use Rattle.std.specs.Str.{bytes_eq};
ghost use Rattle.mock_request.specs.Values.{pairs_of, values_of};
ghost use Rattle.admin_json.specs.Pairs.{json_of_pairs};
ghost use Rattle.serde_json.specs.View.{view};

use crate::written::{put_owned, texts_value};
use plain_text::text::Text;
use serde_json::{Map, Value};
use std::alloc::{AllocError, Global};
use std::collections::BTreeMap;

/// All values of each name, by name.
pub(crate) fn by_name(
    alloc: Global,
    pairs: Vec<(String, String)>,
) -> Result<BTreeMap<String, Vec<Text>>, AllocError>
    ensures values { IfOk result (λ groups. (name : List ℕ) →
        option_map_or (λ values. values.items) (get_by_text groups name) []
        ≡ values_of name (pairs_of pairs.items)) }
    ensures names { IfOk result (λ groups. (name : List ℕ) →
        is_some (get_by_text groups name)
        ≡ list_any (λ pair. bytes_eq name pair.0) (pairs_of pairs.items)) }
{
    let mut groups: BTreeMap<String, Vec<Text>> = BTreeMap::new(alloc);
    for (name, value) in pairs {
        groups.entry(name)?.or_default().push(Text::from(value))?;
    }
    Ok(groups)
}

/// An object of the names, each with all its values.
pub(crate) fn pairs_value(alloc: Global, pairs: Vec<(String, String)>) -> Result<Value, AllocError>
    ensures { IfOk result (λ value. view value ≡ json_of_pairs (pairs_of pairs.items)) }
{
    let mut members = Map::new(alloc);
    for (name, values) in by_name(alloc, pairs)? {
        put_owned(&mut members, name, texts_value(alloc, values)?)?;
    }
    Ok(Value::Object(members))
}
