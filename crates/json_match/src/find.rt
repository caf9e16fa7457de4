// What is looked for in a value.
ghost use Rattle.std.specs.Prelude.{◌≡◌};
ghost use Rattle.std.specs.Option.{option_map_or};
ghost use Rattle.data_tree.specs.Tree.{view, nothing, members_view};
ghost use Rattle.json_match.specs.Inner.Walk.{member_at, found_view};
ghost use Rattle.json_match.specs.Matching.{is_something};

use data_tree::compact_text::CompactText;
use data_tree::data::Data;

/// The value of the member of that name, which is the first unless `more` may be before it, and the members after it.
pub(crate) fn member_at<'a>(
    more: bool,
    name: &str,
    members: &'a [(CompactText, Data)],
) -> Option<(&'a Data, &'a [(CompactText, Data)])>
    ensures { found_view result ≡ member_at more name.now (members_view members.now) }
{
    let mut rest = members;
    while let [(key, value), after @ ..] = rest {
        if key.as_str() == name {
            return Some((value, after));
        }
        if !more {
            return None;
        }
        rest = after;
    }
    None
}

/// Whether something is found that is neither nothing nor an empty list or object.
pub(crate) fn finds_something(found: Option<&Data>) -> bool
    ensures { result ≡ is_something (option_map_or (λ value. view value.now) found.entry nothing) }
{
    matches!(found, Some(value) if is_something(value))
}

fn is_something(value: &Data) -> bool
    ensures { result ≡ is_something (view value.now) }
{
    match value {
        Data::Nothing => false,
        Data::List(items) => !items.is_empty(),
        Data::Fields(fields) => !fields.is_empty(),
        _ => true,
    }
}
