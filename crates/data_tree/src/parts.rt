// What a loop or a test asks of a value.
ghost use Rattle.std.specs.Prelude.{◌≡◌, length, slice_get, option_map, IfSome};
ghost use Rattle.std.specs.Option.{option_copied};
ghost use Rattle.data_tree.specs.Tree.{first_text, items_view, view};
ghost use Rattle.data_tree.specs.Print.{is_true, print};
ghost use Rattle.data_tree.specs.Parts.{items, keys};
ghost use Rattle.data_tree.specs.WellFormed.{IsWellFormed};

use crate::data::Data;

// The item of that index, if there is one.
pub(crate) fn item_at<T>(items: &[T], index: usize) -> Option<&T>
    ensures { option_copied result ≡ slice_get items.now index }
{
    items.get(index)
}

/// The text of the first item, where there is one and it is a text.
pub fn first_text(items: &[Data]) -> &str
    ensures { result.now ≡ first_text (items_view items.now) }
{
    match items {
        [Data::Text(text), ..] => text.as_str(),
        _ => "",
    }
}

impl Data {
    /// The text of a text or of a named text, which it prints as.
    pub fn as_text(&self) -> Option<&str>
        ensures { IfSome result (λ text. print (view self.now) ≡ text.now) }
    {
        match self {
            Data::Text(text) => Some(text.as_str()),
            Data::Named(parts) => Some(parts.0.as_str()),
            Data::Values(items) => Some(first_text(items.as_slice())),
            _ => None,
        }
    }

    /// Whether the value counts as true: `true`, a number that isn't 0, a text, a list or a named text that
    /// isn't empty, and each object.
    pub fn is_true(&self) -> bool
        ensures { result ≡ is_true (view self.now) }
    {
        match self {
            Data::Nothing => false,
            Data::Truth(truth) => *truth,
            Data::Number(number) => *number != 0,
            Data::Text(text) => !text.as_str().is_empty(),
            Data::Named(parts) => !parts.0.as_str().is_empty(),
            Data::Values(items) => !first_text(items.as_slice()).is_empty(),
            Data::List(items) => !items.is_empty(),
            Data::Fields(_) => true,
        }
    }

    /// How many items a loop goes over: a list's, an object's values, or a named text's.
    pub fn items_len(&self) -> usize
        ensures { result ≡ length (items (view self.now)) }
    {
        match self {
            Data::List(items) => items.len(),
            Data::Named(parts) => parts.1.len(),
            Data::Values(items) => items.len(),
            Data::Fields(fields) => fields.len(),
            _ => 0,
        }
    }

    /// The item of that index, from 0.
    pub fn item(&self, index: usize) -> Option<&Data>
        ensures found { option_map (λ found. view found.now) result ≡ slice_get (items (view self.now)) index }
        ensures well_formed { IsWellFormed (view self.now) → IfSome result (λ found. IsWellFormed (view found.now)) }
    {
        match self {
            Data::List(items) => item_at(items.as_slice(), index),
            Data::Named(parts) => item_at(parts.1.as_slice(), index),
            Data::Values(items) => item_at(items.as_slice(), index),
            Data::Fields(fields) => {
                let (_name, value) = item_at(fields.as_slice(), index)?;
                Some(value)
            }
            _ => None,
        }
    }

    /// The name of the item of that index: an object's items alone have one.
    pub fn key(&self, index: usize) -> Option<&str>
        ensures { option_map (λ found. found.now) result ≡ slice_get (keys (view self.now)) index }
    {
        let Data::Fields(fields) = self else {
            return None;
        };
        let (name, _value) = item_at(fields.as_slice(), index)?;
        Some(name.as_str())
    }
}
