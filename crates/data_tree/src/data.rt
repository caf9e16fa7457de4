// The value that all else is made of: texts, numbers, lists and objects.

use crate::compact_text::CompactText;
use std::alloc::{AllocError, Global};

/// A finite value: what a template sees of a request, or a JSON document.
///
/// The names in a `Fields`, and in a `Named`'s fields, are distinct and in byte order, and a `Number` is
/// from -2^63 to 2^64 - 1. Whoever makes a value keeps these rules.
#[derive(Debug, Drop)]
pub enum Data {
    /// No value; JSON's `null`.
    Nothing,
    Truth(bool),
    Number(i128),
    Text(CompactText),
    List(Vec<Data>),
    /// Names, each with its value; a JSON object.
    Fields(Vec<(CompactText, Data)>),
    /// A text that also has items and fields, as a request's path has its segments: the text, the items and the fields.
    /// They lie in memory of their own, so that every value is small.
    Named(Box<(CompactText, Vec<Data>, Vec<(CompactText, Data)>)>),
    /// A `Named` whose text is that of its first item, and which has no fields, as the values of one name of a query
    /// are: its items. It takes memory once.
    Values(Vec<Data>),
}

impl Data {
    ghost use Rattle.std.specs.Prelude.{◌≡◌, IfOk};
    ghost use Rattle.data_tree.specs.Tree.{view, named, items_view, members_view};

    /// A text with items and fields.
    pub fn named(
        alloc: Global,
        text: CompactText,
        items: Vec<Data>,
        fields: Vec<(CompactText, Data)>,
    ) -> Result<Data, AllocError>
        ensures { IfOk result
            (λ made. view made ≡ named text (items_view items.items) (members_view fields.items)) }
    {
        Ok(Data::Named(Box::new(alloc, (text, items, fields))?))
    }
}
