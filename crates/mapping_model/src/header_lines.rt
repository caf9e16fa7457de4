// The header lines of a response.
ghost use Rattle.std.specs.Prelude.{◌≡◌, ◌↔◌, ◌≤◌, length, IfSome, IsSome, IsTrue};

use crate::field_name::FieldName;
use plain_text::items::Items;
use plain_text::plain::Same;
use std::marker::Model;

/// The most header lines that a response may have.
pub const HEADER_LIMIT: usize = 100;

/// A header line: a name with one value, a text or a template.
#[derive(Clone, Drop)]
pub struct HeaderLine<V> {
    pub name: FieldName,
    pub value: V,
}

impl<V: Same> Same for HeaderLine<V> {
    fn same(&self, other: &HeaderLine<V>) -> bool {
        self.name.same(&other.name) && self.value.same(&other.value)
    }
}

/// The header lines of a response, at most `HEADER_LIMIT`, which contracts see as a list.
#[derive(Clone, Drop)]
pub struct HeaderLines<V> {
    lines: Items<HeaderLine<V>>,
}

impl<V> Model for HeaderLines<V> {
    ghost use Rattle.std.specs.Prelude.{List, ◌≤◌, length};
    ghost use Rattle.mapping_model.specs.declared.header_lines.HeaderLine.{HeaderLine};
    ghost use Rattle.mapping_model.specs.declared.header_lines.TheConstants.{HEADER_LIMIT};

    ghost Value = { List (HeaderLine V) };

    ghost view = { λ h. h.lines };

    ghost invariant = { λ h. length h.lines ≤ HEADER_LIMIT };
}

impl<V> HeaderLines<V> {
    pub fn as_slice(&self) -> &[HeaderLine<V>]
        ensures value { result.now ≡ self.now }
        ensures within { length result.now ≤ HEADER_LIMIT }
    {
        self.lines.as_slice()
    }
}

impl<V: Drop> HeaderLines<V> {
    /// Takes no memory.
    pub fn new(lines: Vec<HeaderLine<V>>) -> Option<HeaderLines<V>>
        ensures some { IsSome result ↔ (length lines.items ≤ HEADER_LIMIT) }
        ensures value { IfSome result (λ kept. kept ≡ lines.items) }
    {
        if lines.len() > HEADER_LIMIT {
            return None;
        }
        Some(HeaderLines {
            lines: Items::from(lines),
        })
    }
}

impl<V: Same> HeaderLines<V> {
    pub fn same(&self, other: &HeaderLines<V>) -> bool
        ensures { IsTrue result ↔ (self.now ≡ other.now) }
    {
        self.lines.same(&other.lines)
    }
}
