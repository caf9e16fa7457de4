// What a JSON value has to meet.
ghost use Rattle.std.specs.Prelude.{◌≡◌, ◌↔◌, IsTrue};

use plain_text::text::Text;

/// A JSON matcher as it was written.
#[derive(Clone, Debug, Drop)]
pub enum JsonSpec {
    /// The value is equal to the expected one.
    EqualTo {
        /// A JSON text.
        expected: Text,
        /// Whether the elements of a list may be in any order.
        ignore_array_order: bool,
        /// Whether an object may have more names and, where order is ignored, a list more elements.
        ignore_extra_elements: bool,
    },
    /// The path, as in `$.a[0]`, finds something in the value.
    Path(Text),
}

impl JsonSpec {
    /// Whether the two are equal.
    pub fn same(&self, other: &JsonSpec) -> bool
        ensures { IsTrue result ↔ (self.now ≡ other.now) }
    {
        match (self, other) {
            (
                JsonSpec::EqualTo {
                    expected: a,
                    ignore_array_order: any_order,
                    ignore_extra_elements: more,
                },
                JsonSpec::EqualTo {
                    expected: b,
                    ignore_array_order: other_any_order,
                    ignore_extra_elements: other_more,
                },
            ) => *any_order == *other_any_order && *more == *other_more && a.same(b),
            (JsonSpec::Path(a), JsonSpec::Path(b)) => a.same(b),
            _ => false,
        }
    }
}
