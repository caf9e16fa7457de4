//! Whether the values that a template prints are escaped.

/// What becomes of the special characters of HTML where a value is printed.
#[derive(Clone, Copy, Debug)]
pub enum Escape {
    /// They stay as they are.
    Off,
    /// Each becomes its character reference, as Handlebars does it: `&`, `<`, `>`, `"`, `'`, the backtick and `=`.
    Html,
}

impl Escape {
    ghost use Rattle.std.specs.Prelude.{◌≡◌, ◌↔◌, IsTrue};

    pub fn same(self, other: Escape) -> bool
        ensures { IsTrue result ↔ (self ≡ other) }
    {
        matches!(
            (self, other),
            (Escape::Off, Escape::Off) | (Escape::Html, Escape::Html)
        )
    }
}
