//! The kinds of values.

/// What a slot of the stack holds.
#[derive(Clone, Copy, Debug, PartialEq, Eq)]
pub enum Kind {
    /// A value of the request's data.
    Data,
    /// A text.
    Text,
    /// A whole number.
    Number,
    /// True or false.
    Truth,
}

impl Kind {
    ghost use Rattle.std.specs.Prelude.{◌≡◌};
    ghost use Rattle.helper_set.specs.Values.{same_kind};

    /// Whether it is that kind.
    pub fn is(self, other: Kind) -> bool
        ensures { result ≡ same_kind self other }
    {
        matches!(
            (self, other),
            (Kind::Data, Kind::Data)
                | (Kind::Text, Kind::Text)
                | (Kind::Number, Kind::Number)
                | (Kind::Truth, Kind::Truth)
        )
    }
}
