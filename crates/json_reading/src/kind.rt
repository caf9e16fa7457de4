// In which way a document is wrong.
ghost use Rattle.std.specs.Prelude.{◌≡◌};

use error_code::error_code::ErrorCode;

/// In which way a document is wrong, in the order of reporting: of several ways the first is reported, wherever in the
/// document each is.
#[derive(Clone, Copy, Debug, PartialEq, Eq)]
pub enum Kind {
    /// It isn't JSON in UTF-8, nests over 127 deep, or has a number that is too large for a float.
    NotJson,
    /// A number isn't written as a whole number, or doesn't fit 64 bits.
    NumberNotWhole,
    /// A field that isn't one of those that are known.
    Unsupported,
    /// A field that is known has a value of another shape, is missing, or is beside one that excludes it.
    Misshapen,
    /// Two fields that each name a URL.
    TwoUrls,
}

impl Kind {
    ghost use Rattle.json_reading.specs.Errors.{error_code_of};
    ghost use Rattle.json_reading.specs.Reading.{first};

    /// The one of the two that is reported.
    pub fn first(self, other: Kind) -> Kind
        ensures { result ≡ first self other }
    {
        match (self, other) {
            (Kind::NotJson, _) | (_, Kind::NotJson) => Kind::NotJson,
            (Kind::NumberNotWhole, _) | (_, Kind::NumberNotWhole) => Kind::NumberNotWhole,
            (Kind::Unsupported, _) | (_, Kind::Unsupported) => Kind::Unsupported,
            (Kind::Misshapen, _) | (_, Kind::Misshapen) => Kind::Misshapen,
            (Kind::TwoUrls, Kind::TwoUrls) => Kind::TwoUrls,
        }
    }

    pub fn error_code(self) -> ErrorCode
        ensures { result ≡ error_code_of self }
    {
        match self {
            Kind::NotJson => ErrorCode::BadDocument,
            Kind::NumberNotWhole => ErrorCode::NumberNotWhole,
            Kind::Unsupported => ErrorCode::UnsupportedField,
            Kind::Misshapen => ErrorCode::BadDocument,
            Kind::TwoUrls => ErrorCode::BadUrl,
        }
    }
}
