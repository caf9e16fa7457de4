//! The helpers, by name.

/// A helper.
#[derive(Clone, Copy, Debug, PartialEq, Eq)]
pub enum Helper {
    /// The text with its ASCII letters in upper case.
    Upper,
    /// The text with its ASCII letters in lower case.
    Lower,
    /// The text without the white space of ASCII at both ends.
    Trim,
    /// The number of items of a list or a named text, of fields of an object, or else of characters.
    Size,
    /// Whether two texts are equal.
    Eq,
    /// Whether two texts differ.
    Neq,
    /// Whether the first text has the second in it.
    Contains,
    /// Logical negation of a truth.
    Not,
    /// The text's bytes in base64 (RFC 4648, section 4), padded.
    Base64,
    /// The text's bytes, all but letters, digits and `-._~` percent-encoded (RFC 3986, section 2.1).
    UrlEncode,
    /// The first text, or the second where the first is empty.
    DefaultIfEmpty,
    /// What a JSON path finds in the body of the request. It is looked up in the root, and never applied.
    JsonPath,
}

impl Helper {
    ghost use Rattle.std.specs.Prelude.{◌≡◌, ◌≢◌, IfSome, IfNone};
    ghost use Rattle.helper_set.specs.Helpers.{name_of};
    ghost use Rattle.helper_set.specs.declared.helper.Helper.{Helper};

    /// The name in templates and listings.
    pub fn name(&self) -> &'static str
        ensures { result.now ≡ name_of self.now }
    {
        match self {
            Helper::Upper => "upper",
            Helper::Lower => "lower",
            Helper::Trim => "trim",
            Helper::Size => "size",
            Helper::Eq => "eq",
            Helper::Neq => "neq",
            Helper::Contains => "contains",
            Helper::Not => "not",
            Helper::Base64 => "base64",
            Helper::UrlEncode => "urlEncode",
            Helper::DefaultIfEmpty => "defaultIfEmpty",
            Helper::JsonPath => "jsonPath",
        }
    }

    /// The helper of that name.
    pub fn from_name(name: &str) -> Option<Helper>
        ensures found { IfSome result (λ helper. name.now ≡ name_of helper) }
        ensures unknown { IfNone result ((helper : Helper) → name.now ≢ name_of helper) }
    {
        match name {
            "upper" => Some(Helper::Upper),
            "lower" => Some(Helper::Lower),
            "trim" => Some(Helper::Trim),
            "size" => Some(Helper::Size),
            "eq" => Some(Helper::Eq),
            "neq" => Some(Helper::Neq),
            "contains" => Some(Helper::Contains),
            "not" => Some(Helper::Not),
            "base64" => Some(Helper::Base64),
            "urlEncode" => Some(Helper::UrlEncode),
            "defaultIfEmpty" => Some(Helper::DefaultIfEmpty),
            "jsonPath" => Some(Helper::JsonPath),
            _ => None,
        }
    }
}
