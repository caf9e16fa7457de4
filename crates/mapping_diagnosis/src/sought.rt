// What a diagnosis looks for.
use error_code::error_code::ErrorCode;
use json_reading::kind::Kind;
use mapping_json::error::MappingError;
use mapping_json::request_error::RequestDocumentError;

/// In which way a value has to be wrong to explain an error.
#[derive(Clone, Copy, PartialEq, Eq)]
pub(crate) enum Sought {
    /// A number that isn't whole, or doesn't fit 64 bits.
    Number,
    /// A field that isn't supported.
    Field,
    /// A value of another shape than its field has, or a wrong combination of fields.
    Shape,
    /// Two fields for the URL.
    Urls,
    /// A `urlPathTemplate` that isn't one.
    PathTemplate,
    /// A regular expression that isn't one.
    Pattern,
    /// The text of an `equalToJson` that isn't JSON.
    ExpectedJson,
    /// A number in the text of an `equalToJson` that isn't whole, or doesn't fit 64 bits.
    ExpectedNumber,
    /// A path of `matchesJsonPath` that isn't one.
    Path,
    /// A template that isn't one.
    Template,
    /// A target of a recording that isn't one.
    Target,
}

impl Sought {
    pub(crate) fn of(error: MappingError) -> Option<Sought> {
        match error {
            MappingError::Document(kind) => Sought::of_kind(kind),
            MappingError::Request(error) => Sought::of_request(error.error_code()),
            MappingError::Template(_) => Some(Sought::Template),
            MappingError::OutOfMemory => None,
        }
    }

    /// What is sought in a request matcher that was posted alone.
    pub(crate) fn of_matcher(error: Option<RequestDocumentError>) -> Option<Sought> {
        match error {
            Some(RequestDocumentError::Document(kind)) => Sought::of_kind(kind),
            Some(RequestDocumentError::Matcher(error)) => Sought::of_request(error.error_code()),
            _ => None,
        }
    }

    /// What is sought in what was to start a recording, by the number of its error.
    pub(crate) fn of_recording(number: u64) -> Option<Sought> {
        let errors = [
            (ErrorCode::BadDocument, Sought::Shape),
            (ErrorCode::UnsupportedField, Sought::Field),
            (ErrorCode::BadTarget, Sought::Target),
        ];
        for (code, sought) in errors {
            if u64::from(code.number()) == number {
                return Some(sought);
            }
        }
        None
    }

    fn of_kind(kind: Kind) -> Option<Sought> {
        match kind {
            Kind::NotJson => None,
            Kind::NumberNotWhole => Some(Sought::Number),
            Kind::Unsupported => Some(Sought::Field),
            Kind::Misshapen => Some(Sought::Shape),
            Kind::TwoUrls => Some(Sought::Urls),
        }
    }

    fn of_request(code: ErrorCode) -> Option<Sought> {
        match code {
            ErrorCode::BadUrl => Some(Sought::PathTemplate),
            ErrorCode::BadPattern => Some(Sought::Pattern),
            ErrorCode::BadDocument => Some(Sought::ExpectedJson),
            ErrorCode::NumberNotWhole => Some(Sought::ExpectedNumber),
            ErrorCode::BadPath => Some(Sought::Path),
            _ => None,
        }
    }
}
