// Why no matcher is built.
ghost use Rattle.std.specs.Prelude.{◌≡◌};

use error_code::error_code::ErrorCode;
use json_bridge::error::JsonPathError;
use json_match::error::JsonMatchError;
use path_template::error::PathTemplateError;
use std::alloc::AllocError;
use value_match::error::ValueError;

/// Why no matcher is built. Of several reasons the first is reported, in this order, wherever in the matcher it is.
#[derive(Clone, Copy, Debug, PartialEq, Eq)]
pub enum RequestMatchError {
    /// The path template isn't one.
    BadUrl,
    /// `regex` refuses a pattern.
    BadPattern,
    /// The text of an `equalToJson` isn't JSON.
    NotJson,
    /// A number in the text of an `equalToJson` isn't whole or doesn't fit 64 bits.
    NumberNotWhole,
    /// A JSON path isn't one.
    BadPath,
    /// Memory may run out before another reason is found.
    OutOfMemory,
}

impl RequestMatchError {
    ghost use Rattle.request_match.specs.Errors.{error_code_of};

    pub fn error_code(self) -> ErrorCode
        ensures { result ≡ error_code_of self }
    {
        match self {
            RequestMatchError::BadUrl => ErrorCode::BadUrl,
            RequestMatchError::BadPattern => ErrorCode::BadPattern,
            RequestMatchError::NotJson => ErrorCode::BadDocument,
            RequestMatchError::NumberNotWhole => ErrorCode::NumberNotWhole,
            RequestMatchError::BadPath => ErrorCode::BadPath,
            RequestMatchError::OutOfMemory => ErrorCode::OutOfMemory,
        }
    }
}

impl From<AllocError> for RequestMatchError {
    ghost use Rattle.request_match.specs.declared.error.RequestMatchError.TheVariants.{OutOfMemory};

    ghost from_gives = { λ _ error. error ≡ OutOfMemory };

    fn from(_: AllocError) -> RequestMatchError {
        RequestMatchError::OutOfMemory
    }
}

impl From<PathTemplateError> for RequestMatchError {
    ghost use Rattle.request_match.specs.Errors.{error_of_template};

    ghost from_gives = { λ given error. error ≡ error_of_template given };

    fn from(error: PathTemplateError) -> RequestMatchError {
        match error {
            PathTemplateError::BadUrl => RequestMatchError::BadUrl,
            PathTemplateError::OutOfMemory => RequestMatchError::OutOfMemory,
        }
    }
}

impl From<ValueError> for RequestMatchError {
    ghost use Rattle.request_match.specs.Errors.{error_of_value};

    ghost from_gives = { λ given error. error ≡ error_of_value given };

    fn from(error: ValueError) -> RequestMatchError {
        match error {
            ValueError::BadPattern => RequestMatchError::BadPattern,
            ValueError::OutOfMemory => RequestMatchError::OutOfMemory,
        }
    }
}

impl From<JsonMatchError> for RequestMatchError {
    ghost use Rattle.request_match.specs.Errors.{error_of_json};

    ghost from_gives = { λ given error. error ≡ error_of_json given };

    fn from(error: JsonMatchError) -> RequestMatchError {
        match error {
            JsonMatchError::NotJson => RequestMatchError::NotJson,
            JsonMatchError::NumberNotWhole => RequestMatchError::NumberNotWhole,
            JsonMatchError::BadPath => RequestMatchError::BadPath,
            JsonMatchError::OutOfMemory => RequestMatchError::OutOfMemory,
        }
    }
}

impl From<JsonPathError> for RequestMatchError {
    ghost use Rattle.request_match.specs.Errors.{error_of_path};

    ghost from_gives = { λ given error. error ≡ error_of_path given };

    fn from(error: JsonPathError) -> RequestMatchError {
        match error {
            JsonPathError::BadPath => RequestMatchError::BadPath,
            JsonPathError::OutOfMemory => RequestMatchError::OutOfMemory,
        }
    }
}
