// Why no matcher is built.
ghost use Rattle.std.specs.Prelude.{◌≡◌};

use error_code::error_code::ErrorCode;
use json_bridge::error::{JsonError, JsonPathError};
use std::alloc::AllocError;

/// Why no matcher is built.
#[derive(Clone, Copy, Debug, PartialEq, Eq)]
pub enum JsonMatchError {
    /// The expected text isn't JSON, nests over 127 deep, or has a number that is too large for a float.
    NotJson,
    /// A number in the expected text isn't written as a whole number, or doesn't fit 64 bits.
    NumberNotWhole,
    /// The path isn't one.
    BadPath,
    OutOfMemory,
}

impl JsonMatchError {
    ghost use Rattle.json_match.specs.Errors.{error_code_of};

    pub fn error_code(self) -> ErrorCode
        ensures { result ≡ error_code_of self }
    {
        match self {
            JsonMatchError::NotJson => ErrorCode::BadDocument,
            JsonMatchError::NumberNotWhole => ErrorCode::NumberNotWhole,
            JsonMatchError::BadPath => ErrorCode::BadPath,
            JsonMatchError::OutOfMemory => ErrorCode::OutOfMemory,
        }
    }
}

impl From<AllocError> for JsonMatchError {
    ghost use Rattle.json_match.specs.declared.error.JsonMatchError.TheVariants.{OutOfMemory};

    ghost from_gives = { λ _ error. error ≡ OutOfMemory };

    fn from(_: AllocError) -> JsonMatchError {
        JsonMatchError::OutOfMemory
    }
}

impl From<JsonError> for JsonMatchError {
    ghost use Rattle.json_match.specs.Errors.{error_of_json};

    ghost from_gives = { λ given error. error ≡ error_of_json given };

    fn from(error: JsonError) -> JsonMatchError {
        match error {
            JsonError::NotJson => JsonMatchError::NotJson,
            JsonError::NumberNotWhole => JsonMatchError::NumberNotWhole,
            JsonError::OutOfMemory => JsonMatchError::OutOfMemory,
        }
    }
}

impl From<JsonPathError> for JsonMatchError {
    ghost use Rattle.json_match.specs.Errors.{error_of_path};

    ghost from_gives = { λ given error. error ≡ error_of_path given };

    fn from(error: JsonPathError) -> JsonMatchError {
        match error {
            JsonPathError::BadPath => JsonMatchError::BadPath,
            JsonPathError::OutOfMemory => JsonMatchError::OutOfMemory,
        }
    }
}
