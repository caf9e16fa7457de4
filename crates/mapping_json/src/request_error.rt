// Why no request matcher is read.
ghost use Rattle.std.specs.Prelude.{◌≡◌};

use error_code::error_code::ErrorCode;
use json_reading::kind::Kind;
use request_match::error::RequestMatchError;
use std::alloc::AllocError;

/// Why no request matcher is read. What is wrong with the document is reported before what is wrong with the matcher
/// that it spells.
#[derive(Clone, Copy, Debug, PartialEq, Eq)]
pub enum RequestDocumentError {
    Document(Kind),
    Matcher(RequestMatchError),
    /// Memory may run out before another reason is found.
    OutOfMemory,
}

impl RequestDocumentError {
    ghost use Rattle.mapping_json.specs.RequestErrors.{error_code_of};

    pub fn error_code(self) -> ErrorCode
        ensures { result ≡ error_code_of self }
    {
        match self {
            RequestDocumentError::Document(kind) => kind.error_code(),
            RequestDocumentError::Matcher(error) => error.error_code(),
            RequestDocumentError::OutOfMemory => ErrorCode::OutOfMemory,
        }
    }
}

impl From<AllocError> for RequestDocumentError {
    ghost use Rattle.mapping_json.specs.declared.request_error.RequestDocumentError.TheVariants.{OutOfMemory};

    ghost from_gives = { λ _ error. error ≡ OutOfMemory };

    fn from(_: AllocError) -> RequestDocumentError {
        RequestDocumentError::OutOfMemory
    }
}

impl From<RequestMatchError> for RequestDocumentError {
    ghost use Rattle.mapping_json.specs.RequestErrors.{error_of_matcher};

    ghost from_gives = { λ given error. error ≡ error_of_matcher given };

    fn from(error: RequestMatchError) -> RequestDocumentError {
        match error {
            RequestMatchError::OutOfMemory => RequestDocumentError::OutOfMemory,
            error => RequestDocumentError::Matcher(error),
        }
    }
}
