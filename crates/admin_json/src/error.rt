// Why the body of a call isn't read.
ghost use Rattle.std.specs.Prelude.{◌≡◌};

use error_code::error_code::ErrorCode;
use json_reading::kind::Kind;
use std::alloc::AllocError;

/// Why the body of a call isn't read.
#[derive(Clone, Copy, Debug, PartialEq, Eq)]
pub enum BodyError {
    Document(Kind),
    /// Memory may run out before another reason is found.
    OutOfMemory,
}

impl BodyError {
    ghost use Rattle.admin_json.specs.Errors.{error_code_of};

    pub fn error_code(self) -> ErrorCode
        ensures { result ≡ error_code_of self }
    {
        match self {
            BodyError::Document(kind) => kind.error_code(),
            BodyError::OutOfMemory => ErrorCode::OutOfMemory,
        }
    }
}

impl From<AllocError> for BodyError {
    ghost use Rattle.admin_json.specs.declared.error.BodyError.TheVariants.{OutOfMemory};

    ghost from_gives = { λ _ error. error ≡ OutOfMemory };

    fn from(_: AllocError) -> BodyError {
        BodyError::OutOfMemory
    }
}
