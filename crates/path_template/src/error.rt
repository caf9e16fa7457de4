// Why a text is no path template.
ghost use Rattle.std.specs.Prelude.{◌≡◌};

use error_code::error_code::ErrorCode;
use std::alloc::AllocError;

/// Why there is no path template.
#[derive(Clone, Copy, Debug, PartialEq, Eq)]
pub enum PathTemplateError {
    /// The text doesn't begin with `/`, has a `?`, or has a name twice.
    BadUrl,
    OutOfMemory,
}

impl PathTemplateError {
    ghost use Rattle.path_template.specs.Errors.{error_code_of};

    pub fn error_code(self) -> ErrorCode
        ensures { result ≡ error_code_of self }
    {
        match self {
            PathTemplateError::BadUrl => ErrorCode::BadUrl,
            PathTemplateError::OutOfMemory => ErrorCode::OutOfMemory,
        }
    }
}

impl From<AllocError> for PathTemplateError {
    ghost use Rattle.path_template.specs.declared.error.PathTemplateError.TheVariants.{OutOfMemory};

    ghost from_gives = { λ _ error. error ≡ OutOfMemory };

    fn from(_: AllocError) -> PathTemplateError {
        PathTemplateError::OutOfMemory
    }
}
