// Why there is no document.
ghost use Rattle.std.specs.Prelude.{◌≡◌};
ghost use Rattle.har_export.specs.declared.error.HarError.TheVariants.{OutOfMemory};

use error_code::error_code::ErrorCode;
use std::alloc::{AllocError, AllocFailed};

/// Why there is no document.
#[derive(Clone, Copy, Debug, PartialEq, Eq)]
pub enum HarError {
    /// An exchange started later than at the end of the year 9998.
    MomentOutOfRange,
    OutOfMemory,
}

impl HarError {
    ghost use Rattle.har_export.specs.Errors.{error_code_of};

    pub fn error_code(self) -> ErrorCode
        ensures { result ≡ error_code_of self }
    {
        match self {
            HarError::MomentOutOfRange => ErrorCode::MomentOutOfRange,
            HarError::OutOfMemory => ErrorCode::OutOfMemory,
        }
    }
}

impl From<AllocError> for HarError {
    ghost from_gives = { λ _ error. error ≡ OutOfMemory };

    fn from(_error: AllocError) -> HarError {
        HarError::OutOfMemory
    }
}

impl<T: Drop> From<AllocFailed<T>> for HarError {
    ghost from_gives = { λ _ error. error ≡ OutOfMemory };

    fn from(_error: AllocFailed<T>) -> HarError {
        HarError::OutOfMemory
    }
}
