// Why an event isn't added.
ghost use Rattle.book_history.specs.declared.error.HistoryError.TheVariants.{OutOfMemory};
ghost use Rattle.std.specs.Prelude.{◌≡◌};

use error_code::error_code::ErrorCode;
use std::alloc::{AllocError, AllocFailed};

/// Why an event isn't added.
#[derive(Clone, Copy, Debug, PartialEq, Eq)]
pub enum HistoryError {
    /// The last event has the greatest number that one may have.
    HistoryFull,
    OutOfMemory,
}

impl HistoryError {
    ghost use Rattle.book_history.specs.Errors.{error_code_of};

    pub fn error_code(self) -> ErrorCode
        ensures { result ≡ error_code_of self }
    {
        match self {
            HistoryError::HistoryFull => ErrorCode::HistoryFull,
            HistoryError::OutOfMemory => ErrorCode::OutOfMemory,
        }
    }
}

impl From<AllocError> for HistoryError {
    ghost from_gives = { λ _ error. error ≡ OutOfMemory };

    fn from(_: AllocError) -> HistoryError {
        HistoryError::OutOfMemory
    }
}
