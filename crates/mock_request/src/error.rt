// Why a request isn't taken.

use error_code::error_code::ErrorCode;
use std::alloc::AllocError;

/// Why no `Snapshot` can be made of a request.
#[derive(Clone, Copy, Debug, PartialEq, Eq)]
pub enum SnapshotError {
    /// The target is neither a path nor an `http://` URL.
    BadUrl,
    /// The body has more than `BODY_LIMIT` bytes.
    BodyTooLarge,
    OutOfMemory,
}

impl SnapshotError {
    ghost use Rattle.std.specs.Prelude.{◌≡◌};
    ghost use Rattle.mock_request.specs.SnapshotError.{error_code_of};

    /// The code under which the error is reported.
    pub fn error_code(self) -> ErrorCode
        ensures { result ≡ error_code_of self }
    {
        match self {
            SnapshotError::BadUrl => ErrorCode::BadUrl,
            SnapshotError::BodyTooLarge => ErrorCode::TooLarge,
            SnapshotError::OutOfMemory => ErrorCode::OutOfMemory,
        }
    }
}

impl From<AllocError> for SnapshotError {
    ghost use Rattle.std.specs.Prelude.{◌≡◌};
    ghost use Rattle.mock_request.specs.declared.error.SnapshotError.TheVariants.{OutOfMemory};

    ghost from_gives = { λ _ e. e ≡ OutOfMemory };

    fn from(_error: AllocError) -> SnapshotError {
        SnapshotError::OutOfMemory
    }
}
