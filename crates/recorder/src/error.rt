// Why a recording isn't started, stopped or added to.
ghost use Rattle.recorder.specs.declared.error.RecordingError.TheVariants.{OutOfMemory};
ghost use Rattle.std.specs.Prelude.{◌≡◌};

use error_code::error_code::ErrorCode;
use std::alloc::{AllocError, AllocFailed};

/// Why a recording isn't started, stopped or added to.
#[derive(Clone, Copy, Debug, PartialEq, Eq)]
pub enum RecordingError {
    AlreadyRecording,
    /// No recording is on, or the request was served before it was started.
    NotRecording,
    BadTarget,
    RecordingFull,
    OutOfMemory,
}

impl RecordingError {
    ghost use Rattle.recorder.specs.Errors.{error_code_of};

    pub fn error_code(self) -> ErrorCode
        ensures { result ≡ error_code_of self }
    {
        match self {
            RecordingError::AlreadyRecording => ErrorCode::AlreadyRecording,
            RecordingError::NotRecording => ErrorCode::NotRecording,
            RecordingError::BadTarget => ErrorCode::BadTarget,
            RecordingError::RecordingFull => ErrorCode::RecordingFull,
            RecordingError::OutOfMemory => ErrorCode::OutOfMemory,
        }
    }
}

impl From<AllocError> for RecordingError {
    ghost from_gives = { λ _ error. error ≡ OutOfMemory };

    fn from(_: AllocError) -> RecordingError {
        RecordingError::OutOfMemory
    }
}
