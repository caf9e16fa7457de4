// Why an admin call has no answer.
use error_code::error_code::ErrorCode;
use har_export::error::HarError;
use std::alloc::AllocError;
use stub_book::error::BookError;

/// The code of why an admin call has no answer.
#[derive(Clone, Copy, Debug)]
pub struct SharedError {
    pub code: ErrorCode,
}

impl From<ErrorCode> for SharedError {
    ghost use Rattle.std.specs.Prelude.{◌≡◌};

    ghost from_gives = { λ code error. error ≡ record { code = code } };

    fn from(code: ErrorCode) -> SharedError {
        SharedError { code }
    }
}

impl From<BookError> for SharedError {
    ghost use Rattle.std.specs.Prelude.{◌≡◌};

    ghost from_gives = { λ lower error. error ≡ record { code = lower.code } };

    fn from(lower: BookError) -> SharedError {
        SharedError { code: lower.code }
    }
}

impl From<HarError> for SharedError {
    ghost use Rattle.std.specs.Prelude.{◌≡◌};
    ghost use Rattle.har_export.specs.Errors.{error_code_of};

    ghost from_gives = { λ lower error. error ≡ record { code = error_code_of lower } };

    fn from(lower: HarError) -> SharedError {
        SharedError {
            code: lower.error_code(),
        }
    }
}

impl From<AllocError> for SharedError {
    ghost use Rattle.std.specs.Prelude.{◌≡◌};
    ghost use Rattle.error_code.specs.declared.error_code.ErrorCode.TheVariants.{OutOfMemory};

    ghost from_gives = { λ _ error. error ≡ record { code = OutOfMemory } };

    fn from(_error: AllocError) -> SharedError {
        SharedError {
            code: ErrorCode::OutOfMemory,
        }
    }
}
