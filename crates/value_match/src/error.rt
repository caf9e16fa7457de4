// Why no matcher is built.
ghost use Rattle.std.specs.Prelude.{◌≡◌};

use error_code::error_code::ErrorCode;
use std::alloc::AllocError;

/// Why no matcher is built.
#[derive(Clone, Copy, Debug, PartialEq, Eq)]
pub enum ValueError {
    /// `regex` refuses the pattern, or the pattern between `\A(?:` and `)\z`.
    BadPattern,
    OutOfMemory,
}

impl ValueError {
    ghost use Rattle.value_match.specs.Errors.{error_code_of};

    pub fn error_code(self) -> ErrorCode
        ensures { result ≡ error_code_of self }
    {
        match self {
            ValueError::BadPattern => ErrorCode::BadPattern,
            ValueError::OutOfMemory => ErrorCode::OutOfMemory,
        }
    }
}

impl From<AllocError> for ValueError {
    ghost use Rattle.value_match.specs.declared.error.ValueError.TheVariants.{OutOfMemory};

    ghost from_gives = { λ _ error. error ≡ OutOfMemory };

    fn from(_: AllocError) -> ValueError {
        ValueError::OutOfMemory
    }
}

impl From<regex::Error> for ValueError {
    ghost use Rattle.value_match.specs.Errors.{error_of_regex};

    ghost from_gives = { λ given error. error ≡ error_of_regex given };

    fn from(error: regex::Error) -> ValueError {
        match error {
            regex::Error::OutOfMemory => ValueError::OutOfMemory,
            regex::Error::Syntax(_) | regex::Error::CompiledTooBig | regex::Error::Internal => {
                ValueError::BadPattern
            }
        }
    }
}
