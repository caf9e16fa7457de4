// Why a message has no answer.
use std::alloc::AllocError;
use std::error::Error;
use std::fmt;

/// Why a message has no answer, not even one that reports an error.
#[derive(Clone, Copy, Debug, PartialEq, Eq)]
pub enum ServiceError {
    OutOfMemory,
    /// The connection broke off, or what came over it is no HTTP.
    Broken,
}

impl From<AllocError> for ServiceError {
    ghost use Rattle.std.specs.Prelude.{◌≡◌};
    ghost use Rattle.http_messages.specs.declared.error.ServiceError.TheVariants.{OutOfMemory};

    ghost from_gives = { λ _ error. error ≡ OutOfMemory };

    fn from(_error: AllocError) -> ServiceError {
        ServiceError::OutOfMemory
    }
}

impl fmt::Display for ServiceError {
    fn fmt<W: fmt::Write>(&self, f: &mut fmt::Formatter<W>) -> fmt::Result {
        f.write_str(match self {
            ServiceError::OutOfMemory => "out of memory",
            ServiceError::Broken => "connection broke off",
        })
    }
}

impl Error for ServiceError {}
