// Why a request has no reply.
ghost use Rattle.std.specs.Prelude.{◌≡◌};
ghost use Rattle.proxy_client.specs.Errors.{error_code_of};
ghost use Rattle.proxy_client.specs.declared.error.ProxyError.TheVariants.{OutOfMemory};

use crate::elsewhere::LOOP;
use crate::failure::Failure;
use error_code::error_code::ErrorCode;
use recorder::forwarding::ForwardError;
use std::alloc::AllocError;
use std::io;
use std::io::ErrorKind;

/// The number of Linux for too many open files in the system.
const ENFILE: i32 = 23;

/// Why a request has no reply.
#[derive(Clone, Copy, Debug, PartialEq, Eq)]
pub enum ProxyError {
    /// There is no whole reply, for this reason.
    UpstreamFailed(Failure),
    OutOfMemory,
}

impl ProxyError {
    pub fn error_code(self) -> ErrorCode
        ensures { result ≡ error_code_of self }
    {
        match self {
            ProxyError::UpstreamFailed(_) => ErrorCode::UpstreamFailed,
            ProxyError::OutOfMemory => ErrorCode::OutOfMemory,
        }
    }
}

impl From<AllocError> for ProxyError {
    ghost from_gives = { λ _ error. error ≡ OutOfMemory };

    fn from(_error: AllocError) -> ProxyError {
        ProxyError::OutOfMemory
    }
}

impl From<ForwardError> for ProxyError {
    ghost use Rattle.std.specs.Prelude.{◌↔◌};
    ghost use Rattle.recorder.specs.declared.forwarding.ForwardError.TheVariants as forwarding;

    ghost from_gives = { λ error given. (given ≡ OutOfMemory) ↔ (error ≡ forwarding.OutOfMemory) };

    fn from(error: ForwardError) -> ProxyError {
        match error {
            ForwardError::Unsendable => ProxyError::UpstreamFailed(Failure::Unsendable),
            ForwardError::OutOfMemory => ProxyError::OutOfMemory,
        }
    }
}

impl From<http::Error> for ProxyError {
    ghost use Rattle.std.specs.Prelude.{◌↔◌};
    ghost use Rattle.http.specs.declared.error.Error.TheVariants as message;

    ghost from_gives = { λ error given. (given ≡ OutOfMemory) ↔ (error ≡ message.OutOfMemory) };

    fn from(error: http::Error) -> ProxyError {
        match error {
            http::Error::OutOfMemory => ProxyError::OutOfMemory,
            _ => ProxyError::UpstreamFailed(Failure::Unsendable),
        }
    }
}

impl From<hyper::Error> for ProxyError {
    ghost use Rattle.std.specs.Prelude.{◌↔◌};
    ghost use Rattle.hyper.specs.Error.{kind_of};
    ghost use Rattle.hyper.specs.declared.error.Kind.TheVariants as connection;

    ghost from_gives = { λ error given. (given ≡ OutOfMemory) ↔ (kind_of error ≡ connection.OutOfMemory) };

    fn from(error: hyper::Error) -> ProxyError {
        if error.is_out_of_memory() {
            ProxyError::OutOfMemory
        } else {
            ProxyError::UpstreamFailed(failure_of(&error))
        }
    }
}

fn failure_of(error: &hyper::Error) -> Failure {
    if error.is_parse_too_large() {
        Failure::TooLong
    } else if error.is_parse() {
        Failure::NotHttp
    } else if error.is_user() {
        Failure::Unsendable
    } else {
        Failure::Broken
    }
}

// What fails before there is a connection: the socket, or the clock.
impl From<io::Error> for ProxyError {
    ghost use Rattle.std.specs.Prelude.{◌↔◌};
    ghost use Rattle.std.specs.IoError.{error_kind};
    ghost use Rattle.std.specs.declared.io.ErrorKind.TheVariants as kind;

    ghost from_gives = { λ error given. (given ≡ OutOfMemory) ↔ (error_kind error ≡ kind.OutOfMemory) };

    fn from(error: io::Error) -> ProxyError {
        if error.kind() == ErrorKind::OutOfMemory {
            ProxyError::OutOfMemory
        } else {
            ProxyError::UpstreamFailed(failure_to_connect(&error))
        }
    }
}

fn failure_to_connect(error: &io::Error) -> Failure {
    match error.raw_os_error() {
        Some(LOOP) => Failure::OwnTarget,
        Some(libc::EMFILE | ENFILE) => Failure::NoDescriptor,
        _ => Failure::NotConnected,
    }
}
